//! What an outside in memory has to give, and what it was handed back.
use outside_mem::{MemDisk, MemLink, MemRecorder, SteadyClock};
use program_outside::Cause;
use q_values::{NoMemory, Text};
use std::alloc::Global;

/// A link, a clock and a recorder that were handed back together.
#[derive(Drop)]
pub struct Handed {
    /// The link, if there was one.
    pub link: Option<MemLink>,
    /// The clock, if there was one.
    pub clock: Option<SteadyClock>,
    /// The recorder, if there was one.
    pub recorder: Option<MemRecorder>,
}

/// A folder in memory.
#[derive(Drop)]
pub struct MemFolder {
    /// Its path.
    pub path: Text,
    /// The disk of its files; none where another process has it open.
    pub disk: Option<MemDisk>,
}

/// A file in memory.
#[derive(Drop)]
pub struct MemFile {
    /// Its path.
    pub path: Text,
    /// Its bytes.
    pub bytes: Text,
}

/// The devices that an outside in memory has still to give. The link is new, the recorder has noted nothing.
#[derive(Drop)]
pub struct MemDevices {
    /// The link of standard input and output, if it can be had.
    pub link: Option<MemLink>,
    /// What its clocks read, in nanoseconds since 2000.01.01.
    pub moment: i64,
    /// The recorder; where there is none, one without room.
    pub recorder: Option<MemRecorder>,
    /// The folder that is there, if there is one.
    pub folder: Option<MemFolder>,
    /// The file that is there, if there is one.
    pub file: Option<MemFile>,
    /// Whether lines can be printed on standard output.
    pub prints: bool,
}

/// What an outside in memory was left with.
#[derive(Drop)]
pub struct MemLeft {
    /// The lines on standard output, each with its line feed; none where it was out of memory for one.
    pub output: Option<Vec<u8>>,
    /// The lines on standard error, likewise.
    pub errors: Option<Vec<u8>>,
    /// The link, the clock and the recorder that were handed back last.
    pub handed: Option<Handed>,
    /// The disk of a folder that was handed back last.
    pub disk: Option<MemDisk>,
}

/// The disk of the folder of this path, or why there is none.
pub fn take_disk(folder: &mut Option<MemFolder>, path: &str) -> Result<MemDisk, Cause> {
    match folder {
        Some(folder) if folder.path.as_slice() == path.as_bytes() => match folder.disk.take() {
            Some(disk) => Ok(disk),
            None => Err(Cause::InUse),
        },
        _ => Err(Cause::Missing),
    }
}

/// The bytes of the file, if it is the one of this path.
pub fn copy_file(
    alloc: Global,
    file: &Option<MemFile>,
    path: &str,
) -> Result<Option<Vec<u8>>, NoMemory> {
    match file {
        Some(file) if file.path.as_slice() == path.as_bytes() => {
            Ok(Some(Vec::from_slice(alloc, file.bytes.as_slice())?))
        }
        _ => Ok(None),
    }
}
