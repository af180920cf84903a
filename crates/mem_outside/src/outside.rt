//! An outside in memory.
ghost use Rattle.std.specs.Prelude.{◌≡◌, ◌++◌, [], ◌∷◌, Some, IfSome};

use crate::devices::{Handed, MemDevices, MemLeft, copy_file, take_disk};
use ghost_history::History;
use outside_mem::{MemDisk, MemLink, MemRecorder, NoGate, SteadyClock};
use program_outside::{Cause, FileRefusal, MakeFault, Outside, SayFault};
use std::alloc::Global;
use std::marker::Model;
use std::snapshot::Snapshot;

// A folder that was opened, with its disk as it was then, which only contracts see.
#[derive(Drop)]
struct OpenedFolder {
    path: History<u8>,
    disk: Snapshot<MemDisk>,
}

// A file that was read, which only contracts see.
#[derive(Drop)]
struct ReadFile {
    path: History<u8>,
    bytes: History<u8>,
}

/// An outside in memory: it gives one link, one recorder, one folder and one file, made beforehand, and steady clocks, and
/// keeps what was printed and what was handed back. It reports all of it. It listens on the port that it is told to, but no
/// connection can be accepted there: each accept is a fault.
#[derive(Drop)]
pub struct MemOutside {
    alloc: Global,
    // What it has still to give.
    devices: MemDevices,
    // How many devices could not be made, and files not read.
    make_faults: u64,
    // How often it could not accept a connection.
    listen_faults: u64,
    // The port that it listens on.
    listening: Option<u16>,
    // How many lines could not be printed on standard output.
    say_faults: u64,
    // The links that it gave, as they were then, which only contracts see.
    links: History<MemLink>,
    // The folders opened and the files read, which only contracts see.
    opened: History<OpenedFolder>,
    files: History<ReadFile>,
    // The lines on standard output and on standard error, which only contracts see.
    said: History<History<u8>>,
    warned: History<History<u8>>,
    // The same lines, each with its line feed, or none once it was out of memory for one.
    output: Option<Vec<u8>>,
    errors: Option<Vec<u8>>,
    // What was handed back, which only contracts see.
    backs: History<Handed>,
    kept: History<MemDisk>,
    // What of it was handed back last.
    handed: Option<Handed>,
    disk: Option<MemDisk>,
}

impl Model for MemOutside {
    ghost use Rattle.std.specs.Prelude.{◌≡◌, map, IfSome};
    ghost use Rattle.mem_outside.specs.Outside.{MemOutsideView, AreUnused, IsLast, lines_of, opened_of, file_of};

    ghost Value = { MemOutsideView };

    ghost view = { λ o. record {
      make_faults = o.make_faults;
      listen_faults = o.listen_faults;
      listening = o.listening;
      say_faults = o.say_faults;
      links = o.links;
      opened = map opened_of o.opened;
      files = map file_of o.files;
      said = o.said;
      warned = o.warned;
      backs = o.backs;
      kept = o.kept;
    } };

    ghost invariant = { λ o. AreUnused o.devices
        × IfSome o.output (λ bytes. bytes.items ≡ lines_of o.said)
        × IfSome o.errors (λ bytes. bytes.items ≡ lines_of o.warned)
        × IsLast o.handed o.backs
        × IsLast o.disk o.kept };
}

impl MemOutside {
    ghost use Rattle.program_outside.specs.Outside.{with_fault, read_of, opened_of};
    ghost use Rattle.outside_mem.specs.MemDisk.{shown_by};
    ghost use Rattle.mem_outside.specs.Outside.{AreUnused, IsLeft, new_outside, outside_shown};

    /// An outside that gives these devices.
    pub fn new(alloc: Global, devices: MemDevices) -> MemOutside
        requires { AreUnused devices }
        ensures { result ≡ new_outside }
    {
        MemOutside {
            alloc,
            devices,
            make_faults: 0,
            listen_faults: 0,
            listening: None,
            say_faults: 0,
            links: History::new(),
            opened: History::new(),
            files: History::new(),
            said: History::new(),
            warned: History::new(),
            output: Some(Vec::new(alloc)),
            errors: Some(Vec::new(alloc)),
            backs: History::new(),
            kept: History::new(),
            handed: None,
            disk: None,
        }
    }

    /// How many devices could not be made, and files not read.
    pub fn make_faults(&self) -> u64
        ensures { result ≡ self.now.make_faults }
    {
        self.make_faults
    }

    /// What it was left with.
    pub fn into_left(self) -> MemLeft
        ensures { IsLeft self result }
    {
        let MemOutside {
            output,
            errors,
            handed,
            disk,
            ..
        } = self;
        MemLeft {
            output,
            errors,
            handed,
            disk,
        }
    }

    // A fault, which is counted.
    fn fault(&mut self, cause: Cause) -> MakeFault
        ensures { outside_shown self.new ≡ with_fault (outside_shown self.old) }
    {
        self.make_faults = self.make_faults.saturating_add(1);
        MakeFault { cause }
    }

    // Notes that a file was read.
    fn note_read(&mut self, path: &str, bytes: &[u8])
        ensures { outside_shown self.new ≡ read_of (outside_shown self.old) path.now bytes.now }
    {
        self.files.push(&ReadFile {
            path: told(path.as_bytes()),
            bytes: told(bytes),
        });
    }

    // Notes that a folder was opened.
    fn note_opened(&mut self, path: &str, disk: &MemDisk)
        ensures { outside_shown self.new ≡ opened_of (outside_shown self.old) path.now (shown_by disk.now) }
    {
        self.opened.push(&OpenedFolder {
            path: told(path.as_bytes()),
            disk: Snapshot::of(disk),
        });
    }
}

impl Outside for MemOutside {
    ghost use Rattle.std.specs.Option.{option_map};
    ghost use Rattle.outside_mem.specs.Recorder.{noted_by};
    ghost use Rattle.program_outside.specs.Outside.{handed_back};
    ghost use Rattle.mem_outside.specs.Outside.{outside_shown};

    type Link = MemLink;

    type Disk = MemDisk;

    type Clock = SteadyClock;

    type Gate = NoGate;

    type Recorder = MemRecorder;

    ghost seen = { outside_shown };

    fn standard(&mut self) -> Result<MemLink, MakeFault> {
        match self.devices.link.take() {
            Some(link) => {
                self.links.push(&link);
                Ok(link)
            }
            None => Err(self.fault(Cause::Other)),
        }
    }

    fn listen(&mut self, port: u16) -> Result<(), MakeFault> {
        self.listening = Some(port);
        Ok(())
    }

    fn accept(&mut self) -> Result<Option<MemLink>, MakeFault> {
        self.listen_faults = self.listen_faults.saturating_add(1);
        Err(MakeFault {
            cause: Cause::Other,
        })
    }

    fn folder(&mut self, _alloc: Global, path: &str) -> Result<MemDisk, MakeFault> {
        match take_disk(&mut self.devices.folder, path) {
            Ok(disk) => {
                self.note_opened(path, &disk);
                Ok(disk)
            }
            Err(cause) => Err(self.fault(cause)),
        }
    }

    fn make_folder(&mut self, _alloc: Global, path: &str) -> Result<MemDisk, MakeFault> {
        match take_disk(&mut self.devices.folder, path) {
            Ok(disk) => {
                self.note_opened(path, &disk);
                Ok(disk)
            }
            Err(Cause::Missing) => {
                let disk = MemDisk::new(self.alloc);
                self.note_opened(path, &disk);
                Ok(disk)
            }
            Err(cause) => Err(self.fault(cause)),
        }
    }

    fn clock(&mut self) -> SteadyClock {
        SteadyClock::new(self.devices.moment)
    }

    fn gate(&mut self) -> NoGate {
        NoGate
    }

    fn recorder(&mut self) -> MemRecorder {
        match self.devices.recorder.take() {
            Some(recorder) => recorder,
            None => MemRecorder::without_room(self.alloc),
        }
    }

    fn read_file(&mut self, alloc: Global, path: &str) -> Result<Vec<u8>, FileRefusal> {
        match copy_file(alloc, &self.devices.file, path) {
            Ok(Some(bytes)) => {
                self.note_read(path, &bytes);
                Ok(bytes)
            }
            Ok(None) => {
                let MakeFault { cause } = self.fault(Cause::Missing);
                Err(FileRefusal::MakeFault(cause))
            }
            Err(_) => Err(FileRefusal::NoMemory),
        }
    }

    fn say(&mut self, line: &[u8]) -> Result<(), SayFault> {
        if !self.devices.prints {
            self.say_faults = self.say_faults.saturating_add(1);
            return Err(SayFault);
        }
        self.said.push(&told(line));
        self.output = match self.output.take() {
            Some(bytes) => with_line(bytes, line),
            None => None,
        };
        Ok(())
    }

    fn warn(&mut self, line: &[u8]) {
        self.warned.push(&told(line));
        self.errors = match self.errors.take() {
            Some(bytes) => with_line(bytes, line),
            None => None,
        };
    }

    fn back(
        &mut self,
        link: Option<MemLink>,
        clock: Option<SteadyClock>,
        recorder: Option<MemRecorder>,
    )
        ensures { outside_shown self.new ≡ handed_back (outside_shown self.old) (option_map (λ l. l.shown) link) (option_map (λ c. Some c.given) clock)
            (option_map noted_by recorder) }
    {
        let handed = Handed {
            link,
            clock,
            recorder,
        };
        self.backs.push(&handed);
        self.handed = Some(handed);
    }

    fn keep(&mut self, disk: MemDisk) {
        self.kept.push(&disk);
        self.disk = Some(disk);
    }
}

// Bytes that only contracts see.
fn told(bytes: &[u8]) -> History<u8>
    ensures { result ≡ bytes.now }
{
    let mut history = History::new();
    history.extend(bytes);
    history
}

// The bytes, the line and a line feed; none where out of memory.
fn with_line(mut bytes: Vec<u8>, line: &[u8]) -> Option<Vec<u8>>
    ensures { IfSome result (λ all. all.items ≡ bytes.items ++ line.now ++ 10 ∷ []) }
{
    bytes.extend_from_slice(line).ok()?;
    bytes.push(b'\n').ok()?;
    Some(bytes)
}
