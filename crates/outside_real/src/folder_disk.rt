//! A disk whose files are those of a folder.
ghost use Rattle.std.specs.Prelude.{◌≡◌, ◌<◌, ◌≤◌, ◌+◌, ◌^◌, IfOk, OnOk, IsTrue, length, take, drop};
ghost use Rattle.outside_real.specs.FolderDisk.{disk_shown, IsCounted};

use crate::folder::Folder;
use crate::numbered_files::NumberedFiles;
use outside_api::{Disk, DiskFault};
use std::alloc::Global;
use std::io;

/// A disk whose files are those of a folder. It reports nothing of what they hold, and counts its faults.
///
/// Each error of the system is a fault, as are a read past the end of a file, a write that would reach 2^63 bytes,
/// and being out of memory. A write that the system takes in pieces is one write here, and a signal that interrupts a
/// call is no fault. The first sync of a file since it was opened also syncs the folder, so that a power cut leaves
/// the file there. Once that has failed, each first sync is a fault.
///
/// The files that it uses are kept open. Where there are many, those that have nothing to sync are closed.
#[derive(Drop)]
pub struct FolderDisk<F: Folder + Drop> {
    files: NumberedFiles<F>,
    /// How many calls failed.
    faults: u64,
}

impl<F: Folder + Drop> FolderDisk<F> {
    /// The disk of a folder's files, its count of faults 0. It takes no memory.
    pub fn new(alloc: Global, folder: F) -> FolderDisk<F>
        ensures { (disk_shown result).faults ≡ 0 }
    {
        FolderDisk {
            files: NumberedFiles::new(alloc, folder),
            faults: 0,
        }
    }

    /// How many calls failed. The count saturates at 2^64 - 1.
    pub fn faults(&self) -> u64
        ensures { result ≡ (disk_shown self.now).faults }
    {
        self.faults
    }
}

impl<F: Folder + Drop> Disk for FolderDisk<F> {
    ghost use Rattle.outside_api.specs.Disk.{Counts, Looks, Changes, IsWithin, Writing, Cutting, Syncing};

    ghost shown = { disk_shown };

    fn size(&mut self, file: u64) -> Result<u64, DiskFault> {
        let answer = self.files.size(file);
        counted(&mut self.faults, answer)
    }

    fn read(&mut self, file: u64, at: u64, buf: &mut [u8]) -> Result<(), DiskFault> {
        let answer = self.files.read(file, at, buf);
        counted(&mut self.faults, answer)
    }

    fn write_at(&mut self, file: u64, at: u64, bytes: &[u8]) -> Result<(), DiskFault> {
        let answer = self.files.write(file, at, bytes);
        counted(&mut self.faults, answer)
    }

    fn cut(&mut self, file: u64, size: u64) -> Result<(), DiskFault> {
        let answer = self.files.truncate(file, size);
        counted(&mut self.faults, answer)
    }

    fn sync(&mut self, file: u64) -> Result<(), DiskFault> {
        let answer = self.files.sync(file);
        counted(&mut self.faults, answer)
    }
}

/// The answer of the system as that of the disk, with a fault counted.
fn counted<T: Drop>(faults: &mut u64, answer: io::Result<T>) -> Result<T, DiskFault>
    ensures { IsCounted faults.old faults.new answer result }
{
    match answer {
        Ok(value) => Ok(value),
        Err(_) => {
            *faults = faults.saturating_add(1);
            Err(DiskFault)
        }
    }
}
