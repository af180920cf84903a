//! The disk over a folder whose calls are noted and fail as planned.
use outside_api::Disk;
use outside_real::{Folder, FolderDisk, FolderFile};
use std::cell::Cell;
use std::io;
use std::io::ErrorKind;
use std::os::unix::fs::FileExt;

/// The folder has room for this many bytes.
const ROOM: usize = 4;

/// What was asked of a folder, and how its calls go.
#[derive(Drop)]
struct Notes {
    /// The calls but for reads and writes, each a digit: 1 opens a file, 2 syncs one, 3 syncs the folder, 4 truncates
    /// one.
    calls: Cell<u64>,
    /// How often bytes were read or written. At odd times a signal interrupts the call.
    turns: Cell<u64>,
    /// Whether syncs of the folder fail.
    folder_fails: Cell<bool>,
    /// The bytes of each file.
    bytes: Cell<[u8; ROOM]>,
}

impl Notes {
    fn new() -> Notes {
        Notes {
            calls: Cell::new(0),
            turns: Cell::new(0),
            folder_fails: Cell::new(false),
            bytes: Cell::new([0; ROOM]),
        }
    }

    fn note(&self, call: u64) {
        self.calls
            .set(self.calls.get().wrapping_mul(10).wrapping_add(call));
    }

    /// The calls noted since the last look.
    fn look(&self) -> u64 {
        let calls = self.calls.get();
        self.calls.set(0);
        calls
    }

    fn turn(&self) -> io::Result<()> {
        let turns = self.turns.get();
        self.turns.set(turns.wrapping_add(1));
        if turns % 2 == 1 {
            return Err(io::Error::from(ErrorKind::Interrupted));
        }
        Ok(())
    }
}

/// A folder in which each file is there, and all have the same bytes.
#[derive(Drop)]
struct PlannedFolder<'a> {
    notes: &'a Notes,
}

#[derive(Drop)]
struct PlannedFile<'a> {
    notes: &'a Notes,
}

impl<'a> Folder for PlannedFolder<'a> {
    type File = PlannedFile<'a>;

    fn open(&self, file: u64, makes: bool) -> io::Result<PlannedFile<'a>> {
        if file == 0 && !makes {
            return Err(io::Error::from(ErrorKind::NotFound));
        }
        if file == 9 {
            return Err(io::Error::from(ErrorKind::PermissionDenied));
        }
        self.notes.note(1);
        Ok(PlannedFile { notes: self.notes })
    }

    fn sync(&self) -> io::Result<()> {
        self.notes.note(3);
        if self.notes.folder_fails.get() {
            return Err(io::Error::from(ErrorKind::Other));
        }
        Ok(())
    }
}

impl<'a> FolderFile for PlannedFile<'a> {
    fn size(&self) -> io::Result<u64> {
        Ok(u64::MAX)
    }

    fn truncate(&self, _size: u64) -> io::Result<()> {
        self.notes.note(4);
        Ok(())
    }

    fn sync(&self) -> io::Result<()> {
        self.notes.note(2);
        Ok(())
    }
}

/// One byte at a time.
impl<'a> FileExt for PlannedFile<'a> {
    fn read_at(&self, buf: &mut [u8], offset: u64) -> io::Result<usize> {
        self.notes.turn()?;
        let bytes = self.notes.bytes.get();
        match (buf, bytes.get(offset as usize)) {
            ([first, ..], Some(byte)) => {
                *first = *byte;
                Ok(1)
            }
            _ => Ok(0),
        }
    }

    fn write_at(&self, buf: &[u8], offset: u64) -> io::Result<usize> {
        self.notes.turn()?;
        let mut bytes = self.notes.bytes.get();
        match (buf, bytes.get_mut(offset as usize)) {
            ([first, ..], Some(byte)) => *byte = *first,
            _ => return Err(io::Error::from(ErrorKind::StorageFull)),
        }
        self.notes.bytes.set(bytes);
        Ok(1)
    }
}

// Fails with a body that writes or reads once, that gives up where a signal interrupts, or that swallows a full disk.
#[test]
fn short_and_interrupted_calls_go_on(rt: HostRuntime) {
    let notes = Notes::new();
    let mut disk = FolderDisk::new(rt.alloc(), PlannedFolder { notes: &notes });
    let mut buf = [0; 3];
    assert!(rt; disk.write_at(1, 0, b"abc").is_ok());
    assert!(rt; disk.read(1, 0, &mut buf).is_ok());
    assert_eq!(rt; &buf, b"abc");
    assert_eq!(rt; disk.faults(), 0);
    assert!(rt; disk.write_at(1, 2, b"def").is_err());
    assert!(rt; disk.read(1, 2, &mut buf).is_err());
    assert!(rt; disk.size(1).is_err());
    assert!(rt; disk.write_at(9, 0, b"a").is_err());
    assert_eq!(rt; disk.faults(), 4);
}

// Fails with a body that syncs the folder at no sync, at each sync, or before the file.
#[test]
fn first_sync_of_a_file_syncs_the_folder(rt: HostRuntime) {
    let notes = Notes::new();
    let mut disk = FolderDisk::new(rt.alloc(), PlannedFolder { notes: &notes });
    let written = disk.write_at(0, 0, b"a").is_ok() && disk.sync(0).is_ok() && disk.sync(0).is_ok();
    assert!(rt; written);
    assert_eq!(rt; notes.look(), 1232);
    assert!(rt; disk.cut(0, 0).is_ok() && disk.sync(0).is_ok());
    assert_eq!(rt; notes.look(), 42);
    assert!(rt; disk.sync(1).is_ok() && disk.sync(1).is_ok());
    assert_eq!(rt; notes.look(), 1232);
    assert_eq!(rt; disk.faults(), 0);
}

// Fails with a body that trusts a sync of the folder that succeeds after one that failed.
#[test]
fn failed_sync_of_the_folder_isnt_forgotten(rt: HostRuntime) {
    let notes = Notes::new();
    let mut disk = FolderDisk::new(rt.alloc(), PlannedFolder { notes: &notes });
    assert!(rt; disk.write_at(1, 0, b"a").is_ok() && disk.sync(1).is_ok());
    notes.folder_fails.set(true);
    assert!(rt; disk.write_at(2, 0, b"a").is_ok() && disk.sync(2).is_err());
    notes.folder_fails.set(false);
    assert!(rt; disk.sync(2).is_err());
    assert!(rt; disk.write_at(3, 0, b"a").is_ok() && disk.sync(3).is_err());
    assert!(rt; disk.sync(1).is_ok());
    assert_eq!(rt; disk.faults(), 3);
}

/// Whether each file of these numbers can be written, and synced if `syncs` says so.
fn fill<D: Disk>(disk: &mut D, from: u64, to: u64, syncs: bool) -> bool {
    for file in from..to {
        if disk.write_at(file, 0, b"a").is_err() || syncs && disk.sync(file).is_err() {
            return false;
        }
    }
    true
}

// Fails with a body that keeps each file open, and with one that closes files that have something to sync.
#[test]
fn synced_files_are_closed_where_many_are_open(rt: HostRuntime) {
    let notes = Notes::new();
    let mut disk = FolderDisk::new(rt.alloc(), PlannedFolder { notes: &notes });
    assert!(rt; fill(&mut disk, 100, 200, true));
    let _filled = notes.look();
    assert!(rt; disk.sync(100).is_ok());
    assert_eq!(rt; notes.look(), 123);
    assert!(rt; disk.sync(199).is_ok());
    assert_eq!(rt; notes.look(), 2);
    assert!(rt; fill(&mut disk, 200, 400, false));
    let _filled = notes.look();
    assert!(rt; disk.sync(200).is_ok());
    assert_eq!(rt; notes.look(), 23);
    assert_eq!(rt; disk.faults(), 0);
}
