//! The files of a folder by their numbers, kept open.
ghost use Rattle.std.specs.Prelude.{◌<◌, ◌+◌, ◌^◌, length, IfOk, OnOk};

use crate::folder::{Folder, FolderFile};
use std::alloc::Global;
use std::collections::HashMap;
use std::io;
use std::io::ErrorKind;
use std::os::unix::fs::FileExt;

/// How many files are kept open, beside those that have something to sync.
const MOST_OPEN: usize = 64;

/// No file reaches this number of bytes.
const SIZE_LIMIT: u64 = 1 << 63;

/// A file that is open.
#[derive(Drop)]
struct Handle<F: Drop> {
    file: F,
    /// Whether it was written or truncated since its last sync that succeeded.
    has_changes: bool,
    /// Whether the folder was synced since it was opened: before that, a power cut may leave a file out that is new.
    is_listed: bool,
}

/// The files of a folder, by number. A file that isn't there has size 0, and the first write makes it.
#[derive(Drop)]
pub struct NumberedFiles<F: Folder + Drop> {
    folder: F,
    open: HashMap<u64, Handle<F::File>>,
    /// Whether a sync of the folder failed. It may have dropped what it should have written, and a later one that
    /// succeeds doesn't bring that back.
    lost_listing: bool,
}

impl<F: Folder + Drop> NumberedFiles<F> {
    /// The files of a folder, none of them open. It takes no memory.
    pub fn new(alloc: Global, folder: F) -> NumberedFiles<F> {
        NumberedFiles {
            folder,
            open: HashMap::new(alloc),
            lost_listing: false,
        }
    }

    /// The file's size.
    pub fn size(&mut self, file: u64) -> io::Result<u64>
        ensures { IfOk result (λ n. n < 2 ^ 63) }
    {
        let size = match self.find(file)? {
            Some(handle) => handle.file.size()?,
            None => 0,
        };
        if size >= SIZE_LIMIT {
            return Err(io::Error::from(ErrorKind::FileTooLarge));
        }
        Ok(size)
    }

    /// Fills the buffer with the bytes from an offset on.
    pub fn read(&mut self, file: u64, at: u64, buf: &mut [u8]) -> io::Result<()> {
        if buf.is_empty() {
            return Ok(());
        }
        match self.find(file)? {
            Some(handle) => handle.file.read_exact_at(buf, at),
            None => Err(io::Error::from(ErrorKind::UnexpectedEof)),
        }
    }

    /// Writes the bytes from an offset on.
    pub fn write(&mut self, file: u64, at: u64, bytes: &[u8]) -> io::Result<()>
        ensures { OnOk result (at + length bytes.now < 2 ^ 63) }
    {
        if at >= SIZE_LIMIT || bytes.len() as u64 >= SIZE_LIMIT - at {
            return Err(io::Error::from(ErrorKind::FileTooLarge));
        }
        let handle = self.find_or_make(file)?;
        handle.has_changes = true;
        handle.file.write_all_at(bytes, at)
    }

    /// Truncates the file to a size.
    pub fn truncate(&mut self, file: u64, size: u64) -> io::Result<()> {
        match self.find(file)? {
            Some(handle) => {
                handle.has_changes = true;
                handle.file.truncate(size)
            }
            None if size == 0 => Ok(()),
            None => Err(io::Error::from(ErrorKind::NotFound)),
        }
    }

    /// Makes the file durable: what was written to it and truncated, and at its first sync that the folder has it.
    pub fn sync(&mut self, file: u64) -> io::Result<()> {
        let Some(handle) = self.find(file)? else {
            return Ok(());
        };
        handle.file.sync()?;
        handle.has_changes = false;
        if handle.is_listed {
            return Ok(());
        }
        self.sync_folder()?;
        if let Some(handle) = self.open.get_mut(&file) {
            handle.is_listed = true;
        }
        Ok(())
    }

    fn sync_folder(&mut self) -> io::Result<()> {
        if self.lost_listing {
            return Err(io::Error::from(ErrorKind::Other));
        }
        let synced = self.folder.sync();
        self.lost_listing = synced.is_err();
        synced
    }

    /// The file, if there is one.
    fn find(&mut self, file: u64) -> io::Result<Option<&mut Handle<F::File>>> {
        if !self.open.contains_key(&file) {
            match self.folder.open(file, false) {
                Ok(opened) => self.keep(file, opened)?,
                Err(error) if error.kind() == ErrorKind::NotFound => return Ok(None),
                Err(error) => return Err(error),
            }
        }
        Ok(self.open.get_mut(&file))
    }

    /// The file, which is made where there is none.
    fn find_or_make(&mut self, file: u64) -> io::Result<&mut Handle<F::File>> {
        if !self.open.contains_key(&file) {
            let opened = self.folder.open(file, true)?;
            self.keep(file, opened)?;
        }
        match self.open.get_mut(&file) {
            Some(handle) => Ok(handle),
            None => Err(io::Error::from(ErrorKind::NotFound)),
        }
    }

    /// Keeps an open file. Where there are many, those that have nothing to sync are closed.
    fn keep(&mut self, number: u64, file: F::File) -> io::Result<()> {
        if self.open.len() >= MOST_OPEN {
            self.open.retain(|_, handle| handle.has_changes);
        }
        let handle = Handle {
            file,
            has_changes: false,
            is_listed: false,
        };
        self.open.insert(number, handle)?;
        Ok(())
    }
}
