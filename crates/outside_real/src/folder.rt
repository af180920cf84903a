//! What a disk asks of a folder and of its files.
use std::fs::File;
use std::io;
use std::os::unix::fs::FileExt;

/// A folder of numbered files.
pub trait Folder {
    /// An open file, which is read and written at offsets.
    type File: FolderFile + FileExt + Drop;

    /// Opens the file for reading and writing. Where there is none, it is made if `makes` says so, and an error of
    /// the kind `NotFound` if not.
    fn open(&self, file: u64, makes: bool) -> io::Result<Self::File>;

    /// Makes it durable which files the folder has.
    fn sync(&self) -> io::Result<()>;
}

/// What else is asked of an open file.
pub trait FolderFile {
    /// Its size, in bytes.
    fn size(&self) -> io::Result<u64>;

    /// Truncates it to a size, in bytes.
    fn truncate(&self, size: u64) -> io::Result<()>;

    /// Makes its bytes and its size durable.
    fn sync(&self) -> io::Result<()>;
}

impl FolderFile for File {
    fn size(&self) -> io::Result<u64> {
        Ok(self.metadata()?.len())
    }

    fn truncate(&self, size: u64) -> io::Result<()> {
        self.set_len(size)
    }

    fn sync(&self) -> io::Result<()> {
        self.sync_data()
    }
}
