//! A folder that this process has open and locked.
ghost use Rattle.std.specs.Prelude.{◌≡◌, IfOk, string_bytes};
ghost use Rattle.std.specs.IoError.{error_kind};
ghost use Rattle.outside_real.specs.Folder.{refused, Locks, folder_path, file_path};

use crate::folder::Folder;
use std::alloc::{AllocError, Global};
use std::fs::{File, OpenOptions, TryLockError};
use std::io::ErrorKind;
use std::rt::Files;
use std::{fs, io};
use thiserror::Error;

/// Why a folder can't be opened.
#[derive(Clone, Copy, Debug, PartialEq, Eq, Error)]
pub enum FolderRefusal {
    /// There is nothing of this path.
    #[error("there is no such folder")]
    Missing,
    /// It is a file, or goes through one.
    #[error("it is no folder")]
    NotAFolder,
    /// Another process has it open, or this one has.
    #[error("it is in use")]
    InUse,
    /// The system refused it for another reason.
    #[error("{0}")]
    Failed(ErrorKind),
    /// Out of memory.
    #[error("out of memory")]
    NoMemory,
}

impl From<io::Error> for FolderRefusal {
    ghost from_gives = { λ error refusal. refusal ≡ refused (error_kind error) };

    fn from(error: io::Error) -> FolderRefusal {
        match error.kind() {
            ErrorKind::NotFound => FolderRefusal::Missing,
            ErrorKind::NotADirectory => FolderRefusal::NotAFolder,
            ErrorKind::OutOfMemory => FolderRefusal::NoMemory,
            kind => FolderRefusal::Failed(kind),
        }
    }
}

/// A folder of numbered files on a local file system, which this process has open and locked. The file of the number
/// 7 is `f7`.
///
/// The lock is advisory: it keeps out other processes that ask for it, as this type does, and a second opening in
/// this process. It is on the folder itself, and leaves no file there. It ends where this value is dropped, and where
/// the process ends in whatever way, since the system gives it up then.
#[derive(Drop)]
pub struct LockedFolder<R: Files<File = File>> {
    rt: R,
    alloc: Global,
    path: String,
    /// The folder itself, which has the lock.
    handle: File,
}

impl<R: Files<File = File> + Drop> LockedFolder<R> {
    /// Opens the folder of this path and locks it. Where another has it open, this is refused at once.
    pub fn open(rt: R, alloc: Global, path: &str) -> Result<LockedFolder<R>, FolderRefusal>
        ensures { IfOk result (λ folder. folder_path folder ≡ path.now) }
    {
        let handle = File::open(&rt, path)?;
        if !handle.metadata()?.is_dir() {
            return Err(FolderRefusal::NotAFolder);
        }
        lock_of(handle.try_lock())?;
        let path = String::from_str(alloc, path).map_err(|_| FolderRefusal::NoMemory)?;
        Ok(LockedFolder {
            rt,
            alloc,
            path,
            handle,
        })
    }

    /// Makes the folder of this path where there is none, and opens it. Afterwards a power cut leaves it there. The
    /// folder that it is to stand in must be there.
    pub fn make(rt: R, alloc: Global, path: &str) -> Result<LockedFolder<R>, FolderRefusal>
        ensures { IfOk result (λ folder. folder_path folder ≡ path.now) }
    {
        match fs::create_dir(&rt, path) {
            Ok(()) => {}
            Err(error) if error.kind() == ErrorKind::AlreadyExists => {}
            Err(error) => return Err(FolderRefusal::from(error)),
        }
        let folder = LockedFolder::open(rt, alloc, path)?;
        folder.sync_parent()?;
        Ok(folder)
    }

    /// Makes it durable that the folder is where it is.
    fn sync_parent(&self) -> io::Result<()> {
        let path = self.path.as_str();
        let parent = format!(in self.alloc; "{path}/..")?;
        File::open(&self.rt, parent.as_str())?.sync_all()
    }
}

impl<R: Files<File = File>> LockedFolder<R> {
    /// The path of the file of a number: that of the folder, then `/f` and the number.
    pub fn path_of(&self, file: u64) -> Result<String, AllocError>
        ensures { IfOk result (λ path. string_bytes path ≡ file_path (folder_path self.now) file) }
    {
        let path = self.path.as_str();
        format!(in self.alloc; "{path}/f{file}")
    }
}

impl<R: Files<File = File>> Folder for LockedFolder<R> {
    type File = File;

    fn open(&self, file: u64, makes: bool) -> io::Result<File> {
        let path = self.path_of(file)?;
        OpenOptions::new()
            .read(true)
            .write(true)
            .create(makes)
            .open(&self.rt, path.as_str())
    }

    fn sync(&self) -> io::Result<()> {
        self.handle.sync_all()
    }
}

/// What the system's answer to the lock means: the folder is in use exactly where the lock would block.
fn lock_of(answer: Result<(), TryLockError>) -> Result<(), FolderRefusal>
    ensures { Locks answer result }
{
    match answer {
        Ok(()) => Ok(()),
        Err(TryLockError::WouldBlock) => Err(FolderRefusal::InUse),
        Err(TryLockError::Error(error)) => Err(FolderRefusal::from(error)),
    }
}
