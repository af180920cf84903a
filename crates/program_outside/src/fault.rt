//! Why a device could not be made, a file not read, or a line not printed.
use thiserror::Error;

/// Why a device could not be made, or a file not read.
#[derive(Clone, Copy, Debug, PartialEq, Eq, Error)]
pub enum Cause {
    /// There is nothing of this path.
    #[error("there is no such file or folder")]
    Missing,
    /// The path is that of no folder.
    #[error("it is not a folder")]
    NotAFolder,
    /// Another process has it open.
    #[error("it is in use by another process")]
    InUse,
    /// Another process listens on the port.
    #[error("the port is in use")]
    PortInUse,
    /// The system doesn't permit it.
    #[error("permission denied")]
    Denied,
    /// The disk is full, or the file system is mounted read-only.
    #[error("no space is left, or the file system is read-only")]
    Full,
    /// It is longer than the program reads.
    #[error("it is too long")]
    TooLong,
    /// Out of memory.
    #[error("out of memory")]
    NoMemory,
    /// The system refused it for another reason.
    #[error("the system refused it")]
    Other,
}

impl Cause {
    ghost use Rattle.std.specs.Prelude.{◌≡◌};
    ghost use Rattle.program_outside.specs.Outside.{words_of};

    /// The cause in plain words.
    pub fn words(self) -> &'static str
        ensures { result.now ≡ words_of self }
    {
        match self {
            Cause::Missing => "there is no such file or folder",
            Cause::NotAFolder => "it is not a folder",
            Cause::InUse => "it is in use by another process",
            Cause::PortInUse => "the port is in use",
            Cause::Denied => "permission denied",
            Cause::Full => "no space is left, or the file system is read-only",
            Cause::TooLong => "it is too long",
            Cause::NoMemory => "out of memory",
            Cause::Other => "the system refused it",
        }
    }
}

/// A device could not be made.
#[derive(Clone, Copy, Debug, PartialEq, Eq, Error)]
#[error("{cause}")]
pub struct MakeFault {
    /// Why not.
    pub cause: Cause,
}

/// Standard output could not be written.
#[derive(Clone, Copy, Debug, PartialEq, Eq, Error)]
#[error("standard output could not be written")]
pub struct SayFault;

/// Why a file isn't read.
#[derive(Clone, Copy, Debug, PartialEq, Eq, Error)]
pub enum FileRefusal {
    /// It could not be opened or read, or is too long.
    #[error("{0}")]
    MakeFault(Cause),
    /// Out of memory.
    #[error("out of memory")]
    NoMemory,
}
