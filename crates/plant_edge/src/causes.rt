//! What the system's refusals are to a program.
ghost use Rattle.std.specs.Prelude.{◌≡◌};
ghost use Rattle.plant_edge.specs.Causes.{cause_of_kind, cause_of_folder, cause_of_port, refusal_of_file};

use outside_real::{FolderRefusal, PortRefusal, ReadRefusal};
use program_outside::{Cause, FileRefusal};
use std::io::ErrorKind;

/// Why a folder can't be opened.
pub fn folder_cause(why: FolderRefusal) -> Cause
    ensures { result ≡ cause_of_folder why }
{
    match why {
        FolderRefusal::Missing => Cause::Missing,
        FolderRefusal::NotAFolder => Cause::NotAFolder,
        FolderRefusal::InUse => Cause::InUse,
        FolderRefusal::Failed(kind) => kind_cause(kind),
        FolderRefusal::NoMemory => Cause::NoMemory,
    }
}

/// Why a port isn't listened on, or a connection not accepted.
pub fn port_cause(why: PortRefusal) -> Cause
    ensures { result ≡ cause_of_port why }
{
    match why {
        PortRefusal::InUse => Cause::PortInUse,
        PortRefusal::Failed(kind) => kind_cause(kind),
    }
}

/// Why a file isn't read.
pub fn file_refusal(why: ReadRefusal) -> FileRefusal
    ensures { result ≡ refusal_of_file why }
{
    match why {
        ReadRefusal::Missing => FileRefusal::MakeFault(Cause::Missing),
        ReadRefusal::TooLong => FileRefusal::MakeFault(Cause::TooLong),
        ReadRefusal::Failed(kind) => FileRefusal::MakeFault(kind_cause(kind)),
        ReadRefusal::NoMemory => FileRefusal::NoMemory,
    }
}

/// What an error of this kind is to a program.
fn kind_cause(kind: ErrorKind) -> Cause
    ensures { result ≡ cause_of_kind kind }
{
    match kind {
        ErrorKind::PermissionDenied => Cause::Denied,
        ErrorKind::StorageFull => Cause::Full,
        ErrorKind::ReadOnlyFilesystem => Cause::Full,
        ErrorKind::OutOfMemory => Cause::NoMemory,
        _ => Cause::Other,
    }
}
