//! A file read whole.
ghost use Rattle.std.specs.Prelude.{◌≡◌, ◌≤◌, IfOk, IfErr, IfSome, length, vec_len};
ghost use Rattle.std.specs.IoError.{error_kind};
ghost use Rattle.outside_real.specs.Reading.{reading_refused, IsPast};

use std::alloc::Global;
use std::fs::File;
use std::io;
use std::io::{ErrorKind, Read};
use std::rt::Files;
use thiserror::Error;

/// Why a file can't be read whole.
#[derive(Clone, Copy, Debug, PartialEq, Eq, Error)]
pub enum ReadRefusal {
    /// There is nothing of this path.
    #[error("there is no such file")]
    Missing,
    /// It is longer than the limit.
    #[error("it is too long")]
    TooLong,
    /// The system refused it for another reason.
    #[error("{0}")]
    Failed(ErrorKind),
    /// Out of memory.
    #[error("out of memory")]
    NoMemory,
}

impl From<io::Error> for ReadRefusal {
    ghost from_gives = { λ error refusal. refusal ≡ reading_refused (error_kind error) };

    fn from(error: io::Error) -> ReadRefusal {
        match error.kind() {
            ErrorKind::NotFound => ReadRefusal::Missing,
            ErrorKind::OutOfMemory => ReadRefusal::NoMemory,
            kind => ReadRefusal::Failed(kind),
        }
    }
}

/// Reads the file of this path whole, if it has at most `limit` bytes.
pub fn read_file<R: Files>(
    rt: &R,
    alloc: Global,
    path: &str,
    limit: u64,
) -> Result<Vec<u8>, ReadRefusal>
    ensures { IfOk result (λ bytes. vec_len bytes ≤ limit) }
{
    let file = File::open(rt, path)?;
    read_whole(alloc, file, limit)
}

/// Reads to the end, if that is at most `limit` bytes away.
pub fn read_whole<I: Read + Drop>(
    alloc: Global,
    input: I,
    limit: u64,
) -> Result<Vec<u8>, ReadRefusal>
    ensures whole { IfOk result (λ bytes. IfSome (I.remaining input) (λ all. bytes.items ≡ all)) }
    ensures small { IfOk result (λ bytes. vec_len bytes ≤ limit) }
    ensures too_long { IfErr result (λ refusal. IsPast limit (I.remaining input) refusal) }
{
    let mut bytes = Vec::new(alloc);
    input.take(limit.saturating_add(1)).read_to_end(&mut bytes)?;
    if bytes.len() as u64 > limit {
        return Err(ReadRefusal::TooLong);
    }
    Ok(bytes)
}
