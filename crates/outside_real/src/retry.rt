//! Reads and writes that are tried again where they would block, or where a signal interrupted them, and what a read means
//! to a link.
ghost use Rattle.std.specs.Prelude.{◌≡◌, ◌⊎◌, ◌<◌, length, take, IfOk, OnErr, MatchBool};
ghost use Rattle.std.specs.IoError.{error_kind};
ghost use Rattle.std.specs.Io.{ReadsAtMost};
ghost use Rattle.std.specs.Io.KnownBytes.{Consumes, IsAtEnd, Keeps};
ghost use Rattle.outside_real.specs.Passed.{Sent, Means, IsTimeout};

use outside_api::Got;
use std::io::{ErrorKind, Read, Write};
use std::time::{Clock, Duration};
use std::{io, thread};

/// How often a read that would block is tried before it times out.
const READ_TRIES: u32 = 50;

/// How long a call that would block sleeps before it is tried again, in milliseconds.
const RETRY_MILLISECONDS: u64 = 1;

/// Whether a read that failed so timed out.
fn is_timeout(kind: ErrorKind) -> bool
    ensures { MatchBool result (IsTimeout kind) (IsTimeout kind → ⊥) }
{
    matches!(kind, ErrorKind::TimedOut | ErrorKind::WouldBlock)
}

/// What the result of a read into a buffer of `room` bytes means to a link: a fault only where the read failed, a timeout
/// only where it timed out or would block, the end only where it gave no byte though there was room.
pub fn got_of(read: io::Result<usize>, room: usize) -> Got
    ensures { Means (λ error. IsTimeout (error_kind error)) read room result }
{
    match read {
        Ok(0) if 0 < room => Got::End,
        Ok(count) => Got::Bytes(count),
        Err(error) if is_timeout(error.kind()) => Got::Idle,
        Err(_) => Got::Failed,
    }
}

/// Whether a call that failed so is tried again at once: a signal interrupted it.
fn is_interrupted(kind: ErrorKind) -> bool {
    matches!(kind, ErrorKind::Interrupted)
}

/// Whether a call that failed so is tried again after a pause: it would block.
fn would_block(kind: ErrorKind) -> bool {
    matches!(kind, ErrorKind::WouldBlock)
}

fn pause<R: Clock>(rt: &R) {
    thread::sleep(rt, Duration::from_millis(RETRY_MILLISECONDS));
}

/// One read, which isn't interrupted by a signal.
pub(crate) fn read_once<I: Read>(input: &mut I, buf: &mut [u8]) -> io::Result<usize>
    ensures bound { ReadsAtMost result buf.new }
    ensures ok { IfOk result (λ n. Consumes (I.remaining input.old) (I.remaining input.new) (take n buf.new)) }
    ensures end { IfOk result (λ n. n ≡ 0 → 0 < length buf.old → IsAtEnd (I.remaining input.new)) }
    ensures err { OnErr result (Keeps (I.remaining input.old) (I.remaining input.new)) }
    ensures size { length buf.new ≡ length buf.old }
{
    for _ in 0..u64::MAX {
        match input.read(buf) {
            Ok(count) => return Ok(count),
            Err(error) => {
                if !is_interrupted(error.kind()) {
                    return Err(error);
                }
            }
        }
    }
    Err(io::Error::from(ErrorKind::Interrupted))
}

/// Reads; where the read would block, sleeps and tries again, and times out after 50 milliseconds.
pub fn read_waiting<R: Clock, I: Read>(rt: &R, input: &mut I, buf: &mut [u8]) -> io::Result<usize>
    ensures bound { ReadsAtMost result buf.new }
    ensures ok { IfOk result (λ n. Consumes (I.remaining input.old) (I.remaining input.new) (take n buf.new)) }
    ensures end { IfOk result (λ n. n ≡ 0 → 0 < length buf.old → IsAtEnd (I.remaining input.new)) }
    ensures err { OnErr result (Keeps (I.remaining input.old) (I.remaining input.new)) }
    ensures size { length buf.new ≡ length buf.old }
{
    for _ in 0..READ_TRIES {
        match read_once(input, buf) {
            Ok(count) => return Ok(count),
            Err(error) => {
                if !would_block(error.kind()) {
                    return Err(error);
                }
            }
        }
        pause(rt);
    }
    Err(io::Error::from(ErrorKind::TimedOut))
}

/// Writes all bytes and flushes. Where the writer would block, sleeps and tries again. After a fault a prefix of the bytes
/// was written.
pub fn write_waiting<R: Clock, O: Write>(rt: &R, output: &mut O, bytes: &[u8]) -> io::Result<()>
    ensures { Sent (O.contents output.old) (O.contents output.new) bytes.now result }
{
    let mut rest = bytes;
    for _ in 0..u64::MAX {
        if rest.is_empty() {
            return flush_waiting(rt, output);
        }
        match output.write(rest) {
            Ok(0) => return Err(io::Error::from(ErrorKind::WriteZero)),
            Ok(count) => rest = &rest[count..],
            Err(error) => {
                if !may_try_again(rt, error.kind()) {
                    return Err(error);
                }
            }
        }
    }
    Err(io::Error::from(ErrorKind::WriteZero))
}

/// Flushes. Where the writer would block, sleeps and tries again.
fn flush_waiting<R: Clock, O: Write>(rt: &R, output: &mut O) -> io::Result<()>
    ensures { Keeps (O.contents output.old) (O.contents output.new) }
{
    for _ in 0..u64::MAX {
        match output.flush() {
            Ok(()) => return Ok(()),
            Err(error) => {
                if !may_try_again(rt, error.kind()) {
                    return Err(error);
                }
            }
        }
    }
    Err(io::Error::from(ErrorKind::WriteZero))
}

/// Whether a write that failed so is tried again; where it would block, this sleeps first.
fn may_try_again<R: Clock>(rt: &R, kind: ErrorKind) -> bool {
    if would_block(kind) {
        pause(rt);
        return true;
    }
    is_interrupted(kind)
}
