//! The exit statuses of a run, and its lines on standard error.
ghost use Rattle.std.specs.Prelude.{◌≡◌, ℕ, List, IfOk};
ghost use Rattle.program_outside.specs.Outside.{warned_of};
ghost use Rattle.plant_run.specs.Causes.{Says};
ghost use Rattle.plant_run.specs.Ends.{Concludes, IsShort, CannotStart, cause_line, number_of, bad_message};

use crate::causes::StartRefusal;
use arrayvec::ArrayString;
use itoa::Buffer;
use program_outside::Outside;
use q_values::NoMemory;
use session::{Bad, End};
use std::alloc::Global;

/// Prints the line of the session's end, if it has one, and gives the exit status. It takes no memory.
pub fn conclude<O: Outside>(end: End, outside: &mut O) -> u8
    ensures { Concludes end (O.seen outside.old) (O.seen outside.new) result }
{
    match end {
        End::Closed => 0,
        End::Truncated => warned(outside, b"plant: input ends within a message", 2),
        End::BadMessage { code, at } => {
            let line = bad_message(number_of(code), at);
            warned(outside, line.as_str().as_bytes(), 3)
        }
        End::ReadFault => warned(outside, b"plant: link fault", 4),
        End::WriteFault => warned(outside, b"plant: link fault", 4),
        End::Idle => warned(outside, b"plant: idle", 5),
        End::NoMemory => warned(outside, b"plant: wsfull", 7),
    }
}

/// The number of the rule that a bad message breaks.
fn number_of(code: Bad) -> u8
    ensures { result ≡ number_of code }
{
    code as u8
}

/// The line that reports a bad message: the number of the rule that it breaks, and the offset of its first byte. Its words
/// and two numbers have at most 46 bytes.
fn bad_message(number: u8, at: u64) -> ArrayString<48>
    ensures { result.bytes ≡ bad_message number at }
{
    let mut line = ArrayString::<48>::new();
    line.push_str("plant: bad message ");
    line.push_str(Buffer::new().format(number));
    line.push_str(" at ");
    line.push_str(Buffer::new().format(at));
    line
}

/// Prints a line, and gives the exit status that it goes with.
pub fn warned<O: Outside>(outside: &mut O, line: &[u8], status: u8) -> u8
    ensures seen { O.seen outside.new ≡ warned_of (O.seen outside.old) line.now }
    ensures status { result ≡ status }
{
    outside.warn(line);
    status
}

/// Ends the program, which is out of memory.
pub fn short<O: Outside>(outside: &mut O) -> u8
    ensures { IsShort (O.seen outside.old) (O.seen outside.new) result }
{
    warned(outside, b"plant: wsfull", 7)
}

/// Ends a program that can't start: a second line says why. What refused has this name.
pub fn cannot_start<O: Outside>(
    alloc: Global,
    name: &str,
    why: &StartRefusal,
    outside: &mut O,
) -> u8
    ensures { CannotStart name.now why.now (O.seen outside.old) (O.seen outside.new) result }
{
    outside.warn(b"plant: cannot start");
    match cause_line(alloc, name.as_bytes(), why) {
        Ok(line) => outside.warn(&line),
        Err(_) => outside.warn(b"plant: there is no memory to say why"),
    }
    6
}

/// The line that says why what has this name refused.
pub fn cause_line(alloc: Global, name: &[u8], why: &StartRefusal) -> Result<Vec<u8>, NoMemory>
    ensures { IfOk result (λ line. (words : List ℕ) × Says why.now words × (line.items ≡ cause_line name.now words)) }
{
    let mut line = Vec::from_slice(alloc, b"plant: ")?;
    line.extend_from_slice(name)?;
    line.extend_from_slice(b": ")?;
    why.push_words(&mut line)?;
    Ok(line)
}
