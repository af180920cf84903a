//! A link over a reader and a writer.
ghost use Rattle.std.specs.Prelude.{◌≡◌};

use outside_api::{Got, Link, LinkFault};
use outside_real::{got_of, read_waiting, write_waiting};
use std::io::{Read, Write};
use std::time::Clock;

/// The link of a reader and a writer, such as standard input and output. It counts its faults and its read timeouts, and
/// keeps no bytes. Each count saturates at 2^64 - 1.
///
/// Where a call would block, it sleeps for a moment and is tried again; a read times out after 50 milliseconds. A call
/// that a signal interrupted is tried again at once.
#[derive(Drop)]
pub struct StandardLink<'a, R, I, O> {
    /// By its clock a call sleeps that would block.
    rt: &'a R,
    /// Where bytes are read from.
    input: I,
    /// Where bytes are written to.
    output: O,
    /// Whether a read found the end of the input. Each later read finds it again.
    ended: bool,
    /// How many reads failed.
    read_faults: u64,
    /// How many writes failed.
    write_faults: u64,
    /// How many reads timed out.
    idles: u64,
}

impl<'a, R: Clock, I: Read, O: Write> StandardLink<'a, R, I, O> {
    ghost use Rattle.outside_api.specs.Link.{IsFresh};
    ghost use Rattle.plant_edge.specs.Link.{link_shown};

    /// A link that reads from `input` and writes to `output`, its counts 0.
    pub fn new(rt: &'a R, input: I, output: O) -> StandardLink<'a, R, I, O>
        ensures { IsFresh (link_shown result) }
    {
        StandardLink {
            rt,
            input,
            output,
            ended: false,
            read_faults: 0,
            write_faults: 0,
            idles: 0,
        }
    }
}

impl<'a, R: Clock, I: Read, O: Write> Link for StandardLink<'a, R, I, O> {
    ghost use Rattle.outside_api.specs.Link.{Reads, Writes};
    ghost use Rattle.outside_real.specs.Passed.{Came, Sent};
    ghost use Rattle.plant_edge.specs.Link.{link_shown, coming_by, sent_by};

    ghost shown = { link_shown };

    fn read(&mut self, buf: &mut [u8]) -> Got
        ensures reads { Reads (link_shown self.old) (link_shown self.new) buf.new result }
        ensures came { Came self.old.ended (coming_by I.remaining self.old) (coming_by I.remaining self.new) buf.new result }
    {
        if self.ended {
            return Got::End;
        }
        let room = buf.len();
        let read = read_waiting(self.rt, &mut self.input, buf);
        let got = got_of(read, room);
        match got {
            Got::Bytes(_) => {}
            Got::End => self.ended = true,
            Got::Idle => self.idles = self.idles.saturating_add(1),
            Got::Failed => self.read_faults = self.read_faults.saturating_add(1),
        }
        got
    }

    fn write(&mut self, bytes: &[u8]) -> Result<(), LinkFault>
        ensures writes { Writes (link_shown self.old) (link_shown self.new) bytes.now result }
        ensures sent { Sent (sent_by O.contents self.old) (sent_by O.contents self.new) bytes.now result }
    {
        if write_waiting(self.rt, &mut self.output, bytes).is_ok() {
            return Ok(());
        }
        self.write_faults = self.write_faults.saturating_add(1);
        Err(LinkFault)
    }
}
