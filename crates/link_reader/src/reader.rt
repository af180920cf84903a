//! Reading a link in large pieces, and finding the messages in its stream.
ghost use Rattle.std.specs.Prelude.{◌≡◌, ◌≤◌, ◌<◌, [], length, IfOk};
ghost use Rattle.outside_api.specs.Link.{Reads};
ghost use Rattle.q_values.specs.Limits.{AreLimits};
ghost use Rattle.link_reader.specs.Arrival.{Arrives};

use ipc_frame::{Bad, Framer, Message, Next};
use outside_api::{Got, Link};
use q_values::{Limits, NoMemory};
use std::alloc::Global;
use std::marker::Model;

/// The most bytes that one read gives.
const READ_SIZE: usize = 65_536;

/// What one step of reading a link gives.
#[derive(Drop)]
pub enum Arrival {
    /// Nothing to serve yet: bytes were read, or given to the framer.
    More,
    /// The handshake, with the capability that the client asks for.
    Greeting { capability: u8 },
    /// A message.
    Message(Message),
    /// A message whose object is outside the profile; `sync` where it waits for a response.
    Outside { sync: bool },
    /// A message whose value could not be built, out of memory; `sync` where it waits for a response.
    Skipped { sync: bool },
    /// The bytes at the offset `at` of the stream are no handshake or message; `code` is the rule that they break.
    Bad { code: Bad, at: u64 },
    /// The read timed out.
    Idle,
    /// The input ended: `between` messages, or within one.
    Ended { between: bool },
    /// The read failed.
    Failed,
}

/// Reads a link: the framer of its stream, and the last piece that was read.
#[derive(Drop)]
pub struct Reader {
    /// Finds the handshake and the messages in the stream, and holds the bytes of the one that is not whole yet.
    framer: Framer,
    /// The buffer of one read, `READ_SIZE` bytes and never empty.
    piece: Vec<u8>,
    /// The offset in `piece` of the first byte that the framer has not taken, at most `to`.
    from: usize,
    /// The offset in `piece` where the bytes of the last read end, at most its length.
    to: usize,
}

impl Model for Reader {
    ghost use Rattle.std.specs.Prelude.{◌-◌, take, drop, length};
    ghost use Rattle.link_reader.specs.Arrival.{ReaderView};
    ghost use Rattle.link_reader.specs.Reading.{IsWithin};

    ghost Value = { ReaderView };

    ghost view = { λ r. record { framer = r.framer; pending = take (r.to - r.from) (drop r.from r.piece.items) } };

    ghost invariant = { λ r. IsWithin r.from r.to (length r.piece.items) };
}

impl Reader {
    ghost use Rattle.std.specs.Prelude.{◌++◌, take, drop};
    ghost use Rattle.ipc_frame.specs.Framing.{IsNeeded, Feeds};
    ghost use Rattle.ipc_frame.specs.View.{fresh};
    ghost use Rattle.link_reader.specs.Reading.{Gathered};

    /// A reader that has read nothing. It takes all the memory that reading needs but for the values of messages, or fails
    /// with `NoMemory`.
    pub fn new(alloc: Global, limits: &Limits) -> Result<Reader, NoMemory>
        requires { AreLimits limits.now }
        ensures { IfOk result (λ r. r ≡ record { framer = fresh limits.now; pending = [] }) }
    {
        let framer = Framer::new(alloc, limits)?;
        let piece = vec![in alloc; 0u8; READ_SIZE]?;
        Ok(Reader {
            framer,
            piece,
            from: 0,
            to: 0,
        })
    }

    /// The next handshake or message of the stream; where it isn't whole yet, one step of reading on.
    pub fn arrive<L: Link>(&mut self, link: &mut L) -> Arrival
        ensures { Arrives (L.shown link.old) (L.shown link.new) self.old self.new result }
    {
        match self.framer.next() {
            Next::Greeting { capability } => Arrival::Greeting { capability },
            Next::Message(message) => Arrival::Message(message),
            Next::NotBuilt { sync, .. } => Arrival::Outside { sync },
            Next::Skipped { sync } => Arrival::Skipped { sync },
            Next::Bad { code, at } => Arrival::Bad { code, at },
            Next::Need if self.from < self.to => self.take(),
            Next::Need => self.read(link),
        }
    }

    /// Gives the framer the part of the piece that it takes.
    fn take(&mut self) -> Arrival
        requires needed { IsNeeded self.old.framer.limits self.old.framer.greeted self.old.framer.held }
        requires some { 0 < length self.old.pending }
        ensures { Gathered self.old self.new result }
    {
        let fed = self.framer.feed(&self.piece[self.from..self.to]);
        self.from += fed.taken;
        Arrival::More
    }

    /// Reads the next piece, where the framer has taken all of the last one.
    fn read<L: Link>(&mut self, link: &mut L) -> Arrival
        requires needed { IsNeeded self.old.framer.limits self.old.framer.greeted self.old.framer.held }
        requires taken { self.old.pending ≡ [] }
        ensures { Arrives (L.shown link.old) (L.shown link.new) self.old self.new result }
    {
        match link.read(self.piece.as_mut_slice()) {
            Got::Bytes(count) => {
                self.from = 0;
                self.to = count;
                Arrival::More
            }
            Got::End => Arrival::Ended {
                between: self.framer.is_empty(),
            },
            Got::Idle => Arrival::Idle,
            Got::Failed => Arrival::Failed,
        }
    }
}
