//! A link in memory.
ghost use Rattle.std.specs.Prelude.{◌≡◌, [], ◌∷◌, IsTrue, ◌↔◌, IfOk};

use crate::input::{Input, Piece};
use crate::taking::Taking;
use crate::tape::Tape;
use ghost_history::History;
use outside_api::{Got, Link, LinkFault};
use q_values::{NoMemory, Sequence, Text};
use std::alloc::Global;
use std::marker::Model;
use std::snapshot::Snapshot;

/// The pieces of a link's input, in order.
pub type Pieces = Sequence<Piece>;

/// How the writes of a link go, in order; those after the last take all bytes.
pub type Takings = Sequence<Taking>;

/// A link in memory: its input is a script of pieces, and what its writes took is kept. It reports all of it.
#[derive(Drop)]
pub struct MemLink {
    // The whole input, which only contracts see.
    script: Snapshot<Pieces>,
    // What is left of it.
    input: Input,
    // The bytes that reads gave, which only contracts see: with what is left, they are the whole input.
    given: History<u8>,
    // How the next writes go.
    takings: Tape<Taking>,
    // The bytes that writes took.
    taken: Vec<u8>,
    // Whether a read has given the end; then nothing is left.
    ended: bool,
    // How many reads failed.
    read_faults: u64,
    // How many writes failed, those that were out of memory among them.
    write_faults: u64,
    // How many reads timed out.
    idles: u64,
    // How many writes were out of memory.
    short: u64,
}

impl Model for MemLink {
    ghost use Rattle.std.specs.Prelude.{◌≡◌, ◌++◌, Some, true, []};
    ghost use Rattle.outside_mem.specs.Link.{MemLinkView};
    ghost use Rattle.outside_mem.specs.Pieces.{bytes_of};

    ghost Value = { MemLinkView };

    ghost view = { λ l. record {
      shown = record {
        given = Some l.given;
        input = Some (bytes_of l.script.value);
        taken = Some l.taken.items;
        ended = l.ended;
        read_faults = l.read_faults;
        write_faults = l.write_faults;
        idles = l.idles;
      };
      input = bytes_of l.script.value;
      left = l.input;
      takings = l.takings;
      short = l.short;
    } };

    ghost invariant = { λ l. (l.given ++ bytes_of l.input ≡ bytes_of l.script.value) × (l.ended ≡ true → l.input ≡ []) };
}

impl MemLink {
    ghost use Rattle.std.specs.Prelude.{Some, true, ◌++◌};
    ghost use Rattle.outside_api.specs.Link.{LinkView, IsFresh};
    ghost use Rattle.outside_mem.specs.Link.{new_link};
    ghost use Rattle.outside_mem.specs.Pieces.{bytes_of};

    /// A link whose input is these bytes in one piece, without timeouts and faults.
    pub fn from_bytes(alloc: Global, input: &[u8]) -> Result<MemLink, NoMemory>
        ensures link { IfOk result (λ l. l ≡ new_link (Piece.Bytes input.now ∷ []) []) }
        ensures fresh { IfOk result (λ l. IsFresh l.shown) }
        ensures input { IfOk result (λ l. l.input ≡ input.now) }
    {
        let mut pieces = Sequence::new(alloc);
        let bytes = Text::from_vec(alloc, Vec::from_slice(alloc, input)?)?;
        pieces.push(Piece::Bytes(bytes))?;
        Ok(MemLink::script(alloc, pieces, Sequence::new(alloc)))
    }

    /// A link whose input comes in these pieces, and whose writes go as these.
    pub fn script(alloc: Global, pieces: Pieces, takings: Takings) -> MemLink
        ensures link { result ≡ new_link pieces takings }
        ensures fresh { IsFresh result.shown }
    {
        MemLink {
            script: Snapshot::of(&pieces),
            input: Input::new(pieces),
            given: History::new(),
            takings: Tape::new(takings),
            taken: Vec::new(alloc),
            ended: false,
            read_faults: 0,
            write_faults: 0,
            idles: 0,
            short: 0,
        }
    }

    /// Whether its input has ended. What it gave is a prefix of its input, and the pieces that are left hold the rest;
    /// at the end it has given all of it.
    pub fn is_ended(&self) -> bool
        ensures ended { result ≡ self.now.shown.ended }
        ensures parts { (given : _) → self.now.shown.given ≡ Some given → given ++ bytes_of self.now.left ≡ self.now.input }
        ensures whole { IsTrue result → self.now.shown.given ≡ Some self.now.input }
        ensures spent { IsTrue result → self.now.left ≡ [] }
    {
        self.ended
    }

    /// The bytes that its writes took.
    pub fn taken(&self) -> &[u8]
        ensures { self.now.shown.taken ≡ Some result.now }
    {
        self.taken.as_slice()
    }

    /// How many writes were out of memory.
    pub fn short(&self) -> u64
        ensures { result ≡ self.now.short }
    {
        self.short
    }
}

impl Link for MemLink {
    ghost use Rattle.outside_api.specs.Link.{Reads, Writes};
    ghost use Rattle.outside_mem.specs.Link.{Takes};
    ghost use Rattle.outside_mem.specs.Pieces.{Plays};

    ghost shown = { λ l. l.shown };

    fn read(&mut self, buf: &mut [u8]) -> Got
        ensures reads { Reads self.old.shown self.new.shown buf.new result }
        ensures plays { Plays self.old.left self.new.left buf.old buf.new result }
        ensures same { self.new ≡ record self.old { shown = self.new.shown; left = self.new.left } }
    {
        if self.ended {
            return Got::End;
        }
        match self.input.read(buf) {
            Got::Bytes(count) => {
                self.given.extend(&buf[..count]);
                Got::Bytes(count)
            }
            Got::End => {
                self.ended = true;
                Got::End
            }
            Got::Idle => {
                self.idles = self.idles.saturating_add(1);
                Got::Idle
            }
            Got::Failed => {
                self.read_faults = self.read_faults.saturating_add(1);
                Got::Failed
            }
        }
    }

    fn write(&mut self, bytes: &[u8]) -> Result<(), LinkFault>
        ensures writes { Writes self.old.shown self.new.shown bytes.now result }
        ensures takes { Takes self.old self.new bytes.now result }
    {
        let (count, fails) = match self.takings.next() {
            Some(Taking::Front(n)) => (n.min(bytes.len()), true),
            Some(Taking::All) | None => (bytes.len(), false),
        };
        if self.taken.extend_from_slice(&bytes[..count]).is_err() {
            self.short = self.short.saturating_add(1);
            self.write_faults = self.write_faults.saturating_add(1);
            return Err(LinkFault);
        }
        if fails {
            self.write_faults = self.write_faults.saturating_add(1);
            return Err(LinkFault);
        }
        Ok(())
    }
}
