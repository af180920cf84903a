//! A tap in memory.
ghost use Rattle.std.specs.Prelude.{◌≡◌, [], false, IfOk};

use crate::copying::copied;
use crate::tape::Tape;
use outside_api::{Tap, TapFault, TapMessage};
use q_values::{NoMemory, Sequence};
use std::alloc::Global;
use std::marker::Model;

/// How a take of a tap in memory goes.
#[derive(Clone, Copy, Debug, PartialEq, Eq)]
pub enum Receiving {
    /// The message is taken.
    Succeeds,
    /// The take fails, and nothing of the message is taken.
    Fails,
}

/// How the takes of a tap go, in order; those after the last succeed.
pub type Receivings = Sequence<Receiving>;

/// A tap in memory with room for a number of messages. It keeps copies of those that it takes, and reports them until it
/// takes one that it can't keep. Its takes fail where that is planned, and nowhere else.
#[derive(Drop)]
pub struct MemTap {
    // Copies of the messages taken, at most `room` of them, in order.
    kept: Vec<TapMessage>,
    // How many messages it has room for; the vector has that capacity.
    room: usize,
    // Whether a message was taken and not kept, for lack of room or memory.
    full: bool,
    // How the next takes go.
    receivings: Tape<Receiving>,
    // How many takes failed.
    faults: u64,
    // The allocator.
    alloc: Global,
}

impl Model for MemTap {
    ghost use Rattle.std.specs.Prelude.{◌≤◌, vec_capacity};
    ghost use Rattle.outside_mem.specs.Tap.{MemTapView};

    ghost Value = { MemTapView };

    ghost view = { λ t. record {
      kept = t.kept.items;
      room = t.room;
      full = t.full;
      receivings = t.receivings;
      faults = t.faults;
    } };

    ghost invariant = { λ t. t.room ≤ vec_capacity t.kept };
}

impl MemTap {
    ghost use Rattle.outside_mem.specs.Tap.{new_tap, Keeps};

    /// A tap with room for `room` messages, whose takes go as these.
    pub fn with_room(alloc: Global, room: usize, receivings: Receivings) -> Result<MemTap, NoMemory>
        ensures { IfOk result (λ t. t ≡ new_tap room receivings) }
    {
        Ok(MemTap {
            kept: Vec::with_capacity(alloc, room)?,
            room,
            full: false,
            receivings: Tape::new(receivings),
            faults: 0,
            alloc,
        })
    }

    /// A tap without room, whose takes all succeed. Neither making it nor its takes take memory.
    pub fn without_room(alloc: Global) -> MemTap
        ensures { result ≡ new_tap 0 [] }
    {
        MemTap {
            kept: Vec::new(alloc),
            room: 0,
            full: false,
            receivings: Tape::new(Sequence::new(alloc)),
            faults: 0,
            alloc,
        }
    }

    /// The messages that it keeps, in order: all that it took, unless it is full.
    pub fn kept(&self) -> &[TapMessage]
        ensures { result.now ≡ self.now.kept }
    {
        self.kept.as_slice()
    }

    /// Whether it took a message that it didn't keep, for lack of room or memory. From then on it keeps and reports none.
    pub fn is_full(&self) -> bool
        ensures { result ≡ self.now.full }
    {
        self.full
    }

    /// How many takes failed.
    pub fn faults(&self) -> u64
        ensures { result ≡ self.now.faults }
    {
        self.faults
    }

    // Keeps a copy of the message, or is full.
    fn keep(&mut self, message: &TapMessage)
        ensures { Keeps self.old self.new message.now }
    {
        if self.full || self.kept.len() >= self.room {
            self.full = true;
            return;
        }
        match copied(self.alloc, message) {
            Ok(copy) => self.kept.push_reserved(copy),
            Err(_) => self.full = true,
        }
    }
}

impl Tap for MemTap {
    ghost use Rattle.outside_api.specs.Tap.{Takes};
    ghost use Rattle.outside_mem.specs.Tap.{shown_by, Receives};

    ghost shown = { shown_by };

    fn take(&mut self, message: &TapMessage) -> Result<(), TapFault>
        ensures takes { Takes (shown_by self.old) (shown_by self.new) message.now result }
        ensures receives { Receives self.old self.new message.now result }
    {
        if self.receivings.next() == Some(Receiving::Fails) {
            self.faults = self.faults.saturating_add(1);
            return Err(TapFault);
        }
        self.keep(message);
        Ok(())
    }
}
