//! A recorder in memory.
ghost use Rattle.std.specs.Prelude.{◌≡◌, ◌<◌, [], ◌∷◌, IfOk, false};

use outside_api::Recorder;
use q_values::{NoMemory, Turn};
use std::alloc::Global;
use std::marker::Model;

/// A recorder in memory with room for a number of turns. It reports them until it gets one more.
#[derive(Drop)]
pub struct MemRecorder {
    // The turns noted, at most `room` of them.
    turns: Vec<Turn>,
    // How many turns it has room for; the vector has that capacity.
    room: usize,
    // Whether a turn was lost for lack of room.
    full: bool,
}

impl Model for MemRecorder {
    ghost use Rattle.std.specs.Prelude.{◌≡◌, ◌≤◌, true, length, vec_capacity};
    ghost use Rattle.outside_mem.specs.Recorder.{MemRecorderView};

    ghost Value = { MemRecorderView };

    ghost view = { λ r. record { kept = r.turns.items; room = r.room; full = r.full } };

    ghost invariant = { λ r. (r.room ≤ vec_capacity r.turns) × (r.full ≡ true → r.room ≤ length r.turns.items) };
}

impl MemRecorder {
    ghost use Rattle.outside_mem.specs.Recorder.{MemRecorderView, noted_by};

    /// A recorder with room for `room` turns, which has noted none.
    pub fn with_room(alloc: Global, room: usize) -> Result<MemRecorder, NoMemory>
        ensures { IfOk result (λ r. r ≡ record { kept = []; room = room; full = false }) }
    {
        Ok(MemRecorder {
            turns: Vec::with_capacity(alloc, room)?,
            room,
            full: false,
        })
    }

    /// A recorder without room, which takes no memory.
    pub fn without_room(alloc: Global) -> MemRecorder
        ensures { result ≡ record { kept = []; room = 0; full = false } }
    {
        MemRecorder {
            turns: Vec::new(alloc),
            room: 0,
            full: false,
        }
    }

    /// The turns that it keeps, first to last.
    pub fn turns(&self) -> &[Turn]
        ensures { result.now ≡ self.now.kept }
    {
        self.turns.as_slice()
    }

    /// Whether it lost a turn for lack of room; from then on it reports nothing.
    pub fn is_full(&self) -> bool
        ensures { result ≡ self.now.full }
    {
        self.full
    }
}

impl Recorder for MemRecorder {
    ghost use Rattle.outside_api.specs.Told.{Tells};
    ghost use Rattle.outside_mem.specs.Recorder.{after_note, noted_by};

    ghost noted = { noted_by };

    fn note(&mut self, turn: Turn)
        ensures tells { Tells (noted_by self.old) (noted_by self.new) (turn ∷ []) }
        ensures keeps { self.new ≡ after_note self.old turn }
    {
        if self.turns.len() < self.room {
            self.turns.push_reserved(turn);
        } else {
            self.full = true;
        }
    }
}
