//! How a session reaches the plant: the trait [`Access`] and what its calls answer.
ghost use Rattle.std.specs.Prelude.{◌≡◌, ◌≤◌, ℕ, Some, length};
ghost use Rattle.plant_memory.specs.Chronicle.{last_fault};

use day_rows::Schema;
use plant_memory::{Snapshot, Tail, UpdRefusal, UpdRequest};
use q_values::NoMemory;
use std::alloc::Global;
use std::sync::Wait;

/// What became of an update.
#[derive(Drop)]
pub enum UpdTurn {
    /// It was logged.
    Logged {
        /// The index of the roll that was made before it, where one was due.
        rolled: Option<u64>,
        /// The index of its own entry in the chronicle.
        place: u64,
    },
    /// It was refused, and nothing was logged.
    Refused {
        /// The length of the chronicle.
        length: u64,
        /// The first reason that holds.
        why: UpdRefusal,
    },
    /// The disk failed, and the update was not logged. After a crash or a restart it may be found in the log all the same.
    Failed {
        /// The index of the roll that was made before the disk failed, where one was due and was made.
        rolled: Option<u64>,
        /// The index of the fault in the chronicle.
        place: u64,
    },
}

/// What became of a look at the clock.
#[derive(Clone, Copy, Debug, PartialEq, Eq)]
pub enum TickTurn {
    /// No roll was due.
    Quiet {
        /// The length of the chronicle.
        length: u64,
    },
    /// A roll was due, and was made.
    Rolled {
        /// The index of its entry in the chronicle.
        place: u64,
    },
    /// A roll was due, and the disk failed at it.
    Failed {
        /// The index of the fault in the chronicle.
        place: u64,
    },
    /// A roll was due, and there was no memory for it; nothing was made.
    NoMemory,
}

/// The way of one pass (one session, say) to the plant.
pub trait Access {
    ghost use Rattle.plant_core.specs.Access.{AccessView, Updates, Ticks, Snaps, Tails};

    /// What contracts see of it: its number, the frame, what it has seen and made, and how often it asked.
    ghost shown: { Self → AccessView };

    /// The number of its pass, which its entries carry.
    fn by(&self) -> u64
        ensures { result ≡ (shown self.now).by };

    /// The tables of the plant.
    fn schema(&self) -> &Schema
        ensures { result.now ≡ (shown self.now).frame.schema };

    /// Logs the update, after a roll where one is due, or refuses it. `now` is in nanoseconds since 2000.01.01.
    fn upd<R: Wait>(&mut self, rt: &R, alloc: Global, request: &UpdRequest, now: i64) -> UpdTurn
        ensures { Updates (shown self.old) (shown self.new) request.now now result };

    /// Ends the open date, where the moment `now` lies in the next one. `now` is in nanoseconds since 2000.01.01.
    fn tick<R: Wait>(&mut self, rt: &R, alloc: Global, now: i64) -> TickTurn
        ensures { Ticks (shown self.old) (shown self.new) now result };

    /// A snapshot of the whole chronicle. The error is that it is out of memory.
    fn snapshot<R: Wait>(&mut self, rt: &R, alloc: Global) -> Result<Snapshot, NoMemory>
        ensures { Snaps (shown self.old) (shown self.new) result };

    /// The whole chronicle from the index `from` on, up to which this pass has seen it. The error is that it is out of memory.
    fn tail<R: Wait>(&mut self, rt: &R, alloc: Global, from: u64) -> Result<Tail, NoMemory>
        requires { from ≤ length (shown self.old).seen }
        ensures { Tails (shown self.old) (shown self.new) from result };

    /// The index of the last fault that this pass made. There is one.
    fn last_fault(&self) -> u64
        requires { (place : ℕ) × (last_fault (shown self.now).by (shown self.now).seen ≡ Some place) }
        ensures { last_fault (shown self.now).by (shown self.now).seen ≡ Some result };
}
