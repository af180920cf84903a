//! The list, and how one pass adds to it.
ghost use Rattle.std.specs.Prelude.{◌≡◌, ◌+◌, length, IsTrue};
ghost use mathlib.Core.List.{IsPrefix};
ghost use Rattle.lock_numbers.specs.Added.{IsAdded};

use plant_lock::{Chronicle, PassOf, PlantLock};
use std::sync::Wait;

/// A number, and the pass that added it.
#[derive(Clone, Copy, Debug, Drop)]
pub struct Made {
    /// The number of the pass.
    pub by: u64,
    /// The number that it added.
    pub number: u64,
}

/// A list of numbers. It has no frame.
#[derive(Drop)]
pub struct Numbers {
    /// What was added, in order.
    pub all: Vec<Made>,
}

impl Chronicle for Numbers {
    type Entry = Made;

    type Frame = ();

    ghost entries = { λ s. s.all.items };

    ghost by = { λ e. e.by };

    ghost frame = { λ _. tt };

    fn length(&self) -> u64 {
        self.all.len() as u64
    }
}

/// A pass of a lock round numbers.
pub type Asker = PassOf<Numbers>;

/// Takes the lock, adds a number where there is memory for it, and gives the list back. It says whether it added.
pub fn add<R: Wait>(rt: &R, lock: &PlantLock<Numbers>, pass: Asker, number: u64) -> (Asker, bool)
    requires { pass.lock ≡ lock.now.id }
    ensures { IsAdded pass number result.0 result.1 }
{
    let mut held = lock.take(rt, pass);
    let by = held.number();
    match held.state().all.push(Made { by, number }) {
        Ok(()) => (held.give(), true),
        Err(_failed) => (held.give(), false),
    }
}

/// Adds the numbers below `count`, one by one, and says whether all were added.
pub fn add_all<R: Wait>(rt: &R, lock: &PlantLock<Numbers>, pass: Asker, count: u64) -> (Asker, bool)
    requires { pass.lock ≡ lock.now.id }
    ensures lock { result.0.lock ≡ pass.lock }
    ensures number { result.0.number ≡ pass.number }
    ensures seen { IsPrefix pass.seen result.0.seen }
    ensures all { IsTrue result.1 → length result.0.mine ≡ length pass.mine + count }
{
    let mut pass = pass;
    let mut all = true;
    for number in 0..count {
        let (next, added) = add(rt, lock, pass, number);
        pass = next;
        all = all && added;
    }
    (pass, all)
}
