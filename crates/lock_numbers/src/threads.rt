//! Two threads, each with a pass of its own.
ghost use Rattle.std.specs.Prelude.{◌≡◌};
ghost use Rattle.lock_numbers.specs.Added.{IsAdded};

use crate::numbers::{Asker, Numbers, add};
use plant_lock::PlantLock;
use std::sync::Wait;
use std::thread::{Threads, join};

/// Each of two threads takes the lock, adds its number and gives the list back. At the end both passes have seen one
/// list, which has of each pass exactly the entries that it made before and the one that it added, each once.
pub fn push_both<R: Threads + Wait + Sync>(
    rt: &R,
    lock: &PlantLock<Numbers>,
    first: Asker,
    second: Asker,
    one: u64,
    other: u64,
) -> ((Asker, bool), (Asker, bool))
    requires first { first.lock ≡ lock.now.id }
    requires second { second.lock ≡ lock.now.id }
    ensures same { result.0.0.seen ≡ result.1.0.seen }
    ensures first { IsAdded first one result.0.0 result.0.1 }
    ensures second { IsAdded second other result.1.0 result.1.1 }
{
    let ((first, one_added), (second, other_added)) = join(
        rt,
        move || -> (Asker, bool)
            requires { first.lock ≡ lock.now.id }
            ensures { IsAdded first one result.0 result.1 }
        { add(rt, lock, first, one) },
        move || -> (Asker, bool)
            requires { second.lock ≡ lock.now.id }
            ensures { IsAdded second other result.0 result.1 }
        { add(rt, lock, second, other) },
    );
    let (second, note) = lock.note(second);
    let first = lock.learn(first, note);
    let (first, note) = lock.note(first);
    let second = lock.learn(second, note);
    ((first, one_added), (second, other_added))
}
