//! A state that is taken and given back with no entry added.
ghost use Rattle.std.specs.Prelude.{◌≡◌, []};

use plant_lock::{Chronicle, PassOf, PlantLock};
use std::sync::Wait;
use std::thread::{Threads, join};

/// How often it was taken. As a history it is empty.
#[derive(Drop)]
pub struct Turns {
    pub taken: u64,
}

impl Chronicle for Turns {
    type Entry = ();

    type Frame = ();

    ghost entries = { λ _. [] };

    ghost by = { λ _. 0 };

    ghost frame = { λ _. tt };

    fn length(&self) -> u64 {
        0
    }
}

/// A pass of a lock round turns.
pub type Taker = PassOf<Turns>;

/// Takes and gives `count` times.
pub fn take_all<R: Wait>(rt: &R, lock: &PlantLock<Turns>, pass: Taker, count: u32) -> Taker
    requires { pass.lock ≡ lock.now.id }
    ensures { result.lock ≡ lock.now.id }
{
    let mut pass = pass;
    for _ in 0..count {
        let mut held = lock.take(rt, pass);
        let turns = held.state();
        turns.taken = turns.taken.wrapping_add(1);
        pass = held.give();
    }
    pass
}

/// The same by two threads.
fn take_by_two<R: Threads + Wait + Sync>(
    rt: &R,
    lock: &PlantLock<Turns>,
    one: Taker,
    other: Taker,
    count: u32,
) -> Taker
    requires one { one.lock ≡ lock.now.id }
    requires other { other.lock ≡ lock.now.id }
    ensures { result.lock ≡ lock.now.id }
{
    let (one, _other) = join(
        rt,
        move || -> Taker
            requires { one.lock ≡ lock.now.id }
            ensures { result.lock ≡ lock.entry.now.id }
        { take_all(rt, lock, one, count) },
        move || -> Taker
            requires { other.lock ≡ lock.now.id }
        { take_all(rt, lock, other, count) },
    );
    one
}

/// The same by four.
pub fn take_by_four<R: Threads + Wait + Sync>(
    rt: &R,
    lock: &PlantLock<Turns>,
    pass: Taker,
    count: u32,
) -> Taker
    requires { pass.lock ≡ lock.now.id }
    ensures { result.lock ≡ lock.now.id }
{
    let (first, second) = lock.pass(rt, pass);
    let (first, third) = lock.pass(rt, first);
    let (first, fourth) = lock.pass(rt, first);
    let (one, _other) = join(
        rt,
        move || -> Taker
            requires { (first.lock ≡ lock.now.id) × (second.lock ≡ lock.now.id) }
            ensures { result.lock ≡ lock.entry.now.id }
        { take_by_two(rt, lock, first, second, count) },
        move || -> Taker
            requires { (third.lock ≡ lock.now.id) × (fourth.lock ≡ lock.now.id) }
        { take_by_two(rt, lock, third, fourth, count) },
    );
    one
}
