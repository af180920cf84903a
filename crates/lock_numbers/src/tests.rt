//! Passes, notes and threads under one lock.
ghost use Rattle.std.specs.Prelude.{◌≡◌, ◌<◌, ◌-◌, ◌^◌, IfOk};

use crate::{Asker, Numbers, add, add_all, push_both};
use plant_lock::PlantLock;
use std::alloc::{AllocError, Global};
use std::sync::Wait;
use std::test::Fail;
use std::thread::{Threads, join};

// A lock round an empty list, and its first pass.
fn opened<R>(rt: &R, alloc: Global, first: u64) -> Result<(PlantLock<Numbers>, Asker), AllocError>
    requires { first < 2 ^ 64 - 1 }
    ensures { IfOk result (λ r. r.1.lock ≡ r.0.id) }
{
    let empty = Numbers {
        all: Vec::new(alloc),
    };
    match PlantLock::new(rt, alloc, empty, first) {
        Ok(made) => Ok(made),
        Err(_failure) => Err(AllocError),
    }
}

// A pass adds an entry and writes a note. Another learns the note, takes the lock and finds a list that begins with that
// entry.
#[test]
fn notes_and_save_refusals(rt: HostRuntime) -> Result<(), Fail> {
    let (lock, first) = opened(&rt, rt.alloc(), 1)?;
    let (first, second) = lock.pass(&rt, first);
    let (first, added) = add(&rt, &lock, first, 7);
    let (_first, note) = lock.note(first);
    let second = lock.learn(second, note);
    let number = second.number();
    let mut held = lock.take(&rt, second);
    let found = held.state().all.as_slice().first().copied();
    let _second = held.give();
    assert!(rt; added && number == 2);
    match found {
        Some(made) => assert!(rt; made.by == 1 && made.number == 7),
        None => assert!(rt; false),
    }
    Ok(())
}

#[test]
fn two_threads_see_both_numbers(rt: HostRuntime) -> Result<(), Fail> {
    let (lock, first) = opened(&rt, rt.alloc(), 1)?;
    let (first, second) = lock.pass(&rt, first);
    let (a, b) = push_both(&rt, &lock, first, second, 10, 20);
    let numbers = lock.close(&rt, a.0);
    assert!(rt; a.1 && b.1 && numbers.all.len() == 2);
    Ok(())
}

// How many entries the pass of a number made.
fn count_of(numbers: &Numbers, by: u64) -> usize {
    numbers.all.iter().filter(|made| made.by == by).count()
}

fn add_by_two<R: Threads + Wait + Sync>(
    rt: &R,
    lock: &PlantLock<Numbers>,
    one: Asker,
    other: Asker,
) -> bool
    requires one { one.lock ≡ lock.now.id }
    requires other { other.lock ≡ lock.now.id }
{
    let (a, b) = join(
        rt,
        move || -> bool
            requires { one.lock ≡ lock.now.id }
        { add_all(rt, lock, one, 10_000).1 },
        move || -> bool
            requires { other.lock ≡ lock.now.id }
        { add_all(rt, lock, other, 10_000).1 },
    );
    a && b
}

fn add_by_four<R: Threads + Wait + Sync>(
    rt: &R,
    lock: &PlantLock<Numbers>,
    first: Asker,
) -> (Asker, bool)
    requires { first.lock ≡ lock.now.id }
    ensures { result.0.lock ≡ lock.now.id }
{
    let (last, first) = lock.pass(rt, first);
    let (last, second) = lock.pass(rt, last);
    let (last, third) = lock.pass(rt, last);
    let (last, fourth) = lock.pass(rt, last);
    let (a, b) = join(
        rt,
        move || -> bool
            requires { (first.lock ≡ lock.now.id) × (second.lock ≡ lock.now.id) }
        { add_by_two(rt, lock, first, second) },
        move || -> bool
            requires { (third.lock ≡ lock.now.id) × (fourth.lock ≡ lock.now.id) }
        { add_by_two(rt, lock, third, fourth) },
    );
    (last, a && b)
}

#[test]
fn four_threads_ten_thousand_each(rt: HostRuntime) -> Result<(), Fail> {
    let (lock, first) = opened(&rt, rt.alloc(), 0)?;
    let (last, all) = add_by_four(&rt, &lock, first);
    let numbers = lock.close(&rt, last);
    assert!(rt; all && numbers.all.len() == 40_000);
    for by in 1..5 {
        assert!(rt; count_of(&numbers, by) == 10_000);
    }
    Ok(())
}
