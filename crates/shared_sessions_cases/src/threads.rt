//! Feeds and readers beside each other, each on a thread of its own.
ghost use Rattle.std.specs.Prelude.{◌≡◌, IfSome};
ghost use Rattle.shared_sessions.specs.Sessions.{MayServe};

use crate::clients::{feed_as, read_as};
use crate::plants::{branch, opened};
use day_rows::{Entry, Schema};
use outside_api::Disk;
use plant_lock::Note;
use plant_shared::{Lock, PlantGuard, PlantPass};
use q_values::{Limits, NoMemory};
use std::alloc::Global;
use std::sync::{Arc, Wait};
use std::test::Fail;
use std::thread::{Threads, join};

// How much each thread does.
#[derive(Clone, Copy)]
struct Work {
    // the updates of a feed
    updates: u32,
    // the rounds of a reader, each of which has one update
    rounds: u32,
}

// A note of what a pass has seen that learnt both notes, where both are there.
fn note_of_both<D: Disk>(
    lock: &Lock<D>,
    pass: PlantPass<D>,
    one: Option<Note<Entry>>,
    other: Option<Note<Entry>>,
) -> Option<Note<Entry>>
    requires pass { pass.lock ≡ lock.now.id }
    requires one { IfSome one (λ note. note.lock ≡ lock.now.id) }
    requires other { IfSome other (λ note. note.lock ≡ lock.now.id) }
    ensures { IfSome result (λ note. note.lock ≡ lock.now.id) }
{
    let pass = lock.learn(pass, one?);
    let pass = lock.learn(pass, other?);
    Some(lock.note(pass).1)
}

// A note of what a feed and a reader have seen, where both did all of their work.
fn pair<K: PlantGuard + Sync, R: Threads + Wait + Sync>(
    rt: &R,
    alloc: Global,
    lock: &K,
    pass: PlantPass<K::Disk>,
    schema: &Arc<Schema>,
    limits: &Limits,
    work: Work,
) -> Option<Note<Entry>>
    requires { MayServe (K.lock_of lock.now) pass schema.now.value limits.now }
    ensures { IfSome result (λ note. note.lock ≡ (K.lock_of lock.now).id) }
{
    let (mine, pass) = branch(rt, lock.plant_lock(), pass, schema, limits);
    let (feeder, reader) = branch(rt, lock.plant_lock(), pass, schema, limits);
    let (fed, read) = join(
        rt,
        move || -> Option<Note<Entry>>
            requires { MayServe (K.lock_of lock.now) feeder schema.now.value limits.now }
            ensures { IfSome result (λ note. note.lock ≡ (K.lock_of lock.entry.now).id) }
        {
            let plant = lock.plant_lock();
            feed_as(rt, alloc, plant, feeder, schema, limits, work.updates)
        },
        move || -> Option<Note<Entry>>
            requires { MayServe (K.lock_of lock.now) reader schema.now.value limits.now }
            ensures { IfSome result (λ note. note.lock ≡ (K.lock_of lock.entry.now).id) }
        {
            let plant = lock.plant_lock();
            read_as(rt, alloc, plant, reader, schema, limits, work.rounds)
        },
    );
    note_of_both(lock.plant_lock(), mine, fed, read)
}

// The same of two feeds and two readers.
fn two_pairs<K: PlantGuard + Sync, R: Threads + Wait + Sync>(
    rt: &R,
    alloc: Global,
    lock: &K,
    pass: PlantPass<K::Disk>,
    schema: &Arc<Schema>,
    limits: &Limits,
    work: Work,
) -> Option<Note<Entry>>
    requires { MayServe (K.lock_of lock.now) pass schema.now.value limits.now }
    ensures { IfSome result (λ note. note.lock ≡ (K.lock_of lock.now).id) }
{
    let (mine, pass) = branch(rt, lock.plant_lock(), pass, schema, limits);
    let (one, other) = branch(rt, lock.plant_lock(), pass, schema, limits);
    let (one, other) = join(
        rt,
        move || -> Option<Note<Entry>>
            requires { MayServe (K.lock_of lock.now) one schema.now.value limits.now }
            ensures { IfSome result (λ note. note.lock ≡ (K.lock_of lock.entry.now).id) }
        { pair(rt, alloc, lock, one, schema, limits, work) },
        move || -> Option<Note<Entry>>
            requires { MayServe (K.lock_of lock.now) other schema.now.value limits.now }
            ensures { IfSome result (λ note. note.lock ≡ (K.lock_of lock.entry.now).id) }
        { pair(rt, alloc, lock, other, schema, limits, work) },
    );
    note_of_both(lock.plant_lock(), mine, one, other)
}

// The same of four.
fn four_pairs<K: PlantGuard + Sync, R: Threads + Wait + Sync>(
    rt: &R,
    alloc: Global,
    lock: &K,
    pass: PlantPass<K::Disk>,
    schema: &Arc<Schema>,
    limits: &Limits,
    work: Work,
) -> Option<Note<Entry>>
    requires { MayServe (K.lock_of lock.now) pass schema.now.value limits.now }
    ensures { IfSome result (λ note. note.lock ≡ (K.lock_of lock.now).id) }
{
    let (mine, pass) = branch(rt, lock.plant_lock(), pass, schema, limits);
    let (one, other) = branch(rt, lock.plant_lock(), pass, schema, limits);
    let (one, other) = join(
        rt,
        move || -> Option<Note<Entry>>
            requires { MayServe (K.lock_of lock.now) one schema.now.value limits.now }
            ensures { IfSome result (λ note. note.lock ≡ (K.lock_of lock.entry.now).id) }
        { two_pairs(rt, alloc, lock, one, schema, limits, work) },
        move || -> Option<Note<Entry>>
            requires { MayServe (K.lock_of lock.now) other schema.now.value limits.now }
            ensures { IfSome result (λ note. note.lock ≡ (K.lock_of lock.entry.now).id) }
        { two_pairs(rt, alloc, lock, other, schema, limits, work) },
    );
    note_of_both(lock.plant_lock(), mine, one, other)
}

// The length of the chronicle once four feeds and four readers have ended; `None` where one of them didn't do its work.
fn four_over_memory<R: Threads + Wait + Sync>(
    rt: &R,
    alloc: Global,
    work: Work,
) -> Result<Option<u64>, NoMemory> {
    let Some((lock, pass, schema, limits)) = opened(rt, alloc)? else {
        return Ok(None);
    };
    let (mine, pass) = branch(rt, &lock, pass, &schema, &limits);
    let Some(note) = four_pairs(rt, alloc, &lock, pass, &schema, &limits, work) else {
        return Ok(None);
    };
    let mine = lock.learn(mine, note);
    Ok(Some(lock.close(rt, mine).length()))
}

// Four feeds of 10,000 updates, and four readers that ask and feed.
#[test]
fn four_feeds_and_four_readers(rt: HostRuntime) -> Result<(), Fail> {
    let work = Work {
        updates: 10_000,
        rounds: 100,
    };
    let length = four_over_memory(&rt, rt.alloc(), work)?.ok_or("threads that did their work")?;
    assert_eq!(rt; length, 40_400);
    Ok(())
}
