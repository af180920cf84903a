//! Threads that feed and read one plant beside each other.
ghost use Rattle.std.specs.Prelude.{◌≡◌, [], IfSome};
ghost use Rattle.plant_shared.specs.Shared.{IsPass};

use crate::log::{made, makers};
use crate::plants::{FIRST, branch, found, logs, one_trade, opened};
use day_rows::{Entry, Schema};
use outside_api::Disk;
use outside_mem::MemDisk;
use plant_core::Access;
use plant_lock::Note;
use plant_shared::{Lock, PlantGuard, PlantPass, Shared};
use std::alloc::Global;
use std::process::Abort;
use std::sync::{Arc, Wait};
use std::thread::{Threads, join};

// How many snapshots a reader takes.
const READS: u32 = 200;

// A feed takes a snapshot after each of this many updates.
const SELDOM: u32 = 500;

// Whether a snapshot now has the entry with this index, and nothing but updates.
fn holds<D: Disk, R: Abort + Wait>(
    rt: &R,
    alloc: Global,
    session: &mut Shared<'_, D>,
    place: u64,
) -> bool
    ensures { session.new.lock ≡ session.old.lock }
{
    let snapshot = session.snapshot(rt, alloc).expect(rt, "memory");
    let length = snapshot.length();
    length > place && snapshot.updates_today() == length
}

// Logs this many updates, and says whether each was logged, and found again where the feed looked.
fn feed<D: Disk, R: Abort + Wait>(
    rt: &R,
    alloc: Global,
    session: &mut Shared<'_, D>,
    count: u32,
) -> bool
    ensures { session.new.lock ≡ session.old.lock }
{
    let request = one_trade(rt, alloc);
    for i in 0..count {
        let Some(place) = logs(rt, alloc, session, &request) else {
            return false;
        };
        if i % SELDOM == 0 && !holds(rt, alloc, session, place) {
            return false;
        }
    }
    true
}

// Takes snapshots, and says whether each has nothing but updates, and no fewer than the one before it.
fn read<D: Disk, R: Abort + Wait>(rt: &R, alloc: Global, session: &mut Shared<'_, D>) -> bool {
    let mut seen = 0;
    for _ in 0..READS {
        let snapshot = session.snapshot(rt, alloc).expect(rt, "memory");
        let length = snapshot.length();
        if length < seen || snapshot.updates_today() != length {
            return false;
        }
        seen = length;
    }
    true
}

// One feed through a pass, and a note of what it has then seen.
fn feed_as<D: Disk, R: Abort + Wait>(
    rt: &R,
    alloc: Global,
    lock: &Lock<D>,
    pass: PlantPass<D>,
    schema: &Arc<Schema>,
    count: u32,
) -> Option<Note<Entry>>
    requires pass { IsPass lock.now.id pass × (pass.mine ≡ []) }
    requires schema { schema.now.value ≡ lock.now.made.memory.frame.schema }
    ensures { IfSome result (λ note. note.lock ≡ lock.now.id) }
{
    let mut session = Shared::new(lock, pass, schema.clone().expect(rt, "memory"));
    if feed(rt, alloc, &mut session, count) {
        Some(lock.note(session.into_parts()).1)
    } else {
        None
    }
}

// One reader through a pass.
fn read_as<D: Disk, R: Abort + Wait>(
    rt: &R,
    alloc: Global,
    lock: &Lock<D>,
    pass: PlantPass<D>,
    schema: &Arc<Schema>,
) -> bool
    requires pass { IsPass lock.now.id pass × (pass.mine ≡ []) }
    requires schema { schema.now.value ≡ lock.now.made.memory.frame.schema }
{
    let mut session = Shared::new(lock, pass, schema.clone().expect(rt, "memory"));
    read(rt, alloc, &mut session)
}

// The note of a feed, where a reader beside it found nothing wrong.
fn pair<K: PlantGuard + Sync, R: Threads + Abort + Wait + Sync>(
    rt: &R,
    alloc: Global,
    lock: &K,
    pass: PlantPass<K::Disk>,
    schema: &Arc<Schema>,
    count: u32,
) -> Option<Note<Entry>>
    requires pass { IsPass (K.lock_of lock.now).id pass × (pass.mine ≡ []) }
    requires schema { schema.now.value ≡ (K.lock_of lock.now).made.memory.frame.schema }
    ensures { IfSome result (λ note. note.lock ≡ (K.lock_of lock.now).id) }
{
    let (feeder, reader) = branch(rt, lock.plant_lock(), pass);
    let (note, reads) = join(
        rt,
        move || -> Option<Note<Entry>>
            requires { IsPass (K.lock_of lock.now).id feeder × (feeder.mine ≡ []) × (schema.now.value ≡ (K.lock_of lock.now).made.memory.frame.schema) }
            ensures { IfSome result (λ note. note.lock ≡ (K.lock_of lock.entry.now).id) }
        { feed_as(rt, alloc, lock.plant_lock(), feeder, schema, count) },
        move || -> bool
            requires { IsPass (K.lock_of lock.now).id reader × (reader.mine ≡ []) × (schema.now.value ≡ (K.lock_of lock.now).made.memory.frame.schema) }
        { read_as(rt, alloc, lock.plant_lock(), reader, schema) },
    );
    if reads { note } else { None }
}

// A note of what a pass has seen that learnt both notes, where both are there.
fn note_of_both<D: Disk>(
    lock: &Lock<D>,
    pass: PlantPass<D>,
    one: Option<Note<Entry>>,
    other: Option<Note<Entry>>,
) -> Option<Note<Entry>>
    requires pass { pass.lock ≡ lock.now.id }
    requires one { IfSome one (λ note. note.lock ≡ lock.now.id) }
    requires other { IfSome other (λ note. note.lock ≡ lock.now.id) }
    ensures { IfSome result (λ note. note.lock ≡ lock.now.id) }
{
    let pass = lock.learn(pass, one?);
    let pass = lock.learn(pass, other?);
    Some(lock.note(pass).1)
}

// A note of what two feeds have seen, each beside a reader.
fn two_pairs<K: PlantGuard + Sync, R: Threads + Abort + Wait + Sync>(
    rt: &R,
    alloc: Global,
    lock: &K,
    pass: PlantPass<K::Disk>,
    schema: &Arc<Schema>,
    count: u32,
) -> Option<Note<Entry>>
    requires pass { IsPass (K.lock_of lock.now).id pass × (pass.mine ≡ []) }
    requires schema { schema.now.value ≡ (K.lock_of lock.now).made.memory.frame.schema }
    ensures { IfSome result (λ note. note.lock ≡ (K.lock_of lock.now).id) }
{
    let (mine, pass) = branch(rt, lock.plant_lock(), pass);
    let (one, other) = branch(rt, lock.plant_lock(), pass);
    let (one, other) = join(
        rt,
        move || -> Option<Note<Entry>>
            requires { IsPass (K.lock_of lock.now).id one × (one.mine ≡ []) × (schema.now.value ≡ (K.lock_of lock.now).made.memory.frame.schema) }
            ensures { IfSome result (λ note. note.lock ≡ (K.lock_of lock.entry.now).id) }
        { pair(rt, alloc, lock, one, schema, count) },
        move || -> Option<Note<Entry>>
            requires { IsPass (K.lock_of lock.now).id other × (other.mine ≡ []) × (schema.now.value ≡ (K.lock_of lock.now).made.memory.frame.schema) }
            ensures { IfSome result (λ note. note.lock ≡ (K.lock_of lock.entry.now).id) }
        { pair(rt, alloc, lock, other, schema, count) },
    );
    note_of_both(lock.plant_lock(), mine, one, other)
}

// The same of four.
fn four_pairs<K: PlantGuard + Sync, R: Threads + Abort + Wait + Sync>(
    rt: &R,
    alloc: Global,
    lock: &K,
    pass: PlantPass<K::Disk>,
    schema: &Arc<Schema>,
    count: u32,
) -> Option<Note<Entry>>
    requires pass { IsPass (K.lock_of lock.now).id pass × (pass.mine ≡ []) }
    requires schema { schema.now.value ≡ (K.lock_of lock.now).made.memory.frame.schema }
    ensures { IfSome result (λ note. note.lock ≡ (K.lock_of lock.now).id) }
{
    let (mine, pass) = branch(rt, lock.plant_lock(), pass);
    let (one, other) = branch(rt, lock.plant_lock(), pass);
    let (one, other) = join(
        rt,
        move || -> Option<Note<Entry>>
            requires { IsPass (K.lock_of lock.now).id one × (one.mine ≡ []) × (schema.now.value ≡ (K.lock_of lock.now).made.memory.frame.schema) }
            ensures { IfSome result (λ note. note.lock ≡ (K.lock_of lock.entry.now).id) }
        { two_pairs(rt, alloc, lock, one, schema, count) },
        move || -> Option<Note<Entry>>
            requires { IsPass (K.lock_of lock.now).id other × (other.mine ≡ []) × (schema.now.value ≡ (K.lock_of lock.now).made.memory.frame.schema) }
            ensures { IfSome result (λ note. note.lock ≡ (K.lock_of lock.entry.now).id) }
        { two_pairs(rt, alloc, lock, other, schema, count) },
    );
    note_of_both(lock.plant_lock(), mine, one, other)
}

// What four feeds leave.
#[derive(Clone, Copy)]
struct Fed {
    // how many updates a pass finds that learnt of each feed's last one
    found: u64,
    // how many passes made as many updates as each feed did, where no other pass made one
    feeds: Option<u32>,
}

// What is left once the lock is closed by the pass that learnt of each feed.
fn ended<R: Abort + Wait>(
    rt: &R,
    alloc: Global,
    lock: Lock<MemDisk>,
    pass: PlantPass<MemDisk>,
    schema: &Arc<Schema>,
    count: u32,
) -> Fed
    requires pass { IsPass lock.id pass × (pass.mine ≡ []) }
    requires schema { schema.now.value ≡ lock.made.memory.frame.schema }
{
    let mut session = Shared::new(&lock, pass, schema.clone().expect(rt, "memory"));
    let found = found(rt, alloc, &mut session);
    let pass = session.into_parts();
    let plant = lock.close(rt, pass);
    let made = made(rt, alloc, plant.close(), FIRST, schema);
    let feeds = match made {
        Some(made) => makers(&made, count),
        None => None,
    };
    Fed { found, feeds }
}

// Four feeds and four readers over a disk in memory; `None` where an update wasn't logged, or an answer lacked an entry
// that its session had been told of.
fn four_over_memory<R: Threads + Abort + Wait + Sync>(
    rt: &R,
    alloc: Global,
    count: u32,
) -> Option<Fed> {
    let Some((lock, pass, schema)) = opened(rt, alloc) else {
        return None;
    };
    let (last, pass) = branch(rt, &lock, pass);
    let Some(note) = four_pairs(rt, alloc, &lock, pass, &schema, count) else {
        return None;
    };
    let last = lock.learn(last, note);
    Some(ended(rt, alloc, lock, last, &schema, count))
}

// Each of four threads makes 50 updates. A pass that learnt their notes finds 200; the log has 50 updates of each of
// four passes.
#[test]
fn four_threads_fifty_updates(rt: HostRuntime) {
    let fed = four_over_memory(&rt, rt.alloc(), 50).expect(&rt, "an update that was logged");
    assert_eq!(rt; fed.found, 200);
    assert_eq!(rt; fed.feeds, Some(4));
}

#[test]
fn four_feeds_and_four_readers(rt: HostRuntime) {
    let fed = four_over_memory(&rt, rt.alloc(), 10_000).expect(&rt, "an update that was logged");
    assert_eq!(rt; fed.found, 40_000);
    assert_eq!(rt; fed.feeds, Some(4));
}
