//! Feeds with readers beside them.
ghost use Rattle.std.specs.Prelude.{◌≡◌, []};
ghost use Rattle.plant_shared.specs.Shared.{IsPass};

use crate::feeding::{NOW, feed_as};
use crate::plants::branch;
use crate::request::trades;
use day_rows::Schema;
use outside_api::Disk;
use plant_core::{Access, UpdTurn};
use plant_memory::UpdRequest;
use plant_shared::{Lock, PlantGuard, PlantPass, Shared};
use std::alloc::Global;
use std::rt::Clock;
use std::sync::atomic::{AtomicU64, Ordering};
use std::sync::{Arc, Wait};
use std::thread::{Threads, join};
use std::time::Instant;

// Takes one snapshot after the other until it is told to end; their number.
fn read<D: Disk, R: Wait>(
    rt: &R,
    alloc: Global,
    session: &mut Shared<'_, D>,
    ended: &AtomicU64,
) -> u64 {
    let mut taken = 0;
    for _ in rt.forever() {
        if ended.load(Ordering::SeqCst) != 0 {
            return taken;
        }
        if let Ok(snapshot) = session.snapshot(rt, alloc) {
            taken = u64::saturating_add(taken, u64::from(snapshot.length() > 0));
        }
    }
    unreachable!()
}

// A reader as this pass.
fn read_as<D: Disk, R: Wait>(
    rt: &R,
    alloc: Global,
    lock: &Lock<D>,
    pass: PlantPass<D>,
    schema: &Arc<Schema>,
    ended: &AtomicU64,
) -> u64
    requires pass { IsPass lock.now.id pass × (pass.mine ≡ []) }
    requires schema { schema.now.value ≡ lock.now.made.memory.frame.schema }
{
    match schema.clone() {
        Ok(schema) => read(rt, alloc, &mut Shared::new(lock, pass, schema), ended),
        Err(_) => 0,
    }
}

/// A feed beside a reader; the number of the reader's snapshots, where each update was logged.
pub(crate) fn beside_one<K: PlantGuard + Sync, R: Threads + Wait + Sync>(
    rt: &R,
    alloc: Global,
    lock: &K,
    pass: PlantPass<K::Disk>,
    schema: &Arc<Schema>,
    count: u32,
) -> Option<u64>
    requires pass { IsPass (K.lock_of lock.now).id pass × (pass.mine ≡ []) }
    requires schema { schema.now.value ≡ (K.lock_of lock.now).made.memory.frame.schema }
{
    let (feeder, reader) = branch(rt, lock.plant_lock(), pass);
    let flag = AtomicU64::new(0);
    let ended = &flag;
    let (logged, taken) = join(
        rt,
        move || -> bool
            requires { IsPass (K.lock_of lock.now).id feeder × (feeder.mine ≡ []) × (schema.now.value ≡ (K.lock_of lock.now).made.memory.frame.schema) }
        {
            let logged = feed_as(rt, alloc, lock.plant_lock(), feeder, schema, count);
            ended.store(1, Ordering::SeqCst);
            logged
        },
        move || -> u64
            requires { IsPass (K.lock_of lock.now).id reader × (reader.mine ≡ []) × (schema.now.value ≡ (K.lock_of lock.now).made.memory.frame.schema) }
        { read_as(rt, alloc, lock.plant_lock(), reader, schema, ended) },
    );
    logged.then_some(taken)
}

/// Two feeds, each beside a reader; the number of both readers' snapshots.
pub(crate) fn beside_two<K: PlantGuard + Sync, R: Threads + Wait + Sync>(
    rt: &R,
    alloc: Global,
    lock: &K,
    pass: PlantPass<K::Disk>,
    schema: &Arc<Schema>,
    count: u32,
) -> Option<u64>
    requires pass { IsPass (K.lock_of lock.now).id pass × (pass.mine ≡ []) }
    requires schema { schema.now.value ≡ (K.lock_of lock.now).made.memory.frame.schema }
{
    let (one, other) = branch(rt, lock.plant_lock(), pass);
    let (a, b) = join(
        rt,
        move || -> Option<u64>
            requires { IsPass (K.lock_of lock.now).id one × (one.mine ≡ []) × (schema.now.value ≡ (K.lock_of lock.now).made.memory.frame.schema) }
        { beside_one(rt, alloc, lock, one, schema, count) },
        move || -> Option<u64>
            requires { IsPass (K.lock_of lock.now).id other × (other.mine ≡ []) × (schema.now.value ≡ (K.lock_of lock.now).made.memory.frame.schema) }
        { beside_one(rt, alloc, lock, other, schema, count) },
    );
    Some(a?.saturating_add(b?))
}

// The nanoseconds of the longest update, where each was logged.
fn longest<D: Disk, R: Clock + Wait>(
    rt: &R,
    alloc: Global,
    session: &mut Shared<'_, D>,
    request: &UpdRequest,
    count: u32,
) -> Option<u128> {
    let mut longest = 0;
    for _ in 0..count {
        let start = Instant::now(rt).ok()?;
        let UpdTurn::Logged { .. } = session.upd(rt, alloc, request, NOW) else {
            return None;
        };
        longest = u128::max(longest, start.elapsed(rt).ok()?.as_nanos());
    }
    Some(longest)
}

/// The longest update of a feed, and 0 snapshots.
pub(crate) fn longest_alone<D: Disk, R: Clock + Wait>(
    rt: &R,
    alloc: Global,
    lock: &Lock<D>,
    pass: PlantPass<D>,
    schema: &Arc<Schema>,
    count: u32,
) -> Option<(u128, u64)>
    requires pass { IsPass lock.now.id pass × (pass.mine ≡ []) }
    requires schema { schema.now.value ≡ lock.now.made.memory.frame.schema }
{
    let request = trades(alloc, 1).ok()?;
    let mut session = Shared::new(lock, pass, schema.clone().ok()?);
    Some((longest(rt, alloc, &mut session, &request, count)?, 0))
}

/// The longest update of a feed beside a reader, and the number of the reader's snapshots.
pub(crate) fn longest_beside<K: PlantGuard + Sync, R: Clock + Threads + Wait + Sync>(
    rt: &R,
    alloc: Global,
    lock: &K,
    pass: PlantPass<K::Disk>,
    schema: &Arc<Schema>,
    count: u32,
) -> Option<(u128, u64)>
    requires pass { IsPass (K.lock_of lock.now).id pass × (pass.mine ≡ []) }
    requires schema { schema.now.value ≡ (K.lock_of lock.now).made.memory.frame.schema }
{
    let (feeder, reader) = branch(rt, lock.plant_lock(), pass);
    let flag = AtomicU64::new(0);
    let ended = &flag;
    let (found, taken) = join(
        rt,
        move || -> Option<(u128, u64)>
            requires { IsPass (K.lock_of lock.now).id feeder × (feeder.mine ≡ []) × (schema.now.value ≡ (K.lock_of lock.now).made.memory.frame.schema) }
        {
            let found = longest_alone(rt, alloc, lock.plant_lock(), feeder, schema, count);
            ended.store(1, Ordering::SeqCst);
            found
        },
        move || -> u64
            requires { IsPass (K.lock_of lock.now).id reader × (reader.mine ≡ []) × (schema.now.value ≡ (K.lock_of lock.now).made.memory.frame.schema) }
        { read_as(rt, alloc, lock.plant_lock(), reader, schema, ended) },
    );
    Some((found?.0, taken))
}
