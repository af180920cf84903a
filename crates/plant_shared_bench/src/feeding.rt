//! Feeds, each with a pass of its own.
ghost use Rattle.std.specs.Prelude.{◌≡◌, []};
ghost use Rattle.plant_shared.specs.Shared.{IsPass};

use crate::plants::{branch, plant};
use crate::request::trades;
use day_rows::Schema;
use outside_api::Disk;
use plant_core::{Access, Solo, UpdTurn};
use plant_memory::UpdRequest;
use plant_shared::{Lock, PlantGuard, PlantPass, Shared};
use std::alloc::Global;
use std::sync::{Arc, Wait};
use std::thread::{Threads, join};

/// 2024.01.02D09:30, in nanoseconds since 2000.01.01.
pub(crate) const NOW: i64 = 757_503_000_000_000_000;

/// Logs an update this many times, and says whether each was logged.
pub(crate) fn logs_all<D: Disk, R: Wait>(
    rt: &R,
    alloc: Global,
    session: &mut Shared<'_, D>,
    request: &UpdRequest,
    count: u32,
) -> bool
    ensures { session.new.lock ≡ session.old.lock }
{
    for _ in 0..count {
        let UpdTurn::Logged { .. } = session.upd(rt, alloc, request, NOW) else {
            return false;
        };
    }
    true
}

/// The same by the one pass of a new plant.
pub(crate) fn feed_solo<R: Wait>(rt: &R, alloc: Global, count: u32) -> bool {
    let (Ok(plant), Ok(request)) = (plant(alloc), trades(alloc, 1)) else {
        return false;
    };
    if plant.next_by() != 1 {
        return false;
    }
    let mut solo = Solo::new(plant);
    for _ in 0..count {
        let UpdTurn::Logged { .. } = solo.upd(rt, alloc, &request, NOW) else {
            return false;
        };
    }
    true
}

/// Logs updates of one row as this pass.
pub(crate) fn feed_as<D: Disk, R: Wait>(
    rt: &R,
    alloc: Global,
    lock: &Lock<D>,
    pass: PlantPass<D>,
    schema: &Arc<Schema>,
    count: u32,
) -> bool
    requires pass { IsPass lock.now.id pass × (pass.mine ≡ []) }
    requires schema { schema.now.value ≡ lock.now.made.memory.frame.schema }
{
    let Ok(request) = trades(alloc, 1) else {
        return false;
    };
    match schema.clone() {
        Ok(schema) => {
            let mut session = Shared::new(lock, pass, schema);
            logs_all(rt, alloc, &mut session, &request, count)
        }
        Err(_) => false,
    }
}

/// The same by two threads.
pub(crate) fn feed_by_two<K: PlantGuard + Sync, R: Threads + Wait + Sync>(
    rt: &R,
    alloc: Global,
    lock: &K,
    pass: PlantPass<K::Disk>,
    schema: &Arc<Schema>,
    count: u32,
) -> bool
    requires pass { IsPass (K.lock_of lock.now).id pass × (pass.mine ≡ []) }
    requires schema { schema.now.value ≡ (K.lock_of lock.now).made.memory.frame.schema }
{
    let (one, other) = branch(rt, lock.plant_lock(), pass);
    let (a, b) = join(
        rt,
        move || -> bool
            requires { IsPass (K.lock_of lock.now).id one × (one.mine ≡ []) × (schema.now.value ≡ (K.lock_of lock.now).made.memory.frame.schema) }
        { feed_as(rt, alloc, lock.plant_lock(), one, schema, count) },
        move || -> bool
            requires { IsPass (K.lock_of lock.now).id other × (other.mine ≡ []) × (schema.now.value ≡ (K.lock_of lock.now).made.memory.frame.schema) }
        { feed_as(rt, alloc, lock.plant_lock(), other, schema, count) },
    );
    a && b
}

/// The same by four.
pub(crate) fn feed_by_four<K: PlantGuard + Sync, R: Threads + Wait + Sync>(
    rt: &R,
    alloc: Global,
    lock: &K,
    pass: PlantPass<K::Disk>,
    schema: &Arc<Schema>,
    count: u32,
) -> bool
    requires pass { IsPass (K.lock_of lock.now).id pass × (pass.mine ≡ []) }
    requires schema { schema.now.value ≡ (K.lock_of lock.now).made.memory.frame.schema }
{
    let (one, other) = branch(rt, lock.plant_lock(), pass);
    let (a, b) = join(
        rt,
        move || -> bool
            requires { IsPass (K.lock_of lock.now).id one × (one.mine ≡ []) × (schema.now.value ≡ (K.lock_of lock.now).made.memory.frame.schema) }
        { feed_by_two(rt, alloc, lock, one, schema, count) },
        move || -> bool
            requires { IsPass (K.lock_of lock.now).id other × (other.mine ≡ []) × (schema.now.value ≡ (K.lock_of lock.now).made.memory.frame.schema) }
        { feed_by_two(rt, alloc, lock, other, schema, count) },
    );
    a && b
}
