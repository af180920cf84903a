//! Serving a plant to the connections of a port.
ghost use Rattle.std.specs.Prelude.{◌≡◌, ◌+◌, ◌<◌, ◌^◌};
ghost use Rattle.plant_memory.specs.Chronicle.{top_by};
ghost use Rattle.program_outside.specs.Outside.{IsListening};
ghost use Rattle.q_values.specs.Limits.{AreLimits};
ghost use Rattle.plant_serving.specs.Serving.{Serves, setting_of};
ghost use Rattle.plant_serving.specs.Working.{IsLawful, Finishes};

use crate::accepting::accept_all;
use crate::end::ServeEnd;
use crate::sessions::{Server, Sessions};
use crate::threads::Shop;
use day_rows::{Entry, Schema};
use outside_api::Disk;
use plant_core::Plant;
use plant_lock::{Pass, PlantLock};
use plant_shared::{Lock, PlantPass};
use program_outside::Outside;
use q_values::Limits;
use std::alloc::Global;
use std::snapshot::Snapshot;
use std::sync::{Arc, Wait};
use std::thread;
use std::thread::{Scope, Threads};

/// Serves the plant to as many connections as `count` says, which the outside accepts, each on a thread of its own.
pub fn serve_port<O: Outside, D: Disk + Send, R: Threads + Wait + Sync>(
    rt: &R,
    alloc: Global,
    plant: Plant<D>,
    count: u32,
    limits: &Limits,
    outside: &mut O,
) -> (Plant<D>, ServeEnd)
    requires limits { AreLimits limits.now }
    requires same { plant.memory.frame.limits ≡ limits.now }
    requires numbers { top_by plant.memory.entries + 2 < 2 ^ 64 }
    requires listening { IsListening (O.seen outside.old) }
    ensures served { Serves limits.now count (D.shown plant.origin) plant.memory result.0.memory (O.seen outside.old) (O.seen outside.new) result.1 }
    ensures origin { result.0.origin ≡ plant.origin }
{
    let Ok(schema) = plant.shared_schema(alloc) else {
        return (plant, ServeEnd::NoMemory);
    };
    let Some(number) = plant.first_pass() else {
        unreachable!()
    };
    let (lock, first) = match PlantLock::new(rt, alloc, plant, number) {
        Ok(made) => made,
        Err(failure) => return (failure.back, ServeEnd::NoMemory),
    };
    let opening = Opening {
        schema,
        first,
        count,
    };
    let (last, end) = serve_in_scope(rt, alloc, &lock, limits, opening, outside);
    (lock.close(rt, last), end)
}

/// What the sessions of a server begin with.
#[derive(Drop)]
struct Opening {
    /// The tables of the plant.
    schema: Arc<Schema>,
    /// The first pass of its lock, which has made nothing.
    first: Pass<Entry>,
    /// How many sessions are served.
    count: u32,
}

/// Serves the connections on threads, and waits for all of them.
fn serve_in_scope<O: Outside, D: Disk + Send, R: Threads + Wait + Sync>(
    rt: &R,
    alloc: Global,
    lock: &Lock<D>,
    limits: &Limits,
    opening: Opening,
    outside: &mut O,
) -> (PlantPass<D>, ServeEnd)
    requires lawful { IsLawful (setting_of lock.now limits.now) opening.schema.value }
    requires of_lock { opening.first.lock ≡ lock.now.id }
    requires knows { opening.first.seen ≡ lock.now.made.memory.entries }
    requires listening { IsListening (O.seen outside.old) }
    ensures { Finishes D.shown (setting_of lock.now limits.now) opening.count (O.seen outside.old) result.0 result.1 (O.seen outside.new) }
{
    let (last, end, back) = thread::scope(
        thread::scope_env(),
        rt,
        move |scope| -> (PlantPass<D>, ServeEnd, &mut O)
            requires lawful { IsLawful (setting_of lock.now limits.now) opening.schema.value }
            requires of_lock { opening.first.lock ≡ lock.now.id }
            requires knows { opening.first.seen ≡ lock.now.made.memory.entries }
            requires listening { IsListening (O.seen outside.now) }
            ensures same { result.2.ghost_name ≡ outside.entry.ghost_name }
            ensures finishes { Finishes D.shown (setting_of lock.entry.now limits.entry.now) opening.count
                (O.seen outside.entry.now) result.0 result.1 (O.seen result.2.now) }
        {
            let shop = Shop {
                rt,
                alloc,
                lock,
                limits,
            };
            serve_all(scope, shop, opening, outside)
        },
    );
    take_back(back);
    (last, end)
}

/// Serves the connections on threads of this scope, and joins them all.
fn serve_all<'s, 'o, E, O: Outside + 's, D: Disk + Send + 's, R: Threads + Wait + Sync + 's>(
    scope: &Scope<'s, E>,
    shop: Shop<'s, Lock<D>, R>,
    opening: Opening,
    outside: &'o mut O,
) -> (PlantPass<D>, ServeEnd, &'o mut O)
    requires lawful { IsLawful (setting_of shop.lock.now shop.limits.now) opening.schema.value }
    requires of_lock { opening.first.lock ≡ shop.lock.now.id }
    requires knows { opening.first.seen ≡ shop.lock.now.made.memory.entries }
    requires listening { IsListening (O.seen outside.old) }
    ensures same { result.2.ghost_name ≡ outside.entry.ghost_name }
    ensures finishes { Finishes D.shown (setting_of shop.entry.lock.now shop.entry.limits.now) opening.count
        (O.seen outside.old) result.0 result.1 (O.seen result.2.now) }
{
    let Opening {
        schema,
        first,
        count,
    } = opening;
    let alloc = shop.alloc;
    let server = Server {
        shop,
        schema,
        count,
        began: Snapshot::of(outside),
    };
    let sessions = Sessions::<D, O>::new(alloc, first);
    let sessions = accept_all(sessions, scope, &server, outside);
    let sessions = sessions.join_all(&server, outside);
    let end = sessions.progress.end();
    let Sessions { first, .. } = sessions;
    (first, end, outside)
}

/// Ends a borrow that was handed back.
fn take_back<T>(back: &mut T)
    ensures { back.new ≡ back.old }
{}
