//! The access of a session to a plant under a lock.
ghost use Rattle.std.specs.Prelude.{◌≡◌, ◌+◌, ◌<◌, ◌≤◌, ◌^◌, length, []};
ghost use Rattle.plant_lock.specs.Entries.{own};
ghost use Rattle.plant_memory.specs.Chronicle.{by_of};
ghost use Rattle.plant_core.specs.Access.{Updates, Ticks, Snaps, Tails, next_count};
ghost use Rattle.plant_shared.specs.Shared.{shared_of, shown_shared};
ghost use Rattle.plant_shared.specs.Steps.{lock_of, UpdatesOnce, TicksOnce, SnapsOnce, TailsOnce};

use crate::turns::{
    Lock, PlantPass, latest_after_tick, latest_after_update, snapshot, tail, tick, update,
};
use day_rows::Schema;
use outside_api::Disk;
use plant_core::{Access, TickTurn, UpdTurn};
use plant_memory::{Snapshot, Tail, UpdRequest};
use q_values::NoMemory;
use std::alloc::Global;
use std::marker::Model;
use std::sync::{Arc, Wait};

// A count after one more; it saturates.
fn raised(count: u64) -> u64
    ensures { result ≡ next_count count }
{
    count.saturating_add(1)
}

/// A pass's way to a plant that others reach too. Each call that reaches the plant takes the lock once, and waits for
/// nothing else.
#[derive(Drop)]
pub struct Shared<'a, D: Disk> {
    // the lock round the plant
    lock: &'a Lock<D>,
    // the pass, but for the time of a call
    pass: Option<PlantPass<D>>,
    // the number of the pass
    by: u64,
    // the plant's tables
    schema: Arc<Schema>,
    // how often a snapshot was asked for; saturates
    snapshots: u64,
    // how often `tick` was called; saturates
    ticks: u64,
    // the index of the last fault that the pass made, if it made one
    latest: u64,
}

impl<'a, D: Disk> Model for Shared<'a, D> {
    ghost use Rattle.std.specs.Prelude.{◌≡◌};
    ghost use Rattle.plant_shared.specs.Shared.{SharedView, IsShared, shared_by};

    ghost Value = { SharedView D };

    ghost view = { λ s. shared_by s.lock.now.made.memory.frame s.lock.now.made.origin s.lock.now.id s.pass s.snapshots s.ticks };

    ghost invariant = { λ s. let frame = s.lock.now.made.memory.frame in IsShared s.lock.now.id frame s.pass s.latest s.schema.value
        × (s.by ≡ (shared_by frame s.lock.now.made.origin s.lock.now.id s.pass 0 0).by) };
}

impl<'a, D: Disk> Shared<'a, D> {
    /// The access of a pass that has made nothing yet. `schema` has the tables of the lock's plant.
    pub fn new(lock: &'a Lock<D>, pass: PlantPass<D>, schema: Arc<Schema>) -> Shared<'a, D>
        requires lock { pass.lock ≡ lock.now.id }
        requires few { pass.number + 1 < 2 ^ 64 }
        requires fresh { pass.mine ≡ [] }
        requires own { own by_of pass.number pass.seen ≡ pass.mine }
        requires schema { schema.value ≡ lock.now.made.memory.frame.schema }
        ensures { result ≡ shared_of lock.now.made.memory.frame lock.now.made.origin lock.now.id pass 0 0 }
    {
        Shared {
            lock,
            by: pass.number(),
            pass: Some(pass),
            schema,
            snapshots: 0,
            ticks: 0,
            latest: 0,
        }
    }

    /// The pass, which has seen and made what the access has.
    pub fn into_parts(self) -> PlantPass<D>
        ensures lock { result.lock ≡ self.entry.lock }
        ensures number { result.number ≡ self.entry.by }
        ensures seen { result.seen ≡ self.entry.seen }
        ensures mine { result.mine ≡ self.entry.mine }
        ensures own { own by_of result.number result.seen ≡ result.mine }
    {
        let Shared { pass, .. } = self;
        match pass {
            Some(pass) => pass,
            None => unreachable!(),
        }
    }
}

impl<'a, D: Disk> Access for Shared<'a, D> {
    ghost shown = { λ s. shown_shared D.shown s };

    fn by(&self) -> u64 {
        self.by
    }

    fn schema(&self) -> &Schema {
        &self.schema
    }

    fn upd<R: Wait>(&mut self, rt: &R, alloc: Global, request: &UpdRequest, now: i64) -> UpdTurn
        ensures turn { Updates (shown_shared D.shown self.old) (shown_shared D.shown self.new) request.now now result }
        ensures step { UpdatesOnce D.shown (lock_of self.old) self.old.by self.old.seen self.new.seen request.now now result }
        ensures lock { self.new.lock ≡ self.old.lock }
    {
        let Some(pass) = self.pass.take() else {
            unreachable!()
        };
        let (pass, turn) = update(rt, self.lock, pass, alloc, request, now);
        self.pass = Some(pass);
        self.latest = latest_after_update(self.latest, &turn);
        turn
    }

    fn tick<R: Wait>(&mut self, rt: &R, alloc: Global, now: i64) -> TickTurn
        ensures turn { Ticks (shown_shared D.shown self.old) (shown_shared D.shown self.new) now result }
        ensures step { TicksOnce D.shown (lock_of self.old) self.old.by self.old.seen self.new.seen now result }
        ensures lock { self.new.lock ≡ self.old.lock }
    {
        self.ticks = raised(self.ticks);
        let Some(pass) = self.pass.take() else {
            unreachable!()
        };
        let (pass, turn) = tick(rt, self.lock, pass, alloc, now);
        self.pass = Some(pass);
        self.latest = latest_after_tick(self.latest, turn);
        turn
    }

    fn snapshot<R: Wait>(&mut self, rt: &R, alloc: Global) -> Result<Snapshot, NoMemory>
        ensures answer { Snaps (shown_shared D.shown self.old) (shown_shared D.shown self.new) result }
        ensures step { SnapsOnce D.shown (lock_of self.old) self.old.seen self.new.seen result }
        ensures lock { self.new.lock ≡ self.old.lock }
    {
        self.snapshots = raised(self.snapshots);
        let Some(pass) = self.pass.take() else {
            unreachable!()
        };
        let (pass, answer) = snapshot(rt, self.lock, pass, alloc);
        self.pass = Some(pass);
        answer
    }

    fn tail<R: Wait>(&mut self, rt: &R, alloc: Global, from: u64) -> Result<Tail, NoMemory>
        requires { from ≤ length self.old.seen }
        ensures answer { Tails (shown_shared D.shown self.old) (shown_shared D.shown self.new) from result }
        ensures step { TailsOnce D.shown (lock_of self.old) self.old.seen self.new.seen from result }
        ensures lock { self.new.lock ≡ self.old.lock }
    {
        let Some(pass) = self.pass.take() else {
            unreachable!()
        };
        let (pass, answer) = tail(rt, self.lock, pass, alloc, from);
        self.pass = Some(pass);
        answer
    }

    fn last_fault(&self) -> u64 {
        self.latest
    }
}
