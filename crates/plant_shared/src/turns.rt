//! One call under the lock: take it, make one step of the plant, and give it back.
ghost use Rattle.std.specs.Prelude.{◌≡◌, ◌<◌, ◌≤◌, ◌+◌, ◌^◌, ℕ, length, IfOk};
ghost use Rattle.plant_lock.specs.Entries.{IsExtendedBy};
ghost use Rattle.plant_memory.specs.Chronicle.{by_of};
ghost use Rattle.plant_core.specs.Plant.{IsSound, shown_by};
ghost use Rattle.plant_core.specs.Turns.{UpdatesPlant, TicksPlant};
ghost use Rattle.plant_shared.specs.Shared.{locked, IsPass, IsLatest, UpdatesPass, TicksPass, SnapsPass, TailsPass, latest_update, latest_tick};
ghost use Rattle.plant_shared.specs.Steps.{unchanging, UpdatesOnce, TicksOnce, SnapsOnce, TailsOnce};

use outside_api::Disk;
use plant_core::{Plant, TickTurn, UpdTurn};
use plant_lock::{PassOf, PlantLock};
use plant_memory::{Snapshot, Tail, UpdRequest};
use q_values::NoMemory;
use std::alloc::Global;
use std::sync::Wait;

/// A lock round a plant.
pub type Lock<D> = PlantLock<Plant<D>>;

/// A pass of a lock round a plant.
pub type PlantPass<D> = PassOf<Plant<D>>;

// Every plant is sound, as a call that changes nothing tells.
fn learn_sound<D: Disk>(plant: &Plant<D>)
    ensures { IsSound (shown_by D.shown plant.now) }
{
    let _length = plant.length();
}

// An update of a plant, which is sound before it and after it.
fn updated<D: Disk>(
    plant: &mut Plant<D>,
    alloc: Global,
    by: u64,
    request: &UpdRequest,
    now: i64,
) -> UpdTurn
    requires { by + 1 < 2 ^ 64 }
    ensures turn { UpdatesPlant (D.shown plant.old.origin) plant.old.memory plant.new.memory by request.now now result }
    ensures made { IsExtendedBy by_of by plant.old.memory.entries plant.new.memory.entries }
    ensures frame { plant.new.memory.frame ≡ plant.old.memory.frame }
    ensures origin { plant.new.origin ≡ plant.old.origin }
    ensures before { IsSound (shown_by D.shown plant.old) }
    ensures after { IsSound (shown_by D.shown plant.new) }
{
    learn_sound(plant);
    let turn = plant.update(alloc, by, request, now);
    learn_sound(plant);
    turn
}

// A look at the clock, by a plant which is sound before it and after it.
fn ticked<D: Disk>(plant: &mut Plant<D>, alloc: Global, by: u64, now: i64) -> TickTurn
    requires { by + 1 < 2 ^ 64 }
    ensures turn { TicksPlant (D.shown plant.old.origin) plant.old.memory plant.new.memory by now result }
    ensures made { IsExtendedBy by_of by plant.old.memory.entries plant.new.memory.entries }
    ensures frame { plant.new.memory.frame ≡ plant.old.memory.frame }
    ensures origin { plant.new.origin ≡ plant.old.origin }
    ensures before { IsSound (shown_by D.shown plant.old) }
    ensures after { IsSound (shown_by D.shown plant.new) }
{
    learn_sound(plant);
    let turn = plant.tick(alloc, by, now);
    learn_sound(plant);
    turn
}

// A snapshot of a plant, which is sound.
fn shown<D: Disk>(plant: &Plant<D>, alloc: Global) -> Result<Snapshot, NoMemory>
    ensures answer { IfOk result (λ s. s ≡ record { frame = plant.now.memory.frame; entries = plant.now.memory.entries }) }
    ensures sound { IsSound (shown_by D.shown plant.now) }
{
    learn_sound(plant);
    plant.snapshot(alloc)
}

// The chronicle of a plant, which is sound, from the index `from` on.
fn shown_from<D: Disk>(plant: &Plant<D>, alloc: Global, from: u64) -> Result<Tail, NoMemory>
    requires { from ≤ length plant.now.memory.entries }
    ensures answer { IfOk result (λ t. t ≡ record { frame = plant.now.memory.frame; entries = plant.now.memory.entries; from = from }) }
    ensures sound { IsSound (shown_by D.shown plant.now) }
{
    learn_sound(plant);
    plant.tail(alloc, from)
}

/// Takes the lock, and logs the update or refuses it.
pub(crate) fn update<D: Disk, R: Wait>(
    rt: &R,
    lock: &Lock<D>,
    pass: PlantPass<D>,
    alloc: Global,
    request: &UpdRequest,
    now: i64,
) -> (PlantPass<D>, UpdTurn)
    requires { IsPass lock.now.id pass }
    ensures pass { IsPass lock.now.id result.0 }
    ensures number { result.0.number ≡ pass.number }
    ensures turn { UpdatesPass lock.now.made.memory.frame (locked (D.shown lock.now.made.origin) lock.now.id) pass result.0 request.now now result.1 }
    ensures step { UpdatesOnce D.shown (unchanging lock.now.made) pass.number pass.seen result.0.seen request.now now result.1 }
    ensures latest { (latest : ℕ) → IsLatest pass latest → IsLatest result.0 (latest_update latest result.1) }
{
    let mut held = lock.take(rt, pass);
    let by = held.number();
    let turn = updated(held.state(), alloc, by, request, now);
    (held.give(), turn)
}

/// Takes the lock, and ends the open date where the moment lies in the next one.
pub(crate) fn tick<D: Disk, R: Wait>(
    rt: &R,
    lock: &Lock<D>,
    pass: PlantPass<D>,
    alloc: Global,
    now: i64,
) -> (PlantPass<D>, TickTurn)
    requires { IsPass lock.now.id pass }
    ensures pass { IsPass lock.now.id result.0 }
    ensures number { result.0.number ≡ pass.number }
    ensures turn { TicksPass lock.now.made.memory.frame (locked (D.shown lock.now.made.origin) lock.now.id) pass result.0 now result.1 }
    ensures step { TicksOnce D.shown (unchanging lock.now.made) pass.number pass.seen result.0.seen now result.1 }
    ensures latest { (latest : ℕ) → IsLatest pass latest → IsLatest result.0 (latest_tick latest result.1) }
{
    let mut held = lock.take(rt, pass);
    let by = held.number();
    let turn = ticked(held.state(), alloc, by, now);
    (held.give(), turn)
}

/// Takes the lock, and makes a snapshot, which shares the dates that have ended.
pub(crate) fn snapshot<D: Disk, R: Wait>(
    rt: &R,
    lock: &Lock<D>,
    pass: PlantPass<D>,
    alloc: Global,
) -> (PlantPass<D>, Result<Snapshot, NoMemory>)
    requires { IsPass lock.now.id pass }
    ensures pass { IsPass lock.now.id result.0 }
    ensures number { result.0.number ≡ pass.number }
    ensures answer { SnapsPass lock.now.made.memory.frame (locked (D.shown lock.now.made.origin) lock.now.id) pass result.0 result.1 }
    ensures step { SnapsOnce D.shown (unchanging lock.now.made) pass.seen result.0.seen result.1 }
    ensures latest { (latest : ℕ) → IsLatest pass latest → IsLatest result.0 latest }
{
    let mut held = lock.take(rt, pass);
    let answer = shown(held.state(), alloc);
    (held.give(), answer)
}

/// Takes the lock, and makes a tail from the index `from` on, up to which the pass has seen the chronicle. It shares the
/// dates that have ended.
pub(crate) fn tail<D: Disk, R: Wait>(
    rt: &R,
    lock: &Lock<D>,
    pass: PlantPass<D>,
    alloc: Global,
    from: u64,
) -> (PlantPass<D>, Result<Tail, NoMemory>)
    requires pass { IsPass lock.now.id pass }
    requires seen { from ≤ length pass.seen }
    ensures pass { IsPass lock.now.id result.0 }
    ensures number { result.0.number ≡ pass.number }
    ensures answer { TailsPass lock.now.made.memory.frame (locked (D.shown lock.now.made.origin) lock.now.id) pass result.0 from result.1 }
    ensures step { TailsOnce D.shown (unchanging lock.now.made) pass.seen result.0.seen from result.1 }
    ensures latest { (latest : ℕ) → IsLatest pass latest → IsLatest result.0 latest }
{
    let mut held = lock.take(rt, pass);
    let answer = shown_from(held.state(), alloc, from);
    (held.give(), answer)
}

/// The index of the pass's last fault after an update.
pub(crate) fn latest_after_update(latest: u64, turn: &UpdTurn) -> u64
    ensures { result ≡ latest_update latest turn.now }
{
    match turn {
        UpdTurn::Logged { .. } => latest,
        UpdTurn::Refused { .. } => latest,
        UpdTurn::Failed { place, .. } => *place,
    }
}

/// The index of the pass's last fault after a tick.
pub(crate) fn latest_after_tick(latest: u64, turn: TickTurn) -> u64
    ensures { result ≡ latest_tick latest turn }
{
    match turn {
        TickTurn::Quiet { .. } => latest,
        TickTurn::Rolled { .. } => latest,
        TickTurn::Failed { place } => place,
        TickTurn::NoMemory => latest,
    }
}
