//! A plant that one pass holds alone.
ghost use Rattle.std.specs.Prelude.{◌≡◌, ◌<◌, ◌+◌, ◌^◌, []};
ghost use Rattle.plant_memory.specs.Chronicle.{top_by};

use crate::access::{Access, TickTurn, UpdTurn};
use crate::commits::Logging;
use crate::plant::Plant;
use day_rows::Schema;
use outside_api::Disk;
use plant_memory::{Snapshot, Tail, UpdRefusal, UpdRequest, is_next_day};
use q_values::NoMemory;
use std::alloc::Global;
use std::marker::Model;
use std::sync::Wait;

/// A plant, and the one pass that makes its entries.
#[derive(Drop)]
pub struct Solo<D: Disk> {
    // the plant, to which nobody else has access
    plant: Plant<D>,
    // the number of the pass; it and its successor fit 64 bits
    by: u64,
    // the number of entries that the plant had when the pass began
    began: u64,
    // how often a snapshot was asked for; saturates
    snapshots: u64,
    // how often `tick` was called; saturates
    ticks: u64,
    // the index of the last fault that the pass made, if it made one
    latest: u64,
}

impl<D: Disk> Model for Solo<D> {
    ghost use Rattle.plant_core.specs.Access.{SoloView, IsSolo, solo_of};

    ghost Value = { SoloView D };

    ghost view = { λ s. solo_of s.plant.origin s.plant.memory s.by s.began s.snapshots s.ticks };

    ghost invariant = { λ s. IsSolo s.plant.memory s.by s.began s.latest };
}

impl<D: Disk> Solo<D> {
    /// The pass with the plant's next number. It has seen the plant's whole chronicle, and takes no memory.
    pub fn new(plant: Plant<D>) -> Solo<D>
        requires { top_by plant.memory.entries + 2 < 2 ^ 64 }
        ensures { result ≡ record {
          by = top_by plant.memory.entries + 1;
          frame = plant.memory.frame;
          seen = plant.memory.entries;
          mine = [];
          snapshots = 0;
          ticks = 0;
          origin = plant.origin;
        } }
    {
        Solo {
            by: plant.next_by(),
            began: plant.length(),
            plant,
            snapshots: 0,
            ticks: 0,
            latest: 0,
        }
    }

    /// The plant, whose chronicle is what the pass has seen. It takes no memory.
    pub fn into_plant(self) -> Plant<D>
        ensures frame { result.memory.frame ≡ self.frame }
        ensures entries { result.memory.entries ≡ self.seen }
        ensures origin { result.origin ≡ self.origin }
    {
        let Solo { plant, .. } = self;
        plant
    }
}

impl<D: Disk> Access for Solo<D> {
    ghost use Rattle.plant_core.specs.Access.{shown_alone};

    ghost shown = { λ s. shown_alone D.shown s };

    fn by(&self) -> u64 {
        self.by
    }

    fn schema(&self) -> &Schema {
        self.plant.schema()
    }

    fn upd<R: Wait>(&mut self, _rt: &R, alloc: Global, request: &UpdRequest, now: i64) -> UpdTurn {
        let length = self.plant.length();
        let update = match self.plant.prepare(alloc, self.by, request, now) {
            Ok(update) => update,
            Err(why) => return UpdTurn::Refused { length, why },
        };
        match self.plant.log(alloc, update) {
            Logging::Logged { rolled, place } => UpdTurn::Logged { rolled, place },
            Logging::Failed { rolled, place } => {
                self.latest = place;
                UpdTurn::Failed { rolled, place }
            }
            Logging::NoMemory => UpdTurn::Refused {
                length,
                why: UpdRefusal::NoMemory,
            },
        }
    }

    fn tick<R: Wait>(&mut self, _rt: &R, alloc: Global, now: i64) -> TickTurn {
        self.ticks = self.ticks.saturating_add(1);
        let length = self.plant.length();
        if !is_next_day(self.plant.date(), now) {
            return TickTurn::Quiet { length };
        }
        let Ok(roll) = self.plant.prepare_roll(alloc, self.by) else {
            return TickTurn::NoMemory;
        };
        match self.plant.commit_roll(roll) {
            Ok(place) => TickTurn::Rolled { place },
            Err(_) => {
                self.latest = length;
                TickTurn::Failed { place: length }
            }
        }
    }

    fn snapshot<R: Wait>(&mut self, _rt: &R, alloc: Global) -> Result<Snapshot, NoMemory> {
        self.snapshots = self.snapshots.saturating_add(1);
        self.plant.snapshot(alloc)
    }

    fn tail<R: Wait>(&mut self, _rt: &R, alloc: Global, from: u64) -> Result<Tail, NoMemory> {
        self.plant.tail(alloc, from)
    }

    fn last_fault(&self) -> u64 {
        self.latest
    }
}
