//! A plant as the state of a lock: the list that it stands for is its chronicle.
ghost use Rattle.std.specs.Prelude.{◌≡◌, ◌<◌, ◌≤◌, ◌+◌, ◌^◌, All, IfOk, IfSome, IfNone};
ghost use Rattle.plant_memory.specs.Chronicle.{by_of, top_by};

use crate::plant::Plant;
use day_rows::{Entry, Schema};
use outside_api::Disk;
use plant_lock::Chronicle;
use q_values::{Limits, NoMemory};
use std::alloc::Global;
use std::marker::Model;
use std::sync::Arc;

/// What no call changes of a plant over a disk `D`, as contracts see it. No value of it is made.
pub struct PlantFrame<D> {
    /// The tables.
    pub schema: Schema,
    /// The first date, in days since 2000.01.01.
    pub first: i32,
    /// The limits.
    pub limits: Limits,
    /// The disk as it was when the plant was loaded.
    pub origin: D,
}

impl<D> Model for PlantFrame<D> {
    ghost use Rattle.plant_core.specs.Turns.{Unchanging};

    ghost Value = { Unchanging D };

    ghost view = { λ f. record { frame = record { schema = f.schema; first = f.first; limits = f.limits }; origin = f.origin } };
}

impl<D: Disk> Chronicle for Plant<D> {
    ghost use Rattle.plant_memory.specs.Chronicle.{by_of};

    type Entry = Entry;

    type Frame = PlantFrame<D>;

    ghost entries = { λ p. p.memory.entries };

    ghost by = { by_of };

    ghost frame = { λ p. record { frame = p.memory.frame; origin = p.origin } };

    fn length(&self) -> u64 {
        self.memory.length()
    }
}

impl<D: Disk> Plant<D> {
    /// A number for the first pass of a lock round the plant, which is above those of all entries: 1 plus the greatest of
    /// them. `None` where 64 bits have no room for it and a later one.
    pub fn first_pass(&self) -> Option<u64>
        ensures number { IfSome result (λ first. first ≡ top_by self.now.memory.entries + 1) }
        ensures few { IfSome result (λ first. first + 1 < 2 ^ 64) }
        ensures fresh { IfSome result (λ first. All (λ e. by_of e < first) self.now.memory.entries) }
        ensures none { IfNone result (2 ^ 64 ≤ top_by self.now.memory.entries + 2) }
    {
        let next = self.next_by();
        if next == u64::MAX { None } else { Some(next) }
    }

    /// The tables, in a copy that sessions on threads may share.
    pub fn shared_schema(&self, alloc: Global) -> Result<Arc<Schema>, NoMemory>
        ensures { IfOk result (λ schema. schema.value ≡ self.now.memory.frame.schema) }
    {
        let schema = self.memory.schema().copied(alloc)?;
        Ok(Arc::new(alloc, schema)?)
    }
}
