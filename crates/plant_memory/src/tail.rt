//! Tails of a plant, which subscribers are sent.
ghost use Rattle.std.specs.Prelude.{◌≡◌, length, take, drop, IfOk};
ghost use Rattle.std.specs.List.{AllByRecursion};
ghost use Rattle.day_rows.specs.Chronicle.{date_of};
ghost use Rattle.plant_memory.specs.Memory.{IsOfSchema};

use crate::history::History;
use day_rows::{Entries, Schema};
use q_values::{Limits, NoMemory};
use std::alloc::Global;
use std::marker::Model;
use std::sync::Arc;

/// The chronicle of a plant as it was at one moment, from an index on. It shares the dates that had ended.
#[derive(Drop)]
pub struct Tail {
    /// The plant's schema, shared with it.
    pub(crate) schema: Arc<Schema>,
    /// The plant's limits.
    pub(crate) limits: Limits,
    /// The dates; the ended ones are shared with the plant, the open one is a copy.
    pub(crate) history: History,
    /// The index of the first entry that belongs to the tail.
    pub(crate) from: u64,
}

impl Model for Tail {
    ghost use Rattle.plant_memory.specs.Memory.{TailView, IsTail, frame_of};

    ghost Value = { TailView };

    ghost view = { λ t. record {
      frame = frame_of t.schema.value t.limits t.history;
      entries = t.history.entries;
      from = t.from;
    } };

    ghost invariant = { λ t. IsTail t.schema.value t.history t.from };
}

impl Tail {
    /// The index of the tail's first entry, and the number of all entries of the chronicle.
    pub fn span(&self) -> (u64, u64)
        ensures from { result.0 ≡ self.now.from }
        ensures to { result.1 ≡ length self.now.entries }
    {
        (self.from, self.history.length())
    }

    /// Copies of the tail's entries, in order. The dates before the one that has the first of them cost nothing, and neither
    /// do the blocks of updates before it on that date.
    pub fn entries(&self, alloc: Global) -> Result<Entries, NoMemory>
        ensures entries { IfOk result (λ entries. entries ≡ drop self.now.from self.now.entries) }
        ensures updates { IfOk result (AllByRecursion (IsOfSchema self.now.frame.schema)) }
    {
        self.history.learn_tables();
        self.history.entries_from(alloc, self.from)
    }

    /// The date that was open before the tail's first entry, in days since 2000.01.01.
    pub fn date(&self) -> i32
        ensures { result ≡ date_of self.now.frame.first (take self.now.from self.now.entries) }
    {
        self.history.date_before(self.from)
    }

    /// The plant's tables.
    pub fn schema(&self) -> &Schema
        ensures { result.now ≡ self.now.frame.schema }
    {
        &self.schema
    }
}
