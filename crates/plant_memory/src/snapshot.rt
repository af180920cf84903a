//! Snapshots of a plant, which queries read.
ghost use Rattle.std.specs.Prelude.{◌≡◌, ◌<◌, ◌≤◌, ◌+◌, length, take, drop, IfOk};
ghost use Rattle.q_values.specs.declared.kind.Kind.{Kind};
ghost use Rattle.day_rows.specs.Rows.{column_of};
ghost use Rattle.day_rows.specs.Chronicle.{DatesAscend};
ghost use Rattle.plant_memory.specs.Chronicle.{today, dates_of, date_at, rows_at, update_count};
ghost use Rattle.plant_memory.specs.Memory.{HasColumn};

use crate::history::History;
use day_rows::Schema;
use q_values::{Limits, NoMemory, Vector};
use std::alloc::Global;
use std::marker::Model;

/// The whole chronicle of a plant, as it was at one moment. It shares the dates that had ended.
#[derive(Drop)]
pub struct Snapshot {
    /// The plant's schema, for contracts alone; takes no memory.
    pub(crate) schema: std::snapshot::Snapshot<Schema>,
    /// The plant's limits.
    pub(crate) limits: Limits,
    /// The dates; the ended ones are shared with the plant, the open one is a copy.
    pub(crate) history: History,
}

impl Model for Snapshot {
    ghost use Rattle.plant_memory.specs.Memory.{SnapshotView, IsSnapshot, frame_of};

    ghost Value = { SnapshotView };

    ghost view = { λ s. record { frame = frame_of s.schema.value s.limits s.history; entries = s.history.entries } };

    ghost invariant = { λ s. IsSnapshot s.schema.value s.history };
}

impl Snapshot {
    /// The number of entries.
    pub fn length(&self) -> u64
        ensures { result ≡ length self.now.entries }
    {
        self.history.length()
    }

    /// The number of dates, each of which is later than the one before it.
    pub fn dates(&self) -> usize
        ensures count { result ≡ length (dates_of self.now.frame.first self.now.entries) }
        ensures ascend { DatesAscend self.now.frame.first self.now.entries }
    {
        self.history.dates()
    }

    /// The date with the index `k`, in days since 2000.01.01.
    pub fn date_at(&self, k: usize) -> i32
        requires { k < length (dates_of self.now.frame.first self.now.entries) }
        ensures { result ≡ date_at self.now.frame.first self.now.entries k }
    {
        self.history.date_at(k)
    }

    /// The number of a table's rows on the date with the index `k`.
    pub fn rows_at(&self, k: usize, table: u32) -> u32
        requires date { k < length (dates_of self.now.frame.first self.now.entries) }
        requires table { table < length self.now.frame.schema }
        ensures { result ≡ length (rows_at self.now.frame.first self.now.entries k table) }
    {
        self.history.rows_at(k, table)
    }

    /// The number of updates since the last roll.
    pub fn updates_today(&self) -> u64
        ensures { result ≡ update_count (today self.now.entries) }
    {
        self.history.updates_today()
    }

    /// The `n` atoms of a table's column from the row `from` on, on the date with the index `k`, in the documented
    /// order (KX, partitioned tables).
    pub fn column(
        &self,
        alloc: Global,
        k: usize,
        table: u32,
        column: u32,
        from: u32,
        n: u32,
    ) -> Result<Vector, NoMemory>
        requires date { k < length (dates_of self.now.frame.first self.now.entries) }
        requires exists { (kind : Kind) × HasColumn self.now.frame.schema table column kind }
        requires within { from + n ≤ length (rows_at self.now.frame.first self.now.entries k table) }
        ensures { IfOk result (λ part. (kind : Kind) → HasColumn self.now.frame.schema table column kind
            → part ≡ record {
              kind = kind;
              atoms = take n (drop from (column_of kind column (rows_at self.now.frame.first self.now.entries k table)).atoms);
            }) }
    {
        self.history.column(alloc, k, table, column, from, n)
    }
}
