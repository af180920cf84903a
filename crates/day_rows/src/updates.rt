//! The updates of a date, and those that room was made for.
ghost use Rattle.std.specs.Prelude.{◌≡◌, ◌<◌, ◌≤◌, ◌+◌, ◌^◌, ◌++◌, [], ◌∷◌, length, take, drop, replicate, get_or, set, IfOk, OnOk, OnErr};
ghost use Rattle.std.specs.List.{AllByRecursion, sum_by};
ghost use Rattle.q_values.specs.Order.{IsOrder, atom_cmp};
ghost use Rattle.day_rows.specs.Blocks.{mark_of};
ghost use Rattle.day_rows.specs.Day.{IsUpdate, entry_rows, total_rows};
ghost use Rattle.day_rows.specs.Filled.{filled};
ghost use Rattle.day_rows.specs.Joined.{joined, rows_in};

use crate::admits::rows_of_entry;
use crate::block::{BLOCK_ROWS, mark_of};
use crate::entry::Entry;
use crate::schema::Kinds;
use crate::store::Store;
use q_values::{Kind, NoMemory, Vector};
use std::alloc::Global;
use std::marker::Model;

/// The updates of a date, in order, and after them those that room was made for. Contracts see both lists.
#[derive(Drop)]
pub struct Updates {
    // all of them, in blocks, and perhaps some that an error left after them
    store: Store,
    // the number of updates that the date has
    shown: usize,
    // the number of updates that room was made for
    room: usize,
    // the number of full blocks whose updates the date all has: they are sealed
    sealed: usize,
    // the number of updates in the sealed blocks
    before: usize,
    // the number of rows after the sealed blocks that the date has
    loose: u64,
    // the number of rows of each table
    counts: Vec<u32>,
    // the number of rows of all tables
    rows: u64,
}

impl Model for Updates {
    ghost use Rattle.std.specs.Prelude.{length, take, drop};
    ghost use Rattle.day_rows.specs.Blocks.{Kept, updates_in, IsKept};

    ghost Value = { Kept };

    ghost view = { λ u. record {
      tables = length u.counts.items;
      updates = take u.shown (updates_in u.store.blocks u.store.last);
      room = take u.room (drop u.shown (updates_in u.store.blocks u.store.last));
    } };

    ghost invariant = { λ u. IsKept u.store.blocks u.store.last u.store.held u.shown u.room u.sealed u.before u.loose u.counts.items u.rows };
}

// This many zeros.
fn zeros(alloc: Global, n: usize) -> Result<Vec<u32>, NoMemory>
    ensures { IfOk result (λ found. found.items ≡ replicate n 0) }
{
    Ok(vec![in alloc; 0u32; n]?)
}

// Adds an entry's rows to the count of its table.
fn add_rows(counts: &mut Vec<u32>, entry: &Entry)
    requires table { (mark_of entry.now).table < length counts.old.items }
    requires rows { entry_rows entry.now ≤ 4294967295 }
    requires fits { get_or counts.old.items (mark_of entry.now).table 0 + (mark_of entry.now).rows ≤ 4294967295 }
    ensures { counts.new.items ≡ set counts.old.items (mark_of entry.now).table
        (get_or counts.old.items (mark_of entry.now).table 0 + (mark_of entry.now).rows) }
{
    let mark = mark_of(entry);
    let index = mark.table as usize;
    counts[index] += mark.rows;
}

// How many blocks are sealed, the number of their updates and the number of rows after them, once there are `shown`
// updates, the last of which has this many rows: it seals the block that then has enough.
fn place_after(
    rows: u64,
    shown: usize,
    sealed: usize,
    before: usize,
    loose: u64,
) -> (usize, usize, u64)
    requires fits { loose + rows < 2 ^ 64 }
    requires few { sealed < shown }
    ensures full { 1024 ≤ loose + rows → (result.0 ≡ sealed + 1) × (result.1 ≡ shown) × (result.2 ≡ 0) }
    ensures open { loose + rows < 1024 → (result.0 ≡ sealed) × (result.1 ≡ before) × (result.2 ≡ loose + rows) }
{
    let loose = loose + rows;
    if loose < BLOCK_ROWS {
        return (sealed, before, loose);
    }
    (sealed + 1, shown, 0)
}

// The number of updates that are shown, and one more of those that are held.
fn count_one(held: usize, shown: usize) -> usize
    requires { shown < held }
    ensures { result ≡ shown + 1 }
{
    shown + 1
}

impl Updates {
    /// No updates of any of this many tables, and no room.
    pub fn new(alloc: Global, tables: usize) -> Result<Updates, NoMemory>
        ensures { IfOk result (λ updates. updates ≡ record { tables = tables; updates = []; room = [] }) }
    {
        let counts = zeros(alloc, tables)?;
        Ok(Updates {
            store: Store::new(alloc),
            shown: 0,
            room: 0,
            sealed: 0,
            before: 0,
            loose: 0,
            counts,
            rows: 0,
        })
    }

    /// Makes room for these updates, which replaces any former room: their columns are copied. An error changes nothing.
    pub fn reserve(
        &mut self,
        alloc: Global,
        kinds: &[Kinds],
        entries: &[Entry],
    ) -> Result<(), NoMemory>
        requires few { length kinds.now ≤ 64 }
        requires updates { AllByRecursion (IsUpdate kinds.now) self.old.updates }
        requires bounded { total_rows self.old.updates + total_rows entries.now ≤ 4294967295 }
        ensures ok { OnOk result (self.new ≡ record self.old { room = entries.now }) }
        ensures err { OnErr result (self.new ≡ self.old) }
    {
        if self.store.held > self.shown {
            return self.replan(alloc, kinds, entries);
        }
        self.store.extend(alloc, entries)?;
        self.room = entries.len();
        Ok(())
    }

    // The same, where there is room already: the updates of the date are copied that are after the sealed blocks.
    fn replan(&mut self, alloc: Global, kinds: &[Kinds], entries: &[Entry]) -> Result<(), NoMemory>
        requires few { length kinds.now ≤ 64 }
        requires updates { AllByRecursion (IsUpdate kinds.now) self.old.updates }
        requires bounded { total_rows self.old.updates + total_rows entries.now ≤ 4294967295 }
        ensures ok { OnOk result (self.new ≡ record self.old { room = entries.now }) }
        ensures err { OnErr result (self.new ≡ self.old) }
    {
        let n = self.shown - self.before;
        let mut fresh = self.store.first(alloc, kinds, self.sealed, self.before, n)?;
        fresh.extend(alloc, entries)?;
        self.store.replace(fresh);
        self.room = entries.len();
        Ok(())
    }

    /// Adds to the updates the next of those that room was made for, which is this one. It takes no memory.
    pub fn push(&mut self, entry: &Entry)
        requires next { take 1 self.old.room ≡ entry.now ∷ [] }
        requires table { (mark_of entry.now).table < self.old.tables }
        requires bounded { total_rows self.old.updates + entry_rows entry.now ≤ 4294967295 }
        ensures { self.new ≡ record self.old { updates = self.old.updates ++ entry.now ∷ []; room = drop 1 self.old.room } }
    {
        let rows = rows_of_entry(entry) as u64;
        let shown = count_one(self.store.held, self.shown);
        let (sealed, before, loose) = place_after(
            rows,
            shown,
            self.sealed,
            self.before,
            self.loose,
        );
        add_rows(&mut self.counts, entry);
        self.rows += rows;
        self.shown = shown;
        self.room -= 1;
        self.sealed = sealed;
        self.before = before;
        self.loose = loose;
    }

    /// The same updates, without room for more: sealed blocks are shared, and the columns of the other updates are copied.
    pub fn copy(&self, alloc: Global, kinds: &[Kinds]) -> Result<Updates, NoMemory>
        requires few { length kinds.now ≤ 64 }
        requires updates { AllByRecursion (IsUpdate kinds.now) self.now.updates }
        requires bounded { total_rows self.now.updates ≤ 4294967295 }
        ensures { IfOk result (λ copied. copied ≡ record self.now { room = [] }) }
    {
        let n = self.shown - self.before;
        let store = self.store.first(alloc, kinds, self.sealed, self.before, n)?;
        let counts = Vec::from_slice(alloc, &self.counts)?;
        Ok(Updates {
            store,
            shown: self.shown,
            room: 0,
            sealed: self.sealed,
            before: self.before,
            loose: self.loose,
            counts,
            rows: self.rows,
        })
    }

    /// The number of a table's rows.
    pub fn rows(&self, table: u32) -> u32
        requires { table < self.now.tables }
        ensures { result ≡ sum_by (rows_in table) self.now.updates }
    {
        self.counts[table as usize]
    }

    /// The number of rows of all tables.
    pub fn total(&self) -> u64
        ensures { result ≡ total_rows self.now.updates }
    {
        self.rows
    }

    /// The number of rows after the last sealed block.
    pub fn loose_rows(&self) -> u64
        ensures below { result < 1024 }
        ensures value { result ≡ (filled self.now.updates).loose }
    {
        self.loose
    }

    /// The number of sealed blocks.
    pub fn blocks(&self) -> usize
        ensures { result ≡ (filled self.now.updates).blocks }
    {
        self.sealed
    }

    /// The `n` atoms from the row `from` on of a table's column, in the order of arrival.
    pub fn column(
        &self,
        alloc: Global,
        table: u32,
        column: usize,
        kind: Kind,
        from: usize,
        n: usize,
    ) -> Result<Vector, NoMemory>
        requires { from + n ≤ length (joined table column self.now.updates) }
        ensures { IfOk result (λ found. found ≡ record {
          kind = kind;
          atoms = take n (drop from (joined table column self.now.updates));
        }) }
    {
        let found = self.store.column(alloc, table, column, kind, from, n)?;
        Ok(found)
    }

    /// The first `n` rows of a table in the order of a column of symbols, ties by arrival.
    pub fn order(
        &self,
        alloc: Global,
        table: u32,
        column: usize,
        n: usize,
    ) -> Result<Vec<u32>, NoMemory>
        requires { n ≤ length (joined table column self.now.updates) }
        ensures { IfOk result (λ order. IsOrder atom_cmp (take n (joined table column self.now.updates)) order.items) }
    {
        let order = self.store.order(alloc, table, column, n)?;
        Ok(order)
    }

    /// The number of updates.
    pub fn len(&self) -> usize
        ensures { result ≡ length self.now.updates }
    {
        self.shown
    }

    /// Copies of the updates from the index `from` on, in order. `kinds` are those of each table's columns. Blocks before
    /// the update `from` cost nothing.
    pub fn entries(
        &self,
        alloc: Global,
        kinds: &[Kinds],
        from: usize,
    ) -> Result<Vec<Entry>, NoMemory>
        requires updates { AllByRecursion (IsUpdate kinds.now) self.now.updates }
        requires bounded { total_rows self.now.updates ≤ 4294967295 }
        requires from { from ≤ length self.now.updates }
        ensures { IfOk result (λ entries. entries.items ≡ drop from self.now.updates) }
    {
        let n = self.shown - self.before;
        let found = self
            .store
            .entries(alloc, kinds, self.sealed, self.before, n, from)?;
        Ok(found)
    }
}
