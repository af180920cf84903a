//! The open date: its updates in blocks, and room for more.
ghost use Rattle.std.specs.Prelude.{◌≡◌, ◌↔◌, ◌<◌, ◌≤◌, ◌+◌, [], ◌∷◌, ◌++◌, length, map, take, drop};
ghost use Rattle.std.specs.Prelude.{IfOk, OnOk, OnErr, true, Some, slice_get};
ghost use Rattle.std.specs.List.{AllByRecursion};
ghost use Rattle.q_values.specs.declared.kind.Kind.{Kind};
ghost use Rattle.q_values.specs.Order.{IsOrder, atom_cmp};
ghost use Rattle.day_rows.specs.Rows.{column_of, symbol_of};
ghost use Rattle.day_rows.specs.Day.{Day, Opened, IsDay, IsUpdate, AreTableKinds, HasColumn, total_rows, arrived};
ghost use Rattle.day_rows.specs.Filled.{filled};

use crate::admits::{are_updates, total_of};
use crate::closed_day::{ClosedDay, DayOrder, order_tables};
use crate::entry::{Entries, Entry};
use crate::schema::{Kinds, Schema};
use crate::updates::Updates;
use q_values::{NoMemory, Vector};
use std::alloc::Global;
use std::marker::Model;
use std::snapshot::Snapshot;

// The most rows that a date may have, in all its tables.
const MAX_ROWS: u64 = 4_294_967_295;

/// A date that is open: its updates, in order, and room for more (KX, tick.q and r.q). Copies of a day share its blocks.
#[derive(Drop)]
pub struct OpenDay {
    // the date, in days since 2000.01.01
    date: i32,
    // the kinds of each table's columns: at most 64 tables, each beginning with a timespan and a symbol
    tables: Vec<Kinds>,
    // the allocator
    alloc: Global,
    // the updates in the order of arrival, and those that room was made for
    updates: Updates,
}

impl Model for OpenDay {
    ghost use Rattle.std.specs.Prelude.{◌≡◌, length};
    ghost use Rattle.day_rows.specs.Day.{Opened, IsDay, HasRoom, opened_of};

    ghost Value = { Opened };

    ghost view = { λ d. opened_of d.date d.tables.items d.updates.updates d.updates.room };

    ghost invariant = { λ d.
        IsDay (opened_of d.date d.tables.items d.updates.updates d.updates.room).day
        × HasRoom (opened_of d.date d.tables.items d.updates.updates d.updates.room)
        × (d.updates.tables ≡ length d.tables.items) };
}

impl OpenDay {
    /// A day without updates and without room for any. The date is in days since 2000.01.01.
    pub fn new(alloc: Global, schema: &Schema, date: i32) -> Result<OpenDay, NoMemory>
        ensures { IfOk result (λ opened. opened ≡ record {
          day = record { date = date; kinds = map (λ shape. shape.kinds) schema.now; updates = [] };
          room = [];
        }) }
    {
        let tables = kinds_of(alloc, schema)?;
        let updates = Updates::new(alloc, tables.len())?;
        Ok(OpenDay {
            date,
            tables,
            alloc,
            updates,
        })
    }

    /// Whether [`reserve`](OpenDay::reserve) may be called with these entries: exactly where they are updates of the day's
    /// tables, and the day would then have at most 4,294,967,295 rows in all its tables.
    pub fn admits(&self, entries: &Entries) -> bool
        ensures { (result ≡ true) ↔ (AllByRecursion (IsUpdate self.now.day.kinds) entries.now
            × (total_rows self.now.day.updates + total_rows entries.now ≤ 4294967295)) }
    {
        match total_of(entries.as_slice()) {
            Some(more) => {
                self.updates.total().saturating_add(more) <= MAX_ROWS
                    && are_updates(&self.tables, entries.as_slice())
            }
            None => false,
        }
    }

    /// Makes room for these entries, which replaces any former room. They are updates of the day's tables, and their
    /// columns are copied. An error changes nothing.
    pub fn reserve(&mut self, entries: &Entries) -> Result<(), NoMemory>
        requires updates { AllByRecursion (IsUpdate self.old.day.kinds) entries.now }
        requires bounded { total_rows self.old.day.updates + total_rows entries.now ≤ 4294967295 }
        ensures ok { OnOk result (self.new ≡ record self.old { room = entries.now }) }
        ensures err { OnErr result (self.new ≡ self.old) }
    {
        self.updates
            .reserve(self.alloc, &self.tables, entries.as_slice())
    }

    /// Appends an entry: the next of those that room was made for. It takes no memory.
    pub fn push(&mut self, entry: Entry)
        requires { take 1 self.old.room ≡ entry ∷ [] }
        ensures { self.new ≡ record {
          day = record self.old.day { updates = self.old.day.updates ++ entry ∷ [] };
          room = drop 1 self.old.room;
        } }
    {
        self.updates.push(&entry);
    }

    /// An equal day, without room for more updates. Its sealed blocks are shared, and the other rows, fewer than 1,024, are
    /// copied.
    pub fn copy(&self, alloc: Global) -> Result<OpenDay, NoMemory>
        ensures { IfOk result (λ copied. copied ≡ record self.now { room = [] }) }
    {
        let tables = copy_tables(alloc, &self.tables)?;
        let updates = self.updates.copy(alloc, &self.tables)?;
        Ok(OpenDay {
            date: self.date,
            tables,
            alloc,
            updates,
        })
    }

    /// The date, in days since 2000.01.01.
    pub fn date(&self) -> i32
        ensures value { result ≡ self.now.day.date }
        ensures lawful { IsDay self.now.day }
    {
        self.date
    }

    /// The number of rows of the table with this index.
    pub fn rows(&self, table: u32) -> u32
        requires { table < length self.now.day.kinds }
        ensures { result ≡ length (arrived self.now.day table) }
    {
        self.updates.rows(table)
    }

    /// The number of rows after the last sealed block.
    pub fn loose_rows(&self) -> usize
        ensures below { result < 1024 }
        ensures value { result ≡ (filled self.now.day.updates).loose }
    {
        self.updates.loose_rows() as usize
    }

    /// The number of sealed blocks. The push after which a block has at least 1,024 rows seals it.
    pub fn blocks(&self) -> usize
        ensures { result ≡ (filled self.now.day.updates).blocks }
    {
        self.updates.blocks()
    }

    /// A copy of the updates, in order.
    pub fn updates(&self, alloc: Global) -> Result<Entries, NoMemory>
        ensures { IfOk result (λ entries. entries ≡ self.now.day.updates) }
    {
        self.updates_from(alloc, 0)
    }

    /// The number of updates.
    pub fn update_count(&self) -> usize
        ensures { result ≡ length self.now.day.updates }
    {
        self.updates.len()
    }

    /// Copies of the updates from the index `from` on, in order. It costs what it copies, and a step for each block that
    /// they are in and for each update before them in the first of these: the blocks before it cost nothing.
    pub fn updates_from(&self, alloc: Global, from: usize) -> Result<Entries, NoMemory>
        requires { from ≤ length self.now.day.updates }
        ensures { IfOk result (λ entries. entries ≡ drop from self.now.day.updates) }
    {
        let found = self.updates.entries(alloc, &self.tables, from)?;
        Entries::from_vec(alloc, found)
    }

    /// The `n` atoms of a table's column from the row `from` on, in the order of arrival. Reading it copies each
    /// atom once, and costs a step for each block.
    pub fn column(
        &self,
        alloc: Global,
        table: u32,
        column: u32,
        from: u32,
        n: u32,
    ) -> Result<Vector, NoMemory>
        requires exists { (kind : Kind) × HasColumn self.now.day table column kind }
        requires within { from + n ≤ length (arrived self.now.day table) }
        ensures { IfOk result (λ part. (kind : Kind) → HasColumn self.now.day table column kind
            → part ≡ record { kind = kind; atoms = take n (drop from (column_of kind column (arrived self.now.day table)).atoms) }) }
    {
        let index = column as usize;
        let kind = *self.tables[table as usize].at(index);
        let (from, n) = (from as usize, n as usize);
        let part = self.updates.column(alloc, table, index, kind, from, n)?;
        Ok(part)
    }

    // A table's rows ordered by symbol, ties by arrival. `kinds` are those of its columns.
    pub(crate) fn symbol_order(
        &self,
        alloc: Global,
        table: u32,
        kinds: &Kinds,
    ) -> Result<Vec<u32>, NoMemory>
        requires exists { slice_get self.now.day.kinds table ≡ Some kinds.now }
        requires first { AreTableKinds kinds.now }
        ensures { IfOk result (λ order. IsOrder atom_cmp (map symbol_of (arrived self.now.day table)) order.items) }
    {
        let rows = self.rows(table) as usize;
        let order = self.updates.order(alloc, table, 1, rows)?;
        Ok(order)
    }

    /// The order that the day's rows have once it has ended: by symbol, then by arrival.
    pub fn close_order(&self, alloc: Global) -> Result<DayOrder, NoMemory>
        ensures { IfOk result (λ order. order ≡ self.now.day) }
    {
        let orders = order_tables(alloc, self, &self.tables)?;
        Ok(DayOrder {
            orders,
            of: Snapshot::of(self),
        })
    }

    /// The ended day. `order` was made of this very content. It takes no memory.
    pub fn close(self, order: DayOrder) -> ClosedDay
        requires { order ≡ self.day }
        ensures { result ≡ self.day }
    {
        let OpenDay {
            date,
            tables: kinds,
            updates,
            ..
        } = self;
        let DayOrder { orders, .. } = order;
        ClosedDay {
            date,
            kinds,
            updates,
            orders,
        }
    }
}

fn copy_kinds(alloc: Global, kinds: &Kinds) -> Result<Kinds, NoMemory>
    ensures { IfOk result (λ copied. copied ≡ kinds.now) }
{
    Kinds::from_vec(alloc, Vec::from_slice(alloc, kinds.as_slice())?)
}

/// A copy of the kinds of each table's columns.
pub fn copy_tables(alloc: Global, tables: &[Kinds]) -> Result<Vec<Kinds>, NoMemory>
    ensures { IfOk result (λ copied. copied.items ≡ tables.now) }
{
    let mut copied = Vec::with_capacity(alloc, tables.len())?;
    for kinds in tables {
        copied.push(copy_kinds(alloc, kinds)?)?;
    }
    Ok(copied)
}

// The kinds of each table's columns.
fn kinds_of(alloc: Global, schema: &Schema) -> Result<Vec<Kinds>, NoMemory>
    ensures value { IfOk result (λ tables. tables.items ≡ map (λ shape. shape.kinds) schema.now) }
    ensures lawful { IfOk result (λ tables. AllByRecursion AreTableKinds tables.items) }
    ensures few { IfOk result (λ tables. length tables.items ≤ 64) }
{
    let mut tables = Vec::with_capacity(alloc, schema.len())?;
    for i in 0..schema.len() {
        tables.push(copy_kinds(alloc, &schema.at(i).kinds)?)?;
    }
    Ok(tables)
}
