//! Dates that have ended, with the documented order of their rows.
ghost use Rattle.std.specs.Prelude.{◌≡◌, ◌<◌, ◌≤◌, ◌+◌, [], ◌∷◌, ◌++◌, length, map, take, drop, IfOk, Some, slice_get, All};
ghost use Rattle.std.specs.List.{AllByRecursion};
ghost use Rattle.q_values.specs.Order.{IsOrder, atom_cmp};
ghost use Rattle.q_values.specs.declared.kind.Kind.{Kind};
ghost use Rattle.day_rows.specs.Rows.{column_of, symbol_of};
ghost use Rattle.day_rows.specs.Day.{Day, IsDay, HasColumn, AreTableKinds, arrived, settled};
ghost use Rattle.day_rows.specs.Settled.{AreOrders};

use crate::entry::Entries;
use crate::open_day::OpenDay;
use crate::schema::Kinds;
use crate::updates::Updates;
use q_values::{NoMemory, Places, Vector};
use std::alloc::Global;
use std::marker::Model;
use std::snapshot::Snapshot;

/// The documented order of a table's rows: their arrival numbers, sorted by symbol and then by arrival.
#[derive(Drop)]
pub struct TableOrder {
    // the arrival numbers
    arrivals: Vec<u32>,
}

impl Model for TableOrder {
    ghost use Rattle.std.specs.Prelude.{List, ℕ};

    ghost Value = { List ℕ };

    ghost view = { λ o. o.arrivals.items };
}

impl TableOrder {
    // The number of rows.
    fn len(&self) -> usize
        ensures { result ≡ length self.now }
    {
        self.arrivals.len()
    }

    // The arrival numbers of `n` rows from the index `from` on.
    fn part(&self, alloc: Global, from: usize, n: usize) -> Result<Vec<usize>, NoMemory>
        requires { from + n ≤ length self.now }
        ensures { IfOk result (λ part. part.items ≡ take n (drop from self.now)) }
    {
        widened(alloc, &self.arrivals[from..][..n])
    }
}

// The same numbers, at the width of indices.
fn widened(alloc: Global, narrow: &[u32]) -> Result<Vec<usize>, NoMemory>
    ensures { IfOk result (λ wide. wide.items ≡ narrow.now) }
{
    let mut wide = Vec::with_capacity(alloc, narrow.len())?;
    for arrival in narrow {
        wide.push(*arrival as usize)?;
    }
    Ok(wide)
}

/// The documented order of one day's content: by symbol, then by arrival. Contracts see it as the content that it was
/// made of.
#[derive(Drop)]
pub struct DayOrder {
    /// The order of each table of the day.
    pub(crate) orders: Vec<TableOrder>,
    /// The day as it was when the order was made; takes no memory.
    pub(crate) of: Snapshot<OpenDay>,
}

impl Model for DayOrder {
    ghost use Rattle.day_rows.specs.Day.{Day};

    ghost Value = { Day };

    ghost use Rattle.day_rows.specs.Settled.{AreOrders};

    ghost view = { λ o. o.of.value.day };

    ghost invariant = { λ o. AreOrders o.of.value.day o.orders.items };
}

/// A date that has ended: its updates, in blocks, and the documented order of its rows (KX, partitioned tables). No row is
/// kept twice.
#[derive(Drop)]
pub struct ClosedDay {
    /// The date, in days since 2000.01.01.
    pub(crate) date: i32,
    /// The kinds of each table's columns: at most 64 tables, each beginning with a timespan and a symbol.
    pub(crate) kinds: Vec<Kinds>,
    /// The updates in the order of arrival, with at most 4,294,967,295 rows together.
    pub(crate) updates: Updates,
    /// The documented order of the rows, for each table.
    pub(crate) orders: Vec<TableOrder>,
}

impl Model for ClosedDay {
    ghost use Rattle.day_rows.specs.Day.{Day, IsDay, opened_of};

    ghost Value = { Day };

    ghost use Rattle.std.specs.Prelude.{[], ◌≡◌, length};
    ghost use Rattle.day_rows.specs.Settled.{AreOrders};

    ghost view = { λ d. (opened_of d.date d.kinds.items d.updates.updates []).day };

    ghost invariant = { λ d. IsDay (opened_of d.date d.kinds.items d.updates.updates []).day
        × AreOrders (opened_of d.date d.kinds.items d.updates.updates []).day d.orders.items
        × (d.updates.tables ≡ length d.kinds.items) };
}

impl ClosedDay {
    /// The date, in days since 2000.01.01.
    pub fn date(&self) -> i32
        ensures value { result ≡ self.now.date }
        ensures lawful { IsDay self.now }
    {
        self.date
    }

    /// The number of rows of the table with this index.
    pub fn rows(&self, table: u32) -> u32
        requires { table < length self.now.kinds }
        ensures { result ≡ length (settled self.now table) }
    {
        self.updates.rows(table)
    }

    /// A copy of the updates, in order.
    pub fn updates(&self, alloc: Global) -> Result<Entries, NoMemory>
        ensures { IfOk result (λ entries. entries ≡ self.now.updates) }
    {
        self.updates_from(alloc, 0)
    }

    /// The number of updates.
    pub fn update_count(&self) -> usize
        ensures { result ≡ length self.now.updates }
    {
        self.updates.len()
    }

    /// Copies of the updates from the index `from` on, in order. It costs what it copies, and a step for each block that
    /// they are in and for each update before them in the first of these: the blocks before it cost nothing.
    pub fn updates_from(&self, alloc: Global, from: usize) -> Result<Entries, NoMemory>
        requires { from ≤ length self.now.updates }
        ensures { IfOk result (λ entries. entries ≡ drop from self.now.updates) }
    {
        let found = self.updates.entries(alloc, &self.kinds, from)?;
        Entries::from_vec(alloc, found)
    }

    /// The `n` atoms of a table's column from the row `from` on, in the documented order. Reading it
    /// joins the whole column, and gathers the part.
    pub fn column(
        &self,
        alloc: Global,
        table: u32,
        column: u32,
        from: u32,
        n: u32,
    ) -> Result<Vector, NoMemory>
        requires exists { (kind : Kind) × HasColumn self.now table column kind }
        requires within { from + n ≤ length (settled self.now table) }
        ensures { IfOk result (λ part. (kind : Kind) → HasColumn self.now table column kind
            → part ≡ record { kind = kind; atoms = take n (drop from (column_of kind column (settled self.now table)).atoms) }) }
    {
        let index = column as usize;
        let kind = *self.kinds[table as usize].at(index);
        let rows = self.rows(table) as usize;
        let whole = self.updates.column(alloc, table, index, kind, 0, rows)?;
        let order = self.orders[table as usize].part(alloc, from as usize, n as usize)?;
        let part = whole.gather(alloc, &order)?;
        Ok(part)
    }

    /// The arrival numbers of a table's rows, in the documented order.
    pub fn arrivals(&self, alloc: Global, table: u32) -> Result<Places, NoMemory>
        requires { table < length self.now.kinds }
        ensures { IfOk result (λ arrivals. arrivals ≡ map (λ row. row.arrival) (settled self.now table)) }
    {
        let order = &self.orders[table as usize];
        let arrivals = Places::from_vec(alloc, order.part(alloc, 0, order.len())?)?;
        Ok(arrivals)
    }
}

// The documented order of a table's rows.
fn order_table(
    alloc: Global,
    day: &OpenDay,
    table: u32,
    kinds: &Kinds,
) -> Result<TableOrder, NoMemory>
    requires exists { slice_get day.now.day.kinds table ≡ Some kinds.now }
    requires first { AreTableKinds kinds.now }
    ensures { IfOk result (λ order. IsOrder atom_cmp (map symbol_of (arrived day.now.day table)) order) }
{
    let arrivals = day.symbol_order(alloc, table, kinds)?;
    Ok(TableOrder { arrivals })
}

/// The documented order of each table's rows. `tables` are the kinds of the day's columns.
pub fn order_tables(
    alloc: Global,
    day: &OpenDay,
    tables: &[Kinds],
) -> Result<Vec<TableOrder>, NoMemory>
    requires own { tables.now ≡ day.now.day.kinds }
    requires lawful { IsDay day.now.day }
    ensures { IfOk result (λ orders. AreOrders day.now.day orders.items) }
{
    let mut orders = Vec::with_capacity(alloc, tables.len())?;
    for table in 0..tables.len() {
        let found = order_table(alloc, day, table as u32, &tables[table])?;
        orders.push(found)?;
    }
    Ok(orders)
}
