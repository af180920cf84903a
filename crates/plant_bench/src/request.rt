//! The update that is logged.

use day_rows::Entry;
use plant_memory::UpdRequest;
use q_values::{Column, Columns, LongKind, NoMemory, Sym, Symbols, Value, Values, Vector};
use std::alloc::Global;

fn longs(alloc: Global, kind: LongKind, item: i64, rows: usize) -> Result<Vector, NoMemory> {
    let items = vec![in alloc; item; rows]?;
    Ok(Vector::from_column(Column::Longs(kind, items)))
}

fn symbols(alloc: Global, rows: usize) -> Result<Vector, NoMemory> {
    let mut items = Symbols::with_capacity(alloc, rows)?;
    for _ in 0..rows {
        items.push(b"KX")?;
    }
    Ok(Vector::from_column(Column::Symbols(items)))
}

/// The columns of this many rows of `trade`, each `(0D09:30;`KX;10050;200)`.
fn trade_columns(alloc: Global, rows: usize) -> Result<Columns, NoMemory> {
    let mut columns = Columns::new(alloc);
    columns.push(longs(alloc, LongKind::Timespan, 34_200_000_000_000, rows)?)?;
    columns.push(symbols(alloc, rows)?)?;
    columns.push(longs(alloc, LongKind::Long, 10_050, rows)?)?;
    columns.push(longs(alloc, LongKind::Long, 200, rows)?)?;
    Ok(columns)
}

/// A request to log this many rows of `trade`, each `(0D09:30;`KX;10050;200)`.
pub fn trades(alloc: Global, rows: usize) -> Result<UpdRequest, NoMemory> {
    let Ok(table) = Sym::of(alloc, b"trade") else {
        return Err(NoMemory);
    };
    let mut items = Values::new(alloc);
    for column in trade_columns(alloc, rows)?.into_vec() {
        items.push(Value::Vector(column))?;
    }
    Ok(UpdRequest { table, items })
}

/// The entry of the same rows: `trade` is the second table of the built-in schema, after `quote`.
pub fn trades_entry(alloc: Global, rows: usize) -> Result<Entry, NoMemory> {
    Ok(Entry::Upd {
        by: 1,
        table: 1,
        columns: trade_columns(alloc, rows)?,
    })
}
