//! Updates of `trade`.

use day_rows::Entry;
use q_values::{Column, Columns, LongKind, NoMemory, Symbols, Vector};
use std::alloc::Global;

fn longs(alloc: Global, kind: LongKind, item: i64, rows: usize) -> Result<Vector, NoMemory> {
    let items = vec![in alloc; item; rows]?;
    Ok(Vector::from_column(Column::Longs(kind, items)))
}

fn symbols(alloc: Global, rows: usize) -> Result<Vector, NoMemory> {
    let mut items = Symbols::with_capacity(alloc, rows)?;
    for _ in 0..rows {
        items.push(b"KX")?;
    }
    Ok(Vector::from_column(Column::Symbols(items)))
}

/// This many rows of `trade`, each `(0D09:30;`KX;10050;200)`, of the pass 1.
pub fn trades(alloc: Global, rows: usize) -> Result<Entry, NoMemory> {
    let mut columns = Columns::new(alloc);
    columns.push(longs(alloc, LongKind::Timespan, 34_200_000_000_000, rows)?)?;
    columns.push(symbols(alloc, rows)?)?;
    columns.push(longs(alloc, LongKind::Long, 10_050, rows)?)?;
    columns.push(longs(alloc, LongKind::Long, 200, rows)?)?;
    Ok(Entry::Upd {
        by: 1,
        table: 1,
        columns,
    })
}
