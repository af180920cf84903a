//! The update that is logged.

use plant_memory::UpdRequest;
use q_values::{Column, LongKind, NoMemory, Sym, Symbols, Value, Values, Vector};
use std::alloc::Global;

fn longs(alloc: Global, kind: LongKind, item: i64, rows: usize) -> Result<Value, NoMemory> {
    let items = vec![in alloc; item; rows]?;
    Ok(Value::Vector(Vector::from_column(Column::Longs(kind, items))))
}

fn symbols(alloc: Global, rows: usize) -> Result<Value, NoMemory> {
    let mut items = Symbols::with_capacity(alloc, rows)?;
    for _ in 0..rows {
        items.push(b"KX")?;
    }
    Ok(Value::Vector(Vector::from_column(Column::Symbols(items))))
}

/// A request to log this many rows of `trade`, each `(0D09:30;`KX;10050;200)`.
pub fn trades(alloc: Global, rows: usize) -> Result<UpdRequest, NoMemory> {
    let Ok(table) = Sym::of(alloc, b"trade") else {
        return Err(NoMemory);
    };
    let mut items = Values::new(alloc);
    items.push(longs(alloc, LongKind::Timespan, 34_200_000_000_000, rows)?)?;
    items.push(symbols(alloc, rows)?)?;
    items.push(longs(alloc, LongKind::Long, 10_050, rows)?)?;
    items.push(longs(alloc, LongKind::Long, 200, rows)?)?;
    Ok(UpdRequest { table, items })
}
