//! The updates that are logged: rows of `trade`.

use anyhow::Result;
use day_rows::Entry;
use q_values::{Atom, Column, Columns, Kind, LongKind, NoMemory, Sym, Vector};
use std::alloc::Global;

/// The index of `trade` in the built-in schema.
pub const TRADE: u32 = 1;

// How many symbols there are.
const NAMES: usize = 100;

// `count` longs from `first` on, each one more than the one before.
fn longs(alloc: Global, kind: LongKind, first: u32, count: usize) -> Result<Vector, NoMemory> {
    let mut items = Vec::with_capacity(alloc, count)?;
    let mut item = i64::from(first);
    for _ in 0..count {
        items.push(item)?;
        item = item.wrapping_add(1);
    }
    Ok(Vector::from_column(Column::Longs(kind, items)))
}

// Four letters, of which the last two tell the symbols apart.
fn name_of(number: usize) -> [u8; 4] {
    let letter = |n: usize| b'a' + (n % 10) as u8;
    [b'K', b'X', letter(number / 10), letter(number)]
}

/// The symbols of the rows from 0 to `size` and of as many more as there are symbols, so that each update of `size` rows
/// has some of them.
pub fn symbols(alloc: Global, size: u32) -> Result<Vector> {
    let mut items = Vector::new(alloc, Kind::Symbol);
    for i in 0..(size as usize).saturating_add(NAMES) {
        items.push(Atom::Symbol(Sym::of(alloc, &name_of(i))?))?;
    }
    Ok(items)
}

// `count` of the symbols, for the rows from `first` on; fewer where there are not that many.
fn some_of(alloc: Global, symbols: &Vector, first: u32, count: usize) -> Result<Vector, NoMemory> {
    let from = (first as usize % NAMES).min(symbols.len());
    symbols.take(alloc, from, count.min(symbols.len() - from))
}

/// An update of `trade` whose rows are numbered from `first` on.
pub fn update(alloc: Global, symbols: &Vector, first: u32, size: u32) -> Result<Entry, NoMemory> {
    let count = size as usize;
    let mut columns = Columns::with_capacity(alloc, 4)?;
    columns.push(longs(alloc, LongKind::Timespan, first, count)?)?;
    columns.push(some_of(alloc, symbols, first, count)?)?;
    columns.push(longs(alloc, LongKind::Long, first, count)?)?;
    columns.push(longs(alloc, LongKind::Long, 100, count)?)?;
    Ok(Entry::Upd {
        by: 1,
        table: TRADE,
        columns,
    })
}

/// Makes updates of `size` rows, `rows` rows together, and drops each at once. Returns how many it made.
pub fn make(alloc: Global, rows: u32, size: u32) -> Result<u32> {
    let symbols = symbols(alloc, size)?;
    let mut made = 0u32;
    for i in 0..rows.checked_div(size).unwrap_or(0) {
        let _entry = update(alloc, &symbols, i.wrapping_mul(size), size)?;
        made = made.wrapping_add(1);
    }
    Ok(made)
}
