//! The rows that are joined: trades and quotes of one date, in the order of their times.

use anyhow::{Result, bail};
use q_values::{
    Atom, Column, Columns, Kind, LongKind, NANOSECONDS_PER_DAY, Names, NoMemory, Sym, Vector,
};
use qsql_eval::Rows;
use std::alloc::Global;

// The difference of one number and the next, which puts them in no order.
const STEP: u64 = 0x9e37_79b9_7f4a_7c15;

// The difference for another column.
const OTHER_STEP: u64 = 0xd1b5_4a32_d192_ed03;

// The nanoseconds of a day.
const DAY: u64 = NANOSECONDS_PER_DAY as u64;

// `count` longs from 10,000 on, of ten bits more, in no order.
fn numbers(alloc: Global, count: u32, step: u64) -> Result<Vector, NoMemory> {
    let mut items = Vec::with_capacity(alloc, count as usize)?;
    for i in 0..count {
        let ten_bits = (u64::from(i).wrapping_mul(step) >> 54) as u32;
        items.push(i64::from(ten_bits).wrapping_add(10_000))?;
    }
    Ok(Vector::from_column(Column::Longs(LongKind::Long, items)))
}

// `count` times over a day.
fn times(alloc: Global, count: u32) -> Result<Vector, NoMemory> {
    let between = DAY.checked_div(u64::from(count)).unwrap_or(DAY);
    let mut items = Vec::with_capacity(alloc, count as usize)?;
    for i in 0..count {
        items.push(u64::from(i).wrapping_mul(between).cast_signed())?;
    }
    Ok(Vector::from_column(Column::Longs(LongKind::Timespan, items)))
}

fn digit(d: u64) -> u8 {
    b'0' + (d % 10) as u8
}

// `count` symbols of `S00` to `S99`, in no order.
fn symbols(alloc: Global, count: u32, step: u64) -> Result<Vector> {
    let mut items = Vector::new(alloc, Kind::Symbol);
    for i in 0..count {
        let number = (u64::from(i).wrapping_mul(step) >> 32) % 100;
        let name = [b'S', digit(number / 10), digit(number)];
        items.push(Atom::Symbol(Sym::of(alloc, &name)?))?;
    }
    Ok(items)
}

// Rows with a time, a symbol, and a number with this name.
fn rows(alloc: Global, count: u32, number: &str, step: u64) -> Result<Rows> {
    let mut names = Names::new(alloc);
    for name in ["time", "sym", number] {
        names.push(Sym::of(alloc, name.as_bytes())?)?;
    }
    let mut columns = Columns::new(alloc);
    columns.push(times(alloc, count)?)?;
    columns.push(symbols(alloc, count, step)?)?;
    columns.push(numbers(alloc, count, step)?)?;
    match Rows::new(names, columns) {
        Some(rows) => Ok(rows),
        None => bail!("columns of different lengths"),
    }
}

/// `count` rows of `trade`, with their time, symbol and price.
pub fn trades(alloc: Global, count: u32) -> Result<Rows> {
    rows(alloc, count, "price", STEP)
}

/// `count` rows of `quote`, with their time, symbol and bid.
pub fn quotes(alloc: Global, count: u32) -> Result<Rows> {
    rows(alloc, count, "bid", OTHER_STEP)
}
