//! The rows that queries are timed over: those of `trade` on one date, in the order of their times.

use anyhow::{Result, bail};
use q_values::{
    Atom, Column, Columns, IntegerKind, Kind, LongKind, NANOSECONDS_PER_DAY, Names, NoMemory, Sym,
    Vector,
};
use qsql_eval::Rows;
use std::alloc::Global;

// The difference of one number and the next, which puts them in no order.
const STEP: u64 = 0x9e37_79b9_7f4a_7c15;

// The difference for a second column.
const OTHER_STEP: u64 = 0xd1b5_4a32_d192_ed03;

// The nanoseconds of a day.
const DAY: u64 = NANOSECONDS_PER_DAY as u64;

// 2024.01.02, in days after 2000.01.01.
const DATE: i32 = 8767;

// `count` longs from `least` on, of ten bits more, in no order.
fn numbers(alloc: Global, count: u32, least: i64, step: u64) -> Result<Vector, NoMemory> {
    let mut items = Vec::with_capacity(alloc, count as usize)?;
    for i in 0..count {
        let ten_bits = (u64::from(i).wrapping_mul(step) >> 54) as u32;
        items.push(least.wrapping_add(i64::from(ten_bits)))?;
    }
    Ok(Vector::from_column(Column::Longs(LongKind::Long, items)))
}

// `count` numbers from 0 on, each `step` more than the one before.
fn ascending(alloc: Global, count: u32, step: u64, kind: LongKind) -> Result<Vector, NoMemory> {
    let mut items = Vec::with_capacity(alloc, count as usize)?;
    for i in 0..count {
        items.push(u64::from(i).wrapping_mul(step).cast_signed())?;
    }
    Ok(Vector::from_column(Column::Longs(kind, items)))
}

fn dates(alloc: Global, count: u32) -> Result<Vector, NoMemory> {
    let items = vec![in alloc; DATE; count as usize]?;
    Ok(Vector::from_column(Column::Integers(IntegerKind::Date, items)))
}

/// How many symbols there are.
#[derive(Clone, Copy)]
pub enum Spread {
    /// `S00` to `S99`.
    Hundred,
    /// `S00000` to `S99999`.
    Many,
}

fn digit(d: u64) -> u8 {
    b'0' + (d % 10) as u8
}

// `S` and two digits.
fn short_name(n: u64) -> [u8; 3] {
    [b'S', digit(n / 10), digit(n)]
}

// `S` and five digits.
fn long_name(n: u64) -> [u8; 6] {
    [
        b'S',
        digit(n / 10_000),
        digit(n / 1000),
        digit(n / 100),
        digit(n / 10),
        digit(n),
    ]
}

fn symbol_of(alloc: Global, i: u32, spread: Spread) -> Result<Sym> {
    let mixed = u64::from(i).wrapping_mul(STEP) >> 32;
    match spread {
        Spread::Hundred => Ok(Sym::of(alloc, &short_name(mixed % 100))?),
        Spread::Many => Ok(Sym::of(alloc, &long_name(mixed % 100_000))?),
    }
}

fn symbols(alloc: Global, count: u32, spread: Spread) -> Result<Vector> {
    let mut items = Vector::new(alloc, Kind::Symbol);
    for i in 0..count {
        items.push(Atom::Symbol(symbol_of(alloc, i, spread)?))?;
    }
    Ok(items)
}

fn names(alloc: Global) -> Result<Names> {
    let mut names = Names::new(alloc);
    for name in ["date", "time", "sym", "price", "size", "i"] {
        names.push(Sym::of(alloc, name.as_bytes())?)?;
    }
    Ok(names)
}

/// `count` rows of `trade`, with this many symbols, prices from 10,000 and sizes from 1, both of ten bits.
pub fn rows(alloc: Global, count: u32, spread: Spread) -> Result<Rows> {
    let between = match DAY.checked_div(u64::from(count)) {
        Some(between) => between,
        None => DAY,
    };
    let mut columns = Columns::new(alloc);
    columns.push(dates(alloc, count)?)?;
    columns.push(ascending(alloc, count, between, LongKind::Timespan)?)?;
    columns.push(symbols(alloc, count, spread)?)?;
    columns.push(numbers(alloc, count, 10_000, OTHER_STEP)?)?;
    columns.push(numbers(alloc, count, 1, STEP)?)?;
    columns.push(ascending(alloc, count, 1, LongKind::Long)?)?;
    match Rows::new(names(alloc)?, columns) {
        Some(rows) => Ok(rows),
        None => bail!("columns of different lengths"),
    }
}
