//! Rows of `trade` that repeat values, with nulls and ends of longs.

use q_values::{Column, Columns, IntegerKind, LongKind, Names, Sym, Symbols, Vector};
use qsql_eval::Rows;
use std::alloc::Global;
use std::process::Abort;

/// How many rows there are.
pub(crate) const COUNT: usize = 12;

const DATES: [i32; COUNT] = [
    8767, 8767, 8767, 8767, 8767, 8767, 8767, 8768, 8768, 8768, 8768, 8768,
];

// The rows' times on their dates, in seconds after 9:00.
const SECONDS: [i64; COUNT] = [
    1860, 1920, 1800, 1890, 1980, 1801, 1921, 1800, 1860, 1830, 1980, 2100,
];

const SYMBOLS: &[u8] = b"aabbbccaabbd";

const PRICES: [i64; COUNT] = [20, 21, 10, 11, i64::MIN, 7, 20, 30, 21, 0, -5, i64::MAX];

const SIZES: [i64; COUNT] = [5, 100, 100, 7, 7, i64::MIN, 1, 1, 9, 50, i64::MIN, 3];

const PLACES: [i64; COUNT] = [0, 1, 2, 3, 4, 5, 6, 0, 1, 2, 3, 4];

fn longs(rt: &impl Abort, alloc: Global, kind: LongKind, numbers: &[i64]) -> Vector {
    let items = Vec::from_slice(alloc, numbers).expect(rt, "memory");
    Vector::from_column(Column::Longs(kind, items))
}

fn dates(rt: &impl Abort, alloc: Global) -> Vector {
    let items = Vec::from_slice(alloc, &DATES).expect(rt, "memory");
    Vector::from_column(Column::Integers(IntegerKind::Date, items))
}

fn times(rt: &impl Abort, alloc: Global) -> Vector {
    let mut items = Vec::new(alloc);
    for seconds in SECONDS {
        items
            .push(seconds.wrapping_add(32_400).wrapping_mul(1_000_000_000))
            .expect(rt, "memory");
    }
    Vector::from_column(Column::Longs(LongKind::Timespan, items))
}

fn symbols(rt: &impl Abort, alloc: Global) -> Vector {
    let mut items = Symbols::new(alloc);
    for letter in SYMBOLS {
        let name = Sym::of(alloc, &[*letter]).expect(rt, "memory");
        items.push(name.bytes()).expect(rt, "memory");
    }
    Vector::from_column(Column::Symbols(items))
}

fn names(rt: &impl Abort, alloc: Global) -> Names {
    let texts: [&[u8]; 6] = [b"date", b"time", b"sym", b"price", b"size", b"i"];
    let mut names = Names::new(alloc);
    for text in texts {
        names
            .push(Sym::of(alloc, text).expect(rt, "memory"))
            .expect(rt, "memory");
    }
    names
}

/// The rows: seven on 2024.01.02, which has ended, and five on the open date.
pub(crate) fn rows(rt: &impl Abort, alloc: Global) -> Rows {
    let mut columns = Columns::new(alloc);
    columns.push(dates(rt, alloc)).expect(rt, "memory");
    columns.push(times(rt, alloc)).expect(rt, "memory");
    columns.push(symbols(rt, alloc)).expect(rt, "memory");
    columns
        .push(longs(rt, alloc, LongKind::Long, &PRICES))
        .expect(rt, "memory");
    columns
        .push(longs(rt, alloc, LongKind::Long, &SIZES))
        .expect(rt, "memory");
    columns
        .push(longs(rt, alloc, LongKind::Long, &PLACES))
        .expect(rt, "memory");
    match Rows::new(names(rt, alloc), columns) {
        Some(rows) => rows,
        None => panic!(rt; "columns of different lengths"),
    }
}
