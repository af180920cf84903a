//! Rows of the table `trade`.

use q_values::{Column, Columns, IntegerKind, LongKind, Names, Sym, Symbols, Vector};
use qsql_eval::Rows;
use std::alloc::Global;
use std::process::Abort;

pub(crate) fn longs(rt: &impl Abort, alloc: Global, kind: LongKind, numbers: &[i64]) -> Vector {
    let items = Vec::from_slice(alloc, numbers).expect(rt, "memory");
    Vector::from_column(Column::Longs(kind, items))
}

pub(crate) fn dates(rt: &impl Abort, alloc: Global, numbers: &[i32]) -> Vector {
    let items = Vec::from_slice(alloc, numbers).expect(rt, "memory");
    Vector::from_column(Column::Integers(IntegerKind::Date, items))
}

pub(crate) fn symbols(rt: &impl Abort, alloc: Global, letters: &[u8]) -> Vector {
    let mut items = Symbols::new(alloc);
    for letter in letters {
        let name = Sym::of(alloc, &[*letter]).expect(rt, "memory");
        items.push(name.bytes()).expect(rt, "memory");
    }
    Vector::from_column(Column::Symbols(items))
}

pub(crate) fn names(rt: &impl Abort, alloc: Global, texts: &[&[u8]]) -> Names {
    let mut names = Names::new(alloc);
    for text in texts {
        names
            .push(Sym::of(alloc, text).expect(rt, "memory"))
            .expect(rt, "memory");
    }
    names
}

// Rows with these columns.
#[derive(Drop)]
struct Trades<'a> {
    dates: &'a [i32],
    places: &'a [i64],
    times: &'a [i64],
    syms: &'a [u8],
    prices: &'a [i64],
    sizes: &'a [i64],
}

fn rows_of(rt: &impl Abort, alloc: Global, trades: &Trades) -> Rows {
    let mut columns = Columns::new(alloc);
    columns
        .push(dates(rt, alloc, trades.dates))
        .expect(rt, "memory");
    columns
        .push(longs(rt, alloc, LongKind::Timespan, trades.times))
        .expect(rt, "memory");
    columns
        .push(symbols(rt, alloc, trades.syms))
        .expect(rt, "memory");
    columns
        .push(longs(rt, alloc, LongKind::Long, trades.prices))
        .expect(rt, "memory");
    columns
        .push(longs(rt, alloc, LongKind::Long, trades.sizes))
        .expect(rt, "memory");
    columns
        .push(longs(rt, alloc, LongKind::Long, trades.places))
        .expect(rt, "memory");
    let texts: [&[u8]; 6] = [b"date", b"time", b"sym", b"price", b"size", b"i"];
    match Rows::new(names(rt, alloc, &texts), columns) {
        Some(rows) => rows,
        None => panic!(rt; "columns of different lengths"),
    }
}

/// Three updates on 2024.01.02, which has ended, and two on the open date.
pub(crate) fn five_rows(rt: &impl Abort, alloc: Global) -> Rows {
    let trades = Trades {
        dates: &[8767, 8767, 8767, 8768, 8768],
        places: &[0, 1, 2, 0, 1],
        times: &[
            34_260_000_000_000,
            34_200_000_000_000,
            34_320_000_000_000,
            34_200_000_000_000,
            34_260_000_000_000,
        ],
        syms: b"abbca",
        prices: &[20, 10, 11, 30, 21],
        sizes: &[5, 100, 7, 1, 9],
    };
    rows_of(rt, alloc, &trades)
}

/// Two equal rows on 2024.01.02 with these sizes.
pub(crate) fn two_rows(rt: &impl Abort, alloc: Global, sizes: &[i64; 2]) -> Rows {
    let trades = Trades {
        dates: &[8767, 8767],
        places: &[0, 1],
        times: &[34_200_000_000_000, 34_200_000_000_000],
        syms: b"bb",
        prices: &[10, 10],
        sizes: sizes.as_slice(),
    };
    rows_of(rt, alloc, &trades)
}

/// Many rows on 2024.01.02, with the sizes 0 to 999 again and again.
pub(crate) fn many_rows(rt: &impl Abort, alloc: Global, count: u32) -> Rows {
    let mut numbers = Vec::new(alloc);
    let mut sizes = Vec::new(alloc);
    for number in 0..count {
        numbers.push(i64::from(number)).expect(rt, "memory");
        sizes.push(i64::from(number % 1000)).expect(rt, "memory");
    }
    let days = vec![in alloc; 8767i32; numbers.len()].expect(rt, "memory");
    let letters = vec![in alloc; b'a'; numbers.len()].expect(rt, "memory");
    let trades = Trades {
        dates: &days,
        places: &numbers,
        times: &numbers,
        syms: &letters,
        prices: &numbers,
        sizes: &sizes,
    };
    rows_of(rt, alloc, &trades)
}

/// What a row of [`mixed_rows`] has.
#[derive(Drop)]
pub(crate) struct Mixed {
    /// The number of its symbol: 0 is `a`.
    pub symbol: u32,
    /// Its price, from 0 to 999.
    pub price: i64,
    /// Its size, from 0 to 96.
    pub size: i64,
}

impl Mixed {
    /// The symbol, price and size of the row with this number.
    pub(crate) fn of_row(row: u32) -> Mixed {
        Mixed {
            symbol: row.wrapping_mul(5) % 3,
            price: i64::from(row.wrapping_mul(7919) % 1000),
            size: i64::from(row % 97),
        }
    }
}

fn letter_of(symbol: u32) -> u8 {
    match symbol {
        0 => b'a',
        1 => b'b',
        _ => b'c',
    }
}

/// Many rows on 2024.01.02, half a second apart, with three symbols in turn.
pub(crate) fn mixed_rows(rt: &impl Abort, alloc: Global, count: u32) -> Rows {
    let mut numbers = Vec::new(alloc);
    let mut times = Vec::new(alloc);
    let mut letters = Vec::new(alloc);
    let mut prices = Vec::new(alloc);
    let mut sizes = Vec::new(alloc);
    for row in 0..count {
        let mixed = Mixed::of_row(row);
        numbers.push(i64::from(row)).expect(rt, "memory");
        times
            .push(i64::from(row).wrapping_mul(500_000_000))
            .expect(rt, "memory");
        letters.push(letter_of(mixed.symbol)).expect(rt, "memory");
        prices.push(mixed.price).expect(rt, "memory");
        sizes.push(mixed.size).expect(rt, "memory");
    }
    let days = vec![in alloc; 8767i32; numbers.len()].expect(rt, "memory");
    let trades = Trades {
        dates: &days,
        places: &numbers,
        times: &times,
        syms: &letters,
        prices: &prices,
        sizes: &sizes,
    };
    rows_of(rt, alloc, &trades)
}
