//! Rows of the tables `trade` and `quote`.

use q_values::{Column, Columns, IntegerKind, LongKind, Names, Sym, Symbols, Vector};
use qsql_eval::Rows;
use std::alloc::Global;
use std::process::Abort;

fn longs(rt: &impl Abort, alloc: Global, kind: LongKind, numbers: &[i64]) -> Vector {
    let items = Vec::from_slice(alloc, numbers).expect(rt, "memory");
    Vector::from_column(Column::Longs(kind, items))
}

fn dates(rt: &impl Abort, alloc: Global, numbers: &[i32]) -> Vector {
    let items = Vec::from_slice(alloc, numbers).expect(rt, "memory");
    Vector::from_column(Column::Integers(IntegerKind::Date, items))
}

// A symbol for each letter; a blank is the null.
fn symbols(rt: &impl Abort, alloc: Global, letters: &[u8]) -> Vector {
    let mut items = Symbols::new(alloc);
    for letter in letters {
        let bytes = [*letter];
        let text: &[u8] = if *letter == b' ' { b"" } else { &bytes };
        let name = Sym::of(alloc, text).expect(rt, "memory");
        items.push(name.bytes()).expect(rt, "memory");
    }
    Vector::from_column(Column::Symbols(items))
}

fn names(rt: &impl Abort, alloc: Global, texts: &[&[u8]]) -> Names {
    let mut names = Names::new(alloc);
    for text in texts {
        names
            .push(Sym::of(alloc, text).expect(rt, "memory"))
            .expect(rt, "memory");
    }
    names
}

fn rows(rt: &impl Abort, names: Names, columns: Columns) -> Rows {
    match Rows::new(names, columns) {
        Some(rows) => rows,
        None => panic!(rt; "columns of different lengths"),
    }
}

/// Rows of `trade`.
#[derive(Drop)]
pub(crate) struct Trades<'a> {
    pub dates: &'a [i32],
    pub times: &'a [i64],
    pub syms: &'a [u8],
    pub prices: &'a [i64],
    pub sizes: &'a [i64],
}

/// The rows of these trades.
pub(crate) fn trade_rows(rt: &impl Abort, alloc: Global, trades: &Trades) -> Rows {
    let mut columns = Columns::new(alloc);
    columns
        .push(dates(rt, alloc, trades.dates))
        .expect(rt, "memory");
    columns
        .push(longs(rt, alloc, LongKind::Timespan, trades.times))
        .expect(rt, "memory");
    columns
        .push(symbols(rt, alloc, trades.syms))
        .expect(rt, "memory");
    columns
        .push(longs(rt, alloc, LongKind::Long, trades.prices))
        .expect(rt, "memory");
    columns
        .push(longs(rt, alloc, LongKind::Long, trades.sizes))
        .expect(rt, "memory");
    let texts: [&[u8]; 5] = [b"date", b"time", b"sym", b"price", b"size"];
    rows(rt, names(rt, alloc, &texts), columns)
}

/// Rows of `quote`.
#[derive(Drop)]
pub(crate) struct Quotes<'a> {
    pub dates: &'a [i32],
    pub times: &'a [i64],
    pub syms: &'a [u8],
    pub bids: &'a [i64],
    pub asks: &'a [i64],
    pub sizes: &'a [i64],
}

/// The rows of these quotes.
pub(crate) fn quote_rows(rt: &impl Abort, alloc: Global, quotes: &Quotes) -> Rows {
    let mut columns = Columns::new(alloc);
    columns
        .push(dates(rt, alloc, quotes.dates))
        .expect(rt, "memory");
    columns
        .push(longs(rt, alloc, LongKind::Timespan, quotes.times))
        .expect(rt, "memory");
    columns
        .push(symbols(rt, alloc, quotes.syms))
        .expect(rt, "memory");
    columns
        .push(longs(rt, alloc, LongKind::Long, quotes.bids))
        .expect(rt, "memory");
    columns
        .push(longs(rt, alloc, LongKind::Long, quotes.asks))
        .expect(rt, "memory");
    columns
        .push(longs(rt, alloc, LongKind::Long, quotes.sizes))
        .expect(rt, "memory");
    columns
        .push(longs(rt, alloc, LongKind::Long, quotes.sizes))
        .expect(rt, "memory");
    let texts: [&[u8]; 7] = [b"date", b"time", b"sym", b"bid", b"ask", b"bsize", b"asize"];
    rows(rt, names(rt, alloc, &texts), columns)
}
