//! Sides as rows of the tables `trade` and `quote`.

use crate::compared::generated::Sides;
use crate::compared::row::{Field, Row};
use crate::compared::slow::items_of;
use q_values::{Column, Columns, IntegerKind, LongKind, Names, Sym, Symbols, Vector};
use qsql_eval::Rows;
use std::alloc::Global;
use std::process::Abort;

// The columns of `trade`, each with the field that it is made of.
const TRADE: [(&[u8], Field); 5] = [
    (b"date", Field::Day),
    (b"time", Field::Moment),
    (b"sym", Field::Letter),
    (b"price", Field::Number),
    (b"size", Field::Number),
];

// The columns of `quote`.
const QUOTE: [(&[u8], Field); 7] = [
    (b"date", Field::Day),
    (b"time", Field::Moment),
    (b"sym", Field::Letter),
    (b"bid", Field::Number),
    (b"ask", Field::Number),
    (b"bsize", Field::Number),
    (b"asize", Field::Number),
];

fn dates(rt: &impl Abort, alloc: Global, numbers: &[i64]) -> Vector {
    let mut items = Vec::with_capacity(alloc, numbers.len()).expect(rt, "memory");
    for number in numbers {
        items
            .push(i32::try_from(*number).unwrap_or(i32::MIN))
            .expect(rt, "memory");
    }
    Vector::from_column(Column::Integers(IntegerKind::Date, items))
}

fn symbols(rt: &impl Abort, alloc: Global, numbers: &[i64]) -> Vector {
    let mut items = Symbols::new(alloc);
    for number in numbers {
        let bytes = [u8::try_from(*number).unwrap_or(0)];
        let text: &[u8] = if bytes == [0] { b"" } else { &bytes };
        let name = Sym::of(alloc, text).expect(rt, "memory");
        items.push(name.bytes()).expect(rt, "memory");
    }
    Vector::from_column(Column::Symbols(items))
}

fn column(rt: &impl Abort, alloc: Global, rows: &[Row], field: Field) -> Vector {
    let items = items_of(rt, alloc, rows, field);
    match field {
        Field::Day => dates(rt, alloc, &items),
        Field::Letter => symbols(rt, alloc, &items),
        Field::Moment => Vector::from_column(Column::Longs(LongKind::Timespan, items)),
        Field::Number => Vector::from_column(Column::Longs(LongKind::Long, items)),
    }
}

fn table(rt: &impl Abort, alloc: Global, rows: &[Row], columns: &[(&[u8], Field)]) -> Rows {
    let mut names = Names::new(alloc);
    let mut vectors = Columns::new(alloc);
    for (name, field) in columns {
        names
            .push(Sym::of(alloc, name).expect(rt, "memory"))
            .expect(rt, "memory");
        vectors
            .push(column(rt, alloc, rows, *field))
            .expect(rt, "memory");
    }
    match Rows::new(names, vectors) {
        Some(rows) => rows,
        None => panic!(rt; "columns of different lengths"),
    }
}

/// The rows of both tables.
#[derive(Drop)]
pub(crate) struct Tables {
    pub trade: Rows,
    pub quote: Rows,
}

/// The left side as `trade`, the right one as `quote`.
pub(crate) fn make_tables(rt: &impl Abort, alloc: Global, sides: &Sides) -> Tables {
    let trade = table(rt, alloc, &sides.left, &TRADE);
    let quote = table(rt, alloc, &sides.right, &QUOTE);
    Tables { trade, quote }
}
