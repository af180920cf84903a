//! Columns by their items.

use q_values::{ByteKind, Column, IntegerKind, LongKind, Sym, Symbols, Vector};
use std::alloc::Global;
use std::process::Abort;

/// The items of a column.
#[derive(Clone, Copy)]
pub(crate) enum Items<'a> {
    Booleans(&'a [bool]),
    Bytes(ByteKind, &'a [u8]),
    Shorts(&'a [i16]),
    Integers(IntegerKind, &'a [i32]),
    Longs(&'a [i64]),
    Symbols(&'a [&'a [u8]]),
}

/// The symbols of these texts.
pub(crate) fn symbols_of(rt: &impl Abort, alloc: Global, texts: &[&[u8]]) -> Symbols {
    let mut found = Symbols::new(alloc);
    for text in texts {
        let name = Sym::of(alloc, text).expect(rt, "a symbol");
        found.push(name.bytes()).expect(rt, "memory");
    }
    found
}

fn column_of(rt: &impl Abort, alloc: Global, items: Items) -> Column {
    match items {
        Items::Booleans(x) => Column::Booleans(Vec::from_slice(alloc, x).expect(rt, "memory")),
        Items::Bytes(kind, x) => Column::Bytes(
            kind,
            Vec::from_slice(alloc, x).expect(rt, "memory"),
        ),
        Items::Shorts(x) => Column::Shorts(Vec::from_slice(alloc, x).expect(rt, "memory")),
        Items::Integers(kind, x) => Column::Integers(
            kind,
            Vec::from_slice(alloc, x).expect(rt, "memory"),
        ),
        Items::Longs(x) => Column::Longs(
            LongKind::Long,
            Vec::from_slice(alloc, x).expect(rt, "memory"),
        ),
        Items::Symbols(texts) => Column::Symbols(symbols_of(rt, alloc, texts)),
    }
}

/// The column of these items.
pub(crate) fn vector_of(rt: &impl Abort, alloc: Global, items: Items) -> Vector {
    Vector::from_column(column_of(rt, alloc, items))
}
