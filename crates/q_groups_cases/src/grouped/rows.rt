//! Each verb over few rows of three groups, of which the second has no item.

use crate::columns::{Items, vector_of};
use crate::grouped::same::is_same;
use crate::grouped::{atom_by_group, by_group};
use q_grouped::count_by;
use q_values::{Atom, ByteKind, IntegerKind};
use q_verbs::Verb1;
use std::alloc::Global;
use std::process::Abort;

const CODES: [u32; 5] = [0, 2, 0, 0, 2];

const GROUPS: u32 = 3;

// A verb, a column, and what the verb gives for each group.
type Row<'a> = (Verb1, Items<'a>, Items<'a>);

fn assert_row(rt: &impl Abort, alloc: Global, row: Row) {
    let (verb, column, wanted) = row;
    let column = vector_of(rt, alloc, column);
    let found = by_group(rt, alloc, verb, &column, &CODES, GROUPS);
    let wanted = vector_of(rt, alloc, wanted);
    assert!(rt; is_same(&found, &wanted), "{verb:?}");
}

fn assert_rows(rt: &impl Abort, alloc: Global, rows: &[Row]) {
    for row in rows {
        assert_row(rt, alloc, *row);
    }
}

const LONGS: Items = Items::Longs(&[5, i64::MAX, i64::MIN, -2, 1]);

#[test]
fn longs(rt: HostRuntime) {
    let rows = [
        (Verb1::Count, LONGS, Items::Longs(&[3, 0, 2])),
        (Verb1::Sum, LONGS, Items::Longs(&[3, 0, i64::MIN])),
        (Verb1::Min, LONGS, Items::Longs(&[-2, i64::MAX, 1])),
        (Verb1::Max, LONGS, Items::Longs(&[5, -i64::MAX, i64::MAX])),
        (Verb1::First, LONGS, Items::Longs(&[5, i64::MIN, i64::MAX])),
        (Verb1::Last, LONGS, Items::Longs(&[-2, i64::MIN, 1])),
    ];
    assert_rows(&rt, rt.alloc(), &rows);
}

const SHORTS: Items = Items::Shorts(&[i16::MIN, i16::MAX, 20_000, 20_000, 1]);

#[test]
fn shorts(rt: HostRuntime) {
    let sums = Items::Integers(IntegerKind::Integer, &[40_000, 0, 32_768]);
    let rows = [
        (Verb1::Sum, SHORTS, sums),
        (Verb1::Min, SHORTS, Items::Shorts(&[20_000, i16::MAX, 1])),
        (
            Verb1::Max,
            SHORTS,
            Items::Shorts(&[20_000, -i16::MAX, i16::MAX]),
        ),
        (
            Verb1::First,
            SHORTS,
            Items::Shorts(&[i16::MIN, i16::MIN, i16::MAX]),
        ),
    ];
    assert_rows(&rt, rt.alloc(), &rows);
}

const NUMBERS: &[i32] = &[i32::MAX, i32::MIN, 2, 1, -7];

fn dates(items: &[i32]) -> Items<'_> {
    Items::Integers(IntegerKind::Date, items)
}

// A sum of ints wraps at 32 bits.
#[test]
fn ints_and_dates(rt: HostRuntime) {
    let ints = Items::Integers(IntegerKind::Integer, NUMBERS);
    let sums = Items::Integers(IntegerKind::Integer, &[i32::MIN + 2, 0, -7]);
    let rows = [
        (Verb1::Sum, ints, sums),
        (Verb1::Min, dates(NUMBERS), dates(&[1, i32::MAX, -7])),
        (
            Verb1::Max,
            dates(NUMBERS),
            dates(&[i32::MAX, -i32::MAX, -7]),
        ),
        (Verb1::Last, dates(NUMBERS), dates(&[1, i32::MIN, -7])),
    ];
    assert_rows(&rt, rt.alloc(), &rows);
}

const BITS: Items = Items::Booleans(&[true, false, false, true, false]);

const TEXT: Items = Items::Bytes(ByteKind::Character, b"quick");

const BYTES: Items = Items::Bytes(ByteKind::Byte, &[9, 0, 255, 3, 8]);

#[test]
fn bits_and_bytes(rt: HostRuntime) {
    let sums = Items::Integers(IntegerKind::Integer, &[2, 0, 0]);
    let rows = [
        (Verb1::Sum, BITS, sums),
        (Verb1::Min, BITS, Items::Booleans(&[false, true, false])),
        (Verb1::Max, BITS, Items::Booleans(&[true, false, false])),
        (Verb1::Last, TEXT, Items::Bytes(ByteKind::Character, b"c k")),
        (
            Verb1::Min,
            BYTES,
            Items::Bytes(ByteKind::Byte, &[3, 255, 0]),
        ),
        (
            Verb1::Max,
            BYTES,
            Items::Bytes(ByteKind::Byte, &[255, 0, 8]),
        ),
    ];
    assert_rows(&rt, rt.alloc(), &rows);
}

#[test]
fn symbols(rt: HostRuntime) {
    let short = Items::Symbols(&[b"a", b"b", b"", b"c", b"d"]);
    let long = Items::Symbols(&[b"eightbytes", b"b", b"", b"c", b"d"]);
    let rows = [
        (Verb1::Last, short, Items::Symbols(&[b"c", b"", b"d"])),
        (
            Verb1::First,
            long,
            Items::Symbols(&[b"eightbytes", b"", b"b"]),
        ),
    ];
    assert_rows(&rt, rt.alloc(), &rows);
}

#[test]
fn counts(rt: HostRuntime) {
    let alloc = rt.alloc();
    let found = count_by(alloc, &CODES, GROUPS).expect(&rt, "memory");
    let wanted = vector_of(&rt, alloc, Items::Longs(&[3, 0, 2]));
    assert!(rt; is_same(&found, &wanted));
    assert_eq!(rt; count_by(alloc, &[], 0).expect(&rt, "memory").len(), 0);
}

fn assert_atom(rt: &impl Abort, alloc: Global, verb: Verb1, wanted: &[i64]) {
    let found = atom_by_group(rt, alloc, verb, &Atom::Long(2), &CODES, GROUPS);
    let wanted = vector_of(rt, alloc, Items::Longs(wanted));
    assert!(rt; is_same(&found, &wanted), "{verb:?}");
}

// An atom stands for the item of each row.
#[test]
fn atoms(rt: HostRuntime) {
    let alloc = rt.alloc();
    assert_atom(&rt, alloc, Verb1::Count, &[3, 0, 2]);
    assert_atom(&rt, alloc, Verb1::Sum, &[6, 0, 4]);
    assert_atom(&rt, alloc, Verb1::Last, &[2, i64::MIN, 2]);
}
