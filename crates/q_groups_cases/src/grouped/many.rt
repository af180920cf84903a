//! Each verb over many rows, beside the plain way: the items of each group apart, and their aggregate.

use crate::grouped::same::is_same;
use crate::grouped::{by_group, of_all};
use q_values::{Atom, Column, Kind, LongKind, Vector};
use q_verbs::Verb1;
use std::alloc::Global;
use std::process::Abort;

const ROWS: usize = 100_000;

const GROUPS: u32 = 1_000;

// Each verb that makes one atom.
const VERBS: [Verb1; 6] = [
    Verb1::Count,
    Verb1::Sum,
    Verb1::Min,
    Verb1::Max,
    Verb1::First,
    Verb1::Last,
];

// A number of 64 bits for each row, which follows no simple pattern.
fn spread(row: usize) -> u64 {
    (row as u64).wrapping_mul(0x9E37_79B9_7F4A_7C15)
}

// A code for each row; the last group has no row.
fn codes(rt: &impl Abort, alloc: Global) -> Vec<u32> {
    let mut codes = Vec::new(alloc);
    for row in 0..ROWS {
        codes
            .push((spread(row) >> 33) as u32 % (GROUPS - 1))
            .expect(rt, "memory");
    }
    codes
}

// Every seventh one is the null.
fn longs(rt: &impl Abort, alloc: Global) -> Vec<i64> {
    let mut items = Vec::new(alloc);
    for row in 0..ROWS {
        let null = row % 7 == 0;
        items
            .push(if null {
                i64::MIN
            } else {
                spread(row).cast_signed()
            })
            .expect(rt, "memory");
    }
    items
}

// The items of each group.
fn parts(rt: &impl Abort, alloc: Global, items: &[i64], codes: &[u32]) -> Vec<Vector> {
    let mut groups = Vec::new(alloc);
    for _ in 0..GROUPS {
        groups
            .push(Vector::new(alloc, Kind::Long))
            .expect(rt, "memory");
    }
    for (item, code) in items.iter().zip(codes) {
        match groups.get_mut(*code as usize) {
            Some(part) => part.push(Atom::Long(*item)).expect(rt, "memory"),
            None => panic!(rt; "a code is too high"),
        }
    }
    groups
}

// The verb's result for each of these columns.
fn results(rt: &impl Abort, alloc: Global, verb: Verb1, kind: Kind, parts: &[Vector]) -> Vector {
    let mut found = Vector::new(alloc, kind);
    for part in parts {
        found
            .push(of_all(rt, alloc, verb, part))
            .expect(rt, "memory");
    }
    found
}

// Whether the verb gives for each group what it gives for its items apart.
fn is_as_apart(
    rt: &impl Abort,
    alloc: Global,
    verb: Verb1,
    column: &Vector,
    codes: &[u32],
    parts: &[Vector],
) -> bool {
    let found = by_group(rt, alloc, verb, column, codes, GROUPS);
    let plain = results(rt, alloc, verb, found.kind(), parts);
    is_same(&found, &plain)
}

// A column for these codes, and its parts.
fn made(rt: &impl Abort, alloc: Global, codes: &[u32]) -> (Vector, Vec<Vector>) {
    let items = longs(rt, alloc);
    let parts = parts(rt, alloc, &items, codes);
    (
        Vector::from_column(Column::Longs(LongKind::Long, items)),
        parts,
    )
}

#[test]
fn as_apart(rt: HostRuntime) {
    let alloc = rt.alloc();
    let codes = codes(&rt, alloc);
    let (column, parts) = made(&rt, alloc, &codes);
    for verb in VERBS {
        assert!(rt;
            is_as_apart(&rt, alloc, verb, &column, &codes, &parts),
            "{verb:?}"
        );
    }
}
