//! Groups of columns of each width, of short and of long symbols, of parts, and of 100,000 symbols.
use crate::columns::{Items, symbols_of, vector_of};
use q_groups::Groups;
use q_values::{ByteKind, Column, IntegerKind, LongKind, Vector};
use std::alloc::Global;
use std::process::Abort;

const ROWS: usize = 100_000;

// What is expected of groups.
#[derive(Clone, Copy)]
struct Wanted<'a> {
    codes: &'a [u32],
    firsts: &'a [u32],
    sorted: &'a [u32],
    order: &'a [u32],
}

fn assert_are(rt: &impl Abort, alloc: Global, groups: &Groups, wanted: Wanted) {
    assert_eq!(rt; groups.codes(), wanted.codes);
    assert_eq!(rt; groups.firsts(), wanted.firsts);
    assert_eq!(rt; groups.sorted(), wanted.sorted);
    let order = groups.order(alloc).expect(rt, "memory");
    assert_eq!(rt; order.as_slice(), wanted.order);
}

fn assert_groups(rt: &impl Abort, alloc: Global, items: Items, wanted: Wanted) {
    let column = vector_of(rt, alloc, items);
    let groups = Groups::of(alloc, &column).expect(rt, "memory");
    assert_are(rt, alloc, &groups, wanted);
}

#[test]
fn numbers(rt: HostRuntime) {
    let items = Items::Longs(&[7, -3, 7, i64::MIN, 0, -3]);
    let wanted = Wanted {
        codes: &[0, 1, 0, 2, 3, 1],
        firsts: &[0, 1, 3, 4],
        sorted: &[2, 1, 3, 0],
        order: &[3, 1, 5, 4, 0, 2],
    };
    assert_groups(&rt, rt.alloc(), items, wanted);
}

// Columns of the same four rows, in three kinds.
const NARROW: [(Items, Wanted); 3] = [
    (
        Items::Booleans(&[false, true, false, true]),
        Wanted {
            codes: &[0, 1, 0, 1],
            firsts: &[0, 1],
            sorted: &[0, 1],
            order: &[0, 2, 1, 3],
        },
    ),
    (
        Items::Bytes(ByteKind::Character, &[3, 1, 3, 2]),
        Wanted {
            codes: &[0, 1, 0, 2],
            firsts: &[0, 1, 3],
            sorted: &[1, 2, 0],
            order: &[1, 3, 0, 2],
        },
    ),
    (
        Items::Integers(IntegerKind::Date, &[-3, -1, -3, -2]),
        Wanted {
            codes: &[0, 1, 0, 2],
            firsts: &[0, 1, 3],
            sorted: &[0, 2, 1],
            order: &[0, 2, 3, 1],
        },
    ),
];

#[test]
fn narrow(rt: HostRuntime) {
    for (items, wanted) in &NARROW {
        assert_groups(&rt, rt.alloc(), *items, *wanted);
    }
}

#[test]
fn no_items(rt: HostRuntime) {
    let wanted = Wanted {
        codes: &[],
        firsts: &[],
        sorted: &[],
        order: &[],
    };
    assert_groups(&rt, rt.alloc(), Items::Symbols(&[]), wanted);
}

fn assert_parts(rt: &impl Abort, alloc: Global, parts: [&[&[u8]]; 2], rows: usize, wanted: Wanted) {
    let first = symbols_of(rt, alloc, parts[0]);
    let second = symbols_of(rt, alloc, parts[1]);
    let groups = Groups::of_symbols(alloc, &[&first, &second], rows).expect(rt, "memory");
    assert_are(rt, alloc, &groups, wanted);
}

#[test]
fn parts_of_symbols(rt: HostRuntime) {
    let alloc = rt.alloc();
    let first: &[&[u8]] = &[b"b", b"eightbyt", b"b"];
    let short = Wanted {
        codes: &[0, 1, 0, 2, 3],
        firsts: &[0, 1, 3, 4],
        sorted: &[2, 0, 3, 1],
        order: &[3, 0, 2, 4, 1],
    };
    assert_parts(&rt, alloc, [first, &[b"", b"eightbys", b"b"]], 5, short);
    let mixed = Wanted {
        codes: &[0, 1, 0, 2, 1, 2],
        firsts: &[0, 1, 3],
        sorted: &[0, 1, 2],
        order: &[0, 2, 1, 4, 3, 5],
    };
    let long: &[&[u8]] = &[b"eightbytes", b"eightbyt", b"eightbytes"];
    assert_parts(&rt, alloc, [first, long], 6, mixed);
}

// A number of this many that follows no simple pattern.
fn spread(i: usize, groups: u64) -> u64 {
    (i as u64).wrapping_mul(0x9E37_79B9_7F4A_7C15) >> 33 & groups
}

// A long for each row, of this many values and one more.
fn longs(rt: &impl Abort, alloc: Global, most: u64) -> Vector {
    let mut items = Vec::new(alloc);
    for i in 0..ROWS {
        items
            .push(spread(i, most).cast_signed())
            .expect(rt, "memory");
    }
    Vector::from_column(Column::Longs(LongKind::Long, items))
}

fn are_same(order: &[u32], plain: &[usize]) -> bool {
    for (place, wanted) in order.iter().zip(plain) {
        if *place as usize != *wanted {
            return false;
        }
    }
    order.len() == plain.len()
}

// Whether the order by groups is the one that sorts all rows.
fn is_sorted_order(rt: &impl Abort, alloc: Global, longs: &Vector) -> bool {
    let groups = Groups::of(alloc, longs).expect(rt, "memory");
    let order = groups.order(alloc).expect(rt, "memory");
    let plain = longs.order(alloc).expect(rt, "memory");
    groups.codes().len() == ROWS && are_same(order.as_slice(), plain.as_slice())
}

#[test]
fn as_many_as_a_day_has(rt: HostRuntime) {
    let alloc = rt.alloc();
    for most in [127u64, 16_383] {
        assert!(rt; is_sorted_order(&rt, alloc, &longs(&rt, alloc, most)));
    }
}
