//! `xbar` of 1,000 and 100,000 longs by one width, against the remainder of each number.

use crate::table_test::found_of_sides;
use q_values::{Atom, Column, LongKind, Vector};
use q_verbs::{Side, Verb};
use std::alloc::Global;
use std::process::Abort;

// The widths: powers of two and others, narrow, wider than a day's nanoseconds, and the two widest.
const WIDTHS: [i64; 9] = [
    1,
    2,
    7,
    300,
    3_037_000_499,
    60_000_000_000,
    0x4000_0000_0000_0000,
    i64::MAX - 1,
    i64::MAX,
];

// The number of a row: near both ends of 64 bits, near 0, anywhere, and the null.
pub(crate) fn number_at(row: u32) -> i64 {
    match row % 5 {
        0 => i64::MAX.wrapping_sub(i64::from(row)),
        1 => i64::MIN.wrapping_add(i64::from(row)),
        2 => i64::from(row) - 50_000,
        3 => u64::from(row)
            .wrapping_mul(0x9e37_79b9_7f4a_7c15)
            .cast_signed(),
        _ => i64::MIN,
    }
}

// The greatest multiple of the width that isn't above the number, wrapped to 64 bits; the null for the null.
fn multiple_below(width: i64, number: i64) -> Option<i64> {
    if number == i64::MIN {
        return Some(number);
    }
    let rest = number.checked_rem(width)?;
    let above = if rest < 0 {
        rest.wrapping_add(width)
    } else {
        rest
    };
    Some(number.wrapping_sub(above))
}

fn rows_of(rt: &impl Abort, alloc: Global, count: u32) -> Vector {
    let mut rows = Vec::new(alloc);
    for row in 0..count {
        rows.push(number_at(row)).expect(rt, "memory");
    }
    Vector::from_column(Column::Longs(LongKind::Long, rows))
}

// Whether the result is right at each row.
fn is_right(found: &Vector, width: i64, count: u32) -> bool {
    let Column::Longs(_, items) = found.column() else {
        return false;
    };
    let mut right = items.len() == count as usize;
    let mut row = 0u32;
    for item in items {
        right = right && Some(*item) == multiple_below(width, number_at(row));
        row = row.wrapping_add(1);
    }
    right
}

fn multiples(rt: &impl Abort, alloc: Global, width: i64, rows: &Vector) -> Option<Vector> {
    let atom = Atom::Long(width);
    let found = found_of_sides(
        rt,
        alloc,
        Verb::Xbar,
        &Side::Atom(&atom),
        &Side::Column(rows),
    );
    found
}

// The first width that fails.
fn first_failure(rt: &impl Abort, alloc: Global, count: u32) -> Option<i64> {
    let rows = rows_of(rt, alloc, count);
    for width in WIDTHS {
        match multiples(rt, alloc, width, &rows) {
            Some(found) if is_right(&found, width, count) => (),
            _ => return Some(width),
        }
    }
    None
}

#[test]
fn a_thousand_rows(rt: HostRuntime) {
    assert!(rt; first_failure(&rt, rt.alloc(), 1_000).is_none());
}

#[test]
fn a_hundred_thousand_rows(rt: HostRuntime) {
    assert!(rt; first_failure(&rt, rt.alloc(), 100_000).is_none());
}
