//! `xbar` of 1,000 and 100,001 ints by one width, against a division of each number in 64 bits.

use crate::table_test::found_of_sides;
use q_values::{Atom, Column, IntegerKind, Vector};
use q_verbs::{Side, Verb};
use std::alloc::Global;
use std::process::Abort;

// The widths: powers of two and others, narrow, and the two widest.
const WIDTHS: [i32; 7] = [1, 7, 300, 65_536, 65_537, i32::MAX - 1, i32::MAX];

// The number of a row: the null, both ends of 32 bits, the numbers beside 0, and others anywhere.
fn int_at(row: u32) -> i32 {
    match row % 8 {
        0 => i32::MIN,
        1 => i32::MIN + 1,
        2 => -1,
        3 => 0,
        4 => i32::MAX,
        _ => ((u64::from(row).wrapping_mul(0x9e37_79b9_7f4a_7c15) >> 32) as u32).cast_signed(),
    }
}

// The greatest multiple of the width that isn't above the number, wrapped to 32 bits; the null for the null.
fn multiple_below(width: i32, number: i32) -> Option<i32> {
    if number == i32::MIN {
        return Some(number);
    }
    let quotient = i64::from(number).checked_div_euclid(i64::from(width))?;
    let multiple = i64::from(width).wrapping_mul(quotient);
    Some(((multiple.cast_unsigned() % 0x1_0000_0000) as u32).cast_signed())
}

fn rows_of(rt: &impl Abort, alloc: Global, count: u32) -> Vector {
    let mut rows = Vec::new(alloc);
    for row in 0..count {
        rows.push(int_at(row)).expect(rt, "memory");
    }
    Vector::from_column(Column::Integers(IntegerKind::Integer, rows))
}

// Whether the result is right at each row.
fn is_right(found: &Vector, width: i32, count: u32) -> bool {
    let Column::Integers(_, items) = found.column() else {
        return false;
    };
    let mut right = items.len() == count as usize;
    let mut row = 0u32;
    for item in items {
        right = right && Some(*item) == multiple_below(width, int_at(row));
        row = row.wrapping_add(1);
    }
    right
}

// The first width that fails.
fn first_failure(rt: &impl Abort, alloc: Global, count: u32) -> Option<i32> {
    let rows = rows_of(rt, alloc, count);
    for width in WIDTHS {
        let atom = Atom::Integer(width);
        let left = Side::Atom(&atom);
        match found_of_sides(rt, alloc, Verb::Xbar, &left, &Side::Column(&rows)) {
            Some(found) if is_right(&found, width, count) => (),
            _ => return Some(width),
        }
    }
    None
}

#[test]
fn a_thousand_rows(rt: HostRuntime) {
    assert!(rt; first_failure(&rt, rt.alloc(), 1_000).is_none());
}

#[test]
fn a_hundred_thousand_rows(rt: HostRuntime) {
    assert!(rt; first_failure(&rt, rt.alloc(), 100_001).is_none());
}
