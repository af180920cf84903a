//! `sum`, `min`, `max` and comparisons over numbers of rows that are no multiple of 8 or 16, where the last rows decide,
//! against what each row's number says.

use crate::sizes::{atom_of, number_at, rows_of};
use crate::table_test::{by_place, found_of_one, found_of_sides, is_wanted, vector_of_atom};
use q_values::{Column, Kind, Vector};
use q_verbs::{Side, Verb, Verb1, result_kind1};
use std::alloc::Global;
use std::process::Abort;

const KINDS: [Kind; 3] = [Kind::Short, Kind::Integer, Kind::Long];

// What follows the rows: the least item, the greatest, and the null.
const LAST: [Option<i64>; 3] = [Some(-1_000), Some(1_000), None];

// The sum, the least and the greatest of the numbers of the rows and of the last item.
fn wanted_of(count: u32, last: Option<i64>) -> [(Verb1, i64); 3] {
    // 0 changes no sum, and the rows have numbers below and above it.
    let number = last.unwrap_or(0);
    let (mut sum, mut least, mut greatest) = (number, number, number);
    for row in 0..count {
        if let Some(number) = number_at(row) {
            sum = sum.wrapping_add(number);
            least = least.min(number);
            greatest = greatest.max(number);
        }
    }
    [
        (Verb1::Sum, sum),
        (Verb1::Min, least),
        (Verb1::Max, greatest),
    ]
}

// Whether the verb makes this number of the column.
fn gives(rt: &impl Abort, alloc: Global, verb: Verb1, rows: &Vector, wanted: i64) -> bool {
    let Some(kind) = result_kind1(verb, rows.kind()) else {
        return false;
    };
    let wanted = vector_of_atom(rt, alloc, atom_of(rt, kind, Some(wanted)));
    let found = found_of_one(rt, alloc, verb, rows);
    is_wanted(found, &wanted)
}

// The first verb that fails where this item follows n rows.
fn first_wrong_verb(
    rt: &impl Abort,
    alloc: Global,
    kind: Kind,
    count: u32,
    last: Option<i64>,
) -> Option<Verb1> {
    let mut rows = rows_of(rt, alloc, kind, count);
    rows.push(atom_of(rt, kind, last)).expect(rt, "memory");
    for (verb, wanted) in wanted_of(count, last) {
        if !gives(rt, alloc, verb, &rows, wanted) {
            return Some(verb);
        }
    }
    None
}

// The first kind and verb that fail where one item follows n rows.
fn first_wrong_end(rt: &impl Abort, alloc: Global, count: u32) -> Option<(Kind, Verb1)> {
    for kind in KINDS {
        for last in LAST {
            if let Some(verb) = first_wrong_verb(rt, alloc, kind, count, last) {
                return Some((kind, verb));
            }
        }
    }
    None
}

#[test]
fn last_of_1001_rows(rt: HostRuntime) {
    assert_eq!(rt; first_wrong_end(&rt, rt.alloc(), 1_000), None);
}

#[test]
fn last_of_100001_rows(rt: HostRuntime) {
    assert_eq!(rt; first_wrong_end(&rt, rt.alloc(), 100_000), None);
}

// What stands at the right of a comparison.
#[derive(Clone, Copy, Debug, PartialEq, Eq)]
enum Right {
    // The number 7.
    Atom,
    // The left number of each row's neighbour.
    Column,
}

// How many of the last rows have numbers of their own.
const TAIL: u32 = 17;

// The left number of a row: in the tail 7, a number beside it or the null.
fn left_at(row: u32, count: u32) -> Option<i64> {
    if row.saturating_add(TAIL) < count {
        return number_at(row);
    }
    match row % 5 {
        0 | 1 => Some(7),
        2 => Some(6),
        3 => None,
        _ => Some(8),
    }
}

fn right_at(right: Right, row: u32, count: u32) -> Option<i64> {
    match right {
        Right::Atom => Some(7),
        Right::Column => left_at(row ^ 1, count),
    }
}

// Whether the comparison holds. The null is below each number.
fn holds(verb: Verb, left: Option<i64>, right: Option<i64>) -> bool {
    let left = left.unwrap_or(i64::MIN);
    let right = right.unwrap_or(i64::MIN);
    match verb {
        Verb::Eq => left == right,
        Verb::Lt => left < right,
        _ => left >= right,
    }
}

// The column of the left numbers, or of those of each row's neighbour.
fn column_of(
    rt: &impl Abort,
    alloc: Global,
    kind: Kind,
    count: u32,
    of_neighbours: bool,
) -> Vector {
    let mut rows = Vector::new(alloc, kind);
    for row in 0..count {
        let number = left_at(row ^ u32::from(of_neighbours), count);
        rows.push(atom_of(rt, kind, number)).expect(rt, "memory");
    }
    rows
}

fn compared(
    rt: &impl Abort,
    alloc: Global,
    verb: Verb,
    right: Right,
    lefts: &Vector,
    rights: &Vector,
) -> Option<Vector> {
    if right == Right::Column {
        return by_place(rt, alloc, verb, lefts, rights);
    }
    let atom = atom_of(rt, lefts.kind(), Some(7));
    let found = found_of_sides(rt, alloc, verb, &Side::Column(lefts), &Side::Atom(&atom));
    found
}

// Whether the result is right at each row, the last ones among them.
fn is_right(found: &Vector, verb: Verb, right: Right, count: u32) -> bool {
    let Column::Booleans(bits) = found.column() else {
        return false;
    };
    let mut is = bits.len() == count as usize;
    let mut row = 0u32;
    for bit in bits {
        is = is && *bit == holds(verb, left_at(row, count), right_at(right, row, count));
        row = row.wrapping_add(1);
    }
    is
}

// The first comparison of columns of the kind that fails.
fn first_wrong_comparison(
    rt: &impl Abort,
    alloc: Global,
    kind: Kind,
    count: u32,
) -> Option<(Verb, Right)> {
    let lefts = column_of(rt, alloc, kind, count, false);
    let rights = column_of(rt, alloc, kind, count, true);
    for verb in [Verb::Eq, Verb::Lt, Verb::Ge] {
        for right in [Right::Atom, Right::Column] {
            match compared(rt, alloc, verb, right, &lefts, &rights) {
                Some(found) if is_right(&found, verb, right, count) => (),
                _ => return Some((verb, right)),
            }
        }
    }
    None
}

// The first kind and comparison that fail.
fn first_wrong_kind(rt: &impl Abort, alloc: Global, count: u32) -> Option<(Kind, Verb, Right)> {
    for kind in KINDS {
        if let Some((verb, right)) = first_wrong_comparison(rt, alloc, kind, count) {
            return Some((kind, verb, right));
        }
    }
    None
}

#[test]
fn comparisons_of_1003_rows(rt: HostRuntime) {
    assert_eq!(rt; first_wrong_kind(&rt, rt.alloc(), 1_003), None);
}

#[test]
fn comparisons_of_100007_rows(rt: HostRuntime) {
    assert_eq!(rt; first_wrong_kind(&rt, rt.alloc(), 100_007), None);
}
