//! The verbs over 1,000 and 100,000 rows of each width, against what each row's number says.

use crate::table_test::{atom_of_number, is_same, null_number, vector_of_atom};
use q_matching::{is_in, is_within};
use q_unary::{aggregate, unary};
use q_values::{Atom, Column, Kind, Vector};
use q_verbs::{Side, Verb, Verb1, result_kind, result_kind1};
use std::alloc::Global;
use std::process::Abort;

// A test of the numbers of a column.
#[derive(Clone, Copy, Debug)]
enum Case {
    // Among three numbers.
    Few,
    // Among the even numbers from -40 to 40 and the null.
    Many,
    // From -10 to 10.
    Between,
    // From the null to 5.
    FromNull,
}

// The number of a row: from -50 to 50, but the null for 13.
pub(crate) fn number_at(row: u32) -> Option<i64> {
    let rest = (u64::from(row) * 7_919 % 101) as u8;
    match i64::from(rest) - 50 {
        13 => None,
        number => Some(number),
    }
}

fn is_expected(case: Case, number: Option<i64>) -> bool {
    match (case, number) {
        (Case::Few, Some(x)) => x == -50 || x == 7 || x == 50,
        (Case::Many, Some(x)) => x % 2 == 0 && -40 <= x && x <= 40,
        (Case::Between, Some(x)) => -10 <= x && x <= 10,
        (Case::FromNull, Some(x)) => x <= 5,
        (Case::Many | Case::FromNull, None) => true,
        (Case::Few | Case::Between, None) => false,
    }
}

pub(crate) fn atom_of(rt: &impl Abort, kind: Kind, number: Option<i64>) -> Atom {
    match atom_of_number(kind, number.unwrap_or(null_number(kind))) {
        Some(atom) => atom,
        None => panic!(rt; "no number of the kind"),
    }
}

pub(crate) fn rows_of(rt: &impl Abort, alloc: Global, kind: Kind, count: u32) -> Vector {
    let mut rows = Vector::new(alloc, kind);
    for row in 0..count {
        rows.push(atom_of(rt, kind, number_at(row)))
            .expect(rt, "memory");
    }
    rows
}

// The items of `in`.
fn items_of(rt: &impl Abort, alloc: Global, kind: Kind, case: Case) -> Vector {
    let mut items = Vector::new(alloc, kind);
    for number in -50..51i64 {
        if is_expected(case, Some(number)) {
            items
                .push(atom_of(rt, kind, Some(number)))
                .expect(rt, "memory");
        }
    }
    if is_expected(case, None) {
        items.push(atom_of(rt, kind, None)).expect(rt, "memory");
    }
    items
}

fn among(rt: &impl Abort, alloc: Global, rows: &Vector, kind: Kind, case: Case) -> Vector {
    let items = items_of(rt, alloc, kind, case);
    let left = Side::Column(rows);
    let right = Side::Column(&items);
    if result_kind(Verb::In, left.kind(), right.kind()).is_none() {
        panic!(rt; "no such kinds");
    }
    let found = is_in(alloc, &left, &right).expect(rt, "memory");
    found
}

fn between(rt: &impl Abort, alloc: Global, rows: &Vector, low: &Atom, high: &Atom) -> Vector {
    let left = Side::Column(rows);
    if high.kind() != low.kind() || result_kind(Verb::Within, left.kind(), low.kind()).is_none() {
        panic!(rt; "no such kinds");
    }
    let found = is_within(alloc, &left, low, high).expect(rt, "memory");
    found
}

fn found_of(rt: &impl Abort, alloc: Global, rows: &Vector, kind: Kind, case: Case) -> Vector {
    match case {
        Case::Few | Case::Many => among(rt, alloc, rows, kind, case),
        Case::Between => between(
            rt,
            alloc,
            rows,
            &atom_of(rt, kind, Some(-10)),
            &atom_of(rt, kind, Some(10)),
        ),
        Case::FromNull => between(
            rt,
            alloc,
            rows,
            &atom_of(rt, kind, None),
            &atom_of(rt, kind, Some(5)),
        ),
    }
}

// Whether the result is right at each row.
fn is_right(found: &Vector, count: u32, case: Case) -> bool {
    let Column::Booleans(bits) = found.column() else {
        return false;
    };
    let mut right = bits.len() == count as usize;
    let mut row = 0u32;
    for bit in bits {
        right = right && *bit == is_expected(case, number_at(row));
        row = row.wrapping_add(1);
    }
    right
}

// The kinds of a column, and of the items and the ends beside it.
const KINDS: [(Kind, Kind); 8] = [
    (Kind::Short, Kind::Short),
    (Kind::Short, Kind::Long),
    (Kind::Integer, Kind::Integer),
    (Kind::Integer, Kind::Long),
    (Kind::Long, Kind::Long),
    (Kind::Long, Kind::Short),
    (Kind::Date, Kind::Date),
    (Kind::Timespan, Kind::Timespan),
];

const CASES: [Case; 4] = [Case::Few, Case::Many, Case::Between, Case::FromNull];

// The first kinds at which a case fails.
fn first_failure(rt: &impl Abort, alloc: Global, count: u32) -> Option<(Kind, Kind, Case)> {
    for (kind, other) in KINDS {
        let rows = rows_of(rt, alloc, kind, count);
        for case in CASES {
            let found = found_of(rt, alloc, &rows, other, case);
            if !is_right(&found, count, case) {
                return Some((kind, other, case));
            }
        }
    }
    None
}

#[test]
fn a_thousand_rows(rt: HostRuntime) {
    assert!(rt; first_failure(&rt, rt.alloc(), 1_000).is_none());
}

#[test]
fn a_hundred_thousand_rows(rt: HostRuntime) {
    assert!(rt; first_failure(&rt, rt.alloc(), 100_000).is_none());
}

fn is_atom(rt: &impl Abort, alloc: Global, found: Atom, wanted: Atom) -> bool {
    let some = vector_of_atom(rt, alloc, found);
    let other = vector_of_atom(rt, alloc, wanted);
    is_same(&some, &other)
}

// Whether the least, the greatest and the numbers negated are those of the rows.
fn ends_are_right(rt: &impl Abort, alloc: Global, kind: Kind) -> bool {
    let rows = rows_of(rt, alloc, kind, 100_000);
    if result_kind1(Verb1::Min, rows.kind()).is_none()
        || result_kind1(Verb1::Neg, rows.kind()).is_none()
    {
        return false;
    }
    let least = aggregate(alloc, Verb1::Min, &rows).expect(rt, "memory");
    let negated = unary(alloc, Verb1::Neg, &rows).expect(rt, "memory");
    if result_kind1(Verb1::Max, negated.kind()).is_none() {
        return false;
    }
    let greatest = aggregate(alloc, Verb1::Max, &negated).expect(rt, "memory");
    let low = is_atom(rt, alloc, least, atom_of(rt, kind, Some(-50)));
    let high = is_atom(rt, alloc, greatest, atom_of(rt, kind, Some(50)));
    low && high
}

#[test]
fn ends_of_a_hundred_thousand_rows(rt: HostRuntime) {
    for kind in [Kind::Short, Kind::Integer, Kind::Long, Kind::Timespan] {
        assert!(rt; ends_are_right(&rt, rt.alloc(), kind));
    }
}
