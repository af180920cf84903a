//! The verbs over 1,000 and 100,000 symbols of more than eight bytes, against what each row's number says.

use crate::table_test::{by_place, is_same};
use q_matching::{is_in, is_like, is_within};
use q_unary::unary;
use q_values::{Atom, Column, Kind, Sym, Vector};
use q_verbs::{Side, Verb, Verb1, result_kind, result_kind1};
use std::alloc::Global;
use std::process::Abort;

// Where the digits of a name stand. Names of one family stand in the order of their numbers.
#[derive(Clone, Copy, Debug)]
enum Family {
    // Three digits, and letters up to 5 to 20 bytes.
    DigitsFirst,
    // Eight letters, and three digits.
    DigitsLast,
}

// The names of a column are those of the numbers below this one.
const NAMES: u32 = 101;

// The number of a row, of which the first 101 are all different.
fn number_at(row: u32, step: u32) -> u32 {
    (u64::from(row) * u64::from(step) % u64::from(NAMES)) as u32
}

fn name_of(rt: &impl Abort, alloc: Global, family: Family, number: u32) -> Sym {
    let digit = |d: u32| b'0' + (d % 10) as u8;
    let digits = [digit(number / 100), digit(number / 10), digit(number)];
    let mut bytes = *b"abcdefghijklmnopqrst";
    let (from, length) = match family {
        Family::DigitsFirst => (0, 5 + (number % 16) as usize),
        Family::DigitsLast => (8, 11),
    };
    bytes[from..][..3].copy_from_slice(&digits);
    Sym::of(alloc, &bytes[..length]).expect(rt, "a symbol")
}

fn rows_of(rt: &impl Abort, alloc: Global, family: Family, count: u32, step: u32) -> Vector {
    let mut rows = Vector::new(alloc, Kind::Symbol);
    for row in 0..count {
        let name = name_of(rt, alloc, family, number_at(row, step));
        rows.push(Atom::Symbol(name)).expect(rt, "memory");
    }
    rows
}

// A test of the names of a row, in two columns or in one.
#[derive(Clone, Copy, Debug)]
enum Case {
    // The two are one name.
    Same,
    // The first stands before the second.
    Below,
    // Among the first three names.
    Few,
    // Among the first fifty names.
    Many,
    // Like a pattern that the names from 40 to 49 match.
    Like,
    // From name 20 to name 60.
    Between,
}

const CASES: [Case; 6] = [
    Case::Same,
    Case::Below,
    Case::Few,
    Case::Many,
    Case::Like,
    Case::Between,
];

fn is_expected(case: Case, x: u32, y: u32) -> bool {
    match case {
        Case::Same => x == y,
        Case::Below => x < y,
        Case::Few => x < 3,
        Case::Many => x < 50,
        Case::Like => x / 10 == 4,
        Case::Between => 20 <= x && x <= 60,
    }
}

fn pattern_of(family: Family) -> &'static [u8] {
    match family {
        Family::DigitsFirst => b"04*",
        Family::DigitsLast => b"*h04?",
    }
}

fn among(rt: &impl Abort, alloc: Global, rows: &Vector, items: &Vector) -> Option<Vector> {
    result_kind(Verb::In, rows.kind(), items.kind())?;
    let found = is_in(alloc, &Side::Column(rows), &Side::Column(items)).expect(rt, "memory");
    Some(found)
}

fn like(rt: &impl Abort, alloc: Global, rows: &Vector, pattern: &[u8]) -> Option<Vector> {
    if rows.kind() != Kind::Symbol {
        return None;
    }
    let found = is_like(alloc, &Side::Column(rows), pattern).expect(rt, "memory");
    Some(found)
}

fn between(rt: &impl Abort, alloc: Global, rows: &Vector, low: Sym, high: Sym) -> Option<Vector> {
    result_kind(Verb::Within, rows.kind(), Kind::Symbol)?;
    let found = is_within(
        alloc,
        &Side::Column(rows),
        &Atom::Symbol(low),
        &Atom::Symbol(high),
    )
    .expect(rt, "memory");
    Some(found)
}

fn found_of(
    rt: &impl Abort,
    alloc: Global,
    family: Family,
    rows: &Vector,
    others: &Vector,
    case: Case,
) -> Option<Vector> {
    match case {
        Case::Same => by_place(rt, alloc, Verb::Eq, rows, others),
        Case::Below => by_place(rt, alloc, Verb::Lt, rows, others),
        Case::Few => among(rt, alloc, rows, &rows_of(rt, alloc, family, 3, 1)),
        Case::Many => among(rt, alloc, rows, &rows_of(rt, alloc, family, 50, 1)),
        Case::Like => like(rt, alloc, rows, pattern_of(family)),
        Case::Between => between(
            rt,
            alloc,
            rows,
            name_of(rt, alloc, family, 20),
            name_of(rt, alloc, family, 60),
        ),
    }
}

// Whether the result is right at each row.
fn is_right(found: &Vector, count: u32, case: Case) -> bool {
    let Column::Booleans(bits) = found.column() else {
        return false;
    };
    let mut right = bits.len() == count as usize;
    let mut row = 0u32;
    for bit in bits {
        right = right && *bit == is_expected(case, number_at(row, 7), number_at(row, 12));
        row = row.wrapping_add(1);
    }
    right
}

// The first names and the first test that fail.
fn first_failure(rt: &impl Abort, alloc: Global, count: u32) -> Option<(Family, Case)> {
    for family in [Family::DigitsFirst, Family::DigitsLast] {
        let rows = rows_of(rt, alloc, family, count, 7);
        let others = rows_of(rt, alloc, family, count, 12);
        for case in CASES {
            match found_of(rt, alloc, family, &rows, &others, case) {
                Some(found) if is_right(&found, count, case) => (),
                _ => return Some((family, case)),
            }
        }
    }
    None
}

#[test]
fn a_thousand_rows(rt: HostRuntime) {
    assert!(rt; first_failure(&rt, rt.alloc(), 1_000).is_none());
}

#[test]
fn a_hundred_thousand_rows(rt: HostRuntime) {
    assert!(rt; first_failure(&rt, rt.alloc(), 100_000).is_none());
}

// Whether each index of the order comes after the one before it, by the row's number and then by the index, and there are
// as many as rows: then each row stands in it once.
fn is_ascending(order: &[usize], count: u32) -> bool {
    let mut last = None;
    for index in order {
        if *index >= count as usize {
            return false;
        }
        let row = *index as u32;
        let next = Some((number_at(row, 7), row));
        if next <= last {
            return false;
        }
        last = next;
    }
    order.len() == count as usize
}

#[test]
fn order_of_a_hundred_thousand_rows(rt: HostRuntime) {
    for family in [Family::DigitsFirst, Family::DigitsLast] {
        let rows = rows_of(&rt, rt.alloc(), family, 100_000, 7);
        let order = rows.order(rt.alloc()).expect(&rt, "memory");
        assert!(rt; is_ascending(order.as_slice(), 100_000));
    }
}

#[test]
fn distinct_of_a_hundred_thousand_rows(rt: HostRuntime) {
    for family in [Family::DigitsFirst, Family::DigitsLast] {
        let rows = rows_of(&rt, rt.alloc(), family, 100_000, 7);
        assert!(rt; result_kind1(Verb1::Distinct, rows.kind()).is_some());
        let found = unary(rt.alloc(), Verb1::Distinct, &rows).expect(&rt, "memory");
        assert!(rt; is_same(&found, &rows_of(&rt, rt.alloc(), family, NAMES, 7)));
    }
}
