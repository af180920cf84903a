//! `min` and `max` of sums and differences of 1,000 and 100,001 longs, against the result at each row worked out alone.
ghost use Rattle.std.specs.Prelude.{IsTrue};
ghost use Rattle.q_verbs.specs.Aggregates.{is_aggregate};
ghost use Rattle.q_verbs.specs.Places.{is_by_place};
ghost use Rattle.q_verbs.specs.Sides.{AreBeside};

use crate::multiples::number_at;
use q_fused::aggregate_of;
use q_values::{Atom, Column, LongKind, Vector};
use q_verbs::{Side, Verb, Verb1, result_kind, result_kind1};
use std::alloc::Global;
use std::process::Abort;

// What stands beside the column: atoms, of which one is the null, and a column.
const BESIDE: [Option<i64>; 6] = [
    Some(0),
    Some(-5),
    Some(1_000_000),
    Some(i64::MAX),
    Some(i64::MIN),
    None,
];

// The number beside a row's own.
fn other_at(row: u32, atom: Option<i64>) -> i64 {
    match atom {
        Some(number) => number,
        None => number_at(row.wrapping_mul(7)),
    }
}

// The verb's result for two numbers, wrapped; the null for a null.
fn result_of(inner: Verb, x: i64, y: i64) -> i64 {
    if x == i64::MIN || y == i64::MIN {
        i64::MIN
    } else if inner == Verb::Add {
        x.wrapping_add(y)
    } else {
        x.wrapping_sub(y)
    }
}

// The least or the greatest of the results but the nulls, or the end of the kind.
fn wanted_of(outer: Verb1, inner: Verb, count: u32, atom: Option<i64>) -> i64 {
    let mut best = if outer == Verb1::Min {
        i64::MAX
    } else {
        -i64::MAX
    };
    for row in 0..count {
        let result = result_of(inner, number_at(row), other_at(row, atom));
        if result != i64::MIN && outer == Verb1::Min {
            best = best.min(result);
        } else if result != i64::MIN {
            best = best.max(result);
        }
    }
    best
}

fn longs(rt: &impl Abort, alloc: Global, count: u32, step: u32) -> Vector {
    let mut rows = Vec::new(alloc);
    for row in 0..count {
        rows.push(number_at(row.wrapping_mul(step)))
            .expect(rt, "memory");
    }
    Vector::from_column(Column::Longs(LongKind::Long, rows))
}

fn found_of(
    rt: &impl Abort,
    alloc: Global,
    outer: Verb1,
    inner: Verb,
    left: &Side<'_>,
    right: &Side<'_>,
) -> Option<Atom>
    requires aggregate { IsTrue (is_aggregate outer) }
    requires verb { IsTrue (is_by_place inner) }
    requires beside { AreBeside left.now right.now }
{
    let kind = result_kind(inner, left.kind(), right.kind())?;
    if result_kind1(outer, kind).is_none() {
        return None;
    }
    let found = aggregate_of(alloc, outer, inner, left, right).expect(rt, "memory");
    Some(found)
}

// Whether the result is right for the column and what stands beside it.
fn is_right(
    rt: &impl Abort,
    alloc: Global,
    outer: Verb1,
    inner: Verb,
    count: u32,
    atom: Option<i64>,
) -> bool
    requires aggregate { IsTrue (is_aggregate outer) }
    requires verb { IsTrue (is_by_place inner) }
{
    let rows = longs(rt, alloc, count, 1);
    let others = longs(rt, alloc, count, 7);
    let found = match atom {
        Some(number) => {
            let number = Atom::Long(number);
            let left = Side::Column(&rows);
            found_of(rt, alloc, outer, inner, &left, &Side::Atom(&number))
        }
        None if rows.len() == others.len() => {
            let left = Side::Column(&rows);
            found_of(rt, alloc, outer, inner, &left, &Side::Column(&others))
        }
        None => None,
    };
    match found {
        Some(Atom::Long(number)) => number == wanted_of(outer, inner, count, atom),
        _ => false,
    }
}

fn are_right(rt: &impl Abort, alloc: Global, count: u32) -> bool {
    let mut right = true;
    for atom in BESIDE {
        right = right
            && is_right(rt, alloc, Verb1::Min, Verb::Add, count, atom)
            && is_right(rt, alloc, Verb1::Min, Verb::Sub, count, atom)
            && is_right(rt, alloc, Verb1::Max, Verb::Add, count, atom)
            && is_right(rt, alloc, Verb1::Max, Verb::Sub, count, atom);
    }
    right
}

#[test]
fn a_thousand_rows(rt: HostRuntime) {
    assert!(rt; are_right(&rt, rt.alloc(), 1_000));
}

#[test]
fn a_hundred_thousand_rows(rt: HostRuntime) {
    assert!(rt; are_right(&rt, rt.alloc(), 100_001));
}

// An atom beside a column, and an aggregate and a verb for which the column is made.
#[test]
fn others(rt: HostRuntime) {
    let rows = longs(&rt, rt.alloc(), 1_000, 1);
    let hundred = Atom::Long(100);
    let left = Side::Atom(&hundred);
    let found = found_of(
        &rt,
        rt.alloc(),
        Verb1::Max,
        Verb::Sub,
        &left,
        &Side::Column(&rows),
    );
    // The greatest of 100 minus each number, wrapped to 64 bits.
    let mut greatest = -i64::MAX;
    for row in 0..1_000 {
        if number_at(row) != i64::MIN {
            greatest = greatest.max(100i64.wrapping_sub(number_at(row)));
        }
    }
    assert!(rt; matches!(found, Some(Atom::Long(number)) if number == greatest));
    let found = found_of(
        &rt,
        rt.alloc(),
        Verb1::Count,
        Verb::Mul,
        &left,
        &Side::Column(&rows),
    );
    assert!(rt; matches!(found, Some(Atom::Long(1_000))));
}
