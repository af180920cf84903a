//! Filters of few rows and of many.

use crate::{count_where, places_where};
use q_values::{Column, LongKind, Vector};
use std::alloc::{AllocError, Global};
use std::test::Fail;

/// Booleans, each as its digit, and the places at which they hold.
const ROWS: [(&[u8], &[usize]); 7] = [
    (b"", &[]),
    (b"0", &[]),
    (b"1", &[0]),
    (b"0110", &[1, 2]),
    (b"10001", &[0, 4]),
    (b"11100", &[0, 1, 2]),
    (b"00011", &[3, 4]),
];

fn booleans_of(alloc: Global, digits: &[u8]) -> Result<Vector, AllocError> {
    let mut bits = Vec::new(alloc);
    for digit in digits {
        bits.push(*digit == b'1')?;
    }
    Ok(Vector::from_column(Column::Booleans(bits)))
}

#[test]
fn few_rows(rt: HostRuntime) -> Result<(), Fail> {
    for (digits, wanted) in ROWS {
        let booleans = booleans_of(rt.alloc(), digits)?;
        if booleans.kind() == q_values::Kind::Boolean {
            let places = places_where(rt.alloc(), &booleans)?;
            assert!(rt; places.as_slice() == wanted, "{wanted:?}");
            assert!(rt; count_where(&booleans) == wanted.len(), "{wanted:?}");
        }
    }
    Ok(())
}

// Booleans of which every tenth holds.
fn every_tenth(alloc: Global, count: i64) -> Result<Vector, AllocError> {
    let mut bits = Vec::new(alloc);
    for i in 0..count {
        bits.push(i % 10 == 3)?;
    }
    Ok(Vector::from_column(Column::Booleans(bits)))
}

// Every tenth of many rows is kept.
fn kept_of_many(alloc: Global, count: i64) -> Result<Vector, q_values::NoMemory> {
    let mut items = Vec::new(alloc);
    for i in 0..count {
        items.push(i)?;
    }
    let booleans = every_tenth(alloc, count)?;
    let longs = Vector::from_column(Column::Longs(LongKind::Long, items));
    if longs.len() != booleans.len() || booleans.kind() != q_values::Kind::Boolean {
        return Ok(longs);
    }
    let places = places_where(alloc, &booleans)?;
    let kept = longs.gather(alloc, &places)?;
    Ok(kept)
}

#[test]
fn many_rows(rt: HostRuntime) -> Result<(), Fail> {
    let kept = kept_of_many(rt.alloc(), 100_000)?;
    assert_eq!(rt; kept.len(), 10_000);
    match kept.column() {
        Column::Longs(_, items) => {
            assert_eq!(rt; items.first(), Some(&3));
            assert_eq!(rt; items.last(), Some(&99_993));
        }
        _ => return Err(Fail::from("longs are wanted")),
    }
    Ok(())
}

#[test]
fn count_of_many_rows(rt: HostRuntime) -> Result<(), Fail> {
    let booleans = every_tenth(rt.alloc(), 100_000)?;
    if booleans.kind() == q_values::Kind::Boolean {
        assert_eq!(rt; count_where(&booleans), 10_000);
    }
    Ok(())
}
