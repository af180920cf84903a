//! Joins of 100,000 rows on 100,000, whose answers are known by how the rows are made.

use crate::compared::generated::Sides;
use crate::compared::joining::{joined, parsed};
use crate::compared::row::{NULL, Row};
use crate::compared::tables::make_tables;
use q_values::{Column, TableValue};
use qsql_request::Request;
use schema_text::built_in_schema;
use std::alloc::Global;
use std::process::Abort;

// How many rows each side has.
const COUNT: u32 = 100_000;

const BY_SYM: &[u8] = b"aj[`sym`time;select time,sym from trade;select time,sym,bid from quote]";

// One of four letters.
fn letter(number: u32) -> i64 {
    i64::from(b'a').wrapping_add(i64::from(number % 4))
}

fn row(time: u32, sym: i64, number: u32) -> Row {
    Row {
        date: 8767,
        time: i64::from(time),
        sym,
        number: i64::from(number),
    }
}

// Eight quotes at each time, two of each symbol, numbered in order; a trade of each symbol twice at each time.
fn tied_sides(rt: &impl Abort, alloc: Global) -> Sides {
    let mut left = Vec::new(alloc);
    let mut right = Vec::new(alloc);
    for i in 0..COUNT {
        left.push(row(i / 8, letter(i), 0)).expect(rt, "memory");
        right.push(row(i / 8, letter(i), i)).expect(rt, "memory");
    }
    Sides { left, right }
}

// The second quote of the symbol at each trade's time.
fn tied_answers(rt: &impl Abort, alloc: Global) -> Vec<i64> {
    let mut wanted = Vec::new(alloc);
    for i in 0..COUNT {
        wanted
            .push(i64::from(i / 8 * 8 + 4 + i % 4))
            .expect(rt, "memory");
    }
    wanted
}

// A quote at each time, in no order, whose bid is its time. A trade has the symbol of the quote three times before.
fn mixed_sides(rt: &impl Abort, alloc: Global) -> Sides {
    let mut left = Vec::new(alloc);
    let mut right = Vec::new(alloc);
    for i in 0..COUNT {
        let time = (u64::from(i) * 7919 % u64::from(COUNT)) as u32;
        left.push(row(i, letter(i + 1), 0)).expect(rt, "memory");
        right
            .push(row(time, letter(time), time))
            .expect(rt, "memory");
    }
    Sides { left, right }
}

// The bid three times before each trade, where there is one.
fn mixed_answers(rt: &impl Abort, alloc: Global) -> Vec<i64> {
    let mut wanted = Vec::new(alloc);
    for i in 0..COUNT {
        wanted
            .push(match i.checked_sub(3) {
                Some(time) => i64::from(time),
                None => NULL,
            })
            .expect(rt, "memory");
    }
    wanted
}

fn has_bids(table: &TableValue, wanted: &[i64]) -> bool {
    let Some(bids) = table.columns.as_slice().last() else {
        return false;
    };
    match bids.column() {
        Column::Longs(_, items) => items.as_slice() == wanted,
        _ => false,
    }
}

// Stops where the join by symbol and time has other bids.
fn assert_bids(rt: &impl Abort, alloc: Global, sides: &Sides, wanted: &[i64]) {
    let schema = built_in_schema(alloc).expect(rt, "memory");
    let tables = make_tables(rt, alloc, sides);
    let request = parsed(rt, alloc, BY_SYM);
    let Request::Aj(query) = &request else {
        panic!(rt; "no join");
    };
    let found = joined(rt, alloc, query, &schema, &tables);
    assert!(rt; has_bids(&found, wanted), "other bids");
}

#[test]
fn equal_times(rt: HostRuntime) {
    let alloc = rt.alloc();
    assert_bids(
        &rt,
        alloc,
        &tied_sides(&rt, alloc),
        &tied_answers(&rt, alloc),
    )
}

#[test]
fn quotes_in_no_order(rt: HostRuntime) {
    let alloc = rt.alloc();
    assert_bids(
        &rt,
        alloc,
        &mixed_sides(&rt, alloc),
        &mixed_answers(&rt, alloc),
    )
}
