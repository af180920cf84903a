//! The join, timed in nanoseconds: one line for each time.

use crate::made;
use anyhow::{Result, bail};
use asof_join::{AjTyped, aj, check_aj, table_of_side};
use q_values::{Column, TableValue};
use qsql_eval::Rows;
use qsql_parse::parse;
use qsql_request::Request;
use schema_text::built_in_schema;
use std::alloc::Global;
use std::rt::Clock;
use std::time::Instant;

// How often the join is timed.
const ROUNDS: u32 = 5;

const TEXT: &str = "aj[`sym`time;select time,sym,price from trade;select time,sym,bid from quote]";

// The sum of these numbers that aren't null, each times the number of its row.
fn weighted(items: &[i64]) -> i64 {
    let mut sum = 0i64;
    let mut row = 0i64;
    for item in items {
        row = row.wrapping_add(1);
        if *item != i64::MIN {
            sum = sum.wrapping_add(item.wrapping_mul(row));
        }
    }
    sum
}

// That sum for the last column, which has the bids.
fn total(table: &TableValue) -> i64 {
    match table.columns.as_slice().last() {
        Some(bids) => match bids.column() {
            Column::Longs(_, items) => weighted(items),
            _ => 0,
        },
        None => 0,
    }
}

fn join_timed<R: Clock + Print>(
    rt: &R,
    alloc: Global,
    typed: &AjTyped<'_>,
    trades: &Rows,
    quotes: &Rows,
) -> Result<()> {
    let left = typed.left();
    let right = typed.right();
    if !left.fits(alloc, trades)? || !right.fits(alloc, quotes)? {
        bail!("rows without the columns");
    }
    let trades = table_of_side(alloc, &left, trades)?;
    let quotes = table_of_side(alloc, &right, quotes)?;
    for _ in 0..ROUNDS {
        let start = Instant::now(rt)?;
        let table = aj(alloc, typed, &trades, &quotes)?;
        let nanos = start.elapsed(rt)?.as_nanos();
        let sum = total(&table);
        println!(rt; "eval aj {nanos} {sum}")?;
    }
    Ok(())
}

/// Times the join of `trades` trades on `quotes` quotes.
pub fn report<R: Clock + Print + AllocGlobal>(rt: &R, trades: u32, quotes: u32) -> Result<()> {
    let alloc = rt.alloc();
    let trades = made::trades(alloc, trades)?;
    let quotes = made::quotes(alloc, quotes)?;
    let schema = built_in_schema(alloc)?;
    let Ok(request) = parse(alloc, TEXT.as_bytes()) else {
        bail!("no text");
    };
    let Request::Aj(query) = &request else {
        bail!("no join");
    };
    match check_aj(alloc, query, &schema) {
        Ok(typed) => join_timed(rt, alloc, &typed, &trades, &quotes),
        Err(_) => bail!("no such column"),
    }
}
