//! The texts, timed in nanoseconds: one line for each time, with a name for the text, its nanoseconds and the sum of its
//! result.

use crate::made::{self, Spread};
use anyhow::{Result, bail};
use day_rows::Schema;
use q_values::{Atom, Column, Value, Vector};
use qsql_eval::{Rows, Typed, check, eval};
use qsql_parse::parse;
use qsql_request::Request;
use schema_text::built_in_schema;
use std::alloc::Global;
use std::rt::Clock;
use std::time::Instant;

// How often each text is timed.
const ROUNDS: u32 = 5;

// Each text over rows with 100 symbols, and its name in the output.
const TEXTS: [(&str, &str); 7] = [
    ("sum_size", "exec sum size from trade"),
    (
        "one_symbol",
        "select from trade where sym=`S42,time within 0D10 0D10:30",
    ),
    (
        "count_two",
        "exec count i from trade where size>500,price<10250",
    ),
    ("range", "exec max price-min price from trade"),
    ("last_by_sym", "select last price by sym from trade"),
    ("count_by_date", "select count i by date from trade"),
    (
        "bars",
        "select o:first price,h:max price,l:min price,c:last price,sum size by sym,0D00:05 xbar time from trade",
    ),
];

// The text over rows with 100,000 symbols, and its name in the output.
const MANY: (&str, &str) = ("sum_by_many", "select sum size by sym from trade");

fn number_of(atom: &Atom) -> i64 {
    match atom {
        Atom::Integer(x) => i64::from(*x),
        Atom::Date(x) => i64::from(*x),
        Atom::Long(x) => *x,
        Atom::Timespan(x) => *x,
        _ => 0,
    }
}

fn sum_of(vector: &Vector) -> i64 {
    let mut sum = 0i64;
    match vector.column() {
        Column::Integers(_, items) => {
            for x in items {
                sum = sum.wrapping_add(i64::from(*x));
            }
        }
        Column::Longs(_, items) => {
            for x in items {
                sum = sum.wrapping_add(*x);
            }
        }
        _ => {}
    }
    sum
}

fn sum_of_columns(columns: &[Vector]) -> i64 {
    let mut sum = 0i64;
    for column in columns {
        sum = sum.wrapping_add(sum_of(column));
    }
    sum
}

// The sum of all numbers of a result; symbols and the keys of groups count for nothing.
fn total(value: &Value) -> i64 {
    match value {
        Value::Atom(atom) => number_of(atom),
        Value::Vector(vector) => sum_of(vector),
        Value::Table(table) => sum_of_columns(table.columns.as_slice()),
        Value::Keyed(keyed) => sum_of_columns(keyed.values.columns.as_slice()),
        _ => 0,
    }
}

fn query_timed<R: Clock + Print>(
    rt: &R,
    alloc: Global,
    name: &str,
    typed: &Typed<'_>,
    rows: &Rows,
) -> Result<()> {
    for _ in 0..ROUNDS {
        if !typed.fits(alloc, rows)? {
            bail!("rows without the columns");
        }
        let start = Instant::now(rt)?;
        let value = eval(alloc, typed, rows)?;
        let nanos = start.elapsed(rt)?.as_nanos();
        let sum = total(&value);
        println!(rt; "eval {name} {nanos} {sum}")?;
    }
    Ok(())
}

fn text_timed<R: Clock + Print>(
    rt: &R,
    alloc: Global,
    schema: &Schema,
    rows: &Rows,
    name: &str,
    text: &str,
) -> Result<()> {
    let Ok(request) = parse(alloc, text.as_bytes()) else {
        bail!("no text");
    };
    let Request::Query(query) = &request else {
        bail!("no query");
    };
    match check(alloc, query, schema) {
        Ok(typed) => query_timed(rt, alloc, name, &typed, rows),
        Err(_) => bail!("no such column"),
    }
}

fn texts_timed<R: Clock + Print>(rt: &R, alloc: Global, schema: &Schema, count: u32) -> Result<()> {
    let rows = made::rows(alloc, count, Spread::Hundred)?;
    for (name, text) in TEXTS {
        text_timed(rt, alloc, schema, &rows, name, text)?;
    }
    Ok(())
}

/// Times each text over `count` rows.
pub fn report<R: Clock + Print + AllocGlobal>(rt: &R, count: u32) -> Result<()> {
    let alloc = rt.alloc();
    let schema = built_in_schema(alloc)?;
    texts_timed(rt, alloc, &schema, count)?;
    let rows = made::rows(alloc, count, Spread::Many)?;
    text_timed(rt, alloc, &schema, &rows, MANY.0, MANY.1)
}
