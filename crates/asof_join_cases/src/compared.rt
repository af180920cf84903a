//! Generated pairs of tables, joined by both.

mod generated;
mod joining;
mod large;
mod row;
mod slow;
mod tables;

use crate::compared::generated::{Sides, make_sides};
use crate::compared::joining::{joined, parsed};
use crate::compared::row::{Field, NULL};
use crate::compared::slow::{items_as_of, items_of};
use crate::compared::tables::make_tables;
use day_rows::Schema;
use q_shown::{letter, push_value};
use q_values::{Kind, Value};
use qsql_request::{AjQuery, Request};
use schema_text::built_in_schema;
use std::alloc::Global;
use std::process::Abort;

// How many pairs of tables each text is asked of.
const PAIRS: u64 = 1000;

// A text, its keys, and the columns of its answer: those of the left side, and those of the right one.
struct Case {
    text: &'static [u8],
    keys: &'static [Field],
    left: &'static [(&'static [u8], Field)],
    right: &'static [(&'static [u8], Field)],
}

const CASES: [Case; 10] = [
    Case {
        text: b"aj[`time;select time,sym,price from trade;select time,s:sym,bid from quote]",
        keys: &[Field::Moment],
        left: &[
            (b"time", Field::Moment),
            (b"sym", Field::Letter),
            (b"price", Field::Number),
        ],
        right: &[(b"s", Field::Letter), (b"bid", Field::Number)],
    },
    Case {
        text: b"aj[`sym;select sym,price from trade;select sym,bid,d:date from quote]",
        keys: &[Field::Letter],
        left: &[(b"sym", Field::Letter), (b"price", Field::Number)],
        right: &[(b"bid", Field::Number), (b"d", Field::Day)],
    },
    Case {
        text: b"aj[`x;select x:price,date from trade;select x:bid,t:time from quote]",
        keys: &[Field::Number],
        left: &[(b"x", Field::Number), (b"date", Field::Day)],
        right: &[(b"t", Field::Moment)],
    },
    Case {
        text: b"aj[`sym`time;select time,sym,price from trade;select time,sym,bid from quote]",
        keys: &[Field::Letter, Field::Moment],
        left: &[
            (b"time", Field::Moment),
            (b"sym", Field::Letter),
            (b"price", Field::Number),
        ],
        right: &[(b"bid", Field::Number)],
    },
    Case {
        text: b"aj[`sym`time;select date,time,sym from trade;select date,sym,time,bid from quote]",
        keys: &[Field::Letter, Field::Moment],
        left: &[
            (b"date", Field::Day),
            (b"time", Field::Moment),
            (b"sym", Field::Letter),
        ],
        right: &[(b"bid", Field::Number)],
    },
    Case {
        text: b"aj[`time`sym;select sym,time from trade;select sym,time,bid,d:date from quote]",
        keys: &[Field::Moment, Field::Letter],
        left: &[(b"sym", Field::Letter), (b"time", Field::Moment)],
        right: &[(b"bid", Field::Number), (b"d", Field::Day)],
    },
    Case {
        text: b"aj[`date`x;select date,x:price from trade;select date,x:bid,s:sym from quote]",
        keys: &[Field::Day, Field::Number],
        left: &[(b"date", Field::Day), (b"x", Field::Number)],
        right: &[(b"s", Field::Letter)],
    },
    Case {
        text: b"aj[`date`sym`time;select date,time,sym,price from trade;select date,time,sym,bid from quote]",
        keys: &[Field::Day, Field::Letter, Field::Moment],
        left: &[
            (b"date", Field::Day),
            (b"time", Field::Moment),
            (b"sym", Field::Letter),
            (b"price", Field::Number),
        ],
        right: &[(b"bid", Field::Number)],
    },
    Case {
        text: b"aj[`sym`time`date;select date,time,sym from trade;select date,time,sym,bid from quote]",
        keys: &[Field::Letter, Field::Moment, Field::Day],
        left: &[
            (b"date", Field::Day),
            (b"time", Field::Moment),
            (b"sym", Field::Letter),
        ],
        right: &[(b"bid", Field::Number)],
    },
    Case {
        text: b"aj[`date`sym`x;select date,sym,x:price from trade;select date,sym,x:bid,t:time from quote]",
        keys: &[Field::Day, Field::Letter, Field::Number],
        left: &[
            (b"date", Field::Day),
            (b"sym", Field::Letter),
            (b"x", Field::Number),
        ],
        right: &[(b"t", Field::Moment)],
    },
];

fn kind_of(field: Field) -> Kind {
    match field {
        Field::Day => Kind::Date,
        Field::Moment => Kind::Timespan,
        Field::Letter => Kind::Symbol,
        Field::Number => Kind::Long,
    }
}

fn push_decimal(rt: &impl Abort, alloc: Global, out: &mut Vec<u8>, number: i64) {
    let text = format!(in alloc; "{number}").expect(rt, "memory");
    out.extend_from_slice(text.as_bytes()).expect(rt, "memory");
}

fn push_item(rt: &impl Abort, alloc: Global, out: &mut Vec<u8>, field: Field, number: i64) {
    match field {
        Field::Letter => match u8::try_from(number) {
            Ok(letter) => out.push(letter).expect(rt, "memory"),
            Err(_) => {},
        },
        Field::Day if number == NULL => push_decimal(rt, alloc, out, i64::from(i32::MIN)),
        _ => push_decimal(rt, alloc, out, number),
    }
}

// Puts a column at the end of a text: its name, the letter of its kind, and its items.
fn push_column(
    rt: &impl Abort,
    alloc: Global,
    out: &mut Vec<u8>,
    name: &[u8],
    field: Field,
    items: &[i64],
) {
    if !out.is_empty() {
        out.extend_from_slice(b" ").expect(rt, "memory");
    }
    out.extend_from_slice(name).expect(rt, "memory");
    out.extend_from_slice(b"=").expect(rt, "memory");
    out.extend_from_slice(letter(kind_of(field)))
        .expect(rt, "memory");
    let mut mark: &[u8] = b"[";
    for number in items {
        out.extend_from_slice(mark).expect(rt, "memory");
        push_item(rt, alloc, out, field, *number);
        mark = b" ";
    }
    let end: &[u8] = if items.is_empty() { b"[]" } else { b"]" };
    out.extend_from_slice(end).expect(rt, "memory");
}

// What the slow program gives.
fn slow_answer(rt: &impl Abort, alloc: Global, case: &Case, sides: &Sides) -> Vec<u8> {
    let mut out = Vec::new(alloc);
    for (name, field) in case.left {
        let items = items_of(rt, alloc, &sides.left, *field);
        push_column(rt, alloc, &mut out, name, *field, &items);
    }
    for (name, field) in case.right {
        let items = items_as_of(rt, alloc, &sides.left, &sides.right, case.keys, *field);
        push_column(rt, alloc, &mut out, name, *field, &items);
    }
    out
}

// What `asof_join` gives.
fn answer(
    rt: &impl Abort,
    alloc: Global,
    query: &AjQuery,
    schema: &Schema,
    sides: &Sides,
) -> Vec<u8> {
    let tables = make_tables(rt, alloc, sides);
    let joined = joined(rt, alloc, query, schema, &tables);
    let mut out = Vec::new(alloc);
    push_value(alloc, &mut out, &Value::Table(joined)).expect(rt, "memory");
    out
}

// Stops at the first pair of tables of which both give different answers.
fn assert_case(rt: &impl Abort, alloc: Global, schema: &Schema, case: &Case) {
    let request = parsed(rt, alloc, case.text);
    let Request::Aj(query) = &request else {
        panic!(rt; "no join");
    };
    for seed in 0..PAIRS {
        let sides = make_sides(rt, alloc, seed);
        let found = answer(rt, alloc, query, schema, &sides);
        let wanted = slow_answer(rt, alloc, case, &sides);
        assert!(rt;
            found == wanted,
            "the tables of seed {seed} have two answers"
        );
    }
}

#[test]
fn a_thousand_pairs(rt: HostRuntime) {
    let alloc = rt.alloc();
    let schema = built_in_schema(alloc).expect(&rt, "memory");
    for case in &CASES {
        assert_case(&rt, alloc, &schema, case);
    }
}
