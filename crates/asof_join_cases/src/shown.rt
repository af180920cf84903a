//! The answer of an as-of join as text.

use asof_join::{AjRefusal, AjTyped, aj, check_aj, table_of_side};
use day_rows::Schema;
use q_shown::push_value;
use q_values::Value;
use qsql_eval::Rows;
use qsql_parse::parse;
use qsql_request::{AjQuery, Request};
use schema_text::built_in_schema;
use std::alloc::Global;
use std::process::Abort;

/// The rows of both tables.
#[derive(Drop)]
pub(crate) struct Tables {
    pub trade: Rows,
    pub quote: Rows,
}

// The rows of the table with this name: `trade`, or else `quote`.
fn rows_of<'a>(tables: &'a Tables, name: &[u8]) -> &'a Rows {
    if name == b"trade".as_slice() {
        &tables.trade
    } else {
        &tables.quote
    }
}

fn push_joined(
    rt: &impl Abort,
    alloc: Global,
    out: &mut Vec<u8>,
    typed: &AjTyped,
    tables: &Tables,
) {
    let left = typed.left();
    let right = typed.right();
    let trades = rows_of(tables, left.table.table.bytes());
    let quotes = rows_of(tables, right.table.table.bytes());
    if !left.fits(alloc, trades).expect(rt, "memory")
        || !right.fits(alloc, quotes).expect(rt, "memory")
    {
        out.extend_from_slice(b"columns").expect(rt, "memory");
        return;
    }
    let first = table_of_side(alloc, &left, trades).expect(rt, "memory");
    let second = table_of_side(alloc, &right, quotes).expect(rt, "memory");
    let joined = aj(alloc, typed, &first, &second).expect(rt, "memory");
    push_value(alloc, out, &Value::Table(joined)).expect(rt, "memory");
}

fn push_refusal(rt: &impl Abort, out: &mut Vec<u8>, refusal: AjRefusal) {
    match refusal {
        AjRefusal::NoName(name) => {
            out.extend_from_slice(b"name ").expect(rt, "memory");
            out.extend_from_slice(name.bytes()).expect(rt, "memory");
        }
        AjRefusal::Nyi => out.extend_from_slice(b"nyi").expect(rt, "memory"),
        AjRefusal::WrongType => out.extend_from_slice(b"type").expect(rt, "memory"),
        AjRefusal::NoMemory => out.extend_from_slice(b"wsfull").expect(rt, "memory"),
    }
}

fn push_query(
    rt: &impl Abort,
    alloc: Global,
    out: &mut Vec<u8>,
    query: &AjQuery,
    schema: &Schema,
    tables: &Tables,
) {
    match check_aj(alloc, query, schema) {
        Ok(typed) => push_joined(rt, alloc, out, &typed, tables),
        Err(refusal) => push_refusal(rt, out, refusal),
    }
}

fn push_request(
    rt: &impl Abort,
    alloc: Global,
    out: &mut Vec<u8>,
    request: &Request,
    schema: &Schema,
    tables: &Tables,
) {
    match request {
        Request::Aj(query) => push_query(rt, alloc, out, query, schema, tables),
        _ => {
            out.extend_from_slice(b"no join").expect(rt, "memory");
        }
    }
}

/// The answer of a text over the built-in schema: a table, or why the join is refused.
pub(crate) fn shown(rt: &impl Abort, alloc: Global, tables: &Tables, text: &[u8]) -> Vec<u8> {
    let schema = built_in_schema(alloc).expect(rt, "memory");
    let mut out = Vec::new(alloc);
    match parse(alloc, text) {
        Ok(request) => push_request(rt, alloc, &mut out, &request, &schema, tables),
        Err(_) => out.extend_from_slice(b"not parsed").expect(rt, "memory"),
    }
    out
}

/// Stops at the first text whose answer over these rows is another than the one beside it.
pub(crate) fn assert_answers(
    rt: &impl Abort,
    alloc: Global,
    tables: &Tables,
    cases: &[(&[u8], &[u8])],
) {
    let mut case = 0usize;
    for (text, wanted) in cases {
        let found = shown(rt, alloc, tables, text);
        assert!(rt; found.as_slice() == *wanted, "case {case}");
        case = case.saturating_add(1);
    }
}
