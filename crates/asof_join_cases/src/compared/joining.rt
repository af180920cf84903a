//! The table that a text of an as-of join gives.

use crate::compared::tables::Tables;
use asof_join::{AjTyped, aj, check_aj, table_of_side};
use day_rows::Schema;
use q_values::TableValue;
use qsql_parse::parse;
use qsql_request::{AjQuery, Request};
use std::alloc::Global;
use std::process::Abort;

fn joined_of(rt: &impl Abort, alloc: Global, typed: &AjTyped, tables: &Tables) -> TableValue {
    let left = typed.left();
    let right = typed.right();
    if !left.fits(alloc, &tables.trade).expect(rt, "memory")
        || !right.fits(alloc, &tables.quote).expect(rt, "memory")
    {
        panic!(rt; "rows without the columns");
    }
    let trades = table_of_side(alloc, &left, &tables.trade).expect(rt, "memory");
    let quotes = table_of_side(alloc, &right, &tables.quote).expect(rt, "memory");
    aj(alloc, typed, &trades, &quotes).expect(rt, "memory")
}

/// The table that a join gives whose left side is of `trade`, and whose right side is of `quote`.
pub(crate) fn joined(
    rt: &impl Abort,
    alloc: Global,
    query: &AjQuery,
    schema: &Schema,
    tables: &Tables,
) -> TableValue {
    match check_aj(alloc, query, schema) {
        Ok(typed) => joined_of(rt, alloc, &typed, tables),
        Err(_) => panic!(rt; "the join is refused"),
    }
}

/// The request of a text.
pub(crate) fn parsed(rt: &impl Abort, alloc: Global, text: &[u8]) -> Request {
    match parse(alloc, text) {
        Ok(request) => request,
        Err(_) => panic!(rt; "the text is refused"),
    }
}
