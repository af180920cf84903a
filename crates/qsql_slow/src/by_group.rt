//! What the slow program has for a query with `by`.

use crate::compared::{push_list, put, values_of};
use crate::grouped::{Group, groups_of};
use crate::slow::{NULL, Slow, column_of, item_at, value_of};
use q_values::Kind;
use qsql_eval::Rows;
use qsql_request::{Col, Expr, Query, name_of_column};
use std::alloc::Global;
use std::process::Abort;

// The columns of `trade`, after `date`.
const COLUMNS: [&[u8]; 5] = [b"date", b"time", b"sym", b"price", b"size"];

fn push_named(
    rt: &impl Abort,
    alloc: Global,
    out: &mut Vec<u8>,
    name: &[u8],
    kind: Kind,
    items: &[i64],
) {
    if !out.is_empty() && !out.ends_with(b"|") {
        put(rt, out, b" ");
    }
    put(rt, out, name);
    put(rt, out, b"=");
    push_list(rt, alloc, out, kind, items)
}

// The item of each group in the key column with this index.
fn key_items(rt: &impl Abort, alloc: Global, groups: &[Group], index: usize) -> Vec<i64> {
    let mut items = Vec::new(alloc);
    for group in groups {
        items
            .push(group.key.get(index).copied().unwrap_or(NULL))
            .expect(rt, "memory");
    }
    items
}

// The value of an expression over each group's rows.
fn group_items(
    rt: &impl Abort,
    alloc: Global,
    expr: &Expr,
    rows: &Rows,
    groups: &[Group],
) -> Vec<i64> {
    let mut items = Vec::new(alloc);
    for group in groups {
        let value = value_of(rt, alloc, expr, rows, &group.rows);
        items.push(item_at(&value, 0)).expect(rt, "memory");
    }
    items
}

// The last row of each group.
fn last_rows(rt: &impl Abort, alloc: Global, groups: &[Group]) -> Vec<usize> {
    let mut rows = Vec::new(alloc);
    for group in groups {
        if let Some(row) = group.rows.last() {
            rows.push(*row).expect(rt, "memory");
        }
    }
    rows
}

fn push_keys(
    rt: &impl Abort,
    alloc: Global,
    out: &mut Vec<u8>,
    by: &[Col],
    keys: &[Slow],
    groups: &[Group],
) {
    let mut index = 0usize;
    for (column, key) in by.iter().zip(keys.iter()) {
        let items = key_items(rt, alloc, groups, index);
        push_named(rt, alloc, out, name_of_column(column), key.kind, &items);
        index = index.saturating_add(1);
    }
}

fn push_columns(
    rt: &impl Abort,
    alloc: Global,
    out: &mut Vec<u8>,
    columns: &[Col],
    rows: &Rows,
    groups: &[Group],
) {
    for column in columns {
        let none = value_of(rt, alloc, &column.expr, rows, &[]);
        let items = group_items(rt, alloc, &column.expr, rows, groups);
        push_named(rt, alloc, out, name_of_column(column), none.kind, &items);
    }
}

fn is_name_of(by: &[Col], name: &[u8]) -> bool {
    for column in by {
        if name_of_column(column) == name {
            return true;
        }
    }
    false
}

// The last row of each group, in the columns that `by` doesn't name.
fn push_last(
    rt: &impl Abort,
    alloc: Global,
    out: &mut Vec<u8>,
    by: &[Col],
    rows: &Rows,
    groups: &[Group],
) {
    let last = last_rows(rt, alloc, groups);
    for name in COLUMNS {
        if !is_name_of(by, name) {
            let column = column_of(rt, alloc, rows, name, &last);
            push_named(rt, alloc, out, name, column.kind, &column.items);
        }
    }
}

// The dictionary of an `exec`: from the keys to the values.
fn push_dictionary(
    rt: &impl Abort,
    alloc: Global,
    out: &mut Vec<u8>,
    query: &Query,
    keys: &[Slow],
    rows: &Rows,
    groups: &[Group],
) {
    if let (Some(key), Some(column)) = (keys.first(), query.columns.get(0)) {
        push_list(rt, alloc, out, key.kind, &key_items(rt, alloc, groups, 0));
        put(rt, out, b"!");
        let none = value_of(rt, alloc, &column.expr, rows, &[]);
        let items = group_items(rt, alloc, &column.expr, rows, groups);
        push_list(rt, alloc, out, none.kind, &items);
    }
}

/// Puts the value of a query with `by` over these rows at the end of a text.
pub(crate) fn push_by(
    rt: &impl Abort,
    alloc: Global,
    out: &mut Vec<u8>,
    query: &Query,
    rows: &Rows,
    kept: &[usize],
) {
    let by = query.by.as_slice();
    let keys = values_of(rt, alloc, by, rows, kept);
    let groups = groups_of(rt, alloc, &keys, kept);
    if query.exec {
        push_dictionary(rt, alloc, out, query, &keys, rows, &groups);
        return;
    }
    push_keys(rt, alloc, out, by, &keys, &groups);
    put(rt, out, b"|");
    if query.columns.is_empty() {
        push_last(rt, alloc, out, by, rows, &groups)
    } else {
        push_columns(rt, alloc, out, query.columns.as_slice(), rows, &groups)
    }
}
