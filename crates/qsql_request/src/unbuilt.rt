//! Which forms are not built, as far as that can be seen without a schema.
ghost use Rattle.std.specs.Prelude.{◌≡◌, map};
ghost use Rattle.std.specs.List.{list_any};
ghost use Rattle.std.specs.Str.{bytes_eq};
ghost use Rattle.qsql_request.specs.Views.{form, column_form, query_of, source_of, request_of};
ghost use Rattle.qsql_request.specs.Unbuilt.{column_name, is_unbuilt_column, is_unbuilt_phrase, has_twice, has_list, has_not_scalar, has_not_rows};
ghost use Rattle.qsql_request.specs.Unbuilt.{are_shared, have_one_name, has_wrong_shape, is_wrong_exec, is_wrong_first, has_unbuilt_parts};
ghost use Rattle.qsql_request.specs.Unbuilt.{is_unbuilt_query, is_unbuilt_source, is_unbuilt};

use crate::judging::judged;
use crate::mentions::{is_nameless_column, name_of_column};
use crate::request::{Col, Expr, Query, Request, Source};
use crate::shapes::{is_list, is_rows, is_scalar};

// Whether a column has a form that is not built.
fn is_unbuilt_col(column: &Col) -> bool
    ensures { result ≡ is_unbuilt_column (column_form column.now) }
{
    judged(&column.expr).unbuilt || is_nameless_column(column)
}

fn any_unbuilt(columns: &[Col]) -> bool
    ensures { result ≡ list_any is_unbuilt_column (map column_form columns.now) }
{
    for column in columns {
        if is_unbuilt_col(column) {
            return true;
        }
    }
    false
}

// Whether a phrase has a form that is not built: it must have a value for each row.
fn is_unbuilt_condition(expr: &Expr) -> bool
    ensures { result ≡ is_unbuilt_phrase (form expr.now) }
{
    let judged = judged(expr);
    judged.unbuilt || !is_rows(judged.shape)
}

fn any_unbuilt_phrase(phrases: &[Expr]) -> bool
    ensures { result ≡ list_any is_unbuilt_phrase (map form phrases.now) }
{
    for phrase in phrases {
        if is_unbuilt_condition(phrase) {
            return true;
        }
    }
    false
}

fn any_list(columns: &[Col]) -> bool
    ensures { result ≡ has_list (map column_form columns.now) }
{
    for column in columns {
        if is_list(judged(&column.expr).shape) {
            return true;
        }
    }
    false
}

fn any_not_scalar(columns: &[Col]) -> bool
    ensures { result ≡ has_not_scalar (map column_form columns.now) }
{
    for column in columns {
        if !is_scalar(judged(&column.expr).shape) {
            return true;
        }
    }
    false
}

fn any_not_rows(columns: &[Col]) -> bool
    ensures { result ≡ has_not_rows (map column_form columns.now) }
{
    for column in columns {
        if !is_rows(judged(&column.expr).shape) {
            return true;
        }
    }
    false
}

// Whether one of the columns has this name.
fn names_column(columns: &[Col], name: &[u8]) -> bool
    ensures { result ≡ list_any (bytes_eq name.now) (map column_name (map column_form columns.now)) }
{
    for column in columns {
        if name == name_of_column(column) {
            return true;
        }
    }
    false
}

// Whether two of the columns have the same name.
fn any_twice(columns: &[Col]) -> bool
    ensures { result ≡ has_twice (map column_name (map column_form columns.now)) }
{
    let mut index = 0;
    while index < columns.len() {
        if names_column(&columns[index + 1..], name_of_column(&columns[index])) {
            return true;
        }
        index += 1;
    }
    false
}

// Whether one of the columns has the name of one of the others.
fn any_shared(columns: &[Col], others: &[Col]) -> bool
    ensures { result ≡ are_shared (map column_name (map column_form columns.now)) (map column_name (map column_form others.now)) }
{
    for column in columns {
        if names_column(others, name_of_column(column)) {
            return true;
        }
    }
    false
}

// Whether two columns have the same name, including those after `by`.
fn any_same_names(by: &[Col], columns: &[Col]) -> bool
    ensures { result ≡ have_one_name (map column_name (map column_form by.now)) (map column_name (map column_form columns.now)) }
{
    any_twice(by) || any_twice(columns) || any_shared(by, columns)
}

// Whether a column doesn't fit: with `by` one that isn't a single value, or else a list in a `select`.
fn has_column_of_wrong_shape(query: &Query) -> bool
    ensures { result ≡ has_wrong_shape (query_of query.now) }
{
    let columns = query.columns.as_slice();
    let by = query.by.as_slice();
    if query.by.is_empty() {
        !query.exec && any_list(columns)
    } else {
        any_not_scalar(columns) || any_not_rows(by)
    }
}

// Whether it is an `exec` without columns, or one with `by` that has more than one column before or after it.
fn has_wrong_exec(query: &Query) -> bool
    ensures { result ≡ is_wrong_exec (query_of query.now) }
{
    let columns = query.columns.len();
    let by = query.by.len();
    query.exec && (columns == 0 || (by != 0 && !(columns == 1 && by == 1)))
}

// Whether a number of first rows comes with `exec` or `by`.
fn has_wrong_first(query: &Query) -> bool
    ensures { result ≡ is_wrong_first (query_of query.now) }
{
    query.first.is_some() && (query.exec || !query.by.is_empty())
}

fn has_unbuilt_part(query: &Query) -> bool
    ensures { result ≡ has_unbuilt_parts (query_of query.now) }
{
    any_unbuilt(query.columns.as_slice())
        || any_unbuilt(query.by.as_slice())
        || any_unbuilt_phrase(query.phrases.as_slice())
}

/// Whether the query has a form that is not built, as far as that can be seen without a schema.
pub fn is_query_unbuilt(query: &Query) -> bool
    ensures { result ≡ is_unbuilt_query (query_of query.now) }
{
    has_unbuilt_part(query)
        || has_column_of_wrong_shape(query)
        || has_wrong_exec(query)
        || has_wrong_first(query)
        || any_same_names(query.by.as_slice(), query.columns.as_slice())
}

// Whether a side of an as-of join is not built: it may be no `exec`, and have no `by`.
fn is_source_unbuilt(source: &Source) -> bool
    ensures { result ≡ is_unbuilt_source (source_of source.now) }
{
    match source {
        Source::All(_) => false,
        Source::Of(query) => query.exec || !query.by.is_empty() || is_query_unbuilt(query),
    }
}

/// Whether the request has a form that is not built, as far as that can be seen without a schema.
pub fn is_request_unbuilt(request: &Request) -> bool
    ensures { result ≡ is_unbuilt (request_of request.now) }
{
    match request {
        Request::Query(query) => is_query_unbuilt(query),
        Request::Aj(joined) => is_source_unbuilt(&joined.left) || is_source_unbuilt(&joined.right),
        Request::Count => false,
        Request::Day => false,
        Request::Sub(_) => false,
    }
}
