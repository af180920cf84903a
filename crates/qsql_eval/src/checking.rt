//! Whether a query fits a schema.
ghost use Rattle.std.specs.Prelude.{◌≡◌, map, option_copied, Some, IfOk, IfErr};
ghost use Rattle.std.specs.List.{list_any, list_all};
ghost use Rattle.std.specs.Str.{bytes_eq};
ghost use Rattle.qsql_request.specs.Views.{form, column_form, query_of};
ghost use Rattle.qsql_request.specs.Unbuilt.{column_name};
ghost use Rattle.qsql_values.specs.Kinds.{column_kind, kind_in};
ghost use Rattle.qsql_eval.specs.Judgement.{is_boolean, has_kind, has_kinds, has_none_left, is_typed};
ghost use Rattle.qsql_eval.specs.Judgement.{first_unknown, table_named, judged_over, judgement, fits};
ghost use Rattle.qsql_eval.specs.Views.{RefusesQuery, NamesOrMemory};

use crate::typed::{CheckRefusal, Typed};
use day_rows::{Schema, Shape};
use q_values::{Kind, Sym};
use qsql_request::{Col, Expr, Query, is_query_unbuilt, name_of_column, names_of_query};
use qsql_values::{kind_of_column, kind_of_expr};
use std::alloc::Global;

// The table of the schema with this name.
#[tactic(auto, using(crate::proofs::TableLemmas::table_here, crate::proofs::TableLemmas::table_next))]
fn table_of<'a>(name: &[u8], schema: &'a Schema) -> Option<&'a Shape>
    ensures { option_copied result ≡ table_named name.now schema.now }
{
    for i in 0..schema.len() {
        let table = schema.at(i);
        if name == table.table.bytes() {
            return Some(table);
        }
    }
    None
}

// The first of the names that is no column of the table.
fn unknown_among<'a>(table: &Shape, names: &[&'a Sym]) -> Option<&'a Sym>
    ensures { option_copied result ≡ first_unknown (column_kind table.now) (map (λ n. n.now) names.now) }
{
    for name in names {
        if kind_of_column(table, name.bytes()).is_none() {
            return Some(*name);
        }
    }
    None
}

fn have_kinds(table: &Shape, columns: &[Col]) -> bool
    ensures { result ≡ list_all (has_kind (column_kind table.now)) (map column_form columns.now) }
{
    for column in columns {
        if kind_of_expr(table, &column.expr).is_none() {
            return false;
        }
    }
    true
}

fn is_phrase(table: &Shape, expr: &Expr) -> bool
    ensures { result ≡ is_boolean (kind_in (column_kind table.now) (form expr.now)) }
{
    match kind_of_expr(table, expr) {
        Some(kind) => kind == Kind::Boolean,
        None => false,
    }
}

fn are_phrases(table: &Shape, phrases: &[Expr]) -> bool
    ensures { result ≡ list_all (λ p. is_boolean (kind_in (column_kind table.now) p)) (map form phrases.now) }
{
    for phrase in phrases {
        if !is_phrase(table, phrase) {
            return false;
        }
    }
    true
}

// Whether each expression has a kind, and each phrase is boolean.
fn have_all_kinds(table: &Shape, query: &Query) -> bool
    ensures { result ≡ has_kinds (column_kind table.now) (query_of query.now) }
{
    have_kinds(table, query.columns.as_slice())
        && have_kinds(table, query.by.as_slice())
        && are_phrases(table, query.phrases.as_slice())
}

/// Whether one of the columns has this name.
pub fn is_column_named(columns: &[Col], name: &[u8]) -> bool
    ensures { result ≡ list_any (bytes_eq name.now) (map column_name (map column_form columns.now)) }
{
    for column in columns {
        if name == name_of_column(column) {
            return true;
        }
    }
    false
}

fn are_columns_named(columns: &[Col], names: &[Sym]) -> bool
    ensures { result ≡ list_all (λ name. list_any (bytes_eq name) (map column_name (map column_form columns.now))) names.now }
{
    for name in names {
        if !is_column_named(columns, name.bytes()) {
            return false;
        }
    }
    true
}

// Whether it is a `select` with `by` and without columns, to which the `by` columns leave none.
fn leaves_none(table: &Shape, query: &Query) -> bool
    ensures { result ≡ has_none_left table.now (query_of query.now) }
{
    let by = query.by.as_slice();
    !query.exec
        && query.columns.is_empty()
        && !query.by.is_empty()
        && is_column_named(by, b"date")
        && are_columns_named(by, table.names.as_slice())
}

fn is_query_typed(table: &Shape, query: &Query) -> bool
    ensures { result ≡ is_typed table.now (query_of query.now) }
{
    !is_query_unbuilt(query) && have_all_kinds(table, query) && !leaves_none(table, query)
}

// That this name is not there.
fn no_name(alloc: Global, name: &Sym) -> CheckRefusal
    ensures { NamesOrMemory name.now result }
{
    match Sym::copied(alloc, name.bytes()) {
        Ok(name) => CheckRefusal::NoName(name),
        Err(_) => CheckRefusal::NoMemory,
    }
}

fn check_over<'a>(
    alloc: Global,
    query: &'a Query,
    table: &'a Shape,
) -> Result<Typed<'a>, CheckRefusal>
    ensures query { IfOk result (λ t. t.query.now ≡ query.now) }
    ensures table { IfOk result (λ t. t.table.now ≡ table.now) }
    ensures fits { IfOk result (λ t. judged_over (query_of query.now) (Some table.now) ≡ fits t.table.now) }
    ensures refused { IfErr result (RefusesQuery (judged_over (query_of query.now) (Some table.now))) }
{
    let names = names_of_query(alloc, query)?;
    if let Some(name) = unknown_among(table, &names) {
        return Err(no_name(alloc, name));
    }
    if !is_query_typed(table, query) {
        return Err(CheckRefusal::WrongType);
    }
    Ok(Typed { query, table })
}

/// Judges a query by a schema. It is refused where its table isn't in the schema, or else where one of the columns that it
/// names isn't in the table (the first in its text; each table has the columns `date` and `i`), or else where a verb
/// doesn't take what it is given.
pub fn check<'a>(
    alloc: Global,
    query: &'a Query,
    schema: &'a Schema,
) -> Result<Typed<'a>, CheckRefusal>
    ensures query { IfOk result (λ t. t.query.now ≡ query.now) }
    ensures fits { IfOk result (λ t. judgement (query_of query.now) schema.now ≡ fits t.table.now) }
    ensures refused { IfErr result (RefusesQuery (judgement (query_of query.now) schema.now)) }
{
    match table_of(query.table.bytes(), schema) {
        Some(table) => check_over(alloc, query, table),
        None => Err(no_name(alloc, &query.table)),
    }
}
