//! The tables that the sides of a join give.
ghost use Rattle.std.specs.Prelude.{◌≡◌, true, map, Some, IfOk};
ghost use Rattle.std.specs.Str.{bytes_eq};
ghost use Rattle.q_values.specs.Tree.{table};
ghost use Rattle.qsql_request.specs.Views.{query_of};
ghost use Rattle.qsql_values.specs.Frames.{frame_of};
ghost use Rattle.qsql_eval.specs.Judgement.{all_columns};
ghost use Rattle.qsql_eval.specs.Meaning.{meaning};
ghost use Rattle.qsql_eval.specs.Views.{has_columns};
ghost use Rattle.asof_join.specs.Sources.{is_typed_source, IsSource};
ghost use Rattle.asof_join.specs.Views.{grid_in};

use crate::shown::shown_by;
use day_rows::Shape;
use q_values::{Kind, NoMemory, Sym, TableValue, Value, Vector};
use qsql_eval::{Rows, Typed, eval};
use qsql_request::Query;
use std::alloc::Global;

fn is_same(name: &[u8], other: &[u8]) -> bool
    ensures { result ≡ bytes_eq name.now other.now }
{
    name == other
}

fn have_names(names: &[Sym], shown: &[Sym]) -> bool
    ensures { result ≡ true → names.now ≡ shown.now }
{
    if names.len() != shown.len() {
        return false;
    }
    for i in 0..names.len() {
        if !is_same(names[i].bytes(), shown[i].bytes()) {
            return false;
        }
    }
    true
}

fn have_kinds(columns: &[Vector], shown: &[Option<Kind>]) -> bool
    ensures { result ≡ true → map (λ c. Some c.kind) columns.now ≡ shown.now }
{
    if columns.len() != shown.len() {
        return false;
    }
    for i in 0..columns.len() {
        if Some(columns[i].kind()) != shown[i] {
            return false;
        }
    }
    true
}

// Whether the table has the columns that the query shows.
fn is_source(
    alloc: Global,
    query: &Query,
    shape: &Shape,
    found: &TableValue,
) -> Result<bool, NoMemory>
    ensures { IfOk result (λ b. b ≡ true → IsSource shape.now (query_of query.now) (grid_in found.now)) }
{
    let shown = shown_by(alloc, query, shape)?;
    let names = have_names(found.names.as_slice(), shown.names.as_slice());
    let kinds = have_kinds(found.columns.as_slice(), &shown.kinds);
    Ok(names && kinds)
}

/// The table that a side of a join gives over the rows of its table, which must have the columns that `qsql_eval::eval` needs.
/// It has the columns that `check_aj` found for the side.
pub fn table_of_side(alloc: Global, typed: &Typed, rows: &Rows) -> Result<TableValue, NoMemory>
    requires typed { is_typed_source typed.now.table.now (query_of typed.now.query.now) ≡ true }
    requires columns { has_columns typed.now.table.now (query_of typed.now.query.now) (frame_of rows.now.names rows.now.columns) ≡ true }
    ensures value { IfOk result (λ t. table (grid_in t)
        ≡ meaning (all_columns typed.now.table.now) (query_of typed.now.query.now) (frame_of rows.now.names rows.now.columns)) }
    ensures source { IfOk result (λ t. IsSource typed.now.table.now (query_of typed.now.query.now) (grid_in t)) }
{
    match eval(alloc, typed, rows)? {
        Value::Table(found) => {
            if is_source(alloc, typed.query, typed.table, &found)? {
                Ok(found)
            } else {
                Err(NoMemory)
            }
        }
        _ => unreachable!(),
    }
}
