//! The value of a query over the rows of its table.
ghost use Rattle.std.specs.Prelude.{◌≡◌, ◌<◌, ℕ, List, true, false, Some, map, length, All, IfOk, IsTrue};
ghost use Rattle.q_values.specs.Tree.{tree, atom};
ghost use Rattle.q_values.specs.declared.kind.Kind.TheVariants as k;
ghost use Rattle.qsql_request.specs.Unbuilt.{is_empty, is_unbuilt_phrase};
ghost use Rattle.qsql_request.specs.Views.{form, query_of};
ghost use Rattle.qsql_values.specs.Counting.{count_atom};
ghost use Rattle.qsql_values.specs.Frames.{Frame, AreColumns, frame_of, kind_beside};
ghost use Rattle.qsql_values.specs.Kinds.{kind_in};
ghost use Rattle.qsql_values.specs.Values.{kept};
ghost use Rattle.qsql_eval.specs.Judgement.{all_columns};
ghost use Rattle.qsql_eval.specs.Meaning.{value_over_rows, value_over_kept, meaning};
ghost use Rattle.qsql_eval.specs.Ready.{IsAnswerable, IsGroupable};
ghost use Rattle.qsql_eval.specs.Views.{has_columns};

use crate::by_group::value_of_query;
use crate::executing::every_value;
use crate::rows::Rows;
use crate::selecting::{every_column, some_columns};
use crate::typed::Typed;
use day_rows::Shape;
use q_values::{NoMemory, Sym, Value, Vector};
use qsql_groups::Grouping;
use qsql_request::Query;
use qsql_values::{Scope, count_atom, is_row_count, kept_count, kept_places, kept_rows};
use std::alloc::Global;

// The value of a query without `by`, of which the rows have been kept.
fn answer_over_rows(
    alloc: Global,
    query: &Query,
    table: &Shape,
    scope: &Scope,
) -> Result<Value, NoMemory>
    requires { IsAnswerable scope.now table.now query.now }
    ensures { IfOk result (λ v. tree v ≡ value_over_rows (all_columns table.now) (query_of query.now) scope.now) }
{
    let columns = query.columns.as_slice();
    if query.exec {
        every_value(alloc, columns, scope)
    } else if columns.is_empty() {
        every_column(alloc, table, &query.first, scope)
    } else {
        some_columns(alloc, columns, &query.first, scope)
    }
}

// The value of a query, of which the rows have been kept.
fn answer(
    alloc: Global,
    query: &Query,
    table: &Shape,
    names: &[Sym],
    columns: &[Vector],
) -> Result<Value, NoMemory>
    requires columns { AreColumns names.now columns.now }
    requires rows { is_empty (query_of query.now).by ≡ true → IsAnswerable (frame_of names.now columns.now) table.now query.now }
    requires groups { is_empty (query_of query.now).by ≡ false → IsGroupable (frame_of names.now columns.now) table.now query.now }
    ensures { IfOk result (λ v. tree v
        ≡ value_over_kept (all_columns table.now) (query_of query.now) (frame_of names.now columns.now)) }
{
    if query.by.is_empty() {
        let scope = Scope::new(names, columns);
        answer_over_rows(alloc, query, table, &scope)
    } else {
        let by = query.by.as_slice();
        let grouping = Grouping::of(alloc, by, names, columns)?;
        value_of_query(alloc, query, table, &grouping)
    }
}

// Whether the query's value is the number of its rows: it is an `exec` of `count` of a name alone.
fn counts_rows(query: &Query) -> bool
    ensures { IsTrue result → (all : List (List ℕ)) → (frame : Frame)
        → value_over_rows all (query_of query.now) frame ≡ atom (count_atom (length frame.rows)) }
{
    let columns = query.columns.as_slice();
    query.exec && columns.len() == 1 && is_row_count(&columns[0].expr)
}

// The value of a query without `by` over the rows that its phrases keep. Of these rows only the columns that it shows are
// gathered, and none where it is their number.
fn answer_at_places(
    alloc: Global,
    query: &Query,
    table: &Shape,
    names: &[Sym],
    columns: &[Vector],
) -> Result<Value, NoMemory>
    requires columns { AreColumns names.now columns.now }
    requires some { 0 < length query.now.phrases }
    requires kinds { All (λ p. kind_in (kind_beside (frame_of names.now columns.now)) (form p) ≡ Some k.Boolean) query.now.phrases }
    requires built { All (λ p. is_unbuilt_phrase (form p) ≡ false) query.now.phrases }
    requires none { is_empty (query_of query.now).by ≡ true }
    requires rows { IsAnswerable (frame_of names.now columns.now) table.now query.now }
    ensures { IfOk result (λ v. tree v
        ≡ value_over_kept (all_columns table.now) (query_of query.now) (kept (map form query.now.phrases) (frame_of names.now columns.now))) }
{
    let phrases = query.phrases.as_slice();
    if counts_rows(query) {
        let rows = kept_count(alloc, phrases, names, columns)?;
        return Ok(Value::Atom(count_atom(rows)));
    }
    let places = kept_places(alloc, phrases, names, columns)?;
    let scope = Scope::at(names, columns, &places);
    let value = answer_over_rows(alloc, query, table, &scope)?;
    Ok(value)
}

// The value of a query over the rows that its phrases keep.
fn answer_kept(
    alloc: Global,
    query: &Query,
    table: &Shape,
    names: &[Sym],
    columns: &[Vector],
) -> Result<Value, NoMemory>
    requires columns { AreColumns names.now columns.now }
    requires some { 0 < length query.now.phrases }
    requires kinds { All (λ p. kind_in (kind_beside (frame_of names.now columns.now)) (form p) ≡ Some k.Boolean) query.now.phrases }
    requires built { All (λ p. is_unbuilt_phrase (form p) ≡ false) query.now.phrases }
    requires rows { is_empty (query_of query.now).by ≡ true → IsAnswerable (frame_of names.now columns.now) table.now query.now }
    requires groups { is_empty (query_of query.now).by ≡ false → IsGroupable (frame_of names.now columns.now) table.now query.now }
    ensures { IfOk result (λ v. tree v
        ≡ value_over_kept (all_columns table.now) (query_of query.now) (kept (map form query.now.phrases) (frame_of names.now columns.now))) }
{
    if query.by.is_empty() {
        answer_at_places(alloc, query, table, names, columns)
    } else {
        let kept = kept_rows(alloc, query.phrases.as_slice(), names, columns)?;
        answer(alloc, query, table, names, &kept)
    }
}

/// The value of a query over the rows of its table (Q for Mortals, 9.3). The rows must have the columns that the query
/// names and, where a `select` names no columns, `date` and all columns of the table, each of the kind that the table
/// gives it; `date` is a date and `i` a long.
pub fn eval(alloc: Global, typed: &Typed, rows: &Rows) -> Result<Value, NoMemory>
    requires columns { has_columns typed.now.table.now (query_of typed.now.query.now) (frame_of rows.now.names rows.now.columns) ≡ true }
    ensures { IfOk result (λ v. tree v
        ≡ meaning (all_columns typed.now.table.now) (query_of typed.now.query.now) (frame_of rows.now.names rows.now.columns)) }
{
    let query = typed.query;
    let names = rows.names.as_slice();
    let columns = rows.columns.as_slice();
    if query.phrases.is_empty() {
        answer(alloc, query, typed.table, names, columns)
    } else {
        answer_kept(alloc, query, typed.table, names, columns)
    }
}
