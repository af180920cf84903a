//! The values of queries, and errors as values.
ghost use Rattle.std.specs.Prelude.{◌≡◌, ◌<◌, ◌≤◌, true, length, slice_get, Some, IfOk};
ghost use Rattle.q_values.specs.Bytes.{HasNoNul};
ghost use Rattle.q_values.specs.Tree.{tree, wrong};
ghost use Rattle.qsql_request.specs.Views.{query_of};
ghost use Rattle.qsql_values.specs.Frames.{frame_of};
ghost use Rattle.qsql_eval.specs.Judgement.{judgement, fits, all_columns};
ghost use Rattle.qsql_eval.specs.Meaning.{meaning};
ghost use Rattle.qsql_eval.specs.Views.{has_columns};
ghost use Rattle.gateway.specs.Answer.{table_index, query_value};
ghost use Rattle.gateway.specs.DateRows.{AreDates};
ghost use Rattle.gateway.specs.Kept.{after_phrases, table_rows_on};
ghost use Rattle.gateway.specs.Shaped.{IsShaped};

use crate::dates::kept_dates;
use crate::keeping::kept_places;
use crate::rest::without_phrases;
use crate::table::{Part, rows_at_places, rows_of_part};
use crate::wanted::Wanted;
use day_rows::Schema;
use plant_memory::Snapshot;
use q_values::{NoMemory, Text, Value};
use qsql_eval::{Rows, Typed, eval};
use std::alloc::Global;

/// The error with this text.
#[tactic(auto, using(crate::proofs::ShapedLemmas::wrong_shaped))]
pub fn wrong_value(alloc: Global, text: &[u8]) -> Result<Value, NoMemory>
    requires { HasNoNul text.now }
    ensures value { IfOk result (λ v. tree v ≡ wrong text.now) }
    ensures shaped { IfOk result (λ v. IsShaped (tree v)) }
{
    let copied = Vec::from_slice(alloc, text)?;
    Ok(Value::Wrong(Text::from_vec(alloc, copied)?))
}

// The index in the schema of the table with this name.
fn index_of(schema: &Schema, name: &[u8]) -> u32
    ensures { result ≡ table_index name.now schema.now }
{
    for i in 0..schema.len() {
        if name == schema.at(i).table.bytes() {
            return i as u32;
        }
    }
    schema.len() as u32
}

/// The rows of a query's table: the columns that the query needs, on the dates that it keeps.
pub fn rows_of_typed(
    alloc: Global,
    typed: &Typed,
    snapshot: &Snapshot,
    schema: &Schema,
) -> Result<Rows, NoMemory>
    requires same { snapshot.now.frame.schema ≡ schema.now }
    requires fits { judgement (query_of typed.now.query.now) schema.now ≡ fits typed.now.table.now }
    ensures columns { IfOk result (λ r. has_columns typed.now.table.now (query_of typed.now.query.now) (frame_of r.names r.columns) ≡ true) }
    ensures value { IfOk result (λ r. meaning (all_columns typed.now.table.now) (query_of typed.now.query.now) (frame_of r.names r.columns)
        ≡ query_value snapshot.now.frame.first schema.now snapshot.now.entries (query_of typed.now.query.now) typed.now.table.now) }
{
    // The dates ascend, so that a table's rows are those of its dates.
    let _dates = snapshot.dates();
    let index = index_of(schema, typed.query.table.bytes());
    let table = schema.at(index as usize);
    let wanted = Wanted::of(alloc, typed)?;
    let dates = kept_dates(alloc, typed, snapshot)?;
    let part = Part {
        index,
        dates: &dates,
        places: None,
    };
    let rows = rows_of_part(alloc, table, snapshot, &part, &wanted)?;
    Ok(rows)
}

// The rows on these dates that a query's phrases keep: the columns that the query needs beside them. `rest` is the query
// without its phrases.
fn kept_rows_on(
    alloc: Global,
    typed: &Typed,
    rest: &Typed,
    snapshot: &Snapshot,
    dates: &[usize],
    index: u32,
) -> Result<Rows, NoMemory>
    requires dates { AreDates snapshot.now.frame.first snapshot.now.entries dates.now }
    requires table { slice_get snapshot.now.frame.schema index ≡ Some typed.now.table.now }
    requires named { length typed.now.table.now.names ≡ length typed.now.table.now.kinds }
    requires few { length typed.now.table.now.names ≤ 48 }
    requires some { 0 < length typed.now.query.now.phrases }
    requires rest { query_of rest.now.query.now ≡ after_phrases (query_of typed.now.query.now) }
    requires same { rest.now.table.now ≡ typed.now.table.now }
    ensures columns { IfOk result (λ r. has_columns rest.now.table.now (query_of rest.now.query.now) (frame_of r.names r.columns) ≡ true) }
    ensures value { IfOk result (λ r. meaning (all_columns rest.now.table.now) (query_of rest.now.query.now) (frame_of r.names r.columns)
        ≡ meaning (all_columns typed.now.table.now) (query_of typed.now.query.now)
        (table_rows_on dates.now snapshot.now.frame.first snapshot.now.entries index typed.now.table.now)) }
{
    let wanted = Wanted::of(alloc, rest)?;
    let places = kept_places(alloc, typed, snapshot, dates, index)?;
    let rows = rows_at_places(alloc, typed.table, snapshot, dates, index, &places, &wanted)?;
    Ok(rows)
}

/// The rows that a query's phrases keep, on the dates that the query keeps: the columns that it needs beside its phrases.
/// `rest` is the query without its phrases.
pub fn kept_rows_of_typed(
    alloc: Global,
    typed: &Typed,
    rest: &Typed,
    snapshot: &Snapshot,
    schema: &Schema,
) -> Result<Rows, NoMemory>
    requires same { snapshot.now.frame.schema ≡ schema.now }
    requires fits { judgement (query_of typed.now.query.now) schema.now ≡ fits typed.now.table.now }
    requires some { 0 < length typed.now.query.now.phrases }
    requires rest { query_of rest.now.query.now ≡ after_phrases (query_of typed.now.query.now) }
    requires table { rest.now.table.now ≡ typed.now.table.now }
    ensures columns { IfOk result (λ r. has_columns rest.now.table.now (query_of rest.now.query.now) (frame_of r.names r.columns) ≡ true) }
    ensures value { IfOk result (λ r. meaning (all_columns rest.now.table.now) (query_of rest.now.query.now) (frame_of r.names r.columns)
        ≡ query_value snapshot.now.frame.first schema.now snapshot.now.entries (query_of typed.now.query.now) typed.now.table.now) }
{
    // The dates ascend, so that a table's rows are those of its dates; a table of the schema has a kind for each column.
    let _dates = snapshot.dates();
    let index = index_of(schema, typed.query.table.bytes());
    let _table = schema.at(index as usize);
    let dates = kept_dates(alloc, typed, snapshot)?;
    let rows = kept_rows_on(alloc, typed, rest, snapshot, &dates, index)?;
    Ok(rows)
}

// The value of a query with phrases.
fn value_of_kept(
    alloc: Global,
    typed: &Typed,
    snapshot: &Snapshot,
    schema: &Schema,
) -> Result<Value, NoMemory>
    requires same { snapshot.now.frame.schema ≡ schema.now }
    requires fits { judgement (query_of typed.now.query.now) schema.now ≡ fits typed.now.table.now }
    requires some { 0 < length typed.now.query.now.phrases }
    ensures value { IfOk result (λ v. tree v
        ≡ query_value snapshot.now.frame.first schema.now snapshot.now.entries (query_of typed.now.query.now) typed.now.table.now) }
    ensures shaped { IfOk result (λ v. IsShaped (tree v)) }
{
    let query = without_phrases(alloc, typed.query)?;
    let rest = Typed {
        query: &query,
        table: typed.table,
    };
    let rows = kept_rows_of_typed(alloc, typed, &rest, snapshot, schema)?;
    let value = eval(alloc, &rest, &rows)?;
    Ok(value)
}

// The value of a query without phrases.
fn value_of_whole(
    alloc: Global,
    typed: &Typed,
    snapshot: &Snapshot,
    schema: &Schema,
) -> Result<Value, NoMemory>
    requires same { snapshot.now.frame.schema ≡ schema.now }
    requires fits { judgement (query_of typed.now.query.now) schema.now ≡ fits typed.now.table.now }
    ensures value { IfOk result (λ v. tree v
        ≡ query_value snapshot.now.frame.first schema.now snapshot.now.entries (query_of typed.now.query.now) typed.now.table.now) }
    ensures shaped { IfOk result (λ v. IsShaped (tree v)) }
{
    let rows = rows_of_typed(alloc, typed, snapshot, schema)?;
    let value = eval(alloc, typed, &rows)?;
    Ok(value)
}

/// The value of a query over all rows of its table.
pub fn value_of_typed(
    alloc: Global,
    typed: &Typed,
    snapshot: &Snapshot,
    schema: &Schema,
) -> Result<Value, NoMemory>
    requires same { snapshot.now.frame.schema ≡ schema.now }
    requires fits { judgement (query_of typed.now.query.now) schema.now ≡ fits typed.now.table.now }
    ensures value { IfOk result (λ v. tree v
        ≡ query_value snapshot.now.frame.first schema.now snapshot.now.entries (query_of typed.now.query.now) typed.now.table.now) }
    ensures shaped { IfOk result (λ v. IsShaped (tree v)) }
{
    if typed.query.phrases.is_empty() {
        value_of_whole(alloc, typed, snapshot, schema)
    } else {
        value_of_kept(alloc, typed, snapshot, schema)
    }
}
