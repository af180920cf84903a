//! The answers to as-of joins.
ghost use Rattle.std.specs.Prelude.{◌≡◌, ◌<◌, true, length, IfOk};
ghost use Rattle.q_values.specs.Tree.{tree, table};
ghost use Rattle.qsql_request.specs.Views.{query_of, aj_of};
ghost use Rattle.qsql_eval.specs.Judgement.{judgement, fits};
ghost use Rattle.asof_join.specs.Judged.{aj_judgement, joins};
ghost use Rattle.asof_join.specs.Sources.{query_of_source, is_typed_source, IsSource};
ghost use Rattle.asof_join.specs.Views.{grid_in};
ghost use Rattle.gateway.specs.Answer.{query_value, joined, join_answer};
ghost use Rattle.gateway.specs.Shaped.{IsShaped};

use crate::rest::without_phrases;
use crate::values::{kept_rows_of_typed, rows_of_typed, wrong_value};
use asof_join::{AjRefusal, AjTyped, aj, check_aj, table_of_side};
use day_rows::Schema;
use plant_memory::Snapshot;
use q_values::{NoMemory, TableValue, Value};
use qsql_eval::Typed;
use qsql_request::AjQuery;
use std::alloc::Global;

// The table of a side without phrases, over all rows of its table.
fn table_of_whole(
    alloc: Global,
    typed: &Typed,
    snapshot: &Snapshot,
    schema: &Schema,
) -> Result<TableValue, NoMemory>
    requires same { snapshot.now.frame.schema ≡ schema.now }
    requires fits { judgement (query_of typed.now.query.now) schema.now ≡ fits typed.now.table.now }
    requires typed { is_typed_source typed.now.table.now (query_of typed.now.query.now) ≡ true }
    ensures value { IfOk result (λ t. table (grid_in t)
        ≡ query_value snapshot.now.frame.first schema.now snapshot.now.entries (query_of typed.now.query.now) typed.now.table.now) }
    ensures source { IfOk result (λ t. IsSource typed.now.table.now (query_of typed.now.query.now) (grid_in t)) }
{
    let rows = rows_of_typed(alloc, typed, snapshot, schema)?;
    let found = table_of_side(alloc, typed, &rows)?;
    Ok(found)
}

// The table of a side with phrases, over the rows that they keep.
fn table_of_kept(
    alloc: Global,
    typed: &Typed,
    snapshot: &Snapshot,
    schema: &Schema,
) -> Result<TableValue, NoMemory>
    requires same { snapshot.now.frame.schema ≡ schema.now }
    requires fits { judgement (query_of typed.now.query.now) schema.now ≡ fits typed.now.table.now }
    requires typed { is_typed_source typed.now.table.now (query_of typed.now.query.now) ≡ true }
    requires some { 0 < length typed.now.query.now.phrases }
    ensures value { IfOk result (λ t. table (grid_in t)
        ≡ query_value snapshot.now.frame.first schema.now snapshot.now.entries (query_of typed.now.query.now) typed.now.table.now) }
    ensures source { IfOk result (λ t. IsSource typed.now.table.now (query_of typed.now.query.now) (grid_in t)) }
{
    let query = without_phrases(alloc, typed.query)?;
    let rest = Typed {
        query: &query,
        table: typed.table,
    };
    let rows = kept_rows_of_typed(alloc, typed, &rest, snapshot, schema)?;
    let found = table_of_side(alloc, &rest, &rows)?;
    Ok(found)
}

// The table of a side, over all rows of its table.
fn table_of(
    alloc: Global,
    typed: &Typed,
    snapshot: &Snapshot,
    schema: &Schema,
) -> Result<TableValue, NoMemory>
    requires same { snapshot.now.frame.schema ≡ schema.now }
    requires fits { judgement (query_of typed.now.query.now) schema.now ≡ fits typed.now.table.now }
    requires typed { is_typed_source typed.now.table.now (query_of typed.now.query.now) ≡ true }
    ensures value { IfOk result (λ t. table (grid_in t)
        ≡ query_value snapshot.now.frame.first schema.now snapshot.now.entries (query_of typed.now.query.now) typed.now.table.now) }
    ensures source { IfOk result (λ t. IsSource typed.now.table.now (query_of typed.now.query.now) (grid_in t)) }
{
    if typed.query.phrases.is_empty() {
        table_of_whole(alloc, typed, snapshot, schema)
    } else {
        table_of_kept(alloc, typed, snapshot, schema)
    }
}

// The join of the values of both sides.
fn join_of_typed(
    alloc: Global,
    typed: &AjTyped,
    snapshot: &Snapshot,
    schema: &Schema,
) -> Result<Value, NoMemory>
    requires same { snapshot.now.frame.schema ≡ schema.now }
    requires fits { aj_judgement (aj_of typed.now.query.now) schema.now ≡ joins typed.now.left_table.now typed.now.right_table.now }
    ensures shaped { IfOk result (λ v. IsShaped (tree v)) }
    ensures value { IfOk result (λ v. tree v ≡ joined typed.now.query.now.keys
        (query_value snapshot.now.frame.first schema.now snapshot.now.entries (query_of_source (aj_of typed.now.query.now).left) typed.now.left_table.now)
        (query_value snapshot.now.frame.first schema.now snapshot.now.entries (query_of_source (aj_of typed.now.query.now).right) typed.now.right_table.now)) }
{
    let of_left = typed.left();
    let left = table_of(alloc, &of_left, snapshot, schema)?;
    let of_right = typed.right();
    let right = table_of(alloc, &of_right, snapshot, schema)?;
    let made = aj(alloc, typed, &left, &right)?;
    Ok(Value::Table(made))
}

/// The answer to an as-of join: its table, or why it has none.
pub fn answer_join(
    alloc: Global,
    query: &AjQuery,
    snapshot: &Snapshot,
    schema: &Schema,
) -> Result<Value, NoMemory>
    requires same { snapshot.now.frame.schema ≡ schema.now }
    ensures shaped { IfOk result (λ v. IsShaped (tree v)) }
    ensures value { IfOk result (λ v. tree v
        ≡ join_answer (query_value snapshot.now.frame.first schema.now snapshot.now.entries) (aj_of query.now) (aj_judgement (aj_of query.now) schema.now)) }
{
    match check_aj(alloc, query, schema) {
        Ok(typed) => join_of_typed(alloc, &typed, snapshot, schema),
        Err(AjRefusal::NoName(name)) => wrong_value(alloc, name.bytes()),
        Err(AjRefusal::Nyi) => wrong_value(alloc, b"nyi"),
        Err(AjRefusal::WrongType) => wrong_value(alloc, b"type"),
        Err(AjRefusal::NoMemory) => Err(NoMemory),
    }
}
