//! The value of a query with `by`.
ghost use Rattle.std.specs.Prelude.{◌≡◌, true, false, not, [], ◌<◌, ◌∷◌, ◌++◌, Some, map, length, All, IfOk, OnOk, IsSome};
ghost use Rattle.std.specs.List.{filter, list_any};
ghost use Rattle.std.specs.Str.{bytes_eq};
ghost use Rattle.q_values.specs.Table.{rows_of};
ghost use Rattle.q_values.specs.Tree.{tree, vector, dict, keyed};
ghost use Rattle.qsql_request.specs.Unbuilt.{column_name};
ghost use Rattle.qsql_request.specs.Views.{form, column_form, query_of};
ghost use Rattle.qsql_values.specs.Frames.{column_in, kind_beside};
ghost use Rattle.qsql_groups.specs.Groups.{last_rows};
ghost use Rattle.qsql_groups.specs.Ready.{IsValue};
ghost use Rattle.qsql_eval.specs.Judgement.{all_columns};
ghost use Rattle.qsql_eval.specs.Meaning.{key_grid, group_columns, other_names, value_grid, dictionary_of, value_over_groups};
ghost use Rattle.qsql_eval.specs.Ready.{IsGroupable};

use crate::checking::is_column_named;
use crate::selecting::{columns_named, names_in, names_of};
use day_rows::Shape;
use q_values::{
    Columns, KeyedValue, Kind, Names, NoMemory, Pair, Sym, TableValue, Value, Vector, VectorRefusal,
};
use qsql_groups::{Grouping, values_of_groups};
use qsql_request::{Col, Query};
use std::alloc::Global;

fn columns_of_groups(
    alloc: Global,
    columns: &[Col],
    grouping: &Grouping,
) -> Result<Columns, NoMemory>
    requires { All (λ c. IsValue grouping.now.rows (form c.expr)) columns.now }
    ensures { IfOk result (λ v. v ≡ group_columns (map column_form columns.now) grouping.now) }
{
    let mut made = Columns::with_capacity(alloc, columns.len())?;
    for column in columns {
        made.push(values_of_groups(alloc, &column.expr, grouping)?)?;
    }
    Ok(made)
}

// The names that no column after `by` has.
fn names_left(alloc: Global, names: &[Sym], by: &[Col]) -> Result<Names, NoMemory>
    ensures { IfOk result (λ v. v ≡ filter (λ name. not (list_any (bytes_eq name) (map column_name (map column_form by.now)))) names.now) }
{
    let mut left = Names::with_capacity(alloc, names.len())?;
    for name in names {
        if !is_column_named(by, name.bytes()) {
            left.push(Sym::copied(alloc, name.bytes())?)?;
        }
    }
    Ok(left)
}

// The key columns as a table.
fn key_table(alloc: Global, by: &[Col], grouping: &Grouping) -> Result<TableValue, NoMemory>
    requires some { 0 < length by.now }
    requires keys { length grouping.now.keys ≡ length by.now }
    ensures names { IfOk result (λ t. t.names ≡ map column_name (map column_form by.now)) }
    ensures columns { IfOk result (λ t. t.columns ≡ grouping.now.keys) }
    ensures size { IfOk result (λ t. rows_of t.columns ≡ length grouping.now.firsts) }
{
    let names = names_of(alloc, by)?;
    let keys = grouping.keys(alloc)?;
    let columns = Columns::from_vec(alloc, keys)?;
    Ok(TableValue { names, columns })
}

// The columns of the query as a table.
fn column_table(alloc: Global, columns: &[Col], grouping: &Grouping) -> Result<TableValue, NoMemory>
    requires some { 0 < length columns.now }
    requires values { All (λ c. IsValue grouping.now.rows (form c.expr)) columns.now }
    ensures names { IfOk result (λ t. t.names ≡ map column_name (map column_form columns.now)) }
    ensures columns { IfOk result (λ t. t.columns ≡ group_columns (map column_form columns.now) grouping.now) }
    ensures size { IfOk result (λ t. rows_of t.columns ≡ length grouping.now.firsts) }
{
    let names = names_of(alloc, columns)?;
    let made = columns_of_groups(alloc, columns, grouping)?;
    Ok(TableValue {
        names,
        columns: made,
    })
}

// The last row of each group as a table of these columns.
fn last_table(alloc: Global, names: Names, grouping: &Grouping) -> Result<TableValue, NoMemory>
    requires some { 0 < length names }
    requires kinds { All (λ name. IsSome (kind_beside grouping.now.rows name)) names }
    ensures names { IfOk result (λ t. t.names ≡ names) }
    ensures columns { IfOk result (λ t. t.columns ≡ map (column_in (last_rows grouping.now)) names) }
    ensures size { IfOk result (λ t. rows_of t.columns ≡ length grouping.now.firsts) }
{
    let places = grouping.last_rows(alloc)?;
    let scope = grouping.rows_at(&places);
    let columns = columns_named(alloc, names.as_slice(), &None, &scope)?;
    Ok(TableValue { names, columns })
}

// The last row of each group as a table, without the columns that a column after `by` names.
fn left_table(
    alloc: Global,
    query: &Query,
    table: &Shape,
    grouping: &Grouping,
) -> Result<TableValue, NoMemory>
    requires query { IsGroupable grouping.now.rows table.now query.now }
    requires select { query.now.exec ≡ false }
    requires none { query.now.columns ≡ [] }
    ensures names { IfOk result (λ t. t.names ≡ other_names (all_columns table.now) (query_of query.now)) }
    ensures columns { IfOk result (λ t. t.columns
        ≡ map (column_in (last_rows grouping.now)) (other_names (all_columns table.now) (query_of query.now))) }
    ensures size { IfOk result (λ t. rows_of t.columns ≡ length grouping.now.firsts) }
{
    let all = names_in(alloc, table)?;
    let by = query.by.as_slice();
    let names = names_left(alloc, all.as_slice(), by)?;
    last_table(alloc, names, grouping)
}

// The columns beside the keys: those of the query, or else the last row of each group.
fn value_table(
    alloc: Global,
    query: &Query,
    table: &Shape,
    grouping: &Grouping,
) -> Result<TableValue, NoMemory>
    requires query { IsGroupable grouping.now.rows table.now query.now }
    requires select { query.now.exec ≡ false }
    ensures names { IfOk result (λ t. t.names ≡ (value_grid (all_columns table.now) (query_of query.now) grouping.now).names) }
    ensures columns { IfOk result (λ t. t.columns ≡ (value_grid (all_columns table.now) (query_of query.now) grouping.now).columns) }
    ensures size { IfOk result (λ t. rows_of t.columns ≡ length grouping.now.firsts) }
{
    if query.columns.is_empty() {
        left_table(alloc, query, table, grouping)
    } else {
        column_table(alloc, query.columns.as_slice(), grouping)
    }
}

fn keyed_table(
    alloc: Global,
    query: &Query,
    table: &Shape,
    grouping: &Grouping,
) -> Result<Value, NoMemory>
    requires query { IsGroupable grouping.now.rows table.now query.now }
    requires select { query.now.exec ≡ false }
    requires keys { length grouping.now.keys ≡ length query.now.by }
    ensures { IfOk result (λ v. tree v
        ≡ keyed (key_grid (query_of query.now).by grouping.now) (value_grid (all_columns table.now) (query_of query.now) grouping.now)) }
{
    let keys = key_table(alloc, query.by.as_slice(), grouping)?;
    let values = value_table(alloc, query, table, grouping)?;
    let joined = KeyedValue { keys, values };
    Ok(Value::Keyed(Box::new(alloc, joined)?))
}

// The one key column.
fn only(keys: Vec<Vector>) -> Vector
    requires { length keys.items ≡ 1 }
    ensures { keys.items ≡ result ∷ [] }
{
    let mut left = keys;
    match left.pop() {
        Some(key) => key,
        None => unreachable!(),
    }
}

fn pair_of(alloc: Global, key: Vector, value: Vector) -> Result<Value, NoMemory>
    ensures { IfOk result (λ v. tree v ≡ dict (vector key) (vector value)) }
{
    let keys = Value::Vector(key);
    let values = Value::Vector(value);
    Ok(Value::Dict(Box::new(alloc, Pair { keys, values })?))
}

// A dictionary from the one key to the one column.
fn dictionary(alloc: Global, columns: &[Col], grouping: &Grouping) -> Result<Value, NoMemory>
    requires key { length grouping.now.keys ≡ 1 }
    requires column { length columns.now ≡ 1 }
    requires values { All (λ c. IsValue grouping.now.rows (form c.expr)) columns.now }
    ensures { IfOk result (λ v. tree v ≡ dictionary_of grouping.now.keys (group_columns (map column_form columns.now) grouping.now)) }
{
    let keys = grouping.keys(alloc)?;
    let key = only(keys);
    let value = values_of_groups(alloc, &columns[0].expr, grouping)?;
    pair_of(alloc, key, value)
}

/// The value of a query with `by` over its groups: a keyed table, or the dictionary of an `exec`.
pub fn value_of_query(
    alloc: Global,
    query: &Query,
    table: &Shape,
    grouping: &Grouping,
) -> Result<Value, NoMemory>
    requires query { IsGroupable grouping.now.rows table.now query.now }
    requires keys { length grouping.now.keys ≡ length query.now.by }
    ensures { IfOk result (λ v. tree v ≡ value_over_groups (all_columns table.now) (query_of query.now) grouping.now) }
{
    if query.exec {
        let columns = query.columns.as_slice();
        dictionary(alloc, columns, grouping)
    } else {
        keyed_table(alloc, query, table, grouping)
    }
}
