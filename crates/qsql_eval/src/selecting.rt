//! The value of a `select`.
ghost use Rattle.std.specs.Prelude.{◌≡◌, false, ◌<◌, IsSome, map, length, All, IfOk};
ghost use Rattle.q_values.specs.Tree.{tree};
ghost use Rattle.qsql_request.specs.Shapes.{shape, is_list};
ghost use Rattle.qsql_request.specs.Unbuilt.{column_name};
ghost use Rattle.qsql_request.specs.Views.{form, column_form};
ghost use Rattle.qsql_values.specs.Frames.{column_in, kind_beside};
ghost use Rattle.qsql_eval.specs.Judgement.{all_columns};
ghost use Rattle.qsql_eval.specs.Meaning.{values_of, spread, row_count, limited_column, grid_of, grid_of_columns};
ghost use Rattle.qsql_values.specs.Operands.{operand_tree};
ghost use Rattle.qsql_values.specs.Ready.{IsReady};
ghost use Rattle.qsql_eval.specs.Ready.{are_scalars};
ghost use Rattle.qsql_values.specs.Values.{val};

use crate::limiting::limited_held;
use day_rows::Shape;
use q_values::{Columns, Names, NoMemory, Sym, TableValue, Value, Vector};
use qsql_request::{Col, Shape as Form, name_of_column, shape_of_expr};
use qsql_values::{Held, Operand, Scope, repeated, value_of};
use std::alloc::Global;

fn are_atoms(columns: &[Col]) -> bool
    ensures { result ≡ are_scalars (map column_form columns.now) }
{
    for column in columns {
        if !matches!(shape_of_expr(&column.expr), Form::Scalar) {
            return false;
        }
    }
    true
}

// The number of rows of these columns: one where all are atoms.
#[tactic(auto, using(crate::proofs::ReadyLemmas::scalars_are_atoms))]
fn row_count_of(columns: &[Col], scope: &Scope) -> usize
    requires { All (λ c. IsReady scope.now (form c.expr)) columns.now }
    ensures { result ≡ row_count scope.now (values_of scope.now (map column_form columns.now)) }
{
    if are_atoms(columns) { 1 } else { scope.len() }
}

// A column of the result: an atom is in each of the `count` rows.
fn column_of(
    alloc: Global,
    value: Operand,
    count: usize,
    first: &Option<i64>,
) -> Result<Vector, NoMemory>
    ensures { IfOk result (λ v. v ≡ limited_column first.now (spread count (operand_tree value.entry))) }
{
    match value {
        Operand::Atom(atom) => {
            let many = repeated(alloc, &atom, count)?;
            limited_held(alloc, Held::Made(many), first)
        }
        Operand::Column(held) => limited_held(alloc, held, first),
    }
}

// A column of the result, from its expression.
fn shown_column(
    alloc: Global,
    column: &Col,
    count: usize,
    first: &Option<i64>,
    scope: &Scope,
) -> Result<Vector, NoMemory>
    requires { IsReady scope.now (form column.now.expr) }
    ensures { IfOk result (λ v. v ≡ limited_column first.now (spread count (val scope.now (form column.now.expr)))) }
{
    let value = value_of(alloc, &column.expr, scope)?;
    column_of(alloc, value, count, first)
}

fn shown_columns(
    alloc: Global,
    columns: &[Col],
    count: usize,
    first: &Option<i64>,
    scope: &Scope,
) -> Result<Columns, NoMemory>
    requires { All (λ c. IsReady scope.now (form c.expr)) columns.now }
    ensures { IfOk result (λ v. v ≡ map (limited_column first.now) (map (spread count) (values_of scope.now (map column_form columns.now)))) }
{
    let mut made = Columns::with_capacity(alloc, columns.len())?;
    for column in columns {
        made.push(shown_column(alloc, column, count, first, scope)?)?;
    }
    Ok(made)
}

/// The names of these columns.
pub fn names_of(alloc: Global, columns: &[Col]) -> Result<Names, NoMemory>
    ensures { IfOk result (λ v. v ≡ map column_name (map column_form columns.now)) }
{
    let mut names = Names::with_capacity(alloc, columns.len())?;
    for column in columns {
        names.push(Sym::copied(alloc, name_of_column(column))?)?;
    }
    Ok(names)
}

/// The table of a `select` that names its columns.
pub fn some_columns(
    alloc: Global,
    columns: &[Col],
    first: &Option<i64>,
    scope: &Scope,
) -> Result<Value, NoMemory>
    requires some { 0 < length columns.now }
    requires ready { All (λ c. IsReady scope.now (form c.expr)) columns.now }
    requires lists { All (λ c. is_list (shape (form c.expr)) ≡ false) columns.now }
    ensures { IfOk result (λ v. tree v ≡ grid_of_columns first.now scope.now (map column_form columns.now)) }
{
    let count = row_count_of(columns, scope);
    let names = names_of(alloc, columns)?;
    let columns = shown_columns(alloc, columns, count, first, scope)?;
    Ok(Value::Table(TableValue { names, columns }))
}

/// The names of a table's columns, `date` first.
pub fn names_in(alloc: Global, table: &Shape) -> Result<Names, NoMemory>
    ensures { IfOk result (λ v. v ≡ all_columns table.now) }
{
    let mut names = Names::with_capacity(alloc, table.names.len())?;
    names.push(Sym::copied(alloc, b"date")?)?;
    for name in table.names.as_slice() {
        names.push(Sym::copied(alloc, name.bytes())?)?;
    }
    Ok(names)
}

/// The columns with these names.
pub fn columns_named(
    alloc: Global,
    names: &[Sym],
    first: &Option<i64>,
    scope: &Scope,
) -> Result<Columns, NoMemory>
    requires { All (λ name. IsSome (kind_beside scope.now name)) names.now }
    ensures { IfOk result (λ v. v ≡ map (limited_column first.now) (map (column_in scope.now) names.now)) }
{
    let mut columns = Columns::with_capacity(alloc, names.len())?;
    for name in names {
        let column = scope.column(alloc, name.bytes())?;
        columns.push(limited_held(alloc, column, first)?)?;
    }
    Ok(columns)
}

/// The table of a `select` that names no columns: `date` and those of its table.
pub fn every_column(
    alloc: Global,
    table: &Shape,
    first: &Option<i64>,
    scope: &Scope,
) -> Result<Value, NoMemory>
    requires { All (λ name. IsSome (kind_beside scope.now name)) (all_columns table.now) }
    ensures { IfOk result (λ v. tree v ≡ grid_of first.now (all_columns table.now) (map (column_in scope.now) (all_columns table.now))) }
{
    let names = names_in(alloc, table)?;
    let columns = columns_named(alloc, names.as_slice(), first, scope)?;
    Ok(Value::Table(TableValue { names, columns }))
}
