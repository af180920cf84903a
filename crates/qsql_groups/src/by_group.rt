//! The values of an expression, one for each group.
ghost use Rattle.std.specs.Prelude.{◌≡◌, ◌<◌, true, [], ◌∷◌, ◌++◌, Some, length, All, IfOk, OnOk};
ghost use Rattle.q_values.specs.Atom.{kind_of};
ghost use Rattle.qsql_request.specs.Views.{form};
ghost use Rattle.qsql_values.specs.Frames.{kind_beside};
ghost use Rattle.qsql_values.specs.Kinds.{kind_in};
ghost use Rattle.qsql_values.specs.Operands.{operand_tree, kind_of_tree};
ghost use Rattle.qsql_values.specs.Ready.{IsReady};
ghost use Rattle.qsql_values.specs.Values.{items_in};
ghost use Rattle.qsql_groups.specs.Groups.{items_over, value_by_group};
ghost use Rattle.qsql_groups.specs.OnePass;
ghost use Rattle.qsql_groups.specs.Ready.{IsValue};

use crate::grouping::Grouping;
use crate::one_pass::is_one_pass;
use crate::values::{by_group, into_items};
use q_values::{Atom, Kind, NoMemory, Vector, VectorRefusal};
use qsql_request::Expr;
use qsql_values::{Operand, value_of};
use std::alloc::Global;

// Puts an atom at the end of atoms of its kind.
fn push_atom(items: &mut Vector, atom: Atom) -> Result<(), NoMemory>
    requires { kind_of atom ≡ items.old.kind }
    ensures { OnOk result (items.new ≡ record items.old { atoms = items.old.atoms ++ atom ∷ [] }) }
{
    match items.push(atom) {
        Ok(()) => Ok(()),
        Err(VectorRefusal::KindMismatch) => unreachable!(),
        Err(VectorRefusal::NoMemory) => Err(NoMemory),
    }
}

// Puts atoms at the end of others of their kind.
fn push_all(items: &mut Vector, others: &Vector) -> Result<(), NoMemory>
    requires { others.now.kind ≡ items.old.kind }
    ensures { OnOk result (items.new ≡ record items.old { atoms = items.old.atoms ++ others.now.atoms }) }
{
    match items.append(others) {
        Ok(()) => Ok(()),
        Err(VectorRefusal::KindMismatch) => unreachable!(),
        Err(VectorRefusal::NoMemory) => Err(NoMemory),
    }
}

// Puts the items of a value at the end of others of their kind.
fn push_items(items: &mut Vector, value: Operand) -> Result<(), NoMemory>
    requires { kind_of_tree (operand_tree value) ≡ items.old.kind }
    ensures { OnOk result (items.new ≡ record items.old { atoms = items.old.atoms ++ (items_in (operand_tree value.entry)).atoms }) }
{
    match value {
        Operand::Atom(atom) => push_atom(items, atom),
        Operand::Column(held) => push_all(items, held.vector()),
    }
}

// The kind of an expression over the rows: that of its value over none of them.
fn kind_of_groups(alloc: Global, expr: &Expr, grouping: &Grouping) -> Result<Kind, NoMemory>
    requires { IsReady grouping.now.rows (form expr.now) }
    ensures { IfOk result (λ k. kind_in (kind_beside grouping.now.rows) (form expr.now) ≡ Some k) }
{
    let none = grouping.rows_at(&[]);
    let value = value_of(alloc, expr, &none)?;
    Ok(value.kind())
}

// Puts the items of an expression's value over these rows at the end of others of its kind.
fn push_value(
    alloc: Global,
    items: &mut Vector,
    expr: &Expr,
    grouping: &Grouping,
    places: &[usize],
) -> Result<(), NoMemory>
    requires ready { IsReady grouping.now.rows (form expr.now) }
    requires kind { kind_in (kind_beside grouping.now.rows) (form expr.now) ≡ Some items.old.kind }
    requires within { All (λ p. p < length grouping.now.rows.rows) places.now }
    ensures { OnOk result (items.new ≡ record items.old { atoms = items.old.atoms ++ items_over grouping.now.rows (form expr.now) places.now }) }
{
    let rows = grouping.rows_at(places);
    let value = value_of(alloc, expr, &rows)?;
    push_items(items, value)
}

// The values of an expression over the rows of each group, group by group.
fn values_one_by_one(alloc: Global, expr: &Expr, grouping: &Grouping) -> Result<Vector, NoMemory>
    requires { IsReady grouping.now.rows (form expr.now) }
    ensures { IfOk result (λ v. v ≡ value_by_group grouping.now (form expr.now)) }
{
    let kind = kind_of_groups(alloc, expr, grouping)?;
    let mut items = Vector::new(alloc, kind);
    let parts = grouping.parts(alloc)?;
    for group in 0..parts.len() {
        push_value(alloc, &mut items, expr, grouping, parts.of_group(group))?;
    }
    Ok(items)
}

// The values of an expression over the rows of each group, for all groups at once.
fn values_at_once(alloc: Global, expr: &Expr, grouping: &Grouping) -> Result<Vector, NoMemory>
    requires value { IsValue grouping.now.rows (form expr.now) }
    requires one_pass { OnePass.is_one_pass (form expr.now) ≡ true }
    ensures { IfOk result (λ v. v ≡ value_by_group grouping.now (form expr.now)) }
{
    let rows = grouping.rows();
    let made = by_group(alloc, expr, &rows, grouping.groups())?;
    let items = into_items(alloc, made.value, grouping.len())?;
    Ok(items)
}

/// The values of an expression over the rows of each group, one for each. They are made for all groups at once, but where the
/// expression has `distinct`, an aggregate of a single value, or a test of aggregates or with rows at its right.
pub fn values_of_groups(alloc: Global, expr: &Expr, grouping: &Grouping) -> Result<Vector, NoMemory>
    requires { IsValue grouping.now.rows (form expr.now) }
    ensures { IfOk result (λ v. v ≡ value_by_group grouping.now (form expr.now)) }
{
    if is_one_pass(expr) {
        values_at_once(alloc, expr, grouping)
    } else {
        values_one_by_one(alloc, expr, grouping)
    }
}
