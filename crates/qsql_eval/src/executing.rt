//! The value of an `exec`.
ghost use Rattle.std.specs.Prelude.{◌≡◌, true, [], ◌∷◌, ◌++◌, Some, map, All, IfOk, OnOk};
ghost use Rattle.std.specs.List.{list_all, flat_map};
ghost use Rattle.q_values.specs.Atom.{kind_of};
ghost use Rattle.q_values.specs.Tree.{tree, list, dict, items_of};
ghost use Rattle.qsql_request.specs.Unbuilt.{column_name};
ghost use Rattle.qsql_request.specs.Views.{form, column_form};
ghost use Rattle.qsql_eval.specs.Meaning.{values_of, is_atom_of, one_kind, together_of, together, names_vector, execution_of};
ghost use Rattle.qsql_values.specs.Ready.{IsReady};
ghost use Rattle.qsql_values.specs.Values.{items_in, val};

use q_values::{Atom, Column, Kind, NoMemory, Pair, Symbols, Value, Values, Vector, VectorRefusal};
use qsql_request::{Col, name_of_column};
use qsql_values::{Scope, value_of};
use std::alloc::Global;

// The value of a column.
fn value_of_column(alloc: Global, column: &Col, scope: &Scope) -> Result<Value, NoMemory>
    requires { IsReady scope.now (form column.now.expr) }
    ensures { IfOk result (λ v. tree v ≡ val scope.now (form column.now.expr)) }
{
    let value = value_of(alloc, &column.expr, scope)?;
    value.into_value(alloc)
}

fn values_of_columns(alloc: Global, columns: &[Col], scope: &Scope) -> Result<Vec<Value>, NoMemory>
    requires { All (λ c. IsReady scope.now (form c.expr)) columns.now }
    ensures { IfOk result (λ v. map tree v.items ≡ values_of scope.now (map column_form columns.now)) }
{
    let mut values = Vec::with_capacity(alloc, columns.len())?;
    for column in columns {
        values.push(value_of_column(alloc, column, scope)?)?;
    }
    Ok(values)
}

fn symbols_of(alloc: Global, columns: &[Col]) -> Result<Symbols, NoMemory>
    ensures { IfOk result (λ v. v ≡ map column_name (map column_form columns.now)) }
{
    let mut names = Symbols::with_capacity(alloc, columns.len())?;
    for column in columns {
        names.push(name_of_column(column))?;
    }
    Ok(names)
}

fn is_of_kind(value: &Value, kind: Kind) -> bool
    ensures { result ≡ is_atom_of kind (tree value.now) }
{
    match value {
        Value::Atom(atom) => atom.kind() == kind,
        Value::Vector(_) => false,
        Value::List(_) => false,
        Value::Dict(_) => false,
        Value::Table(_) => false,
        Value::Keyed(_) => false,
        Value::Identity => false,
        Value::Wrong(_) => false,
    }
}

fn are_of_kind(values: &[Value], kind: Kind) -> bool
    ensures { result ≡ list_all (is_atom_of kind) (map tree values.now) }
{
    for value in values {
        if !is_of_kind(value, kind) {
            return false;
        }
    }
    true
}

// Puts an atom at the end of atoms of its kind.
fn push_atom(atoms: &mut Vector, atom: Atom) -> Result<(), NoMemory>
    requires { kind_of atom ≡ atoms.old.kind }
    ensures { OnOk result (atoms.new ≡ record atoms.old { atoms = atoms.old.atoms ++ atom ∷ [] }) }
{
    match atoms.push(atom) {
        Ok(()) => Ok(()),
        Err(VectorRefusal::KindMismatch) => unreachable!(),
        Err(VectorRefusal::NoMemory) => Err(NoMemory),
    }
}

fn push_item(alloc: Global, atoms: &mut Vector, value: &Value) -> Result<(), NoMemory>
    requires { is_atom_of atoms.old.kind (tree value.now) ≡ true }
    ensures { OnOk result (atoms.new ≡ record atoms.old { atoms = atoms.old.atoms ++ (items_in (tree value.now)).atoms }) }
{
    match value {
        Value::Atom(atom) => push_atom(atoms, atom.copy(alloc)?),
        Value::Vector(_) => unreachable!(),
        Value::List(_) => unreachable!(),
        Value::Dict(_) => unreachable!(),
        Value::Table(_) => unreachable!(),
        Value::Keyed(_) => unreachable!(),
        Value::Identity => unreachable!(),
        Value::Wrong(_) => unreachable!(),
    }
}

// Atoms of one kind as a vector.
fn vector_of(alloc: Global, values: &[Value], kind: Kind) -> Result<Vector, NoMemory>
    requires { All (λ v. is_atom_of kind (tree v) ≡ true) values.now }
    ensures { IfOk result (λ v. v ≡ record { kind = kind; atoms = flat_map (λ t. (items_in t).atoms) (map tree values.now) }) }
{
    let mut atoms = Vector::new(alloc, kind);
    for value in values {
        push_item(alloc, &mut atoms, value)?;
    }
    Ok(atoms)
}

// The kind of a value's items.
fn kind_of_value(value: &Value) -> Kind
    ensures { result ≡ (items_in (tree value.now)).kind }
{
    match value {
        Value::Atom(atom) => atom.kind(),
        Value::Vector(vector) => vector.kind(),
        Value::List(_) => Kind::Boolean,
        Value::Dict(_) => Kind::Boolean,
        Value::Table(_) => Kind::Boolean,
        Value::Keyed(_) => Kind::Boolean,
        Value::Identity => Kind::Boolean,
        Value::Wrong(_) => Kind::Boolean,
    }
}

// The kind of values that are all atoms of one kind.
#[tactic(auto, using(crate::proofs::ReadyLemmas::one_kind_none))]
fn kind_of_all(values: &[Value]) -> Option<Kind>
    ensures { result ≡ one_kind (map tree values.now) }
{
    if values.is_empty() {
        return None;
    }
    let kind = kind_of_value(&values[0]);
    if are_of_kind(values, kind) {
        Some(kind)
    } else {
        None
    }
}

// Values as a list.
fn listed(values: Vec<Value>) -> Value
    ensures { tree result ≡ list (items_of (map tree values.items)) }
{
    Value::List(Values::from_vec(values))
}

// Values of one kind as a vector.
#[tactic(auto, using(crate::proofs::ReadyLemmas::all_of_one_kind))]
fn vector_of_kind(alloc: Global, values: &[Value], kind: Kind) -> Result<Value, NoMemory>
    requires { one_kind (map tree values.now) ≡ Some kind }
    ensures { IfOk result (λ v. tree v ≡ together_of (Some kind) (map tree values.now)) }
{
    let atoms = vector_of(alloc, values, kind)?;
    Ok(Value::Vector(atoms))
}

// Values as a vector where all are atoms of one kind, or else as a list.
fn gathered(alloc: Global, values: Vec<Value>) -> Result<Value, NoMemory>
    ensures { IfOk result (λ v. tree v ≡ together (map tree values.items)) }
{
    match kind_of_all(&values) {
        Some(kind) => vector_of_kind(alloc, &values, kind),
        None => Ok(listed(values)),
    }
}

// The dictionary of several columns.
fn dictionary_of(alloc: Global, columns: &[Col], scope: &Scope) -> Result<Value, NoMemory>
    requires { All (λ c. IsReady scope.now (form c.expr)) columns.now }
    ensures { IfOk result (λ v. tree v
        ≡ dict (names_vector (map column_name (map column_form columns.now))) (together (values_of scope.now (map column_form columns.now)))) }
{
    let names = symbols_of(alloc, columns)?;
    let values = values_of_columns(alloc, columns, scope)?;
    let keys = Value::Vector(Vector::from_column(Column::Symbols(names)));
    let values = gathered(alloc, values)?;
    Ok(Value::Dict(Box::new(alloc, Pair { keys, values })?))
}

/// The value of an `exec`: that of its one column, or else a dictionary from the names of its columns to their values.
pub fn every_value(alloc: Global, columns: &[Col], scope: &Scope) -> Result<Value, NoMemory>
    requires { All (λ c. IsReady scope.now (form c.expr)) columns.now }
    ensures { IfOk result (λ v. tree v
        ≡ execution_of (map column_name (map column_form columns.now)) (values_of scope.now (map column_form columns.now))) }
{
    if columns.len() == 1 {
        value_of_column(alloc, &columns[0], scope)
    } else {
        dictionary_of(alloc, columns, scope)
    }
}
