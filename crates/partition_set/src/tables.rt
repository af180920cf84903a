//! Tables as kdb+ values: a list of the table's name, the names of its columns and their types.
ghost use Rattle.std.specs.Prelude.{◌≡◌, ◌≢◌, ◌∷◌, ◌++◌, [], ℕ, List, length, IfOk, IfSome, IfNone, map};
ghost use Rattle.q_values.specs.Contents.{Contents};
ghost use Rattle.q_values.specs.Tree.{tree, atom, vector};
ghost use Rattle.q_values.specs.declared.kind.Kind.{Kind};
ghost use Rattle.q_values.specs.declared.kind.Kind.TheVariants as k;
ghost use Rattle.q_values.specs.declared.atom.Atom.TheVariants as a;
ghost use Rattle.q_values.specs.Kind.{kind_at, type_number};
ghost use Rattle.day_rows.specs.declared.schema.Shape.{Shape};
ghost use Rattle.partition_set.specs.Records.{symbols, types, shape_parts, shape_tree};

use day_rows::{Kinds, Shape};
use q_values::{
    Atom, ByteKind, Column, Kind, Names, NoMemory, Sym, Symbols, Value, Values, Vector,
};
use std::alloc::Global;

// A vector of these names.
fn symbols_of(alloc: Global, names: &[Sym]) -> Result<Vector, NoMemory>
    ensures { IfOk result (λ v. v ≡ symbols names.now) }
{
    let mut items = Symbols::new(alloc);
    for name in names {
        items.push(name.bytes())?;
    }
    Ok(Vector::from_column(Column::Symbols(items)))
}

// A vector of the type numbers of these kinds.
fn types_of(alloc: Global, kinds: &[Kind]) -> Result<Vector, NoMemory>
    ensures { IfOk result (λ v. v ≡ types kinds.now) }
{
    let mut items = Vec::new(alloc);
    for kind in kinds {
        items.push(kind.type_number())?;
    }
    Ok(Vector::from_column(Column::Bytes(ByteKind::Byte, items)))
}

/// A table as a value.
pub fn value_of(alloc: Global, shape: &Shape) -> Result<Value, NoMemory>
    ensures { IfOk result (λ value. tree value ≡ shape_tree shape.now) }
{
    let mut parts = Values::new(alloc);
    parts.push(Value::Atom(Atom::Symbol(Sym::copied(alloc, shape.table.bytes())?)))?;
    parts.push(Value::Vector(symbols_of(alloc, shape.names.as_slice())?))?;
    parts.push(Value::Vector(types_of(alloc, shape.kinds.as_slice())?))?;
    Ok(Value::List(parts))
}

// Copies of the names, in order.
fn copied_names(alloc: Global, items: &Symbols) -> Result<Names, NoMemory>
    ensures { IfOk result (λ names. names ≡ items.now) }
{
    let mut names = Names::new(alloc);
    for i in 0..items.len() {
        names.push(Sym::copied(alloc, items.at(i))?)?;
    }
    Ok(names)
}

// The names that a vector of symbols holds.
fn names_in(alloc: Global, vector: &Vector) -> Result<Option<Names>, NoMemory>
    ensures some { IfOk result (λ found. IfSome found (λ names. vector.now ≡ symbols names)) }
    ensures none { IfOk result (λ found. IfNone found ((names : List (List ℕ)) → vector.now ≢ symbols names)) }
{
    match vector.column() {
        Column::Symbols(items) => Ok(Some(copied_names(alloc, items)?)),
        _ => Ok(None),
    }
}

// The kinds of these type numbers, where each is one of a kind.
fn kinds_of(alloc: Global, items: &[u8]) -> Result<Option<Kinds>, NoMemory>
    ensures some { IfOk result (λ found. IfSome found (λ kinds. items.now ≡ map type_number kinds)) }
    ensures none { IfOk result (λ found. IfNone found ((kinds : List Kind) → items.now ≢ map type_number kinds)) }
{
    let mut kinds = Kinds::new(alloc);
    for item in items {
        match Kind::from_type_number(u16::from(*item)) {
            Some(kind) => kinds.push(kind)?,
            None => return Ok(None),
        }
    }
    Ok(Some(kinds))
}

// The bytes of a vector of bytes.
fn bytes_in(vector: &Vector) -> Option<&[u8]>
    ensures some { IfSome result (λ items. vector.now ≡ record { kind = k.Byte; atoms = map a.Byte items.now }) }
    ensures none { IfNone result ((kinds : List Kind) → vector.now ≢ types kinds) }
{
    match vector.column() {
        Column::Bytes(ByteKind::Byte, items) => Some(items.as_slice()),
        _ => None,
    }
}

// The kinds whose type numbers a vector of bytes holds.
fn kinds_in(alloc: Global, vector: &Vector) -> Result<Option<Kinds>, NoMemory>
    ensures some { IfOk result (λ found. IfSome found (λ kinds. vector.now ≡ types kinds)) }
    ensures none { IfOk result (λ found. IfNone found ((kinds : List Kind) → vector.now ≢ types kinds)) }
{
    let Some(items) = bytes_in(vector) else {
        return Ok(None);
    };
    match kinds_of(alloc, items)? {
        Some(kinds) => Ok(Some(kinds)),
        None => Ok(None),
    }
}

// The table with this name, these columns and their kinds.
fn shape_of_parts(
    alloc: Global,
    table: &Sym,
    names: &Vector,
    kinds: &Vector,
) -> Result<Option<Shape>, NoMemory>
    ensures some { IfOk result (λ found. IfSome found (λ shape.
        (table.now ≡ shape.table) × (names.now ≡ symbols shape.names) × (kinds.now ≡ types shape.kinds))) }
    ensures none { IfOk result (λ found. IfNone found ((shape : Shape) →
        table.now ≡ shape.table → names.now ≡ symbols shape.names → kinds.now ≢ types shape.kinds)) }
{
    let Some(names) = names_in(alloc, names)? else {
        return Ok(None);
    };
    let Some(kinds) = kinds_in(alloc, kinds)? else {
        return Ok(None);
    };
    Ok(Some(Shape {
        table: Sym::copied(alloc, table.bytes())?,
        names,
        kinds,
    }))
}

// The symbol that a value is.
fn as_symbol(value: &Value) -> Option<&Sym>
    ensures some { IfSome result (λ name. tree value.now ≡ atom (a.Symbol name.now)) }
    ensures none { IfNone result ((name : List ℕ) → tree value.now ≢ atom (a.Symbol name)) }
{
    match value {
        Value::Atom(Atom::Symbol(name)) => Some(name),
        _ => None,
    }
}

// The vector that a value is.
fn as_vector(value: &Value) -> Option<&Vector>
    ensures some { IfSome result (λ items. tree value.now ≡ vector items.now) }
    ensures none { IfNone result ((items : Contents) → tree value.now ≢ vector items) }
{
    match value {
        Value::Vector(items) => Some(items),
        _ => None,
    }
}

// The table of which these are the three parts.
fn shape_of_three(
    alloc: Global,
    table: &Value,
    names: &Value,
    kinds: &Value,
) -> Result<Option<Shape>, NoMemory>
    ensures some { IfOk result (λ found. IfSome found (λ shape. tree table.now ∷ tree names.now ∷ tree kinds.now ∷ [] ≡ shape_parts shape)) }
    ensures none { IfOk result (λ found. IfNone found ((shape : Shape) →
        tree table.now ∷ tree names.now ∷ tree kinds.now ∷ [] ≢ shape_parts shape)) }
{
    let Some(table) = as_symbol(table) else {
        return Ok(None);
    };
    let Some(names) = as_vector(names) else {
        return Ok(None);
    };
    let Some(kinds) = as_vector(kinds) else {
        return Ok(None);
    };
    match shape_of_parts(alloc, table, names, kinds)? {
        Some(shape) => Ok(Some(shape)),
        None => Ok(None),
    }
}

// The table of which this is the list of parts.
fn shape_of_list(alloc: Global, parts: &[Value]) -> Result<Option<Shape>, NoMemory>
    ensures some { IfOk result (λ found. IfSome found (λ shape. map tree parts.now ≡ shape_parts shape)) }
    ensures none { IfOk result (λ found. IfNone found ((shape : Shape) → map tree parts.now ≢ shape_parts shape)) }
{
    match parts {
        [table, names, kinds] => match shape_of_three(alloc, table, names, kinds)? {
            Some(shape) => Ok(Some(shape)),
            None => Ok(None),
        },
        _ => Ok(None),
    }
}

/// The table that a value says, if it says one.
pub fn shape_in(alloc: Global, value: &Value) -> Result<Option<Shape>, NoMemory>
    ensures some { IfOk result (λ found. IfSome found (λ shape. tree value.now ≡ shape_tree shape)) }
    ensures none { IfOk result (λ found. IfNone found ((shape : Shape) → tree value.now ≢ shape_tree shape)) }
{
    match value {
        Value::List(parts) => match shape_of_list(alloc, parts.as_slice())? {
            Some(shape) => Ok(Some(shape)),
            None => Ok(None),
        },
        _ => Ok(None),
    }
}
