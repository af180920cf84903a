//! The items of an update: their kinds, lengths and symbols, and the columns that they make.
ghost use Rattle.std.specs.Prelude.{◌≡◌, ◌<◌, ◌≤◌, ◌+◌, [], ◌∷◌, length, map, replicate, IfOk, IfSome};
ghost use Rattle.std.specs.List.{list_any, list_all};
ghost use Rattle.q_values.specs.Atom.{kind_of};
ghost use Rattle.q_values.specs.Tree.{tree};
ghost use Rattle.q_values.specs.Column.{contents};
ghost use Rattle.plant_memory.specs.Items.{is_of_kind, vector_length, time_beside, fits_beside, have_matching_lengths, wrong_from};
ghost use Rattle.plant_memory.specs.Items.{is_long_symbol, atoms_of, has_long_symbol, spread};

use q_values::{Atom, Column, Columns, Kind, LongKind, NoMemory, Sym, Symbols, Value, Vector};
use std::alloc::Global;

/// Whether the item is an atom or a vector of the kind.
pub fn is_of_kind(item: &Value, kind: Kind) -> bool
    ensures { result ≡ is_of_kind kind (tree item.now) }
{
    match item {
        Value::Atom(atom) => atom.kind() == kind,
        Value::Vector(vector) => vector.kind() == kind,
        Value::List(_)
        | Value::Dict(_)
        | Value::Table(_)
        | Value::Keyed(_)
        | Value::Identity
        | Value::Wrong(_) => false,
    }
}

/// The number of atoms of an item that is a vector; `None` for any other.
pub fn vector_length(item: &Value) -> Option<usize>
    ensures { result ≡ vector_length (tree item.now) }
{
    match item {
        Value::Vector(vector) => Some(vector.len()),
        Value::Atom(_)
        | Value::List(_)
        | Value::Dict(_)
        | Value::Table(_)
        | Value::Keyed(_)
        | Value::Identity
        | Value::Wrong(_) => None,
    }
}

// A vector of `n` equal times.
fn repeated(alloc: Global, time: i64, n: usize) -> Result<Vector, NoMemory>
    ensures { IfOk result (λ v. v ≡ record { kind = Kind.Timespan; atoms = replicate n (Atom.Timespan time) }) }
{
    let times = vec![in alloc; time; n]?;
    Ok(Vector::from_column(Column::Longs(LongKind::Timespan, times)))
}

/// A time as an item: an atom, or a vector of `n` equal times where the item beside it is a vector of length `n`.
pub fn time_beside(alloc: Global, time: i64, beside: Option<usize>) -> Result<Value, NoMemory>
    ensures { IfOk result (λ item. tree item ≡ time_beside time beside) }
{
    match beside {
        None => Ok(Value::Atom(Atom::Timespan(time))),
        Some(n) => Ok(Value::Vector(repeated(alloc, time, n)?)),
    }
}

// Whether an item of the length `other`, if it is a vector, fits a first one.
fn fits_beside(first: Option<usize>, other: Option<usize>) -> bool
    ensures { result ≡ fits_beside first other }
{
    match (first, other) {
        (None, None) | (Some(_), None) => true,
        (None, Some(_)) => false,
        (Some(n), Some(m)) => m == n,
    }
}

// Whether each of the items fits the first.
fn all_fit(first: Option<usize>, items: &[Value]) -> bool
    ensures { result ≡ list_all (λ item. fits_beside first (vector_length item)) (map tree items.now) }
{
    for item in items {
        if !fits_beside(first, vector_length(item)) {
            return false;
        }
    }
    true
}

/// Whether there are as many items as columns, and each is an atom or a vector of the first one's length.
pub fn have_matching_lengths(columns: usize, first: &Value, others: &[Value]) -> bool
    requires { columns ≤ 48 }
    ensures { result ≡ have_matching_lengths columns (tree first.now ∷ map tree others.now) }
{
    if columns == 0 || others.len() != columns - 1 {
        return false;
    }
    all_fit(vector_length(first), others)
}

/// The index of the first item that isn't of its column's kind. The first of the items has the index `from`.
pub fn wrong_from(from: usize, kinds: &[Kind], items: &[Value]) -> Option<usize>
    requires as_many { length kinds.now ≡ length items.now }
    requires few { from + length kinds.now ≤ 48 }
    ensures value { result ≡ wrong_from from kinds.now (map tree items.now) }
    ensures within { IfSome result (λ column. column < 48) }
{
    for i in 0..items.len() {
        let kind = &kinds[i];
        if !is_of_kind(&items[i], *kind) {
            return Some(from + i);
        }
    }
    None
}

fn is_long_symbol(limit: usize, atom: &Atom) -> bool
    ensures { result ≡ is_long_symbol limit atom.now }
{
    match atom {
        Atom::Symbol(symbol) => limit < symbol.bytes().len(),
        _ => false,
    }
}

// Whether a vector has a symbol that is longer than the limit.
fn has_long_in(limit: usize, symbols: &Symbols) -> bool
    ensures { result ≡ list_any (is_long_symbol limit) (map (λ x. Atom.Symbol x) symbols.now) }
{
    for i in 0..symbols.len() {
        if limit < symbols.at(i).len() {
            return true;
        }
    }
    false
}

fn is_long_vector(limit: usize, vector: &Vector) -> bool
    ensures { result ≡ list_any (is_long_symbol limit) vector.now.atoms }
{
    match vector.column() {
        Column::Symbols(symbols) => has_long_in(limit, symbols),
        Column::Booleans(_) => false,
        Column::Bytes(_, _) => false,
        Column::Shorts(_) => false,
        Column::Integers(_, _) => false,
        Column::Longs(_, _) => false,
    }
}

fn is_long_item(limit: usize, item: &Value) -> bool
    ensures { result ≡ list_any (is_long_symbol limit) (atoms_of (tree item.now)) }
{
    match item {
        Value::Atom(atom) => is_long_symbol(limit, atom),
        Value::Vector(vector) => is_long_vector(limit, vector),
        Value::List(_)
        | Value::Dict(_)
        | Value::Table(_)
        | Value::Keyed(_)
        | Value::Identity
        | Value::Wrong(_) => false,
    }
}

// Whether one of the items has a symbol that is longer than the limit.
fn has_long_item(limit: usize, items: &[Value]) -> bool
    ensures { result ≡ has_long_symbol limit (map tree items.now) }
{
    for item in items {
        if is_long_item(limit, item) {
            return true;
        }
    }
    false
}

/// Whether one of the items has a symbol that is longer than the limit.
pub fn has_long_symbol(limit: usize, first: &Value, others: &[Value]) -> bool
    ensures { result ≡ has_long_symbol limit (tree first.now ∷ map tree others.now) }
{
    is_long_item(limit, first) || has_long_item(limit, others)
}

/// The number of atoms of an item that is an atom or a vector.
pub fn count_atoms(item: &Value) -> usize
    ensures { result ≡ length (atoms_of (tree item.now)) }
{
    match item {
        Value::Atom(_) => 1,
        Value::Vector(vector) => vector.len(),
        Value::List(_)
        | Value::Dict(_)
        | Value::Table(_)
        | Value::Keyed(_)
        | Value::Identity
        | Value::Wrong(_) => 0,
    }
}

/// The index of the first item that isn't of its column's kind.
pub fn wrong_column(kinds: &[Kind], first: &Value, others: &[Value]) -> Option<usize>
    requires as_many { length kinds.now ≡ length others.now + 1 }
    requires few { length kinds.now ≤ 48 }
    ensures value { result ≡ wrong_from 0 kinds.now (tree first.now ∷ map tree others.now) }
    ensures within { IfSome result (λ column. column < 48) }
{
    if !is_of_kind(first, kinds[0]) {
        return Some(0);
    }
    wrong_from(1, &kinds[1..], others)
}

// A column of one atom.
fn single(alloc: Global, atom: &Atom) -> Result<Vector, NoMemory>
    ensures { IfOk result (λ v. v ≡ record { kind = kind_of atom.now; atoms = atom.now ∷ [] }) }
{
    let mut vector = Vector::new(alloc, atom.kind());
    if vector.push(atom.copy(alloc)?).is_err() {
        return Err(NoMemory);
    }
    Ok(vector)
}

// A column of `n` equal atoms.
fn spread_atom(alloc: Global, atom: &Atom, n: usize) -> Result<Vector, NoMemory>
    ensures { IfOk result (λ v. v ≡ record { kind = kind_of atom.now; atoms = replicate n atom.now }) }
{
    let one = single(alloc, atom)?;
    if n == 1 {
        return Ok(one);
    }
    let indices = vec![in alloc; 0usize; n]?;
    let spread = one.gather(alloc, &indices)?;
    Ok(spread)
}

// An item as a column of `n` rows.
fn spread(alloc: Global, item: &Value, n: usize) -> Result<Vector, NoMemory>
    ensures { IfOk result (λ v. v ≡ spread n (tree item.now)) }
{
    match item {
        Value::Atom(atom) => spread_atom(alloc, atom, n),
        Value::Vector(vector) => vector.take(alloc, 0, vector.len()),
        Value::List(_)
        | Value::Dict(_)
        | Value::Table(_)
        | Value::Keyed(_)
        | Value::Identity
        | Value::Wrong(_) => Ok(Vector::new(alloc, Kind::Boolean)),
    }
}

/// The items as columns of `n` rows.
pub fn spread_all(
    alloc: Global,
    n: usize,
    first: &Value,
    others: &[Value],
) -> Result<Columns, NoMemory>
    requires { length others.now < 48 }
    ensures { IfOk result (λ columns. columns ≡ map (spread n) (tree first.now ∷ map tree others.now)) }
{
    let mut columns = Vec::with_capacity(alloc, others.len() + 1)?;
    columns.push(spread(alloc, first, n)?)?;
    for item in others {
        columns.push(spread(alloc, item, n)?)?;
    }
    Columns::from_vec(alloc, columns)
}
