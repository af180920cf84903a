//! The rows of an update that a filter chooses.
ghost use Rattle.std.specs.Prelude.{◌≡◌, true, map, replicate, IfOk};
ghost use Rattle.std.specs.List.{list_any, list_all};
ghost use Rattle.std.specs.Str.{bytes_eq};
ghost use Rattle.q_values.specs.declared.kind.Kind.TheVariants as k;
ghost use Rattle.pubsub.specs.Parts.{AreMarked};
ghost use Rattle.pubsub.specs.Told.{chooses};

use crate::filter::Filter;
use crate::symbol_set::SymbolSet;
use q_filter::places_where;
use q_values::{Column, Form, NoMemory, ShortSymbol, Symbols, Vector};
use std::alloc::Global;

/// Some of the rows of an update; there is at least one.
#[derive(Drop)]
pub enum Rows {
    /// All.
    All,
    /// Those with these indices, which ascend.
    At(Vec<usize>),
}

fn has_any_long(set: &SymbolSet, names: &Symbols) -> bool
    ensures { result ≡ list_any (λ name. list_any (bytes_eq name) set.now) names.now }
{
    for i in 0..names.len() {
        if set.has(names.at(i)) {
            return true;
        }
    }
    false
}

// Whether the set has some of the names.
fn has_any(set: &SymbolSet, names: &Symbols) -> bool
    ensures { result ≡ list_any (λ name. list_any (bytes_eq name) set.now) names.now }
{
    match names.form() {
        Form::Short(items) => items.iter().any(|name| set.has_short(name)),
        Form::Long(_) => has_any_long(set, names),
    }
}

fn has_all_long(set: &SymbolSet, names: &Symbols) -> bool
    ensures { result ≡ list_all (λ name. list_any (bytes_eq name) set.now) names.now }
{
    for i in 0..names.len() {
        if !set.has(names.at(i)) {
            return false;
        }
    }
    true
}

// Whether the set has all of the names.
fn has_all(set: &SymbolSet, names: &Symbols) -> bool
    ensures { result ≡ list_all (λ name. list_any (bytes_eq name) set.now) names.now }
{
    match names.form() {
        Form::Short(items) => items.iter().all(|name| set.has_short(name)),
        Form::Long(_) => has_all_long(set, names),
    }
}

fn short_marks(alloc: Global, set: &SymbolSet, names: &[ShortSymbol]) -> Result<Vec<bool>, NoMemory>
    ensures { IfOk result (λ marks. marks.items ≡ map (λ name. list_any (bytes_eq name) set.now) names.now) }
{
    let mut marks = Vec::with_capacity(alloc, names.len())?;
    for name in names {
        marks.push_reserved(set.has_short(name));
    }
    Ok(marks)
}

fn long_marks(alloc: Global, set: &SymbolSet, names: &Symbols) -> Result<Vec<bool>, NoMemory>
    ensures { IfOk result (λ marks. marks.items ≡ map (λ name. list_any (bytes_eq name) set.now) names.now) }
{
    let mut marks = Vec::with_capacity(alloc, names.len())?;
    for i in 0..names.len() {
        marks.push_reserved(set.has(names.at(i)));
    }
    Ok(marks)
}

// Whether the set has each name.
fn marks_of(alloc: Global, set: &SymbolSet, names: &Symbols) -> Result<Vec<bool>, NoMemory>
    ensures { IfOk result (λ marks. marks.items ≡ map (λ name. list_any (bytes_eq name) set.now) names.now) }
{
    match names.form() {
        Form::Short(items) => short_marks(alloc, set, items),
        Form::Long(_) => long_marks(alloc, set, names),
    }
}

// The rows whose names the set has, or `None` where there are none. Only where some rows stay and some don't, it takes
// memory.
fn rows_in_set(alloc: Global, set: &SymbolSet, names: &Symbols) -> Result<Option<Rows>, NoMemory>
    ensures { IfOk result (AreMarked (map (λ name. list_any (bytes_eq name) set.now) names.now)) }
{
    if !has_any(set, names) {
        return Ok(None);
    }
    if has_all(set, names) {
        return Ok(Some(Rows::All));
    }
    let marks = Vector::from_column(Column::Booleans(marks_of(alloc, set, names)?));
    Ok(Some(Rows::At(places_where(alloc, &marks)?)))
}

// All of this many rows, or `None` where there are none.
fn all_rows(n: usize) -> Option<Rows>
    ensures { AreMarked (replicate n true) result }
{
    if n == 0 { None } else { Some(Rows::All) }
}

/// The rows of the chosen symbols, or `None` where there are none. `symbols` is an update's second column.
pub fn chosen_rows(
    alloc: Global,
    filter: &Filter,
    symbols: &Vector,
) -> Result<Option<Rows>, NoMemory>
    requires { symbols.now.kind ≡ k.Symbol }
    ensures { IfOk result (AreMarked (map (chooses filter.now) symbols.now.atoms)) }
{
    match filter {
        Filter::Nothing => Ok(None),
        Filter::Everything => Ok(all_rows(symbols.len())),
        Filter::Symbols(set) => match symbols.column() {
            Column::Symbols(names) => rows_in_set(alloc, set, names),
            _ => unreachable!(),
        },
    }
}
