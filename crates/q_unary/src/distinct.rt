//! The first of equal items.
ghost use Rattle.std.specs.Prelude.{◌≡◌, ◌<◌, length, All, IfOk, nat_eq};
ghost use Rattle.std.specs.Cmp.Lexicographic.{pointwise};
ghost use Rattle.q_values.specs.Column.{contents};
ghost use Rattle.q_values.specs.Lists.{gathered};
ghost use Rattle.q_verbs.specs.Lists.{distinct, same_atom};

use q_lanes::texts_of;
use q_values::{Column, Form, NoMemory, Symbols, Vector};
use std::alloc::{AllocError, Global};
use std::collections::HashSet;
use std::hash::Hash;

// The index of the first of each set of equal items, in order.
fn first_places<T: Eq + Hash + Copy>(alloc: Global, items: &[T]) -> Result<Vec<usize>, AllocError>
    ensures items { IfOk result (λ v. gathered items.now v.items ≡ distinct T.eq items.now) }
    ensures within { IfOk result (λ v. All (λ p. p < length items.now) v.items) }
{
    let mut seen = HashSet::new(alloc);
    let mut places = Vec::new(alloc);
    for i in 0..items.len() {
        if seen.insert(items[i])? {
            places.push(i)?;
        }
    }
    Ok(places)
}

fn first_places_of_symbols(alloc: Global, symbols: &Symbols) -> Result<Vec<usize>, AllocError>
    ensures items { IfOk result (λ v. gathered symbols.now v.items ≡ distinct (pointwise nat_eq) symbols.now) }
    ensures within { IfOk result (λ v. All (λ p. p < length symbols.now) v.items) }
{
    match symbols.form() {
        Form::Short(items) => first_places(alloc, items),
        Form::Long(arena) => {
            let texts = texts_of(alloc, arena)?;
            first_places(alloc, &texts)
        }
    }
}

fn first_places_of(alloc: Global, column: &Column) -> Result<Vec<usize>, NoMemory>
    ensures items { IfOk result (λ v. gathered (contents column.now).atoms v.items
        ≡ distinct same_atom (contents column.now).atoms) }
    ensures within { IfOk result (λ v. All (λ p. p < length (contents column.now).atoms) v.items) }
{
    match column {
        Column::Booleans(items) => Ok(first_places(alloc, items)?),
        Column::Bytes(_, items) => Ok(first_places(alloc, items)?),
        Column::Shorts(items) => Ok(first_places(alloc, items)?),
        Column::Integers(_, items) => Ok(first_places(alloc, items)?),
        Column::Longs(_, items) => Ok(first_places(alloc, items)?),
        Column::Symbols(symbols) => Ok(first_places_of_symbols(alloc, symbols)?),
    }
}

/// The items, of equal ones the first, in order.
pub(crate) fn distinct_items(alloc: Global, x: &Vector) -> Result<Vector, NoMemory>
    ensures { IfOk result (λ v. v ≡ record x.now { atoms = distinct same_atom x.now.atoms }) }
{
    let places = first_places_of(alloc, x.column())?;
    let items = x.gather(alloc, &places)?;
    Ok(items)
}
