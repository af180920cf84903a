//! Whether items are equal to one of those of another side.
ghost use Rattle.std.specs.Prelude.{◌≡◌, ◌≢◌, IsSome, map, IfOk};
ghost use Rattle.std.specs.List.{list_any};
ghost use Rattle.std.specs.Ordering.{is_eq};
ghost use Rattle.q_values.specs.declared.atom.Atom.TheVariants as a;
ghost use Rattle.q_values.specs.declared.kind.Kind.TheVariants as k;
ghost use Rattle.q_lanes.specs.Lanes.{cell_kind, cell_atoms};
ghost use Rattle.q_verbs.specs.Kinds.{comparison_kind};
ghost use Rattle.q_verbs.specs.Numbers.{numeric, worth, worth_cmp};
ghost use Rattle.q_verbs.specs.Sides.{side_kind, items_of};
ghost use Rattle.q_verbs.specs.Tests.{is_among};

use crate::among_names::among_names;
use crate::among_numbers::{among_alike, among_numbers};
use q_lanes::{Cells, Number, booleans};
use q_values::{NoMemory, Vector};
use q_verbs::Side;
use std::alloc::Global;

// Numbers of one width among those of cells of any width.
fn among_cells<T: Number>(
    alloc: Global,
    left: &[T],
    items: &Cells<'_>,
) -> Result<Vec<bool>, NoMemory>
    requires { cell_kind items.now ≢ k.Symbol }
    ensures { IfOk result (λ v. v.items ≡ map
        (λ x. list_any (λ y. is_eq (worth_cmp (numeric (T.number x)) (worth y))) (cell_atoms 1 items.now)) left.now) }
{
    match items {
        Cells::Booleans(others) => Ok(among_numbers(alloc, left, others.alone())?),
        Cells::Bytes(_, others) => Ok(among_numbers(alloc, left, others.alone())?),
        Cells::Shorts(others) => Ok(among_numbers(alloc, left, others.alone())?),
        Cells::Integers(_, others) => Ok(among_numbers(alloc, left, others.alone())?),
        Cells::Longs(_, others) => Ok(among_numbers(alloc, left, others.alone())?),
        Cells::Symbols(_) => unreachable!(),
    }
}

// Cells of any width among others.
fn among_mixed(alloc: Global, left: &Cells<'_>, items: &Cells<'_>) -> Result<Vec<bool>, NoMemory>
    requires left { cell_kind left.now ≢ k.Symbol }
    requires items { cell_kind items.now ≢ k.Symbol }
    ensures { IfOk result (λ v. v.items ≡ map (is_among (cell_atoms 1 items.now)) (cell_atoms 1 left.now)) }
{
    match left {
        Cells::Booleans(some) => Ok(among_cells(alloc, some.alone(), items)?),
        Cells::Bytes(_, some) => Ok(among_cells(alloc, some.alone(), items)?),
        Cells::Shorts(some) => Ok(among_cells(alloc, some.alone(), items)?),
        Cells::Integers(_, some) => Ok(among_cells(alloc, some.alone(), items)?),
        Cells::Longs(_, some) => Ok(among_cells(alloc, some.alone(), items)?),
        Cells::Symbols(_) => unreachable!(),
    }
}

// Where both sides are stored alike, their items are compared as they are.
fn among_sides(alloc: Global, left: &Side<'_>, items: &Side<'_>) -> Result<Vec<bool>, NoMemory>
    requires { IsSome (comparison_kind (side_kind left.now) (side_kind items.now)) }
    ensures { IfOk result (λ v. v.items ≡ map (is_among (items_of items.now)) (items_of left.now)) }
{
    match (Cells::of(left), Cells::of(items)) {
        (Cells::Booleans(some), Cells::Booleans(others)) => {
            Ok(among_alike(alloc, some.alone(), others.alone())?)
        }
        (Cells::Bytes(_, some), Cells::Bytes(_, others)) => {
            Ok(among_alike(alloc, some.alone(), others.alone())?)
        }
        (Cells::Shorts(some), Cells::Shorts(others)) => {
            Ok(among_alike(alloc, some.alone(), others.alone())?)
        }
        (Cells::Integers(_, some), Cells::Integers(_, others)) => {
            Ok(among_alike(alloc, some.alone(), others.alone())?)
        }
        (Cells::Longs(_, some), Cells::Longs(_, others)) => {
            Ok(among_alike(alloc, some.alone(), others.alone())?)
        }
        (Cells::Symbols(some), Cells::Symbols(others)) => Ok(among_names(alloc, &some, &others)?),
        _ => among_mixed(alloc, &Cells::of(left), &Cells::of(items)),
    }
}

/// Whether each item of the left side is equal to one of `items` (KX, in). A null is equal to a null. An atom at the left
/// gives one item, and an atom at the right is one item to be equal to.
pub fn is_in(alloc: Global, left: &Side<'_>, items: &Side<'_>) -> Result<Vector, NoMemory>
    requires { IsSome (comparison_kind (side_kind left.now) (side_kind items.now)) }
    ensures { IfOk result (λ v. v ≡ record {
      kind = k.Boolean;
      atoms
          = map (λ x. a.Boolean (is_among (items_of items.now) x)) (items_of left.now);
    }) }
{
    let values = among_sides(alloc, left, items)?;
    Ok(booleans(values))
}
