//! Whether items lie between two atoms.
ghost use Rattle.std.specs.Prelude.{◌≡◌, ◌≢◌, IsSome, map, IfOk};
ghost use Rattle.q_values.specs.Atom.{kind_of};
ghost use Rattle.q_values.specs.Bytes.{HasNoNul};
ghost use Rattle.q_values.specs.declared.atom.Atom.TheVariants as a;
ghost use Rattle.q_values.specs.declared.kind.Kind.TheVariants as k;
ghost use Rattle.q_lanes.specs.Lanes.{cell_kind, cell_atoms, text_items};
ghost use Rattle.q_lanes.specs.Loops.{worth_in_64};
ghost use Rattle.q_verbs.specs.Kinds.{comparison_kind};
ghost use Rattle.q_verbs.specs.Numbers.{numeric, worth};
ghost use Rattle.q_verbs.specs.Sides.{side_kind, items_of};
ghost use Rattle.q_verbs.specs.Tests.{lies_within};

use crate::flags::flags_of;
use q_lanes::{Cells, Number, Ordered, Rule, TextList, Texts, booleans, number_of_atom, order_of};
use q_values::{Atom, Element, NoMemory, ShortSymbol, Vector};
use q_verbs::Side;
use std::alloc::{AllocError, Global};

// Whether an item lies between two of its type.
#[derive(Clone, Copy)]
struct Between<T> {
    low: T,
    high: T,
}

impl<T: Ordered> Rule<T, bool> for Between<T> {
    ghost use Rattle.q_verbs.specs.Tests.{lies_within};

    ghost value = { λ s x. lies_within (T.own_worth s.low) (T.own_worth s.high) (T.own_worth x) };

    fn apply(&self, x: &T) -> bool {
        self.low.order(x).is_le() & x.order(&self.high).is_le()
    }
}

fn within_items<T: Ordered>(
    alloc: Global,
    items: &[T],
    low: &T,
    high: &T,
) -> Result<Vec<bool>, AllocError>
    ensures { IfOk result (λ v. v.items
        ≡ map (λ x. lies_within (T.own_worth low.now) (T.own_worth high.now) (T.own_worth x)) items.now) }
{
    let rule = Between {
        low: *low,
        high: *high,
    };
    flags_of::<Between<T>, T>(alloc, &rule, items)
}

// Whether a number of any width lies between two numbers of 64 bits.
#[derive(Clone, Copy)]
struct BetweenWide {
    low: i64,
    high: i64,
}

impl<T: Number> Rule<T, bool> for BetweenWide {
    ghost use Rattle.q_lanes.specs.Loops.{worth_in_64};
    ghost use Rattle.q_verbs.specs.Numbers.{numeric};
    ghost use Rattle.q_verbs.specs.Tests.{lies_within};

    ghost value = { λ s x. lies_within (worth_in_64 s.low) (worth_in_64 s.high) (numeric (T.number x)) };

    fn apply(&self, x: &T) -> bool {
        lies_between(&x.widened(), &self.low, &self.high)
    }
}

fn lies_between(x: &i64, low: &i64, high: &i64) -> bool
    ensures { result ≡ lies_within (worth_in_64 low.now) (worth_in_64 high.now) (worth_in_64 x.now) }
{
    order_of(low, x).is_le() & order_of(x, high).is_le()
}

fn within_numbers<T: Number>(
    alloc: Global,
    items: &[T],
    low: &i64,
    high: &i64,
) -> Result<Vec<bool>, AllocError>
    ensures { IfOk result (λ v. v.items
        ≡ map (λ x. lies_within (worth_in_64 low.now) (worth_in_64 high.now) (numeric (T.number x))) items.now) }
{
    let rule = BetweenWide {
        low: *low,
        high: *high,
    };
    flags_of::<BetweenWide, T>(alloc, &rule, items)
}

// Numbers of any width between numbers of 64 bits.
fn within_mixed(
    alloc: Global,
    cells: &Cells<'_>,
    low: &i64,
    high: &i64,
) -> Result<Vec<bool>, NoMemory>
    requires { cell_kind cells.now ≢ k.Symbol }
    ensures { IfOk result (λ v. v.items
        ≡ map (λ x. lies_within (worth_in_64 low.now) (worth_in_64 high.now) (worth x)) (cell_atoms 1 cells.now)) }
{
    match cells {
        Cells::Booleans(items) => Ok(within_numbers(alloc, items.alone(), low, high)?),
        Cells::Bytes(_, items) => Ok(within_numbers(alloc, items.alone(), low, high)?),
        Cells::Shorts(items) => Ok(within_numbers(alloc, items.alone(), low, high)?),
        Cells::Integers(_, items) => Ok(within_numbers(alloc, items.alone(), low, high)?),
        Cells::Longs(_, items) => Ok(within_numbers(alloc, items.alone(), low, high)?),
        Cells::Symbols(_) => unreachable!(),
    }
}

// Numbers of a side between two atoms of any width.
fn within_numbers_of(
    alloc: Global,
    left: &Side<'_>,
    low: &Atom,
    high: &Atom,
) -> Result<Vec<bool>, NoMemory>
    requires left { side_kind left.now ≢ k.Symbol }
    requires low { kind_of low.now ≢ k.Symbol }
    requires high { kind_of high.now ≢ k.Symbol }
    ensures { IfOk result (λ v. v.items
        ≡ map (λ x. lies_within (worth low.now) (worth high.now) (worth x)) (items_of left.now)) }
{
    let cells = Cells::of(left);
    let values = within_mixed(alloc, &cells, &number_of_atom(low), &number_of_atom(high))?;
    Ok(values)
}

fn symbol_lies_between(x: &[u8], low: &[u8], high: &[u8]) -> bool
    ensures { result ≡ lies_within (worth (a.Symbol low.now)) (worth (a.Symbol high.now)) (worth (a.Symbol x.now)) }
{
    low.cmp(x).is_le() && x.cmp(high).is_le()
}

fn within_list<L: TextList>(
    alloc: Global,
    items: &L,
    low: &[u8],
    high: &[u8],
) -> Result<Vec<bool>, AllocError>
    ensures { IfOk result (λ v. v.items ≡ map
        (λ s. lies_within (worth (a.Symbol low.now)) (worth (a.Symbol high.now)) (worth (a.Symbol s)))
        (L.texts items.now)) }
{
    let mut values = Vec::with_capacity(alloc, items.count())?;
    for i in 0..items.count() {
        values.push_reserved(symbol_lies_between(items.text(i), low, high));
    }
    Ok(values)
}

fn within_texts(
    alloc: Global,
    items: &Texts<'_>,
    low: &[u8],
    high: &[u8],
) -> Result<Vec<bool>, AllocError>
    ensures { IfOk result (λ v. v.items ≡ map
        (λ s. lies_within (worth (a.Symbol low.now)) (worth (a.Symbol high.now)) (worth (a.Symbol s)))
        (text_items 1 items.now)) }
{
    match items.arena() {
        Some(arena) => within_list(alloc, arena, low, high),
        None => within_list(alloc, &items.beside(1), low, high),
    }
}

fn within_names(
    alloc: Global,
    items: &Texts<'_>,
    low: &[u8],
    high: &[u8],
) -> Result<Vec<bool>, AllocError>
    requires low { HasNoNul low.now }
    requires high { HasNoNul high.now }
    ensures { IfOk result (λ v. v.items ≡ map
        (λ s. lies_within (worth (a.Symbol low.now)) (worth (a.Symbol high.now)) (worth (a.Symbol s)))
        (text_items 1 items.now)) }
{
    match (items.short(), ShortSymbol::of(low), ShortSymbol::of(high)) {
        (Some(short), Some(from), Some(to)) => {
            within_items::<ShortSymbol>(alloc, short.alone(), &from, &to)
        }
        _ => within_texts(alloc, items, low, high),
    }
}

// Where the items and the ends are stored alike, they are compared as they are.
fn within_side(
    alloc: Global,
    left: &Side<'_>,
    low: &Atom,
    high: &Atom,
) -> Result<Vec<bool>, NoMemory>
    requires row { IsSome (comparison_kind (side_kind left.now) (kind_of low.now)) }
    requires same { kind_of high.now ≡ kind_of low.now }
    ensures { IfOk result (λ v. v.items
        ≡ map (λ x. lies_within (worth low.now) (worth high.now) (worth x)) (items_of left.now)) }
{
    match (Cells::of(left), low.element(), high.element()) {
        (Cells::Booleans(items), Element::Boolean(from), Element::Boolean(to)) => {
            Ok(within_items(alloc, items.alone(), &from, &to)?)
        }
        (Cells::Bytes(_, items), Element::Byte(_, from), Element::Byte(_, to)) => {
            Ok(within_items(alloc, items.alone(), &from, &to)?)
        }
        (Cells::Shorts(items), Element::Short(from), Element::Short(to)) => {
            Ok(within_items(alloc, items.alone(), from, to)?)
        }
        (Cells::Integers(_, items), Element::Integer(_, from), Element::Integer(_, to)) => {
            Ok(within_items(alloc, items.alone(), from, to)?)
        }
        (Cells::Longs(_, items), Element::Long(_, from), Element::Long(_, to)) => {
            Ok(within_items(alloc, items.alone(), from, to)?)
        }
        (Cells::Symbols(items), Element::Symbol(from), Element::Symbol(to)) => {
            Ok(within_names(alloc, &items, from, to)?)
        }
        _ => within_numbers_of(alloc, left, low, high),
    }
}

/// Whether each item lies between the two atoms, both included (KX, within). The atoms have one kind, which can be
/// compared with that of the items; a null lies below every number. An atom at the left gives one item.
pub fn is_within(
    alloc: Global,
    left: &Side<'_>,
    low: &Atom,
    high: &Atom,
) -> Result<Vector, NoMemory>
    requires row { IsSome (comparison_kind (side_kind left.now) (kind_of low.now)) }
    requires same { kind_of high.now ≡ kind_of low.now }
    ensures { IfOk result (λ v. v ≡ record {
      kind = k.Boolean;
      atoms
          = map (λ x. a.Boolean (lies_within (worth low.now) (worth high.now) (worth x))) (items_of left.now);
    }) }
{
    let values = within_side(alloc, left, low, high)?;
    Ok(booleans(values))
}
