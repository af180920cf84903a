//! Columns as numbers of 64 bits.
ghost use Rattle.std.specs.Prelude.{◌≡◌, ◌≢◌, ℕ, map, IfOk};
ghost use Rattle.q_values.specs.Atom.{kind_of};
ghost use Rattle.q_values.specs.Column.{contents};
ghost use Rattle.q_values.specs.declared.kind.Kind.TheVariants as k;
ghost use Rattle.q_verbs.specs.Numbers.{worth};
ghost use Rattle.q_lanes.specs.Lanes.{lane_items};
ghost use Rattle.q_lanes.specs.Loops.{wide_items, side_items, worth_in_64};
ghost use Rattle.q_verbs.specs.Sides.{side_kind, spread};

use crate::lane::Lane;
use crate::number::{Number, widened_all};
use q_values::{Atom, Column, Element, NoMemory};
use q_verbs::Side;
use std::alloc::Global;

/// Numbers of 64 bits, the least one for the null: those of a column of that width, or made of a narrower column.
#[derive(Drop)]
pub enum Wide<'a> {
    /// The items of a column of 64 bits.
    Lent(&'a [i64]),
    /// The items of a narrower column, widened.
    Made(Vec<i64>),
}

impl<'a> Wide<'a> {
    /// The numbers of a column. Only for a narrower column are they allocated.
    pub fn of(alloc: Global, column: &'a Column) -> Result<Wide<'a>, NoMemory>
        requires { (contents column.now).kind ≢ k.Symbol }
        ensures { IfOk result
            (λ w. map worth_in_64 (wide_items w) ≡ map worth (contents column.now).atoms) }
    {
        match column {
            Column::Booleans(items) => Ok(Wide::Made(widened_all(alloc, items)?)),
            Column::Bytes(_, items) => Ok(Wide::Made(widened_all(alloc, items)?)),
            Column::Shorts(items) => Ok(Wide::Made(widened_all(alloc, items)?)),
            Column::Integers(_, items) => Ok(Wide::Made(widened_all(alloc, items)?)),
            Column::Longs(_, items) => Ok(Wide::Lent(items)),
            Column::Symbols(_) => unreachable!(),
        }
    }

    /// The numbers.
    pub fn as_slice(&self) -> &[i64]
        ensures { result.now ≡ wide_items self.now }
    {
        match self {
            Wide::Lent(items) => items,
            Wide::Made(items) => items.as_slice(),
        }
    }
}

/// An atom's number in 64 bits, the least one for the null.
pub fn number_of_atom(atom: &Atom) -> i64
    requires { kind_of atom.now ≢ k.Symbol }
    ensures { worth_in_64 result ≡ worth atom.now }
{
    match atom.element() {
        Element::Boolean(x) => x.widened(),
        Element::Byte(_, x) => x.widened(),
        Element::Short(x) => x.widened(),
        Element::Integer(_, x) => x.widened(),
        Element::Long(_, x) => x.widened(),
        Element::Symbol(_) => unreachable!(),
    }
}

/// The numbers of a side in 64 bits, the least one for the null.
#[derive(Drop)]
pub enum WideSide<'a> {
    /// Those of a column.
    Column(Wide<'a>),
    /// That of an atom.
    Atom(i64),
}

impl<'a> WideSide<'a> {
    /// The numbers of a side. Only for a column that is narrower they are allocated.
    pub fn of(alloc: Global, side: &Side<'a>) -> Result<WideSide<'a>, NoMemory>
        requires { side_kind side.now ≢ k.Symbol }
        ensures { IfOk result
            (λ w. (n : ℕ) → map worth_in_64 (side_items n w) ≡ map worth (spread n side.now)) }
    {
        match side {
            Side::Column(items) => Ok(WideSide::Column(Wide::of(alloc, items.column())?)),
            Side::Atom(atom) => Ok(WideSide::Atom(number_of_atom(atom))),
        }
    }

    /// The numbers, lent.
    pub fn lane(&self) -> Lane<'_, i64>
        ensures { (n : ℕ) → lane_items n result ≡ side_items n self.now }
    {
        match self {
            WideSide::Column(items) => Lane::Each(items.as_slice()),
            WideSide::Atom(x) => Lane::Every(*x),
        }
    }
}
