//! The items of a side in the storage of their kind.
ghost use Rattle.std.specs.Prelude.{◌≡◌, ◌≢◌, ℕ, replicate};
ghost use Rattle.q_values.specs.Atom.{kind_of};
ghost use Rattle.q_values.specs.Column.{contents};
ghost use Rattle.q_values.specs.declared.kind.Kind.TheVariants as k;
ghost use Rattle.q_lanes.specs.Lanes.{cell_kind, cell_atoms};
ghost use Rattle.q_verbs.specs.Sides.{side_kind, spread};

use crate::lane::Lane;
use crate::texts::Texts;
use q_values::{Atom, ByteKind, Column, Element, IntegerKind, LongKind};
use q_verbs::Side;

/// The items of a side.
#[derive(Drop)]
pub enum Cells<'a> {
    /// Booleans.
    Booleans(Lane<'a, bool>),
    /// Bytes or characters.
    Bytes(ByteKind, Lane<'a, u8>),
    /// Numbers of 16 bits.
    Shorts(Lane<'a, i16>),
    /// Numbers of 32 bits.
    Integers(IntegerKind, Lane<'a, i32>),
    /// Numbers of 64 bits.
    Longs(LongKind, Lane<'a, i64>),
    /// Symbols.
    Symbols(Texts<'a>),
}

impl<'a> Cells<'a> {
    /// The items of a column.
    pub fn of_column(column: &'a Column) -> Cells<'a>
        ensures kind { cell_kind result ≡ (contents column.now).kind }
        ensures atoms { (n : ℕ) → cell_atoms n result ≡ (contents column.now).atoms }
    {
        match column {
            Column::Booleans(items) => Cells::Booleans(Lane::Each(items)),
            Column::Bytes(kind, items) => Cells::Bytes(*kind, Lane::Each(items)),
            Column::Shorts(items) => Cells::Shorts(Lane::Each(items)),
            Column::Integers(kind, items) => Cells::Integers(*kind, Lane::Each(items)),
            Column::Longs(kind, items) => Cells::Longs(*kind, Lane::Each(items)),
            Column::Symbols(symbols) => Cells::Symbols(Texts::Each(symbols)),
        }
    }

    // The items beside others that an atom stands for.
    fn of_number(atom: &'a Atom) -> Cells<'a>
        requires { kind_of atom.now ≢ k.Symbol }
        ensures kind { cell_kind result ≡ kind_of atom.now }
        ensures atoms { (n : ℕ) → cell_atoms n result ≡ replicate n atom.now }
    {
        match atom.element() {
            Element::Boolean(x) => Cells::Booleans(Lane::Every(x)),
            Element::Byte(kind, x) => Cells::Bytes(kind, Lane::Every(x)),
            Element::Short(x) => Cells::Shorts(Lane::Every(*x)),
            Element::Integer(kind, x) => Cells::Integers(kind, Lane::Every(*x)),
            Element::Long(kind, x) => Cells::Longs(kind, Lane::Every(*x)),
            Element::Symbol(_) => unreachable!(),
        }
    }

    fn of_atom(atom: &'a Atom) -> Cells<'a>
        ensures kind { cell_kind result ≡ kind_of atom.now }
        ensures atoms { (n : ℕ) → cell_atoms n result ≡ replicate n atom.now }
    {
        match atom {
            Atom::Symbol(symbol) => Cells::Symbols(Texts::Every(symbol)),
            other => Cells::of_number(other),
        }
    }

    /// The items of a side.
    pub fn of(side: &Side<'a>) -> Cells<'a>
        ensures kind { cell_kind result ≡ side_kind side.now }
        ensures atoms { (n : ℕ) → cell_atoms n result ≡ spread n side.now }
    {
        match side {
            Side::Column(items) => Cells::of_column(items.column()),
            Side::Atom(atom) => Cells::of_atom(atom),
        }
    }
}
