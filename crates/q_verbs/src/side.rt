//! The sides of a verb with two sides.
ghost use Rattle.std.specs.Prelude.{◌≡◌};
ghost use Rattle.q_verbs.specs.Sides.{side_kind, rows};

use q_values::{Atom, Kind, Vector};

/// A side of a verb: a column, or an atom that stands for each item beside it.
#[derive(Drop)]
pub enum Side<'a> {
    /// A column.
    Column(&'a Vector),
    /// An atom.
    Atom(&'a Atom),
}

impl Side<'_> {
    /// The kind of its items.
    pub fn kind(&self) -> Kind
        ensures { result ≡ side_kind self.now }
    {
        match self {
            Side::Column(items) => items.kind(),
            Side::Atom(atom) => atom.kind(),
        }
    }
}

/// The number of items of a column among the two sides; 1 of two atoms.
pub fn rows_of(left: &Side<'_>, right: &Side<'_>) -> usize
    ensures { result ≡ rows left.now right.now }
{
    match (left, right) {
        (Side::Column(items), _) => items.len(),
        (Side::Atom(_), Side::Column(items)) => items.len(),
        (Side::Atom(_), Side::Atom(_)) => 1,
    }
}
