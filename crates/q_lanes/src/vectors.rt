//! Vectors of booleans.
ghost use Rattle.std.specs.Prelude.{◌≡◌, map};
ghost use Rattle.q_values.specs.declared.atom.Atom.TheVariants as a;
ghost use Rattle.q_values.specs.declared.kind.Kind.TheVariants as k;

use q_values::{Column, Vector};

/// A vector of booleans.
pub fn booleans(values: Vec<bool>) -> Vector
    ensures { result ≡ record { kind = k.Boolean; atoms = map (λ x. a.Boolean x) values.items } }
{
    Vector::from_column(Column::Booleans(values))
}
