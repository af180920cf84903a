//! Shapes: whether an expression has a value for each row, a single value, or a list.
ghost use Rattle.std.specs.Prelude.{◌≡◌};
ghost use Rattle.q_values.specs.Tree.{tree};
ghost use Rattle.qsql_request.specs.Shapes.{literal_shape};
ghost use Rattle.qsql_request.specs.Shapes;

use q_values::Value;
use q_verbs::{Verb, Verb1};

/// The shape of an expression's value.
#[derive(Clone, Copy)]
pub enum Shape {
    /// A value for each row.
    Rows,
    /// One value.
    Scalar,
    /// A list of its own length.
    List,
}

fn is_atom(value: &Value) -> bool
    ensures { result ≡ Shapes.is_atom (tree value.now) }
{
    match value {
        Value::Atom(_) => true,
        Value::Vector(_) => false,
        Value::List(_) => false,
        Value::Dict(_) => false,
        Value::Table(_) => false,
        Value::Keyed(_) => false,
        Value::Identity => false,
        Value::Wrong(_) => false,
    }
}

/// The shape of a verb with one side, from that of its side. `distinct` gives a list, `not` and `neg` keep the shape, and
/// each other verb gives one value.
pub fn shape_of_one(verb: Verb1, side: Shape) -> Shape
    ensures { result ≡ Shapes.shape_of_one verb side }
{
    match verb {
        Verb1::Not | Verb1::Neg => side,
        Verb1::Distinct => Shape::List,
        _ => Shape::Scalar,
    }
}

/// Whether the verb tests each item of its left side, and so has its shape.
pub fn is_test(verb: Verb) -> bool
    ensures { result ≡ Shapes.is_test verb }
{
    matches!(verb, Verb::In | Verb::Within | Verb::Like)
}

/// Whether it is one value.
pub fn is_scalar(shape: Shape) -> bool
    ensures { result ≡ Shapes.is_scalar shape }
{
    matches!(shape, Shape::Scalar)
}

/// Whether it is a list.
pub fn is_list(shape: Shape) -> bool
    ensures { result ≡ Shapes.is_list shape }
{
    matches!(shape, Shape::List)
}

/// Whether it is a value for each row.
pub fn is_rows(shape: Shape) -> bool
    ensures { result ≡ Shapes.is_rows shape }
{
    matches!(shape, Shape::Rows)
}

/// The shape of a verb with two sides, from those of its sides; `test` says whether the verb is a test.
pub fn shape_of_two(test: bool, left: Shape, right: Shape) -> Shape
    ensures { result ≡ Shapes.shape_of_two test left right }
{
    if test {
        left
    } else if is_scalar(left) && is_scalar(right) {
        Shape::Scalar
    } else {
        Shape::Rows
    }
}

/// The shape of a literal: an atom is a scalar, and a vector a list.
pub fn shape_of_value(value: &Value) -> Shape
    ensures { result ≡ literal_shape (Shapes.is_atom (tree value.now)) }
{
    if is_atom(value) {
        Shape::Scalar
    } else {
        Shape::List
    }
}
