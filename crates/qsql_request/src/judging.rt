//! Whether expressions are built, and the shapes of their values.
ghost use Rattle.std.specs.Prelude.{◌≡◌, ◌==◌};
ghost use Rattle.std.specs.List.{list_any};
ghost use Rattle.q_values.specs.Tree.{tree};
ghost use Rattle.qsql_request.specs.Views.{form};
ghost use Rattle.qsql_request.specs.Unbuilt.{is_pattern_atom, is_pattern_contents, is_pattern_value, is_wrong_right, has_unbuilt};
ghost use Rattle.qsql_request.specs.Unbuilt;
ghost use Rattle.qsql_request.specs.Shapes;

use crate::request::Expr;
use crate::shapes::{Shape, is_list, is_test, shape_of_one, shape_of_two, shape_of_value};
use q_values::{Atom, ByteKind, Column, Value, Vector};
use q_verbs::Verb;

/// What is known of an expression without a schema.
#[derive(Clone, Copy)]
pub struct Judgement {
    /// Whether it has a form that is not built.
    pub unbuilt: bool,
    /// The shape of its value.
    pub shape: Shape,
}

// Whether a list may be the right side of the verb.
fn takes_list(verb: Verb) -> bool
    ensures { result ≡ Unbuilt.takes_list verb }
{
    matches!(verb, Verb::In | Verb::Within)
}

fn is_like(verb: Verb) -> bool
    ensures { result ≡ Unbuilt.is_like verb }
{
    matches!(verb, Verb::Like)
}

fn is_pattern_character(atom: &Atom) -> bool
    ensures { result ≡ is_pattern_atom atom.now }
{
    match atom {
        Atom::Character(b) => *b != b'[',
        _ => false,
    }
}

fn has_bracket(text: &[u8]) -> bool
    ensures { result ≡ list_any (λ b. b == 91) text.now }
{
    for b in text {
        if *b == b'[' {
            return true;
        }
    }
    false
}

#[tactic(auto, using(crate::proofs::Lists::bracket_atoms))]
fn is_pattern_vector(vector: &Vector) -> bool
    ensures { result ≡ is_pattern_contents vector.now }
{
    match vector.column() {
        Column::Bytes(ByteKind::Character, text) => !has_bracket(text),
        Column::Bytes(ByteKind::Byte, _) => false,
        Column::Booleans(_) => false,
        Column::Shorts(_) => false,
        Column::Integers(_, _) => false,
        Column::Longs(_, _) => false,
        Column::Symbols(_) => false,
    }
}

fn is_pattern_literal(value: &Value) -> bool
    ensures { result ≡ is_pattern_value (tree value.now) }
{
    match value {
        Value::Atom(atom) => is_pattern_character(atom),
        Value::Vector(vector) => is_pattern_vector(vector),
        Value::List(_) => false,
        Value::Dict(_) => false,
        Value::Table(_) => false,
        Value::Keyed(_) => false,
        Value::Identity => false,
        Value::Wrong(_) => false,
    }
}

// Whether the expression is a pattern that `like` takes: characters without `[`.
fn is_pattern(expr: &Expr) -> bool
    ensures { result ≡ Unbuilt.is_pattern (form expr.now) }
{
    match expr {
        Expr::Literal(value) => is_pattern_literal(value),
        Expr::Name(_) => false,
        Expr::One(_, _) => false,
        Expr::Two(_, _, _) => false,
    }
}

// Whether the verb can't take this right side.
fn has_wrong_right(verb: Verb, right: &Expr, shape: Shape) -> bool
    requires { shape ≡ Shapes.shape (form right.now) }
    ensures { result ≡ is_wrong_right verb (form right.now) }
{
    if is_like(verb) {
        !is_pattern(right)
    } else {
        is_list(shape) && !takes_list(verb)
    }
}

/// Judges an expression. It is not built where a list is a side of a verb that takes none, or the right side of `like` is
/// no pattern.
pub fn judged(expr: &Expr) -> Judgement
    ensures unbuilt { result.unbuilt ≡ has_unbuilt (form expr.now) }
    ensures shape { result.shape ≡ Shapes.shape (form expr.now) }
{
    match expr {
        Expr::Literal(value) => Judgement {
            unbuilt: false,
            shape: shape_of_value(value),
        },
        Expr::Name(_) => Judgement {
            unbuilt: false,
            shape: Shape::Rows,
        },
        Expr::One(verb, side) => {
            let side = judged(side);
            Judgement {
                unbuilt: side.unbuilt,
                shape: shape_of_one(*verb, side.shape),
            }
        }
        Expr::Two(verb, left, right) => {
            let first = judged(left);
            let second = judged(right);
            let wrong = is_list(first.shape) || has_wrong_right(*verb, right, second.shape);
            Judgement {
                unbuilt: wrong || first.unbuilt || second.unbuilt,
                shape: shape_of_two(is_test(*verb), first.shape, second.shape),
            }
        }
    }
}

/// The shape of the expression's value.
pub fn shape_of_expr(expr: &Expr) -> Shape
    ensures { result ≡ Shapes.shape (form expr.now) }
{
    judged(expr).shape
}
