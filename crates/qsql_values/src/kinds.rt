//! The kinds of expressions over a table's columns.
ghost use Rattle.std.specs.Prelude.{◌≡◌, option_and_then};
ghost use Rattle.q_values.specs.Tree.{tree};
ghost use Rattle.q_verbs.specs.Kinds.{result_kind1_of};
ghost use Rattle.qsql_request.specs.Views.{form};
ghost use Rattle.qsql_values.specs.Kinds.{column_kind, literal_kind, is_vector_of_two, are_ends, kind_of_both, kind_in};
ghost use Rattle.qsql_values.specs.Kinds;

use crate::beside::item_beside;
use day_rows::Shape;
use q_values::{Kind, Value};
use q_verbs::{Verb, Verb1, result_kind, result_kind1};
use qsql_request::Expr;

/// The kind of the table's column with this name; each table has the columns `date` and `i` too. It is out of line, as are
/// those below, so that a level of `kind_of_expr` takes little of the stack.
#[inline(never)]
pub fn kind_of_column(table: &Shape, name: &[u8]) -> Option<Kind>
    ensures { result ≡ column_kind table.now name.now }
{
    if name == b"date".as_slice() {
        Some(Kind::Date)
    } else if name == b"i".as_slice() {
        Some(Kind::Long)
    } else {
        item_beside(name, table.names.as_slice(), table.kinds.as_slice()).copied()
    }
}

#[inline(never)]
fn kind_of_literal(value: &Value) -> Option<Kind>
    ensures { result ≡ literal_kind (tree value.now) }
{
    match value {
        Value::Atom(atom) => Some(atom.kind()),
        Value::Vector(vector) => Some(vector.kind()),
        Value::List(_) => None,
        Value::Dict(_) => None,
        Value::Table(_) => None,
        Value::Keyed(_) => None,
        Value::Identity => None,
        Value::Wrong(_) => None,
    }
}

fn has_two_items(value: &Value) -> bool
    ensures { result ≡ is_vector_of_two (tree value.now) }
{
    match value {
        Value::Atom(_) => false,
        Value::Vector(vector) => vector.len() == 2,
        Value::List(_) => false,
        Value::Dict(_) => false,
        Value::Table(_) => false,
        Value::Keyed(_) => false,
        Value::Identity => false,
        Value::Wrong(_) => false,
    }
}

// Whether it is a vector literal of two items.
#[inline(never)]
fn has_ends(expr: &Expr) -> bool
    ensures { result ≡ are_ends (form expr.now) }
{
    match expr {
        Expr::Literal(value) => has_two_items(value),
        Expr::Name(_) => false,
        Expr::One(_, _) => false,
        Expr::Two(_, _, _) => false,
    }
}

fn is_within(verb: Verb) -> bool
    ensures { result ≡ Kinds.is_within verb }
{
    matches!(verb, Verb::Within)
}

#[inline(never)]
fn kind_of_one(verb: Verb1, side: Option<Kind>) -> Option<Kind>
    ensures { result ≡ option_and_then (result_kind1_of verb) side }
{
    match side {
        Some(kind) => result_kind1(verb, kind),
        None => None,
    }
}

#[inline(never)]
fn kind_of_two(verb: Verb, left: Option<Kind>, right: Option<Kind>) -> Option<Kind>
    ensures { result ≡ kind_of_both verb left right }
{
    match (left, right) {
        (Some(left), Some(right)) => result_kind(verb, left, right),
        _ => None,
    }
}

/// The kind of an expression over the table's columns, or `None` where a verb in it doesn't take its sides, or a name is
/// no column.
pub fn kind_of_expr(table: &Shape, expr: &Expr) -> Option<Kind>
    ensures { result ≡ kind_in (column_kind table.now) (form expr.now) }
{
    match expr {
        Expr::Literal(value) => kind_of_literal(value),
        Expr::Name(name) => kind_of_column(table, name.bytes()),
        Expr::One(verb, side) => kind_of_one(*verb, kind_of_expr(table, side)),
        Expr::Two(verb, left, right) => {
            if is_within(*verb) && !has_ends(right) {
                None
            } else {
                kind_of_two(*verb, kind_of_expr(table, left), kind_of_expr(table, right))
            }
        }
    }
}
