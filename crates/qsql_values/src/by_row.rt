//! Which expressions may be evaluated over all rows, before other phrases are applied.
ghost use Rattle.std.specs.Prelude.{◌≡◌};
ghost use Rattle.q_values.specs.Tree.{tree};
ghost use Rattle.qsql_request.specs.Shapes;
ghost use Rattle.qsql_request.specs.Views.{form};
ghost use Rattle.qsql_values.specs.ByRow;

use q_values::Value;
use q_verbs::Verb1;
use qsql_request::{Expr, is_test};

/// Whether it names no column.
pub fn is_fixed(expr: &Expr) -> bool
    ensures { result ≡ ByRow.is_fixed (form expr.now) }
{
    match expr {
        Expr::Literal(_) => true,
        Expr::Name(_) => false,
        Expr::One(_, side) => is_fixed(side),
        Expr::Two(_, left, right) => is_fixed(left) && is_fixed(right),
    }
}

fn is_by_item(verb: Verb1) -> bool
    ensures { result ≡ ByRow.is_by_item verb }
{
    matches!(verb, Verb1::Not | Verb1::Neg)
}

fn is_atom(value: &Value) -> bool
    ensures { result ≡ Shapes.is_atom (tree value.now) }
{
    matches!(value, Value::Atom(_))
}

/// Whether its item at a row comes of that row alone: it has no aggregate, no `distinct`, and no column at the right of
/// `in`, `within` or `like`.
pub fn is_by_row(expr: &Expr) -> bool
    ensures { result ≡ ByRow.is_by_row (form expr.now) }
{
    match expr {
        Expr::Literal(value) => is_atom(value),
        Expr::Name(_) => true,
        Expr::One(verb, side) => is_by_item(*verb) && is_by_row(side),
        Expr::Two(verb, left, right) => {
            is_by_row(left)
                && if is_test(*verb) {
                    is_fixed(right)
                } else {
                    is_by_row(right)
                }
        }
    }
}
