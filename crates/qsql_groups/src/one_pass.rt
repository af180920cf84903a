//! Which expressions are evaluated for all groups at once.
ghost use Rattle.std.specs.Prelude.{◌≡◌};
ghost use Rattle.q_values.specs.Tree.{tree};
ghost use Rattle.qsql_request.specs.Shapes;
ghost use Rattle.qsql_request.specs.Views.{form};
ghost use Rattle.qsql_groups.specs.OnePass;

use q_values::Value;
use q_verbs::Verb1;
use qsql_request::{Expr, Shape, is_test, shape_of_expr};
use qsql_values::{is_by_row, is_fixed};

fn is_atom(value: &Value) -> bool
    ensures { result ≡ Shapes.is_atom (tree value.now) }
{
    matches!(value, Value::Atom(_))
}

// Whether the verb is evaluated at once over a side that is, which may have a value for each row.
fn is_one_pass_verb(verb: Verb1, rows: bool) -> bool
    ensures { result ≡ OnePass.is_one_pass_verb verb rows }
{
    match verb {
        Verb1::Not | Verb1::Neg => true,
        Verb1::Distinct => false,
        _ => rows,
    }
}

fn has_rows(expr: &Expr) -> bool
    ensures { result ≡ Shapes.is_rows (Shapes.shape (form expr.now)) }
{
    matches!(shape_of_expr(expr), Shape::Rows)
}

/// Whether it is evaluated for all groups at once: it has no `distinct`, no aggregate of a single value, and no test of
/// aggregates or with rows at its right.
pub(crate) fn is_one_pass(expr: &Expr) -> bool
    ensures { result ≡ OnePass.is_one_pass (form expr.now) }
{
    match expr {
        Expr::Literal(value) => is_atom(value),
        Expr::Name(_) => true,
        Expr::One(verb, side) => is_one_pass_verb(*verb, has_rows(side)) && is_one_pass(side),
        Expr::Two(verb, left, right) => {
            if is_test(*verb) {
                is_by_row(left) && is_fixed(right)
            } else {
                is_one_pass(left) && is_one_pass(right)
            }
        }
    }
}
