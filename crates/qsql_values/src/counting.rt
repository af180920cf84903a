//! `count` of a column, which is the number of rows.
ghost use Rattle.std.specs.Prelude.{◌≡◌};
ghost use Rattle.qsql_request.specs.Views.{form};
ghost use Rattle.qsql_values.specs.Counting;

use q_values::Atom;
use q_verbs::Verb1;
use qsql_request::Expr;

fn is_name(expr: &Expr) -> bool
    ensures { result ≡ Counting.is_column (form expr.now) }
{
    match expr {
        Expr::Name(_) => true,
        Expr::Literal(_) => false,
        Expr::One(_, _) => false,
        Expr::Two(_, _, _) => false,
    }
}

fn is_count(verb: Verb1) -> bool
    ensures { result ≡ Counting.is_count verb }
{
    matches!(verb, Verb1::Count)
}

/// Whether it is `count` of a name. Its value is the number of rows, so no column is needed for it.
pub fn is_row_count(expr: &Expr) -> bool
    ensures { result ≡ Counting.is_row_count (form expr.now) }
{
    match expr {
        Expr::One(verb, side) => is_count(*verb) && is_name(side),
        Expr::Literal(_) => false,
        Expr::Name(_) => false,
        Expr::Two(_, _, _) => false,
    }
}

/// A number of rows, as `count` gives it: a long.
pub fn count_atom(rows: usize) -> Atom
    ensures { result ≡ Counting.count_atom rows }
{
    Atom::Long((rows as u64).cast_signed())
}
