//! The names that an expression mentions, and the names of result columns.
ghost use Rattle.std.specs.Prelude.{◌≡◌, IfSome};
ghost use Rattle.q_values.specs.Bytes.{HasNoNul};
ghost use Rattle.qsql_request.specs.Views.{form, column_form};
ghost use Rattle.qsql_request.specs.Unbuilt.{is_row_number, mentioned, has_other, are_two, column_name, is_nameless, head_of, map_option};

use crate::request::{Col, Expr};

// Whether the name is `i`, the virtual column with the row numbers.
fn is_row_number_name(name: &[u8]) -> bool
    ensures { result ≡ is_row_number name.now }
{
    name == b"i".as_slice()
}

// The first name that the expression mentions, other than `i`.
fn first_name(expr: &Expr) -> Option<&[u8]>
    ensures first { map_option (λ name. name.now) result ≡ head_of (mentioned (form expr.now)) }
    ensures no_nul { IfSome result (λ name. HasNoNul name.now) }
{
    let mut at = expr;
    loop {
        match at {
            Expr::Literal(_) => return None,
            Expr::Name(name) => {
                if is_row_number_name(name.bytes()) {
                    return None;
                }
                return Some(name.bytes());
            }
            Expr::One(_, side) => at = side,
            Expr::Two(_, left, right) => match first_name(left) {
                Some(name) => return Some(name),
                None => at = right,
            },
        }
    }
}

// Whether the expression mentions a name other than this one and `i`.
#[tactic(auto, using(crate::proofs::Lists::has_other_first, crate::proofs::Lists::has_other_rest))]
fn mentions_other(expr: &Expr, name: &[u8]) -> bool
    ensures { result ≡ has_other name.now (mentioned (form expr.now)) }
{
    match expr {
        Expr::Literal(_) => false,
        Expr::Name(own) => !is_row_number_name(own.bytes()) && name != own.bytes(),
        Expr::One(_, side) => mentions_other(side, name),
        Expr::Two(_, left, right) => mentions_other(left, name) || mentions_other(right, name),
    }
}

// Whether the expression mentions two different names, other than `i`.
fn mentions_two(expr: &Expr) -> bool
    ensures { result ≡ are_two (mentioned (form expr.now)) }
{
    match first_name(expr) {
        Some(name) => mentions_other(expr, name),
        None => false,
    }
}

/// Whether the text gives the column no name, and its expression mentions two, so that it has none.
pub fn is_nameless_column(column: &Col) -> bool
    ensures { result ≡ is_nameless (column_form column.now) }
{
    match &column.name {
        Some(_) => false,
        None => mentions_two(&column.expr),
    }
}

/// The name of a result column: the one that the text gives it, or else the first one that its expression mentions, or
/// else `x`.
pub fn name_of_column(column: &Col) -> &[u8]
    ensures value { result.now ≡ column_name (column_form column.now) }
    ensures no_nul { HasNoNul result.now }
{
    match &column.name {
        Some(name) => name.bytes(),
        None => match first_name(&column.expr) {
            Some(name) => name,
            None => b"x",
        },
    }
}
