//! The value of an expression.
ghost use Rattle.std.specs.Prelude.{◌≡◌, false, true, length, option_and_then, IsSome, IsTrue, Some, IfOk, IsOkAnd};
ghost use Rattle.q_values.specs.Tree.{tree, atom, vector};
ghost use Rattle.q_verbs.specs.Kinds.{result_kind_of, result_kind1_of};
ghost use Rattle.qsql_request.specs.Forms.{one, two};
ghost use Rattle.qsql_request.specs.Views.{form};
ghost use Rattle.qsql_request.specs.Unbuilt.{has_unbuilt};
ghost use Rattle.qsql_values.specs.Both;
ghost use Rattle.qsql_values.specs.Counting;
ghost use Rattle.qsql_values.specs.Frames.{column_in, kind_beside};
ghost use Rattle.qsql_values.specs.Kinds.{literal_kind, kind_in};
ghost use Rattle.qsql_values.specs.Values.{val, value_of_one, value_of_two};
ghost use Rattle.qsql_values.specs.Operands.{operand_tree, kind_of_tree, AreSides};

use crate::both::{apply_both, is_in_one_loop};
use crate::counting::{count_atom, is_row_count};
use crate::one_side::apply_one;
use crate::operand::{Held, Operand};
use crate::scope::Scope;
use crate::two_sides::apply_two;
use q_values::{NoMemory, Value};
use q_verbs::{Verb, Verb1};
use qsql_request::Expr;
use std::alloc::Global;

fn value_of_literal<'a>(alloc: Global, literal: &'a Value) -> Result<Operand<'a>, NoMemory>
    requires { IsSome (literal_kind (tree literal.now)) }
    ensures value { IfOk result (λ v. operand_tree v ≡ tree literal.now) }
    ensures kind { IfOk result (λ v. literal_kind (tree literal.now) ≡ Some (kind_of_tree (operand_tree v))) }
{
    match literal {
        Value::Atom(atom) => Ok(Operand::Atom(atom.copy(alloc)?)),
        Value::Vector(vector) => Ok(Operand::Column(Held::Lent(vector))),
        Value::List(_) => unreachable!(),
        Value::Dict(_) => unreachable!(),
        Value::Table(_) => unreachable!(),
        Value::Keyed(_) => unreachable!(),
        Value::Identity => unreachable!(),
        Value::Wrong(_) => unreachable!(),
    }
}

// Out of line, so that a level of `value_into` takes little of the stack. The functions below are for the same reason.
#[inline(never)]
fn literal_into<'a>(alloc: Global, literal: &'a Value, out: &mut Result<Operand<'a>, NoMemory>)
    requires { IsSome (literal_kind (tree literal.now)) }
    ensures value { IfOk out.new (λ v. operand_tree v ≡ tree literal.now) }
    ensures kind { IfOk out.new (λ v. literal_kind (tree literal.now) ≡ Some (kind_of_tree (operand_tree v))) }
{
    *out = value_of_literal(alloc, literal);
}

#[inline(never)]
fn name_into<'a>(
    alloc: Global,
    name: &[u8],
    scope: &Scope<'a>,
    out: &mut Result<Operand<'a>, NoMemory>,
)
    requires { IsSome (kind_beside scope.now name.now) }
    ensures value { IfOk out.new (λ v. operand_tree v ≡ vector (column_in scope.now name.now)) }
    ensures kind { IfOk out.new (λ v. kind_beside scope.now name.now ≡ Some (kind_of_tree (operand_tree v))) }
{
    *out = match scope.column(alloc, name) {
        Ok(held) => Ok(Operand::Column(held)),
        Err(error) => Err(error),
    };
}

// `count` of a column.
#[inline(never)]
fn count_into<'a>(scope: &Scope<'a>, out: &mut Result<Operand<'a>, NoMemory>)
    ensures { IfOk out.new (λ v. operand_tree v ≡ atom (Counting.count_atom (length scope.now.rows))) }
{
    *out = Ok(Operand::Atom(count_atom(scope.len())));
}

// A verb with one side, in the place of the side's value.
#[inline(never)]
fn of_one<'b>(alloc: Global, verb: Verb1, out: &mut Result<Operand<'b>, NoMemory>)
    requires { IfOk out.old (λ x. IsSome (result_kind1_of verb (kind_of_tree (operand_tree x)))) }
    ensures value { IfOk out.new (λ v. IsOkAnd out.old (λ x. operand_tree v ≡ value_of_one verb (operand_tree x))) }
    ensures kind { IfOk out.new (λ v. IsOkAnd out.old
        (λ x. result_kind1_of verb (kind_of_tree (operand_tree x)) ≡ Some (kind_of_tree (operand_tree v)))) }
{
    if let Ok(side) = &*out {
        *out = apply_one(alloc, verb, side);
    }
}

// A verb with two sides, where the left one has a value, in the place of the right one's.
#[inline(never)]
fn of_two<'b>(
    alloc: Global,
    verb: Verb,
    left: Result<Operand, NoMemory>,
    out: &mut Result<Operand<'b>, NoMemory>,
)
    requires row { IfOk left (λ x. IfOk out.old
        (λ y. IsSome (result_kind_of verb (kind_of_tree (operand_tree x)) (kind_of_tree (operand_tree y))))) }
    requires sides { IfOk left (λ x. IfOk out.old (λ y. AreSides verb (operand_tree x) (operand_tree y))) }
    ensures value { IfOk out.new (λ v. IsOkAnd left.entry (λ x. IsOkAnd out.old
        (λ y. operand_tree v ≡ value_of_two verb (operand_tree x) (operand_tree y)))) }
    ensures kind { IfOk out.new (λ v. IsOkAnd left.entry (λ x. IsOkAnd out.old
        (λ y. result_kind_of verb (kind_of_tree (operand_tree x)) (kind_of_tree (operand_tree y)) ≡ Some (kind_of_tree (operand_tree v))))) }
{
    match left {
        Ok(left) => {
            if let Ok(right) = &*out {
                *out = apply_two(alloc, verb, &left, right);
            }
        }
        Err(error) => *out = Err(error),
    }
}

// An aggregate of a verb with two sides, where the left one has a value, in the place of the right one's.
#[inline(never)]
fn of_both<'b>(
    alloc: Global,
    outer: Verb1,
    inner: Verb,
    left: Result<Operand, NoMemory>,
    out: &mut Result<Operand<'b>, NoMemory>,
)
    requires verbs { IsTrue (Both.is_in_one_loop outer inner) }
    requires rows { IfOk left (λ x. IfOk out.old (λ y. IsSome (option_and_then (result_kind1_of outer)
        (result_kind_of inner (kind_of_tree (operand_tree x)) (kind_of_tree (operand_tree y)))))) }
    requires sides { IfOk left (λ x. IfOk out.old (λ y. AreSides inner (operand_tree x) (operand_tree y))) }
    ensures value { IfOk out.new (λ v. IsOkAnd left.entry (λ x. IsOkAnd out.old
        (λ y. operand_tree v ≡ value_of_one outer (value_of_two inner (operand_tree x) (operand_tree y))))) }
    ensures kind { IfOk out.new (λ v. IsOkAnd left.entry (λ x. IsOkAnd out.old
        (λ y. option_and_then (result_kind1_of outer)
        (result_kind_of inner (kind_of_tree (operand_tree x)) (kind_of_tree (operand_tree y)))
        ≡ Some (kind_of_tree (operand_tree v))))) }
{
    match left {
        Ok(left) => {
            if let Ok(right) = &*out {
                *out = apply_both(alloc, outer, inner, &left, right);
            }
        }
        Err(error) => *out = Err(error),
    }
}

#[cycle(value_of)]
#[inline(never)]
fn two_into<'a>(
    alloc: Global,
    verb: Verb,
    left: &'a Expr,
    right: &'a Expr,
    scope: &Scope<'a>,
    out: &mut Result<Operand<'a>, NoMemory>,
)
    requires kind { IsSome (kind_in (kind_beside scope.now) (two verb (form left.now) (form right.now))) }
    requires built { has_unbuilt (two verb (form left.now) (form right.now)) ≡ false }
    ensures value { IfOk out.new (λ v. operand_tree v ≡ val scope.now (two verb (form left.now) (form right.now))) }
    ensures kind { IfOk out.new (λ v. kind_in (kind_beside scope.now) (two verb (form left.now) (form right.now))
        ≡ Some (kind_of_tree (operand_tree v))) }
{
    value_into(alloc, right, scope, out);
    of_two(alloc, verb, value_of(alloc, left, scope), out);
}

// An aggregate of a verb with two sides.
#[cycle(value_of)]
#[inline(never)]
fn both_into<'a>(
    alloc: Global,
    outer: Verb1,
    inner: Verb,
    left: &'a Expr,
    right: &'a Expr,
    scope: &Scope<'a>,
    out: &mut Result<Operand<'a>, NoMemory>,
)
    requires verbs { IsTrue (Both.is_in_one_loop outer inner) }
    requires kind { IsSome (kind_in (kind_beside scope.now) (one outer (two inner (form left.now) (form right.now)))) }
    requires built { has_unbuilt (two inner (form left.now) (form right.now)) ≡ false }
    ensures value { IfOk out.new (λ v. operand_tree v ≡ val scope.now (one outer (two inner (form left.now) (form right.now)))) }
    ensures kind { IfOk out.new (λ v. kind_in (kind_beside scope.now) (one outer (two inner (form left.now) (form right.now)))
        ≡ Some (kind_of_tree (operand_tree v))) }
{
    value_into(alloc, right, scope, out);
    of_both(alloc, outer, inner, value_of(alloc, left, scope), out);
}

// The value of an expression, written where the value of its right side was: a level takes none of the stack for a value.
#[cycle(value_of)]
#[inline(never)]
fn value_into<'a>(
    alloc: Global,
    expr: &'a Expr,
    scope: &Scope<'a>,
    out: &mut Result<Operand<'a>, NoMemory>,
)
    requires kind { IsSome (kind_in (kind_beside scope.now) (form expr.now)) }
    requires built { has_unbuilt (form expr.now) ≡ false }
    ensures value { IfOk out.new (λ v. operand_tree v ≡ val scope.now (form expr.now)) }
    ensures kind { IfOk out.new (λ v. kind_in (kind_beside scope.now) (form expr.now) ≡ Some (kind_of_tree (operand_tree v))) }
{
    match expr {
        Expr::Literal(literal) => literal_into(alloc, literal, out),
        Expr::Name(name) => name_into(alloc, name.bytes(), scope, out),
        Expr::One(_, _) if is_row_count(expr) => count_into(scope, out),
        Expr::One(verb, side) => match &**side {
            Expr::Two(inner, left, right) if is_in_one_loop(*verb, *inner) => {
                both_into(alloc, *verb, *inner, left, right, scope, out);
            }
            _ => {
                value_into(alloc, side, scope, out);
                of_one(alloc, *verb, out);
            }
        },
        Expr::Two(verb, left, right) => two_into(alloc, *verb, left, right, scope, out),
    }
}

/// The value of an expression over rows. Columns and literal vectors are lent, `count` of a column gathers none, and `min`
/// and `max` of sums and differences make none.
#[cycle(value_of)]
pub fn value_of<'a>(
    alloc: Global,
    expr: &'a Expr,
    scope: &Scope<'a>,
) -> Result<Operand<'a>, NoMemory>
    requires kind { IsSome (kind_in (kind_beside scope.now) (form expr.now)) }
    requires built { has_unbuilt (form expr.now) ≡ false }
    ensures value { IfOk result (λ v. operand_tree v ≡ val scope.now (form expr.now)) }
    ensures kind { IfOk result (λ v. kind_in (kind_beside scope.now) (form expr.now) ≡ Some (kind_of_tree (operand_tree v))) }
{
    let mut value = Err(NoMemory);
    value_into(alloc, expr, scope, &mut value);
    value
}
