//! An aggregate of what a verb makes of two values.
ghost use Rattle.std.specs.Prelude.{◌≡◌, ◌&&◌, IsTrue, IsSome, Some, IfOk, option_and_then};
ghost use Rattle.q_values.specs.Tree.{atom};
ghost use Rattle.q_verbs.specs.Aggregates;
ghost use Rattle.q_verbs.specs.Kinds.{result_kind_of, result_kind1_of};
ghost use Rattle.q_verbs.specs.Sides.{side_kind, AreBeside};
ghost use Rattle.qsql_values.specs.Both;
ghost use Rattle.qsql_values.specs.Operands.{operand_tree, kind_of_tree, AreSides};
ghost use Rattle.qsql_values.specs.Values.{value_of_one, value_of_two};

use crate::one_side::apply_one;
use crate::operand::Operand;
use crate::two_sides::apply_two;
use q_fused::aggregate_of;
use q_values::NoMemory;
use q_verbs::{Side, Verb, Verb1};
use std::alloc::Global;

/// Whether one loop gives the aggregate of what the verb with two sides makes.
pub fn is_in_one_loop(outer: Verb1, inner: Verb) -> bool
    ensures { result ≡ Both.is_in_one_loop outer inner }
{
    matches!(outer, Verb1::Min | Verb1::Max) && matches!(inner, Verb::Add | Verb::Sub)
}

// The aggregate of the verb's results for two sides.
fn of_sides<'b>(
    alloc: Global,
    outer: Verb1,
    inner: Verb,
    left: &Side<'_>,
    right: &Side<'_>,
) -> Result<Operand<'b>, NoMemory>
    requires verbs { IsTrue (Both.is_in_one_loop outer inner) }
    requires rows { IsSome (option_and_then (result_kind1_of outer) (result_kind_of inner (side_kind left.now) (side_kind right.now))) }
    requires beside { AreBeside left.now right.now }
    ensures value { IfOk result (λ v. operand_tree v ≡ atom (Both.aggregate_of_sides outer inner left.now right.now)) }
    ensures kind { IfOk result (λ v. option_and_then (result_kind1_of outer) (result_kind_of inner (side_kind left.now) (side_kind right.now))
        ≡ Some (kind_of_tree (operand_tree v))) }
{
    let made = aggregate_of(alloc, outer, inner, left, right)?;
    Ok(Operand::Atom(made))
}

// The aggregate, of the value that the verb with two sides makes.
fn of_made<'b>(
    alloc: Global,
    outer: Verb1,
    inner: Verb,
    left: &Operand,
    right: &Operand,
) -> Result<Operand<'b>, NoMemory>
    requires rows { IsSome (option_and_then (result_kind1_of outer)
        (result_kind_of inner (kind_of_tree (operand_tree left.now)) (kind_of_tree (operand_tree right.now)))) }
    requires sides { AreSides inner (operand_tree left.now) (operand_tree right.now) }
    ensures value { IfOk result (λ v. operand_tree v
        ≡ value_of_one outer (value_of_two inner (operand_tree left.now) (operand_tree right.now))) }
    ensures kind { IfOk result (λ v. option_and_then (result_kind1_of outer)
        (result_kind_of inner (kind_of_tree (operand_tree left.now)) (kind_of_tree (operand_tree right.now)))
        ≡ Some (kind_of_tree (operand_tree v))) }
{
    let made = apply_two(alloc, inner, left, right)?;
    apply_one(alloc, outer, &made)
}

/// The result of an aggregate for what a verb makes of two values, whose column isn't made.
pub fn apply_both<'b>(
    alloc: Global,
    outer: Verb1,
    inner: Verb,
    left: &Operand,
    right: &Operand,
) -> Result<Operand<'b>, NoMemory>
    requires verbs { IsTrue (Both.is_in_one_loop outer inner) }
    requires rows { IsSome (option_and_then (result_kind1_of outer)
        (result_kind_of inner (kind_of_tree (operand_tree left.now)) (kind_of_tree (operand_tree right.now)))) }
    requires sides { AreSides inner (operand_tree left.now) (operand_tree right.now) }
    ensures value { IfOk result (λ v. operand_tree v
        ≡ value_of_one outer (value_of_two inner (operand_tree left.now) (operand_tree right.now))) }
    ensures kind { IfOk result (λ v. option_and_then (result_kind1_of outer)
        (result_kind_of inner (kind_of_tree (operand_tree left.now)) (kind_of_tree (operand_tree right.now)))
        ≡ Some (kind_of_tree (operand_tree v))) }
{
    match (left, right) {
        (Operand::Atom(_), Operand::Atom(_)) => of_made(alloc, outer, inner, left, right),
        (Operand::Atom(x), Operand::Column(items)) => {
            let column = Side::Column(items.vector());
            of_sides(alloc, outer, inner, &Side::Atom(x), &column)
        }
        (Operand::Column(items), Operand::Atom(y)) => {
            let column = Side::Column(items.vector());
            of_sides(alloc, outer, inner, &column, &Side::Atom(y))
        }
        (Operand::Column(items), Operand::Column(others)) => {
            let left = Side::Column(items.vector());
            of_sides(alloc, outer, inner, &left, &Side::Column(others.vector()))
        }
    }
}
