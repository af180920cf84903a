//! Verbs with two sides, item by item.
ghost use Rattle.std.specs.Prelude.{◌≡◌, ◌&&◌, IsTrue, IsSome, Some, length, IfOk};
ghost use Rattle.std.specs.Simd.Lanes.{zip2};
ghost use Rattle.q_values.specs.Kind.{is};
ghost use Rattle.q_verbs.specs.Kinds.{result_kind_of};
ghost use Rattle.q_verbs.specs.Places.{is_comparison, is_choice, is_by_place, value_of};
ghost use Rattle.q_verbs.specs.Sides.{side_kind, rows, spread, AreBeside};

use crate::arithmetic::arithmetic;
use crate::choice::choice;
use crate::comparison::comparison;
use q_values::{Kind, NoMemory, Vector};
use q_verbs::{Side, Verb, result_kind, rows_of};
use std::alloc::Global;

fn compares(verb: Verb) -> bool
    ensures { result ≡ is_comparison verb }
{
    matches!(
        verb,
        Verb::Eq | Verb::Ne | Verb::Lt | Verb::Gt | Verb::Le | Verb::Ge
    )
}

fn chooses(verb: Verb) -> bool
    ensures { result ≡ is_choice verb }
{
    matches!(verb, Verb::Lesser | Verb::Greater)
}

fn chooses_of_one_kind(verb: Verb, left: Kind, right: Kind) -> bool
    ensures { result ≡ (is_choice verb && is left right) }
{
    chooses(verb) && left == right
}

/// The verb's result for two sides, item by item, in the kind that [`crate::result_kind`] says (KX, Reference card). Two
/// columns have one length; an atom stands for each item beside it, and of two atoms there is one item. For
/// `+ - * div mod xbar` a null on either side gives the null, and so does a zero divisor; sums, differences and products
/// wrap at the width of the result.
pub fn binary(
    alloc: Global,
    verb: Verb,
    left: &Side<'_>,
    right: &Side<'_>,
) -> Result<Vector, NoMemory>
    requires verb { IsTrue (is_by_place verb) }
    requires row { IsSome (result_kind_of verb (side_kind left.now) (side_kind right.now)) }
    requires beside { AreBeside left.now right.now }
    ensures kind { IfOk result
        (λ v. result_kind_of verb (side_kind left.now) (side_kind right.now) ≡ Some v.kind) }
    ensures atoms { IfOk result
        (λ v. v.atoms ≡ zip2 (value_of verb (side_kind left.now) (side_kind right.now) v.kind)
        (spread (rows left.now right.now) left.now) (spread (rows left.now right.now) right.now)) }
{
    match result_kind(verb, left.kind(), right.kind()) {
        Some(kind) => binary_of_kind(alloc, verb, kind, rows_of(left, right), left, right),
        None => unreachable!(),
    }
}

// The verb's result in this kind.
fn binary_of_kind(
    alloc: Global,
    verb: Verb,
    kind: Kind,
    count: usize,
    left: &Side<'_>,
    right: &Side<'_>,
) -> Result<Vector, NoMemory>
    requires verb { IsTrue (is_by_place verb) }
    requires row { result_kind_of verb (side_kind left.now) (side_kind right.now) ≡ Some kind }
    requires left { length (spread count left.now) ≡ count }
    requires right { length (spread count right.now) ≡ count }
    ensures { IfOk result (λ v. v ≡ record {
      kind = kind;
      atoms = zip2 (value_of verb (side_kind left.now) (side_kind right.now) kind)
          (spread count left.now) (spread count right.now);
    }) }
{
    if compares(verb) {
        let values = comparison(alloc, verb, count, left, right)?;
        Ok(values)
    } else if chooses_of_one_kind(verb, left.kind(), right.kind()) {
        let values = choice(alloc, verb, count, left, right)?;
        Ok(values)
    } else {
        let column = arithmetic(alloc, verb, kind, count, left, right)?;
        Ok(Vector::from_column(column))
    }
}
