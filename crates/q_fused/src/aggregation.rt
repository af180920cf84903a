//! Aggregates of the results of a verb.
ghost use Rattle.std.specs.Prelude.{◌≡◌, IsTrue, IsSome, Some, IfOk, IfSome, option_and_then};
ghost use Rattle.q_values.specs.declared.kind.Kind.{Kind};
ghost use Rattle.q_fused.specs.Results.{results};
ghost use Rattle.q_verbs.specs.Aggregates;
ghost use Rattle.q_verbs.specs.Aggregates.{is_aggregate};
ghost use Rattle.q_verbs.specs.Kinds.{result_kind_of, result_kind1_of};
ghost use Rattle.q_verbs.specs.Places.{is_by_place};
ghost use Rattle.q_verbs.specs.Sides.{side_kind, AreBeside};

use crate::lanes::extreme_of_longs;
use q_binary::binary;
use q_lanes::Cells;
use q_unary::aggregate;
use q_values::{Atom, Kind, NoMemory, Storage};
use q_verbs::{Side, Verb, Verb1, result_kind, rows_of};
use std::alloc::Global;

// The result where one loop gives it.
fn extreme_of(
    outer: Verb1,
    inner: Verb,
    kind: Kind,
    left: &Side<'_>,
    right: &Side<'_>,
) -> Option<Atom>
    requires beside { AreBeside left.now right.now }
    ensures { IfSome result (λ atom. atom ≡ Aggregates.aggregate_of outer kind (results inner kind left.now right.now)) }
{
    match (Cells::of(left), Cells::of(right), kind.storage()) {
        (Cells::Longs(_, some), Cells::Longs(_, others), Storage::Long(own)) => {
            match extreme_of_longs(outer, inner, rows_of(left, right), &some, &others) {
                Some(best) => Some(own.atom(&best)),
                None => None,
            }
        }
        _ => None,
    }
}

// The result, of the column of the verb's results.
fn aggregate_of_column(
    alloc: Global,
    outer: Verb1,
    inner: Verb,
    left: &Side<'_>,
    right: &Side<'_>,
) -> Result<Atom, NoMemory>
    requires aggregate { IsTrue (is_aggregate outer) }
    requires verb { IsTrue (is_by_place inner) }
    requires rows { IsSome (option_and_then (result_kind1_of outer) (result_kind_of inner (side_kind left.now) (side_kind right.now))) }
    requires beside { AreBeside left.now right.now }
    ensures { IfOk result (λ atom. (kind : Kind) → result_kind_of inner (side_kind left.now) (side_kind right.now) ≡ Some kind
        → atom ≡ Aggregates.aggregate_of outer kind (results inner kind left.now right.now)) }
{
    let column = binary(alloc, inner, left, right)?;
    let _kind = column.kind();
    let atom = aggregate(alloc, outer, &column)?;
    Ok(atom)
}

/// The aggregate of a verb's results for two sides, item by item: the verb with one side applied to what the verb with two
/// sides makes (KX, Reference card). Two columns have one length; an atom stands for each item beside it. Both verbs take
/// what they are given, as `q_verbs::result_kind` and `result_kind1` say.
pub fn aggregate_of(
    alloc: Global,
    outer: Verb1,
    inner: Verb,
    left: &Side<'_>,
    right: &Side<'_>,
) -> Result<Atom, NoMemory>
    requires aggregate { IsTrue (is_aggregate outer) }
    requires verb { IsTrue (is_by_place inner) }
    requires rows { IsSome (option_and_then (result_kind1_of outer) (result_kind_of inner (side_kind left.now) (side_kind right.now))) }
    requires beside { AreBeside left.now right.now }
    ensures { IfOk result (λ atom. (kind : Kind) → result_kind_of inner (side_kind left.now) (side_kind right.now) ≡ Some kind
        → atom ≡ Aggregates.aggregate_of outer kind (results inner kind left.now right.now)) }
{
    match result_kind(inner, left.kind(), right.kind()) {
        Some(kind) => match extreme_of(outer, inner, kind, left, right) {
            Some(atom) => Ok(atom),
            None => aggregate_of_column(alloc, outer, inner, left, right),
        },
        None => unreachable!(),
    }
}
