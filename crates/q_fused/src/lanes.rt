//! The least or the greatest of a step's results for two lanes.
ghost use Rattle.std.specs.Prelude.{◌≡◌, ℤ, pos, negsuc, length, map, IfSome};
ghost use Rattle.std.specs.Simd.Lanes.{zip2};
ghost use Rattle.q_values.specs.Column.{long_atom, long_kind};
ghost use Rattle.q_values.specs.declared.kind.LongKind.{LongKind};
ghost use Rattle.q_lanes.specs.Lanes.{lane_items};
ghost use Rattle.q_unary.specs.Extremes.{extreme};
ghost use Rattle.q_verbs.specs.Aggregates.{aggregate_of};
ghost use Rattle.q_verbs.specs.Places.{value_of};

use q_binary::{Computed, Difference, Sum};
use q_lanes::{Items, Lane, Repeated, Slice, Step, Zipped};
use q_unary::{Greatest, Least, Pick, picked_of};
use q_verbs::{Verb, Verb1};
use std::marker::PhantomData;

// What is picked of the step's results for each two items.
fn picked<S: Step<i64, i64>, P: Pick<i64>, L: Items<i64>, R: Items<i64>>(left: &L, right: &R) -> i64
    ensures { result ≡ extreme P.wanted P.number P.end (zip2 S.value (L.list left.now) (R.list right.now)) }
{
    let results = Zipped::<S, i64, L, R> {
        left,
        right,
        step: PhantomData,
    };
    picked_of::<P, i64, Zipped<'_, S, i64, L, R>>(&results)
}

// The same for each two items of sides of `count` items.
fn picked_of_lanes<S: Step<i64, i64>, P: Pick<i64>>(
    count: usize,
    left: &Lane<'_, i64>,
    right: &Lane<'_, i64>,
) -> i64
    ensures { result
        ≡ extreme P.wanted P.number P.end (zip2 S.value (lane_items count left.now) (lane_items count right.now)) }
{
    match (left, right) {
        (Lane::Each(some), Lane::Each(others)) => {
            picked::<S, P, _, _>(&Slice { items: some }, &Slice { items: others })
        }
        (Lane::Each(some), Lane::Every(other)) => {
            let others = Repeated {
                item: *other,
                count,
            };
            picked::<S, P, _, _>(&Slice { items: some }, &others)
        }
        (Lane::Every(item), Lane::Each(others)) => {
            let some = Repeated { item: *item, count };
            picked::<S, P, _, _>(&some, &Slice { items: others })
        }
        (Lane::Every(item), Lane::Every(other)) => {
            let some = Repeated { item: *item, count };
            let others = Repeated {
                item: *other,
                count,
            };
            picked::<S, P, _, _>(&some, &others)
        }
    }
}

/// `min` or `max` of sums or differences; `None` for other verbs. The kinds of the sides and of the results have 64 bits.
pub(crate) fn extreme_of_longs(
    outer: Verb1,
    inner: Verb,
    count: usize,
    left: &Lane<'_, i64>,
    right: &Lane<'_, i64>,
) -> Option<i64>
    ensures { IfSome result (λ best. (own of_left of_right : LongKind) → long_atom own best
        ≡ aggregate_of outer (long_kind own) (zip2 (value_of inner (long_kind of_left) (long_kind of_right) (long_kind own))
        (map (long_atom of_left) (lane_items count left.now)) (map (long_atom of_right) (lane_items count right.now)))) }
{
    match (outer, inner) {
        (Verb1::Min, Verb::Add) => Some(picked_of_lanes::<Computed<Sum>, Least>(
            count, left, right,
        )),
        (Verb1::Min, Verb::Sub) => {
            Some(picked_of_lanes::<Computed<Difference>, Least>(count, left, right))
        }
        (Verb1::Max, Verb::Add) => {
            Some(picked_of_lanes::<Computed<Sum>, Greatest>(count, left, right))
        }
        (Verb1::Max, Verb::Sub) => {
            Some(picked_of_lanes::<Computed<Difference>, Greatest>(count, left, right))
        }
        _ => None,
    }
}
