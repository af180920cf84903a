//! The lesser and the greater of two items of one kind.
ghost use Rattle.std.specs.Prelude.{◌≡◌, IsTrue, if◌then◌else◌, length, IfOk};
ghost use Rattle.std.specs.Simd.Lanes.{zip2};
ghost use Rattle.q_values.specs.Column.{contents};
ghost use Rattle.q_verbs.specs.Kinds.{is_number};
ghost use Rattle.q_lanes.specs.Lanes.{lane_items};
ghost use Rattle.q_verbs.specs.Numbers.{worth, worth_cmp};
ghost use Rattle.q_verbs.specs.Places.{is_choice, chosen};
ghost use Rattle.q_verbs.specs.Sides.{side_kind, spread};

use q_lanes::{AtLeast, AtMost, Cells, Lane, Ordered, Relation, Step, zip_lanes};
use q_values::{Column, NoMemory, Vector};
use q_verbs::{Side, Verb};
use std::alloc::{AllocError, Global};

// The first item where it is in the relation to the second one, and else the second one.
struct Chosen<P>(P);

impl<P: Relation, T: Ordered> Step<T, T> for Chosen<P> {
    ghost use Rattle.std.specs.Prelude.{if◌then◌else◌};
    ghost use Rattle.q_verbs.specs.Numbers.{worth_cmp};

    ghost value = { λ x y. if P.relates (worth_cmp (T.own_worth x) (T.own_worth y)) then x else y };

    fn apply(x: &T, y: &T) -> T {
        if P::holds(x.order(y)) { *x } else { *y }
    }
}

// At each index the left item where it is in the relation to the right one, and else the right one.
fn choose_items<P: Relation, T: Ordered>(
    alloc: Global,
    count: usize,
    left: &Lane<'_, T>,
    right: &Lane<'_, T>,
) -> Result<Vec<T>, AllocError>
    requires left { length (lane_items count left.now) ≡ count }
    requires right { length (lane_items count right.now) ≡ count }
    ensures { IfOk result (λ v. v.items ≡ zip2
        (λ x y. if P.relates (worth_cmp (T.own_worth x) (T.own_worth y)) then x else y)
        (lane_items count left.now) (lane_items count right.now)) }
{
    zip_lanes::<Chosen<P>, T, T>(alloc, count, left, right)
}

fn choose_sides<P: Relation>(
    alloc: Global,
    count: usize,
    left: &Side<'_>,
    right: &Side<'_>,
) -> Result<Column, NoMemory>
    requires same { side_kind left.now ≡ side_kind right.now }
    requires number { IsTrue (is_number (side_kind left.now)) }
    requires left { length (spread count left.now) ≡ count }
    requires right { length (spread count right.now) ≡ count }
    ensures { IfOk result (λ c. contents c ≡ record {
      kind = side_kind left.now;
      atoms = zip2 (λ x y. if P.relates (worth_cmp (worth x) (worth y)) then x else y)
          (spread count left.now) (spread count right.now);
    }) }
{
    match (Cells::of(left), Cells::of(right)) {
        (Cells::Booleans(some), Cells::Booleans(others)) => {
            Ok(Column::Booleans(choose_items::<P, bool>(alloc, count, &some, &others)?))
        }
        (Cells::Bytes(kind, some), Cells::Bytes(_, others)) => {
            Ok(Column::Bytes(kind, choose_items::<P, u8>(alloc, count, &some, &others)?))
        }
        (Cells::Shorts(some), Cells::Shorts(others)) => {
            Ok(Column::Shorts(choose_items::<P, i16>(alloc, count, &some, &others)?))
        }
        (Cells::Integers(kind, some), Cells::Integers(_, others)) => {
            Ok(Column::Integers(kind, choose_items::<P, i32>(alloc, count, &some, &others)?))
        }
        (Cells::Longs(kind, some), Cells::Longs(_, others)) => {
            Ok(Column::Longs(kind, choose_items::<P, i64>(alloc, count, &some, &others)?))
        }
        _ => unreachable!(),
    }
}

/// The lesser or the greater of the two items at each index, which have one kind.
pub(crate) fn choice(
    alloc: Global,
    verb: Verb,
    count: usize,
    left: &Side<'_>,
    right: &Side<'_>,
) -> Result<Vector, NoMemory>
    requires verb { IsTrue (is_choice verb) }
    requires same { side_kind left.now ≡ side_kind right.now }
    requires number { IsTrue (is_number (side_kind left.now)) }
    requires left { length (spread count left.now) ≡ count }
    requires right { length (spread count right.now) ≡ count }
    ensures { IfOk result (λ v. v ≡ record {
      kind = side_kind left.now;
      atoms = zip2 (chosen verb) (spread count left.now) (spread count right.now);
    }) }
{
    let column = match verb {
        Verb::Lesser => choose_sides::<AtMost>(alloc, count, left, right)?,
        Verb::Greater => choose_sides::<AtLeast>(alloc, count, left, right)?,
        _ => unreachable!(),
    };
    Ok(Vector::from_column(column))
}
