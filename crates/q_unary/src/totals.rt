//! Sums.
ghost use Rattle.std.specs.Prelude.{◌≡◌, ◌≢◌, ◌+ℤ◌, IsTrue, map, Some, pos, unwrap_or};
ghost use Rattle.std.specs.Int.{w64, int_wrap};
ghost use Rattle.q_values.specs.Column.{contents};
ghost use Rattle.q_values.specs.declared.kind.Kind.TheVariants as k;
ghost use Rattle.q_verbs.specs.Kinds.{is_total};
ghost use Rattle.q_verbs.specs.Numbers.{number_in, written};
ghost use Rattle.q_verbs.specs.Aggregates.{total, number_of};

use q_lanes::{Number, low_32};
use q_values::{Atom, Column, Kind};

// The sum of the items but the nulls, wrapped to 64 bits. Both halves are gone over at once, which keeps more of the memory
// busy.
fn total_of_items<T: Number>(items: &[T]) -> i64
    ensures { result ≡ int_wrap w64 (total (map T.number items.now)) }
{
    let half = items.len() / 2;
    let mut sum = 0i64;
    let mut other = 0i64;
    for i in 0..half {
        sum = added(&sum, &items[i].widened());
        other = added(&other, &items[half + i].widened());
    }
    let both = joined(&sum, &other);
    if half + half < items.len() {
        added(&both, &items[half + half].widened())
    } else {
        both
    }
}

// Two sums together.
fn joined(sum: &i64, other: &i64) -> i64
    ensures { result ≡ int_wrap w64 (sum.now +ℤ other.now) }
{
    sum.wrapping_add(*other)
}

// The sum and a number of 64 bits, unless that is the null.
fn added(sum: &i64, x: &i64) -> i64
    ensures { result ≡ int_wrap w64 (sum.now +ℤ unwrap_or (number_in w64 x.now) (pos 0)) }
{
    if *x > i64::MIN {
        sum.wrapping_add(*x)
    } else {
        *sum
    }
}

/// The sum of a column but its nulls, wrapped to 64 bits.
pub(crate) fn total_of(column: &Column) -> i64
    requires { (contents column.now).kind ≢ k.Symbol }
    ensures { result ≡ int_wrap w64 (total (map number_of (contents column.now).atoms)) }
{
    match column {
        Column::Booleans(items) => total_of_items(items.as_slice()),
        Column::Bytes(_, items) => total_of_items(items.as_slice()),
        Column::Shorts(items) => total_of_items(items.as_slice()),
        Column::Integers(_, items) => total_of_items(items.as_slice()),
        Column::Longs(_, items) => total_of_items(items.as_slice()),
        Column::Symbols(_) => unreachable!(),
    }
}

/// A sum of 64 bits in the kind of the result.
pub(crate) fn total_atom(kind: Kind, sum: &i64) -> Atom
    requires { IsTrue (is_total kind) }
    ensures { result ≡ written kind (Some sum.now) }
{
    match kind {
        Kind::Integer => Atom::Integer(low_32(sum)),
        Kind::Long => Atom::Long(*sum),
        Kind::Timespan => Atom::Timespan(*sum),
        _ => unreachable!(),
    }
}
