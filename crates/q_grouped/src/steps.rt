//! What one more item makes of the count, the sum, the least or the greatest number, or the first or last row of its group.
ghost use Rattle.std.specs.Prelude.{◌≡◌, ◌+ℤ◌};
ghost use Rattle.std.specs.Int.{w64, int_wrap};

use crate::fold::Fold;
use crate::number::Number;

// The sum of two numbers, wrapped.
fn plus(sum: &i64, x: &i64) -> i64
    ensures { result ≡ int_wrap w64 (sum.now +ℤ x.now) }
{
    sum.wrapping_add(*x)
}

/// The number of items, wrapped.
pub(crate) struct Count;

impl<T> Fold<T, i64> for Count {
    ghost use Rattle.std.specs.Prelude.{pos, Some, true};
    ghost use Rattle.q_grouped.specs.Steps.{added};

    ghost next = { added (λ x. Some (pos 1)) };

    ghost fits = { λ x. true };

    fn step(state: &i64, _item: &T) -> i64 {
        plus(state, &1)
    }
}

/// The sum of the items but the nulls, wrapped.
pub(crate) struct Sum;

impl<T: Number> Fold<T, i64> for Sum {
    ghost use Rattle.q_grouped.specs.Steps.{added};

    ghost next = { added T.number };

    ghost fits = { T.fits };

    fn step(state: &i64, item: &T) -> i64 {
        if item.is_present() {
            plus(state, &item.wide())
        } else {
            *state
        }
    }
}

/// The least of the items but the nulls.
pub(crate) struct Least;

impl<T: Number> Fold<T, T> for Least {
    ghost use Rattle.std.specs.Ordering.{is_le};
    ghost use Rattle.q_grouped.specs.Steps.{kept};

    ghost next = { kept is_le T.number };

    ghost fits = { T.fits };

    fn step(state: &T, item: &T) -> T {
        if item.is_present() && !state.order(item).is_le() {
            *item
        } else {
            *state
        }
    }
}

/// The greatest of the items but the nulls.
pub(crate) struct Greatest;

impl<T: Number> Fold<T, T> for Greatest {
    ghost use Rattle.std.specs.Ordering.{is_ge};
    ghost use Rattle.q_grouped.specs.Steps.{kept};

    ghost next = { kept is_ge T.number };

    ghost fits = { T.fits };

    fn step(state: &T, item: &T) -> T {
        if item.is_present() && !state.order(item).is_ge() {
            *item
        } else {
            *state
        }
    }
}

/// The first row.
pub(crate) struct First;

impl Fold<usize, Option<usize>> for First {
    ghost use Rattle.std.specs.Prelude.{true};
    ghost use Rattle.q_grouped.specs.Steps.{first_seen};

    ghost next = { first_seen };

    ghost fits = { λ row. true };

    fn step(state: &Option<usize>, item: &usize) -> Option<usize> {
        match state {
            Some(row) => Some(*row),
            None => Some(*item),
        }
    }
}

/// The last row.
pub(crate) struct Last;

impl Fold<usize, Option<usize>> for Last {
    ghost use Rattle.std.specs.Prelude.{true};
    ghost use Rattle.q_grouped.specs.Steps.{last_seen};

    ghost next = { last_seen };

    ghost fits = { λ row. true };

    fn step(_state: &Option<usize>, item: &usize) -> Option<usize> {
        Some(*item)
    }
}
