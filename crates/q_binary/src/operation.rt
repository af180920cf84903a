//! The operations of the verbs on two numbers.
ghost use Rattle.std.specs.Prelude.{◌≡◌, ◌<ℤ◌, ◌≢◌, ◌-ℤ◌, ◌*ℤ◌, ℤ, pos, Option, option_map};
ghost use Rattle.std.specs.Int.{w64, int_wrap};
ghost use Rattle.q_verbs.specs.Numbers.{number_in, least};
ghost use Rattle.q_binary.specs.Computed.{computed};
ghost use Rattle.q_verbs.specs.Places.{floor_div};

use q_lanes::{Number, Reduced, Step};
use q_values::NANOSECONDS_PER_DAY;

/// An operation on two numbers of 64 bits, neither of them the null.
pub trait Operation {
    ghost value: { ℤ → ℤ → Option ℤ };

    /// The result, wrapped to 64 bits; `None` for the null.
    fn apply(x: &i64, y: &i64) -> Option<i64>
        requires left { least w64 <ℤ x.now }
        requires right { least w64 <ℤ y.now }
        ensures { result ≡ option_map (int_wrap w64) (value x.now y.now) };
}

/// `+`
pub struct Sum;

impl Operation for Sum {
    ghost use Rattle.q_verbs.specs.Places.{sum_of};

    ghost value = { sum_of };

    fn apply(x: &i64, y: &i64) -> Option<i64> {
        Some(x.wrapping_add(*y))
    }
}

/// `-`
pub struct Difference;

impl Operation for Difference {
    ghost use Rattle.q_verbs.specs.Places.{difference_of};

    ghost value = { difference_of };

    fn apply(x: &i64, y: &i64) -> Option<i64> {
        Some(x.wrapping_sub(*y))
    }
}

/// `*`
pub(crate) struct Product;

impl Operation for Product {
    ghost use Rattle.q_verbs.specs.Places.{product_of};

    ghost value = { product_of };

    fn apply(x: &i64, y: &i64) -> Option<i64> {
        Some(x.wrapping_mul(*y))
    }
}

/// A date and a timespan: a timestamp.
pub(crate) struct DaysAndSpan;

impl Operation for DaysAndSpan {
    ghost use Rattle.q_verbs.specs.Places.{days_and_span};

    ghost value = { days_and_span };

    fn apply(x: &i64, y: &i64) -> Option<i64> {
        Some(NANOSECONDS_PER_DAY.wrapping_mul(*x).wrapping_add(*y))
    }
}

/// A timespan and a date: a timestamp.
pub(crate) struct SpanAndDays;

impl Operation for SpanAndDays {
    ghost use Rattle.q_verbs.specs.Places.{span_and_days};

    ghost value = { span_and_days };

    fn apply(x: &i64, y: &i64) -> Option<i64> {
        Some(NANOSECONDS_PER_DAY.wrapping_mul(*y).wrapping_add(*x))
    }
}

// The quotient rounded down.
fn floored(x: &i64, y: &i64) -> i64
    requires left { least w64 <ℤ x.now }
    requires right { least w64 <ℤ y.now }
    requires divisor { y.now ≢ pos 0 }
    ensures { result ≡ floor_div x.now y.now }
{
    if *y > 0 {
        x.div_euclid(*y)
    } else {
        (-*x).div_euclid(-*y)
    }
}

/// `div`
pub(crate) struct Quotient;

impl Operation for Quotient {
    ghost use Rattle.q_verbs.specs.Places.{quotient_of};

    ghost value = { quotient_of };

    fn apply(x: &i64, y: &i64) -> Option<i64> {
        if *y == 0 { None } else { Some(floored(x, y)) }
    }
}

// x minus q times y, wrapped.
fn rest(x: &i64, y: &i64, q: &i64) -> i64
    ensures { result ≡ int_wrap w64 (x.now -ℤ (y.now *ℤ q.now)) }
{
    x.wrapping_sub(y.wrapping_mul(*q))
}

/// `mod`
pub(crate) struct Remainder;

impl Operation for Remainder {
    ghost use Rattle.q_verbs.specs.Places.{remainder_of};

    ghost value = { remainder_of };

    fn apply(x: &i64, y: &i64) -> Option<i64> {
        if *y == 0 {
            None
        } else {
            Some(rest(x, y, &floored(x, y)))
        }
    }
}

/// `xbar`
pub(crate) struct Multiple;

impl Operation for Multiple {
    ghost use Rattle.q_verbs.specs.Places.{multiple_of};

    ghost value = { multiple_of };

    fn apply(x: &i64, y: &i64) -> Option<i64> {
        if *x == 0 {
            None
        } else {
            Some(x.wrapping_mul(floored(y, x)))
        }
    }
}

/// `&` of two kinds
pub(crate) struct Lesser;

impl Operation for Lesser {
    ghost use Rattle.q_verbs.specs.Places.{lesser_of};

    ghost value = { lesser_of };

    fn apply(x: &i64, y: &i64) -> Option<i64> {
        Some((*x).min(*y))
    }
}

/// `|` of two kinds
pub(crate) struct Greater;

impl Operation for Greater {
    ghost use Rattle.q_verbs.specs.Places.{greater_of};

    ghost value = { greater_of };

    fn apply(x: &i64, y: &i64) -> Option<i64> {
        Some((*x).max(*y))
    }
}

// The result of two numbers or nulls; a null on either side gives the null.
fn applied<P: Operation>(x: &i64, y: &i64) -> Option<i64>
    ensures { result ≡ computed P.value (number_in w64 x.now) (number_in w64 y.now) }
{
    if *x > i64::MIN && *y > i64::MIN {
        P::apply(x, y)
    } else {
        None
    }
}

/// The operation's result for two numbers or nulls of one width, in the width of the result.
pub struct Computed<P>(P);

impl<P: Operation, T: Number, U: Reduced> Step<T, U> for Computed<P> {
    ghost use Rattle.q_binary.specs.Computed.{computed};

    ghost value = { λ x y. U.of (computed P.value (T.number x) (T.number y)) };

    fn apply(x: &T, y: &T) -> U {
        U::reduced_from(applied::<P>(&x.widened(), &y.widened()))
    }
}
