//! `xbar` of a column by one width.
ghost use Rattle.std.specs.Prelude.{◌≡◌, ◌<ℤ◌, pos, Some, IfOk, map};
ghost use Rattle.std.specs.Int.{w64};
ghost use Rattle.q_binary.specs.Computed.{computed};
ghost use Rattle.q_verbs.specs.Numbers.{number_in};
ghost use Rattle.q_verbs.specs.Places.{multiple_of};

use crate::divisor::Divisor;
use q_lanes::{Number, Reduced, Rule, map_items};
use std::alloc::{AllocError, Global};

// The greatest multiple of a width above 0 that isn't above a number.
#[derive(Drop)]
struct Multiples {
    width: Divisor,
}

impl Multiples {
    // The multiple below a number, wrapped to 64 bits, or the null.
    fn below(&self, number: i64) -> Option<i64>
        ensures { result ≡ computed multiple_of (Some self.now.width.value) (number_in w64 number) }
    {
        if number > i64::MIN {
            Some(self.width.below(number))
        } else {
            None
        }
    }
}

impl<T: Number, U: Reduced> Rule<T, U> for Multiples {
    ghost use Rattle.std.specs.Prelude.{Some};
    ghost use Rattle.q_binary.specs.Computed.{computed};
    ghost use Rattle.q_verbs.specs.Places.{multiple_of};

    ghost value = { λ s x. U.of (computed multiple_of (Some s.width.value) (T.number x)) };

    fn apply(&self, x: &T) -> U {
        U::reduced_from(self.below(x.widened()))
    }
}

/// `xbar` of each item by one width above 0.
pub(crate) fn multiples_of<T: Number, U: Reduced>(
    alloc: Global,
    width: i64,
    items: &[T],
) -> Result<Vec<U>, AllocError>
    requires { pos 0 <ℤ width }
    ensures { IfOk result (λ v. v.items
        ≡ map (λ x. U.of (computed multiple_of (number_in w64 width) (T.number x))) items.now) }
{
    let rule = Multiples {
        width: Divisor::of(width),
    };
    map_items::<Multiples, T, U>(alloc, &rule, items)
}
