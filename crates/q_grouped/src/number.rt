//! Numbers of each width, and the null of the width.
ghost use Rattle.std.specs.Prelude.{◌≡◌, ℤ, Bool, IsTrue, Option, Some, is_some};
ghost use Rattle.q_verbs.specs.Numbers.{numeric, worth_cmp};

use q_lanes::Ordered;
use std::cmp::Ordering;

/// A number of some width, or the null of that width.
pub(crate) trait Number: Copy {
    ghost number: { Self → Option ℤ };

    ghost fits: { Self → Bool };

    /// Whether it is no null, and what holds of each number of the width.
    fn is_present(&self) -> bool
        ensures value { result ≡ is_some (number self.now) }
        ensures fits { IsTrue (fits self.now) };

    /// The number in 64 bits.
    fn wide(&self) -> i64
        requires { IsTrue (is_some (number self.now)) }
        ensures { Some result ≡ number self.now };

    /// The order of two numbers, where the null is below every number.
    fn order(&self, other: &Self) -> Ordering
        ensures { result ≡ worth_cmp (numeric (number self.now)) (numeric (number other.now)) };
}

impl Number for bool {
    ghost use Rattle.std.specs.Prelude.{Some, pos, true, if◌then◌else◌};

    ghost number = { λ b. Some (pos (if b then 1 else 0)) };

    ghost fits = { λ b. true };

    fn is_present(&self) -> bool {
        true
    }

    fn wide(&self) -> i64 {
        i64::from(*self)
    }

    fn order(&self, other: &bool) -> Ordering {
        u8::from(*self).cmp(&u8::from(*other))
    }
}

impl Number for u8 {
    ghost use Rattle.std.specs.Prelude.{Some, pos, nat_lt};

    ghost number = { λ x. Some (pos x) };

    ghost fits = { λ x. nat_lt x 256 };

    fn is_present(&self) -> bool {
        let _value = *self;
        true
    }

    fn wide(&self) -> i64 {
        i64::from(*self)
    }

    fn order(&self, other: &u8) -> Ordering {
        self.cmp(other)
    }
}

impl Number for i16 {
    ghost use Rattle.std.specs.Prelude.{pos};
    ghost use Rattle.std.specs.Int.{w16};
    ghost use Rattle.std.specs.Int.RustNames.{int_lt};
    ghost use Rattle.q_verbs.specs.Numbers.{number_in};

    ghost number = { λ x. number_in w16 x };

    ghost fits = { λ x. int_lt x (pos 32768) };

    fn is_present(&self) -> bool {
        let value = *self;
        value > i16::MIN
    }

    fn wide(&self) -> i64 {
        i64::from(*self)
    }

    fn order(&self, other: &i16) -> Ordering {
        Ordered::order(self, other)
    }
}

impl Number for i32 {
    ghost use Rattle.std.specs.Prelude.{pos};
    ghost use Rattle.std.specs.Int.{w32};
    ghost use Rattle.std.specs.Int.RustNames.{int_lt};
    ghost use Rattle.q_verbs.specs.Numbers.{number_in};

    ghost number = { λ x. number_in w32 x };

    ghost fits = { λ x. int_lt x (pos 2147483648) };

    fn is_present(&self) -> bool {
        let value = *self;
        value > i32::MIN
    }

    fn wide(&self) -> i64 {
        i64::from(*self)
    }

    fn order(&self, other: &i32) -> Ordering {
        Ordered::order(self, other)
    }
}

impl Number for i64 {
    ghost use Rattle.std.specs.Prelude.{pos};
    ghost use Rattle.std.specs.Int.{w64};
    ghost use Rattle.std.specs.Int.RustNames.{int_lt};
    ghost use Rattle.q_verbs.specs.Numbers.{number_in};

    ghost number = { λ x. number_in w64 x };

    ghost fits = { λ x. int_lt x (pos 9223372036854775808) };

    fn is_present(&self) -> bool {
        let value = *self;
        value > i64::MIN
    }

    fn wide(&self) -> i64 {
        *self
    }

    fn order(&self, other: &i64) -> Ordering {
        Ordered::order(self, other)
    }
}
