//! Numbers of each width as numbers of 64 bits, and back.
ghost use Rattle.std.specs.Prelude.{◌≡◌, ℤ, pos, map, IfOk, Option, Some, if◌then◌else◌};
ghost use Rattle.std.specs.Ordering.{is_eq};
ghost use Rattle.std.specs.Int.{w16, w32, w64, int_wrap};
ghost use Rattle.q_verbs.specs.Numbers.{number_in, numeric, worth_cmp};

use std::alloc::{AllocError, Global};

/// A number of some width, or the null of that width.
pub trait Number: Copy {
    ghost number: { Self → Option ℤ };

    /// The number in 64 bits, the least one for the null.
    fn widened(&self) -> i64
        ensures { number_in w64 result ≡ number self.now };

    /// Whether two numbers are equal; a null is equal to a null.
    fn is_same(&self, other: &Self) -> bool
        ensures { result ≡ is_eq (worth_cmp (numeric (number self.now)) (numeric (number other.now))) };
}

fn same_bits(x: &bool, y: &bool) -> bool
    ensures { result ≡ is_eq (worth_cmp (numeric (Some (pos (if x.now then 1 else 0)))) (numeric (Some (pos (if y.now then 1 else 0))))) }
{
    x == y
}

fn same_bytes(x: &u8, y: &u8) -> bool
    ensures { result ≡ is_eq (worth_cmp (numeric (Some (pos x.now))) (numeric (Some (pos y.now)))) }
{
    x == y
}

fn same_in_16(x: &i16, y: &i16) -> bool
    ensures { result ≡ is_eq (worth_cmp (numeric (number_in w16 x.now)) (numeric (number_in w16 y.now))) }
{
    x == y
}

fn same_in_32(x: &i32, y: &i32) -> bool
    ensures { result ≡ is_eq (worth_cmp (numeric (number_in w32 x.now)) (numeric (number_in w32 y.now))) }
{
    x == y
}

fn same_in_64(x: &i64, y: &i64) -> bool
    ensures { result ≡ is_eq (worth_cmp (numeric (number_in w64 x.now)) (numeric (number_in w64 y.now))) }
{
    x == y
}

impl Number for bool {
    ghost use Rattle.std.specs.Prelude.{Some, pos, if◌then◌else◌};

    ghost number = { λ b. Some (pos (if b then 1 else 0)) };

    fn widened(&self) -> i64 {
        i64::from(*self)
    }

    fn is_same(&self, other: &bool) -> bool {
        same_bits(self, other)
    }
}

impl Number for u8 {
    ghost use Rattle.std.specs.Prelude.{Some, pos};

    ghost number = { λ x. Some (pos x) };

    fn widened(&self) -> i64 {
        i64::from(*self)
    }

    fn is_same(&self, other: &u8) -> bool {
        same_bytes(self, other)
    }
}

impl Number for i16 {
    ghost use Rattle.std.specs.Int.{w16};
    ghost use Rattle.q_verbs.specs.Numbers.{number_in};

    ghost number = { λ x. number_in w16 x };

    fn widened(&self) -> i64 {
        if *self > i16::MIN {
            i64::from(*self)
        } else {
            i64::MIN
        }
    }

    fn is_same(&self, other: &i16) -> bool {
        same_in_16(self, other)
    }
}

impl Number for i32 {
    ghost use Rattle.std.specs.Int.{w32};
    ghost use Rattle.q_verbs.specs.Numbers.{number_in};

    ghost number = { λ x. number_in w32 x };

    fn widened(&self) -> i64 {
        if *self > i32::MIN {
            i64::from(*self)
        } else {
            i64::MIN
        }
    }

    fn is_same(&self, other: &i32) -> bool {
        same_in_32(self, other)
    }
}

impl Number for i64 {
    ghost use Rattle.std.specs.Int.{w64};
    ghost use Rattle.q_verbs.specs.Numbers.{number_in};

    ghost number = { λ x. number_in w64 x };

    fn widened(&self) -> i64 {
        *self
    }

    fn is_same(&self, other: &i64) -> bool {
        same_in_64(self, other)
    }
}

/// Each number in 64 bits, the least one for the null.
pub fn widened_all<T: Number>(alloc: Global, items: &[T]) -> Result<Vec<i64>, AllocError>
    ensures { IfOk result (λ v. map (number_in w64) v.items ≡ map T.number items.now) }
{
    let mut wide = Vec::with_capacity(alloc, items.len())?;
    for item in items {
        wide.push_reserved(item.widened());
    }
    Ok(wide)
}

/// A width that a verb computes in.
pub trait Reduced: Copy {
    ghost of: { Option ℤ → Self };

    /// The number reduced to the width in two's complement, or the null.
    fn reduced_from(value: Option<i64>) -> Self
        ensures { result ≡ of value };
}

/// The low 32 bits, in two's complement.
pub fn low_32(x: &i64) -> i32
    ensures { result ≡ int_wrap w32 x.now }
{
    ((x.cast_unsigned() % 0x1_0000_0000) as u32).cast_signed()
}

fn low_16(x: &i64) -> i16
    ensures { result ≡ int_wrap w16 x.now }
{
    ((x.cast_unsigned() % 0x1_0000) as u16).cast_signed()
}

impl Reduced for i64 {
    ghost use Rattle.std.specs.Int.{w64};
    ghost use Rattle.q_verbs.specs.Numbers.{reduced};

    ghost of = { reduced w64 };

    fn reduced_from(value: Option<i64>) -> i64 {
        match value {
            Some(x) => x,
            None => i64::MIN,
        }
    }
}

impl Reduced for i32 {
    ghost use Rattle.std.specs.Int.{w32};
    ghost use Rattle.q_verbs.specs.Numbers.{reduced};

    ghost of = { reduced w32 };

    fn reduced_from(value: Option<i64>) -> i32 {
        match value {
            Some(x) => low_32(&x),
            None => i32::MIN,
        }
    }
}

impl Reduced for i16 {
    ghost use Rattle.std.specs.Int.{w16};
    ghost use Rattle.q_verbs.specs.Numbers.{reduced};

    ghost of = { reduced w16 };

    fn reduced_from(value: Option<i64>) -> i16 {
        match value {
            Some(x) => low_16(&x),
            None => i16::MIN,
        }
    }
}
