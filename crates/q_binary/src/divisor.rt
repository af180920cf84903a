//! Multiples of one number.
ghost use Rattle.std.specs.Prelude.{◌≡◌, ◌<◌, ◌≤◌, ◌+◌, ◌*◌, ◌^◌, ◌<ℤ◌, ◌≤ℤ◌, ◌-ℤ◌, ◌*ℤ◌, pos, neg_ℤ};
ghost use Rattle.std.specs.Int.{w64, int_wrap, int_shr};
ghost use Rattle.q_verbs.specs.Places.{floor_div};

/// A width above 0, and its inverse, by which a number is multiplied to find a multiple of the width.
#[derive(Drop)]
pub(crate) struct Divisor {
    // From 1 to 2^63 - 1.
    value: i64,
    // 2^64 divided by it, rounded down, or less.
    inverse: i64,
    ghost positive: { pos 0 <ℤ value },
    ghost small: { value <ℤ pos (2 ^ 63) },
    ghost signed: { pos 0 ≤ℤ inverse },
    ghost inverted: { (value *ℤ inverse) <ℤ pos (2 ^ 64) },
}

// The high half of the product.
fn high_product(x: i64, y: i64) -> i64
    ensures { result ≡ int_shr (x *ℤ y) 64 }
{
    ((i128::from(x) * i128::from(y)) >> 64) as i64
}

impl Divisor {
    /// The divisor with this value.
    pub(crate) fn of(value: i64) -> Divisor
        requires { pos 0 <ℤ value }
        ensures { result.value ≡ value }
    {
        let inverse = (u64::MAX / (value as u64)).min(i64::MAX as u64);
        Divisor {
            value,
            inverse: inverse as i64,
        }
    }

    // The quotient of the number by it, rounded down, or a number near that.
    fn near(&self, number: i64) -> i64
        ensures least { neg_ℤ (pos (2 ^ 63)) ≤ℤ (number -ℤ (result *ℤ self.now.value)) }
        ensures most { (number -ℤ (result *ℤ self.now.value)) <ℤ pos (2 ^ 63) }
    {
        high_product(number, self.inverse)
    }

    // The multiple by a division, which takes longer.
    fn divided(&self, number: i64) -> i64
        ensures { result ≡ int_wrap w64 (self.now.value *ℤ floor_div number self.now.value) }
    {
        self.value.wrapping_mul(number.div_euclid(self.value))
    }

    /// Its greatest multiple that isn't above the number, wrapped to 64 bits.
    pub(crate) fn below(&self, number: i64) -> i64
        ensures { result ≡ int_wrap w64 (self.now.value *ℤ floor_div number self.now.value) }
    {
        let product = self.near(number).wrapping_mul(self.value);
        let rest = number.wrapping_sub(product);
        if rest.cast_unsigned() < self.value.cast_unsigned() {
            product
        } else {
            self.divided(number)
        }
    }
}
