//! `xbar` of a column of ints by one width, in 32 bits.
ghost use Rattle.std.specs.Prelude.{◌≡◌, ◌<◌, ◌≤◌, ◌+◌, ◌*◌, ◌%◌, ◌^◌, ◌<ℤ◌, ◌≤ℤ◌, ◌-ℤ◌, ◌*ℤ◌, pos, negsuc, IfOk, OnOk, ◌++◌, map};
ghost use Rattle.std.specs.Int.{w32};
ghost use Rattle.q_binary.specs.Computed.{int_multiple};
ghost use Rattle.q_verbs.specs.Places.{floor_div};

use std::alloc::{AllocError, Global};

// The greatest multiple of a width above 0 that isn't above an int. Nothing here wants more than 32 bits but one product,
// and each choice is between two numbers, so the compiler works on several ints at once.
#[derive(Drop)]
struct IntMultiples {
    // From 1 to 2^31 - 1.
    width: u32,
    // 2^32 divided by it, rounded down, or one less.
    inverse: u32,
    ghost positive: { 0 < width },
    ghost signed: { width < 2 ^ 31 },
    ghost inverted: { width * inverse < 2 ^ 32 },
    ghost whole: { 2 ^ 32 ≤ width * inverse + width },
}

// The number, or its complement where it is below 0.
fn folded(number: i32) -> u32
    ensures below { number <ℤ pos 0 → number ≡ negsuc result }
    ensures above { pos 0 ≤ℤ number → number ≡ pos result }
{
    if number < 0 {
        (!number) as u32
    } else {
        number as u32
    }
}

impl IntMultiples {
    // Those of this width.
    fn of(width: i32) -> IntMultiples
        requires { pos 0 <ℤ width }
        ensures { pos result.width ≡ width }
    {
        let width = width as u32;
        IntMultiples {
            width,
            inverse: u32::MAX / width,
        }
    }

    // What n has above a multiple. The product with the inverse is the quotient or one less.
    fn remainder(&self, n: u32) -> u32
        ensures { result ≡ n % self.now.width }
    {
        let near = ((u64::from(n) * u64::from(self.inverse)) >> 32) as u32;
        let rest = n - near * self.width;
        if rest < self.width {
            rest
        } else {
            rest - self.width
        }
    }

    // What the number has above the multiple.
    fn excess(&self, number: i32) -> u32
        ensures below { result < self.now.width }
        ensures value { (number -ℤ pos result) ≡ (pos self.now.width *ℤ floor_div number (pos self.now.width)) }
    {
        let rest = self.remainder(folded(number));
        if number < 0 {
            self.width - 1 - rest
        } else {
            rest
        }
    }

    // The multiple below a number, wrapped to 32 bits, or the null.
    fn below(&self, number: i32) -> i32
        ensures { result ≡ int_multiple (pos self.now.width) number }
    {
        let excess = self.excess(number);
        if number > i32::MIN {
            number.wrapping_sub(excess as i32)
        } else {
            i32::MIN
        }
    }
}

// Ints that are copied and then changed, before the next ones are: they stay in the cache.
const PART: usize = 4096;

// Puts the multiple below each int in its place.
fn replace_each(rule: &IntMultiples, items: &mut [i32])
    ensures { items.new ≡ map (int_multiple (pos rule.now.width)) items.old }
{
    for item in items.iter_mut() {
        *item = rule.below(*item);
    }
}

// Appends the multiple below each int.
fn append_each(rule: &IntMultiples, items: &[i32], out: &mut Vec<i32>) -> Result<(), AllocError>
    ensures { OnOk result (out.new.items ≡ out.old.items ++ map (int_multiple (pos rule.now.width)) items.now) }
{
    let start = out.len();
    out.extend_from_slice(items)?;
    replace_each(rule, &mut out[start..]);
    Ok(())
}

/// `xbar` of each int by one width above 0.
pub(crate) fn multiples_of_ints(
    alloc: Global,
    width: i32,
    items: &[i32],
) -> Result<Vec<i32>, AllocError>
    requires { pos 0 <ℤ width }
    ensures { IfOk result (λ v. v.items ≡ map (int_multiple width) items.now) }
{
    let rule = IntMultiples::of(width);
    let mut values = Vec::with_capacity(alloc, items.len())?;
    let mut done = 0;
    while done < items.len() {
        let end = done + PART.min(items.len() - done);
        append_each(&rule, &items[done..end], &mut values)?;
        done = end;
    }
    Ok(values)
}
