//! What holds of the verbs, in other words than their definitions. Each law is the contract of a function with an empty
//! body.
ghost use Rattle.q_binary.specs.Laws.{DivisionIsWhole, RemainderLiesBelow, RemainderLiesAbove, BarIsGreatestMultiple};

/// A number is the divisor times the quotient, plus the remainder.
pub fn division_is_whole()
    ensures { DivisionIsWhole }
{}

/// The remainder of a divisor above 0 is at least 0 and below the divisor.
pub fn remainder_lies_below()
    ensures { RemainderLiesBelow }
{}

/// The remainder of a divisor below 0 is above the divisor and at most 0.
pub fn remainder_lies_above()
    ensures { RemainderLiesAbove }
{}

/// With a width above 0, `xbar` gives the greatest multiple of it that is not above the number.
pub fn bar_is_greatest_multiple()
    ensures { BarIsGreatestMultiple }
{}
