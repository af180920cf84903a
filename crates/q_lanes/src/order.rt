//! Relations between values, and the order of what items are worth.
ghost use Rattle.std.specs.Prelude.{◌≡◌, Bool};
ghost use Rattle.std.specs.declared.cmp.Ordering.{Ordering};
ghost use Rattle.std.specs.Int.{w16, w32};
ghost use Rattle.q_verbs.specs.Numbers.{Worth, numeric, number_in, worth_cmp};
ghost use Rattle.q_lanes.specs.Loops.{worth_in_64};

use q_values::ShortSymbol;
use std::cmp::Ordering;

/// A relation between two values, which their order decides.
pub trait Relation {
    ghost relates: { Ordering → Bool };

    /// Whether two values in this order are in the relation.
    fn holds(order: Ordering) -> bool
        ensures { result ≡ relates order };
}

/// `=`
pub struct Same;

impl Relation for Same {
    ghost use Rattle.std.specs.Ordering.{is_eq};

    ghost relates = { is_eq };

    fn holds(order: Ordering) -> bool {
        order.is_eq()
    }
}

/// `<>`
pub struct Other;

impl Relation for Other {
    ghost use Rattle.std.specs.Ordering.{is_ne};

    ghost relates = { is_ne };

    fn holds(order: Ordering) -> bool {
        order.is_ne()
    }
}

/// `<`
pub struct Below;

impl Relation for Below {
    ghost use Rattle.std.specs.Ordering.{is_lt};

    ghost relates = { is_lt };

    fn holds(order: Ordering) -> bool {
        order.is_lt()
    }
}

/// `>`
pub struct Above;

impl Relation for Above {
    ghost use Rattle.std.specs.Ordering.{is_gt};

    ghost relates = { is_gt };

    fn holds(order: Ordering) -> bool {
        order.is_gt()
    }
}

/// `<=`
pub struct AtMost;

impl Relation for AtMost {
    ghost use Rattle.std.specs.Ordering.{is_le};

    ghost relates = { is_le };

    fn holds(order: Ordering) -> bool {
        order.is_le()
    }
}

/// `>=`
pub struct AtLeast;

impl Relation for AtLeast {
    ghost use Rattle.std.specs.Ordering.{is_ge};

    ghost relates = { is_ge };

    fn holds(order: Ordering) -> bool {
        order.is_ge()
    }
}

/// Items that compare as what they are worth.
pub trait Ordered: Copy {
    ghost own_worth: { Self → Worth };

    /// The order of two items.
    fn order(&self, other: &Self) -> Ordering
        ensures { result ≡ worth_cmp (own_worth self.now) (own_worth other.now) };
}

impl Ordered for bool {
    ghost use Rattle.std.specs.Prelude.{Some, pos, if◌then◌else◌};
    ghost use Rattle.q_verbs.specs.Numbers.{numeric};

    ghost own_worth = { λ b. numeric (Some (pos (if b then 1 else 0))) };

    fn order(&self, other: &bool) -> Ordering {
        u8::from(*self).cmp(&u8::from(*other))
    }
}

impl Ordered for u8 {
    ghost use Rattle.std.specs.Prelude.{Some, pos};
    ghost use Rattle.q_verbs.specs.Numbers.{numeric};

    ghost own_worth = { λ x. numeric (Some (pos x)) };

    fn order(&self, other: &u8) -> Ordering {
        self.cmp(other)
    }
}

impl Ordered for i16 {
    ghost use Rattle.std.specs.Int.{w16};
    ghost use Rattle.q_verbs.specs.Numbers.{numeric, number_in};

    ghost own_worth = { λ x. numeric (number_in w16 x) };

    fn order(&self, other: &i16) -> Ordering {
        order_in_16(self, other)
    }
}

impl Ordered for i32 {
    ghost use Rattle.std.specs.Int.{w32};
    ghost use Rattle.q_verbs.specs.Numbers.{numeric, number_in};

    ghost own_worth = { λ x. numeric (number_in w32 x) };

    fn order(&self, other: &i32) -> Ordering {
        order_in_32(self, other)
    }
}

impl Ordered for i64 {
    ghost use Rattle.q_lanes.specs.Loops.{worth_in_64};

    ghost own_worth = { worth_in_64 };

    fn order(&self, other: &i64) -> Ordering {
        order_of(self, other)
    }
}

impl Ordered for ShortSymbol {
    ghost use Rattle.q_values.specs.declared.atom.Atom.TheVariants as a;
    ghost use Rattle.q_verbs.specs.Numbers.{worth};

    ghost own_worth = { λ s. worth (a.Symbol s) };

    fn order(&self, other: &ShortSymbol) -> Ordering {
        self.cmp(other)
    }
}

fn order_in_16(x: &i16, y: &i16) -> Ordering
    ensures { result ≡ worth_cmp (numeric (number_in w16 x.now)) (numeric (number_in w16 y.now)) }
{
    let left = *x;
    let right = *y;
    left.cmp(&right)
}

fn order_in_32(x: &i32, y: &i32) -> Ordering
    ensures { result ≡ worth_cmp (numeric (number_in w32 x.now)) (numeric (number_in w32 y.now)) }
{
    let first = *x;
    let second = *y;
    first.cmp(&second)
}

/// The order of two numbers of 64 bits, where the least one is the null.
pub fn order_of(x: &i64, y: &i64) -> Ordering
    ensures { result ≡ worth_cmp (worth_in_64 x.now) (worth_in_64 y.now) }
{
    let some = *x;
    let other = *y;
    some.cmp(&other)
}
