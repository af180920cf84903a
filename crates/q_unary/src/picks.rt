//! What is picked of items: the least, or the greatest.
ghost use Rattle.std.specs.Prelude.{◌≡◌, ℤ, Bool, Option, IsSome};
ghost use Rattle.std.specs.declared.cmp.Ordering.{Ordering};
ghost use Rattle.q_unary.specs.Extremes.{Picks, Ranks, extreme};

use q_lanes::Items;

/// Which of two items is picked. Nulls are passed over.
pub trait Pick<T> {
    ghost wanted: { Ordering → Bool };

    ghost number: { T → Option ℤ };

    ghost end: { T };

    ghost held: { T → T };

    /// The state that stands for what is picked of no items.
    fn end() -> T
        ensures value { held result ≡ end }
        ensures ranks { Ranks wanted };

    /// The state after one more item, which may be the null.
    fn pick(state: T, x: &T) -> T
        ensures picks { Picks wanted number end (held state) x.now (held result) }
        ensures end { x.now ≡ end → IsSome (number (held state)) → held result ≡ held state };

    /// What is picked so far.
    fn held(state: T) -> T
        ensures { result ≡ held state };
}

/// The least item.
pub struct Least;

/// The greatest item.
pub struct Greatest;

/// The item that is picked of all, or the end where they are all nulls. Both halves are gone over at once, which keeps more
/// of the memory busy.
pub fn picked_of<P: Pick<T>, T: Copy, I: Items<T>>(items: &I) -> T
    ensures { result ≡ extreme P.wanted P.number P.end (I.list items.now) }
{
    let count = items.count();
    let half = count / 2;
    let mut best = P::end();
    let mut other = P::end();
    for i in 0..half {
        best = P::pick(best, &items.item(i));
        other = P::pick(other, &items.item(half + i));
    }
    let last = P::held(other);
    let both = P::pick(best, &last);
    if half + half < count {
        P::held(P::pick(both, &items.item(half + half)))
    } else {
        P::held(both)
    }
}
