//! The least and the greatest of a column.
ghost use Rattle.std.specs.Prelude.{◌≡◌, pos, negsuc, Some, true, false, if◌then◌else◌, IsTrue, IsSome, unwrap_or};
ghost use Rattle.std.specs.Int.{w16, w32, w64};
ghost use Rattle.std.specs.Ordering.{is_ge, is_le};
ghost use Rattle.q_unary.specs.Extremes.{Picks, extreme, raised};
ghost use Rattle.q_values.specs.Column.{contents};
ghost use Rattle.q_verbs.specs.Aggregates.{chosen_of, greatest, lowest, number_of};
ghost use Rattle.q_verbs.specs.Kinds.{is_number};
ghost use Rattle.q_verbs.specs.Numbers.{number_in};
ghost use Rattle.q_verbs.specs.Places.{chosen};
ghost use Rattle.q_verbs.specs.declared.verb.Verb.TheVariants as v;

use crate::picks::{Greatest, Least, Pick, picked_of};
use q_lanes::{Number, Slice};
use q_values::{Atom, Column};

// Numbers of which the least and the greatest are sought, with no branch for a null. The null is the least number of its
// width, so it is never the greatest. Where the least is sought, the state is one less than it: of a null, one less wraps
// to the greatest number.
pub(crate) trait Extremal: Number {
    ghost top: { Self };

    ghost bottom: { Self };

    ghost held: { Self → Self };

    // The greatest value, which as a state stands for itself.
    fn greatest_value() -> Self
        ensures { held result ≡ top };

    // The greatest value negated; 0 of 8 bits.
    fn lowest_value() -> Self
        ensures { result ≡ bottom };

    // The state after one more item, which may be the null, in the search for the least.
    fn lesser(state: Self, x: &Self) -> Self
        ensures picks { Picks is_le Self.number top (held state) x.now (held result) }
        ensures end { x.now ≡ top → IsSome (Self.number (held state)) → held result ≡ held state };

    // The least so far.
    fn held(state: Self) -> Self
        ensures { result ≡ held state };

    // The greater of the greatest so far and one more item, which may be the null.
    fn greater(best: Self, x: &Self) -> Self
        ensures picks { Picks is_ge Self.number bottom best x.now result }
        ensures end { x.now ≡ bottom → IsSome (Self.number best) → result ≡ best };
}

fn lesser_bit(best: bool, x: &bool) -> bool
    ensures picks { Picks is_le (λ b. Some (pos (if b then 1 else 0))) true best x.now result }
    ensures end { x.now ≡ true → result ≡ best }
{
    best && *x
}

fn greater_bit(best: bool, x: &bool) -> bool
    ensures picks { Picks is_ge (λ b. Some (pos (if b then 1 else 0))) false best x.now result }
    ensures end { x.now ≡ false → result ≡ best }
{
    best || *x
}

impl Extremal for bool {
    ghost use Rattle.std.specs.Prelude.{true, false};

    ghost top = { true };

    ghost bottom = { false };

    ghost held = { λ x. x };

    fn greatest_value() -> bool {
        true
    }

    fn lowest_value() -> bool {
        false
    }

    fn lesser(state: bool, x: &bool) -> bool {
        lesser_bit(state, x)
    }

    fn held(state: bool) -> bool {
        state
    }

    fn greater(best: bool, x: &bool) -> bool {
        greater_bit(best, x)
    }
}

fn lesser_byte(best: u8, x: &u8) -> u8
    ensures picks { Picks is_le (λ n. Some (pos n)) 255 best x.now result }
    ensures end { x.now ≡ 255 → result ≡ best }
{
    best.min(*x)
}

fn greater_byte(best: u8, x: &u8) -> u8
    ensures picks { Picks is_ge (λ n. Some (pos n)) 0 best x.now result }
    ensures end { x.now ≡ 0 → result ≡ best }
{
    best.max(*x)
}

impl Extremal for u8 {
    ghost top = { 255 };

    ghost bottom = { 0 };

    ghost held = { λ x. x };

    fn greatest_value() -> u8 {
        u8::MAX
    }

    fn lowest_value() -> u8 {
        0
    }

    fn lesser(state: u8, x: &u8) -> u8 {
        lesser_byte(state, x)
    }

    fn held(state: u8) -> u8 {
        state
    }

    fn greater(best: u8, x: &u8) -> u8 {
        greater_byte(best, x)
    }
}

// The number less one, or the greatest one for the null.
fn lowered_16(x: i16) -> i16
    ensures { raised (pos 32767) result ≡ unwrap_or (number_in w16 x) (pos 32767) }
{
    x.wrapping_sub(1)
}

fn lesser_16(state: i16, x: &i16) -> i16
    ensures picks { Picks is_le (number_in w16) (pos 32767) (raised (pos 32767) state) x.now (raised (pos 32767) result) }
    ensures end { x.now ≡ pos 32767 → raised (pos 32767) result ≡ raised (pos 32767) state }
{
    state.min(lowered_16(*x))
}

fn greater_16(best: i16, x: &i16) -> i16
    ensures picks { Picks is_ge (number_in w16) (negsuc 32766) best x.now result }
    ensures end { x.now ≡ negsuc 32766 → IsSome (number_in w16 best) → result ≡ best }
{
    best.max(*x)
}

impl Extremal for i16 {
    ghost use Rattle.std.specs.Prelude.{pos, negsuc};
    ghost use Rattle.q_unary.specs.Extremes.{raised};

    ghost top = { pos 32767 };

    ghost bottom = { negsuc 32766 };

    ghost held = { raised (pos 32767) };

    fn greatest_value() -> i16 {
        i16::MAX
    }

    fn lowest_value() -> i16 {
        -i16::MAX
    }

    fn lesser(state: i16, x: &i16) -> i16 {
        lesser_16(state, x)
    }

    fn held(state: i16) -> i16 {
        state.saturating_add(1)
    }

    fn greater(best: i16, x: &i16) -> i16 {
        greater_16(best, x)
    }
}

// The number less one, or the greatest one for the null.
fn lowered_32(x: i32) -> i32
    ensures { raised (pos 2147483647) result ≡ unwrap_or (number_in w32 x) (pos 2147483647) }
{
    x.wrapping_sub(1)
}

fn lesser_32(state: i32, x: &i32) -> i32
    ensures picks { Picks is_le (number_in w32) (pos 2147483647) (raised (pos 2147483647) state) x.now (raised (pos 2147483647) result) }
    ensures end { x.now ≡ pos 2147483647 → raised (pos 2147483647) result ≡ raised (pos 2147483647) state }
{
    state.min(lowered_32(*x))
}

fn greater_32(best: i32, x: &i32) -> i32
    ensures picks { Picks is_ge (number_in w32) (negsuc 2147483646) best x.now result }
    ensures end { x.now ≡ negsuc 2147483646 → IsSome (number_in w32 best) → result ≡ best }
{
    best.max(*x)
}

impl Extremal for i32 {
    ghost use Rattle.std.specs.Prelude.{pos, negsuc};
    ghost use Rattle.q_unary.specs.Extremes.{raised};

    ghost top = { pos 2147483647 };

    ghost bottom = { negsuc 2147483646 };

    ghost held = { raised (pos 2147483647) };

    fn greatest_value() -> i32 {
        i32::MAX
    }

    fn lowest_value() -> i32 {
        -i32::MAX
    }

    fn lesser(state: i32, x: &i32) -> i32 {
        lesser_32(state, x)
    }

    fn held(state: i32) -> i32 {
        state.saturating_add(1)
    }

    fn greater(best: i32, x: &i32) -> i32 {
        greater_32(best, x)
    }
}

// The number less one, or the greatest one for the null.
fn lowered_64(x: i64) -> i64
    ensures { raised (pos 9223372036854775807) result ≡ unwrap_or (number_in w64 x) (pos 9223372036854775807) }
{
    x.wrapping_sub(1)
}

fn lesser_64(state: i64, x: &i64) -> i64
    ensures picks { Picks is_le (number_in w64) (pos 9223372036854775807) (raised (pos 9223372036854775807) state) x.now
        (raised (pos 9223372036854775807) result) }
    ensures end { x.now ≡ pos 9223372036854775807 → raised (pos 9223372036854775807) result ≡ raised (pos 9223372036854775807) state }
{
    state.min(lowered_64(*x))
}

fn greater_64(best: i64, x: &i64) -> i64
    ensures picks { Picks is_ge (number_in w64) (negsuc 9223372036854775806) best x.now result }
    ensures end { x.now ≡ negsuc 9223372036854775806 → IsSome (number_in w64 best) → result ≡ best }
{
    best.max(*x)
}

impl Extremal for i64 {
    ghost use Rattle.std.specs.Prelude.{pos, negsuc};
    ghost use Rattle.q_unary.specs.Extremes.{raised};

    ghost top = { pos 9223372036854775807 };

    ghost bottom = { negsuc 9223372036854775806 };

    ghost held = { raised (pos 9223372036854775807) };

    fn greatest_value() -> i64 {
        i64::MAX
    }

    fn lowest_value() -> i64 {
        -i64::MAX
    }

    fn lesser(state: i64, x: &i64) -> i64 {
        lesser_64(state, x)
    }

    fn held(state: i64) -> i64 {
        state.saturating_add(1)
    }

    fn greater(best: i64, x: &i64) -> i64 {
        greater_64(best, x)
    }
}

impl<T: Extremal> Pick<T> for Least {
    ghost use Rattle.std.specs.Ordering.{is_le};

    ghost wanted = { is_le };

    ghost number = { T.number };

    ghost end = { T.top };

    ghost held = { T.held };

    fn end() -> T {
        T::greatest_value()
    }

    fn pick(state: T, x: &T) -> T {
        T::lesser(state, x)
    }

    fn held(state: T) -> T {
        T::held(state)
    }
}

impl<T: Extremal> Pick<T> for Greatest {
    ghost use Rattle.std.specs.Ordering.{is_ge};

    ghost wanted = { is_ge };

    ghost number = { T.number };

    ghost end = { T.bottom };

    ghost held = { λ x. x };

    fn end() -> T {
        T::lowest_value()
    }

    fn pick(state: T, x: &T) -> T {
        T::greater(state, x)
    }

    fn held(state: T) -> T {
        state
    }
}

fn least_of_items<T: Extremal>(items: &[T]) -> T
    ensures { result ≡ extreme is_le T.number T.top items.now }
{
    picked_of::<Least, T, Slice<'_, T>>(&Slice { items })
}

fn greatest_of_items<T: Extremal>(items: &[T]) -> T
    ensures { result ≡ extreme is_ge T.number T.bottom items.now }
{
    picked_of::<Greatest, T, Slice<'_, T>>(&Slice { items })
}

/// The least item of a column but the nulls, or the greatest value of the kind.
pub(crate) fn least_of(column: &Column) -> Atom
    requires { IsTrue (is_number (contents column.now).kind) }
    ensures { result ≡ unwrap_or (chosen_of number_of (chosen v.Lesser) (contents column.now).atoms)
        (greatest (contents column.now).kind) }
{
    match column {
        Column::Booleans(items) => Atom::Boolean(least_of_items(items.as_slice())),
        Column::Bytes(kind, items) => kind.atom(least_of_items(items.as_slice())),
        Column::Shorts(items) => Atom::Short(least_of_items(items.as_slice())),
        Column::Integers(kind, items) => kind.atom(&least_of_items(items.as_slice())),
        Column::Longs(kind, items) => kind.atom(&least_of_items(items.as_slice())),
        Column::Symbols(_) => unreachable!(),
    }
}

/// The greatest item of a column, or the greatest value of the kind negated where it has only nulls.
pub(crate) fn greatest_of(column: &Column) -> Atom
    requires { IsTrue (is_number (contents column.now).kind) }
    ensures { result ≡ unwrap_or (chosen_of number_of (chosen v.Greater) (contents column.now).atoms)
        (lowest (contents column.now).kind) }
{
    match column {
        Column::Booleans(items) => Atom::Boolean(greatest_of_items(items.as_slice())),
        Column::Bytes(kind, items) => kind.atom(greatest_of_items(items.as_slice())),
        Column::Shorts(items) => Atom::Short(greatest_of_items(items.as_slice())),
        Column::Integers(kind, items) => kind.atom(&greatest_of_items(items.as_slice())),
        Column::Longs(kind, items) => kind.atom(&greatest_of_items(items.as_slice())),
        Column::Symbols(_) => unreachable!(),
    }
}
