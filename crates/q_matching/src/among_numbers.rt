//! Whether numbers are among others: one by one where these are few, and else by a set.
ghost use Rattle.std.specs.Prelude.{◌≡◌, ℤ, Option, map, IfOk};
ghost use Rattle.std.specs.Int.{w64};
ghost use Rattle.std.specs.List.{list_any};
ghost use Rattle.std.specs.HashSet.{contains};
ghost use Rattle.std.specs.Ordering.{int_eq, is_eq};
ghost use Rattle.q_matching.specs.Keys.{has_number};
ghost use Rattle.q_verbs.specs.Numbers.{number_in, numeric, worth_cmp};

use q_lanes::{Number, Rule, map_items, widened_all};
use std::alloc::{AllocError, Global};
use std::collections::HashSet;

/// The most items that are compared one by one, which is faster than a set for so few.
pub(crate) const FEW: usize = 12;

// Whether the number is one of few items, with no branch for each.
fn is_one_of<T: Number>(items: &[T], x: &T) -> bool
    ensures { result ≡ list_any (λ y. is_eq (worth_cmp (numeric (T.number x.now)) (numeric (T.number y)))) items.now }
{
    let mut found = false;
    for item in items {
        found |= x.is_same(item);
    }
    found
}

// Whether a number is one of few of its width.
#[derive(Clone, Copy)]
struct OneOf<'a, T> {
    items: &'a [T],
}

impl<T: Number> Rule<T, bool> for OneOf<'_, T> {
    ghost use Rattle.std.specs.List.{list_any};
    ghost use Rattle.std.specs.Ordering.{is_eq};
    ghost use Rattle.q_verbs.specs.Numbers.{numeric, worth_cmp};

    ghost value = { λ s x. list_any (λ y. is_eq (worth_cmp (numeric (T.number x)) (numeric (T.number y)))) s.items.now };

    fn apply(&self, x: &T) -> bool {
        is_one_of(self.items, x)
    }
}

// Whether a number of any width is one of few numbers of 64 bits.
#[derive(Clone, Copy)]
struct OneOfWide<'a> {
    items: &'a [i64],
}

impl<T: Number> Rule<T, bool> for OneOfWide<'_> {
    ghost use Rattle.std.specs.List.{list_any};
    ghost use Rattle.std.specs.Int.{w64};
    ghost use Rattle.std.specs.Ordering.{is_eq};
    ghost use Rattle.q_verbs.specs.Numbers.{number_in, numeric, worth_cmp};

    ghost value = { λ s x. list_any
        (λ y. is_eq (worth_cmp (numeric (T.number x)) (numeric (number_in w64 y)))) s.items.now };

    fn apply(&self, x: &T) -> bool {
        is_one_of(self.items, &x.widened())
    }
}

fn among_few_wide<T: Number, U: Number>(
    alloc: Global,
    left: &[T],
    items: &[U],
) -> Result<Vec<bool>, AllocError>
    ensures { IfOk result (λ v. v.items ≡ map
        (λ x. list_any (λ y. is_eq (worth_cmp (numeric (T.number x)) (numeric (U.number y)))) items.now) left.now) }
{
    let wide = widened_all(alloc, items)?;
    let rule = OneOfWide {
        items: wide.as_slice(),
    };
    let values = map_items::<OneOfWide<'_>, T, bool>(alloc, &rule, left)?;
    Ok(values)
}

fn set_of_numbers<T: Number>(alloc: Global, items: &[T]) -> Result<HashSet<i64>, AllocError>
    ensures { IfOk result (λ s. (n : Option ℤ) → has_number (contains int_eq s) n
        ≡ list_any (λ y. is_eq (worth_cmp (numeric n) (numeric (T.number y)))) items.now) }
{
    let mut set = HashSet::new(alloc);
    for item in items {
        set.insert(item.widened())?;
    }
    Ok(set)
}

fn is_in_set(set: &HashSet<i64>, x: &i64) -> bool
    ensures { result ≡ has_number (contains int_eq set.now) (number_in w64 x.now) }
{
    let number = *x;
    set.contains(&number)
}

// Whether a number is in a set.
#[derive(Clone, Copy)]
struct InSet<'a> {
    set: &'a HashSet<i64>,
}

impl<T: Number> Rule<T, bool> for InSet<'_> {
    ghost use Rattle.std.specs.HashSet.{contains};
    ghost use Rattle.std.specs.Ordering.{int_eq};
    ghost use Rattle.q_matching.specs.Keys.{has_number};

    ghost value = { λ s x. has_number (contains int_eq s.set.now) (T.number x) };

    fn apply(&self, x: &T) -> bool {
        is_in_set(self.set, &x.widened())
    }
}

fn among_many<T: Number, U: Number>(
    alloc: Global,
    left: &[T],
    items: &[U],
) -> Result<Vec<bool>, AllocError>
    ensures { IfOk result (λ v. v.items ≡ map
        (λ x. list_any (λ y. is_eq (worth_cmp (numeric (T.number x)) (numeric (U.number y)))) items.now) left.now) }
{
    let set = set_of_numbers(alloc, items)?;
    let values = map_items::<InSet<'_>, T, bool>(alloc, &InSet { set: &set }, left)?;
    Ok(values)
}

/// Whether each number is among others of its width.
pub(crate) fn among_alike<T: Number>(
    alloc: Global,
    left: &[T],
    items: &[T],
) -> Result<Vec<bool>, AllocError>
    ensures { IfOk result (λ v. v.items ≡ map
        (λ x. list_any (λ y. is_eq (worth_cmp (numeric (T.number x)) (numeric (T.number y)))) items.now) left.now) }
{
    if items.len() <= FEW {
        map_items::<OneOf<'_, T>, T, bool>(alloc, &OneOf { items }, left)
    } else {
        among_many(alloc, left, items)
    }
}

/// Whether each number is among others of any width.
pub(crate) fn among_numbers<T: Number, U: Number>(
    alloc: Global,
    left: &[T],
    items: &[U],
) -> Result<Vec<bool>, AllocError>
    ensures { IfOk result (λ v. v.items ≡ map
        (λ x. list_any (λ y. is_eq (worth_cmp (numeric (T.number x)) (numeric (U.number y)))) items.now) left.now) }
{
    if items.len() <= FEW {
        among_few_wide(alloc, left, items)
    } else {
        among_many(alloc, left, items)
    }
}
