//! Whether symbols are among others.
ghost use Rattle.std.specs.Prelude.{◌≡◌, map, IfOk};
ghost use Rattle.std.specs.List.{list_any};
ghost use Rattle.std.specs.HashSet.{contains};
ghost use Rattle.std.specs.Ordering.{is_eq, nat_cmp};
ghost use Rattle.std.specs.Cmp.Lexicographic.{slice_cmp};
ghost use Rattle.q_lanes.specs.Lanes.{text_items};

use crate::among_numbers::FEW;
use q_lanes::{TextList, Texts, texts_of};
use q_values::ShortSymbol;
use std::alloc::{AllocError, Global};
use std::collections::HashSet;
use std::hash::Hash;

fn set_of<T: Eq + Hash + Copy>(alloc: Global, items: &[T]) -> Result<HashSet<T>, AllocError>
    ensures { IfOk result (λ s. (q : T) → contains T.eq s q ≡ list_any (T.eq q) items.now) }
{
    let mut set = HashSet::new(alloc);
    for item in items {
        set.insert(*item)?;
    }
    Ok(set)
}

fn among_items<T: Eq + Hash + Copy>(
    alloc: Global,
    left: &[T],
    set: &HashSet<T>,
) -> Result<Vec<bool>, AllocError>
    ensures { IfOk result (λ v. v.items ≡ map (contains T.eq set.now) left.now) }
{
    let mut values = Vec::with_capacity(alloc, left.len())?;
    for item in left {
        values.push_reserved(set.contains(item));
    }
    Ok(values)
}

fn is_one_of(items: &[&[u8]], x: &[u8]) -> bool
    ensures { result ≡ list_any (λ t. is_eq (slice_cmp nat_cmp x.now t.now)) items.now }
{
    let mut found = false;
    for i in 0..items.len() {
        found |= x == items[i];
    }
    found
}

fn among_few<L: TextList>(alloc: Global, left: &L, items: &[&[u8]]) -> Result<Vec<bool>, AllocError>
    ensures { IfOk result (λ v. v.items
        ≡ map (λ s. list_any (λ t. is_eq (slice_cmp nat_cmp s t.now)) items.now) (L.texts left.now)) }
{
    let mut values = Vec::with_capacity(alloc, left.count())?;
    for i in 0..left.count() {
        values.push_reserved(is_one_of(items, left.text(i)));
    }
    Ok(values)
}

fn among_many<'a, L: TextList>(
    alloc: Global,
    left: &'a L,
    items: &[&'a [u8]],
) -> Result<Vec<bool>, AllocError>
    ensures { IfOk result (λ v. v.items
        ≡ map (λ s. list_any (λ t. is_eq (slice_cmp nat_cmp s t.now)) items.now) (L.texts left.now)) }
{
    let set = set_of(alloc, items)?;
    let mut values = Vec::with_capacity(alloc, left.count())?;
    for i in 0..left.count() {
        values.push_reserved(set.contains(&left.text(i)));
    }
    Ok(values)
}

fn among_list<'a, L: TextList>(
    alloc: Global,
    left: &'a L,
    items: &'a Texts<'_>,
) -> Result<Vec<bool>, AllocError>
    ensures { IfOk result (λ v. v.items
        ≡ map (λ s. list_any (λ t. is_eq (slice_cmp nat_cmp s t)) (text_items 1 items.now)) (L.texts left.now)) }
{
    let others = items.beside(1);
    let texts = texts_of(alloc, &others)?;
    if texts.len() <= FEW {
        let values = among_few(alloc, left, &texts)?;
        Ok(values)
    } else {
        let values = among_many(alloc, left, &texts)?;
        Ok(values)
    }
}

fn among_texts(alloc: Global, left: &Texts<'_>, items: &Texts<'_>) -> Result<Vec<bool>, AllocError>
    ensures { IfOk result (λ v. v.items
        ≡ map (λ s. list_any (λ t. is_eq (slice_cmp nat_cmp s t)) (text_items 1 items.now)) (text_items 1 left.now)) }
{
    match left.arena() {
        Some(arena) => among_list(alloc, arena, items),
        None => among_list(alloc, &left.beside(1), items),
    }
}

fn is_one_of_short(items: &[ShortSymbol], x: &ShortSymbol) -> bool
    ensures { result ≡ list_any (λ t. is_eq (slice_cmp nat_cmp x.now t)) items.now }
{
    let mut found = false;
    for item in items {
        found |= *x == *item;
    }
    found
}

fn among_few_short(
    alloc: Global,
    left: &[ShortSymbol],
    items: &[ShortSymbol],
) -> Result<Vec<bool>, AllocError>
    ensures { IfOk result (λ v. v.items
        ≡ map (λ s. list_any (λ t. is_eq (slice_cmp nat_cmp s t)) items.now) left.now) }
{
    let mut values = Vec::with_capacity(alloc, left.len())?;
    for item in left {
        values.push_reserved(is_one_of_short(items, item));
    }
    Ok(values)
}

fn among_many_short(
    alloc: Global,
    left: &[ShortSymbol],
    items: &[ShortSymbol],
) -> Result<Vec<bool>, AllocError>
    ensures { IfOk result (λ v. v.items
        ≡ map (λ s. list_any (λ t. is_eq (slice_cmp nat_cmp s t)) items.now) left.now) }
{
    let set = set_of(alloc, items)?;
    let values = among_items(alloc, left, &set)?;
    Ok(values)
}

fn among_short(
    alloc: Global,
    left: &[ShortSymbol],
    items: &[ShortSymbol],
) -> Result<Vec<bool>, AllocError>
    ensures { IfOk result (λ v. v.items
        ≡ map (λ s. list_any (λ t. is_eq (slice_cmp nat_cmp s t)) items.now) left.now) }
{
    if items.len() <= FEW {
        let values = among_few_short(alloc, left, items)?;
        Ok(values)
    } else {
        let values = among_many_short(alloc, left, items)?;
        Ok(values)
    }
}

/// Whether each symbol is among others.
pub(crate) fn among_names(
    alloc: Global,
    left: &Texts<'_>,
    items: &Texts<'_>,
) -> Result<Vec<bool>, AllocError>
    ensures { IfOk result (λ v. v.items
        ≡ map (λ s. list_any (λ t. is_eq (slice_cmp nat_cmp s t)) (text_items 1 items.now)) (text_items 1 left.now)) }
{
    match (left.short(), items.short()) {
        (Some(some), Some(others)) => among_short(alloc, some.alone(), others.alone()),
        _ => among_texts(alloc, left, items),
    }
}
