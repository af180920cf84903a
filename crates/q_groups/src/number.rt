//! Items numbered in the order of first sight; they come in pieces, which are not joined.
ghost use Rattle.std.specs.Prelude.{◌≡◌, ◌+◌, ◌<◌, ◌++◌, ◌∷◌, [], true, length, List, IfOk, OnOk, IfSome, vec_len, vec_capacity};
ghost use Rattle.std.specs.List.{list_any, flat_map};
ghost use Rattle.indexmap.specs.IndexSet.{IsUnique};
ghost use Rattle.q_groups.specs.Groups.{with_item, first_of, IsNumbered};

use crate::word::Word;
use indexmap::IndexSet;
use q_values::NoMemory;
use std::alloc::Global;
use std::hash::Hash;

// A multiplier that spreads numbers over the high bits of the product (2 to the 64, divided by the golden ratio).
const SPREAD: u64 = 0x9E37_79B9_7F4A_7C15;

// The number of slots that remember the numbers of items seen lately, a power of two; fewer for few items.
const SLOTS: usize = 65_536;

const FEW_SLOTS: usize = 1_024;

// Fewer items than these are few.
const FEW: usize = 8_192;

/// Items, numbered.
#[derive(Drop)]
pub(crate) struct Numbered<T: Eq + Hash> {
    /// The distinct items, in the order of first sight.
    pub values: IndexSet<T>,
    /// Each item's index among them.
    pub codes: Vec<u32>,
    /// For each distinct item the index where it is seen first.
    pub firsts: Vec<u32>,
}

// The slot of an item among this many, a power of two.
fn slot_of(word: u64, slots: usize) -> usize {
    (word.wrapping_mul(SPREAD) >> 40) as usize & slots.wrapping_sub(1)
}

// The number that the slot has, where it is the item's.
fn recalled<T: Word>(values: &IndexSet<T>, recent: &[u32], slot: usize, item: &T) -> Option<u32>
    requires { IsUnique T.eq values.now }
    ensures number { IfSome result (λ n. n ≡ first_of T.eq values.now.keys item.now) }
    ensures seen { IfSome result (λ _. list_any (T.eq item.now) values.now.keys ≡ true) }
{
    let number = *recent.get(slot)?;
    let value = values.get_index(number as usize)?;
    if *item == *value { Some(number) } else { None }
}

// The item's number, which is the next one where the item is new.
fn number<T: Word>(values: &mut IndexSet<T>, recent: &mut [u32], item: T) -> Result<u32, NoMemory>
    requires { IsUnique T.eq values.old }
    ensures unique { IsUnique T.eq values.new }
    ensures values { OnOk result (values.new.keys ≡ with_item T.eq values.old.keys item) }
    ensures number { IfOk result (λ n. n ≡ first_of T.eq values.old.keys item) }
{
    let slot = slot_of(item.word(), recent.len());
    if let Some(number) = recalled(values, recent, slot, &item) {
        return Ok(number);
    }
    let (index, _) = values.insert_full(item)?;
    let Ok(number) = u32::try_from(index) else {
        return Err(NoMemory);
    };
    if let Some(kept) = recent.get_mut(slot) {
        *kept = number;
    }
    Ok(number)
}

// The index as a number of 32 bits.
fn narrow(index: usize) -> Result<u32, NoMemory>
    ensures { IfOk result (λ n. n ≡ index) }
{
    match u32::try_from(index) {
        Ok(n) => Ok(n),
        Err(_) => Err(NoMemory),
    }
}

impl<T: Word> Numbered<T> {
    // One more item, for whose code there is room.
    fn add_one(&mut self, recent: &mut [u32], item: T) -> Result<(), NoMemory>
        requires unique { IsUnique T.eq self.old.values }
        requires room { vec_len self.old.codes < vec_capacity self.old.codes }
        ensures unique { IsUnique T.eq self.new.values }
        ensures ok { OnOk result ((xs : List T)
            → IsNumbered T.eq xs self.old.values.keys self.old.codes.items self.old.firsts.items
            → IsNumbered T.eq (xs ++ item ∷ []) self.new.values.keys self.new.codes.items self.new.firsts.items) }
        ensures count { OnOk result (vec_len self.new.codes ≡ vec_len self.old.codes + 1) }
        ensures capacity { OnOk result (vec_capacity self.new.codes ≡ vec_capacity self.old.codes) }
    {
        let known = self.values.len();
        let number = number(&mut self.values, recent, item)?;
        if number as usize == known {
            self.firsts.push(narrow(self.codes.len())?)?;
        }
        self.codes.push_reserved(number);
        Ok(())
    }

    // More items.
    fn add(&mut self, recent: &mut [u32], items: &[T]) -> Result<(), NoMemory>
        requires unique { IsUnique T.eq self.old.values }
        ensures unique { IsUnique T.eq self.new.values }
        ensures ok { OnOk result ((xs : List T)
            → IsNumbered T.eq xs self.old.values.keys self.old.codes.items self.old.firsts.items
            → IsNumbered T.eq (xs ++ items.now) self.new.values.keys self.new.codes.items self.new.firsts.items) }
    {
        self.codes.reserve(items.len())?;
        for item in items {
            self.add_one(recent, *item)?;
        }
        Ok(())
    }

    /// The items of these pieces in order, `rows` together.
    pub(crate) fn of(alloc: Global, pieces: &[&[T]], rows: usize) -> Result<Numbered<T>, NoMemory>
        ensures { IfOk result (λ n. IsNumbered T.eq (flat_map (λ piece. piece.now) pieces.now) n.values.keys n.codes.items n.firsts.items) }
    {
        let slots = if rows < FEW { FEW_SLOTS } else { SLOTS };
        let mut recent = vec![in alloc; 0u32; slots]?;
        let mut found = Numbered {
            values: IndexSet::new(alloc),
            codes: Vec::with_capacity(alloc, rows)?,
            firsts: Vec::new(alloc),
        };
        for piece in pieces {
            found.add(&mut recent, piece)?;
        }
        Ok(found)
    }
}
