//! Lists that contracts see as lists.
ghost use Rattle.std.specs.Iterator.Adapters.{IterYieldsInOrder};
ghost use Rattle.std.specs.Slice.Iter.{iter_rest};
ghost use Rattle.std.specs.Prelude.{◌≡◌, ◌==◌, ◌<◌, ◌^◌, [], ◌∷◌, ◌++◌, length, Some, slice_get, option_copied, OnOk, OnErr, IfOk};

use crate::refusal::NoMemory;
use std::alloc::Global;
use std::marker::Model;
use std::slice::Iter;

/// A list of items, seen by contracts as that list. It has two words, so that an enum with such a list is small.
#[derive(Drop)]
pub struct Sequence<T> {
    // The items; `None` where nothing was put in yet.
    items: Option<Box<Vec<T>>>,
    // The allocator.
    alloc: Global,
}

impl<T> Model for Sequence<T> {
    ghost use Rattle.std.specs.Prelude.{List};
    ghost use Rattle.q_values.specs.Lists.{items_in};

    ghost Value = { List T };

    ghost view = { λ s. items_in s.items };
}

impl<T: Drop> Sequence<T> {
    /// An empty list, which takes no memory.
    pub fn new(alloc: Global) -> Sequence<T>
        ensures { result ≡ [] }
    {
        Sequence { items: None, alloc }
    }

    /// An empty list with room for this many items.
    pub fn with_capacity(alloc: Global, room: usize) -> Result<Sequence<T>, NoMemory>
        ensures { IfOk result (λ s. s ≡ []) }
    {
        Sequence::from_vec(alloc, Vec::with_capacity(alloc, room)?)
    }

    /// A list of these items, which are not copied. It takes a small block of memory, and none where the vector has none.
    pub fn from_vec(alloc: Global, items: Vec<T>) -> Result<Sequence<T>, NoMemory>
        ensures { IfOk result (λ s. s ≡ items.items) }
    {
        if items.capacity() == 0 {
            return Ok(Sequence::new(alloc));
        }
        Ok(Sequence::from_box(alloc, Box::new(alloc, items)?))
    }

    /// A list of these items, which are not copied. It takes no memory.
    pub fn from_box(alloc: Global, items: Box<Vec<T>>) -> Sequence<T>
        ensures { result ≡ items.value.items }
    {
        Sequence {
            items: Some(items),
            alloc,
        }
    }

    /// The number of items.
    pub fn len(&self) -> usize
        ensures { result ≡ length self.now }
    {
        self.as_slice().len()
    }

    /// Whether there are no items.
    pub fn is_empty(&self) -> bool
        ensures { result ≡ (length self.now == 0) }
    {
        self.as_slice().is_empty()
    }

    /// The items, which are not copied.
    pub fn into_vec(self) -> Vec<T>
        ensures { result.items ≡ self }
    {
        match self.items {
            Some(items) => Box::into_inner(items),
            None => Vec::new(self.alloc),
        }
    }

    /// Puts the item at the end. A refused call changes nothing.
    pub fn push(&mut self, item: T) -> Result<(), NoMemory>
        ensures ok { OnOk result (self.new ≡ self.old ++ item ∷ []) }
        ensures err { OnErr result (self.new ≡ self.old) }
    {
        match &mut self.items {
            Some(items) => items.push(item)?,
            None => self.items = Some(alone(self.alloc, item)?),
        }
        Ok(())
    }

    /// Lends the item at the index `i`.
    pub fn at(&self, i: usize) -> &T
        requires { i < length self.now }
        ensures { slice_get self.now i ≡ Some result.now }
    {
        &self.as_slice()[i]
    }

    /// Lends the item at the index `i`, if there is one.
    pub fn get(&self, i: usize) -> Option<&T>
        ensures { option_copied result ≡ slice_get self.now i }
    {
        self.as_slice().get(i)
    }

    /// Goes over the items, in order.
    pub fn iter(&self) -> Iter<'_, T>
        ensures rest { iter_rest result ≡ self.now }
        ensures len { length (iter_rest result) ≡ length self.now }
        ensures bound { length (iter_rest result) < 2 ^ 64 }
        ensures runs { IterYieldsInOrder T }
    {
        self.as_slice().iter()
    }

    /// Lends the items.
    pub fn as_slice(&self) -> &[T]
        ensures { result.now ≡ self.now }
    {
        match &self.items {
            Some(items) => items.as_slice(),
            None => &[],
        }
    }
}

// A block of memory with this item alone.
fn alone<T: Drop>(alloc: Global, item: T) -> Result<Box<Vec<T>>, NoMemory>
    ensures { IfOk result (λ block. block.value.items ≡ item ∷ []) }
{
    let mut items = Vec::new(alloc);
    items.push(item)?;
    Ok(Box::new(alloc, items)?)
}
