//! A list that is read once, from its front on.
ghost use Rattle.std.specs.Prelude.{◌≡◌, drop, slice_get};

use q_values::Sequence;
use std::marker::Model;

/// A list, and how far it was read.
#[derive(Drop)]
pub struct Tape<T> {
    // All items.
    items: Sequence<T>,
    // The index of the item that is read next; their number where all were read.
    next: usize,
}

impl<T> Model for Tape<T> {
    ghost use Rattle.std.specs.Prelude.{List, drop};

    ghost Value = { List T };

    ghost view = { λ t. drop t.next t.items };
}

impl<T: Copy + Drop> Tape<T> {
    /// A list of which nothing was read.
    pub fn new(items: Sequence<T>) -> Tape<T>
        ensures { result ≡ items }
    {
        Tape { items, next: 0 }
    }

    /// The next item, if there is one.
    pub fn next(&mut self) -> Option<T>
        ensures first { result ≡ slice_get self.old 0 }
        ensures rest { self.new ≡ drop 1 self.old }
    {
        if self.next >= self.items.len() {
            return None;
        }
        let item = *self.items.at(self.next);
        self.next += 1;
        Some(item)
    }
}
