//! A list that only contracts see: it takes no memory, however long it is.
ghost use Rattle.std.specs.Prelude.{◌≡◌, ◌∷◌, ◌++◌, []};

use std::marker::Model;
use std::snapshot::Snapshot;

// The items as they were at each push, which only contracts see.
#[derive(Drop)]
enum Past<T> {
    None,
    More(Snapshot<T>, Snapshot<Past<T>>),
}

/// A list of items that only contracts see.
#[derive(Drop)]
pub struct History<T> {
    past: Past<T>,
}

impl<T> Model for History<T> {
    ghost use Rattle.std.specs.Prelude.{List};

    ghost Value = { List T };

    ghost use Rattle.ghost_history.specs.History.{past_items};

    ghost view = { λ h. past_items h.past };
}

impl<T> History<T> {
    /// A list without items.
    pub fn new() -> History<T>
        ensures { result ≡ [] }
    {
        History { past: Past::None }
    }

    /// Puts the item at the end.
    pub fn push(&mut self, item: &T)
        ensures { self.new ≡ self.old ++ item.now ∷ [] }
    {
        let before = Snapshot::of(&self.past);
        self.past = Past::More(Snapshot::of(item), before);
    }
}

impl History<u8> {
    /// Puts the bytes at the end, in order.
    pub fn extend(&mut self, bytes: &[u8])
        ensures { self.new ≡ self.old ++ bytes.now }
    {
        for byte in bytes {
            self.push(byte);
        }
    }
}
