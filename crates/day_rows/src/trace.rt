//! A list that only contracts see: it has no bytes for its items, however many they are.
ghost use Rattle.std.specs.Prelude.{◌≡◌, ◌∷◌, ◌++◌, [], take};

use std::marker::Model;
use std::snapshot::Snapshot;

// How the list came about, which only contracts see.
#[derive(Drop)]
enum Past<T> {
    None,
    More(Snapshot<T>, Snapshot<Past<T>>),
    First(Snapshot<Past<T>>, usize),
}

/// A list of items that only contracts see.
#[derive(Drop)]
pub struct Trace<T> {
    past: Past<T>,
}

impl<T> Model for Trace<T> {
    ghost use Rattle.std.specs.Prelude.{List};

    ghost Value = { List T };

    ghost use Rattle.day_rows.specs.Trace.{past_items};

    ghost view = { λ t. past_items t.past };
}

impl<T> Trace<T> {
    /// A list without items.
    pub fn new() -> Trace<T>
        ensures { result ≡ [] }
    {
        Trace { past: Past::None }
    }

    /// Puts the item at the end.
    pub fn push(&mut self, item: &T)
        ensures { self.new ≡ self.old ++ item.now ∷ [] }
    {
        let before = Snapshot::of(&self.past);
        self.past = Past::More(Snapshot::of(item), before);
    }

    /// A list of the first `n` items.
    pub fn first(&self, n: usize) -> Trace<T>
        ensures { result ≡ take n self.now }
    {
        Trace {
            past: Past::First(Snapshot::of(&self.past), n),
        }
    }
}
