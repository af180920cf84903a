//! What a lock may be put round.
ghost use Rattle.std.specs.Prelude.{◌≡◌, ℕ, List, length};

/// A state that stands for a list of entries, each made by the pass of some number, beside a frame that no holder of a
/// lock may change. A lock speaks of an entry only by its pass's number and by equality.
pub trait Chronicle {
    /// One entry of the list, as contracts see it.
    type Entry;

    /// What stays the same of the state, as contracts see it.
    type Frame;

    /// The list that the state stands for.
    ghost entries: { Self → List Self.Entry };

    /// The number of the pass that made an entry.
    ghost by: { Self.Entry → ℕ };

    /// The state's frame.
    ghost frame: { Self → Self.Frame };

    /// How long the list is.
    fn length(&self) -> u64
        ensures { result ≡ length (entries self.now) };
}
