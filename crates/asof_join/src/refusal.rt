//! Why an as-of join is refused.

use q_values::{NoMemory, Sym};

/// Why an as-of join doesn't fit a schema.
#[derive(Drop)]
pub enum AjRefusal {
    /// The first name that isn't there: of the left side, then of the right one, then a key that the left side doesn't show,
    /// then a key that the right one doesn't show.
    NoName(Sym),
    /// A column that is no key is in the results of both sides, `date` aside.
    Nyi,
    /// A side is no `select` without `by`, or a verb of it doesn't take the kinds that it is given, or a key has two kinds, or
    /// there is no key.
    WrongType,
    /// Out of memory.
    NoMemory,
}

impl From<NoMemory> for AjRefusal {
    ghost use Rattle.std.specs.Prelude.{◌≡◌};
    ghost use Rattle.asof_join.specs.declared.refusal.AjRefusal.TheVariants as r;

    ghost from_gives = { λ _ e. e ≡ r.NoMemory };

    fn from(_e: NoMemory) -> AjRefusal {
        AjRefusal::NoMemory
    }
}
