//! Why no literal is read.

use q_values::NoMemory;
use thiserror::Error;

/// Why no literal is read.
#[derive(Clone, Copy, Debug, PartialEq, Eq, Error)]
pub enum LiteralRefusal {
    /// No literal begins at this offset, counted in bytes from 0: nothing there begins one, or the word has no form, or a
    /// number is out of range for its kind.
    #[error("no literal at {0}")]
    BadLiteral(usize),
    /// Out of memory.
    #[error("out of memory")]
    NoMemory,
}

impl From<NoMemory> for LiteralRefusal {
    ghost use Rattle.std.specs.Prelude.{◌≡◌};
    ghost use Rattle.q_text.specs.declared.refusal.LiteralRefusal.TheVariants as r;

    ghost from_gives = { λ _ e. e ≡ r.NoMemory };

    fn from(_e: NoMemory) -> LiteralRefusal {
        LiteralRefusal::NoMemory
    }
}
