//! Why a text has no tokens.

use q_values::NoMemory;
use thiserror::Error;

/// Why a text has no tokens.
#[derive(Clone, Copy, Debug, PartialEq, Eq, Error)]
pub enum TokenRefusal {
    /// The text is longer than 65,536 bytes.
    #[error("limit")]
    TooLong,
    /// At this offset, counted in bytes from 0, a token should begin, and none does.
    #[error("parse")]
    NoToken(usize),
    /// Out of memory.
    #[error("out of memory")]
    NoMemory,
}

impl From<NoMemory> for TokenRefusal {
    ghost use Rattle.std.specs.Prelude.{◌≡◌};
    ghost use Rattle.qsql_tokens.specs.declared.refusal.TokenRefusal.TheVariants as r;

    ghost from_gives = { λ _ e. e ≡ r.NoMemory };

    fn from(_e: NoMemory) -> TokenRefusal {
        TokenRefusal::NoMemory
    }
}
