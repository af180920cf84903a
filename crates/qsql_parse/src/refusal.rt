//! Why a text is no request.

use q_values::NoMemory;
use qsql_tokens::TokenRefusal;
use thiserror::Error;

/// Why a text is no request: the first cause that holds. The order is that of the variants, but an offset where no token
/// begins comes before too many tokens or brackets.
#[derive(Clone, Copy, Debug, PartialEq, Eq, Error)]
pub enum ParseRefusal {
    /// The text is longer than 65,536 bytes, has more than 1,024 tokens, or nests brackets deeper than 64.
    #[error("limit")]
    Limit,
    /// At this offset, in bytes from 0, no token begins, or no request continues with the token there, or the text ends too
    /// early.
    #[error("parse")]
    Parse(usize),
    /// The request has a form that is not built.
    #[error("nyi")]
    Nyi,
    /// Out of memory.
    #[error("out of memory")]
    NoMemory,
}

/// Why the reader doesn't go on.
#[derive(Clone, Copy, Debug, PartialEq, Eq)]
pub enum Stop {
    /// No request continues with the token, or the text may not end here.
    Here,
    /// Out of memory.
    NoMemory,
}

impl From<TokenRefusal> for ParseRefusal {
    ghost use Rattle.std.specs.Prelude.{◌≡◌};
    ghost use Rattle.qsql_parse.specs.Verdicts.{refusal_of};

    ghost from_gives = { λ refusal e. e ≡ refusal_of refusal };

    fn from(refusal: TokenRefusal) -> ParseRefusal {
        match refusal {
            TokenRefusal::TooLong => ParseRefusal::Limit,
            TokenRefusal::NoToken(offset) => ParseRefusal::Parse(offset),
            TokenRefusal::NoMemory => ParseRefusal::NoMemory,
        }
    }
}

impl From<NoMemory> for ParseRefusal {
    ghost use Rattle.std.specs.Prelude.{◌≡◌};
    ghost use Rattle.qsql_parse.specs.declared.refusal.ParseRefusal.TheVariants as r;

    ghost from_gives = { λ _ e. e ≡ r.NoMemory };

    fn from(_e: NoMemory) -> ParseRefusal {
        ParseRefusal::NoMemory
    }
}

impl From<NoMemory> for Stop {
    ghost use Rattle.std.specs.Prelude.{◌≡◌};
    ghost use Rattle.qsql_parse.specs.declared.refusal.Stop.TheVariants as r;

    ghost from_gives = { λ _ e. e ≡ r.NoMemory };

    fn from(_e: NoMemory) -> Stop {
        Stop::NoMemory
    }
}
