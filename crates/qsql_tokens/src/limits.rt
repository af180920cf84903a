//! The limits on the number of tokens and on the depth of brackets.
ghost use Rattle.std.specs.Prelude.{◌≡◌, ◌≤◌, ◌<◌, ◌+◌, ◌^◌, map};
ghost use Rattle.qsql_tokens.specs.Tokens.{only_tokens};
ghost use Rattle.qsql_tokens.specs.Views.{token_of, placed_of};
ghost use Rattle.qsql_tokens.specs.Limits as spec;

use crate::token::{Mark, Placed, Token};

const MOST_TOKENS: usize = 1024;

const DEEPEST: usize = 64;

// The number of open brackets after a mark. A closing bracket closes the last open one, of either kind.
fn depth_after_mark(depth: usize, mark: Mark) -> usize
    requires { depth ≤ 64 }
    ensures { result ≡ spec.depth_after_mark depth mark }
{
    match mark {
        Mark::Left | Mark::Open => depth + 1,
        Mark::Right | Mark::Close => depth.saturating_sub(1),
        Mark::Semicolon | Mark::Comma | Mark::Colon => depth,
    }
}

// The number of open brackets after a token.
fn depth_after(depth: usize, token: &Token) -> usize
    requires { depth ≤ 64 }
    ensures { result ≡ spec.depth_after depth (token_of token.now) }
{
    match token {
        Token::Mark(mark) => depth_after_mark(depth, *mark),
        Token::Number(_) => depth,
        Token::Literal(_) => depth,
        Token::Name(_) => depth,
        Token::Monad(_) => depth,
        Token::Sign(_) => depth,
        Token::Dyad(_) => depth,
        Token::Word(_) => depth,
    }
}

// Whether more than 64 brackets are open after one of the tokens.
fn nests_deep(tokens: &[Placed]) -> bool
    ensures { result ≡ spec.nests 0 (only_tokens (map placed_of tokens.now)) }
{
    let mut depth = 0;
    for placed in tokens {
        depth = depth_after(depth, &placed.token);
        if depth > DEEPEST {
            return true;
        }
    }
    false
}

/// Whether there are more than 1,024 tokens, or more than 64 brackets are open at one of them.
pub fn are_too_many(tokens: &[Placed]) -> bool
    ensures { result ≡ spec.is_too_much (only_tokens (map placed_of tokens.now)) }
{
    tokens.len() > MOST_TOKENS || nests_deep(tokens)
}
