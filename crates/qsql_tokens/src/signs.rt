//! Signs: verbs and marks. A sign of two bytes is read before one of one byte.
ghost use Rattle.std.specs.Prelude.{◌≡◌, ◌+◌, ◌<◌, ◌≤◌, ◌^◌, IfSome};
ghost use Rattle.qsql_tokens.specs.Tokens.{long_sign, short_sign, mark_of, sign_at};
ghost use Rattle.qsql_tokens.specs.Views.{SignRead};

use crate::token::{Mark, Token};
use q_verbs::Verb;

// The verb of these two bytes.
fn verb_of_two(b: u8, next: u8) -> Option<Verb>
    ensures { result ≡ long_sign b next }
{
    if b == b'<' && next == b'>' {
        Some(Verb::Ne)
    } else if b == b'<' && next == b'=' {
        Some(Verb::Le)
    } else if b == b'>' && next == b'=' {
        Some(Verb::Ge)
    } else {
        None
    }
}

// The verb of this byte.
fn verb_of_one(b: u8) -> Option<Verb>
    ensures { result ≡ short_sign b }
{
    if b == b'+' {
        Some(Verb::Add)
    } else if b == b'-' {
        Some(Verb::Sub)
    } else if b == b'*' {
        Some(Verb::Mul)
    } else if b == b'=' {
        Some(Verb::Eq)
    } else if b == b'<' {
        Some(Verb::Lt)
    } else if b == b'>' {
        Some(Verb::Gt)
    } else if b == b'&' {
        Some(Verb::Lesser)
    } else if b == b'|' {
        Some(Verb::Greater)
    } else {
        None
    }
}

// The mark of this byte.
fn mark_of_byte(b: u8) -> Option<Mark>
    ensures { result ≡ mark_of b }
{
    if b == b'(' {
        Some(Mark::Left)
    } else if b == b')' {
        Some(Mark::Right)
    } else if b == b'[' {
        Some(Mark::Open)
    } else if b == b']' {
        Some(Mark::Close)
    } else if b == b';' {
        Some(Mark::Semicolon)
    } else if b == b',' {
        Some(Mark::Comma)
    } else if b == b':' {
        Some(Mark::Colon)
    } else {
        None
    }
}

/// The sign that begins with a byte, given the byte after it, and the sign's length: 1 or 2 bytes.
pub fn sign_of(b: u8, next: u8) -> Option<(Token, usize)>
    ensures value { SignRead result (sign_at b next) }
    ensures some { IfSome result (λ read. (0 < read.1) × (read.1 ≤ 2)) }
{
    if let Some(verb) = verb_of_two(b, next) {
        return Some((Token::Sign(verb), 2));
    }
    if let Some(verb) = verb_of_one(b) {
        return Some((Token::Sign(verb), 1));
    }
    match mark_of_byte(b) {
        Some(mark) => Some((Token::Mark(mark), 1)),
        None => None,
    }
}
