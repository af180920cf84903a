//! Reading the tokens of a text, from its start to its end.
ghost use Rattle.std.specs.Prelude.{◌≡◌, ◌≤◌, ◌<◌, ◌+◌, ◌++◌, [], ◌∷◌, length, map, IfSome, IfOk, IfErr, OnOk};
ghost use Rattle.q_values.specs.Tree.{tree};
ghost use Rattle.q_text.specs.Literal.{literal_at};
ghost use Rattle.qsql_tokens.specs.Tokens.{placed_at, token_at, literal_read, literal_token, atom_token, long_in, dotted, is_dotted, sign_or_dotted, read_at};
ghost use Rattle.qsql_tokens.specs.Tokens.{AreTokens};
ghost use Rattle.qsql_tokens.specs.Views.{token_of, placed_of, SignRead, TokenRead, RefusesTokens};

use crate::characters::{name_from, skip_blanks};
use crate::keywords::{named_token, plant_word_of};
use crate::refusal::TokenRefusal;
use crate::signs::sign_of;
use crate::token::{Placed, Token};
use q_text::{LiteralRefusal, begins_literal, byte_at, is_letter, read_literal};
use q_values::{Atom, NoMemory, Value};
use std::alloc::Global;

// In bytes.
const LONGEST_TEXT: usize = 65_536;

// The token of a literal; `plain` says whether it has no suffix of a long.
fn token_of_value(value: Value, plain: bool) -> Token
    ensures { token_of result ≡ literal_token (tree value) plain }
{
    match value {
        Value::Atom(atom) => token_of_atom(atom, plain),
        Value::Vector(vector) => Token::Literal(Value::Vector(vector)),
        Value::List(values) => Token::Literal(Value::List(values)),
        Value::Dict(pair) => Token::Literal(Value::Dict(pair)),
        Value::Table(table) => Token::Literal(Value::Table(table)),
        Value::Keyed(table) => Token::Literal(Value::Keyed(table)),
        Value::Identity => Token::Literal(Value::Identity),
        Value::Wrong(text) => Token::Literal(Value::Wrong(text)),
    }
}

fn token_of_atom(atom: Atom, plain: bool) -> Token
    ensures { token_of result ≡ atom_token atom plain }
{
    if plain {
        match long_of(&atom) {
            Some(number) => Token::Number(number),
            None => Token::Literal(Value::Atom(atom)),
        }
    } else {
        Token::Literal(Value::Atom(atom))
    }
}

fn long_of(atom: &Atom) -> Option<i64>
    ensures { result ≡ long_in atom.now }
{
    match atom {
        Atom::Long(number) => Some(*number),
        _ => None,
    }
}

// The literal at an offset and the offset just past it, or `None` where no literal begins there.
fn literal_token_at(
    alloc: Global,
    text: &[u8],
    at: usize,
) -> Result<Option<(Token, usize)>, NoMemory>
    ensures value { IfOk result (λ found. TokenRead found (literal_read text.now (literal_at text.now at))) }
    ensures advances { IfOk result (λ found. IfSome found (λ read. at < read.1)) }
{
    match read_literal(alloc, text, at) {
        Ok((value, end)) => {
            let plain = byte_at(text, end.saturating_sub(1)) != b'j';
            Ok(Some((token_of_value(value, plain), end)))
        }
        Err(LiteralRefusal::BadLiteral(_)) => Ok(None),
        Err(LiteralRefusal::NoMemory) => Err(NoMemory),
    }
}

// Whether the text has `.u.` at an offset.
fn begins_dotted(text: &[u8], at: usize) -> bool
    requires short { length text.now ≤ 65536 }
    requires within { at < length text.now }
    ensures { result ≡ is_dotted text.now at }
{
    byte_at(text, at) == b'.' && byte_at(text, at + 1) == b'u' && byte_at(text, at + 2) == b'.'
}

// A call such as `.u.sub` at an offset, and its length.
fn dotted_token(text: &[u8], at: usize) -> Option<(Token, usize)>
    requires short { length text.now ≤ 65536 }
    requires within { at < length text.now }
    ensures value { SignRead result (dotted text.now at) }
    ensures within { IfSome result (λ read. (0 < read.1) × (read.1 ≤ 3 + length text.now)) }
{
    if !begins_dotted(text, at) {
        return None;
    }
    let name = name_from(text, at + 3);
    match plant_word_of(name) {
        Some(word) => Some((Token::Word(word), 3 + name.len())),
        None => None,
    }
}

// The sign or the call at an offset, and the offset just past it.
fn sign_token(text: &[u8], at: usize) -> Option<(Token, usize)>
    requires short { length text.now ≤ 65536 }
    requires within { at < length text.now }
    ensures value { TokenRead result (read_at at (sign_or_dotted text.now at)) }
    ensures advances { IfSome result (λ read. at < read.1) }
{
    if let Some((token, len)) = dotted_token(text, at) {
        return Some((token, at + len));
    }
    match sign_of(byte_at(text, at), byte_at(text, at + 1)) {
        Some((token, len)) => Some((token, at + len)),
        None => None,
    }
}

// The token at an offset and the offset just past it, or `None` where none begins there.
fn token_from(alloc: Global, text: &[u8], at: usize) -> Result<Option<(Token, usize)>, NoMemory>
    requires short { length text.now ≤ 65536 }
    requires within { at < length text.now }
    ensures value { IfOk result (λ found. TokenRead found (token_at text.now at)) }
    ensures advances { IfOk result (λ found. IfSome found (λ read. at < read.1)) }
{
    if begins_literal(text, at) {
        literal_token_at(alloc, text, at)
    } else if is_letter(byte_at(text, at)) {
        let name = name_from(text, at);
        Ok(Some((named_token(alloc, name)?, at + name.len())))
    } else {
        Ok(sign_token(text, at))
    }
}

// Appends a token that begins at an offset.
fn push_token(tokens: &mut Vec<Placed>, token: Token, offset: usize) -> Result<(), NoMemory>
    ensures { OnOk result (map placed_of tokens.new.items
        ≡ map placed_of tokens.old.items ++ placed_at (token_of token) offset ∷ []) }
{
    tokens.push(Placed {
        token,
        place: offset,
    })?;
    Ok(())
}

/// The tokens of a text with their offsets, which count bytes from 0 (KX, Reference card).
///
/// Refused with `TooLong` where the text is longer than 65,536 bytes, and else with `NoToken` at the first offset where a
/// token should begin and none does.
pub fn read_tokens(alloc: Global, text: &[u8]) -> Result<Vec<Placed>, TokenRefusal>
    ensures ok { IfOk result (λ tokens. (length text.now ≤ 65536) × AreTokens text.now 0 (map placed_of tokens.items)) }
    ensures refused { IfErr result (RefusesTokens text.now) }
{
    if text.len() > LONGEST_TEXT {
        return Err(TokenRefusal::TooLong);
    }
    let mut tokens = Vec::new(alloc);
    let mut offset = skip_blanks(text, 0);
    while offset < text.len() {
        match token_from(alloc, text, offset)? {
            Some((token, end)) => {
                push_token(&mut tokens, token, offset)?;
                offset = skip_blanks(text, end);
            }
            None => return Err(TokenRefusal::NoToken(offset)),
        }
    }
    Ok(tokens)
}
