//! Reading the literal at an offset of a text.
ghost use Rattle.std.specs.Prelude.{◌≡◌, ◌<◌, ◌≤◌, ◌+◌, length, slice_index, true, false, IfOk};
ghost use Rattle.q_text.specs.Literal as spec;
ghost use Rattle.q_text.specs.Words.{begins_word};
ghost use Rattle.q_text.specs.Grammar.{ReadsForms};

use crate::columns::run_value;
use crate::forms::form_of;
use crate::refusal::LiteralRefusal;
use crate::runs::run_of;
use crate::strings::{characters_of, quoted_at};
use crate::symbols::symbols_of;
use crate::words::{Class, byte_at, follows_operand, is_digit, span_end, word_at, word_end};
use q_values::Value;
use std::alloc::Global;

// Whether the byte at `at` is a `-` that belongs to a literal.
fn begins_negative(text: &[u8], at: usize) -> bool
    requires { at < length text.now }
    ensures { result ≡ spec.begins_negative text.now at }
{
    text[at] == b'-' && (is_digit(byte_at(text, at + 1)) && !follows_operand(text, at))
}

/// Whether a literal is to be read at `at`: the byte there is a digit, a backtick or a quote, or a `-` before a digit. A
/// `-` doesn't begin a literal after a letter, a digit, `_`, `)`, `]`, a quote or a symbol literal: there it is a verb.
#[tactic(auto, unfolding(crate::specs::Literal::starts_literal))]
pub fn begins_literal(text: &[u8], at: usize) -> bool
    ensures value { result ≡ spec.starts_literal text.now at }
    ensures within { result ≡ true → at < length text.now }
{
    if at >= text.len() {
        return false;
    }
    is_digit(text[at]) || (text[at] == b'`' || (text[at] == b'"' || begins_negative(text, at)))
}

// The symbols at `at`, and the offset just past them.
#[tactic(auto, unfolding(crate::specs::Literal::symbols_at))]
fn symbols_at(alloc: Global, text: &[u8], at: usize) -> Result<(Value, usize), LiteralRefusal>
    requires within { at < length text.now }
    requires tick { slice_index text.now at ≡ 96 }
    ensures value { spec.ReadsLiteral (spec.some (spec.symbols_at text.now at)) at result }
    ensures within { spec.EndsWithin text.now at result }
{
    let value = symbols_of(alloc, text, at)?;
    let end = span_end(Class::Symbols, text, at + 1);
    Ok((value, end))
}

// The text in quotes at `at`, and the offset just past it.
#[tactic(auto, unfolding(crate::specs::Literal::characters_at))]
fn characters_at(alloc: Global, text: &[u8], at: usize) -> Result<(Value, usize), LiteralRefusal>
    requires { at < length text.now }
    ensures value { spec.ReadsLiteral (spec.characters_at text.now at) at result }
    ensures within { spec.EndsWithin text.now at result }
{
    match quoted_at(alloc, text, at + 1)? {
        Some(found) => {
            let value = characters_of(alloc, found.bytes)?;
            Ok((value, found.end))
        }
        None => Err(LiteralRefusal::BadLiteral(at)),
    }
}

// The numbers at `at`, and the offset just past them.
#[tactic(auto, unfolding(crate::specs::Literal::numbers_at))]
fn numbers_at(alloc: Global, text: &[u8], at: usize) -> Result<(Value, usize), LiteralRefusal>
    requires within { at < length text.now }
    requires begins { begins_word text.now at ≡ true }
    ensures value { spec.ReadsLiteral (spec.numbers_at text.now at) at result }
    ensures within { spec.EndsWithin text.now at result }
{
    let Some(form) = form_of(word_at(text, at)) else {
        return Err(LiteralRefusal::BadLiteral(at));
    };
    let Some(run) = run_of(form, text, word_end(text, at)) else {
        return Err(LiteralRefusal::BadLiteral(at));
    };
    match run_value(alloc, form, &run, text, at)? {
        Some(value) => Ok((value, run.end)),
        None => Err(LiteralRefusal::BadLiteral(at)),
    }
}

// The literal at `at`, where one is to be read.
#[tactic(auto, unfolding(crate::specs::Literal::literal_at))]
fn literal_from(alloc: Global, text: &[u8], at: usize) -> Result<(Value, usize), LiteralRefusal>
    requires within { at < length text.now }
    requires starts { spec.starts_literal text.now at ≡ true }
    ensures value { spec.ReadsLiteral (spec.literal_at text.now at) at result }
    ensures within { spec.EndsWithin text.now at result }
{
    if text[at] == b'`' {
        symbols_at(alloc, text, at)
    } else if text[at] == b'"' {
        characters_at(alloc, text, at)
    } else {
        numbers_at(alloc, text, at)
    }
}

/// Reads the literal that begins at `at`: its value, and the offset just past it (Q for Mortals, 2; KX, Datatypes
/// reference).
///
/// Words of one form with blanks between them are one vector, and so are symbols without blanks between them; a single
/// value is an atom. A number may have the suffix `h`, `i` or `j`, which holds for its whole run; dates and times are
/// read as q writes them. Offsets count bytes from 0, and any `at` is allowed. Refused with `BadLiteral(at)` where no
/// literal begins there.
#[tactic(auto, unfolding(crate::specs::Literal::literal_at))]
pub fn read_literal(alloc: Global, text: &[u8], at: usize) -> Result<(Value, usize), LiteralRefusal>
    ensures forms { ReadsForms text.now at result }
    ensures value { spec.ReadsLiteral (spec.literal_at text.now at) at result }
    ensures within { spec.EndsWithin text.now at result }
{
    if begins_literal(text, at) {
        literal_from(alloc, text, at)
    } else {
        Err(LiteralRefusal::BadLiteral(at))
    }
}
