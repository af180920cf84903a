//! Blanks and names in a text.
ghost use Rattle.std.specs.Prelude.{◌≡◌, ◌<◌, ◌≤◌, length, slice_index, true};
ghost use Rattle.q_values.specs.Bytes.{HasNoNul};
ghost use Rattle.q_text.specs.Words.{is_letter as is_letter_in_text};
ghost use Rattle.qsql_tokens.specs.Tokens as spec;

use q_text::{is_blank, is_digit, is_letter};

// Whether the byte may be part of a name: a letter, a digit or `_`.
fn is_name_byte(b: u8) -> bool
    ensures { result ≡ spec.is_name_byte b }
{
    is_letter(b) || is_digit(b) || b == b'_'
}

/// The offset of the first byte from `at` on that is no blank; where `at` is past the end, `at` itself.
pub fn skip_blanks(text: &[u8], at: usize) -> usize
    ensures value { result ≡ spec.past_blanks text.now at }
    ensures forward { at ≤ result }
{
    let mut offset = at;
    while offset < text.len() && is_blank(text[offset]) {
        offset += 1;
    }
    offset
}

// The length of the name that the bytes begin with.
fn name_len(bytes: &[u8]) -> usize
    ensures value { result ≡ spec.front spec.is_name_byte bytes.now }
    ensures within { result ≤ length bytes.now }
{
    let mut len = 0;
    while len < bytes.len() && is_name_byte(bytes[len]) {
        len += 1;
    }
    len
}

/// The letters, digits and `_` from an offset on; empty past the end.
pub fn name_from(text: &[u8], at: usize) -> &[u8]
    ensures value { result.now ≡ spec.name_at text.now at }
    ensures within { length result.now ≤ length text.now }
    ensures no_nul { HasNoNul result.now }
    ensures some { is_letter_in_text (slice_index text.now at) ≡ true → 0 < length result.now }
{
    if at >= text.len() {
        return &[];
    }
    let rest = &text[at..];
    &rest[..name_len(rest)]
}
