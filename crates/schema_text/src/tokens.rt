//! The tokens of a schema text: signs and words. Offsets are in bytes from 0.
ghost use Rattle.std.specs.Prelude.{◌≡◌, ◌<◌, ◌≤◌, ◌+◌, length, take, drop, slice_get, IfOk, true};
ghost use Rattle.day_rows.specs.Schema.{is_letter, is_digit, is_word, IsWord};
ghost use Rattle.schema_text.specs.Tokens.{after_byte, passed, part, first_part, sign_at, word_at, word_length, is_sign, is_end, begins_word};
ghost use Rattle.schema_text.specs.Reading.{Gives};

use crate::refusal::SchemaRefusal;

/// Where in a line a byte is.
#[derive(Clone, Copy)]
pub enum Mode {
    /// The line's first byte.
    LineStart,
    /// A later byte.
    Inside,
    /// A byte of a remark, which ends with the line.
    Remark,
}

/// A word of a text.
#[derive(Clone, Copy)]
pub struct Word<'a> {
    /// Its bytes: a letter, then letters, digits and underscores.
    pub bytes: &'a [u8],
    /// The offset of its first byte.
    pub start: usize,
    /// The offset after its last byte.
    pub end: usize,
}

// Where in a line the byte after this blank is, or `None` where the byte is no blank.
fn after_blank(b: u8) -> Option<Mode>
    ensures { result ≡ Rattle.schema_text.specs.Tokens.after_blank b }
{
    match b {
        b'\n' => Some(Mode::LineStart),
        b' ' | b'\t' | b'\r' => Some(Mode::Inside),
        _ => None,
    }
}

// Where in a line the byte after this one is, or `None` where this one belongs to a token.
fn mode_after(mode: Mode, b: u8) -> Option<Mode>
    ensures { result ≡ after_byte mode b }
{
    match mode {
        Mode::LineStart if b == b'/' => Some(Mode::Remark),
        Mode::Remark if b != b'\n' => Some(Mode::Remark),
        Mode::Remark => Some(Mode::LineStart),
        _ => after_blank(b),
    }
}

// The offset of the next token from `at` on, or the text's end. `start` says where in a line `at` is.
fn pass(text: &[u8], at: usize, start: Mode) -> usize
    requires { at ≤ length text.now }
    ensures value { result ≡ at + passed start (drop at text.now) }
    ensures within { result ≤ length text.now }
{
    let mut mode = start;
    let mut offset = at;
    while offset < text.len() {
        match mode_after(mode, text[offset]) {
            Some(next) => mode = next,
            None => return offset,
        }
        offset += 1;
    }
    offset
}

/// The offset of the text's first token, or its end.
pub fn first_part_of(text: &[u8]) -> usize
    ensures value { result ≡ first_part text.now }
    ensures within { result ≤ length text.now }
{
    pass(text, 0, Mode::LineStart)
}

/// The offset of the next token from `at` on, or the text's end. `at` is not the start of a line.
pub fn next_part(text: &[u8], at: usize) -> usize
    requires { at ≤ length text.now }
    ensures value { result ≡ part text.now at }
    ensures within { result ≤ length text.now }
{
    pass(text, at, Mode::Inside)
}

/// Whether the byte at this offset is the sign.
pub fn has_sign(text: &[u8], offset: usize, sign: u8) -> bool
    ensures value { result ≡ is_sign sign (slice_get text.now offset) }
    ensures within { result ≡ true → offset < length text.now }
{
    offset < text.len() && text[offset] == sign
}

/// Whether the text has no byte at this offset.
pub fn ends_before(text: &[u8], offset: usize) -> bool
    ensures { result ≡ is_end (slice_get text.now offset) }
{
    offset >= text.len()
}

/// The offset after the sign, which must be the next token. The error is `Parse`.
pub fn expect_sign(text: &[u8], at: usize, sign: u8) -> Result<usize, SchemaRefusal>
    requires { at ≤ length text.now }
    ensures value { Gives (λ end. end) result (sign_at sign text.now at) }
    ensures within { IfOk result (λ end. end ≤ length text.now) }
{
    let start = next_part(text, at);
    if has_sign(text, start, sign) {
        Ok(start + 1)
    } else {
        Err(SchemaRefusal::Parse(start))
    }
}

fn is_letter_byte(b: u8) -> bool
    ensures { result ≡ is_letter b }
{
    (b'A' <= b && b <= b'Z') || (b'a' <= b && b <= b'z')
}

fn is_word_byte(b: u8) -> bool
    ensures { result ≡ is_word b }
{
    is_letter_byte(b) || (b'0' <= b && b <= b'9') || b == b'_'
}

// The length of the longest word-like prefix.
fn word_len(bytes: &[u8]) -> usize
    ensures value { result ≡ word_length bytes.now }
    ensures within { result ≤ length bytes.now }
{
    let mut len = 0;
    while len < bytes.len() && is_word_byte(bytes[len]) {
        len += 1;
    }
    len
}

fn begins_word_at(text: &[u8], offset: usize) -> bool
    ensures value { result ≡ begins_word (slice_get text.now offset) }
    ensures within { result ≡ true → offset < length text.now }
{
    offset < text.len() && is_letter_byte(text[offset])
}

/// The word that must be the next token. The error is `Parse`.
pub fn read_word(text: &[u8], at: usize) -> Result<Word<'_>, SchemaRefusal>
    requires { at ≤ length text.now }
    ensures value { Gives (λ word. (word.bytes.now, word.start, word.end)) result (word_at text.now at) }
    ensures within { IfOk result (λ word. word.end ≤ length text.now) }
    ensures lawful { IfOk result (λ word. IsWord word.bytes.now) }
{
    let start = next_part(text, at);
    if begins_word_at(text, start) {
        let rest = &text[start..];
        let len = word_len(rest);
        Ok(Word {
            bytes: &rest[..len],
            start,
            end: start + len,
        })
    } else {
        Err(SchemaRefusal::Parse(start))
    }
}
