//! The bytes of a text: classes of bytes, words, and where a literal begins.
ghost use Rattle.std.specs.Prelude.{◌≡◌, ◌<◌, ◌≤◌, ◌+◌, ◌&&◌, length, drop, take, slice_index, true, false};
ghost use Rattle.std.specs.Str.{bytes_eq};
ghost use Rattle.q_text.specs.Words as spec;

/// A class of bytes.
#[derive(Clone, Copy)]
pub enum Class {
    /// Space, tab, newline or carriage return.
    Blank,
    /// 0 to 9.
    Digit,
    /// A hexadecimal digit.
    Hex,
    /// 0 or 1.
    Bit,
    /// The bytes of a word: letters, digits, `.` and `:`.
    Word,
    /// The bytes of a symbol: those of a word and `_`.
    Symbol,
    /// The bytes of several symbols in a row: those of a symbol and the backtick.
    Symbols,
}

/// Whether the byte is one of A to Z or a to z.
pub fn is_letter(b: u8) -> bool
    ensures { result ≡ spec.is_letter b }
{
    (b'A' <= b && b <= b'Z') || (b'a' <= b && b <= b'z')
}

/// Whether the byte is one of 0 to 9.
pub fn is_digit(b: u8) -> bool
    ensures { result ≡ spec.is_digit b }
{
    b'0' <= b && b <= b'9'
}

fn is_hex(b: u8) -> bool
    ensures { result ≡ spec.is_hex b }
{
    is_digit(b) || ((b'A' <= b && b <= b'F') || (b'a' <= b && b <= b'f'))
}

/// Whether the byte is a space, a tab, a newline or a carriage return.
pub fn is_blank(b: u8) -> bool
    ensures { result ≡ spec.is_blank b }
{
    (b == b' ' || b == b'\t') || (b == b'\n' || b == b'\r')
}

fn is_word(b: u8) -> bool
    ensures { result ≡ spec.is_word b }
{
    is_letter(b) || (is_digit(b) || (b == b'.' || b == b':'))
}

fn is_symbol(b: u8) -> bool
    ensures { result ≡ spec.is_symbol b }
{
    is_word(b) || b == b'_'
}

impl Class {
    fn has(self, b: u8) -> bool
        ensures { result ≡ spec.is_of self b }
    {
        match self {
            Class::Blank => is_blank(b),
            Class::Digit => is_digit(b),
            Class::Hex => is_hex(b),
            Class::Bit => b == b'0' || b == b'1',
            Class::Word => is_word(b),
            Class::Symbol => is_symbol(b),
            Class::Symbols => b == b'`' || is_symbol(b),
        }
    }
}

/// The byte at an offset; 0 past the end.
pub fn byte_at(text: &[u8], at: usize) -> u8
    ensures { result ≡ slice_index text.now at }
{
    if at < text.len() { text[at] } else { 0 }
}

/// Whether two texts have the same bytes.
pub fn is_same(some: &[u8], other: &[u8]) -> bool
    ensures { result ≡ bytes_eq some.now other.now }
{
    some == other
}

/// The offset just past the bytes of the class that begin at `at`.
pub fn span_end(class: Class, text: &[u8], at: usize) -> usize
    requires { at ≤ length text.now }
    ensures value { result ≡ spec.span_end class text.now at }
    ensures forward { at ≤ result }
    ensures within { result ≤ length text.now }
{
    let mut offset = at;
    while offset < text.len() && class.has(text[offset]) {
        offset += 1;
    }
    offset
}

/// Whether the bytes at `at` are a digit, or `-` and a digit.
pub fn begins_word(text: &[u8], at: usize) -> bool
    requires { at ≤ length text.now }
    ensures value { result ≡ spec.begins_word text.now at }
    ensures within { result ≡ true → at < length text.now }
{
    at < text.len() && (is_digit(text[at]) || (text[at] == b'-' && is_digit(byte_at(text, at + 1))))
}

/// The offset just past the word that begins at `at`.
pub fn word_end(text: &[u8], at: usize) -> usize
    requires { at ≤ length text.now }
    ensures value { result ≡ spec.word_end text.now at }
    ensures forward { at ≤ result }
    ensures advances { spec.begins_word text.now at ≡ true → at < result }
    ensures within { result ≤ length text.now }
{
    if at < text.len() && text[at] == b'-' {
        span_end(Class::Word, text, at + 1)
    } else {
        span_end(Class::Word, text, at)
    }
}

/// The word that begins at `at`.
pub fn word_at(text: &[u8], at: usize) -> &[u8]
    requires { at ≤ length text.now }
    ensures { result.now ≡ spec.word_at text.now at }
{
    let end = word_end(text, at);
    &text[at..end]
}

// Whether `-` is a verb after this byte.
fn ends_operand(b: u8) -> bool
    ensures { result ≡ spec.ends_operand b }
{
    (is_letter(b) || is_digit(b)) || ((b == b'_' || b == b')') || (b == b']' || b == b'"'))
}

// Whether the byte before `at` belongs to a symbol literal. The walk back ends at the first byte that isn't part of a
// symbol, so a text with many signs is walked over once.
fn ends_symbol(text: &[u8], at: usize) -> bool
    requires { at ≤ length text.now }
    ensures { result ≡ spec.in_symbol false (take at text.now) }
{
    let mut offset = at;
    while offset > 0 && is_symbol(text[offset - 1]) {
        offset -= 1;
    }
    offset > 0 && text[offset - 1] == b'`'
}

/// Whether a `-` at `at` is a verb, since the byte before it ends an operand.
pub fn follows_operand(text: &[u8], at: usize) -> bool
    requires { at ≤ length text.now }
    ensures { result ≡ spec.follows_operand text.now at }
{
    at > 0 && (ends_operand(text[at - 1]) || ends_symbol(text, at))
}
