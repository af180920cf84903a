//! The forms of words: which kind of number, date or time a word is, by its bytes alone.
ghost use Rattle.std.specs.Prelude.{◌≡◌, ◌≤◌, length};
ghost use Rattle.q_text.specs.Forms as spec;

use crate::kinds::NumberKind;
use crate::patterns::{is_civil, is_clock, is_clock_length, is_front, is_like, is_month};
use crate::words::{Class, byte_at, is_same, span_end};
use q_values::{IntegerKind, LongKind};

/// The form of a word. All words of a run have the same form, but for the suffix of the last one.
#[derive(Clone, Copy)]
pub enum Form {
    /// A whole number without a suffix, such as `12`, `0N`, `0W` or `-0W`.
    Whole,
    /// A whole number with the suffix of its kind, such as `12h`.
    Suffixed(NumberKind),
    /// The null or an infinity of a temporal kind, such as `0Nd`.
    Special(NumberKind),
    /// Any other single value, such as `2024.01.02`, `1b` or `0x0f`.
    Item(NumberKind),
    /// Several values without blanks between them, which are a vector by themselves, such as `101b`.
    Row(NumberKind),
}

/// Whether the word is a date, `yyyy.mm.dd`.
#[tactic(auto, unfolding(crate::specs::Forms::is_date))]
pub fn is_date(word: &[u8]) -> bool
    ensures { result ≡ spec.is_date word.now }
{
    is_like(b"dddd.dd.dd", word) && is_civil(word)
}

#[tactic(auto, unfolding(crate::specs::Forms::is_year_month))]
fn is_year_month(word: &[u8]) -> bool
    ensures { result ≡ spec.is_year_month word.now }
{
    is_like(b"dddd.ddm", word) && is_month(word)
}

// Whether the word has as many bytes from `at` on as a clock with its `D` may have.
fn ends_clock(word: &[u8], at: usize) -> bool
    ensures { result ≡ spec.ends_clock word.now at }
{
    is_clock_length(word.len().saturating_sub(at))
}

#[tactic(auto, unfolding(crate::specs::Forms::is_timestamp))]
fn is_timestamp(word: &[u8]) -> bool
    ensures { result ≡ spec.is_timestamp word.now }
{
    is_front(b"dddd.dd.ddDdd:dd:dd.ddddddddd", word, 0)
        && (ends_clock(word, 10) && (is_civil(word) && is_clock(23, word, 11)))
}

/// The number of digits at the start of the word.
pub fn digits(word: &[u8]) -> usize
    ensures value { result ≡ spec.digits word.now }
    ensures within { result ≤ length word.now }
{
    span_end(Class::Digit, word, 0)
}

#[tactic(auto, unfolding(crate::specs::Forms::is_timespan))]
fn is_timespan(word: &[u8]) -> bool
    ensures { result ≡ spec.is_timespan word.now }
{
    let count = digits(word);
    (1 <= count && count <= 6)
        && (is_front(b"Ddd:dd:dd.ddddddddd", word, count)
            && (ends_clock(word, count) && is_clock(23, word, count + 1)))
}

#[tactic(auto, unfolding(crate::specs::Forms::is_minute))]
fn is_minute(word: &[u8]) -> bool
    ensures { result ≡ spec.is_minute word.now }
{
    is_like(b"dd:dd", word) && is_clock(99, word, 0)
}

#[tactic(auto, unfolding(crate::specs::Forms::is_second))]
fn is_second(word: &[u8]) -> bool
    ensures { result ≡ spec.is_second word.now }
{
    is_like(b"dd:dd:dd", word) && is_clock(99, word, 0)
}

#[tactic(auto, unfolding(crate::specs::Forms::is_time))]
fn is_time(word: &[u8]) -> bool
    ensures { result ≡ spec.is_time word.now }
{
    is_like(b"dd:dd:dd.ddd", word) && is_clock(99, word, 0)
}

#[tactic(auto, unfolding(crate::specs::Forms::calendar_form))]
fn calendar_form(word: &[u8]) -> Option<Form>
    ensures { result ≡ spec.calendar_form word.now }
{
    if is_date(word) {
        Some(Form::Item(NumberKind::Integers(IntegerKind::Date)))
    } else if is_year_month(word) {
        Some(Form::Item(NumberKind::Integers(IntegerKind::Month)))
    } else if is_timestamp(word) {
        Some(Form::Item(NumberKind::Longs(LongKind::Timestamp)))
    } else {
        None
    }
}

#[tactic(auto, unfolding(crate::specs::Forms::clock_form))]
fn clock_form(word: &[u8]) -> Option<Form>
    ensures { result ≡ spec.clock_form word.now }
{
    if is_timespan(word) {
        Some(Form::Item(NumberKind::Longs(LongKind::Timespan)))
    } else if is_minute(word) {
        Some(Form::Item(NumberKind::Integers(IntegerKind::Minute)))
    } else if is_second(word) {
        Some(Form::Item(NumberKind::Integers(IntegerKind::Second)))
    } else if is_time(word) {
        Some(Form::Item(NumberKind::Integers(IntegerKind::Time)))
    } else {
        None
    }
}

#[tactic(auto, unfolding(crate::specs::Forms::bits_form))]
fn bits_form(word: &[u8]) -> Option<Form>
    ensures { result ≡ spec.bits_form word.now }
{
    let count = span_end(Class::Bit, word, 0);
    if count + 1 == word.len() && (byte_at(word, count) == b'b' && 1 <= count) {
        if count == 1 {
            Some(Form::Item(NumberKind::Boolean))
        } else {
            Some(Form::Row(NumberKind::Boolean))
        }
    } else {
        None
    }
}

fn begins_bytes(word: &[u8]) -> bool
    ensures { result ≡ spec.begins_bytes word.now }
{
    byte_at(word, 0) == b'0' && byte_at(word, 1) == b'x'
}

// Whether all bytes after the first two are hexadecimal digits, and their number is even.
fn is_hex_tail(word: &[u8]) -> bool
    ensures { result ≡ spec.is_hex_tail word.now }
{
    if word.len() < 2 {
        return false;
    }
    span_end(Class::Hex, word, 2) == word.len() && word.len() % 2 == 0
}

#[tactic(auto, unfolding(crate::specs::Forms::bytes_form))]
fn bytes_form(word: &[u8]) -> Option<Form>
    ensures { result ≡ spec.bytes_form word.now }
{
    if begins_bytes(word) && is_hex_tail(word) {
        if word.len() == 4 {
            Some(Form::Item(NumberKind::Byte))
        } else {
            Some(Form::Row(NumberKind::Byte))
        }
    } else {
        None
    }
}

/// The length of the sign in bytes: 1 for `-`, or else 0.
pub fn sign(word: &[u8]) -> usize
    ensures value { result ≡ spec.sign word.now }
    ensures within { result ≤ length word.now }
    ensures bound { result ≤ 1 }
{
    if byte_at(word, 0) == b'-' { 1 } else { 0 }
}

/// Whether the word begins with `0W` or `-0W`.
pub fn is_infinite(word: &[u8]) -> bool
    ensures { result ≡ spec.is_infinite word.now }
{
    let sign = sign(word);
    byte_at(word, sign) == b'0' && byte_at(word, sign + 1) == b'W'
}

/// Whether the word begins with `0N`.
pub fn is_null(word: &[u8]) -> bool
    ensures { result ≡ spec.is_null word.now }
{
    byte_at(word, 0) == b'0' && byte_at(word, 1) == b'N'
}

// Whether the word is the null or an infinity without a letter: `0N`, `0W` or `-0W`.
#[tactic(auto, unfolding(crate::specs::Forms::is_special))]
fn is_special(word: &[u8]) -> bool
    ensures { result ≡ spec.is_special word.now }
{
    is_same(word, b"0N") || (is_same(word, b"0W") || is_same(word, b"-0W"))
}

// Whether the word is digits only, at least one.
#[tactic(auto, unfolding(crate::specs::Forms::is_digits))]
fn is_digits(word: &[u8]) -> bool
    ensures { result ≡ spec.is_digits word.now }
{
    1 <= word.len() && digits(word) == word.len()
}

// Whether the word is a whole number without a suffix.
#[tactic(auto, unfolding(crate::specs::Forms::is_plain))]
fn is_plain(word: &[u8]) -> bool
    ensures { result ≡ spec.is_plain word.now }
{
    is_special(word) || is_digits(&word[sign(word)..])
}

fn suffix_form(b: u8) -> Option<Form>
    ensures { result ≡ spec.suffix_form b }
{
    match b {
        b'h' => Some(Form::Suffixed(NumberKind::Short)),
        b'i' => Some(Form::Suffixed(NumberKind::Integers(IntegerKind::Integer))),
        b'j' => Some(Form::Suffixed(NumberKind::Longs(LongKind::Long))),
        _ => None,
    }
}

fn letter_form(b: u8) -> Option<Form>
    ensures { result ≡ spec.letter_form b }
{
    match b {
        b'p' => Some(Form::Special(NumberKind::Longs(LongKind::Timestamp))),
        b'm' => Some(Form::Special(NumberKind::Integers(IntegerKind::Month))),
        b'd' => Some(Form::Special(NumberKind::Integers(IntegerKind::Date))),
        b'n' => Some(Form::Special(NumberKind::Longs(LongKind::Timespan))),
        b'u' => Some(Form::Special(NumberKind::Integers(IntegerKind::Minute))),
        b'v' => Some(Form::Special(NumberKind::Integers(IntegerKind::Second))),
        b't' => Some(Form::Special(NumberKind::Integers(IntegerKind::Time))),
        _ => None,
    }
}

fn lettered_form(special: bool, b: u8) -> Option<Form>
    ensures { result ≡ spec.lettered_form special b }
{
    match suffix_form(b) {
        Some(form) => Some(form),
        None => if special { letter_form(b) } else { None },
    }
}

#[tactic(auto, unfolding(crate::specs::Forms::number_form))]
fn number_form(word: &[u8]) -> Option<Form>
    ensures { result ≡ spec.number_form word.now }
{
    if is_plain(word) {
        return Some(Form::Whole);
    }
    let end = word.len().saturating_sub(1);
    let front = &word[..end];
    if is_plain(front) {
        lettered_form(is_special(front), byte_at(word, end))
    } else {
        None
    }
}

/// The form of a word, or `None` where it has none. A word never has two.
#[tactic(auto, unfolding(crate::specs::Forms::form_of))]
pub fn form_of(word: &[u8]) -> Option<Form>
    ensures { result ≡ spec.form_of word.now }
{
    if let Some(form) = calendar_form(word) {
        return Some(form);
    }
    if let Some(form) = clock_form(word) {
        return Some(form);
    }
    if let Some(form) = bits_form(word) {
        return Some(form);
    }
    if let Some(form) = bytes_form(word) {
        return Some(form);
    }
    number_form(word)
}
