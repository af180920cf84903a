//! Patterns of words, and the numbers that digits at fixed offsets give.
ghost use Rattle.std.specs.Prelude.{◌≡◌, ◌<◌, ◌≤◌, ◌-◌, ◌^◌, length, drop, true};
ghost use Rattle.q_text.specs.Forms as spec;
ghost use Rattle.q_text.specs.Numbers as numbers;

use crate::words::{byte_at, is_digit};
use jiff_core::civil::days_in_month;

// Whether a byte matches a byte of a pattern.
fn fits(pattern: u8, b: u8) -> bool
    ensures { result ≡ spec.fits pattern b }
{
    if pattern == b'd' {
        is_digit(b)
    } else {
        pattern == b
    }
}

/// Whether the word from `from` on matches the start of the pattern, in which `d` matches any digit and each other byte
/// itself.
pub fn is_front(pattern: &[u8], word: &[u8], from: usize) -> bool
    requires { from ≤ length word.now }
    ensures { result ≡ spec.is_front pattern.now (drop from word.now) }
{
    let mut offset = from;
    let mut done = 0;
    while offset < word.len() {
        if done >= pattern.len() || !fits(pattern[done], word[offset]) {
            return false;
        }
        offset += 1;
        done += 1;
    }
    true
}

/// Whether the word matches the whole pattern.
pub fn is_like(pattern: &[u8], word: &[u8]) -> bool
    ensures { result ≡ spec.is_like pattern.now word.now }
{
    word.len() == pattern.len() && is_front(pattern, word, 0)
}

/// The value of the digit at an offset; 0 past the end.
pub fn digit(word: &[u8], at: usize) -> u64
    ensures value { result ≡ spec.digit word.now at }
    ensures bound { result < 256 }
{
    u64::from(byte_at(word, at).saturating_sub(48))
}

/// The number of the two digits at `at`.
pub fn pair(word: &[u8], at: usize) -> u64
    requires { at < 2 ^ 64 - 16 }
    ensures value { result ≡ spec.pair word.now at }
    ensures bound { result < 2816 }
{
    10 * digit(word, at) + digit(word, at + 1)
}

/// The number of the three digits at `at`.
pub fn triple(word: &[u8], at: usize) -> u64
    requires { at < 2 ^ 64 - 16 }
    ensures value { result ≡ numbers.triple word.now at }
    ensures bound { result < 28416 }
{
    10 * pair(word, at) + digit(word, at + 2)
}

/// The year of a word that begins with `yyyy.mm.dd`.
#[tactic(auto, unfolding(crate::specs::Forms::year_of))]
pub fn year_of(word: &[u8]) -> u64
    ensures value { result ≡ spec.year_of word.now }
    ensures bound { result < 300000 }
{
    100 * pair(word, 0) + pair(word, 2)
}

/// The month of a word that begins with `yyyy.mm`.
#[tactic(auto, unfolding(crate::specs::Forms::month_of))]
pub fn month_of(word: &[u8]) -> u64
    ensures value { result ≡ spec.month_of word.now }
    ensures bound { result < 2816 }
{
    pair(word, 5)
}

/// The day of a word that begins with `yyyy.mm.dd`.
#[tactic(auto, unfolding(crate::specs::Forms::day_of))]
pub fn day_of(word: &[u8]) -> u64
    ensures value { result ≡ spec.day_of word.now }
    ensures bound { result < 2816 }
{
    pair(word, 8)
}

/// Whether the word's year is 1 to 9999, and its month 1 to 12.
pub fn is_month(word: &[u8]) -> bool
    ensures { result ≡ spec.is_month word.now }
{
    let year = year_of(word);
    let month = month_of(word);
    (1 <= year && year <= 9999) && (1 <= month && month <= 12)
}

// The number of days of the word's month.
fn month_length(word: &[u8]) -> u64
    requires { spec.is_month word.now ≡ true }
    ensures { result ≡ spec.month_length word.now }
{
    let year = year_of(word) as i16;
    let month = month_of(word) as u8;
    u64::from(days_in_month(year, month))
}

/// Whether the civil calendar has the date that the word begins with.
pub fn is_civil(word: &[u8]) -> bool
    ensures { result ≡ spec.is_civil word.now }
{
    if !is_month(word) {
        return false;
    }
    let day = day_of(word);
    1 <= day && day <= month_length(word)
}

/// Whether the hours at `at` are at most `most`, and the minutes and seconds after them at most 59.
#[tactic(auto, unfolding(crate::specs::Forms::is_clock))]
pub fn is_clock(most: u64, word: &[u8], at: usize) -> bool
    requires { at < 2 ^ 64 - 64 }
    ensures { result ≡ spec.is_clock most word.now at }
{
    pair(word, at) <= most && (pair(word, at + 3) <= 59 && pair(word, at + 6) <= 59)
}

/// Whether a clock may have `len` bytes from its `D` on.
pub fn is_clock_length(len: usize) -> bool
    ensures { result ≡ spec.is_clock_length len }
{
    (len == 1 || len == 3) || ((len == 6 || len == 9) || (11 <= len && len <= 19))
}
