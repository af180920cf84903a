//! From a word to its numbers: digits, calendar dates, clocks, bits and hexadecimal bytes.
ghost use Rattle.std.specs.Prelude.{◌≡◌, ◌<◌, ◌≤◌, ◌+◌, ◌-◌, ◌^◌, ◌++◌, length, drop, min, IfOk, OnOk, Some, true, pos};
ghost use Rattle.q_text.specs.Numbers as spec;
ghost use Rattle.q_text.specs.Stored.{read};
ghost use Rattle.q_text.specs.Forms.{is_civil, digits};
ghost use Rattle.q_values.specs.declared.kind.IntegerKind.TheVariants as ik;
ghost use Rattle.q_values.specs.declared.kind.LongKind.TheVariants as lk;
ghost use Rattle.q_text.specs.declared.kinds.NumberKind.TheVariants as nk;

use crate::forms::{Form, digits, is_infinite, is_null, sign};
use crate::kinds::NumberKind;
use crate::patterns::{day_of, is_civil, month_of, pair, triple, year_of};
use crate::words::{byte_at, is_digit};
use jiff_core::civil::Date;
use q_values::{IntegerKind, LongKind, NANOSECONDS_PER_DAY, NoMemory};

// A day in nanoseconds.
const DAY_IN_NANOSECONDS: i128 = NANOSECONDS_PER_DAY as i128;

// The decimal number of the digits from `from` on, or the greatest of 64 bits where it is above that.
fn spelled(word: &[u8], from: usize) -> u64
    requires { from ≤ length word.now }
    ensures { result ≡ min (spec.spelled 0 (drop from word.now)) (2 ^ 64 - 1) }
{
    let mut number = 0u64;
    let mut offset = from;
    while offset < word.len() && is_digit(word[offset]) {
        let digit = u64::from(word[offset].saturating_sub(48));
        number = number.saturating_mul(10).saturating_add(digit);
        offset += 1;
    }
    number
}

// The greatest value of a kind; for booleans and bytes, of the byte that stores them.
fn greatest(kind: NumberKind) -> u64
    ensures value { result ≡ spec.greatest kind }
    ensures bound { result < 2 ^ 63 }
{
    match kind {
        NumberKind::Boolean => 255,
        NumberKind::Byte => 255,
        NumberKind::Short => 32_767,
        NumberKind::Integers(_) => 2_147_483_647,
        NumberKind::Longs(_) => 9_223_372_036_854_775_807,
    }
}

// The number, where it is in the range of the kind, which leaves out the null.
#[tactic(auto, unfolding(crate::specs::Numbers::in_range))]
fn in_range(kind: NumberKind, number: &i128) -> Option<i64>
    ensures { result ≡ spec.in_range kind number.now }
{
    let number = *number;
    if number.unsigned_abs() <= u128::from(greatest(kind)) {
        Some(number as i64)
    } else {
        None
    }
}

// The null of a kind: the least value of its width.
fn null_of(kind: NumberKind) -> i64
    ensures { result ≡ spec.null_of kind }
{
    match kind {
        NumberKind::Boolean => -256,
        NumberKind::Byte => -256,
        NumberKind::Short => -32_768,
        NumberKind::Integers(_) => -2_147_483_648,
        NumberKind::Longs(_) => i64::MIN,
    }
}

fn signed(negative: bool, number: u64) -> i128
    ensures { result ≡ spec.signed negative number }
{
    if negative {
        -i128::from(number)
    } else {
        i128::from(number)
    }
}

// The absolute value of a whole number or an infinity, or the greatest of 64 bits where it is above that.
fn size_of_whole(kind: NumberKind, word: &[u8]) -> u64
    ensures { result ≡ min (spec.size_of_whole kind word.now) (2 ^ 64 - 1) }
{
    if is_infinite(word) {
        greatest(kind)
    } else {
        spelled(word, sign(word))
    }
}

// A whole number, a null or an infinity as a number of the kind, where it is in range.
#[tactic(auto, unfolding(crate::specs::Numbers::whole_number))]
fn whole_number(kind: NumberKind, word: &[u8]) -> Option<i64>
    ensures { result ≡ spec.whole_number kind word.now }
{
    if is_null(word) {
        return Some(null_of(kind));
    }
    let number = signed(byte_at(word, 0) == b'-', size_of_whole(kind, word));
    in_range(kind, &number)
}

// The seconds of the clock `hh:mm:ss` at an offset; digits that are missing count as 0.
#[tactic(auto, unfolding(crate::specs::Numbers::seconds_of))]
fn seconds_of(word: &[u8], at: usize) -> u64
    requires { at < 2 ^ 64 - 64 }
    ensures value { result ≡ spec.seconds_of word.now at }
    ensures bound { result < 20000000 }
{
    3600 * pair(word, at) + (60 * pair(word, at + 3) + pair(word, at + 6))
}

// The nanoseconds of the clock `hh:mm:ss.nnnnnnnnn` at an offset; digits that are missing count as 0.
#[tactic(auto, unfolding(crate::specs::Numbers::nanoseconds_of))]
fn nanoseconds_of(word: &[u8], at: usize) -> u64
    requires { at < 2 ^ 64 - 64 }
    ensures value { result ≡ spec.nanoseconds_of word.now at }
    ensures bound { result < 2 ^ 60 }
{
    let seconds = seconds_of(word, at);
    let fraction = 1_000_000 * triple(word, at + 9)
        + (1000 * triple(word, at + 12) + triple(word, at + 15));
    1_000_000_000 * seconds + fraction
}

// The nanoseconds of a timespan's clock, which follows its days and the `D`.
fn clock_after_days(word: &[u8]) -> u64
    ensures value { result ≡ spec.nanoseconds_of word.now (digits word.now + 1) }
    ensures bound { result < 2 ^ 60 }
{
    nanoseconds_of(word, digits(word) + 1)
}

// The days from 2000.01.01 to the date that the word begins with.
#[tactic(auto, unfolding(crate::specs::Numbers::days_of))]
fn days_of(word: &[u8]) -> i64
    requires { is_civil word.now ≡ true }
    ensures value { result ≡ spec.days_of word.now }
    ensures bound { spec.IsNearby result }
{
    let date = Date {
        year: year_of(word) as i16,
        month: month_of(word) as u8,
        day: day_of(word) as u8,
    };
    i64::from(date.to_unix_epoch_day()) - 10_957
}

// A number of a clock, where it is in range.
fn clock_number(kind: NumberKind, number: u64) -> Option<i64>
    ensures { result ≡ spec.in_range kind (pos number) }
{
    let number = i128::from(number);
    in_range(kind, &number)
}

// The months from 2000.01 to the month that the word begins with.
fn month(word: &[u8]) -> Option<i64>
    ensures { result ≡ spec.in_range (nk.Integers ik.Month) (spec.months_of word.now) }
{
    let number = i128::from(12 * year_of(word) + month_of(word)) - 24_001;
    in_range(NumberKind::Integers(IntegerKind::Month), &number)
}

// The days from 2000.01.01, where the calendar has the date.
fn date(word: &[u8]) -> Option<i64>
    ensures { result ≡ spec.ranged (nk.Integers ik.Date) (spec.where_civil word.now (spec.days_of word.now)) }
{
    if !is_civil(word) {
        return None;
    }
    let number = i128::from(days_of(word));
    in_range(NumberKind::Integers(IntegerKind::Date), &number)
}

// The nanoseconds since the start of 2000.01.01.
#[tactic(auto, unfolding(crate::specs::Numbers::timestamp_of))]
fn timestamp_of(word: &[u8]) -> i128
    requires { is_civil word.now ≡ true }
    ensures { result ≡ spec.timestamp_of word.now }
{
    let days = i128::from(days_of(word));
    days * DAY_IN_NANOSECONDS + i128::from(nanoseconds_of(word, 11))
}

// The nanoseconds since the start of 2000.01.01, where the calendar has the date and the number is in range.
fn timestamp(word: &[u8]) -> Option<i64>
    ensures { result ≡ spec.ranged (nk.Longs lk.Timestamp) (spec.where_civil word.now (spec.timestamp_of word.now)) }
{
    if !is_civil(word) {
        return None;
    }
    let number = timestamp_of(word);
    in_range(NumberKind::Longs(LongKind::Timestamp), &number)
}

// The nanoseconds of a timespan, where they are in range. Days of more than 64 bits are out of range anyway.
fn timespan(word: &[u8]) -> Option<i64>
    ensures { result ≡ spec.in_range (nk.Longs lk.Timespan) (pos (spec.timespan_of word.now)) }
{
    let days = i128::from(spelled(word, 0));
    let clock = clock_after_days(word);
    let number = days * DAY_IN_NANOSECONDS + i128::from(clock);
    in_range(NumberKind::Longs(LongKind::Timespan), &number)
}

// The number of a word of a temporal kind, where it is in range.
#[tactic(auto, unfolding(crate::specs::Numbers::temporal))]
fn ranged(kind: NumberKind, word: &[u8]) -> Option<i64>
    ensures { result ≡ spec.ranged kind (spec.temporal kind word.now) }
{
    match kind {
        NumberKind::Integers(IntegerKind::Month) => month(word),
        NumberKind::Integers(IntegerKind::Date) => date(word),
        NumberKind::Longs(LongKind::Timestamp) => timestamp(word),
        NumberKind::Longs(LongKind::Timespan) => timespan(word),
        NumberKind::Integers(IntegerKind::Minute) => clock_number(
            kind,
            60 * pair(word, 0) + pair(word, 3),
        ),
        NumberKind::Integers(IntegerKind::Second) => clock_number(kind, seconds_of(word, 0)),
        NumberKind::Integers(IntegerKind::Time) => clock_number(
            kind,
            1000 * seconds_of(word, 0) + triple(word, 9),
        ),
        _ => None,
    }
}

fn hex_value(b: u8) -> u8
    ensures value { result ≡ spec.hex_value b }
    ensures bound { result ≤ 168 }
{
    if b >= 97 {
        b - 87
    } else if b >= 65 {
        b - 55
    } else {
        b.saturating_sub(48)
    }
}

// Appends the bits of a word such as `0101b`.
fn push_bits(numbers: &mut Vec<i64>, word: &[u8]) -> Result<(), NoMemory>
    ensures { OnOk result (numbers.new.items ≡ numbers.old.items ++ spec.bits_of word.now) }
{
    let mut offset = 0;
    while offset < word.len() && word[offset] != b'b' {
        numbers.push(i64::from(word[offset].saturating_sub(48)))?;
        offset += 1;
    }
    Ok(())
}

// Appends the bytes given by pairs of hexadecimal digits from `from` on.
fn push_bytes(numbers: &mut Vec<i64>, word: &[u8], from: usize) -> Result<(), NoMemory>
    ensures { OnOk result (numbers.new.items ≡ numbers.old.items ++ spec.bytes_of (drop from word.now)) }
{
    let mut offset = from;
    while offset < word.len() && word.len() - offset >= 2 {
        let high = u32::from(hex_value(word[offset]));
        let low = u32::from(hex_value(word[offset + 1]));
        numbers.push(i64::from(16 * high + low))?;
        offset += 2;
    }
    Ok(())
}

// Appends the number, and says whether there is one.
fn push_one(numbers: &mut Vec<i64>, number: Option<i64>) -> Result<bool, NoMemory>
    ensures { IfOk result (λ fits. spec.joined (Some numbers.old.items) (spec.one number) ≡ read fits numbers.new.items) }
{
    match number {
        Some(number) => {
            numbers.push(number)?;
            Ok(true)
        }
        None => Ok(false),
    }
}

// Appends the numbers of a word that isn't a whole number, and says whether they are in range.
fn push_items(numbers: &mut Vec<i64>, kind: NumberKind, word: &[u8]) -> Result<bool, NoMemory>
    ensures { IfOk result (λ fits. spec.joined (Some numbers.old.items) (spec.items_of kind word.now) ≡ read fits numbers.new.items) }
{
    match kind {
        NumberKind::Boolean => {
            push_bits(numbers, word)?;
            Ok(true)
        }
        NumberKind::Byte => {
            push_bytes(numbers, word, 2)?;
            Ok(true)
        }
        _ => push_one(numbers, ranged(kind, word)),
    }
}

/// Appends the numbers of a word, and says whether they are in the range of the kind. Where they aren't, nothing is
/// appended.
#[tactic(auto, unfolding(crate::specs::Numbers::numbers_as))]
pub fn push_numbers(
    numbers: &mut Vec<i64>,
    form: Form,
    kind: NumberKind,
    word: &[u8],
) -> Result<bool, NoMemory>
    ensures { IfOk result (λ fits. spec.joined (Some numbers.old.items) (spec.numbers_as form kind word.now) ≡ read fits numbers.new.items) }
{
    match form {
        Form::Item(_) | Form::Row(_) => push_items(numbers, kind, word),
        _ => push_one(numbers, whole_number(kind, word)),
    }
}
