//! The values of options: numbers and timestamps.
ghost use Rattle.std.specs.Prelude.{◌≡◌, ◌≤◌, ◌↔◌, ℕ, ℤ, Option, Some, option_map, IfOk, IfSome, pos};
ghost use Rattle.plant_words.specs.Asked.{HasNumber, IsClock, IsFromOne, IsMoment, IsNumber, IsStep};
ghost use Rattle.plant_words.specs.Reading.{IsReadBy};
ghost use Rattle.plant_words.specs.declared.command.Ticking.{Ticking};

use crate::command::{Ticking, Unread};
use q_text::{LiteralRefusal, read_literal};
use q_values::{Atom, NANOSECONDS_PER_DAY, Value};
use std::alloc::Global;

/// The longest step of a clock: a day, in nanoseconds.
const LONGEST_STEP: u64 = NANOSECONDS_PER_DAY as u64;

/// The last port.
const LAST_PORT: u64 = 65_535;

/// The greatest number of sessions that a server serves.
const MOST_SESSIONS: u64 = 1_000_000;

/// The number that decimal digits write, if it is at most `most`. A sign isn't read.
pub(crate) fn number_of(text: &str, most: u64) -> Option<u64>
    ensures number { (n : ℕ) → (result ≡ Some n) ↔ IsNumber most text.now n }
    ensures within { IfSome result (λ n. n ≤ most) }
{
    if let [b'+', ..] = text.as_bytes() {
        return None;
    }
    match text.parse::<u64>() {
        Ok(n) if n <= most => Some(n),
        _ => None,
    }
}

/// The step that an option's value gives: 0 where the option is missing.
pub(crate) fn step_of(text: Option<&str>) -> Option<u64>
    ensures step { (n : ℕ) → (result ≡ Some n) ↔ IsStep (option_map (λ s. s.now) text.entry) n }
    ensures within { IfSome result (λ n. n ≤ 86400000000000) }
{
    match text {
        None => Some(0),
        Some(text) => number_of(text, LONGEST_STEP),
    }
}

/// The number that decimal digits write, if it is from 1 to `most`.
fn from_one(text: &str, most: u64) -> Option<u64>
    ensures number { (n : ℕ) → (result ≡ Some n) ↔ IsFromOne most text.now n }
    ensures within { IfSome result (λ n. n ≤ most) }
{
    match number_of(text, most) {
        Some(n) if n >= 1 => Some(n),
        _ => None,
    }
}

/// The number from 1 to `most` that an option's value gives.
fn number_in(text: Option<&str>, most: u64) -> Option<u64>
    ensures number { (n : ℕ) → (result ≡ Some n) ↔ HasNumber most (option_map (λ s. s.now) text.entry) n }
    ensures within { IfSome result (λ n. n ≤ most) }
{
    match text {
        None => None,
        Some(text) => from_one(text, most),
    }
}

/// The port that an option's value gives.
pub(crate) fn port_of(text: Option<&str>) -> Option<u16>
    ensures { (n : ℕ) → (result ≡ Some n) ↔ HasNumber 65535 (option_map (λ s. s.now) text.entry) n }
{
    match number_in(text, LAST_PORT) {
        Some(port) => Some(port as u16),
        None => None,
    }
}

/// The number of sessions that an option's value gives.
pub(crate) fn sessions_of(text: Option<&str>) -> Option<u32>
    ensures { (n : ℕ) → (result ≡ Some n) ↔ HasNumber 1000000 (option_map (λ s. s.now) text.entry) n }
{
    match number_in(text, MOST_SESSIONS) {
        Some(sessions) => Some(sessions as u32),
        None => None,
    }
}

/// The moment of a timestamp literal, if the whole text is one.
pub(crate) fn moment_of(alloc: Global, text: &str) -> Result<i64, Unread>
    ensures read { IfOk result (λ moment. IsMoment text.now moment) }
    ensures asked { (moment : ℤ) → IsMoment text.now moment → IsReadBy (λ m. m) moment result }
{
    match read_literal(alloc, text.as_bytes(), 0) {
        Ok((Value::Atom(Atom::Timestamp(moment)), end)) if end == text.len() => Ok(moment),
        Err(LiteralRefusal::NoMemory) => Err(Unread::NoMemory),
        _ => Err(Unread::Faulty),
    }
}

/// The clock that the values of `--clock` and `--step` give.
pub(crate) fn clock_of(
    alloc: Global,
    clock: Option<&str>,
    step: Option<&str>,
) -> Result<Option<Ticking>, Unread>
    ensures read { IfOk result (λ t. IsClock (option_map (λ s. s.now) clock.entry) (option_map (λ s. s.now) step.entry) t) }
    ensures asked { (t : Option Ticking) → IsClock (option_map (λ s. s.now) clock.entry) (option_map (λ s. s.now) step.entry) t → IsReadBy (λ r. r) t result }
{
    let Some(step) = step_of(step) else {
        return Err(Unread::Faulty);
    };
    match clock {
        None => Ok(None),
        Some(text) => {
            let start = moment_of(alloc, text)?;
            Ok(Some(Ticking {
                start,
                step: step as i64,
            }))
        }
    }
}
