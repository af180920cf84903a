//! The time that `parse` takes, in nanoseconds: the least of several rounds.

use anyhow::Result;
use qsql_parse::{ParseRefusal, parse};
use std::rt::Clock;
use std::time::Instant;

/// The number of rounds for each text.
const ROUNDS: u32 = 20;

fn is_read(answer: &Result<qsql_parse::Request, ParseRefusal>) -> &'static str {
    match answer {
        Ok(_) => "request",
        Err(ParseRefusal::Limit) => "limit",
        Err(ParseRefusal::Parse(_)) => "parse",
        Err(ParseRefusal::Nyi) => "nyi",
        Err(ParseRefusal::NoMemory) => "wsfull",
    }
}

/// Parses a text several times, and prints its name, its length, the nanoseconds of the fastest round and the answer.
pub fn report<R: Clock + Print + AllocGlobal>(rt: &R, name: &str, text: &[u8]) -> Result<()> {
    let mut least = u128::MAX;
    let mut answered = "";
    for _ in 0..ROUNDS {
        let start = Instant::now(rt)?;
        let answer = parse(rt.alloc(), text);
        let nanos = start.elapsed(rt)?.as_nanos();
        answered = is_read(&answer);
        if nanos < least {
            least = nanos;
        }
    }
    let length = text.len();
    println!(rt; "{name} {length} {least} {answered}")?;
    Ok(())
}
