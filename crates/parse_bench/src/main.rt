//! A program that times `qsql_parse`; `bench/parse.py` runs it.
//!
//! Its one argument is a length in bytes. `made` makes texts of that length, of twice and of four times the length, each
//! of which is hard for the reader in another way: blanks, far too many tokens, one long vector, signs that look back.
//! Two more texts are at the limit on tokens. `timed` parses each text twenty times and prints a line: the name of the
//! text, its length, the nanoseconds of the fastest round, and the answer.
//!
//! ```text
//! $ parse_bench 16384
//! blanks 16384 21000 request
//! tokens 16384 310000 limit
//! ...
//! ```
//!
//! The numbers above are only an example. `bench/parse.py` prints the nanoseconds of each byte, which stay about the same
//! for texts of different lengths as long as reading is linear. Without an argument the program prints nothing. It checks
//! no answers: `qsql_parse_cases` has the tests.
#![tactic(auto)]

mod made;
mod timed;

use anyhow::Result;
use std::alloc::Global;
use std::env;
use std::rt::Clock;

fn reported<R: Clock + Print + AllocGlobal>(rt: &R, alloc: Global, length: usize) -> Result<()> {
    timed::report(rt, "blanks", &made::blanks(alloc, length)?)?;
    timed::report(rt, "tokens", &made::tokens(alloc, length)?)?;
    timed::report(rt, "numbers", &made::numbers(alloc, length)?)?;
    timed::report(rt, "symbols", &made::symbols(alloc, length)?)?;
    timed::report(rt, "signs", &made::signs(alloc, length)?)
}

fn main(rt: HostRuntime) -> Result<()> {
    let mut words = env::args(&rt)?;
    let _program = words.next();
    if let Some(word) = words.next() {
        let length = word.as_str().parse::<usize>()?;
        let alloc = rt.alloc();
        for times in [1usize, 2, 4] {
            reported(&rt, alloc, length.saturating_mul(times))?;
        }
        timed::report(&rt, "sum", &made::sum(alloc, 510)?)?;
        timed::report(&rt, "columns", &made::columns(alloc, 509)?)?;
    }
    Ok(())
}
