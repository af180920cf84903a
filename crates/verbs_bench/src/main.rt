//! Times the verbs of `q_verbs` over longs, ints, dates and symbols. `bench/verbs.py` runs it, and sets its times beside those of
//! the same loops in Rust.
//!
//! `made` makes the columns; `timed`, `names` and `groups` time each call over them, five times, and print one line for each:
//! the kind of the items, the verb, nanoseconds, and the sum of the results.
//!
//! ```text
//! verbs_bench LONGS [SYMBOLS [ROWS]]
//!
//! longs sum NANOSECONDS SUM
//! longs above_300 NANOSECONDS SUM
//! ints plus NANOSECONDS SUM
//! dates above NANOSECONDS SUM
//! longs filter NANOSECONDS SUM
//! longs within NANOSECONDS SUM
//! symbols equal NANOSECONDS SUM
//! symbols equal_one NANOSECONDS SUM
//! symbols in_50 NANOSECONDS SUM
//! symbols like NANOSECONDS SUM
//! symbols order NANOSECONDS NUMBER
//! symbols filter NANOSECONDS COUNT
//! long_symbols order NANOSECONDS NUMBER
//! groups symbols_100 NANOSECONDS GROUPS
//! sum_by symbols_100 NANOSECONDS SUM
//! groups dates NANOSECONDS GROUPS
//! ```
//!
//! It tests nothing: the sums are printed so that no call can be left out by the compiler. It reads no column from a
//! file, and times no query.
#![tactic(auto)]

mod groups;
mod made;
mod names;
mod timed;

use anyhow::Result;
use std::env;

fn main(rt: HostRuntime) -> Result<()> {
    let mut arguments = env::args(&rt)?;
    let _program = arguments.next();
    if let Some(count) = arguments.next() {
        let count = count.as_str().parse::<u32>()?;
        timed::report_longs(&rt, count)?;
    }
    if let Some(count) = arguments.next() {
        let count = count.as_str().parse::<u32>()?;
        names::report_symbols(&rt, count)?;
        names::report_long_symbols(&rt, count)?;
    }
    if let Some(count) = arguments.next() {
        let count = count.as_str().parse::<u32>()?;
        groups::report_groups(&rt, count)?;
    }
    Ok(())
}
