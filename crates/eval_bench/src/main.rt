//! Times queries over rows of `trade` in memory. `bench/eval.py` runs it, and sets its times beside those of numpy and pandas.
//!
//! `made` makes the rows, with 100 symbols or with 100,000; `timed` reads each text, judges it, and times its evaluation over the rows five
//! times. It prints one line for each time: a name for the text, nanoseconds, and the sum of all numbers of the result.
//!
//! ```text
//! eval_bench ROWS
//!
//! eval sum_size NANOSECONDS SUM
//! eval one_symbol NANOSECONDS SUM
//! eval count_two NANOSECONDS SUM
//! eval range NANOSECONDS SUM
//! eval last_by_sym NANOSECONDS SUM
//! eval count_by_date NANOSECONDS SUM
//! eval bars NANOSECONDS SUM
//! eval sum_by_many NANOSECONDS SUM
//! ```
//!
//! It tests nothing: the sums are printed so that no call can be left out by the compiler. It reads no rows from a file, and
//! times neither the reading of a text nor the encoding of an answer. Without arguments it does nothing.
#![tactic(auto)]

mod made;
mod timed;

use anyhow::Result;
use std::env;

fn main(rt: HostRuntime) -> Result<()> {
    let mut arguments = env::args(&rt)?;
    let _program = arguments.next();
    if let Some(count) = arguments.next() {
        let count = count.as_str().parse::<u32>()?;
        timed::report(&rt, count)?;
    }
    Ok(())
}
