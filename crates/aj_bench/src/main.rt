//! Times as-of joins of tables in memory. `bench/eval.py` runs it, and sets its times beside those of numpy and pandas.
//!
//! `made` makes trades and quotes of 100 symbols, both in the order of their times; `timed` reads the text of a join, judges
//! it, evaluates its two sides, and times the join of what they give five times. It prints one line for each time: a name for
//! the join, nanoseconds, and the sum of the bids that it found, each times the number of its row.
//!
//! ```text
//! aj_bench TRADES QUOTES
//!
//! eval aj NANOSECONDS SUM
//! ```
//!
//! `bench/eval.py` asks for 200,000 trades and a million quotes, and for a million trades and ten million quotes.
//!
//! It tests nothing: the sums are printed so that the results can be compared. It times neither the reading of a text nor the
//! evaluation of the sides. Without arguments it does nothing.
#![tactic(auto)]

mod made;
mod timed;

use anyhow::Result;
use std::env;

fn main(rt: HostRuntime) -> Result<()> {
    let mut arguments = env::args(&rt)?;
    let _program = arguments.next();
    if let (Some(trades), Some(quotes)) = (arguments.next(), arguments.next()) {
        let trades = trades.as_str().parse::<u32>()?;
        let quotes = quotes.as_str().parse::<u32>()?;
        timed::report(&rt, trades, quotes)?;
    }
    Ok(())
}
