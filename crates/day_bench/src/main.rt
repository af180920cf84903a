//! Times a date in memory: its updates, a copy of it, its end, and reading its columns. `bench/day.py` runs it, and sets its
//! times beside those of a loop in Rust.
//!
//! `made` makes updates of the built-in schema's `trade`, with 100 symbols of four letters; `day` logs them; `timed` times
//! each step, and prints a line for each time: the step, nanoseconds, and the number of rows, of blocks or of a date.
//!
//! ```text
//! day_bench timed ROWS SIZE
//!
//! day make NANOSECONDS UPDATES    making and dropping updates of SIZE rows, ROWS rows together
//! day log NANOSECONDS ROWS        the same with `OpenDay::reserve` and `push` of each
//! day copy NANOSECONDS BLOCKS     `OpenDay::copy`
//! day read NANOSECONDS ROWS       a whole column of longs of the open date
//! day symbols NANOSECONDS ROWS    the whole column of symbols of the open date
//! day sort NANOSECONDS ROWS       `Vector::order` of those symbols
//! day order NANOSECONDS ROWS      `OpenDay::close_order`
//! day close NANOSECONDS DATE      `OpenDay::close`
//! day ended NANOSECONDS ROWS      a whole column of longs of the ended date
//! ```
//!
//! To measure memory it logs the same rows, ends the date where `ended` says so, and prints what Linux says of the process
//! (`/proc/self/status`) while it still has the date:
//!
//! ```text
//! day_bench open ROWS SIZE
//! day_bench ended ROWS SIZE
//! ```
//!
//! It tests nothing: the numbers are printed so that no call can be left out by the compiler. Without arguments it does
//! nothing.
#![tactic(auto)]

mod day;
mod made;
mod memory;
mod timed;

use anyhow::{Result, bail};
use std::env;

fn main(rt: HostRuntime) -> Result<()> {
    let mut arguments = env::args(&rt)?;
    let _program = arguments.next();
    let Some(step) = arguments.next() else {
        return Ok(());
    };
    let (Some(rows), Some(size)) = (arguments.next(), arguments.next()) else {
        bail!("a number of rows, and the rows of an update");
    };
    let rows = rows.as_str().parse::<u32>()?;
    let size = size.as_str().parse::<u32>()?;
    match step.as_str() {
        "timed" => timed::report(&rt, rows, size),
        "open" => memory::report(&rt, rows, size, false),
        "ended" => memory::report(&rt, rows, size, true),
        _ => bail!("no such step"),
    }
}
