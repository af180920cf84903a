//! The memory that a date takes.

use crate::day::{begun, fill};
use anyhow::Result;
use std::fs;
use std::rt::Files;

// Prints what Linux says of this process.
fn print_status<R: Files + Print + AllocGlobal>(rt: &R) -> Result<()> {
    let status = fs::read_to_string(rt, "/proc/self/status")?;
    println!(rt; "{status}")?;
    Ok(())
}

/// Logs `rows` rows in updates of `size` rows, ends the date if `ended`, and prints what Linux says of this process and,
/// last, the date.
pub fn report<R: Files + Print + AllocGlobal>(
    rt: &R,
    rows: u32,
    size: u32,
    ended: bool,
) -> Result<()> {
    let mut day = begun(rt.alloc())?;
    fill(rt.alloc(), &mut day, rows, size)?;
    if !ended {
        print_status(rt)?;
        println!(rt; "open {}", day.date())?;
        return Ok(());
    }
    let order = day.close_order(rt.alloc())?;
    let ended = day.close(order);
    print_status(rt)?;
    println!(rt; "ended {}", ended.date())?;
    Ok(())
}
