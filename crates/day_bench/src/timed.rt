//! The steps of a date, timed in nanoseconds: one line for each time, with the step, its nanoseconds and a number.
ghost use Rattle.std.specs.Prelude.{◌≡◌, OnOk};
ghost use Rattle.day_bench.specs.Trades.{HasTrades};

use crate::day::{begun, column, ended_column, fill};
use crate::made::make;
use anyhow::Result;
use day_rows::{ClosedDay, OpenDay};
use std::alloc::Global;
use std::rt::Clock;
use std::time::Instant;

/// How often each step is timed.
const ROUNDS: u32 = 5;

/// How often a column of the open date is read: such a read takes a fraction of a millisecond, so other work shows in most of a
/// few.
const READS: u32 = 50;

/// The index of the column of symbols.
const SYM: u32 = 1;

/// The index of a column of longs.
const PRICE: u32 = 2;

fn copy_timed<R: Clock + Print>(rt: &R, alloc: Global, day: &OpenDay) -> Result<()> {
    let start = Instant::now(rt)?;
    let copied = day.copy(alloc)?;
    let nanos = start.elapsed(rt)?.as_nanos();
    println!(rt; "day copy {nanos} {}", copied.blocks())?;
    Ok(())
}

fn read_timed<R: Clock + Print>(rt: &R, alloc: Global, day: &OpenDay) -> Result<()>
    requires { HasTrades day.now.day }
{
    let start = Instant::now(rt)?;
    let prices = column(alloc, day, PRICE)?;
    let nanos = start.elapsed(rt)?.as_nanos();
    println!(rt; "day read {nanos} {}", prices.len())?;
    Ok(())
}

fn sort_timed<R: Clock + Print>(rt: &R, alloc: Global, day: &OpenDay) -> Result<()>
    requires { HasTrades day.now.day }
{
    let start = Instant::now(rt)?;
    let symbols = column(alloc, day, SYM)?;
    let nanos = start.elapsed(rt)?.as_nanos();
    println!(rt; "day symbols {nanos} {}", symbols.len())?;
    let start = Instant::now(rt)?;
    let places = symbols.order(alloc)?;
    let nanos = start.elapsed(rt)?.as_nanos();
    println!(rt; "day sort {nanos} {}", places.len())?;
    Ok(())
}

fn ended_timed<R: Clock + Print>(rt: &R, alloc: Global, ended: &ClosedDay) -> Result<()>
    requires { HasTrades ended.now }
{
    let start = Instant::now(rt)?;
    let prices = ended_column(alloc, ended, PRICE)?;
    let nanos = start.elapsed(rt)?.as_nanos();
    println!(rt; "day ended {nanos} {}", prices.len())?;
    Ok(())
}

// Ends the day, and reads a column of it, round by round.
fn end_timed<R: Clock + Print>(rt: &R, alloc: Global, day: OpenDay) -> Result<()>
    requires { HasTrades day.day }
{
    let start = Instant::now(rt)?;
    let order = day.close_order(alloc)?;
    let nanos = start.elapsed(rt)?.as_nanos();
    println!(rt; "day order {nanos} {}", day.blocks())?;
    let start = Instant::now(rt)?;
    let ended = day.close(order);
    let nanos = start.elapsed(rt)?.as_nanos();
    println!(rt; "day close {nanos} {}", ended.date())?;
    for _ in 0..ROUNDS {
        ended_timed(rt, alloc, &ended)?;
    }
    Ok(())
}

// Times the steps of the open day, each several times in a row.
fn open_timed<R: Clock + Print>(rt: &R, alloc: Global, day: &OpenDay) -> Result<()>
    requires { HasTrades day.now.day }
{
    for _ in 0..ROUNDS {
        copy_timed(rt, alloc, day)?;
    }
    for _ in 0..READS {
        read_timed(rt, alloc, day)?;
    }
    for _ in 0..ROUNDS {
        sort_timed(rt, alloc, day)?;
    }
    Ok(())
}

// Logs `rows` rows in updates of `size` rows, after making the same updates without logging them.
fn fill_timed<R: Clock + Print>(
    rt: &R,
    alloc: Global,
    day: &mut OpenDay,
    rows: u32,
    size: u32,
) -> Result<()>
    ensures { OnOk result (day.new.day.kinds ≡ day.old.day.kinds) }
{
    let start = Instant::now(rt)?;
    let made = make(alloc, rows, size)?;
    let nanos = start.elapsed(rt)?.as_nanos();
    println!(rt; "day make {nanos} {made}")?;
    let start = Instant::now(rt)?;
    fill(alloc, day, rows, size)?;
    let nanos = start.elapsed(rt)?.as_nanos();
    println!(rt; "day log {nanos} {rows}")?;
    Ok(())
}

/// Logs `rows` rows in updates of `size` rows, and times each step. The day is ended through a copy, which shares its blocks.
pub fn report<R: Clock + Print + AllocGlobal>(rt: &R, rows: u32, size: u32) -> Result<()> {
    let alloc = rt.alloc();
    let mut day = begun(alloc)?;
    fill_timed(rt, alloc, &mut day, rows, size)?;
    open_timed(rt, alloc, &day)?;
    for _ in 0..ROUNDS {
        end_timed(rt, alloc, day.copy(alloc)?)?;
    }
    Ok(())
}
