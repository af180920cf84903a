//! The verbs over columns of symbols, timed as `timed` does it.

use crate::made::{self, NameLength};
use crate::timed::{
    ROUNDS, a_tenth, columns_timed, filtered, in_timed, like_timed, one_timed, within_timed,
};
use anyhow::{Result, bail};
use q_unary::unary;
use q_values::{Atom, Kind, Sym, Vector};
use q_verbs::{Side, Verb, Verb1, result_kind1};
use std::alloc::Global;
use std::rt::Clock;
use std::time::Instant;

// A number that every index of an order takes part in.
fn number_of_order(order: &[usize]) -> i64 {
    let mut number = 0u64;
    for index in order {
        number = number.wrapping_mul(31).wrapping_add(*index as u64);
    }
    number.cast_signed()
}

fn order_timed<R: Clock + Print>(rt: &R, alloc: Global, name: &str, items: &Vector) -> Result<()> {
    let start = Instant::now(rt)?;
    let order = items.order(alloc)?;
    let nanos = start.elapsed(rt)?.as_nanos();
    let number = number_of_order(order.as_slice());
    println!(rt; "{name} {nanos} {number}")?;
    Ok(())
}

// Times the filter of a column of symbols, of which a tenth is kept.
fn filter_timed<R: Clock + Print>(
    rt: &R,
    alloc: Global,
    items: &Vector,
    booleans: &Vector,
) -> Result<()> {
    let (found, nanos) = filtered(rt, alloc, items, booleans)?;
    let count = found.len();
    println!(rt; "symbols filter {nanos} {count}")?;
    Ok(())
}

fn distinct_timed<R: Clock + Print>(
    rt: &R,
    alloc: Global,
    name: &str,
    items: &Vector,
) -> Result<()> {
    if result_kind1(Verb1::Distinct, items.kind()).is_none() {
        bail!("no such kind");
    }
    let start = Instant::now(rt)?;
    let found = unary(alloc, Verb1::Distinct, items)?;
    let nanos = start.elapsed(rt)?.as_nanos();
    let count = found.len();
    println!(rt; "{name} {nanos} {count}")?;
    Ok(())
}

fn names_timed<R: Clock + Print>(
    rt: &R,
    alloc: Global,
    left: &Vector,
    right: &Vector,
    name: &Atom,
    booleans: &Vector,
) -> Result<()> {
    let five = made::first_symbols(alloc, NameLength::Four, 5)?;
    let fifty = made::first_symbols(alloc, NameLength::Four, 50)?;
    for _ in 0..ROUNDS {
        columns_timed(rt, alloc, "symbols equal", Verb::Eq, left, right)?;
        one_timed(rt, alloc, "symbols equal_one", Verb::Eq, left, name)?;
        in_timed(rt, alloc, "symbols in", left, &five)?;
        in_timed(rt, alloc, "symbols in_50", left, &fifty)?;
        like_timed(rt, alloc, "symbols like", left)?;
        order_timed(rt, alloc, "symbols order", left)?;
    }
    // In rounds of its own, so that its columns are in the caches as they are for the one in numpy.
    for _ in 0..ROUNDS {
        filter_timed(rt, alloc, left, booleans)?;
    }
    Ok(())
}

/// Times the verbs over `count` symbols of four letters.
pub fn report_symbols<R: Clock + Print + AllocGlobal>(rt: &R, count: u32) -> Result<()> {
    let alloc = rt.alloc();
    let left = made::symbols(alloc, NameLength::Four, count, made::STEP)?;
    let right = made::symbols(alloc, NameLength::Four, count, made::OTHER_STEP)?;
    if left.len() != right.len() {
        bail!("no such columns");
    }
    let name = Atom::Symbol(Sym::of(alloc, b"S042")?);
    let booleans = a_tenth(alloc, count)?;
    names_timed(rt, alloc, &left, &right, &name, &booleans)
}

/// Times the verbs over `count` symbols of 5 to 20 bytes.
pub fn report_long_symbols<R: Clock + Print + AllocGlobal>(rt: &R, count: u32) -> Result<()> {
    let alloc = rt.alloc();
    let left = made::symbols(alloc, NameLength::FiveToTwenty, count, made::STEP)?;
    let right = made::symbols(alloc, NameLength::FiveToTwenty, count, made::OTHER_STEP)?;
    let fifty = made::first_symbols(alloc, NameLength::FiveToTwenty, 50)?;
    let low = Atom::Symbol(Sym::of(alloc, b"S2")?);
    let high = Atom::Symbol(Sym::of(alloc, b"S6")?);
    for _ in 0..ROUNDS {
        columns_timed(rt, alloc, "long_symbols equal", Verb::Eq, &left, &right)?;
        columns_timed(rt, alloc, "long_symbols below", Verb::Lt, &left, &right)?;
        in_timed(rt, alloc, "long_symbols in_50", &left, &fifty)?;
        like_timed(rt, alloc, "long_symbols like", &left)?;
        within_timed(rt, alloc, "long_symbols within", &left, &low, &high)?;
        distinct_timed(rt, alloc, "long_symbols distinct", &left)?;
        order_timed(rt, alloc, "long_symbols order", &left)?;
    }
    Ok(())
}
