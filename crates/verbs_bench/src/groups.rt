//! Groups and aggregates by group, timed as `timed` does it.
ghost use Rattle.std.specs.Prelude.{IsTrue};
ghost use Rattle.q_verbs.specs.Aggregates.{is_aggregate};

use crate::made;
use crate::timed::{ROUNDS, sum_of};
use anyhow::{Result, bail};
use q_grouped::aggregate_by;
use q_keys::KeyGroups;
use q_values::{IntegerKind, Vector};
use q_verbs::{Verb1, result_kind1};
use std::alloc::Global;
use std::rt::Clock;
use std::time::Instant;

fn groups_timed<R: Clock + Print>(
    rt: &R,
    alloc: Global,
    name: &str,
    keys: &[Vector; 1],
) -> Result<KeyGroups> {
    let start = Instant::now(rt)?;
    let groups = KeyGroups::of(alloc, keys)?;
    let nanos = start.elapsed(rt)?.as_nanos();
    let count = groups.len();
    println!(rt; "groups {name} {nanos} {count}")?;
    Ok(groups)
}

fn aggregate_timed<R: Clock + Print>(
    rt: &R,
    alloc: Global,
    what: &str,
    name: &str,
    verb: Verb1,
    items: &Vector,
    groups: &KeyGroups,
) -> Result<()>
    requires { IsTrue (is_aggregate verb) }
{
    let codes = groups.codes();
    let Ok(count) = u32::try_from(groups.len()) else {
        bail!("too many groups");
    };
    if result_kind1(verb, items.kind()).is_none() || codes.len() != items.len() {
        bail!("no such column");
    }
    let start = Instant::now(rt)?;
    let found = aggregate_by(alloc, verb, items, codes, count)?;
    let nanos = start.elapsed(rt)?.as_nanos();
    let sum = sum_of(alloc, &found)?;
    println!(rt; "{what} {name} {nanos} {sum}")?;
    Ok(())
}

fn keys_timed<R: Clock + Print>(
    rt: &R,
    alloc: Global,
    name: &str,
    keys: Vector,
    items: &Vector,
) -> Result<()> {
    let keys = [keys];
    for _ in 0..ROUNDS {
        let groups = groups_timed(rt, alloc, name, &keys)?;
        aggregate_timed(rt, alloc, "sum_by", name, Verb1::Sum, items, &groups)?;
        aggregate_timed(rt, alloc, "last_by", name, Verb1::Last, items, &groups)?;
        aggregate_timed(rt, alloc, "max_by", name, Verb1::Max, items, &groups)?;
    }
    Ok(())
}

/// Times groups of `count` rows by 100 symbols, by 100,000 symbols and by 1,000 dates, and aggregates of longs by them.
pub fn report_groups<R: Clock + Print + AllocGlobal>(rt: &R, count: u32) -> Result<()> {
    let alloc = rt.alloc();
    let items = made::integers(alloc, count, IntegerKind::Integer, made::OTHER_STEP)?;
    keys_timed(
        rt,
        alloc,
        "symbols_100",
        made::names(alloc, count, 100)?,
        &items,
    )?;
    keys_timed(
        rt,
        alloc,
        "symbols_100000",
        made::names(alloc, count, 100_000)?,
        &items,
    )?;
    keys_timed(rt, alloc, "dates", made::dates(alloc, count)?, &items)
}
