//! The verbs, timed in nanoseconds: one line for each call, with the kind of the items, the verb, its nanoseconds and the
//! sum of its result.
ghost use Rattle.std.specs.Prelude.{IsTrue};
ghost use Rattle.q_verbs.specs.Aggregates.{is_aggregate};
ghost use Rattle.q_verbs.specs.Lists.{is_unary};
ghost use Rattle.q_verbs.specs.Places.{is_by_place};
ghost use Rattle.q_verbs.specs.Sides.{AreBeside};

use crate::made;
use anyhow::{Result, bail};
use q_binary::binary;
use q_filter::places_where;
use q_matching::{is_in, is_like, is_within};
use q_unary::{aggregate, unary};
use q_values::{Atom, IntegerKind, Kind, Vector};
use q_verbs::{Side, Verb, Verb1, result_kind, result_kind1};
use std::alloc::Global;
use std::rt::Clock;
use std::time::Instant;

/// How often each call is timed.
pub const ROUNDS: u32 = 5;

/// Symbols that begin with `S4`.
const PREFIX: &[u8] = b"S4*";

/// An atom beside a column.
const THREE_HUNDRED: Atom = Atom::Integer(300);

/// The least and the greatest long of a range.
const THREE: Atom = Atom::Long(3);

const TEN: Atom = Atom::Long(10);

/// A tenth of the numbers of 24 bits are below it.
const A_TENTH: Atom = Atom::Integer(1_677_722);

fn number_of(atom: &Atom) -> i64 {
    match atom {
        Atom::Integer(x) => i64::from(*x),
        Atom::Long(x) => *x,
        _ => 0,
    }
}

/// The sum of a column.
pub fn sum_of(alloc: Global, items: &Vector) -> Result<i64> {
    match result_kind1(Verb1::Sum, items.kind()) {
        Some(_) => Ok(number_of(&aggregate(alloc, Verb1::Sum, items)?)),
        None => bail!("no sum"),
    }
}

fn aggregate_timed<R: Clock + Print>(
    rt: &R,
    alloc: Global,
    name: &str,
    verb: Verb1,
    items: &Vector,
) -> Result<()>
    requires { IsTrue (is_aggregate verb) }
{
    if result_kind1(verb, items.kind()).is_none() {
        bail!("no such kind");
    }
    let start = Instant::now(rt)?;
    let found = aggregate(alloc, verb, items)?;
    let nanos = start.elapsed(rt)?.as_nanos();
    let sum = number_of(&found);
    println!(rt; "{name} {nanos} {sum}")?;
    Ok(())
}

fn unary_timed<R: Clock + Print>(
    rt: &R,
    alloc: Global,
    name: &str,
    verb: Verb1,
    items: &Vector,
) -> Result<()>
    requires { IsTrue (is_unary verb) }
{
    if result_kind1(verb, items.kind()).is_none() {
        bail!("no such kind");
    }
    let start = Instant::now(rt)?;
    let found = unary(alloc, verb, items)?;
    let nanos = start.elapsed(rt)?.as_nanos();
    let sum = sum_of(alloc, &found)?;
    println!(rt; "{name} {nanos} {sum}")?;
    Ok(())
}

fn binary_timed<R: Clock + Print>(
    rt: &R,
    alloc: Global,
    name: &str,
    verb: Verb,
    left: &Side<'_>,
    right: &Side<'_>,
) -> Result<()>
    requires verb { IsTrue (is_by_place verb) }
    requires beside { AreBeside left.now right.now }
{
    if result_kind(verb, left.kind(), right.kind()).is_none() {
        bail!("no such kinds");
    }
    let start = Instant::now(rt)?;
    let found = binary(alloc, verb, left, right)?;
    let nanos = start.elapsed(rt)?.as_nanos();
    let sum = sum_of(alloc, &found)?;
    println!(rt; "{name} {nanos} {sum}")?;
    Ok(())
}

/// Times a verb between two columns.
pub fn columns_timed<R: Clock + Print>(
    rt: &R,
    alloc: Global,
    name: &str,
    verb: Verb,
    left: &Vector,
    right: &Vector,
) -> Result<()>
    requires { IsTrue (is_by_place verb) }
{
    if left.len() != right.len() {
        bail!("no such columns");
    }
    binary_timed(
        rt,
        alloc,
        name,
        verb,
        &Side::Column(left),
        &Side::Column(right),
    )
}

/// Times a verb between a column and an atom.
pub fn one_timed<R: Clock + Print>(
    rt: &R,
    alloc: Global,
    name: &str,
    verb: Verb,
    left: &Vector,
    right: &Atom,
) -> Result<()>
    requires { IsTrue (is_by_place verb) }
{
    let left = Side::Column(left);
    binary_timed(rt, alloc, name, verb, &left, &Side::Atom(right))
}

/// Filters a column by booleans and gathers what is kept. Gives that, and the nanoseconds that it took.
pub fn filtered<R: Clock>(
    rt: &R,
    alloc: Global,
    items: &Vector,
    booleans: &Vector,
) -> Result<(Vector, u128)> {
    if booleans.kind() != Kind::Boolean || items.len() != booleans.len() {
        bail!("no such columns");
    }
    let start = Instant::now(rt)?;
    let places = places_where(alloc, booleans)?;
    let found = items.gather(alloc, &places)?;
    Ok((found, start.elapsed(rt)?.as_nanos()))
}

/// Times `in` among the items of a column.
pub fn in_timed<R: Clock + Print>(
    rt: &R,
    alloc: Global,
    name: &str,
    left: &Vector,
    items: &Vector,
) -> Result<()> {
    if result_kind(Verb::In, left.kind(), items.kind()).is_none() {
        bail!("no such kinds");
    }
    let start = Instant::now(rt)?;
    let found = is_in(alloc, &Side::Column(left), &Side::Column(items))?;
    let nanos = start.elapsed(rt)?.as_nanos();
    let sum = sum_of(alloc, &found)?;
    println!(rt; "{name} {nanos} {sum}")?;
    Ok(())
}

/// Times `like` with a pattern that a symbol begins with.
pub fn like_timed<R: Clock + Print>(
    rt: &R,
    alloc: Global,
    name: &str,
    items: &Vector,
) -> Result<()> {
    if items.kind() != Kind::Symbol {
        bail!("no symbols");
    }
    let start = Instant::now(rt)?;
    let found = is_like(alloc, &Side::Column(items), PREFIX)?;
    let nanos = start.elapsed(rt)?.as_nanos();
    let sum = sum_of(alloc, &found)?;
    println!(rt; "{name} {nanos} {sum}")?;
    Ok(())
}

fn aggregates_timed<R: Clock + Print>(rt: &R, alloc: Global, items: &Vector) -> Result<()> {
    aggregate_timed(rt, alloc, "longs sum", Verb1::Sum, items)?;
    aggregate_timed(rt, alloc, "longs min", Verb1::Min, items)?;
    aggregate_timed(rt, alloc, "longs max", Verb1::Max, items)?;
    Ok(())
}

fn longs_timed<R: Clock + Print>(
    rt: &R,
    alloc: Global,
    left: &Vector,
    right: &Vector,
) -> Result<()> {
    columns_timed(rt, alloc, "longs plus", Verb::Add, left, right)?;
    columns_timed(rt, alloc, "longs above", Verb::Gt, left, right)?;
    unary_timed(rt, alloc, "longs neg", Verb1::Neg, left)?;
    let side = Side::Column(left);
    binary_timed(
        rt,
        alloc,
        "longs above_300",
        Verb::Gt,
        &side,
        &Side::Atom(&THREE_HUNDRED),
    )?;
    binary_timed(
        rt,
        alloc,
        "longs plus_300",
        Verb::Add,
        &side,
        &Side::Atom(&THREE_HUNDRED),
    )?;
    binary_timed(
        rt,
        alloc,
        "longs xbar_300",
        Verb::Xbar,
        &Side::Atom(&THREE_HUNDRED),
        &side,
    )?;
    Ok(())
}

fn integers_timed<R: Clock + Print>(
    rt: &R,
    alloc: Global,
    left: &Vector,
    right: &Vector,
) -> Result<()> {
    columns_timed(rt, alloc, "ints plus", Verb::Add, left, right)?;
    columns_timed(rt, alloc, "ints lesser", Verb::Lesser, left, right)?;
    unary_timed(rt, alloc, "ints neg", Verb1::Neg, left)?;
    let side = Side::Column(left);
    binary_timed(
        rt,
        alloc,
        "ints above_300",
        Verb::Gt,
        &side,
        &Side::Atom(&THREE_HUNDRED),
    )?;
    binary_timed(
        rt,
        alloc,
        "ints xbar_300",
        Verb::Xbar,
        &Side::Atom(&THREE_HUNDRED),
        &side,
    )?;
    Ok(())
}

fn numbers_reported<R: Clock + Print>(rt: &R, alloc: Global, count: u32) -> Result<()> {
    let left = made::longs(alloc, count, made::STEP)?;
    let right = made::longs(alloc, count, made::OTHER_STEP)?;
    for _ in 0..ROUNDS {
        aggregates_timed(rt, alloc, &left)?;
        longs_timed(rt, alloc, &left, &right)?;
    }
    Ok(())
}

fn integers_reported<R: Clock + Print>(rt: &R, alloc: Global, count: u32) -> Result<()> {
    let left = made::integers(alloc, count, IntegerKind::Integer, made::STEP)?;
    let right = made::integers(alloc, count, IntegerKind::Integer, made::OTHER_STEP)?;
    for _ in 0..ROUNDS {
        integers_timed(rt, alloc, &left, &right)?;
    }
    Ok(())
}

fn dates_reported<R: Clock + Print>(rt: &R, alloc: Global, count: u32) -> Result<()> {
    let left = made::integers(alloc, count, IntegerKind::Date, made::STEP)?;
    let right = made::integers(alloc, count, IntegerKind::Date, made::OTHER_STEP)?;
    for _ in 0..ROUNDS {
        columns_timed(rt, alloc, "dates above", Verb::Gt, &left, &right)?;
    }
    Ok(())
}

/// Booleans of which a tenth holds.
pub fn a_tenth(alloc: Global, count: u32) -> Result<Vector> {
    let others = made::integers(alloc, count, IntegerKind::Integer, made::STEP)?;
    if result_kind(Verb::Lt, others.kind(), Kind::Integer).is_none() {
        bail!("no such kinds");
    }
    let side = Side::Column(&others);
    let booleans = binary(alloc, Verb::Lt, &side, &Side::Atom(&A_TENTH))?;
    Ok(booleans)
}

fn filter_reported<R: Clock + Print>(rt: &R, alloc: Global, count: u32) -> Result<()> {
    let items = made::longs(alloc, count, made::STEP)?;
    let booleans = a_tenth(alloc, count)?;
    for _ in 0..ROUNDS {
        let (found, nanos) = filtered(rt, alloc, &items, &booleans)?;
        let sum = sum_of(alloc, &found)?;
        println!(rt; "longs filter {nanos} {sum}")?;
    }
    Ok(())
}

/// Times `within` between two atoms.
pub fn within_timed<R: Clock + Print>(
    rt: &R,
    alloc: Global,
    name: &str,
    items: &Vector,
    low: &Atom,
    high: &Atom,
) -> Result<()> {
    if items.kind() != low.kind() || items.kind() != high.kind() {
        bail!("no such kinds");
    }
    let start = Instant::now(rt)?;
    let found = is_within(alloc, &Side::Column(items), low, high)?;
    let nanos = start.elapsed(rt)?.as_nanos();
    let sum = sum_of(alloc, &found)?;
    println!(rt; "{name} {nanos} {sum}")?;
    Ok(())
}

fn codes_reported<R: Clock + Print>(rt: &R, alloc: Global, count: u32) -> Result<()> {
    let codes = made::codes(alloc, count)?;
    let five = made::five(alloc)?;
    for _ in 0..ROUNDS {
        in_timed(rt, alloc, "longs in", &codes, &five)?;
        within_timed(rt, alloc, "longs within", &codes, &THREE, &TEN)?;
    }
    Ok(())
}

/// Times the verbs over `count` longs, ints and dates.
pub fn report_longs<R: Clock + Print + AllocGlobal>(rt: &R, count: u32) -> Result<()> {
    let alloc = rt.alloc();
    numbers_reported(rt, alloc, count)?;
    integers_reported(rt, alloc, count)?;
    dates_reported(rt, alloc, count)?;
    filter_reported(rt, alloc, count)?;
    codes_reported(rt, alloc, count)?;
    Ok(())
}
