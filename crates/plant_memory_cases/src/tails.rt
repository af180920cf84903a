//! Tails: the entries from an index on, compared with what was logged.

use crate::plants::{DATE, HALF_PAST_NINE, NOW, TRADE, begun, refusal_by, trade};
use day_rows::Entry;
use plant_memory::{Memory, Tail};
use q_values::{Column, Columns, NANOSECONDS_PER_DAY};
use std::alloc::Global;
use std::process::Abort;

// What a plant is asked to log.
#[derive(Clone, Copy)]
enum Step {
    // an update of one row, with this price
    Trade(i64),
    // the end of the open date
    Roll,
    // a disk fault
    Fault,
}

// A moment on the memory's open date.
fn moment(memory: &Memory) -> i64 {
    let days = i64::from(memory.date()).wrapping_sub(i64::from(DATE));
    NOW.wrapping_add(days.wrapping_mul(NANOSECONDS_PER_DAY))
}

fn logs_update(rt: &impl Abort, alloc: Global, memory: &mut Memory, by: u32, price: i64) -> bool {
    let request = trade(rt, alloc, HALF_PAST_NINE, b"a", price, 1);
    let now = moment(memory);
    refusal_by(rt, alloc, memory, by, &request, now).is_none()
}

fn logs_roll(rt: &impl Abort, alloc: Global, memory: &mut Memory, by: u32) -> bool {
    if memory.date() >= 106_751 {
        return false;
    }
    let next = memory.date() + 1;
    let roll = memory
        .prepare_roll(alloc, u64::from(by), next)
        .expect(rt, "memory");
    let _place = memory.commit_roll(roll);
    true
}

fn logs_fault(rt: &impl Abort, alloc: Global, memory: &mut Memory, by: u32) -> bool {
    let request = trade(rt, alloc, HALF_PAST_NINE, b"b", 10, 1);
    let now = moment(memory);
    match memory.prepare(alloc, u64::from(by), &request, now) {
        Ok(_update) if memory.length() < 1_000_000 => {
            let _place = memory.note_fault(u64::from(by));
            true
        }
        _ => false,
    }
}

fn logs_step(rt: &impl Abort, alloc: Global, memory: &mut Memory, by: u32, step: Step) -> bool {
    match step {
        Step::Trade(price) => logs_update(rt, alloc, memory, by, price),
        Step::Roll => logs_roll(rt, alloc, memory, by),
        Step::Fault => logs_fault(rt, alloc, memory, by),
    }
}

// Logs the steps, each by the pass with its index. Whether all of them were logged.
fn logs(rt: &impl Abort, alloc: Global, memory: &mut Memory, steps: &[Step]) -> bool {
    let mut by = 0u32;
    for step in steps {
        if !logs_step(rt, alloc, memory, by, *step) {
            return false;
        }
        by = by.wrapping_add(1);
    }
    memory.length() == steps.len() as u64
}

// The date that is open after this many of the steps.
fn date_after(steps: &[Step], count: usize) -> i32 {
    let mut date = DATE;
    for step in steps.iter().take(count) {
        if let Step::Roll = step {
            date = date.wrapping_add(1);
        }
    }
    date
}

fn is_trade(columns: &Columns, price: i64) -> bool {
    match columns.get(2).map(|column| column.column()) {
        Some(Column::Longs(_, items)) => columns.len() == 4
            && items.as_slice() == [price].as_slice(),
        _ => false,
    }
}

// Whether the entry is what the step of the pass `pass` logs; `open` is the date that is open after it.
fn is_logged(entry: &Entry, step: Step, pass: u64, open: i32) -> bool {
    match (entry, step) {
        (Entry::Upd { by, table, columns }, Step::Trade(price)) => {
            *by == pass && *table == TRADE && is_trade(columns, price)
        }
        (Entry::Roll { by, date }, Step::Roll) => *by == pass && *date == open,
        (Entry::Fault { by }, Step::Fault) => *by == pass,
        _ => false,
    }
}

// Whether these are the entries of the steps from the index `from` on.
fn are_logged(entries: &[Entry], steps: &[Step], from: usize) -> bool {
    let mut date = date_after(steps, from);
    let mut pass = from as u64;
    for (entry, step) in entries.iter().zip(steps.iter().skip(from)) {
        if let Step::Roll = step {
            date = date.wrapping_add(1);
        }
        if !is_logged(entry, *step, pass, date) {
            return false;
        }
        pass = pass.wrapping_add(1);
    }
    pass == steps.len() as u64 && entries.len() == steps.len().wrapping_sub(from)
}

// Whether a tail has the entries of these steps from the index `from` on.
fn has_steps(rt: &impl Abort, alloc: Global, tail: &Tail, steps: &[Step], from: usize) -> bool {
    let entries = tail.entries(alloc).expect(rt, "memory");
    let span = tail.span() == (from as u64, steps.len() as u64);
    let date = tail.date() == date_after(steps, from);
    span && date && tail.schema().len() == 2 && are_logged(entries.as_slice(), steps, from)
}

// The tails of a memory from each of these indices on.
fn tails_of(rt: &impl Abort, alloc: Global, memory: &Memory, spans: &[usize]) -> Vec<Tail> {
    let mut tails = Vec::new(alloc);
    for from in spans {
        let from = *from as u64;
        assert!(rt; from <= memory.length());
        tails
            .push(memory.tail(alloc, from).expect(rt, "memory"))
            .expect(rt, "memory");
    }
    tails
}

fn have_steps(
    rt: &impl Abort,
    alloc: Global,
    tails: &[Tail],
    steps: &[Step],
    spans: &[usize],
) -> bool {
    for (tail, from) in tails.iter().zip(spans) {
        if !has_steps(rt, alloc, tail, steps, *from) {
            return false;
        }
    }
    tails.len() == spans.len()
}

// Whether the tails of a memory that has logged these steps have their entries from each of these indices on, after an
// update and a roll more.
fn gives(
    rt: &impl Abort,
    alloc: Global,
    memory: &mut Memory,
    steps: &[Step],
    spans: &[usize],
) -> bool {
    let logged = logs(rt, alloc, memory, steps);
    let tails = tails_of(rt, alloc, memory, spans);
    let more = logs_update(rt, alloc, memory, 7, 5) && logs_roll(rt, alloc, memory, 7);
    logged && more && have_steps(rt, alloc, &tails, steps, spans)
}

fn tails_give(rt: &impl Abort, alloc: Global, steps: &[Step], spans: &[usize]) -> bool {
    match begun(rt, alloc) {
        Some(mut memory) => gives(rt, alloc, &mut memory, steps, spans),
        None => false,
    }
}

// This many updates, whose prices count from 0.
fn trades(rt: &impl Abort, alloc: Global, count: i64) -> Vec<Step> {
    let mut steps = Vec::new(alloc);
    for price in 0..count {
        steps.push(Step::Trade(price)).expect(rt, "memory");
    }
    steps
}

#[test]
fn tail_of_nothing(rt: HostRuntime) {
    assert!(rt; tails_give(&rt, rt.alloc(), &[], &[0]));
}

#[test]
fn tails_of_a_thousand(rt: HostRuntime) {
    let steps = trades(&rt, rt.alloc(), 1_000);
    assert!(rt; tails_give(&rt, rt.alloc(), &steps, &[0, 1, 500, 999, 1_000]));
}

#[test]
fn tails_over_blocks(rt: HostRuntime) {
    let steps = trades(&rt, rt.alloc(), 100_000);
    let spans = [
        0, 1_023, 1_024, 1_025, 98_304, 99_327, 99_328, 99_900, 99_999, 100_000,
    ];
    assert!(rt; tails_give(&rt, rt.alloc(), &steps, &spans));
}

// Two rolls, with a fault between two updates, two faults in a row, and one right after each roll.
const MIXED: [Step; 14] = [
    Step::Trade(1),
    Step::Fault,
    Step::Trade(2),
    Step::Trade(3),
    Step::Roll,
    Step::Fault,
    Step::Trade(4),
    Step::Fault,
    Step::Fault,
    Step::Trade(5),
    Step::Roll,
    Step::Fault,
    Step::Trade(6),
    Step::Trade(7),
];

#[test]
fn tails_over_rolls_and_faults(rt: HostRuntime) {
    let spans = [0, 1, 2, 3, 4, 5, 6, 7, 8, 9, 10, 11, 12, 13, 14];
    assert!(rt; tails_give(&rt, rt.alloc(), &MIXED, &spans));
}

// Rolls in a row, faults alone on a date, and a fault at the end.
#[test]
fn tails_over_dates_without_updates(rt: HostRuntime) {
    let steps = [
        Step::Roll,
        Step::Roll,
        Step::Fault,
        Step::Fault,
        Step::Roll,
        Step::Trade(1),
        Step::Fault,
    ];
    assert!(rt; tails_give(&rt, rt.alloc(), &steps, &[0, 1, 2, 3, 4, 5, 6, 7]));
}

// Several blocks on each of two dates, with faults among them.
fn long_dates(rt: &impl Abort, alloc: Global) -> Vec<Step> {
    let mut steps = Vec::new(alloc);
    for i in 0..6_000i64 {
        let step = match i {
            3_000 => Step::Roll,
            100 | 1_500 | 2_999 | 3_001 | 4_500 => Step::Fault,
            _ => Step::Trade(i),
        };
        steps.push(step).expect(rt, "memory");
    }
    steps
}

#[test]
fn tails_over_long_dates(rt: HostRuntime) {
    let steps = long_dates(&rt, rt.alloc());
    let spans = [
        0, 99, 100, 101, 1_024, 1_025, 1_026, 1_499, 1_500, 1_501, 2_998, 2_999, 3_000, 3_001,
        3_002, 3_003, 4_499, 4_500, 4_501, 5_999, 6_000,
    ];
    assert!(rt; tails_give(&rt, rt.alloc(), &steps, &spans));
}
