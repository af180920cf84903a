//! Times the appends of a journal and its load, over a disk in memory.
//!
//! `journal_bench N` appends N records of 80 bytes, loads the journal, and prints the milliseconds of both:
//!
//! ```text
//! $ rt run -- 1000000
//! append 1000000: 83100 us, done true
//! load 1000000: 98000 us
//! ```
//!
//! Each append is synced as one of a plant is. `done` says whether all were made. `log_bench` times the log above it, which
//! also judges each update.
//!
//! The disk in memory keeps what its file holds, so memory is that of the file and of what the load reads. The program
//! proves nothing about time, and nothing stands on it.
#![tactic(auto)]

ghost use Rattle.std.specs.Prelude.{◌≡◌, ◌<◌, length, IfOk};
ghost use Rattle.gated_journal.specs.Journal.{HasLastGate};
ghost use Rattle.outside_mem.specs.MemDisk.{shown_by};

use gated_journal::{Journal, Payload, State};
use outside_mem::MemDisk;
use q_values::NoMemory;
use std::alloc::Global;
use std::rt::Clock;
use std::time::Instant;
use std::{env, io};

const FILE: u64 = 1;

const PAYLOAD: [u8; 80] = [7; 80];

fn payload(alloc: Global) -> Result<Payload, NoMemory>
    ensures { IfOk result (λ p. 0 < length p.bytes) }
{
    let mut payload = Payload::with_room(alloc, 80)?;
    payload.fill(&PAYLOAD);
    Ok(payload)
}

// Appends the payload `count` times, and says whether each append succeeded.
fn append_all(disk: &mut MemDisk, journal: &mut Journal, payload: &Payload, count: u64) -> bool
    requires clean { journal.old.state ≡ State.Clean }
    requires some { 0 < length payload.now.bytes }
    requires has_gate { HasLastGate (shown_by disk.old) journal.old }
{
    for _ in 0..count {
        if journal.append(disk, payload).is_err() {
            return false;
        }
    }
    true
}

fn fill(alloc: Global, disk: &mut MemDisk, count: u64) -> Result<bool, NoMemory> {
    let payload = payload(alloc)?;
    let Ok(mut journal) = Journal::fresh(disk, FILE) else {
        return Ok(false);
    };
    Ok(append_all(disk, &mut journal, &payload, count))
}

fn load(alloc: Global, disk: &mut MemDisk) -> Option<usize> {
    match Journal::load(alloc, disk, FILE) {
        Ok((_journal, records)) => Some(records.len()),
        Err(_refusal) => None,
    }
}

fn timed<R: Clock + Print>(rt: &R, alloc: Global, count: u64) -> io::Result<()> {
    let mut disk = MemDisk::new(alloc);
    let start = Instant::now(rt)?;
    let filled = fill(alloc, &mut disk, count).is_ok();
    let micros = start.elapsed(rt)?.as_micros();
    println!(rt; "append {count}: {micros} us, done {filled}")?;
    let start = Instant::now(rt)?;
    let found = load(alloc, &mut disk).unwrap_or(0);
    let micros = start.elapsed(rt)?.as_micros();
    println!(rt; "load {found}: {micros} us")
}

fn main(rt: HostRuntime) -> io::Result<()> {
    let mut words = env::args(&rt)?;
    let _program = words.next();
    let Some(word) = words.next() else {
        return println!(rt; "give a number of records");
    };
    match word.as_str().parse::<u64>() {
        Ok(count) => timed(&rt, rt.alloc(), count),
        Err(_fault) => println!(rt; "give a number of records"),
    }
}
