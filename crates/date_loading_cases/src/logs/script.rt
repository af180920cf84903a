//! The script, and what a restart finds of it.
ghost use Rattle.std.specs.Prelude.{◌≡◌, ◌<◌, length, IfSome};
ghost use Rattle.outside_mem.specs.MemDisk.{shown_by};
ghost use Rattle.date_logs.specs.Stores.{IsReady};

use date_logs::{DateLogs, format, log_file};
use gated_journal::{Journal, Payload};
use outside_mem::MemDisk;
use partition_set::{Manifest, ManifestRecord};
use schema_text::built_in_schema;
use std::alloc::Global;
use std::process::Abort;

/// An update for each letter, and a roll for each `R`.
pub const SCRIPT: [u8; 22] = *b"abcdefgRhijklmnRopqrst";

/// The number of calls of the disk that the script makes: four for an update, and seven for a roll.
pub const CALLS: u64 = 94;

// 2024.01.02
const FIRST: i32 = 8767;

// One row of `trade`, `(0D09:30;`KX;10050;0)`, of the pass 1.
const CHUNK: [u8; 83] = *b"\x01\0\0\0\0\0\0\0\0\0\x03\0\0\0\xf5upd\0\xf5trade\0\0\0\x04\0\0\0\
\x10\0\x01\0\0\0\x00\xf0\xd9\xce\x1a\x1f\0\0\x0b\0\x01\0\0\0KX\0\
\x07\0\x01\0\0\0\x42\x27\0\0\0\0\0\0\x07\0\x01\0\0\0\x00\0\0\0\0\0\0\0";

// Where the size is in the chunk.
const SIZE: usize = 75;

// The chunk with this letter as its size.
fn chunk(rt: &impl Abort, alloc: Global, letter: u8) -> Payload
    ensures { 0 < length result.bytes }
{
    let mut bytes = CHUNK;
    bytes[SIZE] = letter;
    let mut payload = Payload::with_room(alloc, 83).expect(rt, "memory");
    payload.fill(&bytes);
    payload
}

/// A disk with the built-in tables and the first date.
pub fn started(rt: &impl Abort, alloc: Global) -> Option<(MemDisk, DateLogs)>
    ensures { IfSome result (λ x. IsReady (shown_by x.0) x.1) }
{
    let schema = built_in_schema(alloc).expect(rt, "memory");
    let mut disk = MemDisk::new(alloc);
    if format(alloc, &mut disk, &schema).is_err() {
        return None;
    }
    let Ok(mut manifest) = Manifest::load(alloc, &mut disk) else {
        return None;
    };
    manifest.reserve().expect(rt, "memory");
    if !manifest.may_open(0, FIRST) {
        return None;
    }
    match DateLogs::begin(manifest, &mut disk, 0, FIRST) {
        Ok(logs) => Some((disk, logs)),
        Err(_fault) => None,
    }
}

/// Adds the entry of a letter, where the open date is this one; whether that succeeded.
pub fn add(
    rt: &impl Abort,
    alloc: Global,
    disk: &mut MemDisk,
    logs: &mut DateLogs,
    date: i32,
    letter: u8,
) -> bool
    requires { IsReady (shown_by disk.old) logs.old }
    ensures { IsReady (shown_by disk.new) logs.new }
{
    if letter != b'R' {
        let payload = chunk(rt, alloc, letter);
        return logs.append(disk, &payload).is_ok();
    }
    let next = date.wrapping_add(1);
    logs.reserve().expect(rt, "memory");
    if !logs.may_open(1, next) {
        return false;
    }
    logs.roll(disk, 1, next).is_ok()
}

/// Goes through the script, trying each entry this many times at most; the number of entries that were added.
pub fn play(
    rt: &impl Abort,
    alloc: Global,
    disk: &mut MemDisk,
    logs: &mut DateLogs,
    tries: usize,
) -> usize
    requires { IsReady (shown_by disk.old) logs.old }
{
    let mut date = FIRST;
    for (place, letter) in SCRIPT.iter().enumerate() {
        let mut added = false;
        for _ in 0..tries {
            if !added {
                added = add(rt, alloc, disk, logs, date, *letter);
            }
        }
        if !added {
            return place;
        }
        if *letter == b'R' {
            date = date.wrapping_add(1);
        }
    }
    SCRIPT.len()
}

// Appends the letters of a date's log; whether there is a log.
fn read_log(
    rt: &impl Abort,
    alloc: Global,
    disk: &mut MemDisk,
    date: i32,
    text: &mut Vec<u8>,
) -> bool {
    if date < FIRST {
        return false;
    }
    let Ok((_journal, records)) = Journal::load(alloc, disk, log_file(date)) else {
        return false;
    };
    for payload in records.iter() {
        text.push(*payload.get(SIZE).unwrap_or(&0))
            .expect(rt, "memory");
    }
    true
}

/// What a restart finds, as the letters of the script; nothing where a file is damaged.
pub fn found(rt: &impl Abort, alloc: Global, disk: &mut MemDisk) -> Option<Vec<u8>> {
    let mut text = Vec::new(alloc);
    let Ok(manifest) = Manifest::load(alloc, disk) else {
        return None;
    };
    for record in manifest.records() {
        if let ManifestRecord::Opened { by: _by, date } = record {
            if *date > FIRST {
                text.push(b'R').expect(rt, "memory");
            }
            if !read_log(rt, alloc, disk, *date, &mut text) {
                return None;
            }
        }
    }
    Some(text)
}

/// Whether a restart finds the first entries of the script, this many or one more.
pub fn finds(rt: &impl Abort, alloc: Global, disk: &mut MemDisk, added: usize) -> bool {
    match found(rt, alloc, disk) {
        Some(text) => SCRIPT.starts_with(&text)
            && (text.len() == added || text.len() == added.wrapping_add(1)),
        None => false,
    }
}
