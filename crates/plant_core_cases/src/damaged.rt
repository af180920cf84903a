//! A log whose file was spoiled.

use crate::closed::one_update;
use date_loading::LoadRefusal;
use outside_api::Disk;
use outside_mem::MemDisk;
use std::alloc::Global;
use std::process::Abort;
use std::sync::Wait;
use test_plants::{FIRST, NINE_THIRTY, Row, load};

// The file of the first date's log.
const LOG: u64 = 1_008_767;

const ROW: Row = (NINE_THIRTY, "KX", 10_050, 200);

// Whether the log of one update has 97 bytes, with the length of the update's chunk at 9, and the next gate at the end.
fn is_one_chunk(log: &[u8]) -> bool {
    log.len() == 97 && &log[9..13] == b"\x53\0\0\0".as_slice() && log[96] == 0
}

fn first_is_one_chunk<R: Abort + Wait>(rt: &R, alloc: Global) -> bool {
    match one_update(rt, alloc, ROW) {
        Some(disk) => is_one_chunk(disk.bytes_of(LOG)),
        None => false,
    }
}

#[test]
fn first_log(rt: HostRuntime) {
    assert!(rt; first_is_one_chunk(&rt, rt.alloc()));
}

// Truncates the log; whether that succeeded.
fn cut(disk: &mut MemDisk, size: u64) -> bool {
    let long = disk.bytes_of(LOG).len() as u64;
    size <= long && disk.cut(LOG, size).is_ok() && disk.sync(LOG).is_ok()
}

// Puts the bytes into the log; whether that succeeded.
fn put(disk: &mut MemDisk, at: u64, bytes: &[u8]) -> bool {
    let long = disk.bytes_of(LOG).len() as u64;
    at <= long && disk.write_at(LOG, at, bytes).is_ok() && disk.sync(LOG).is_ok()
}

// What a load finds: the number of entries, a damaged log, or no number for another pass.
#[derive(Clone, Copy, PartialEq)]
enum Found {
    Entries(u64),
    Damaged(i32, u64, u64),
    Spent,
    Other,
}

fn found_of(why: &LoadRefusal) -> Found {
    match why {
        LoadRefusal::CorruptLog {
            date,
            chunks,
            bytes,
        } => Found::Damaged(*date, *chunks, *bytes),
        LoadRefusal::NumbersSpent => Found::Spent,
        _ => Found::Other,
    }
}

fn found_in(alloc: Global, disk: MemDisk) -> Found {
    match load(alloc, disk, FIRST) {
        Ok(plant) => Found::Entries(plant.length()),
        Err(failure) => found_of(&failure.why),
    }
}

// What a load finds where the log is truncated to this size.
fn after_cut<R: Abort + Wait>(rt: &R, alloc: Global, size: u64) -> Found {
    let Some(mut disk) = one_update(rt, alloc, ROW) else {
        return Found::Other;
    };
    if !cut(&mut disk, size) {
        return Found::Other;
    }
    found_in(alloc, disk)
}

// What a load finds where these bytes stand at this offset of the log.
fn after_put<R: Abort + Wait>(rt: &R, alloc: Global, at: u64, bytes: &[u8]) -> Found {
    let Some(mut disk) = one_update(rt, alloc, ROW) else {
        return Found::Other;
    };
    if !put(&mut disk, at, bytes) {
        return Found::Other;
    }
    found_in(alloc, disk)
}

#[test]
fn damaged_log(rt: HostRuntime) {
    let alloc = rt.alloc();
    assert!(rt; after_cut(&rt, alloc, 97) == Found::Entries(1));
    assert!(rt; after_cut(&rt, alloc, 96) == Found::Damaged(FIRST, 0, 8));
    assert!(rt; after_put(&rt, alloc, 96, b"\xa5") == Found::Damaged(FIRST, 1, 96));
    assert!(rt; after_put(&rt, alloc, 96, b"\0\xa5\xff\xff") == Found::Entries(1));
    let pass = b"\xfe\xff\xff\xff\xff\xff\xff\xff";
    assert!(rt; after_put(&rt, alloc, 13, pass) == Found::Spent);
}
