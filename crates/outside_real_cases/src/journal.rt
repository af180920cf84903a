//! A journal on a real disk.
ghost use Rattle.std.specs.Prelude.{◌≡◌, ◌<◌, length};
ghost use Rattle.gated_journal.specs.Journal.{HasLastGate};

use crate::real::{fresh_path, made, opened};
use gated_journal::{Journal, Payload, State};
use outside_api::Disk;
use std::alloc::Global;
use std::fs;
use std::process::Abort;

const FILE: u64 = 1_008_767;

fn payload(rt: &impl Abort, alloc: Global) -> Payload
    ensures { 0 < length result.bytes }
{
    let mut payload = Payload::with_room(alloc, 80).expect(rt, "memory");
    payload.fill(&[7; 80]);
    payload
}

/// Appends the payload `count` times; whether each append succeeded.
fn append_all<D: Disk>(disk: &mut D, journal: &mut Journal, payload: &Payload, count: u64) -> bool
    requires clean { journal.old.state ≡ State.Clean }
    requires some { 0 < length payload.now.bytes }
    requires has_gate { HasLastGate (D.shown disk.old) journal.old }
{
    for _ in 0..count {
        if journal.append(disk, payload).is_err() {
            return false;
        }
    }
    true
}

fn fill<D: Disk>(rt: &impl Abort, alloc: Global, disk: &mut D, count: u64) -> bool {
    let payload = payload(rt, alloc);
    let Ok(mut journal) = Journal::fresh(disk, FILE) else {
        return false;
    };
    append_all(disk, &mut journal, &payload, count)
}

/// How many records there are, and whether the last is the payload.
fn found<D: Disk>(alloc: Global, disk: &mut D) -> Option<(usize, bool)> {
    let Ok((_journal, records)) = Journal::load(alloc, disk, FILE) else {
        return None;
    };
    let last = records.len().checked_sub(1)?;
    Some((records.len(), records.get(last)? == [7; 80].as_slice()))
}

#[test]
fn thousand_records_are_found_again(rt: HostRuntime) {
    let path = fresh_path(&rt, "journal").expect(&rt, "a folder");
    let mut disk = made(&rt, path.as_str()).expect(&rt, "no disk");
    assert!(rt; fill(&rt, rt.alloc(), &mut disk, 1_000));
    drop(disk);
    let mut disk = opened(&rt, path.as_str()).expect(&rt, "no disk");
    assert_eq!(rt; found(rt.alloc(), &mut disk), Some((1_000, true)));
    assert_eq!(rt; disk.faults(), 0);
    fs::remove_dir_all(&rt, path.as_str()).expect(&rt, "a file");
}
