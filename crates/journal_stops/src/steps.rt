//! Parts of the tests: a journal with one record, calls of it that fail or succeed, and what a load finds.
ghost use Rattle.std.specs.Prelude.{◌≡◌, ◌<◌, ◌≤◌, length, IfSome};
ghost use Rattle.gated_journal.specs.Journal.{HasLastGate};
ghost use Rattle.outside_mem.specs.MemDisk.{shown_by};

use gated_journal::{Journal, JournalRefusal, Payload, Records, State};
use outside_mem::{Calling, Callings, Leaving, MemDisk};
use q_values::NoMemory;
use std::alloc::Global;
use std::process::Abort;

/// The number of the journal's file.
pub const FILE: u64 = 7;

/// A payload of these bytes.
pub fn payload(rt: &impl Abort, alloc: Global, bytes: &[u8]) -> Payload
    requires some { 0 < length bytes.now }
    requires small { length bytes.now ≤ 16 }
    ensures { result.bytes ≡ bytes.now }
{
    let mut payload = Payload::with_room(alloc, 16).expect(rt, "memory");
    payload.fill(bytes);
    payload
}

/// A disk with a journal of one record, `ab`.
pub fn started(rt: &impl Abort, alloc: Global) -> Option<MemDisk> {
    let first = payload(rt, alloc, b"ab");
    let mut disk = MemDisk::new(alloc);
    let Ok(mut journal) = Journal::fresh(&mut disk, FILE) else {
        return None;
    };
    if journal.append(&mut disk, &first).is_err() {
        return None;
    }
    Some(disk)
}

/// A disk, and the journal that was loaded from it.
#[derive(Drop)]
pub struct OnDisk {
    pub disk: MemDisk,
    pub journal: Journal,
}

/// The disk of `started` and its journal, loaded.
pub fn loaded(rt: &impl Abort, alloc: Global) -> Option<OnDisk>
    ensures clean { IfSome result (λ l. l.journal.state ≡ State.Clean) }
    ensures has_gate { IfSome result (λ l. HasLastGate (shown_by l.disk) l.journal) }
{
    let Some(mut disk) = started(rt, alloc) else {
        return None;
    };
    match Journal::load(alloc, &mut disk, FILE) {
        Ok((journal, _records)) => Some(OnDisk { disk, journal }),
        Err(_refusal) => None,
    }
}

/// An append of `cde` whose call after `place` others goes as `how` says; whether it fails.
pub fn fails_append(
    rt: &impl Abort,
    alloc: Global,
    it: &mut OnDisk,
    place: usize,
    how: Calling,
) -> bool
    requires clean { it.old.journal.state ≡ State.Clean }
    requires has_gate { HasLastGate (shown_by it.old.disk) it.old.journal }
    ensures has_gate { HasLastGate (shown_by it.new.disk) it.new.journal }
{
    let second = payload(rt, alloc, b"cde");
    let callings = one_failing(rt, alloc, place, how);
    it.disk.plan(callings, None);
    it.journal.append(&mut it.disk, &second).is_err()
}

/// A repair whose call after `place` others goes as `how` says; whether it fails.
pub fn fails_mend(
    rt: &impl Abort,
    alloc: Global,
    it: &mut OnDisk,
    place: usize,
    how: Calling,
) -> bool
    requires has_gate { HasLastGate (shown_by it.old.disk) it.old.journal }
    ensures has_gate { HasLastGate (shown_by it.new.disk) it.new.journal }
{
    it.disk.plan(one_failing(rt, alloc, place, how), None);
    it.journal.mend(&mut it.disk).is_err()
}

/// A repair none of whose calls fails; whether it succeeds.
pub fn mends(alloc: Global, it: &mut OnDisk) -> bool
    requires has_gate { HasLastGate (shown_by it.old.disk) it.old.journal }
    ensures has_gate { HasLastGate (shown_by it.new.disk) it.new.journal }
{
    it.disk.plan(Callings::new(alloc), None);
    it.journal.mend(&mut it.disk).is_ok()
}

/// Calls that succeed, but for one after `place` others, which goes as `how` says.
pub fn one_failing(rt: &impl Abort, alloc: Global, place: usize, how: Calling) -> Callings {
    let mut callings = Callings::new(alloc);
    for _ in 0..place {
        callings.push(Calling::Succeeds).expect(rt, "memory");
    }
    callings.push(how).expect(rt, "memory");
    callings
}

// The payloads, a comma after each.
fn text_of(rt: &impl Abort, alloc: Global, records: &Records) -> Vec<u8> {
    let mut text = Vec::new(alloc);
    for payload in records.iter() {
        text.extend_from_slice(payload).expect(rt, "memory");
        text.push(b',').expect(rt, "memory");
    }
    text
}

/// Whether a load finds these payloads.
pub fn finds(rt: &impl Abort, alloc: Global, disk: &mut MemDisk, wanted: &[u8]) -> bool {
    match Journal::load(alloc, disk, FILE) {
        Ok((_journal, records)) => text_of(rt, alloc, &records).as_slice() == wanted,
        Err(JournalRefusal::NoMemory) => panic!(rt; "no memory"),
        Err(_refusal) => false,
    }
}

/// Whether a load finds these payloads in what a crash leaves.
pub fn leaves(
    rt: &impl Abort,
    alloc: Global,
    disk: &MemDisk,
    leaving: Leaving,
    wanted: &[u8],
) -> bool {
    let mut left = disk.restart(alloc, leaving).expect(rt, "memory");
    finds(rt, alloc, &mut left, wanted)
}
