//! The records of a file up to its first fault, and payloads that are built in place.
ghost use Rattle.std.specs.Prelude.{◌≡◌, ◌<◌, ◌≤◌, length};

use crate::steps::FILE;
use gated_journal::{Journal, Payload, ReadRefusal, ValidPrefix};
use outside_api::Disk;
use outside_mem::{Calling, Callings, MemDisk};
use std::alloc::Global;
use std::process::Abort;

// What a reading of these bytes finds; nothing where the disk fails.
fn found_in(alloc: Global, bytes: &[u8]) -> Option<ValidPrefix> {
    let mut disk = MemDisk::new(alloc);
    if disk.write_at(FILE, 0, bytes).is_err() {
        return None;
    }
    Journal::read_valid(alloc, &mut disk, FILE).ok()
}

// Whether a reading finds this number of records, the gate after them at this offset, and this fault.
fn ends_so(alloc: Global, bytes: &[u8], len: usize, end: u64, fault: Option<u64>) -> bool {
    match found_in(alloc, bytes) {
        Some(found) => {
            found.records.len() == len && found.records.end() == end && found.fault == fault
        }
        None => false,
    }
}

// A file of this number of records of three bytes each, and a closed gate.
fn long_file(rt: &impl Abort, alloc: Global, count: usize) -> Vec<u8> {
    let mut file = Vec::from_slice(alloc, b"qtplant1").expect(rt, "memory");
    for _ in 0..count {
        file.extend_from_slice(b"\xa5\x03\0\0\0abc")
            .expect(rt, "memory");
    }
    file.push(0).expect(rt, "memory");
    file
}

// Whether the gates of a file of 100,000 records are where its layout says.
fn finds_gates(rt: &impl Abort, alloc: Global) -> bool {
    let file = long_file(rt, alloc, 100_000);
    let Some(found) = found_in(alloc, file.as_slice()) else {
        return false;
    };
    let records = &found.records;
    if records.len() != 100_000 || found.fault.is_some() {
        return false;
    }
    let gates = records.gate_of(0) == 8
        && records.gate_of(1) == 16
        && records.gate_of(99_999) == 800_000;
    gates && records.end() == 800_008 && records.at(99_999) == b"abc".as_slice()
}

// The payload of these bytes, built in the memory of another.
fn built(rt: &impl Abort, payload: Payload, bytes: &[u8]) -> Payload
    requires some { 0 < length bytes.now }
    requires small { length bytes.now ≤ 16 }
    ensures { result.bytes ≡ bytes.now }
{
    let mut buffer = payload.into_buffer();
    buffer.extend_from_slice(bytes).expect(rt, "memory");
    Payload::from_buffer(buffer).expect(rt, "memory")
}

#[test]
fn first_faults(rt: HostRuntime) {
    let alloc = rt.alloc();
    assert!(rt; ends_so(alloc, b"qtplant1\0", 0, 8, None));
    assert!(rt; ends_so(alloc, b"qtplant1", 0, 8, Some(0)));
    assert!(rt; ends_so(alloc, b"qtplant2\xa5\x01\0\0\0x\0", 0, 8, Some(0)));
    assert!(rt; ends_so(alloc, b"qtplant1\xa5\x01\0\0\0x\0\xff", 1, 14, None));
    assert!(rt; ends_so(alloc, b"qtplant1\xa5\x01\0\0\0x\xa5", 1, 14, Some(14)));
    assert!(rt; ends_so(alloc, b"qtplant1\xa5\x01\0\0\0x", 0, 8, Some(8)));
}

#[test]
fn gates_of_a_long_file(rt: HostRuntime) {
    let found = finds_gates(&rt, rt.alloc());
    assert!(rt; found);
}

#[test]
fn long_file_without_its_last_gate(rt: HostRuntime) {
    let alloc = rt.alloc();
    let mut file = long_file(&rt, alloc, 100_000);
    file.truncate(800_008);
    assert!(rt; ends_so(alloc, file.as_slice(), 99_999, 800_000, Some(800_000)));
}

#[test]
fn reading_faults(rt: HostRuntime) {
    let alloc = rt.alloc();
    let mut disk = MemDisk::new(alloc);
    let mut callings = Callings::new(alloc);
    callings.push(Calling::FailsUndone).expect(&rt, "memory");
    disk.plan(callings, None);
    let refused = Journal::read_valid(alloc, &mut disk, FILE).err();
    assert_eq!(rt; refused, Some(ReadRefusal::DiskFault));
    assert_eq!(rt; disk.faults(), 1);
}

#[test]
fn payload_built_in_place(rt: HostRuntime) {
    let payload = built(
        &rt,
        Payload::with_room(rt.alloc(), 4).expect(&rt, "memory"),
        b"ab",
    );
    assert_eq!(rt; payload.body(), b"\x02\0\0\0ab\0".as_slice());
    let payload = built(&rt, payload, b"c");
    assert_eq!(rt; payload.body(), b"\x01\0\0\0c\0".as_slice());
}
