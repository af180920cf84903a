//! The bytes of a journal, and where they are no journal.
use crate::steps::{FILE, finds, payload, started};
use gated_journal::{Journal, JournalRefusal};
use outside_api::Disk;
use outside_mem::MemDisk;
use std::alloc::Global;
use std::process::Abort;

fn disk_of(alloc: Global, bytes: &[u8]) -> Option<MemDisk> {
    let mut disk = MemDisk::new(alloc);
    if disk.write_at(FILE, 0, bytes).is_err() {
        return None;
    }
    Some(disk)
}

// Whether a load of these bytes is refused with these two numbers.
fn is_corrupt(alloc: Global, file: &[u8], records: u64, bytes: u64) -> bool {
    let Some(mut disk) = disk_of(alloc, file) else {
        return false;
    };
    match Journal::load(alloc, &mut disk, FILE) {
        Ok(_found) => false,
        Err(refusal) => refusal == JournalRefusal::Corrupt { records, bytes },
    }
}

fn reads(rt: &impl Abort, alloc: Global, file: &[u8], wanted: &[u8]) -> bool {
    let Some(mut disk) = disk_of(alloc, file) else {
        return false;
    };
    finds(rt, alloc, &mut disk, wanted)
}

fn bytes_of_two(rt: &impl Abort, alloc: Global) -> Option<MemDisk> {
    let Some(mut disk) = started(rt, alloc) else {
        return None;
    };
    let second = payload(rt, alloc, b"c");
    let Ok((mut journal, _records)) = Journal::load(alloc, &mut disk, FILE) else {
        return None;
    };
    if journal.append(&mut disk, &second).is_err() {
        return None;
    }
    Some(disk)
}

#[test]
fn journal_bytes(rt: HostRuntime) {
    let alloc = rt.alloc();
    let mut fresh = MemDisk::new(alloc);
    let made = Journal::fresh(&mut fresh, FILE).is_ok();
    assert!(rt; made);
    assert_eq!(rt; fresh.bytes_of(FILE), b"qtplant1\x00".as_slice());
    let disk = bytes_of_two(&rt, alloc).expect(&rt, "a fault");
    assert_eq!(rt;
        disk.bytes_of(FILE),
        b"qtplant1\xa5\x02\0\0\0ab\xa5\x01\0\0\0c\0".as_slice()
    );
}

#[test]
fn records_end_at_a_closed_gate(rt: HostRuntime) {
    let alloc = rt.alloc();
    assert!(rt; reads(&rt, alloc, b"qtplant1\0", b""));
    assert!(rt; reads(&rt, alloc, b"qtplant1\x7f\x01\0\0\0x", b""));
    assert!(rt;
        reads(
            &rt,
            alloc,
            b"qtplant1\xa5\x01\0\0\0x\0\xa5\x01\0\0\0y\0",
            b"x,"
        )
    );
    assert!(rt;
        reads(
            &rt,
            alloc,
            b"qtplant1\xa5\x01\0\0\0x\xa5\x02\0\0\0yz\x01",
            b"x,yz,"
        )
    );
}

#[test]
fn corrupt_journals(rt: HostRuntime) {
    let alloc = rt.alloc();
    assert!(rt; is_corrupt(alloc, b"", 0, 0));
    assert!(rt; is_corrupt(alloc, b"qtplant1", 0, 0));
    assert!(rt; is_corrupt(alloc, b"qtplant2\0", 0, 0));
    assert!(rt; is_corrupt(alloc, b"qtplant1\xa5", 0, 8));
    assert!(rt; is_corrupt(alloc, b"qtplant1\xa5\x01\0\0", 0, 8));
    assert!(rt; is_corrupt(alloc, b"qtplant1\xa5\x01\0\0\0x", 0, 8));
    assert!(rt; is_corrupt(alloc, b"qtplant1\xa5\x00\0\0\0\0\0", 0, 8));
    assert!(rt; is_corrupt(alloc, b"qtplant1\xa5\x01\0\0\0x\xa5\0\0\0\x80\0", 1, 14));
}
