//! A disk with many files.
use outside_api::Disk;
use outside_mem::{Leaving, MemDisk};
use std::alloc::Global;
use std::process::Abort;

// The number of the file of an index: the numbers neither rise nor fall.
fn number_of(index: u64) -> u64 {
    index.wrapping_mul(7_919) % 10_007
}

// What is written to the file of an index.
fn bytes_of(index: u64) -> [u8; 8] {
    index.to_le_bytes()
}

// Writes and syncs 10,000 files, each of its own bytes; whether all calls succeeded.
fn fill(disk: &mut MemDisk) -> bool {
    for index in 0..10_000 {
        let file = number_of(index);
        if disk.write_at(file, 0, &bytes_of(index)).is_err() || disk.sync(file).is_err() {
            return false;
        }
    }
    true
}

// Whether each file has its bytes.
fn has_all(disk: &MemDisk) -> bool {
    for index in 0..10_000 {
        if disk.bytes_of(number_of(index)) != bytes_of(index).as_slice() {
            return false;
        }
    }
    true
}

fn keeps_many(rt: &impl Abort, alloc: Global) -> bool {
    let mut disk = MemDisk::new(alloc);
    let filled = fill(&mut disk);
    let restarted = disk
        .restart(alloc, Leaving::Torn(0xff))
        .expect(rt, "memory");
    filled && has_all(&disk) && has_all(&restarted) && restarted.bytes_of(10_007).is_empty()
}

#[test]
fn many_files(rt: HostRuntime) {
    let kept = keeps_many(&rt, rt.alloc());
    assert!(rt; kept);
}
