//! Many clients at once, and many one after the other.
use crate::client::{count, greeted, served, update};
use crate::planned::PlannedOutside;
use plant_edge::Wakers;
use std::alloc::Global;
use std::thread::{JoinHandle, Threads};
use std::{io, thread};

/// How many updates each client of a crowd sends.
const UPDATES: u32 = 20;

/// Sends updates, and gives how many rows there are then at least.
fn feed(rt: &HostRuntime, alloc: Global, port: u16) -> io::Result<u64> {
    let mut stream = greeted(rt, port)?;
    for _ in 0..UPDATES {
        update(alloc, &mut stream)?;
    }
    count(alloc, &mut stream)
}

/// Fifty clients at once, and how many rows each of them and one after them all found, the least and the last.
fn crowd<R: Threads>(
    threads: &R,
    rt: &HostRuntime,
    alloc: Global,
    port: u16,
) -> io::Result<(u64, u64)> {
    let mut feeds: Vec<JoinHandle<io::Result<u64>>> = Vec::new(alloc);
    for _ in 0..50u32 {
        let theirs = rt.clone()?;
        match thread::spawn(threads, move || feed(&theirs, alloc, port)) {
            Ok(handle) => feeds.push(handle)?,
            Err(_) => return Ok((0, 0)),
        }
    }
    let mut least = u64::MAX;
    for handle in feeds {
        least = least.min(handle.join(threads)?);
    }
    let mut last = greeted(rt, port)?;
    Ok((least, count(alloc, &mut last)?))
}

#[test]
fn fifty_clients_at_once(rt: HostRuntime) {
    let wakers = Wakers::new(rt.alloc());
    let mut outside = PlannedOutside::new(&rt, &wakers);
    let clients = |rt: &HostRuntime, alloc: Global, port: u16| crowd(rt, rt, alloc, port);
    let (least, last) = served(&rt, &rt, 51, &mut outside, clients);
    assert!(rt; least >= u64::from(UPDATES), "{least} rows");
    assert_eq!(rt; last, 1_000);
}

/// Clients one after the other, each with one update.
fn queue(rt: &HostRuntime, alloc: Global, port: u16) -> io::Result<u64> {
    let mut rows = 0;
    for _ in 0..300u32 {
        let mut stream = greeted(rt, port)?;
        update(alloc, &mut stream)?;
        rows = count(alloc, &mut stream)?;
    }
    Ok(rows)
}

// Each session ends, is joined, and its connection is closed, before the last is accepted.
#[test]
fn three_hundred_clients_one_after_the_other(rt: HostRuntime) {
    let wakers = Wakers::new(rt.alloc());
    let mut outside = PlannedOutside::new(&rt, &wakers);
    assert_eq!(rt; served(&rt, &rt, 300, &mut outside, queue), 300);
}
