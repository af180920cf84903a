//! Runs of the program with a port that fails, and with a session that is held.
use crate::client::{count, free_port, greeted, serve, update};
use crate::planned::{Hold, PlannedOutside};
use plant_edge::Wakers;
use std::alloc::Global;
use std::process::Abort;
use std::sync::Arc;
use std::sync::atomic::{AtomicBool, Ordering};
use std::time::Duration;
use std::{io, thread};

/// Two clients of a port that fails after them; both are served to their ends.
fn two(rt: &HostRuntime, alloc: Global, port: u16) -> io::Result<u64> {
    let mut one = greeted(rt, port)?;
    let mut other = greeted(rt, port)?;
    for _ in 0..100u32 {
        update(alloc, &mut one)?;
        update(alloc, &mut other)?;
    }
    count(alloc, &mut one)
}

#[test]
fn sessions_go_on_after_the_port_failed(rt: HostRuntime) {
    let (theirs, alloc, port) = (
        rt.clone().expect(&rt, "memory"),
        rt.alloc(),
        free_port(&rt).expect(&rt, "a port"),
    );
    let clients = thread::spawn(&rt, move || two(&theirs, alloc, port)).expect(&rt, "a thread");
    let wakers = Wakers::new(rt.alloc());
    let mut outside = PlannedOutside::failing_after(&rt, &wakers, 2);
    assert_eq!(rt; serve(&rt, alloc, port, 3, &mut outside), 9);
    assert_eq!(rt; clients.join(&rt).expect(&rt, "a result"), 200);
    let line = format!(in alloc;
        "plant: cannot listen\nplant: port {port}: the system refused it\n"
    ).expect(&rt, "memory");
    assert_eq!(rt; outside.errors(), line.as_bytes());
}

/// Waits until the flag is set, for fifty seconds or more.
fn wait_for(rt: &HostRuntime, flag: &AtomicBool) -> io::Result<()> {
    for _ in 0..50_000u32 {
        if flag.load(Ordering::SeqCst) {
            return Ok(());
        }
        thread::sleep(rt, Duration::from_millis(1));
    }
    Err(io::Error::from(io::ErrorKind::TimedOut))
}

/// What a client is answered whose first text is held, and what its second.
fn ask_held(rt: &HostRuntime, alloc: Global, port: u16) -> io::Result<[u64; 2]> {
    let mut stream = greeted(rt, port)?;
    let held = count(alloc, &mut stream)?;
    Ok([held, count(alloc, &mut stream)?])
}

/// Logs a row while another session is held, opens its gate once that was answered, and gives the number of rows. Where the
/// session went on before, the gate doesn't run beside this one, and that is an error.
fn feed_beside(
    rt: &HostRuntime,
    alloc: Global,
    port: u16,
    is_held: &AtomicBool,
    is_open: &AtomicBool,
) -> io::Result<u64> {
    wait_for(rt, is_held)?;
    let mut stream = greeted(rt, port)?;
    update(alloc, &mut stream)?;
    if !is_held.load(Ordering::SeqCst) {
        return Err(io::Error::from(io::ErrorKind::TimedOut));
    }
    is_open.store(true, Ordering::SeqCst);
    count(alloc, &mut stream)
}

/// A flag that isn't set, for two threads.
fn flag_of(rt: &impl Abort, alloc: Global) -> (Arc<AtomicBool>, Arc<AtomicBool>) {
    let flag = Arc::new(alloc, AtomicBool::new(false)).expect(rt, "memory");
    (flag.clone().expect(rt, "memory"), flag)
}

// A session is held while it evaluates a text, until another's update was answered. It answers over what it had seen: no row.
#[test]
fn gates_run_beside(rt: HostRuntime) {
    let (asks, feeds, alloc, port) = (
        rt.clone().expect(&rt, "memory"),
        rt.clone().expect(&rt, "memory"),
        rt.alloc(),
        free_port(&rt).expect(&rt, "a port"),
    );
    let (held, is_held) = flag_of(&rt, alloc);
    let (open, is_open) = flag_of(&rt, alloc);
    let wakers = Wakers::new(rt.alloc());
    let hold = Hold { is_held, is_open };
    let mut outside = PlannedOutside::holding_first(&rt, &wakers, hold);
    let first = thread::spawn(&rt, move || ask_held(&asks, alloc, port)).expect(&rt, "a thread");
    let second = thread::spawn(&rt, move || feed_beside(&feeds, alloc, port, &held, &open)).expect(
        &rt, "a thread",
    );
    assert_eq!(rt; serve(&rt, alloc, port, 2, &mut outside), 0);
    assert_eq!(rt; first.join(&rt).expect(&rt, "a result"), [0, 1]);
    assert_eq!(rt; second.join(&rt).expect(&rt, "a result"), 1);
    assert_eq!(rt; outside.errors(), b"".as_slice());
}
