//! Clients that vanish, send half a message or rubbish, send nothing, or never read.
use crate::client::{
    GREETING, SELECT, UPDATE, connected, count, greeted, hangs_up, served, update,
};
use crate::planned::PlannedOutside;
use plant_edge::Wakers;
use std::alloc::Global;
use std::io::{ErrorKind, Write};
use std::net::TcpStream;
use std::time::Duration;
use std::{io, thread};

/// Clients that go in different ways beside one that stays, and what that one is answered in the end.
fn vanishing(rt: &HostRuntime, alloc: Global, port: u16) -> io::Result<u64> {
    let mut stays = greeted(rt, port)?;
    // Within a message.
    let mut half = greeted(rt, port)?;
    half.write_all(&UPDATE[..40])?;
    drop(half);
    // Within the handshake, and before it.
    let mut shy = connected(rt, port)?;
    shy.write_all(&GREETING[..2])?;
    drop(shy);
    drop(connected(rt, port)?);
    // With responses that it doesn't read, so that the connection is reset.
    let mut rude = greeted(rt, port)?;
    for _ in 0..100u32 {
        rude.write_all(UPDATE)?;
    }
    thread::sleep(rt, Duration::from_millis(100));
    drop(rude);
    for _ in 0..10u32 {
        update(alloc, &mut stays)?;
    }
    count(alloc, &mut stays)
}

#[test]
fn clients_that_vanish_end_their_own_sessions_alone(rt: HostRuntime) {
    let wakers = Wakers::new(rt.alloc());
    let mut outside = PlannedOutside::new(&rt, &wakers);
    let rows = served(&rt, &rt, 5, &mut outside, vanishing);
    assert!(rt; rows >= 10 && rows <= 110, "{rows} rows");
}

/// Clients that send what is no message: each is hung up, and another goes on.
fn rubbish(rt: &HostRuntime, alloc: Global, port: u16) -> io::Result<(u32, u64)> {
    let mut stays = greeted(rt, port)?;
    let mut hung_up = 0u32;
    let headers: [&[u8]; 4] = [
        b"\x01\x01\0\0\x07\0\0\0",
        b"\x01\x01\x01\0\x1f\0\0\0",
        b"\x02\x01\0\0\x1f\0\0\0",
        b"GET / HTTP/1.1\r\n\r\n",
    ];
    for header in headers {
        let mut stray = greeted(rt, port)?;
        stray.write_all(header)?;
        if hangs_up(&mut stray) {
            hung_up = hung_up.wrapping_add(1);
        }
        update(alloc, &mut stays)?;
    }
    // A handshake that is too long.
    let mut stray = connected(rt, port)?;
    let written = stray.write_all(&[b'x'; 4_096]);
    if written.is_err() || hangs_up(&mut stray) {
        hung_up = hung_up.wrapping_add(1);
    }
    Ok((hung_up, count(alloc, &mut stays)?))
}

#[test]
fn rubbish_is_hung_up(rt: HostRuntime) {
    let wakers = Wakers::new(rt.alloc());
    let mut outside = PlannedOutside::new(&rt, &wakers);
    assert_eq!(rt; served(&rt, &rt, 6, &mut outside, rubbish), (5, 4));
}

/// Sends questions until no more can be sent for a while, since the answers aren't read.
fn fill(rt: &HostRuntime, stream: &mut TcpStream) -> io::Result<u32> {
    stream.set_write_timeout(Some(Duration::from_millis(300)))?;
    let mut sent = 0u32;
    for _ in 0..1_000_000u32 {
        match stream.write_all(SELECT) {
            Ok(()) => sent = sent.wrapping_add(1),
            Err(error) if error.kind() == ErrorKind::WouldBlock => return Ok(sent),
            Err(error) => return Err(error),
        }
    }
    thread::sleep(rt, Duration::from_millis(1));
    Ok(sent)
}

/// A client that asks and never reads, beside one that is answered all the time.
fn deaf(rt: &HostRuntime, alloc: Global, port: u16) -> io::Result<(bool, u64)> {
    let mut stays = greeted(rt, port)?;
    for _ in 0..2_000u32 {
        update(alloc, &mut stays)?;
    }
    let mut deaf = greeted(rt, port)?;
    let sent = fill(rt, &mut deaf)?;
    for _ in 0..1_000u32 {
        update(alloc, &mut stays)?;
    }
    let rows = count(alloc, &mut stays)?;
    drop(deaf);
    Ok((sent < 1_000_000, rows))
}

#[test]
fn a_client_that_never_reads_holds_up_nobody_else(rt: HostRuntime) {
    let wakers = Wakers::new(rt.alloc());
    let mut outside = PlannedOutside::new(&rt, &wakers);
    assert_eq!(rt; served(&rt, &rt, 2, &mut outside, deaf), (true, 3_000));
}

/// A client that sends nothing at all for a while, beside one that is answered.
fn silent(rt: &HostRuntime, alloc: Global, port: u16) -> io::Result<u64> {
    let quiet = connected(rt, port)?;
    let mut stays = greeted(rt, port)?;
    update(alloc, &mut stays)?;
    thread::sleep(rt, Duration::from_millis(300));
    update(alloc, &mut stays)?;
    let rows = count(alloc, &mut stays)?;
    drop(quiet);
    Ok(rows)
}

#[test]
fn a_silent_client_is_waited_for(rt: HostRuntime) {
    let wakers = Wakers::new(rt.alloc());
    let mut outside = PlannedOutside::new(&rt, &wakers);
    assert_eq!(rt; served(&rt, &rt, 2, &mut outside, silent), 2);
}
