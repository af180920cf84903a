//! Clients that talk as they should.
use crate::client::{
    COUNT, GREETING, UPDATE, asked, connected, count, greeted, hangs_up, response, served, update,
};
use crate::planned::PlannedOutside;
use plant_edge::Wakers;
use std::alloc::Global;
use std::io;
use std::io::{Read, Write};
use std::net::Shutdown;

/// One client asks, another's update is answered, and both ask.
fn asks_and_asks(rt: &HostRuntime, alloc: Global, port: u16) -> io::Result<[u64; 3]> {
    let mut one = greeted(rt, port)?;
    let before = count(alloc, &mut one)?;
    let mut other = greeted(rt, port)?;
    update(alloc, &mut other)?;
    let after = count(alloc, &mut one)?;
    let seen = count(alloc, &mut other)?;
    Ok([before, after, seen])
}

#[test]
fn told_before_asked(rt: HostRuntime) {
    let wakers = Wakers::new(rt.alloc());
    let mut outside = PlannedOutside::new(&rt, &wakers);
    assert_eq!(rt; served(&rt, &rt, 2, &mut outside, asks_and_asks), [0, 1, 1]);
    assert_eq!(rt; outside.errors(), b"".as_slice());
}

/// Sends the handshake, an update and a question byte by byte, and then says that it sends no more.
fn byte_by_byte(rt: &HostRuntime, alloc: Global, port: u16) -> io::Result<(usize, u64, bool)> {
    let mut stream = connected(rt, port)?;
    stream.set_nodelay(true)?;
    for bytes in [GREETING, UPDATE] {
        for byte in bytes {
            stream.write_all(&[*byte])?;
        }
    }
    let mut capability = [0];
    stream.read_exact(&mut capability)?;
    let done = response(alloc, &mut stream)?.len();
    let rows = count(alloc, &mut stream)?;
    stream.shutdown(Shutdown::Write)?;
    let ended = hangs_up(&mut stream);
    Ok((done, rows, ended))
}

/// The same, and then another client, whose count of rows is the one that is given.
fn byte_by_byte_and_another(
    rt: &HostRuntime,
    alloc: Global,
    port: u16,
) -> io::Result<(usize, u64, bool)> {
    let (done, _rows, ended) = byte_by_byte(rt, alloc, port)?;
    // The server waits for a second connection meanwhile.
    let mut last = greeted(rt, port)?;
    Ok((done, count(alloc, &mut last)?, ended))
}

// Where a client ends its side, the plant closes the connection within a moment, also while nobody else connects.
#[test]
fn single_bytes_and_a_half_closed_connection(rt: HostRuntime) {
    let wakers = Wakers::new(rt.alloc());
    let mut outside = PlannedOutside::new(&rt, &wakers);
    assert_eq!(rt;
        served(&rt, &rt, 2, &mut outside, byte_by_byte_and_another),
        (10, 1, true)
    );
}

/// The text `exec count i from trade`, big-endian.
const BIG_COUNT: &[u8] = b"\0\x01\0\0\0\0\0\x25\x0a\0\0\0\0\x17exec count i from trade";

/// Many messages in one write, and their answers after it.
fn pipelined(rt: &HostRuntime, alloc: Global, port: u16) -> io::Result<(u64, bool)> {
    let mut stream = greeted(rt, port)?;
    let mut bytes = Vec::new(alloc);
    for _ in 0..1_000u32 {
        bytes.extend_from_slice(UPDATE)?;
    }
    stream.write_all(&bytes)?;
    for _ in 0..1_000u32 {
        response(alloc, &mut stream)?;
    }
    let rows = count(alloc, &mut stream)?;
    let big = asked(alloc, &mut stream, BIG_COUNT)?;
    let little = asked(alloc, &mut stream, COUNT)?;
    Ok((rows, big.as_slice() == little.as_slice()))
}

#[test]
fn a_thousand_updates_in_one_write(rt: HostRuntime) {
    let wakers = Wakers::new(rt.alloc());
    let mut outside = PlannedOutside::new(&rt, &wakers);
    assert_eq!(rt; served(&rt, &rt, 1, &mut outside, pipelined), (1_000, true));
}
