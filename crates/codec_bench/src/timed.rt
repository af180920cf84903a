//! The calls of the codec and the framer, timed in nanoseconds: one line for each call.

use anyhow::{Result, bail};
use ipc_codec::{Order, decode, encode, measure};
use ipc_frame::{Framer, Next, header};
use q_values::Limits;
use std::alloc::Global;
use std::rt::Clock;
use std::time::Instant;

/// How often each call is timed.
const ROUNDS: u32 = 5;

/// The bytes that the framer is fed at a time, as many as a session reads at once.
const PIECE: usize = 65536;

fn measure_timed<R: Clock + Print>(rt: &R, name: &str, object: &[u8]) -> Result<()> {
    let start = Instant::now(rt)?;
    let count = measure(object, Order::Little)?;
    let nanos = start.elapsed(rt)?.as_nanos();
    println!(rt; "{name} measure {nanos} {count}")?;
    Ok(())
}

fn codec_timed<R: Clock + Print>(rt: &R, alloc: Global, name: &str, object: &[u8]) -> Result<()> {
    let start = Instant::now(rt)?;
    let (value, count) = decode(alloc, object, Order::Little)?;
    let nanos = start.elapsed(rt)?.as_nanos();
    println!(rt; "{name} decode {nanos} {count}")?;
    let mut out = Vec::with_capacity(alloc, object.len())?;
    let start = Instant::now(rt)?;
    encode(&mut out, &value)?;
    let nanos = start.elapsed(rt)?.as_nanos();
    let count = out.len();
    println!(rt; "{name} encode {nanos} {count}")?;
    if out.as_slice() != object {
        bail!("other bytes");
    }
    Ok(())
}

fn message_of(alloc: Global, object: &[u8]) -> Result<Vec<u8>> {
    let length = u32::try_from(object.len().saturating_add(8))?;
    let mut message = Vec::from_slice(alloc, &header(false, length))?;
    message.extend_from_slice(object)?;
    Ok(message)
}

fn framer_timed<R: Clock + Print>(rt: &R, alloc: Global, name: &str, message: &[u8]) -> Result<()> {
    let limits = Limits {
        message: 268_435_456,
        ..Limits::standard()
    };
    let mut framer = Framer::new(alloc, &limits)?;
    let _ = framer.feed(b"\0");
    let _ = framer.next();
    let start = Instant::now(rt)?;
    let mut taken = 0usize;
    for piece in message.chunks(PIECE) {
        taken = taken.saturating_add(framer.feed(piece).taken);
    }
    let nanos = start.elapsed(rt)?.as_nanos();
    println!(rt; "{name} feed {nanos} {taken}")?;
    let Next::Message(_) = framer.next() else {
        bail!("no message");
    };
    Ok(())
}

/// Times each call over this object, and prints a line for each time.
pub fn report<R: Clock + Print + AllocGlobal>(rt: &R, name: &str, object: &Vec<u8>) -> Result<()> {
    let message = message_of(rt.alloc(), object)?;
    for _ in 0..ROUNDS {
        measure_timed(rt, name, object)?;
        codec_timed(rt, rt.alloc(), name, object)?;
        framer_timed(rt, rt.alloc(), name, &message)?;
    }
    Ok(())
}
