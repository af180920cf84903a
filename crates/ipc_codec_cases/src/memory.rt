//! How much memory a value may take that is read: at most 20 bytes for each byte of its message.

use ipc_codec::{DecodeRefusal, Order, decode, measure};
use q_values::Value;
use std::alloc::Global;
use std::process::Abort;

// A name, an object, how many of it a general list has, and whether the list is read.
type Row = (&'static str, &'static [u8], u32, bool);

const ROWS: [Row; 20] = [
    ("ints", b"\xfa\x01\0\0\0", 200_000, true),
    ("empty symbols", b"\xf5\0", 100_000, true),
    ("symbols of one byte", b"\xf5a\0", 100_000, true),
    ("symbols of nine bytes", b"\xf5abcdefghi\0", 100_000, true),
    ("errors of four bytes", b"\x80abcd\0", 100_000, true),
    (
        "vectors of one boolean",
        b"\x01\0\x01\0\0\0\x01",
        100_000,
        true,
    ),
    ("empty vectors", b"\x06\0\0\0\0\0", 100_000, true),
    (
        "vectors of one empty symbol",
        b"\x0b\0\x01\0\0\0\0",
        100_000,
        true,
    ),
    (
        "vectors of two symbols",
        b"\x0b\0\x02\0\0\0a\0abcdefghi\0",
        100_000,
        true,
    ),
    (
        "tables of one row",
        b"b\0c\x0b\0\x01\0\0\0a\0\0\0\x01\0\0\0\x06\0\x01\0\0\0\x01\0\0\0",
        100_000,
        true,
    ),
    (
        "dictionaries of two empty vectors, the smallest of kdb+",
        b"c\x01\0\0\0\0\0\x01\0\0\0\0\0",
        100_000,
        true,
    ),
    (
        "dictionaries of a short",
        b"c\xfb\x01\0\xfb\x02\0",
        100_000,
        true,
    ),
    (
        "dictionaries of a symbol of one byte",
        b"c\xf5a\0\xf5b\0",
        100_000,
        true,
    ),
    (
        "lists of two ints",
        b"\0\0\x02\0\0\0\xfa\x01\0\0\0\xfa\x02\0\0\0",
        100_000,
        true,
    ),
    (
        "lists of four identities",
        b"\0\0\x04\0\0\0e\0e\0e\0e\0",
        100_000,
        true,
    ),
    ("a million identities", b"e\0", 1_000_000, true),
    (
        "as many dictionaries of identities as the headers pay for",
        b"ce\0e\0",
        7,
        true,
    ),
    ("one dictionary more", b"ce\0e\0", 8, false),
    (
        "dictionaries of a boolean",
        b"c\xff\x01\xff\0",
        100_000,
        false,
    ),
    ("errors of three bytes", b"\x80abc\0", 100_000, false),
];

// A general list of this many copies of an object.
fn list_of(rt: &impl Abort, alloc: Global, object: &[u8], count: u32) -> Vec<u8> {
    let room = object
        .len()
        .saturating_mul(count as usize)
        .saturating_add(6);
    let mut bytes = Vec::with_capacity(alloc, room).expect(rt, "memory");
    bytes.extend_from_slice(b"\0\0").expect(rt, "memory");
    bytes
        .extend_from_slice(&count.to_le_bytes())
        .expect(rt, "memory");
    for _ in 0..count {
        bytes.extend_from_slice(object).expect(rt, "memory");
    }
    bytes
}

// Whether a list has this many items.
fn has_items(value: &Value, count: u32) -> bool {
    match value {
        Value::List(items) => items.len() == count as usize,
        _ => false,
    }
}

// Whether a list is read, or refused as one that there is no memory for.
fn is_read(alloc: Global, bytes: &[u8], count: u32) -> Option<bool> {
    match decode(alloc, bytes, Order::Little) {
        Ok((value, length)) if length == bytes.len() && has_items(&value, count) => Some(true),
        Err(DecodeRefusal::NoMemory) => Some(false),
        _ => None,
    }
}

#[test]
fn value_takes_twenty_bytes_for_each_of_its_message(rt: HostRuntime) {
    for (name, object, count, read) in &ROWS {
        let bytes = list_of(&rt, rt.alloc(), object, *count);
        assert_eq!(rt; measure(&bytes, Order::Little), Ok(bytes.len()), "{name}");
        assert_eq!(rt; is_read(rt.alloc(), &bytes, *count), Some(*read), "{name}");
    }
}
