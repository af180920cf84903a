//! Objects that are read, measured and written again, in both byte orders.

use crate::object_rows::{ATOMS, COMPOUNDS, Row, VECTORS};
use ipc_codec::{Order, decode, encode, measure};
use q_values::{Atom, Value};
use std::alloc::Global;
use std::process::Abort;

// Reads an object and writes it again: its length, and what was written.
fn written_again(rt: &impl Abort, alloc: Global, bytes: &[u8], order: Order) -> (usize, Vec<u8>) {
    let (value, count) = decode(alloc, bytes, order).expect(rt, "memory");
    let mut out = Vec::new(alloc);
    encode(&mut out, &value).expect(rt, "memory");
    (count, out)
}

// The name of the first row that is not read, measured and written as it says.
fn first_wrong(rt: &impl Abort, alloc: Global, rows: &[Row]) -> Option<&'static str> {
    for (name, order, bytes, written) in rows {
        let (count, out) = written_again(rt, alloc, bytes, *order);
        let is_measured = measure(bytes, *order) == Ok(count);
        if count != bytes.len() || !is_measured || out.as_slice() != *written {
            return Some(*name);
        }
    }
    None
}

// Whether an object is read and written again as it is.
fn is_kept(rt: &impl Abort, alloc: Global, object: &[u8]) -> bool {
    let (count, out) = written_again(rt, alloc, object, Order::Little);
    count == object.len() && out.as_slice() == object
}

// The value of an object.
fn value_of(rt: &impl Abort, alloc: Global, object: &[u8]) -> Value {
    let (value, _) = decode(alloc, object, Order::Little).expect(rt, "memory");
    value
}

// What follows a message's header of eight bytes.
fn object_of(message: &[u8]) -> &[u8] {
    message.get(8..).unwrap_or(&[])
}

// Published messages, with their headers.
const MESSAGES: [&[u8]; 4] = [
    b"\x01\0\0\0\x0d\0\0\0\xfa\x01\0\0\0",
    b"\x01\0\0\0\x12\0\0\0\x06\0\x01\0\0\0\x01\0\0\0",
    b"\x01\0\0\0!\0\0\0c\x0b\0\x02\0\0\0a\0b\0\x06\0\x02\0\0\0\x02\0\0\0\x03\0\0\0",
    b"\x01\0\0\0/\0\0\0b\0c\x0b\0\x02\0\0\0a\0b\0\0\0\x02\0\0\0\x06\0\x01\0\0\0\x02\0\0\0\x06\0\x01\0\0\0\x03\0\0\0",
];

#[test]
fn published_messages_decode(rt: HostRuntime) {
    let alloc = rt.alloc();
    for message in &MESSAGES {
        assert!(rt; is_kept(&rt, alloc, object_of(message)));
    }
    let one = value_of(&rt, alloc, object_of(MESSAGES[0]));
    assert!(rt; matches!(one, Value::Atom(Atom::Integer(1))));
    match value_of(&rt, alloc, object_of(MESSAGES[3])) {
        Value::Table(table) => {
            assert!(rt; table.names.len() == 2 && table.columns.len() == 2);
        }
        _ => panic!(rt; "a table"),
    }
}

#[test]
fn each_object_in_both_orders(rt: HostRuntime) {
    assert_eq!(rt; first_wrong(&rt, rt.alloc(), &ATOMS), None);
    assert_eq!(rt; first_wrong(&rt, rt.alloc(), &VECTORS), None);
    assert_eq!(rt; first_wrong(&rt, rt.alloc(), &COMPOUNDS), None);
}

#[test]
fn nothing_behind_an_object_is_read(rt: HostRuntime) {
    let (value, count) = decode(rt.alloc(), b"\xff\x01\x03", Order::Little).expect(&rt, "memory");
    assert!(rt; matches!(value, Value::Atom(Atom::Boolean(true))));
    assert_eq!(rt; count, 2);
}

// A vector of 100,000 symbols as bytes: of none to eight bytes, but for the last one, which is given with its 0.
fn symbols_object(rt: &impl Abort, alloc: Global, last: &[u8]) -> Vec<u8> {
    let mut out = Vec::from_slice(alloc, b"\x0b\0").expect(rt, "memory");
    out.extend_from_slice(&100_000u32.to_le_bytes())
        .expect(rt, "memory");
    for i in 1..100_000u32 {
        out.extend_from_slice(&b"abcdefgh"[..(i % 9) as usize])
            .expect(rt, "memory");
        out.push(0).expect(rt, "memory");
    }
    out.extend_from_slice(last).expect(rt, "memory");
    out
}

fn symbols_are_kept(rt: &impl Abort, alloc: Global, last: &[u8]) -> bool {
    let object = symbols_object(rt, alloc, last);
    let (count, out) = written_again(rt, alloc, &object, Order::Little);
    count == object.len() && out.as_slice() == object.as_slice()
}

#[test]
fn many_symbols(rt: HostRuntime) {
    assert!(rt; symbols_are_kept(&rt, rt.alloc(), b"\0"));
    assert!(rt; symbols_are_kept(&rt, rt.alloc(), b"eightbyt\0"));
    assert!(rt; symbols_are_kept(&rt, rt.alloc(), b"ninebytes\0"));
    assert!(rt; symbols_are_kept(&rt, rt.alloc(), b"more than eight bytes\0"));
}

// A text of this many bytes, and the 0 that ends it.
fn ended_text(rt: &impl Abort, alloc: Global, count: usize) -> Vec<u8> {
    let mut out = Vec::new(alloc);
    out.resize(count, b'x').expect(rt, "memory");
    out.push(0).expect(rt, "memory");
    out
}

// Symbols are written a block of 576 bytes at a time, and one that no block holds is written alone.
#[test]
fn symbols_as_long_as_a_block(rt: HostRuntime) {
    for count in 573..579 {
        let last = ended_text(&rt, rt.alloc(), count);
        assert!(rt; symbols_are_kept(&rt, rt.alloc(), &last));
    }
}
