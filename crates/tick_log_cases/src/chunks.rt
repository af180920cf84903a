//! The chunk of an update, and chunks in which one rule is broken.

use crate::update::{CHUNK, Found, changed, counts, file_with, found_in, trades};
use schema_text::built_in_schema;
use std::alloc::Global;
use std::process::Abort;
use tick_log::{chunk_of, is_loggable};

// What is broken, and the bytes that stand at an offset of the chunk in place of its own.
const BROKEN: [(&str, usize, &[u8]); 14] = [
    (
        "the number of no pass",
        0,
        b"\xff\xff\xff\xff\xff\xff\xff\xff",
    ),
    ("a dictionary", 8, b"\x63"),
    ("an attribute of the list", 9, b"\x01"),
    ("a list of two", 10, b"\x02"),
    ("text in place of the word", 14, b"\xf6"),
    ("another word", 15, b"upx"),
    ("no table of the schema", 20, b"tradf"),
    ("an attribute of the list of columns", 27, b"\x01"),
    ("three columns", 28, b"\x03"),
    ("longs in place of timespans", 32, b"\x07"),
    ("a sorted column", 33, b"\x01"),
    ("two symbols and one time", 48, b"\x02"),
    ("a count in big-endian order", 57, b"\0\0\0\x01"),
    ("floats in place of longs", 69, b"\x09"),
];

// Whether the chunk with these bytes at an offset is refused, and ends a count.
fn is_refused(rt: &impl Abort, alloc: Global, at: usize, with: &[u8]) -> bool {
    let chunk = changed(rt, alloc, at, with);
    let file = file_with(rt, alloc, &chunk, b"\0");
    found_in(rt, alloc, &file) == Found::NoChunk(1, 96) && counts(rt, alloc, &file, 1, 96, true)
}

#[test]
fn each_rule_of_a_chunk_broken_once(rt: HostRuntime) {
    for (name, at, with) in &BROKEN {
        assert!(rt; is_refused(&rt, rt.alloc(), *at, with), "{name}");
    }
}

// A chunk with a symbol of this many bytes.
fn with_symbol(rt: &impl Abort, alloc: Global, size: usize) -> Vec<u8> {
    let mut chunk = Vec::from_slice(alloc, &CHUNK[..52]).expect(rt, "memory");
    for _ in 0..size {
        chunk.push(b'a').expect(rt, "memory");
    }
    chunk.extend_from_slice(&CHUNK[54..]).expect(rt, "memory");
    chunk
}

fn found_with_symbol(rt: &impl Abort, alloc: Global, size: usize) -> Found {
    let chunk = with_symbol(rt, alloc, size);
    found_in(rt, alloc, &file_with(rt, alloc, &chunk, b"\0"))
}

#[test]
fn symbols_of_256_bytes(rt: HostRuntime) {
    let alloc = rt.alloc();
    let cases = [
        (0, Found::Entries(2)),
        (256, Found::Entries(2)),
        (257, Found::NoChunk(1, 96)),
    ];
    for (size, wanted) in cases {
        assert!(rt; found_with_symbol(&rt, alloc, size) == wanted, "{size}");
    }
}

fn found_with_end(rt: &impl Abort, alloc: Global, payload: &[u8], end: &[u8]) -> Found {
    let mut chunk = Vec::from_slice(alloc, payload).expect(rt, "memory");
    chunk.extend_from_slice(end).expect(rt, "memory");
    found_in(rt, alloc, &file_with(rt, alloc, &chunk, b"\0"))
}

#[test]
fn a_chunk_is_whole(rt: HostRuntime) {
    let alloc = rt.alloc();
    assert!(rt; found_with_end(&rt, alloc, &CHUNK, b"") == Found::Entries(2));
    assert!(rt; found_with_end(&rt, alloc, &CHUNK, b"\0") == Found::NoChunk(1, 96));
    for size in [82usize, 8, 7] {
        let found = found_with_end(&rt, alloc, &CHUNK[..size], b"");
        assert!(rt; found == Found::NoChunk(1, 96), "{size}");
    }
}

// Whether the chunk of one row is these bytes.
fn is_written_so(rt: &impl Abort, alloc: Global) -> bool {
    let schema = built_in_schema(alloc).expect(rt, "memory");
    let entry = trades(rt, alloc, 1);
    if !is_loggable(&schema, &entry) {
        return false;
    }
    let chunk = chunk_of(alloc, &schema, &entry).expect(rt, "memory");
    if chunk.is_empty() {
        return false;
    }
    let body = chunk.body();
    body.starts_with(b"\x53\0\0\0") && body.len() == 88 && body[4..].starts_with(&CHUNK)
}

#[test]
fn an_update_is_written_so(rt: HostRuntime) {
    assert!(rt; is_written_so(&rt, rt.alloc()));
}
