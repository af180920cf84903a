//! Streams of a handshake and messages, whole, split and faulty, and what a framer returns for them.
ghost use Rattle.ipc_frame.specs.Framing.{CanBeWritten};

use ipc_codec::encode;
use ipc_frame::{Bad, Framer, Next, header};
use q_values::Limits;
use std::alloc::Global;
use std::process::Abort;

// The handshake "u:p" of capability 3.
const GREETING: &[u8] = b"u:p\x03\0";

// `1i` of KX's reference, asynchronous and in little-endian.
const INTEGER: &[u8] = b"\x01\0\0\0\x0d\0\0\0\xfa\x01\0\0\0";

// The text "select from trade", synchronous and in big-endian.
const TEXT: &[u8] = b"\0\x01\0\0\0\0\0\x1f\x0a\0\0\0\0\x11select from trade";

// A float, synchronous and in little-endian.
const FLOAT: &[u8] = b"\x01\x01\0\0\x11\0\0\0\xf7\0\0\0\0\0\0\xf0?";

// `enlist 1i`, asynchronous and in big-endian.
const VECTOR: &[u8] = b"\0\0\0\0\0\0\0\x12\x06\0\0\0\0\x01\0\0\0\x01";

// ``a`b!2 3i` of KX's reference, but synchronous.
const DICTIONARY: &[u8] =
    b"\x01\x01\0\0\x21\0\0\0c\x0b\0\x02\0\0\0a\0b\0\x06\0\x02\0\0\0\x02\0\0\0\x03\0\0\0";

// What a framer returns for the handshake and these five messages, as `tell` writes it: a letter, and for a message
// whether it is synchronous and its value.
const TOLD: [&[u8]; 6] = [
    b"G\x03",
    b"M\0\xfa\x01\0\0\0",
    b"M\x01\x0a\0\x11\0\0\0select from trade",
    b"N\x01\x39",
    b"M\0\x06\0\x01\0\0\0\x01\0\0\0",
    b"M\x01c\x0b\0\x02\0\0\0a\0b\0\x06\0\x02\0\0\0\x02\0\0\0\x03\0\0\0",
];

// The number of a fault.
fn number_of(code: Bad) -> u8 {
    match code {
        Bad::Order => 1,
        Bad::Kind => 2,
        Bad::Compressed => 3,
        Bad::Length => 4,
        Bad::TooLong => 5,
        Bad::Object => 6,
        Bad::Greeting => 7,
    }
}

// Appends what a framer returned: a letter and its fields, of an offset the lowest byte.
fn tell(rt: &impl Abort, out: &mut Vec<u8>, next: Next)
    requires { CanBeWritten next }
{
    match next {
        Next::Greeting { capability } => out
            .extend_from_slice(&[b'G', capability])
            .expect(rt, "memory"),
        Next::Message(message) => {
            out.extend_from_slice(&[b'M', u8::from(message.sync)])
                .expect(rt, "memory");
            encode(out, &message.value).expect(rt, "memory");
        }
        Next::NotBuilt { sync, at } => {
            out.extend_from_slice(&[b'N', u8::from(sync), (at % 256) as u8])
                .expect(rt, "memory");
        }
        Next::Skipped { sync } => out
            .extend_from_slice(&[b'S', u8::from(sync)])
            .expect(rt, "memory"),
        Next::Need => {}
        Next::Bad { code, at } => {
            out.extend_from_slice(&[b'B', number_of(code), (at % 256) as u8])
                .expect(rt, "memory");
        }
    }
}

// Feeds a piece, and appends what the framer returns.
fn feed_piece(rt: &impl Abort, framer: &mut Framer, piece: &[u8], out: &mut Vec<u8>) {
    let mut rest = piece;
    for _ in 0..7 {
        let taken = framer.feed(rest).taken;
        rest = &rest[taken..];
        tell(rt, out, framer.next());
    }
}

// The handshake and the five messages.
fn stream(rt: &impl Abort, alloc: Global) -> Vec<u8> {
    let mut bytes = Vec::from_slice(alloc, GREETING).expect(rt, "memory");
    for message in [INTEGER, TEXT, FLOAT, VECTOR, DICTIONARY] {
        bytes.extend_from_slice(message).expect(rt, "memory");
    }
    bytes
}

// What a framer returns for a handshake and the bytes after it.
fn told_of(rt: &impl Abort, alloc: Global, bytes: &[u8]) -> Vec<u8> {
    let mut framer = Framer::new(alloc, &Limits::standard()).expect(rt, "memory");
    let mut out = Vec::new(alloc);
    feed_piece(rt, &mut framer, GREETING, &mut out);
    feed_piece(rt, &mut framer, bytes, &mut out);
    out
}

// The fault in bytes after a handshake.
fn fault_of(rt: &impl Abort, alloc: Global, bytes: &[u8]) -> Option<(Bad, u64)> {
    let mut framer = Framer::new(alloc, &Limits::standard()).expect(rt, "memory");
    let _ = framer.feed(GREETING);
    let _ = framer.next();
    let _ = framer.feed(bytes);
    match framer.next() {
        Next::Bad { code, at } => Some((code, at)),
        _ => None,
    }
}

// A message of 64 lists of one item within one another, and an empty list within those.
fn nested_lists(rt: &impl Abort, alloc: Global) -> Vec<u8> {
    let mut bytes = Vec::from_slice(alloc, b"\x01\x01\0\0\x8e\x01\0\0").expect(rt, "memory");
    for _ in 0..64 {
        bytes
            .extend_from_slice(b"\0\0\x01\0\0\0")
            .expect(rt, "memory");
    }
    bytes
        .extend_from_slice(b"\0\0\0\0\0\0")
        .expect(rt, "memory");
    bytes
}

// Whether this is what a framer returns for the handshake and the five messages.
fn is_all_told(told: &[u8]) -> bool {
    let mut rest = told;
    for part in TOLD {
        match rest.strip_prefix(part) {
            None => return false,
            Some(after) => rest = after,
        }
    }
    rest.is_empty()
}

// Whether a framer returns all of the stream of five messages, where that is split at `cut`.
fn told_cut_at(rt: &impl Abort, alloc: Global, bytes: &[u8], cut: usize) -> bool {
    let mut framer = Framer::new(alloc, &Limits::standard()).expect(rt, "memory");
    let mut out = Vec::new(alloc);
    match bytes.split_at_checked(cut) {
        Some((front, back)) => {
            feed_piece(rt, &mut framer, front, &mut out);
            feed_piece(rt, &mut framer, back, &mut out);
            is_all_told(&out)
        }
        None => false,
    }
}

#[test]
fn cut_at_every_place(rt: HostRuntime) {
    let bytes = stream(&rt, rt.alloc());
    for cut in 0..=bytes.len() {
        assert!(rt;
            told_cut_at(&rt, rt.alloc(), bytes.as_slice(), cut),
            "{cut}"
        );
    }
}

#[test]
fn cut_into_single_bytes(rt: HostRuntime) {
    let bytes = stream(&rt, rt.alloc());
    let mut framer = Framer::new(rt.alloc(), &Limits::standard()).expect(&rt, "memory");
    let mut out = Vec::new(rt.alloc());
    for byte in bytes.as_slice() {
        feed_piece(&rt, &mut framer, &[*byte], &mut out);
    }
    assert!(rt; is_all_told(&out));
}

#[test]
fn bad_headers(rt: HostRuntime) {
    let rows: [(&[u8], Bad, u64); 5] = [
        (b"\x01\x01\0\0\x07\0\0\0", Bad::Length, 9),
        (b"\x01\x01\x01\0\x1f\0\0\0", Bad::Compressed, 7),
        (b"\x02\x01\0\0\x1f\0\0\0", Bad::Order, 5),
        (b"\x01\x02\0\0\x0a\0\0\0", Bad::Kind, 6),
        (b"\x01\x01\0\0\x01\0\0\x01", Bad::TooLong, 9),
    ];
    for (bytes, code, at) in rows {
        assert_eq!(rt; fault_of(&rt, rt.alloc(), bytes), Some((code, at)));
    }
}

#[test]
fn count_past_the_end(rt: HostRuntime) {
    let bytes = b"\x01\x01\0\0\x0e\0\0\0\x07\0\xff\xff\xff\x7f";
    assert_eq!(rt; fault_of(&rt, rt.alloc(), bytes), Some((Bad::Object, 19)));
}

#[test]
fn negative_count(rt: HostRuntime) {
    let bytes = b"\x01\x01\0\0\x0e\0\0\0\x07\0\xff\xff\xff\xff";
    assert_eq!(rt; fault_of(&rt, rt.alloc(), bytes), Some((Bad::Object, 15)));
}

#[test]
fn too_deep(rt: HostRuntime) {
    let bytes = nested_lists(&rt, rt.alloc());
    assert_eq!(rt;
        fault_of(&rt, rt.alloc(), bytes.as_slice()),
        Some((Bad::Object, 397))
    );
}

#[test]
fn bytes_behind_an_object(rt: HostRuntime) {
    let bytes = b"\x01\x01\0\0\x0e\0\0\0\xfa\x01\0\0\0\0";
    assert_eq!(rt; fault_of(&rt, rt.alloc(), bytes), Some((Bad::Object, 18)));
}

#[test]
fn a_fault_stays(rt: HostRuntime) {
    let told = told_of(&rt, rt.alloc(), b"\x01\x02\0\0\x0a\0\0\0\xfa\x01");
    let expected: &[u8] = b"G\x03B\x02\x06B\x02\x06B\x02\x06B\x02\x06B\x02\x06B\x02\x06B\x02\x06";
    assert_eq!(rt; told.as_slice(), expected);
}

#[test]
fn long_greetings(rt: HostRuntime) {
    let limits = Limits {
        greeting: 3,
        ..Limits::standard()
    };
    let mut framer = Framer::new(rt.alloc(), &limits).expect(&rt, "memory");
    assert_eq!(rt; framer.feed(b"abc\0\x01").taken, 4);
    assert!(rt; matches!(framer.next(), Next::Greeting { capability: 0 }));
    let mut framer = Framer::new(rt.alloc(), &limits).expect(&rt, "memory");
    assert_eq!(rt; framer.feed(b"abc").taken, 3);
    assert!(rt; matches!(framer.next(), Next::Need));
    assert_eq!(rt; framer.feed(b"\x03\0").taken, 1);
    assert!(rt;
        matches!(
            framer.next(),
            Next::Bad {
                code: Bad::Greeting,
                at: 3
            }
        )
    );
    assert_eq!(rt; framer.feed(b"\0").taken, 0);
}

#[test]
fn empty_between_messages(rt: HostRuntime) {
    let mut framer = Framer::new(rt.alloc(), &Limits::standard()).expect(&rt, "memory");
    assert!(rt; framer.is_empty());
    let _ = framer.feed(GREETING);
    assert!(rt; !framer.is_empty());
    let _ = framer.next();
    assert!(rt; framer.is_empty());
    let _ = framer.feed(b"\x01");
    let _ = framer.next();
    assert!(rt; !framer.is_empty());
}

#[test]
fn ample_memory_calls(rt: HostRuntime) {
    assert!(rt; Framer::new(rt.alloc(), &Limits::standard()).is_ok());
}

#[test]
fn headers(rt: HostRuntime) {
    assert_eq!(rt; header(true, 10), [1, 2, 0, 0, 10, 0, 0, 0]);
    assert_eq!(rt; header(false, 0x0102_0304), [1, 0, 0, 0, 4, 3, 2, 1]);
}
