//! Sessions that read well-formed and malformed messages to their end.
use q_values::{Limits, Turn};
use session::{Bad, End};
use std::alloc::Global;
use std::process::Abort;
use std::sync::Wait;
use test_sessions::bytes::{
    BIG_QUERY, CHARACTER, DONE, FLOAT, GREETED, GREETING, NEGATIVE, NO_QUOTE, NO_ROW, NYI, ONE_ROW,
    PARSE, PAST_THE_END, QUERY, QUOTE_QUERY, UPDATE,
};
use test_sessions::{
    GREETED_TURN, LOGGED_TURN, Read, Wanted, bytes_go, greeted, messages_go, pieces_go,
    script_goes, single_bytes,
};

/// The responses to the handshake, the first update and the query after it.
const SENT: &[&[u8]] = &[GREETED, DONE, ONE_ROW];

/// The turns of the same.
const TURNS: &[Turn] = &[GREETED_TURN, LOGGED_TURN, Turn::Answered { length: 1 }];

/// The offset where the handshake ends.
const GREETING_END: usize = 5;

/// The offset where the update ends.
const UPDATE_END: usize = 71;

#[test]
fn first_update_answered(rt: HostRuntime) {
    let wanted = Wanted {
        end: End::Closed,
        sent: SENT,
        turns: TURNS,
    };
    assert!(rt; messages_go(&rt, rt.alloc(), &[UPDATE, QUERY], wanted).expect(&rt, "memory"));
}

/// Whether a session goes so wherever its input is divided into two pieces.
fn each_cut_goes<R: Abort + Wait>(rt: &R, alloc: Global, input: &[u8], wanted: Wanted) -> bool {
    for i in 0..input.len() {
        let reads = [Read::Bytes(&input[..i]), Read::Bytes(&input[i..])];
        if !script_goes(rt, alloc, &reads, &[], wanted).expect(rt, "memory") {
            return false;
        }
    }
    true
}

#[test]
fn first_update_answered_in_two_pieces(rt: HostRuntime) {
    let wanted = Wanted {
        end: End::Closed,
        sent: SENT,
        turns: TURNS,
    };
    let input = greeted(rt.alloc(), &[UPDATE, QUERY]).expect(&rt, "memory");
    assert!(rt; each_cut_goes(&rt, rt.alloc(), input.as_slice(), wanted));
}

fn end_of_prefix(length: usize) -> End {
    match length {
        0 | GREETING_END | UPDATE_END => End::Closed,
        _ => End::Truncated,
    }
}

/// How many of the responses are sent where the input has this length.
fn answers_of_prefix(length: usize) -> usize {
    if length < GREETING_END {
        0
    } else if length < UPDATE_END {
        1
    } else {
        2
    }
}

fn each_prefix_goes<R: Abort + Wait>(rt: &R, alloc: Global, input: &[u8]) -> bool {
    for i in 0..input.len() {
        let count = answers_of_prefix(i).min(2);
        let wanted = Wanted {
            end: end_of_prefix(i),
            sent: &SENT[..count],
            turns: &TURNS[..count],
        };
        if !bytes_go(rt, alloc, &Limits::standard(), &input[..i], wanted).expect(rt, "memory") {
            return false;
        }
    }
    true
}

#[test]
fn every_prefix(rt: HostRuntime) {
    let input = greeted(rt.alloc(), &[UPDATE, QUERY]).expect(&rt, "memory");
    assert!(rt; each_prefix_goes(&rt, rt.alloc(), input.as_slice()));
}

#[test]
fn big_endian_in_single_bytes(rt: HostRuntime) {
    let wanted = Wanted {
        end: End::Closed,
        sent: SENT,
        turns: TURNS,
    };
    let input = greeted(rt.alloc(), &[UPDATE, BIG_QUERY]).expect(&rt, "memory");
    let pieces = single_bytes(rt.alloc(), input.as_slice()).expect(&rt, "memory");
    assert!(rt; pieces_go(&rt, rt.alloc(), pieces, wanted).expect(&rt, "memory"));
}

/// Whether a session goes so whose input comes in three pieces, the second with the end of one message and the front of the
/// next one.
fn three_pieces_go<R: Abort + Wait>(rt: &R, alloc: Global, input: &[u8], wanted: Wanted) -> bool {
    if input.len() < 110 {
        return false;
    }
    let reads = [
        Read::Bytes(&input[..20]),
        Read::Bytes(&input[20..110]),
        Read::Bytes(&input[110..]),
    ];
    script_goes(rt, alloc, &reads, &[], wanted).expect(rt, "memory")
}

#[test]
fn messages_share_a_piece(rt: HostRuntime) {
    let wanted = Wanted {
        end: End::Closed,
        sent: &[GREETED, DONE, ONE_ROW, ONE_ROW],
        turns: &[
            GREETED_TURN,
            LOGGED_TURN,
            Turn::Answered { length: 1 },
            Turn::Answered { length: 1 },
        ],
    };
    let input = greeted(rt.alloc(), &[UPDATE, QUERY, QUERY]).expect(&rt, "memory");
    assert!(rt; three_pieces_go(&rt, rt.alloc(), input.as_slice(), wanted));
}

#[test]
fn empty_table(rt: HostRuntime) {
    let wanted = Wanted {
        end: End::Closed,
        sent: &[GREETED, NO_ROW, NO_QUOTE],
        turns: &[
            GREETED_TURN,
            Turn::Answered { length: 0 },
            Turn::Answered { length: 0 },
        ],
    };
    assert!(rt; messages_go(&rt, rt.alloc(), &[QUERY, QUOTE_QUERY], wanted).expect(&rt, "memory"));
}

/// Whether the bytes after the handshake are no message, for this cause at this offset.
fn is_bad<R: Abort + Wait>(rt: &R, alloc: Global, bytes: &[u8], code: Bad, at: u64) -> bool {
    let wanted = Wanted {
        end: End::BadMessage { code, at },
        sent: &[GREETED],
        turns: &[GREETED_TURN],
    };
    messages_go(rt, alloc, &[bytes], wanted).expect(rt, "memory")
}

#[test]
fn bad_headers(rt: HostRuntime) {
    let headers = [
        (b"\x01\x01\x00\x00\x07\x00\x00\x00", Bad::Length, 9),
        (b"\x01\x01\x01\x00\x1f\x00\x00\x00", Bad::Compressed, 7),
        (b"\x02\x01\x00\x00\x1f\x00\x00\x00", Bad::Order, 5),
        (b"\x01\x02\x00\x00\x0a\x00\x00\x00", Bad::Kind, 6),
    ];
    for (header, code, at) in headers {
        assert!(rt; is_bad(&rt, rt.alloc(), header.as_slice(), code, at));
    }
}

#[test]
fn count_past_the_end(rt: HostRuntime) {
    assert!(rt; is_bad(&rt, rt.alloc(), PAST_THE_END, Bad::Object, 19));
}

#[test]
fn negative_count(rt: HostRuntime) {
    assert!(rt; is_bad(&rt, rt.alloc(), NEGATIVE, Bad::Object, 15));
}

/// Sixty-five nested lists, the innermost empty.
fn nested_lists(rt: &impl Abort, alloc: Global) -> Vec<u8> {
    let mut bytes = Vec::from_slice(alloc, b"\x01\x01\x00\x00\x8e\x01\x00\x00").expect(
        rt, "memory",
    );
    for _ in 0..64 {
        bytes
            .extend_from_slice(b"\x00\x00\x01\x00\x00\x00")
            .expect(rt, "memory");
    }
    bytes
        .extend_from_slice(b"\x00\x00\x00\x00\x00\x00")
        .expect(rt, "memory");
    bytes
}

#[test]
fn too_deep(rt: HostRuntime) {
    let lists = nested_lists(&rt, rt.alloc());
    assert!(rt; is_bad(&rt, rt.alloc(), lists.as_slice(), Bad::Object, 397));
}

#[test]
fn truncated_and_empty_input(rt: HostRuntime) {
    let wanted = Wanted {
        end: End::Truncated,
        sent: &[GREETED, DONE],
        turns: &[GREETED_TURN, LOGGED_TURN],
    };
    let cut = &QUERY[..QUERY.len() - 1];
    assert!(rt; messages_go(&rt, rt.alloc(), &[UPDATE, cut], wanted).expect(&rt, "memory"));
    let wanted = Wanted {
        end: End::Closed,
        sent: &[],
        turns: &[],
    };
    assert!(rt; bytes_go(&rt, rt.alloc(), &Limits::standard(), b"", wanted).expect(&rt, "memory"));
}

/// Whether a message is declined as no request, and the next one served.
fn is_unserved<R: Abort + Wait>(rt: &R, alloc: Global, message: &[u8]) -> bool {
    let wanted = Wanted {
        end: End::Closed,
        sent: &[GREETED, NYI, NO_ROW],
        turns: &[GREETED_TURN, Turn::Declined, Turn::Answered { length: 0 }],
    };
    messages_go(rt, alloc, &[message, QUERY], wanted).expect(rt, "memory")
}

#[test]
fn float_not_built(rt: HostRuntime) {
    assert!(rt; is_unserved(&rt, rt.alloc(), FLOAT));
}

/// A single character is a text, and this one is no request.
#[test]
fn character_is_a_text(rt: HostRuntime) {
    let wanted = Wanted {
        end: End::Closed,
        sent: &[GREETED, PARSE, NO_ROW],
        turns: &[
            GREETED_TURN,
            Turn::Answered { length: 0 },
            Turn::Answered { length: 0 },
        ],
    };
    assert!(rt; messages_go(&rt, rt.alloc(), &[CHARACTER, QUERY], wanted).expect(&rt, "memory"));
}

#[test]
fn greeting_past_its_limit(rt: HostRuntime) {
    let mut limits = Limits::standard();
    limits.greeting = 3;
    let wanted = Wanted {
        end: End::BadMessage {
            code: Bad::Greeting,
            at: 3,
        },
        sent: &[],
        turns: &[],
    };
    assert!(rt; bytes_go(&rt, rt.alloc(), &limits, GREETING, wanted).expect(&rt, "memory"));
}
