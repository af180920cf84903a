//! What feeds and subscribers are to be sent, beside what the log has.
use crate::bytes::{DONE, END_TOLD, GREETED};
use crate::marks::Mark;
use crate::plants::NOW;
use crate::trades::{AB, CD, Feed, KX, Row, put, rows_of, told_of};
use q_values::Turn;
use std::alloc::Global;
use std::process::Abort;

/// How many updates each feed sends.
pub(crate) const UPDATES: u32 = 500;

/// What came of a client's session, whose input was served to its end.
#[derive(Drop)]
pub(crate) struct Heard {
    /// The turns that were noted.
    pub(crate) turns: Vec<Turn>,
    /// The bytes that the client was sent.
    pub(crate) sent: Vec<u8>,
}

fn is_at(marks: &[Mark], place: u64, wanted: Mark) -> bool {
    marks.get(place as usize) == Some(&wanted)
}

// Whether the turns are those of a feed: each update was logged where the log has it, and the date ended this many times.
fn are_fed(turns: &[Turn], marks: &[Mark], feed: Feed, ends: u32) -> bool {
    let mut number = 0u32;
    let mut ended = 0u32;
    for turn in turns {
        match turn {
            Turn::Greeted { capability: 3 } => {}
            Turn::Logged { place, .. } if is_at(marks, *place, Mark::Update(feed, number)) => {
                number = number.wrapping_add(1);
            }
            Turn::Rolled { place, .. } if is_at(marks, *place, Mark::Ended) => {
                ended = ended.wrapping_add(1);
            }
            _ => return false,
        }
    }
    number == UPDATES && ended == ends
}

// Whether a feed was sent the answer to its handshake and to each update.
fn are_answered(sent: &[u8]) -> bool {
    let Some(mut left) = sent.strip_prefix(GREETED) else {
        return false;
    };
    for _ in 0..UPDATES {
        match left.strip_prefix(DONE) {
            Some(rest) => left = rest,
            None => return false,
        }
    }
    left.is_empty()
}

/// Whether each update of a feed was logged where the log has it, and answered, and the feed ended this many dates.
pub(crate) fn is_fed(heard: &Heard, marks: &[Mark], feed: Feed, ends: u32) -> bool {
    are_fed(heard.turns.as_slice(), marks, feed, ends) && are_answered(heard.sent.as_slice())
}

// What a subscriber was told: the entries from one length of the log to another, in this many spans.
#[derive(Clone, Copy)]
struct Span {
    from: u64,
    to: u64,
    times: u32,
}

// A span with what one more turn tells.
fn span_after(span: Span, turn: Turn) -> Option<Span> {
    match turn {
        Turn::Quiet { length, now: NOW } if length >= span.to => Some(span),
        Turn::Told { from, to } if from == span.to && to > from => Some(Span {
            from: span.from,
            to,
            times: span.times.wrapping_add(1),
        }),
        _ => None,
    }
}

// What a session that subscribed at once was told, where nothing was left out and nothing told twice.
fn span_of(turns: &[Turn]) -> Option<Span> {
    if turns.len() < 2 || turns[0] != (Turn::Greeted { capability: 3 }) {
        return None;
    }
    let Turn::Subscribed { length } = turns[1] else {
        return None;
    };
    let mut span = Span {
        from: length,
        to: length,
        times: 0,
    };
    for turn in &turns[2..] {
        span = span_after(span, *turn)?;
    }
    Some(span)
}

/// Which rows a subscriber chose.
#[derive(Clone, Copy)]
pub(crate) enum Chosen {
    /// Each row.
    All,
    /// Those of two symbols.
    OfAbAndCd,
    /// Those of one symbol.
    OfKx,
}

fn is_chosen(chosen: Chosen, row: &Row) -> bool {
    match chosen {
        Chosen::All => true,
        Chosen::OfAbAndCd => row.symbol == AB || row.symbol == CD,
        Chosen::OfKx => row.symbol == KX,
    }
}

// The chosen rows of an update.
fn chosen_of(rt: &impl Abort, alloc: Global, rows: &[Row], chosen: Chosen) -> Vec<Row> {
    let mut kept = Vec::new(alloc);
    for row in rows {
        if is_chosen(chosen, row) {
            kept.push(*row).expect(rt, "memory");
        }
    }
    kept
}

// The message of an entry of the log, if it has one.
fn put_told(rt: &impl Abort, alloc: Global, out: &mut Vec<u8>, mark: Mark, chosen: Chosen) {
    let Mark::Update(feed, number) = mark else {
        put(rt, out, END_TOLD);
        return;
    };
    let rows = rows_of(rt, alloc, feed, number);
    let rows = chosen_of(rt, alloc, rows.as_slice(), chosen);
    if !rows.is_empty() {
        let message = told_of(rt, alloc, rows.as_slice());
        put(rt, out, message.as_slice());
    }
}

// All that a subscriber is to be sent: the answers to its handshake and its subscription, and the messages of these entries.
fn wanted(
    rt: &impl Abort,
    alloc: Global,
    answer: &[u8],
    marks: &[Mark],
    chosen: Chosen,
) -> Vec<u8> {
    let mut out = Vec::from_slice(alloc, GREETED).expect(rt, "memory");
    put(rt, &mut out, answer);
    for mark in marks {
        put_told(rt, alloc, &mut out, *mark, chosen);
    }
    out
}

// The message at the front of these bytes, and the bytes after it.
fn split_message(bytes: &[u8]) -> Option<(&[u8], &[u8])> {
    if bytes.len() < 8 {
        return None;
    }
    let length = u32::from_le_bytes([bytes[4], bytes[5], bytes[6], bytes[7]]) as usize;
    if length < 8 || length > bytes.len() {
        return None;
    }
    Some(bytes.split_at(length))
}

// How many times a subscriber was told of the end of the date.
fn ends_in(sent: &[u8]) -> Option<u32> {
    let mut left = sent.strip_prefix(GREETED)?;
    let mut ends = 0u32;
    for _ in 0..sent.len() {
        if left.is_empty() {
            return Some(ends);
        }
        let (message, rest) = split_message(left)?;
        if message == END_TOLD {
            ends = ends.wrapping_add(1);
        }
        left = rest;
    }
    None
}

/// Whether a subscriber was told of each entry from the length of its subscription on, byte by byte, once and in at least two
/// spans, and once of the end of the date.
pub(crate) fn is_told(
    rt: &impl Abort,
    alloc: Global,
    heard: &Heard,
    answer: &[u8],
    marks: &[Mark],
    chosen: Chosen,
) -> bool {
    let Some(span) = span_of(heard.turns.as_slice()) else {
        return false;
    };
    let from = span.from as usize;
    if from > marks.len() || span.to as usize != marks.len() || span.times < 2 {
        return false;
    }
    let wanted = wanted(rt, alloc, answer, &marks[from..], chosen);
    let sent = heard.sent.as_slice();
    sent == wanted.as_slice() && ends_in(sent) == Some(1)
}
