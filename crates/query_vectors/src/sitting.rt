//! What a session is given and asked, and whether it answers so.
use crate::building::{message_of, put, text_of};
use q_values::{Limits, Turn};
use session::End;
use std::alloc::Global;
use std::process::Abort;
use std::sync::Wait;
use test_sessions::bytes::{DONE, GREETED, GREETING};
use test_sessions::{GREETED_TURN, Outcome, sat};

/// A text, and the bytes of the value that answers it.
pub type Asked<'a> = (&'a [u8], &'a [u8]);

/// What a session is given before its texts: updates, as bytes, with the readings of the clock, and the turns that they make.
#[derive(Clone, Copy)]
pub struct Given<'a> {
    /// The messages.
    pub updates: &'a [u8],
    /// The readings of the clock.
    pub readings: &'a [i64],
    /// The responses to these messages.
    pub sent: &'a [u8],
    /// Their turns.
    pub turns: &'a [Turn],
}

/// The bytes that come in: the handshake, the updates, and then a sync message for each text.
fn input_of(rt: &impl Abort, alloc: Global, given: Given, texts: &[Asked]) -> Vec<u8> {
    let mut input = Vec::from_slice(alloc, GREETING).expect(rt, "memory");
    put(rt, &mut input, given.updates);
    for (text, _) in texts {
        let message = text_of(rt, alloc, 1, *text);
        put(rt, &mut input, message.as_slice());
    }
    input
}

/// The bytes that are to go out.
fn output_of(rt: &impl Abort, alloc: Global, given: Given, texts: &[Asked]) -> Vec<u8> {
    let mut output = Vec::from_slice(alloc, GREETED).expect(rt, "memory");
    put(rt, &mut output, given.sent);
    for (_, value) in texts {
        let response = message_of(rt, alloc, 2, *value);
        put(rt, &mut output, response.as_slice());
    }
    output
}

/// The turns that are to be noted: those of the updates, and then one for each text, over a chronicle of this length.
fn turns_of(rt: &impl Abort, alloc: Global, given: Given, count: usize, length: u64) -> Vec<Turn> {
    let mut turns = vec![in alloc; GREETED_TURN; 1].expect(rt, "memory");
    turns.extend_from_slice(given.turns).expect(rt, "memory");
    for _ in 0..count {
        turns.push(Turn::Answered { length }).expect(rt, "memory");
    }
    turns
}

/// Whether a session that is given these updates answers these texts so, over a chronicle of this length.
pub fn answers<R: Abort + Wait>(
    rt: &R,
    alloc: Global,
    given: Given,
    length: u64,
    texts: &[Asked],
) -> bool {
    let input = input_of(rt, alloc, given, texts);
    let output = output_of(rt, alloc, given, texts);
    let turns = turns_of(rt, alloc, given, texts.len(), length);
    let limits = Limits::standard();
    match sat(rt, alloc, &limits, given.readings, input.as_slice()).expect(rt, "memory") {
        Some(
            Outcome {
                end,
                link,
                recorder,
            },
        ) => {
            end == End::Closed
                && link.taken() == output.as_slice()
                && recorder.turns() == turns.as_slice()
        }
        None => false,
    }
}

/// The responses to this number of updates that were logged.
pub fn done_times(rt: &impl Abort, alloc: Global, times: usize) -> Vec<u8> {
    let mut sent = Vec::new(alloc);
    for _ in 0..times {
        put(rt, &mut sent, DONE);
    }
    sent
}
