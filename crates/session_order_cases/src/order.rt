//! In which order a session calls its devices: what it asks of the access, where it pauses, and that each turn is noted
//! before its bytes are written.
use crate::watched::{Call, calls_of, number_of};
use q_values::NANOSECONDS_PER_DAY;
use std::alloc::Global;
use std::process::Abort;
use std::sync::Wait;
use test_sessions::bytes::{GREETING, QUERY, UPDATE};
use test_sessions::{NOW, Read, clock_of, link_of};

// Whether a session with these readings and reads makes these calls, and no others.
fn makes<R: Abort + Wait>(
    rt: &R,
    alloc: Global,
    readings: &[i64],
    reads: &[Read],
    calls: &[Call],
) -> bool {
    let link = link_of(alloc, reads, &[]).expect(rt, "memory");
    match clock_of(alloc, readings).expect(rt, "memory") {
        Some(mut clock) => calls_of(rt, alloc, link, &mut clock) == Some(number_of(calls)),
        None => false,
    }
}

// Fails with a body that writes the response first, and then notes its turn.
#[test]
fn a_turn_is_noted_before_its_bytes(rt: HostRuntime) {
    let reads = [Read::Bytes(GREETING), Read::Bytes(UPDATE)];
    let calls = [
        Call::Note,
        Call::Write,
        Call::Update,
        Call::Note,
        Call::Write,
    ];
    assert!(rt; makes(&rt, rt.alloc(), &[NOW], &reads, &calls));
}

// Fails with a body that doesn't pause after an update's roll, or pauses at another point, or before the roll.
#[test]
fn an_update_pauses_after_its_roll(rt: HostRuntime) {
    let reads = [Read::Bytes(GREETING), Read::Bytes(UPDATE)];
    let calls = [
        Call::Note,
        Call::Write,
        Call::Update,
        Call::PauseRolled,
        Call::Note,
        Call::Note,
        Call::Write,
    ];
    assert!(rt;
        makes(
            &rt,
            rt.alloc(),
            &[NOW + NANOSECONDS_PER_DAY],
            &reads,
            &calls
        )
    );
}

// Fails with a body that doesn't pause before it computes an answer, or pauses at another point, or before the snapshot.
#[test]
fn a_text_pauses_between_snapshot_and_answer(rt: HostRuntime) {
    let reads = [Read::Bytes(GREETING), Read::Bytes(QUERY)];
    let calls = [
        Call::Note,
        Call::Write,
        Call::Snapshot,
        Call::PauseEvaluating,
        Call::Note,
        Call::Write,
    ];
    assert!(rt; makes(&rt, rt.alloc(), &[NOW], &reads, &calls));
}

// Fails with a body that doesn't pause at a read timeout's roll, or pauses at another point, or where nothing rolled.
#[test]
fn a_timeout_pauses_after_its_roll(rt: HostRuntime) {
    let reads = [Read::Bytes(GREETING), Read::Idle, Read::Idle];
    let calls = [
        Call::Note,
        Call::Write,
        Call::Tick,
        Call::Note,
        Call::Tick,
        Call::PauseRolled,
        Call::Note,
    ];
    let readings = [NOW, NOW + NANOSECONDS_PER_DAY];
    assert!(rt; makes(&rt, rt.alloc(), &readings, &reads, &calls));
}
