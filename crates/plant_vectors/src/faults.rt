//! Sessions whose link fails or times out.
use outside_mem::Taking;
use q_values::{NANOSECONDS_PER_DAY, Turn};
use session::End;
use std::alloc::Global;
use std::process::Abort;
use std::sync::Wait;
use test_sessions::bytes::{
    DONE, FIRST, GREETED, GREETING, NO_ROW, ONE_ROW, ORDERED, QUERY, SECOND, THIRD, UPDATE,
};
use test_sessions::{GREETED_TURN, LOGGED_TURN, NOW, Read, Wanted, script_goes, script_goes_at};

const QUIET_TURN: Turn = Turn::Quiet {
    length: 0,
    now: NOW,
};

fn third_idle_ends<R: Abort + Wait>(rt: &R, alloc: Global) -> bool {
    let wanted = Wanted {
        end: End::Idle,
        sent: &[],
        turns: &[QUIET_TURN, QUIET_TURN, QUIET_TURN],
    };
    let reads = [Read::Idle, Read::Idle, Read::Idle];
    script_goes(rt, alloc, &reads, &[], wanted).expect(rt, "memory")
}

fn third_read_fails<R: Abort + Wait>(rt: &R, alloc: Global) -> bool {
    let wanted = Wanted {
        end: End::ReadFault,
        sent: &[],
        turns: &[],
    };
    let reads = [Read::Bytes(b"u"), Read::Bytes(b":"), Read::Fault];
    script_goes(rt, alloc, &reads, &[], wanted).expect(rt, "memory")
}

fn first_write_fails<R: Abort + Wait>(rt: &R, alloc: Global) -> bool {
    let wanted = Wanted {
        end: End::WriteFault,
        sent: &[],
        turns: &[GREETED_TURN],
    };
    let reads = [Read::Bytes(GREETING)];
    script_goes(rt, alloc, &reads, &[Taking::Front(0)], wanted).expect(rt, "memory")
}

#[test]
fn idle_and_link_faults(rt: HostRuntime) {
    assert!(rt; third_idle_ends(&rt, rt.alloc()));
    assert!(rt; third_read_fails(&rt, rt.alloc()));
    assert!(rt; first_write_fails(&rt, rt.alloc()));
}

/// What was logged stays logged where a later read fails.
#[test]
fn read_fault_behind_an_update(rt: HostRuntime) {
    let wanted = Wanted {
        end: End::ReadFault,
        sent: &[GREETED, DONE],
        turns: &[GREETED_TURN, LOGGED_TURN],
    };
    let reads = [Read::Bytes(GREETING), Read::Bytes(UPDATE), Read::Fault];
    assert!(rt; script_goes(&rt, rt.alloc(), &reads, &[], wanted).expect(&rt, "memory"));
}

/// What was sent ends with the prefix of the response that was written.
#[test]
fn write_fault_within_an_answer(rt: HostRuntime) {
    let wanted = Wanted {
        end: End::WriteFault,
        sent: &[GREETED, DONE, &ONE_ROW[..20]],
        turns: &[GREETED_TURN, LOGGED_TURN, Turn::Answered { length: 1 }],
    };
    let reads = [
        Read::Bytes(GREETING),
        Read::Bytes(UPDATE),
        Read::Bytes(QUERY),
    ];
    let writes = [Taking::All, Taking::All, Taking::Front(20)];
    assert!(rt; script_goes(&rt, rt.alloc(), &reads, &writes, wanted).expect(&rt, "memory"));
}

fn two_idles_go<R: Abort + Wait>(rt: &R, alloc: Global) -> bool {
    let wanted = Wanted {
        end: End::Closed,
        sent: &[GREETED, NO_ROW],
        turns: &[
            QUIET_TURN,
            GREETED_TURN,
            QUIET_TURN,
            Turn::Answered { length: 0 },
        ],
    };
    let reads = [
        Read::Idle,
        Read::Bytes(GREETING),
        Read::Idle,
        Read::Bytes(QUERY),
    ];
    script_goes(rt, alloc, &reads, &[], wanted).expect(rt, "memory")
}

fn three_idles_end<R: Abort + Wait>(rt: &R, alloc: Global) -> bool {
    let wanted = Wanted {
        end: End::Idle,
        sent: &[GREETED],
        turns: &[QUIET_TURN, GREETED_TURN, QUIET_TURN, QUIET_TURN],
    };
    let reads = [
        Read::Idle,
        Read::Bytes(GREETING),
        Read::Idle,
        Read::Bytes(&QUERY[..9]),
        Read::Idle,
    ];
    script_goes(rt, alloc, &reads, &[], wanted).expect(rt, "memory")
}

/// Read timeouts between the bytes are counted, and end no date.
#[test]
fn idles_between_bytes(rt: HostRuntime) {
    assert!(rt; two_idles_go(&rt, rt.alloc()));
    assert!(rt; three_idles_end(&rt, rt.alloc()));
}

fn idle_rolls<R: Abort + Wait>(rt: &R, alloc: Global) -> bool {
    let wanted = Wanted {
        end: End::Closed,
        sent: &[GREETED, DONE, DONE, DONE, ORDERED],
        turns: &[
            GREETED_TURN,
            LOGGED_TURN,
            Turn::Logged { place: 1, now: NOW },
            Turn::Logged { place: 2, now: NOW },
            Turn::Rolled {
                place: 3,
                now: NOW + NANOSECONDS_PER_DAY,
            },
            Turn::Answered { length: 4 },
        ],
    };
    let reads = [
        Read::Bytes(GREETING),
        Read::Bytes(FIRST),
        Read::Bytes(SECOND),
        Read::Bytes(THIRD),
        Read::Idle,
        Read::Bytes(QUERY),
    ];
    let readings = [NOW, NOW, NOW, NOW + NANOSECONDS_PER_DAY];
    script_goes_at(rt, alloc, &readings, &reads, &[], wanted).expect(rt, "memory")
}

/// A read timeout on the next date ends the open one, whose rows are then shown by symbol.
#[test]
fn idle_ends_the_date(rt: HostRuntime) {
    assert!(rt; idle_rolls(&rt, rt.alloc()));
}
