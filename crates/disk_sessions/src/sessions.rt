//! Sessions that meet a call of the disk that fails.

use crate::sitting::{Wanted, goes};
use outside_mem::Calling;
use q_values::{NANOSECONDS_PER_DAY, Turn};
use std::alloc::Global;
use std::process::Abort;
use std::sync::Wait;
use test_plants::{LOAD_CALLS, NOW, one_failing};
use test_sessions::bytes::{DONE, GREETED, GREETING, ONE_ROW, QUERY, UPDATE};
use test_sessions::{GREETED_TURN, Read};

const NEXT_DAY: i64 = NOW + NANOSECONDS_PER_DAY;

// The error `disk`.
const DISK: &[u8] = b"\x01\x02\0\0\x0e\0\0\0\x80disk\0";

const GREETS: Read<'static> = Read::Bytes(GREETING);

const UPDATES: Read<'static> = Read::Bytes(UPDATE);

const ASKS: Read<'static> = Read::Bytes(QUERY);

// The calls of the disk before those of the first update, before those of what comes next, and before what follows a roll: an
// update makes four calls, and a roll seven.
const FIRST_UPDATE: u64 = LOAD_CALLS;

const AFTER_UPDATE: u64 = FIRST_UPDATE + 4;

const AFTER_ROLL: u64 = AFTER_UPDATE + 7;

const HOWS: [Calling; 3] = [
    Calling::FailsUndone,
    Calling::FailsDone,
    Calling::FailsTorn(1),
];

// The call after `calls` others fails, of an update. It is answered with the error, and sent again it is logged.
fn update_fails<R: Abort + Wait>(rt: &R, alloc: Global, calls: u64, how: Calling) -> bool {
    let wanted = Wanted {
        sent: &[GREETED, DISK, DONE, ONE_ROW],
        turns: &[
            GREETED_TURN,
            Turn::Failed { place: 0, now: NOW },
            Turn::Logged { place: 1, now: NOW },
            Turn::Answered { length: 2 },
        ],
        // the update, and the roll of the load
        entries: 2,
    };
    let callings = one_failing(alloc, calls, how).expect(rt, "memory");
    let reads = [GREETS, UPDATES, UPDATES, ASKS];
    goes(rt, alloc, callings, &[NOW], &reads, wanted)
}

#[test]
fn disk_error_of_an_update(rt: HostRuntime) {
    let alloc = rt.alloc();
    for calls in FIRST_UPDATE..AFTER_UPDATE {
        for how in HOWS {
            assert!(rt; update_fails(&rt, alloc, calls, how));
        }
    }
}

// The call after `calls` others fails, of a roll at a read timeout. At the next timeout the date ends.
fn roll_fails<R: Abort + Wait>(rt: &R, alloc: Global, calls: u64, how: Calling) -> bool {
    let wanted = Wanted {
        sent: &[GREETED, DONE, ONE_ROW],
        turns: &[
            GREETED_TURN,
            Turn::Logged { place: 0, now: NOW },
            Turn::Failed {
                place: 1,
                now: NEXT_DAY,
            },
            Turn::Rolled {
                place: 2,
                now: NEXT_DAY,
            },
            Turn::Answered { length: 3 },
        ],
        // the update and the roll
        entries: 2,
    };
    let callings = one_failing(alloc, calls, how).expect(rt, "memory");
    let reads = [GREETS, UPDATES, Read::Idle, Read::Idle, ASKS];
    goes(rt, alloc, callings, &[NOW, NEXT_DAY], &reads, wanted)
}

#[test]
fn disk_fault_at_a_timeout(rt: HostRuntime) {
    let alloc = rt.alloc();
    for calls in AFTER_UPDATE..AFTER_ROLL {
        for how in HOWS {
            assert!(rt; roll_fails(&rt, alloc, calls, how));
        }
    }
}

// The call after `calls` others fails, of the roll before an update of the next date. The update is answered with the error;
// sent again, it ends the date and is logged.
fn roll_of_an_update_fails<R: Abort + Wait>(
    rt: &R,
    alloc: Global,
    calls: u64,
    how: Calling,
) -> bool {
    let wanted = Wanted {
        sent: &[GREETED, DONE, DISK, DONE],
        turns: &[
            GREETED_TURN,
            Turn::Logged { place: 0, now: NOW },
            Turn::Failed {
                place: 1,
                now: NEXT_DAY,
            },
            Turn::Rolled {
                place: 2,
                now: NEXT_DAY,
            },
            Turn::Logged {
                place: 3,
                now: NEXT_DAY,
            },
        ],
        // the updates, and the roll between them
        entries: 3,
    };
    let callings = one_failing(alloc, calls, how).expect(rt, "memory");
    let reads = [GREETS, UPDATES, UPDATES, UPDATES];
    goes(rt, alloc, callings, &[NOW, NEXT_DAY], &reads, wanted)
}

#[test]
fn disk_error_of_a_roll(rt: HostRuntime) {
    let alloc = rt.alloc();
    for calls in AFTER_UPDATE..AFTER_ROLL {
        for how in HOWS {
            assert!(rt; roll_of_an_update_fails(&rt, alloc, calls, how));
        }
    }
}
