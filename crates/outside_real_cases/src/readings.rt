//! Readings of a clock, and files read whole.
use outside_api::Clock;
use outside_real::{ReadRefusal, RealClock, read_whole};
use std::cell::Cell;
use std::io::{ErrorKind, Read};
use std::time::Duration;
use std::{io, time};

/// A clock that stands, or isn't given.
#[derive(Drop)]
struct Standing {
    seconds: Cell<Option<u64>>,
}

impl time::Clock for Standing {
    fn monotonic(&self) -> io::Result<Duration> {
        Ok(Duration::from_secs(0))
    }

    fn since_1970(&self) -> io::Result<Duration> {
        match self.seconds.get() {
            Some(seconds) => Ok(Duration::new(seconds, 5)),
            None => Err(io::Error::from(ErrorKind::InvalidData)),
        }
    }
}

// 2024.01.02D09:30 is 1,704,187,800 seconds after 1970.01.01, and 757,503,000 after 2000.01.01.
#[test]
fn known_times(rt: HostRuntime) {
    let standing = Standing {
        seconds: Cell::new(None),
    };
    let mut clock = RealClock::new(&standing);
    let cases = [
        (None, -946_684_800_000_000_000),
        (Some(1_704_187_800), 757_503_000_000_000_005),
        (None, 757_503_000_000_000_005),
        (Some(0), -946_684_799_999_999_995),
        (Some(u64::MAX), i64::MAX),
    ];
    for (seconds, moment) in cases {
        standing.seconds.set(seconds);
        assert_eq!(rt; clock.now(), moment);
    }
    assert_eq!(rt; clock.faults(), 2);
}

// It was 2026 when this was written.
#[test]
fn machine_time(rt: HostRuntime) {
    let mut clock = RealClock::new(rt.clone().expect(&rt, "memory"));
    assert!(rt; clock.now() > 820_000_000_000_000_000);
    assert_eq!(rt; clock.faults(), 0);
}

/// Gives three bytes, one at a time, and then ends or fails.
#[derive(Drop)]
struct Three {
    left: u32,
    fails: bool,
}

impl Read for Three {
    fn read(&mut self, buf: &mut [u8]) -> io::Result<usize> {
        match buf {
            [first, ..] if self.left > 0 => {
                self.left -= 1;
                *first = b'a';
                Ok(1)
            }
            _ if self.fails => Err(io::Error::from(ErrorKind::BrokenPipe)),
            _ => Ok(0),
        }
    }
}

#[test]
fn whole_or_refused(rt: HostRuntime) {
    let cases = [
        (false, 3, None),
        (false, u64::MAX, None),
        (false, 2, Some(ReadRefusal::TooLong)),
        (false, 0, Some(ReadRefusal::TooLong)),
        (true, 4, Some(ReadRefusal::Failed(ErrorKind::BrokenPipe))),
        (true, 2, Some(ReadRefusal::TooLong)),
    ];
    for (fails, limit, refusal) in cases {
        let read = read_whole(rt.alloc(), Three { left: 3, fails }, limit);
        match read {
            Ok(bytes) => assert_eq!(rt; (bytes.as_slice(), refusal), (b"aaa".as_slice(), None)),
            Err(why) => assert_eq!(rt; Some(why), refusal),
        }
    }
}
