//! The link and the devices of the runtime.
use outside_api::{Clock as _, Disk, Got, Link, LinkFault, Recorder};
use plant_edge::{StandardLink, StandardOutside, Wakers};
use program_outside::{Cause, FileRefusal, MakeFault, Outside};
use q_values::Turn;
use std::alloc::Global;
use std::io::{ErrorKind, Read, Write};
use std::net::{TcpListener, TcpStream};
use std::sync::atomic::AtomicU64;
use std::sync::atomic::Ordering::SeqCst;
use std::time::{Clock, Duration};
use std::{env, fs, io, process};

/// Gives an interruption, a timeout, a fault, one byte and the end, in this order.
#[derive(Drop)]
struct FaultyReader {
    reads: u32,
}

impl Read for FaultyReader {
    fn read(&mut self, buf: &mut [u8]) -> io::Result<usize> {
        self.reads = self.reads.saturating_add(1);
        match (self.reads, buf) {
            (1, _) => Err(io::Error::from(ErrorKind::Interrupted)),
            (2, _) => Err(io::Error::from(ErrorKind::TimedOut)),
            (3, _) => Err(io::Error::from(ErrorKind::BrokenPipe)),
            (4, [first, ..]) => {
                *first = 7;
                Ok(1)
            }
            _ => Ok(0),
        }
    }
}

/// Takes no byte.
#[derive(Drop)]
struct FullWriter;

impl Write for FullWriter {
    fn write(&mut self, _buf: &[u8]) -> io::Result<usize> {
        Err(io::Error::from(ErrorKind::BrokenPipe))
    }

    fn flush(&mut self) -> io::Result<()> {
        Ok(())
    }
}

fn read_one<L: Link>(link: &mut L) -> (Got, u8) {
    let mut buf = [0u8];
    let got = link.read(&mut buf);
    (got, buf[0])
}

fn write_one<L: Link>(link: &mut L) -> Result<(), LinkFault> {
    link.write(&[3])
}

#[test]
fn idle_and_link_faults(rt: HostRuntime) {
    let mut link = StandardLink::new(&rt, FaultyReader { reads: 0 }, FullWriter);
    let wanted = [
        (Got::Idle, 0),
        (Got::Failed, 0),
        (Got::Bytes(1), 7),
        (Got::End, 0),
        (Got::End, 0),
    ];
    for (got, byte) in wanted {
        assert_eq!(rt; read_one(&mut link), (got, byte));
    }
    assert!(rt; write_one(&mut link).is_err());
}

/// Would block a number of times, and then gives one byte at each read.
#[derive(Drop)]
struct LateReader {
    blocked: u32,
}

impl Read for LateReader {
    fn read(&mut self, buf: &mut [u8]) -> io::Result<usize> {
        if self.blocked > 0 {
            self.blocked -= 1;
            return Err(io::Error::from(ErrorKind::WouldBlock));
        }
        match buf {
            [first, ..] => {
                *first = 7;
                Ok(1)
            }
            [] => Ok(0),
        }
    }
}

/// Takes one byte at a time. Before each it is interrupted once, and then would block once.
#[derive(Drop)]
struct SlowWriter {
    calls: u32,
}

impl Write for SlowWriter {
    fn write(&mut self, buf: &[u8]) -> io::Result<usize> {
        self.calls = self.calls.wrapping_add(1);
        match self.calls % 3 {
            1 => Err(io::Error::from(ErrorKind::Interrupted)),
            2 => Err(io::Error::from(ErrorKind::WouldBlock)),
            _ => Ok(buf.len().min(1)),
        }
    }

    fn flush(&mut self) -> io::Result<()> {
        Ok(())
    }
}

/// A clock that counts how often it was asked to sleep a millisecond, and doesn't sleep.
#[derive(Drop)]
struct CountingClock {
    sleeps: AtomicU64,
}

impl Clock for CountingClock {
    fn monotonic(&self) -> io::Result<Duration> {
        Ok(Duration::from_millis(0))
    }

    fn since_1970(&self) -> io::Result<Duration> {
        Ok(Duration::from_millis(0))
    }

    fn sleep(&self, duration: Duration) {
        if duration == Duration::from_millis(1) {
            self.sleeps.fetch_add(1, SeqCst);
        }
    }
}

fn counting_clock() -> CountingClock {
    CountingClock {
        sleeps: AtomicU64::new(0),
    }
}

// Fails with a body that answers `Idle` at the first read that would block, and with one that tries again without a pause.
#[test]
fn a_read_that_would_block_waits_and_times_out(rt: HostRuntime) {
    let clock = counting_clock();
    let mut link = StandardLink::new(&clock, LateReader { blocked: 55 }, FullWriter);
    assert_eq!(rt; read_one(&mut link), (Got::Idle, 0));
    assert_eq!(rt; clock.sleeps.load(SeqCst), 50);
    assert_eq!(rt; read_one(&mut link), (Got::Bytes(1), 7));
    assert_eq!(rt; clock.sleeps.load(SeqCst), 55);
}

// Fails with a body that gives up at the first write that would block, and with one that tries again without a pause.
#[test]
fn a_write_that_would_block_waits(rt: HostRuntime) {
    let clock = counting_clock();
    let mut link = StandardLink::new(&clock, LateReader { blocked: 0 }, SlowWriter { calls: 0 });
    for _ in 0..5u32 {
        assert!(rt; write_one(&mut link).is_ok());
    }
    assert_eq!(rt; clock.sleeps.load(SeqCst), 5);
}

fn use_once<O: Outside>(outside: &mut O) -> bool {
    let Ok(mut link) = outside.standard() else {
        return false;
    };
    let mut recorder = outside.recorder();
    recorder.note(Turn::Passed);
    let _gate = outside.gate();
    let written = write_one(&mut link).is_ok();
    outside.warn(b"plant: idle");
    let said = outside.say(b"a line").is_ok();
    outside.back(Some(link), None, Some(recorder));
    written && said
}

/// Keeps what is written to it.
#[derive(Drop)]
struct Kept {
    bytes: Vec<u8>,
}

impl Write for Kept {
    fn write(&mut self, buf: &[u8]) -> io::Result<usize> {
        self.bytes.extend_from_slice(buf)?;
        Ok(buf.len())
    }

    fn flush(&mut self) -> io::Result<()> {
        Ok(())
    }
}

#[test]
fn warnings_are_lines(rt: HostRuntime) {
    let errors = Kept {
        bytes: Vec::new(rt.alloc()),
    };
    let wakers = Wakers::new(rt.alloc());
    let mut outside = StandardOutside::new(&rt, &wakers, errors);
    outside.warn(b"plant: idle");
    outside.warn(b"plant: usage");
    assert_eq!(rt;
        outside.errors().bytes.as_slice(),
        b"plant: idle\nplant: usage\n".as_slice()
    );
}

#[test]
fn standard_output_takes_bytes(rt: HostRuntime) {
    let wakers = Wakers::new(rt.alloc());
    let mut outside = StandardOutside::new(&rt, &wakers, FullWriter);
    assert!(rt; use_once(&mut outside));
}

/// The path of a folder for one test, which is not there yet.
fn fresh_path(rt: &HostRuntime, test: &str) -> io::Result<String> {
    let folder = env::temp_dir(rt)?;
    let id = process::id(rt.process());
    let path = format!(in rt.alloc(); "{}/plant_edge_{id}_{test}", folder.display())?;
    Ok(path)
}

/// The cause of the fault where a folder isn't opened.
fn cause_at<O: Outside>(outside: &mut O, alloc: Global, path: &str) -> Option<Cause> {
    match outside.folder(alloc, path) {
        Ok(disk) => {
            outside.keep(disk);
            None
        }
        Err(MakeFault { cause }) => Some(cause),
    }
}

#[test]
fn folders_are_made_opened_and_locked(rt: HostRuntime) {
    let path = fresh_path(&rt, "folder").expect(&rt, "a folder");
    let alloc = rt.alloc();
    let wakers = Wakers::new(rt.alloc());
    let mut outside = StandardOutside::new(&rt, &wakers, FullWriter);
    assert_eq!(rt;
        cause_at(&mut outside, alloc, path.as_str()),
        Some(Cause::Missing)
    );
    let mut disk = outside
        .make_folder(alloc, path.as_str())
        .expect(&rt, "a folder");
    disk.write_at(0, 0, b"abc").expect(&rt, "a disk");
    assert_eq!(rt;
        cause_at(&mut outside, alloc, path.as_str()),
        Some(Cause::InUse)
    );
    outside.keep(disk);
    assert_eq!(rt; cause_at(&mut outside, alloc, path.as_str()), None);
    let file = format!(in alloc; "{path}/f0").expect(&rt, "memory");
    assert_eq!(rt;
        cause_at(&mut outside, alloc, file.as_str()),
        Some(Cause::NotAFolder)
    );
    let bytes = outside
        .read_file(alloc, file.as_str())
        .expect(&rt, "a file");
    assert_eq!(rt; bytes.as_slice(), b"abc".as_slice());
    let absent = format!(in alloc; "{path}/f1").expect(&rt, "memory");
    let refused = outside.read_file(alloc, absent.as_str());
    assert!(rt; matches!(&refused, Err(FileRefusal::MakeFault(Cause::Missing))));
    let _reading = outside.clock().now();
    fs::remove_dir_all(&rt, path.as_str()).expect(&rt, "a file");
}

/// A port of this machine that nothing listens on.
fn free_port(rt: &HostRuntime) -> io::Result<u16> {
    let listener = TcpListener::bind(rt, ("127.0.0.1", 0))?;
    Ok(listener.local_addr()?.port())
}

#[test]
fn a_port_is_listened_on_once(rt: HostRuntime) {
    let port = free_port(&rt).expect(&rt, "a port");
    let wakers = Wakers::new(rt.alloc());
    let mut outside = StandardOutside::new(&rt, &wakers, FullWriter);
    outside.listen(port).expect(&rt, "a port");
    let mut other = StandardOutside::new(&rt, &wakers, FullWriter);
    let refused = MakeFault {
        cause: Cause::PortInUse,
    };
    assert_eq!(rt; other.listen(port), Err(refused));
    assert!(rt;
        outside.accept().expect(&rt, "a connection").is_none(),
        "no connection came"
    );
}

#[test]
fn a_connection_is_a_link(rt: HostRuntime) {
    let port = free_port(&rt).expect(&rt, "a port");
    let wakers = Wakers::new(rt.alloc());
    let mut outside = StandardOutside::new(&rt, &wakers, FullWriter);
    outside.listen(port).expect(&rt, "a port");
    let mut client = TcpStream::connect(&rt, ("127.0.0.1", port)).expect(&rt, "a connection");
    let Some(mut link) = outside.accept().expect(&rt, "a connection") else {
        panic!(rt; "no connection");
    };
    assert_eq!(rt; read_one(&mut link), (Got::Idle, 0));
    client.write_all(&[7]).expect(&rt, "a connection");
    assert_eq!(rt; read_one(&mut link), (Got::Bytes(1), 7));
    assert!(rt; write_one(&mut link).is_ok());
    let clock = outside.clock();
    let recorder = outside.recorder();
    outside.back(Some(link), Some(clock), Some(recorder));
    let mut all = Vec::new(rt.alloc());
    client.read_to_end(&mut all).expect(&rt, "a connection");
    assert_eq!(rt; all.as_slice(), [3].as_slice());
}
