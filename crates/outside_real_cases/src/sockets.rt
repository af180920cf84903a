//! The port and the link of a connection, on real sockets of this machine, and the link over a stream that fails as planned.
use outside_api::{Got, Link};
use outside_real::{OpenPort, PortRefusal, ReadTimeout, SocketLink, Wakers};
use std::io::{ErrorKind, Read, Write};
use std::net::{Shutdown, TcpListener, TcpStream};
use std::os::fd::{AsRawFd, RawFd};
use std::time::{Duration, Instant};
use std::{io, thread};

/// A port of 127.0.0.1 that nothing listens on.
fn free_port(rt: &HostRuntime) -> Option<u16> {
    let listener = TcpListener::bind(rt, ("127.0.0.1", 0)).ok()?;
    Some(listener.local_addr().ok()?.port())
}

/// Both ends of a new connection: the client's, and the one that was accepted.
pub(crate) fn connected(rt: &HostRuntime) -> Option<(TcpStream, TcpStream)> {
    let open = OpenPort::listen(rt, free_port(rt)?).ok()?;
    let client = TcpStream::connect(rt, ("127.0.0.1", open.port())).ok()?;
    Some((client, open.accept(rt).ok()??))
}

/// What a value is that may go to another thread.
fn sent<T: Send + Drop>(value: T) -> T {
    value
}

pub(crate) fn read_two<L: Link>(link: &mut L) -> (Got, [u8; 2]) {
    let mut buf = [0; 2];
    let got = link.read(&mut buf);
    (got, buf)
}

#[test]
fn bytes_pass_and_a_read_times_out(rt: HostRuntime) {
    let wakers = Wakers::new(rt.alloc());
    let (mut client, stream) = connected(&rt).expect(&rt, "no port");
    let mut link = sent(SocketLink::new(&rt, &wakers, stream));
    let start = Instant::now(&rt).expect(&rt, "a reading");
    assert_eq!(rt; read_two(&mut link), (Got::Idle, [0, 0]));
    let waited = start.elapsed(&rt).expect(&rt, "a reading");
    assert!(rt; waited >= Duration::from_millis(45) && waited < Duration::from_millis(2_000));
    client.write_all(b"abc").expect(&rt, "a connection");
    assert_eq!(rt; read_two(&mut link), (Got::Bytes(2), *b"ab"));
    assert_eq!(rt; read_two(&mut link), (Got::Bytes(1), *b"c\x00"));
    client.shutdown(Shutdown::Write).expect(&rt, "a connection");
    assert_eq!(rt; read_two(&mut link), (Got::End, [0, 0]));
    assert_eq!(rt; read_two(&mut link), (Got::End, [0, 0]));
    assert!(rt; link.write(b"xyz").is_ok(), "the client may still read");
    drop(link);
    let mut all = Vec::new(rt.alloc());
    client.read_to_end(&mut all).expect(&rt, "a connection");
    assert_eq!(rt; all.as_slice(), b"xyz".as_slice());
}

/// Reads to the end, and gives how many bytes came.
fn read_all(mut stream: TcpStream) -> io::Result<u64> {
    let mut buf = [0; 4096];
    let mut count = 0u64;
    for _ in 0..u64::MAX {
        match stream.read(&mut buf)? {
            0 => break,
            n => count = count.wrapping_add(n as u64),
        }
    }
    Ok(count)
}

#[test]
fn ten_million_bytes_in_one_write(rt: HostRuntime) {
    let wakers = Wakers::new(rt.alloc());
    let (client, stream) = connected(&rt).expect(&rt, "no port");
    let mut link = SocketLink::new(&rt, &wakers, stream);
    let mut bytes = Vec::new(rt.alloc());
    bytes.resize(10_000_000, 7).expect(&rt, "memory");
    let reader = match thread::spawn(&rt, move || read_all(client)) {
        Ok(reader) => reader,
        Err(_) => panic!(rt; "no thread"),
    };
    assert!(rt; link.write(&bytes).is_ok());
    drop(link);
    assert_eq!(rt; reader.join(&rt).expect(&rt, "a result"), 10_000_000);
}

// A client that closes without having read what it was sent resets the connection.
#[test]
fn a_client_that_vanishes_is_a_fault(rt: HostRuntime) {
    let wakers = Wakers::new(rt.alloc());
    let (client, stream) = connected(&rt).expect(&rt, "no port");
    let mut link = SocketLink::new(&rt, &wakers, stream);
    assert!(rt; link.write(b"unread").is_ok());
    thread::sleep(&rt, Duration::from_millis(20));
    drop(client);
    thread::sleep(&rt, Duration::from_millis(20));
    assert_eq!(rt; read_two(&mut link), (Got::Failed, [0, 0]));
    assert!(rt; link.write(b"more").is_err());
}

// Connections that are gone again before they are accepted are links that fail or end; the port goes on.
#[test]
fn clients_that_are_gone_before_they_are_accepted(rt: HostRuntime) {
    let wakers = Wakers::new(rt.alloc());
    let open = OpenPort::listen(&rt, free_port(&rt).expect(&rt, "no port")).expect(&rt, "a port");
    for _ in 0..5u32 {
        let client = TcpStream::connect(&rt, ("127.0.0.1", open.port())).expect(
            &rt,
            "a connection",
        );
        drop(client);
    }
    let mut accepted = 0u32;
    for _ in 0..5u32 {
        if let Some(stream) = open.accept(&rt).expect(&rt, "a connection") {
            let mut link = SocketLink::new(&rt, &wakers, stream);
            assert_eq!(rt; read_two(&mut link), (Got::End, [0, 0]));
            accepted = accepted.wrapping_add(1);
        }
    }
    assert_eq!(rt; accepted, 5);
}

// A client that was told something without asking is looked after soon: 20 reads that time out take less than 20 times 50
// milliseconds.
#[test]
fn reads_time_out_soon_after_a_publication(rt: HostRuntime) {
    let wakers = Wakers::new(rt.alloc());
    let (client, stream) = connected(&rt).expect(&rt, "no port");
    let mut link = SocketLink::new(&rt, &wakers, stream);
    assert!(rt; link.write(b"told").is_ok());
    let start = Instant::now(&rt).expect(&rt, "a reading");
    for _ in 0..20u32 {
        assert_eq!(rt; read_two(&mut link), (Got::Idle, [0, 0]));
    }
    let waited = start.elapsed(&rt).expect(&rt, "a reading");
    assert!(rt; waited < Duration::from_millis(900));
    drop(client);
}

#[test]
fn a_port_is_listened_on_once(rt: HostRuntime) {
    let port = free_port(&rt).expect(&rt, "no port");
    let open = OpenPort::listen(&rt, port).expect(&rt, "a port");
    assert_eq!(rt; open.port(), port);
    assert_eq!(rt; OpenPort::listen(&rt, port).err(), Some(PortRefusal::InUse));
    let start = Instant::now(&rt).expect(&rt, "a reading");
    assert!(rt;
        open.accept(&rt).expect(&rt, "a connection").is_none(),
        "no connection came"
    );
    let waited = start.elapsed(&rt).expect(&rt, "a reading");
    assert!(rt; waited >= Duration::from_millis(45) && waited < Duration::from_millis(2_000));
    drop(open);
    assert!(rt; OpenPort::listen(&rt, port).is_ok(), "it is free again");
}

/// Gives an interruption, two timeouts, a fault, one byte and the end, in this order. Of what is written it takes one byte at
/// a time, and fails at the third.
#[derive(Drop)]
struct Planned {
    reads: u32,
    writes: u32,
}

impl Read for Planned {
    fn read(&mut self, buf: &mut [u8]) -> io::Result<usize> {
        self.reads = self.reads.wrapping_add(1);
        match (self.reads, buf) {
            (1, _) => Err(io::Error::from(ErrorKind::Interrupted)),
            (2, _) => Err(io::Error::from(ErrorKind::WouldBlock)),
            (3, _) => Err(io::Error::from(ErrorKind::TimedOut)),
            (4, _) => Err(io::Error::from(ErrorKind::ConnectionReset)),
            (5, [first, ..]) => {
                *first = 7;
                Ok(1)
            }
            _ => Ok(0),
        }
    }
}

impl Write for Planned {
    fn write(&mut self, buf: &[u8]) -> io::Result<usize> {
        self.writes = self.writes.wrapping_add(1);
        match self.writes {
            1 => Err(io::Error::from(ErrorKind::Interrupted)),
            4 => Err(io::Error::from(ErrorKind::BrokenPipe)),
            _ => Ok(buf.len().min(1)),
        }
    }

    fn flush(&mut self) -> io::Result<()> {
        Ok(())
    }
}

impl AsRawFd for Planned {
    fn as_raw_fd(&self) -> RawFd {
        -1
    }
}

impl ReadTimeout for Planned {
    fn wait_at_most(&self, _milliseconds: u64) -> io::Result<()> {
        Ok(())
    }
}

#[test]
fn a_stream_that_fails_as_planned(rt: HostRuntime) {
    let wakers = Wakers::new(rt.alloc());
    let planned = Planned {
        reads: 0,
        writes: 0,
    };
    let mut link = SocketLink::new(&rt, &wakers, planned);
    let wanted = [
        (Got::Idle, [0, 0]),
        (Got::Idle, [0, 0]),
        (Got::Failed, [0, 0]),
        (Got::Bytes(1), [7, 0]),
        (Got::End, [0, 0]),
        (Got::End, [0, 0]),
    ];
    for wanted in wanted {
        assert_eq!(rt; read_two(&mut link), wanted);
    }
    assert!(rt; link.write(b"ab").is_ok());
    assert!(rt; link.write(b"c").is_err());
}
