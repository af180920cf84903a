//! A client of a plant on a port, the bytes of its messages (KX, IPC reference), and the program that serves it.
use plant_run::run;
use program_outside::Outside;
use std::alloc::Global;
use std::io::{ErrorKind, Read, Write};
use std::net::{TcpListener, TcpStream};
use std::process::Abort;
use std::sync::Wait;
use std::thread::Threads;
use std::time::Duration;
use std::{io, thread};

/// The handshake of the user `u` with the password `p` and the capability 3.
pub const GREETING: &[u8] = b"u:p\x03\0";

/// The update of `trade` by one row: 0D09:30, KX, 10050, 200.
pub const UPDATE: &[u8] =
    b"\x01\x01\0\0B\0\0\0\0\0\x03\0\0\0\xf5.u.upd\0\xf5trade\0\0\0\x04\0\0\0\xf0\0\xf0\xd9\xce\x1a\x1f\
\0\0\xf5KX\0\xf9B'\0\0\0\0\0\0\xf9\xc8\0\0\0\0\0\0\0";

/// The text `exec count i from trade`.
pub const COUNT: &[u8] = b"\x01\x01\0\0\x25\0\0\0\x0a\0\x17\0\0\0exec count i from trade";

/// The text `select from trade`.
pub const SELECT: &[u8] = b"\x01\x01\0\0\x1f\0\0\0\x0a\0\x11\0\0\0select from trade";

/// The response `(::)` to an update that was logged.
pub const DONE: &[u8] = b"\x01\x02\0\0\x0a\0\0\0e\0";

/// What stands before the eight bytes of a long that is answered.
const LONG: &[u8] = b"\x01\x02\0\0\x11\0\0\0\xf9";

/// A port of 127.0.0.1 that nothing listens on.
pub fn free_port(rt: &HostRuntime) -> io::Result<u16> {
    let listener = TcpListener::bind(rt, ("127.0.0.1", 0))?;
    Ok(listener.local_addr()?.port())
}

/// Runs the program as `serve` of this many sessions on the port, over a plant in memory; gives its exit status.
pub fn serve<R: Abort + Threads + Wait + Sync, O: Outside>(
    rt: &R,
    alloc: Global,
    port: u16,
    sessions: u32,
    outside: &mut O,
) -> u8 {
    let mut words = Vec::new(alloc);
    for word in ["serve", "--port"] {
        words
            .push(String::from_str(alloc, word).expect(rt, "memory"))
            .expect(rt, "memory");
    }
    words
        .push(format!(in alloc; "{port}").expect(rt, "memory"))
        .expect(rt, "memory");
    words
        .push(String::from_str(alloc, "--sessions").expect(rt, "memory"))
        .expect(rt, "memory");
    words
        .push(format!(in alloc; "{sessions}").expect(rt, "memory"))
        .expect(rt, "memory");
    run(rt, alloc, &words, outside)
}

/// What clients on a thread find of a plant in memory that serves this many sessions meanwhile, and then ends with exit
/// status 0.
pub fn served<T, F, R: Abort + Threads + Wait + Sync, O: Outside>(
    threads: &R,
    rt: &HostRuntime,
    sessions: u32,
    outside: &mut O,
    clients: F,
) -> T
where
    T: Send + Drop + 'static,
    F: FnOnce(&HostRuntime, Global, u16) -> io::Result<T> + Send + Drop + 'static,
    requires { F.IsAlwaysCallable clients }
{
    let (theirs, alloc) = (rt.clone().expect(threads, "memory"), rt.alloc());
    let port = free_port(rt).expect(threads, "a port");
    let found = thread::spawn(threads, move || clients(&theirs, alloc, port)).expect(
        threads, "a thread",
    );
    assert_eq!(threads; serve(threads, alloc, port, sessions, outside), 0);
    found.join(threads).expect(threads, "a result")
}

/// A connection to the port, as soon as something listens on it.
pub fn connected(rt: &HostRuntime, port: u16) -> io::Result<TcpStream> {
    for _ in 0..10_000u32 {
        match TcpStream::connect(rt, ("127.0.0.1", port)) {
            Err(error) if error.kind() == ErrorKind::ConnectionRefused => {
                thread::sleep(rt, Duration::from_millis(1))
            }
            other => return other,
        }
    }
    Err(io::Error::from(ErrorKind::TimedOut))
}

/// A connection to the port, after its handshake.
pub fn greeted(rt: &HostRuntime, port: u16) -> io::Result<TcpStream> {
    let mut stream = connected(rt, port)?;
    stream.write_all(GREETING)?;
    let mut capability = [0];
    stream.read_exact(&mut capability)?;
    if capability == [3] {
        Ok(stream)
    } else {
        Err(io::Error::from(ErrorKind::InvalidData))
    }
}

/// The response to a message, header included.
pub fn asked(alloc: Global, stream: &mut TcpStream, message: &[u8]) -> io::Result<Vec<u8>> {
    stream.write_all(message)?;
    response(alloc, stream)
}

/// The next response, header included.
pub fn response(alloc: Global, stream: &mut TcpStream) -> io::Result<Vec<u8>> {
    let mut header = [0; 8];
    stream.read_exact(&mut header)?;
    let [_, _, _, _, a, b, c, d] = header;
    let length = u32::from_le_bytes([a, b, c, d]) as usize;
    let mut bytes = Vec::new(alloc);
    bytes.extend_from_slice(&header)?;
    bytes.resize(length.max(8), 0)?;
    stream.read_exact(&mut bytes.as_mut_slice()[8..])?;
    Ok(bytes)
}

/// Logs one row.
pub fn update(alloc: Global, stream: &mut TcpStream) -> io::Result<()> {
    let answer = asked(alloc, stream, UPDATE)?;
    if answer.as_slice() == DONE {
        Ok(())
    } else {
        Err(io::Error::from(ErrorKind::InvalidData))
    }
}

/// How many rows `trade` has.
pub fn count(alloc: Global, stream: &mut TcpStream) -> io::Result<u64> {
    let answer = asked(alloc, stream, COUNT)?;
    match answer.as_slice().strip_prefix(LONG) {
        Some([a, b, c, d, e, f, g, h]) => Ok(u64::from_le_bytes([*a, *b, *c, *d, *e, *f, *g, *h])),
        _ => Err(io::Error::from(ErrorKind::InvalidData)),
    }
}

/// Whether the plant hangs up: the next read finds the end, or that the connection was reset.
pub fn hangs_up(stream: &mut TcpStream) -> bool {
    let mut buf = [0; 64];
    match stream.read(&mut buf) {
        Ok(0) => true,
        Ok(_) => false,
        Err(error) => error.kind() == ErrorKind::ConnectionReset,
    }
}
