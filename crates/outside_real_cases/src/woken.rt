//! Reads of a connection that another connection ends, on real sockets.
use crate::sockets::{connected, read_two};
use outside_api::{Got, Link};
use outside_real::{SocketLink, Wakers};
use std::io::Write;
use std::net::{Shutdown, TcpStream};
use std::process::Abort;
use std::thread;
use std::time::{Clock, Duration, Instant};

/// Reads until the client wasn't told anything for more than a second, so that reads wait for 50 milliseconds again.
fn calm_down<R: Clock + Abort, L: Link>(rt: &R, link: &mut L) {
    let start = Instant::now(rt).expect(rt, "a reading");
    for _ in 0..u64::MAX {
        assert_eq!(rt; read_two(link), (Got::Idle, [0, 0]));
        if start.elapsed(rt).expect(rt, "a reading") > Duration::from_millis(1_100) {
            return;
        }
    }
}

/// How long this number of reads take, each of which times out.
fn time_of<R: Clock + Abort, L: Link>(rt: &R, link: &mut L, reads: u32) -> Duration {
    let start = Instant::now(rt).expect(rt, "a reading");
    for _ in 0..reads {
        assert_eq!(rt; read_two(link), (Got::Idle, [0, 0]));
    }
    start.elapsed(rt).expect(rt, "a reading")
}

/// A client that sends a byte every two milliseconds, and its link: each of its reads but the first wakes others.
fn act<R: Clock + Abort, L: Link + Drop>(rt: &R, mut client: TcpStream, mut link: L, bytes: u32) {
    for _ in 0..bytes {
        client.write_all(b"x").expect(rt, "a connection");
        assert_eq!(rt; read_two(&mut link), (Got::Bytes(1), *b"x\x00"));
        thread::sleep(rt, Duration::from_millis(2));
    }
}

// A hundred reads that would wait for 50 milliseconds each end as another connection's bytes come every two milliseconds, so they
// take less than half of the five seconds.
#[test]
fn reads_end_where_another_connection_acts(rt: HostRuntime) {
    let wakers = Wakers::new(rt.alloc());
    let (client, stream) = connected(&rt).expect(&rt, "no port");
    let mut link = SocketLink::new(&rt, &wakers, stream);
    assert!(rt; link.write(b"told").is_ok());
    calm_down(&rt, &mut link);
    let alone = time_of(&rt, &mut link, 4);
    assert!(rt; alone >= Duration::from_millis(180));
    let (other, stream) = connected(&rt).expect(&rt, "no port");
    let acting = SocketLink::new(&rt, &wakers, stream);
    let (_, woken) = thread::join(
        &rt,
        || act(&rt, other, acting, 500),
        || time_of(&rt, &mut link, 100),
    );
    assert!(rt; woken < Duration::from_millis(2_500));
    link.leave();
    drop(client);
}

// Bytes that came before the link was joined, bytes that fill a read's room, and the end are found as before.
#[test]
fn bytes_and_the_end_of_a_joined_connection(rt: HostRuntime) {
    let wakers = Wakers::new(rt.alloc());
    let (mut client, stream) = connected(&rt).expect(&rt, "no port");
    let mut link = SocketLink::new(&rt, &wakers, stream);
    client.write_all(b"abcde").expect(&rt, "a connection");
    thread::sleep(&rt, Duration::from_millis(20));
    assert!(rt; link.write(b"told").is_ok());
    assert_eq!(rt; read_two(&mut link), (Got::Bytes(2), *b"ab"));
    assert_eq!(rt; read_two(&mut link), (Got::Bytes(2), *b"cd"));
    assert_eq!(rt; read_two(&mut link), (Got::Bytes(1), *b"e\x00"));
    assert_eq!(rt; read_two(&mut link), (Got::Idle, [0, 0]));
    client.write_all(b"fg").expect(&rt, "a connection");
    thread::sleep(&rt, Duration::from_millis(20));
    assert_eq!(rt; read_two(&mut link), (Got::Bytes(2), *b"fg"));
    assert_eq!(rt; read_two(&mut link), (Got::Idle, [0, 0]));
    client.shutdown(Shutdown::Write).expect(&rt, "a connection");
    thread::sleep(&rt, Duration::from_millis(20));
    assert_eq!(rt; read_two(&mut link), (Got::End, [0, 0]));
    link.leave();
}

// A connection that has left isn't woken, and the others still are.
#[test]
fn one_of_two_leaves(rt: HostRuntime) {
    let wakers = Wakers::new(rt.alloc());
    let (first, stream) = connected(&rt).expect(&rt, "no port");
    let mut left = SocketLink::new(&rt, &wakers, stream);
    assert!(rt; left.write(b"told").is_ok());
    let (second, stream) = connected(&rt).expect(&rt, "no port");
    let mut link = SocketLink::new(&rt, &wakers, stream);
    assert!(rt; link.write(b"told").is_ok());
    left.leave();
    drop(first);
    calm_down(&rt, &mut link);
    let (other, stream) = connected(&rt).expect(&rt, "no port");
    let acting = SocketLink::new(&rt, &wakers, stream);
    let (_, woken) = thread::join(
        &rt,
        || act(&rt, other, acting, 300),
        || time_of(&rt, &mut link, 50),
    );
    assert!(rt; woken < Duration::from_millis(1_250));
    link.leave();
    drop(second);
}
