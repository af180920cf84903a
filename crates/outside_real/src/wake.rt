//! Reads of a connection that another connection may end: so a subscriber gets at once what another client has sent.

use mio::unix::SourceFd;
use mio::{Events, Interest, Poll, Token, Waker};
use std::alloc::{AllocError, Global};
use std::io;
use std::net::Net;
use std::os::fd::RawFd;
use std::sync::atomic::AtomicU64;
use std::sync::atomic::Ordering::SeqCst;
use std::sync::{Mutex, Wait};
use std::time::Duration;

/// The event of bytes that came on the connection.
const BYTES: Token = Token(0);

/// The event of a wake.
const WAKE: Token = Token(1);

/// How many events a wait takes: one of each.
const EVENTS: usize = 2;

/// The connections of a process whose clients are told things without asking. A read of theirs waits for bytes, and ends with a
/// timeout where another connection wakes it.
///
/// ```text
/// a feed                                a subscriber
/// read: an update                       read: waits
/// write: the response
/// read: wakes the others, and waits     read: timed out, so its session looks for publications
/// ```
#[derive(Drop)]
pub struct Wakers {
    /// How many there are. Who finds none takes no lock.
    count: AtomicU64,
    /// Their wakers.
    joined: Mutex<Joined>,
}

/// The wakers of connections, each with a number of its own.
#[derive(Drop)]
struct Joined {
    /// The number of the next one.
    next: u64,
    /// In the order in which they joined.
    wakers: Vec<NumberedWaker>,
}

/// A waker and its number.
#[derive(Drop)]
struct NumberedWaker {
    number: u64,
    waker: Waker,
}

impl Wakers {
    /// No connection.
    pub fn new(alloc: Global) -> Wakers {
        Wakers {
            count: AtomicU64::new(0),
            joined: Mutex::new(Joined {
                next: 0,
                wakers: Vec::new(alloc),
            }),
        }
    }

    /// Adds a connection's waker. The result is its number.
    fn join<R: Wait>(&self, rt: &R, waker: Waker) -> Result<u64, AllocError> {
        let mut joined = self.joined.lock(rt);
        let number = joined.next;
        joined.wakers.push(NumberedWaker { number, waker })?;
        joined.next = number.wrapping_add(1);
        self.count.store(joined.wakers.len() as u64, SeqCst);
        Ok(number)
    }

    /// Removes the waker of this number.
    fn leave<R: Wait>(&self, rt: &R, number: u64) {
        let mut joined = self.joined.lock(rt);
        joined.wakers.retain(|it| it.number != number);
        self.count.store(joined.wakers.len() as u64, SeqCst);
    }

    /// Wakes all but the one of this number. A wake that fails is left out: a read of that connection times out by itself.
    fn wake_others<R: Wait>(&self, rt: &R, own: Option<u64>) {
        if self.count.load(SeqCst) == 0 {
            return;
        }
        let joined = self.joined.lock(rt);
        for it in &joined.wakers {
            if own != Some(it.number) {
                let _woken = it.waker.wake();
            }
        }
    }
}

/// A wait for bytes of a connection that has joined the others.
#[derive(Drop)]
struct JoinedWait {
    poll: Poll,
    /// Room for what a wait gives.
    events: Events,
    /// The connection's number.
    number: u64,
    /// Whether bytes may be there that came before the last wait: no event reports them again.
    more: bool,
}

/// The poll of a connection, and what wakes it.
fn poll_of<R: Net>(rt: &R, descriptor: RawFd) -> io::Result<(Poll, Waker)> {
    let poll = Poll::new(rt)?;
    let mut source = SourceFd(&descriptor);
    poll.registry()
        .register(&mut source, BYTES, Interest::READABLE)?;
    let waker = Waker::new(poll.registry(), WAKE)?;
    Ok((poll, waker))
}

impl JoinedWait {
    /// Joins a connection to the others.
    fn new<R: Net + Wait>(
        rt: &R,
        alloc: Global,
        wakers: &Wakers,
        descriptor: RawFd,
    ) -> io::Result<JoinedWait> {
        let events = Events::with_capacity(alloc, EVENTS)?;
        let (poll, waker) = poll_of(rt, descriptor)?;
        let number = wakers.join(rt, waker)?;
        Ok(JoinedWait {
            poll,
            events,
            number,
            more: true,
        })
    }

    /// Waits until bytes may be there, a wake, or the given time is over. Whether bytes may be there; they may where a wait fails.
    fn finds_bytes(&mut self, at_most: Duration) -> bool {
        if self.more || self.poll.poll(&mut self.events, Some(at_most)).is_err() {
            return true;
        }
        self.events.iter().any(|event| event.token() == BYTES)
    }
}

/// How a connection waits for bytes: by itself, or joined to those that others wake.
#[derive(Drop)]
pub(crate) struct Waiting<'a> {
    wakers: &'a Wakers,
    joined: Option<JoinedWait>,
    /// Whether bytes came since the others were last woken.
    acted: bool,
}

impl<'a> Waiting<'a> {
    /// By itself.
    pub(crate) fn new(wakers: &'a Wakers) -> Waiting<'a> {
        Waiting {
            wakers,
            joined: None,
            acted: false,
        }
    }

    /// Joins the connection to the others, unless it has joined. Whether it has.
    pub(crate) fn join<R: Net + Wait>(&mut self, rt: &R, alloc: Global, descriptor: RawFd) -> bool {
        if self.joined.is_none() {
            self.joined = JoinedWait::new(rt, alloc, self.wakers, descriptor).ok();
        }
        self.joined.is_some()
    }

    /// Takes the connection from the others.
    pub(crate) fn leave<R: Wait>(&mut self, rt: &R) {
        if let Some(joined) = self.joined.take() {
            self.wakers.leave(rt, joined.number);
        }
    }

    /// Wakes the others where bytes came since the last wait, and then waits, at most for this time, if the connection has joined
    /// them. Whether to read: a read that follows `false` would find nothing.
    pub(crate) fn finds_bytes<R: Wait>(&mut self, rt: &R, at_most: Duration) -> bool {
        if self.acted {
            self.acted = false;
            let own = self.joined.as_ref().map(|it| it.number);
            self.wakers.wake_others(rt, own);
        }
        match &mut self.joined {
            Some(joined) => joined.finds_bytes(at_most),
            None => true,
        }
    }

    /// Notes how many bytes a read gave, and whether they fill its room.
    pub(crate) fn note(&mut self, count: usize, room: usize) {
        self.acted = self.acted || 0 < count;
        if let Some(joined) = &mut self.joined {
            joined.more = count == room;
        }
    }
}
