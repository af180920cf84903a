//! A connection as a link.
ghost use Rattle.std.specs.Prelude.{◌≡◌};

use crate::retry::{got_of, read_once, write_waiting};
use crate::wake::{Waiting, Wakers};
use outside_api::{Got, Link, LinkFault};
use std::io;
use std::io::{Read, Write};
use std::net::{Net, TcpStream};
use std::os::fd::AsRawFd;
use std::sync::Wait;
use std::time::{Clock, Duration, Instant};

/// After this number of milliseconds a read times out.
const READ_TIMEOUT_MILLISECONDS: u64 = 50;

/// The same while a client is being told things without asking: the session looks for more at each read timeout.
const BRIEF_TIMEOUT_MILLISECONDS: u64 = 1;

/// How many seconds after the last thing that a client was told its reads time out so soon.
const BRIEF_SECONDS: u64 = 1;

/// A connection whose reads may wait for a longer or a shorter time.
pub trait ReadTimeout {
    /// Makes each later read end after this number of milliseconds, where nothing has come.
    fn wait_at_most(&self, milliseconds: u64) -> io::Result<()>;
}

impl ReadTimeout for TcpStream {
    fn wait_at_most(&self, milliseconds: u64) -> io::Result<()> {
        self.set_read_timeout(Some(Duration::from_millis(milliseconds)))
    }
}

/// The link of a connection whose reads time out after 50 milliseconds. Once the client was told something that it didn't ask
/// for, its reads also time out as soon as another link of the same `Wakers` has dealt with what came to it, so that a
/// subscriber gets what other sessions log without having to send anything; and in the second after it was told something,
/// after a millisecond. It counts its faults and its read timeouts, and keeps no bytes. Each count saturates at 2^64 - 1. A call
/// that a signal interrupted is tried again at once.
#[derive(Drop)]
pub struct SocketLink<'a, R, S> {
    /// By its clock a write sleeps that would block.
    rt: &'a R,
    /// The connection.
    stream: S,
    /// How its reads wait.
    waiting: Waiting<'a>,
    /// Whether a read found the end of the input. Each later read finds it again.
    ended: bool,
    /// How many reads failed.
    read_faults: u64,
    /// How many writes failed.
    write_faults: u64,
    /// How many reads timed out.
    idles: u64,
    /// Whether a read gave bytes that no write has followed yet.
    asked: bool,
    /// When the client was last told something without asking, while its reads time out soon.
    told: Option<Instant>,
}

impl<'a, R, S> SocketLink<'a, R, S> {
    ghost use Rattle.outside_api.specs.Link.{IsFresh};
    ghost use Rattle.outside_real.specs.Socket.{socket_shown};

    /// The link of this connection, its counts 0. Those of the same `Wakers` wake each other.
    pub fn new(rt: &'a R, wakers: &'a Wakers, stream: S) -> SocketLink<'a, R, S>
        ensures { IsFresh (socket_shown result) }
    {
        SocketLink {
            rt,
            stream,
            waiting: Waiting::new(wakers),
            ended: false,
            read_faults: 0,
            write_faults: 0,
            idles: 0,
            asked: false,
            told: None,
        }
    }
}

impl<'a, R: Wait, S> SocketLink<'a, R, S> {
    ghost use Rattle.outside_real.specs.Socket.{socket_shown};

    /// Takes the link from those that others wake. Who ends a connection does this.
    pub fn leave(&mut self)
        ensures shown { socket_shown self.new ≡ socket_shown self.old }
    {
        self.waiting.leave(self.rt);
    }
}

impl<'a, R: Clock + Wait + Net + AllocGlobal, S: Read + Write + ReadTimeout + AsRawFd> SocketLink<
    'a,
    R,
    S,
> {
    ghost use Rattle.std.specs.Prelude.{◌≡◌};
    ghost use Rattle.outside_api.specs.Counts.{counted};
    ghost use Rattle.outside_real.specs.Socket.{socket_shown};

    /// Notes that the client is told something that it didn't ask for: others wake its reads from now on, and its next ones time
    /// out soon. Where neither can be had, reads wait as long as before.
    fn tell(&mut self)
        ensures shown { socket_shown self.new ≡ socket_shown self.old }
        ensures stream { self.new.stream ≡ self.old.stream }
    {
        let alloc = self.rt.alloc();
        let descriptor = self.stream.as_raw_fd();
        if !self.waiting.join(self.rt, alloc, descriptor) && self.told.is_none() {
            let _set = self.stream.wait_at_most(BRIEF_TIMEOUT_MILLISECONDS);
        }
        self.told = Instant::now(self.rt).ok();
    }

    /// How long a read that has joined the others waits.
    fn at_most(&self) -> Duration {
        Duration::from_millis(match self.told {
            Some(_) => BRIEF_TIMEOUT_MILLISECONDS,
            None => READ_TIMEOUT_MILLISECONDS,
        })
    }

    /// Counts a read that timed out.
    fn time_out(&mut self)
        ensures shown { socket_shown self.new ≡ record (socket_shown self.old) { idles = counted self.old.idles 1 } }
        ensures stream { self.new.stream ≡ self.old.stream }
    {
        self.idles = self.idles.saturating_add(1);
        self.calm();
    }

    /// Lets reads wait for their usual time again, where the client wasn't told anything for a second.
    fn calm(&mut self)
        ensures shown { socket_shown self.new ≡ socket_shown self.old }
        ensures stream { self.new.stream ≡ self.old.stream }
    {
        let Some(told) = self.told else {
            return;
        };
        let passed = told.elapsed(self.rt);
        if passed.is_ok_and(|time| time < Duration::from_secs(BRIEF_SECONDS)) {
            return;
        }
        let _set = self.stream.wait_at_most(READ_TIMEOUT_MILLISECONDS);
        self.told = None;
    }
}

impl<'a, R: Clock + Wait + Net + AllocGlobal, S: Read + Write + ReadTimeout + AsRawFd> Link
    for SocketLink<'a, R, S> {
    ghost use Rattle.outside_api.specs.Link.{Reads, Writes};
    ghost use Rattle.outside_real.specs.Passed.{Came, Sent};
    ghost use Rattle.outside_real.specs.Socket.{socket_shown, bytes_by};

    ghost shown = { socket_shown };

    fn read(&mut self, buf: &mut [u8]) -> Got
        ensures reads { Reads (socket_shown self.old) (socket_shown self.new) buf.new result }
        ensures came { Came self.old.ended (bytes_by S.remaining self.old) (bytes_by S.remaining self.new) buf.new result }
    {
        if self.ended {
            return Got::End;
        }
        let at_most = self.at_most();
        if !self.waiting.finds_bytes(self.rt, at_most) {
            self.time_out();
            return Got::Idle;
        }
        let room = buf.len();
        let read = read_once(&mut self.stream, buf);
        let got = got_of(read, room);
        match got {
            Got::Bytes(count) => {
                self.asked = true;
                self.waiting.note(count, room);
            }
            Got::End => self.ended = true,
            Got::Idle => {
                self.waiting.note(0, room);
                self.time_out();
            }
            Got::Failed => self.read_faults = self.read_faults.saturating_add(1),
        }
        got
    }

    fn write(&mut self, bytes: &[u8]) -> Result<(), LinkFault>
        ensures writes { Writes (socket_shown self.old) (socket_shown self.new) bytes.now result }
        ensures sent { Sent (bytes_by S.contents self.old) (bytes_by S.contents self.new) bytes.now result }
    {
        if self.asked {
            self.asked = false;
        } else {
            self.tell();
        }
        if write_waiting(self.rt, &mut self.stream, bytes).is_ok() {
            return Ok(());
        }
        self.write_faults = self.write_faults.saturating_add(1);
        Err(LinkFault)
    }
}

/// Sets the options of a connection: what is written is sent at once, and a read times out after 50 milliseconds.
pub fn set_options(stream: &TcpStream) -> io::Result<()> {
    stream.set_nodelay(true)?;
    set_timeout(stream)
}

/// Makes each wait for something to come in end after 50 milliseconds.
pub(crate) fn set_timeout(stream: &TcpStream) -> io::Result<()> {
    stream.wait_at_most(READ_TIMEOUT_MILLISECONDS)
}
