//! A port that connections come to.
ghost use Rattle.std.specs.Prelude.{◌≡◌, IfOk};
ghost use Rattle.std.specs.IoError.{error_kind};
ghost use Rattle.outside_real.specs.Port.{port_of, port_refused};

use crate::socket::{set_options, set_timeout};
use std::io::ErrorKind;
use std::net::{Net, TcpListener, TcpStream};
use std::os::fd::OwnedFd;
use std::time::{Clock, Duration};
use std::{io, thread};
use thiserror::Error;

/// The errors of a process, and of a machine, that has too many files open.
const TOO_MANY_FILES: [i32; 2] = [24, 23];

/// How long an accept sleeps where too many files are open, in milliseconds.
const ACCEPT_MILLISECONDS: u64 = 50;

/// Why a port can't be listened on, or connections not be accepted.
#[derive(Clone, Copy, Debug, PartialEq, Eq, Error)]
pub enum PortRefusal {
    /// Something listens on the port already.
    #[error("the port is in use")]
    InUse,
    /// The system refused it for another reason.
    #[error("{0}")]
    Failed(ErrorKind),
}

impl From<io::Error> for PortRefusal {
    ghost from_gives = { λ error refusal. refusal ≡ port_refused (error_kind error) };

    fn from(error: io::Error) -> PortRefusal {
        match error.kind() {
            ErrorKind::AddrInUse => PortRefusal::InUse,
            kind => PortRefusal::Failed(kind),
        }
    }
}

/// A port of 127.0.0.1 that this process listens on.
#[derive(Drop)]
pub struct OpenPort {
    listener: TcpListener,
    port: u16,
}

impl OpenPort {
    /// Listens on a port of 127.0.0.1, from 1 on; other machines don't reach it.
    pub fn listen<R: Net<Listener = TcpListener, Stream = TcpStream>>(
        rt: &R,
        port: u16,
    ) -> Result<OpenPort, PortRefusal>
        ensures { IfOk result (λ it. port_of it ≡ port) }
    {
        let listener = TcpListener::bind(rt, ("127.0.0.1", port))?;
        // An accept waits no longer than a read, whose limit is set through another handle of the same socket.
        let other = TcpStream::from(OwnedFd::from(listener.try_clone()?));
        set_timeout(&other)?;
        Ok(OpenPort { listener, port })
    }

    /// The port.
    pub fn port(&self) -> u16
        ensures { result ≡ port_of self.now }
    {
        self.port
    }

    /// The next connection, whose options are set; none where no connection came within 50 milliseconds, where the client
    /// was gone again, or where too many files are open.
    pub fn accept<R: Clock>(&self, rt: &R) -> Result<Option<TcpStream>, PortRefusal> {
        match self.listener.accept() {
            Ok((stream, _)) => Ok(with_options(stream)),
            Err(error) if may_accept_again(rt, &error) => Ok(None),
            Err(error) => Err(PortRefusal::from(error)),
        }
    }
}

/// The connection with its options; none where they can't be set, as where the client is gone.
fn with_options(stream: TcpStream) -> Option<TcpStream> {
    match set_options(&stream) {
        Ok(()) => Some(stream),
        Err(_) => None,
    }
}

/// Whether a connection may still come after an accept that failed so. Where too many files are open, this sleeps first.
fn may_accept_again<R: Clock>(rt: &R, error: &io::Error) -> bool {
    if let Some(code) = error.raw_os_error() {
        if TOO_MANY_FILES.contains(&code) {
            thread::sleep(rt, Duration::from_millis(ACCEPT_MILLISECONDS));
            return true;
        }
    }
    matches!(
        error.kind(),
        ErrorKind::WouldBlock
            | ErrorKind::TimedOut
            | ErrorKind::Interrupted
            | ErrorKind::ConnectionAborted
    )
}
