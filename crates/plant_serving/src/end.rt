//! How far a server has come, and how it ended.
ghost use Rattle.std.specs.Prelude.{◌≡◌, ◌≢◌, ◌||◌, MatchBool};
ghost use Rattle.plant_serving.specs.Working.{IsDone, is_short_end, end_of};

use program_outside::Cause;
use session::End;

/// How a server ended.
#[derive(Clone, Copy, Debug, PartialEq, Eq)]
pub enum ServeEnd {
    /// Each session was served to its end.
    Served,
    /// An accept failed for this cause. The sessions before it were served to their ends.
    NotAccepted(Cause),
    /// The server, or a session at its start, was out of memory.
    NoMemory,
}

/// How far a server has come.
#[derive(Clone, Copy)]
pub struct Progress {
    /// How many sessions it has accepted.
    pub accepted: u32,
    /// Whether one was out of memory at its start.
    pub is_short: bool,
    /// Why no more are accepted, if so.
    pub stopped: Option<ServeEnd>,
}

impl Progress {
    /// The same after a session ended.
    pub fn after(self, end: End) -> Progress
        ensures { result ≡ record self { is_short = self.is_short || is_short_end end } }
    {
        Progress {
            is_short: self.is_short || was_short(end),
            ..self
        }
    }

    /// Whether no more than these are to be accepted.
    pub fn is_done(self, count: u32) -> bool
        ensures { MatchBool result (IsDone self count) ((self.stopped ≡ None) × (self.accepted ≢ count)) }
    {
        match self.stopped {
            Some(_) => true,
            None => self.accepted == count,
        }
    }

    /// How the server ends.
    pub fn end(self) -> ServeEnd
        ensures { result ≡ end_of self.stopped self.is_short }
    {
        match self.stopped {
            Some(why) => why,
            None if self.is_short => ServeEnd::NoMemory,
            None => ServeEnd::Served,
        }
    }
}

/// Whether a session that ended so was out of memory.
fn was_short(end: End) -> bool
    ensures { result ≡ is_short_end end }
{
    match end {
        End::NoMemory => true,
        End::Closed
        | End::Truncated
        | End::BadMessage { .. }
        | End::ReadFault
        | End::WriteFault
        | End::Idle => false,
    }
}
