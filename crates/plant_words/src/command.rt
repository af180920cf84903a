//! What a command line asks for, and why none is read.

/// What a command line asks for.
#[derive(Debug, Drop)]
pub enum Command<'a> {
    /// Formats a folder.
    Init(Init<'a>),
    /// Serves one session over standard input and output.
    Once(Once<'a>),
    /// Serves a number of sessions over a port.
    Serve(Serve<'a>),
}

/// `init`: formats a folder.
#[derive(Debug, Drop)]
pub struct Init<'a> {
    /// The folder.
    pub folder: &'a str,
    /// The file of the schema; without it the schema is the built-in one.
    pub schema: Option<&'a str>,
}

/// `once`: serves one session over standard input and output.
#[derive(Debug, Drop)]
pub struct Once<'a> {
    /// The folder; without it the plant is in memory.
    pub folder: Option<&'a str>,
    /// The file of the schema; without it the schema is the built-in one.
    pub schema: Option<&'a str>,
    /// The clock; without it the session has the machine's.
    pub clock: Option<Ticking>,
    /// Whether publications are joined: one message a table for up to 16 updates, in place of one for each.
    pub batch: bool,
}

/// `serve`: serves a number of sessions over a port.
#[derive(Debug, Drop)]
pub struct Serve<'a> {
    /// The port, 1 to 65,535.
    pub port: u16,
    /// How many sessions are served, 1 to 1,000,000.
    pub sessions: u32,
    /// The folder; without it the plant is in memory.
    pub folder: Option<&'a str>,
    /// The file of the schema; without it the schema is the built-in one.
    pub schema: Option<&'a str>,
    /// Whether publications are joined: one message a table for up to 16 updates, in place of one for each.
    pub batch: bool,
}

/// A clock that reads `start`, then `start + step`, and so on, in nanoseconds since the beginning of 2000.01.01.
#[derive(Clone, Copy, Debug, PartialEq, Eq)]
pub struct Ticking {
    /// The first reading.
    pub start: i64,
    /// What each further reading adds, at most a day.
    pub step: i64,
}

/// Why no command is read.
#[derive(Debug, Drop)]
pub enum ArgumentsRefusal {
    /// Help or the version was asked for. The text is for standard output, and the exit status is 0.
    Shown(String),
    /// The command line is faulty. The text says in one line what is wrong, without a line feed.
    Usage(String),
    /// Out of memory.
    NoMemory,
}

/// Why a part of the arguments gives nothing.
#[derive(Clone, Copy, Debug)]
pub(crate) enum Unread {
    /// The arguments aren't a command line.
    Faulty,
    /// Out of memory.
    NoMemory,
}
