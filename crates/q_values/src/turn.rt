//! What a session notes, in order.

/// One turn of a session: what it did with one message or read timeout. A place is the index of an entry in the
/// plant's chronicle, a length the number of entries there, and `now` the clock's reading, in nanoseconds since
/// 2000.01.01.
#[derive(Clone, Copy, Debug, PartialEq, Eq)]
pub enum Turn {
    /// The handshake was answered; the client offered this capability.
    Greeted { capability: u8 },
    /// An update was logged at this place.
    Logged { place: u64, now: i64 },
    /// The open date was ended by the entry at this place.
    Rolled { place: u64, now: i64 },
    /// An update was refused, judged on a chronicle of this length.
    Refused { length: u64, now: i64 },
    /// The entry at this place records a disk fault.
    Failed { place: u64, now: i64 },
    /// At a read timeout there was no date to end.
    Quiet { length: u64, now: i64 },
    /// A text was answered over this length.
    Answered { length: u64 },
    /// A subscription holds from this length on.
    Subscribed { length: u64 },
    /// The entries from one length to another were published.
    Told { from: u64, to: u64 },
    /// A message that no request can be made of.
    Declined,
    /// An async message that asks for nothing.
    Passed,
    /// A read of the shelf failed; the count of such faults is now this.
    ShelfFailed { count: u64 },
    /// This file of the date's part isn't what was written.
    Unreadable { date: i32, file: u32 },
    /// The entries from one length to another make a message that is too long to publish.
    TooLong { from: u64, to: u64 },
    /// A save of an ended date came out so.
    Saving { end: SaveEnd },
    /// Out of memory: nothing was done.
    Short,
}

/// How a save of one ended date came out. A date is a number of days since 2000.01.01.
#[derive(Clone, Copy, Debug, PartialEq, Eq)]
pub enum SaveEnd {
    /// The date is a part now.
    Saved { date: i32 },
    /// There was no date to save.
    Nothing,
    /// There would be more names than this limit.
    Full { limit: u32 },
    /// The entry at this place records a disk fault.
    DiskFault { place: u64 },
    /// A call of the shelf failed.
    ShelfFault,
    /// Out of memory.
    NoMemory,
}
