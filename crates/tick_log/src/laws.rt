//! What the definitions of a log say of each other.
ghost use Rattle.tick_log.specs.Laws.{OneEntry, OneReplay, NeverBoth};

/// A log is read in one way: bytes are the chunk of one update at most, records are the chunks of one list of updates at
/// most, and where they are, none of them is refused.
pub fn a_log_is_read_in_one_way()
    ensures entry { OneEntry }
    ensures replay { OneReplay }
    ensures not_both { NeverBoth }
{}
