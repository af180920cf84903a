//! The layout of a journal's file. Numbers are little-endian.
//!
//! ```text
//! offset  0          8      9            13              13 + n
//!         +----------+------+------------+---------------+------+------------+-- - -
//!         | qtplant1 | gate | n, 4 bytes | n bytes       | gate | n, 4 bytes | ...
//!         +----------+------+------------+---------------+------+------------+-- - -
//!          magic             length       payload
//! ```
//!
//! A gate that is `a5` is open, and the record after it counts. The records end at the first gate that isn't open,
//! whatever byte it is; what follows that gate is ignored. So a journal without records is nine bytes.

/// What the file begins with.
pub const MAGIC: [u8; 8] = *b"qtplant1";

/// The offset of the first gate.
pub const FIRST_GATE: usize = 8;

/// The least number of bytes of a journal: the magic and a gate.
pub const SHORTEST_FILE: usize = 9;

/// A journal without records: the magic and a closed gate.
pub const NO_RECORDS: [u8; 9] = *b"qtplant1\0";

/// A gate after which a record counts.
pub const OPEN_GATE: u8 = 0xa5;

/// The gate that is written after the last record.
pub const CLOSED_GATE: u8 = 0;

/// The number of bytes of a payload's length.
pub const LENGTH_BYTES: usize = 4;

/// The number of bytes from a gate to the payload after it: the gate, and the length.
pub const PAYLOAD_OFFSET: usize = 5;

/// The number of bytes that a record takes beside its payload: its length, and the gate after it.
pub const RECORD_OVERHEAD: usize = 5;

/// No file reaches this number of bytes.
pub const FILE_LIMIT: usize = 1 << 63;

/// The greatest number of bytes of a payload.
pub const LONGEST_PAYLOAD: u32 = 2_147_483_647;
