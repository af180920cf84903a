//! The layout of a chunk. Numbers are little-endian.
//!
//! ```text
//! offset  0        8                 14            19
//!         +--------+-----------------+-------------+-----------+-----------------+---------+-- - -
//!         | number | 00 00 03000000  | f5 upd 00   | f5 name 00| 00 00 n         | vector  | ...
//!         +--------+-----------------+-------------+-----------+-----------------+---------+-- - -
//!          pass     a list of three   the word      the table   a list of n       n columns
//! ```

/// What follows the pass number: the head of a list of three, the symbol `upd`, and the type of a symbol.
pub const OPENING: [u8; 12] = *b"\0\0\x03\0\0\0\xf5upd\0\xf5";

/// The word that each update begins with.
pub const UPDATE_WORD: [u8; 3] = *b"upd";

/// No pass has this number.
pub const NO_PASS: u64 = u64::MAX;

/// The number of bytes of a chunk without the table's name and the columns.
pub const OVERHEAD: usize = 27;

/// The most bytes of a symbol.
pub const LONGEST_SYMBOL: usize = 256;

/// The most rows that the chunks of a log have together.
pub const MOST_ROWS: u64 = 4_294_967_295;

/// The most bytes of a chunk.
pub const LONGEST_CHUNK: usize = 2_147_483_647;
