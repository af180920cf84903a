//! The bytes of worked messages, each as it is sent (KX, IPC reference).

/// The handshake of the user `u` with the password `p` and the capability 3.
pub const GREETING: &[u8] = b"u:p\x03\0";

/// The update of `trade` by one row: 0D09:30, KX, 10050, 200.
pub const UPDATE: &[u8] =
    b"\x01\x01\0\0B\0\0\0\0\0\x03\0\0\0\xf5.u.upd\0\xf5trade\0\0\0\x04\0\0\0\xf0\0\xf0\xd9\xce\x1a\x1f\
\0\0\xf5KX\0\xf9B'\0\0\0\0\0\0\xf9\xc8\0\0\0\0\0\0\0";

/// The text `select from trade`.
pub const QUERY: &[u8] = b"\x01\x01\0\0\x1f\0\0\0\x0a\0\x11\0\0\0select from trade";

/// The same text in big-endian.
pub const BIG_QUERY: &[u8] = b"\0\x01\0\0\0\0\0\x1f\x0a\0\0\0\0\x11select from trade";

/// The text `select from quote`.
pub const QUOTE_QUERY: &[u8] = b"\x01\x01\0\0\x1f\0\0\0\x0a\0\x11\0\0\0select from quote";

/// The answer to the handshake.
pub const GREETED: &[u8] = b"\x03";

/// The answer `(::)` to an update that was logged.
pub const DONE: &[u8] = b"\x01\x02\0\0\x0a\0\0\0e\0";

/// The table with the row of the update.
pub const ONE_ROW: &[u8] =
    b"\x01\x02\0\0m\0\0\0b\0c\x0b\0\x05\0\0\0date\0time\0sym\0price\0size\0\0\0\x05\0\0\0\x0e\0\x01\0\0\
\0?\x22\0\0\x10\0\x01\0\0\0\0\xf0\xd9\xce\x1a\x1f\0\0\x0b\0\x01\0\0\0KX\0\x07\0\x01\0\0\0B'\0\0\0\
\0\0\0\x07\0\x01\0\0\0\xc8\0\0\0\0\0\0\0";

/// The table `trade` without rows.
pub const NO_ROW: &[u8] =
    b"\x01\x02\0\0N\0\0\0b\0c\x0b\0\x05\0\0\0date\0time\0sym\0price\0size\0\0\0\x05\0\0\0\x0e\0\0\0\0\0\
\x10\0\0\0\0\0\x0b\0\0\0\0\0\x07\0\0\0\0\0\x07\0\0\0\0\0";

/// The table `quote` without rows.
pub const NO_QUOTE: &[u8] =
    b"\x01\x02\0\0c\0\0\0b\0c\x0b\0\x07\0\0\0date\0time\0sym\0bid\0ask\0bsize\0asize\0\0\0\x07\0\0\0\x0e\
\0\0\0\0\0\x10\0\0\0\0\0\x0b\0\0\0\0\0\x07\0\0\0\0\0\x07\0\0\0\0\0\x07\0\0\0\0\0\x07\0\0\0\0\0";

/// A float, which is outside the profile.
pub const FLOAT: &[u8] = b"\x01\x01\0\0\x11\0\0\0\xf7\0\0\0\0\0\0\xf8?";

/// The error `nyi`.
pub const NYI: &[u8] = b"\x01\x02\0\0\x0d\0\0\0\x80nyi\0";

/// The error `parse`.
pub const PARSE: &[u8] = b"\x01\x02\0\0\x0f\0\0\0\x80parse\0";

/// The error `type`.
pub const TYPE: &[u8] = b"\x01\x02\0\0\x0e\0\0\0\x80type\0";

/// The error `length`.
pub const LENGTH: &[u8] = b"\x01\x02\0\0\x10\0\0\0\x80length\0";

/// The error `limit`.
pub const LIMIT: &[u8] = b"\x01\x02\0\0\x0f\0\0\0\x80limit\0";

/// The error `foo`.
pub const FOO: &[u8] = b"\x01\x02\0\0\x0d\0\0\0\x80foo\0";

/// The error `more than one day?`.
pub const MORE_THAN_ONE_DAY: &[u8] = b"\x01\x02\0\0\x1c\0\0\0\x80more than one day?\0";

/// 0D09:30, b, 10, 100.
pub const FIRST: &[u8] =
    b"\x01\x01\0\0A\0\0\0\0\0\x03\0\0\0\xf5.u.upd\0\xf5trade\0\0\0\x04\0\0\0\xf0\0\xf0\xd9\xce\x1a\x1f\
\0\0\xf5b\0\xf9\x0a\0\0\0\0\0\0\0\xf9d\0\0\0\0\0\0\0";

/// 0D09:31, a, 20, 5.
pub const SECOND: &[u8] =
    b"\x01\x01\0\0A\0\0\0\0\0\x03\0\0\0\xf5.u.upd\0\xf5trade\0\0\0\x04\0\0\0\xf0\0H!\xc7(\x1f\0\0\xf5a\
\0\xf9\x14\0\0\0\0\0\0\0\xf9\x05\0\0\0\0\0\0\0";

/// 0D09:32, b, 11, 7.
pub const THIRD: &[u8] =
    b"\x01\x01\0\0A\0\0\0\0\0\x03\0\0\0\xf5.u.upd\0\xf5trade\0\0\0\x04\0\0\0\xf0\0\xa0h\xbf6\x1f\0\0\xf5\
b\0\xf9\x0b\0\0\0\0\0\0\0\xf9\x07\0\0\0\0\0\0\0";

/// 0D09:30, c, 30, 1.
pub const FOURTH: &[u8] =
    b"\x01\x01\0\0A\0\0\0\0\0\x03\0\0\0\xf5.u.upd\0\xf5trade\0\0\0\x04\0\0\0\xf0\0\xf0\xd9\xce\x1a\x1f\
\0\0\xf5c\0\xf9\x1e\0\0\0\0\0\0\0\xf9\x01\0\0\0\0\0\0\0";

/// The first three rows by arrival.
pub const ARRIVED: &[u8] =
    b"\x01\x02\0\0\xa8\0\0\0b\0c\x0b\0\x05\0\0\0date\0time\0sym\0price\0size\0\0\0\x05\0\0\0\x0e\0\x03\
\0\0\0?\x22\0\0?\x22\0\0?\x22\0\0\x10\0\x03\0\0\0\0\xf0\xd9\xce\x1a\x1f\0\0\0H!\xc7(\x1f\0\0\0\xa0\
h\xbf6\x1f\0\0\x0b\0\x03\0\0\0b\0a\0b\0\x07\0\x03\0\0\0\x0a\0\0\0\0\0\0\0\x14\0\0\0\0\0\0\0\x0b\0\
\0\0\0\0\0\0\x07\0\x03\0\0\0d\0\0\0\0\0\0\0\x05\0\0\0\0\0\0\0\x07\0\0\0\0\0\0\0";

/// The first three rows by symbol, then arrival.
pub const ORDERED: &[u8] =
    b"\x01\x02\0\0\xa8\0\0\0b\0c\x0b\0\x05\0\0\0date\0time\0sym\0price\0size\0\0\0\x05\0\0\0\x0e\0\x03\
\0\0\0?\x22\0\0?\x22\0\0?\x22\0\0\x10\0\x03\0\0\0\0H!\xc7(\x1f\0\0\0\xf0\xd9\xce\x1a\x1f\0\0\0\xa0\
h\xbf6\x1f\0\0\x0b\0\x03\0\0\0a\0b\0b\0\x07\0\x03\0\0\0\x14\0\0\0\0\0\0\0\x0a\0\0\0\0\0\0\0\x0b\0\
\0\0\0\0\0\0\x07\0\x03\0\0\0\x05\0\0\0\0\0\0\0d\0\0\0\0\0\0\0\x07\0\0\0\0\0\0\0";

/// The first three rows by symbol, then the fourth on the next date.
pub const BOTH_DATES: &[u8] =
    b"\x01\x02\0\0\xc6\0\0\0b\0c\x0b\0\x05\0\0\0date\0time\0sym\0price\0size\0\0\0\x05\0\0\0\x0e\0\x04\
\0\0\0?\x22\0\0?\x22\0\0?\x22\0\0@\x22\0\0\x10\0\x04\0\0\0\0H!\xc7(\x1f\0\0\0\xf0\xd9\xce\x1a\x1f\
\0\0\0\xa0h\xbf6\x1f\0\0\0\xf0\xd9\xce\x1a\x1f\0\0\x0b\0\x04\0\0\0a\0b\0b\0c\0\x07\0\x04\0\0\0\x14\
\0\0\0\0\0\0\0\x0a\0\0\0\0\0\0\0\x0b\0\0\0\0\0\0\0\x1e\0\0\0\0\0\0\0\x07\0\x04\0\0\0\x05\0\0\0\0\
\0\0\0d\0\0\0\0\0\0\0\x07\0\0\0\0\0\0\0\x01\0\0\0\0\0\0\0";

/// The columns 0D09:30 0D09:31, 1 2 and 3 4 with the atom `a`.
pub const SPREAD: &[u8] =
    b"\x01\x01\0\0h\0\0\0\0\0\x03\0\0\0\xf5.u.upd\0\xf5trade\0\0\0\x04\0\0\0\x10\0\x02\0\0\0\0\xf0\xd9\
\xce\x1a\x1f\0\0\0H!\xc7(\x1f\0\0\xf5a\0\x07\0\x02\0\0\0\x01\0\0\0\0\0\0\0\x02\0\0\0\0\0\0\0\x07\
\0\x02\0\0\0\x03\0\0\0\0\0\0\0\x04\0\0\0\0\0\0\0";

/// The table with the two rows of `SPREAD`.
pub const SPREAD_ROWS: &[u8] =
    b"\x01\x02\0\0\x8a\0\0\0b\0c\x0b\0\x05\0\0\0date\0time\0sym\0price\0size\0\0\0\x05\0\0\0\x0e\0\x02\
\0\0\0?\x22\0\0?\x22\0\0\x10\0\x02\0\0\0\0\xf0\xd9\xce\x1a\x1f\0\0\0H!\xc7(\x1f\0\0\x0b\0\x02\0\0\
\0a\0a\0\x07\0\x02\0\0\0\x01\0\0\0\0\0\0\0\x02\0\0\0\0\0\0\0\x07\0\x02\0\0\0\x03\0\0\0\0\0\0\0\x04\
\0\0\0\0\0\0\0";

/// An update of the table `foo`.
pub const OF_FOO: &[u8] =
    b"\x01\x01\0\0@\0\0\0\0\0\x03\0\0\0\xf5.u.upd\0\xf5foo\0\0\0\x04\0\0\0\xf0\0\xf0\xd9\xce\x1a\x1f\0\
\0\xf5KX\0\xf9B'\0\0\0\0\0\0\xf9\xc8\0\0\0\0\0\0\0";

/// An update of two items: KX, 1.
pub const OF_TWO: &[u8] =
    b"\x01\x01\0\00\0\0\0\0\0\x03\0\0\0\xf5.u.upd\0\xf5trade\0\0\0\x02\0\0\0\xf5KX\0\xf9\x01\0\0\0\0\0\
\0\0";

/// The update with a size that is an int.
pub const OF_INT: &[u8] =
    b"\x01\x01\0\0>\0\0\0\0\0\x03\0\0\0\xf5.u.upd\0\xf5trade\0\0\0\x04\0\0\0\xf0\0\xf0\xd9\xce\x1a\x1f\
\0\0\xf5KX\0\xf9B'\0\0\0\0\0\0\xfa\xc8\0\0\0";

/// An update of four empty columns.
pub const EMPTY_COLUMNS: &[u8] =
    b"\x01\x01\0\0;\0\0\0\0\0\x03\0\0\0\xf5.u.upd\0\xf5trade\0\0\0\x04\0\0\0\x10\0\0\0\0\0\x0b\0\0\0\0\
\0\x07\0\0\0\0\0\x07\0\0\0\0\0";

/// The update whose function is a char vector.
pub const CHARACTERS: &[u8] =
    b"\x01\x01\0\0F\0\0\0\0\0\x03\0\0\0\x0a\0\x06\0\0\0.u.upd\xf5trade\0\0\0\x04\0\0\0\xf0\0\xf0\xd9\xce\
\x1a\x1f\0\0\xf5KX\0\xf9B'\0\0\0\0\0\0\xf9\xc8\0\0\0\0\0\0\0";

/// The update without its time.
pub const WITHOUT_TIME: &[u8] =
    b"\x01\x01\0\09\0\0\0\0\0\x03\0\0\0\xf5.u.upd\0\xf5trade\0\0\0\x03\0\0\0\xf5KX\0\xf9B'\0\0\0\0\0\0\
\xf9\xc8\0\0\0\0\0\0\0";

/// The symbols `.u.upd`, `trade` and `KX`.
pub const THREE_SYMBOLS: &[u8] = b"\x01\x01\0\0\x1e\0\0\0\x0b\0\x03\0\0\0.u.upd\0trade\0KX\0";

/// The same as an async message.
pub const ASYNC_THREE_SYMBOLS: &[u8] = b"\x01\0\0\0\x1e\0\0\0\x0b\0\x03\0\0\0.u.upd\0trade\0KX\0";

/// The update as an async message.
pub const ASYNC_UPDATE: &[u8] =
    b"\x01\0\0\0B\0\0\0\0\0\x03\0\0\0\xf5.u.upd\0\xf5trade\0\0\0\x04\0\0\0\xf0\0\xf0\xd9\xce\x1a\x1f\0\
\0\xf5KX\0\xf9B'\0\0\0\0\0\0\xf9\xc8\0\0\0\0\0\0\0";

/// The text `select from trade` as an async message.
pub const ASYNC_QUERY: &[u8] = b"\x01\0\0\0\x1f\0\0\0\x0a\0\x11\0\0\0select from trade";

/// A float as an async message.
pub const ASYNC_FLOAT: &[u8] = b"\x01\0\0\0\x11\0\0\0\xf7\0\0\0\0\0\0\xf8?";

/// The char atom `x`.
pub const CHARACTER: &[u8] = b"\x01\x01\0\0\x0a\0\0\0\xf6x";

/// A vector of longs with the count 2147483647, after which nothing follows.
pub const PAST_THE_END: &[u8] = b"\x01\x01\0\0\x0e\0\0\0\x07\0\xff\xff\xff\x7f";

/// The same with the count -1.
pub const NEGATIVE: &[u8] = b"\x01\x01\0\0\x0e\0\0\0\x07\0\xff\xff\xff\xff";

/// An update whose symbol has 257 bytes, up to that symbol.
pub const LONG_FRONT: &[u8] =
    b"\x01\x01\0\0A\x01\0\0\0\0\x03\0\0\0\xf5.u.upd\0\xf5trade\0\0\0\x04\0\0\0\xf0\0\xf0\xd9\xce\x1a\x1f\
\0\0\xf5";

/// The rest of that update, from the zero of the symbol on.
pub const LONG_BACK: &[u8] = b"\0\xf9\x01\0\0\0\0\0\0\0\xf9\x01\0\0\0\0\0\0\0";
