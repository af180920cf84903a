//! The bytes of worked subscriptions and publications (KX, IPC reference; u.q).

/// The text ``.u.sub[`trade;`a]``.
pub(crate) const TO_A: &[u8] = b"\x01\x01\0\0\x1f\0\0\0\x0a\0\x11\0\0\0.u.sub[`trade;`a]";

/// The text ``.u.sub[`trade;`b]``.
pub(crate) const TO_B: &[u8] = b"\x01\x01\0\0\x1f\0\0\0\x0a\0\x11\0\0\0.u.sub[`trade;`b]";

/// The text ``.u.sub[`trade;`]`` as an async message.
pub(crate) const ASYNC_TO_TRADE: &[u8] = b"\x01\0\0\0\x1e\0\0\0\x0a\0\x10\0\0\0.u.sub[`trade;`]";

/// The text ``.u.sub[`;`]``.
pub(crate) const TO_ALL: &[u8] = b"\x01\x01\0\0\x19\0\0\0\x0a\0\x0b\0\0\0.u.sub[`;`]";

/// The text ``.u.sub[`trade`quote;`]``.
pub(crate) const TO_TWO: &[u8] = b"\x01\x01\0\0$\0\0\0\x0a\0\x16\0\0\0.u.sub[`trade`quote;`]";

/// The text ``.u.sub[`foo;`]``.
pub(crate) const TO_FOO: &[u8] = b"\x01\x01\0\0\x1c\0\0\0\x0a\0\x0e\0\0\0.u.sub[`foo;`]";

/// The list of `.u.sub`, `trade` and the symbols `a` and `c`.
pub(crate) const TO_A_AND_C: &[u8] =
    b"\x01\x01\0\0'\0\0\0\0\0\x03\0\0\0\xf5.u.sub\0\xf5trade\0\x0b\0\x02\0\0\0a\0c\0";

/// The list of `.u.sub`, `trade` and no symbols.
pub(crate) const TO_NOTHING: &[u8] =
    b"\x01\x01\0\0#\0\0\0\0\0\x03\0\0\0\xf5.u.sub\0\xf5trade\0\x0b\0\0\0\0\0";

/// The symbols `.u.sub`, `trade` and `b`.
pub(crate) const SYMBOLS_TO_B: &[u8] = b"\x01\x01\0\0\x1d\0\0\0\x0b\0\x03\0\0\0.u.sub\0trade\0b\0";

/// The list of `.u.sub`, `trade` and the long 1.
pub(crate) const TO_ONE: &[u8] =
    b"\x01\x01\0\0&\0\0\0\0\0\x03\0\0\0\xf5.u.sub\0\xf5trade\0\xf9\x01\0\0\0\0\0\0\0";

/// The answer to a subscription to `trade`: its name and the table without rows.
pub(crate) const TRADE: &[u8] =
    b"\x01\x02\0\0P\0\0\0\0\0\x02\0\0\0\xf5trade\0b\0c\x0b\0\x04\0\0\0time\0sym\0price\0size\0\0\0\x04\0\
\0\0\x10\0\0\0\0\0\x0b\0\0\0\0\0\x07\0\0\0\0\0\x07\0\0\0\0\0";

/// The answer to a subscription to every table: the pairs of `quote` and `trade`.
pub(crate) const BOTH: &[u8] =
    b"\x01\x02\0\0\xb3\0\0\0\0\0\x02\0\0\0\0\0\x02\0\0\0\xf5quote\0b\0c\x0b\0\x06\0\0\0time\0sym\0bid\0ask\
\0bsize\0asize\0\0\0\x06\0\0\0\x10\0\0\0\0\0\x0b\0\0\0\0\0\x07\0\0\0\0\0\x07\0\0\0\0\0\x07\0\0\0\0\
\0\x07\0\0\0\0\0\0\0\x02\0\0\0\xf5trade\0b\0c\x0b\0\x04\0\0\0time\0sym\0price\0size\0\0\0\x04\0\0\0\
\x10\0\0\0\0\0\x0b\0\0\0\0\0\x07\0\0\0\0\0\x07\0\0\0\0\0";

/// The publication of 0D09:30, b, 10, 100.
pub(crate) const FIRST_TOLD: &[u8] =
    b"\x01\0\0\0o\0\0\0\0\0\x03\0\0\0\xf5upd\0\xf5trade\0b\0c\x0b\0\x04\0\0\0time\0sym\0price\0size\0\0\0\
\x04\0\0\0\x10\0\x01\0\0\0\0\xf0\xd9\xce\x1a\x1f\0\0\x0b\0\x01\0\0\0b\0\x07\0\x01\0\0\0\x0a\0\0\0\0\
\0\0\0\x07\0\x01\0\0\0d\0\0\0\0\0\0\0";

/// The publication of 0D09:31, a, 20, 5.
pub(crate) const SECOND_TOLD: &[u8] =
    b"\x01\0\0\0o\0\0\0\0\0\x03\0\0\0\xf5upd\0\xf5trade\0b\0c\x0b\0\x04\0\0\0time\0sym\0price\0size\0\0\0\
\x04\0\0\0\x10\0\x01\0\0\0\0H!\xc7(\x1f\0\0\x0b\0\x01\0\0\0a\0\x07\0\x01\0\0\0\x14\0\0\0\0\0\0\0\
\x07\0\x01\0\0\0\x05\0\0\0\0\0\0\0";

/// The publication of 0D09:32, b, 11, 7.
pub(crate) const THIRD_TOLD: &[u8] =
    b"\x01\0\0\0o\0\0\0\0\0\x03\0\0\0\xf5upd\0\xf5trade\0b\0c\x0b\0\x04\0\0\0time\0sym\0price\0size\0\0\0\
\x04\0\0\0\x10\0\x01\0\0\0\0\xa0h\xbf6\x1f\0\0\x0b\0\x01\0\0\0b\0\x07\0\x01\0\0\0\x0b\0\0\0\0\0\0\0\
\x07\0\x01\0\0\0\x07\0\0\0\0\0\0\0";

/// The publication of the end of 2024.01.02.
pub(crate) const END_TOLD: &[u8] = b"\x01\0\0\0\x1b\0\0\0\0\0\x02\0\0\0\xf5.u.end\0\xf2?\x22\0\0";
