//! The bytes of the messages, each as it is sent (KX, IPC reference).

use outside_mem::{MemLink, Piece, Pieces, Takings};
use q_values::{NoMemory, Sequence, Text, Turn};
use std::alloc::Global;

/// The handshake of the user `u` with the password `p` and the capability 3.
pub(crate) const GREETING: &[u8] = b"u:p\x03\0";

/// The update of `trade` by one row: 0D09:30, KX, 10050, 200.
pub(crate) const UPDATE: &[u8] =
    b"\x01\x01\0\0B\0\0\0\0\0\x03\0\0\0\xf5.u.upd\0\xf5trade\0\0\0\x04\0\0\0\xf0\0\xf0\xd9\xce\x1a\x1f\
\0\0\xf5KX\0\xf9B'\0\0\0\0\0\0\xf9\xc8\0\0\0\0\0\0\0";

/// The text `exec count i from trade`.
pub(crate) const COUNT: &[u8] = b"\x01\x01\0\0\x25\0\0\0\x0a\0\x17\0\0\0exec count i from trade";

/// The text ``.u.sub[`;`]``.
pub(crate) const TO_ALL: &[u8] = b"\x01\x01\0\0\x19\0\0\0\x0a\0\x0b\0\0\0.u.sub[`;`]";

/// The text ``.u.sub[`trade;`KX]``.
pub(crate) const TO_KX: &[u8] = b"\x01\x01\0\0\x20\0\0\0\x0a\0\x12\0\0\0.u.sub[`trade;`KX]";

/// The list of `.u.sub`, `trade` and the symbols `AB` and `CD`.
pub(crate) const TO_AB_AND_CD: &[u8] =
    b"\x01\x01\0\0\x29\0\0\0\0\0\x03\0\0\0\xf5.u.sub\0\xf5trade\0\x0b\0\x02\0\0\0AB\0CD\0";

/// The answer to the handshake.
pub(crate) const GREETED: &[u8] = b"\x03";

/// The answer `(::)` to an update that was logged.
pub(crate) const DONE: &[u8] = b"\x01\x02\0\0\x0a\0\0\0e\0";

/// The answer to a subscription to `trade`: its name and the table without rows.
pub(crate) const TRADE: &[u8] =
    b"\x01\x02\0\0P\0\0\0\0\0\x02\0\0\0\xf5trade\0b\0c\x0b\0\x04\0\0\0time\0sym\0price\0size\0\0\0\x04\0\
\0\0\x10\0\0\0\0\0\x0b\0\0\0\0\0\x07\0\0\0\0\0\x07\0\0\0\0\0";

/// The answer to a subscription to every table: the pairs of `quote` and `trade`.
pub(crate) const BOTH: &[u8] =
    b"\x01\x02\0\0\xb3\0\0\0\0\0\x02\0\0\0\0\0\x02\0\0\0\xf5quote\0b\0c\x0b\0\x06\0\0\0time\0sym\0bid\0ask\
\0bsize\0asize\0\0\0\x06\0\0\0\x10\0\0\0\0\0\x0b\0\0\0\0\0\x07\0\0\0\0\0\x07\0\0\0\0\0\x07\0\0\0\0\
\0\x07\0\0\0\0\0\0\0\x02\0\0\0\xf5trade\0b\0c\x0b\0\x04\0\0\0time\0sym\0price\0size\0\0\0\x04\0\0\0\
\x10\0\0\0\0\0\x0b\0\0\0\0\0\x07\0\0\0\0\0\x07\0\0\0\0\0";

/// The publication of `UPDATE`: an async `upd` with its row.
pub(crate) const TOLD: &[u8] =
    b"\x01\0\0\0p\0\0\0\0\0\x03\0\0\0\xf5upd\0\xf5trade\0b\0c\x0b\0\x04\0\0\0time\0sym\0price\0size\0\0\0\
\x04\0\0\0\x10\0\x01\0\0\0\0\xf0\xd9\xce\x1a\x1f\0\0\x0b\0\x01\0\0\0KX\0\x07\0\x01\0\0\0B'\0\0\0\0\
\0\0\x07\0\x01\0\0\0\xc8\0\0\0\0\0\0\0";

/// The publication of the end of 2024.01.02.
pub(crate) const END_TOLD: &[u8] = b"\x01\0\0\0\x1b\0\0\0\0\0\x02\0\0\0\xf5.u.end\0\xf2?\x22\0\0";

// What stands before the eight bytes of a long that is answered.
const LONG: &[u8] = b"\x01\x02\0\0\x11\0\0\0\xf9";

/// A link whose reads give these bytes, and then the end.
pub(crate) fn link_of(alloc: Global, reads: &[&[u8]]) -> Result<MemLink, NoMemory> {
    let mut pieces = Pieces::new(alloc);
    for bytes in reads {
        let text = Text::from_vec(alloc, Vec::from_slice(alloc, bytes)?)?;
        pieces.push(Piece::Bytes(text))?;
    }
    Ok(MemLink::script(alloc, pieces, Takings::new(alloc)))
}

/// The bytes after those of an answer with this number.
fn after_long(bytes: &[u8], number: u64) -> Option<&[u8]> {
    bytes
        .strip_prefix(LONG)?
        .strip_prefix(&number.to_le_bytes())
}

/// The bytes after those of a turn's response. Each text was answered with the number of rows of its beginning of the
/// chronicle, and each entry is an update of one row.
pub(crate) fn after_turn(bytes: &[u8], turn: Turn) -> Option<&[u8]> {
    match turn {
        Turn::Greeted { capability: 3 } => bytes.strip_prefix(GREETED),
        Turn::Logged { .. } => bytes.strip_prefix(DONE),
        Turn::Answered { length } => after_long(bytes, length),
        _ => None,
    }
}
