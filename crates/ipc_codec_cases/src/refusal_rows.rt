//! Bytes that are no object, with the refusal.

use ipc_codec::{DecodeRefusal, Order};

/// A name, the bytes and their order, and the refusal.
pub type Refused = (&'static str, Order, &'static [u8], DecodeRefusal);

/// A name, a number of lists of one item within one another, what they hold, and the refusal. The order is little-endian.
pub type Deep = (&'static str, usize, &'static [u8], DecodeRefusal);

/// Bytes with each refusal but `TooDeep`.
pub const REFUSED: [Refused; 35] = [
    ("nothing", Order::Little, b"", DecodeRefusal::Truncated(0)),
    (
        "a count past the end",
        Order::Little,
        b"\x07\0\xff\xff\xff\x7f",
        DecodeRefusal::Truncated(6),
    ),
    (
        "a negative count",
        Order::Little,
        b"\x07\0\xff\xff\xff\xff",
        DecodeRefusal::BadShape(2),
    ),
    (
        "a count in the other order",
        Order::Big,
        b"\x07\0\x01\0\0\0\0\0\0\0\0\0\0\0",
        DecodeRefusal::Truncated(14),
    ),
    (
        "half a count",
        Order::Little,
        b"\x07\0\xff\xff\xff",
        DecodeRefusal::Truncated(5),
    ),
    (
        "a half long",
        Order::Little,
        b"\xf9\x01\x02\x03",
        DecodeRefusal::Truncated(4),
    ),
    (
        "a symbol without its end",
        Order::Little,
        b"\xf5abc",
        DecodeRefusal::Truncated(4),
    ),
    (
        "an error without its end",
        Order::Little,
        b"\x80abc",
        DecodeRefusal::Truncated(4),
    ),
    (
        "a list whose items run past its end",
        Order::Little,
        b"\0\0\x02\0\0\0e\0",
        DecodeRefusal::Truncated(8),
    ),
    (
        "101 alone",
        Order::Little,
        b"e",
        DecodeRefusal::Truncated(1),
    ),
    (
        "101 and 1",
        Order::Little,
        b"e\x01",
        DecodeRefusal::NotBuilt(0),
    ),
    (
        "a guid",
        Order::Little,
        b"\xfe\0\0\0\0\0\0\0\0\0\0\0\0\0\0\0\0",
        DecodeRefusal::NotBuilt(0),
    ),
    (
        "a float vector",
        Order::Little,
        b"\x09\0\0\0\0\0",
        DecodeRefusal::NotBuilt(0),
    ),
    (
        "a float in a list",
        Order::Little,
        b"\0\0\x02\0\0\0e\0\xf7\0\0\0\0\0\0\0\0",
        DecodeRefusal::NotBuilt(8),
    ),
    (
        "an enumeration",
        Order::Little,
        b"\x14\0\0\0\0\0",
        DecodeRefusal::NotBuilt(0),
    ),
    ("97", Order::Little, b"a", DecodeRefusal::NotBuilt(0)),
    ("100", Order::Little, b"d\0", DecodeRefusal::NotBuilt(0)),
    ("112", Order::Little, b"p", DecodeRefusal::NotBuilt(0)),
    ("-20", Order::Little, b"\xec", DecodeRefusal::NotBuilt(0)),
    ("-97", Order::Little, b"\x9f", DecodeRefusal::NotBuilt(0)),
    ("3", Order::Little, b"\x03", DecodeRefusal::BadType(0)),
    ("-3", Order::Little, b"\xfd", DecodeRefusal::BadType(0)),
    ("113", Order::Little, b"q", DecodeRefusal::BadType(0)),
    ("126", Order::Little, b"~", DecodeRefusal::BadType(0)),
    ("-98", Order::Little, b"\x9e", DecodeRefusal::BadType(0)),
    ("-127", Order::Little, b"\x81", DecodeRefusal::BadType(0)),
    (
        "a table without its dictionary",
        Order::Little,
        b"b\0\x0b\0\0\0\0\0",
        DecodeRefusal::BadShape(2),
    ),
    (
        "names that are no symbols",
        Order::Little,
        b"b\0c\x0a\0\0\0\0\0",
        DecodeRefusal::BadShape(3),
    ),
    (
        "columns that are no list",
        Order::Little,
        b"b\0c\x0b\0\0\0\0\0\x06",
        DecodeRefusal::BadShape(9),
    ),
    (
        "a table without columns",
        Order::Little,
        b"b\0c\x0b\0\0\0\0\0\0\0\0\0\0\0",
        DecodeRefusal::BadShape(0),
    ),
    (
        "a column that is an atom",
        Order::Little,
        b"b\0c\x0b\0\x01\0\0\0a\0\0\0\x01\0\0\0\xfa\x01\0\0\0",
        DecodeRefusal::NotBuilt(17),
    ),
    (
        "more names than columns",
        Order::Little,
        b"b\0c\x0b\0\x02\0\0\0a\0b\0\0\0\x01\0\0\0\x06\0\0\0\0\0",
        DecodeRefusal::BadShape(0),
    ),
    (
        "columns of two lengths",
        Order::Little,
        b"b\0c\x0b\0\x02\0\0\0a\0b\0\0\0\x02\0\0\0\x04\0\x01\0\0\0\x01\x04\0\0\0\0\0",
        DecodeRefusal::BadShape(0),
    ),
    (
        "a dictionary of two lengths",
        Order::Little,
        b"c\x04\0\x01\0\0\0\x01\x04\0\0\0\0\0",
        DecodeRefusal::BadShape(0),
    ),
    (
        "tables of two lengths",
        Order::Little,
        b"cb\0c\x0b\0\x01\0\0\0a\0\0\0\x01\0\0\0\x06\0\x01\0\0\0\x02\0\0\0b\0c\x0b\0\x01\0\0\0a\0\0\0\x01\0\0\0\x06\0\0\0\0\0",
        DecodeRefusal::BadShape(0),
    ),
];

/// Objects at the limit of 64 levels.
pub const DEEP: [Deep; 3] = [
    ("65 lists", 64, b"\0\0\0\0\0\0", DecodeRefusal::TooDeep(384)),
    (
        "64 lists and no more bytes",
        64,
        b"",
        DecodeRefusal::Truncated(384),
    ),
    (
        "a table whose columns are too deep",
        61,
        b"b\0c\x0b\0\x01\0\0\0a\0\0\0\x01\0\0\0\x06\0\x01\0\0\0\x02\0\0\0",
        DecodeRefusal::TooDeep(383),
    ),
];
