//! How much memory a value may take that is read. A general list has a whole value for each item, and the shortest object
//! has two bytes, so a message could ask for many times its own length.
//!
//! A value takes at most 20 bytes for each byte of its message, the eight of the header too. A list of the shortest objects
//! takes exactly that, and its own six bytes pay for its block of memory. So a list is read, however many items it has, of
//! atoms, vectors, tables, keyed tables and lists of these. Refused, where there are more than a few, are errors of one to
//! three bytes, and dictionaries whose two sides have at most five bytes together, as two booleans. A block of memory has at
//! least 32 bytes, so these do take more. No kdb+ process sends them: the sides of its dictionaries are lists or tables, of
//! at least six bytes each, and its error is a response of its own, in no list.
ghost use Rattle.std.specs.Prelude.{◌≡◌, ◌+◌, ◌<◌, OnOk, OnErr, IfErr, min};
ghost use Rattle.ipc_codec.specs.Memory.{memory_for};

use q_values::{Atom, Column, Form, NoMemory, Symbols, Value, Vector};
use std::mem::size_of;

/// The most bytes of memory for each byte of a message.
const BYTES_FOR_EACH: usize = 20;

/// The bytes of a message before its object.
const MESSAGE_HEAD: usize = 8;

/// The bytes of a value, beside what it keeps elsewhere.
pub const VALUE: usize = size_of::<Value>();

/// The most bytes that the C library adds to a block of memory whose length is a multiple of eight, but more than eight.
pub const HEADER: usize = 16;

/// The bytes of a dictionary's two sides, or of a keyed table's.
pub const SIDES: usize = 2 * VALUE + HEADER;

/// The most bytes that the C library adds to any block of memory.
const BLOCK: usize = 32;

/// The most bytes of the block in which a list or symbols keep their owner: a `Vec`, or an arena.
const OWNER_BLOCK: usize = 64;

/// The most bytes of memory for each byte of a table. An empty name and a column of one empty symbol have eight bytes, and
/// take the most for each: a symbol's 16, a vector's 32, and 64 for the two blocks that the column keeps.
const TABLE_FOR_EACH: usize = 14;

/// The bytes of memory that are left for what is still to be read.
#[derive(Drop)]
pub struct Budget {
    left: usize,
}

impl Budget {
    /// That of a message whose object has this many bytes: 20 bytes for each of them, and for each of the header's eight.
    pub fn of_object(count: usize) -> Budget
        ensures { result.left ≡ min (memory_for count) 18446744073709551615 }
    {
        let message = count.saturating_add(MESSAGE_HEAD);
        Budget {
            left: message.saturating_mul(BYTES_FOR_EACH),
        }
    }

    /// Takes this many bytes from it. Where fewer are left, it takes none.
    pub fn take(&mut self, count: usize) -> Result<(), NoMemory>
        ensures ok { OnOk result (self.new.left + count ≡ self.old.left) }
        ensures err { OnErr result (self.new.left ≡ self.old.left) }
        ensures refused { IfErr result (λ _. self.old.left < count) }
    {
        if self.left < count {
            return Err(NoMemory);
        }
        self.left -= count;
        Ok(())
    }
}

// The most bytes of memory that symbols take, whose encoding has at most `length` bytes.
fn symbols_memory(symbols: &Symbols, length: usize) -> usize {
    match symbols.form() {
        // Eight bytes for each.
        Form::Short(items) => items.len().saturating_mul(8).saturating_add(OWNER_BLOCK),
        // An offset of four for each, and the bytes, in two blocks that have grown.
        Form::Long(arena) => arena
            .len()
            .saturating_mul(12)
            .saturating_add(length.saturating_mul(2))
            .saturating_add(OWNER_BLOCK + 2 * BLOCK),
    }
}

// The most bytes of memory that a vector takes, whose encoding has `length` bytes after the type byte.
fn vector_memory(vector: &Vector, length: usize) -> usize {
    if vector.is_empty() {
        return 0;
    }
    match vector.column() {
        Column::Symbols(symbols) => symbols_memory(symbols, length),
        column => column
            .len()
            .saturating_mul(column.kind().width())
            .saturating_add(BLOCK),
    }
}

/// The most bytes of memory that a value takes beside itself, whose encoding has `length` bytes after the type byte. Of a
/// list, a dictionary or a keyed table nothing: what it holds is counted where it is read.
pub fn memory_beside(value: &Value, length: usize) -> usize {
    match value {
        // A symbol of at most eight bytes, and the zero byte after it, takes no block.
        Value::Atom(Atom::Symbol(_)) if length > 9 => length.saturating_add(2 * BLOCK),
        Value::Wrong(_) if length > 1 => length.saturating_add(2 * BLOCK),
        Value::Vector(vector) => vector_memory(vector, length),
        Value::Table(_) => length.saturating_mul(TABLE_FOR_EACH),
        _ => 0,
    }
}
