//! Making the chunk of an update.
ghost use Rattle.std.specs.Prelude.{◌≡◌, ◌≤◌, ◌+◌, ℕ, ◌++◌, ◌↔◌, [], true, length, All, OnOk, IfOk};
ghost use Rattle.day_rows.specs.Day.{entry_rows};
ghost use Rattle.ipc_codec.specs.Lengths.{saturated};
ghost use Rattle.ipc_codec.specs.Written.{VectorFits};
ghost use Rattle.tick_log.specs.Chunk.{chunk_bytes, FitsLog, IsChunk, IsLoggable, longest_chunk};

use crate::columns::are_loggable;
use crate::layout::{LONGEST_CHUNK, NO_PASS, OVERHEAD, UPDATE_WORD};
use day_rows::{Entry, Schema, Shape};
use gated_journal::Payload;
use ipc_codec::{encode_list_head, encode_symbol, encode_vectors, encoded_vectors_length};
use q_values::{NoMemory, Sym, Vector};
use std::alloc::Global;

// Stands where the payload's length is written once that is known.
const NO_LENGTH: [u8; 4] = [0; 4];

// The bytes of a buffer beside the chunk: its length before it, and a closed gate after it.
const BESIDE_CHUNK: usize = 5;

/// The payload of a log's record.
pub type Chunk = Payload;

/// The number of bytes of the chunk of an update of this table with these columns, and `usize::MAX` where it is more than
/// that. It takes no memory.
pub fn chunk_length(table: &Sym, columns: &[Vector]) -> usize
    ensures value { (by : ℕ) → result ≡ saturated (length (chunk_bytes by table.now columns.now)) }
    ensures fit { All VectorFits columns.now }
{
    encoded_vectors_length(columns)
        .saturating_add(table.bytes().len())
        .saturating_add(OVERHEAD)
}

/// Whether a log can hold the entry: exactly where it is an update of a table of the schema, of a pass below 2^64 - 1, whose
/// columns have the table's kinds and one length and no symbol of more than 256 bytes, and whose chunk has at most
/// 2,147,483,647 bytes.
pub fn is_loggable(schema: &Schema, entry: &Entry) -> bool
    ensures { (result ≡ true) ↔ IsLoggable schema.now entry.now }
{
    match entry {
        Entry::Upd { by, table, columns } => match schema.get(*table as usize) {
            Some(shape) => fits_log(*by, shape, columns.as_slice()),
            None => false,
        },
        Entry::Roll { .. } | Entry::Fault { .. } => false,
    }
}

fn fits_log(by: u64, shape: &Shape, columns: &[Vector]) -> bool
    ensures { (result ≡ true) ↔ FitsLog by shape.now columns.now }
{
    if by == NO_PASS {
        return false;
    }
    if !are_loggable(shape.kinds.as_slice(), columns) {
        return false;
    }
    chunk_length(&shape.table, columns) <= LONGEST_CHUNK
}

// Appends the bytes of a chunk.
fn put_chunk(out: &mut Vec<u8>, by: u64, table: &Sym, columns: &[Vector]) -> Result<(), NoMemory>
    requires { length (chunk_bytes by table.now columns.now) ≤ longest_chunk }
    ensures { OnOk result (out.new.items ≡ out.old.items ++ chunk_bytes by table.now columns.now) }
{
    out.extend_from_slice(&by.to_le_bytes())?;
    encode_list_head(out, 3)?;
    encode_symbol(out, &UPDATE_WORD)?;
    encode_symbol(out, table.bytes())?;
    encode_list_head(out, columns.len())?;
    encode_vectors(out, columns)
}

// The chunk of an update of the schema that a log can hold, in the memory of an empty buffer. The room for all of it is
// made once, and the columns are encoded straight into it, after four bytes for its length.
fn chunk_in(mut buffer: Vec<u8>, schema: &Schema, entry: &Entry) -> Result<Chunk, NoMemory>
    requires empty { buffer.items ≡ [] }
    requires loggable { IsLoggable schema.now entry.now }
    ensures { IfOk result (λ made. (before : ℕ) → before + entry_rows entry.now ≤ 4294967295
        → IsChunk schema.now before made.bytes entry.now) }
{
    match entry {
        Entry::Upd { by, table, columns } => {
            let table = &schema.at(*table as usize).table;
            let columns = columns.as_slice();
            buffer.reserve(chunk_length(table, columns).saturating_add(BESIDE_CHUNK))?;
            buffer.extend_from_slice(&NO_LENGTH)?;
            put_chunk(&mut buffer, *by, table, columns)?;
        }
        Entry::Roll { .. } | Entry::Fault { .. } => unreachable!(),
    }
    Payload::from_buffer(buffer)
}

/// The chunk of an update of the schema that a log can hold, in the memory of an older chunk. The columns are encoded
/// straight into the payload, once, after the room for all of it was made. Out of memory, the older chunk is given up.
pub fn chunk_into(chunk: Chunk, schema: &Schema, entry: &Entry) -> Result<Chunk, NoMemory>
    requires { IsLoggable schema.now entry.now }
    ensures { IfOk result (λ made. (before : ℕ) → before + entry_rows entry.now ≤ 4294967295
        → IsChunk schema.now before made.bytes entry.now) }
{
    let mut buffer = chunk.into_buffer();
    buffer.clear();
    chunk_in(buffer, schema, entry)
}

/// The chunk of an update of the schema that a log can hold. It takes its memory at once.
pub fn chunk_of(alloc: Global, schema: &Schema, entry: &Entry) -> Result<Chunk, NoMemory>
    requires { IsLoggable schema.now entry.now }
    ensures { IfOk result (λ made. (before : ℕ) → before + entry_rows entry.now ≤ 4294967295
        → IsChunk schema.now before made.bytes entry.now) }
{
    chunk_in(Vec::new(alloc), schema, entry)
}
