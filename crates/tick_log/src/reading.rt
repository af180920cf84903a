//! Reading a chunk, from left to right: the pass, the table, the columns. Each reader takes the bytes from the current one
//! on, and returns what it read and the bytes after it.
ghost use Rattle.std.specs.Prelude.{◌≡◌, ◌<◌, ◌≤◌, ◌+◌, ◌++◌, ◌∷◌, ℕ, List, length, Some, slice_get, IfOk, IfNone};
ghost use Rattle.std.specs.Option.{IfSome};
ghost use Rattle.q_values.specs.Contents.{Contents};
ghost use Rattle.day_rows.specs.Day.{entry_rows};
ghost use Rattle.day_rows.specs.declared.entry.Entry.{Entry};
ghost use Rattle.day_rows.specs.declared.schema.Shape.{Shape};
ghost use Rattle.ipc_codec.specs.Written.{head};
ghost use Rattle.tick_log.specs.Chunk.{IsChunk};
ghost use Rattle.tick_log.specs.Reading.{IfNoChunk, BeginsWithPass, BeginsWithTable, AreVectors, AreLogged};

use crate::columns::are_loggable;
use crate::layout::{MOST_ROWS, NO_PASS, OPENING};
use crate::refusal::ChunkFault;
use day_rows::{Entry, Schema, row_count};
use ipc_codec::decode_vector;
use q_values::{Columns, Kind};
use std::alloc::Global;

// The number of the pass, which is not the last number.
fn pass_of(bytes: &[u8]) -> Option<(u64, &[u8])>
    ensures some { IfSome result (λ x. BeginsWithPass bytes.now x.0 x.1.now) }
    ensures none { IfNone result ((by : ℕ) (rest : List ℕ) → BeginsWithPass bytes.now by rest → ⊥) }
{
    match bytes {
        [a, b, c, d, e, f, g, h, rest @ ..] => {
            let by = u64::from_le_bytes([*a, *b, *c, *d, *e, *f, *g, *h]);
            if by == NO_PASS {
                None
            } else {
                Some((by, rest))
            }
        }
        _ => None,
    }
}

// The bytes after this prefix.
fn after<'a>(bytes: &'a [u8], prefix: &[u8]) -> Option<&'a [u8]>
    ensures some { IfSome result (λ rest. bytes.now ≡ prefix.now ++ rest.now) }
    ensures none { IfNone result ((rest : List ℕ) → bytes.now ≡ prefix.now ++ rest → ⊥) }
{
    bytes.strip_prefix(prefix)
}

// The bytes after this name and the 0 that ends it.
fn after_name<'a>(bytes: &'a [u8], name: &[u8]) -> Option<&'a [u8]>
    ensures some { IfSome result (λ rest. bytes.now ≡ name.now ++ 0 ∷ rest.now) }
    ensures none { IfNone result ((rest : List ℕ) → bytes.now ≡ name.now ++ 0 ∷ rest → ⊥) }
{
    after(after(bytes, name)?, b"\0")
}

// The index of the table whose name comes first.
fn name_of<'a>(schema: &Schema, bytes: &'a [u8]) -> Option<(usize, &'a [u8])>
    ensures some { IfSome result (λ x. (shape : Shape) × (slice_get schema.now x.0 ≡ Some shape)
        × (bytes.now ≡ shape.table ++ 0 ∷ x.1.now)) }
    ensures none { IfNone result ((i : ℕ) (shape : Shape) (rest : List ℕ) → slice_get schema.now i ≡ Some shape
        → bytes.now ≡ shape.table ++ 0 ∷ rest → ⊥) }
{
    for i in 0..schema.len() {
        if let Some(rest) = after_name(bytes, schema.at(i).table.bytes()) {
            return Some((i, rest));
        }
    }
    None
}

// The index of the table of an update.
fn table_of<'a>(schema: &Schema, bytes: &'a [u8]) -> Option<(usize, &'a [u8])>
    ensures some { IfSome result (λ x. (shape : Shape) × (slice_get schema.now x.0 ≡ Some shape)
        × BeginsWithTable bytes.now shape.table x.1.now) }
    ensures none { IfNone result ((i : ℕ) (shape : Shape) (rest : List ℕ) → slice_get schema.now i ≡ Some shape
        → BeginsWithTable bytes.now shape.table rest → ⊥) }
{
    name_of(schema, after(bytes, &OPENING)?)
}

// The bytes after the head of a general list of this many objects.
fn after_head(bytes: &[u8], count: usize) -> Option<&[u8]>
    requires { count ≤ 48 }
    ensures some { IfSome result (λ rest. bytes.now ≡ head 0 count ++ rest.now) }
    ensures none { IfNone result ((rest : List ℕ) → bytes.now ≡ head 0 count ++ rest → ⊥) }
{
    after(bytes, &[0, 0, count as u8, 0, 0, 0])
}

// This many vectors, and nothing after them.
fn vectors_of(alloc: Global, bytes: &[u8], count: usize) -> Result<Columns, ChunkFault>
    ensures found { IfOk result (λ columns. AreVectors count bytes.now columns) }
    ensures none { IfNoChunk result ((columns : List Contents) → AreVectors count bytes.now columns → ⊥) }
{
    let mut columns = Columns::with_capacity(alloc, count)?;
    let mut rest = bytes;
    for _ in 0..count {
        let (column, after) = decode_vector(alloc, rest)?;
        columns.push(column)?;
        rest = after;
    }
    if !rest.is_empty() {
        return Err(ChunkFault::NoChunk);
    }
    Ok(columns)
}

// The columns of an update of a table whose columns have these kinds, and nothing after them.
fn columns_of(alloc: Global, bytes: &[u8], kinds: &[Kind]) -> Result<Columns, ChunkFault>
    requires { length kinds.now ≤ 48 }
    ensures found { IfOk result (λ columns. AreLogged kinds.now bytes.now columns) }
    ensures none { IfNoChunk result ((columns : List Contents) → AreLogged kinds.now bytes.now columns → ⊥) }
{
    let Some(rest) = after_head(bytes, kinds.len()) else {
        return Err(ChunkFault::NoChunk);
    };
    let columns = vectors_of(alloc, rest, kinds.len())?;
    if !are_loggable(kinds, columns.as_slice()) {
        return Err(ChunkFault::NoChunk);
    }
    Ok(columns)
}

/// Reads the chunk of an update, in a log that has `before` rows before it; returns the entry, and the number of rows after
/// it.
pub fn entry_of(
    alloc: Global,
    schema: &Schema,
    before: u64,
    payload: &[u8],
) -> Result<(Entry, u64), ChunkFault>
    requires { before ≤ 4294967295 }
    ensures found { IfOk result (λ x. IsChunk schema.now before payload.now x.0) }
    ensures rows { IfOk result (λ x. x.1 ≡ before + entry_rows x.0) }
    ensures bounded { IfOk result (λ x. x.1 ≤ 4294967295) }
    ensures none { IfNoChunk result ((entry : Entry) → IsChunk schema.now before payload.now entry → ⊥) }
{
    let Some((by, rest)) = pass_of(payload) else {
        return Err(ChunkFault::NoChunk);
    };
    let Some((table, rest)) = table_of(schema, rest) else {
        return Err(ChunkFault::NoChunk);
    };
    let columns = columns_of(alloc, rest, schema.at(table).kinds.as_slice())?;
    let rows = row_count(columns.as_slice()) as u64;
    if rows > MOST_ROWS - before {
        return Err(ChunkFault::NoChunk);
    }
    let table = table as u32;
    Ok((Entry::Upd { by, table, columns }, before + rows))
}
