//! One update, its chunk, and journals of chunks.

use day_rows::{Entry, OpenDay, Schema};
use gated_journal::{Journal, Records};
use outside_api::Disk;
use outside_mem::MemDisk;
use q_values::{Column, Columns, LongKind, Symbols, Vector};
use schema_text::built_in_schema;
use std::alloc::Global;
use std::process::Abort;
use tick_log::{ReplayRefusal, Valid, count_valid, replay, replay_into};

/// The file of the log.
pub const FILE: u64 = 1_008_767;

/// The index of `trade` in the schema.
pub const TRADE: u32 = 1;

/// ``(`upd;`trade;(enlist 0D09:30;enlist `KX;enlist 10050;enlist 200))`` of the pass 1, as a chunk of 83 bytes.
pub const CHUNK: [u8; 83] = *b"\x01\0\0\0\0\0\0\0\0\0\x03\0\0\0\xf5upd\0\xf5trade\0\0\0\x04\0\0\0\
\x10\0\x01\0\0\0\x00\xf0\xd9\xce\x1a\x1f\0\0\x0b\0\x01\0\0\0KX\0\
\x07\0\x01\0\0\0\x42\x27\0\0\0\0\0\0\x07\0\x01\0\0\0\xc8\0\0\0\0\0\0\0";

fn longs(rt: &impl Abort, alloc: Global, kind: LongKind, item: i64, rows: usize) -> Vector {
    let items = vec![in alloc; item; rows].expect(rt, "memory");
    Vector::from_column(Column::Longs(kind, items))
}

fn symbols(rt: &impl Abort, alloc: Global, rows: usize) -> Vector {
    let mut items = Symbols::new(alloc);
    for _ in 0..rows {
        items.push(b"KX").expect(rt, "memory");
    }
    Vector::from_column(Column::Symbols(items))
}

/// This many rows of `trade`, each `(0D09:30;`KX;10050;200)`, of the pass 1.
pub fn trades(rt: &impl Abort, alloc: Global, rows: usize) -> Entry {
    let mut columns = Columns::new(alloc);
    columns
        .push(longs(rt, alloc, LongKind::Timespan, 34_200_000_000_000, rows))
        .expect(rt, "memory");
    columns.push(symbols(rt, alloc, rows)).expect(rt, "memory");
    columns
        .push(longs(rt, alloc, LongKind::Long, 10_050, rows))
        .expect(rt, "memory");
    columns
        .push(longs(rt, alloc, LongKind::Long, 200, rows))
        .expect(rt, "memory");
    Entry::Upd {
        by: 1,
        table: TRADE,
        columns,
    }
}

/// The chunk with these bytes in place of its own from an offset on.
pub fn changed(rt: &impl Abort, alloc: Global, at: usize, with: &[u8]) -> Vec<u8> {
    let mut out = Vec::new(alloc);
    for (i, byte) in CHUNK.iter().enumerate() {
        let byte = with.get(i.wrapping_sub(at)).unwrap_or(byte);
        out.push(*byte).expect(rt, "memory");
    }
    out
}

fn put_record(rt: &impl Abort, file: &mut Vec<u8>, payload: &[u8]) {
    file.push(0xa5).expect(rt, "memory");
    let size = u32::try_from(payload.len()).unwrap_or(0);
    file.extend_from_slice(&size.to_le_bytes())
        .expect(rt, "memory");
    file.extend_from_slice(payload).expect(rt, "memory");
}

/// The file of a journal that has the chunk and then this payload, and ends with these bytes.
pub fn file_with(rt: &impl Abort, alloc: Global, payload: &[u8], end: &[u8]) -> Vec<u8> {
    let mut file = Vec::from_slice(alloc, b"qtplant1").expect(rt, "memory");
    put_record(rt, &mut file, &CHUNK);
    if !payload.is_empty() {
        put_record(rt, &mut file, payload);
    }
    file.extend_from_slice(end).expect(rt, "memory");
    file
}

fn disk_of(alloc: Global, bytes: &[u8]) -> Option<MemDisk> {
    let mut disk = MemDisk::new(alloc);
    if disk.write_at(FILE, 0, bytes).is_err() {
        return None;
    }
    Some(disk)
}

/// Whether a file counts this many chunks, up to this offset, and is damaged or not.
pub fn counts(
    rt: &impl Abort,
    alloc: Global,
    file: &[u8],
    chunks: u64,
    bytes: u64,
    damaged: bool,
) -> bool {
    let schema = built_in_schema(alloc).expect(rt, "memory");
    let Some(mut disk) = disk_of(alloc, file) else {
        return false;
    };
    match count_valid(alloc, &mut disk, FILE, &schema) {
        Ok(valid) => {
            valid
                == Valid {
                    chunks,
                    bytes,
                    damaged,
                }
        }
        Err(_refusal) => false,
    }
}

/// What is found when the journal of a file is loaded and replayed.
#[derive(Clone, Copy, Debug, PartialEq, Eq)]
pub enum Found {
    /// This many entries.
    Entries(usize),
    /// A record that is no chunk, after this many, at this offset.
    NoChunk(u64, u64),
    /// No journal.
    NoJournal,
    /// Other entries in a day than in a list.
    Differs,
}

// What is found when records are replayed into a day.
fn found_in_a_day(rt: &impl Abort, alloc: Global, schema: &Schema, records: &Records) -> Found {
    let mut day = OpenDay::new(alloc, schema, 8_767).expect(rt, "memory");
    match replay_into(alloc, schema, records, &mut day) {
        Ok(_counts) => Found::Entries(day.updates(alloc).expect(rt, "memory").len()),
        Err(ReplayRefusal::Corrupt { chunks, bytes }) => Found::NoChunk(chunks, bytes),
        Err(ReplayRefusal::NoMemory) => panic!(rt; "no memory"),
    }
}

// What is found when records are replayed as a list.
fn found_in_a_list(rt: &impl Abort, alloc: Global, schema: &Schema, records: &Records) -> Found {
    match replay(alloc, schema, records) {
        Ok(entries) => Found::Entries(entries.len()),
        Err(ReplayRefusal::Corrupt { chunks, bytes }) => Found::NoChunk(chunks, bytes),
        Err(ReplayRefusal::NoMemory) => panic!(rt; "no memory"),
    }
}

/// Loads the journal of a disk, and replays it as a list and into a day.
pub fn found_on(rt: &impl Abort, alloc: Global, disk: &mut MemDisk, schema: &Schema) -> Found {
    let Ok((_journal, records)) = Journal::load(alloc, disk, FILE) else {
        return Found::NoJournal;
    };
    let in_a_list = found_in_a_list(rt, alloc, schema, &records);
    if found_in_a_day(rt, alloc, schema, &records) == in_a_list {
        in_a_list
    } else {
        Found::Differs
    }
}

/// The same of a file.
pub fn found_in(rt: &impl Abort, alloc: Global, file: &[u8]) -> Found {
    let schema = built_in_schema(alloc).expect(rt, "memory");
    match disk_of(alloc, file) {
        Some(mut disk) => found_on(rt, alloc, &mut disk, &schema),
        None => Found::NoJournal,
    }
}
