//! Reading a log's records.
ghost use Rattle.std.specs.Prelude.{◌≡◌, IfOk};
ghost use Rattle.tick_log.specs.Replay.{AreChunks, NoChunkAt, IfCorrupt};

use crate::reading::entry_of;
use crate::refusal::{ChunkFault, ReplayRefusal};
use day_rows::{Entries, Schema};
use gated_journal::Records;
use std::alloc::Global;

/// The updates of a log's records, in order. Each is decoded straight into its columns; time and memory are linear in the
/// bytes of the records.
///
/// The answer is [`ReplayRefusal::Corrupt`] exactly where a record is no chunk: with the number of chunks before it, and the
/// offset of its gate in the log's file.
pub fn replay(alloc: Global, schema: &Schema, records: &Records) -> Result<Entries, ReplayRefusal>
    ensures entries { IfOk result (λ entries. AreChunks schema.now 0 records.now entries) }
    ensures corrupt { IfCorrupt result (λ chunks bytes. NoChunkAt schema.now records.now chunks bytes) }
{
    let mut entries = Entries::with_capacity(alloc, records.len())?;
    let mut rows = 0;
    for i in 0..records.len() {
        match entry_of(alloc, schema, rows, records.at(i)) {
            Ok((entry, after)) => {
                entries.push(entry)?;
                rows = after;
            }
            Err(ChunkFault::NoChunk) => {
                return Err(ReplayRefusal::Corrupt {
                    chunks: i as u64,
                    bytes: records.gate_of(i),
                });
            }
            Err(ChunkFault::NoMemory) => return Err(ReplayRefusal::NoMemory),
        }
    }
    Ok(entries)
}
