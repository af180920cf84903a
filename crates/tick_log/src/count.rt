//! Counting the good chunks of a file.
ghost use Rattle.std.specs.Prelude.{◌≡◌, IfOk, IsTrue};
ghost use Rattle.outside_api.specs.Disk.{Stays};
ghost use Rattle.gated_journal.specs.Load.{ReadCounts};
ghost use Rattle.tick_log.specs.Count.{CountsChunks, CountsRecords, CountsFile};

use crate::reading::entry_of;
use crate::refusal::ChunkFault;
use day_rows::Schema;
use gated_journal::{Journal, Records, ValidPrefix};
use outside_api::Disk;
use q_values::NoMemory;
use std::alloc::Global;

/// Why a file can't be counted: the disk failed, or out of memory.
pub use gated_journal::ReadRefusal as CountRefusal;

/// The good chunks of a log's file.
#[derive(Clone, Copy, Debug, PartialEq, Eq)]
pub struct Valid {
    /// The number of chunks before the first fault, or of all.
    pub chunks: u64,
    /// The offset of the gate after them; 0 where the file doesn't begin as a journal does or has fewer than nine bytes.
    pub bytes: u64,
    /// Whether there is a fault.
    pub damaged: bool,
}

// The number of records before the first that is no chunk. Each is decoded and given up.
fn count_chunks(alloc: Global, schema: &Schema, records: &Records) -> Result<usize, NoMemory>
    ensures { IfOk result (CountsChunks schema.now records.now) }
{
    let mut rows = 0;
    for i in 0..records.len() {
        match entry_of(alloc, schema, rows, records.at(i)) {
            Ok((_entry, after)) => rows = after,
            Err(ChunkFault::NoChunk) => return Ok(i),
            Err(ChunkFault::NoMemory) => return Err(NoMemory),
        }
    }
    Ok(records.len())
}

// The good chunks of records, after which the journal ends, or has its first fault at an offset.
fn count_records(
    alloc: Global,
    schema: &Schema,
    records: &Records,
    fault: Option<u64>,
) -> Result<Valid, NoMemory>
    ensures { IfOk result (CountsRecords schema.now records.now fault) }
{
    let chunks = count_chunks(alloc, schema, records)?;
    if chunks < records.len() {
        return Ok(Valid {
            chunks: chunks as u64,
            bytes: records.gate_of(chunks),
            damaged: true,
        });
    }
    Ok(Valid {
        chunks: chunks as u64,
        bytes: fault.unwrap_or(records.end()),
        damaged: fault.is_some(),
    })
}

/// The number of good chunks of a log's file, up to the first fault or the end, and the offset of the gate after them. The
/// file is read once, as it is; nothing is written or synced.
pub fn count_valid<D: Disk>(
    alloc: Global,
    disk: &mut D,
    file: u64,
    schema: &Schema,
) -> Result<Valid, CountRefusal>
    ensures valid { IfOk result (λ valid. IsTrue (D.shown disk.old).tells
        → CountsFile schema.now ((D.shown disk.old).now file).bytes valid) }
    ensures stays { Stays (D.shown disk.old) (D.shown disk.new) }
    ensures counts { ReadCounts (D.shown disk.old) (D.shown disk.new) result }
{
    let ValidPrefix { records, fault } = Journal::read_valid(alloc, disk, file)?;
    Ok(count_records(alloc, schema, &records, fault)?)
}
