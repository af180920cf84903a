//! Why records are not read as updates.

use ipc_codec::VectorFault;
use q_values::NoMemory;
use thiserror::Error;

/// Why the records of a log are not replayed.
#[derive(Clone, Copy, Debug, PartialEq, Eq, Error)]
pub enum ReplayRefusal {
    /// The record after `chunks` chunks is no chunk. The gate before it is at the offset `bytes` of the log's file.
    #[error("no chunk at byte {bytes}, after {chunks} chunks")]
    Corrupt { chunks: u64, bytes: u64 },
    /// Out of memory.
    #[error("out of memory")]
    NoMemory,
}

impl From<NoMemory> for ReplayRefusal {
    ghost use Rattle.std.specs.Prelude.{◌≡◌};
    ghost use Rattle.tick_log.specs.declared.refusal.ReplayRefusal.TheVariants as r;

    ghost from_gives = { λ _ e. e ≡ r.NoMemory };

    fn from(_e: NoMemory) -> ReplayRefusal {
        ReplayRefusal::NoMemory
    }
}

/// Why a payload is not read as an update.
#[derive(Clone, Copy, Debug, PartialEq, Eq)]
pub enum ChunkFault {
    /// It is no chunk.
    NoChunk,
    /// Out of memory.
    NoMemory,
}

impl From<NoMemory> for ChunkFault {
    ghost use Rattle.std.specs.Prelude.{◌≡◌};
    ghost use Rattle.tick_log.specs.declared.refusal.ChunkFault.TheVariants as r;

    ghost from_gives = { λ _ e. e ≡ r.NoMemory };

    fn from(_e: NoMemory) -> ChunkFault {
        ChunkFault::NoMemory
    }
}

impl From<VectorFault> for ChunkFault {
    ghost use Rattle.std.specs.Prelude.{◌≡◌};
    ghost use Rattle.tick_log.specs.Fault.{fault_of};

    ghost from_gives = { λ fault e. e ≡ fault_of fault };

    fn from(fault: VectorFault) -> ChunkFault {
        match fault {
            VectorFault::NotCanonical => ChunkFault::NoChunk,
            VectorFault::NoMemory => ChunkFault::NoMemory,
        }
    }
}
