//! Why a journal can't be read or loaded.

use q_values::NoMemory;
use thiserror::Error;

/// Why a journal can't be loaded. Its file reads as before.
#[derive(Clone, Copy, Debug, PartialEq, Eq, Error)]
pub enum JournalRefusal {
    /// A call of the disk failed.
    #[error("the disk failed")]
    DiskFault,
    /// The file is no journal from the offset `bytes` on, after `records` records.
    #[error("no journal from byte {bytes} on, after {records} records")]
    Corrupt { records: u64, bytes: u64 },
    /// Out of memory.
    #[error("out of memory")]
    NoMemory,
}

/// Why a file can't be read.
#[derive(Clone, Copy, Debug, PartialEq, Eq, Error)]
pub enum ReadRefusal {
    /// A call of the disk failed.
    #[error("the disk failed")]
    DiskFault,
    /// Out of memory.
    #[error("out of memory")]
    NoMemory,
}

impl From<outside_api::DiskFault> for ReadRefusal {
    ghost use Rattle.std.specs.Prelude.{◌≡◌};
    ghost use Rattle.gated_journal.specs.declared.refusal.ReadRefusal.TheVariants as r;

    ghost from_gives = { λ _ e. e ≡ r.DiskFault };

    fn from(_e: outside_api::DiskFault) -> ReadRefusal {
        ReadRefusal::DiskFault
    }
}

impl From<NoMemory> for ReadRefusal {
    ghost use Rattle.std.specs.Prelude.{◌≡◌};
    ghost use Rattle.gated_journal.specs.declared.refusal.ReadRefusal.TheVariants as r;

    ghost from_gives = { λ _ e. e ≡ r.NoMemory };

    fn from(_e: NoMemory) -> ReadRefusal {
        ReadRefusal::NoMemory
    }
}

impl From<ReadRefusal> for JournalRefusal {
    ghost use Rattle.gated_journal.specs.Load.{IsRaised};

    ghost from_gives = { IsRaised };

    fn from(e: ReadRefusal) -> JournalRefusal {
        match e {
            ReadRefusal::DiskFault => JournalRefusal::DiskFault,
            ReadRefusal::NoMemory => JournalRefusal::NoMemory,
        }
    }
}

impl From<outside_api::DiskFault> for JournalRefusal {
    ghost use Rattle.std.specs.Prelude.{◌≡◌};
    ghost use Rattle.gated_journal.specs.declared.refusal.JournalRefusal.TheVariants as r;

    ghost from_gives = { λ _ e. e ≡ r.DiskFault };

    fn from(_e: outside_api::DiskFault) -> JournalRefusal {
        JournalRefusal::DiskFault
    }
}

impl From<NoMemory> for JournalRefusal {
    ghost use Rattle.std.specs.Prelude.{◌≡◌};
    ghost use Rattle.gated_journal.specs.declared.refusal.JournalRefusal.TheVariants as r;

    ghost from_gives = { λ _ e. e ≡ r.NoMemory };

    fn from(_e: NoMemory) -> JournalRefusal {
        JournalRefusal::NoMemory
    }
}
