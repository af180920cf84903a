//! Why a plant's dates are not loaded.

use day_rows::Shape;
use partition_set::ManifestRefusal;
use q_values::{NoMemory, Sym};
use std::fmt::{self, Debug, Display, Formatter, Write};
use thiserror::Error;

/// Why a load of a plant's dates is refused.
#[derive(Drop, Error)]
pub enum LoadRefusal {
    /// The manifest's file is damaged at this offset, in bytes.
    #[error("the manifest is damaged at byte {bytes}")]
    BadManifest {
        bytes: u64,
    },
    /// The schema isn't the one that the plant was made with. Of the tables that differ this is the first by name,
    /// as it was kept and as it is given; where a side has no table of that name, it has no columns.
    #[error("the schema is not the one that was kept")]
    SchemaDiffers {
        table: Sym,
        kept: Shape,
        given: Shape,
    },
    /// The plant has already opened a later date.
    #[error("the day {kept} was opened already")]
    EarlierDate {
        kept: i32,
    },
    /// The log of this date is damaged: it is no journal, or the record after `chunks` chunks is none, at the offset
    /// `bytes` of its file.
    #[error("the log of the day {date} is damaged at byte {bytes}, after {chunks} chunks")]
    CorruptLog {
        date: i32,
        chunks: u64,
        bytes: u64,
    },
    /// A call of the disk failed.
    #[error("the disk failed")]
    DiskFault,
    /// No number is left for another pass.
    #[error("the numbers of passes are used up")]
    NumbersSpent,
    /// Out of memory.
    #[error("out of memory")]
    NoMemory,
}

impl Debug for LoadRefusal {
    fn fmt<W: Write>(&self, f: &mut Formatter<W>) -> fmt::Result {
        Display::fmt(self, f)
    }
}

impl From<NoMemory> for LoadRefusal {
    ghost use Rattle.std.specs.Prelude.{◌≡◌};
    ghost use Rattle.date_loading.specs.declared.refusal.LoadRefusal.TheVariants as l;

    ghost from_gives = { λ _ e. e ≡ l.NoMemory };

    fn from(_e: NoMemory) -> LoadRefusal {
        LoadRefusal::NoMemory
    }
}

impl From<ManifestRefusal> for LoadRefusal {
    ghost use Rattle.std.specs.Prelude.{◌≡◌};
    ghost use Rattle.date_loading.specs.Refusals.{refusal_of};

    ghost from_gives = { λ refusal e. e ≡ refusal_of refusal };

    fn from(refusal: ManifestRefusal) -> LoadRefusal {
        match refusal {
            ManifestRefusal::BadManifest { bytes } => LoadRefusal::BadManifest { bytes },
            ManifestRefusal::DiskFault => LoadRefusal::DiskFault,
            ManifestRefusal::NoMemory => LoadRefusal::NoMemory,
        }
    }
}
