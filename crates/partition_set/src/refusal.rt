//! Why a manifest can't be had.

use outside_api::DiskFault;
use q_values::NoMemory;
use thiserror::Error;

/// Why a manifest was not made or loaded.
#[derive(Clone, Copy, Debug, PartialEq, Eq, Error)]
pub enum ManifestRefusal {
    /// The file is no manifest: it is no journal, or the record after the gate at this offset is none that may stand there.
    #[error("the manifest is damaged at offset {bytes}")]
    BadManifest {
        /// The offset in the manifest's file, in bytes.
        bytes: u64,
    },
    /// A call of the disk failed.
    #[error("the disk failed")]
    DiskFault,
    /// Out of memory.
    #[error("out of memory")]
    NoMemory,
}

impl From<NoMemory> for ManifestRefusal {
    ghost use Rattle.std.specs.Prelude.{◌≡◌};
    ghost use Rattle.partition_set.specs.declared.refusal.ManifestRefusal.TheVariants as r;

    ghost from_gives = { λ _ e. e ≡ r.NoMemory };

    fn from(_e: NoMemory) -> ManifestRefusal {
        ManifestRefusal::NoMemory
    }
}

impl From<DiskFault> for ManifestRefusal {
    ghost use Rattle.std.specs.Prelude.{◌≡◌};
    ghost use Rattle.partition_set.specs.declared.refusal.ManifestRefusal.TheVariants as r;

    ghost from_gives = { λ _ e. e ≡ r.DiskFault };

    fn from(_e: DiskFault) -> ManifestRefusal {
        ManifestRefusal::DiskFault
    }
}
