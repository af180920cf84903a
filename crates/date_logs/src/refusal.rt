//! Why the files of a plant are not made.

use outside_api::DiskFault;
use thiserror::Error;

/// Why the files of a plant are not made.
#[derive(Clone, Copy, Debug, PartialEq, Eq, Error)]
pub enum FormatRefusal {
    /// The manifest's file isn't empty.
    #[error("the disk has a plant already")]
    AlreadyMade,
    /// A call of the disk failed.
    #[error("the disk failed")]
    DiskFault,
    /// Out of memory.
    #[error("out of memory")]
    NoMemory,
}

impl From<DiskFault> for FormatRefusal {
    ghost use Rattle.std.specs.Prelude.{◌≡◌};
    ghost use Rattle.date_logs.specs.declared.refusal.FormatRefusal.TheVariants as f;

    ghost from_gives = { λ _ e. e ≡ f.DiskFault };

    fn from(_e: DiskFault) -> FormatRefusal {
        FormatRefusal::DiskFault
    }
}
