//! Why a call on values is refused.

use std::alloc::{AllocError, AllocFailed};
use thiserror::Error;

/// Out of memory. What the call was to change is as before.
#[derive(Clone, Copy, Debug, PartialEq, Eq, Error)]
#[error("out of memory")]
pub struct NoMemory;

impl From<AllocError> for NoMemory {
    fn from(_e: AllocError) -> NoMemory {
        NoMemory
    }
}

impl<T: Drop> From<AllocFailed<T>> for NoMemory {
    fn from(_e: AllocFailed<T>) -> NoMemory {
        NoMemory
    }
}

/// Why a vector takes no more atoms. It is as before.
#[derive(Clone, Copy, Debug, PartialEq, Eq, Error)]
pub enum VectorRefusal {
    /// What was to be added has another kind than the vector.
    #[error("another kind")]
    KindMismatch,
    /// Out of memory.
    #[error("out of memory")]
    NoMemory,
}

impl From<NoMemory> for VectorRefusal {
    ghost use Rattle.std.specs.Prelude.{◌≡◌};
    ghost use Rattle.q_values.specs.declared.refusal.VectorRefusal.TheVariants as r;

    ghost from_gives = { λ _ e. e ≡ r.NoMemory };

    fn from(_e: NoMemory) -> VectorRefusal {
        VectorRefusal::NoMemory
    }
}
