//! Why reading ends early. Readers see a slice that begins at the current byte, so a fault carries the number of bytes that
//! are left from it on; `placed_in` turns that into an offset.
ghost use Rattle.std.specs.Prelude.{◌≡◌};
ghost use Rattle.ipc_codec.specs.Reading.{placed};
ghost use Rattle.ipc_codec.specs.declared.fault.Stop.TheVariants as s;

use crate::refusal::DecodeRefusal;
use q_values::NoMemory;

/// What is wrong with the bytes, seen from where reading ended.
#[derive(Clone, Copy, Debug, PartialEq, Eq)]
pub enum Fault {
    /// The bytes end within the object.
    Truncated,
    /// The type byte is none of kdb+. The number of bytes left, from that byte on, as in each of the others.
    BadType(usize),
    /// A count, a table or a dictionary is out of shape.
    BadShape(usize),
    /// The type is one of kdb+ that is not supported.
    NotBuilt(usize),
    /// The object is more than 64 levels deep.
    TooDeep(usize),
}

impl Fault {
    /// The refusal for this fault, where the input has `count` bytes.
    pub fn placed_in(self, count: usize) -> DecodeRefusal
        ensures { result ≡ placed count self }
    {
        match self {
            Fault::Truncated => DecodeRefusal::Truncated(count),
            Fault::BadType(left) => DecodeRefusal::BadType(count.saturating_sub(left)),
            Fault::BadShape(left) => DecodeRefusal::BadShape(count.saturating_sub(left)),
            Fault::NotBuilt(left) => DecodeRefusal::NotBuilt(count.saturating_sub(left)),
            Fault::TooDeep(left) => DecodeRefusal::TooDeep(count.saturating_sub(left)),
        }
    }
}

/// Why reading a value ended early.
#[derive(Clone, Copy, Debug, PartialEq, Eq)]
pub enum Stop {
    /// The bytes are no object.
    At(Fault),
    /// Out of memory.
    Memory,
}

impl From<Fault> for Stop {
    ghost from_gives = { λ f e. e ≡ s.At f };

    fn from(fault: Fault) -> Stop {
        Stop::At(fault)
    }
}

impl From<NoMemory> for Stop {
    ghost from_gives = { λ _ e. e ≡ s.Memory };

    fn from(_e: NoMemory) -> Stop {
        Stop::Memory
    }
}
