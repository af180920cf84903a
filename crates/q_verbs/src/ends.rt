//! The nulls of the kinds.
ghost use Rattle.std.specs.Prelude.{◌≡◌, ◌≢◌, IsTrue, IfOk, is_ok};
ghost use Rattle.q_values.specs.declared.kind.Kind.TheVariants as k;
ghost use Rattle.q_values.specs.Kind.{storage_of};
ghost use Rattle.q_verbs.specs.Aggregates.{stored_atom, null_of};

use q_values::{Atom, Kind, NoMemory, Storage, Sym};
use std::alloc::Global;

/// The character that is used as a null.
const BLANK: u8 = 32;

/// One value for each width that atoms are stored in.
#[derive(Clone, Copy)]
pub(crate) struct Ends {
    /// Of a boolean.
    pub boolean: bool,
    /// Of a byte or a character.
    pub byte: u8,
    /// Of 16 bits.
    pub short: i16,
    /// Of 32 bits.
    pub integer: i32,
    /// Of 64 bits.
    pub long: i64,
}

impl Ends {
    // The atom of a kind with the value of its width; of a symbol the empty one.
    fn atom(&self, alloc: Global, kind: Kind) -> Result<Atom, NoMemory>
        ensures value { IfOk result (λ x. x ≡ stored_atom self.now (storage_of kind)) }
        ensures ok { kind ≢ k.Symbol → IsTrue (is_ok result) }
    {
        match kind.storage() {
            Storage::Boolean => Ok(Atom::Boolean(self.boolean)),
            Storage::Byte(own) => Ok(own.atom(self.byte)),
            Storage::Short => Ok(Atom::Short(self.short)),
            Storage::Integer(own) => Ok(own.atom(&self.integer)),
            Storage::Long(own) => Ok(own.atom(&self.long)),
            Storage::Symbol => Ok(Atom::Symbol(Sym::copied(alloc, &[])?)),
        }
    }
}

/// The null of a kind, or the value that is used as one.
pub fn null_atom(alloc: Global, kind: Kind) -> Result<Atom, NoMemory>
    ensures value { IfOk result (λ x. x ≡ null_of kind) }
    ensures ok { kind ≢ k.Symbol → IsTrue (is_ok result) }
{
    let ends = Ends {
        boolean: false,
        byte: if kind == Kind::Character { BLANK } else { 0 },
        short: i16::MIN,
        integer: i32::MIN,
        long: i64::MIN,
    };
    ends.atom(alloc, kind)
}
