//! Parts of objects, for formats that keep objects without a value: vectors by themselves, the head of a list, a symbol.
//! Everything is in the canonical encoding, and is refused where it is in another one.
ghost use Rattle.std.specs.Prelude.{◌≡◌, ◌≤◌, ◌++◌, ◌∷◌, drop, take, slice_get, Some, OnOk, OnErr, IfOk, IfNone, nat_le};
ghost use Rattle.std.specs.Option.{IfSome};
ghost use Rattle.std.specs.List.{list_all};
ghost use Rattle.q_values.specs.Kind.{type_number};
ghost use Rattle.q_values.specs.Tree.{atom};
ghost use Rattle.q_values.specs.declared.atom.Atom.TheVariants as a;
ghost use Rattle.ipc_codec.specs.Appends.{Begins};
ghost use Rattle.ipc_codec.specs.Canonical.{BeginsWith, BeginsWithNone, IfNotCanonical, is_boolean};
ghost use Rattle.ipc_codec.specs.Written.{head, written};

use crate::fault::Stop;
use crate::order::Order;
use crate::reading::vector_of;
use crate::writing::{put_head, put_text};
use q_values::{Kind, NoMemory, Vector};
use std::alloc::Global;
use thiserror::Error;

/// Why no vector is read from the front of bytes.
#[derive(Clone, Copy, Debug, PartialEq, Eq, Error)]
pub enum VectorFault {
    /// No vector in its canonical encoding begins the bytes.
    #[error("no vector in its canonical encoding")]
    NotCanonical,
    /// Out of memory.
    #[error("out of memory")]
    NoMemory,
}

impl From<Stop> for VectorFault {
    ghost use Rattle.ipc_codec.specs.Canonical.{fault_of};
    ghost use Rattle.std.specs.Prelude.{◌≡◌};

    ghost from_gives = { λ stop e. e ≡ fault_of stop };

    fn from(stop: Stop) -> VectorFault {
        match stop {
            Stop::At(_) => VectorFault::NotCanonical,
            Stop::Memory => VectorFault::NoMemory,
        }
    }
}

/// Appends the head of a general list of `count` objects: the type 0, the attribute 0 and the count, six bytes (KX, IPC
/// reference). Out of memory, `out` is left as it was.
pub fn encode_list_head(out: &mut Vec<u8>, count: usize) -> Result<(), NoMemory>
    requires { count ≤ 2147483647 }
    ensures ok { OnOk result (out.new.items ≡ out.old.items ++ head 0 count) }
    ensures err { OnErr result (out.new.items ≡ out.old.items) }
{
    put_head(out, 0, count)
}

/// Appends a symbol atom: the type, the symbol's bytes and a 0, two bytes more than the symbol has (KX, IPC reference). Out
/// of memory, `out` begins with what it had.
#[tactic(auto, using(crate::proofs::WritingLemmas::begins), unfolding(crate::specs::Written::written))]
pub fn encode_symbol(out: &mut Vec<u8>, symbol: &[u8]) -> Result<(), NoMemory>
    ensures ok { OnOk result (out.new.items ≡ out.old.items ++ written (atom (a.Symbol symbol.now))) }
    ensures err { OnErr result (Begins out.old.items out.new.items) }
{
    out.push(245)?;
    put_text(out, symbol)
}

// The kind of a vector whose type byte comes first and whose attribute is 0, and the bytes from the attribute on.
fn kind_at_front(bytes: &[u8]) -> Option<(Kind, &[u8])>
    ensures some { IfSome result (λ x. (bytes.now ≡ type_number x.0 ∷ x.1.now) × (slice_get x.1.now 0 ≡ Some 0)) }
    ensures none { IfNone result (BeginsWithNone bytes.now) }
{
    if bytes.len() < 2 {
        return None;
    }
    if bytes[1] != 0 {
        return None;
    }
    let kind = Kind::from_type_number(u16::from(bytes[0]))?;
    Some((kind, &bytes[1..]))
}

fn is_boolean(kind: Kind) -> bool
    ensures { result ≡ is_boolean kind }
{
    kind == Kind::Boolean
}

// Whether the bytes from the fifth to this one are 0 or 1.
fn are_booleans(bytes: &[u8], end: usize) -> bool
    ensures { result ≡ list_all (λ b. nat_le b 1) (drop 5 (take end bytes.now)) }
{
    bytes.iter().take(end).skip(5).all(|b| *b <= 1)
}

/// Reads the vector at the front of the bytes, where it is in its canonical encoding; returns it and the bytes after it
/// (KX, IPC reference). A nonzero attribute, and a byte of a boolean that is neither 0 nor 1, are refused.
pub fn decode_vector(alloc: Global, bytes: &[u8]) -> Result<(Vector, &[u8]), VectorFault>
    ensures found { IfOk result (λ x. BeginsWith bytes.now x.0 x.1.now) }
    ensures refused { IfNotCanonical result (BeginsWithNone bytes.now) }
{
    let Some((kind, body)) = kind_at_front(bytes) else {
        return Err(VectorFault::NotCanonical);
    };
    let (vector, rest) = vector_of(alloc, body, Order::Little, kind)?;
    let end = body.len().saturating_sub(rest.len());
    if is_boolean(kind) && !are_booleans(body, end) {
        return Err(VectorFault::NotCanonical);
    }
    Ok((vector, rest))
}
