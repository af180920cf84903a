//! Text in quotes, with its escapes.
ghost use Rattle.std.specs.Prelude.{◌≡◌, ◌≤◌, length, drop, map, IfOk, IfSome, false};
ghost use Rattle.q_values.specs.declared.kind.Kind.TheVariants as k;
ghost use Rattle.q_values.specs.declared.atom.Atom.TheVariants as a;
ghost use Rattle.q_values.specs.Tree.{tree};
ghost use Rattle.q_text.specs.Strings as spec;
ghost use Rattle.q_text.specs.Numbers.{valued};

use crate::columns::value_of;
use q_values::{ByteKind, Column, NoMemory, Value, Vector};
use std::alloc::Global;

/// A text in quotes.
#[derive(Drop)]
pub struct Quoted {
    /// The bytes it stands for, with escapes replaced.
    pub bytes: Vec<u8>,
    /// The offset just past its closing quote.
    pub end: usize,
}

// The byte that a backslash followed by this byte stands for.
fn escape(b: u8) -> Option<u8>
    ensures { result ≡ spec.escape b }
{
    match b {
        b'"' => Some(b'"'),
        b'\\' => Some(b'\\'),
        b'n' => Some(b'\n'),
        b't' => Some(b'\t'),
        _ => None,
    }
}

/// The text whose opening quote is just before `from`. `None` where the text ends before a closing quote, or an escape is
/// unknown.
pub fn quoted_at(alloc: Global, text: &[u8], from: usize) -> Result<Option<Quoted>, NoMemory>
    requires { from ≤ length text.now }
    ensures value { IfOk result (spec.IsQuoted from (spec.quoted false (drop from text.now))) }
    ensures within { IfOk result (λ found. IfSome found (λ q. (from ≤ q.end) × (q.end ≤ length text.now))) }
{
    let mut bytes = Vec::new(alloc);
    let mut escaped = false;
    let mut offset = from;
    while offset < text.len() {
        let b = text[offset];
        offset += 1;
        if escaped {
            match escape(b) {
                Some(meant) => bytes.push(meant)?,
                None => return Ok(None),
            }
            escaped = false;
        } else if b == b'"' {
            return Ok(Some(Quoted { bytes, end: offset }));
        } else if b == b'\\' {
            escaped = true;
        } else {
            bytes.push(b)?;
        }
    }
    Ok(None)
}

/// The value of a text: one character is an atom, any other number of them a vector.
pub fn characters_of(alloc: Global, bytes: Vec<u8>) -> Result<Value, NoMemory>
    ensures { IfOk result (λ value. tree value
        ≡ valued (record { kind = k.Character; atoms = map (λ b. a.Character b) bytes.items })) }
{
    value_of(
        alloc,
        Vector::from_column(Column::Bytes(ByteKind::Character, bytes)),
    )
}
