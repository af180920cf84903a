//! Symbol literals.
ghost use Rattle.std.specs.Prelude.{◌≡◌, ◌<◌, ◌++◌, length, drop, map, IfOk, OnOk, slice_index};
ghost use Rattle.q_values.specs.declared.kind.Kind.TheVariants as k;
ghost use Rattle.q_values.specs.declared.atom.Atom.TheVariants as a;
ghost use Rattle.q_values.specs.Tree.{tree};
ghost use Rattle.q_text.specs.Symbols.{names};
ghost use Rattle.q_text.specs.Numbers.{valued};

use crate::columns::value_of;
use crate::words::{Class, byte_at, span_end};
use q_values::{Column, NoMemory, Symbols, Value, Vector};
use std::alloc::Global;

// Appends the names of the symbol literal that begins at `at`.
fn push_names(found: &mut Symbols, text: &[u8], at: usize) -> Result<(), NoMemory>
    requires within { at < length text.now }
    requires tick { slice_index text.now at ≡ 96 }
    ensures { OnOk result (found.new ≡ found.old ++ names (drop at text.now)) }
{
    let mut offset = at;
    while byte_at(text, offset) == b'`' {
        let end = span_end(Class::Symbol, text, offset + 1);
        found.push(&text[offset + 1..end])?;
        offset = end;
    }
    Ok(())
}

/// The value of the symbol literal that begins at `at`: one name is an atom, several are a vector.
pub fn symbols_of(alloc: Global, text: &[u8], at: usize) -> Result<Value, NoMemory>
    requires within { at < length text.now }
    requires tick { slice_index text.now at ≡ 96 }
    ensures { IfOk result (λ value. tree value
        ≡ valued (record { kind = k.Symbol; atoms = map (λ name. a.Symbol name) (names (drop at text.now)) })) }
{
    let mut found = Symbols::new(alloc);
    push_names(&mut found, text, at)?;
    value_of(alloc, Vector::from_column(Column::Symbols(found)))
}
