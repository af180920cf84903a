//! How many bytes the canonical encoding of a value has. Nothing is encoded for it: a vector is as long as its number of
//! elements and their width say, and symbols are as long as their bytes and one 0 each.
ghost use Rattle.std.specs.Int.{w16, w32, w64};
ghost use Rattle.std.specs.Int.RustNames.{FitsSigned};
ghost use Rattle.std.specs.Prelude.{◌≡◌, length, All};
ghost use Rattle.std.specs.List.{flat_map};
ghost use Rattle.q_values.specs.Bytes.{HasNoNul};
ghost use Rattle.q_values.specs.Column.{contents};
ghost use Rattle.q_values.specs.Tree.{tree, trees, items_of};
ghost use Rattle.ipc_codec.specs.Lengths.{saturated};
ghost use Rattle.ipc_codec.specs.Written.{text_bytes, element_bytes, vector_bytes, grid_bytes, written, written_items};
ghost use Rattle.ipc_codec.specs.Written.{AtomFits, AtomsFit, AllAtomsFit, VectorFits, GridAtomsFit};

use q_values::{Atom, Column, Element, Sym, Symbols, TableValue, Value, Values, Vector};

// A type byte, an attribute byte and the four bytes of a count.
const HEAD: usize = 6;

// A text and the 0 that ends it.
#[tactic(auto, using(crate::proofs::LengthLemmas::lengths))]
fn text_length(text: &[u8]) -> usize
    ensures { result ≡ saturated (length (text_bytes text.now)) }
{
    text.len().saturating_add(1)
}

#[tactic(auto, using(crate::proofs::LengthLemmas::lengths))]
fn symbols_length(symbols: &Symbols) -> usize
    ensures value { result ≡ saturated (length (flat_map text_bytes symbols.now)) }
    ensures fit { All HasNoNul symbols.now }
{
    symbols.bytes_len().saturating_add(symbols.len())
}

// That a number is one of its type is known once it is read. These functions do nothing else, and are compiled to nothing.

fn short_fits(x: &i16)
    ensures { FitsSigned w16 x.now }
{
    let _value = *x;
}

fn shorts_fit(items: &[i16])
    ensures { All (FitsSigned w16) items.now }
{
    for x in items {
        short_fits(x);
    }
}

fn integer_fits(x: &i32)
    ensures { FitsSigned w32 x.now }
{
    let _value = *x;
}

fn integers_fit(items: &[i32])
    ensures { All (FitsSigned w32) items.now }
{
    for x in items {
        integer_fits(x);
    }
}

fn long_fits(x: &i64)
    ensures { FitsSigned w64 x.now }
{
    let _value = *x;
}

fn longs_fit(items: &[i64])
    ensures { All (FitsSigned w64) items.now }
{
    for x in items {
        long_fits(x);
    }
}

#[tactic(auto, using(crate::proofs::LengthLemmas::lengths, crate::proofs::FitLemmas::columns))]
fn elements_length(column: &Column) -> usize
    ensures value { result ≡ saturated (length (flat_map element_bytes (contents column.now).atoms)) }
    ensures fit { VectorFits (contents column.now) }
{
    match column {
        Column::Booleans(items) => items.len(),
        Column::Bytes(_, items) => items.len(),
        Column::Shorts(items) => {
            shorts_fit(items);
            items.len().saturating_mul(2)
        }
        Column::Integers(_, items) => {
            integers_fit(items);
            items.len().saturating_mul(4)
        }
        Column::Longs(_, items) => {
            longs_fit(items);
            items.len().saturating_mul(8)
        }
        Column::Symbols(symbols) => symbols_length(symbols),
    }
}

#[tactic(auto, using(crate::proofs::LengthLemmas::lengths))]
fn vector_length(vector: &Vector) -> usize
    ensures value { result ≡ saturated (length (vector_bytes vector.now)) }
    ensures fit { VectorFits vector.now }
{
    elements_length(vector.column()).saturating_add(HEAD)
}

fn names_length(names: &[Sym]) -> usize
    ensures value { result ≡ saturated (length (flat_map text_bytes names.now)) }
    ensures fit { All HasNoNul names.now }
{
    let mut total = 0usize;
    for name in names {
        total = total.saturating_add(text_length(name.bytes()));
    }
    total
}

/// The number of bytes of the canonical encodings of these vectors together, and `usize::MAX` where it is more than that. It
/// takes no memory.
pub fn columns_length(columns: &[Vector]) -> usize
    ensures value { result ≡ saturated (length (flat_map vector_bytes columns.now)) }
    ensures fit { All VectorFits columns.now }
{
    let mut total = 0usize;
    for column in columns {
        total = total.saturating_add(vector_length(column));
    }
    total
}

// A table is three bytes, its names with their head, and its columns with theirs.
#[tactic(auto, using(crate::proofs::LengthLemmas::lengths))]
fn table_length(table: &TableValue) -> usize
    ensures value { result ≡ saturated (length (grid_bytes (record { names = table.now.names; columns = table.now.columns }))) }
    ensures fit { GridAtomsFit (record { names = table.now.names; columns = table.now.columns }) }
{
    names_length(table.names.as_slice())
        .saturating_add(columns_length(table.columns.as_slice()))
        .saturating_add(3 + 2 * HEAD)
}

#[tactic(auto, using(crate::proofs::LengthLemmas::lengths))]
fn element_length(x: &Atom) -> usize
    ensures value { result ≡ saturated (length (element_bytes x.now)) }
    ensures fit { AtomFits x.now }
{
    match x.element() {
        Element::Boolean(_) => 1,
        Element::Byte(_, _) => 1,
        Element::Short(x) => x.to_le_bytes().len(),
        Element::Integer(_, x) => x.to_le_bytes().len(),
        Element::Long(_, x) => x.to_le_bytes().len(),
        Element::Symbol(text) => text_length(text),
    }
}

#[cycle(lengths)]
fn items_length(items: &Values) -> usize
    ensures value { result ≡ saturated (length (written_items (items_of (trees items.now)))) }
    ensures fit { AllAtomsFit (items_of (trees items.now)) }
{
    let mut total = 0usize;
    for i in 0..items.len() {
        total = total.saturating_add(encoded_length(items.at(i)));
    }
    total
}

/// The number of bytes that [`encode`](crate::encode) appends for the value, and `usize::MAX` where it is more than that.
/// It takes no memory; its time is in proportion to the number of atoms, vectors and tables, and not to their length.
#[cycle(lengths)]
pub fn encoded_length(value: &Value) -> usize
    ensures value { result ≡ saturated (length (written (tree value.now))) }
    // The atoms of every value are such that their bytes are read back: numbers of their width, and symbols without a 0.
    ensures fit { AtomsFit (tree value.now) }
{
    match value {
        Value::Atom(x) => element_length(x).saturating_add(1),
        Value::Vector(vector) => vector_length(vector),
        Value::List(items) => items_length(items).saturating_add(HEAD),
        Value::Dict(pair) => encoded_length(&pair.keys)
            .saturating_add(encoded_length(&pair.values))
            .saturating_add(1),
        Value::Table(table) => table_length(table),
        Value::Keyed(pair) => table_length(&pair.keys)
            .saturating_add(table_length(&pair.values))
            .saturating_add(1),
        Value::Identity => 2,
        Value::Wrong(text) => text_length(text.as_slice()).saturating_add(1),
    }
}
