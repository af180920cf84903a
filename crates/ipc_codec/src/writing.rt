//! Writing values in their canonical encoding.
ghost use Rattle.std.specs.Prelude.{◌≡◌, ◌++◌, ◌∷◌, ◌≤◌, ◌<◌, ◌^◌, [], length, take, drop, map, if◌then◌else◌, OnOk, OnErr, All};
ghost use Rattle.std.specs.Int.{w16, w32, w64, cast_unsigned};
ghost use Rattle.std.specs.List.{flat_map};
ghost use Rattle.byteorder.specs.Endian.{little_bytes};
ghost use Rattle.q_values.specs.Column.{contents};
ghost use Rattle.q_values.specs.Tree.{tree, trees, items_of};
ghost use Rattle.ipc_codec.specs.Appends.{Begins};
ghost use Rattle.ipc_codec.specs.declared.order.Order.TheVariants as o;
ghost use Rattle.ipc_codec.specs.Spells.{Spells};
ghost use Rattle.ipc_codec.specs.Written.{head, text_bytes, element_bytes, vector_bytes, grid_bytes, written, written_items, Fits, AllFit, GridFits, IsPlain};

use crate::lengths::encoded_length;
use byteorder::{ByteOrder, LittleEndian};
use q_values::{
    Arena, Atom, Column, Element, Form, Kind, NoMemory, ShortSymbol, Sym, Symbols, TableValue,
    Value, Values, Vector, copy_to_front,
};

// How many short symbols are written at a time.
const SYMBOLS_AT_ONCE: usize = 64;

// How many bytes of symbols are written at a time: so many short ones take eight bytes and a 0 each.
const BYTES_AT_ONCE: usize = 576;

/// A type byte, the attribute byte 0 and a count.
pub fn put_head(out: &mut Vec<u8>, code: u8, count: usize) -> Result<(), NoMemory>
    requires { count ≤ 2147483647 }
    ensures ok { OnOk result (out.new.items ≡ out.old.items ++ head code count) }
    ensures err { OnErr result (out.new.items ≡ out.old.items) }
{
    let n = (count as u32).to_le_bytes();
    out.extend_from_slice(&[code, 0, n[0], n[1], n[2], n[3]])?;
    Ok(())
}

// Appends numbers of `$width` bytes each. Once there is room, `$write` writes them all.
macro_rules! put_numbers {
    ($out:ident, $items:ident, $width:literal, $write:ident) => {{
        let start = $out.len();
        $out.resize(start + $width * $items.len(), 0)?;
        LittleEndian::$write($items, &mut $out[start..]);
        Ok(())
    }};
}

fn put_shorts(out: &mut Vec<u8>, items: &[i16]) -> Result<(), NoMemory>
    requires { length items.now ≤ 2147483647 }
    ensures ok { OnOk result (out.new.items
        ≡ out.old.items ++ flat_map (λ x. little_bytes 2 (cast_unsigned w16 x)) items.now) }
    ensures err { OnErr result (out.new.items ≡ out.old.items) }
{
    put_numbers!(out, items, 2, write_i16_into)
}

fn put_integers(out: &mut Vec<u8>, items: &[i32]) -> Result<(), NoMemory>
    requires { length items.now ≤ 2147483647 }
    ensures ok { OnOk result (out.new.items
        ≡ out.old.items ++ flat_map (λ x. little_bytes 4 (cast_unsigned w32 x)) items.now) }
    ensures err { OnErr result (out.new.items ≡ out.old.items) }
{
    put_numbers!(out, items, 4, write_i32_into)
}

fn put_longs(out: &mut Vec<u8>, items: &[i64]) -> Result<(), NoMemory>
    requires { length items.now ≤ 2147483647 }
    ensures ok { OnOk result (out.new.items
        ≡ out.old.items ++ flat_map (λ x. little_bytes 8 (cast_unsigned w64 x)) items.now) }
    ensures err { OnErr result (out.new.items ≡ out.old.items) }
{
    put_numbers!(out, items, 8, write_i64_into)
}

// 1 for true, 0 for false.
fn byte_of(x: bool) -> u8
    ensures { result ≡ (if x then 1 else 0) }
{
    if x { 1 } else { 0 }
}

fn put_booleans(out: &mut Vec<u8>, items: &[bool]) -> Result<(), NoMemory>
    ensures ok { OnOk result (out.new.items ≡ out.old.items ++ map (λ x. if x then 1 else 0) items.now) }
    ensures err { OnErr result (out.new.items ≡ out.old.items) }
{
    out.reserve(items.len())?;
    for x in items {
        out.push_reserved(byte_of(*x));
    }
    Ok(())
}

/// A text, and the 0 that ends it.
#[tactic(auto, using(crate::proofs::WritingLemmas::begins))]
pub fn put_text(out: &mut Vec<u8>, text: &[u8]) -> Result<(), NoMemory>
    ensures ok { OnOk result (out.new.items ≡ out.old.items ++ text_bytes text.now) }
    ensures err { OnErr result (Begins out.old.items out.new.items) }
{
    out.extend_from_slice(text)?;
    out.push(0)?;
    Ok(())
}

// Writes short symbols, each with the 0 that ends it, at the front of the block; returns how many bytes they take. Each
// is written as eight bytes, of which the next one overwrites those that aren't its own.
fn fill_block(block: &mut [u8; BYTES_AT_ONCE], symbols: &[ShortSymbol]) -> usize
    requires { length symbols.now ≤ 64 }
    ensures within { result ≤ 576 }
    ensures value { take result block.new ≡ flat_map text_bytes symbols.now }
{
    let mut end = 0;
    for symbol in symbols {
        block[end..end + 8].copy_from_slice(&symbol.padded());
        end += symbol.len();
        block[end] = 0;
        end += 1;
    }
    end
}

#[tactic(auto, using(crate::proofs::WritingLemmas::begins))]
fn put_short_symbols(out: &mut Vec<u8>, symbols: &[ShortSymbol]) -> Result<(), NoMemory>
    ensures ok { OnOk result (out.new.items ≡ out.old.items ++ flat_map text_bytes symbols.now) }
    ensures err { OnErr result (Begins out.old.items out.new.items) }
{
    let mut block = [0u8; BYTES_AT_ONCE];
    let mut at = 0;
    while at < symbols.len() {
        let count = (symbols.len() - at).min(SYMBOLS_AT_ONCE);
        let end = fill_block(&mut block, &symbols[at..at + count]);
        out.extend_from_slice(&block[..end])?;
        at += count;
    }
    Ok(())
}

// Writes the symbols from the index `from` on at the front of the block, each with the 0 that ends it, as many as it holds.
// Returns the index of the next one, and how many bytes they take.
fn fill_with_texts(block: &mut [u8; BYTES_AT_ONCE], symbols: &Arena, from: usize) -> (usize, usize)
    requires { from ≤ length symbols.now }
    ensures next { from ≤ result.0 × result.0 ≤ length symbols.now }
    ensures within { result.1 ≤ 576 }
    ensures value { flat_map text_bytes (take result.0 symbols.now)
        ≡ flat_map text_bytes (take from symbols.now) ++ take result.1 block.new }
{
    let mut next = from;
    let mut end = 0;
    while next < symbols.len() {
        let text = symbols.at(next);
        if text.len() >= BYTES_AT_ONCE - end {
            break;
        }
        copy_to_front(&mut block[end..], text);
        end += text.len();
        block[end] = 0;
        end += 1;
        next += 1;
    }
    (next, end)
}

#[tactic(auto, using(crate::proofs::WritingLemmas::begins))]
fn put_texts(out: &mut Vec<u8>, symbols: &Arena) -> Result<(), NoMemory>
    ensures ok { OnOk result (out.new.items ≡ out.old.items ++ flat_map text_bytes symbols.now) }
    ensures err { OnErr result (Begins out.old.items out.new.items) }
{
    let mut block = [0u8; BYTES_AT_ONCE];
    let mut at = 0;
    while at < symbols.len() {
        let (next, end) = fill_with_texts(&mut block, symbols, at);
        if next > at {
            out.extend_from_slice(&block[..end])?;
            at = next;
        } else {
            put_text(out, symbols.at(at))?;
            at += 1;
        }
    }
    Ok(())
}

fn put_symbols(out: &mut Vec<u8>, symbols: &Symbols) -> Result<(), NoMemory>
    ensures ok { OnOk result (out.new.items ≡ out.old.items ++ flat_map text_bytes symbols.now) }
    ensures err { OnErr result (Begins out.old.items out.new.items) }
{
    match symbols.form() {
        Form::Short(items) => put_short_symbols(out, items),
        Form::Long(arena) => put_texts(out, arena),
    }
}

#[tactic(auto, using(crate::proofs::WritingLemmas::elements))]
fn put_elements(out: &mut Vec<u8>, column: &Column) -> Result<(), NoMemory>
    requires { length (contents column.now).atoms ≤ 2147483647 }
    ensures ok { OnOk result (out.new.items ≡ out.old.items ++ flat_map element_bytes (contents column.now).atoms) }
    ensures err { OnErr result (Begins out.old.items out.new.items) }
{
    match column {
        Column::Booleans(items) => put_booleans(out, items),
        Column::Bytes(_, items) => Ok(out.extend_from_slice(items)?),
        Column::Shorts(items) => put_shorts(out, items),
        Column::Integers(_, items) => put_integers(out, items),
        Column::Longs(_, items) => put_longs(out, items),
        Column::Symbols(symbols) => put_symbols(out, symbols),
    }
}

/// Appends the canonical encoding of a vector (KX, IPC reference). Out of memory, `out` begins with what it had.
#[tactic(auto, using(crate::proofs::WritingLemmas::begins), unfolding(crate::specs::Written::vector_bytes))]
pub fn put_vector(out: &mut Vec<u8>, vector: &Vector) -> Result<(), NoMemory>
    requires { length vector.now.atoms ≤ 2147483647 }
    ensures ok { OnOk result (out.new.items ≡ out.old.items ++ vector_bytes vector.now) }
    ensures err { OnErr result (Begins out.old.items out.new.items) }
{
    put_head(out, vector.kind().type_number(), vector.len())?;
    put_elements(out, vector.column())
}

#[tactic(auto, using(crate::proofs::WritingLemmas::begins))]
fn put_names(out: &mut Vec<u8>, names: &[Sym]) -> Result<(), NoMemory>
    ensures ok { OnOk result (out.new.items ≡ out.old.items ++ flat_map text_bytes names.now) }
    ensures err { OnErr result (Begins out.old.items out.new.items) }
{
    for name in names {
        put_text(out, name.bytes())?;
    }
    Ok(())
}

/// Appends the vectors one after another, each in its canonical encoding. Out of memory, `out` begins with what it had.
#[tactic(auto, using(crate::proofs::WritingLemmas::begins))]
pub fn put_columns(out: &mut Vec<u8>, columns: &[Vector]) -> Result<(), NoMemory>
    requires { All (λ column. length column.atoms ≤ 2147483647) columns.now }
    ensures ok { OnOk result (out.new.items ≡ out.old.items ++ flat_map vector_bytes columns.now) }
    ensures err { OnErr result (Begins out.old.items out.new.items) }
{
    for column in columns {
        put_vector(out, column)?;
    }
    Ok(())
}

#[tactic(auto, using(crate::proofs::WritingLemmas::begins), unfolding(crate::specs::Written::grid_bytes))]
fn put_table(out: &mut Vec<u8>, table: &TableValue) -> Result<(), NoMemory>
    requires { GridFits (record { names = table.now.names; columns = table.now.columns }) }
    ensures ok { OnOk result (out.new.items
        ≡ out.old.items ++ grid_bytes (record { names = table.now.names; columns = table.now.columns })) }
    ensures err { OnErr result (Begins out.old.items out.new.items) }
{
    out.extend_from_slice(&[98, 0, 99])?;
    put_head(out, Kind::Symbol.type_number(), table.names.len())?;
    put_names(out, table.names.as_slice())?;
    put_head(out, 0, table.columns.len())?;
    put_columns(out, table.columns.as_slice())
}

// An atom's element.
#[tactic(auto, using(crate::proofs::WritingLemmas::stored))]
fn put_element(out: &mut Vec<u8>, x: &Atom) -> Result<(), NoMemory>
    ensures ok { OnOk result (out.new.items ≡ out.old.items ++ element_bytes x.now) }
    ensures err { OnErr result (Begins out.old.items out.new.items) }
{
    match x.element() {
        Element::Boolean(x) => Ok(out.push(byte_of(x))?),
        Element::Byte(_, x) => Ok(out.push(x)?),
        Element::Short(x) => put_short(out, x),
        Element::Integer(_, x) => put_integer(out, x),
        Element::Long(_, x) => put_long(out, x),
        Element::Symbol(x) => put_text(out, x),
    }
}

fn put_short(out: &mut Vec<u8>, x: &i16) -> Result<(), NoMemory>
    ensures ok { OnOk result (out.new.items ≡ out.old.items ++ little_bytes 2 (cast_unsigned w16 x.now)) }
    ensures err { OnErr result (out.new.items ≡ out.old.items) }
{
    Ok(out.extend_from_slice(&x.to_le_bytes())?)
}

fn put_integer(out: &mut Vec<u8>, x: &i32) -> Result<(), NoMemory>
    ensures ok { OnOk result (out.new.items ≡ out.old.items ++ little_bytes 4 (cast_unsigned w32 x.now)) }
    ensures err { OnErr result (out.new.items ≡ out.old.items) }
{
    Ok(out.extend_from_slice(&x.to_le_bytes())?)
}

fn put_long(out: &mut Vec<u8>, x: &i64) -> Result<(), NoMemory>
    ensures ok { OnOk result (out.new.items ≡ out.old.items ++ little_bytes 8 (cast_unsigned w64 x.now)) }
    ensures err { OnErr result (out.new.items ≡ out.old.items) }
{
    Ok(out.extend_from_slice(&x.to_le_bytes())?)
}

#[cycle(values)]
fn put_items(out: &mut Vec<u8>, items: &Values) -> Result<(), NoMemory>
    requires { AllFit (items_of (trees items.now)) }
    ensures ok { OnOk result (out.new.items ≡ out.old.items ++ written_items (items_of (trees items.now))) }
    ensures err { OnErr result (Begins out.old.items out.new.items) }
{
    for i in 0..items.len() {
        put_value(out, items.at(i))?;
    }
    Ok(())
}

#[cycle(values)]
#[tactic(auto, using(crate::proofs::WritingLemmas::begins, crate::proofs::ItemsLemmas::items), unfolding(crate::specs::Written::written))]
fn put_value(out: &mut Vec<u8>, value: &Value) -> Result<(), NoMemory>
    requires { Fits (tree value.now) }
    ensures ok { OnOk result (out.new.items ≡ out.old.items ++ written (tree value.now)) }
    ensures err { OnErr result (Begins out.old.items out.new.items) }
{
    match value {
        Value::Atom(x) => {
            out.push((256 - u16::from(x.kind().type_number())) as u8)?;
            put_element(out, x)
        }
        Value::Vector(vector) => put_vector(out, vector),
        Value::List(items) => {
            put_head(out, 0, items.len())?;
            put_items(out, items)
        }
        Value::Dict(pair) => {
            out.push(99)?;
            put_value(out, &pair.keys)?;
            put_value(out, &pair.values)
        }
        Value::Table(table) => put_table(out, table),
        Value::Keyed(pair) => {
            out.push(99)?;
            put_table(out, &pair.keys)?;
            put_table(out, &pair.values)
        }
        Value::Identity => Ok(out.extend_from_slice(&[101, 0])?),
        Value::Wrong(text) => {
            out.push(128)?;
            put_text(out, text.as_slice())
        }
    }
}

// The same as `encode`, where there may be no room.
fn put_whole(out: &mut Vec<u8>, value: &Value) -> Result<(), NoMemory>
    requires { IsPlain (tree value.now) }
    ensures ok { OnOk result (out.new.items ≡ out.old.items ++ written (tree value.now)) }
    ensures err { OnErr result (out.new.items ≡ out.old.items) }
{
    let start = out.len();
    let done = put_value(out, value);
    if done.is_err() {
        out.truncate(start);
    }
    done
}

/// Appends the canonical encoding of a value: little-endian, with attributes 0, booleans 0 or 1, and 99 for each
/// dictionary (KX, IPC reference). The room for all of it is made first, once. Out of memory, `out` is left as it was.
pub fn encode(out: &mut Vec<u8>, value: &Value) -> Result<(), NoMemory>
    requires { IsPlain (tree value.now) }
    ensures ok { OnOk result (out.new.items ≡ out.old.items ++ written (tree value.now)) }
    ensures err { OnErr result (out.new.items ≡ out.old.items) }
    // The bytes that were appended are an encoding of the value, so they are read back as it.
    ensures spelled { OnOk result (Spells o.Little (drop (length out.old.items) out.new.items) (tree value.now)) }
{
    out.reserve(encoded_length(value))?;
    put_whole(out, value)
}
