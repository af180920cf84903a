//! The payloads of a manifest's records.
ghost use Rattle.std.specs.Prelude.{◌≡◌, ◌↔◌, true, ◌≢◌, ◌<◌, ◌≤◌, ◌∷◌, ◌++◌, ◌^◌, take, drop, length, ℕ, ℤ, IfOk, OnOk, IfSome, IfNone};
ghost use Rattle.std.specs.Int.{w32, w64, to_le_bytes, from_le_bytes, cast_unsigned, cast_signed};
ghost use Rattle.q_values.specs.Tree.{tree};
ghost use Rattle.ipc_codec.specs.Written.{written};
ghost use Rattle.ipc_codec.specs.declared.refusal.DecodeRefusal.TheVariants as r;
ghost use Rattle.day_rows.specs.Schema.{IsShape};
ghost use Rattle.day_rows.specs.declared.schema.Shape.{Shape};
ghost use Rattle.partition_set.specs.Records.{shape_tree, payload_of, IsRecord};
ghost use Rattle.partition_set.specs.declared.record.ManifestRecord.{ManifestRecord};
ghost use Rattle.partition_set.specs.declared.record.ManifestRecord.TheVariants as m;

use crate::record::ManifestRecord;
use crate::shapes::is_shape;
use crate::tables::{shape_in, value_of};
use day_rows::Shape;
use ipc_codec::{DecodeRefusal, Order, decode, encode};
use q_values::{NoMemory, Value};
use std::alloc::Global;

/// The byte that a table's record begins with.
const TABLE: u8 = 1;

/// The byte that an opened date's record begins with.
const OPENED: u8 = 2;

/// The number of bytes of an opened date's record.
pub const OPENED_BYTES: usize = 13;

/// The last pass number, which no record has.
const NO_PASS: u64 = u64::MAX;

/// The first and the last date of a plant, in days since 2000.01.01.
const DATES: [i32; 2] = [-106_752, 106_751];

// The byte of a table's record, and the canonical encoding of the table.
fn encoded_shape(alloc: Global, shape: &Shape) -> Result<Vec<u8>, NoMemory>
    requires { IsShape shape.now }
    ensures { IfOk result (λ bytes. bytes.items ≡ payload_of (m.Shape shape.now)) }
{
    let value = value_of(alloc, shape)?;
    let mut bytes = Vec::new(alloc);
    bytes.push(TABLE)?;
    encode(&mut bytes, &value)?;
    Ok(bytes)
}

/// The payload of a table's record.
pub fn payload_of_shape(alloc: Global, shape: &Shape) -> Result<Vec<u8>, NoMemory>
    requires { IsShape shape.now }
    ensures bytes { IfOk result (λ bytes. bytes.items ≡ payload_of (m.Shape shape.now)) }
    ensures some { IfOk result (λ bytes. 0 < length bytes.items) }
    ensures short { IfOk result (λ bytes. length bytes.items ≤ 2147483647) }
{
    let bytes = encoded_shape(alloc, shape)?;
    Ok(bytes)
}

/// The payload of an opened date's record.
pub fn payload_of_opened(by: u64, date: i32) -> [u8; OPENED_BYTES]
    ensures { result ≡ payload_of (m.Opened by date) }
{
    let mut bytes = [OPENED; OPENED_BYTES];
    bytes[1..9].copy_from_slice(&by.to_le_bytes());
    bytes[9..].copy_from_slice(&date.to_le_bytes());
    bytes
}

/// Whether a pass may open this date.
pub fn is_opening(by: u64, date: i32) -> bool
    ensures { (result ≡ true) ↔ IsRecord (m.Opened by date) }
{
    by != NO_PASS && DATES[0] <= date && date <= DATES[1]
}

// Whether this is the canonical encoding of the table.
fn is_encoding_of(alloc: Global, bytes: &[u8], shape: &Shape) -> Result<bool, NoMemory>
    requires { IsShape shape.now }
    ensures { IfOk result (λ same. (same ≡ true) ↔ (bytes.now ≡ written (shape_tree shape.now))) }
{
    let value = value_of(alloc, shape)?;
    let mut canonical = Vec::new(alloc);
    encode(&mut canonical, &value)?;
    Ok(canonical.as_slice() == bytes)
}

// That bytes are refused for what they are, and not since memory ran out.
fn is_no_encoding(refusal: DecodeRefusal) -> Result<(), NoMemory>
    ensures { OnOk result (refusal ≢ r.NoMemory) }
{
    match refusal {
        DecodeRefusal::NoMemory => Err(NoMemory),
        _ => Ok(()),
    }
}

// The value at the front of the bytes. Where they are the encoding of a table, it is that table.
fn value_encoded(alloc: Global, bytes: &[u8]) -> Result<Option<Value>, NoMemory>
    ensures some { IfOk result (λ found. IfSome found (λ value. (shape : Shape) → IsShape shape → bytes.now ≡ written (shape_tree shape)
        → tree value ≡ shape_tree shape)) }
    ensures none { IfOk result (λ found. IfNone found ((shape : Shape) → IsShape shape → bytes.now ≢ written (shape_tree shape))) }
{
    ipc_codec::laws::written_spells();
    match decode(alloc, bytes, Order::Little) {
        Ok((value, _)) => Ok(Some(value)),
        Err(refusal) => {
            is_no_encoding(refusal)?;
            Ok(None)
        }
    }
}

// The table of the value at the front of the bytes. Where they are the encoding of a table, it is that table.
fn shape_of_bytes(alloc: Global, bytes: &[u8]) -> Result<Option<Shape>, NoMemory>
    ensures some { IfOk result (λ found. IfSome found (λ shape. (other : Shape) → IsShape other → bytes.now ≡ written (shape_tree other) → other ≡ shape)) }
    ensures none { IfOk result (λ found. IfNone found ((shape : Shape) → IsShape shape → bytes.now ≢ written (shape_tree shape))) }
{
    let Some(value) = value_encoded(alloc, bytes)? else {
        return Ok(None);
    };
    match shape_in(alloc, &value)? {
        Some(shape) => Ok(Some(shape)),
        None => Ok(None),
    }
}

// The table whose canonical encoding this is.
fn shape_encoded(alloc: Global, bytes: &[u8]) -> Result<Option<Shape>, NoMemory>
    ensures some { IfOk result (λ found. IfSome found (λ shape. (bytes.now ≡ written (shape_tree shape)) × IsShape shape)) }
    ensures none { IfOk result (λ found. IfNone found ((shape : Shape) → IsShape shape → bytes.now ≢ written (shape_tree shape))) }
{
    let Some(shape) = shape_of_bytes(alloc, bytes)? else {
        return Ok(None);
    };
    if is_shape(&shape) && is_encoding_of(alloc, bytes, &shape)? {
        Ok(Some(shape))
    } else {
        Ok(None)
    }
}

// The pass number and the date of an opened date's record, from what follows its first byte.
fn opened_encoded(bytes: &[u8]) -> Option<(u64, i32)>
    ensures len { IfSome result (λ _. length bytes.now ≡ 12) }
    ensures by { IfSome result (λ x. x.0 ≡ from_le_bytes w64 (take 8 bytes.now)) }
    ensures date { IfSome result (λ x. x.1 ≡ cast_signed w32 (from_le_bytes w32 (drop 8 bytes.now))) }
    ensures none { IfNone result (length bytes.now ≢ 12) }
{
    let (by, rest) = bytes.split_first_chunk::<8>()?;
    let (date, after) = rest.split_first_chunk::<4>()?;
    if after.is_empty() {
        Some((u64::from_le_bytes(*by), i32::from_le_bytes(*date)))
    } else {
        None
    }
}

// The opened date's record that follows its first byte.
fn opening_in(bytes: &[u8]) -> Option<(u64, i32)>
    ensures some { IfSome result (λ x. (2 ∷ bytes.now ≡ payload_of (m.Opened x.0 x.1)) × IsRecord (m.Opened x.0 x.1)) }
    ensures none { IfNone result ((by : ℕ) (date : ℤ) → IsRecord (m.Opened by date) → 2 ∷ bytes.now ≢ payload_of (m.Opened by date)) }
{
    let (by, date) = opened_encoded(bytes)?;
    if is_opening(by, date) {
        Some((by, date))
    } else {
        None
    }
}

/// The record with this payload, where it is the payload of one that is allowed by itself.
pub fn record_in(alloc: Global, payload: &[u8]) -> Result<Option<ManifestRecord>, NoMemory>
    ensures some { IfOk result (λ found. IfSome found (λ own. (payload.now ≡ payload_of own) × IsRecord own)) }
    ensures none { IfOk result (λ found. IfNone found ((other : ManifestRecord) → IsRecord other → payload.now ≢ payload_of other)) }
{
    match payload {
        [TABLE, rest @ ..] => match shape_encoded(alloc, rest)? {
            Some(shape) => Ok(Some(ManifestRecord::Shape(shape))),
            None => Ok(None),
        },
        [OPENED, rest @ ..] => match opening_in(rest) {
            Some((by, date)) => Ok(Some(ManifestRecord::Opened { by, date })),
            None => Ok(None),
        },
        _ => Ok(None),
    }
}
