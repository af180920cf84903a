//! Elements of a fixed width, in either byte order.
ghost use Rattle.std.specs.Prelude.{◌≡◌, ◌≤◌, ◌*◌, length, map, take, false, IfOk};
ghost use Rattle.q_values.specs.Column.{contents};
ghost use Rattle.q_values.specs.Kind.{width};
ghost use Rattle.ipc_codec.specs.Numbers.{short_of, integer_of, long_of, boolean_of, element_by, element, cells};
ghost use Rattle.ipc_codec.specs.Reading.{is_symbol};

use crate::order::Order;
use byteorder::{BigEndian, ByteOrder, LittleEndian};
use q_values::{Atom, Column, Kind, NoMemory, Storage};
use std::alloc::{AllocError, Global};

fn booleans_in(alloc: Global, bytes: &[u8], count: usize) -> Result<Vec<bool>, AllocError>
    requires { count ≤ length bytes.now }
    ensures { IfOk result (λ v. v.items ≡ cells boolean_of 1 count bytes.now) }
{
    let mut found = Vec::with_capacity(alloc, count)?;
    for i in 0..count {
        found.push_reserved(bytes[i] != 0);
    }
    Ok(found)
}

// Reads `$count` numbers of `$width` bytes each, one after the other.
macro_rules! numbers_in {
    ($alloc:ident, $bytes:ident, $count:ident, $width:literal, $read:path) => {{
        let mut found = Vec::with_capacity($alloc, $count)?;
        for i in 0..$count {
            found.push_reserved($read(&$bytes[$width * i..]));
        }
        Ok(found)
    }};
}

fn shorts_in<T: ByteOrder>(
    alloc: Global,
    bytes: &[u8],
    count: usize,
) -> Result<Vec<i16>, AllocError>
    requires { count * 2 ≤ length bytes.now }
    ensures { IfOk result (λ v. v.items ≡ cells (short_of T.number_of) 2 count bytes.now) }
{
    numbers_in!(alloc, bytes, count, 2, T::read_i16)
}

fn integers_in<T: ByteOrder>(
    alloc: Global,
    bytes: &[u8],
    count: usize,
) -> Result<Vec<i32>, AllocError>
    requires { count * 4 ≤ length bytes.now }
    ensures { IfOk result (λ v. v.items ≡ cells (integer_of T.number_of) 4 count bytes.now) }
{
    numbers_in!(alloc, bytes, count, 4, T::read_i32)
}

fn longs_in<T: ByteOrder>(alloc: Global, bytes: &[u8], count: usize) -> Result<Vec<i64>, AllocError>
    requires { count * 8 ≤ length bytes.now }
    ensures { IfOk result (λ v. v.items ≡ cells (long_of T.number_of) 8 count bytes.now) }
{
    numbers_in!(alloc, bytes, count, 8, T::read_i64)
}

// A column of `count` elements of a kind of fixed width, in the byte order `T`.
#[tactic(auto, using(crate::proofs::CellsLemmas::columns))]
fn column_in<T: ByteOrder>(
    alloc: Global,
    bytes: &[u8],
    kind: Kind,
    count: usize,
) -> Result<Column, NoMemory>
    requires fixed { is_symbol kind ≡ false }
    requires within { count * width kind ≤ length bytes.now }
    ensures { IfOk result (λ c. contents c
        ≡ record { kind = kind; atoms = cells (element_by T.number_of kind) (width kind) count bytes.now }) }
{
    match Column::new(alloc, kind) {
        Column::Booleans(_) => Ok(Column::Booleans(booleans_in(alloc, bytes, count)?)),
        Column::Bytes(own, _) => Ok(Column::Bytes(own, Vec::from_slice(alloc, &bytes[..count])?)),
        Column::Shorts(_) => Ok(Column::Shorts(shorts_in::<T>(alloc, bytes, count)?)),
        Column::Integers(own, _) => Ok(Column::Integers(
            own,
            integers_in::<T>(alloc, bytes, count)?,
        )),
        Column::Longs(own, _) => Ok(Column::Longs(own, longs_in::<T>(alloc, bytes, count)?)),
        Column::Symbols(none) => Ok(Column::Symbols(none)),
    }
}

/// Reads `count` elements of a kind of fixed width into a column.
pub fn column_of(
    alloc: Global,
    bytes: &[u8],
    order: Order,
    kind: Kind,
    count: usize,
) -> Result<Column, NoMemory>
    requires fixed { is_symbol kind ≡ false }
    requires within { count * width kind ≤ length bytes.now }
    ensures { IfOk result (λ c. contents c
        ≡ record { kind = kind; atoms = cells (element order kind) (width kind) count bytes.now }) }
{
    match order {
        Order::Little => column_in::<LittleEndian>(alloc, bytes, kind, count),
        Order::Big => column_in::<BigEndian>(alloc, bytes, kind, count),
    }
}

// The element at the front, of a kind of fixed width, in the byte order `T`.
fn element_in<T: ByteOrder>(bytes: &[u8], kind: Kind) -> Atom
    requires fixed { is_symbol kind ≡ false }
    requires within { width kind ≤ length bytes.now }
    ensures { result ≡ element_by T.number_of kind bytes.now }
{
    match kind.storage() {
        Storage::Boolean => Atom::Boolean(bytes[0] != 0),
        Storage::Byte(own) => own.atom(bytes[0]),
        Storage::Short => Atom::Short(T::read_i16(bytes)),
        Storage::Integer(own) => own.atom(&T::read_i32(bytes)),
        Storage::Long(own) => own.atom(&T::read_i64(bytes)),
        Storage::Symbol => unreachable!(),
    }
}

/// Reads the element at the front, of a kind of fixed width.
pub fn element_of(bytes: &[u8], order: Order, kind: Kind) -> Atom
    requires fixed { is_symbol kind ≡ false }
    requires within { width kind ≤ length bytes.now }
    ensures { result ≡ element order kind bytes.now }
{
    match order {
        Order::Little => element_in::<LittleEndian>(bytes, kind),
        Order::Big => element_in::<BigEndian>(bytes, kind),
    }
}
