//! The columns that are timed.
ghost use Rattle.std.specs.Prelude.{◌≡◌, IfOk};
ghost use Rattle.q_values.specs.declared.kind.Kind.TheVariants as k;

use anyhow::Result;
use q_values::{Atom, Column, IntegerKind, Kind, LongKind, NoMemory, Sym, Vector};
use std::alloc::Global;

/// The difference of one long and the next, which puts them in no order.
pub const STEP: u64 = 0x9e37_79b9_7f4a_7c15;

/// The difference for a second column.
pub const OTHER_STEP: u64 = 0xd1b5_4a32_d192_ed03;

/// `count` longs over all 64 bits, each `step` more than the one before.
pub fn longs(alloc: Global, count: u32, step: u64) -> Result<Vector, NoMemory>
    ensures { IfOk result (λ v. v.kind ≡ k.Long) }
{
    let mut items = Vec::with_capacity(alloc, count as usize)?;
    for i in 0..count {
        items.push(u64::from(i).wrapping_mul(step).cast_signed())?;
    }
    Ok(Vector::from_column(Column::Longs(LongKind::Long, items)))
}

/// `count` numbers of 24 bits in this kind of 32 bits, each `step` more than the one before, and then cut.
pub fn integers(
    alloc: Global,
    count: u32,
    kind: IntegerKind,
    step: u64,
) -> Result<Vector, NoMemory> {
    let mut items = Vec::with_capacity(alloc, count as usize)?;
    for i in 0..count {
        items.push(((u64::from(i).wrapping_mul(step) >> 40) as u32).cast_signed())?;
    }
    Ok(Vector::from_column(Column::Integers(kind, items)))
}

/// `count` longs from 0 to 15.
pub fn codes(alloc: Global, count: u32) -> Result<Vector, NoMemory>
    ensures { IfOk result (λ v. v.kind ≡ k.Long) }
{
    let mut items = Vec::with_capacity(alloc, count as usize)?;
    for i in 0..count {
        items.push((u64::from(i).wrapping_mul(STEP) >> 60).cast_signed())?;
    }
    Ok(Vector::from_column(Column::Longs(LongKind::Long, items)))
}

/// Five of those longs.
pub fn five(alloc: Global) -> Result<Vector, NoMemory>
    ensures { IfOk result (λ v. v.kind ≡ k.Long) }
{
    let items = Vec::from_slice(alloc, &[2, 3, 5, 7, 11])?;
    Ok(Vector::from_column(Column::Longs(LongKind::Long, items)))
}

/// The length of each of a thousand names.
#[derive(Clone, Copy)]
pub enum NameLength {
    /// Four bytes: a letter and three digits.
    Four,
    /// The same, and then as many letters as bring it to 5 to 20 bytes.
    FiveToTwenty,
}

fn name_of(alloc: Global, length: NameLength, n: u32) -> Result<Sym> {
    let digit = |d: u32| b'0' + (d % 10) as u8;
    let mut bytes = [b'a'; 20];
    bytes[0] = b'S';
    bytes[1] = digit(n / 100);
    bytes[2] = digit(n / 10);
    bytes[3] = digit(n);
    let length = match length {
        NameLength::Four => 4,
        NameLength::FiveToTwenty => 5 + (n % 16) as usize,
    };
    Ok(Sym::of(alloc, &bytes[..length])?)
}

/// `count` of the names, in no order.
pub fn symbols(alloc: Global, length: NameLength, count: u32, step: u64) -> Result<Vector> {
    let mut items = Vector::new(alloc, Kind::Symbol);
    for i in 0..count {
        let number = ((u64::from(i).wrapping_mul(step) >> 32) % 1000) as u32;
        items.push(Atom::Symbol(name_of(alloc, length, number)?))?;
    }
    Ok(items)
}

/// The first `count` of the names.
pub fn first_symbols(alloc: Global, length: NameLength, count: u32) -> Result<Vector> {
    let mut items = Vector::new(alloc, Kind::Symbol);
    for number in 0..count {
        items.push(Atom::Symbol(name_of(alloc, length, number)?))?;
    }
    Ok(items)
}

// Six letters, for the digits of a number.
fn letters_of(n: u32) -> [u8; 6] {
    let letter = |d: u32| b'a' + (d % 10) as u8;
    [
        letter(n / 100_000),
        letter(n / 10_000),
        letter(n / 1000),
        letter(n / 100),
        letter(n / 10),
        letter(n),
    ]
}

// The number of a row, of `many`, in no order.
fn number_of(row: u32, many: u32) -> u32 {
    let number = (u64::from(row).wrapping_mul(STEP) >> 32) as u32;
    match number.checked_rem(many) {
        Some(number) => number,
        None => 0,
    }
}

/// `count` symbols of six letters, of which there are `many`, in no order.
pub fn names(alloc: Global, count: u32, many: u32) -> Result<Vector> {
    let mut items = Vector::new(alloc, Kind::Symbol);
    for row in 0..count {
        let name = letters_of(number_of(row, many));
        items.push(Atom::Symbol(Sym::of(alloc, &name)?))?;
    }
    Ok(items)
}

/// `count` dates, of which there are a thousand, in no order.
pub fn dates(alloc: Global, count: u32) -> Result<Vector, NoMemory> {
    let mut items = Vec::with_capacity(alloc, count as usize)?;
    for row in 0..count {
        items.push(number_of(row, 1000).cast_signed())?;
    }
    Ok(Vector::from_column(Column::Integers(IntegerKind::Date, items)))
}
