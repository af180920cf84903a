//! The objects that are timed, as bytes.
ghost use Rattle.std.specs.Prelude.{◌<◌};

use std::alloc::{AllocError, Global};

// The head of a vector: its type, the attribute 0 and a count.
fn put_head(out: &mut Vec<u8>, code: u8, count: u32) -> Result<(), AllocError> {
    out.extend_from_slice(&[code, 0])?;
    out.extend_from_slice(&count.to_le_bytes())
}

// A vector of numbers of eight bytes, each `step` more than the one before.
fn put_numbers(out: &mut Vec<u8>, code: u8, count: u32, step: u64) -> Result<(), AllocError> {
    put_head(out, code, count)?;
    for i in 0..count {
        out.extend_from_slice(&u64::from(i).wrapping_mul(step).to_le_bytes())?;
    }
    Ok(())
}

// A vector of symbols: a hundred of them, over and over.
fn put_symbols(out: &mut Vec<u8>, count: u32) -> Result<(), AllocError> {
    put_head(out, 11, count)?;
    for i in 0..count {
        let digits = (i % 100) as u8;
        out.extend_from_slice(&[b'S', b'0' + digits / 10, b'0' + digits % 10, 0])?;
    }
    Ok(())
}

/// The bytes of a vector of `count` longs.
pub fn longs(alloc: Global, count: u32) -> Result<Vec<u8>, AllocError> {
    let mut out = Vec::new(alloc);
    put_numbers(&mut out, 7, count, 1_000_003)?;
    Ok(out)
}

// The digit of this place: 1, 10, 100 ..
fn digit(n: u32, place: u32) -> u8
    requires { 0 < place }
{
    b'0' + (n / place % 10) as u8
}

/// The bytes of a vector of `count` symbols of four bytes: a thousand of them, over and over.
pub fn short_symbols(alloc: Global, count: u32) -> Result<Vec<u8>, AllocError> {
    let mut out = Vec::new(alloc);
    put_head(&mut out, 11, count)?;
    for i in 0..count {
        out.extend_from_slice(&[b'S', digit(i, 100), digit(i, 10), digit(i, 1), 0])?;
    }
    Ok(out)
}

/// The bytes of a vector of `count` symbols of 5 to 20 bytes: five digits, and up to 15 letters more.
pub fn long_symbols(alloc: Global, count: u32) -> Result<Vec<u8>, AllocError> {
    let mut out = Vec::new(alloc);
    put_head(&mut out, 11, count)?;
    for i in 0..count {
        let more = (i.wrapping_mul(2_654_435_761) / 268_435_456) as usize;
        out.extend_from_slice(&[
            digit(i, 10_000),
            digit(i, 1_000),
            digit(i, 100),
            digit(i, 10),
            digit(i, 1),
        ])?;
        out.extend_from_slice(&[b'x'; 15][..more])?;
        out.push(0)?;
    }
    Ok(out)
}

/// The bytes of a table of trades with `rows` rows: time, symbol, price and size.
pub fn trades(alloc: Global, rows: u32) -> Result<Vec<u8>, AllocError> {
    let mut out = Vec::from_slice(alloc, b"b\0c\x0b\0\x04\0\0\0time\0sym\0price\0size\0")?;
    put_head(&mut out, 0, 4)?;
    put_numbers(&mut out, 16, rows, 1_000_000)?;
    put_symbols(&mut out, rows)?;
    put_numbers(&mut out, 7, rows, 7)?;
    put_numbers(&mut out, 7, rows, 100)?;
    Ok(out)
}
