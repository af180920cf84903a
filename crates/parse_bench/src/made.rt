//! Texts of a given length.

use std::alloc::{AllocError, Global};

// A text of `length` bytes: the front, the piece as often as it fits, the back, and blanks.
fn filled(
    alloc: Global,
    front: &[u8],
    piece: &[u8],
    back: &[u8],
    length: usize,
) -> Result<Vec<u8>, AllocError> {
    let mut text = Vec::from_slice(alloc, front)?;
    let room = length
        .saturating_sub(front.len())
        .saturating_sub(back.len());
    let pieces = room.checked_div(piece.len()).unwrap_or(0);
    for _ in 0..pieces {
        text.extend_from_slice(piece)?;
    }
    text.extend_from_slice(back)?;
    let missing = length.saturating_sub(text.len());
    for _ in 0..missing {
        text.push(b' ')?;
    }
    Ok(text)
}

/// A query with many blanks in it.
pub fn blanks(alloc: Global, length: usize) -> Result<Vec<u8>, AllocError> {
    filled(alloc, b"select ", b" ", b" from t", length)
}

/// A sum of many names, with far more tokens than are allowed.
pub fn tokens(alloc: Global, length: usize) -> Result<Vec<u8>, AllocError> {
    filled(alloc, b"select a", b"+a", b" from t", length)
}

/// A vector of numbers.
pub fn numbers(alloc: Global, length: usize) -> Result<Vec<u8>, AllocError> {
    filled(alloc, b"exec ", b"12345 ", b" from t", length)
}

/// A vector of symbols.
pub fn symbols(alloc: Global, length: usize) -> Result<Vec<u8>, AllocError> {
    filled(alloc, b"exec ", b"`abcd", b" from t", length)
}

/// Signs after symbol literals, each of which has to look back.
pub fn signs(alloc: Global, length: usize) -> Result<Vec<u8>, AllocError> {
    filled(alloc, b"exec ", b"`abcdefghij:-1", b" from t", length)
}

/// A sum of names, with as many tokens as are allowed.
pub fn sum(alloc: Global, verbs: usize) -> Result<Vec<u8>, AllocError> {
    filled(
        alloc,
        b"select a",
        b"+a",
        b" from t",
        verbs.saturating_mul(2).saturating_add(15),
    )
}

/// As many columns as are allowed, each with another name.
pub fn columns(alloc: Global, columns: usize) -> Result<Vec<u8>, AllocError> {
    let mut text = Vec::from_slice(alloc, b"select a")?;
    for column in 0..columns {
        let next = format!(in alloc; ",b{column}")?;
        text.extend_from_slice(next.as_bytes())?;
    }
    text.extend_from_slice(b" from t")?;
    Ok(text)
}
