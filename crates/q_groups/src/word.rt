//! Items as numbers of 64 bits, which tell most of them apart.
use q_values::ShortSymbol;
use std::hash::Hash;

// The number of bytes of a text that its number is made of.
const FRONT: usize = 8;

/// An item with a number of 64 bits. Equal items have one number where it is of use; different ones may share theirs.
pub(crate) trait Word: Copy + Hash + Ord {
    /// The number.
    fn word(&self) -> u64;
}

impl Word for bool {
    fn word(&self) -> u64 {
        u64::from(*self)
    }
}

impl Word for u8 {
    fn word(&self) -> u64 {
        u64::from(*self)
    }
}

impl Word for i16 {
    fn word(&self) -> u64 {
        i64::from(*self).cast_unsigned()
    }
}

impl Word for i32 {
    fn word(&self) -> u64 {
        i64::from(*self).cast_unsigned()
    }
}

impl Word for i64 {
    fn word(&self) -> u64 {
        self.cast_unsigned()
    }
}

impl Word for ShortSymbol {
    fn word(&self) -> u64 {
        self.number()
    }
}

impl<'a> Word for &'a [u8] {
    fn word(&self) -> u64 {
        let mut word = self.len() as u64;
        for byte in self.iter().take(FRONT) {
            word = word.wrapping_mul(256) ^ u64::from(*byte);
        }
        word
    }
}
