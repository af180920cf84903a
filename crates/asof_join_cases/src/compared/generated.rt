//! Pairs of sides, generated from a seed.

use crate::compared::row::{NULL, Row};
use std::alloc::{AllocError, Global};
use std::process::Abort;

// The letters of the left side's symbols. The right side has no `c`.
const LEFT_SYMBOLS: [i64; 6] = [97, 97, 98, 98, 99, NULL];

// The letters of the right side's symbols. The left side has no `e`.
const RIGHT_SYMBOLS: [i64; 6] = [97, 97, 98, 98, 101, NULL];

const DATES: [i64; 4] = [8767, 8768, 8768, NULL];

const TIMES: [i64; 6] = [0, 1, 2, 3, 4, NULL];

const NUMBERS: [i64; 6] = [-7, 0, 1, 5, i64::MAX, NULL];

// Numbers in no order.
#[derive(Drop)]
struct Numbers {
    state: u64,
}

impl Numbers {
    // The next number below `most`.
    fn next(&mut self, most: u32) -> u32 {
        self.state ^= self.state << 13;
        self.state ^= self.state >> 7;
        self.state ^= self.state << 17;
        match ((self.state >> 33) as u32).checked_rem(most) {
            Some(number) => number,
            None => 0,
        }
    }

    // One of these.
    fn pick(&mut self, items: &[i64]) -> i64 {
        let count = u32::try_from(items.len()).unwrap_or(0);
        let index = self.next(count) as usize;
        items.get(index).copied().unwrap_or(NULL)
    }

    // A row with one of these symbols.
    fn row(&mut self, symbols: &[i64]) -> Row {
        let date = self.pick(&DATES);
        let time = self.pick(&TIMES);
        let sym = self.pick(symbols);
        let number = self.pick(&NUMBERS);
        Row {
            date,
            time,
            sym,
            number,
        }
    }

    // At most twelve rows, every second time in the order of their times.
    fn side(&mut self, alloc: Global, symbols: &[i64]) -> Result<Vec<Row>, AllocError> {
        let count = self.next(13);
        let is_ordered = self.next(2) == 0;
        let mut time = 0i64;
        let mut rows = Vec::new(alloc);
        for _ in 0..count {
            let row = self.row(symbols);
            time = time.wrapping_add(i64::from(self.next(2)));
            rows.push(if is_ordered { Row { time, ..row } } else { row })?;
        }
        Ok(rows)
    }
}

/// The rows of both sides of a join.
#[derive(Drop)]
pub(crate) struct Sides {
    pub left: Vec<Row>,
    pub right: Vec<Row>,
}

/// The sides that are made from this seed.
pub(crate) fn make_sides(rt: &impl Abort, alloc: Global, seed: u64) -> Sides {
    let mut numbers = Numbers {
        state: seed.wrapping_mul(0x9e37_79b9_7f4a_7c15) | 1,
    };
    let left = numbers.side(alloc, &LEFT_SYMBOLS).expect(rt, "memory");
    let right = numbers.side(alloc, &RIGHT_SYMBOLS).expect(rt, "memory");
    Sides { left, right }
}
