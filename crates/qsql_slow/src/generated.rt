//! Texts of queries, generated from a seed.
//!
//! Numbers are longs: columns, literals, and what arithmetic and aggregates make of them. Each operand stands in parentheses,
//! so that a text can be read without knowing that q reads from right to left. Some texts have a form that the language
//! refuses, as a phrase without a column.

use std::alloc::Global;
use std::process::Abort;

const LEAVES: [&[u8]; 16] = [
    b"price",
    b"size",
    b"i",
    b"price",
    b"size",
    b"0",
    b"1",
    b"5",
    b"100",
    b"0N",
    b"0W",
    b"sum size",
    b"min price",
    b"max i",
    b"count i",
    b"last price",
];

const OPERATORS: [&[u8]; 10] = [
    b"+", b"-", b"*", b" div ", b" mod ", b" xbar ", b"&", b"|", b"+", b"-",
];

const AGGREGATES: [&[u8]; 6] = [b"count ", b"sum ", b"min ", b"max ", b"first ", b"last "];

const COMPARISONS: [&[u8]; 6] = [b"=", b"<>", b"<", b">", b"<=", b">="];

const TESTS: [&[u8]; 12] = [
    b"sym=`a",
    b"sym<>`b",
    b"sym>`a",
    b"sym in `a`c",
    b"sym in `z",
    b"date=2024.01.02",
    b"date>2024.01.02",
    b"time within 0D09:30 0D09:32",
    b"size in price",
    b"price in 20 21 0N",
    b"sym=first sym",
    b"time=max time",
];

const SHOWN: [&[u8]; 6] = [
    b"sym",
    b"date",
    b"time",
    b"first sym",
    b"last time",
    b"count sym",
];

const LISTS: [&[u8]; 3] = [b"distinct sym", b"distinct size", b"distinct price div 10"];

const KEYS: [&[u8]; 10] = [
    b"k:sym",
    b"k:date",
    b"k:size",
    b"k:price div 10",
    b"k:5 xbar size",
    b"k:price>10",
    b"k:sym,m:date",
    b"k:date,m:sym",
    b"k:i mod 2,m:price>10",
    b"k:sym,m:i,n:size",
];

const BY_GROUP: [&[u8]; 8] = [
    b"last price",
    b"first sym",
    b"count distinct sym",
    b"sum (size)*price",
    b"(max price)-min price",
    b"max (price)-min price",
    b"sum price in size",
    b"last date",
];

/// A text, and the state of the numbers that it is made by.
#[derive(Drop)]
pub(crate) struct Texts {
    state: u64,
    /// The text.
    pub text: Vec<u8>,
}

impl Texts {
    /// No text yet.
    pub(crate) fn new(alloc: Global, seed: u64) -> Texts {
        Texts {
            state: seed.wrapping_mul(0x9e37_79b9_7f4a_7c15) | 1,
            text: Vec::new(alloc),
        }
    }

    // The next number below `most`.
    fn next(&mut self, most: u32) -> u32 {
        self.state ^= self.state << 13;
        self.state ^= self.state >> 7;
        self.state ^= self.state << 17;
        match ((self.state >> 33) as u32).checked_rem(most) {
            Some(number) => number,
            None => 0,
        }
    }

    fn put(&mut self, rt: &impl Abort, text: &[u8]) {
        self.text.extend_from_slice(text).expect(rt, "memory");
    }

    // One of these.
    fn pick(&mut self, rt: &impl Abort, texts: &[&[u8]]) {
        let count = u32::try_from(texts.len()).unwrap_or(0);
        let index = self.next(count) as usize;
        match texts.get(index) {
            Some(text) => self.put(rt, text),
            None => {}
        }
    }

    fn leaf(&mut self, rt: &impl Abort) {
        self.pick(rt, &LEAVES)
    }

    // A number of at most two leaves.
    fn small(&mut self, rt: &impl Abort) {
        match self.next(6) {
            0 => self.leaf(rt),
            1 => {
                self.put(rt, b"neg ");
                self.leaf(rt)
            }
            _ => {
                self.put(rt, b"(");
                self.leaf(rt);
                self.put(rt, b")");
                self.pick(rt, &OPERATORS);
                self.put(rt, b"(");
                self.leaf(rt);
                self.put(rt, b")")
            }
        }
    }

    // A number of at most four leaves.
    fn number(&mut self, rt: &impl Abort) {
        match self.next(5) {
            0 => self.small(rt),
            1 => {
                self.pick(rt, &AGGREGATES);
                self.small(rt)
            }
            2 => self.leaf(rt),
            _ => {
                self.put(rt, b"(");
                self.small(rt);
                self.put(rt, b")");
                self.pick(rt, &OPERATORS);
                self.put(rt, b"(");
                self.small(rt);
                self.put(rt, b")")
            }
        }
    }

    fn comparison(&mut self, rt: &impl Abort) {
        self.put(rt, b"(");
        self.small(rt);
        self.put(rt, b")");
        self.pick(rt, &COMPARISONS);
        self.put(rt, b"(");
        self.number(rt);
        self.put(rt, b")")
    }

    fn test(&mut self, rt: &impl Abort) {
        match self.next(5) {
            0 => {
                self.put(rt, b"(");
                self.number(rt);
                self.put(rt, b") within 0 50")
            }
            1 => self.comparison(rt),
            _ => self.pick(rt, &TESTS),
        }
    }

    fn phrase(&mut self, rt: &impl Abort) {
        match self.next(6) {
            0 => {
                self.put(rt, b"not ");
                self.test(rt)
            }
            1 => {
                self.put(rt, b"(");
                self.test(rt);
                let joins: [&[u8]; 2] = [b")&(", b")|("];
                self.pick(rt, &joins);
                self.test(rt);
                self.put(rt, b")")
            }
            _ => self.test(rt),
        }
    }

    // A column with the name `a`, `b` or `c`.
    fn column(&mut self, rt: &impl Abort, name: u8, has_lists: bool) {
        self.put(rt, &[name, b':']);
        match self.next(8) {
            0 => self.pick(rt, &SHOWN),
            1 => self.test(rt),
            2 => if has_lists {
                self.pick(rt, &LISTS)
            } else {
                self.small(rt)
            },
            _ => self.number(rt),
        }
    }

    fn columns(&mut self, rt: &impl Abort, has_lists: bool) {
        self.column(rt, b'a', has_lists);
        if self.next(2) == 1 {
            self.put(rt, b",");
            self.column(rt, b'b', has_lists);
        }
        if self.next(3) == 1 {
            self.put(rt, b",");
            self.column(rt, b'c', has_lists);
        }
    }

    fn phrases(&mut self, rt: &impl Abort) {
        let count = self.next(4);
        if count > 0 {
            self.put(rt, b" where ");
            self.phrase(rt);
        }
        for _ in 1..count {
            self.put(rt, b",");
            self.phrase(rt);
        }
    }

    // A `select` without columns.
    fn select_all(&mut self, rt: &impl Abort) {
        let heads: [&[u8]; 4] = [b"select", b"select[3]", b"select[-2]", b"select[0]"];
        self.pick(rt, &heads);
        self.put(rt, b" from trade")
    }

    fn select(&mut self, rt: &impl Abort) {
        let heads: [&[u8]; 4] = [b"select ", b"select ", b"select[2] ", b"select[-3] "];
        self.pick(rt, &heads);
        self.columns(rt, false);
        self.put(rt, b" from trade")
    }

    fn exec(&mut self, rt: &impl Abort) {
        self.put(rt, b"exec ");
        self.columns(rt, true);
        self.put(rt, b" from trade")
    }

    // A column with one item for each group.
    fn group_column(&mut self, rt: &impl Abort, name: u8) {
        self.put(rt, &[name, b':']);
        match self.next(3) {
            0 => self.pick(rt, &BY_GROUP),
            1 => {
                self.pick(rt, &AGGREGATES);
                self.number(rt)
            }
            _ => {
                self.put(rt, b"(");
                self.pick(rt, &AGGREGATES);
                self.leaf(rt);
                self.put(rt, b")");
                self.pick(rt, &OPERATORS);
                self.put(rt, b"(");
                self.pick(rt, &AGGREGATES);
                self.small(rt);
                self.put(rt, b")")
            }
        }
    }

    /// Makes a query with `by`.
    pub(crate) fn query_by(&mut self, rt: &impl Abort) {
        match self.next(8) {
            0 => self.put(rt, b"select by "),
            1 => {
                self.put(rt, b"exec ");
                self.group_column(rt, b'a');
                self.put(rt, b" by ");
            }
            _ => {
                self.put(rt, b"select ");
                self.group_column(rt, b'a');
                self.put(rt, b",");
                self.group_column(rt, b'b');
                self.put(rt, b" by ");
            }
        }
        self.pick(rt, &KEYS);
        self.put(rt, b" from trade");
        self.phrases(rt)
    }

    /// Makes a query without `by`.
    pub(crate) fn query(&mut self, rt: &impl Abort) {
        match self.next(9) {
            0 => self.select_all(rt),
            1 | 2 | 3 | 4 => self.select(rt),
            _ => self.exec(rt),
        }
        self.phrases(rt)
    }
}
