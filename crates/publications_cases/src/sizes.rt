//! Tails of many rows.

use crate::plants::{begun, log, sent, tail_from};
use q_values::{Sym, Symbols};
use std::alloc::Global;
use std::process::Abort;

// The bytes of a message of `trade` beside those of its rows.
const EACH: usize = 85;

// The bytes of a row whose symbol has three letters.
const ROW: usize = 28;

// 1,000 symbols, of 100 different ones, each of three letters.
fn thousand(rt: &impl Abort, alloc: Global) -> Symbols {
    let mut found = Symbols::new(alloc);
    for _i in 0..10 {
        for number in 10..110 {
            let text = format!(in alloc; "{:03}", number).expect(rt, "memory");
            let name = Sym::of(alloc, text.as_bytes()).expect(rt, "a symbol");
            found.push(name.bytes()).expect(rt, "memory");
        }
    }
    found
}

#[test]
fn one_thousand_rows(rt: HostRuntime) {
    let alloc = rt.alloc();
    let mut memory = begun(&rt, alloc);
    log(&rt, alloc, &mut memory, thousand(&rt, alloc), 0);
    let tail = tail_from(&rt, alloc, &memory, 0);
    assert!(rt; sent(&rt, alloc, &tail, None, false).len() == EACH + 1_000 * ROW);
    assert!(rt; sent(&rt, alloc, &tail, Some(&[b"010"]), false).len() == EACH + 10 * ROW);
}

// 100 updates of 1,000 rows, three times, each time from where the last tail ended.
#[test]
fn one_hundred_thousand_rows(rt: HostRuntime) {
    let alloc = rt.alloc();
    let names = thousand(&rt, alloc);
    let mut memory = begun(&rt, alloc);
    for from in [0, 100, 200] {
        for price in 0..100 {
            let symbols = names.take(alloc, 0, names.len()).expect(&rt, "memory");
            log(&rt, alloc, &mut memory, symbols, price);
        }
        let tail = tail_from(&rt, alloc, &memory, from);
        assert!(rt; sent(&rt, alloc, &tail, None, false).len() == 100 * EACH + 100_000 * ROW);
        assert!(rt; sent(&rt, alloc, &tail, None, true).len() == 7 * EACH + 100_000 * ROW);
    }
}
