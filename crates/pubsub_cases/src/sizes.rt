//! Spans of many rows.

use crate::spans::{told_after, update};
use day_rows::Entries;
use outside_api::TapMessage;
use pubsub::{SubRequest, TapMessages, Wanted};
use q_values::{Column, Sym, Symbols};
use std::alloc::Global;
use std::process::Abort;

// Symbols of two lengths: those of at most eight bytes are kept in another form than longer ones.
const PREFIXES: [&[u8]; 2] = [b"s", b"a_longer_symbol_"];

// The number of rows of a message, and its first and last price.
type Prices = (usize, i64, i64);

// 100 symbols: the prefix, and a number from 0 on.
fn hundred(rt: &impl Abort, alloc: Global, prefix: &[u8]) -> Symbols {
    let mut symbols = Symbols::new(alloc);
    for number in 0..100 {
        let text = format!(in alloc; "{number}").expect(rt, "memory");
        let mut name = Vec::from_slice(alloc, prefix).expect(rt, "memory");
        name.extend_from_slice(text.as_bytes()).expect(rt, "memory");
        let symbol = Sym::of(alloc, &name).expect(rt, "memory");
        symbols.push(symbol.bytes()).expect(rt, "memory");
    }
    symbols
}

// This many of these symbols, in turn, from the first on.
fn in_turn(rt: &impl Abort, alloc: Global, names: &Symbols, first: usize, rows: usize) -> Symbols {
    let mut symbols = Symbols::new(alloc);
    let mut next = first % 100;
    for _i in 0..rows {
        if next < names.len() {
            symbols.push(names.at(next)).expect(rt, "memory");
            next += 1;
        } else if let Some(name) = names.get(0) {
            let symbol = Sym::of(alloc, name).expect(rt, "memory");
            symbols.push(symbol.bytes()).expect(rt, "memory");
            next = 1;
        }
    }
    symbols
}

// This many updates of `trade`, of this many rows; prices and symbols count from 0.
fn trades(rt: &impl Abort, alloc: Global, names: &Symbols, updates: u32, rows: u32) -> Entries {
    let mut entries = Entries::new(alloc);
    for i in 0..updates {
        let first = i.wrapping_mul(rows);
        let symbols = in_turn(rt, alloc, names, first as usize, rows as usize);
        entries
            .push(update(rt, alloc, 1, symbols, i64::from(first)))
            .expect(rt, "memory");
    }
    entries
}

fn request(rt: &impl Abort, alloc: Global, symbols: Wanted) -> SubRequest {
    SubRequest {
        tables: Sym::of(alloc, b"trade").expect(rt, "memory"),
        symbols,
    }
}

fn prices(message: &TapMessage) -> Option<Prices> {
    let TapMessage::Rows { rows, .. } = message else {
        return None;
    };
    let Column::Longs(_, items) = rows.columns.get(2)?.column() else {
        return None;
    };
    Some((items.len(), *items.first()?, *items.last()?))
}

fn are_prices(messages: &TapMessages, wanted: &[Prices]) -> bool {
    if messages.len() != wanted.len() {
        return false;
    }
    for (message, own) in messages.as_slice().iter().zip(wanted) {
        if prices(message) != Some(*own) {
            return false;
        }
    }
    true
}

// Whether a subscription to all rows, to those of the symbol 7, and to those of the first 50 symbols is told of these prices.
fn are_told(
    rt: &impl Abort,
    alloc: Global,
    names: &Symbols,
    entries: &Entries,
    batch: bool,
    wanted: [&[Prices]; 3],
) -> bool {
    let all = request(rt, alloc, Wanted::Everything);
    let one = request(rt, alloc, Wanted::Symbols(in_turn(rt, alloc, names, 7, 1)));
    let half = request(rt, alloc, Wanted::Symbols(in_turn(rt, alloc, names, 0, 50)));
    let all = are_prices(&told_after(rt, alloc, &all, entries, batch), wanted[0]);
    let one = are_prices(&told_after(rt, alloc, &one, entries, batch), wanted[1]);
    let half = are_prices(&told_after(rt, alloc, &half, entries, batch), wanted[2]);
    all && one && half
}

#[test]
fn one_large_update(rt: HostRuntime) {
    let alloc = rt.alloc();
    for prefix in PREFIXES {
        let names = hundred(&rt, alloc, prefix);
        let entries = trades(&rt, alloc, &names, 1, 100_000);
        let wanted: [&[Prices]; 3] = [
            &[(100_000, 0, 99_999)],
            &[(1_000, 7, 99_907)],
            &[(50_000, 0, 99_949)],
        ];
        assert!(rt; are_told(&rt, alloc, &names, &entries, false, wanted));
        assert!(rt; are_told(&rt, alloc, &names, &entries, true, wanted));
    }
}

#[test]
fn batches_of_large_updates(rt: HostRuntime) {
    let alloc = rt.alloc();
    for prefix in PREFIXES {
        let names = hundred(&rt, alloc, prefix);
        let entries = trades(&rt, alloc, &names, 40, 2_500);
        let wanted: [&[Prices]; 3] = [
            &[
                (40_000, 0, 39_999),
                (40_000, 40_000, 79_999),
                (20_000, 80_000, 99_999),
            ],
            &[
                (400, 7, 39_907),
                (400, 40_007, 79_907),
                (200, 80_007, 99_907),
            ],
            &[
                (20_000, 0, 39_949),
                (20_000, 40_000, 79_949),
                (10_000, 80_000, 99_949),
            ],
        ];
        assert!(rt; are_told(&rt, alloc, &names, &entries, true, wanted));
    }
}

// How many messages 10,000 updates of one row make, for all rows or those of the symbol 7.
fn count_small(rt: &impl Abort, alloc: Global, all: bool, batch: bool) -> usize {
    let names = hundred(rt, alloc, b"s");
    let entries = trades(rt, alloc, &names, 10_000, 1);
    let symbols = if all {
        Wanted::Everything
    } else {
        Wanted::Symbols(in_turn(rt, alloc, &names, 7, 1))
    };
    let request = request(rt, alloc, symbols);
    told_after(rt, alloc, &request, &entries, batch).len()
}

#[test]
fn many_small_updates(rt: HostRuntime) {
    let alloc = rt.alloc();
    assert_eq!(rt; count_small(&rt, alloc, true, false), 10_000);
    assert_eq!(rt; count_small(&rt, alloc, false, false), 100);
    assert_eq!(rt; count_small(&rt, alloc, true, true), 625);
    assert_eq!(rt; count_small(&rt, alloc, false, true), 100);
}
