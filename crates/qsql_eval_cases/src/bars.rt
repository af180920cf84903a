//! Bars of many rows, compared with loops over the rows.

use crate::queries::assert_rows;
use crate::trade::{Mixed, mixed_rows, two_rows};
use std::alloc::Global;
use std::process::Abort;

const ROWS: u32 = 100_000;

// The rows of five minutes, which are half a second apart.
const ROWS_OF_BAR: u32 = 600;

const BARS: u32 = 167;

const FIVE_MINUTES: i64 = 300_000_000_000;

// The prices and the size of one bar.
#[derive(Drop)]
struct Bar {
    open: i64,
    high: i64,
    low: i64,
    close: i64,
    size: i64,
}

// The bar of the rows from `first` on that have the symbol.
fn bar_of(symbol: u32, first: u32) -> Bar {
    let mut bar = Bar {
        open: -1,
        high: -1,
        low: i64::MAX,
        close: -1,
        size: 0,
    };
    for row in first..first.saturating_add(ROWS_OF_BAR).min(ROWS) {
        let mixed = Mixed::of_row(row);
        if mixed.symbol == symbol {
            bar.open = if bar.open < 0 { mixed.price } else { bar.open };
            bar.high = bar.high.max(mixed.price);
            bar.low = bar.low.min(mixed.price);
            bar.close = mixed.price;
            bar.size = bar.size.wrapping_add(mixed.size);
        }
    }
    bar
}

// The columns of all bars, by symbol and then by time.
#[derive(Drop)]
struct Bars {
    times: Vec<i64>,
    opens: Vec<i64>,
    highs: Vec<i64>,
    lows: Vec<i64>,
    closes: Vec<i64>,
    sizes: Vec<i64>,
}

fn bars_of(rt: &impl Abort, alloc: Global) -> Bars {
    let mut bars = Bars {
        times: Vec::new(alloc),
        opens: Vec::new(alloc),
        highs: Vec::new(alloc),
        lows: Vec::new(alloc),
        closes: Vec::new(alloc),
        sizes: Vec::new(alloc),
    };
    for symbol in 0..3 {
        for number in 0..BARS {
            let bar = bar_of(symbol, number.wrapping_mul(ROWS_OF_BAR));
            bars.times
                .push(i64::from(number).wrapping_mul(FIVE_MINUTES))
                .expect(rt, "memory");
            bars.opens.push(bar.open).expect(rt, "memory");
            bars.highs.push(bar.high).expect(rt, "memory");
            bars.lows.push(bar.low).expect(rt, "memory");
            bars.closes.push(bar.close).expect(rt, "memory");
            bars.sizes.push(bar.size).expect(rt, "memory");
        }
    }
    bars
}

// A column's name, and its numbers in brackets.
fn push_numbers(rt: &impl Abort, alloc: Global, out: &mut Vec<u8>, name: &[u8], numbers: &[i64]) {
    let mut before: &[u8] = name;
    for number in numbers {
        out.extend_from_slice(before).expect(rt, "memory");
        out.extend_from_slice(
            format!(in alloc; "{number}")
                .expect(rt, "memory")
                .as_bytes(),
        )
        .expect(rt, "memory");
        before = b" ";
    }
    out.push(b']').expect(rt, "memory");
}

// The symbol of each bar.
fn push_symbols(rt: &impl Abort, out: &mut Vec<u8>) {
    let mut before: &[u8] = b"sym=s[";
    for letter in b"abc" {
        for _ in 0..BARS {
            out.extend_from_slice(before).expect(rt, "memory");
            out.push(*letter).expect(rt, "memory");
            before = b" ";
        }
    }
    out.push(b']').expect(rt, "memory");
}

fn expected(rt: &impl Abort, alloc: Global) -> Vec<u8> {
    let bars = bars_of(rt, alloc);
    let mut out = Vec::new(alloc);
    push_symbols(rt, &mut out);
    push_numbers(rt, alloc, &mut out, b" time=n[", &bars.times);
    push_numbers(rt, alloc, &mut out, b"|o=j[", &bars.opens);
    push_numbers(rt, alloc, &mut out, b" h=j[", &bars.highs);
    push_numbers(rt, alloc, &mut out, b" l=j[", &bars.lows);
    push_numbers(rt, alloc, &mut out, b" c=j[", &bars.closes);
    push_numbers(rt, alloc, &mut out, b" size=j[", &bars.sizes);
    out
}

#[test]
fn bars_of_many_rows(rt: HostRuntime) {
    let alloc = rt.alloc();
    let bars = expected(&rt, alloc);
    let cases: [(&[u8], &[u8]); 1] = [(
        b"select o:first price,h:max price,l:min price,c:last price,sum size by sym,0D00:05 xbar time from trade",
        &bars,
    )];
    let rows = mixed_rows(&rt, alloc, ROWS);
    assert_rows(&rt, alloc, &rows, &cases);
    assert_rows(&rt, alloc, &rows, &cases)
}

#[test]
fn nulls_of_groups(rt: HostRuntime) {
    let alloc = rt.alloc();
    let first_null: [(&[u8], &[u8]); 3] = [
        (
            b"select f:first size,l:last size by sym from trade",
            b"sym=s[b]|f=j[-9223372036854775808] l=j[5]",
        ),
        (b"select min size by sym from trade", b"sym=s[b]|size=j[5]"),
        (
            b"select n:count i,s:sum size by size from trade",
            b"size=j[-9223372036854775808 5]|n=j[1 1] s=j[0 5]",
        ),
    ];
    assert_rows(
        &rt,
        alloc,
        &two_rows(&rt, alloc, &[i64::MIN, 5]),
        &first_null,
    );
    let last_null: [(&[u8], &[u8]); 1] = [(
        b"select f:first size,l:last size by sym from trade",
        b"sym=s[b]|f=j[5] l=j[-9223372036854775808]",
    )];
    assert_rows(
        &rt,
        alloc,
        &two_rows(&rt, alloc, &[5, i64::MIN]),
        &last_null,
    )
}
