//! Texts over plants, with their answers.

use crate::plants::{Update, many_rows, memory_of};
use gateway::{Question, answer};
use plant_memory::Memory;
use q_shown::push_value;
use q_values::{Column, LongKind, Value};
use std::alloc::Global;
use std::process::Abort;

// `0D09:29` to `0D09:32`, in nanoseconds.
const M29: i64 = 34_140_000_000_000;

const M30: i64 = 34_200_000_000_000;

const M31: i64 = 34_260_000_000_000;

const M32: i64 = 34_320_000_000_000;

// Trades on three dates.
const TRADES: [Update<'static>; 7] = [
    Update {
        day: 0,
        table: b"trade",
        times: &[M30],
        symbols: b"b",
        others: &[&[10], &[100]],
    },
    Update {
        day: 0,
        table: b"trade",
        times: &[M31],
        symbols: b"a",
        others: &[&[20], &[5]],
    },
    Update {
        day: 0,
        table: b"trade",
        times: &[M32],
        symbols: b"b",
        others: &[&[11], &[7]],
    },
    Update {
        day: 1,
        table: b"trade",
        times: &[M30],
        symbols: b"c",
        others: &[&[30], &[1]],
    },
    Update {
        day: 1,
        table: b"trade",
        times: &[M31],
        symbols: b"a",
        others: &[&[21], &[9]],
    },
    Update {
        day: 2,
        table: b"trade",
        times: &[M31],
        symbols: b"b",
        others: &[&[12], &[40]],
    },
    Update {
        day: 2,
        table: b"trade",
        times: &[M30],
        symbols: b"a",
        others: &[&[22], &[2]],
    },
];

// Three trades of `a` and three quotes, of which two have one time.
const TIED_QUOTES: [Update<'static>; 4] = [
    Update {
        day: 0,
        table: b"trade",
        times: &[M30],
        symbols: b"a",
        others: &[&[10], &[1]],
    },
    Update {
        day: 0,
        table: b"trade",
        times: &[M31],
        symbols: b"a",
        others: &[&[11], &[2]],
    },
    Update {
        day: 0,
        table: b"trade",
        times: &[M29],
        symbols: b"a",
        others: &[&[12], &[3]],
    },
    Update {
        day: 0,
        table: b"quote",
        times: &[M31, M30, M30],
        symbols: b"aaa",
        others: &[&[5, 3, 4], &[6, 4, 5], &[1, 1, 1], &[2, 2, 2]],
    },
];

// The answer to a text, as text: an error is a quote and its text.
fn shown(rt: &impl Abort, alloc: Global, memory: &Memory, text: &[u8]) -> Vec<u8> {
    let mut out = Vec::new(alloc);
    let snapshot = memory.snapshot(alloc).expect(rt, "memory");
    match answer(alloc, &snapshot, memory.schema(), text).expect(rt, "memory") {
        Value::Wrong(text) => {
            out.extend_from_slice(b"'").expect(rt, "memory");
            out.extend_from_slice(text.as_slice()).expect(rt, "memory");
        }
        value => push_value(alloc, &mut out, &value).expect(rt, "memory"),
    }
    out
}

// Stops at the first text whose answer is another than the one beside it.
fn assert_answers(rt: &impl Abort, alloc: Global, memory: &Memory, cases: &[(&[u8], &[u8])]) {
    let mut case = 0usize;
    for (text, wanted) in cases {
        let found = shown(rt, alloc, memory, text);
        assert!(rt; found.as_slice() == *wanted, "case {case}");
        case = case.saturating_add(1);
    }
}

// The same, over a plant with these updates.
fn assert_over(rt: &impl Abort, alloc: Global, updates: &[Update], cases: &[(&[u8], &[u8])]) {
    let memory = memory_of(rt, alloc, updates);
    assert_answers(rt, alloc, &memory, cases)
}

const TWO_DATES: [(&[u8], &[u8]); 14] = [
    (
        b"select from trade where sym=`b",
        b"date=d[8767 8767] time=n[34200000000000 34320000000000] sym=s[b b] price=j[10 11] size=j[100 7]",
    ),
    (b"exec sym from trade", b"s[a b b c a]"),
    (b"exec date from trade", b"d[8767 8767 8767 8768 8768]"),
    (b"exec i from trade", b"j[0 1 2 0 1]"),
    (b"exec i from trade where sym=`b,date=2024.01.02", b"j[1 2]"),
    (b"exec price from trade where i=0", b"j[20 30]"),
    (
        b"select from trade where date=2024.01.03",
        b"date=d[8768 8768] time=n[34200000000000 34260000000000] sym=s[c a] price=j[30 21] size=j[1 9]",
    ),
    (b"exec max date from trade", b"d:8768"),
    (b"select x:5 from trade", b"x=j[5]"),
    (b"select[-1] price from trade", b"price=j[21]"),
    (
        b"select from quote",
        b"date=d[] time=n[] sym=s[] bid=j[] ask=j[] bsize=j[] asize=j[]",
    ),
    (b"exec count i from quote", b"j:0"),
    (b".u.i", b"j:2"),
    (b".u.d", b"d:8768"),
];

#[test]
fn rows_of_two_dates(rt: HostRuntime) {
    assert_over(&rt, rt.alloc(), &TRADES[..5], &TWO_DATES)
}

const KEPT_DATES: [(&[u8], &[u8]); 15] = [
    (
        b"exec price from trade where date within 2024.01.02 2024.01.03",
        b"j[20 10 11 21 30]",
    ),
    (
        b"exec price from trade where date in 2024.01.02 2024.01.04",
        b"j[20 10 11 12 22]",
    ),
    (b"exec i from trade where date<>2024.01.03", b"j[0 1 2 0 1]"),
    (
        b"exec i from trade where date>2024.01.02,date<2024.01.04,sym=`a",
        b"j[0]",
    ),
    (
        b"select from trade where date=2024.01.04",
        b"date=d[8769 8769] time=n[34260000000000 34200000000000] sym=s[b a] price=j[12 22] size=j[40 2]",
    ),
    (b"exec price from trade where date=2024.01.05", b"j[]"),
    (
        b"exec count i from trade where date in 2024.01.01 2024.01.05",
        b"j:0",
    ),
    (
        b"exec price from trade where date=2024.01.03,date=2024.01.04",
        b"j[]",
    ),
    (b"exec price from trade where date=max date", b"j[12 22]"),
    (
        b"exec price from trade where date<2024.01.04,date=max date",
        b"j[21 30]",
    ),
    (
        b"exec size from trade where date>=2024.01.03,size=max size",
        b"j[40]",
    ),
    (
        b"exec size from trade where size=max size,date>=2024.01.03",
        b"j[]",
    ),
    (
        b"select n:count i by date from trade where date<=2024.01.03",
        b"date=d[8767 8768]|n=j[3 2]",
    ),
    (
        b"aj[`date`sym`time;select date,sym,time,price from trade where date=2024.01.04;select date,sym,time,size from trade where date=2024.01.03]",
        b"date=d[8769 8769] sym=s[b a] time=n[34260000000000 34200000000000] price=j[12 22] size=j[-9223372036854775808 -9223372036854775808]",
    ),
    (
        b"aj[`sym`time;select sym,time,price from trade where date=2024.01.04;select sym,time,size from trade where date within 2024.01.02 2024.01.03]",
        b"sym=s[b a] time=n[34260000000000 34200000000000] price=j[12 22] size=j[100 -9223372036854775808]",
    ),
];

#[test]
fn dates_that_phrases_keep(rt: HostRuntime) {
    assert_over(&rt, rt.alloc(), &TRADES, &KEPT_DATES)
}

const NO_ROWS: [(&[u8], &[u8]); 4] = [
    (b".u.i", b"j:0"),
    (b".u.d", b"d:8767"),
    (b"select sym,i from trade", b"sym=s[] x=j[]"),
    (b"exec i from trade where date=2024.01.03", b"j[]"),
];

#[test]
fn no_rows(rt: HostRuntime) {
    assert_over(&rt, rt.alloc(), &TRADES[..0], &NO_ROWS)
}

const OPEN_DATE: [(&[u8], &[u8]); 4] = [
    (b".u.i", b"j:3"),
    (b".u.d", b"d:8767"),
    (b"exec sym from trade", b"s[b a b]"),
    (b"exec i from trade", b"j[0 1 2]"),
];

#[test]
fn rows_of_the_open_date(rt: HostRuntime) {
    assert_over(&rt, rt.alloc(), &TRADES[..3], &OPEN_DATE)
}

const ONE_UPDATE: [(&[u8], &[u8]); 4] = [
    (b".u.i", b"j:4"),
    (b"exec bid from quote", b"j[5 3 4]"),
    (b"exec i from quote", b"j[0 1 2]"),
    (b"exec ask from quote where time=0D09:30", b"j[4 5]"),
];

#[test]
fn rows_of_one_update(rt: HostRuntime) {
    assert_over(&rt, rt.alloc(), &TIED_QUOTES, &ONE_UPDATE)
}

const QUERIES: [(&[u8], &[u8]); 14] = [
    (
        b"select sym,size from trade where size>5,i<2",
        b"sym=s[b a] size=j[100 9]",
    ),
    (
        b"exec price from trade where size>5,size=min size",
        b"j[11]",
    ),
    (
        b"exec min size from trade where size>1000",
        b"j:9223372036854775807",
    ),
    (
        b"exec max size from trade where size>1000",
        b"j:-9223372036854775807",
    ),
    (b"exec sum size from trade where size>1000", b"j:0"),
    (b"exec count i from trade where size>1000", b"j:0"),
    (b"exec sum size from trade", b"j:122"),
    (
        b"exec sum size from trade where date=2024.01.02,sym=`b",
        b"j:107",
    ),
    (
        b"select last price by sym from trade",
        b"sym=s[a b c]|price=j[21 11 30]",
    ),
    (
        b"select x:count i by date from trade",
        b"date=d[8767 8768]|x=j[3 2]",
    ),
    (
        b"exec last price by sym from trade",
        b"s[a b c]!j[21 11 30]",
    ),
    (
        b"select by sym from trade",
        b"sym=s[a b c]|date=d[8768 8767 8768] time=n[34260000000000 34320000000000 34200000000000] price=j[21 11 30] size=j[9 7 1]",
    ),
    (b"exec distinct sym from trade", b"s[a b c]"),
    (b"exec i+1 from trade where sym=`a", b"j[1 2]"),
];

#[test]
fn queries(rt: HostRuntime) {
    assert_over(&rt, rt.alloc(), &TRADES[..5], &QUERIES)
}

const REFUSED: [(&[u8], &[u8]); 16] = [
    (b"select from", b"'parse"),
    (b"select price trade", b"'parse"),
    (b"select 2024.13.01 from trade", b"'parse"),
    (b"select price,price from trade", b"'nyi"),
    (b"select price+sym from trade", b"'nyi"),
    (b"select foo,foo from bar", b"'nyi"),
    (b"exec from trade", b"'nyi"),
    (b".u.sub[`trade;`]", b"'nyi"),
    (b"select from foo", b"'foo"),
    (b"select foo from bar", b"'bar"),
    (b"select foo from trade", b"'foo"),
    (b"select x:price+sym,foo,baz from trade", b"'foo"),
    (b"select x:price+sym from trade", b"'type"),
    (b"select price from trade where size", b"'type"),
    (b"select price from trade where 1b", b"'nyi"),
    (b"select price from trade where size>5,baz=1", b"'baz"),
];

#[test]
fn refused_texts(rt: HostRuntime) {
    assert_over(&rt, rt.alloc(), &TRADES[..5], &REFUSED)
}

#[test]
fn long_text(rt: HostRuntime) {
    let alloc = rt.alloc();
    let blanks = vec![in alloc; b' '; 65_537].expect(&rt, "memory");
    let cases: [(&[u8], &[u8]); 1] = [(&blanks, b"'limit")];
    assert_over(&rt, alloc, &TRADES[..5], &cases)
}

#[test]
fn subscriptions_are_told(rt: HostRuntime) {
    let alloc = rt.alloc();
    let question = Question::of(alloc, b".u.sub[`trade;`]").expect(&rt, "memory");
    assert!(rt; question.is_subscription());
    let question = Question::of(alloc, b"select from trade").expect(&rt, "memory");
    assert!(rt; !question.is_subscription());
}

const MANY: [(&[u8], &[u8]); 9] = [
    (b"exec count i from trade", b"j:200000"),
    (b"exec sum price from trade", b"j:9999900000"),
    (b"exec max i from trade", b"j:99999"),
    (
        b"select x:sum size by date from trade where sym=`a",
        b"date=d[8767 8768]|x=j[2500000000 2500000000]",
    ),
    (
        b"exec price from trade where i in 0 99999",
        b"j[1 99998 0 99999]",
    ),
    (b"exec count distinct date from trade", b"j:2"),
    (
        b"exec sum price from trade where date=2024.01.02",
        b"j:4999950000",
    ),
    (
        b"exec i from trade where date>2024.01.02,i>99996,sym=`b",
        b"j[99998]",
    ),
    (b"exec count i from trade where date>2024.01.03", b"j:0"),
];

#[test]
fn many_trades(rt: HostRuntime) {
    let alloc = rt.alloc();
    let memory = many_rows(&rt, alloc, 100_000);
    assert_answers(&rt, alloc, &memory, &MANY);
    assert_answers(&rt, alloc, &memory, &MANY)
}

// Whether the longs count from 0 to below this number.
fn count_from_zero(numbers: &[i64], count: usize) -> bool {
    let mut next = 0i64;
    for number in numbers {
        if *number != next {
            return false;
        }
        next = next.wrapping_add(1);
    }
    numbers.len() == count
}

// Whether the last column of a table counts its rows from 0 to below this number.
fn is_counted(value: &Value, count: usize) -> bool {
    let Value::Table(table) = value else {
        return false;
    };
    match table
        .columns
        .as_slice()
        .last()
        .map(|column| column.column())
    {
        Some(Column::Longs(LongKind::Long, numbers)) => count_from_zero(numbers, count),
        _ => false,
    }
}

// The answer to a text.
fn answer_to(rt: &impl Abort, alloc: Global, memory: &Memory, text: &[u8]) -> Value {
    let snapshot = memory.snapshot(alloc).expect(rt, "memory");
    answer(alloc, &snapshot, memory.schema(), text).expect(rt, "memory")
}

#[test]
fn join_of_many_rows(rt: HostRuntime) {
    let alloc = rt.alloc();
    let memory = many_rows(&rt, alloc, 100_000);
    let text =
        b"aj[`sym`time;select time,sym from trade where date=2024.01.03;select time,sym,bid from quote]";
    let joined = answer_to(&rt, alloc, &memory, text);
    assert!(rt; is_counted(&joined, 100_000));
}
