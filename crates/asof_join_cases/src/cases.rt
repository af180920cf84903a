//! Texts, and the tables or refusals that the language has for them.

use crate::shown::{Tables, assert_answers};
use crate::tables::{Quotes, Trades, quote_rows, trade_rows};
use std::alloc::Global;
use std::process::Abort;

// Three trades and three quotes of one symbol, as they arrive.
fn three_of_one(rt: &impl Abort, alloc: Global) -> Tables {
    let trades = Trades {
        dates: &[8768, 8768, 8768],
        times: &[34_200, 34_260, 34_140],
        syms: b"aaa",
        prices: &[10, 20, 30],
        sizes: &[1, 2, 3],
    };
    let quotes = Quotes {
        dates: &[8768, 8768, 8768],
        times: &[34_260, 34_200, 34_200],
        syms: b"aaa",
        bids: &[5, 3, 4],
        asks: &[6, 4, 5],
        sizes: &[1, 1, 1],
    };
    let trade = trade_rows(rt, alloc, &trades);
    let quote = quote_rows(rt, alloc, &quotes);
    Tables { trade, quote }
}

// Six trades and eight quotes on two dates. No quote has the symbol `c`.
fn two_dates(rt: &impl Abort, alloc: Global) -> Tables {
    let trades = Trades {
        dates: &[8767, 8767, 8767, 8768, 8768, 8768],
        times: &[10, 12, 15, 11, 14, 9],
        syms: b"ababca",
        prices: &[100, 200, 101, 201, 300, 102],
        sizes: &[1, 2, 3, 4, 5, 6],
    };
    let quotes = Quotes {
        dates: &[8767, 8767, 8767, 8767, 8768, 8768, 8768, 8768],
        times: &[8, 10, 11, 12, 10, 10, 12, 20],
        syms: b"aababbab",
        bids: &[1, 2, 3, 4, 5, 6, 7, 8],
        asks: &[11, 12, 13, 14, 15, 16, 17, 18],
        sizes: &[7, 7, 7, 7, 7, 7, 7, 7],
    };
    let trade = trade_rows(rt, alloc, &trades);
    let quote = quote_rows(rt, alloc, &quotes);
    Tables { trade, quote }
}

#[test]
fn asof_join_ties(rt: HostRuntime) {
    let alloc = rt.alloc();
    let cases: [(&[u8], &[u8]); 1] = [(
        b"aj[`sym`time;select time,sym,price from trade;select time,sym,bid from quote]",
        b"time=n[34200 34260 34140] sym=s[a a a] price=j[10 20 30] bid=j[4 5 -9223372036854775808]",
    )];
    assert_answers(&rt, alloc, &three_of_one(&rt, alloc), &cases)
}

const JOINS: [(&[u8], &[u8]); 20] = [
    (
        b"aj[`sym`time;select time,sym from trade;select time,sym,bid from quote]",
        b"time=n[10 12 15 11 14 9] sym=s[a b a b c a] bid=j[2 3 7 3 -9223372036854775808 1]",
    ),
    (
        b"aj[`date`sym`time;select date,time,sym from trade;select date,time,sym,bid,ask from quote where bid<7]",
        b"date=d[8767 8767 8767 8768 8768 8768] time=n[10 12 15 11 14 9] sym=s[a b a b c a] \
        bid=j[2 3 4 6 -9223372036854775808 -9223372036854775808] ask=j[12 13 14 16 -9223372036854775808 -9223372036854775808]",
    ),
    (
        b"aj[`time;select time,price from trade;select time,bid from quote]",
        b"time=n[10 12 15 11 14 9] price=j[100 200 101 201 300 102] bid=j[6 7 7 3 7 1]",
    ),
    (
        b"aj[`sym`time;select time,sym from trade where time=0D00:00:00.000000012;quote]",
        b"time=n[12] sym=s[b] bid=j[3] ask=j[13] bsize=j[7] asize=j[7]",
    ),
    (
        b"aj[`sym`time;trade;select time,sym,bid from quote where bid=3]",
        b"date=d[8767 8767 8767 8768 8768 8768] time=n[10 12 15 11 14 9] sym=s[a b a b c a] price=j[100 200 101 201 300 102] size=j[1 2 3 4 5 6] \
        bid=j[-9223372036854775808 3 -9223372036854775808 3 -9223372036854775808 -9223372036854775808]",
    ),
    (
        b"aj[`sym`time;select time,sym from trade where sym=`c;select time,sym,bid from quote where bid>100]",
        b"time=n[14] sym=s[c] bid=j[-9223372036854775808]",
    ),
    (
        b"aj[`sym`time;select time,sym from trade where sym=`z;select time,sym,bid from quote]",
        b"time=n[] sym=s[] bid=j[]",
    ),
    (
        b"aj[`date`sym;select date,sym from trade;select date,sym,bid from quote]",
        b"date=d[8767 8767 8767 8768 8768 8768] sym=s[a b a b c a] bid=j[4 3 4 8 8 7]",
    ),
    (
        b"aj[`sym`x;select sym,x:price from trade where sym=`a;select sym,x:bid+99,ask from quote]",
        b"sym=s[a a a] x=j[100 101 102] ask=j[11 12 12]",
    ),
    (
        b"aj[`sym`sym`time;select time,sym from trade where size=2;select time,sym,bid from quote]",
        b"time=n[12] sym=s[b] bid=j[3]",
    ),
    (
        b"aj[`time`time;select time from trade where size=2;select time,bid from quote]",
        b"time=n[12] bid=j[7]",
    ),
    (
        b"aj[`sym`time;select time,sym from trade where size=2;select time,sym,mid:(bid+ask) div 2 from quote]",
        b"time=n[12] sym=s[b] mid=j[8]",
    ),
    (
        b"aj[`time;select time from trade where size=6;select time,s:sym from quote]",
        b"time=n[9] s=s[a]",
    ),
    (
        b"aj[`sym`time;select time,sym from trade where sym=`c;select time,sym,b:bid>2,d:date,s:sym from quote]",
        b"time=n[14] sym=s[c] b=b[0] d=d[-2147483648] s=s[]",
    ),
    (
        b"aj[`sym`time;select date,time,sym from trade where size=2;quote]",
        b"date=d[8767] time=n[12] sym=s[b] bid=j[3] ask=j[13] bsize=j[7] asize=j[7]",
    ),
    (
        b"aj[`sym`time;select time,sym,price from trade where price>200;select time,sym,ask from quote]",
        b"time=n[11 14] sym=s[b c] price=j[201 300] ask=j[13 -9223372036854775808]",
    ),
    (
        b"aj[`date`time;select date,time,size from trade where date=2024.01.03;select date,time,bid from quote]",
        b"date=d[8768 8768 8768] time=n[11 14 9] size=j[4 5 6] bid=j[6 7 -9223372036854775808]",
    ),
    (
        b"aj[`sym`time;select time,sym from trade where size<4;select time,sym,n:bsize*bid from quote where date=2024.01.02]",
        b"time=n[10 12 15] sym=s[a b a] n=j[14 21 28]",
    ),
    (
        b"aj[`time;select time from trade where sym=`c;select time,sym,bid from quote where sym=`b]",
        b"time=n[14] sym=s[b] bid=j[3]",
    ),
    (
        b"aj[`sym`time;select time:time+0D00:00:00.000000005,sym from trade where date=2024.01.03;select time,sym,bid from quote]",
        b"time=n[16 19 14] sym=s[b c a] bid=j[3 -9223372036854775808 7]",
    ),
];

#[test]
fn joins(rt: HostRuntime) {
    let alloc = rt.alloc();
    assert_answers(&rt, alloc, &two_dates(&rt, alloc), &JOINS)
}

const REFUSALS: [(&[u8], &[u8]); 14] = [
    (
        b"aj[`sym`time;select time,sym,foo from trad;quote]",
        b"name trad",
    ),
    (
        b"aj[`sym`time;select time,sym,foo from trade;select time,sym,bar from quote]",
        b"name foo",
    ),
    (
        b"aj[`sym`time;trade;select time,sym,bar from quote]",
        b"name bar",
    ),
    (b"aj[`sym`time;trade;quot]", b"name quot"),
    (
        b"aj[`sym`foo;trade;select time,sym,bid from quote]",
        b"name foo",
    ),
    (
        b"aj[`sym`bid;select time,sym from trade;select time,sym,bid from quote]",
        b"name bid",
    ),
    (
        b"aj[`sym`price;select sym,price from trade;select time,sym,bid from quote]",
        b"name price",
    ),
    (b"aj[`price`foo;trade;quote]", b"name foo"),
    (b"aj[`i;trade;quote]", b"name i"),
    (b"aj[`sym;trade;quote]", b"nyi"),
    (
        b"aj[`sym`time;select time,sym,x:price from trade;select time,sym,x:sym+1 from quote]",
        b"nyi",
    ),
    (
        b"aj[`sym`time;select time,sym from trade;select time:bid,sym from quote]",
        b"type",
    ),
    (
        b"aj[`sym`time;select time,sym,x:sym+1 from trade;select time,sym,bid from quote]",
        b"type",
    ),
    (b"aj[`sym`time;exec time from trade;quote]", b"not parsed"),
];

#[test]
fn refusals(rt: HostRuntime) {
    let alloc = rt.alloc();
    assert_answers(&rt, alloc, &two_dates(&rt, alloc), &REFUSALS)
}
