//! Texts with `by`, and the values that the language has for them.

use crate::queries::assert_rows;
use crate::trade::{five_rows, many_rows};

#[test]
fn last_price_by_sym(rt: HostRuntime) {
    let alloc = rt.alloc();
    let cases: [(&[u8], &[u8]); 1] = [(
        b"select last price by sym from trade",
        b"sym=s[a b c]|price=j[21 11 30]",
    )];
    assert_rows(&rt, alloc, &five_rows(&rt, alloc), &cases)
}

const SELECTS: [(&[u8], &[u8]); 30] = [
    (
        b"select first price by sym from trade",
        b"sym=s[a b c]|price=j[20 10 30]",
    ),
    (
        b"select sum size by sym from trade",
        b"sym=s[a b c]|size=j[14 107 1]",
    ),
    (
        b"select max price-min price by sym from trade",
        b"sym=s[a b c]|price=j[1 1 0]",
    ),
    (
        b"select (max price)-min price by sym from trade",
        b"sym=s[a b c]|price=j[1 1 0]",
    ),
    (
        b"select x:sum size*price by sym from trade",
        b"sym=s[a b c]|x=j[289 1077 30]",
    ),
    (
        b"select x:(sum price*size) div sum size by sym from trade",
        b"sym=s[a b c]|x=j[20 10 30]",
    ),
    (
        b"select count distinct sym by date from trade",
        b"date=d[8767 8768]|sym=j[2 2]",
    ),
    (
        b"select count i by date,sym from trade",
        b"date=d[8767 8767 8768 8768] sym=s[a b a c]|x=j[1 2 1 1]",
    ),
    (
        b"select sum size by sym,date from trade",
        b"sym=s[a a b c] date=d[8767 8768 8767 8768]|size=j[5 9 107 1]",
    ),
    (
        b"select n:count i by b:10 xbar price from trade",
        b"b=j[10 20 30]|n=j[2 2 1]",
    ),
    (
        b"select o:first price,h:max price,l:min price,c:last price,v:sum size by 0D00:02 xbar time from trade",
        b"time=n[34200000000000 34320000000000]|o=j[20 11] h=j[30 11] l=j[10 11] c=j[21 11] v=j[115 7]",
    ),
    (
        b"select by sym from trade",
        b"sym=s[a b c]|date=d[8768 8767 8768] time=n[34260000000000 34320000000000 34200000000000] price=j[21 11 30] size=j[9 7 1]",
    ),
    (
        b"select by date from trade",
        b"date=d[8767 8768]|time=n[34320000000000 34260000000000] sym=s[b a] price=j[11 21] size=j[7 9]",
    ),
    (
        b"select by date,time,sym,price from trade",
        b"date=d[8767 8767 8767 8768 8768] time=n[34200000000000 34260000000000 34320000000000 34200000000000 34260000000000] \
          sym=s[b a b c a] price=j[10 20 11 30 21]|size=j[100 5 7 1 9]",
    ),
    (
        b"select last price by sym from trade where size>1000",
        b"sym=s[]|price=j[]",
    ),
    (
        b"select by sym from trade where size>1000",
        b"sym=s[]|date=d[] time=n[] price=j[] size=j[]",
    ),
    (
        b"select count i by sym from trade where size>50",
        b"sym=s[b]|x=j[1]",
    ),
    (
        b"select n:count i by i from trade",
        b"x=j[0 1 2]|n=j[2 2 1]",
    ),
    (
        b"select max size by big:price>20 from trade",
        b"big=b[0 1]|size=j[100 9]",
    ),
    (b"select x:1 by sym from trade", b"sym=s[a b c]|x=j[1 1 1]"),
    (
        b"select neg sum size by sym from trade",
        b"sym=s[a b c]|size=j[-14 -107 -1]",
    ),
    (
        b"select sum size>min size by sym from trade",
        b"sym=s[a b c]|size=i[1 1 0]",
    ),
    (
        b"select sum size in max size by sym from trade",
        b"sym=s[a b c]|size=i[1 1 1]",
    ),
    (
        b"select count distinct price div 10 by sym from trade",
        b"sym=s[a b c]|price=j[1 1 1]",
    ),
    (
        b"select sum price in 10 20 30 by date from trade",
        b"date=d[8767 8768]|price=i[2 1]",
    ),
    (
        b"select n:count i by sym like \"b*\" from trade",
        b"sym=b[0 1]|n=j[3 2]",
    ),
    (
        b"select last i by sym from trade",
        b"sym=s[a b c]|x=j[1 2 0]",
    ),
    (
        b"select first time by sym from trade where date=2024.01.02",
        b"sym=s[a b]|time=n[34260000000000 34200000000000]",
    ),
    (
        b"select max price by sym from trade where size<10,size>min size",
        b"sym=s[a b]|price=j[21 11]",
    ),
    (
        b"select x:sum 1 2 by sym from trade where sym<>`a",
        b"sym=s[b c]|x=j[3 3]",
    ),
];

#[test]
fn selects_by(rt: HostRuntime) {
    let alloc = rt.alloc();
    assert_rows(&rt, alloc, &five_rows(&rt, alloc), &SELECTS)
}

#[test]
fn execs_by(rt: HostRuntime) {
    let alloc = rt.alloc();
    let cases: [(&[u8], &[u8]); 7] = [
        (
            b"exec last price by sym from trade",
            b"s[a b c]!j[21 11 30]",
        ),
        (
            b"exec sum size by date from trade",
            b"d[8767 8768]!j[112 10]",
        ),
        (
            b"exec count i by sym from trade where size>1000",
            b"s[]!j[]",
        ),
        (
            b"exec min time by sym from trade where size>1000",
            b"s[]!n[]",
        ),
        (
            b"exec first sym by 5 xbar size from trade where size<50",
            b"j[0 5]!s[c a]",
        ),
        (b"exec last price by sym=`b from trade", b"b[0 1]!j[21 11]"),
        (b"exec last sym by sym=`b from trade", b"not parsed"),
    ];
    assert_rows(&rt, alloc, &five_rows(&rt, alloc), &cases)
}

#[test]
fn groups_of_many_rows(rt: HostRuntime) {
    let alloc = rt.alloc();
    let thousand: [(&[u8], &[u8]); 2] = [
        (
            b"exec count i by 250 xbar size from trade",
            b"j[0 250 500 750]!j[250 250 250 250]",
        ),
        (b"exec sum price by sym from trade", b"s[a]!j[499500]"),
    ];
    assert_rows(&rt, alloc, &many_rows(&rt, alloc, 1000), &thousand);
    let many: [(&[u8], &[u8]); 4] = [
        (
            b"exec count i by 250 xbar size from trade",
            b"j[0 250 500 750]!j[25000 25000 25000 25000]",
        ),
        (
            b"exec max price by 500 xbar size from trade",
            b"j[0 500]!j[99499 99999]",
        ),
        (
            b"select n:count i,last price by size from trade where size<3",
            b"size=j[0 1 2]|n=j[100 100 100] price=j[99000 99001 99002]",
        ),
        (b"exec sum price by sym from trade", b"s[a]!j[4999950000]"),
    ];
    assert_rows(&rt, alloc, &many_rows(&rt, alloc, 100_000), &many)
}
