//! Texts, and the values or refusals that the language has for them.

use crate::trade::{five_rows, many_rows, two_rows};
use day_rows::Schema;
use q_shown::push_value;
use qsql_eval::{CheckRefusal, Rows, Typed, check, eval};
use qsql_parse::parse;
use qsql_request::{Query, Request};
use schema_text::built_in_schema;
use std::alloc::Global;
use std::process::Abort;

fn push_answer(rt: &impl Abort, alloc: Global, out: &mut Vec<u8>, typed: &Typed, rows: &Rows) {
    if !typed.fits(alloc, rows).expect(rt, "memory") {
        out.extend_from_slice(b"columns").expect(rt, "memory");
        return;
    }
    let value = eval(alloc, typed, rows).expect(rt, "memory");
    push_value(alloc, out, &value).expect(rt, "memory");
}

fn push_refusal(rt: &impl Abort, out: &mut Vec<u8>, refusal: CheckRefusal) {
    match refusal {
        CheckRefusal::NoName(name) => {
            out.extend_from_slice(b"name ").expect(rt, "memory");
            out.extend_from_slice(name.bytes()).expect(rt, "memory");
        }
        CheckRefusal::WrongType => out.extend_from_slice(b"type").expect(rt, "memory"),
        CheckRefusal::NoMemory => out.extend_from_slice(b"wsfull").expect(rt, "memory"),
    }
}

fn push_query(
    rt: &impl Abort,
    alloc: Global,
    out: &mut Vec<u8>,
    query: &Query,
    schema: &Schema,
    rows: &Rows,
) {
    match check(alloc, query, schema) {
        Ok(typed) => push_answer(rt, alloc, out, &typed, rows),
        Err(refusal) => push_refusal(rt, out, refusal),
    }
}

fn push_request(
    rt: &impl Abort,
    alloc: Global,
    out: &mut Vec<u8>,
    request: &Request,
    schema: &Schema,
    rows: &Rows,
) {
    match request {
        Request::Query(query) => push_query(rt, alloc, out, query, schema, rows),
        _ => out.extend_from_slice(b"no query").expect(rt, "memory"),
    }
}

// The value or the refusal of a text, as text.
fn shown(rt: &impl Abort, alloc: Global, schema: &Schema, rows: &Rows, text: &[u8]) -> Vec<u8> {
    let mut out = Vec::new(alloc);
    match parse(alloc, text) {
        Ok(request) => push_request(rt, alloc, &mut out, &request, schema, rows),
        Err(_) => out.extend_from_slice(b"not parsed").expect(rt, "memory"),
    }
    out
}

/// Stops at the first text whose answer over these rows is another than the one beside it.
pub(crate) fn assert_answers(
    rt: &impl Abort,
    alloc: Global,
    schema: &Schema,
    rows: &Rows,
    cases: &[(&[u8], &[u8])],
) {
    let mut case = 0usize;
    for (text, wanted) in cases {
        let found = shown(rt, alloc, schema, rows, text);
        assert!(rt; found.as_slice() == *wanted, "case {case}");
        case = case.saturating_add(1);
    }
}

/// Stops at the first text over rows of the built-in schema whose answer is another than the one beside it.
pub(crate) fn assert_rows(rt: &impl Abort, alloc: Global, rows: &Rows, cases: &[(&[u8], &[u8])]) {
    let schema = built_in_schema(alloc).expect(rt, "memory");
    assert_answers(rt, alloc, &schema, rows, cases)
}

#[test]
fn phrases_left_to_right(rt: HostRuntime) {
    let alloc = rt.alloc();
    let cases: [(&[u8], &[u8]); 5] = [
        (
            b"select sym,size from trade where size>5,i<2",
            b"sym=s[b a] size=j[100 9]",
        ),
        (
            b"exec price from trade where size>5,size=min size",
            b"j[11]",
        ),
        (b"exec size from trade where sym=`a,size=max size", b"j[9]"),
        (b"exec size from trade where size=max size,sym=`a", b"j[]"),
        (b"exec i from trade where size<10,price>11", b"j[0 0 1]"),
    ];
    assert_rows(&rt, alloc, &five_rows(&rt, alloc), &cases)
}

#[test]
fn aggregates_of_nothing(rt: HostRuntime) {
    let alloc = rt.alloc();
    let cases: [(&[u8], &[u8]); 6] = [
        (
            b"exec min size from trade where size>1000",
            b"j:9223372036854775807",
        ),
        (
            b"exec max size from trade where size>1000",
            b"j:-9223372036854775807",
        ),
        (b"exec sum size from trade where size>1000", b"j:0"),
        (b"exec count i from trade where size>1000", b"j:0"),
        (b"exec first sym from trade where size>1000", b"s:"),
        (
            b"exec last size from trade where size>1000",
            b"j:-9223372036854775808",
        ),
    ];
    assert_rows(&rt, alloc, &five_rows(&rt, alloc), &cases);
    let sums: [(&[u8], &[u8]); 1] = [(b"exec sum size from trade", b"j:5")];
    assert_rows(&rt, alloc, &two_rows(&rt, alloc, &[i64::MIN, 5]), &sums);
    let sums: [(&[u8], &[u8]); 1] = [(b"exec sum size from trade", b"j:-9223372036854775808")];
    assert_rows(&rt, alloc, &two_rows(&rt, alloc, &[i64::MAX, 1]), &sums)
}

#[test]
fn equal_rows_kept(rt: HostRuntime) {
    let alloc = rt.alloc();
    let cases: [(&[u8], &[u8]); 2] = [
        (b"exec count i from trade", b"j:2"),
        (
            b"select from trade",
            b"date=d[8767 8767] time=n[34200000000000 34200000000000] sym=s[b b] price=j[10 10] size=j[100 100]",
        ),
    ];
    assert_rows(&rt, alloc, &two_rows(&rt, alloc, &[100, 100]), &cases)
}

#[test]
fn refused_texts(rt: HostRuntime) {
    let alloc = rt.alloc();
    let cases: [(&[u8], &[u8]); 17] = [
        (b"select from foo", b"name foo"),
        (b"select foo from trade", b"name foo"),
        (b"select bar from foo", b"name foo"),
        (b"select x:price+sym from trade", b"type"),
        (b"select x:foo+sym from trade where bar=1", b"name foo"),
        (b"select x:max foo by bar from trade where baz", b"name foo"),
        (
            b"select sum size by bar from trade where baz=1",
            b"name bar",
        ),
        (b"select from trade where size=1,baz=1", b"name baz"),
        (b"select from trade where size", b"type"),
        (b"select from trade where size within 5", b"type"),
        (b"select from trade where size within size", b"type"),
        (b"select from trade where size within 1 2 3", b"type"),
        (b"select from trade where sym within 1 2", b"type"),
        (b"exec sum sym from trade", b"type"),
        (b"exec neg date from trade", b"type"),
        (b"select by date,time,sym,price,size from trade", b"type"),
        (b"select max price by sym+1 from trade", b"type"),
    ];
    assert_rows(&rt, alloc, &five_rows(&rt, alloc), &cases)
}

const SELECTS: [(&[u8], &[u8]); 19] = [
    (
        b"select from trade where sym=`a",
        b"date=d[8767 8768] time=n[34260000000000 34260000000000] sym=s[a a] price=j[20 21] size=j[5 9]",
    ),
    (
        b"select from trade where size>1000",
        b"date=d[] time=n[] sym=s[] price=j[] size=j[]",
    ),
    (b"select sym from trade", b"sym=s[a b b c a]"),
    (b"select[2] sym from trade", b"sym=s[a b]"),
    (b"select[-2] sym from trade", b"sym=s[c a]"),
    (b"select[0] sym from trade", b"sym=s[]"),
    (b"select[9] sym from trade", b"sym=s[a b b c a]"),
    (b"select[-9] sym from trade", b"sym=s[a b b c a]"),
    (b"select[0N] sym from trade", b"sym=s[a b b c a]"),
    (b"select[0W] sym from trade", b"sym=s[a b b c a]"),
    (
        b"select[-1] from trade where i=0",
        b"date=d[8768] time=n[34200000000000] sym=s[c] price=j[30] size=j[1]",
    ),
    (b"select x:1 from trade", b"x=j[1]"),
    (
        b"select x:1,size from trade where size<8",
        b"x=j[1 1 1] size=j[5 7 1]",
    ),
    (
        b"select x:1,size from trade where size>1000",
        b"x=j[] size=j[]",
    ),
    (
        b"select x:sum size,y:count i from trade where size>1000",
        b"x=j[0] y=j[0]",
    ),
    (b"select max price-min price from trade", b"price=j[20]"),
    (
        b"select date,i from trade where sym=`b",
        b"date=d[8767 8767] x=j[1 2]",
    ),
    (
        b"select[2] x:`u,price from trade",
        b"x=s[u u] price=j[20 10]",
    ),
    (
        b"select price-min price from trade",
        b"price=j[10 0 1 20 11]",
    ),
];

#[test]
fn selects(rt: HostRuntime) {
    let alloc = rt.alloc();
    assert_rows(&rt, alloc, &five_rows(&rt, alloc), &SELECTS)
}

const EXECS: [(&[u8], &[u8]); 46] = [
    (b"exec sum size from trade", b"j:122"),
    (b"exec sum size from trade where date=2024.01.03", b"j:10"),
    (
        b"exec sym,size from trade where size>9",
        b"s[sym size]!s[b];j[100];",
    ),
    (
        b"exec max size,min price from trade",
        b"s[size price]!j[100 10]",
    ),
    (
        b"exec first sym,max size from trade",
        b"s[sym size]!s:a;j:100;",
    ),
    (b"exec distinct sym from trade", b"s[a b c]"),
    (b"exec count distinct sym from trade", b"j:3"),
    (b"exec date from trade where i=0", b"d[8767 8768]"),
    (b"exec size from trade where sym in `a`c", b"j[5 1 9]"),
    (
        b"exec size from trade where price within 11 21",
        b"j[5 7 9]",
    ),
    (
        b"exec size from trade where sym like \"?\"",
        b"j[5 100 7 1 9]",
    ),
    (b"exec size from trade where sym like \"b*\"", b"j[100 7]"),
    (b"exec size from trade where size in max size", b"j[100]"),
    (
        b"exec size from trade where size<50,size in price-11",
        b"j[9]",
    ),
    (b"exec size from trade where not sym=`a", b"j[100 7 1]"),
    (b"exec size from trade where sym<>`a,sym<`c", b"j[100 7]"),
    (b"exec size from trade where size>=9", b"j[100 9]"),
    (b"exec size from trade where size<=5", b"j[5 1]"),
    (b"exec size from trade where (sym=`a)|sym=`c", b"j[5 1 9]"),
    (b"exec size from trade where (sym=`b)&i=2", b"j[7]"),
    (b"exec neg price from trade where i=0", b"j[-20 -30]"),
    (b"exec x:price*size from trade where i=0", b"j[100 30]"),
    (b"exec 5 xbar price from trade", b"j[20 10 10 30 20]"),
    (b"exec price div 3 from trade", b"j[6 3 3 10 7]"),
    (b"exec price mod 3 from trade", b"j[2 1 2 0 0]"),
    (
        b"exec price mod 0 from trade where i=2",
        b"j[-9223372036854775808]",
    ),
    (b"exec price&15 from trade", b"j[15 10 11 15 15]"),
    (b"exec price|15 from trade", b"j[20 15 15 30 21]"),
    (b"exec 100-price from trade where i=0", b"j[80 70]"),
    (b"exec time+1 from trade where i=2", b"n[34320000000001]"),
    (b"exec date+1 from trade where i=2", b"d[8768]"),
    (
        b"exec date+0D01 from trade where i=2",
        b"p[757472400000000000]",
    ),
    (b"exec date-2024.01.01 from trade where i=0", b"i[1 2]"),
    (b"exec first price from trade", b"j:20"),
    (b"exec last price from trade", b"j:21"),
    (b"exec 1 from trade", b"j:1"),
    (b"exec 1 2 3 from trade", b"j[1 2 3]"),
    (b"exec distinct 2 1 2 from trade", b"j[2 1]"),
    (b"exec \"ab\" from trade", b"c[97 98]"),
    (b"exec sum 1 2 3 from trade", b"j:6"),
    (b"exec 1+2 from trade", b"j:3"),
    (b"exec neg 5 from trade", b"j:-5"),
    (b"exec count 5 from trade", b"j:1"),
    (b"exec 2 in 1 2 3 from trade", b"b:1"),
    (b"exec 5 within 1 3 from trade", b"b:0"),
    (b"exec `ab like \"a*\" from trade", b"b:1"),
];

// `min` and `max` of sums and differences, and `count` of a column, which have loops of their own. The rows have the prices
// 20 10 11 30 21 and the sizes 5 100 7 1 9.
const LOOPS: [(&[u8], &[u8]); 13] = [
    (b"exec max price-min price from trade", b"j:20"),
    (b"exec x:min price-size from trade", b"j:-90"),
    (b"exec max 100-price from trade", b"j:90"),
    (b"exec x:min price+size from trade where size<100", b"j:18"),
    (b"exec max price+0N from trade", b"j:-9223372036854775807"),
    (b"exec max 3-5 from trade", b"j:-2"),
    (b"exec max time-0D09:30 from trade", b"n:120000000000"),
    (b"exec count sym from trade where size>5,i<2", b"j:2"),
    (b"exec count i from trade where size=max size", b"j:1"),
    (
        b"exec count price from trade where size<50,size=max size",
        b"j:1",
    ),
    (b"exec n:count i from trade where size>5", b"j:3"),
    (
        b"exec n:count i,s:sum size from trade where size>5",
        b"s[n s]!j[3 116]",
    ),
    (b"exec count distinct sym from trade where size>5", b"j:2"),
];

#[test]
fn loops(rt: HostRuntime) {
    let alloc = rt.alloc();
    assert_rows(&rt, alloc, &five_rows(&rt, alloc), &LOOPS)
}

#[test]
fn execs(rt: HostRuntime) {
    let alloc = rt.alloc();
    assert_rows(&rt, alloc, &five_rows(&rt, alloc), &EXECS)
}

#[test]
fn many_rows_are_kept(rt: HostRuntime) {
    let alloc = rt.alloc();
    let cases: [(&[u8], &[u8]); 8] = [
        (b"exec max price-min price from trade", b"j:99999"),
        (b"exec x:min price-size from trade where size>0", b"j:0"),
        (
            b"exec count i from trade where size>=500,price=max price",
            b"j:1",
        ),
        (
            b"exec count i from trade where size>=500,price<50000,price>=100,size<501",
            b"j:50",
        ),
        (b"exec count i from trade where size>=500", b"j:50000"),
        (
            b"exec count i from trade where size>=500,price<50000,sym=`a",
            b"j:25000",
        ),
        (b"exec max price from trade where size<1", b"j:99000"),
        (b"exec count distinct size from trade", b"j:1000"),
    ];
    let rows = many_rows(&rt, alloc, 100_000);
    assert_rows(&rt, alloc, &rows, &cases);
    assert_rows(&rt, alloc, &rows, &cases);
    assert_rows(&rt, alloc, &rows, &cases)
}
