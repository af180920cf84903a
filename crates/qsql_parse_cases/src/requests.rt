//! Texts, and the requests or refusals that the language has for them.

use q_values::{Atom, Names, Value, Vector};
use q_verbs::{Verb, Verb1};
use qsql_parse::{Col, Expr, ParseRefusal, Query, Request, Source, parse};
use std::alloc::Global;
use std::process::Abort;

fn verb_text(verb: Verb) -> &'static [u8] {
    match verb {
        Verb::Add => b"+",
        Verb::Sub => b"-",
        Verb::Mul => b"*",
        Verb::Div => b"div",
        Verb::Mod => b"mod",
        Verb::Xbar => b"xbar",
        Verb::Eq => b"=",
        Verb::Ne => b"<>",
        Verb::Lt => b"<",
        Verb::Gt => b">",
        Verb::Le => b"<=",
        Verb::Ge => b">=",
        Verb::Lesser => b"&",
        Verb::Greater => b"|",
        Verb::In => b"in",
        Verb::Within => b"within",
        Verb::Like => b"like",
    }
}

fn verb1_text(verb: Verb1) -> &'static [u8] {
    match verb {
        Verb1::Not => b"not",
        Verb1::Neg => b"neg",
        Verb1::Count => b"count",
        Verb1::Sum => b"sum",
        Verb1::Min => b"min",
        Verb1::Max => b"max",
        Verb1::First => b"first",
        Verb1::Last => b"last",
        Verb1::Distinct => b"distinct",
    }
}

// Puts these bytes at the end of a text.
fn put(rt: &impl Abort, out: &mut Vec<u8>, bytes: &[u8]) {
    out.extend_from_slice(bytes).expect(rt, "memory");
}

fn push_number(rt: &impl Abort, alloc: Global, out: &mut Vec<u8>, number: i64) {
    let text = format!(in alloc; "{number}").expect(rt, "memory");
    put(rt, out, text.as_bytes());
}

// A number with the letter of its kind.
fn push_tagged(rt: &impl Abort, alloc: Global, out: &mut Vec<u8>, number: i64, kind: &[u8]) {
    push_number(rt, alloc, out, number);
    put(rt, out, kind)
}

fn push_atom(rt: &impl Abort, alloc: Global, out: &mut Vec<u8>, atom: &Atom) {
    match atom {
        Atom::Boolean(value) => push_tagged(rt, alloc, out, i64::from(*value), b"b"),
        Atom::Byte(value) => push_tagged(rt, alloc, out, i64::from(*value), b"x"),
        Atom::Short(value) => push_tagged(rt, alloc, out, i64::from(*value), b"h"),
        Atom::Integer(value) => push_tagged(rt, alloc, out, i64::from(*value), b"i"),
        Atom::Long(value) => push_number(rt, alloc, out, *value),
        Atom::Character(value) => push_tagged(rt, alloc, out, i64::from(*value), b"c"),
        Atom::Symbol(name) => {
            put(rt, out, b"`");
            put(rt, out, name.bytes())
        }
        Atom::Timestamp(value) => push_tagged(rt, alloc, out, *value, b"p"),
        Atom::Month(value) => push_tagged(rt, alloc, out, i64::from(*value), b"m"),
        Atom::Date(value) => push_tagged(rt, alloc, out, i64::from(*value), b"d"),
        Atom::Timespan(value) => push_tagged(rt, alloc, out, *value, b"n"),
        Atom::Minute(value) => push_tagged(rt, alloc, out, i64::from(*value), b"u"),
        Atom::Second(value) => push_tagged(rt, alloc, out, i64::from(*value), b"v"),
        Atom::Time(value) => push_tagged(rt, alloc, out, i64::from(*value), b"t"),
    }
}

fn push_vector(rt: &impl Abort, alloc: Global, out: &mut Vec<u8>, vector: &Vector) {
    put(rt, out, b"<");
    for place in 0..vector.len() {
        if place > 0 {
            put(rt, out, b" ");
        }
        match vector.at(alloc, place) {
            Ok(atom) => push_atom(rt, alloc, out, &atom),
            Err(_) => put(rt, out, b"?"),
        }
    }
    put(rt, out, b">")
}

fn push_value(rt: &impl Abort, alloc: Global, out: &mut Vec<u8>, value: &Value) {
    match value {
        Value::Atom(atom) => push_atom(rt, alloc, out, atom),
        Value::Vector(vector) => push_vector(rt, alloc, out, vector),
        _ => put(rt, out, b"other"),
    }
}

// An expression with every pair of its parentheses.
fn push_expr(rt: &impl Abort, alloc: Global, out: &mut Vec<u8>, expr: &Expr) {
    match expr {
        Expr::Literal(value) => push_value(rt, alloc, out, value),
        Expr::Name(name) => put(rt, out, name.bytes()),
        Expr::One(verb, side) => {
            put(rt, out, verb1_text(*verb));
            put(rt, out, b"[");
            push_expr(rt, alloc, out, side);
            put(rt, out, b"]")
        }
        Expr::Two(verb, left, right) => {
            put(rt, out, b"(");
            push_expr(rt, alloc, out, left);
            put(rt, out, b" ");
            put(rt, out, verb_text(*verb));
            put(rt, out, b" ");
            push_expr(rt, alloc, out, right);
            put(rt, out, b")")
        }
    }
}

fn push_column(rt: &impl Abort, alloc: Global, out: &mut Vec<u8>, column: &Col) {
    put(rt, out, b" ");
    if let Some(name) = &column.name {
        put(rt, out, name.bytes());
        put(rt, out, b":");
    }
    push_expr(rt, alloc, out, &column.expr)
}

fn push_columns(rt: &impl Abort, alloc: Global, out: &mut Vec<u8>, columns: &[Col]) {
    for column in columns {
        push_column(rt, alloc, out, column);
    }
}

fn push_phrases(rt: &impl Abort, alloc: Global, out: &mut Vec<u8>, phrases: &[Expr]) {
    for phrase in phrases {
        put(rt, out, b" ");
        push_expr(rt, alloc, out, phrase);
    }
}

fn push_head(rt: &impl Abort, alloc: Global, out: &mut Vec<u8>, query: &Query) {
    let verb: &[u8] = if query.exec { b"exec" } else { b"select" };
    put(rt, out, verb);
    if let Some(number) = query.first {
        put(rt, out, b" ");
        push_number(rt, alloc, out, number);
    }
}

fn push_query(rt: &impl Abort, alloc: Global, out: &mut Vec<u8>, query: &Query) {
    push_head(rt, alloc, out, query);
    push_columns(rt, alloc, out, query.columns.as_slice());
    put(rt, out, b" by");
    push_columns(rt, alloc, out, query.by.as_slice());
    put(rt, out, b" from ");
    put(rt, out, query.table.bytes());
    put(rt, out, b" where");
    push_phrases(rt, alloc, out, query.phrases.as_slice())
}

fn push_names(rt: &impl Abort, out: &mut Vec<u8>, names: &Names) {
    for name in names.as_slice() {
        put(rt, out, b"`");
        put(rt, out, name.bytes());
    }
}

fn push_source(rt: &impl Abort, alloc: Global, out: &mut Vec<u8>, source: &Source) {
    put(rt, out, b" ");
    match source {
        Source::All(name) => put(rt, out, name.bytes()),
        Source::Of(query) => push_query(rt, alloc, out, query),
    }
}

fn push_request(rt: &impl Abort, alloc: Global, out: &mut Vec<u8>, request: &Request) {
    match request {
        Request::Query(query) => push_query(rt, alloc, out, query),
        Request::Aj(joined) => {
            put(rt, out, b"aj ");
            push_names(rt, out, &joined.keys);
            push_source(rt, alloc, out, &joined.left);
            push_source(rt, alloc, out, &joined.right)
        }
        Request::Count => put(rt, out, b"count"),
        Request::Day => put(rt, out, b"day"),
        Request::Sub(sub) => {
            put(rt, out, b"sub ");
            push_names(rt, out, &sub.tables);
            let all: &[u8] = if sub.all { b" all " } else { b" only " };
            put(rt, out, all);
            push_names(rt, out, &sub.names)
        }
    }
}

fn push_refusal(rt: &impl Abort, alloc: Global, out: &mut Vec<u8>, refusal: ParseRefusal) {
    match refusal {
        ParseRefusal::Limit => put(rt, out, b"limit"),
        ParseRefusal::Parse(at) => {
            let text = format!(in alloc; "parse {at}").expect(rt, "memory");
            put(rt, out, text.as_bytes())
        }
        ParseRefusal::Nyi => put(rt, out, b"nyi"),
        ParseRefusal::NoMemory => put(rt, out, b"wsfull"),
    }
}

// The request or the refusal of a text, as text.
fn shown(rt: &impl Abort, alloc: Global, text: &[u8]) -> Vec<u8> {
    let mut out = Vec::new(alloc);
    match parse(alloc, text) {
        Ok(request) => push_request(rt, alloc, &mut out, &request),
        Err(refusal) => push_refusal(rt, alloc, &mut out, refusal),
    }
    out
}

fn assert_shown(rt: &impl Abort, alloc: Global, text: &[u8], wanted: &[u8], row: usize) {
    let shown = shown(rt, alloc, text);
    assert!(rt; shown.as_slice() == wanted, "row {row}");
}

fn assert_rows(rt: &impl Abort, alloc: Global, rows: &[(&[u8], &[u8])]) {
    let mut row = 0usize;
    for (text, wanted) in rows {
        assert_shown(rt, alloc, text, wanted, row);
        row = row.saturating_add(1);
    }
}

#[test]
fn parse_place(rt: HostRuntime) {
    let rows: [(&[u8], &[u8]); 1] = [(b"select size -1 from trade", b"parse 12")];
    assert_rows(&rt, rt.alloc(), &rows);
}

#[test]
fn query_tree(rt: HostRuntime) {
    let rows: [(&[u8], &[u8]); 1] = [(
        b"select max price by sym from trade where i<2",
        b"select max[price] by sym from trade where (i < 2)",
    )];
    assert_rows(&rt, rt.alloc(), &rows);
}

#[test]
fn refused_texts(rt: HostRuntime) {
    let rows: [(&[u8], &[u8]); 4] = [
        (b"select from", b"parse 11"),
        (b"select price,price from trade", b"nyi"),
        (b"select price+sym from trade", b"nyi"),
        (b"select foo,foo from bar", b"nyi"),
    ];
    assert_rows(&rt, rt.alloc(), &rows);
    let spaces = Vec::from_elem(rt.alloc(), b' ', 65_537).expect(&rt, "memory");
    assert_shown(&rt, rt.alloc(), &spaces, b"limit", 0);
}

const REQUESTS: [(&[u8], &[u8]); 34] = [
    (b".u.i", b"count"),
    (b" .u.d\n", b"day"),
    (b".u.sub[`trade;`a]", b"sub `trade only `a"),
    (b".u.sub[`;`]", b"sub ` all `"),
    (b".u.sub[`a`b;``]", b"sub `a`b only ``"),
    (b".u.sub [ `trade ; `a`b ]", b"sub `trade only `a`b"),
    (b".u.ix", b"parse 0"),
    (b".u.i .u.d", b"parse 5"),
    (b".u.sub[trade;`a]", b"parse 7"),
    (b".u.sub[\"trade\";`a]", b"parse 7"),
    (b".u.sub[`a;`b", b"parse 12"),
    (b".u.sub`a", b"parse 6"),
    (b"select from trade", b"select by from trade where"),
    (b"\tselect\r\nfrom  trade ", b"select by from trade where"),
    (b"select[5]from trade", b"select 5 by from trade where"),
    (b"select[-5]from trade", b"select -5 by from trade where"),
    (
        b"select[0N]from trade",
        b"select -9223372036854775808 by from trade where",
    ),
    (b"select[5j]from trade", b"parse 7"),
    (b"select[5i]from trade", b"parse 7"),
    (b"select[1 2]from trade", b"parse 7"),
    (b"select[]from trade", b"parse 7"),
    (b"exec sym from t", b"exec sym by from t where"),
    (b"select a,b from t", b"select a b by from t where"),
    (
        b"select x:sum a by c,z:d from t",
        b"select x:sum[a] by c z:d from t where",
    ),
    (b"select by c from t", b"select by c from t where"),
    (
        b"select from t where a=1,b=`x",
        b"select by from t where (a = 1) (b = `x)",
    ),
    (b"aj[`sym`time;trade;quote]", b"aj `sym`time trade quote"),
    (
        b"aj[`time;select a from t;(select b from u)]",
        b"aj `time select a by from t where select b by from u where",
    ),
    (
        b"aj[`time;select from t where a=1,b=2;u]",
        b"aj `time select by from t where (a = 1) (b = 2) u",
    ),
    (b"aj[`time;t]", b"parse 10"),
    (b"aj[`time;(t);u]", b"parse 10"),
    (b"aj[time;t;u]", b"parse 3"),
    (b"aj[`time;t;u] from t", b"parse 14"),
    (b"aj[`time;aj[`time;t;u];v]", b"parse 9"),
];

const EXPRESSIONS: [(&[u8], &[u8]); 32] = [
    (
        b"select x:a*b+c from t",
        b"select x:(a * (b + c)) by from t where",
    ),
    (
        b"select x:(a*b)+c from t",
        b"select x:((a * b) + c) by from t where",
    ),
    (
        b"select x:sum a+b from t",
        b"select x:sum[(a + b)] by from t where",
    ),
    (
        b"select x:sum[a]+b from t",
        b"select x:(sum[a] + b) by from t where",
    ),
    (
        b"select x:(sum a)+b from t",
        b"select x:(sum[a] + b) by from t where",
    ),
    (
        b"select x:a+sum b*c from t",
        b"select x:(a + sum[(b * c)]) by from t where",
    ),
    (
        b"select x:in[a;b] from t",
        b"select x:(a in b) by from t where",
    ),
    (
        b"select x:div[a;2]+b from t",
        b"select x:((a div 2) + b) by from t where",
    ),
    (
        b"select x:a and b or c from t",
        b"select x:(a & (b | c)) by from t where",
    ),
    (
        b"select x:a&b|c from t",
        b"select x:(a & (b | c)) by from t where",
    ),
    (
        b"select a div 2 from t",
        b"select (a div 2) by from t where",
    ),
    (
        b"select a mod 2 from t",
        b"select (a mod 2) by from t where",
    ),
    (
        b"select 5 xbar a from t",
        b"select (5 xbar a) by from t where",
    ),
    (b"select a<>1 from t", b"select (a <> 1) by from t where"),
    (b"select a<=1 from t", b"select (a <= 1) by from t where"),
    (b"select a>=1 from t", b"select (a >= 1) by from t where"),
    (b"select a<1 from t", b"select (a < 1) by from t where"),
    (b"select a>1 from t", b"select (a > 1) by from t where"),
    (b"select a< >1 from t", b"parse 10"),
    (
        b"select not neg a from t",
        b"select not[neg[a]] by from t where",
    ),
    (
        b"select x:max a,y:min a,z:count i from t",
        b"select x:max[a] y:min[a] z:count[i] by from t where",
    ),
    (b"select first a from t", b"select first[a] by from t where"),
    (b"select last a from t", b"select last[a] by from t where"),
    (b"select ((a)) from t", b"select a by from t where"),
    (b"select sum [a;b] from t", b"parse 13"),
    (b"select in a from t", b"parse 10"),
    (b"select in[a] from t", b"parse 11"),
    (b"select a+from t", b"parse 9"),
    (b"select (a from t", b"parse 10"),
    (b"select a) from t", b"parse 8"),
    (b"select a b from t", b"parse 9"),
    (b"select a\"x\" from t", b"parse 8"),
];

// `-`, as a verb and as a part of a literal.
const MINUS: [(&[u8], &[u8]); 22] = [
    (b"select a-1 from t", b"select (a - 1) by from t where"),
    (b"select a1-1 from t", b"select (a1 - 1) by from t where"),
    (b"select a_-1 from t", b"select (a_ - 1) by from t where"),
    (b"select 1-1 from t", b"select (1 - 1) by from t where"),
    (b"select (a)-1 from t", b"select (a - 1) by from t where"),
    (
        b"select sum[a]-1 from t",
        b"select (sum[a] - 1) by from t where",
    ),
    (
        b"select \"x\"-1 from t",
        b"select (120c - 1) by from t where",
    ),
    (b"select `x:-1 from t", b"select (`x: - 1) by from t where"),
    (b"select `-1 from t", b"select (` - 1) by from t where"),
    (b"select x:-1 from t", b"select x:-1 by from t where"),
    (b"select a- -1 from t", b"select (a - -1) by from t where"),
    (b"select a--1 from t", b"select (a - -1) by from t where"),
    (b"select a+-1 from t", b"select (a + -1) by from t where"),
    (b"select a=-1 from t", b"select (a = -1) by from t where"),
    (b"select (-1) from t", b"select -1 by from t where"),
    (b"select -1 from t", b"select -1 by from t where"),
    (b"select sum[-1] from t", b"select sum[-1] by from t where"),
    (
        b"select x:in[a;-1] from t",
        b"select x:(a in -1) by from t where",
    ),
    (b"select 1,-1 from t", b"nyi"),
    (b"select a -1 from t", b"parse 9"),
    (b"select a - 1 from t", b"select (a - 1) by from t where"),
    (b"select -a from t", b"parse 7"),
];

const LITERALS: [(&[u8], &[u8]); 41] = [
    (b"exec 5 from t", b"exec 5 by from t where"),
    (b"exec 5j from t", b"exec 5 by from t where"),
    (b"exec 5h from t", b"exec 5h by from t where"),
    (b"exec 5i from t", b"exec 5i by from t where"),
    (b"exec -7 from t", b"exec -7 by from t where"),
    (
        b"exec 0N from t",
        b"exec -9223372036854775808 by from t where",
    ),
    (
        b"exec 0W from t",
        b"exec 9223372036854775807 by from t where",
    ),
    (
        b"exec -0W from t",
        b"exec -9223372036854775807 by from t where",
    ),
    (b"exec 0Nh from t", b"exec -32768h by from t where"),
    (b"exec 0Wi from t", b"exec 2147483647i by from t where"),
    (
        b"exec 0Np from t",
        b"exec -9223372036854775808p by from t where",
    ),
    (b"exec 0Wd from t", b"exec 2147483647d by from t where"),
    (b"exec -0Wt from t", b"exec -2147483647t by from t where"),
    (b"exec 0b from t", b"exec 0b by from t where"),
    (b"exec 0101b from t", b"exec <0b 1b 0b 1b> by from t where"),
    (b"exec 0x0f from t", b"exec 15x by from t where"),
    (b"exec 0x0fff from t", b"exec <15x 255x> by from t where"),
    (b"exec 2024.01m from t", b"exec 288m by from t where"),
    (b"exec 2024.01.02 from t", b"exec 8767d by from t where"),
    (b"exec 09:30 from t", b"exec 570u by from t where"),
    (b"exec 09:30:00 from t", b"exec 34200v by from t where"),
    (
        b"exec 09:30:00.000 from t",
        b"exec 34200000t by from t where",
    ),
    (b"exec 0D from t", b"exec 0n by from t where"),
    (b"exec 1D from t", b"exec 86400000000000n by from t where"),
    (
        b"exec 0D09:30:00.5 from t",
        b"exec 34200500000000n by from t where",
    ),
    (
        b"exec 2024.01.02D09:30 from t",
        b"exec 757503000000000000p by from t where",
    ),
    (b"exec `a from t", b"exec `a by from t where"),
    (
        b"exec `a`b.c_d: from t",
        b"exec <`a `b.c_d:> by from t where",
    ),
    (b"exec \"x\" from t", b"exec 120c by from t where"),
    (
        b"exec \"a\\\"\\n\" from t",
        b"exec <97c 34c 10c> by from t where",
    ),
    (b"exec \"\" from t", b"exec <> by from t where"),
    (b"exec 1 2 3 from t", b"exec <1 2 3> by from t where"),
    (b"exec 1 -2 3h from t", b"exec <1h -2h 3h> by from t where"),
    (
        b"exec 09:30 09:31 from t",
        b"exec <570u 571u> by from t where",
    ),
    (b"exec 1.5 from t", b"parse 5"),
    (b"exec 2h 3 from t", b"parse 5"),
    (b"exec 1 2024.01.02 from t", b"parse 7"),
    (b"exec 2024.02.30 from t", b"parse 5"),
    (b"exec 99999h from t", b"parse 5"),
    (b"exec \"x from t", b"parse 5"),
    (b"exec `a `b from t", b"parse 8"),
];

const FAULTS: [(&[u8], &[u8]); 29] = [
    (b"", b"parse 0"),
    (b" ", b"parse 1"),
    (b"trade", b"parse 0"),
    (b"Select from t", b"parse 0"),
    (b"selecta from t", b"parse 0"),
    (b"select", b"parse 6"),
    (b"select a", b"parse 8"),
    (b"select a,from t", b"parse 9"),
    (b"select from select", b"parse 12"),
    (b"select from in", b"parse 12"),
    (b"select by from t", b"parse 10"),
    (b"select by:a from t", b"parse 9"),
    (b"select count:a from t", b"parse 12"),
    (b"select sum from t", b"parse 11"),
    (b"select x:y:a from t", b"parse 10"),
    (b"select x: from t", b"parse 10"),
    (b"select from t where", b"parse 19"),
    (b"select from t where a,", b"parse 22"),
    (b"select from t where by=1", b"parse 20"),
    (b"select from t by a", b"parse 14"),
    (b"select from t from t", b"parse 14"),
    (b"select from t where a where b", b"parse 22"),
    (b"select a by b by c from t", b"parse 14"),
    (b"select # from t", b"parse 7"),
    (b"select a.b from t", b"parse 8"),
    (b"select _a from t", b"parse 7"),
    (b"select select from t where a=1.5", b"parse 29"),
    (b"select from t where a=\"x", b"parse 22"),
    (b"from select # x", b"parse 12"),
];

// Requests that are not built, and similar ones that are.
const UNBUILT: [(&[u8], &[u8]); 47] = [
    (b"select a+1 2 from t", b"nyi"),
    (b"select 1 2=a from t", b"nyi"),
    (b"select x:a+distinct a from t", b"nyi"),
    (
        b"select x:a in 1 2 from t",
        b"select x:(a in <1 2>) by from t where",
    ),
    (
        b"select x:a within 1 2 from t",
        b"select x:(a within <1 2>) by from t where",
    ),
    (b"select x:1 2 in a from t", b"nyi"),
    (b"select x:1 2 within 1 2 from t", b"nyi"),
    (b"select x:(distinct a)like \"x\" from t", b"nyi"),
    (
        b"select from t where a like \"x*\"",
        b"select by from t where (a like <120c 42c>)",
    ),
    (
        b"select from t where a like \"x\"",
        b"select by from t where (a like 120c)",
    ),
    (
        b"select from t where a like \"\"",
        b"select by from t where (a like <>)",
    ),
    (b"select from t where a like `x", b"nyi"),
    (b"select from t where a like b", b"nyi"),
    (b"select from t where a like \"[x\"", b"nyi"),
    (b"select from t where a like \"[\"", b"nyi"),
    (b"select from t where 1b", b"nyi"),
    (b"select from t where max a", b"nyi"),
    (b"select from t where distinct a", b"nyi"),
    (b"select from t where a,1b", b"nyi"),
    (b"select 1 2 from t", b"nyi"),
    (b"select distinct a from t", b"nyi"),
    (
        b"exec distinct a from t",
        b"exec distinct[a] by from t where",
    ),
    (b"select a by b from t", b"nyi"),
    (b"select distinct a by b from t", b"nyi"),
    (b"select max a by 1 from t", b"nyi"),
    (b"select by max b from t", b"nyi"),
    (b"exec from t", b"nyi"),
    (b"exec by a from t", b"nyi"),
    (b"exec max a,max b by c from t", b"nyi"),
    (b"exec max a by b,c from t", b"nyi"),
    (b"exec max a by b from t", b"exec max[a] by b from t where"),
    (b"exec[1]a from t", b"nyi"),
    (b"select[1]max a by b from t", b"nyi"),
    (b"select a+b from t", b"nyi"),
    (b"select a+a from t", b"select (a + a) by from t where"),
    (b"select a+i from t", b"select (a + i) by from t where"),
    (b"select by a+b from t", b"nyi"),
    (b"select x:a,x:b from t", b"nyi"),
    (b"select x:max a by x from t", b"nyi"),
    (b"select by a,a from t", b"nyi"),
    (b"select 1,2 from t", b"nyi"),
    (b"select i,x from t", b"nyi"),
    (b"aj[`time;t;exec a from u]", b"nyi"),
    (b"aj[`time;(select max a by b from t);u]", b"nyi"),
    (b"aj[`time;t;select a+b from u]", b"nyi"),
    (b"select a+b from t where", b"parse 23"),
    (b"select foo,foo from bar", b"nyi"),
];

#[test]
fn texts_and_their_requests(rt: HostRuntime) {
    let alloc = rt.alloc();
    assert_rows(&rt, alloc, &REQUESTS);
    assert_rows(&rt, alloc, &EXPRESSIONS);
    assert_rows(&rt, alloc, &MINUS);
    assert_rows(&rt, alloc, &LITERALS);
    assert_rows(&rt, alloc, &FAULTS);
    assert_rows(&rt, alloc, &UNBUILT);
}

// A `select` with a sum of this many signs.
fn long_text(rt: &impl Abort, alloc: Global, verbs: usize, table: &[u8]) -> Vec<u8> {
    let mut text = Vec::new(alloc);
    put(rt, &mut text, b"select a");
    for _ in 0..verbs {
        put(rt, &mut text, b"+a");
    }
    put(rt, &mut text, b" from ");
    put(rt, &mut text, table);
    text
}

// A `select` of a name within this many parentheses.
fn deep_text(rt: &impl Abort, alloc: Global, depth: usize) -> Vec<u8> {
    let mut text = Vec::new(alloc);
    put(rt, &mut text, b"select ");
    for _ in 0..depth {
        put(rt, &mut text, b"(");
    }
    put(rt, &mut text, b"a");
    for _ in 0..depth {
        put(rt, &mut text, b")");
    }
    put(rt, &mut text, b" from t");
    text
}

fn is_read(alloc: Global, text: &[u8]) -> bool {
    match parse(alloc, text) {
        Ok(_) => true,
        Err(_) => false,
    }
}

#[test]
fn limits_of_texts(rt: HostRuntime) {
    let alloc = rt.alloc();
    // 1,024 tokens, then 1,025.
    assert!(rt; is_read(alloc, &long_text(&rt, alloc, 510, b"t")));
    let most = long_text(&rt, alloc, 510, b"t where");
    assert_shown(&rt, alloc, &most, b"limit", 0);
    assert!(rt; is_read(alloc, &deep_text(&rt, alloc, 64)));
    let deep = deep_text(&rt, alloc, 65);
    assert_shown(&rt, alloc, &deep, b"limit", 1);
    // A token fault comes before the number of tokens, and that before the grammar.
    let fault = long_text(&rt, alloc, 600, b"#");
    assert_shown(&rt, alloc, &fault, b"parse 1214", 2);
}
