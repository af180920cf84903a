//! Texts over a table with columns of many kinds, at their nulls and ends.

use crate::queries::assert_answers;
use crate::trade::{dates, longs, names};
use q_values::{ByteKind, Column, Columns, IntegerKind, LongKind, Symbols, Vector};
use qsql_eval::Rows;
use schema_text::read_schema;
use std::alloc::Global;
use std::process::Abort;

const SCHEMA: &[u8] =
    b"t:([]time:`timespan$();sym:`symbol$();b:`boolean$();h:`short$();n:`int$();j:`long$();d:`date$();u:`minute$();g:`byte$())";

// The symbols a, the null and b.
fn syms(rt: &impl Abort, alloc: Global) -> Vector {
    let mut items = Symbols::new(alloc);
    items.push(b"a").expect(rt, "memory");
    items.push(b"").expect(rt, "memory");
    items.push(b"b").expect(rt, "memory");
    Vector::from_column(Column::Symbols(items))
}

fn integers(rt: &impl Abort, alloc: Global, kind: IntegerKind, numbers: &[i32]) -> Vector {
    let items = Vec::from_slice(alloc, numbers).expect(rt, "memory");
    Vector::from_column(Column::Integers(kind, items))
}

fn narrow(rt: &impl Abort, alloc: Global) -> (Vector, Vector, Vector) {
    let booleans = Vec::from_slice(alloc, &[true, false, true]).expect(rt, "memory");
    let shorts = Vec::from_slice(alloc, &[1, i16::MIN, 3]).expect(rt, "memory");
    let bytes = Vec::from_slice(alloc, &[0, 1, 255]).expect(rt, "memory");
    (
        Vector::from_column(Column::Booleans(booleans)),
        Vector::from_column(Column::Shorts(shorts)),
        Vector::from_column(Column::Bytes(ByteKind::Byte, bytes)),
    )
}

fn three_rows(rt: &impl Abort, alloc: Global) -> Rows {
    let (booleans, shorts, bytes) = narrow(rt, alloc);
    let mut columns = Columns::new(alloc);
    columns
        .push(dates(rt, alloc, &[8767, 8767, 8767]))
        .expect(rt, "memory");
    columns
        .push(longs(rt, alloc, LongKind::Timespan, &[0, 1, 2]))
        .expect(rt, "memory");
    columns.push(syms(rt, alloc)).expect(rt, "memory");
    columns.push(booleans).expect(rt, "memory");
    columns.push(shorts).expect(rt, "memory");
    columns
        .push(integers(rt, alloc, IntegerKind::Integer, &[-7, 2, i32::MIN]))
        .expect(rt, "memory");
    columns
        .push(longs(rt, alloc, LongKind::Long, &[i64::MAX, 5, i64::MIN]))
        .expect(rt, "memory");
    columns
        .push(integers(rt, alloc, IntegerKind::Date, &[8767, i32::MIN, 8769]))
        .expect(rt, "memory");
    columns
        .push(integers(rt, alloc, IntegerKind::Minute, &[570, 571, i32::MIN]))
        .expect(rt, "memory");
    columns.push(bytes).expect(rt, "memory");
    columns
        .push(longs(rt, alloc, LongKind::Long, &[0, 1, 2]))
        .expect(rt, "memory");
    let texts: [&[u8]; 11] = [
        b"date", b"time", b"sym", b"b", b"h", b"n", b"j", b"d", b"u", b"g", b"i",
    ];
    match Rows::new(names(rt, alloc, &texts), columns) {
        Some(rows) => rows,
        None => panic!(rt; "columns of different lengths"),
    }
}

const ANSWERS: [(&[u8], &[u8]); 44] = [
    (b"exec h from t where h=0Nh", b"h[-32768]"),
    (b"exec sum h from t", b"i:4"),
    (b"exec sum n from t", b"i:-5"),
    (b"exec sum j from t", b"j:-9223372036854775804"),
    (b"exec sum b from t", b"i:2"),
    (b"exec min b from t", b"b:0"),
    (b"exec max g from t", b"x:255"),
    (b"exec min j from t", b"j:5"),
    (b"exec max j from t", b"j:9223372036854775807"),
    (b"exec min n from t", b"i:-7"),
    (b"exec max n from t", b"i:2"),
    (b"exec neg b from t", b"i[-1 0 -1]"),
    (b"exec neg n from t", b"i[7 -2 -2147483648]"),
    (b"exec not b from t", b"b[0 1 0]"),
    (b"exec not n from t", b"b[0 0 0]"),
    (b"exec d+1 from t", b"d[8768 -2147483648 8770]"),
    (b"exec u+1 from t", b"u[571 572 -2147483648]"),
    (
        b"exec x:n+j from t",
        b"j[9223372036854775800 7 -9223372036854775808]",
    ),
    (b"exec n div 2 from t", b"i[-4 1 -2147483648]"),
    (b"exec n mod 2 from t", b"j[1 0 -9223372036854775808]"),
    (b"exec n&0i from t", b"i[-7 0 -2147483648]"),
    (b"exec n|0i from t", b"i[0 2 0]"),
    (b"exec n&0 from t", b"j[-7 0 -9223372036854775808]"),
    (b"exec b&0b from t", b"b[0 0 0]"),
    (b"exec count i from t where sym=`", b"j:1"),
    (
        b"exec first j from t where n>100",
        b"j:-9223372036854775808",
    ),
    (b"exec j from t where j>0N", b"j[9223372036854775807 5]"),
    (b"exec n from t where n<1h", b"i[-7 -2147483648]"),
    (b"exec g from t where g in 0x01 0xff", b"x[1 255]"),
    (b"exec n from t where n in 2 3", b"i[2]"),
    (b"exec n from t where n in 0N", b"i[-2147483648]"),
    (b"exec u from t where u within 09:30 09:31", b"u[570 571]"),
    (b"exec distinct b from t", b"b[1 0]"),
    (b"exec last sym from t", b"s:b"),
    (b"exec first sym from t where i>0", b"s:"),
    (b"exec count distinct d from t", b"j:3"),
    (b"exec 1h+n from t", b"i[-6 3 -2147483648]"),
    (b"exec h*2h from t", b"i[2 -2147483648 6]"),
    (b"exec d-d from t", b"i[0 -2147483648 0]"),
    (b"exec d=2024.01.02 from t", b"b[1 0 0]"),
    (b"exec j xbar 7 from t", b"j[0 5 -9223372036854775808]"),
    (b"exec x:count i,y:max u from t", b"s[x y]!j:3;u:571;"),
    (b"exec x:count i,y:sum 1 2 from t", b"s[x y]!j[3 3]"),
    (b"select b,h from t where n>0N", b"b=b[1 0] h=h[1 -32768]"),
];

// The keys ascend, and a null is the least.
const GROUPS: [(&[u8], &[u8]); 6] = [
    (
        b"select count i by n from t",
        b"n=i[-2147483648 -7 2]|x=j[1 1 1]",
    ),
    (
        b"select first j by h from t",
        b"h=h[-32768 1 3]|j=j[5 9223372036854775807 -9223372036854775808]",
    ),
    (b"select sum n by b from t", b"b=b[0 1]|n=i[2 -7]"),
    (
        b"exec last sym by d from t",
        b"d[-2147483648 8767 8769]!s[ a b]",
    ),
    (b"select count i by sym from t", b"sym=s[ a b]|x=j[1 1 1]"),
    (
        b"select max g by b,u from t",
        b"b=b[0 1 1] u=u[571 -2147483648 570]|g=x[1 255 0]",
    ),
];

fn assert_kinds(rt: &impl Abort, alloc: Global, cases: &[(&[u8], &[u8])]) {
    match read_schema(alloc, SCHEMA) {
        Ok(schema) => assert_answers(rt, alloc, &schema, &three_rows(rt, alloc), cases),
        Err(_) => panic!(rt; "no schema"),
    }
}

#[test]
fn null_keys(rt: HostRuntime) {
    let alloc = rt.alloc();
    assert_kinds(&rt, alloc, &GROUPS)
}

#[test]
fn nulls_and_ends(rt: HostRuntime) {
    let alloc = rt.alloc();
    assert_kinds(&rt, alloc, &ANSWERS)
}
