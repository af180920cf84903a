//! Literals with the values that kdb+ gives them.

ghost use Rattle.std.specs.Prelude.{◌≡◌};

use q_text::{LiteralRefusal, read_literal};
use q_values::{Atom, Column, Element, Symbols, Value, Vector};
use std::alloc::Global;
use std::process::Abort;

fn is_number(atom: &Atom, number: i64) -> bool {
    match atom.element() {
        Element::Boolean(x) => i64::from(x) == number,
        Element::Byte(_, x) => i64::from(x) == number,
        Element::Short(x) => i64::from(*x) == number,
        Element::Integer(_, x) => i64::from(*x) == number,
        Element::Long(_, x) => *x == number,
        Element::Symbol(_) => false,
    }
}

fn has_number(vector: &Vector, at: usize, number: i64) -> bool {
    if at >= vector.len() {
        return false;
    }
    match vector.column() {
        Column::Booleans(xs) => at < xs.len() && i64::from(xs[at]) == number,
        Column::Bytes(_, xs) => at < xs.len() && i64::from(xs[at]) == number,
        Column::Shorts(xs) => at < xs.len() && i64::from(xs[at]) == number,
        Column::Integers(_, xs) => at < xs.len() && i64::from(xs[at]) == number,
        Column::Longs(_, xs) => at < xs.len() && xs[at] == number,
        Column::Symbols(_) => false,
    }
}

fn has_numbers(vector: &Vector, numbers: &[i64]) -> bool {
    vector.len() == numbers.len() && (0..numbers.len()).all(|i| has_number(vector, i, numbers[i]))
}

// Whether the value has this type number, which is negative for an atom, and these numbers.
fn is_value(value: &Value, type_: i64, numbers: &[i64]) -> bool {
    match value {
        Value::Atom(atom) => {
            numbers.len() == 1
                && i64::from(atom.kind().type_number()) == type_.wrapping_neg()
                && is_number(atom, numbers[0])
        }
        Value::Vector(vector) => {
            i64::from(vector.kind().type_number()) == type_ && has_numbers(vector, numbers)
        }
        _ => false,
    }
}

// Whether the text begins with this literal, which ends at this offset.
fn reads(alloc: Global, text: &[u8], type_: i64, numbers: &[i64], end: usize) -> bool {
    match read_literal(alloc, text, 0) {
        Ok((value, past)) => past == end && is_value(&value, type_, numbers),
        Err(_) => false,
    }
}

fn is_bad(alloc: Global, text: &[u8], at: usize) -> bool {
    match read_literal(alloc, text, at) {
        Ok(_) => false,
        Err(refusal) => refusal == LiteralRefusal::BadLiteral(at),
    }
}

#[test]
fn values_and_literals(rt: HostRuntime) {
    let alloc = rt.alloc();
    assert!(rt; reads(alloc, b"09:30", -17, &[570], 5));
    assert!(rt; is_bad(alloc, b"1.5", 0));
}

#[test]
fn whole_numbers(rt: HostRuntime) {
    let alloc = rt.alloc();
    for (text, type_, number) in [
        (b"0".as_slice(), -7, 0),
        (b"42", -7, 42),
        (b"007", -7, 7),
        (b"-5", -7, -5),
        (b"0N", -7, i64::MIN),
        (b"0W", -7, i64::MAX),
        (b"-0W", -7, -i64::MAX),
        (b"9223372036854775807", -7, i64::MAX),
        (b"-9223372036854775807", -7, -i64::MAX),
        (b"7j", -7, 7),
        (b"32767h", -5, 32767),
        (b"-32767h", -5, -32767),
        (b"0Nh", -5, -32768),
        (b"0Wh", -5, 32767),
        (b"-0Wh", -5, -32767),
        (b"2147483647i", -6, 2147483647),
        (b"-2147483647i", -6, -2147483647),
        (b"0Ni", -6, -2147483648),
        (b"0Wi", -6, 2147483647),
        (b"0Wj", -7, i64::MAX),
    ] {
        assert!(rt; reads(alloc, text, type_, &[number], text.len()));
    }
}

#[test]
fn temporal_values(rt: HostRuntime) {
    let alloc = rt.alloc();
    for (text, type_, number) in [
        (b"2024.01m".as_slice(), -13, 288),
        (b"0001.01m", -13, -23988),
        (b"2024.01.02", -14, 8767),
        (b"2000.02.29", -14, 59),
        (b"0001.01.01", -14, -730119),
        (b"9999.12.31", -14, 2921939),
        (b"09:30:00", -18, 34200),
        (b"09:30:00.000", -19, 34200000),
        (b"99:59", -17, 5999),
        (b"99:59:59", -18, 359999),
        (b"99:59:59.999", -19, 359999999),
        (b"0D", -16, 0),
        (b"1D", -16, 86400000000000),
        (b"0D09", -16, 32400000000000),
        (b"0D09:30", -16, 34200000000000),
        (b"0D00:00:01", -16, 1000000000),
        (b"0D00:00:00.1", -16, 100000000),
        (b"0D00:00:00.123456789", -16, 123456789),
        (b"106751D23:47:16.854775807", -16, i64::MAX),
        (b"2024.01.02D", -12, 757468800000000000),
        (b"2024.01.02D09:30:00.123", -12, 757503000123000000),
        (b"2292.04.10D23:47:16.854775807", -12, i64::MAX),
        (b"1707.09.22D00:12:43.145224193", -12, -i64::MAX),
    ] {
        assert!(rt; reads(alloc, text, type_, &[number], text.len()));
    }
}

#[test]
fn nulls_and_infinities(rt: HostRuntime) {
    let alloc = rt.alloc();
    let least = i64::from(i32::MIN);
    let most = i64::from(i32::MAX);
    for (text, type_, number) in [
        (b"0Np".as_slice(), -12, i64::MIN),
        (b"0Wp", -12, i64::MAX),
        (b"-0Wn", -16, -i64::MAX),
        (b"0Nm", -13, least),
        (b"0Wd", -14, most),
        (b"-0Wd", -14, -most),
        (b"0Nu", -17, least),
        (b"0Wv", -18, most),
        (b"0Nt", -19, least),
    ] {
        assert!(rt; reads(alloc, text, type_, &[number], text.len()));
    }
}

// A text that begins with a literal, its type number, its numbers, and the offset after it.
type Row<'a> = (&'a [u8], i64, &'a [i64], usize);

const RUNS: [Row; 24] = [
    (b"0b", -1, &[0], 2),
    (b"0101b", 1, &[0, 1, 0, 1], 5),
    (b"0b 1b", 1, &[0, 1], 5),
    (b"01b 1b", 1, &[0, 1], 3),
    (b"0x", 4, &[], 2),
    (b"0xfF", -4, &[255], 4),
    (b"0x0Aa0", 4, &[10, 160], 6),
    (b"0x01 0x02", 4, &[1, 2], 9),
    (b"1 2  3", 7, &[1, 2, 3], 6),
    (b"1 -2", 7, &[1, -2], 4),
    (b"1 - 2", -7, &[1], 1),
    (b"1-2", -7, &[1], 1),
    (b"3 0N\t3\n1 ", 7, &[3, i64::MIN, 3, 1], 8),
    (b"1 0N -0Wh", 5, &[1, -32768, -32767], 9),
    (b"2 3i,4", 6, &[2, 3], 4),
    (b"1 2h 3", -7, &[1], 1),
    (b"1 x", -7, &[1], 1),
    (b"1 2.5", -7, &[1], 1),
    (b"0Nd 0Wd", 14, &[-2147483648, 2147483647], 7),
    (b"0Nd 0Wt", -14, &[-2147483648], 3),
    (b"2024.01.02 0Nd", -14, &[8767], 10),
    (b"2000.01.01 2000.01.02", 14, &[0, 1], 21),
    (b"09:30 10:00:00", -17, &[570], 5),
    (b"0D 1D01", 16, &[0, 90000000000000], 7),
];

fn assert_rows(rt: &impl Abort, alloc: Global, rows: &[Row]) {
    for (text, type_, numbers, end) in rows {
        assert!(rt; reads(alloc, text, *type_, numbers, *end));
    }
}

#[test]
fn rows_and_runs(rt: HostRuntime) {
    assert_rows(&rt, rt.alloc(), &RUNS);
}

const TEXTS: [Row; 4] = [
    (b"\"\"", 10, &[], 2),
    (b"\"a\"", -10, &[97], 3),
    (b"\"ab\" \"c\"", 10, &[97, 98], 4),
    (b"\"\\\"\\\\\\n\\t\"", 10, &[34, 92, 10, 9], 10),
];

#[test]
fn texts(rt: HostRuntime) {
    let alloc = rt.alloc();
    assert_rows(&rt, alloc, &TEXTS);
    for text in [b"\"a".as_slice(), b"\"\\r\"", b"\"a\\\""] {
        assert!(rt; is_bad(alloc, text, 0));
    }
}

// Whether the value is an atom with this name.
fn is_name(value: &Value, name: &[u8]) -> bool {
    match value {
        Value::Atom(Atom::Symbol(found)) => found.bytes() == name,
        _ => false,
    }
}

fn are_names(found: &Symbols, names: &[&[u8]]) -> bool {
    found.len() == names.len()
        && (0..found.len()).all(|i| i < names.len() && found.at(i) == names[i])
}

// Whether the value is a vector of these names.
fn is_names(value: &Value, names: &[&[u8]]) -> bool {
    match value {
        Value::Vector(vector) => match vector.column() {
            Column::Symbols(found) => are_names(found, names),
            _ => false,
        },
        _ => false,
    }
}

fn reads_name(alloc: Global, text: &[u8], name: &[u8], end: usize) -> bool {
    match read_literal(alloc, text, 0) {
        Ok((value, past)) => past == end && is_name(&value, name),
        Err(_) => false,
    }
}

fn reads_names(alloc: Global, text: &[u8], at: usize, names: &[&[u8]], end: usize) -> bool {
    match read_literal(alloc, text, at) {
        Ok((value, past)) => past == end && is_names(&value, names),
        Err(_) => false,
    }
}

#[test]
fn symbols(rt: HostRuntime) {
    let alloc = rt.alloc();
    assert!(rt; reads_name(alloc, b"`a.b_c:9 x", b"a.b_c:9", 8));
    assert!(rt; reads_name(alloc, b"`", b"", 1));
    assert!(rt; reads_names(alloc, b"x`a``b `c", 1, &[b"a", b"", b"b"], 6));
}

const NO_LITERALS: [&[u8]; 37] = [
    b"",
    b"x",
    b"-x",
    b"- 1",
    b"-0N",
    b"-09:30",
    b"-0D01",
    b"2h 3",
    b"9:30",
    b"0D.5",
    b"10:00:00.5",
    b"2024.1.2",
    b"1.5",
    b"1x",
    b"12a:",
    b"0x1",
    b"0xg0",
    b"02b",
    b"2024.00m",
    b"2024.13.01",
    b"2023.02.29",
    b"0000.01.01",
    b"09:60",
    b"0D24",
    b"1234567D",
    b"0D00:00:00.1234567890",
    b"2024.01.02D24:00",
    b"9223372036854775808",
    b"-9223372036854775808",
    b"32768h",
    b"-32768h",
    b"40000 1h",
    b"2147483648i",
    b"106751D23:47:16.854775808",
    b"2292.04.10D23:47:16.854775808",
    b"1707.09.22D00:12:43.145224192",
    b"1 99999999999999999999999",
];

#[test]
fn faults(rt: HostRuntime) {
    let alloc = rt.alloc();
    for text in NO_LITERALS {
        assert!(rt; is_bad(alloc, text, 0));
    }
    assert!(rt; is_bad(alloc, b"1", 1));
    assert!(rt; is_bad(alloc, b"1", 9));
}

// Whether the first "-" of the text begins a literal.
fn binds(alloc: Global, text: &[u8]) -> bool {
    match text.iter().position(|b| *b == b'-') {
        Some(at) => read_literal(alloc, text, at).is_ok(),
        None => false,
    }
}

#[test]
fn signs(rt: HostRuntime) {
    let alloc = rt.alloc();
    for text in [
        b"-1".as_slice(),
        b"(-1",
        b"[-1",
        b"a:-1",
        b"1 -1",
        b"a -1",
        b"=-1",
        b"`a -1",
    ] {
        assert!(rt; binds(alloc, text));
    }
    for text in [
        b"a-1".as_slice(),
        b"Z-1",
        b"7-1",
        b"_-1",
        b")-1",
        b"]-1",
        b"\"-1",
        b"`-1",
        b"`a:-1",
        b"`a.b.-1",
        b"``-1",
        b"- 1",
        b"-a",
    ] {
        assert!(rt; !binds(alloc, text));
    }
}
