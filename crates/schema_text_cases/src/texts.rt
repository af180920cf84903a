//! Schema texts with their expected outcomes.

use day_rows::Schema;
use q_values::Kind;
use schema_text::{BUILT_IN, SchemaRefusal, built_in_schema, read_schema};
use std::alloc::Global;
use std::process::Abort;

// The outcome of reading a text, without the names.
#[derive(Clone, Copy, Debug, PartialEq, Eq)]
enum Outcome {
    Tables(usize),
    Parse(usize),
    BadKind(usize),
    Twice,
    TimeSym,
    Reserved,
    Limit,
    NoMemory,
}

fn outcome_of(alloc: Global, text: &[u8]) -> Outcome {
    match read_schema(alloc, text) {
        Ok(schema) => Outcome::Tables(schema.len()),
        Err(SchemaRefusal::Parse(at)) => Outcome::Parse(at),
        Err(SchemaRefusal::BadKind(at)) => Outcome::BadKind(at),
        Err(SchemaRefusal::Twice(_)) => Outcome::Twice,
        Err(SchemaRefusal::TimeSym(_)) => Outcome::TimeSym,
        Err(SchemaRefusal::Reserved(_)) => Outcome::Reserved,
        Err(SchemaRefusal::Limit) => Outcome::Limit,
        Err(SchemaRefusal::NoMemory) => Outcome::NoMemory,
    }
}

fn assert_is_built_in(rt: &impl Abort, schema: &Schema) {
    assert_eq!(rt; schema.len(), 2);
    let quote = schema.at(0);
    let trade = schema.at(1);
    assert!(rt; quote.table.bytes() == b"quote".as_slice());
    assert!(rt; trade.table.bytes() == b"trade".as_slice());
    assert_eq!(rt; quote.names.len(), 6);
    assert_eq!(rt; trade.names.len(), 4);
    assert!(rt; trade.names.at(2).bytes() == b"price".as_slice());
    let kinds = [Kind::Timespan, Kind::Symbol, Kind::Long, Kind::Long];
    assert_eq!(rt; trade.kinds.as_slice(), kinds.as_slice());
}

fn assert_built_in(rt: &impl Abort, alloc: Global) {
    match read_schema(alloc, BUILT_IN) {
        Ok(schema) => assert_is_built_in(rt, &schema),
        Err(_) => assert!(rt; false),
    }
    match built_in_schema(alloc) {
        Ok(schema) => assert_is_built_in(rt, &schema),
        Err(_) => assert!(rt; false),
    }
}

// A table with `count` columns after the first two.
fn wide_table(rt: &impl Abort, alloc: Global, count: usize) -> Vec<u8> {
    let mut text = Vec::new(alloc);
    text.extend_from_slice(b"t:([]time:`timespan$();sym:`symbol$()")
        .expect(rt, "memory");
    for i in 0..count {
        text.extend_from_slice(b";c").expect(rt, "memory");
        for _ in 0..i {
            text.push(b'x').expect(rt, "memory");
        }
        text.extend_from_slice(b":`int$()").expect(rt, "memory");
    }
    text.extend_from_slice(b")").expect(rt, "memory");
    text
}

#[test]
fn schema_refusals(rt: HostRuntime) {
    let alloc = rt.alloc();
    assert_built_in(&rt, alloc);
    let table: &[u8] = b"t:([]time:`timespan$();sym:`symbol$())";
    assert_eq!(rt; outcome_of(alloc, table), Outcome::Tables(1));
    for (text, outcome) in [
        (
            b"t:([]time:`timespan$();sym:`symbol$();x:`float$())".as_slice(),
            Outcome::BadKind(41),
        ),
        (
            b"t:([]time:`g#`timespan$();sym:`g#`g#`symbol$())".as_slice(),
            Outcome::BadKind(34),
        ),
        (
            b"t:([]sym:`symbol$();time:`timespan$())".as_slice(),
            Outcome::TimeSym,
        ),
        (
            b"t:([]time:`timespan$();sym:`symbol$());\nt:([]time:`timespan$();sym:`symbol$())".as_slice(),
            Outcome::Twice,
        ),
        (
            b"t:([]time:`timespan$();sym:`symbol$();date:`date$())".as_slice(),
            Outcome::Reserved,
        ),
        (b"".as_slice(), Outcome::Parse(0)),
        (b"/ no table\n ".as_slice(), Outcome::Parse(12)),
        (
            b"t:([]time:`timespan$();sym:`symbol$()".as_slice(),
            Outcome::Parse(37),
        ),
    ] {
        assert_eq!(rt; outcome_of(alloc, text), outcome);
    }
}

#[test]
fn most_columns(rt: HostRuntime) {
    let alloc = rt.alloc();
    assert_eq!(rt;
        outcome_of(alloc, &wide_table(&rt, alloc, 46)),
        Outcome::Tables(1)
    );
    assert_eq!(rt;
        outcome_of(alloc, &wide_table(&rt, alloc, 47)),
        Outcome::Limit
    );
}
