//! Plants with the built-in schema, which log updates of `trade` and end dates.
ghost use Rattle.std.specs.Prelude.{◌≡◌, false, [], ◌∷◌};

use day_rows::Schema;
use plant_memory::{Memory, Prepared, Tail, UpdRequest};
use publications::{Publications, publications};
use pubsub::{SubRequest, Subscription, Wanted};
use q_values::{Column, Limits, LongKind, Sym, Symbols, Value, Values, Vector};
use schema_text::built_in_schema;
use std::alloc::Global;
use std::process::Abort;

/// 2024.01.02, in days since 2000.01.01.
pub(crate) const DATE: i32 = 8_767;

/// 2024.01.02D09:30, in nanoseconds since 2000.01.01.
const NOW: i64 = 757_503_000_000_000_000;

/// `0D09:30`, in nanoseconds: the time of each row.
const HALF_PAST_NINE: i64 = 34_200_000_000_000;

/// The last date that there is, in days since 2000.01.01.
const LAST: i32 = 106_751;

/// A plant without entries, open on 2024.01.02.
pub(crate) fn begun(rt: &impl Abort, alloc: Global) -> Memory {
    let schema = built_in_schema(alloc).expect(rt, "memory");
    Memory::begin(alloc, schema, DATE, &Limits::standard()).expect(rt, "memory")
}

fn longs(kind: LongKind, items: Vec<i64>) -> Value {
    Value::Vector(Vector::from_column(Column::Longs(kind, items)))
}

// This many numbers from the first on.
fn counted(rt: &impl Abort, alloc: Global, first: i64, rows: usize) -> Vec<i64> {
    let mut items = Vec::new(alloc);
    let mut next = first;
    for _i in 0..rows {
        items.push(next).expect(rt, "memory");
        next = next.wrapping_add(1);
    }
    items
}

fn same(rt: &impl Abort, alloc: Global, item: i64, rows: usize) -> Vec<i64> {
    vec![in alloc; item; rows].expect(rt, "memory")
}

/// Symbols of these texts.
pub(crate) fn symbols_of(rt: &impl Abort, alloc: Global, texts: &[&[u8]]) -> Symbols {
    let mut found = Symbols::new(alloc);
    for text in texts {
        let name = Sym::of(alloc, text).expect(rt, "a symbol");
        found.push(name.bytes()).expect(rt, "memory");
    }
    found
}

// An update of `trade`: prices count from the first on, and each size is 100.
fn update(rt: &impl Abort, alloc: Global, symbols: Symbols, price: i64) -> UpdRequest {
    let rows = symbols.len();
    let mut items = Values::with_capacity(alloc, 4).expect(rt, "memory");
    let times = same(rt, alloc, HALF_PAST_NINE, rows);
    items
        .push(longs(LongKind::Timespan, times))
        .expect(rt, "memory");
    let symbols = Value::Vector(Vector::from_column(Column::Symbols(symbols)));
    items.push(symbols).expect(rt, "memory");
    let prices = counted(rt, alloc, price, rows);
    items
        .push(longs(LongKind::Long, prices))
        .expect(rt, "memory");
    let sizes = same(rt, alloc, 100, rows);
    items
        .push(longs(LongKind::Long, sizes))
        .expect(rt, "memory");
    let table = Sym::of(alloc, b"trade").expect(rt, "a symbol");
    UpdRequest { table, items }
}

fn commit(rt: &impl Abort, memory: &mut Memory, update: Prepared)
    requires frame { update.frame ≡ memory.old.frame }
    requires same { update.entries ≡ memory.old.entries }
    requires room { update.rolls ≡ false → memory.old.room ≡ update.entry ∷ [] }
{
    if update.rolls() {
        panic!(rt; "an update of another date");
    }
    let _place = memory.commit(update);
}

/// Logs an update of `trade` on the open date.
pub(crate) fn log(
    rt: &impl Abort,
    alloc: Global,
    memory: &mut Memory,
    symbols: Symbols,
    price: i64,
) {
    let request = update(rt, alloc, symbols, price);
    match memory.prepare(alloc, 1, &request, NOW) {
        Ok(update) => commit(rt, memory, update),
        Err(_) => panic!(rt; "the update is refused"),
    }
}

/// Ends the open date, and opens the next one.
pub(crate) fn end_date(rt: &impl Abort, alloc: Global, memory: &mut Memory) {
    let date = memory.date();
    if date >= LAST {
        panic!(rt; "no later date");
    }
    let roll = memory.prepare_roll(alloc, 1, date + 1).expect(rt, "memory");
    let _place = memory.commit_roll(roll);
}

/// The tail from an entry on.
pub(crate) fn tail_from(rt: &impl Abort, alloc: Global, memory: &Memory, from: u64) -> Tail {
    if from > memory.length() {
        panic!(rt; "no such entry");
    }
    memory.tail(alloc, from).expect(rt, "memory")
}

/// A subscription to some symbols of all tables, or to all rows.
pub(crate) fn subscribed(
    rt: &impl Abort,
    alloc: Global,
    schema: &Schema,
    symbols: Option<&[&[u8]]>,
) -> Subscription
    ensures { result.schema ≡ schema.now }
{
    let mut subscription = Subscription::none(alloc, schema).expect(rt, "memory");
    let symbols = match symbols {
        Some(texts) => Wanted::Symbols(symbols_of(rt, alloc, texts)),
        None => Wanted::Everything,
    };
    let tables = Sym::of(alloc, b"").expect(rt, "a symbol");
    let request = SubRequest { tables, symbols };
    assert!(rt; subscription.set(&request).is_ok());
    subscription
}

/// What a subscriber to some symbols, or to all rows, is sent for a tail.
pub(crate) fn sent(
    rt: &impl Abort,
    alloc: Global,
    tail: &Tail,
    symbols: Option<&[&[u8]]>,
    batch: bool,
) -> Vec<u8> {
    let subscription = subscribed(rt, alloc, tail.schema(), symbols);
    match publications(alloc, tail, &subscription, batch).expect(rt, "memory") {
        Publications::Messages(bytes) => bytes,
        Publications::TooLong => panic!(rt; "a message is too long"),
    }
}
