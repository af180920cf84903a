//! A day over the built-in schema, before and after its end.
ghost use Rattle.std.specs.Prelude.{◌≡◌, length};

use day_rows::{ClosedDay, Entries, Entry, OpenDay};
use q_values::{Atom, Column, Columns, Kind, LongKind, Sym, Vector};
use schema_text::{BUILT_IN, read_schema};
use std::alloc::Global;
use std::process::Abort;

fn one_long(rt: &impl Abort, alloc: Global, kind: LongKind, item: i64) -> Vector {
    let items = Vec::from_slice(alloc, &[item]).expect(rt, "memory");
    Vector::from_column(Column::Longs(kind, items))
}

fn one_symbol(rt: &impl Abort, alloc: Global, name: &[u8]) -> Vector {
    let mut symbols = Vector::new(alloc, Kind::Symbol);
    symbols
        .push(Atom::Symbol(Sym::of(alloc, name).expect(rt, "memory")))
        .expect(rt, "memory");
    symbols
}

// An update of `trade` with one row.
fn trade(rt: &impl Abort, alloc: Global, time: i64, name: &[u8], price: i64) -> Entry {
    let mut columns = Columns::new(alloc);
    columns
        .push(one_long(rt, alloc, LongKind::Timespan, time))
        .expect(rt, "memory");
    columns
        .push(one_symbol(rt, alloc, name))
        .expect(rt, "memory");
    columns
        .push(one_long(rt, alloc, LongKind::Long, price))
        .expect(rt, "memory");
    columns
        .push(one_long(rt, alloc, LongKind::Long, 1))
        .expect(rt, "memory");
    Entry::Upd {
        by: 1,
        table: 1,
        columns,
    }
}

/// Adds an entry to the day, where the day admits it.
pub fn log(rt: &impl Abort, alloc: Global, day: &mut OpenDay, entry: Entry) -> bool
    ensures { day.new.day.kinds ≡ day.old.day.kinds }
{
    let mut planned = Entries::new(alloc);
    planned.push(entry).expect(rt, "memory");
    if !day.admits(&planned) {
        return false;
    }
    day.reserve(&planned).expect(rt, "memory");
    let mut items = planned.into_vec();
    let entry = items.remove(0);
    day.push(entry);
    true
}

/// A day of the built-in schema.
pub(crate) fn begun(rt: &impl Abort, alloc: Global) -> OpenDay
    ensures { length result.day.kinds ≡ 2 }
{
    match read_schema(alloc, BUILT_IN) {
        Ok(schema) => {
            assert_eq!(rt; schema.len(), 2);
            OpenDay::new(alloc, &schema, 8767).expect(rt, "memory")
        }
        Err(_) => panic!(rt; "the built-in schema"),
    }
}

// Three updates, and an entry that no day admits; whether they were and it was not.
fn logs_three(rt: &impl Abort, alloc: Global, day: &mut OpenDay) -> bool
    ensures { day.new.day.kinds ≡ day.old.day.kinds }
{
    log(rt, alloc, day, trade(rt, alloc, 0, b"b", 10))
        && log(rt, alloc, day, trade(rt, alloc, 1, b"a", 20))
        && log(rt, alloc, day, trade(rt, alloc, 2, b"b", 11))
        && !log(rt, alloc, day, Entry::Fault { by: 1 })
}

/// The end of a day.
pub(crate) fn ended(rt: &impl Abort, alloc: Global, day: OpenDay) -> ClosedDay
    ensures { result.kinds ≡ day.day.kinds }
{
    let order = day.close_order(alloc).expect(rt, "memory");
    day.close(order)
}

// Whether the ended day has the three updates, and their rows by symbol.
fn is_by_symbol(rt: &impl Abort, alloc: Global, day: &ClosedDay) -> bool
    requires { length day.now.kinds ≡ 2 }
{
    let arrivals = day.arrivals(alloc, 1).expect(rt, "memory");
    let counted = day.rows(1) == 3 && day.date() == 8767;
    let kept = day.updates(alloc).expect(rt, "memory").len();
    counted && kept == 3 && arrivals.as_slice() == [1, 0, 2].as_slice()
}

#[test]
fn symbol_order_after_roll(rt: HostRuntime) {
    let alloc = rt.alloc();
    let mut day = begun(&rt, alloc);
    assert!(rt; logs_three(&rt, alloc, &mut day));
    let day = day.copy(alloc).expect(&rt, "memory");
    assert_eq!(rt; day.updates(alloc).expect(&rt, "memory").len(), 3);
    assert!(rt; is_by_symbol(&rt, alloc, &ended(&rt, alloc, day)));
}
