//! Plants over the built-in schema: which updates are logged, and what is read afterwards.
ghost use Rattle.std.specs.Prelude.{◌≡◌, ◌<ℤ◌, pos, true, false, [], ◌∷◌, IfSome};
ghost use Rattle.day_rows.specs.Chronicle.{date_of};

use plant_memory::{Memory, Prepared, Snapshot, UpdRefusal, UpdRequest};
use q_values::{
    Atom, Column, Kind, Limits, LongKind, NANOSECONDS_PER_DAY, NoMemory, Sym, Value, Values, Vector,
};
use schema_text::{BUILT_IN, read_schema};
use std::alloc::Global;
use std::process::Abort;

/// 2024.01.02, in days since 2000.01.01.
pub(crate) const DATE: i32 = 8_767;

/// The index of `trade` in the schema.
pub(crate) const TRADE: u32 = 1;

/// `0D09:30`, in nanoseconds.
pub(crate) const HALF_PAST_NINE: i64 = 34_200_000_000_000;

/// A minute, in nanoseconds.
const MINUTE: i64 = 60_000_000_000;

/// 2024.01.02D09:30, in nanoseconds since 2000.01.01.
pub(crate) const NOW: i64 = 757_503_000_000_000_000;

pub(crate) fn begun(rt: &impl Abort, alloc: Global) -> Option<Memory>
    ensures { IfSome result (λ memory. memory.entries ≡ []) }
{
    match read_schema(alloc, BUILT_IN) {
        Ok(schema) => Some(Memory::begin(alloc, schema, DATE, &Limits::standard()).expect(
            rt, "memory",
        )),
        Err(_) => None,
    }
}

pub(crate) fn symbol(rt: &impl Abort, alloc: Global, name: &[u8]) -> Atom {
    match Sym::of(alloc, name) {
        Ok(symbol) => Atom::Symbol(symbol),
        Err(_) => panic!(rt; "no memory"),
    }
}

fn longs(rt: &impl Abort, alloc: Global, kind: LongKind, items: &[i64]) -> Value {
    let items = Vec::from_slice(alloc, items).expect(rt, "memory");
    Value::Vector(Vector::from_column(Column::Longs(kind, items)))
}

fn asked(rt: &impl Abort, alloc: Global, table: &[u8], items: Values) -> UpdRequest {
    match Sym::of(alloc, table) {
        Ok(table) => UpdRequest { table, items },
        Err(_) => panic!(rt; "no memory"),
    }
}

// One row of `trade`.
pub(crate) fn trade(
    rt: &impl Abort,
    alloc: Global,
    time: i64,
    name: &[u8],
    price: i64,
    size: i64,
) -> UpdRequest {
    let mut items = Values::new(alloc);
    items
        .push(Value::Atom(Atom::Timespan(time)))
        .expect(rt, "memory");
    items
        .push(Value::Atom(symbol(rt, alloc, name)))
        .expect(rt, "memory");
    items
        .push(Value::Atom(Atom::Long(price)))
        .expect(rt, "memory");
    items
        .push(Value::Atom(Atom::Long(size)))
        .expect(rt, "memory");
    asked(rt, alloc, b"trade", items)
}

// Commits a prepared update, after the roll where one is due.
fn log(rt: &impl Abort, alloc: Global, memory: &mut Memory, update: Prepared)
    requires frame { update.frame ≡ memory.old.frame }
    requires same { update.entries ≡ memory.old.entries }
    requires room { update.rolls ≡ false → memory.old.room ≡ update.entry ∷ [] }
    requires date { update.rolls ≡ true → date_of memory.old.frame.first memory.old.entries <ℤ pos 106751 }
{
    if !update.rolls() {
        let _place = memory.commit(update);
        return;
    }
    let next = memory.date() + 1;
    let roll = memory
        .prepare_roll(alloc, update.by(), next)
        .expect(rt, "memory");
    let _rolled = memory.commit_roll(roll);
    let _place = memory.commit(update);
}

/// The refusal of an update of the pass 1, or none where it was logged.
pub(crate) fn refusal_of(
    rt: &impl Abort,
    alloc: Global,
    memory: &mut Memory,
    request: &UpdRequest,
    now: i64,
) -> Option<UpdRefusal> {
    refusal_by(rt, alloc, memory, 1, request, now)
}

/// The same of an update of another pass.
pub(crate) fn refusal_by(
    rt: &impl Abort,
    alloc: Global,
    memory: &mut Memory,
    by: u32,
    request: &UpdRequest,
    now: i64,
) -> Option<UpdRefusal> {
    match memory.prepare(alloc, u64::from(by), request, now) {
        Ok(update) => {
            log(rt, alloc, memory, update);
            None
        }
        Err(UpdRefusal::NoMemory) => panic!(rt; "no memory"),
        Err(why) => Some(why),
    }
}

fn is_logged(
    rt: &impl Abort,
    alloc: Global,
    memory: &mut Memory,
    request: &UpdRequest,
    now: i64,
) -> bool {
    refusal_of(rt, alloc, memory, request, now).is_none()
}

// A column of `trade` on the date with the index `k`.
fn shown(rt: &impl Abort, alloc: Global, memory: &Memory, k: usize, column: u32) -> Option<Vector> {
    let snapshot = memory.snapshot(alloc).expect(rt, "memory");
    let schema = memory.schema();
    if schema.len() <= TRADE as usize || k >= snapshot.dates() {
        return None;
    }
    let kinds = &schema.at(TRADE as usize).kinds;
    if kinds.len() <= column as usize {
        return None;
    }
    let _kind = *kinds.at(column as usize);
    let rows = snapshot.rows_at(k, TRADE);
    let part = snapshot
        .column(alloc, k, TRADE, column, 0, rows)
        .expect(rt, "memory");
    Some(part)
}

fn are_symbols(column: &Vector, names: &[&str]) -> bool {
    match column.column() {
        Column::Symbols(symbols) if symbols.len() == names.len() => {
            (0..names.len()).all(|i| symbols.at(i) == names[i].as_bytes())
        }
        _ => false,
    }
}

fn are_longs(column: &Vector, items: &[i64]) -> bool {
    match column.column() {
        Column::Longs(_, own) => own.as_slice() == items,
        _ => false,
    }
}

pub(crate) fn shows_symbols(
    rt: &impl Abort,
    alloc: Global,
    memory: &Memory,
    k: usize,
    names: &[&str],
) -> bool {
    match shown(rt, alloc, memory, k, 1) {
        Some(column) => are_symbols(&column, names),
        None => false,
    }
}

fn shows_longs(
    rt: &impl Abort,
    alloc: Global,
    memory: &Memory,
    k: usize,
    column: u32,
    items: &[i64],
) -> bool {
    match shown(rt, alloc, memory, k, column) {
        Some(found) => are_longs(&found, items),
        None => false,
    }
}

// Two rows, the symbol of which is one atom.
fn two_rows(rt: &impl Abort, alloc: Global) -> UpdRequest {
    let mut items = Values::new(alloc);
    let times = [HALF_PAST_NINE, HALF_PAST_NINE + MINUTE];
    items
        .push(longs(rt, alloc, LongKind::Timespan, &times))
        .expect(rt, "memory");
    items
        .push(Value::Atom(symbol(rt, alloc, b"a")))
        .expect(rt, "memory");
    items
        .push(longs(rt, alloc, LongKind::Long, &[1, 2]))
        .expect(rt, "memory");
    items
        .push(longs(rt, alloc, LongKind::Long, &[3, 4]))
        .expect(rt, "memory");
    asked(rt, alloc, b"trade", items)
}

fn two_items(rt: &impl Abort, alloc: Global) -> UpdRequest {
    let mut items = Values::new(alloc);
    items
        .push(Value::Atom(symbol(rt, alloc, b"KX")))
        .expect(rt, "memory");
    items.push(Value::Atom(Atom::Long(1))).expect(rt, "memory");
    asked(rt, alloc, b"trade", items)
}

fn integer_size(rt: &impl Abort, alloc: Global) -> UpdRequest {
    let mut items = Values::new(alloc);
    items
        .push(Value::Atom(Atom::Timespan(HALF_PAST_NINE)))
        .expect(rt, "memory");
    items
        .push(Value::Atom(symbol(rt, alloc, b"KX")))
        .expect(rt, "memory");
    items.push(Value::Atom(Atom::Long(10))).expect(rt, "memory");
    items
        .push(Value::Atom(Atom::Integer(200)))
        .expect(rt, "memory");
    asked(rt, alloc, b"trade", items)
}

fn empty_columns(rt: &impl Abort, alloc: Global) -> UpdRequest {
    let mut items = Values::new(alloc);
    items
        .push(longs(rt, alloc, LongKind::Timespan, &[]))
        .expect(rt, "memory");
    items
        .push(Value::Vector(Vector::new(alloc, Kind::Symbol)))
        .expect(rt, "memory");
    items
        .push(longs(rt, alloc, LongKind::Long, &[]))
        .expect(rt, "memory");
    items
        .push(longs(rt, alloc, LongKind::Long, &[]))
        .expect(rt, "memory");
    asked(rt, alloc, b"trade", items)
}

fn without_time(rt: &impl Abort, alloc: Global) -> UpdRequest {
    let mut items = Values::new(alloc);
    items
        .push(Value::Atom(symbol(rt, alloc, b"KX")))
        .expect(rt, "memory");
    items
        .push(Value::Atom(Atom::Long(10_050)))
        .expect(rt, "memory");
    items
        .push(Value::Atom(Atom::Long(200)))
        .expect(rt, "memory");
    asked(rt, alloc, b"trade", items)
}

pub(crate) fn logs_trade(
    rt: &impl Abort,
    alloc: Global,
    memory: &mut Memory,
    time: i64,
    name: &[u8],
    price: i64,
    now: i64,
) -> bool {
    let request = trade(rt, alloc, time, name, price, 1);
    is_logged(rt, alloc, memory, &request, now)
}

fn spreads(rt: &impl Abort, alloc: Global, memory: &mut Memory) -> bool {
    let request = two_rows(rt, alloc);
    is_logged(rt, alloc, memory, &request, NOW)
}

fn shows_two_rows(rt: &impl Abort, alloc: Global, memory: &Memory) -> bool {
    if !shows_symbols(rt, alloc, memory, 0, &["a", "a"]) {
        return false;
    }
    if !shows_longs(rt, alloc, memory, 0, 2, &[1, 2]) {
        return false;
    }
    shows_longs(rt, alloc, memory, 0, 3, &[3, 4])
}

fn atom_is_spread(rt: &impl Abort, alloc: Global) -> bool {
    match begun(rt, alloc) {
        Some(mut memory) => spreads(rt, alloc, &mut memory) && shows_two_rows(rt, alloc, &memory),
        None => false,
    }
}

#[test]
fn atom_spread_to_columns(rt: HostRuntime) {
    assert!(rt; atom_is_spread(&rt, rt.alloc()));
}

fn is_past(rt: &impl Abort, alloc: Global, memory: &mut Memory) -> bool {
    let request = trade(rt, alloc, HALF_PAST_NINE, b"b", 10, 100);
    match refusal_of(rt, alloc, memory, &request, NOW + 2 * NANOSECONDS_PER_DAY) {
        Some(UpdRefusal::MoreThanOneDay) => memory.length() == 0 && memory.next_by() == 1,
        _ => false,
    }
}

fn is_kept_back(rt: &impl Abort, alloc: Global, memory: &mut Memory) -> bool {
    let logged = logs_trade(
        rt,
        alloc,
        memory,
        HALF_PAST_NINE,
        b"b",
        10,
        NOW - NANOSECONDS_PER_DAY,
    );
    let stays = memory.date() == DATE && memory.opened_at() == 0;
    logged && stays && memory.length() == 1 && memory.next_by() == 2
}

fn clock_is_judged(rt: &impl Abort, alloc: Global) -> bool {
    match begun(rt, alloc) {
        Some(mut memory) => is_past(rt, alloc, &mut memory) && is_kept_back(rt, alloc, &mut memory),
        None => false,
    }
}

#[test]
fn clock_beyond_one_day(rt: HostRuntime) {
    assert!(rt; clock_is_judged(&rt, rt.alloc()));
}

fn is_no_table(rt: &impl Abort, alloc: Global, memory: &mut Memory) -> bool {
    let request = asked(rt, alloc, b"foo", Values::new(alloc));
    match refusal_of(rt, alloc, memory, &request, NOW) {
        Some(UpdRefusal::NoTable(table)) => table.bytes() == b"foo".as_slice(),
        _ => false,
    }
}

fn is_length(rt: &impl Abort, alloc: Global, memory: &mut Memory) -> bool {
    let request = two_items(rt, alloc);
    match refusal_of(rt, alloc, memory, &request, NOW) {
        Some(UpdRefusal::Length) => true,
        _ => false,
    }
}

fn is_type(rt: &impl Abort, alloc: Global, memory: &mut Memory) -> bool {
    let request = integer_size(rt, alloc);
    match refusal_of(rt, alloc, memory, &request, NOW) {
        Some(UpdRefusal::WrongType { column }) => column == 3,
        _ => false,
    }
}

fn is_limit(rt: &impl Abort, alloc: Global, memory: &mut Memory) -> bool {
    let request = trade(rt, alloc, HALF_PAST_NINE, &[b'x'; 257], 1, 1);
    match refusal_of(rt, alloc, memory, &request, NOW) {
        Some(UpdRefusal::Limit) => memory.limits().symbol == 256 && memory.length() == 0,
        _ => false,
    }
}

fn logs_no_row(rt: &impl Abort, alloc: Global, memory: &mut Memory) -> bool {
    let request = empty_columns(rt, alloc);
    is_logged(rt, alloc, memory, &request, NOW)
}

fn updates_today(rt: &impl Abort, alloc: Global, memory: &Memory) -> u64 {
    memory.snapshot(alloc).expect(rt, "memory").updates_today()
}

fn refuses_in_turn(rt: &impl Abort, alloc: Global, memory: &mut Memory) -> bool {
    if !is_no_table(rt, alloc, memory) || !is_length(rt, alloc, memory) {
        return false;
    }
    if !is_type(rt, alloc, memory) || !is_limit(rt, alloc, memory) {
        return false;
    }
    if !logs_no_row(rt, alloc, memory) || updates_today(rt, alloc, memory) != 1 {
        return false;
    }
    shows_symbols(rt, alloc, memory, 0, &[])
}

fn updates_are_judged(rt: &impl Abort, alloc: Global) -> bool {
    match begun(rt, alloc) {
        Some(mut memory) => refuses_in_turn(rt, alloc, &mut memory),
        None => false,
    }
}

#[test]
fn refused_updates(rt: HostRuntime) {
    assert!(rt; updates_are_judged(&rt, rt.alloc()));
}

// Three updates, and a fourth on the next date.
fn logs_four(rt: &impl Abort, alloc: Global, memory: &mut Memory) -> bool {
    let first = logs_trade(rt, alloc, memory, HALF_PAST_NINE, b"b", 10, NOW);
    let second = logs_trade(rt, alloc, memory, HALF_PAST_NINE + MINUTE, b"a", 20, NOW);
    let third = logs_trade(
        rt,
        alloc,
        memory,
        HALF_PAST_NINE + 2 * MINUTE,
        b"b",
        11,
        NOW,
    );
    let arrived = shows_symbols(rt, alloc, memory, 0, &["b", "a", "b"]);
    let fourth = logs_trade(
        rt,
        alloc,
        memory,
        HALF_PAST_NINE,
        b"c",
        30,
        NOW + NANOSECONDS_PER_DAY,
    );
    first && second && third && arrived && fourth
}

fn has_dates(snapshot: &Snapshot, dates: &[i32]) -> bool {
    if snapshot.dates() != dates.len() {
        return false;
    }
    for k in 0..dates.len() {
        if snapshot.date_at(k) != dates[k] {
            return false;
        }
    }
    true
}

fn is_counted(rt: &impl Abort, alloc: Global, memory: &Memory) -> bool {
    let snapshot = memory.snapshot(alloc).expect(rt, "memory");
    let counted = snapshot.length() == 5 && snapshot.updates_today() == 1;
    counted && memory.opened_at() == 4 && has_dates(&snapshot, &[8_767, 8_768])
}

fn shows_both_dates(rt: &impl Abort, alloc: Global, memory: &Memory) -> bool {
    let symbols = shows_symbols(rt, alloc, memory, 0, &["a", "b", "b"]);
    let prices = shows_longs(rt, alloc, memory, 0, 2, &[20, 10, 11]);
    let symbol = shows_symbols(rt, alloc, memory, 1, &["c"]);
    let price = shows_longs(rt, alloc, memory, 1, 2, &[30]);
    symbols && prices && symbol && price
}

fn is_ordered(rt: &impl Abort, alloc: Global, memory: &mut Memory) -> bool {
    let logged = logs_four(rt, alloc, memory);
    let counted = is_counted(rt, alloc, memory);
    let both = shows_both_dates(rt, alloc, memory);
    logged && counted && both
}

fn dates_are_ordered(rt: &impl Abort, alloc: Global) -> bool {
    match begun(rt, alloc) {
        Some(mut memory) => is_ordered(rt, alloc, &mut memory),
        None => false,
    }
}

#[test]
fn symbol_order_after_roll(rt: HostRuntime) {
    assert!(rt; dates_are_ordered(&rt, rt.alloc()));
}

fn puts_time(rt: &impl Abort, alloc: Global, memory: &mut Memory) -> bool {
    let request = without_time(rt, alloc);
    if !is_logged(rt, alloc, memory, &request, NOW) {
        return false;
    }
    shows_longs(rt, alloc, memory, 0, 0, &[HALF_PAST_NINE])
}

fn time_is_put(rt: &impl Abort, alloc: Global) -> bool {
    match begun(rt, alloc) {
        Some(mut memory) => puts_time(rt, alloc, &mut memory),
        None => false,
    }
}

#[test]
fn time_put_first(rt: HostRuntime) {
    assert!(rt; time_is_put(&rt, rt.alloc()));
}
