//! Entries over the built-in schema, subscriptions to it, and their messages as text.
ghost use Rattle.std.specs.Prelude.{◌≡◌};

use day_rows::{Entries, Entry, Schema};
use outside_api::TapMessage;
use pubsub::{
    SubRefusal, SubRequest, Subscription, TapMessages, Wanted, are_of_schema, messages_of,
};
use q_shown::push_value;
use q_values::{Column, Columns, LongKind, Sym, Symbols, Value, Vector};
use schema_text::built_in_schema;
use std::alloc::Global;
use std::process::Abort;

/// 2024.01.02, in days since 2000.01.01. It is open before the entries.
pub(crate) const DATE: i32 = 8_767;

/// An entry. The times of an update's rows count from 0. Its third column counts too, and those after it are 7 in each row.
#[derive(Clone, Copy)]
pub(crate) enum Step<'a> {
    /// An update of `trade`: the symbols of its rows, and the first price, from which prices count up.
    Trade(&'a [&'a [u8]], i64),
    /// An update of `quote`: the symbols of its rows, and the first bid, from which bids count up.
    Quote(&'a [&'a [u8]], i64),
    /// The end of the open date, and the date that follows.
    Roll(i32),
    /// A disk fault.
    Fault,
}

/// What a client asks for: a table, or every table where the name is empty; and all its rows, or those of some symbols.
#[derive(Clone, Copy)]
pub(crate) struct Ask<'a> {
    /// The table.
    pub table: &'a [u8],
    /// The symbols; `None` for all rows.
    pub symbols: Option<&'a [&'a [u8]]>,
}

/// This many numbers, from the first on.
pub(crate) fn counted(
    rt: &impl Abort,
    alloc: Global,
    kind: LongKind,
    first: i64,
    count: usize,
) -> Vector {
    let mut items = Vec::new(alloc);
    let mut next = first;
    for _i in 0..count {
        items.push(next).expect(rt, "memory");
        next = next.wrapping_add(1);
    }
    Vector::from_column(Column::Longs(kind, items))
}

/// An update of a table of the built-in schema: 0 for `quote`, 1 for `trade`.
pub(crate) fn update(
    rt: &impl Abort,
    alloc: Global,
    table: u32,
    symbols: Symbols,
    first: i64,
) -> Entry {
    let rows = symbols.len();
    let others = if table == 0 { 3 } else { 1 };
    let mut columns = Columns::new(alloc);
    columns
        .push(counted(rt, alloc, LongKind::Timespan, 0, rows))
        .expect(rt, "memory");
    columns
        .push(Vector::from_column(Column::Symbols(symbols)))
        .expect(rt, "memory");
    columns
        .push(counted(rt, alloc, LongKind::Long, first, rows))
        .expect(rt, "memory");
    for _i in 0..others {
        let sevens = vec![in alloc; 7i64; rows].expect(rt, "memory");
        columns
            .push(Vector::from_column(Column::Longs(LongKind::Long, sevens)))
            .expect(rt, "memory");
    }
    Entry::Upd {
        by: 1,
        table,
        columns,
    }
}

/// Symbols of these texts.
pub(crate) fn symbols_of(rt: &impl Abort, alloc: Global, names: &[&[u8]]) -> Symbols {
    let mut symbols = Symbols::new(alloc);
    for name in names {
        let symbol = Sym::of(alloc, name).expect(rt, "memory");
        symbols.push(symbol.bytes()).expect(rt, "memory");
    }
    symbols
}

fn entry_of(rt: &impl Abort, alloc: Global, step: Step<'_>) -> Entry {
    match step {
        Step::Trade(names, first) => update(rt, alloc, 1, symbols_of(rt, alloc, names), first),
        Step::Quote(names, first) => update(rt, alloc, 0, symbols_of(rt, alloc, names), first),
        Step::Roll(date) => Entry::Roll { by: 1, date },
        Step::Fault => Entry::Fault { by: 1 },
    }
}

/// The entries of these steps.
pub(crate) fn entries_of(rt: &impl Abort, alloc: Global, steps: &[Step<'_>]) -> Entries {
    let mut entries = Entries::new(alloc);
    for step in steps {
        entries
            .push(entry_of(rt, alloc, *step))
            .expect(rt, "memory");
    }
    entries
}

/// A request.
pub(crate) fn request_of(rt: &impl Abort, alloc: Global, ask: Ask<'_>) -> SubRequest {
    let symbols = match ask.symbols {
        Some(names) => Wanted::Symbols(symbols_of(rt, alloc, names)),
        None => Wanted::Everything,
    };
    SubRequest {
        tables: Sym::of(alloc, ask.table).expect(rt, "memory"),
        symbols,
    }
}

/// Whether the subscription took the request; it didn't where there is no such table.
pub(crate) fn takes(rt: &impl Abort, subscription: &mut Subscription, request: &SubRequest) -> bool
    ensures { subscription.new.schema ≡ subscription.old.schema }
{
    match subscription.set(request) {
        Ok(()) => true,
        Err(SubRefusal::NoTable(_)) => false,
        Err(SubRefusal::NoMemory) => panic!(rt; "no memory"),
    }
}

/// A subscription of this schema after these requests.
pub(crate) fn subscribed(
    rt: &impl Abort,
    alloc: Global,
    schema: &Schema,
    asks: &[Ask<'_>],
) -> Subscription
    ensures { result.schema ≡ schema.now }
{
    let mut subscription = Subscription::none(alloc, schema).expect(rt, "memory");
    for ask in asks {
        let request = request_of(rt, alloc, *ask);
        let _taken = takes(rt, &mut subscription, &request);
    }
    subscription
}

fn tell(
    rt: &impl Abort,
    alloc: Global,
    schema: &Schema,
    subscription: &Subscription,
    entries: &Entries,
    batch: bool,
) -> TapMessages
    requires { subscription.now.schema ≡ schema.now }
{
    if !are_of_schema(schema, entries) {
        panic!(rt; "entries of another schema");
    }
    messages_of(alloc, DATE, entries, schema, subscription, batch).expect(rt, "memory")
}

/// The messages for a subscription after these requests.
pub(crate) fn told(
    rt: &impl Abort,
    alloc: Global,
    asks: &[Ask<'_>],
    entries: &Entries,
    batch: bool,
) -> TapMessages {
    let schema = built_in_schema(alloc).expect(rt, "memory");
    let subscription = subscribed(rt, alloc, &schema, asks);
    tell(rt, alloc, &schema, &subscription, entries, batch)
}

/// The messages for a subscription after one request.
pub(crate) fn told_after(
    rt: &impl Abort,
    alloc: Global,
    request: &SubRequest,
    entries: &Entries,
    batch: bool,
) -> TapMessages {
    let schema = built_in_schema(alloc).expect(rt, "memory");
    let mut subscription = Subscription::none(alloc, &schema).expect(rt, "memory");
    let _taken = takes(rt, &mut subscription, request);
    tell(rt, alloc, &schema, &subscription, entries, batch)
}

fn push_shown(rt: &impl Abort, alloc: Global, out: &mut Vec<u8>, message: TapMessage) {
    match message {
        TapMessage::Rows { table, rows } => {
            out.extend_from_slice(table.bytes()).expect(rt, "memory");
            out.extend_from_slice(b" ").expect(rt, "memory");
            push_value(alloc, out, &Value::Table(rows)).expect(rt, "memory");
        }
        TapMessage::End { date } => {
            let text = format!(in alloc; "end {date}").expect(rt, "memory");
            out.extend_from_slice(text.as_bytes()).expect(rt, "memory");
        }
    }
    out.extend_from_slice(b"\n").expect(rt, "memory");
}

/// Messages as text, a line each.
pub(crate) fn shown(rt: &impl Abort, alloc: Global, messages: TapMessages) -> Vec<u8> {
    let mut out = Vec::new(alloc);
    for message in messages.into_vec() {
        push_shown(rt, alloc, &mut out, message);
    }
    out
}
