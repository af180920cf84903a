//! Taps in memory whose messages are noted beside them, and messages of one price.

use outside_api::{Tap, TapFault, TapMessage};
use outside_mem::{MemTap, Receiving, Receivings};
use pubsub::TapMessages;
use q_values::{Column, Columns, LongKind, Names, Sym, TableValue, Vector};
use std::alloc::Global;
use std::process::Abort;
use std::sync::Arc;
use std::sync::atomic::{AtomicU64, Ordering};

/// A tap in memory that notes what it took.
#[derive(Drop)]
pub(crate) struct Watched {
    /// The tap.
    pub(crate) tap: MemTap,
    /// What it took, as [`noted`] says.
    pub(crate) seen: Arc<AtomicU64>,
}

impl Tap for Watched {
    ghost use Rattle.outside_mem.specs.Tap.{shown_by};

    ghost shown = { λ t. shown_by t.tap };

    fn take(&mut self, message: &TapMessage) -> Result<(), TapFault> {
        self.tap.take(message)?;
        let before = self.seen.load(Ordering::SeqCst);
        self.seen
            .store(noted(before, price_of(message)), Ordering::SeqCst);
        Ok(())
    }
}

/// The note after a message of this price: two digits for each.
pub(crate) fn noted(before: u64, price: u64) -> u64 {
    before.wrapping_mul(100).wrapping_add(price)
}

// The first number of the message's first column.
fn price_of(message: &TapMessage) -> u64 {
    let TapMessage::Rows { rows, .. } = message else {
        return 0;
    };
    let Some(first) = rows.columns.get(0) else {
        return 0;
    };
    match first.column() {
        Column::Longs(_, items) => match items.first() {
            Some(price) => price.unsigned_abs(),
            None => 0,
        },
        _ => 0,
    }
}

fn symbol(rt: &impl Abort, alloc: Global, name: &[u8]) -> Sym {
    Sym::of(alloc, name).expect(rt, "a symbol")
}

// A message of `trade` with one column and one row.
fn message(rt: &impl Abort, alloc: Global, price: i64) -> TapMessage {
    let mut names = Names::new(alloc);
    names.push(symbol(rt, alloc, b"price")).expect(rt, "memory");
    let prices = vec![in alloc; price; 1].expect(rt, "memory");
    let mut columns = Columns::new(alloc);
    let column = Vector::from_column(Column::Longs(LongKind::Long, prices));
    columns.push(column).expect(rt, "memory");
    TapMessage::Rows {
        table: symbol(rt, alloc, b"trade"),
        rows: TableValue { names, columns },
    }
}

/// This many messages, whose prices count from 1.
pub(crate) fn messages(rt: &impl Abort, alloc: Global, count: i64) -> TapMessages {
    let mut found = TapMessages::new(alloc);
    for i in 0..count {
        found
            .push(message(rt, alloc, i.wrapping_add(1)))
            .expect(rt, "memory");
    }
    found
}

/// A tap with room for a number of messages. Its takes fail from the index `fails` on, once.
pub(crate) fn tap_with_room(
    rt: &impl Abort,
    alloc: Global,
    room: usize,
    fails: Option<usize>,
    seen: &Arc<AtomicU64>,
) -> Watched {
    let mut receivings = Receivings::new(alloc);
    if let Some(index) = fails {
        for _i in 0..index {
            receivings.push(Receiving::Succeeds).expect(rt, "memory");
        }
        receivings.push(Receiving::Fails).expect(rt, "memory");
    }
    Watched {
        tap: MemTap::with_room(alloc, room, receivings).expect(rt, "memory"),
        seen: Arc::try_clone(seen).expect(rt, "few references"),
    }
}
