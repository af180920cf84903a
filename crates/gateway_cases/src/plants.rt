//! Plants over the built-in schema.
ghost use Rattle.std.specs.Prelude.{◌≡◌, ◌<ℤ◌, pos, true, false, [], ◌∷◌};
ghost use Rattle.day_rows.specs.Chronicle.{date_of};

use plant_memory::{Memory, Prepared, UpdRequest};
use q_values::{
    Column, Limits, LongKind, NANOSECONDS_PER_DAY, Sym, Symbols, Value, Values, Vector,
};
use schema_text::built_in_schema;
use std::alloc::Global;
use std::process::Abort;

/// 2024.01.02, in days since 2000.01.01.
const DATE: i32 = 8_767;

/// 2024.01.02D09:30, in nanoseconds since 2000.01.01.
const NOW: i64 = 757_503_000_000_000_000;

/// An update of a table: its symbols are one letter each, its times timespans, its other columns longs.
#[derive(Clone, Copy)]
pub(crate) struct Update<'a> {
    /// How many days after 2024.01.02 it comes.
    pub day: i64,
    /// The table.
    pub table: &'a [u8],
    /// The times of its rows, in nanoseconds.
    pub times: &'a [i64],
    /// The symbols of its rows.
    pub symbols: &'a [u8],
    /// The other columns, in the order of the table.
    pub others: &'a [&'a [i64]],
}

// A vector of these numbers.
fn longs(rt: &impl Abort, alloc: Global, kind: LongKind, numbers: &[i64]) -> Value {
    let items = Vec::from_slice(alloc, numbers).expect(rt, "memory");
    Value::Vector(Vector::from_column(Column::Longs(kind, items)))
}

// A vector of symbols of one letter each.
fn letters(rt: &impl Abort, alloc: Global, symbols: &[u8]) -> Value {
    let mut items = Symbols::new(alloc);
    for letter in symbols {
        let name = Sym::of(alloc, &[*letter]).expect(rt, "memory");
        items.push(name.bytes()).expect(rt, "memory");
    }
    Value::Vector(Vector::from_column(Column::Symbols(items)))
}

// The columns of an update.
fn columns_of(rt: &impl Abort, alloc: Global, update: &Update) -> Values {
    let mut items = Values::new(alloc);
    items
        .push(longs(rt, alloc, LongKind::Timespan, update.times))
        .expect(rt, "memory");
    items
        .push(letters(rt, alloc, update.symbols))
        .expect(rt, "memory");
    for other in update.others {
        items
            .push(longs(rt, alloc, LongKind::Long, other))
            .expect(rt, "memory");
    }
    items
}

// Commits a prepared update, after the roll where one is due.
fn log_prepared(rt: &impl Abort, alloc: Global, memory: &mut Memory, update: Prepared)
    requires frame { update.frame ≡ memory.old.frame }
    requires same { update.entries ≡ memory.old.entries }
    requires room { update.rolls ≡ false → memory.old.room ≡ update.entry ∷ [] }
    requires date { update.rolls ≡ true → date_of memory.old.frame.first memory.old.entries <ℤ pos 106751 }
{
    if !update.rolls() {
        let _place = memory.commit(update);
        return;
    }
    let next = memory.date() + 1;
    let roll = memory
        .prepare_roll(alloc, update.by(), next)
        .expect(rt, "memory");
    let _rolled = memory.commit_roll(roll);
    let _place = memory.commit(update);
}

// Logs an update.
fn log(rt: &impl Abort, alloc: Global, memory: &mut Memory, update: &Update) {
    let table = Sym::of(alloc, update.table).expect(rt, "memory");
    let items = columns_of(rt, alloc, update);
    let request = UpdRequest { table, items };
    let now = NOW.wrapping_add(update.day.wrapping_mul(NANOSECONDS_PER_DAY));
    match memory.prepare(alloc, 1, &request, now) {
        Ok(prepared) => log_prepared(rt, alloc, memory, prepared),
        Err(_) => panic!(rt; "an update was refused"),
    }
}

/// A plant over the built-in schema that began on 2024.01.02, with these updates.
pub(crate) fn memory_of(rt: &impl Abort, alloc: Global, updates: &[Update]) -> Memory {
    let schema = built_in_schema(alloc).expect(rt, "memory");
    let mut memory = Memory::begin(alloc, schema, DATE, &Limits::standard()).expect(rt, "memory");
    for update in updates {
        log(rt, alloc, &mut memory, update);
    }
    memory
}

// The numbers from 0 to below this one.
fn numbers_to(rt: &impl Abort, alloc: Global, count: u32) -> Vec<i64> {
    let mut numbers = Vec::new(alloc);
    for number in 0..count {
        numbers.push(i64::from(number)).expect(rt, "memory");
    }
    numbers
}

// This many letters, `b` and `a` in turn.
fn letters_in_turn(rt: &impl Abort, alloc: Global, count: u32) -> Vec<u8> {
    let mut letters = Vec::new(alloc);
    for number in 0..count {
        letters
            .push(if number % 2 == 0 { b'b' } else { b'a' })
            .expect(rt, "memory");
    }
    letters
}

/// A plant with this many rows of `trade` on 2024.01.02, and as many again on 2024.01.03 with as many of `quote`. The
/// symbols are `b` and `a` in turn, and all other columns count the rows of their update from 0.
pub(crate) fn many_rows(rt: &impl Abort, alloc: Global, count: u32) -> Memory {
    let numbers = numbers_to(rt, alloc, count);
    let symbols = letters_in_turn(rt, alloc, count);
    let columns: [&[i64]; 4] = [&numbers, &numbers, &numbers, &numbers];
    let first = Update {
        day: 0,
        table: b"trade",
        times: &numbers,
        symbols: &symbols,
        others: &columns[..2],
    };
    let second = Update {
        day: 1,
        table: b"trade",
        times: &numbers,
        symbols: &symbols,
        others: &columns[..2],
    };
    let quotes = Update {
        day: 1,
        table: b"quote",
        times: &numbers,
        symbols: &symbols,
        others: &columns,
    };
    memory_of(rt, alloc, &[first, second, quotes])
}
