//! A date of the built-in schema, and its updates.
ghost use Rattle.std.specs.Prelude.{◌≡◌, ◌∷◌, [], length, IfOk, OnOk};
ghost use Rattle.q_values.specs.declared.kind.Kind.{Kind};
ghost use Rattle.day_rows.specs.Day.{HasColumn};
ghost use Rattle.day_bench.specs.Trades.{HasTrades};

use crate::made::{TRADE, symbols, update};
use anyhow::{Result, bail};
use day_rows::{ClosedDay, Entries, Entry, OpenDay};
use q_values::{NoMemory, Vector};
use schema_text::built_in_schema;
use std::alloc::Global;

// 2024.01.02, in days since 2000.01.01.
const DATE: i32 = 8767;

/// A day without updates.
pub fn begun(alloc: Global) -> Result<OpenDay, NoMemory>
    ensures { IfOk result (λ opened. HasTrades opened.day) }
{
    let schema = built_in_schema(alloc)?;
    OpenDay::new(alloc, &schema, DATE)
}

// A list of one entry.
fn sole(alloc: Global, entry: Entry) -> Result<Entries, NoMemory>
    ensures { IfOk result (λ entries. entries ≡ entry ∷ []) }
{
    let mut entries = Entries::new(alloc);
    entries.push(entry)?;
    Ok(entries)
}

// The one entry of a list.
fn entry_of(entries: Entries) -> Entry
    requires { length entries ≡ 1 }
    ensures { entries ≡ result ∷ [] }
{
    let mut items = entries.into_vec();
    items.swap_remove(0)
}

// Logs an update, as a plant does: makes room for it, and then appends it.
fn log(alloc: Global, day: &mut OpenDay, entry: Entry) -> Result<()>
    ensures { OnOk result (day.new.day.kinds ≡ day.old.day.kinds) }
{
    let entries = sole(alloc, entry)?;
    if !day.admits(&entries) {
        bail!("the day doesn't admit the update");
    }
    day.reserve(&entries)?;
    day.push(entry_of(entries));
    Ok(())
}

/// Logs `rows` rows of `trade` in updates of `size` rows, each of which is made when it is logged.
pub fn fill(alloc: Global, day: &mut OpenDay, rows: u32, size: u32) -> Result<()>
    ensures { OnOk result (day.new.day.kinds ≡ day.old.day.kinds) }
{
    let symbols = symbols(alloc, size)?;
    for i in 0..rows.checked_div(size).unwrap_or(0) {
        let entry = update(alloc, &symbols, i.wrapping_mul(size), size)?;
        log(alloc, day, entry)?;
    }
    Ok(())
}

/// A whole column of `trade`, in the order of arrival.
pub fn column(alloc: Global, day: &OpenDay, column: u32) -> Result<Vector, NoMemory>
    requires { (kind : Kind) × HasColumn day.now.day 1 column kind }
{
    day.column(alloc, TRADE, column, 0, day.rows(TRADE))
}

/// A whole column of `trade`, by symbol and then by arrival.
pub fn ended_column(alloc: Global, day: &ClosedDay, column: u32) -> Result<Vector, NoMemory>
    requires { (kind : Kind) × HasColumn day.now 1 column kind }
{
    day.column(alloc, TRADE, column, 0, day.rows(TRADE))
}
