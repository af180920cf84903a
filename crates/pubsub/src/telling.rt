//! Messages of updates, each by itself, and of the ends of dates.
ghost use Rattle.std.specs.Prelude.{◌≡◌, ◌++◌, Some, map, slice_get, IfOk, OnOk};
ghost use Rattle.std.specs.List.{AllByRecursion};
ghost use Rattle.day_rows.specs.Day.{AreColumns};
ghost use Rattle.day_rows.specs.Rows.{lines_of};
ghost use Rattle.day_rows.specs.Schema.{IsShape};
ghost use Rattle.std.specs.Prelude.{filter};
ghost use Rattle.pubsub.specs.Steps.{AreOfTable, told_one, date_after};
ghost use Rattle.pubsub.specs.Told.{publication, published, passes, rows_told, end_told, told_each};
ghost use Rattle.plant_memory.specs.Memory.{IsOfSchema};

use crate::filter::Filter;
use crate::parts::{message, passed};
use crate::subscription::Subscription;
use day_rows::{Entry, Schema, Shape};
use outside_api::TapMessage;
use q_values::{NoMemory, Vector};
use std::alloc::Global;

// Adds the message of the chosen rows of an update, if there are any.
fn tell_rows(
    alloc: Global,
    shape: &Shape,
    chosen: &Filter,
    columns: &[Vector],
    messages: &mut Vec<TapMessage>,
) -> Result<(), NoMemory>
    requires shape { IsShape shape.now }
    requires columns { AreColumns shape.now.kinds columns.now }
    ensures { OnOk result (map publication messages.new.items
        ≡ map publication messages.old.items ++ published (Some shape.now) (filter (passes chosen.now) (lines_of columns.now))) }
{
    match passed(alloc, chosen, columns)? {
        None => Ok(()),
        Some(part) => {
            let told = message(alloc, shape, &[part])?;
            messages.push(told)?;
            Ok(())
        }
    }
}

fn tell_update(
    alloc: Global,
    schema: &Schema,
    subscription: &Subscription,
    table: usize,
    columns: &[Vector],
    messages: &mut Vec<TapMessage>,
) -> Result<(), NoMemory>
    requires own { subscription.now.schema ≡ schema.now }
    requires columns { AreOfTable schema.now table columns.now }
    ensures { OnOk result (map publication messages.new.items
        ≡ map publication messages.old.items ++ rows_told subscription.now table (lines_of columns.now)) }
{
    let chosen = subscription.filter(table);
    tell_rows(alloc, schema.at(table), chosen, columns, messages)
}

// Adds the end of a date, if any table is subscribed.
fn tell_end(
    subscription: &Subscription,
    date: i32,
    messages: &mut Vec<TapMessage>,
) -> Result<(), NoMemory>
    ensures { OnOk result (map publication messages.new.items
        ≡ map publication messages.old.items ++ end_told subscription.now date) }
{
    if subscription.is_any() {
        messages.push(TapMessage::End { date })?;
    }
    Ok(())
}

/// Adds what is told of one entry by itself. The result is the date that is open after it.
pub fn tell_one(
    alloc: Global,
    schema: &Schema,
    subscription: &Subscription,
    date: i32,
    entry: &Entry,
    messages: &mut Vec<TapMessage>,
) -> Result<i32, NoMemory>
    requires own { subscription.now.schema ≡ schema.now }
    requires update { IsOfSchema schema.now entry.now }
    ensures told { OnOk result (map publication messages.new.items
        ≡ map publication messages.old.items ++ told_one subscription.now date entry.now) }
    ensures date { IfOk result (λ next. next ≡ date_after date entry.now) }
{
    match entry {
        Entry::Upd { table, columns, .. } => {
            let columns = columns.as_slice();
            let table = *table as usize;
            tell_update(alloc, schema, subscription, table, columns, messages)?;
            Ok(date)
        }
        Entry::Roll { date: next, .. } => {
            tell_end(subscription, date, messages)?;
            Ok(*next)
        }
        Entry::Fault { .. } => Ok(date),
    }
}

/// What a subscription is told of entries, each update by itself. `date` is open before the first of them.
pub fn tell_each(
    alloc: Global,
    schema: &Schema,
    subscription: &Subscription,
    date: i32,
    entries: &[Entry],
) -> Result<Vec<TapMessage>, NoMemory>
    requires own { subscription.now.schema ≡ schema.now }
    requires updates { AllByRecursion (IsOfSchema schema.now) entries.now }
    ensures { IfOk result (λ messages. map publication messages.items ≡ told_each subscription.now date entries.now) }
{
    let mut messages = Vec::new(alloc);
    let mut open = date;
    for entry in entries {
        open = tell_one(alloc, schema, subscription, open, entry, &mut messages)?;
    }
    Ok(messages)
}
