//! Messages of batches of updates, which have one message for each table.
ghost use Rattle.std.specs.Prelude.{◌≡◌, ◌≢◌, ◌<◌, ◌≤◌, ◌++◌, [], ◌∷◌, true, length, map, option_copied, IfOk, OnOk};
ghost use Rattle.std.specs.List.{AllByRecursion, flat_map};
ghost use Rattle.pubsub.specs.Parts.{ArePassed};
ghost use Rattle.std.specs.Bool.{OnTrue, OnFalse};
ghost use Rattle.day_rows.specs.Chronicle.{KeepsDate};
ghost use Rattle.pubsub.specs.Steps.{IsPassedIn, IsBatch, IsRoll, BeginsWithin, columns_in, table_told};
ghost use Rattle.pubsub.specs.Told.{publication, lines_in, updates_today, batch_told, told};
ghost use Rattle.plant_memory.specs.Memory.{IsOfSchema};

use crate::filter::Filter;
use crate::parts::{Part, message, passed};
use crate::subscription::Subscription;
use crate::telling::tell_one;
use day_rows::{Entry, Schema};
use outside_api::TapMessage;
use q_values::{NoMemory, Vector};
use std::alloc::Global;

/// The most updates of a batch.
const BATCH: usize = 16;

// The columns of an update of the table.
fn columns_in(table: usize, entry: &Entry) -> Option<&[Vector]>
    ensures { option_copied result ≡ columns_in table entry.now }
{
    match entry {
        Entry::Upd {
            table: to,
            columns,
            ..
        } if *to as usize == table => Some(columns.as_slice()),
        _ => None,
    }
}

// The rows that an entry has for a table, of which `chosen` is the filter, where some are chosen.
fn passed_in<'a>(
    alloc: Global,
    schema: &Schema,
    chosen: &Filter,
    table: usize,
    entry: &'a Entry,
) -> Result<Option<Part<'a>>, NoMemory>
    requires table { table < length schema.now }
    requires update { IsOfSchema schema.now entry.now }
    ensures { IfOk result (IsPassedIn chosen.now schema.now table entry.now) }
{
    let _shape = schema.at(table);
    match columns_in(table, entry) {
        Some(columns) => passed(alloc, chosen, columns),
        None => Ok(None),
    }
}

// The chosen rows that a batch has for a table, entry by entry.
fn parts_of<'a>(
    alloc: Global,
    schema: &Schema,
    chosen: &Filter,
    table: usize,
    batch: &'a [Entry],
) -> Result<Vec<Part<'a>>, NoMemory>
    requires table { table < length schema.now }
    requires updates { AllByRecursion (IsOfSchema schema.now) batch.now }
    ensures { IfOk result (λ parts. ArePassed chosen.now schema.now table (flat_map (lines_in table) batch.now) parts.items) }
{
    let mut parts = Vec::new(alloc);
    for entry in batch {
        match passed_in(alloc, schema, chosen, table, entry)? {
            Some(part) => parts.push(part)?,
            None => {}
        }
    }
    Ok(parts)
}

// Adds the message of the rows that a batch has for a table, if any of them are chosen.
fn tell_table(
    alloc: Global,
    schema: &Schema,
    subscription: &Subscription,
    table: usize,
    batch: &[Entry],
    messages: &mut Vec<TapMessage>,
) -> Result<(), NoMemory>
    requires own { subscription.now.schema ≡ schema.now }
    requires table { table < length schema.now }
    requires updates { AllByRecursion (IsOfSchema schema.now) batch.now }
    ensures { OnOk result (map publication messages.new.items
        ≡ map publication messages.old.items ++ table_told subscription.now batch.now table) }
{
    let chosen = subscription.filter(table);
    let found = parts_of(alloc, schema, chosen, table, batch)?;
    let parts = found.as_slice();
    if parts.is_empty() {
        return Ok(());
    }
    let told = message(alloc, schema.at(table), parts)?;
    messages.push(told)?;
    Ok(())
}

#[tactic(auto, using(crate::proofs::BatchLemmas::no_table, crate::proofs::BatchLemmas::one_more_table))]
// Adds what is told of a batch: at most one message for each table.
fn tell_batch(
    alloc: Global,
    schema: &Schema,
    subscription: &Subscription,
    batch: &[Entry],
    messages: &mut Vec<TapMessage>,
) -> Result<(), NoMemory>
    requires own { subscription.now.schema ≡ schema.now }
    requires updates { AllByRecursion (IsOfSchema schema.now) batch.now }
    ensures { OnOk result (map publication messages.new.items
        ≡ map publication messages.old.items ++ batch_told subscription.now batch.now) }
{
    for table in 0..schema.len() {
        tell_table(alloc, schema, subscription, table, batch, messages)?;
    }
    Ok(())
}

fn is_roll(entry: &Entry) -> bool
    ensures roll { OnTrue result (IsRoll entry.now) }
    ensures other { OnFalse result (KeepsDate entry.now) }
{
    match entry {
        Entry::Roll { .. } => true,
        Entry::Upd { .. } | Entry::Fault { .. } => false,
    }
}

// 1 for an update, else 0.
fn count_updates(entry: &Entry) -> usize
    ensures value { result ≡ length (updates_today (entry.now ∷ [])) }
    ensures few { result ≤ 1 }
{
    match entry {
        Entry::Upd { .. } => 1,
        Entry::Roll { .. } | Entry::Fault { .. } => 0,
    }
}

// Whether a batch of this many updates takes no more.
fn is_full(updates: usize) -> bool
    ensures full { OnTrue result (updates ≡ 16) }
    ensures more { OnFalse result (updates ≢ 16) }
{
    updates == BATCH
}

// How many entries the first batch has: those up to its last update, or up to a roll or the end.
fn batch_len(entries: &[Entry]) -> usize
    ensures batch { IsBatch entries.now result }
    ensures within { result ≤ length entries.now }
    ensures some { BeginsWithin entries.now → 0 < result }
{
    let mut count = 0usize;
    for i in 0..entries.len() {
        let entry = &entries[i];
        if is_roll(entry) {
            return i;
        }
        count += count_updates(entry);
        if is_full(count) {
            return i + 1;
        }
    }
    entries.len()
}

/// What a subscription is told of entries in batches: those up to each roll, cut after every 16 updates. `date` is open
/// before the first of them.
pub fn tell_batches(
    alloc: Global,
    schema: &Schema,
    subscription: &Subscription,
    date: i32,
    entries: &[Entry],
) -> Result<Vec<TapMessage>, NoMemory>
    requires own { subscription.now.schema ≡ schema.now }
    requires updates { AllByRecursion (IsOfSchema schema.now) entries.now }
    ensures { IfOk result (λ messages. map publication messages.items ≡ told true subscription.now date entries.now) }
{
    let mut messages = Vec::new(alloc);
    let mut day = date;
    let mut from = 0usize;
    while from < entries.len() {
        let entry = &entries[from];
        if is_roll(entry) {
            day = tell_one(alloc, schema, subscription, day, entry, &mut messages)?;
            from += 1;
            continue;
        }
        let rest = &entries[from..];
        let n = batch_len(rest);
        tell_batch(alloc, schema, subscription, &rest[..n], &mut messages)?;
        from += n;
    }
    Ok(messages)
}
