//! Loading, one date after the other.
ghost use Rattle.std.specs.Prelude.{◌≡◌, ◌<◌, ◌+◌, ◌^◌, ◌++◌, [], ◌∷◌, List, length, slice_get, Some, None};
ghost use Rattle.std.specs.Prelude.{IfOk, IfErr, IfSome, IfNone, OnErr};
ghost use Rattle.gated_journal.specs.declared.state.State.TheVariants as s;
ghost use Rattle.partition_set.specs.Records.{IsManifest};
ghost use Rattle.partition_set.specs.declared.record.ManifestRecord.TheVariants as m;
ghost use Rattle.date_logs.specs.Restart.{Dated};
ghost use Rattle.date_loading.specs.Loading.{IsUnderWay, IsBegun, IsNextDay, GoesOn, NextRefuses, dated, Read};
ghost use Rattle.date_loading.specs.Loading.{ReadsAsBefore, KeepsFiles, AreSettled, Loaded, HasGates, RestartsSo, FinishesAs};
ghost use Rattle.date_loading.specs.Manifests.{tables_of, last_date, IsNotAfter};
ghost use Rattle.date_loading.specs.Refusals.{OpenRefuses, LoadCounts};

use crate::logs::{LoadedLog, load_log};
use crate::refusal::LoadRefusal;
use crate::tables::judge_tables;
use date_logs::DateLogs;
use day_rows::{OpenDay, Schema};
use gated_journal::Journal;
use outside_api::Disk;
use partition_set::{Manifest, ManifestRecord};
use std::alloc::Global;
use std::marker::Model;
use tick_log::Replayed;

/// A date that was loaded.
#[derive(Drop)]
pub struct LoadedDay {
    /// The number of the pass that opened it.
    pub by: u64,
    /// The date, and its updates.
    pub day: OpenDay,
    /// How many updates it has, how many rows these have, and their greatest pass number.
    pub counts: Replayed,
}

/// A plant's logs, once all were loaded.
#[derive(Drop)]
pub enum Finished {
    /// The logs of a plant that has opened dates.
    Dated(DateLogs),
    /// The manifest of a plant that has opened none.
    Undated(Manifest),
}

/// A load that is under way: the manifest, and which of its dates were loaded.
#[derive(Drop)]
pub struct Loading {
    // The manifest.
    manifest: Manifest,
    // The number of its records that were loaded: the tables and some dates.
    next: usize,
    // The log of the last date that was loaded.
    log: Option<Journal>,
}

impl Model for Loading {
    ghost use Rattle.date_loading.specs.Loading.{LoadingView, IsUnderWay};

    ghost Value = { LoadingView };

    ghost view = { λ l. record { manifest = l.manifest; next = l.next; log = l.log } };

    ghost invariant = { λ l. IsUnderWay (record { manifest = l.manifest; next = l.next; log = l.log }) };
}

// The date that was opened last.
fn last_opened(records: &[ManifestRecord]) -> Option<i32>
    requires { IsManifest records.now }
    ensures { result ≡ last_date records.now }
{
    match records.last() {
        Some(ManifestRecord::Opened { date, .. }) => Some(*date),
        Some(ManifestRecord::Shape(_shape)) => None,
        None => None,
    }
}

impl Loading {
    ghost use Rattle.date_loading.specs.Loading.{LoadingView};

    /// Begins to load a plant: syncs and reads its manifest, and judges its tables and dates. Nothing is written.
    ///
    /// The schema is the one that the plant was made with, and the date is that on which it is to go on. The
    /// answer is, in this order, `BadManifest` exactly where file 0 is no manifest; `SchemaDiffers` exactly where
    /// its tables aren't the schema's; `EarlierDate` exactly where it has opened a later date.
    pub fn open<D: Disk>(
        alloc: Global,
        disk: &mut D,
        schema: &Schema,
        date: i32,
    ) -> Result<Loading, LoadRefusal>
        ensures begun { IfOk result (IsBegun schema.now) }
        ensures not_after { IfOk result (λ x. IsNotAfter (last_date x.manifest.records) date) }
        ensures refused { IfErr result (OpenRefuses (D.shown disk.old) schema.now date) }
        ensures under_way { IfOk result IsUnderWay }
        ensures clean { IfOk result (λ x. x.manifest.journal.state ≡ s.Clean) }

        // What the files give, and what they give in each image where no sync of one has failed before.
        ensures read { IfOk result (λ x. Read (D.shown disk.new) x schema.now []) }
        ensures loaded { IfOk result (λ x. AreSettled (D.shown disk.old) → Loaded (D.shown disk.new) x schema.now []) }
        ensures gates { IfOk result (HasGates (D.shown disk.new)) }
        ensures bytes { ReadsAsBefore (D.shown disk.old) (D.shown disk.new) }
        ensures any_moment { KeepsFiles (D.shown disk.old) (D.shown disk.new) }
        ensures counts { LoadCounts (D.shown disk.old) (D.shown disk.new) result }
    {
        let manifest = Manifest::load(alloc, disk)?;
        judge_tables(alloc, manifest.records(), schema)?;
        if let Some(kept) = last_opened(manifest.records()) {
            if date < kept {
                return Err(LoadRefusal::EarlierDate { kept });
            }
        }
        Ok(Loading::begin(manifest, schema.len()))
    }

    // Begins with a manifest: its first records are this many tables, and the others dates.
    fn begin(manifest: Manifest, tables: usize) -> Loading
        requires lawful { IsManifest manifest.records }
        requires file { manifest.journal.file ≡ 0 }
        requires tables { tables ≡ length (tables_of manifest.records) }
        ensures { result ≡ record { manifest = manifest; next = tables; log = None } }
    {
        Loading {
            manifest,
            next: tables,
            log: None,
        }
    }

    /// Loads the next date, or nothing where each was loaded: syncs and reads its log, and gives the day of its
    /// updates. Nothing is written. Beside the day the log's bytes and the columns of one update are in memory.
    ///
    /// The answer is `CorruptLog` exactly where the log's file is no journal, with the number of records before its
    /// first fault, or where a record is no chunk, with the number of chunks before it; each with its offset in the
    /// file. After an error the same date comes next.
    pub fn next_day<D: Disk>(
        &mut self,
        alloc: Global,
        disk: &mut D,
        schema: &Schema,
    ) -> Result<Option<LoadedDay>, LoadRefusal>
        ensures day { IfOk result (λ found. IfSome found (IsNextDay self.old schema.now)) }
        ensures goes_on { IfOk result (GoesOn (D.shown disk.old) (D.shown disk.new) self.old self.new) }
        ensures unchanged { OnErr result (self.new ≡ self.old) }
        ensures refused { IfErr result (NextRefuses (D.shown disk.old) self.old schema.now) }
        ensures under_way { IsUnderWay self.new }

        // One date more was read; and is in each image, where no sync has failed before.
        ensures read { IfOk result (λ found. IfSome found (λ x. (dates : List Dated)
            → Read (D.shown disk.old) self.old schema.now dates
            → Read (D.shown disk.new) self.new schema.now (dates ++ dated x ∷ []))) }
        ensures loaded { IfOk result (λ found. IfSome found (λ x. (dates : List Dated)
            → Loaded (D.shown disk.old) self.old schema.now dates
            → Loaded (D.shown disk.new) self.new schema.now (dates ++ dated x ∷ []))) }
        ensures gates { IfOk result (λ _. HasGates (D.shown disk.old) self.old → HasGates (D.shown disk.new) self.new) }
        ensures bytes { ReadsAsBefore (D.shown disk.old) (D.shown disk.new) }
        ensures any_moment { KeepsFiles (D.shown disk.old) (D.shown disk.new) }
        ensures counts { LoadCounts (D.shown disk.old) (D.shown disk.new) result }
    {
        let Some((by, date)) = self.coming() else {
            return Ok(None);
        };
        let LoadedLog { log, day, counts } = load_log(alloc, disk, schema, date)?;
        self.log = Some(log);
        self.next += 1;
        Ok(Some(LoadedDay { by, day, counts }))
    }

    // The next date after the pass that opened it, if one is left.
    fn coming(&self) -> Option<(u64, i32)>
        ensures found { IfSome result (λ x. slice_get self.now.manifest.records self.now.next
            ≡ Some (m.Opened x.0 x.1)) }
        ensures none { IfNone result (self.now.next ≡ length self.now.manifest.records) }
        ensures small { IfSome result (λ _. self.now.next + 1 < 2 ^ 64) }
        ensures under_way { IsUnderWay self.now }
    {
        match self.manifest.records().get(self.next) {
            Some(ManifestRecord::Opened { by, date }) => Some((*by, *date)),
            Some(ManifestRecord::Shape(_shape)) => unreachable!(),
            None => None,
        }
    }

    /// The logs, once each date was loaded; or the manifest, where no date was opened.
    pub fn finish(self) -> Finished
        requires { self.next ≡ length self.manifest.records }
        ensures finished { FinishesAs self result }
        ensures restarts { RestartsSo self }
    {
        let Loading {
            manifest,
            next: _next,
            log,
        } = self;
        match log {
            Some(log) => Finished::Dated(DateLogs::from_parts(manifest, log)),
            None => Finished::Undated(manifest),
        }
    }
}
