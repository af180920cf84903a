//! The manifest and the open date's log.
ghost use Rattle.std.specs.Prelude.{◌≡◌, true, ◌≢◌, ◌<◌, ◌↔◌, ◌⊎◌, ◌++◌, [], ◌∷◌, List, map, Option, Some, None, ℕ, ℤ, IsTrue, length, IfOk, OnOk, OnErr};
ghost use Rattle.outside_api.specs.Disk.{Counts};
ghost use Rattle.day_rows.specs.declared.entry.Entry.{Entry};
ghost use Rattle.day_rows.specs.declared.entry.Entry.TheVariants as e;
ghost use Rattle.day_rows.specs.declared.schema.Shape.{Shape};
ghost use Rattle.gated_journal.specs.declared.state.State.TheVariants as s;
ghost use Rattle.tick_log.specs.Chunk.{IsChunk};
ghost use Rattle.partition_set.specs.Manifest as partition;
ghost use Rattle.partition_set.specs.Records.{IsManifest};
ghost use Rattle.partition_set.specs.declared.record.ManifestRecord.{ManifestRecord};
ghost use Rattle.partition_set.specs.declared.record.ManifestRecord.TheVariants as m;
ghost use Rattle.date_logs.specs.Moments.{Throughout, RestartsAs, RestartsEither};
ghost use Rattle.date_logs.specs.Restart.{open_rows};
ghost use Rattle.date_logs.specs.Restart as restart;
ghost use Rattle.date_logs.specs.Stores.{IsReady, IsWhole, Stores, Leaves, left_of, without_update, without_roll};
ghost use Rattle.gated_journal.specs.Journal.{Keeps, HasLastGate};

use crate::file::log_file;
use gated_journal::{Journal, Payload};
use outside_api::{Disk, DiskFault};
use partition_set::{Manifest, ManifestRecord};
use q_values::NoMemory;
use std::marker::Model;

/// The entries of a plant on its disk: the manifest, and the log of the date that it opened last.
///
/// Each call is given the disk, and nobody else may write its files. `Stores` says which entries they hold, and which late
/// entry may count beside them after a call that failed. `IsReady` is what each call requires.
#[derive(Drop)]
pub struct DateLogs {
    // Which tables there are, and which dates were opened.
    manifest: Manifest,
    // The log of the last of these dates.
    log: Journal,
}

impl Model for DateLogs {
    ghost use Rattle.date_logs.specs.Stores.{DateLogsView, IsWhole};

    ghost Value = { DateLogsView };

    ghost view = { λ x. record { manifest = x.manifest; log = x.log } };

    ghost invariant = { λ x. IsWhole (record { manifest = x.manifest; log = x.log }) };
}

impl DateLogs {
    ghost use Rattle.date_logs.specs.Stores.{DateLogsView};

    /// Opens the first date of a plant: makes its log, and then adds it to the manifest. It takes no memory.
    ///
    /// A crash within this call leaves a plant without dates, or with this one, and no entries.
    pub fn begin<D: Disk>(
        mut manifest: Manifest,
        disk: &mut D,
        by: u64,
        date: i32,
    ) -> Result<DateLogs, DiskFault>
        requires file { manifest.journal.file ≡ 0 }
        requires clean { manifest.journal.state ≡ s.Clean }
        requires room { 0 < manifest.room }
        requires allowed { IsManifest (manifest.records ++ m.Opened by date ∷ []) }
        requires gate { HasLastGate (D.shown disk.old) manifest.journal }
        ensures stored { IfOk result (λ x. (schema : List Shape) → manifest.records ≡ map m.Shape schema
            → partition.Keeps (D.shown disk.old) manifest None → Stores (D.shown disk.new) x schema date [] None) }
        ensures any_moment { (schema : List Shape) → manifest.records ≡ map m.Shape schema
            → partition.Keeps (D.shown disk.old) manifest None → IsTrue (D.shown disk.old).tells
            → Throughout (D.shown disk.old) (D.shown disk.new) (RestartsAs schema date [] None) }
        ensures ready { IfOk result (λ x. IsReady (D.shown disk.new) x) }
        ensures records { IfOk result (λ x. x.manifest.records ≡ manifest.records ++ m.Opened by date ∷ []) }
        ensures counts { Counts (D.shown disk.old) (D.shown disk.new) result }
    {
        let log = Journal::fresh(disk, log_file(date))?;
        manifest.opened(disk, by, date)?;
        Ok(DateLogs { manifest, log })
    }

    /// The manifest and the journal of the date that it opened last, as one.
    pub fn from_parts(manifest: Manifest, log: Journal) -> DateLogs
        requires { IsWhole (record { manifest = manifest; log = log }) }
        ensures { result ≡ record { manifest = manifest; log = log } }
    {
        DateLogs { manifest, log }
    }

    /// Whether the last call succeeded. Otherwise the next one repairs first.
    pub fn is_clean(&self) -> bool
        ensures { (result ≡ true) ↔ ((self.now.log.state ≡ s.Clean) × (self.now.manifest.journal.state ≡ s.Clean)) }
    {
        self.log.is_clean() && self.manifest.is_clean()
    }

    /// Whether the pass may open this date next: the pass has a number, and the date is later than the open one and within
    /// those that a plant may have.
    pub fn may_open(&self, by: u64, date: i32) -> bool
        ensures { (result ≡ true) ↔ IsManifest (self.now.manifest.records ++ m.Opened by date ∷ []) }
    {
        self.manifest.may_open(by, date)
    }

    /// The open date, in days since 2000.01.01.
    pub fn date(&self) -> i32
        ensures { (front : List ManifestRecord) × (by : ℕ) × (self.now.manifest.records ≡ front ++ m.Opened by result ∷ []) }
    {
        match self.manifest.records() {
            [.., ManifestRecord::Opened { by: _by, date }] => *date,
            _ => unreachable!(),
        }
    }

    /// Makes room for one date more. A refused call changes nothing.
    pub fn reserve(&mut self) -> Result<(), NoMemory>
        ensures room { OnOk result (0 < self.new.manifest.room) }
        ensures records { self.new.manifest.records ≡ self.old.manifest.records }
        ensures journal { self.new.manifest.journal ≡ self.old.manifest.journal }
        ensures log { self.new.log ≡ self.old.log }
    {
        self.manifest.reserve()
    }

    /// Adds an update, given as its chunk, to the open date's log. It takes no memory.
    ///
    /// The logs are repaired first where they aren't clean. After a fault the entries are as before, and the logs aren't clean;
    /// the update may count until they are repaired.
    pub fn append<D: Disk>(&mut self, disk: &mut D, chunk: &Payload) -> Result<(), DiskFault>
        requires some { 0 < length chunk.now.bytes }
        requires ready { IsReady (D.shown disk.old) self.old }

        ensures added { OnOk result ((schema : List Shape) (first : ℤ) (entries : List Entry) (late : Option Entry) (entry : Entry)
            → Stores (D.shown disk.old) self.old schema first entries late → IsChunk schema (open_rows entries) chunk.now.bytes entry
            → Stores (D.shown disk.new) self.new schema first (entries ++ entry ∷ []) None) }
        ensures failed { OnErr result ((schema : List Shape) (first : ℤ) (entries : List Entry) (late : Option Entry) (entry : Entry)
            → Stores (D.shown disk.old) self.old schema first entries late → IsChunk schema (open_rows entries) chunk.now.bytes entry
            → Leaves (D.shown disk.new) self.new schema first entries late entry) }

        // At each moment of the call a plant would restart as before it, or with the new entry.
        ensures any_moment { (schema : List Shape) (first : ℤ) (entries : List Entry) (late : Option Entry) (entry : Entry)
            → Stores (D.shown disk.old) self.old schema first entries late → IsChunk schema (open_rows entries) chunk.now.bytes entry
            → IsTrue (D.shown disk.old).tells
            → Throughout (D.shown disk.old) (D.shown disk.new) (RestartsEither schema first entries late (Some entry)) }

        ensures ready { IsReady (D.shown disk.new) self.new }
        ensures records { self.new.manifest.records ≡ self.old.manifest.records }
        ensures room { self.new.manifest.room ≡ self.old.manifest.room }
        ensures counts { Counts (D.shown disk.old) (D.shown disk.new) result }
    {
        self.mend(disk)?;
        self.append_clean(disk, chunk)
    }

    /// Ends the open date, and opens a later one: makes its log, and then adds it to the manifest. It takes no memory.
    ///
    /// The logs are repaired first where they aren't clean. After a fault the entries are as before, and the logs aren't clean
    /// or the date's log wasn't made; the roll may count until they are repaired.
    pub fn roll<D: Disk>(&mut self, disk: &mut D, by: u64, date: i32) -> Result<(), DiskFault>
        requires room { 0 < self.old.manifest.room }
        requires allowed { IsManifest (self.old.manifest.records ++ m.Opened by date ∷ []) }
        requires ready { IsReady (D.shown disk.old) self.old }

        ensures added { OnOk result ((schema : List Shape) (first : ℤ) (entries : List Entry) (late : Option Entry)
            → Stores (D.shown disk.old) self.old schema first entries late
            → Stores (D.shown disk.new) self.new schema first (entries ++ e.Roll by date ∷ []) None) }
        ensures failed { OnErr result ((schema : List Shape) (first : ℤ) (entries : List Entry) (late : Option Entry)
            → Stores (D.shown disk.old) self.old schema first entries late
            → Leaves (D.shown disk.new) self.new schema first entries late (e.Roll by date)) }

        // At each moment of the call a plant would restart as before it, or with the roll.
        ensures any_moment { (schema : List Shape) (first : ℤ) (entries : List Entry) (late : Option Entry)
            → Stores (D.shown disk.old) self.old schema first entries late → IsTrue (D.shown disk.old).tells
            → Throughout (D.shown disk.old) (D.shown disk.new) (RestartsEither schema first entries late (Some (e.Roll by date))) }

        ensures ready { IsReady (D.shown disk.new) self.new }
        ensures opened { OnOk result (self.new.manifest.records ≡ self.old.manifest.records ++ m.Opened by date ∷ []) }
        ensures records { OnErr result (self.new.manifest.records ≡ self.old.manifest.records) }
        ensures room { OnErr result (self.new.manifest.room ≡ self.old.manifest.room) }
        ensures counts { Counts (D.shown disk.old) (D.shown disk.new) result }
    {
        self.mend(disk)?;
        let log = Journal::fresh(disk, log_file(date))?;
        self.open_date(disk, log, by, date)
    }

    // Repairs what isn't clean.
    fn mend<D: Disk>(&mut self, disk: &mut D) -> Result<(), DiskFault>
        requires { IsReady (D.shown disk.old) self.old }
        ensures mended { OnOk result ((schema : List Shape) (first : ℤ) (entries : List Entry) (late : Option Entry)
            → Stores (D.shown disk.old) self.old schema first entries late → Stores (D.shown disk.new) self.new schema first entries None) }
        ensures failed { OnErr result ((schema : List Shape) (first : ℤ) (entries : List Entry) (late : Option Entry)
            → Stores (D.shown disk.old) self.old schema first entries late
            → Stores (D.shown disk.new) self.new schema first entries late ⊎ Stores (D.shown disk.new) self.new schema first entries None) }
        ensures any_moment { (schema : List Shape) (first : ℤ) (entries : List Entry) (late : Option Entry)
            → Stores (D.shown disk.old) self.old schema first entries late → IsTrue (D.shown disk.old).tells
            → Throughout (D.shown disk.old) (D.shown disk.new) (RestartsAs schema first entries late) }
        ensures ready { IsReady (D.shown disk.new) self.new }
        ensures whole { IsWhole self.new }
        ensures log { self.new.log.file ≡ self.old.log.file }
        ensures clean_log { OnOk result (self.new.log.state ≡ s.Clean) }
        ensures clean_manifest { OnOk result (self.new.manifest.journal.state ≡ s.Clean) }
        ensures records { self.new.manifest.records ≡ self.old.manifest.records }
        ensures room { self.new.manifest.room ≡ self.old.manifest.room }
        ensures counts { Counts (D.shown disk.old) (D.shown disk.new) result }
    {
        self.mend_log(disk)?;
        self.mend_manifest(disk)
    }

    // Repairs the log.
    fn mend_log<D: Disk>(&mut self, disk: &mut D) -> Result<(), DiskFault>
        requires { IsReady (D.shown disk.old) self.old }
        ensures mended { OnOk result ((schema : List Shape) (first : ℤ) (entries : List Entry) (late : Option Entry)
            → Stores (D.shown disk.old) self.old schema first entries late
            → Stores (D.shown disk.new) self.new schema first entries (without_update late)) }
        ensures failed { OnErr result ((schema : List Shape) (first : ℤ) (entries : List Entry) (late : Option Entry)
            → Stores (D.shown disk.old) self.old schema first entries late → Stores (D.shown disk.new) self.new schema first entries late) }
        ensures any_moment { (schema : List Shape) (first : ℤ) (entries : List Entry) (late : Option Entry)
            → Stores (D.shown disk.old) self.old schema first entries late → IsTrue (D.shown disk.old).tells
            → Throughout (D.shown disk.old) (D.shown disk.new) (RestartsAs schema first entries late) }
        ensures ready { IsReady (D.shown disk.new) self.new }
        ensures whole { IsWhole self.new }
        ensures log { self.new.log.file ≡ self.old.log.file }
        ensures clean { OnOk result (self.new.log.state ≡ s.Clean) }
        ensures manifest { self.new.manifest ≡ self.old.manifest }
        ensures counts { Counts (D.shown disk.old) (D.shown disk.new) result }
    {
        if self.log.is_clean() {
            return Ok(());
        }
        self.log.mend(disk)
    }

    // Repairs the manifest.
    fn mend_manifest<D: Disk>(&mut self, disk: &mut D) -> Result<(), DiskFault>
        requires { IsReady (D.shown disk.old) self.old }
        ensures mended { OnOk result ((schema : List Shape) (first : ℤ) (entries : List Entry) (late : Option Entry)
            → Stores (D.shown disk.old) self.old schema first entries late
            → Stores (D.shown disk.new) self.new schema first entries (without_roll late)) }
        ensures failed { OnErr result ((schema : List Shape) (first : ℤ) (entries : List Entry) (late : Option Entry)
            → Stores (D.shown disk.old) self.old schema first entries late → Stores (D.shown disk.new) self.new schema first entries late) }
        ensures any_moment { (schema : List Shape) (first : ℤ) (entries : List Entry) (late : Option Entry)
            → Stores (D.shown disk.old) self.old schema first entries late → IsTrue (D.shown disk.old).tells
            → Throughout (D.shown disk.old) (D.shown disk.new) (RestartsAs schema first entries late) }
        ensures ready { IsReady (D.shown disk.new) self.new }
        ensures whole { IsWhole self.new }
        ensures log { self.new.log ≡ self.old.log }
        ensures clean { OnOk result (self.new.manifest.journal.state ≡ s.Clean) }
        ensures records { self.new.manifest.records ≡ self.old.manifest.records }
        ensures room { self.new.manifest.room ≡ self.old.manifest.room }
        ensures counts { Counts (D.shown disk.old) (D.shown disk.new) result }
    {
        if self.manifest.is_clean() {
            return Ok(());
        }
        self.manifest.mend(disk)
    }

    // Adds an update to a clean log.
    fn append_clean<D: Disk>(&mut self, disk: &mut D, chunk: &Payload) -> Result<(), DiskFault>
        requires clean { self.old.log.state ≡ s.Clean }
        requires some { 0 < length chunk.now.bytes }
        requires ready { IsReady (D.shown disk.old) self.old }
        ensures added { OnOk result ((schema : List Shape) (first : ℤ) (entries : List Entry) (entry : Entry)
            → Stores (D.shown disk.old) self.old schema first entries None → IsChunk schema (open_rows entries) chunk.now.bytes entry
            → Stores (D.shown disk.new) self.new schema first (entries ++ entry ∷ []) None) }
        ensures failed { OnErr result ((schema : List Shape) (first : ℤ) (entries : List Entry) (entry : Entry)
            → Stores (D.shown disk.old) self.old schema first entries None → IsChunk schema (open_rows entries) chunk.now.bytes entry
            → Stores (D.shown disk.new) self.new schema first entries (left_of self.new.log.state entry)) }
        ensures any_moment { (schema : List Shape) (first : ℤ) (entries : List Entry) (entry : Entry)
            → Stores (D.shown disk.old) self.old schema first entries None → IsChunk schema (open_rows entries) chunk.now.bytes entry
            → IsTrue (D.shown disk.old).tells
            → Throughout (D.shown disk.old) (D.shown disk.new) (RestartsAs schema first entries (Some entry)) }
        ensures ready { IsReady (D.shown disk.new) self.new }
        ensures manifest { self.new.manifest ≡ self.old.manifest }
        ensures counts { Counts (D.shown disk.old) (D.shown disk.new) result }
    {
        self.log.append(disk, chunk)
    }

    // Opens a date whose log was made, on a clean manifest.
    fn open_date<D: Disk>(
        &mut self,
        disk: &mut D,
        log: Journal,
        by: u64,
        date: i32,
    ) -> Result<(), DiskFault>
        requires clean { self.old.manifest.journal.state ≡ s.Clean }
        requires room { 0 < self.old.manifest.room }
        requires allowed { IsManifest (self.old.manifest.records ++ m.Opened by date ∷ []) }
        requires ready { IsReady (D.shown disk.old) self.old }
        requires file { log.file ≡ restart.log_file date }
        requires empty { Keeps (D.shown disk.old) log [] None }
        requires gate { HasLastGate (D.shown disk.old) log }
        ensures added { OnOk result ((schema : List Shape) (first : ℤ) (entries : List Entry)
            → Stores (D.shown disk.old) self.old schema first entries None
            → Stores (D.shown disk.new) self.new schema first (entries ++ e.Roll by date ∷ []) None) }
        ensures failed { OnErr result ((schema : List Shape) (first : ℤ) (entries : List Entry)
            → Stores (D.shown disk.old) self.old schema first entries None
            → Stores (D.shown disk.new) self.new schema first entries (left_of self.new.manifest.journal.state (e.Roll by date))) }
        ensures any_moment { (schema : List Shape) (first : ℤ) (entries : List Entry)
            → Stores (D.shown disk.old) self.old schema first entries None → IsTrue (D.shown disk.old).tells
            → Throughout (D.shown disk.old) (D.shown disk.new) (RestartsAs schema first entries (Some (e.Roll by date))) }
        ensures ready { IsReady (D.shown disk.new) self.new }
        ensures opened { OnOk result (self.new.manifest.records ≡ self.old.manifest.records ++ m.Opened by date ∷ []) }
        ensures records { OnErr result (self.new.manifest.records ≡ self.old.manifest.records) }
        ensures room { OnErr result (self.new.manifest.room ≡ self.old.manifest.room) }
        ensures counts { Counts (D.shown disk.old) (D.shown disk.new) result }
    {
        self.manifest.opened(disk, by, date)?;
        self.log = log;
        Ok(())
    }
}
