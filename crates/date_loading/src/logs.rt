//! The log of one date.
ghost use Rattle.std.specs.Prelude.{◌≡◌, ◌≤ℤ◌, negsuc, List, None, IsTrue, IfOk, IfErr, OnOk};
ghost use Rattle.outside_api.specs.Disk.{IsSettled};
ghost use Rattle.gated_journal.specs.Format.{Reads};
ghost use Rattle.gated_journal.specs.Journal.{HasLastGate, Keeps};
ghost use Rattle.gated_journal.specs.Load.{KeepsImages};
ghost use Rattle.day_rows.specs.declared.schema.Shape.{Shape};
ghost use Rattle.tick_log.specs.Replay as replay;
ghost use Rattle.date_logs.specs.Restart.{LogHolds};
ghost use Rattle.date_logs.specs.Restart as restart;
ghost use Rattle.date_loading.specs.Loading.{ReadsAsBefore};
ghost use Rattle.date_loading.specs.Logs.{IsDayOn, IsLoadedLog};
ghost use Rattle.date_loading.specs.Refusals.{LogRefuses, LoadCounts};

use crate::refusal::LoadRefusal;
use date_logs::log_file;
use day_rows::{OpenDay, Schema};
use gated_journal::{Journal, JournalRefusal, Records};
use outside_api::Disk;
use std::alloc::Global;
use tick_log::{ReplayRefusal, Replayed, replay_into};

/// The log of a date, and the day of its updates.
#[derive(Drop)]
pub struct LoadedLog {
    /// The log.
    pub log: Journal,
    /// The day.
    pub day: OpenDay,
    /// The counts of its updates.
    pub counts: Replayed,
}

// Syncs and reads the log of a date.
fn journal_of<D: Disk>(
    alloc: Global,
    disk: &mut D,
    date: i32,
) -> Result<(Journal, Records), LoadRefusal>
    requires { negsuc 106751 ≤ℤ date }
    ensures file { IfOk result (λ x. x.0.file ≡ restart.log_file date) }
    ensures records { IfOk result (λ x. IsTrue (D.shown disk.old).tells
        → Reads ((D.shown disk.old).now (restart.log_file date)).bytes x.1) }
    ensures keeps { IfOk result (λ x. IsSettled ((D.shown disk.old).now (restart.log_file date))
        → Keeps (D.shown disk.new) x.0 x.1 None) }
    ensures gate { IfOk result (λ x. HasLastGate (D.shown disk.new) x.0) }
    ensures refused { IfErr result (λ why. (schema : List Shape) → LogRefuses (D.shown disk.old) schema date why) }
    ensures settled { OnOk result (IsTrue (D.shown disk.old).tells
        → IsSettled ((D.shown disk.old).now (restart.log_file date))
        → IsSettled ((D.shown disk.new).now (restart.log_file date))) }
    ensures bytes { IsTrue (D.shown disk.old).tells
        → ((D.shown disk.new).now (restart.log_file date)).bytes
        ≡ ((D.shown disk.old).now (restart.log_file date)).bytes }
    ensures any_moment { KeepsImages (D.shown disk.old) (D.shown disk.new) (restart.log_file date) }
    ensures counts { LoadCounts (D.shown disk.old) (D.shown disk.new) result }
{
    match Journal::load(alloc, disk, log_file(date)) {
        Ok(loaded) => Ok(loaded),
        Err(JournalRefusal::Corrupt { records, bytes }) => Err(LoadRefusal::CorruptLog {
            date,
            chunks: records,
            bytes,
        }),
        Err(JournalRefusal::DiskFault) => Err(LoadRefusal::DiskFault),
        Err(JournalRefusal::NoMemory) => Err(LoadRefusal::NoMemory),
    }
}

// The day of a log's records.
fn day_of(
    alloc: Global,
    schema: &Schema,
    date: i32,
    records: &Records,
) -> Result<(OpenDay, Replayed), ReplayRefusal>
    ensures day { IfOk result (λ x. IsDayOn schema.now date x.0 x.1) }
    ensures updates { IfOk result (λ x. replay.AreChunks schema.now 0 records.now x.0.day.updates) }
    ensures corrupt { replay.IfCorrupt result (λ chunks bytes. replay.NoChunkAt schema.now records.now chunks bytes) }
{
    let mut day = OpenDay::new(alloc, schema, date)?;
    let counts = replay_into(alloc, schema, records, &mut day)?;
    Ok((day, counts))
}

/// Syncs and reads the log of a date, and gives its journal and the day of its updates. Nothing is written. That a
/// crash keeps them is known only where no sync of the file had failed before.
pub fn load_log<D: Disk>(
    alloc: Global,
    disk: &mut D,
    schema: &Schema,
    date: i32,
) -> Result<LoadedLog, LoadRefusal>
    requires { negsuc 106751 ≤ℤ date }
    ensures file { IfOk result (λ x. x.log.file ≡ restart.log_file date) }
    ensures day { IfOk result (λ x. IsDayOn schema.now date x.day x.counts) }
    ensures read { IfOk result (λ x. IsTrue (D.shown disk.old).tells
        → LogHolds schema.now ((D.shown disk.old).now (restart.log_file date)).bytes x.day.day.updates) }
    ensures loaded { IfOk result (λ x. IsTrue (D.shown disk.old).tells
        → IsSettled ((D.shown disk.old).now (restart.log_file date))
        → IsLoadedLog schema.now (D.shown disk.new).now x.log x.day.day.updates) }
    ensures gate { IfOk result (λ x. HasLastGate (D.shown disk.new) x.log) }
    ensures refused { IfErr result (LogRefuses (D.shown disk.old) schema.now date) }
    ensures settled { OnOk result (IsTrue (D.shown disk.old).tells
        → IsSettled ((D.shown disk.old).now (restart.log_file date))
        → IsSettled ((D.shown disk.new).now (restart.log_file date))) }
    ensures bytes { IsTrue (D.shown disk.old).tells
        → ((D.shown disk.new).now (restart.log_file date)).bytes
        ≡ ((D.shown disk.old).now (restart.log_file date)).bytes }
    ensures any_moment { KeepsImages (D.shown disk.old) (D.shown disk.new) (restart.log_file date) }
    ensures counts { LoadCounts (D.shown disk.old) (D.shown disk.new) result }
{
    let (log, records) = journal_of(alloc, disk, date)?;
    match day_of(alloc, schema, date, &records) {
        Ok((day, counts)) => Ok(LoadedLog { log, day, counts }),
        Err(ReplayRefusal::Corrupt { chunks, bytes }) => Err(LoadRefusal::CorruptLog {
            date,
            chunks,
            bytes,
        }),
        Err(ReplayRefusal::NoMemory) => Err(LoadRefusal::NoMemory),
    }
}
