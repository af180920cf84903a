//! Loading a plant from its disk.
ghost use Rattle.std.specs.Prelude.{◌≡◌, ◌≢◌, ◌<◌, ◌+◌, ◌^◌, ◌≤ℤ◌, ◌<ℤ◌, ◌∷◌, ◌++◌, [], negsuc, pos, length, IsTrue};
ghost use Rattle.std.specs.Prelude.{None, ℕ, List, IfOk, IfErr, OnOk, map, ℤ, false};
ghost use Rattle.std.specs.List.{AllByRecursion};
ghost use Rattle.outside_api.specs.Disk.{IsImage};
ghost use Rattle.q_values.specs.Limits.{AreLimits};
ghost use Rattle.day_rows.specs.Chronicle.{date_of};
ghost use Rattle.day_rows.specs.Day.{IsUpdate};
ghost use Rattle.day_rows.specs.declared.entry.Entry.{Entry};
ghost use Rattle.date_loading.specs.Loading.{AreSettled, IsBegun};
ghost use Rattle.date_logs.specs.Format.{IsMadeFrom, IfMade, FormatCounts};
ghost use Rattle.date_logs.specs.Moments.{RestartsFrom};
ghost use Rattle.gated_journal.specs.Format.{Reads};
ghost use Rattle.date_loading.specs.Logs.{IsDayOn};
ghost use Rattle.date_loading.specs.Refusals.{LoadCounts};
ghost use Rattle.partition_set.specs.Records.{IsRecord, payloads_of};
ghost use Rattle.partition_set.specs.declared.record.ManifestRecord.TheVariants as m;
ghost use Rattle.plant_memory.specs.Chronicle.{top_by};
ghost use Rattle.plant_core.specs.Load.{IsLoaded, LoadRefuses, CountsNothing, RefusalCounts, LeavesFiles};
ghost use Rattle.plant_core.specs.Load as load;
ghost use Rattle.plant_core.specs.Plant.{StoresLog, shown_by};
ghost use Rattle.plant_core.specs.Progress.{HasRead, IsLoading, IsWhole, IsReadPlant, IsFree};

use crate::plant::Plant;
use date_loading::{Finished, LoadRefusal, LoadedDay, Loading};
use date_logs::{DateLogs, FormatRefusal};
use day_rows::Schema;
use outside_api::Disk;
use plant_memory::Memory;
use q_values::{Limits, NoMemory};
use std::alloc::Global;
use std::snapshot::Snapshot;

// The number of updates from which on a day isn't taken over. No log reaches it.
const LONGEST_DAY: u64 = 9_223_372_036_854_775_807;

/// A load that was refused. The disk comes back.
#[derive(Drop)]
pub struct LoadFailure<D> {
    /// The disk that was given.
    pub disk: D,
    /// Why it isn't loaded.
    pub why: LoadRefusal,
}

// A memory that begins with this day.
fn first_day(
    alloc: Global,
    schema: Schema,
    limits: &Limits,
    found: LoadedDay,
) -> Result<Memory, NoMemory>
    requires limits { AreLimits limits.now }
    requires own { IsRecord (m.Opened found.by found.day.day.date) }
    requires day { IsDayOn schema found.day.day.date found.day found.counts }
    ensures frame { IfOk result (λ memory. memory.frame ≡ record { schema = schema; first = found.day.day.date; limits = limits.now }) }
    ensures entries { IfOk result (λ memory. memory.entries ≡ found.day.day.updates) }
    ensures updates { OnOk result (AllByRecursion (IsUpdate found.day.day.kinds) found.day.day.updates) }
{
    let LoadedDay {
        by: _by,
        day,
        counts,
    } = found;
    let mut memory = Memory::begin(alloc, schema, day.date(), limits)?;
    memory.adopt(day, counts.updates, counts.rows, counts.top_by);
    Ok(memory)
}

// Opens a day that was read, and takes its updates over.
fn add_day(alloc: Global, memory: &mut Memory, found: LoadedDay) -> Result<(), NoMemory>
    requires later { date_of memory.old.frame.first memory.old.entries <ℤ found.day.day.date }
    requires own { IsRecord (m.Opened found.by found.day.day.date) }
    requires day { IsDayOn memory.old.frame.schema found.day.day.date found.day found.counts }
    ensures frame { OnOk result (memory.new.frame ≡ memory.old.frame) }
    ensures entries { OnOk result (memory.new.entries
        ≡ (memory.old.entries ++ Entry.Roll found.by found.day.day.date ∷ []) ++ found.day.day.updates) }
    ensures updates { OnOk result (AllByRecursion (IsUpdate found.day.day.kinds) found.day.day.updates) }
{
    let LoadedDay { by, day, counts } = found;
    if counts.updates >= LONGEST_DAY {
        return Err(NoMemory);
    }
    let roll = memory.prepare_roll(alloc, by, day.date())?;
    let _early = roll.by();
    memory.commit_roll(roll);
    memory.adopt(day, counts.updates, counts.rows, counts.top_by);
    Ok(())
}

// Opens this date by pass 0, where it is later than the open one.
fn roll_to<D: Disk>(
    alloc: Global,
    _origin: &Snapshot<D>,
    disk: &mut D,
    mut memory: Memory,
    mut logs: DateLogs,
    date: i32,
) -> Result<(Memory, DateLogs), LoadRefusal>
    requires last { date ≤ℤ pos 106751 }
    requires whole { IsWhole (D.shown _origin.now.value) (D.shown disk.old) memory logs }
    ensures whole { IfOk result (λ x. IsWhole (D.shown _origin.now.value) (D.shown disk.new) x.0 x.1) }
    ensures frame { IfOk result (λ x. x.0.frame ≡ memory.frame) }
    ensures entries { IfOk result (λ x. x.0.entries ≡ memory.entries ++ load.roll_to (date_of memory.frame.first memory.entries) date) }
    ensures refused { IfErr result IsFree }
    ensures unchanged { IfErr result (LeavesFiles (D.shown disk.old) (D.shown disk.new)) }
    ensures counts { LoadCounts (D.shown disk.old) (D.shown disk.new) result }
{
    if memory.date() >= date {
        return Ok((memory, logs));
    }
    let Ok(()) = logs.reserve() else {
        return Err(LoadRefusal::NoMemory);
    };
    let Ok(roll) = memory.prepare_roll(alloc, 0, date) else {
        return Err(LoadRefusal::NoMemory);
    };
    match logs.roll(disk, 0, date) {
        Ok(()) => {
            memory.commit_roll(roll);
            Ok((memory, logs))
        }
        Err(_) => Err(LoadRefusal::DiskFault),
    }
}

// Ends the load of a plant that has opened dates.
fn finish<D: Disk>(
    alloc: Global,
    origin: &Snapshot<D>,
    disk: &mut D,
    loading: Loading,
    memory: Memory,
    date: i32,
) -> Result<(Memory, DateLogs), LoadRefusal>
    requires last { date ≤ℤ pos 106751 }
    requires all { loading.next ≡ length loading.manifest.records }
    requires loading { IsLoading (D.shown origin.now.value) (D.shown disk.old) date loading memory }
    ensures read { IfOk result (λ x. IsReadPlant (D.shown origin.now.value) (D.shown disk.new) date x.0 x.1) }
    ensures numbers { IfOk result (λ x. top_by x.0.entries + 2 < 2 ^ 64) }
    ensures frame { IfOk result (λ x. x.0.frame ≡ memory.frame) }
    ensures refused { IfErr result (LoadRefuses (D.shown origin.now.value) memory.frame.schema date) }
    ensures unchanged { IfErr result (LeavesFiles (D.shown origin.now.value) (D.shown disk.new)) }
    ensures counts { LoadCounts (D.shown disk.old) (D.shown disk.new) result }
{
    gated_journal::reads_in_one_way();
    match loading.finish() {
        Finished::Dated(logs) => {
            if memory.next_by() == u64::MAX {
                return Err(LoadRefusal::NumbersSpent);
            }
            roll_to(alloc, origin, disk, memory, logs, date)
        }
        Finished::Undated(_manifest) => unreachable!(),
    }
}

// Ends the load of a plant that has opened no date: opens this one.
fn begin<D: Disk>(
    alloc: Global,
    origin: &Snapshot<D>,
    disk: &mut D,
    loading: Loading,
    schema: Schema,
    date: i32,
    limits: &Limits,
) -> Result<(Memory, DateLogs), LoadRefusal>
    requires limits { AreLimits limits.now }
    requires first { negsuc 106751 ≤ℤ date }
    requires last { date ≤ℤ pos 106751 }
    requires all { loading.next ≡ length loading.manifest.records }
    requires begun { IsBegun schema loading }
    requires read { HasRead (D.shown origin.now.value) (D.shown disk.old) date loading schema [] }
    ensures read { IfOk result (λ x. IsReadPlant (D.shown origin.now.value) (D.shown disk.new) date x.0 x.1) }
    ensures numbers { IfOk result (λ x. top_by x.0.entries + 2 < 2 ^ 64) }
    ensures frame { IfOk result (λ x. x.0.frame ≡ record { schema = schema; first = date; limits = limits.now }) }
    ensures refused { IfErr result IsFree }
    ensures unchanged { IfErr result (LeavesFiles (D.shown origin.now.value) (D.shown disk.new)) }
    ensures counts { LoadCounts (D.shown disk.old) (D.shown disk.new) result }
{
    let Finished::Undated(mut manifest) = loading.finish() else {
        unreachable!();
    };
    manifest.reserve()?;
    let memory = Memory::begin(alloc, schema, date, limits)?;
    match DateLogs::begin(manifest, disk, 0, date) {
        Ok(logs) => Ok((memory, logs)),
        Err(_) => Err(LoadRefusal::DiskFault),
    }
}

// Reads the next date into the memory, if one is left, and answers whether one was.
fn read_next<D: Disk>(
    alloc: Global,
    _origin: &Snapshot<D>,
    disk: &mut D,
    _date: i32,
    loading: &mut Loading,
    memory: &mut Memory,
) -> Result<bool, LoadRefusal>
    requires { IsLoading (D.shown _origin.now.value) (D.shown disk.old) _date loading.old memory.old }
    ensures loading { IfOk result (λ _. IsLoading (D.shown _origin.now.value) (D.shown disk.new) _date loading.new memory.new) }
    ensures all { IfOk result (λ more. more ≡ false → loading.new.next ≡ length loading.new.manifest.records) }
    ensures frame { IfOk result (λ _. memory.new.frame ≡ memory.old.frame) }
    ensures refused { IfErr result (LoadRefuses (D.shown _origin.now.value) memory.old.frame.schema _date) }
    ensures unchanged { IfErr result (LeavesFiles (D.shown _origin.now.value) (D.shown disk.new)) }
    ensures counts { LoadCounts (D.shown disk.old) (D.shown disk.new) result }
{
    match loading.next_day(alloc, disk, memory.schema()) {
        Ok(Some(found)) => match add_day(alloc, memory, found) {
            Ok(()) => Ok(true),
            Err(_) => Err(LoadRefusal::NoMemory),
        },
        Ok(None) => Ok(false),
        Err(why) => Err(why),
    }
}

// Reads the dates that are left into the memory.
fn read_days<D: Disk>(
    alloc: Global,
    origin: &Snapshot<D>,
    disk: &mut D,
    date: i32,
    loading: &mut Loading,
    memory: &mut Memory,
) -> Result<(), LoadRefusal>
    requires { IsLoading (D.shown origin.now.value) (D.shown disk.old) date loading.old memory.old }
    ensures loading { OnOk result (IsLoading (D.shown origin.now.value) (D.shown disk.new) date loading.new memory.new) }
    ensures all { OnOk result (loading.new.next ≡ length loading.new.manifest.records) }
    ensures frame { OnOk result (memory.new.frame ≡ memory.old.frame) }
    ensures refused { IfErr result (LoadRefuses (D.shown origin.now.value) memory.old.frame.schema date) }
    ensures unchanged { IfErr result (LeavesFiles (D.shown origin.now.value) (D.shown disk.new)) }
    ensures counts { LoadCounts (D.shown disk.old) (D.shown disk.new) result }
{
    for _ in 0..u64::MAX {
        match read_next(alloc, origin, disk, date, loading, memory) {
            Ok(true) => {}
            Ok(false) => return Ok(()),
            Err(why) => return Err(why),
        }
    }
    Err(LoadRefusal::NoMemory)
}

// The memory and the logs of a plant that has opened dates, of which this is the first.
fn read_from<D: Disk>(
    alloc: Global,
    origin: &Snapshot<D>,
    disk: &mut D,
    mut loading: Loading,
    mut memory: Memory,
    date: i32,
) -> Result<(Memory, DateLogs), LoadRefusal>
    requires last { date ≤ℤ pos 106751 }
    requires loading { IsLoading (D.shown origin.now.value) (D.shown disk.old) date loading memory }
    ensures read { IfOk result (λ x. IsReadPlant (D.shown origin.now.value) (D.shown disk.new) date x.0 x.1) }
    ensures numbers { IfOk result (λ x. top_by x.0.entries + 2 < 2 ^ 64) }
    ensures frame { IfOk result (λ x. x.0.frame ≡ memory.frame) }
    ensures refused { IfErr result (LoadRefuses (D.shown origin.now.value) memory.frame.schema date) }
    ensures unchanged { IfErr result (LeavesFiles (D.shown origin.now.value) (D.shown disk.new)) }
    ensures counts { LoadCounts (D.shown disk.old) (D.shown disk.new) result }
{
    match read_days(alloc, origin, disk, date, &mut loading, &mut memory) {
        Ok(()) => finish(alloc, origin, disk, loading, memory, date),
        Err(why) => Err(why),
    }
}

// The memory and the logs of the plant that the disk stands for.
fn read<D: Disk>(
    alloc: Global,
    origin: &Snapshot<D>,
    disk: &mut D,
    schema: Schema,
    date: i32,
    limits: &Limits,
) -> Result<(Memory, DateLogs), LoadRefusal>
    requires limits { AreLimits limits.now }
    requires first { negsuc 106751 ≤ℤ date }
    requires last { date ≤ℤ pos 106751 }
    requires origin { origin.now.value ≡ disk.old }
    ensures read { IfOk result (λ x. IsReadPlant (D.shown disk.old) (D.shown disk.new) date x.0 x.1) }
    ensures numbers { IfOk result (λ x. top_by x.0.entries + 2 < 2 ^ 64) }
    ensures schema { IfOk result (λ x. x.0.frame.schema ≡ schema) }
    ensures limits { IfOk result (λ x. x.0.frame.limits ≡ limits.now) }
    ensures refused { IfErr result (LoadRefuses (D.shown disk.old) schema date) }
    ensures unchanged { IfErr result (LeavesFiles (D.shown disk.old) (D.shown disk.new)) }
    ensures counts { LoadCounts (D.shown disk.old) (D.shown disk.new) result }
{
    let mut loading = match Loading::open(alloc, disk, &schema, date) {
        Ok(loading) => loading,
        Err(why) => return Err(why),
    };
    let first = match loading.next_day(alloc, disk, &schema) {
        Ok(Some(first)) => first,
        Ok(None) => return begin(alloc, origin, disk, loading, schema, date, limits),
        Err(why) => return Err(why),
    };
    match first_day(alloc, schema, limits, first) {
        Ok(memory) => read_from(alloc, origin, disk, loading, memory, date),
        Err(_) => Err(LoadRefusal::NoMemory),
    }
}

impl<D: Disk> Plant<D> {
    /// Makes the files of a plant with these tables and no date yet, on a disk that has no plant.
    ///
    /// The answer is `AlreadyMade` exactly where the manifest's file isn't empty, and then nothing was changed. A crash
    /// within this call may leave any bytes in the files that it makes. No other file is changed.
    pub fn format(alloc: Global, disk: &mut D, schema: &Schema) -> Result<(), FormatRefusal>
        ensures made { IsTrue (D.shown disk.old).tells → IsMadeFrom (length ((D.shown disk.old).now 0).bytes) result }
        ensures unchanged { IfMade result (IsTrue (D.shown disk.old).tells
            → (D.shown disk.new).now ≡ (D.shown disk.old).now) }
        ensures restarts { OnOk result (IsTrue (D.shown disk.old).tells → (first : ℤ)
            → RestartsFrom schema.now first [] None (D.shown disk.new).now) }
        ensures manifest { OnOk result (IsTrue (D.shown disk.old).tells
            → Reads ((D.shown disk.new).now 0).bytes (payloads_of (map m.Shape schema.now))) }
        ensures names { OnOk result (IsTrue (D.shown disk.old).tells → (image : List ℕ)
            → IsImage ((D.shown disk.new).now 1) image → Reads image []) }
        ensures others { IsTrue (D.shown disk.old).tells → (k : ℕ) → k ≢ 0 → k ≢ 1
            → (D.shown disk.new).now k ≡ (D.shown disk.old).now k }
        ensures counts { FormatCounts (D.shown disk.old) (D.shown disk.new) result }
    {
        date_logs::format(alloc, disk, schema)
    }

    /// Loads the plant that the disk stands for, and opens this date, in days since 2000.01.01, where it is later than the
    /// last one that the plant opened. That roll, if there is one, is of pass 0. A disk that was formatted and has no date
    /// yet gives a plant without entries, which begins at this date.
    ///
    /// A refusal is the first of these that holds: the manifest is damaged, its tables aren't those of the schema, it has
    /// opened a later date, a log is damaged (the earliest), the numbers of passes are used up. The disk comes back with it,
    /// and has counted a fault exactly where the load is refused for one. Unless it is, each file reads as before.
    ///
    /// The entries are those that the files restart as, and then the roll. Whatever a later restart finds is this log, where
    /// no sync of the files had failed before. A pass has a number left.
    pub fn load(
        alloc: Global,
        disk: D,
        schema: Schema,
        date: i32,
        limits: &Limits,
    ) -> Result<Plant<D>, LoadFailure<D>>
        requires limits { AreLimits limits.now }
        requires first { negsuc 106751 ≤ℤ date }
        requires last { date ≤ℤ pos 106751 }

        ensures loaded { IfOk result (λ plant. IsTrue (D.shown disk).tells → IsLoaded (D.shown disk) schema date plant.memory) }
        ensures schema { IfOk result (λ plant. plant.memory.frame.schema ≡ schema) }
        ensures limits { IfOk result (λ plant. plant.memory.frame.limits ≡ limits.now) }
        ensures origin { IfOk result (λ plant. plant.origin ≡ disk) }
        ensures opened { IfOk result (λ plant. date_of plant.memory.frame.first plant.memory.entries ≡ date) }
        ensures numbers { IfOk result (λ plant. top_by plant.memory.entries + 2 < 2 ^ 64) }
        ensures stored { IfOk result (λ plant. AreSettled (D.shown disk) → StoresLog (shown_by D.shown plant) None) }
        ensures refused { IfErr result (λ failure. LoadRefuses (D.shown disk) schema date failure.why) }
        ensures quiet { IfOk result (λ plant. CountsNothing (D.shown disk) (D.shown plant.disk)) }
        ensures counts { IfErr result (λ failure. RefusalCounts (D.shown disk) (D.shown failure.disk) failure.why) }
        ensures unchanged { IfErr result (λ failure. LeavesFiles (D.shown disk) (D.shown failure.disk) failure.why) }
    {
        let origin = Snapshot::of(&disk);
        let mut disk = disk;
        match read(alloc, &origin, &mut disk, schema, date, limits) {
            Ok((memory, logs)) => Ok(Plant {
                memory,
                logs,
                disk,
                origin,
            }),
            Err(why) => Err(LoadFailure { disk, why }),
        }
    }
}
