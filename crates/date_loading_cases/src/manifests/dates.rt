//! Many dates, and a call of the disk that fails.
ghost use Rattle.std.specs.Prelude.{◌≡◌, IfOk};
ghost use Rattle.outside_mem.specs.MemDisk.{shown_by};
ghost use Rattle.gated_journal.specs.Journal.{HasLastGate};

use outside_mem::{Calling, Callings, MemDisk};
use partition_set::{Manifest, ManifestRecord, ManifestRefusal};
use schema_text::built_in_schema;
use std::alloc::Global;
use std::process::Abort;

// A disk with a manifest of the built-in tables.
fn started(rt: &impl Abort, alloc: Global) -> MemDisk {
    let schema = built_in_schema(alloc).expect(rt, "memory");
    let mut disk = MemDisk::new(alloc);
    let manifest = Manifest::make(alloc, &mut disk, &schema).expect(rt, "a manifest");
    drop(manifest);
    disk
}

// Opens this date by the pass 3, where it may be opened.
fn open(disk: &mut MemDisk, manifest: &mut Manifest, date: i32) -> Result<bool, ManifestRefusal>
    requires { HasLastGate (shown_by disk.old) manifest.old.journal }
    ensures { IfOk result (λ _. HasLastGate (shown_by disk.new) manifest.new.journal) }
{
    if !manifest.is_clean() || !manifest.may_open(3, date) {
        return Ok(false);
    }
    manifest.reserve()?;
    manifest.opened(disk, 3, date)?;
    Ok(true)
}

// Loads the manifest, and opens this many dates from the first one on. Whether all of them were opened.
fn open_all(
    alloc: Global,
    disk: &mut MemDisk,
    first: i32,
    count: i32,
) -> Result<bool, ManifestRefusal> {
    let mut manifest = Manifest::load(alloc, disk)?;
    for i in 0..count {
        if !open(disk, &mut manifest, first.wrapping_add(i))? {
            return Ok(false);
        }
    }
    Ok(true)
}

// Whether the manifest has two tables, and then this many dates from the first one on.
fn has_dates(
    alloc: Global,
    disk: &mut MemDisk,
    first: i32,
    count: usize,
) -> Result<bool, ManifestRefusal> {
    let manifest = Manifest::load(alloc, disk)?;
    let mut next = first;
    let mut dates = 0usize;
    for record in manifest.records() {
        if let ManifestRecord::Opened { by, date } = record {
            if *by != 3 || *date != next {
                return Ok(false);
            }
            next = next.wrapping_add(1);
            dates = dates.wrapping_add(1);
        }
    }
    Ok(dates == count && manifest.records().len() == dates.wrapping_add(2))
}

fn run_of_dates(rt: &impl Abort, alloc: Global) -> bool {
    let mut disk = started(rt, alloc);
    let first = open_all(alloc, &mut disk, 0, 10_000).expect(rt, "dates");
    let second = open_all(alloc, &mut disk, 10_000, 10_000).expect(rt, "dates");
    let earlier = open_all(alloc, &mut disk, 19_999, 1).expect(rt, "dates");
    let whole = has_dates(alloc, &mut disk, 0, 20_000).expect(rt, "dates");
    first && second && !earlier && whole
}

#[test]
fn many_dates(rt: HostRuntime) {
    let alloc = rt.alloc();
    assert!(rt; run_of_dates(&rt, alloc));
}

// Calls of which the one after `place` others fails.
fn one_failing(rt: &impl Abort, alloc: Global, place: usize) -> Callings {
    let mut callings = Callings::new(alloc);
    for _ in 0..place {
        callings.push(Calling::Succeeds).expect(rt, "memory");
    }
    callings.push(Calling::FailsDone).expect(rt, "memory");
    callings
}

// Opens a date while the call after `place` others fails: whether that is told, and a load then finds the tables, and at most this date.
fn is_left_whole(rt: &impl Abort, alloc: Global, place: usize) -> bool {
    let mut disk = started(rt, alloc);
    let Ok(mut manifest) = Manifest::load(alloc, &mut disk) else {
        return false;
    };
    disk.plan(one_failing(rt, alloc, place), None);
    manifest.reserve().expect(rt, "memory");
    if !manifest.is_clean() || !manifest.may_open(3, 5) {
        return false;
    }
    let failed = manifest.opened(&mut disk, 3, 5).is_err();
    let unclean = !manifest.is_clean();
    let loaded = Manifest::load(alloc, &mut disk).expect(rt, "a manifest");
    let found = loaded.records().len();
    failed && unclean && (found == 2 || found == 3)
}

#[test]
fn failed_calls_leave_a_manifest(rt: HostRuntime) {
    let alloc = rt.alloc();
    for place in 0..4 {
        assert!(rt; is_left_whole(&rt, alloc, place));
    }
}
