//! Plants whose files are sound.
use crate::plant::{FIRST, Found, SECOND, add, load, one_date, two_dates};
use date_loading::LoadRefusal;
use date_logs::format;
use outside_mem::{Leaving, MemDisk};
use schema_text::built_in_schema;
use std::alloc::Global;
use std::process::Abort;

// The first date, where it has this many updates, each of as many rows.
fn first(updates: u32, rows: u32) -> Found {
    let trades = updates.wrapping_mul(rows);
    Found {
        by: 0,
        date: FIRST,
        trades,
        updates: u64::from(updates),
        rows: u64::from(trades),
        top_by: if updates == 0 { 0 } else { 3 },
    }
}

// The second date.
const LAST: Found = Found {
    by: 7,
    date: SECOND,
    trades: 1,
    updates: 1,
    rows: 1,
    top_by: 5,
};

// Whether both dates are loaded from what a crash leaves, as they were written.
fn are_loaded(rt: &impl Abort, alloc: Global, updates: u32, rows: u32) -> bool {
    let schema = built_in_schema(alloc).expect(rt, "memory");
    let disk = two_dates(rt, alloc, &schema, updates as usize, rows as usize).expect(rt, "a disk");
    let mut left = disk.restart(alloc, Leaving::Shortest).expect(rt, "memory");
    let (founds, logs) = load(alloc, &mut left, &schema, SECOND).expect(rt, "a load");
    let dates = [first(updates, rows), LAST];
    logs.is_some() && founds.as_slice() == dates.as_slice()
}

#[test]
fn two_dates_are_loaded(rt: HostRuntime) {
    let alloc = rt.alloc();
    assert!(rt; are_loaded(&rt, alloc, 0, 1));
    assert!(rt; are_loaded(&rt, alloc, 3, 2));
}

#[test]
fn a_thousand_updates_of_a_hundred_rows(rt: HostRuntime) {
    assert!(rt; are_loaded(&rt, rt.alloc(), 1_000, 100));
}

// Whether a plant that was made and has opened no date is loaded.
fn is_undated(rt: &impl Abort, alloc: Global) -> bool {
    let schema = built_in_schema(alloc).expect(rt, "memory");
    let mut disk = MemDisk::new(alloc);
    format(alloc, &mut disk, &schema).expect(rt, "a manifest");
    let (founds, logs) = load(alloc, &mut disk, &schema, FIRST).expect(rt, "a load");
    founds.is_empty() && logs.is_none()
}

#[test]
fn no_date_is_loaded(rt: HostRuntime) {
    assert!(rt; is_undated(&rt, rt.alloc()));
}

// Whether an update that is added after a load is loaded next time.
fn goes_on(rt: &impl Abort, alloc: Global) -> Result<bool, LoadRefusal> {
    let schema = built_in_schema(alloc)?;
    let Some((mut disk, _logs)) = one_date(rt, alloc, &schema, 2, 1) else {
        return Ok(false);
    };
    let (_founds, Some(mut logs)) = load(alloc, &mut disk, &schema, FIRST)? else {
        return Ok(false);
    };
    let added = add(rt, alloc, &mut disk, &mut logs, &schema, 3, 1);
    let (founds, _logs) = load(alloc, &mut disk, &schema, FIRST)?;
    Ok(added && founds.as_slice() == [first(3, 1)].as_slice())
}

#[test]
fn a_loaded_plant_goes_on(rt: HostRuntime) {
    assert!(rt; matches!(goes_on(&rt, rt.alloc()), Ok(true)));
}
