//! Who made the entries that a plant has stored.
ghost use Rattle.std.specs.Prelude.{◌≤ℤ◌, negsuc};

use date_logs::log_file;
use day_rows::{Entry, Schema};
use gated_journal::Journal;
use outside_mem::MemDisk;
use std::alloc::Global;
use std::process::Abort;
use tick_log::{ReplayRefusal, replay};

// Above the number of each pass of a test.
const PASSES: usize = 16;

/// How many updates of the date's log each pass made, by its number. `None` where there is no such log.
pub(crate) fn made(
    rt: &impl Abort,
    alloc: Global,
    mut disk: MemDisk,
    date: i32,
    schema: &Schema,
) -> Option<Vec<u32>>
    requires { negsuc 106751 ≤ℤ date }
{
    let Ok((_journal, records)) = Journal::load(alloc, &mut disk, log_file(date)) else {
        return None;
    };
    let entries = match replay(alloc, schema, &records) {
        Ok(entries) => entries,
        Err(ReplayRefusal::Corrupt { .. }) => return None,
        Err(ReplayRefusal::NoMemory) => panic!(rt; "no memory"),
    };
    let mut made = vec![in alloc; 0u32; PASSES].expect(rt, "memory");
    for entry in entries.as_slice() {
        let Entry::Upd { by, .. } = entry else {
            return None;
        };
        let Some(count) = made.get_mut(*by as usize) else {
            return None;
        };
        *count = u32::saturating_add(*count, 1);
    }
    Some(made)
}

/// How many passes made this many updates. `None` where a pass made another number of them, and not none.
pub(crate) fn makers(made: &[u32], each: u32) -> Option<u32> {
    let mut makers = 0u32;
    for count in made {
        if *count == each {
            makers = makers.saturating_add(1);
        } else if *count != 0 {
            return None;
        }
    }
    Some(makers)
}
