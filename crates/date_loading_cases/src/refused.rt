//! Plants whose schema or date isn't the kept one, or whose files are spoiled.

use crate::plant::{FIRST, FIRST_LOG, SECOND, load, one_date, two_dates};
use date_loading::{LoadRefusal, Loading};
use outside_api::Disk;
use outside_mem::MemDisk;
use schema_text::{built_in_schema, read_schema};
use std::alloc::Global;
use std::process::Abort;

// Why a plant of the built-in tables isn't opened with the schema of this text: the table's name, and how many columns
// it has among the kept tables and among the given ones.
fn difference(
    rt: &impl Abort,
    alloc: Global,
    text: &[u8],
    name: &[u8],
) -> Option<(bool, usize, usize)> {
    let Some(mut disk) = two_dates(
        rt,
        alloc,
        &built_in_schema(alloc).expect(rt, "memory"),
        1,
        1,
    ) else {
        return None;
    };
    let Ok(given) = read_schema(alloc, text) else {
        return None;
    };
    match Loading::open(alloc, &mut disk, &given, FIRST) {
        Err(LoadRefusal::SchemaDiffers { table, kept, given }) => Some((
            table.bytes() == name && kept.table.bytes() == name && given.table.bytes() == name,
            kept.kinds.len(),
            given.kinds.len(),
        )),
        _ => None,
    }
}

// Schema texts beside the name of the first table that differs, and the numbers of its columns.
const SCHEMAS: [(&str, &str, usize, usize); 6] = [
    (
        "quote:([]time:`timespan$();sym:`symbol$();bid:`long$();ask:`long$();bsize:`long$();asize:`long$())
        trade:([]time:`timespan$();sym:`symbol$();price:`long$();size:`int$())",
        "trade",
        4,
        4,
    ),
    (
        "quote:([]time:`timespan$();sym:`symbol$();bid:`long$();ask:`long$();bsize:`long$();asize:`long$())
        trade:([]time:`timespan$();sym:`symbol$();price:`long$();amount:`long$())",
        "trade",
        4,
        4,
    ),
    (
        "quote:([]time:`timespan$();sym:`symbol$();bid:`long$();ask:`long$();bsize:`long$();asize:`long$())",
        "trade",
        4,
        0,
    ),
    (
        "trade:([]time:`timespan$();sym:`symbol$();price:`long$())",
        "quote",
        6,
        0,
    ),
    (
        "quote:([]time:`timespan$();sym:`symbol$();bid:`long$();ask:`long$();bsize:`long$();asize:`long$())
        order:([]time:`timespan$();sym:`symbol$())
        trade:([]time:`timespan$();sym:`symbol$();price:`long$();size:`long$())",
        "order",
        0,
        2,
    ),
    (
        "quote:([]time:`timespan$();sym:`symbol$();bid:`long$();ask:`long$();bsize:`long$();asize:`long$())
        trade:([]time:`timespan$();sym:`symbol$();price:`long$();size:`long$())
        zone:([]time:`timespan$();sym:`symbol$())",
        "zone",
        0,
        2,
    ),
];

#[test]
fn another_schema(rt: HostRuntime) {
    for (text, name, kept, given) in &SCHEMAS {
        assert_eq!(rt;
            difference(&rt, rt.alloc(), text.as_bytes(), name.as_bytes()),
            Some((true, *kept, *given))
        );
    }
}

// Why a load at this date of a plant of two dates is refused, if it is.
fn at_date(rt: &impl Abort, alloc: Global, date: i32) -> Result<Option<i32>, LoadRefusal> {
    let schema = built_in_schema(alloc)?;
    let Some(mut disk) = two_dates(rt, alloc, &schema, 1, 1) else {
        return Ok(Some(0));
    };
    match load(alloc, &mut disk, &schema, date) {
        Ok(_loaded) => Ok(None),
        Err(LoadRefusal::EarlierDate { kept }) => Ok(Some(kept)),
        Err(why) => Err(why),
    }
}

#[test]
fn an_earlier_date(rt: HostRuntime) {
    let alloc = rt.alloc();
    assert!(rt; matches!(at_date(&rt, alloc, FIRST), Ok(Some(8768))));
    assert!(rt; matches!(at_date(&rt, alloc, -106_752), Ok(Some(8768))));
    assert!(rt; matches!(at_date(&rt, alloc, SECOND), Ok(None)));
    assert!(rt; matches!(at_date(&rt, alloc, 106_751), Ok(None)));
}

// What becomes of a file.
#[derive(Drop)]
enum Spoiling {
    // It is cut to this size.
    Cut(u64),
    // These bytes stand at this offset.
    Put(u64, &'static [u8]),
}

fn spoil(disk: &mut MemDisk, file: u64, spoiling: &Spoiling) -> bool {
    let size = disk.bytes_of(file).len() as u64;
    match spoiling {
        Spoiling::Cut(to) => *to <= size && disk.cut(file, *to).is_ok(),
        Spoiling::Put(at, bytes) => *at <= size && disk.write_at(file, *at, bytes).is_ok(),
    }
}

// What a load finds where one file is spoiled.
#[derive(Clone, Copy, Debug, PartialEq, Eq)]
enum Ending {
    Updates(u64, u64),
    Log(i32, u64, u64),
    Manifest(u64),
    Other,
}

// The updates of the only date and their greatest pass number, or why they aren't loaded.
fn after(rt: &impl Abort, alloc: Global, file: u64, spoiling: &Spoiling) -> Ending {
    let schema = built_in_schema(alloc).expect(rt, "memory");
    let Some((mut disk, _logs)) = one_date(rt, alloc, &schema, 1, 1) else {
        return Ending::Other;
    };
    if !spoil(&mut disk, file, spoiling) {
        return Ending::Other;
    }
    match load(alloc, &mut disk, &schema, FIRST) {
        Ok((founds, _logs)) => match founds.get(0) {
            Some(found) => Ending::Updates(found.updates, found.top_by),
            None => Ending::Other,
        },
        Err(
            LoadRefusal::CorruptLog {
                date,
                chunks,
                bytes,
            },
        ) => Ending::Log(date, chunks, bytes),
        Err(LoadRefusal::BadManifest { bytes }) => Ending::Manifest(bytes),
        Err(_why) => Ending::Other,
    }
}

#[test]
fn damaged_log(rt: HostRuntime) {
    let alloc = rt.alloc();
    let cases = [
        (Spoiling::Cut(97), Ending::Updates(1, 3)),
        (Spoiling::Cut(96), Ending::Log(FIRST, 0, 8)),
        (Spoiling::Put(96, b"\xa5"), Ending::Log(FIRST, 1, 96)),
        (Spoiling::Put(96, b"\0\xa5\xff\xff"), Ending::Updates(1, 3)),
        (Spoiling::Put(8, b"\0"), Ending::Updates(0, 0)),
        (Spoiling::Put(23, b"\x02"), Ending::Log(FIRST, 0, 8)),
        (
            Spoiling::Put(13, b"\xfe\xff\xff\xff\xff\xff\xff\xff"),
            Ending::Updates(1, u64::MAX - 1),
        ),
        (
            Spoiling::Put(13, b"\xff\xff\xff\xff\xff\xff\xff\xff"),
            Ending::Log(FIRST, 0, 8),
        ),
    ];
    for (spoiling, ending) in &cases {
        assert_eq!(rt; after(&rt, alloc, FIRST_LOG, spoiling), *ending);
    }
}

// The size of the manifest of a plant of one date.
fn manifest_size(rt: &impl Abort, alloc: Global) -> u64 {
    match one_date(
        rt,
        alloc,
        &built_in_schema(alloc).expect(rt, "memory"),
        1,
        1,
    ) {
        Some((disk, _logs)) => disk.bytes_of(0).len() as u64,
        None => 0,
    }
}

// The record of a date has 18 bytes, and one more gate follows it.
#[test]
fn damaged_manifest(rt: HostRuntime) {
    let alloc = rt.alloc();
    let size = manifest_size(&rt, alloc);
    assert!(rt; size > 19);
    let last = size.wrapping_sub(19);
    assert_eq!(rt;
        after(&rt, alloc, 0, &Spoiling::Put(0, b"x")),
        Ending::Manifest(0)
    );
    assert_eq!(rt;
        after(&rt, alloc, 0, &Spoiling::Cut(0)),
        Ending::Manifest(0)
    );
    assert_eq!(rt;
        after(&rt, alloc, 0, &Spoiling::Cut(size.wrapping_sub(1))),
        Ending::Manifest(last)
    );
    assert_eq!(rt;
        after(&rt, alloc, 0, &Spoiling::Put(last.wrapping_add(5), b"\x03")),
        Ending::Manifest(last)
    );
}
