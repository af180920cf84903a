//! The bytes of manifests, and of files that are none.

use outside_api::Disk;
use outside_mem::MemDisk;
use partition_set::{MANIFEST_FILE, Manifest, ManifestRefusal};
use q_values::NoMemory;
use schema_text::built_in_schema;
use std::alloc::Global;
use std::process::Abort;

// The records of the built-in tables, each between two gates.
const TABLES: &[u8] = b"qtplant1\xa5\x3d\0\0\0\
\x01\0\0\x03\0\0\0\xf5quote\0\x0b\0\x06\0\0\0time\0sym\0bid\0ask\0bsize\0asize\0\x04\0\x06\0\0\0\x10\x0b\x07\x07\x07\x07\
\xa5\x32\0\0\0\
\x01\0\0\x03\0\0\0\xf5trade\0\x0b\0\x04\0\0\0time\0sym\0price\0size\0\x04\0\x04\0\0\0\x10\x0b\x07\x07";

// 2024.01.02, opened by the pass 7.
const OPENED: &[u8] = b"\x02\x07\0\0\0\0\0\0\0\x3f\x22\0\0";

// The tables `t` and `u` of two columns.
const T: &[u8] = b"\x01\0\0\x03\0\0\0\xf5t\0\x0b\0\x02\0\0\0time\0sym\0\x04\0\x02\0\0\0\x10\x0b";

const U: &[u8] = b"\x01\0\0\x03\0\0\0\xf5u\0\x0b\0\x02\0\0\0time\0sym\0\x04\0\x02\0\0\0\x10\x0b";

// Payloads of which the last may not stand there.
const DAMAGED: &[&[&[u8]]] = &[
    &[b"\x00"],
    &[b"\x03\0\0\0"],
    &[T, b"\x02\x07\0\0\0\0\0\0\0\x3f\x22\0"],
    &[T, b"\x02\x07\0\0\0\0\0\0\0\x3f\x22\0\0\0"],
    &[T, b"\x02\xff\xff\xff\xff\xff\xff\xff\xff\x3f\x22\0\0"],
    &[T, b"\x02\0\0\0\0\0\0\0\0\xff\x5e\xfe\xff"],
    &[T, b"\x02\0\0\0\0\0\0\0\0\0\xa1\x01\0"],
    &[T, OPENED, OPENED],
    &[T, OPENED, b"\x02\x08\0\0\0\0\0\0\0\x3e\x22\0\0"],
    &[T, OPENED, U],
    &[T, T],
    &[U, T],
    &[
        T,
        b"\x01\0\0\x03\0\0\0\xf5u\0\x0b\0\x02\0\0\0time\0sym\0\x04\0\x02\0\0\0\x10\x0b\0",
    ],
    &[
        T,
        b"\x01\0\0\x03\0\0\0\xf5u\0\x0b\x01\x02\0\0\0time\0sym\0\x04\0\x02\0\0\0\x10\x0b",
    ],
    &[
        T,
        b"\x01\0\0\x03\0\0\0\xf5u\0\x0b\0\x02\0\0\0time\0sym\0\x04\0\x02\0\0\0\x10\x09",
    ],
    &[
        T,
        b"\x01\0\0\x03\0\0\0\xf5u\0\x0b\0\x02\0\0\0time\0sym\0\x04\0\x02\0\0\0\x0b\x10",
    ],
    &[
        T,
        b"\x01\0\0\x03\0\0\0\xf5u\0\x0b\0\x02\0\0\0sym\0time\0\x04\0\x02\0\0\0\x10\x0b",
    ],
    &[
        T,
        b"\x01\0\0\x03\0\0\0\xf5u\0\x0b\0\x03\0\0\0time\0sym\0a\0\x04\0\x02\0\0\0\x10\x0b",
    ],
    &[
        T,
        b"\x01\0\0\x03\0\0\0\xf5u\0\x0b\0\x03\0\0\0time\0sym\0a\0\x04\0\x03\0\0\0\x10\x0b\x0a",
    ],
    &[
        T,
        b"\x01\0\0\x03\0\0\0\xf5u\0\x0b\0\x03\0\0\0time\0sym\0by\0\x04\0\x03\0\0\0\x10\x0b\x07",
    ],
    &[
        T,
        b"\x01\0\0\x03\0\0\0\xf5u\0\x0b\0\x03\0\0\0time\0sym\0sym\0\x04\0\x03\0\0\0\x10\x0b\x07",
    ],
    &[
        T,
        b"\x01\0\0\x03\0\0\0\xf5\0\x0b\0\x02\0\0\0time\0sym\0\x04\0\x02\0\0\0\x10\x0b",
    ],
    &[T, b"\x01\0\0\x02\0\0\0\xf5u\0\x0b\0\x02\0\0\0time\0sym\0"],
    &[T, b"\x01\x0b\0\x02\0\0\0time\0sym\0"],
];

// Payloads that may stand so.
const WHOLE: &[&[&[u8]]] = &[
    &[],
    &[T],
    &[T, U],
    &[OPENED],
    &[T, U, OPENED, b"\x02\0\0\0\0\0\0\0\0\x40\x22\0\0"],
    &[
        T,
        b"\x02\xfe\xff\xff\xff\xff\xff\xff\xff\0\x5f\xfe\xff",
        b"\x02\0\0\0\0\0\0\0\0\xff\xa0\x01\0",
    ],
];

// A journal of these payloads, and the offset of the last gate that is open.
fn file_of(rt: &impl Abort, alloc: Global, payloads: &[&[u8]]) -> (Vec<u8>, u64) {
    let mut file = Vec::from_slice(alloc, b"qtplant1").expect(rt, "memory");
    let mut last = 0;
    for payload in payloads {
        last = file.len() as u64;
        file.push(0xa5).expect(rt, "memory");
        let size = (payload.len() as u64).to_le_bytes();
        file.extend_from_slice(&size[..4]).expect(rt, "memory");
        file.extend_from_slice(payload).expect(rt, "memory");
    }
    file.push(0).expect(rt, "memory");
    (file, last)
}

// How many records the manifest in this file has, or where it is damaged.
fn outcome(alloc: Global, file: &[u8]) -> Result<usize, ManifestRefusal> {
    let mut disk = MemDisk::new(alloc);
    disk.write_at(MANIFEST_FILE, 0, file)?;
    let manifest = Manifest::load(alloc, &mut disk)?;
    Ok(manifest.records().len())
}

fn is_damaged(rt: &impl Abort, alloc: Global, payloads: &[&[u8]]) -> bool {
    let (file, at) = file_of(rt, alloc, payloads);
    outcome(alloc, &file) == Err(ManifestRefusal::BadManifest { bytes: at })
}

fn is_whole(rt: &impl Abort, alloc: Global, payloads: &[&[u8]]) -> bool {
    let (file, _last) = file_of(rt, alloc, payloads);
    outcome(alloc, &file) == Ok(payloads.len())
}

#[test]
fn damaged_manifests(rt: HostRuntime) {
    let alloc = rt.alloc();
    for payloads in DAMAGED {
        assert!(rt; is_damaged(&rt, alloc, payloads));
    }
}

#[test]
fn whole_manifests(rt: HostRuntime) {
    let alloc = rt.alloc();
    for payloads in WHOLE {
        assert!(rt; is_whole(&rt, alloc, payloads));
    }
}

#[test]
fn no_journals(rt: HostRuntime) {
    let alloc = rt.alloc();
    let files: [(&[u8], u64); 4] = [
        (b"", 0),
        (b"qtplant1", 0),
        (b"qtplant2\0", 0),
        (b"qtplant1\xa5\x0d\0\0\0\x02", 8),
    ];
    for (file, at) in files {
        assert!(rt; outcome(alloc, file) == Err(ManifestRefusal::BadManifest { bytes: at }));
    }
}

// The bytes of a manifest of the built-in tables, after a date was opened.
fn written(alloc: Global) -> Result<Vec<u8>, ManifestRefusal> {
    let schema = built_in_schema(alloc)?;
    let mut disk = MemDisk::new(alloc);
    let mut manifest = Manifest::make(alloc, &mut disk, &schema)?;
    manifest.reserve()?;
    manifest.opened(&mut disk, 7, 8767)?;
    match Vec::from_slice(alloc, disk.bytes_of(MANIFEST_FILE)) {
        Ok(bytes) => Ok(bytes),
        Err(_) => Err(ManifestRefusal::NoMemory),
    }
}

#[test]
fn manifest_bytes(rt: HostRuntime) {
    let alloc = rt.alloc();
    let mut wanted = Vec::from_slice(alloc, TABLES).expect(&rt, "memory");
    wanted
        .extend_from_slice(b"\xa5\x0d\0\0\0")
        .expect(&rt, "memory");
    wanted.extend_from_slice(OPENED).expect(&rt, "memory");
    wanted.push(0).expect(&rt, "memory");
    match written(alloc) {
        Ok(bytes) => assert!(rt; bytes.as_slice() == wanted.as_slice()),
        Err(_) => assert!(rt; false),
    }
}
