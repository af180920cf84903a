//! Many rows, whose keys are numbered again in another way.

use crate::columns::{Items, vector_of};
use crate::keys::grouped;
use q_keys::KeyGroups;
use std::alloc::Global;
use std::process::Abort;

const ROWS: usize = 100_000;

// What a key has where no row has it.
const NONE: u32 = u32::MAX;

// A number for each row, which follows no simple pattern.
fn spread(row: usize) -> u64 {
    (row as u64).wrapping_mul(0x9E37_79B9_7F4A_7C15)
}

// For each of all keys, in order, the first row that has it.
fn first_rows(rt: &impl Abort, alloc: Global, places: &[usize], keys: usize) -> Vec<u32> {
    let mut rows = vec![in alloc; NONE; keys].expect(rt, "memory");
    for (row, place) in places.iter().enumerate() {
        if let Some(first) = rows.get_mut(*place) {
            if *first == NONE {
                *first = u32::try_from(row).unwrap_or(NONE);
            }
        }
    }
    rows
}

// For each of all keys, in order, how many before it a row has, and the first rows of those that a row has.
fn numbered(rt: &impl Abort, alloc: Global, first_rows: &[u32]) -> (Vec<u32>, Vec<u32>) {
    let mut numbers = Vec::new(alloc);
    let mut firsts = Vec::new(alloc);
    for row in first_rows {
        numbers
            .push(u32::try_from(firsts.len()).unwrap_or(NONE))
            .expect(rt, "memory");
        if *row != NONE {
            firsts.push(*row).expect(rt, "memory");
        }
    }
    (numbers, firsts)
}

// Whether each code is the number of its row's key.
fn have_numbers(codes: &[u32], places: &[usize], numbers: &[u32]) -> bool {
    for (code, place) in codes.iter().zip(places) {
        if numbers.get(*place) != Some(code) {
            return false;
        }
    }
    codes.len() == places.len()
}

// Where each row's key is one of `keys`, the groups are those of the keys that a row has.
fn assert_groups(
    rt: &impl Abort,
    alloc: Global,
    groups: &KeyGroups,
    places: &[usize],
    keys: usize,
) {
    let (numbers, firsts) = numbered(rt, alloc, &first_rows(rt, alloc, places, keys));
    assert_eq!(rt; groups.firsts(), firsts.as_slice());
    assert!(rt; have_numbers(groups.codes(), places, &numbers));
}

// Each row is once among the rows of its group, which ascend.
fn assert_rows(rt: &impl Abort, alloc: Global, groups: &KeyGroups) {
    let rows = groups.rows(alloc).expect(rt, "memory");
    let codes = groups.codes();
    let mut count = 0usize;
    for group in 0..rows.len() {
        let mut next = 0usize;
        for row in rows.of_group(group) {
            assert!(rt; *row >= next);
            assert!(rt; codes.get(*row).is_some_and(|code| *code as usize == group));
            next = row.saturating_add(1);
            count = count.saturating_add(1);
        }
    }
    assert_eq!(rt; count, codes.len());
}

// The row's first key and its next one, of as many as is said.
fn keys_of(row: usize, first_keys: u16, next_keys: u16) -> (i64, i64) {
    let first = (spread(row) >> 32) % u64::from(first_keys.max(1));
    let next = (spread(row) >> 16) % u64::from(next_keys.max(1));
    (first.cast_signed(), next.cast_signed())
}

// Each row's place among all pairs of keys.
fn places_of(rt: &impl Abort, alloc: Global, first_keys: u16, next_keys: u16) -> Vec<usize> {
    let mut places = Vec::new(alloc);
    for row in 0..ROWS {
        let (first, next) = keys_of(row, first_keys, next_keys);
        let place = first.wrapping_mul(i64::from(next_keys)).wrapping_add(next);
        places
            .push(place.cast_unsigned() as usize)
            .expect(rt, "memory");
    }
    places
}

// The rows' groups.
fn groups_of(rt: &impl Abort, alloc: Global, first_keys: u16, next_keys: u16) -> KeyGroups {
    let mut firsts = Vec::new(alloc);
    let mut nexts = Vec::new(alloc);
    for row in 0..ROWS {
        let (first, next) = keys_of(row, first_keys, next_keys);
        firsts.push(first).expect(rt, "memory");
        nexts.push(next).expect(rt, "memory");
    }
    let columns = [
        vector_of(rt, alloc, Items::Longs(&firsts)),
        vector_of(rt, alloc, Items::Longs(&nexts)),
    ];
    grouped(rt, alloc, &columns)
}

// Rows with two keys, each one of as many as is said.
fn assert_many(rt: &impl Abort, alloc: Global, first_keys: u16, next_keys: u16) {
    let groups = groups_of(rt, alloc, first_keys, next_keys);
    let places = places_of(rt, alloc, first_keys, next_keys);
    let keys = usize::from(first_keys).wrapping_mul(usize::from(next_keys));
    assert_groups(rt, alloc, &groups, &places, keys);
    assert_rows(rt, alloc, &groups);
}

#[test]
fn many_rows(rt: HostRuntime) {
    let alloc = rt.alloc();
    for (first_keys, next_keys) in [(300u16, 200u16), (150, 160), (16_384, 1), (3, 5)] {
        assert_many(&rt, alloc, first_keys, next_keys);
    }
}
