//! Small tables of keys, with their groups worked out by hand.

use crate::columns::{Items, vector_of};
use crate::keys::grouped;
use q_keys::KeyGroups;
use q_values::{IntegerKind, Vector};
use std::alloc::Global;
use std::process::Abort;

// Key columns, each row's group, and each group's first row.
#[derive(Clone, Copy)]
struct Table<'a> {
    columns: &'a [Items<'a>],
    codes: &'a [u32],
    firsts: &'a [u32],
}

fn columns_of(rt: &impl Abort, alloc: Global, columns: &[Items]) -> Vec<Vector> {
    let mut found = Vec::new(alloc);
    for items in columns {
        found
            .push(vector_of(rt, alloc, *items))
            .expect(rt, "memory");
    }
    found
}

fn assert_groups(rt: &impl Abort, groups: &KeyGroups, codes: &[u32], firsts: &[u32]) {
    assert_eq!(rt; groups.codes(), codes);
    assert_eq!(rt; groups.firsts(), firsts);
    assert_eq!(rt; groups.len(), firsts.len());
    assert_eq!(rt; groups.is_empty(), firsts.is_empty());
}

// The groups of the table are those that it has.
fn assert_table(rt: &impl Abort, alloc: Global, table: Table) {
    let columns = columns_of(rt, alloc, table.columns);
    let groups = grouped(rt, alloc, &columns);
    assert_groups(rt, &groups, table.codes, table.firsts);
}

const ONE_KEY: [Table; 3] = [
    Table {
        columns: &[Items::Symbols(&[b"b", b"a", b"b", b"c", b"a"])],
        codes: &[1, 0, 1, 2, 0],
        firsts: &[1, 0, 3],
    },
    Table {
        columns: &[Items::Symbols(&[b"eightbytes", b"b", b"eightbytes", b"eightbyt"])],
        codes: &[2, 0, 2, 1],
        firsts: &[1, 3, 0],
    },
    Table {
        columns: &[Items::Longs(&[7, -3, 7, i64::MIN, 0, -3])],
        codes: &[3, 1, 3, 0, 2, 1],
        firsts: &[3, 1, 4, 0],
    },
];

#[test]
fn one_key(rt: HostRuntime) {
    for table in &ONE_KEY {
        assert_table(&rt, rt.alloc(), *table);
    }
}

const TWO_KEYS: [Table; 5] = [
    Table {
        columns: &[
            Items::Symbols(&[b"b", b"a", b"b", b"a"]),
            Items::Longs(&[2, 1, 2, 0]),
        ],
        codes: &[2, 1, 2, 0],
        firsts: &[3, 1, 0],
    },
    Table {
        columns: &[
            Items::Symbols(&[b"a", b"b", b"a", b"b"]),
            Items::Longs(&[2, 1, 1, 2]),
        ],
        codes: &[1, 2, 0, 3],
        firsts: &[2, 0, 1, 3],
    },
    Table {
        columns: &[
            Items::Symbols(&[b"", b"a", b"", b"a"]),
            Items::Longs(&[i64::MIN, 5, 3, i64::MIN]),
        ],
        codes: &[0, 3, 1, 2],
        firsts: &[0, 2, 3, 1],
    },
    Table {
        columns: &[
            Items::Symbols(&[b"x", b"x", b"x"]),
            Items::Longs(&[1, 1, 1]),
        ],
        codes: &[0, 0, 0],
        firsts: &[0],
    },
    Table {
        columns: &[Items::Symbols(&[b"x"]), Items::Longs(&[1])],
        codes: &[0],
        firsts: &[0],
    },
];

#[test]
fn two_keys(rt: HostRuntime) {
    for table in &TWO_KEYS {
        assert_table(&rt, rt.alloc(), *table);
    }
}

// The last key decides where the others are equal.
#[test]
fn three_keys(rt: HostRuntime) {
    let table = Table {
        columns: &[
            Items::Symbols(&[b"a", b"a", b"a", b"a"]),
            Items::Longs(&[1, 1, 2, 1]),
            Items::Booleans(&[true, false, true, true]),
        ],
        codes: &[1, 0, 2, 1],
        firsts: &[1, 0, 2],
    };
    assert_table(&rt, rt.alloc(), table);
}

// The rows of each group of these key columns are those.
fn assert_rows(rt: &impl Abort, alloc: Global, columns: &[Items], wanted: &[&[usize]]) {
    let columns = columns_of(rt, alloc, columns);
    let groups = grouped(rt, alloc, &columns);
    let rows = groups.rows(alloc).expect(rt, "memory");
    assert_eq!(rt; rows.len(), wanted.len());
    for (group, places) in wanted.iter().enumerate() {
        if group < rows.len() {
            assert_eq!(rt; rows.of_group(group), *places);
        }
    }
}

#[test]
fn no_rows(rt: HostRuntime) {
    let columns = &[Items::Symbols(&[]), Items::Integers(IntegerKind::Date, &[])];
    let table = Table {
        columns,
        codes: &[],
        firsts: &[],
    };
    assert_table(&rt, rt.alloc(), table);
    assert_rows(&rt, rt.alloc(), columns, &[]);
}

#[test]
fn rows_of_groups(rt: HostRuntime) {
    let columns = &[Items::Symbols(&[b"b", b"a", b"b", b"c", b"a"])];
    assert_rows(&rt, rt.alloc(), columns, &[&[1, 4], &[0, 2], &[3]]);
}
