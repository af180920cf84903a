//! Files that are truncated, extended or overwritten.

use crate::update::{CHUNK, Found, changed, counts, file_with, found_in};

#[test]
fn damaged_log(rt: HostRuntime) {
    let alloc = rt.alloc();
    let mut file = file_with(&rt, alloc, b"", b"\0");
    assert!(rt; file.len() == 97);
    assert!(rt; &file[8..13] == b"\xa5\x53\0\0\0".as_slice());
    assert!(rt; found_in(&rt, alloc, &file) == Found::Entries(1));
    assert!(rt; counts(&rt, alloc, &file, 1, 96, false));
    file.truncate(96);
    assert!(rt; found_in(&rt, alloc, &file) == Found::NoJournal);
    assert!(rt; counts(&rt, alloc, &file, 0, 8, true));
}

#[test]
fn damaged_after_its_end(rt: HostRuntime) {
    let alloc = rt.alloc();
    let open = file_with(&rt, alloc, b"", b"\xa5");
    assert!(rt; found_in(&rt, alloc, &open) == Found::NoJournal);
    assert!(rt; counts(&rt, alloc, &open, 1, 96, true));
    let torn = file_with(&rt, alloc, b"", b"\0\xa5\xff\xff");
    assert!(rt; found_in(&rt, alloc, &torn) == Found::Entries(1));
    assert!(rt; counts(&rt, alloc, &torn, 1, 96, false));
}

#[test]
fn a_count_ends_at_the_first_fault(rt: HostRuntime) {
    let alloc = rt.alloc();
    let last = changed(&rt, alloc, 0, b"\xfe\xff\xff\xff\xff\xff\xff\xff");
    assert!(rt;
        counts(
            &rt,
            alloc,
            &file_with(&rt, alloc, &last, b"\0"),
            2,
            184,
            false
        )
    );
    let none = changed(&rt, alloc, 0, b"\xff\xff\xff\xff\xff\xff\xff\xff");
    assert!(rt;
        counts(
            &rt,
            alloc,
            &file_with(&rt, alloc, &none, b"\xa5"),
            1,
            96,
            true
        )
    );
    assert!(rt;
        counts(
            &rt,
            alloc,
            &file_with(&rt, alloc, &CHUNK, b"\xa5"),
            2,
            184,
            true
        )
    );
}

#[test]
fn files_that_are_no_journal(rt: HostRuntime) {
    let alloc = rt.alloc();
    assert!(rt; counts(&rt, alloc, b"", 0, 0, true));
    assert!(rt; counts(&rt, alloc, b"qtplant1", 0, 0, true));
    assert!(rt; counts(&rt, alloc, b"qtplant2\0", 0, 0, true));
    assert!(rt; counts(&rt, alloc, b"qtplant1\0", 0, 8, false));
}
