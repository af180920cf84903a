//! Examples of the verbs, on columns of one (KX, Q for Mortals, 4).

use crate::table_test::{first_wrong, first_wrong_of_one};
use q_verbs::{Verb, Verb1};

#[test]
fn division_and_xbar(rt: HostRuntime) {
    let alloc = rt.alloc();
    assert_eq!(rt;
        first_wrong(
            &rt,
            alloc,
            Verb::Div,
            &["j -7; j 2; j -4", "j 7; j 0; j 0N"]
        ),
        None
    );
    assert_eq!(rt;
        first_wrong(&rt, alloc, Verb::Mod, &["j -7; j 2; j 1"]),
        None
    );
    assert_eq!(rt;
        first_wrong(
            &rt,
            alloc,
            Verb::Xbar,
            &["j 5; j 13; j 10", "j 5; j -1; j -5"]
        ),
        None
    );
}

#[test]
fn wrapping_and_nulls(rt: HostRuntime) {
    let alloc = rt.alloc();
    assert_eq!(rt;
        first_wrong(
            &rt,
            alloc,
            Verb::Add,
            &["i 2147483647; i 1; i 0N", "b 1; b 1; i 2"]
        ),
        None
    );
    assert_eq!(rt;
        first_wrong_of_one(&rt, alloc, Verb1::Neg, &["j 0N; j 0N"]),
        None
    );
}

#[test]
fn null_order_and_like(rt: HostRuntime) {
    let alloc = rt.alloc();
    assert_eq!(rt;
        first_wrong(&rt, alloc, Verb::Eq, &["j 0N; j 0N; b 1"]),
        None
    );
    assert_eq!(rt;
        first_wrong(&rt, alloc, Verb::Lt, &["j 0N; j -0W; b 1"]),
        None
    );
    assert_eq!(rt;
        first_wrong(&rt, alloc, Verb::Within, &["j 3; j 3 5; b 1"]),
        None
    );
    assert_eq!(rt;
        first_wrong(&rt, alloc, Verb::Like, &["s `AAPL; text A*L; b 1"]),
        None
    );
}

// 2024.01.02 is the day 8767 from 2000.01.01.
#[test]
fn date_plus_timespan(rt: HostRuntime) {
    let alloc = rt.alloc();
    assert_eq!(rt;
        first_wrong(
            &rt,
            alloc,
            Verb::Add,
            &["d 8767; n 3600000000000; p 757472400000000000"]
        ),
        None
    );
    assert_eq!(rt;
        first_wrong(&rt, alloc, Verb::Sub, &["d 8768; d 8767; i 1"]),
        None
    );
}

#[test]
fn aggregates_of_nothing(rt: HostRuntime) {
    let alloc = rt.alloc();
    assert_eq!(rt;
        first_wrong_of_one(&rt, alloc, Verb1::Min, &["j; j 0W"]),
        None
    );
    assert_eq!(rt;
        first_wrong_of_one(&rt, alloc, Verb1::Max, &["j; j -0W"]),
        None
    );
    assert_eq!(rt;
        first_wrong_of_one(&rt, alloc, Verb1::Count, &["j; j 0"]),
        None
    );
    assert_eq!(rt;
        first_wrong_of_one(
            &rt,
            alloc,
            Verb1::Sum,
            &["j; j 0", "j 0N 5; j 5", "j 9223372036854775807 1; j 0N"]
        ),
        None
    );
}
