//! What subscriptions are told.

use crate::spans::{Ask, DATE, Step, entries_of, request_of, shown, subscribed, takes, told};
use pubsub::Subscription;
use schema_text::built_in_schema;
use std::alloc::Global;
use std::process::Abort;

// Two dates: updates of both tables, one without rows, a fault, and symbols that are null or have nine bytes.
const DAYS: [Step<'static>; 8] = [
    Step::Trade(&[b"a", b"b"], 10),
    Step::Quote(&[b"c", b"a"], 1),
    Step::Fault,
    Step::Trade(&[], 0),
    Step::Trade(&[b"b"], 20),
    Step::Roll(8_768),
    Step::Trade(&[b"", b"abcdefghi", b"b"], 30),
    Step::Fault,
];

const EVERYTHING: [Ask<'static>; 1] = [Ask {
    table: b"",
    symbols: None,
}];

// What is asked of `trade`, and what is told.
const SYMBOLS: [(Option<&'static [&'static [u8]]>, &'static [u8]); 9] = [
    (
        None,
        b"trade time=n[0 1] sym=s[a b] price=j[10 11] size=j[7 7]\n\
          trade time=n[0] sym=s[b] price=j[20] size=j[7]\n\
          end 8767\n\
          trade time=n[0 1 2] sym=s[ abcdefghi b] price=j[30 31 32] size=j[7 7 7]\n",
    ),
    (Some(&[]), b"end 8767\n"),
    (Some(&[b"x"]), b"end 8767\n"),
    (
        Some(&[b"a"]),
        b"trade time=n[0] sym=s[a] price=j[10] size=j[7]\nend 8767\n",
    ),
    (
        Some(&[b"b"]),
        b"trade time=n[1] sym=s[b] price=j[11] size=j[7]\n\
          trade time=n[0] sym=s[b] price=j[20] size=j[7]\n\
          end 8767\n\
          trade time=n[2] sym=s[b] price=j[32] size=j[7]\n",
    ),
    (
        Some(&[b"abcdefghi", b"abcdefgh"]),
        b"end 8767\ntrade time=n[1] sym=s[abcdefghi] price=j[31] size=j[7]\n",
    ),
    (
        Some(&[b""]),
        b"end 8767\ntrade time=n[0] sym=s[] price=j[30] size=j[7]\n",
    ),
    (
        Some(&[b"", b"a", b"a"]),
        b"trade time=n[0] sym=s[a] price=j[10] size=j[7]\n\
          end 8767\n\
          trade time=n[0] sym=s[] price=j[30] size=j[7]\n",
    ),
    (
        Some(&[
            b"c", b"d", b"e", b"f", b"g", b"h", b"i", b"j", b"k", b"l", b"m", b"n", b"o", b"a",
        ]),
        b"trade time=n[0] sym=s[a] price=j[10] size=j[7]\nend 8767\n",
    ),
];

fn is_told(
    rt: &impl Abort,
    alloc: Global,
    asks: &[Ask<'_>],
    steps: &[Step<'_>],
    batch: bool,
    wanted: &[u8],
) -> bool {
    let entries = entries_of(rt, alloc, steps);
    let messages = told(rt, alloc, asks, &entries, batch);
    let text = shown(rt, alloc, messages);
    text.as_slice() == wanted
}

#[test]
fn symbols_of_a_table(rt: HostRuntime) {
    for (symbols, wanted) in SYMBOLS {
        let asks = [Ask {
            table: b"trade",
            symbols,
        }];
        assert!(rt;
            is_told(&rt, rt.alloc(), &asks, &DAYS, false, wanted),
            "{wanted:?}"
        );
    }
}

#[test]
fn every_table(rt: HostRuntime) {
    let wanted = b"trade time=n[0 1] sym=s[a b] price=j[10 11] size=j[7 7]\n\
        quote time=n[0 1] sym=s[c a] bid=j[1 2] ask=j[7 7] bsize=j[7 7] asize=j[7 7]\n\
        trade time=n[0] sym=s[b] price=j[20] size=j[7]\n\
        end 8767\n\
        trade time=n[0 1 2] sym=s[ abcdefghi b] price=j[30 31 32] size=j[7 7 7]\n";
    assert!(rt; is_told(&rt, rt.alloc(), &EVERYTHING, &DAYS, false, wanted));
}

#[test]
fn batches_of_dates(rt: HostRuntime) {
    let all = b"quote time=n[0 1] sym=s[c a] bid=j[1 2] ask=j[7 7] bsize=j[7 7] asize=j[7 7]\n\
        trade time=n[0 1 0] sym=s[a b b] price=j[10 11 20] size=j[7 7 7]\n\
        end 8767\n\
        trade time=n[0 1 2] sym=s[ abcdefghi b] price=j[30 31 32] size=j[7 7 7]\n";
    assert!(rt; is_told(&rt, rt.alloc(), &EVERYTHING, &DAYS, true, all));
    let asks = [Ask {
        table: b"",
        symbols: Some(&[b"b", b"c"]),
    }];
    let some = b"quote time=n[0] sym=s[c] bid=j[1] ask=j[7] bsize=j[7] asize=j[7]\n\
        trade time=n[1 0] sym=s[b b] price=j[11 20] size=j[7 7]\n\
        end 8767\n\
        trade time=n[2] sym=s[b] price=j[32] size=j[7]\n";
    assert!(rt; is_told(&rt, rt.alloc(), &asks, &DAYS, true, some));
}

// Asks one after the other: the last one of each table stands.
#[test]
fn requests_in_turn(rt: HostRuntime) {
    let asks = [
        Ask {
            table: b"",
            symbols: None,
        },
        Ask {
            table: b"trade",
            symbols: Some(&[b"a"]),
        },
        Ask {
            table: b"nope",
            symbols: None,
        },
        Ask {
            table: b"trade",
            symbols: Some(&[b"x"]),
        },
    ];
    let wanted =
        b"quote time=n[0 1] sym=s[c a] bid=j[1 2] ask=j[7 7] bsize=j[7 7] asize=j[7 7]\nend 8767\n";
    assert!(rt; is_told(&rt, rt.alloc(), &asks, &DAYS, false, wanted));
}

#[test]
fn nothing_is_told(rt: HostRuntime) {
    assert!(rt; is_told(&rt, rt.alloc(), &[], &DAYS, false, b""));
    assert!(rt; is_told(&rt, rt.alloc(), &[], &DAYS, true, b""));
    assert!(rt; is_told(&rt, rt.alloc(), &EVERYTHING, &[], true, b""));
}

#[test]
fn two_rolls(rt: HostRuntime) {
    let steps = [Step::Roll(DATE + 1), Step::Roll(DATE + 5)];
    assert!(rt;
        is_told(
            &rt,
            rt.alloc(),
            &EVERYTHING,
            &steps,
            false,
            b"end 8767\nend 8768\n"
        )
    );
    assert!(rt;
        is_told(
            &rt,
            rt.alloc(),
            &EVERYTHING,
            &steps,
            true,
            b"end 8767\nend 8768\n"
        )
    );
}

// 17 updates make two messages, of 16 and of one; a fault among them doesn't count.
#[test]
fn batch_of_sixteen(rt: HostRuntime) {
    let alloc = rt.alloc();
    let mut steps = [Step::Trade(&[b"a"], 1); 18];
    steps[3] = Step::Fault;
    let entries = entries_of(&rt, alloc, &steps);
    let joined = told(&rt, alloc, &EVERYTHING, &entries, true);
    let text = shown(&rt, alloc, joined);
    let wanted =
        b"trade time=n[0 0 0 0 0 0 0 0 0 0 0 0 0 0 0 0] sym=s[a a a a a a a a a a a a a a a a] \
        price=j[1 1 1 1 1 1 1 1 1 1 1 1 1 1 1 1] size=j[7 7 7 7 7 7 7 7 7 7 7 7 7 7 7 7]\n\
        trade time=n[0] sym=s[a] price=j[1] size=j[7]\n";
    assert!(rt; text.as_slice() == wanted.as_slice());
    let each = told(&rt, alloc, &EVERYTHING, &entries, false);
    assert_eq!(rt; each.len(), 17);
}

#[test]
fn unknown_table(rt: HostRuntime) {
    let alloc = rt.alloc();
    let schema = built_in_schema(alloc).expect(&rt, "memory");
    let mut subscription = subscribed(&rt, alloc, &schema, &[]);
    let request = request_of(
        &rt,
        alloc,
        Ask {
            table: b"trades",
            symbols: None,
        },
    );
    assert!(rt; !takes(&rt, &mut subscription, &request));
    assert!(rt; !subscription.is_any());
}

#[test]
fn any_table(rt: HostRuntime) {
    let alloc = rt.alloc();
    let schema = built_in_schema(alloc).expect(&rt, "memory");
    let none = Subscription::none(alloc, &schema).expect(&rt, "memory");
    assert!(rt; !none.is_any());
    let asks = [Ask {
        table: b"quote",
        symbols: Some(&[]),
    }];
    assert!(rt; subscribed(&rt, alloc, &schema, &asks).is_any());
}
