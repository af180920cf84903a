//! Messages and answers, byte by byte (KX, IPC reference).

use crate::plants::{begun, end_date, log, sent, symbols_of, tail_from};
use ipc_codec::encode;
use publications::subscription_answer;
use pubsub::{SubRequest, Subscription, Wanted};
use q_values::Sym;
use schema_text::built_in_schema;
use std::alloc::Global;
use std::process::Abort;

// An async message of 111 bytes: `(upd;trade;..)` with one row.
const ONE_TRADE: [u8; 111] = *b"\x01\0\0\0\x6f\0\0\0\
    \0\0\x03\0\0\0\xf5upd\0\xf5trade\0\
    \x62\0\x63\x0b\0\x04\0\0\0time\0sym\0price\0size\0\0\0\x04\0\0\0\
    \x10\0\x01\0\0\0\0\xf0\xd9\xce\x1a\x1f\0\0\
    \x0b\0\x01\0\0\0a\0\
    \x07\0\x01\0\0\0\x0a\0\0\0\0\0\0\0\
    \x07\0\x01\0\0\0\x64\0\0\0\0\0\0\0";

// An async message of 27 bytes: `.u.end` of 2024.01.02.
const END: [u8; 27] = *b"\x01\0\0\0\x1b\0\0\0\0\0\x02\0\0\0\xf5.u.end\0\xf2\x3f\x22\0\0";

// Sets of symbols that no row has.
const NO_ROWS: [&[&[u8]]; 2] = [&[], &[b"x"]];

// The pair of `trade` and the table without rows.
const TRADE_PAIR: [u8; 72] = *b"\0\0\x02\0\0\0\xf5trade\0\
    \x62\0\x63\x0b\0\x04\0\0\0time\0sym\0price\0size\0\0\0\x04\0\0\0\
    \x10\0\0\0\0\0\x0b\0\0\0\0\0\x07\0\0\0\0\0\x07\0\0\0\0\0";

// The pair of `quote` and the table without rows.
const QUOTE_PAIR: [u8; 93] = *b"\0\0\x02\0\0\0\xf5quote\0\
    \x62\0\x63\x0b\0\x06\0\0\0time\0sym\0bid\0ask\0bsize\0asize\0\0\0\x06\0\0\0\
    \x10\0\0\0\0\0\x0b\0\0\0\0\0\x07\0\0\0\0\0\x07\0\0\0\0\0\x07\0\0\0\0\0\x07\0\0\0\0\0";

#[test]
fn update_and_end_of_date(rt: HostRuntime) {
    let alloc = rt.alloc();
    let mut memory = begun(&rt, alloc);
    log(&rt, alloc, &mut memory, symbols_of(&rt, alloc, &[b"a"]), 10);
    end_date(&rt, alloc, &mut memory);
    let tail = tail_from(&rt, alloc, &memory, 0);
    for batch in [false, true] {
        let all = sent(&rt, alloc, &tail, None, batch);
        assert!(rt; all.len() == 138);
        assert!(rt; all.starts_with(&ONE_TRADE));
        assert!(rt; all.ends_with(&END));
    }
}

// No rows of the symbols are told, and a set of no symbols has none; the end of the date is.
#[test]
fn end_of_date_alone(rt: HostRuntime) {
    let alloc = rt.alloc();
    let mut memory = begun(&rt, alloc);
    log(
        &rt,
        alloc,
        &mut memory,
        symbols_of(&rt, alloc, &[b"a", b"b"]),
        10,
    );
    end_date(&rt, alloc, &mut memory);
    let tail = tail_from(&rt, alloc, &memory, 0);
    for symbols in NO_ROWS {
        let all = sent(&rt, alloc, &tail, Some(symbols), false);
        assert!(rt; all.as_slice() == END.as_slice());
    }
}

// The bytes of the answer to a subscription to a table, or to all tables where the name is empty.
fn answer(rt: &impl Abort, alloc: Global, name: &[u8]) -> Vec<u8> {
    let schema = built_in_schema(alloc).expect(rt, "memory");
    let tables = Sym::of(alloc, name).expect(rt, "a symbol");
    let symbols = Wanted::Everything;
    let request = SubRequest { tables, symbols };
    let subscription = Subscription::none(alloc, &schema).expect(rt, "memory");
    if subscription.after(&request).is_err() {
        panic!(rt; "no such table");
    }
    let value = subscription_answer(alloc, &schema, &request.tables).expect(rt, "memory");
    let mut bytes = Vec::new(alloc);
    encode(&mut bytes, &value).expect(rt, "memory");
    bytes
}

#[test]
fn answer_for_one_table(rt: HostRuntime) {
    let bytes = answer(&rt, rt.alloc(), b"trade");
    assert!(rt; bytes.as_slice() == TRADE_PAIR.as_slice());
}

#[test]
fn answer_for_all_tables(rt: HostRuntime) {
    let bytes = answer(&rt, rt.alloc(), b"");
    assert!(rt; bytes.len() == 171);
    assert!(rt; &bytes[..6] == b"\0\0\x02\0\0\0".as_slice());
    assert!(rt; &bytes[6..99] == QUOTE_PAIR.as_slice());
    assert!(rt; &bytes[99..] == TRADE_PAIR.as_slice());
}
