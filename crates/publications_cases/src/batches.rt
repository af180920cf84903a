//! Updates that are joined in batches.

use crate::plants::{begun, log, subscribed, symbols_of, tail_from};
use outside_api::TapMessage;
use pubsub::messages;
use q_values::Column;

// The number of rows of a message, and its first and last price.
fn prices(message: &TapMessage) -> Option<(usize, i64, i64)> {
    let TapMessage::Rows { rows, .. } = message else {
        return None;
    };
    let Column::Longs(_, items) = rows.columns.get(2)?.column() else {
        return None;
    };
    Some((items.len(), *items.first()?, *items.last()?))
}

// 17 updates of one row make two messages: of 16 rows and of one.
#[test]
fn batch_of_sixteen(rt: HostRuntime) {
    let alloc = rt.alloc();
    let mut memory = begun(&rt, alloc);
    for price in 0..17 {
        log(
            &rt,
            alloc,
            &mut memory,
            symbols_of(&rt, alloc, &[b"a"]),
            price,
        );
    }
    let tail = tail_from(&rt, alloc, &memory, 0);
    let subscription = subscribed(&rt, alloc, tail.schema(), None);
    let joined = messages(alloc, &tail, &subscription, true).expect(&rt, "memory");
    let told = joined.as_slice();
    assert!(rt; told.len() == 2);
    assert!(rt; prices(&told[0]) == Some((16, 0, 15)));
    assert!(rt; prices(&told[1]) == Some((1, 16, 16)));
}
