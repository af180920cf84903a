//! Several passes of one thread.
ghost use Rattle.std.specs.Prelude.{◌≡◌};

use crate::plants::{found, logs, one_trade, opened};
use plant_shared::Shared;

// A session finds no update, another's is answered, and the first one then finds it.
#[test]
fn told_before_asked(rt: HostRuntime) {
    let alloc = rt.alloc();
    let request = one_trade(&rt, alloc);
    let (lock, pass, schema) = opened(&rt, alloc).expect(&rt, "a lock");
    let (first, second) = lock.pass(&rt, pass);
    let mut asks = Shared::new(&lock, first, schema.clone().expect(&rt, "memory"));
    let mut feeds = Shared::new(&lock, second, schema);
    assert_eq!(rt; found(&rt, alloc, &mut asks), 0);
    assert_eq!(rt; logs(&rt, alloc, &mut feeds, &request), Some(0));
    assert_eq!(rt; found(&rt, alloc, &mut asks), 1);
}

// A pass logs an update and writes a note. Another learns it, and finds a chronicle that begins with the update.
#[test]
fn notes_and_save_refusals(rt: HostRuntime) {
    let alloc = rt.alloc();
    let request = one_trade(&rt, alloc);
    let (lock, pass, schema) = opened(&rt, alloc).expect(&rt, "a lock");
    let (first, second) = lock.pass(&rt, pass);
    let mut session = Shared::new(&lock, first, schema.clone().expect(&rt, "memory"));
    assert_eq!(rt; logs(&rt, alloc, &mut session, &request), Some(0));
    let (_first, note) = lock.note(session.into_parts());
    let second = lock.learn(second, note);
    let mut session = Shared::new(&lock, second, schema);
    assert_eq!(rt; found(&rt, alloc, &mut session), 1);
}

// A lock is made where there is memory, and its pass can close it again.
#[test]
fn ample_memory_calls(rt: HostRuntime) {
    let alloc = rt.alloc();
    let (lock, pass, _schema) = opened(&rt, alloc).expect(&rt, "a lock");
    let plant = lock.close(&rt, pass);
    assert_eq!(rt; plant.length(), 0);
}
