//! Where threads sleep until they may take the state. No promise of the lock rests on it: which thread is woken, and how
//! often, changes no answer.
ghost use Rattle.plant_lock.specs.Seated.{IsSized};

use crate::board::{SERVING, TICKETS, Top};
use crate::chronicle::Chronicle;
use std::sync::Wait;
use std::sync::atomic::AtomicU64;
use std::sync::atomic::Ordering::SeqCst;

// How many words the threads with tickets sleep on.
const TURNS: u64 = 8;

// The threads with one remainder of their tickets.
#[derive(Drop)]
struct Turn {
    // How many of them sleep, or are about to.
    asleep: AtomicU64,
    // How often they were woken. They sleep on this word.
    wakes: AtomicU64,
}

/// The threads that sleep.
#[derive(Drop)]
pub(crate) struct Sleepers {
    // 1 where a thread without a ticket may sleep. These sleep on this word.
    free: AtomicU64,
    // The threads with tickets, each at the remainder of its ticket.
    turns: [Turn; 8],
}

fn empty_turn() -> Turn {
    Turn {
        asleep: AtomicU64::new(0),
        wakes: AtomicU64::new(0),
    }
}

impl Sleepers {
    /// Nobody sleeps.
    pub(crate) fn none() -> Sleepers {
        Sleepers {
            free: AtomicU64::new(0),
            turns: [
                empty_turn(),
                empty_turn(),
                empty_turn(),
                empty_turn(),
                empty_turn(),
                empty_turn(),
                empty_turn(),
                empty_turn(),
            ],
        }
    }

    // The threads with this remainder.
    fn turn_of(&self, ticket: u64) -> &Turn {
        &self.turns[(ticket % TURNS) as usize]
    }

    /// Says that a thread without a ticket may sleep. Who has slept says it before the state is given back: others may
    /// sleep still, and the one wake that was sent is used up.
    pub(crate) fn expect_more(&self) {
        self.free.store(1, SeqCst);
    }

    /// Sleeps while the state is held. It says so first: who gives the state back later finds it.
    pub(crate) fn sleep_while_held<S: Chronicle, R: Wait>(&self, rt: &R, top: &Top<S>)
        requires { IsSized top.now.table_id }
    {
        self.expect_more();
        if top.peek(SERVING) != top.peek(TICKETS) {
            self.free.park(rt, 1);
        }
    }

    /// Sleeps until the ticket is served. It counts itself first: who serves the ticket later finds the count, and whoever
    /// did so before has changed the word.
    pub(crate) fn sleep_until_served<S: Chronicle, R: Wait>(
        &self,
        rt: &R,
        top: &Top<S>,
        ticket: u64,
    )
        requires { IsSized top.now.table_id }
    {
        let turn = self.turn_of(ticket);
        let wakes = turn.wakes.load(SeqCst);
        turn.asleep.fetch_add(1, SeqCst);
        if top.peek(SERVING) != ticket {
            turn.wakes.park(rt, (wakes % 4294967296) as u32);
        }
        turn.asleep.fetch_sub(1, SeqCst);
    }

    /// Wakes the thread that has the ticket `served`, if it sleeps; or, where no thread has it yet, one of those without a
    /// ticket. It is called once the ticket is served.
    pub(crate) fn wake_next<S: Chronicle>(&self, top: &Top<S>, served: u64)
        requires { IsSized top.now.table_id }
    {
        if top.peek(TICKETS) != served {
            let turn = self.turn_of(served);
            if turn.asleep.load(SeqCst) != 0 {
                turn.wakes.fetch_add(1, SeqCst);
                turn.wakes.wake_all();
            }
        } else if self.free.load(SeqCst) != 0 && self.free.swap(0, SeqCst) != 0 {
            self.free.wake_one();
        }
    }
}
