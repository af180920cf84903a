//! The steps of the lock on its table, each over the seat of one pass.
ghost use Rattle.std.specs.Prelude.{◌≡◌, ◌<◌, ◌+◌, ◌^◌, ◌++◌, [], ◌∷◌, length, max, true, false, drop, All, Some, None};
ghost use mathlib.Core.List.{IsPrefix};
ghost use Rattle.plant_lock.specs.Entries.{own, IsExtendedBy, longer};
ghost use Rattle.plant_lock.specs.Law.{turned};
ghost use Rattle.plant_lock.specs.Seated.{IsSized, IsSameSeat, resting, noting};
ghost use Rattle.plant_lock.specs.declared.view.Stage.TheVariants.{Idle, Waits, Turns, Holds};

use crate::board::{ENTRIES, NUMBERS, Place, SERVING, TICKETS, Top};
use crate::chronicle::Chronicle;
use crate::plays::{Count, Framed, Learn, Look, Number, Serve, Settle, Take, Ticket};
use crate::sleepers::Sleepers;
use std::hint;
use std::marker::Brand;
use std::sync::Wait;

// How often a seat looks before it sleeps.
const LOOKS: u32 = 8;

// How often a seat sleeps before it draws a ticket that isn't served at once.
const SLEEPS: u32 = 2;

// Draws the next ticket. It waits until that ticket would be served at once, but not for ever: others may come first each
// time, and a seat with a ticket can't be passed over.
fn draw_ticket<S: Chronicle, R: Wait>(
    rt: &R,
    top: &Top<S>,
    sleepers: &Sleepers,
    seat: &mut Place<S>,
) -> u64
    requires table { (seat.old.table_id ≡ top.now.table_id) × IsSized top.now.table_id }
    requires idle { seat.old.me.0.stage ≡ Idle }
    ensures same { IsSameSeat seat.old seat.new }
    ensures waits { seat.new.me ≡ (record seat.old.me.0 { stage = Waits result }, seat.old.me.1) }
{
    let mut looks: u32 = 0;
    for _ in rt.forever() {
        let next = top.peek(TICKETS);
        let slept = looks / LOOKS;
        if next < u64::MAX && (slept >= SLEEPS || top.peek(SERVING) == next) {
            let found = top.compare_exchange::<Ticket>(seat, TICKETS, next, next + 1);
            if found == next {
                if slept > 0 {
                    sleepers.expect_more();
                }
                return next;
            }
        }
        looks = looks.saturating_add(1);
        if looks % LOOKS == 0 {
            sleepers.sleep_while_held(rt, top);
        } else {
            hint::spin_loop();
        }
    }
    unreachable!()
}

// Waits until its ticket is served.
fn wait_turn<S: Chronicle, R: Wait>(
    rt: &R,
    top: &Top<S>,
    sleepers: &Sleepers,
    seat: &mut Place<S>,
    ticket: u64,
)
    requires table { (seat.old.table_id ≡ top.now.table_id) × IsSized top.now.table_id }
    requires waits { seat.old.me.0.stage ≡ Waits ticket }
    ensures same { IsSameSeat seat.old seat.new × (seat.new.me.1 ≡ seat.old.me.1) }
    ensures turned { turned S.by seat.old.me.0 seat.new.me.0 }
{
    let mut looks: u32 = 0;
    for _ in rt.forever() {
        let found = top.load::<Look<S>>(seat, SERVING);
        if found == ticket {
            return;
        }
        looks = looks.saturating_add(1);
        if looks < LOOKS {
            hint::spin_loop();
        } else {
            sleepers.sleep_until_served(rt, top, ticket);
        }
    }
    unreachable!()
}

/// Waits for the seat's turn. It then sees the whole history.
pub(crate) fn queue<S: Chronicle, R: Wait>(
    rt: &R,
    top: &Top<S>,
    sleepers: &Sleepers,
    seat: &mut Place<S>,
)
    requires table { (seat.old.table_id ≡ top.now.table_id) × IsSized top.now.table_id }
    requires idle { seat.old.me.0.stage ≡ Idle }
    ensures same { IsSameSeat seat.old seat.new × (seat.new.me.1 ≡ seat.old.me.1) }
    ensures turned { turned S.by seat.old.me.0 seat.new.me.0 }
{
    let ticket = draw_ticket(rt, top, sleepers, seat);
    wait_turn(rt, top, sleepers, seat, ticket);
}

// Takes the state, of the frame that is named, out of the slot.
fn take_framed<S: Chronicle, J: Framed<<S as Chronicle>::Frame>>(
    top: &Top<S>,
    seat: &mut Place<S>,
) -> S
    requires table { (seat.old.table_id ≡ top.now.table_id) × IsSized top.now.table_id }
    requires turns { (seat.old.me.0.stage ≡ Turns) × (seat.old.me.1 ≡ []) }
    requires frame { J.frame ≡ Some (S.frame top.now.key.state.value) }
    ensures same { IsSameSeat seat.old seat.new }
    ensures holds { seat.new.me ≡ (record seat.old.me.0 { stage = Holds }, (0, None) ∷ []) }
    ensures history { S.entries result ≡ seat.old.me.0.seen }
    ensures frame { J.frame ≡ Some (S.frame result) }
{
    top.load::<Take<S, J>>(seat, SERVING);
    match top.exchange(seat, 0, None) {
        Some(state) => state,
        None => unreachable!(),
    }
}

/// Takes the state out of the slot.
pub(crate) fn take_state<S: Chronicle>(top: &Top<S>, seat: &mut Place<S>) -> S
    requires table { (seat.old.table_id ≡ top.now.table_id) × IsSized top.now.table_id }
    requires turns { (seat.old.me.0.stage ≡ Turns) × (seat.old.me.1 ≡ []) }
    ensures same { IsSameSeat seat.old seat.new }
    ensures holds { seat.new.me ≡ (record seat.old.me.0 { stage = Holds }, (0, None) ∷ []) }
    ensures history { S.entries result ≡ seat.old.me.0.seen }
    ensures frame { S.frame result ≡ S.frame top.now.key.state.value }
{
    take_framed::<S, Brand>(top, seat)
}

// Puts the state back into the slot.
fn put_state<S: Chronicle>(top: &Top<S>, seat: &mut Place<S>, state: S)
    requires table { seat.old.table_id ≡ top.now.table_id }
    requires holds { seat.old.me.1 ≡ (0, None) ∷ [] }
    ensures same { IsSameSeat seat.old seat.new }
    ensures put { seat.new.me ≡ (seat.old.me.0, (0, Some state) ∷ []) }
{
    match top.exchange(seat, 0, Some(state)) {
        None => {}
        Some(_) => unreachable!(),
    }
}

// Serves the next ticket, and wakes the one thread that may take the state, if it sleeps.
fn serve_next<S: Chronicle>(top: &Top<S>, sleepers: &Sleepers, seat: &mut Place<S>)
    requires table { (seat.old.table_id ≡ top.now.table_id) × IsSized top.now.table_id }
    requires holds { (x : S) × (seat.old.me.0.stage ≡ Holds) × (seat.old.me.1 ≡ (0, Some x) ∷ [])
        × (S.entries x ≡ seat.old.me.0.seen) × (S.frame x ≡ S.frame top.now.key.state.value) }
    ensures same { IsSameSeat seat.old seat.new }
    ensures served { seat.new.me ≡ (record seat.old.me.0 { stage = Idle }, []) }
{
    let served = top.fetch_add::<Serve>(seat, SERVING, 1);
    sleepers.wake_next(top, served.wrapping_add(1));
}

/// Puts the state back, counts the entries that were added, and serves the next ticket.
pub(crate) fn give_state<S: Chronicle>(
    top: &Top<S>,
    sleepers: &Sleepers,
    seat: &mut Place<S>,
    state: S,
    taken: u64,
)
    requires table { (seat.old.table_id ≡ top.now.table_id) × IsSized top.now.table_id }
    requires holds { (seat.old.me.0.stage ≡ Holds) × (seat.old.me.0.drawn ≡ true) × (seat.old.me.1 ≡ (0, None) ∷ []) }
    requires counted { taken ≡ length seat.old.me.0.seen }
    requires frame { S.frame state ≡ S.frame top.now.key.state.value }
    requires history { IsExtendedBy S.by seat.old.me.0.number seat.old.me.0.seen (S.entries state) }
    ensures same { IsSameSeat seat.old seat.new }
    ensures seen { let mine = seat.old.me.0.mine ++ drop (length seat.old.me.0.seen) (S.entries state) in
        seat.new.me ≡ (record seat.old.me.0 { seen = S.entries state; mine = mine; stage = Idle }, []) }
    ensures own { own S.by seat.old.me.0.number (S.entries state) ≡ seat.old.me.0.mine ++ drop (length seat.old.me.0.seen) (S.entries state) }
{
    let added = state.length() - taken;
    put_state(top, seat, state);
    top.fetch_add::<Count<S>>(seat, ENTRIES, added);
    serve_next(top, sleepers, seat);
}

/// Draws a number for a seat that has none.
pub(crate) fn draw_number<S: Chronicle, R: Wait>(rt: &R, top: &Top<S>, seat: &mut Place<S>) -> u64
    requires table { (seat.old.table_id ≡ top.now.table_id) × IsSized top.now.table_id }
    requires fresh { (seat.old.me.0.drawn ≡ false) × (seat.old.me.0.mine ≡ []) }
    ensures same { IsSameSeat seat.old seat.new }
    ensures drawn { seat.new.me ≡ (record seat.old.me.0 { drawn = true; number = result; latest = result }, seat.old.me.1) }
    ensures above { seat.old.me.0.latest < result }
    ensures few { result + 1 < 2 ^ 64 }
    ensures undrawn { All (λ e. S.by e < result) seat.old.me.0.seen }
{
    for _ in rt.forever() {
        let next = top.peek(NUMBERS);
        if next < u64::MAX {
            let found = top.compare_exchange::<Number<S>>(seat, NUMBERS, next, next + 1);
            if found == next {
                return next;
            }
        }
        hint::spin_loop();
    }
    unreachable!()
}

// Learns that both lists that were joined are beginnings of what is seen.
fn settle<S: Chronicle>(top: &Top<S>, seat: &mut Place<S>)
    requires table { (seat.old.table_id ≡ top.now.table_id) × IsSized top.now.table_id }
    requires joined { seat.old.me.0.seen ≡ longer seat.old.me.0.before seat.old.me.0.told }
    ensures same { IsSameSeat seat.old seat.new }
    ensures settled { seat.new.me ≡ (record seat.old.me.0 { before = []; told = [] }, seat.old.me.1) }
    ensures before { IsPrefix seat.old.me.0.before seat.old.me.0.seen }
    ensures told { IsPrefix seat.old.me.0.told seat.old.me.0.seen }
    ensures own { seat.old.me.0.drawn ≡ true → own S.by seat.old.me.0.number seat.old.me.0.seen ≡ seat.old.me.0.mine }
{
    top.load::<Settle<S>>(seat, ENTRIES);
}

/// Joins a seat that has no number to one that has, and settles what both had seen.
pub(crate) fn learn_seat<S: Chronicle>(top: &Top<S>, seat: &mut Place<S>, other: Place<S>)
    requires table { (seat.old.table_id ≡ top.now.table_id) × (other.table_id ≡ top.now.table_id) × IsSized top.now.table_id }
    requires rests { seat.old.me ≡ (resting seat.old.me.0.number seat.old.me.0.latest seat.old.me.0.seen seat.old.me.0.mine, []) }
    requires notes { other.me ≡ (noting other.me.0.latest other.me.0.seen, []) }
    ensures same { IsSameSeat seat.old seat.new }
    ensures learnt { seat.new.me ≡ (
      resting seat.old.me.0.number (max seat.old.me.0.latest other.me.0.latest)
          (longer seat.old.me.0.seen other.me.0.seen) seat.old.me.0.mine,
      [],
    ) }
    ensures before { IsPrefix seat.old.me.0.seen (longer seat.old.me.0.seen other.me.0.seen) }
    ensures told { IsPrefix other.me.0.seen (longer seat.old.me.0.seen other.me.0.seen) }
    ensures own { own S.by seat.old.me.0.number (longer seat.old.me.0.seen other.me.0.seen) ≡ seat.old.me.0.mine }
{
    top.join_seat::<Learn>(seat, other);
    settle(top, seat);
}
