//! Answers to messages and read timeouts.
ghost use Rattle.std.specs.Prelude.{◌≡◌, ◌∷◌, [], if◌then◌else◌, IfOk, Option, List, ℕ, ℤ, true, false, codes, None};
ghost use Rattle.gateway.specs.Answer.{is_subscription, verdict_answer};
ghost use Rattle.gateway.specs.Views.{verdict_of};
ghost use Rattle.q_values.specs.Limits.{AreLimits};
ghost use Rattle.qsql_parse.specs.Verdicts.{IsVerdict};
ghost use Rattle.q_values.specs.Tree.{trees, identity, wrong};
ghost use Rattle.session.specs.Answering.{Does, ServesValue, AnswersRefusal, sent_by, roll_turn};
ghost use Rattle.session_replies.specs.Replies.{reply_bytes};
ghost use Rattle.session_replies.specs.Reply.{response, reply, replied};
ghost use Rattle.session_requests.specs.Request.{update, text};
ghost use Rattle.session.specs.Served.{ServesIdle};

use crate::session::Session;
use day_rows::Schema;
use gateway::Question;
use outside_api::{Clock, Gate, Link, Point, Recorder};
use plant_core::{Access, TickTurn, UpdTurn};
use plant_memory::{Snapshot, UpdRefusal, UpdRequest};
use q_values::{Limits, NoMemory, Turn};
use session_replies::{Reply, disk, done, mistyped, nyi, refuse, respond, wsfull};
use std::alloc::Global;
use std::sync::Wait;

/// The answer to a message or a read timeout: what is noted, and what is sent.
#[derive(Drop)]
pub struct Answer {
    /// The turn of the roll before it, if there was one.
    pub roll: Option<Turn>,
    /// The turn of the message or the timeout.
    pub turn: Turn,
    /// The response, if one is waited for.
    pub reply: Option<Reply>,
}

impl Answer {
    /// The bytes that are sent: none where nothing is waited for.
    pub fn bytes(&self) -> &[u8]
        ensures { result.now ≡ sent_by self.now.reply }
    {
        match &self.reply {
            Some(reply) => reply.as_slice(),
            None => &[],
        }
    }
}

/// The response, if the message was sync.
pub fn replying(sync: bool, reply: Reply) -> Option<Reply>
    ensures { sent_by result ≡ replied sync (reply_bytes reply) }
{
    if sync { Some(reply) } else { None }
}

/// The answer where the session is out of memory.
pub fn short(sync: bool) -> Answer
    ensures roll { result.roll ≡ None }
    ensures turn { result.turn ≡ Turn.Short }
    ensures reply { sent_by result.reply ≡ replied sync (response (wrong (codes "wsfull"))) }
{
    Answer {
        roll: None,
        turn: Turn::Short,
        reply: replying(sync, wsfull()),
    }
}

/// The answer to a message that is no request.
pub fn unserved(sync: bool, limits: &Limits) -> Answer
    ensures roll { result.roll ≡ None }
    ensures turn { result.turn ≡ (if sync then Turn.Declined else Turn.Passed) }
    ensures reply { sent_by result.reply ≡ replied sync (reply limits.now (wrong (codes "nyi"))) }
{
    Answer {
        roll: None,
        turn: if sync { Turn::Declined } else { Turn::Passed },
        reply: replying(sync, nyi(limits)),
    }
}

/// The answer to an update or a subscription whose parts are of the wrong kinds.
pub fn declined(sync: bool, limits: &Limits) -> Answer
    ensures roll { result.roll ≡ None }
    ensures turn { result.turn ≡ Turn.Declined }
    ensures reply { sent_by result.reply ≡ replied sync (reply limits.now (wrong (codes "type"))) }
{
    Answer {
        roll: None,
        turn: Turn::Declined,
        reply: replying(sync, mistyped(limits)),
    }
}

/// The answer to an update that was refused at `now`, the chronicle having `length` entries.
fn refused(
    alloc: Global,
    sync: bool,
    limits: &Limits,
    length: u64,
    now: i64,
    why: UpdRefusal,
) -> Answer
    requires { AreLimits limits.now }
    ensures { AnswersRefusal limits.now sync length now why result }
{
    match refuse(alloc, why, limits) {
        Ok(reply) => Answer {
            roll: None,
            turn: Turn::Refused { length, now },
            reply: replying(sync, reply),
        },
        Err(_) => short(sync),
    }
}

/// The turn of the roll that was made as the entry `rolled`, if there was one; after it the gate is paused.
fn after_roll<G: Gate>(gate: &mut G, rolled: Option<u64>, now: i64) -> Option<Turn>
    ensures { result ≡ roll_turn rolled now }
{
    let place = rolled?;
    gate.pause(Point::Rolled);
    Some(Turn::Rolled { place, now })
}

/// The answer to an update that was logged as the entry `place`, after a roll where there was one.
fn logged<G: Gate>(
    gate: &mut G,
    sync: bool,
    limits: &Limits,
    rolled: Option<u64>,
    place: u64,
    now: i64,
) -> Answer
    ensures roll { result.roll ≡ roll_turn rolled now }
    ensures turn { result.turn ≡ Turn.Logged place now }
    ensures reply { sent_by result.reply ≡ replied sync (reply limits.now identity) }
{
    Answer {
        roll: after_roll(gate, rolled, now),
        turn: Turn::Logged { place, now },
        reply: replying(sync, done(limits)),
    }
}

/// The answer to an update at which the disk failed; the fault is the entry `place`, after a roll where there was one.
fn failed<G: Gate>(
    gate: &mut G,
    sync: bool,
    limits: &Limits,
    rolled: Option<u64>,
    place: u64,
    now: i64,
) -> Answer
    ensures roll { result.roll ≡ roll_turn rolled now }
    ensures turn { result.turn ≡ Turn.Failed place now }
    ensures reply { sent_by result.reply ≡ replied sync (reply limits.now (wrong (codes "disk"))) }
{
    Answer {
        roll: after_roll(gate, rolled, now),
        turn: Turn::Failed { place, now },
        reply: replying(sync, disk(limits)),
    }
}

/// A turn for which nothing is sent.
fn unsent(turn: Turn) -> Answer
    ensures roll { result.roll ≡ None }
    ensures turn { result.turn ≡ turn }
    ensures reply { sent_by result.reply ≡ [] }
{
    Answer {
        roll: None,
        turn,
        reply: None,
    }
}

/// The response with the answer to a question over a snapshot.
fn reply_over(
    alloc: Global,
    question: &Question,
    snapshot: &Snapshot,
    schema: &Schema,
    limits: &Limits,
) -> Result<Reply, NoMemory>
    requires limits { AreLimits limits.now }
    requires same { snapshot.now.frame.schema ≡ schema.now }
    ensures { IfOk result (λ r. reply_bytes r
        ≡ reply limits.now (verdict_answer snapshot.now.frame.first schema.now snapshot.now.entries (verdict_of question.now))) }
{
    let value = question.answer(alloc, snapshot, schema)?;
    respond(alloc, &value, limits)
}

impl<A: Access, L: Link, C: Clock, G: Gate, N: Recorder> Session<'_, A, L, C, G, N> {
    ghost use Rattle.session.specs.Devices.{OnlyAsks, state_of};

    /// Logs an update, or refuses it, or reports that the disk failed.
    pub fn answer_update<R: Wait>(
        &mut self,
        rt: &R,
        alloc: Global,
        sync: bool,
        request: &UpdRequest,
    ) -> Answer
        requires limits { AreLimits self.old.limits.now }
        requires same { (A.shown self.old.access.now).frame.limits ≡ self.old.limits.now }
        ensures same { OnlyAsks self.old self.new }
        ensures does { Does
            (ServesValue (A.shown self.old.access.now).frame (A.shown self.old.access.now).by (A.shown self.new.access.now).seen
            sync (update request.now.table (trees request.now.items)))
            (C.readings self.old.clock.now) (C.readings self.new.clock.now)
            (A.shown self.old.access.now) (A.shown self.new.access.now) result }
    {
        let now = self.clock.now();
        match self.access.upd(rt, alloc, request, now) {
            UpdTurn::Logged { rolled, place } => {
                logged(self.gate, sync, self.limits, rolled, place, now)
            }
            UpdTurn::Refused { length, why } => refused(alloc, sync, self.limits, length, now, why),
            UpdTurn::Failed { rolled, place } => {
                failed(self.gate, sync, self.limits, rolled, place, now)
            }
        }
    }

    /// Answers a question over a snapshot of its own.
    fn answer_question<R: Wait>(&mut self, rt: &R, alloc: Global, question: &Question) -> Answer
        requires limits { AreLimits self.old.limits.now }
        requires same { (A.shown self.old.access.now).frame.limits ≡ self.old.limits.now }
        requires asks { is_subscription (verdict_of question.now) ≡ false }
        ensures same { OnlyAsks self.old self.new }
        ensures clock { self.new.clock.now ≡ self.old.clock.now }
        ensures does { (bytes : List ℕ) (k : Option (List ℤ)) → IsVerdict bytes (verdict_of question.now) → Does
            (ServesValue (A.shown self.old.access.now).frame (A.shown self.old.access.now).by (A.shown self.new.access.now).seen
            true (text bytes))
            k k (A.shown self.old.access.now) (A.shown self.new.access.now) result }
    {
        match self.access.snapshot(rt, alloc) {
            Ok(snapshot) => {
                self.gate.pause(Point::Evaluating);
                let length = snapshot.length();
                match reply_over(
                    alloc,
                    question,
                    &snapshot,
                    self.access.schema(),
                    self.limits,
                ) {
                    Ok(reply) => Answer {
                        roll: None,
                        turn: Turn::Answered { length },
                        reply: Some(reply),
                    },
                    Err(_) => short(true),
                }
            }
            Err(_) => short(true),
        }
    }

    /// Answers a text that doesn't subscribe, if anybody waits for the response.
    pub fn answer_text<R: Wait>(
        &mut self,
        rt: &R,
        alloc: Global,
        sync: bool,
        question: &Question,
    ) -> Answer
        requires limits { AreLimits self.old.limits.now }
        requires same { (A.shown self.old.access.now).frame.limits ≡ self.old.limits.now }
        requires asks { is_subscription (verdict_of question.now) ≡ false }
        ensures same { OnlyAsks self.old self.new }
        ensures clock { self.new.clock.now ≡ self.old.clock.now }
        ensures does { (bytes : List ℕ) (k : Option (List ℤ)) → IsVerdict bytes (verdict_of question.now) → Does
            (ServesValue (A.shown self.old.access.now).frame (A.shown self.old.access.now).by (A.shown self.new.access.now).seen
            sync (text bytes))
            k k (A.shown self.old.access.now) (A.shown self.new.access.now) result }
    {
        if sync {
            self.answer_question(rt, alloc, question)
        } else {
            unserved(false, self.limits)
        }
    }

    /// Answers a read timeout: the clock is read, and the open date is ended where the next one has come.
    pub fn answer_timeout<R: Wait>(&mut self, rt: &R, alloc: Global) -> Answer
        ensures same { OnlyAsks self.old self.new }
        ensures does { Does
            (ServesIdle (A.shown self.old.access.now).frame (A.shown self.old.access.now).by (A.shown self.new.access.now).seen
            (state_of A.shown self.old))
            (C.readings self.old.clock.now) (C.readings self.new.clock.now)
            (A.shown self.old.access.now) (A.shown self.new.access.now) result }
    {
        let now = self.clock.now();
        match self.access.tick(rt, alloc, now) {
            TickTurn::Quiet { length } => unsent(Turn::Quiet { length, now }),
            TickTurn::Rolled { place } => {
                self.gate.pause(Point::Rolled);
                unsent(Turn::Rolled { place, now })
            }
            TickTurn::Failed { place } => unsent(Turn::Failed { place, now }),
            TickTurn::NoMemory => unsent(Turn::Short),
        }
    }
}
