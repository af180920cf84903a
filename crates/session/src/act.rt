//! Acting on what was heard: the turns are noted, and then the bytes are sent.
ghost use Rattle.std.specs.Prelude.{◌≡◌, ◌∷◌, [], ℕ, min};
ghost use Rattle.outside_api.specs.Told.{Tells};
ghost use Rattle.session.specs.Acting.{Finishes, NotesRoll, IdlesBy};
ghost use Rattle.session.specs.Answering.{turns_by, sent_by};

use crate::answer::Answer;
use crate::end::End;
use crate::session::Session;
use outside_api::{Clock, Gate, Link, Recorder};
use plant_core::Access;
use q_values::Turn;
use std::alloc::Global;
use std::sync::Wait;

/// The highest capability that a handshake is answered with (KX, IPC reference: 3 stands for messages up to 2 GB).
const MAX_CAPABILITY: u8 = 3;

/// Notes the turn of a roll, if there was one.
fn note_roll<N: Recorder>(recorder: &mut N, roll: Option<Turn>)
    ensures { NotesRoll (N.noted recorder.old) (N.noted recorder.new) roll }
{
    if let Some(roll) = roll {
        recorder.note(roll);
    }
}

/// Sends bytes, if there are any. A write that fails ends the session.
pub fn send<L: Link>(link: &mut L, bytes: &[u8]) -> Option<End>
    ensures { Finishes (L.shown link.old) (L.shown link.new) bytes.now result }
{
    if bytes.is_empty() {
        return None;
    }
    match link.write(bytes) {
        Ok(()) => None,
        Err(_) => Some(End::WriteFault),
    }
}

/// Notes the turns of an answer, and then sends its bytes.
fn finish<L: Link, N: Recorder>(link: &mut L, recorder: &mut N, answer: &Answer) -> Option<End>
    ensures noted { Tells (N.noted recorder.old) (N.noted recorder.new) (turns_by answer.now.roll answer.now.turn) }
    ensures sent { Finishes (L.shown link.old) (L.shown link.new) (sent_by answer.now.reply) result }
{
    note_roll(recorder, answer.roll);
    recorder.note(answer.turn);
    send(link, answer.bytes())
}

/// Answers the handshake with one byte: the client's capability, or the highest one that is served.
pub fn greet<L: Link, N: Recorder>(link: &mut L, recorder: &mut N, capability: u8) -> Option<End>
    ensures noted { Tells (N.noted recorder.old) (N.noted recorder.new) (Turn.Greeted capability ∷ []) }
    ensures sent { Finishes (L.shown link.old) (L.shown link.new) (min capability 3 ∷ []) result }
{
    recorder.note(Turn::Greeted { capability });
    send(link, &[capability.min(MAX_CAPABILITY)])
}

impl<A: Access, L: Link, C: Clock, G: Gate, N: Recorder> Session<'_, A, L, C, G, N> {
    ghost use Rattle.session.specs.Devices.{world_of, state_of, KeepsSubscriber};

    /// Notes the turns of an answer, and then sends its bytes. A write that fails ends the session.
    pub fn finish(&mut self, answer: &Answer) -> Option<End>
        ensures same { KeepsSubscriber self.old self.new }
        ensures access { self.new.access.now ≡ self.old.access.now }
        ensures clock { self.new.clock.now ≡ self.old.clock.now }
        ensures noted { Tells (N.noted self.old.recorder.now) (N.noted self.new.recorder.now) (turns_by answer.now.roll answer.now.turn) }
        ensures sent { Finishes (L.shown self.old.link.now) (L.shown self.new.link.now) (sent_by answer.now.reply) result }
    {
        finish(self.link, self.recorder, answer)
    }

    /// Notes a turn for which nothing is sent.
    pub fn note(&mut self, turn: Turn)
        ensures same { KeepsSubscriber self.old self.new }
        ensures access { self.new.access.now ≡ self.old.access.now }
        ensures link { self.new.link.now ≡ self.old.link.now }
        ensures clock { self.new.clock.now ≡ self.old.clock.now }
        ensures noted { Tells (N.noted self.old.recorder.now) (N.noted self.new.recorder.now) (turn ∷ []) }
    {
        self.recorder.note(turn);
    }

    /// Serves a read timeout of the link, for which nothing is sent.
    pub fn serve_timeout<R: Wait>(&mut self, rt: &R, alloc: Global)
        ensures same { KeepsSubscriber self.old self.new }
        ensures idled { IdlesBy (state_of A.shown self.old)
            (world_of A.shown L.shown C.readings N.noted self.old)
            (world_of A.shown L.shown C.readings N.noted self.new) }
    {
        let answer = self.answer_timeout(rt, alloc);
        note_roll(self.recorder, answer.roll);
        self.recorder.note(answer.turn);
    }
}
