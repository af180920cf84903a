//! Serving a subscription (KX, u.q: `.u.sub`).
ghost use Rattle.std.specs.Prelude.{◌≡◌, [], ◌∷◌, IfOk, IfErr, OnOk, length, true, codes, Some, None, if◌then◌else◌};
ghost use Rattle.ipc_frame.specs.Stream.{built};
ghost use Rattle.plant_memory.specs.Frame.{Frame};
ghost use Rattle.publications.specs.Answer.{subscription_tree};
ghost use Rattle.pubsub.specs.Filters.{after_request, is_known, table_names, Refuses};
ghost use Rattle.q_values.specs.Limits.{AreLimits};
ghost use Rattle.q_values.specs.Tree.{Tree, wrong};
ghost use Rattle.outside_api.specs.Told.{Tells};
ghost use Rattle.session.specs.Acting.{ServesHeard, Finishes};
ghost use Rattle.session.specs.Answering.{sent_by, AnswersUnknown};
ghost use Rattle.session.specs.Owing.{FitsPlant, IsSubscriptionTo};
ghost use Rattle.session_replies.specs.Reply.{reply, replied};
ghost use Rattle.session_requests.specs.Request.{request_of};
ghost use Rattle.session.specs.Served.{asked};
ghost use Rattle.session.specs.Subscribing.{chosen_by, IsPaid};

use crate::answer::{Answer, replying, short};
use crate::end::End;
use crate::session::Session;
use crate::subscriber::{Owed, Subscriber};
use outside_api::{Clock, Gate, Link, Recorder};
use plant_core::Access;
use publications::subscription_answer;
use pubsub::{SubRefusal, SubRequest, Subscription};
use q_values::{Limits, NoMemory, Turn};
use session_replies::{Reply, over_the_limit, respond, respond_wrong};
use std::alloc::Global;
use std::sync::Wait;

/// The answer to a subscription that is refused.
fn unknown(alloc: Global, sync: bool, limits: &Limits, why: SubRefusal) -> Answer
    requires { AreLimits limits.now }
    ensures { AnswersUnknown limits.now sync why result }
{
    let name = match why {
        SubRefusal::NoTable(name) => name,
        SubRefusal::NoMemory => return short(sync),
    };
    match respond_wrong(alloc, name.bytes(), limits) {
        Ok(reply) => Answer {
            roll: None,
            turn: Turn::Declined,
            reply: replying(sync, reply),
        },
        Err(_) => short(sync),
    }
}

/// The answer where what is owed before a subscription is too long to be sent.
fn too_long(sync: bool, limits: &Limits, from: u64, to: u64) -> Answer
    ensures roll { result.roll ≡ None }
    ensures turn { result.turn ≡ Turn.TooLong from to }
    ensures reply { sent_by result.reply ≡ replied sync (reply limits.now (wrong (codes "limit"))) }
{
    Answer {
        roll: None,
        turn: Turn::TooLong { from, to },
        reply: replying(sync, over_the_limit(limits)),
    }
}

impl<A: Access, L: Link, C: Clock, G: Gate, N: Recorder> Session<'_, A, L, C, G, N> {
    ghost use Rattle.session.specs.Devices.{world_of, state_of, served_of, HearsNothing};

    /// What the client is subscribed to after a request. Nothing changes.
    fn subscription_after(
        &self,
        alloc: Global,
        request: &SubRequest,
    ) -> Result<Subscription, SubRefusal>
        ensures ok { IfOk result (λ s. s ≡ after_request request.now (chosen_by (A.shown self.now.access.now).frame self.now.client.now.subscriber)) }
        ensures known { OnOk result (is_known request.now.tables
            (table_names (chosen_by (A.shown self.now.access.now).frame self.now.client.now.subscriber).schema) ≡ true) }
        ensures refused { IfErr result (Refuses request.now (chosen_by (A.shown self.now.access.now).frame self.now.client.now.subscriber).schema) }
    {
        match &self.client.subscriber {
            Some(subscriber) => subscriber.subscription.after(request),
            None => {
                let none = Subscription::none(alloc, self.access.schema())?;
                none.after(request)
            }
        }
    }

    /// The response to a subscription, if one is waited for.
    fn reply_to(
        &self,
        alloc: Global,
        sync: bool,
        request: &SubRequest,
    ) -> Result<Option<Reply>, NoMemory>
        requires limits { AreLimits self.now.limits.now }
        requires known { is_known request.now.tables (table_names (A.shown self.now.access.now).frame.schema) ≡ true }
        ensures { IfOk result (λ made. sent_by made
            ≡ replied sync (reply self.now.limits.now (subscription_tree (A.shown self.now.access.now).frame.schema request.now.tables))) }
    {
        if !sync {
            return Ok(None);
        }
        let value = subscription_answer(alloc, self.access.schema(), &request.tables)?;
        let reply = respond(alloc, &value, self.limits)?;
        Ok(Some(reply))
    }

    /// Notes that a subscription holds from the length `to` on, up to which the client was told all that the former one chose,
    /// and sends the response. A write that fails ends the session.
    fn take_up(&mut self, subscription: Subscription, reply: Option<Reply>, to: u64) -> Option<End>
        requires paid { IsPaid self.old.client.now.subscriber to }
        ensures same { HearsNothing self.old self.new }
        ensures access { self.new.access.now ≡ self.old.access.now }
        ensures clock { self.new.clock.now ≡ self.old.clock.now }
        ensures subscriber { self.new.client.now.subscriber ≡ Some (record { subscription = subscription; cursor = to }) }
        ensures noted { Tells (N.noted self.old.recorder.now) (N.noted self.new.recorder.now) (Turn.Subscribed to ∷ []) }
        ensures sent { Finishes (L.shown self.old.link.now) (L.shown self.new.link.now) (sent_by reply) result }
    {
        self.client.subscriber = Some(Subscriber {
            subscription,
            cursor: to,
        });
        self.finish(&Answer {
            roll: None,
            turn: Turn::Subscribed { length: to },
            reply,
        })
    }

    /// Serves a subscription. The new subscription and the response are made first, and then what the old one is owed is sent;
    /// where one of these can't be had, nothing changes.
    pub fn subscribe<R: Wait>(
        &mut self,
        rt: &R,
        alloc: Global,
        sync: bool,
        request: &SubRequest,
    ) -> Option<End>
        requires limits { AreLimits self.old.limits.now }
        requires same { (A.shown self.old.access.now).frame.limits ≡ self.old.limits.now }
        requires fits { FitsPlant (A.shown self.old.access.now).frame (length (A.shown self.old.access.now).seen) self.old.client.now.subscriber }
        ensures same { HearsNothing self.old self.new }
        ensures performs { (value : Tree) → IsSubscriptionTo (request_of value) request.now
            → ServesHeard (asked (record { sync = sync; content = built value }))
            (world_of A.shown L.shown C.readings N.noted self.old)
            (world_of A.shown L.shown C.readings N.noted self.new)
            (state_of A.shown self.old) (served_of A.shown self.new) result }
    {
        let subscription = match self.subscription_after(alloc, request) {
            Ok(subscription) => subscription,
            Err(why) => return self.finish(&unknown(alloc, sync, self.limits, why)),
        };
        let Ok(reply) = self.reply_to(alloc, sync, request) else {
            return self.finish(&short(sync));
        };
        match self.owed(rt, alloc) {
            Ok(Owed::Nothing { to }) => self.take_up(subscription, reply, to),
            Ok(Owed::Messages { from, to, bytes }) => match self.tell(from, to, &bytes) {
                Some(end) => Some(end),
                None => self.take_up(subscription, reply, to),
            },
            Ok(Owed::TooLong { from, to }) => self.finish(&too_long(sync, self.limits, from, to)),
            Err(_) => self.finish(&short(sync)),
        }
    }
}
