//! Serving a message that has a value.
ghost use Rattle.std.specs.Prelude.{◌≡◌, ◌∷◌, [], length};
ghost use Rattle.gateway.specs.Views.{verdict_of};
ghost use Rattle.ipc_frame.specs.Stream.{built};
ghost use Rattle.q_values.specs.Limits.{AreLimits};
ghost use Rattle.q_values.specs.Tree.{Tree, tree};
ghost use Rattle.qsql_request.specs.Views.{sub_of};
ghost use Rattle.session.specs.Acting.{ServesHeard};
ghost use Rattle.session_requests.specs.Asked.{Asks};
ghost use Rattle.session.specs.Owing.{FitsPlant, IsTextOf};
ghost use Rattle.session_requests.specs.Request.{request_of, text};
ghost use Rattle.session.specs.Served.{asked};

use crate::answer::{declined, short, unserved};
use crate::end::End;
use crate::session::Session;
use gateway::Question;
use outside_api::{Clock, Gate, Link, Recorder};
use plant_core::Access;
use q_values::Value;
use qsql_request::{Request, SubRequest};
use session_requests::{Asked, asked_by, subscription_in};
use std::alloc::Global;
use std::sync::Wait;

impl<A: Access, L: Link, C: Clock, G: Gate, N: Recorder> Session<'_, A, L, C, G, N> {
    ghost use Rattle.session.specs.Devices.{world_of, state_of, served_of, HearsNothing};

    /// Serves a text that subscribes.
    fn serve_form<R: Wait>(
        &mut self,
        rt: &R,
        alloc: Global,
        sync: bool,
        form: &SubRequest,
    ) -> Option<End>
        requires limits { AreLimits self.old.limits.now }
        requires same { (A.shown self.old.access.now).frame.limits ≡ self.old.limits.now }
        requires fits { FitsPlant (A.shown self.old.access.now).frame (length (A.shown self.old.access.now).seen) self.old.client.now.subscriber }
        ensures same { HearsNothing self.old self.new }
        ensures performs { (value : Tree) → IsTextOf (request_of value) (sub_of form.now)
            → ServesHeard (asked (record { sync = sync; content = built value }))
            (world_of A.shown L.shown C.readings N.noted self.old)
            (world_of A.shown L.shown C.readings N.noted self.new)
            (state_of A.shown self.old) (served_of A.shown self.new) result }
    {
        match subscription_in(alloc, form) {
            Ok(Some(request)) => self.subscribe(rt, alloc, sync, &request),
            Ok(None) => self.finish(&declined(sync, self.limits)),
            Err(_) => self.finish(&short(sync)),
        }
    }

    /// Serves a text: a subscription, or a question.
    fn serve_text<R: Wait>(
        &mut self,
        rt: &R,
        alloc: Global,
        sync: bool,
        bytes: &[u8],
    ) -> Option<End>
        requires limits { AreLimits self.old.limits.now }
        requires same { (A.shown self.old.access.now).frame.limits ≡ self.old.limits.now }
        requires fits { FitsPlant (A.shown self.old.access.now).frame (length (A.shown self.old.access.now).seen) self.old.client.now.subscriber }
        ensures same { HearsNothing self.old self.new }
        ensures performs { (value : Tree) → request_of value ≡ text bytes.now
            → ServesHeard (asked (record { sync = sync; content = built value }))
            (world_of A.shown L.shown C.readings N.noted self.old)
            (world_of A.shown L.shown C.readings N.noted self.new)
            (state_of A.shown self.old) (served_of A.shown self.new) result }
    {
        let Ok(question) = Question::of(alloc, bytes) else {
            return self.finish(&short(sync));
        };
        match &question {
            Question::Asks(Request::Sub(form)) => self.serve_form(rt, alloc, sync, form),
            _ => {
                let answer = self.answer_text(rt, alloc, sync, &question);
                self.finish(&answer)
            }
        }
    }

    /// Serves what a message asks for.
    fn serve_asked<R: Wait>(
        &mut self,
        rt: &R,
        alloc: Global,
        sync: bool,
        request: &Asked,
    ) -> Option<End>
        requires limits { AreLimits self.old.limits.now }
        requires same { (A.shown self.old.access.now).frame.limits ≡ self.old.limits.now }
        requires fits { FitsPlant (A.shown self.old.access.now).frame (length (A.shown self.old.access.now).seen) self.old.client.now.subscriber }
        ensures same { HearsNothing self.old self.new }
        ensures performs { (value : Tree) → Asks (request_of value) request.now
            → ServesHeard (asked (record { sync = sync; content = built value }))
            (world_of A.shown L.shown C.readings N.noted self.old)
            (world_of A.shown L.shown C.readings N.noted self.new)
            (state_of A.shown self.old) (served_of A.shown self.new) result }
    {
        match request {
            Asked::Update(update) => {
                let answer = self.answer_update(rt, alloc, sync, update);
                self.finish(&answer)
            }
            Asked::Subscription(request) => self.subscribe(rt, alloc, sync, request),
            Asked::Mistyped => self.finish(&declined(sync, self.limits)),
            Asked::Text(bytes) => self.serve_text(rt, alloc, sync, bytes.as_slice()),
            Asked::Other => self.finish(&unserved(sync, self.limits)),
        }
    }

    /// Serves a message that has a value.
    pub fn serve_value<R: Wait>(
        &mut self,
        rt: &R,
        alloc: Global,
        sync: bool,
        value: Value,
    ) -> Option<End>
        requires limits { AreLimits self.old.limits.now }
        requires same { (A.shown self.old.access.now).frame.limits ≡ self.old.limits.now }
        requires fits { FitsPlant (A.shown self.old.access.now).frame (length (A.shown self.old.access.now).seen) self.old.client.now.subscriber }
        ensures same { HearsNothing self.old self.new }
        ensures performs { ServesHeard (asked (record { sync = sync; content = built (tree value) }))
            (world_of A.shown L.shown C.readings N.noted self.old)
            (world_of A.shown L.shown C.readings N.noted self.new)
            (state_of A.shown self.old) (served_of A.shown self.new) result }
    {
        match asked_by(alloc, value) {
            Ok(request) => self.serve_asked(rt, alloc, sync, &request),
            Err(_) => self.finish(&short(sync)),
        }
    }
}
