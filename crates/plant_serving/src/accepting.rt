//! Accepting connections, and starting their sessions.
ghost use Rattle.std.specs.Prelude.{◌≡◌, ◌≢◌, None};
ghost use Rattle.outside_api.specs.Told.{HasToldNothing};
ghost use Rattle.plant_serving.specs.Serving.{setting_of};
ghost use Rattle.plant_serving.specs.Working.{IsLawful, IsDone, Works};
ghost use Rattle.program_outside.specs.Outside.{OutsideView, IsListening, HasLinked};

use crate::end::ServeEnd;
use crate::sessions::{Server, Sessions};
use crate::threads::start;
use day_rows::Schema;
use outside_api::Disk;
use program_outside::{MakeFault, Outside};
use shared_sessions::Connection;
use std::sync::{Arc, Wait};
use std::thread::{Scope, Threads};

/// Accepts the connections and starts their sessions, until these are all or no more can be accepted. Those that end
/// meanwhile are joined.
pub fn accept_all<'s, E, D: Disk + Send + 's, O: Outside + 's, R: Threads + Wait + Sync + 's>(
    sessions: Sessions<D, O>,
    scope: &Scope<'s, E>,
    server: &Server<'s, D, O, R>,
    outside: &mut O,
) -> Sessions<D, O>
    requires lawful { IsLawful (setting_of server.now.shop.lock.now server.now.shop.limits.now) server.now.schema.value }
    requires listening { IsListening (O.seen server.now.began.value) }
    requires works { Works D.shown (setting_of server.now.shop.lock.now server.now.shop.limits.now) server.now.count (O.seen server.now.began.value)
        sessions.first sessions.running.items sessions.progress (O.seen outside.old) }
    ensures works { Works D.shown (setting_of server.now.shop.lock.now server.now.shop.limits.now) server.now.count (O.seen server.now.began.value)
        result.first result.running.items result.progress (O.seen outside.new) }
    ensures done { IsDone result.progress server.now.count }
{
    let mut sessions = sessions;
    for _ in server.shop.rt.forever() {
        sessions = sessions.join_ended(server, outside);
        if sessions.progress.is_done(server.count) {
            return sessions;
        }
        sessions = accept_next(sessions, scope, server, outside);
    }
    unreachable!()
}

/// Accepts a connection and starts its session, where one comes.
fn accept_next<'s, E, D: Disk + Send + 's, O: Outside + 's, R: Threads + Wait + Sync + 's>(
    mut sessions: Sessions<D, O>,
    scope: &Scope<'s, E>,
    server: &Server<'s, D, O, R>,
    outside: &mut O,
) -> Sessions<D, O>
    requires lawful { IsLawful (setting_of server.now.shop.lock.now server.now.shop.limits.now) server.now.schema.value }
    requires listening { IsListening (O.seen server.now.began.value) }
    requires goes_on { sessions.progress.stopped ≡ None }
    requires few { sessions.progress.accepted ≢ server.now.count }
    requires works { Works D.shown (setting_of server.now.shop.lock.now server.now.shop.limits.now) server.now.count (O.seen server.now.began.value)
        sessions.first sessions.running.items sessions.progress (O.seen outside.old) }
    ensures { Works D.shown (setting_of server.now.shop.lock.now server.now.shop.limits.now) server.now.count (O.seen server.now.began.value)
        result.first result.running.items result.progress (O.seen outside.new) }
{
    let Ok(schema) = server.schema.clone() else {
        sessions.progress.stopped = Some(ServeEnd::NoMemory);
        return sessions;
    };
    match outside.accept() {
        Ok(Some(link)) => serve(sessions, scope, server, schema, link, outside),
        Ok(None) => sessions,
        Err(MakeFault { cause }) => {
            sessions.progress.stopped = Some(ServeEnd::NotAccepted(cause));
            sessions
        }
    }
}

/// Serves a connection, on a thread of its own where there is one.
fn serve<'s, E, D: Disk + Send + 's, O: Outside + 's, R: Threads + Wait + Sync + 's>(
    mut sessions: Sessions<D, O>,
    scope: &Scope<'s, E>,
    server: &Server<'s, D, O, R>,
    schema: Arc<Schema>,
    link: O::Link,
    outside: &mut O,
) -> Sessions<D, O>
    requires lawful { IsLawful (setting_of server.now.shop.lock.now server.now.shop.limits.now) schema.value }
    requires goes_on { sessions.progress.stopped ≡ None }
    requires few { sessions.progress.accepted ≢ server.now.count }
    requires works { (before : OutsideView) × HasLinked before (O.seen outside.old) (O.Link.shown link)
        × Works D.shown (setting_of server.now.shop.lock.now server.now.shop.limits.now) server.now.count (O.seen server.now.began.value)
        sessions.first sessions.running.items sessions.progress before }
    ensures { Works D.shown (setting_of server.now.shop.lock.now server.now.shop.limits.now) server.now.count (O.seen server.now.began.value)
        result.first result.running.items result.progress (O.seen outside.new) }
{
    let (first, pass) = server.shop.lock.pass(server.shop.rt, sessions.first);
    sessions.first = first;
    sessions.progress.accepted += 1;
    let connection = connected(link, outside);
    match start(scope, &server.shop, pass, schema, connection) {
        Ok(running) => sessions.wait_for(server, running, outside),
        Err(finished) => sessions.settle(server, finished, outside),
    }
}

/// A connection's link with devices of its own.
fn connected<O: Outside>(
    link: O::Link,
    outside: &mut O,
) -> Connection<O::Link, O::Clock, O::Gate, O::Recorder>
    ensures same { O.seen outside.new ≡ O.seen outside.old }
    ensures link { result.link ≡ link }
    ensures clock { HasToldNothing (O.Clock.readings result.clock) }
    ensures recorder { HasToldNothing (O.Recorder.noted result.recorder) }
{
    Connection {
        link,
        clock: outside.clock(),
        gate: outside.gate(),
        recorder: outside.recorder(),
    }
}
