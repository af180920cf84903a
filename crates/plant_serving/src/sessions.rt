//! The sessions of a server: those that run, and what those that have ended leave.
ghost use Rattle.std.specs.Prelude.{◌≡◌, ◌+◌, ◌<◌, ◌++◌, [], ◌∷◌, None, false, vec_len};
ghost use Rattle.plant_serving.specs.Serving.{IsEnded, setting_of};
ghost use Rattle.plant_serving.specs.Working.{Promised, Works};
ghost use Rattle.shared_sessions.specs.Sessions.{line};

use crate::end::Progress;
use crate::threads::{Running, Shop};
use day_rows::Schema;
use outside_api::Disk;
use plant_shared::{Lock, PlantPass};
use program_outside::Outside;
use shared_sessions::Finished;
use std::alloc::Global;
use std::snapshot::Snapshot;
use std::sync::Arc;
use std::thread::Threads;

/// What a server serves, and to how many.
#[derive(Drop)]
pub struct Server<'s, D: Disk, O, R> {
    /// What its sessions share.
    pub shop: Shop<'s, Lock<D>, R>,
    /// The tables of the plant.
    pub schema: Arc<Schema>,
    /// How many sessions it serves.
    pub count: u32,
    /// The outside as it was at first, for contracts alone; takes no memory.
    pub began: Snapshot<O>,
}

/// The sessions of a server.
#[derive(Drop)]
pub struct Sessions<D: Disk, O: Outside> {
    /// The pass that learns what each session's pass had seen.
    pub first: PlantPass<D>,
    /// Those on threads.
    pub running: Vec<Running<D, O::Link, O::Clock, O::Gate, O::Recorder>>,
    /// How far the server has come.
    pub progress: Progress,
}

impl<D: Disk + Send, O: Outside> Sessions<D, O> {
    /// No session yet.
    pub fn new(alloc: Global, first: PlantPass<D>) -> Sessions<D, O>
        ensures first { result.first ≡ first }
        ensures running { result.running.items ≡ [] }
        ensures progress { result.progress ≡ record { accepted = 0; is_short = false; stopped = None } }
    {
        Sessions {
            first,
            running: Vec::new(alloc),
            progress: Progress {
                accepted: 0,
                is_short: false,
                stopped: None,
            },
        }
    }

    /// Keeps a session that runs. Out of memory for one more, the server waits until it has ended.
    pub fn wait_for<'s, R: Threads>(
        mut self,
        server: &Server<'s, D, O, R>,
        running: Running<D, O::Link, O::Clock, O::Gate, O::Recorder>,
        outside: &mut O,
    ) -> Sessions<D, O>
        requires { Works D.shown (setting_of server.now.shop.lock.now server.now.shop.limits.now) server.now.count (O.seen server.now.began.value)
            self.first (self.running.items ++ running ∷ []) self.progress (O.seen outside.old) }
        ensures { Works D.shown (setting_of server.now.shop.lock.now server.now.shop.limits.now) server.now.count (O.seen server.now.began.value)
            result.first result.running.items result.progress (O.seen outside.new) }
    {
        match self.running.push(running) {
            Ok(()) => self,
            Err(refused) => {
                let finished = refused.value.join(server.shop.rt);
                self.settle(server, finished, outside)
            }
        }
    }

    /// Learns what the pass of a session had seen that has ended, and hands its devices back.
    pub fn settle<'s, R>(
        mut self,
        server: &Server<'s, D, O, R>,
        finished: Finished<O::Link, O::Clock, O::Recorder>,
        outside: &mut O,
    ) -> Sessions<D, O>
        requires { (promised : Promised D)
            × Works D.shown (setting_of server.now.shop.lock.now server.now.shop.limits.now) server.now.count (O.seen server.now.began.value)
            self.first (promised ∷ self.running.items) self.progress (O.seen outside.old)
            × IsEnded D.shown promised.setting promised.accepted
            (line (O.Link.shown finished.link) (O.Clock.readings finished.clock) (O.Recorder.noted finished.recorder)) finished.pass finished.end }
        ensures works { Works D.shown (setting_of server.now.shop.lock.now server.now.shop.limits.now) server.now.count (O.seen server.now.began.value)
            result.first result.running.items result.progress (O.seen outside.new) }
        ensures running { result.running ≡ self.running }
        ensures progress { result.progress ≡ record self.progress { is_short = result.progress.is_short } }
    {
        let Finished {
            end,
            link,
            clock,
            recorder,
            pass,
        } = finished;
        let (_pass, note) = server.shop.lock.note(pass);
        self.first = server.shop.lock.learn(self.first, note);
        self.progress = self.progress.after(end);
        outside.back(Some(link), Some(clock), Some(recorder));
        self
    }

    /// Joins the session at this index.
    fn join_at<'s, R: Threads>(
        mut self,
        server: &Server<'s, D, O, R>,
        at: usize,
        outside: &mut O,
    ) -> Sessions<D, O>
        requires within { at < vec_len self.running }
        requires works { Works D.shown (setting_of server.now.shop.lock.now server.now.shop.limits.now) server.now.count (O.seen server.now.began.value)
            self.first self.running.items self.progress (O.seen outside.old) }
        ensures works { Works D.shown (setting_of server.now.shop.lock.now server.now.shop.limits.now) server.now.count (O.seen server.now.began.value)
            result.first result.running.items result.progress (O.seen outside.new) }
        ensures fewer { vec_len result.running + 1 ≡ vec_len self.running }
        ensures progress { result.progress ≡ record self.progress { is_short = result.progress.is_short } }
    {
        let running = self.running.swap_remove(at);
        let finished = running.join(server.shop.rt);
        self.settle(server, finished, outside)
    }

    /// Joins the sessions that have ended.
    pub fn join_ended<'s, R: Threads>(
        self,
        server: &Server<'s, D, O, R>,
        outside: &mut O,
    ) -> Sessions<D, O>
        requires { Works D.shown (setting_of server.now.shop.lock.now server.now.shop.limits.now) server.now.count (O.seen server.now.began.value)
            self.first self.running.items self.progress (O.seen outside.old) }
        ensures works { Works D.shown (setting_of server.now.shop.lock.now server.now.shop.limits.now) server.now.count (O.seen server.now.began.value)
            result.first result.running.items result.progress (O.seen outside.new) }
    {
        let mut sessions = self;
        for at in (0..sessions.running.len()).rev() {
            // The one that took the place of a joined one was looked at before it.
            if at < sessions.running.len() && sessions.running[at].has_ended() {
                sessions = sessions.join_at(server, at, outside);
            }
        }
        sessions
    }

    /// Joins all sessions, each when it has ended.
    pub fn join_all<'s, R: Threads>(
        self,
        server: &Server<'s, D, O, R>,
        outside: &mut O,
    ) -> Sessions<D, O>
        requires { Works D.shown (setting_of server.now.shop.lock.now server.now.shop.limits.now) server.now.count (O.seen server.now.began.value)
            self.first self.running.items self.progress (O.seen outside.old) }
        ensures works { Works D.shown (setting_of server.now.shop.lock.now server.now.shop.limits.now) server.now.count (O.seen server.now.began.value)
            result.first result.running.items result.progress (O.seen outside.new) }
        ensures none { vec_len result.running ≡ 0 }
        ensures progress { result.progress ≡ record self.progress { is_short = result.progress.is_short } }
    {
        let mut sessions = self;
        while !sessions.running.is_empty() {
            let last = sessions.running.len() - 1;
            sessions = sessions.join_at(server, last, outside);
        }
        sessions
    }
}
