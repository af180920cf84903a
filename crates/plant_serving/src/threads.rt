//! A session on a thread of its own.
ghost use Rattle.std.specs.Prelude.{◌≡◌, IfOk, IfErr};
ghost use Rattle.plant_serving.specs.Serving.{IsEnded, setting_of};
ghost use Rattle.plant_serving.specs.Working.{ServesOne, promised};
ghost use Rattle.shared_sessions.specs.Sessions.{MayServe, IsServed, home_of, line};

use day_rows::Schema;
use outside_api::{Clock, Disk, Gate, Link, Recorder};
use plant_shared::{Lock, PlantGuard, PlantPass};
use q_values::Limits;
use shared_sessions::{Connection, Finished, serve_shared};
use std::alloc::Global;
use std::marker::Model;
use std::snapshot::Snapshot;
use std::sync::atomic::{AtomicBool, Ordering};
use std::sync::{Arc, Wait};
use std::thread::{Promise, PromisedHandle, Scope, Threads};

/// What the sessions of a server share.
#[derive(Drop)]
pub struct Shop<'s, K, R> {
    /// The runtime.
    pub rt: &'s R,
    /// The allocator of the sessions.
    pub alloc: Global,
    /// The lock round the plant.
    pub lock: &'s K,
    /// The limits of the plant.
    pub limits: &'s Limits,
}

/// What the thread of a session promises: the session that `serve_shared` serves with this pass and these devices.
#[derive(Drop)]
pub struct SessionPromise<D: Disk, L, C, G, N> {
    lock: Snapshot<Lock<D>>,
    limits: Limits,
    pass: Snapshot<PlantPass<D>>,
    connection: Snapshot<Connection<L, C, G, N>>,
}

impl<D: Disk, L: Link, C: Clock, G, N: Recorder> Promise<Finished<L, C, N>>
    for SessionPromise<D, L, C, G, N> {
    ghost use Rattle.plant_serving.specs.Serving.{IsEnded, setting_of};
    ghost use Rattle.shared_sessions.specs.Sessions.{line};

    ghost kept_by = { λ p f. let given = p.connection.value in
        let before = line (L.shown given.link) (C.readings given.clock) (N.noted given.recorder) in
        let after = line (L.shown f.link) (C.readings f.clock) (N.noted f.recorder) in
        IsEnded D.shown (setting_of p.lock.value p.limits) (record { before = before; began = p.pass.value }) after f.pass f.end };
}

/// A session on a thread. Contracts see what its thread promises.
#[derive(Drop)]
pub struct Running<D: Disk, L: Link, C: Clock, G, N: Recorder> {
    // whether it has ended: its thread can be joined without waiting
    has_ended: Arc<AtomicBool>,
    thread: PromisedHandle<Finished<L, C, N>, SessionPromise<D, L, C, G, N>>,
}

impl<D: Disk, L: Link, C: Clock, G, N: Recorder> Model for Running<D, L, C, G, N> {
    ghost use Rattle.plant_serving.specs.Serving.{setting_of};
    ghost use Rattle.plant_serving.specs.Working.{Promised};
    ghost use Rattle.shared_sessions.specs.Sessions.{line};

    ghost Value = { Promised D };

    ghost view = { λ r. let p = r.thread.promise in
        let given = p.connection.value in
        let before = line (L.shown given.link) (C.readings given.clock) (N.noted given.recorder) in
        record { setting = setting_of p.lock.value p.limits; accepted = record { before = before; began = p.pass.value } } };
}

impl<D: Disk, L: Link, C: Clock, G, N: Recorder> Running<D, L, C, G, N> {
    /// Whether the session has ended.
    pub fn has_ended(&self) -> bool {
        self.has_ended.load(Ordering::SeqCst)
    }

    /// What is left of the session. It waits until the session has ended.
    pub fn join<R: Threads>(self, rt: &R) -> Finished<L, C, N>
        ensures { let after = line (L.shown result.link) (C.readings result.clock) (N.noted result.recorder) in
            IsEnded D.shown self.setting self.accepted after result.pass result.end }
    {
        let Running { thread, .. } = self;
        thread.join(rt)
    }
}

/// Serves a connection on a thread of its own. Where no thread can be started it is served here, and has ended on return.
pub fn start<
    's,
    E,
    D: Disk + Send + 's,
    L: Link + Send + Drop + 's,
    C: Clock + Send + Drop + 's,
    G: Gate + Send + Drop + 's,
    N: Recorder + Send + Drop + 's,
    R: Wait + Sync + 's,
>(
    scope: &Scope<'s, E>,
    shop: &Shop<'s, Lock<D>, R>,
    pass: PlantPass<D>,
    schema: Arc<Schema>,
    connection: Connection<L, C, G, N>,
) -> Result<Running<D, L, C, G, N>, Finished<L, C, N>>
    requires { MayServe shop.now.lock.now pass schema.value shop.now.limits.now }
    ensures started { let before = line (L.shown connection.link) (C.readings connection.clock) (N.noted connection.recorder) in
        IfOk result (λ r. r ≡ record {
          setting = setting_of shop.now.lock.now shop.now.limits.now;
          accepted = record { before = before; began = pass };
        }) }
    ensures here { let before = line (L.shown connection.link) (C.readings connection.clock) (N.noted connection.recorder) in
        IfErr result (λ f. let after = line (L.shown f.link) (C.readings f.clock) (N.noted f.recorder) in
        IsEnded D.shown (setting_of shop.now.lock.now shop.now.limits.now) (record { before = before; began = pass }) after f.pass f.end) }
{
    start_by(scope, shop, pass, schema, connection)
}

/// The same, by any lock that threads may share.
fn start_by<
    's,
    E,
    K: PlantGuard + Sync + 's,
    L: Link + Send + Drop + 's,
    C: Clock + Send + Drop + 's,
    G: Gate + Send + Drop + 's,
    N: Recorder + Send + Drop + 's,
    R: Wait + Sync + 's,
>(
    scope: &Scope<'s, E>,
    shop: &Shop<'s, K, R>,
    pass: PlantPass<K::Disk>,
    schema: Arc<Schema>,
    connection: Connection<L, C, G, N>,
) -> Result<Running<K::Disk, L, C, G, N>, Finished<L, C, N>>
    requires { MayServe (K.lock_of shop.now.lock.now) pass schema.value shop.now.limits.now }
    ensures started { let before = line (L.shown connection.link) (C.readings connection.clock) (N.noted connection.recorder) in
        IfOk result (λ r. r ≡ promised (K.lock_of shop.now.lock.now) shop.now.limits.now before pass) }
    ensures here { let before = line (L.shown connection.link) (C.readings connection.clock) (N.noted connection.recorder) in
        IfErr result (λ f. let after = line (L.shown f.link) (C.readings f.clock) (N.noted f.recorder) in
        ServesOne K.Disk.shown (K.lock_of shop.now.lock.now) shop.now.limits.now before pass after f.pass f.end) }
{
    let task = Task::of(shop, pass, schema, connection);
    match flags(shop.alloc) {
        Some(flags) => task.start(scope, flags),
        None => Err(task.run()),
    }
}

/// A session that is to be served: what its thread is given.
#[derive(Drop)]
struct Task<'s, K: PlantGuard, L, C, G, N, R> {
    shop: Shop<'s, K, R>,
    pass: PlantPass<K::Disk>,
    schema: Arc<Schema>,
    connection: Connection<L, C, G, N>,
}

impl<
    's,
    K: PlantGuard + Sync + 's,
    L: Link + Send + Drop + 's,
    C: Clock + Send + Drop + 's,
    G: Gate + Send + Drop + 's,
    N: Recorder + Send + Drop + 's,
    R: Wait + Sync + 's,
> Task<'s, K, L, C, G, N, R> {
    /// A session of this shop.
    fn of(
        shop: &Shop<'s, K, R>,
        pass: PlantPass<K::Disk>,
        schema: Arc<Schema>,
        connection: Connection<L, C, G, N>,
    ) -> Task<'s, K, L, C, G, N, R>
        ensures shop { result.shop ≡ shop.now }
        ensures pass { result.pass ≡ pass }
        ensures schema { result.schema ≡ schema }
        ensures connection { result.connection ≡ connection }
    {
        let Shop {
            rt,
            alloc,
            lock,
            limits,
        } = *shop;
        Task {
            shop: Shop {
                rt,
                alloc,
                lock,
                limits,
            },
            pass,
            schema,
            connection,
        }
    }

    /// What its thread promises.
    fn promise(&self) -> SessionPromise<K::Disk, L, C, G, N>
        ensures lock { result.lock.value ≡ K.lock_of self.now.shop.lock.now }
        ensures limits { result.limits ≡ self.now.shop.limits.now }
        ensures pass { result.pass.value ≡ self.now.pass }
        ensures connection { result.connection.value ≡ self.now.connection }
    {
        SessionPromise {
            lock: Snapshot::of(self.shop.lock.plant_lock()),
            limits: *self.shop.limits,
            pass: Snapshot::of(&self.pass),
            connection: Snapshot::of(&self.connection),
        }
    }

    /// Serves it on this thread.
    fn run(self) -> Finished<L, C, N>
        requires { MayServe (K.lock_of self.shop.lock.now) self.pass self.schema.value self.shop.limits.now }
        ensures { let given = self.entry.connection in
            let before = line (L.shown given.link) (C.readings given.clock) (N.noted given.recorder) in
            let after = line (L.shown result.link) (C.readings result.clock) (N.noted result.recorder) in
            ServesOne K.Disk.shown (K.lock_of self.entry.shop.lock.now) self.entry.shop.limits.now before self.entry.pass after result.pass result.end }
    {
        let Task {
            shop,
            pass,
            schema,
            connection,
        } = self;
        let plant = shop.lock.plant_lock();
        serve_shared(
            shop.rt,
            shop.alloc,
            plant,
            pass,
            schema,
            connection,
            shop.limits,
        )
    }

    /// Serves it on a thread of its own, or here where none can be started. The flags are one, which is set at its end.
    fn start<E>(
        self,
        scope: &Scope<'s, E>,
        flags: (Arc<AtomicBool>, Arc<AtomicBool>),
    ) -> Result<Running<K::Disk, L, C, G, N>, Finished<L, C, N>>
        requires { MayServe (K.lock_of self.shop.lock.now) self.pass self.schema.value self.shop.limits.now }
        ensures started { let given = self.entry.connection in
            let before = line (L.shown given.link) (C.readings given.clock) (N.noted given.recorder) in
            IfOk result (λ r. r ≡ promised (K.lock_of self.entry.shop.lock.now) self.entry.shop.limits.now before self.entry.pass) }
        ensures here { let given = self.entry.connection in
            let before = line (L.shown given.link) (C.readings given.clock) (N.noted given.recorder) in
            IfErr result (λ f. let after = line (L.shown f.link) (C.readings f.clock) (N.noted f.recorder) in
            ServesOne K.Disk.shown (K.lock_of self.entry.shop.lock.now) self.entry.shop.limits.now before self.entry.pass after f.pass f.end) }
    {
        let (ours, theirs) = flags;
        let task = self;
        let started = scope.spawn_with(
            task.promise(),
            move || -> Finished<L, C, N>
                requires { MayServe (K.lock_of task.shop.lock.now) task.pass task.schema.value task.shop.limits.now }
                ensures { let given = task.entry.connection in
                    let before = line (L.shown given.link) (C.readings given.clock) (N.noted given.recorder) in
                    let after = line (L.shown result.link) (C.readings result.clock) (N.noted result.recorder) in
                    ServesOne K.Disk.shown (K.lock_of task.entry.shop.lock.now) task.entry.shop.limits.now before task.entry.pass after result.pass result.end }
            {
                let finished = task.run();
                theirs.store(true, Ordering::SeqCst);
                finished
            },
        );
        match started {
            Ok(thread) => Ok(Running {
                has_ended: ours,
                thread,
            }),
            Err(refused) => Err((refused.value)()),
        }
    }
}

/// A flag that isn't set, shared by two.
fn flags(alloc: Global) -> Option<(Arc<AtomicBool>, Arc<AtomicBool>)> {
    let ours = Arc::new(alloc, AtomicBool::new(false)).ok()?;
    let theirs = ours.clone().ok()?;
    Some((ours, theirs))
}
