//! A run of `serve`.
ghost use Rattle.std.specs.Prelude.{◌≡◌, ◌<◌, ◌+◌, ◌^◌, ℕ, ℤ, List, Option, IfOk};
ghost use Rattle.std.specs.Option.{option_map};
ghost use Rattle.outside_api.specs.Told.{HasToldNothing};
ghost use Rattle.plant_memory.specs.Chronicle.{top_by};
ghost use Rattle.q_values.specs.Limits.{AreLimits};
ghost use Rattle.plant_run.specs.Causes.{Says};
ghost use Rattle.plant_run.specs.Ends.{cause_line};
ghost use Rattle.plant_run.specs.declared.causes.StartRefusal.TheVariants as r;
ghost use Rattle.plant_run.specs.Port.{CannotListen, EndsService, Hosts, HostsIn, HostsInMemory, HostsOn, HostsWith, port_name};

use crate::causes::StartRefusal;
use crate::ends::{cannot_start, cause_line, short};
use crate::once::not_loaded;
use crate::serving::open_date;
use arrayvec::ArrayString;
use date_loading::LoadRefusal;
use day_rows::Schema;
use itoa::Buffer;
use outside_api::{Clock, Disk};
use outside_mem::MemDisk;
use plant_core::{LoadFailure, Plant};
use plant_serving::{ServeEnd, serve_port};
use program_outside::{Cause, MakeFault, Outside};
use q_values::{Limits, NoMemory};
use std::alloc::Global;
use std::sync::Wait;
use std::thread::Threads;

/// Where connections come from, and how many are served.
#[derive(Clone, Copy)]
pub struct Door {
    /// The port.
    pub port: u16,
    /// How many sessions are served.
    pub sessions: u32,
}

/// How a run over a disk went.
pub enum Service {
    /// The plant isn't loaded.
    NotLoaded(LoadRefusal),
    /// The port can't be listened on.
    NotListening(Cause),
    /// The sessions ended.
    Ended(ServeEnd),
}

/// Serves the plant of the folder of this path, or a new one in memory, to the connections of a port; gives the exit status.
pub fn serve_door<O: Outside, R: Threads + Wait + Sync>(
    rt: &R,
    alloc: Global,
    door: Door,
    folder: Option<&str>,
    schema: Schema,
    limits: &Limits,
    outside: &mut O,
) -> u8
    requires { AreLimits limits.now }
    ensures { HostsWith limits.now schema door.port door.sessions (option_map (λ s. s.now) folder.entry) (O.seen outside.old) (O.seen outside.new) result }
{
    match folder {
        Some(path) => host_folder(rt, alloc, door, path, schema, limits, outside),
        None => host_memory(rt, alloc, door, schema, limits, outside),
    }
}

/// Serves the plant of the folder of this path.
fn host_folder<O: Outside, R: Threads + Wait + Sync>(
    rt: &R,
    alloc: Global,
    door: Door,
    path: &str,
    schema: Schema,
    limits: &Limits,
    outside: &mut O,
) -> u8
    requires { AreLimits limits.now }
    ensures { HostsIn limits.now schema door.port door.sessions path.now (O.seen outside.old) (O.seen outside.new) result }
{
    let disk = match outside.folder(alloc, path) {
        Ok(disk) => disk,
        Err(MakeFault { cause }) => {
            return cannot_start(alloc, path, &StartRefusal::Device(cause), outside);
        }
    };
    let (disk, service, clock) = host(rt, alloc, door, disk, schema, limits, outside);
    outside.back(None, Some(clock), None);
    let status = end_service(alloc, Some(path), door.port, service, outside);
    outside.keep(disk);
    status
}

/// Serves a new plant in memory.
fn host_memory<O: Outside, R: Threads + Wait + Sync>(
    rt: &R,
    alloc: Global,
    door: Door,
    schema: Schema,
    limits: &Limits,
    outside: &mut O,
) -> u8
    requires { AreLimits limits.now }
    ensures { HostsInMemory limits.now schema door.port door.sessions (O.seen outside.old) (O.seen outside.new) result }
{
    let mut disk = MemDisk::new(alloc);
    date_logs::files_restart_once();
    let Ok(()) = Plant::<MemDisk>::format(alloc, &mut disk, &schema) else {
        return short(outside);
    };
    let (_disk, service, clock) = host(rt, alloc, door, disk, schema, limits, outside);
    outside.back(None, Some(clock), None);
    end_service(alloc, None, door.port, service, outside)
}

/// Loads the plant of a disk at the date of a clock's first reading, and serves it. The disk and the clock come back.
fn host<O: Outside, D: Disk + Send, R: Threads + Wait + Sync>(
    rt: &R,
    alloc: Global,
    door: Door,
    disk: D,
    schema: Schema,
    limits: &Limits,
    outside: &mut O,
) -> (D, Service, O::Clock)
    requires { AreLimits limits.now }
    ensures { (clock_old : Option (List ℤ)) × HasToldNothing clock_old × Hosts limits.now schema door.port door.sessions (D.shown disk) (D.shown result.0)
        clock_old (O.Clock.readings result.2) (O.seen outside.old) (O.seen outside.new) result.1 }
{
    let mut clock = outside.clock();
    let source = Source { disk, schema };
    let (disk, service) = host_disk(rt, alloc, door, source, limits, &mut clock, outside);
    (disk, service, clock)
}

/// What a plant is loaded from.
struct Source<D> {
    /// The disk with its logs and parts.
    disk: D,
    /// The tables that it is expected to have.
    schema: Schema,
}

/// The same, by this clock.
fn host_disk<O: Outside, D: Disk + Send, C: Clock, R: Threads + Wait + Sync>(
    rt: &R,
    alloc: Global,
    door: Door,
    source: Source<D>,
    limits: &Limits,
    clock: &mut C,
    outside: &mut O,
) -> (D, Service)
    requires { AreLimits limits.now }
    ensures { Hosts limits.now source.schema door.port door.sessions (D.shown source.disk) (D.shown result.0)
        (C.readings clock.old) (C.readings clock.new) (O.seen outside.old) (O.seen outside.new) result.1 }
{
    let Source { disk, schema } = source;
    let first = clock.now();
    match Plant::load(alloc, disk, schema, open_date(first), limits) {
        Ok(plant) => host_plant(rt, alloc, door, plant, limits, outside),
        Err(LoadFailure { disk, why }) => (disk, Service::NotLoaded(why)),
    }
}

/// Listens on the port, and serves a plant that was just loaded. Its disk comes back.
fn host_plant<O: Outside, D: Disk + Send, R: Threads + Wait + Sync>(
    rt: &R,
    alloc: Global,
    door: Door,
    plant: Plant<D>,
    limits: &Limits,
    outside: &mut O,
) -> (D, Service)
    requires limits { AreLimits limits.now }
    requires same { plant.memory.frame.limits ≡ limits.now }
    requires numbers { top_by plant.memory.entries + 2 < 2 ^ 64 }
    ensures { HostsOn limits.now door.port door.sessions plant.memory (D.shown plant.origin) (D.shown result.0)
        (O.seen outside.old) (O.seen outside.new) result.1 }
{
    if let Err(MakeFault { cause }) = outside.listen(door.port) {
        return (plant.close(), Service::NotListening(cause));
    }
    let (plant, end) = serve_port(rt, alloc, plant, door.sessions, limits, outside);
    (plant.close(), Service::Ended(end))
}

/// Prints the lines of a run's end, if it has any, and gives the exit status.
fn end_service<O: Outside>(
    alloc: Global,
    folder: Option<&str>,
    port: u16,
    service: Service,
    outside: &mut O,
) -> u8
    ensures { EndsService (option_map (λ s. s.now) folder.entry) port (O.seen outside.old) (O.seen outside.new) result service }
{
    match service {
        Service::NotLoaded(why) => not_loaded(alloc, folder, why, outside),
        Service::NotListening(cause) => cannot_listen(alloc, port, cause, outside),
        Service::Ended(ServeEnd::Served) => 0,
        Service::Ended(ServeEnd::NotAccepted(cause)) => cannot_listen(alloc, port, cause, outside),
        Service::Ended(ServeEnd::NoMemory) => short(outside),
    }
}

/// Ends a program that can't listen on its port, or accept a connection: a second line says why.
fn cannot_listen<O: Outside>(alloc: Global, port: u16, cause: Cause, outside: &mut O) -> u8
    ensures { CannotListen port cause (O.seen outside.old) (O.seen outside.new) result }
{
    outside.warn(b"plant: cannot listen");
    match port_line(alloc, port, cause) {
        Ok(line) => outside.warn(&line),
        Err(_) => outside.warn(b"plant: there is no memory to say why"),
    }
    9
}

/// The line that says why a port isn't listened on.
fn port_line(alloc: Global, port: u16, cause: Cause) -> Result<Vec<u8>, NoMemory>
    ensures { IfOk result (λ line. (words : List ℕ) × Says (r.Device cause) words × (line.items ≡ cause_line (port_name port) words)) }
{
    let name = port_name(port);
    cause_line(
        alloc,
        name.as_str().as_bytes(),
        &StartRefusal::Device(cause),
    )
}

/// What a port is called.
fn port_name(port: u16) -> ArrayString<16>
    ensures { result.bytes ≡ port_name port }
{
    let mut name = ArrayString::<16>::new();
    name.push_str("port ");
    name.push_str(Buffer::new().format(port));
    name
}
