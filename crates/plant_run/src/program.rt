//! What the program does with its arguments.
ghost use Rattle.std.specs.Prelude.{◌≡◌, codes, map, string_bytes};
ghost use Rattle.std.specs.Option.{option_map};
ghost use Rattle.program_outside.specs.Outside.{warned_of};
ghost use Rattle.q_values.specs.Limits.{AreLimits};
ghost use Rattle.plant_run.specs.Program.{Runs, RunsInit, RunsOnce, RunsServe, Shows, limits_with};

use crate::ends::{short, warned};
use crate::init::format_folder;
use crate::once::serve_once;
use crate::port::{Door, serve_door};
use crate::tables::find_tables;
use plant_words::{ArgumentsRefusal, Command, Init, Once, Serve, read_arguments};
use program_outside::Outside;
use q_values::Limits;
use std::alloc::Global;
use std::sync::Wait;
use std::thread::Threads;

/// Does all that the program does, and gives its exit status. The arguments are those after the program's own name.
///
/// First the arguments are judged, then the schema's file, then the folder. With each exit status but 0 a line is printed
/// on standard error; with exit statuses 1, 6 and 9 a second one gives the cause.
pub fn run<O: Outside, R: Threads + Wait + Sync>(
    rt: &R,
    alloc: Global,
    arguments: &[String],
    outside: &mut O,
) -> u8
    ensures { Runs (map string_bytes arguments.now) (O.seen outside.old) (O.seen outside.new) result }
{
    match read_arguments(alloc, arguments) {
        Ok(Command::Init(init)) => run_init(alloc, &init, outside),
        Ok(Command::Once(once)) => run_once(rt, alloc, &once, &limits_with(once.batch), outside),
        Ok(Command::Serve(serve)) => run_serve(
            rt,
            alloc,
            &serve,
            &limits_with(serve.batch),
            outside,
        ),
        Err(ArgumentsRefusal::Shown(text)) => show(text.as_str(), outside),
        Err(ArgumentsRefusal::Usage(line)) => {
            warn_of_usage(line.as_bytes(), outside);
            1
        }
        Err(ArgumentsRefusal::NoMemory) => short(outside),
    }
}

/// Shows a text on standard output, and gives the exit status.
fn show<O: Outside>(text: &str, outside: &mut O) -> u8
    ensures { Shows (O.seen outside.old) (O.seen outside.new) result }
{
    match outside.say(text.trim_end().as_bytes()) {
        Ok(()) => 0,
        Err(_) => warned(outside, b"plant: link fault", 4),
    }
}

/// Prints the two lines of a faulty command line: that it is one, and what is wrong.
pub fn warn_of_usage<O: Outside>(line: &[u8], outside: &mut O)
    ensures { O.seen outside.new ≡ warned_of (warned_of (O.seen outside.old) (codes "plant: usage")) line.now }
{
    outside.warn(b"plant: usage");
    outside.warn(line);
}

/// The standard limits, with or without batched publications.
fn limits_with(batch: bool) -> Limits
    ensures limits { result ≡ limits_with batch }
    ensures lawful { AreLimits result }
{
    Limits {
        batch,
        ..Limits::standard()
    }
}

/// Formats a folder.
fn run_init<O: Outside>(alloc: Global, command: &Init<'_>, outside: &mut O) -> u8
    ensures { RunsInit command.now.folder.now (option_map (λ s. s.now) command.now.schema) (O.seen outside.old) (O.seen outside.new) result }
{
    match find_tables(alloc, command.schema, outside) {
        Ok(schema) => format_folder(alloc, command.folder, &schema, outside),
        Err(status) => status,
    }
}

/// Serves one session within these limits.
pub fn run_once<O: Outside, R: Wait>(
    rt: &R,
    alloc: Global,
    command: &Once<'_>,
    limits: &Limits,
    outside: &mut O,
) -> u8
    requires { AreLimits limits.now }
    ensures { RunsOnce limits.now (option_map (λ s. s.now) command.now.folder) (option_map (λ s. s.now) command.now.schema) command.now.clock
        (O.seen outside.old) (O.seen outside.new) result }
{
    match find_tables(alloc, command.schema, outside) {
        Ok(schema) => serve_once(
            rt,
            alloc,
            command.folder,
            schema,
            command.clock,
            limits,
            outside,
        ),
        Err(status) => status,
    }
}

/// Serves the sessions of a port within these limits.
fn run_serve<O: Outside, R: Threads + Wait + Sync>(
    rt: &R,
    alloc: Global,
    command: &Serve<'_>,
    limits: &Limits,
    outside: &mut O,
) -> u8
    requires { AreLimits limits.now }
    ensures { RunsServe limits.now command.now.port command.now.sessions (option_map (λ s. s.now) command.now.folder)
        (option_map (λ s. s.now) command.now.schema) (O.seen outside.old) (O.seen outside.new) result }
{
    let door = Door {
        port: command.port,
        sessions: command.sessions,
    };
    match find_tables(alloc, command.schema, outside) {
        Ok(schema) => serve_door(rt, alloc, door, command.folder, schema, limits, outside),
        Err(status) => status,
    }
}
