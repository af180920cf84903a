//! The command line of the program: what its arguments ask for.
//!
//! [`read_arguments`] reads the arguments after the program's name. It gives the [`Command`] that they ask for, or a
//! [`ArgumentsRefusal`]: help or the version to show, one line that says what is wrong, or out of memory. It prints
//! nothing.
//!
//! ```text
//! init --dir FOLDER [--schema FILE]
//! once [--dir FOLDER] [--schema FILE] [--clock TIMESTAMP] [--step N] [--batch]
//! serve --port PORT --sessions N [--dir FOLDER] [--schema FILE] [--batch]
//! ```
//!
//! The options follow the command in any order, each at most once, as `--name VALUE`; no value begins with `-`. TIMESTAMP
//! is a timestamp literal of q; numbers are written in decimal digits: PORT is 1 to 65535, the N of `--sessions` 1 to 1000000,
//! and that of `--step` at most a day in nanoseconds.
//!
//! ```text
//! once --step 7 --clock 2000.01.01D00:00:01     Once { clock: Some(Ticking { start: 1_000_000_000, step: 7 }), .. }
//! init                                          Usage: the following required arguments were not provided: --dir <FOLDER>
//! serve --port 5010 --sessions 8                Serve { port: 5010, sessions: 8, .. }
//! once --help                                   Shown: the help of once
//! ```
//!
//! What arguments ask for is defined in `specs/Asked.antt`. `options` reads options one argument after the other, `values`
//! numbers and the clock; `clap` makes the texts of `usage` and reads nothing else. A command is one function here, a name
//! in `command_named` and a command of `usage`; an option is a field of `Options`, a variant of `Valued` and a setting in
//! the definitions.
#![tactic(auto)]

mod command;
mod options;
mod usage;
mod values;

ghost use Rattle.std.specs.Prelude.{◌≡◌, IfOk, codes, map, string_bytes};
ghost use Rattle.plant_words.specs.Asked.{Asked, Asks, IsAsked, IsReadAs, command_name, shown};
ghost use Rattle.plant_words.specs.Reading.{IsReadBy, given_of};

use command::Unread;
pub use command::{ArgumentsRefusal, Command, Init, Once, Serve, Ticking};
use options::{Options, options_of};
use std::alloc::Global;
use usage::refusal_of;
use values::{clock_of, port_of, sessions_of};

// The command `init` with these options.
fn init_of(options: Options<'_>) -> Result<Command<'_>, Unread>
    ensures asked { (asked : Asked) → command_name asked ≡ codes "init" → Asks (given_of options.entry) asked → IsReadBy shown asked result }
    ensures read { IfOk result (λ c. (command_name (shown c) ≡ codes "init") × Asks (given_of options.entry) (shown c)) }
{
    match options {
        Options {
            folder: Some(folder),
            schema,
            clock: None,
            step: None,
            port: None,
            sessions: None,
            batch: false,
        } => Ok(Command::Init(Init { folder, schema })),
        _ => Err(Unread::Faulty),
    }
}

// The command `once` with these options.
fn once_of(alloc: Global, options: Options<'_>) -> Result<Command<'_>, Unread>
    ensures asked { (asked : Asked) → command_name asked ≡ codes "once" → Asks (given_of options.entry) asked → IsReadBy shown asked result }
    ensures read { IfOk result (λ c. (command_name (shown c) ≡ codes "once") × Asks (given_of options.entry) (shown c)) }
{
    let Options {
        folder,
        schema,
        clock,
        step,
        port: None,
        sessions: None,
        batch: is_batch,
    } = options
    else {
        return Err(Unread::Faulty);
    };
    match clock_of(alloc, clock, step) {
        Ok(clock) => Ok(Command::Once(Once {
            folder,
            schema,
            clock,
            batch: is_batch,
        })),
        Err(why) => Err(why),
    }
}

// The command `serve` with these options.
fn serve_of(options: Options<'_>) -> Result<Command<'_>, Unread>
    ensures asked { (asked : Asked) → command_name asked ≡ codes "serve" → Asks (given_of options.entry) asked → IsReadBy shown asked result }
    ensures read { IfOk result (λ c. (command_name (shown c) ≡ codes "serve") × Asks (given_of options.entry) (shown c)) }
{
    let Options {
        folder,
        schema,
        clock: None,
        step: None,
        port,
        sessions,
        batch,
    } = options
    else {
        return Err(Unread::Faulty);
    };
    let Some(port) = port_of(port) else {
        return Err(Unread::Faulty);
    };
    let Some(sessions) = sessions_of(sessions) else {
        return Err(Unread::Faulty);
    };
    Ok(Command::Serve(Serve {
        port,
        sessions,
        folder,
        schema,
        batch,
    }))
}

// The command of this name with these options.
fn command_named<'a>(alloc: Global, name: &str, options: Options<'a>) -> Result<Command<'a>, Unread>
    ensures asked { (asked : Asked) → command_name asked ≡ name.now → Asks (given_of options.entry) asked → IsReadBy shown asked result }
    ensures read { IfOk result (λ c. (command_name (shown c) ≡ name.now) × Asks (given_of options.entry) (shown c)) }
{
    if name == "init" {
        init_of(options)
    } else if name == "once" {
        once_of(alloc, options)
    } else if name == "serve" {
        serve_of(options)
    } else {
        Err(Unread::Faulty)
    }
}

// The command that the arguments ask for.
fn command_of<'a>(alloc: Global, arguments: &'a [String]) -> Result<Command<'a>, Unread>
    ensures asked { (asked : Asked) → IsAsked (map string_bytes arguments.now) asked → IsReadBy shown asked result }
    ensures read { IfOk result (λ c. IsAsked (map string_bytes arguments.now) (shown c)) }
{
    let Some((name, rest)) = arguments.split_first() else {
        return Err(Unread::Faulty);
    };
    let Some(options) = options_of(rest) else {
        return Err(Unread::Faulty);
    };
    command_named(alloc, name.as_str(), options)
}

/// Reads the arguments after the program's name.
///
/// It gives a command exactly where the arguments ask for one, unless memory ran out: `Shown` and `Usage` come only for
/// arguments that ask for none.
pub fn read_arguments<'a>(
    alloc: Global,
    arguments: &'a [String],
) -> Result<Command<'a>, ArgumentsRefusal>
    ensures asked { (asked : Asked) → IsAsked (map string_bytes arguments.now) asked → IsReadAs asked result }
    ensures read { IfOk result (λ command. IsAsked (map string_bytes arguments.now) (shown command)) }
{
    match command_of(alloc, arguments) {
        Ok(command) => Ok(command),
        Err(Unread::NoMemory) => Err(ArgumentsRefusal::NoMemory),
        Err(Unread::Faulty) => Err(refusal_of(alloc, arguments)),
    }
}
