//! Help, the version, and what is wrong with a command line that asks for nothing: the texts, which `clap` makes.

use crate::command::ArgumentsRefusal;
use crate::values::{clock_of, port_of, sessions_of, step_of};
use clap::error::ErrorKind;
use clap::{Arg, ArgAction, ArgMatches, Command, Error};
use q_values::NoMemory;
use std::alloc::Global;

const EXAMPLES: &str = "\
Examples:
  plant init --dir data
  plant once --dir data < messages > responses
  plant once --clock 2024.01.02D09:30:00.000000000 --step 1000000000 < messages > responses
  plant serve --port 5010 --sessions 1000000 --dir data";

const STEP_FAULT: &str =
    "the value of '--step <N>' is not a number from 0 to 86400000000000 in decimal digits";

const CLOCK_FAULT: &str =
    "the value of '--clock <TIMESTAMP>' is not a timestamp, as 2024.01.02D09:30:00.000000000 is";

const PORT_FAULT: &str =
    "the value of '--port <PORT>' is not a number from 1 to 65535 in decimal digits";

const SESSIONS_FAULT: &str =
    "the value of '--sessions <N>' is not a number from 1 to 1000000 in decimal digits";

const FORM_FAULT: &str =
    "an option is written '--name VALUE', after the command, and its value does not begin with '-'";

// An option that takes a value.
fn option<'a>(alloc: Global, name: &'a str, value: &'a str, help: &'a str) -> Arg<'a> {
    Arg::new(alloc, name)
        .long(name)
        .value_name(value)
        .help(help)
}

fn folder<'a>(alloc: Global) -> Arg<'a> {
    option(alloc, "dir", "FOLDER", "The plant's folder")
}

fn schema<'a>(alloc: Global) -> Arg<'a> {
    option(
        alloc,
        "schema",
        "FILE",
        "The file of the schema [default: the built-in tables trade and quote]",
    )
}

fn init<'a>(alloc: Global) -> Result<Command<'a>, Error> {
    let command = Command::new(alloc, "init")
        .about("Formats a folder for a plant")
        .arg(folder(alloc).required(true))?
        .arg(schema(alloc))?;
    Ok(command)
}

fn clock<'a>(alloc: Global) -> Arg<'a> {
    option(
        alloc,
        "clock",
        "TIMESTAMP",
        "The first reading of the clock, as 2024.01.02D09:30:00.000000000 [default: the machine's clock]",
    )
}

fn step<'a>(alloc: Global) -> Arg<'a> {
    option(
        alloc,
        "step",
        "N",
        "What each further reading of --clock adds, in nanoseconds [default: 0]",
    )
}

fn batch<'a>(alloc: Global) -> Arg<'a> {
    Arg::new(alloc, "batch")
        .long("batch")
        .action(ArgAction::SetTrue)
        .help("Joined publications: one message for each table, of up to 16 updates")
}

fn once<'a>(alloc: Global) -> Result<Command<'a>, Error> {
    let command = Command::new(alloc, "once")
        .about("Serves one session over standard input and output")
        .after_help(EXAMPLES)
        .arg(folder(alloc))?
        .arg(schema(alloc))?
        .arg(clock(alloc))?
        .arg(step(alloc))?
        .arg(batch(alloc))?;
    Ok(command)
}

fn port<'a>(alloc: Global) -> Arg<'a> {
    option(
        alloc,
        "port",
        "PORT",
        "The port of 127.0.0.1 that clients connect to, 1 to 65535",
    )
}

fn sessions<'a>(alloc: Global) -> Arg<'a> {
    option(
        alloc,
        "sessions",
        "N",
        "How many sessions are served, 1 to 1000000; then the program ends",
    )
}

fn serve<'a>(alloc: Global) -> Result<Command<'a>, Error> {
    let command = Command::new(alloc, "serve")
        .about("Serves sessions over a port of this machine, each on a thread of its own")
        .after_help(EXAMPLES)
        .arg(port(alloc).required(true))?
        .arg(sessions(alloc).required(true))?
        .arg(folder(alloc))?
        .arg(schema(alloc))?
        .arg(batch(alloc))?;
    Ok(command)
}

// The program, with its commands.
fn program<'a>(alloc: Global) -> Result<Command<'a>, Error> {
    let program = Command::new(alloc, "plant")
        .about(
            "A kdb+ tick plant: it logs updates, answers queries, and hands each day over at its end",
        )
        .version("0.1.0")
        .bin_name("plant")?
        .no_binary_name(true)
        .subcommand_required(true)
        .subcommand(init(alloc)?)?
        .subcommand(once(alloc)?)?
        .subcommand(serve(alloc)?)?
        .after_help(EXAMPLES);
    Ok(program)
}

// What is wrong with values that `clap` took.
fn fault_of(alloc: Global, matches: &ArgMatches<'_>) -> &'static str {
    let Some((name, options)) = matches.subcommand() else {
        return FORM_FAULT;
    };
    if name == "serve" {
        return serve_fault_of(options);
    }
    let step = options.get_str("step");
    if step_of(step).is_none() {
        STEP_FAULT
    } else if clock_of(alloc, options.get_str("clock"), step).is_err() {
        CLOCK_FAULT
    } else {
        FORM_FAULT
    }
}

// What is wrong with values of `serve` that `clap` took.
fn serve_fault_of(options: &ArgMatches<'_>) -> &'static str {
    if port_of(options.get_str("port")).is_none() {
        PORT_FAULT
    } else if sessions_of(options.get_str("sessions")).is_none() {
        SESSIONS_FAULT
    } else {
        FORM_FAULT
    }
}

// The first paragraph of an error, as one line.
fn first_line(alloc: Global, text: &str) -> Result<String, NoMemory> {
    let mut line = String::new(alloc);
    for part in text.lines() {
        let part = part.trim();
        if part.is_empty() {
            break;
        }
        if !line.is_empty() {
            line.push_str(" ")?;
        }
        line.push_str(part.strip_prefix("error: ").unwrap_or(part))?;
    }
    Ok(line)
}

// The text of an error, and whether it is help or a fault.
fn text_of(alloc: Global, error: &Error) -> Result<ArgumentsRefusal, NoMemory> {
    if error.kind() == ErrorKind::OutOfMemory {
        return Err(NoMemory);
    }
    let text = format!(in alloc; "{error}")?;
    if error.use_stderr() {
        Ok(ArgumentsRefusal::Usage(first_line(alloc, text.as_str())?))
    } else {
        Ok(ArgumentsRefusal::Shown(text))
    }
}

fn refusal_in_memory(alloc: Global, arguments: &[String]) -> Result<ArgumentsRefusal, NoMemory> {
    let parsed = match program(alloc) {
        Ok(program) => program.try_get_matches_from(arguments),
        Err(error) => Err(error),
    };
    match parsed {
        Ok(matches) => Ok(ArgumentsRefusal::Usage(String::from_str(
            alloc,
            fault_of(alloc, &matches),
        )?)),
        Err(error) => text_of(alloc, &error),
    }
}

/// The answer to arguments that ask for nothing: help or the version, where they ask for that, or one line that says what
/// is wrong.
pub(crate) fn refusal_of(alloc: Global, arguments: &[String]) -> ArgumentsRefusal {
    match refusal_in_memory(alloc, arguments) {
        Ok(refusal) => refusal,
        Err(NoMemory) => ArgumentsRefusal::NoMemory,
    }
}
