//! The program `plant_cli`: a kdb+ tick plant, which serves one session over standard input and output, or the clients of a
//! port.
//!
//! `plant_run` does all that it does, generic in the outside that makes its devices; `main` gives it the machine's, reads the
//! arguments and turns what it gives into the exit status.
//!
//! ```text
//! plant_cli init --dir plant                                                        makes and formats the folder plant
//! plant_cli once --dir plant < messages > responses                                 one session over the plant in it
//! plant_cli once --clock 2024.01.02D09:30:00.000000000 < messages > responses       one over a new plant in memory
//! plant_cli serve --port 5010 --sessions 8 --dir plant                              the clients of a port, over the plant in it
//! plant_cli --help                                                                  all commands and options
//! ```
//!
//! The exit statuses and the lines on standard error are those that `plant_run` lists. No option and no file sets a limit.
//! What the program does is the contract of `plant_run::run`; this crate adds no promise of its own.
#![tactic(auto)]

use plant_edge::{StandardOutside, Wakers};
use plant_run::{run, warn_of_usage};
use program_outside::Outside;
use std::io::ErrorKind;
use std::process::ExitCode;
use std::{env, io};

fn main(rt: HostRuntime) -> io::Result<ExitCode> {
    let wakers = Wakers::new(rt.alloc());
    let mut outside = StandardOutside::new(&rt, &wakers, rt.stderr());
    match arguments_of(&rt) {
        Ok(arguments) => { Ok(ExitCode::from(run(&rt, rt.alloc(), &arguments, &mut outside))) }
        Err(error) if error.kind() == ErrorKind::OutOfMemory => {
            outside.warn(b"plant: wsfull");
            Ok(ExitCode::from(7))
        }
        // An argument that is not UTF-8 is none of the program's.
        Err(_) => {
            warn_of_usage(
                b"plant: an argument is not UTF-8; try: plant --help",
                &mut outside,
            );
            Ok(ExitCode::from(1))
        }
    }
}

/// The arguments after the program's name.
fn arguments_of(rt: &HostRuntime) -> io::Result<Vec<String>> {
    let mut arguments = env::args(rt)?;
    let _program = arguments.next();
    Ok(arguments.collect(rt.alloc())?)
}
