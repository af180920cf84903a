//! What the program does with its arguments, over an outside.
//!
//! [`run`] does all of it, and is generic over the [`Outside`](program_outside::Outside) that makes its devices: `main`
//! gives it the machine's, and the tests one in memory. It has three commands.
//!
//! ```text
//! init --dir D [--schema F]                                        formats the folder D, which it makes where it is missing
//! once [--dir D] [--schema F] [--clock T] [--step N] [--batch]     one session over standard input and output
//! serve --port P --sessions N [--dir D] [--schema F] [--batch]     N sessions of the connections to a port
//! ```
//!
//! A session has the plant of the folder D, whose rows are there at the next start; without `--dir` it has a new plant in
//! memory. The plant is opened at the date of the clock's first reading. The clock is the machine's, or reads T, T + N and on.
//!
//! ```text
//! exit status                                                       first line on standard error
//! 0   a session ended between messages; all sessions of a port ended; a folder was formatted
//! 1   the arguments ask for nothing that the program does           plant: usage
//! 2   the input ended within a message                              plant: input ends within a message
//! 3   the input had bytes that are no message                       plant: bad message CODE at OFFSET
//! 4   a read or a write of the link failed                          plant: link fault
//! 5   too many reads timed out                                      plant: idle
//! 6   a device, the schema, the folder or its files refused         plant: cannot start
//! 7   out of memory                                                 plant: wsfull
//! 9   listening on the port, or accepting a connection, failed      plant: cannot listen
//! ```
//!
//! After the line of 1, 6 and 9 a second one says the cause: which file, folder or port, and where.
//!
//! It opens no file and no port and prints nothing itself (the outside does).
#![tactic(auto)]

mod causes;
mod course;
mod ends;
mod init;
mod once;
mod port;
mod program;
mod serving;
mod tables;

pub use ends::conclude;
pub use program::{run, run_once, warn_of_usage};
