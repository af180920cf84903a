//! The links of a program: standard input and output, or a connection.
ghost use Rattle.std.specs.Prelude.{◌≡◌};

use crate::link::StandardLink;
use outside_api::{Got, Link, LinkFault};
use outside_real::{ReadTimeout, SocketLink};
use std::io::{Read, Write};
use std::net::Net;
use std::os::fd::AsRawFd;
use std::sync::Wait;
use std::time::Clock;

/// A link of a program.
#[derive(Drop)]
pub enum MachineLink<'a, R, I, O, S> {
    /// Standard input and output.
    Standard(StandardLink<'a, R, I, O>),
    /// A connection.
    Socket(SocketLink<'a, R, S>),
}

impl<
    'a,
    R: Clock + Wait + Net + AllocGlobal,
    I: Read,
    O: Write,
    S: Read + Write + ReadTimeout + AsRawFd,
> Link for MachineLink<'a, R, I, O, S> {
    ghost use Rattle.outside_api.specs.Link.{Reads, Writes};
    ghost use Rattle.plant_edge.specs.Link.{machine_shown};

    ghost shown = { machine_shown };

    fn read(&mut self, buf: &mut [u8]) -> Got {
        match self {
            MachineLink::Standard(link) => link.read(buf),
            MachineLink::Socket(link) => link.read(buf),
        }
    }

    fn write(&mut self, bytes: &[u8]) -> Result<(), LinkFault> {
        match self {
            MachineLink::Standard(link) => link.write(bytes),
            MachineLink::Socket(link) => link.write(bytes),
        }
    }
}
