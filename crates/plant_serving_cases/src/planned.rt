//! An outside whose port fails as planned, and whose first session is held where it evaluates a text.
use outside_api::{Gate, Point};
use plant_edge::{StandardOutside, Wakers};
use program_outside::{Cause, FileRefusal, MakeFault, Outside, SayFault};
use std::alloc::Global;
use std::fs::File;
use std::io::{Input, Write};
use std::net::{Net, TcpListener, TcpStream};
use std::rt::Files;
use std::sync::atomic::{AtomicBool, Ordering};
use std::sync::{Arc, Wait};
use std::time::Clock;
use std::{io, thread};

/// How often a gate looks whether it was opened, before it lets its session go on.
const LOOKS: u32 = 100_000_000;

/// The flags of a gate that holds a session.
#[derive(Drop)]
pub struct Hold {
    /// Whether the session is held. The gate sets this when a text has come to it, and resets it when it lets the session go on.
    pub is_held: Arc<AtomicBool>,
    /// Whether the gate is open. Another thread opens it.
    pub is_open: Arc<AtomicBool>,
}

impl Hold {
    /// Holds the session until the gate is open, or has looked often enough.
    fn wait(&self) {
        self.is_held.store(true, Ordering::SeqCst);
        for _ in 0..LOOKS {
            if self.is_open.load(Ordering::SeqCst) {
                break;
            }
            thread::yield_now();
        }
        self.is_held.store(false, Ordering::SeqCst);
    }
}

/// A gate that may hold its session where a text is evaluated, until it is opened.
#[derive(Drop)]
pub struct HoldingGate {
    /// Its flags; none where it holds nobody.
    hold: Option<Hold>,
}

impl Gate for HoldingGate {
    fn pause(&mut self, point: Point) {
        if let (Some(hold), Point::Evaluating) = (&self.hold, point) {
            hold.wait();
        }
    }
}

/// Keeps the lines of standard error.
#[derive(Drop)]
pub struct Lines {
    bytes: Vec<u8>,
}

impl Lines {
    /// The lines, each with its line feed.
    fn as_bytes(&self) -> &[u8] {
        &self.bytes
    }
}

impl Write for Lines {
    fn write(&mut self, buf: &[u8]) -> io::Result<usize> {
        self.bytes.extend_from_slice(buf)?;
        Ok(buf.len())
    }

    fn flush(&mut self) -> io::Result<()> {
        Ok(())
    }
}

/// The devices of the machine, but for standard error.
pub type Machine<'a, R> = StandardOutside<'a, R, Lines>;

/// The devices of the machine, of which none was made.
fn machine_of<'a, R: AllocGlobal>(rt: &'a R, wakers: &'a Wakers) -> Machine<'a, R> {
    let errors = Lines {
        bytes: Vec::new(rt.alloc()),
    };
    StandardOutside::new(rt, wakers, errors)
}

/// The machine's outside, but that its port gives a number of connections and then fails, and that the first session may be
/// held.
#[derive(Drop)]
pub struct PlannedOutside<'a, R> {
    machine: Machine<'a, R>,
    // how many connections its port still gives
    left: u32,
    // the flags of the first session's gate, until it is given
    first: Option<Hold>,
    // how many calls of the port failed, as planned or not
    listen_faults: u64,
}

impl<'a, R: AllocGlobal> PlannedOutside<'a, R> {
    /// An outside whose port gives each connection.
    pub fn new(rt: &'a R, wakers: &'a Wakers) -> PlannedOutside<'a, R> {
        PlannedOutside {
            machine: machine_of(rt, wakers),
            left: u32::MAX,
            first: None,
            listen_faults: 0,
        }
    }

    /// The same, but its port fails after this many connections.
    pub fn failing_after(rt: &'a R, wakers: &'a Wakers, connections: u32) -> PlannedOutside<'a, R> {
        PlannedOutside {
            left: connections,
            ..PlannedOutside::new(rt, wakers)
        }
    }

    /// The same, but the first session is held by a gate with these flags.
    pub fn holding_first(rt: &'a R, wakers: &'a Wakers, hold: Hold) -> PlannedOutside<'a, R> {
        PlannedOutside {
            first: Some(hold),
            ..PlannedOutside::new(rt, wakers)
        }
    }

    /// The lines of standard error, each with its line feed.
    pub fn errors(&self) -> &[u8] {
        self.machine.errors().as_bytes()
    }
}

impl<
    'a,
    R: Input
        + Print
        + Clock
        + Files<File = File>
        + Net<Listener = TcpListener, Stream = TcpStream>
        + AllocGlobal
        + Wait
        + Sync,
> Outside for PlannedOutside<'a, R>
where
    R::Reader: Send,
{
    ghost use Rattle.std.specs.Prelude.{◌≡◌};
    ghost use Rattle.std.specs.Option.{option_map};
    ghost use Rattle.program_outside.specs.Outside.{handed_back};
    ghost use Rattle.plant_edge.specs.Link.{machine_shown};
    ghost use Rattle.plant_edge.specs.Outside.{silent_outside, silent_recorder};

    type Link = <Machine<'a, R> as Outside>::Link;

    type Disk = <Machine<'a, R> as Outside>::Disk;

    type Clock = <Machine<'a, R> as Outside>::Clock;

    type Gate = HoldingGate;

    type Recorder = <Machine<'a, R> as Outside>::Recorder;

    // What the machine's shows, but for the faults of the port, which it counts itself.
    ghost seen = { λ outside. record (silent_outside outside.machine) { listen_faults = outside.listen_faults } };

    fn standard(&mut self) -> Result<Self::Link, MakeFault> {
        self.machine.standard()
    }

    fn listen(&mut self, port: u16) -> Result<(), MakeFault> {
        match self.machine.listen(port) {
            Ok(()) => Ok(()),
            Err(fault) => {
                self.listen_faults = self.listen_faults.saturating_add(1);
                Err(fault)
            }
        }
    }

    fn accept(&mut self) -> Result<Option<Self::Link>, MakeFault> {
        if self.left == 0 {
            self.listen_faults = self.listen_faults.saturating_add(1);
            return Err(MakeFault {
                cause: Cause::Other,
            });
        }
        match self.machine.accept() {
            Ok(Some(link)) => {
                self.left -= 1;
                Ok(Some(link))
            }
            Ok(None) => Ok(None),
            Err(fault) => {
                self.listen_faults = self.listen_faults.saturating_add(1);
                Err(fault)
            }
        }
    }

    fn folder(&mut self, alloc: Global, path: &str) -> Result<Self::Disk, MakeFault> {
        self.machine.folder(alloc, path)
    }

    fn make_folder(&mut self, alloc: Global, path: &str) -> Result<Self::Disk, MakeFault> {
        self.machine.make_folder(alloc, path)
    }

    fn clock(&mut self) -> Self::Clock {
        self.machine.clock()
    }

    fn gate(&mut self) -> HoldingGate {
        HoldingGate {
            hold: self.first.take(),
        }
    }

    fn recorder(&mut self) -> Self::Recorder {
        self.machine.recorder()
    }

    fn read_file(&mut self, alloc: Global, path: &str) -> Result<Vec<u8>, FileRefusal> {
        self.machine.read_file(alloc, path)
    }

    fn say(&mut self, line: &[u8]) -> Result<(), SayFault> {
        self.machine.say(line)
    }

    fn warn(&mut self, line: &[u8]) {
        self.machine.warn(line)
    }

    fn back(
        &mut self,
        link: Option<Self::Link>,
        clock: Option<Self::Clock>,
        recorder: Option<Self::Recorder>,
    )
        ensures { record (silent_outside self.new.machine) { listen_faults = self.new.listen_faults }
            ≡ handed_back (record (silent_outside self.old.machine) { listen_faults = self.old.listen_faults })
            (option_map (λ l. machine_shown l) link.entry) (option_map (λ c. None) clock.entry) (option_map (λ r. silent_recorder r) recorder) }
    {
        self.machine.back(link, clock, recorder)
    }

    fn keep(&mut self, disk: Self::Disk) {
        self.machine.keep(disk)
    }
}
