//! What makes the devices of a program.
ghost use Rattle.std.specs.Prelude.{◌≡◌};

use crate::fault::{FileRefusal, MakeFault, SayFault};
use outside_api::{Clock, Disk, Gate, Link, Recorder};
use std::alloc::Global;

/// Makes the devices of a program, reads its files, prints its lines, listens for connections, and takes the devices back at
/// its end.
pub trait Outside {
    ghost use Rattle.outside_api.specs.Disk.{DiskView};
    ghost use Rattle.outside_api.specs.Link.{LinkView};
    ghost use Rattle.outside_api.specs.Told.{HasToldNothing};
    ghost use Rattle.program_outside.specs.Outside.{OutsideView, Links, Listens, Accepts, IsListening, Opens, ReadsFile, Says, warned_of, handed_back, kept_of};
    ghost use Rattle.std.specs.Option.{option_map};

    /// Its links: standard input and output, and the connections that it accepted.
    type Link: Link + Send + Drop;

    /// The disks of its folders.
    type Disk: Disk + Send + Drop;

    /// Its clocks.
    type Clock: Clock + Send + Drop;

    /// Its gates.
    type Gate: Gate + Send + Drop;

    /// Its recorders.
    type Recorder: Recorder + Send + Drop;

    /// What it shows: what it made, read, printed and took back where it reports that, its counts of faults, and the port
    /// that it listens on.
    ghost seen: { Self → OutsideView };

    /// The link of standard input and output. It has given and taken nothing, and its counts are 0.
    fn standard(&mut self) -> Result<Self::Link, MakeFault>
        ensures { Links (λ l. Self.Link.shown l) (seen self.old) (seen self.new) result };

    /// Listens for connections to this port of the machine itself. Where that fails, it listens as before.
    fn listen(&mut self, port: u16) -> Result<(), MakeFault>
        ensures { Listens port (seen self.old) (seen self.new) result };

    /// The link of the next connection, which has given and taken nothing and whose counts are 0; none where no connection
    /// came for a while.
    fn accept(&mut self) -> Result<Option<Self::Link>, MakeFault>
        requires { IsListening (seen self.old) }
        ensures { Accepts (λ l. Self.Link.shown l) (seen self.old) (seen self.new) result };

    /// The disk of the folder of this path. Where another has it open, this is refused at once.
    fn folder(&mut self, alloc: Global, path: &str) -> Result<Self::Disk, MakeFault>
        ensures { Opens path.now (λ d. Self.Disk.shown d) (seen self.old) (seen self.new) result };

    /// The same, but a folder that isn't there is made.
    fn make_folder(&mut self, alloc: Global, path: &str) -> Result<Self::Disk, MakeFault>
        ensures { Opens path.now (λ d. Self.Disk.shown d) (seen self.old) (seen self.new) result };

    /// A clock that was never read.
    fn clock(&mut self) -> Self::Clock
        ensures same { seen self.new ≡ seen self.old }
        ensures fresh { HasToldNothing (Self.Clock.readings result) };

    /// A gate.
    fn gate(&mut self) -> Self::Gate
        ensures { seen self.new ≡ seen self.old };

    /// A recorder that has noted nothing.
    fn recorder(&mut self) -> Self::Recorder
        ensures same { seen self.new ≡ seen self.old }
        ensures fresh { HasToldNothing (Self.Recorder.noted result) };

    /// The bytes of the file of this path.
    fn read_file(&mut self, alloc: Global, path: &str) -> Result<Vec<u8>, FileRefusal>
        ensures { ReadsFile path.now (λ v. v.items) (seen self.old) (seen self.new) result };

    /// Prints a line on standard output, at once.
    fn say(&mut self, line: &[u8]) -> Result<(), SayFault>
        ensures { Says line.now (seen self.old) (seen self.new) result };

    /// Prints a line on standard error.
    fn warn(&mut self, line: &[u8])
        ensures { seen self.new ≡ warned_of (seen self.old) line.now };

    /// Takes back a link with the clock and the recorder that were made for it, or a clock alone that was made for no link.
    fn back(
        &mut self,
        link: Option<Self::Link>,
        clock: Option<Self::Clock>,
        recorder: Option<Self::Recorder>,
    )
        ensures { seen self.new ≡ handed_back (seen self.old) (option_map (λ l. Self.Link.shown l) link)
            (option_map (λ c. Self.Clock.readings c) clock) (option_map (λ r. Self.Recorder.noted r) recorder) };

    /// Takes back the disk of a folder.
    fn keep(&mut self, disk: Self::Disk)
        ensures { seen self.new ≡ kept_of (seen self.old) (Self.Disk.shown disk) };
}
