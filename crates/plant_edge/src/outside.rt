//! The devices of a program over its runtime.
use crate::causes::{file_refusal, folder_cause, port_cause};
use crate::link::StandardLink;
use crate::machine_link::MachineLink;
use crate::recorder::SilentRecorder;
use outside_mem::NoGate;
use outside_real::{
    FolderDisk, FolderRefusal, LockedFolder, OpenPort, PortRefusal, RealClock, SocketLink, Wakers,
    read_file,
};
use program_outside::{FileRefusal, MakeFault, Outside, SayFault};
use std::alloc::Global;
use std::fs::File;
use std::io;
use std::io::{Input, Printer, Write};
use std::net::{Net, TcpListener, TcpStream};
use std::rt::Files;
use std::sync::Wait;
use std::time::Clock;

/// The greatest number of bytes of a file that is read whole, such as a schema.
const FILE_LIMIT: u64 = 1 << 20;

/// The devices of a program over its runtime: standard input and output and the connections that it accepts are its links,
/// its folders are those of the machine, locked, and its clock is the machine's. Warnings go to a writer, which is standard
/// error. What passes through them isn't kept.
#[derive(Drop)]
pub struct StandardOutside<'a, R, E> {
    /// The runtime, whose standard input and output are the link.
    rt: &'a R,
    /// The connections that wake each other.
    wakers: &'a Wakers,
    /// Where warnings go.
    errors: E,
    /// How many devices could not be made, and files not read; saturates.
    faults: u64,
    /// The port that it listens on.
    port: Option<OpenPort>,
    /// How often it could not listen or accept; saturates.
    listen_faults: u64,
    /// How many lines could not be printed on standard output; saturates.
    say_faults: u64,
}

impl<'a, R, E> StandardOutside<'a, R, E> {
    ghost use Rattle.std.specs.Prelude.{◌≡◌};
    ghost use Rattle.plant_edge.specs.Outside.{silent_outside, unused_outside, warnings_of};

    /// The outside of a runtime, which has made nothing. The connections that it accepts are of these `Wakers`, and warnings go to
    /// this writer.
    pub fn new(rt: &'a R, wakers: &'a Wakers, errors: E) -> StandardOutside<'a, R, E>
        ensures unused { silent_outside result ≡ unused_outside }
        ensures errors { warnings_of result ≡ errors }
    {
        StandardOutside {
            rt,
            wakers,
            errors,
            faults: 0,
            port: None,
            listen_faults: 0,
            say_faults: 0,
        }
    }

    /// Where its warnings went.
    pub fn errors(&self) -> &E
        ensures { result.now ≡ warnings_of self.now }
    {
        &self.errors
    }
}

impl<'a, R: Files<File = File>, E> StandardOutside<'a, R, E> {
    ghost use Rattle.std.specs.Prelude.{◌≡◌, IfErr, List, ℕ};
    ghost use Rattle.outside_real.specs.FolderDisk.{disk_shown};
    ghost use Rattle.program_outside.specs.Outside.{Opens};
    ghost use Rattle.plant_edge.specs.Causes.{HasFolderCause, IsFolderCause};
    ghost use Rattle.plant_edge.specs.Outside.{silent_outside, warnings_of};

    /// The disk of a folder that was opened, or the fault, which is counted.
    fn disk_of(
        &mut self,
        alloc: Global,
        opened: Result<LockedFolder<&'a R>, FolderRefusal>,
    ) -> Result<FolderDisk<LockedFolder<&'a R>>, MakeFault>
        ensures opens { (path : List ℕ) → Opens path disk_shown (silent_outside self.old) (silent_outside self.new) result }
        ensures cause { HasFolderCause opened.entry result }
        ensures folder_cause { IfErr result (λ fault. IsFolderCause fault.cause) }
        ensures errors { warnings_of self.new ≡ warnings_of self.old }
    {
        match opened {
            Ok(folder) => Ok(FolderDisk::new(alloc, folder)),
            Err(why) => {
                self.faults = self.faults.saturating_add(1);
                Err(MakeFault {
                    cause: folder_cause(why),
                })
            }
        }
    }
}

impl<'a, R: Print, E> StandardOutside<'a, R, E> {
    /// Prints a line on standard output, at once.
    fn print_line(&self, line: &[u8]) -> io::Result<()> {
        let mut output = io::writer(self.rt);
        output.write_all(line)?;
        output.write_all(b"\n")?;
        output.flush()
    }
}

impl<'a, R, E> StandardOutside<'a, R, E> {
    ghost use Rattle.std.specs.Prelude.{◌≡◌};
    ghost use Rattle.program_outside.specs.Outside.{with_listen_fault};
    ghost use Rattle.plant_edge.specs.Causes.{cause_of_port};
    ghost use Rattle.plant_edge.specs.Outside.{silent_outside, warnings_of};

    /// The fault that a port made, which is counted.
    fn listen_fault(&mut self, why: PortRefusal) -> MakeFault
        ensures counted { silent_outside self.new ≡ with_listen_fault (silent_outside self.old) }
        ensures cause { result.cause ≡ cause_of_port why }
        ensures errors { warnings_of self.new ≡ warnings_of self.old }
    {
        self.listen_faults = self.listen_faults.saturating_add(1);
        MakeFault {
            cause: port_cause(why),
        }
    }
}

impl<
    'a,
    R: Input
        + Print
        + Clock
        + Files<File = File>
        + Net<Listener = TcpListener, Stream = TcpStream>
        + AllocGlobal
        + Wait
        + Sync,
    E: Write + Drop,
> Outside for StandardOutside<'a, R, E>
where
    R::Reader: Send,
{
    ghost use Rattle.std.specs.Prelude.{◌≡◌, IfErr};
    ghost use Rattle.std.specs.Option.{option_map};
    ghost use Rattle.outside_real.specs.FolderDisk.{disk_shown};
    ghost use Rattle.program_outside.specs.Outside.{Listens, Opens, ReadsFile, handed_back};
    ghost use Rattle.plant_edge.specs.Causes.{IsFolderCause, IsPortCause, IsFileRefusal};
    ghost use Rattle.plant_edge.specs.Link.{machine_shown};
    ghost use Rattle.plant_edge.specs.Outside.{silent_outside, silent_recorder};

    type Link = MachineLink<'a, R, R::Reader, Printer<'a, R>, TcpStream>;

    type Disk = FolderDisk<LockedFolder<&'a R>>;

    type Clock = RealClock<&'a R>;

    type Gate = NoGate;

    type Recorder = SilentRecorder;

    ghost seen = { silent_outside };

    fn standard(&mut self) -> Result<Self::Link, MakeFault> {
        Ok(MachineLink::Standard(StandardLink::new(self.rt, self.rt.reader(), io::writer(self.rt))))
    }

    fn listen(&mut self, port: u16) -> Result<(), MakeFault>
        ensures listens { Listens port (silent_outside self.old) (silent_outside self.new) result }
        ensures cause { IfErr result (λ fault. IsPortCause fault.cause) }
    {
        match OpenPort::listen(self.rt, port) {
            Ok(open) => {
                self.port = Some(open);
                Ok(())
            }
            Err(why) => Err(self.listen_fault(why)),
        }
    }

    fn accept(&mut self) -> Result<Option<Self::Link>, MakeFault> {
        let Some(port) = &self.port else {
            unreachable!()
        };
        match port.accept(self.rt) {
            Ok(Some(stream)) => {
                let link = SocketLink::new(self.rt, self.wakers, stream);
                Ok(Some(MachineLink::Socket(link)))
            }
            Ok(None) => Ok(None),
            Err(why) => Err(self.listen_fault(why)),
        }
    }

    fn folder(&mut self, alloc: Global, path: &str) -> Result<Self::Disk, MakeFault>
        ensures opens { Opens path.now (λ d. disk_shown d) (silent_outside self.old) (silent_outside self.new) result }
        ensures cause { IfErr result (λ fault. IsFolderCause fault.cause) }
    {
        let opened = LockedFolder::open(self.rt, alloc, path);
        self.disk_of(alloc, opened)
    }

    fn make_folder(&mut self, alloc: Global, path: &str) -> Result<Self::Disk, MakeFault>
        ensures opens { Opens path.now (λ d. disk_shown d) (silent_outside self.old) (silent_outside self.new) result }
        ensures cause { IfErr result (λ fault. IsFolderCause fault.cause) }
    {
        let opened = LockedFolder::make(self.rt, alloc, path);
        self.disk_of(alloc, opened)
    }

    fn clock(&mut self) -> RealClock<&'a R> {
        RealClock::new(self.rt)
    }

    fn gate(&mut self) -> NoGate {
        NoGate
    }

    fn recorder(&mut self) -> SilentRecorder {
        SilentRecorder
    }

    fn read_file(&mut self, alloc: Global, path: &str) -> Result<Vec<u8>, FileRefusal>
        ensures reads { ReadsFile path.now (λ v. v.items) (silent_outside self.old) (silent_outside self.new) result }
        ensures cause { IfErr result (λ refusal. IsFileRefusal refusal) }
    {
        match read_file(self.rt, alloc, path, FILE_LIMIT) {
            Ok(bytes) => Ok(bytes),
            Err(why) => {
                let refusal = file_refusal(why);
                if let FileRefusal::MakeFault(_) = refusal {
                    self.faults = self.faults.saturating_add(1);
                }
                Err(refusal)
            }
        }
    }

    fn say(&mut self, line: &[u8]) -> Result<(), SayFault> {
        if self.print_line(line).is_ok() {
            return Ok(());
        }
        self.say_faults = self.say_faults.saturating_add(1);
        Err(SayFault)
    }

    fn warn(&mut self, line: &[u8]) {
        let _written = self.errors.write_all(line);
        let _ended = self.errors.write_all(b"\n");
    }

    fn back(
        &mut self,
        link: Option<Self::Link>,
        clock: Option<RealClock<&'a R>>,
        recorder: Option<SilentRecorder>,
    )
        ensures { silent_outside self.new ≡ handed_back (silent_outside self.old) (option_map (λ l. machine_shown l) link.entry)
            (option_map (λ c. None) clock.entry) (option_map (λ r. silent_recorder r) recorder) }
    {
        let mut link = link;
        if let Some(MachineLink::Socket(socket)) = &mut link {
            socket.leave();
        }
        let _handed = (link, clock, recorder);
    }

    fn keep(&mut self, disk: Self::Disk) {
        let _kept = disk;
    }
}
