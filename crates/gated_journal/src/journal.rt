//! A journal: its records in a file, and how they are added.
ghost use Rattle.std.specs.Prelude.{◌≡◌, ◌≢◌, ◌<◌, ◌≤◌, ◌+◌, ◌^◌, ◌↔◌, ◌++◌, [], ◌∷◌, List, Option, Some, None, ℕ};
ghost use Rattle.std.specs.Prelude.{IsTrue, length, IfOk, IfSome, OnOk, OnErr};
ghost use Rattle.outside_api.specs.Disk.{Counts, IsSettled, IsWithin, Passes, Stays, put, kept_file, synced, written};
ghost use Rattle.gated_journal.specs.Steps.{KeepsShut, KeepsAjar, IsNoShorter, OthersStay};
ghost use Rattle.outside_api.specs.Calls.{Makes};
ghost use Rattle.gated_journal.specs.Calls.{AppendMakes, ReadMakes, LoadMakes, record_calls, gate_calls, mend_calls, fresh_calls};
ghost use Rattle.gated_journal.specs.Format.{Reads, IsCorrupt, IsPrefix};
ghost use Rattle.gated_journal.specs.Load.{ReadCounts, LoadCounts, IfCorrupt, KeepsImages};
ghost use Rattle.gated_journal.specs.Journal.{Keeps, HasLastGate, MayRead, late_of, appended, mended, fresh_bytes};

use crate::layout::{CLOSED_GATE, FIRST_GATE, NO_RECORDS, OPEN_GATE};
use crate::payload::Payload;
use crate::records::Records;
use crate::refusal::{JournalRefusal, ReadRefusal};
use crate::scan::{ValidPrefix, valid_prefix};
use crate::state::State;
use outside_api::{Disk, DiskFault};
use q_values::NoMemory;
use std::alloc::Global;
use std::marker::Model;

/// Records in a file of a disk. A record counts once the gate before it is open, and a gate is opened by a write of its
/// own, after a sync of the record and of the closed gate at its end.
///
/// The journal doesn't hold the disk: each call is given it, and nobody else may write the journal's file. Where the
/// disk reports what it holds, `Keeps` says which records the file has, now and in each image that a crash may leave.
#[derive(Debug, Drop)]
pub struct Journal {
    // The file's number on the disk.
    file: u64,
    // The offset of the last gate, below 2^63.
    end: u64,
    // How the last append or repair ended.
    state: State,
}

impl Model for Journal {
    ghost use Rattle.std.specs.Prelude.{◌<◌, ◌^◌};
    ghost use Rattle.gated_journal.specs.Journal.{JournalView};

    ghost Value = { JournalView };

    ghost view = { λ j. record { file = j.file; end = j.end; state = j.state } };

    ghost invariant = { λ j. j.end < 2 ^ 63 };
}

impl Journal {
    ghost use Rattle.gated_journal.specs.Journal.{JournalView};

    /// Makes the file an empty journal, whatever it held: truncates it, writes the magic and a closed gate, and syncs. It
    /// takes no memory.
    ///
    /// A crash within this call may leave any bytes in the file.
    pub fn fresh<D: Disk>(disk: &mut D, file: u64) -> Result<Journal, DiskFault>
        ensures journal { IfOk result (λ j. j ≡ record { file = file; end = 8; state = State.Clean }) }
        ensures keeps { IfOk result (λ j. Keeps (D.shown disk.new) j [] None) }
        ensures has_gate { IfOk result (λ j. HasLastGate (D.shown disk.new) j) }
        ensures bytes { OnOk result (IsTrue (D.shown disk.old).tells → ((D.shown disk.new).now file).bytes ≡ fresh_bytes) }
        ensures durable { OnOk result (IsTrue (D.shown disk.old).tells → IsSettled ((D.shown disk.old).now file)
            → (D.shown disk.new).now file ≡ kept_file fresh_bytes) }
        ensures calls { Makes (D.shown disk.old) (D.shown disk.new) file fresh_calls result }
        ensures any_moment { IsTrue (D.shown disk.old).tells → Passes (D.shown disk.old) (D.shown disk.new) file (λ _. Unit {0}) }
        ensures counts { Counts (D.shown disk.old) (D.shown disk.new) result }
    {
        disk.cut(file, 0)?;
        disk.write_at(file, 0, &NO_RECORDS)?;
        disk.sync(file)?;
        Ok(Journal {
            file,
            end: FIRST_GATE as u64,
            state: State::Clean,
        })
    }

    /// Syncs the file, reads its records, and gives them with the journal, which is clean. The file reads as before. Time
    /// and memory are linear in the size of the file.
    ///
    /// Where a sync of the file has failed since the machine went up, a crash may leave less than what is read: only of a
    /// file that is settled is it known that the records are kept.
    ///
    /// The answer is `Corrupt` where the file doesn't begin as a journal does or has fewer than nine bytes, with both
    /// numbers 0, and where a gate is open and no whole record with a further gate follows it, with the number of records
    /// before that gate and its offset.
    pub fn load<D: Disk>(
        alloc: Global,
        disk: &mut D,
        file: u64,
    ) -> Result<(Journal, Records), JournalRefusal>
        ensures records { IfOk result (λ x. IsTrue (D.shown disk.old).tells → Reads ((D.shown disk.old).now file).bytes x.1) }
        ensures keeps { IfOk result (λ x. IsSettled ((D.shown disk.old).now file) → Keeps (D.shown disk.new) x.0 x.1 None) }
        ensures has_gate { IfOk result (λ x. HasLastGate (D.shown disk.new) x.0) }
        ensures file { IfOk result (λ x. x.0.file ≡ file) }
        ensures clean { IfOk result (λ x. x.0.state ≡ State.Clean) }
        ensures corrupt { IfCorrupt result (λ records bytes. IsTrue (D.shown disk.old).tells
            → IsCorrupt ((D.shown disk.old).now file).bytes records bytes) }
        ensures synced { OnOk result (IsTrue (D.shown disk.old).tells
            → (D.shown disk.new).now file ≡ synced ((D.shown disk.old).now file)) }
        ensures bytes { IsTrue (D.shown disk.old).tells → ((D.shown disk.new).now file).bytes ≡ ((D.shown disk.old).now file).bytes }
        ensures calls { LoadMakes (D.shown disk.old) (D.shown disk.new) file result }
        ensures any_moment { KeepsImages (D.shown disk.old) (D.shown disk.new) file }
        ensures counts { LoadCounts (D.shown disk.old) (D.shown disk.new) result }
    {
        disk.sync(file)?; // what is read is to be durable
        let ValidPrefix { records, fault } = Journal::read_valid(alloc, disk, file)?;
        match fault {
            Some(bytes) => {
                let records = records.len() as u64;
                Err(JournalRefusal::Corrupt { records, bytes })
            }
            None => {
                let end = records.end();
                let state = State::Clean;
                Ok((Journal { file, end, state }, records))
            }
        }
    }

    /// Reads a file as it is, and gives its records up to the first fault, with the offset of that fault. It writes
    /// nothing and syncs nothing, so a crash may leave less than what it gives. Time and memory are linear in the size of
    /// the file.
    pub fn read_valid<D: Disk>(
        alloc: Global,
        disk: &mut D,
        file: u64,
    ) -> Result<ValidPrefix, ReadRefusal>
        ensures prefix { IfOk result (λ v. IsTrue (D.shown disk.old).tells
            → IsPrefix ((D.shown disk.old).now file).bytes v.records v.fault) }
        ensures corrupt { IfOk result (λ v. IfSome v.fault (λ at. IsTrue (D.shown disk.old).tells
            → IsCorrupt ((D.shown disk.old).now file).bytes (length v.records) at)) }
        ensures calls { ReadMakes (D.shown disk.old) (D.shown disk.new) file result }
        ensures stays { Stays (D.shown disk.old) (D.shown disk.new) }
        ensures counts { ReadCounts (D.shown disk.old) (D.shown disk.new) result }
    {
        let bytes = read_file(alloc, disk, file)?;
        Ok(valid_prefix(alloc, bytes)?)
    }

    /// Whether the last append or repair succeeded. Otherwise the journal must be repaired before the next append.
    pub fn is_clean(&self) -> bool
        ensures { IsTrue result ↔ (self.now.state ≡ State.Clean) }
    {
        self.state == State::Clean
    }

    /// Adds a record: four calls of the disk, no memory, and no copy of the payload.
    ///
    /// After a fault the records are as before, and the journal isn't clean.
    pub fn append<D: Disk>(&mut self, disk: &mut D, payload: &Payload) -> Result<(), DiskFault>
        requires clean { self.old.state ≡ State.Clean }
        requires some { 0 < length payload.now.bytes }
        requires has_gate { HasLastGate (D.shown disk.old) self.old }

        ensures added { OnOk result ((records : List (List ℕ)) → Keeps (D.shown disk.old) self.old records None
            → Keeps (D.shown disk.new) self.new (records ++ payload.now.bytes ∷ []) None) }
        ensures failed { OnErr result ((records : List (List ℕ)) → Keeps (D.shown disk.old) self.old records None
            → Keeps (D.shown disk.new) self.new records (late_of self.new.state payload.now.bytes)) }

        ensures calls { AppendMakes (D.shown disk.old) (D.shown disk.new) self.old payload.now.bytes self.new.state result }

        // At each moment of the call each image has the records from before it, or these and the new one.
        ensures any_moment { (records : List (List ℕ)) → Keeps (D.shown disk.old) self.old records None → IsTrue (D.shown disk.old).tells
            → Passes (D.shown disk.old) (D.shown disk.new) self.old.file (MayRead records (Some payload.now.bytes)) }

        ensures bytes { OnOk result (IsTrue (D.shown disk.old).tells → ((D.shown disk.new).now self.old.file).bytes
            ≡ appended ((D.shown disk.old).now self.old.file).bytes self.old.end payload.now.bytes) }
        ensures durable { OnOk result (IsTrue (D.shown disk.old).tells → IsSettled ((D.shown disk.old).now self.old.file)
            → (D.shown disk.new).now self.old.file
            ≡ kept_file (appended ((D.shown disk.old).now self.old.file).bytes self.old.end payload.now.bytes)) }
        ensures has_gate { HasLastGate (D.shown disk.new) self.new }
        ensures others { OthersStay (D.shown disk.old) (D.shown disk.new) self.old.file }
        ensures clean { OnOk result (self.new.state ≡ State.Clean) }
        ensures unclean { OnErr result (self.new.state ≢ State.Clean) }
        ensures file { self.new.file ≡ self.old.file }
        ensures counts { Counts (D.shown disk.old) (D.shown disk.new) result }
    {
        let body = payload.body();
        self.state = State::BodyFailed;
        write_record(disk, self.file, self.end, body)?;
        self.state = State::GateFailed;
        write_gate(disk, self.file, self.end, OPEN_GATE)?;
        self.state = State::Clean;
        self.end += body.len() as u64;
        Ok(())
    }

    /// Repairs the journal, which keeps the records that it had. Where the last gate may be open it is closed and synced;
    /// otherwise the file is synced. It takes no memory.
    ///
    /// After a fault the journal isn't clean.
    pub fn mend<D: Disk>(&mut self, disk: &mut D) -> Result<(), DiskFault>
        requires { HasLastGate (D.shown disk.old) self.old }

        ensures mended { OnOk result ((records : List (List ℕ)) (late : Option (List ℕ)) → Keeps (D.shown disk.old) self.old records late
            → Keeps (D.shown disk.new) self.new records None) }
        ensures failed { OnErr result ((records : List (List ℕ)) (late : Option (List ℕ)) → Keeps (D.shown disk.old) self.old records late
            → Keeps (D.shown disk.new) self.new records late) }

        ensures calls { Makes (D.shown disk.old) (D.shown disk.new) self.old.file (mend_calls self.old.state self.old.end) result }

        // At each moment of the call each image has what one before it might have.
        ensures any_moment { (records : List (List ℕ)) (late : Option (List ℕ)) → Keeps (D.shown disk.old) self.old records late
            → IsTrue (D.shown disk.old).tells → Passes (D.shown disk.old) (D.shown disk.new) self.old.file (MayRead records late) }

        ensures bytes { OnOk result (IsTrue (D.shown disk.old).tells → ((D.shown disk.new).now self.old.file).bytes
            ≡ mended self.old.state ((D.shown disk.old).now self.old.file).bytes self.old.end) }
        ensures durable { OnOk result (IsTrue (D.shown disk.old).tells → IsSettled ((D.shown disk.old).now self.old.file)
            → (D.shown disk.new).now self.old.file
            ≡ kept_file (mended self.old.state ((D.shown disk.old).now self.old.file).bytes self.old.end)) }
        ensures has_gate { HasLastGate (D.shown disk.new) self.new }
        ensures others { OthersStay (D.shown disk.old) (D.shown disk.new) self.old.file }
        ensures clean { OnOk result (self.new.state ≡ State.Clean) }
        ensures unclean { OnErr result (self.new.state ≢ State.Clean) }
        ensures same { self.new ≡ record self.old { state = self.new.state } }
        ensures counts { Counts (D.shown disk.old) (D.shown disk.new) result }
    {
        match self.state {
            State::GateFailed => write_gate(disk, self.file, self.end, CLOSED_GATE)?,
            State::Clean | State::BodyFailed => {
                self.state = State::BodyFailed;
                disk.sync(self.file)?;
            }
        }
        self.state = State::Clean;
        Ok(())
    }
}

// The bytes of a file, as reads give them.
fn read_file<D: Disk>(alloc: Global, disk: &mut D, file: u64) -> Result<Vec<u8>, ReadRefusal>
    ensures bytes { IfOk result (λ b. IsTrue (D.shown disk.old).tells → b.items ≡ ((D.shown disk.old).now file).bytes) }
    ensures small { IfOk result (λ b. length b.items < 2 ^ 63) }
    ensures calls { ReadMakes (D.shown disk.old) (D.shown disk.new) file result }
    ensures stays { Stays (D.shown disk.old) (D.shown disk.new) }
    ensures counts { ReadCounts (D.shown disk.old) (D.shown disk.new) result }
{
    let size = disk.size(file)?;
    let mut bytes = zeroes(alloc, size as usize)?;
    disk.read(file, 0, bytes.as_mut_slice())?;
    Ok(bytes)
}

// This number of zeroes.
fn zeroes(alloc: Global, n: usize) -> Result<Vec<u8>, NoMemory>
    ensures { IfOk result (λ v. length v.items ≡ n) }
{
    Ok(vec![in alloc; 0; n]?)
}

// Writes after the last gate, and syncs.
fn write_record<D: Disk>(disk: &mut D, file: u64, end: u64, body: &[u8]) -> Result<(), DiskFault>
    requires small { end < 2 ^ 63 }
    requires within { IsWithin (D.shown disk.old) file end 1 }
    ensures small { OnOk result (end + 1 + length body.now < 2 ^ 63) }
    ensures calls { Makes (D.shown disk.old) (D.shown disk.new) file (record_calls end body.now) result }
    ensures shut { KeepsShut (D.shown disk.old) (D.shown disk.new) file end }
    ensures kept { OnOk result (IsTrue (D.shown disk.old).tells → (D.shown disk.new).now file
        ≡ synced (written ((D.shown disk.old).now file) (end + 1) (length body.now)
        (put ((D.shown disk.old).now file).bytes (end + 1) body.now))) }
    ensures longer { IsTrue (D.shown disk.old).tells → IsNoShorter (D.shown disk.old) (D.shown disk.new) file }
    ensures counts { Counts (D.shown disk.old) (D.shown disk.new) result }
{
    disk.write_at(file, end + 1, body)?;
    disk.sync(file)
}

// Writes the last gate, and syncs.
fn write_gate<D: Disk>(disk: &mut D, file: u64, end: u64, gate: u8) -> Result<(), DiskFault>
    requires within { IsWithin (D.shown disk.old) file end 1 }
    ensures calls { Makes (D.shown disk.old) (D.shown disk.new) file (gate_calls end gate) result }
    ensures ajar { KeepsAjar (D.shown disk.old) (D.shown disk.new) file end }
    ensures kept { OnOk result (IsTrue (D.shown disk.old).tells → (D.shown disk.new).now file
        ≡ synced (written ((D.shown disk.old).now file) end 1 (put ((D.shown disk.old).now file).bytes end (gate ∷ [])))) }
    ensures longer { IsTrue (D.shown disk.old).tells → IsNoShorter (D.shown disk.old) (D.shown disk.new) file }
    ensures counts { Counts (D.shown disk.old) (D.shown disk.new) result }
{
    disk.write_at(file, end, &[gate])?;
    disk.sync(file)
}
