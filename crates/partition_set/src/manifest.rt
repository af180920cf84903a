//! The manifest: its records, in a journal of their own.
ghost use Rattle.std.specs.Prelude.{◌≡◌, true, ◌≢◌, ◌<◌, ◌↔◌, ◌++◌, [], ◌∷◌, List, Option, Some, None, ℕ, map, IsTrue, IfOk, OnOk, OnErr};
ghost use Rattle.outside_api.specs.Disk as outside;
ghost use Rattle.outside_api.specs.Disk.{IsSettled, Passes};
ghost use Rattle.gated_journal.specs.Journal.{HasLastGate, MayRead, late_of};
ghost use Rattle.gated_journal.specs.Format.{Reads};
ghost use Rattle.gated_journal.specs.Steps.{OthersStay};
ghost use Rattle.gated_journal.specs.Load.{KeepsImages};
ghost use Rattle.partition_set.specs.Records.{payload_of, payloads_of, IsManifest};
ghost use Rattle.partition_set.specs.Manifest.{Keeps, IfBad, IsDamaged, Counts};
ghost use Rattle.partition_set.specs.declared.record.ManifestRecord.TheVariants as m;
ghost use Rattle.gated_journal.specs.declared.state.State.TheVariants as s;

use crate::encoding::{OPENED_BYTES, is_opening, payload_of_opened, payload_of_shape};
use crate::order::may_come;
use crate::reading::read_records;
use crate::record::ManifestRecord;
use crate::refusal::ManifestRefusal;
use day_rows::{Schema, Shape};
use gated_journal::{Journal, JournalRefusal, Payload};
use outside_api::{Disk, DiskFault};
use q_values::NoMemory;
use std::alloc::Global;
use std::marker::Model;

/// The number of the manifest's file on the plant's disk.
pub const MANIFEST_FILE: u64 = 0;

/// Which tables a plant has and which dates it has opened: a list of records, in a journal of their own.
///
/// The manifest doesn't hold the disk: each call is given it, and nobody else may write its file. `Keeps` says which records
/// the file has, now and in each image that a crash may leave, where the disk reports what it holds.
#[derive(Drop)]
pub struct Manifest {
    // The journal of the records' payloads.
    journal: Journal,
    // The records, with room for those that were reserved.
    records: Vec<ManifestRecord>,
    // Where the payload of an opened date is laid out; it has room for one.
    payload: Payload,
}

impl Model for Manifest {
    ghost use Rattle.std.specs.Prelude.{◌≡◌, ◌-◌};
    ghost use Rattle.std.specs.Vec.{vec_len, vec_capacity};
    ghost use Rattle.partition_set.specs.Records.{IsManifest};
    ghost use Rattle.partition_set.specs.Manifest.{ManifestView};

    ghost Value = { ManifestView };

    ghost view = { λ m. record { journal = m.journal; records = m.records.items; room = vec_capacity m.records - vec_len m.records } };

    ghost invariant = { λ m. IsManifest m.records.items × (m.payload.room ≡ 13) };
}

impl Manifest {
    /// Makes the manifest of a plant with these tables and no date yet, whatever the file held: an empty journal, and then a
    /// record for each table. The answer is never `BadManifest`.
    ///
    /// A crash within this call may leave any bytes in the file.
    pub fn make<D: Disk>(
        alloc: Global,
        disk: &mut D,
        schema: &Schema,
    ) -> Result<Manifest, ManifestRefusal>
        ensures records { IfOk result (λ x. x.records ≡ map m.Shape schema.now) }
        ensures keeps { IfOk result (λ x. Keeps (D.shown disk.new) x None) }
        ensures has_gate { IfOk result (λ x. HasLastGate (D.shown disk.new) x.journal) }
        ensures file { IfOk result (λ x. x.journal.file ≡ 0) }
        ensures clean { IfOk result (λ x. x.journal.state ≡ s.Clean) }
        ensures not_bad { IfBad result (λ _. ⊥) }
        ensures others { IsTrue (D.shown disk.old).tells → (k : ℕ) → k ≢ 0 → (D.shown disk.new).now k ≡ (D.shown disk.old).now k }
        ensures counts { Counts (D.shown disk.old) (D.shown disk.new) result }
    {
        let payload = Payload::with_room(alloc, OPENED_BYTES as u32)?;
        let mut manifest = Manifest {
            journal: Journal::fresh(disk, MANIFEST_FILE)?,
            records: Vec::new(alloc),
            payload,
        };
        for i in 0..schema.len() {
            manifest.add_table(alloc, disk, schema.at(i))?;
        }
        Ok(manifest)
    }

    /// Syncs the manifest's file and reads its records. The file reads as before. Time and memory are linear in its size.
    ///
    /// Only of a file that is settled is it known that the records are kept: where a sync of it has failed, a crash may
    /// leave less than what is read.
    ///
    /// The answer is `BadManifest` where the file is no whole journal, or where a payload isn't that of a record that may
    /// stand there, with the offset of the gate before it.
    pub fn load<D: Disk>(alloc: Global, disk: &mut D) -> Result<Manifest, ManifestRefusal>
        ensures records { IfOk result (λ x. IsTrue (D.shown disk.old).tells
            → Reads ((D.shown disk.old).now 0).bytes (payloads_of x.records)) }
        ensures lawful { IfOk result (λ x. IsManifest x.records) }
        ensures keeps { IfOk result (λ x. IsSettled ((D.shown disk.old).now 0) → Keeps (D.shown disk.new) x None) }
        ensures has_gate { IfOk result (λ x. HasLastGate (D.shown disk.new) x.journal) }
        ensures file { IfOk result (λ x. x.journal.file ≡ 0) }
        ensures clean { IfOk result (λ x. x.journal.state ≡ s.Clean) }
        ensures bad { IfBad result (λ at. IsTrue (D.shown disk.old).tells → IsDamaged ((D.shown disk.old).now 0).bytes at) }
        ensures bytes { IsTrue (D.shown disk.old).tells → ((D.shown disk.new).now 0).bytes ≡ ((D.shown disk.old).now 0).bytes }
        ensures any_moment { KeepsImages (D.shown disk.old) (D.shown disk.new) 0 }
        ensures counts { Counts (D.shown disk.old) (D.shown disk.new) result }
    {
        let payload = Payload::with_room(alloc, OPENED_BYTES as u32)?;
        let (journal, payloads) = match Journal::load(alloc, disk, MANIFEST_FILE) {
            Ok(loaded) => loaded,
            Err(JournalRefusal::DiskFault) => return Err(ManifestRefusal::DiskFault),
            Err(
                JournalRefusal::Corrupt {
                    records: _records,
                    bytes,
                },
            ) => {
                return Err(ManifestRefusal::BadManifest { bytes });
            }
            Err(JournalRefusal::NoMemory) => return Err(ManifestRefusal::NoMemory),
        };
        let records = read_records(alloc, &payloads)?;
        Ok(Manifest {
            journal,
            records,
            payload,
        })
    }

    /// Its records, in order: the tables, and then the dates that were opened.
    pub fn records(&self) -> &[ManifestRecord]
        ensures value { result.now ≡ self.now.records }
        ensures lawful { IsManifest self.now.records }
    {
        self.records.as_slice()
    }

    /// Whether the last record or repair succeeded. Otherwise the manifest must be repaired before the next record.
    pub fn is_clean(&self) -> bool
        ensures { IsTrue result ↔ (self.now.journal.state ≡ s.Clean) }
    {
        self.journal.is_clean()
    }

    /// Whether the pass may open this date next: the pass has a number, and the date is later than each that was opened and
    /// within those that a plant may have.
    pub fn may_open(&self, by: u64, date: i32) -> bool
        ensures { (result ≡ true) ↔ IsManifest (self.now.records ++ m.Opened by date ∷ []) }
    {
        if !is_opening(by, date) {
            return false;
        }
        may_come(
            self.records.as_slice(),
            &ManifestRecord::Opened { by, date },
        )
    }

    /// Makes room for one record more. A refused call changes nothing.
    pub fn reserve(&mut self) -> Result<(), NoMemory>
        ensures room { OnOk result (0 < self.new.room) }
        ensures records { self.new.records ≡ self.old.records }
        ensures journal { self.new.journal ≡ self.old.journal }
    {
        self.records.reserve(1)?;
        Ok(())
    }

    /// Adds the record of a date that is opened. It takes no memory.
    ///
    /// After a fault the records are as before, and the manifest isn't clean.
    pub fn opened<D: Disk>(&mut self, disk: &mut D, by: u64, date: i32) -> Result<(), DiskFault>
        requires clean { self.old.journal.state ≡ s.Clean }
        requires room { 0 < self.old.room }
        requires allowed { IsManifest (self.old.records ++ m.Opened by date ∷ []) }
        requires has_gate { HasLastGate (D.shown disk.old) self.old.journal }

        ensures added { OnOk result (self.new.records ≡ self.old.records ++ m.Opened by date ∷ []) }
        ensures same { OnErr result (self.new.records ≡ self.old.records) }
        ensures room { OnErr result (self.new.room ≡ self.old.room) }
        ensures kept { OnOk result (Keeps (D.shown disk.old) self.old None → Keeps (D.shown disk.new) self.new None) }
        ensures failed { OnErr result (Keeps (D.shown disk.old) self.old None
            → Keeps (D.shown disk.new) self.new (late_of self.new.journal.state (payload_of (m.Opened by date)))) }

        // At each moment of the call each image has the records from before it, or these and the new one.
        ensures any_moment { Keeps (D.shown disk.old) self.old None → IsTrue (D.shown disk.old).tells
            → Passes (D.shown disk.old) (D.shown disk.new) self.old.journal.file
            (MayRead (payloads_of self.old.records) (Some (payload_of (m.Opened by date)))) }
        ensures has_gate { HasLastGate (D.shown disk.new) self.new.journal }
        ensures others { OthersStay (D.shown disk.old) (D.shown disk.new) self.old.journal.file }
        ensures clean { OnOk result (self.new.journal.state ≡ s.Clean) }
        ensures unclean { OnErr result (self.new.journal.state ≢ s.Clean) }
        ensures file { self.new.journal.file ≡ self.old.journal.file }
        ensures counts { outside.Counts (D.shown disk.old) (D.shown disk.new) result }
    {
        self.payload.fill(&payload_of_opened(by, date));
        match self.journal.append(disk, &self.payload) {
            Ok(()) => {
                let opened = ManifestRecord::Opened { by, date };
                self.records.push_reserved(opened);
                Ok(())
            }
            Err(fault) => Err(fault),
        }
    }

    /// Repairs the manifest, which keeps its records. It takes no memory.
    ///
    /// After a fault the manifest isn't clean.
    pub fn mend<D: Disk>(&mut self, disk: &mut D) -> Result<(), DiskFault>
        requires { HasLastGate (D.shown disk.old) self.old.journal }

        ensures mended { OnOk result ((late : Option (List ℕ)) → Keeps (D.shown disk.old) self.old late → Keeps (D.shown disk.new) self.new None) }
        ensures failed { OnErr result ((late : Option (List ℕ)) → Keeps (D.shown disk.old) self.old late → Keeps (D.shown disk.new) self.new late) }

        // At each moment of the call each image has what one before it might have.
        ensures any_moment { (late : Option (List ℕ)) → Keeps (D.shown disk.old) self.old late → IsTrue (D.shown disk.old).tells
            → Passes (D.shown disk.old) (D.shown disk.new) self.old.journal.file (MayRead (payloads_of self.old.records) late) }
        ensures records { self.new.records ≡ self.old.records }
        ensures room { self.new.room ≡ self.old.room }
        ensures has_gate { HasLastGate (D.shown disk.new) self.new.journal }
        ensures others { OthersStay (D.shown disk.old) (D.shown disk.new) self.old.journal.file }
        ensures clean { OnOk result (self.new.journal.state ≡ s.Clean) }
        ensures unclean { OnErr result (self.new.journal.state ≢ s.Clean) }
        ensures file { self.new.journal.file ≡ self.old.journal.file }
        ensures counts { outside.Counts (D.shown disk.old) (D.shown disk.new) result }
    {
        self.journal.mend(disk)
    }

    // Adds the record of a table. After a fault the records are as before.
    fn add_table<D: Disk>(
        &mut self,
        alloc: Global,
        disk: &mut D,
        shape: &Shape,
    ) -> Result<(), ManifestRefusal>
        requires clean { self.old.journal.state ≡ s.Clean }
        requires allowed { IsManifest (self.old.records ++ m.Shape shape.now ∷ []) }
        requires kept { Keeps (D.shown disk.old) self.old None }
        requires has_gate { HasLastGate (D.shown disk.old) self.old.journal }
        ensures added { OnOk result (self.new.records ≡ self.old.records ++ m.Shape shape.now ∷ []) }
        ensures kept { OnOk result (Keeps (D.shown disk.new) self.new None) }
        ensures has_gate { OnOk result (HasLastGate (D.shown disk.new) self.new.journal) }
        ensures clean { OnOk result (self.new.journal.state ≡ s.Clean) }
        ensures file { self.new.journal.file ≡ self.old.journal.file }
        ensures not_bad { IfBad result (λ _. ⊥) }
        ensures others { IsTrue (D.shown disk.old).tells → (k : ℕ) → k ≢ self.old.journal.file → (D.shown disk.new).now k ≡ (D.shown disk.old).now k }
        ensures counts { Counts (D.shown disk.old) (D.shown disk.new) result }
    {
        let bytes = payload_of_shape(alloc, shape)?;
        let mut payload = Payload::with_room(alloc, bytes.len() as u32)?;
        payload.fill(&bytes);
        let record = ManifestRecord::Shape(shape.copied(alloc)?);
        self.reserve()?;
        self.journal.append(disk, &payload)?;
        self.records.push_reserved(record);
        Ok(())
    }
}
