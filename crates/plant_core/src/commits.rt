//! Commits: an entry goes to the disk and then into memory, or a fault into memory alone.
ghost use Rattle.std.specs.Prelude.{◌≡◌, ◌<◌, ◌+◌, ◌^◌, ◌<ℤ◌, pos, true, false, [], ◌∷◌, ◌++◌, length, Option, None, IfOk, OnOk, OnErr};
ghost use Rattle.outside_api.specs.Disk.{Counts};
ghost use Rattle.day_rows.specs.Chronicle.{date_of};
ghost use Rattle.day_rows.specs.declared.entry.Entry.{Entry};
ghost use Rattle.day_rows.specs.declared.entry.Entry.TheVariants as e;
ghost use Rattle.plant_memory.specs.Memory.{due};
ghost use Rattle.plant_core.specs.Adds.{Ends};
ghost use Rattle.plant_core.specs.Plant.{StoresLog, LeavesLog, RestartsAllAlong, shown_by};

use crate::plant::Plant;
use outside_api::{Disk, DiskFault};
use plant_memory::{Prepared, PreparedRoll};
use std::alloc::Global;

/// What became of a prepared update.
#[derive(Clone, Copy)]
pub enum Logging {
    /// It was logged.
    Logged {
        /// The index of the roll that was made before it, where one was due.
        rolled: Option<u64>,
        /// The index of its entry.
        place: u64,
    },
    /// The disk failed at it, or at the roll before it.
    Failed {
        /// The index of the roll that was made before the disk failed, where one was due and was made.
        rolled: Option<u64>,
        /// The index of the fault.
        place: u64,
    },
    /// There was no memory for the roll that was due. Nothing was logged.
    NoMemory,
}

impl<D: Disk> Plant<D> {
    /// Logs an update, and returns the index of its entry. Since it was prepared, no other update was, and the chronicle has
    /// gained exactly the roll that was due, or nothing where none was. It takes no memory.
    ///
    /// What an earlier commit that failed has left on the disk is repaired first. After a fault the log is as before, and the
    /// chronicle has a fault of the update's pass; until the next commit a restart may find the update.
    pub fn commit(&mut self, update: Prepared) -> Result<u64, DiskFault>
        requires frame { update.frame ≡ self.old.memory.frame }
        requires follows { self.old.memory.entries ≡ update.entries ++ due update }
        requires room { update.rolls ≡ false → self.old.memory.room ≡ update.entry ∷ [] }
        requires spare { self.old.memory.spare ≡ true }

        ensures place { IfOk result (λ place. place ≡ length self.old.memory.entries) }
        ensures logged { OnOk result (self.new.memory ≡ record self.old.memory {
          entries = self.old.memory.entries ++ update.entry ∷ [];
          room = [];
        }) }
        ensures failed { OnErr result (self.new.memory ≡ record self.old.memory {
          entries = self.old.memory.entries ++ Entry.Fault update.by ∷ [];
          spare = self.new.memory.spare;
        }) }

        // Whatever a restart finds: after an `Ok` the log with this update, after a fault perhaps without it.
        ensures stored { OnOk result ((late : Option Entry) → StoresLog (shown_by D.shown self.old) late → StoresLog (shown_by D.shown self.new) None) }
        ensures left { OnErr result ((late : Option Entry) → StoresLog (shown_by D.shown self.old) late
            → LeavesLog (shown_by D.shown self.new) late update.entry) }
        ensures any_moment { (late : Option Entry) → StoresLog (shown_by D.shown self.old) late
            → RestartsAllAlong (shown_by D.shown self.old) (shown_by D.shown self.new) late update.entry }

        ensures origin { self.new.origin ≡ self.old.origin }
        ensures dates { self.new.logs.manifest.room ≡ self.old.logs.manifest.room }
        ensures counts { Counts (D.shown self.old.disk) (D.shown self.new.disk) result }
    {
        match self.logs.append(&mut self.disk, update.chunk()) {
            Ok(()) => Ok(self.memory.commit(update)),
            Err(fault) => {
                self.memory.note_fault(update.by());
                Err(fault)
            }
        }
    }

    /// Ends the open date, and returns the index of the roll's entry. The chronicle has gained nothing since the roll was
    /// prepared. It takes no memory.
    ///
    /// What an earlier commit that failed has left on the disk is repaired first. After a fault the log is as before, and the
    /// chronicle has a fault of the roll's pass; until the next commit a restart may find the roll.
    pub fn commit_roll(&mut self, roll: PreparedRoll) -> Result<u64, DiskFault>
        requires frame { roll.frame ≡ self.old.memory.frame }
        requires same { roll.entries ≡ self.old.memory.entries }
        requires spare { self.old.memory.spare ≡ true }
        requires room { 0 < self.old.logs.manifest.room }

        ensures place { IfOk result (λ place. place ≡ length self.old.memory.entries) }
        ensures logged { OnOk result (self.new.memory ≡ record self.old.memory {
          entries = self.old.memory.entries ++ Entry.Roll roll.by roll.date ∷ [];
          room = [];
          spare = true;
        }) }
        ensures failed { OnErr result (self.new.memory ≡ record self.old.memory {
          entries = self.old.memory.entries ++ Entry.Fault roll.by ∷ [];
          spare = self.new.memory.spare;
        }) }

        // Whatever a restart finds: after an `Ok` the log with this roll, after a fault perhaps without it.
        ensures stored { OnOk result ((late : Option Entry) → StoresLog (shown_by D.shown self.old) late → StoresLog (shown_by D.shown self.new) None) }
        ensures left { OnErr result ((late : Option Entry) → StoresLog (shown_by D.shown self.old) late
            → LeavesLog (shown_by D.shown self.new) late (e.Roll roll.by roll.date)) }
        ensures any_moment { (late : Option Entry) → StoresLog (shown_by D.shown self.old) late
            → RestartsAllAlong (shown_by D.shown self.old) (shown_by D.shown self.new) late (e.Roll roll.by roll.date) }

        ensures origin { self.new.origin ≡ self.old.origin }
        ensures counts { Counts (D.shown self.old.disk) (D.shown self.new.disk) result }
    {
        let by = roll.by();
        match self.logs.roll(&mut self.disk, by, roll.date()) {
            Ok(()) => Ok(self.memory.commit_roll(roll)),
            Err(fault) => {
                self.memory.note_fault(by);
                Err(fault)
            }
        }
    }

    /// Logs a prepared update, after the roll where one is due.
    pub(crate) fn log(&mut self, alloc: Global, update: Prepared) -> Logging
        requires frame { update.frame ≡ self.old.memory.frame }
        requires same { update.entries ≡ self.old.memory.entries }
        requires room { update.rolls ≡ false → self.old.memory.room ≡ update.entry ∷ [] }
        requires spare { self.old.memory.spare ≡ true }
        requires date { update.rolls ≡ true → date_of self.old.memory.frame.first self.old.memory.entries <ℤ pos 106751 }
        ensures ends { Ends self.old.memory self.new.memory update result }
        ensures origin { self.new.origin ≡ self.old.origin }
    {
        let by = update.by();
        let mut rolled = None;
        if update.rolls() {
            let Ok(roll) = self.prepare_roll(alloc, by) else {
                return Logging::NoMemory;
            };
            let place = self.length();
            match self.commit_roll(roll) {
                Ok(place) => rolled = Some(place),
                Err(_) => return Logging::Failed { rolled, place },
            }
        }
        let place = self.length();
        match self.commit(update) {
            Ok(place) => Logging::Logged { rolled, place },
            Err(_) => Logging::Failed { rolled, place },
        }
    }
}
