//! One turn of a pass at a plant: an update, or a look at the clock, whole.
ghost use Rattle.std.specs.Prelude.{◌≡◌, ◌<◌, ◌+◌, ◌^◌};
ghost use Rattle.plant_lock.specs.Entries.{IsExtendedBy};
ghost use Rattle.plant_memory.specs.Chronicle.{by_of};
ghost use Rattle.plant_core.specs.Turns.{UpdatesPlant, TicksPlant};

use crate::access::{TickTurn, UpdTurn};
use crate::commits::Logging;
use crate::plant::Plant;
use outside_api::Disk;
use plant_memory::{UpdRefusal, UpdRequest, is_next_day};
use std::alloc::Global;

impl<D: Disk> Plant<D> {
    /// Logs an update of the pass `by`, after a roll where one is due, or refuses it. `now` is in nanoseconds since
    /// 2000.01.01. What is added has the number of the pass.
    pub fn update(&mut self, alloc: Global, by: u64, request: &UpdRequest, now: i64) -> UpdTurn
        requires { by + 1 < 2 ^ 64 }
        ensures turn { UpdatesPlant (D.shown self.old.origin) self.old.memory self.new.memory by request.now now result }
        ensures made { IsExtendedBy by_of by self.old.memory.entries self.new.memory.entries }
        ensures frame { self.new.memory.frame ≡ self.old.memory.frame }
        ensures origin { self.new.origin ≡ self.old.origin }
    {
        let length = self.length();
        let update = match self.prepare(alloc, by, request, now) {
            Ok(update) => update,
            Err(why) => return UpdTurn::Refused { length, why },
        };
        match self.log(alloc, update) {
            Logging::Logged { rolled, place } => UpdTurn::Logged { rolled, place },
            Logging::Failed { rolled, place } => UpdTurn::Failed { rolled, place },
            Logging::NoMemory => UpdTurn::Refused {
                length,
                why: UpdRefusal::NoMemory,
            },
        }
    }

    /// Ends the open date by the pass `by`, where the moment `now` lies in the next one. `now` is in nanoseconds since
    /// 2000.01.01. What is added has the number of the pass.
    pub fn tick(&mut self, alloc: Global, by: u64, now: i64) -> TickTurn
        requires { by + 1 < 2 ^ 64 }
        ensures turn { TicksPlant (D.shown self.old.origin) self.old.memory self.new.memory by now result }
        ensures made { IsExtendedBy by_of by self.old.memory.entries self.new.memory.entries }
        ensures frame { self.new.memory.frame ≡ self.old.memory.frame }
        ensures origin { self.new.origin ≡ self.old.origin }
    {
        let length = self.length();
        if !is_next_day(self.date(), now) {
            return TickTurn::Quiet { length };
        }
        let Ok(roll) = self.prepare_roll(alloc, by) else {
            return TickTurn::NoMemory;
        };
        match self.commit_roll(roll) {
            Ok(place) => TickTurn::Rolled { place },
            Err(_) => TickTurn::Failed { place: length },
        }
    }
}
