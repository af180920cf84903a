//! A tap on a board.
ghost use Rattle.std.specs.Prelude.{◌≡◌};
ghost use Rattle.outside_api.specs.Tap.{Takes};
ghost use Rattle.taps.specs.Board.{Ends};

use outside_api::{Tap, TapFault, TapMessage};

/// A tap on a board.
#[derive(Drop)]
pub struct Seat {
    /// Its number.
    pub number: u32,
    /// The tap.
    pub tap: Box<dyn Tap + Send + Drop>,
}

impl Seat {
    fn take(&mut self, message: &TapMessage) -> Result<(), TapFault>
        ensures number { self.new.number ≡ self.old.number }
        ensures takes { Takes (shown self.old.tap) (shown self.new.tap) message.now result }
    {
        self.tap.take(message)
    }

    /// Gives the tap the messages, in order, up to its first fault. Whether it took them all.
    pub fn take_all(&mut self, messages: &[TapMessage]) -> bool
        ensures number { self.new.number ≡ self.old.number }
        ensures ends { Ends result messages.now (shown self.old.tap) (shown self.new.tap) }
    {
        for message in messages {
            if self.take(message).is_err() {
                return false;
            }
        }
        true
    }
}
