//! A recorder of what a session did.
ghost use Rattle.std.specs.Prelude.{[], ◌∷◌};

use q_values::Turn;

/// Notes the turns of a session, in order.
pub trait Recorder {
    ghost use Rattle.std.specs.Prelude.{Option, List};
    ghost use Rattle.outside_api.specs.Told.{Tells};
    ghost use Rattle.q_values.specs.declared.turn.Turn.{Turn};

    /// The turns noted, where it reports them.
    ghost noted: { Self → Option (List Turn) };

    /// Notes one more turn. A recorder may stop reporting.
    fn note(&mut self, turn: Turn)
        ensures { Tells (noted self.old) (noted self.new) (turn ∷ []) };
}
