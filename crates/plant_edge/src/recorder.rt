//! A recorder that keeps nothing.
use outside_api::Recorder;
use q_values::Turn;

/// A recorder that forgets each turn.
#[derive(Clone, Copy, Debug, PartialEq, Eq)]
pub struct SilentRecorder;

impl Recorder for SilentRecorder {
    ghost use Rattle.plant_edge.specs.Outside.{silent_recorder};

    ghost noted = { silent_recorder };

    fn note(&mut self, _turn: Turn) {}
}
