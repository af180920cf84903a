//! A gate that never pauses.

use outside_api::{Gate, Point};

/// A gate that never pauses.
#[derive(Clone, Copy, Debug, PartialEq, Eq)]
pub struct NoGate;

impl Gate for NoGate {
    fn pause(&mut self, _point: Point) {}
}
