//! A gate: where a session or a save pauses, so that a test can hold it there.

/// Where a session or a save pauses.
#[derive(Clone, Copy, Debug, PartialEq, Eq)]
pub enum Point {
    /// A date was ended.
    Rolled,
    /// An answer is about to be computed.
    Evaluating,
    /// A part's columns are about to be written.
    WritingColumns,
}

/// Pauses its caller. Nothing that contracts see changes.
pub trait Gate {
    /// Called at this point; it returns when the caller may go on.
    fn pause(&mut self, point: Point);
}
