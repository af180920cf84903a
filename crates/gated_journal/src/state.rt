//! How the last call of a journal ended.

/// How the last append or repair of a journal ended.
#[derive(Clone, Copy, Debug, PartialEq, Eq)]
pub enum State {
    /// It succeeded.
    Clean,
    /// It failed while the last gate was closed: whatever follows that gate is ignored.
    BodyFailed,
    /// It failed when the last gate was to be opened, or closed again: it may be open.
    GateFailed,
}
