//! How a run over a disk goes.
use date_loading::LoadRefusal;
use program_outside::Cause;
use session::End;

/// How a run over a disk went.
pub enum Course<L, N> {
    /// The plant isn't loaded.
    NotLoaded(LoadRefusal),
    /// Standard input and output can't be had.
    NotLinked(Cause),
    /// The session ended.
    Ended {
        /// Its link.
        link: L,
        /// What noted its turns.
        turns: N,
        /// Why it ended.
        end: End,
    },
}
