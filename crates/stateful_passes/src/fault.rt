//! Why a sync of a database of a set doesn't go on.

pub use stateful_db_pass::SyncFault;
use thiserror::Error;

/// Why the sync of the database of this number didn't begin, go on or end.
#[derive(Clone, Copy, Debug, PartialEq, Eq, Error)]
#[error("{why}")]
pub struct SyncSetFault {
    pub index: usize,
    pub why: SyncFault,
}
