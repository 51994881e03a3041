//! How far a finalization has come.

/// How far a finalization has come, as far as it tells what goes on.
#[derive(Clone, Copy)]
pub enum Reached {
    /// It has begun.
    Begun,
    /// Its block was run.
    Ran,
    /// Its block is the anchor, and no hook goes on.
    Advanced,
    /// It waits for a turn, or there is none.
    Waiting,
}
