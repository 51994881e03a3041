//! How far work has come, and how it ends.

ghost use Rattle.std.specs.Prelude.{◌↔◌, IsTrue};
ghost use Rattle.stateful_base.specs.Handoff.{IsWait};

/// Why a block is run: to judge it, or because it is final.
#[derive(Clone, Copy, Debug, PartialEq, Eq)]
pub enum Finality {
    Candidate,
    Finalized,
}

/// What a builder hands to consensus: nothing yet, something to vote for, or something to stage.
#[derive(Clone, Copy, Debug, PartialEq, Eq, Drop)]
pub enum Handoff<T> {
    Wait,
    Vote(T),
    Stage(T),
}

impl<T> Handoff<T> {
    /// Whether there is nothing yet.
    pub fn is_wait(&self) -> bool
        ensures { IsTrue result ↔ IsWait self.now }
    {
        match self {
            Handoff::Wait => true,
            _ => false,
        }
    }
}

/// One turn of some work: it goes on, or it has ended with a value.
#[derive(Debug, PartialEq, Eq, Drop)]
pub enum Moved<T> {
    Pending,
    Done(T),
}
