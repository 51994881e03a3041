//! What a coordinator tracks of each database, and what it asks for.

ghost use Rattle.std.specs.Prelude.{◌≡◌, ◌+◌, ◌-◌, ◌^◌, ◌<◌, ◌↔◌, IfOk, IsErr};
ghost use Rattle.stateful_sync.specs.Assigned.{generation_of, is_reached, once_reached};
ghost use Rattle.stateful_sync.specs.Assigned.{once_marked, unless_reached, unless_assigned};
ghost use Rattle.stateful_sync.specs.Coordinator.{next_generation, dispatch, converge};

use crate::tip::Tip;
use stateful_db::Exhausted;
use stateful_types::Anchor;

/// The generation that a database is assigned, and whether it has reached it.
#[derive(Clone, Copy, PartialEq, Eq)]
pub(crate) enum DbSyncState {
    Seeking { generation: u64 },
    Reached { generation: u64 },
}

impl DbSyncState {
    pub(crate) fn generation(self) -> u64
        ensures { result ≡ generation_of self }
    {
        match self {
            DbSyncState::Seeking { generation } => generation,
            DbSyncState::Reached { generation } => generation,
        }
    }

    pub(crate) fn is_reached(self) -> bool
        ensures { result ≡ is_reached self }
    {
        match self {
            DbSyncState::Seeking { .. } => false,
            DbSyncState::Reached { .. } => true,
        }
    }

    /// The generation is reached, where it is the one that is assigned.
    pub(crate) fn once_reached(self, generation: u64) -> DbSyncState
        ensures { result ≡ once_reached generation self }
    {
        if self.generation() == generation {
            DbSyncState::Reached { generation }
        } else {
            self
        }
    }

    /// The generation is reached too, where one is.
    pub(crate) fn once_marked(self, generation: u64) -> DbSyncState
        ensures { result ≡ once_marked generation self }
    {
        match self {
            DbSyncState::Seeking { .. } => self,
            DbSyncState::Reached { .. } => DbSyncState::Reached { generation },
        }
    }

    /// The generation is sought, where none is reached.
    pub(crate) fn unless_reached(self, generation: u64) -> DbSyncState
        ensures { result ≡ unless_reached generation self }
    {
        match self {
            DbSyncState::Seeking { .. } => DbSyncState::Seeking { generation },
            DbSyncState::Reached { .. } => self,
        }
    }

    /// The generation is sought, where another is assigned.
    pub(crate) fn unless_assigned(self, generation: u64) -> DbSyncState
        ensures { result ≡ unless_assigned generation self }
    {
        if self.generation() == generation {
            self
        } else {
            DbSyncState::Seeking { generation }
        }
    }
}

/// Where several databases stand.
#[derive(Clone, Copy)]
pub(crate) enum Standing {
    /// All have reached one generation.
    Together,
    /// All have reached a generation, but not one and the same.
    Apart,
    /// One is seeking.
    OnTheWay,
}

/// A block that databases are sent to. Generations are numbered from 0 on.
#[derive(Clone, Copy)]
pub(crate) struct Generation<T> {
    pub(crate) number: u64,
    pub(crate) tip: Tip<T>,
}

impl<T: Copy> Generation<T> {
    /// The next one, which goes to this tip. It is refused where its number would be the last that
    /// there is.
    pub(crate) fn next(&self, tip: Tip<T>) -> Result<Generation<T>, Exhausted>
        requires { self.now.number < 2 ^ 64 - 1 }
        ensures next { IfOk result (λ next. next ≡ next_generation self.now tip) }
        ensures numbered { IfOk result (λ next. next.number < 2 ^ 64 - 1) }
        ensures exhausted { IsErr result ↔ (self.now.number + 1 ≡ 2 ^ 64 - 1) }
    {
        let number = self.number + 1;
        if number == u64::MAX {
            return Err(Exhausted);
        }
        Ok(Generation { number, tip })
    }

    /// It is dispatched.
    pub(crate) fn dispatch(&self) -> CoordinatorAction<T>
        ensures { result ≡ dispatch self.now }
    {
        CoordinatorAction::Dispatch {
            generation: self.number,
            anchor: self.tip.anchor,
            targets: self.tip.targets,
        }
    }

    /// It is what the databases have converged to.
    pub(crate) fn converge(&self) -> CoordinatorAction<T>
        ensures { result ≡ converge self.now }
    {
        CoordinatorAction::Converged {
            anchor: self.tip.anchor,
            targets: self.tip.targets,
        }
    }
}

/// What is to be done for a sync of several databases.
#[derive(Clone, Copy, Debug, PartialEq, Eq)]
pub enum CoordinatorAction<T> {
    /// Nothing, until a database reaches its targets or a tip is recorded.
    Wait,
    /// The targets go, as a generation of this number, to the databases that seek it.
    Dispatch {
        generation: u64,
        anchor: Anchor,
        targets: T,
    },
    /// All databases have reached these targets, which are those of one block.
    Converged {
        anchor: Anchor,
        targets: T,
    },
}
