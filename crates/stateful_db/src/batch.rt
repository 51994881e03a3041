//! Batches over a database: changes that aren't applied yet, on a chain of earlier ones.

ghost use Rattle.std.specs.Prelude.{◌≡◌, ℕ, List, ◌∷◌, [], IfOk, IsErrOf, true, false, ◌↔◌, ◌<◌};
ghost use Rattle.stateful_db.specs.Chain.{has_id, IsPoint};

use stateful_base::{Digest, Location, OutOfMemory};
use std::alloc::{AllocError, AllocFailed};
use thiserror::Error;

/// Why a batch refused a read or a seal.
#[derive(Clone, Copy, Debug, PartialEq, Eq, Error)]
pub enum BatchError {
    /// The database is at no state of the batch's chain.
    #[error("StaleRead")]
    StaleRead,
    /// A read is of a location at or behind the end.
    #[error("LocationOutOfBounds")]
    LocationOutOfBounds { location: Location },
    /// A read of several locations has one that isn't greater than the one before.
    #[error("LocationOutOfOrder")]
    LocationOutOfOrder { location: Location },
    /// A read is of a location below the inactivity floor.
    #[error("BelowInactivityFloor")]
    BelowInactivityFloor { location: Location },
    /// A staged batch was given another number of slots than it has staged keys.
    #[error("SlotCount")]
    SlotCount { expected: usize, given: usize },
    /// The sealed size would be the last number or more.
    #[error("Exhausted")]
    Exhausted,
    #[error("OutOfMemory")]
    OutOfMemory,
}

impl From<OutOfMemory> for BatchError {
    ghost use Rattle.std.specs.Prelude.{◌≡◌};
    ghost use Rattle.stateful_db.specs.declared.batch.BatchError.TheVariants.{OutOfMemory};

    ghost from_gives = { λ _ e. e ≡ OutOfMemory };

    fn from(_refused: OutOfMemory) -> BatchError {
        BatchError::OutOfMemory
    }
}

impl From<AllocError> for BatchError {
    ghost use Rattle.std.specs.Prelude.{◌≡◌};
    ghost use Rattle.stateful_db.specs.declared.batch.BatchError.TheVariants.{OutOfMemory};

    ghost from_gives = { λ _ e. e ≡ OutOfMemory };

    fn from(_refused: AllocError) -> BatchError {
        BatchError::OutOfMemory
    }
}

impl<T: Drop> From<AllocFailed<T>> for BatchError {
    ghost use Rattle.std.specs.Prelude.{◌≡◌};
    ghost use Rattle.stateful_db.specs.declared.batch.BatchError.TheVariants.{OutOfMemory};

    ghost from_gives = { λ _ e. e ≡ OutOfMemory };

    fn from(_refused: AllocFailed<T>) -> BatchError {
        BatchError::OutOfMemory
    }
}

/// A database and the id that was drawn for a batch over it. Sets make it.
pub struct BatchContext<'a, DB> {
    database: &'a DB,
    id: u64,
}

impl<'a, DB> BatchContext<'a, DB> {
    pub(crate) fn new(database: &'a DB, id: u64) -> Self
        ensures database { result.database.now ≡ database.now }
        ensures id { result.id ≡ id }
    {
        BatchContext { database, id }
    }

    /// The database, and the id of the batch.
    pub fn into_parts(self) -> (&'a DB, u64)
        ensures database { result.0.now ≡ self.entry.database.now }
        ensures id { result.1 ≡ self.entry.id }
    {
        let BatchContext { database, id } = self;
        (database, id)
    }
}

/// A batch that may still change.
pub trait Unmerkleized: Sized {
    ghost use Rattle.std.specs.Prelude.{◌≡◌, ℕ, List, ◌∷◌, IfOk, IfErr, IsErrOf, false, true, ◌↔◌};
    ghost use Rattle.std.specs.Prelude.{◌<◌, ◌≤◌, ◌-◌, ◌^◌};
    ghost use Rattle.stateful_db.specs.Chain.{has_id, IsPoint};
    ghost use Rattle.stateful_db.specs.Batch.{RefusesSeal};

    /// The database that it is over.
    type Db;

    /// What a checkpoint is to contracts.
    type State;

    type Merkleized;

    /// The chain on which the batch stands. Its own point is first, with the state that a seal
    /// gives now.
    ghost shows: { Self → List (ℕ × Self.State) → Type 0 };

    /// The same of its seal.
    ghost sealed: { Self.Merkleized → List (ℕ × Self.State) → Type 0 };

    /// The database's point.
    ghost at: { Self.Db → ℕ × Self.State };

    /// The end of the range of a state.
    ghost end_of: { Self.State → ℕ };

    /// Seals every change. `StaleRead` exactly where the database is at no state of the chain, and
    /// behind it `Exhausted` exactly where the end of the sealed state would be the last number or
    /// more.
    fn merkleize(self, db: &Self::Db) -> Result<Self::Merkleized, BatchError>
        ensures ok { IfOk result (λ m. (c : List (ℕ × Self.State))
            → shows self c
            → IsPoint (at db.now) c
            → sealed m c) }
        ensures stale { (c : List (ℕ × Self.State))
            → shows self c
            → (IsErrOf result BatchError.StaleRead ↔ (has_id c (at db.now).0 ≡ false)) }
        ensures exhausted { (p : ℕ × Self.State) (c : List (ℕ × Self.State))
            → shows self (p ∷ c)
            → IsErrOf result BatchError.Exhausted
            → 2 ^ 64 - 1 ≤ end_of p.1 }
        ensures within { IfOk result (λ m. (p : ℕ × Self.State) (c : List (ℕ × Self.State))
            → shows self (p ∷ c)
            → end_of p.1 < 2 ^ 64 - 1) }
        ensures why { IfErr result RefusesSeal };
}

/// A sealed batch.
pub trait Merkleized: Sized {
    ghost use Rattle.std.specs.Prelude.{◌≡◌, ℕ, List, ◌∷◌, [], IfOk, ◌<◌};
    ghost use Rattle.stateful_base.specs.declared.digest.Digest.{Digest};

    type State;

    type Unmerkleized;

    /// The chain on which the batch stands. Its own point is first.
    ghost shows: { Self → List (ℕ × Self.State) → Type 0 };

    /// The same of a batch that may still change.
    ghost opened: { Self.Unmerkleized → List (ℕ × Self.State) → Type 0 };

    ghost root_of: { Self.State → Digest };

    /// The state that the seal of a batch without changes gives.
    ghost begun: { Self.State → Self.State };

    /// The root of the state that it shows.
    fn root(&self) -> Digest
        ensures { (p : ℕ × Self.State) (c : List (ℕ × Self.State))
            → shows self.now (p ∷ c)
            → result ≡ root_of p.1 };

    /// A child without changes, whose reads see this batch first.
    fn new_batch(&self, id: u64) -> Result<Self::Unmerkleized, OutOfMemory>
        ensures { IfOk result (λ u. (p : ℕ × Self.State) (c : List (ℕ × Self.State))
            → shows self.now (p ∷ c)
            → p.0 < id
            → opened u ((id, begun p.1) ∷ p ∷ c)) };

    /// An equal batch.
    fn share(&self) -> Result<Self, OutOfMemory>
        ensures { IfOk result (λ m. (c : List (ℕ × Self.State)) → shows self.now c → shows m c) };
}
