//! Turns, and what they end with.

ghost use Rattle.std.specs.Prelude.{◌≡◌, ◌≢◌, ◌≤◌, ℕ, List, ◌∷◌, IfOk, IsErrOf, IsSomeAnd};
ghost use Rattle.stateful_base.specs.Causes.{Rose};
ghost use Rattle.stateful_db.specs.Chain.{IsPoint};
ghost use Rattle.stateful_db.specs.Disk.{point};
ghost use Rattle.stateful_db_plain.specs.Whole.{Whole, begun};
ghost use Rattle.stateful_db_plain.specs.Stored.{standing_of};
ghost use Rattle.stateful_db_plain.specs.Shown.{DraftShows, SealShows};
ghost use Rattle.stateful_exec_shell.specs.Works.{Stands, EndsWith};

use crate::block::End;
use stateful_db::{AppFault, BatchError, Unmerkleized};
use stateful_db_plain::{Plain, PlainMerkleized, PlainUnmerkleized};
use stateful_types::{Faulty, Moved};

/// Some turns that change nothing, and an end behind them.
#[derive(Drop)]
pub struct Work {
    left: u8,
    end: End,
    /// A batch without changes, until the work has ended.
    batch: Option<PlainUnmerkleized>,
    faults: u64,
}

impl Faulty for Work {
    ghost count = { λ work. work.faults };

    fn faults(&self) -> u64 {
        self.faults
    }
}

/// The sealed batch. None where it is stale.
fn seal(
    batch: PlainUnmerkleized,
    database: &Plain,
    faults: &mut u64,
) -> Result<Option<PlainMerkleized>, AppFault>
    ensures ok { IfOk result (λ sealed. (c : List (ℕ × Whole)) →
        DraftShows batch c →
        IsPoint (point (standing_of database.now)) c →
        IsSomeAnd sealed (λ m. SealShows m c)) }
    ensures failed { IsErrOf result AppFault.Failed → Rose faults.old faults.new }
    ensures later { faults.old ≤ faults.new }
{
    match batch.merkleize(database) {
        Ok(sealed) => Ok(Some(sealed)),
        Err(BatchError::StaleRead) => Ok(None),
        Err(BatchError::Exhausted) => {
            *faults = faults.saturating_add(1);
            Err(AppFault::Failed)
        }
        Err(BatchError::OutOfMemory) => Err(AppFault::OutOfMemory),
        Err(
            BatchError::LocationOutOfBounds { .. }
            | BatchError::LocationOutOfOrder { .. }
            | BatchError::BelowInactivityFloor { .. }
            | BatchError::SlotCount { .. },
        ) => unreachable!(),
    }
}

impl Work {
    /// So many turns before the last one, on a batch without changes.
    pub(crate) fn new(turns: u8, end: End, batch: PlainUnmerkleized) -> Work
        ensures stands { (own : ℕ) (at : ℕ × Whole) (below : List (ℕ × Whole)) →
            DraftShows batch ((own, begun at.1) ∷ at ∷ below) →
            Stands result own at below }
        ensures end { result.end ≡ end }
    {
        Work {
            left: turns,
            end,
            batch: Some(batch),
            faults: 0,
        }
    }

    /// One turn. Work that has ended, or whose batch is stale, ends with nothing.
    pub(crate) fn turn(
        &mut self,
        database: &Plain,
    ) -> Result<Moved<Option<PlainMerkleized>>, AppFault>
        ensures ok { IfOk result (λ moved. (own : ℕ) (at : ℕ × Whole) (below : List (ℕ × Whole)) →
            Stands self.old own at below →
            IsPoint (point (standing_of database.now)) (at ∷ below) →
            EndsWith moved self.old.end own at below self.new) }
        ensures end { self.new.end ≡ self.old.end }
        ensures failed { IsErrOf result AppFault.Failed → Rose self.old.faults self.new.faults }
        ensures later { self.old.faults ≤ self.new.faults }
    {
        if self.left > 0 {
            self.left -= 1;
            return Ok(Moved::Pending);
        }
        match self.end {
            End::Nothing => return Ok(Moved::Done(None)),
            End::Fails => {
                self.faults = self.faults.saturating_add(1);
                return Err(AppFault::Failed);
            }
            End::States => {}
        }
        let Some(batch) = self.batch.take() else {
            return Ok(Moved::Done(None));
        };
        let sealed = seal(batch, database, &mut self.faults)?;
        Ok(Moved::Done(sealed))
    }
}
