//! The amounts of operations in a keyless database.

ghost use Rattle.std.specs.Prelude.{◌≡◌, ℕ, List, ◌∷◌, ◌++◌, IfOk, IsSomeAnd, map};
ghost use Rattle.stateful_base.specs.Number.{u64_format};
ghost use Rattle.stateful_bank.specs.Op.{amount_of};
ghost use Rattle.stateful_db_compact.specs.Ops.{Changes};
ghost use Rattle.stateful_db_keyless.specs.Keyless.{State};
ghost use Rattle.stateful_db_keyless.specs.KeylessShown.{Holds};
ghost use Rattle.stateful_bank_app.specs.Draft.{IsAmong};
ghost use Rattle.stateful_bank_logs.specs.Amounts.{HoldsNothing, IsCompleted};

use stateful_bank::Op;
use stateful_base::{Height, Location, OutOfMemory};
use stateful_db::{DatabaseSet, Held};
use stateful_db_keyless::{KeylessDb, KeylessUnmerkleized};

/// The batch with each operation's amount appended.
fn append_amounts(
    batch: KeylessUnmerkleized<u64>,
    ops: &[Op],
) -> Result<KeylessUnmerkleized<u64>, OutOfMemory>
    ensures changes { IfOk result (λ after. (changes : Changes ℕ) (s : State ℕ) →
        Holds u64_format.spelling batch changes s →
        Holds u64_format.spelling after
        (record changes { values = changes.values ++ map amount_of ops.now }) s) }
    ensures chain { IfOk result (λ after. after.id ≡ batch.id) }
    ensures below { IfOk result (λ after. after.below ≡ batch.below) }
{
    let mut batch = batch;
    for op in ops {
        batch = batch.append(op.amount())?;
    }
    Ok(batch)
}

/// The batch of a block of these operations at this height, and the location of its first
/// operation, which is its floor.
fn complete_batch(
    batch: KeylessUnmerkleized<u64>,
    ops: &[Op],
    height: Height,
) -> Result<(KeylessUnmerkleized<u64>, Location), OutOfMemory>
    ensures { IfOk result (λ after. (i : ℕ) (p : ℕ × State ℕ) (c : List (ℕ × State ℕ)) →
        HoldsNothing batch i p c →
        IsCompleted ops.now height.0 i p c after) }
{
    let first = batch.first_location();
    let batch = append_amounts(batch, ops)?;
    let batch = batch.with_inactivity_floor(first);
    Ok((batch.with_metadata(height.0), first))
}

/// The batch of a block of these operations at this height, and the location of its first
/// operation, which is its floor. None where the database isn't here.
pub fn complete_amounts(
    batch: KeylessUnmerkleized<u64>,
    database: &Held<KeylessDb<u64>>,
    ops: &[Op],
    height: Height,
) -> Result<Option<(KeylessUnmerkleized<u64>, Location)>, OutOfMemory>
    ensures { let set = ⟦<Held<KeylessDb<u64>> as DatabaseSet>⟧ in IfOk result (λ after.
        (i : ℕ) (p : ℕ × State ℕ) (c : List (ℕ × State ℕ)) →
        HoldsNothing batch i p c →
        IsAmong (set.kind.point (set.members database.now)) (p ∷ c) →
        IsSomeAnd after (IsCompleted ops.now height.0 i p c)) }
{
    match database {
        Held::Here(_) => Ok(Some(complete_batch(batch, ops, height)?)),
        _ => Ok(None),
    }
}
