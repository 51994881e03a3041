//! The amounts of operations in a compact database.

ghost use Rattle.std.specs.Prelude.{◌≡◌, ℕ, List, ◌∷◌, ◌++◌, IfOk, Some, map};
ghost use Rattle.stateful_base.specs.Number.{u64_format};
ghost use Rattle.stateful_bank.specs.Op.{amount_of};
ghost use Rattle.stateful_db_compact.specs.Ops.{Changes};
ghost use Rattle.stateful_db_compact.specs.Compacted.{State, sealed};
ghost use Rattle.stateful_db_compact.specs.CompactShown.{Holds, DraftShows};
ghost use Rattle.stateful_bank_triple.specs.Compact.{HoldsNothing};

use stateful_bank::Op;
use stateful_base::{Height, Location, OutOfMemory};
use stateful_db_keyless::KeylessUnjournaledUnmerkleized;

/// The batch with each operation's amount appended.
fn append_amounts(
    batch: KeylessUnjournaledUnmerkleized<u64>,
    ops: &[Op],
) -> Result<KeylessUnjournaledUnmerkleized<u64>, OutOfMemory>
    ensures changes { IfOk result (λ after. (changes : Changes ℕ) (s : State ℕ) →
        Holds u64_format.spelling batch changes s →
        Holds u64_format.spelling after
        (record changes { values = changes.values ++ map amount_of ops.now }) s) }
    ensures chain { IfOk result (λ after. after.id ≡ batch.id) }
    ensures below { IfOk result (λ after. after.below ≡ batch.below) }
{
    let mut batch = batch;
    for op in ops {
        batch = batch.append(op.amount())?;
    }
    Ok(batch)
}

/// The batch of a block of these operations at this height, whose commit asks for this floor.
pub(crate) fn complete_compact(
    batch: KeylessUnjournaledUnmerkleized<u64>,
    ops: &[Op],
    floor: Location,
    height: Height,
) -> Result<KeylessUnjournaledUnmerkleized<u64>, OutOfMemory>
    ensures { IfOk result (λ after. (i : ℕ) (p : ℕ × State ℕ) (c : List (ℕ × State ℕ)) →
        HoldsNothing batch i p c →
        DraftShows u64_format.spelling after ((
          i,
          sealed u64_format.spelling
              (record { values = map amount_of ops.now; metadata = Some height.0; floor = floor.0 })
              p.1,
        ) ∷ p ∷ c)) }
{
    let batch = append_amounts(batch, ops)?;
    let batch = batch.with_inactivity_floor(floor);
    Ok(batch.with_metadata(height.0))
}
