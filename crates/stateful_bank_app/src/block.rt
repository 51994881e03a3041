//! Blocks that are run at once.

ghost use Rattle.std.specs.Prelude.{List, ◌∷◌, IfOk};
ghost use Rattle.stateful_bank.specs.Accounts.{Becomes};
ghost use Rattle.stateful_bank_app.specs.Rules.{stepped};
ghost use Rattle.stateful_bank_app.specs.Draft.{IsAmong};

use crate::draft::do_ops;
use crate::progress::seal;
use crate::world::{Drafted, Sealed, World};
use stateful_bank::Op;
use stateful_db::DatabaseSet;
use stateful_types::{Height, OutOfMemory};

/// The sealed batch of a block of these operations at this height, over a batch without changes.
/// None where an operation isn't allowed, or where the batch is stale. States that would end at the
/// last number are refused as want of memory.
pub fn seal_block<W: World>(
    batch: Drafted<W>,
    databases: &W::Databases,
    ops: &[Op],
    height: Height,
) -> Result<Option<Sealed<W>>, OutOfMemory>
    ensures { IfOk result (λ sealed. (i : W.Databases.Ids)
        (p : W.Databases.Ids × W.Databases.States)
        (c : List (W.Databases.Ids × W.Databases.States)) →
        W.Databases.opened batch ((i, W.Databases.kind.begun p.1) ∷ p ∷ c) →
        IsAmong (W.Databases.kind.point (W.Databases.members databases.now)) (p ∷ c) →
        Becomes (λ m s. W.Databases.shows m ((i, s) ∷ p ∷ c)) sealed
        (stepped W.rules p.1 ops.now height.0)) }
{
    let Some(done) = do_ops::<W>(W::begin(batch), databases, ops)? else {
        return Ok(None);
    };
    match seal::<W>(done, databases, ops, height, &mut 0) {
        Ok(sealed) => Ok(sealed),
        Err(_) => Err(OutOfMemory),
    }
}
