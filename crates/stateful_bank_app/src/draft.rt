//! Operations on a batch that may still change.

ghost use Rattle.std.specs.Prelude.{◌≡◌, List, ◌∷◌, IfOk};
ghost use Rattle.stateful_bank.specs.Accounts.{Becomes, do_op, do_ops};
ghost use Rattle.stateful_bank_app.specs.Rules.{book_on};
ghost use Rattle.stateful_bank_app.specs.Draft.{IsAmong};

use crate::world::{Drafted, World};
use stateful_bank::{Accounts, Op};
use stateful_db::DatabaseSet;
use stateful_types::OutOfMemory;

/// A batch with the databases that it is over.
#[derive(Drop)]
struct Draft<'a, W: World> {
    batch: Drafted<W>,
    databases: &'a W::Databases,
}

impl<W: World> Accounts for Draft<'_, W> {
    ghost use Rattle.stateful_bank_app.specs.Draft.{draft_book, StandsAt};

    ghost book = { draft_book W.Databases.Ids W.rules };

    ghost shows = { λ draft. StandsAt W.Databases.Ids W.rules W.holds
        (W.Databases.kind.point (W.Databases.members draft.databases.now)) draft.batch };

    fn balance(&self, account: u16) -> Result<Option<u64>, OutOfMemory> {
        W::balance(&self.batch, self.databases, account)
    }

    fn set_balance(self, account: u16, balance: u64) -> Result<Self, OutOfMemory> {
        let Draft { batch, databases } = self;
        let batch = W::set_balance(batch, account, balance)?;
        Ok(Draft { batch, databases })
    }
}

/// The batch after one operation. None where it isn't allowed, or where the batch is stale.
pub(crate) fn do_op<W: World>(
    batch: Drafted<W>,
    databases: &W::Databases,
    op: &Op,
) -> Result<Option<Drafted<W>>, OutOfMemory>
    ensures { IfOk result (λ after. (changes : W.rules.Changes) (i : W.Databases.Ids)
        (p : W.Databases.Ids × W.Databases.States)
        (c : List (W.Databases.Ids × W.Databases.States)) →
        W.holds batch changes i p c →
        IsAmong (W.Databases.kind.point (W.Databases.members databases.now)) (p ∷ c) →
        Becomes (λ u now. W.holds u now i p c) after (do_op (book_on W.rules p.1) changes op.now)) }
{
    match stateful_bank::do_op(Draft::<W> { batch, databases }, op)? {
        Some(Draft { batch, .. }) => Ok(Some(batch)),
        None => Ok(None),
    }
}

/// The batch after these operations, in order. None where one isn't allowed, or where the batch is
/// stale.
pub(crate) fn do_ops<W: World>(
    batch: Drafted<W>,
    databases: &W::Databases,
    ops: &[Op],
) -> Result<Option<Drafted<W>>, OutOfMemory>
    ensures { IfOk result (λ after. (changes : W.rules.Changes) (i : W.Databases.Ids)
        (p : W.Databases.Ids × W.Databases.States)
        (c : List (W.Databases.Ids × W.Databases.States)) →
        W.holds batch changes i p c →
        IsAmong (W.Databases.kind.point (W.Databases.members databases.now)) (p ∷ c) →
        Becomes (λ u now. W.holds u now i p c) after
        (do_ops (book_on W.rules p.1) changes ops.now)) }
{
    match stateful_bank::do_ops(Draft::<W> { batch, databases }, ops)? {
        Some(Draft { batch, .. }) => Ok(Some(batch)),
        None => Ok(None),
    }
}
