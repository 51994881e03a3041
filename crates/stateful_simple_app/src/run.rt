//! Runs, and what each does in its one turn.
//!
//! The state is read through the batch, so it is that of the states which the run stands on, also
//! where these aren't applied yet. Where the database has moved on to another branch the batch is
//! stale, and nothing comes of it.

ghost use Rattle.std.specs.Prelude.{IfOk, IsErrOf};
ghost use Rattle.stateful_db_plain.specs.Shown.{SealShows};
ghost use Rattle.stateful_simple_app.specs.Rules.{run_outcome};
ghost use Rattle.stateful_simple_app.specs.Drafts.{Place, Holds, Becomes, chain_of};

use crate::block::PayloadBlock;
use crate::draft::Draft;
use crate::one_turn::OneTurn;
use stateful_db::AppFault;
use stateful_db_plain::{PlainMerkleized, PlainUnmerkleized};
use stateful_types::{Digested, Faulty, Finality, OutOfMemory};

/// A run of a block, with a batch without changes until it has ended.
#[derive(Drop)]
pub struct OneTurnRun<P> {
    pub(crate) block: Digested<PayloadBlock<P>>,
    pub(crate) finality: Finality,
    pub(crate) batch: Option<PlainUnmerkleized>,
}

impl<P> Faulty for OneTurnRun<P> {
    ghost count = { λ _. 0 };

    fn faults(&self) -> u64 {
        0
    }
}

/// The sealed batch of a block that carries this. None where it leads to no entries, where it is of
/// a candidate that isn't acceptable, or where the batch is stale.
pub(crate) fn end_run<A: OneTurn>(
    draft: Draft<'_>,
    payload: &A::Payload,
    finality: Finality,
) -> Result<Option<PlainMerkleized>, AppFault>
    ensures ok { IfOk result (λ sealed. (place : Place) →
        Holds draft.entry place place.at.1.entries →
        Becomes (λ m whole. SealShows m (chain_of place whole)) sealed
        (run_outcome A.rules finality place.at.1 payload.now)) }
    ensures failed { IsErrOf result AppFault.Failed → ⊥ }
{
    if finality == Finality::Candidate && !A::accept(&draft, payload) {
        return Ok(None);
    }
    match A::run(draft, payload) {
        Ok(Some(draft)) => Ok(draft.seal()?),
        Ok(None) => Ok(None),
        Err(OutOfMemory) => Err(AppFault::OutOfMemory),
    }
}
