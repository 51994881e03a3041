//! Builds, and what each does in its one turn.

ghost use Rattle.std.specs.Prelude.{◌≡◌, ◌∷◌, ℕ, List, IfOk, IsErrOf};
ghost use Rattle.stateful_base.specs.declared.outcome.Moved.{Moved};
ghost use Rattle.stateful_db.specs.Works.{BuildEnds};
ghost use Rattle.stateful_db_plain.specs.Whole.{Whole, target_of};
ghost use Rattle.stateful_db_plain.specs.Shown.{SealShows};
ghost use Rattle.stateful_simple_app.specs.Drafts.{Holds};
ghost use Rattle.stateful_simple_app.specs.Works.{OneTurnBuildOf, header_for, place_of, one_turn_works};

use crate::block::PayloadBlock;
use crate::draft::Draft;
use crate::one_turn::OneTurn;
use crate::run::end_run;
use stateful_db::{AppFault, ManagedDb, ProposedBlock};
use stateful_db_plain::{Plain, PlainMerkleized, PlainUnmerkleized};
use stateful_types::{Digest, Faulty, Finality, Handoff, Height, OutOfMemory, Round};

/// A block that was built, with its sealed batch.
pub(crate) type Built<P> = ProposedBlock<PayloadBlock<P>, PlainMerkleized>;

/// The place of a block in the chain.
#[derive(Clone, Copy)]
pub(crate) struct Header {
    pub(crate) parent: Digest,
    pub(crate) height: Height,
    pub(crate) round: Round,
}

/// A build of a block at a place in the chain, with what its request brings and a batch without
/// changes until it has ended.
#[derive(Drop)]
pub struct OneTurnBuild<I> {
    pub(crate) header: Header,
    pub(crate) work: Option<(I, PlainUnmerkleized)>,
}

impl<I> Faulty for OneTurnBuild<I> {
    ghost count = { λ _. 0 };

    fn faults(&self) -> u64 {
        0
    }
}

impl Header {
    /// The block that carries this and commits to the sealed batch, with the batch.
    fn finish<P>(self, payload: P, merkleized: PlainMerkleized) -> Built<P>
        ensures batch { result.merkleized ≡ merkleized }
        ensures block { (p : ℕ × Whole) (c : List (ℕ × Whole)) →
            SealShows merkleized (p ∷ c) →
            result.block ≡ record {
              parent = self.parent;
              height = self.height;
              round = self.round;
              payload = payload;
              target = target_of p.1;
            } }
    {
        ProposedBlock {
            block: PayloadBlock {
                parent: self.parent,
                height: self.height,
                round: self.round,
                payload,
                target: Plain::batch_target(&merkleized),
            },
            merkleized,
        }
    }
}

/// The block that the request asks for, at this place in the chain. `Wait` where it asks for none,
/// where the block isn't acceptable or leads to no entries, or where the batch is stale.
pub(crate) fn end_build<A: OneTurn>(
    draft: Draft<'_>,
    header: Header,
    input: A::Input,
) -> Result<Handoff<Built<A::Payload>>, AppFault>
    ensures ok { IfOk result (λ handed. (b : OneTurnBuildOf A.Payload A.Input) →
        header ≡ header_for A.Payload.bytes b.asked →
        input ≡ b.asked.input →
        Holds draft.entry (place_of b) b.at.1.entries →
        BuildEnds (one_turn_works A.rules A.Payload.bytes) (Moved.Done handed) SealShows b ⊥) }
    ensures failed { IsErrOf result AppFault.Failed → ⊥ }
{
    let Ok(chosen) = A::choose(&draft, input) else {
        return Err(AppFault::OutOfMemory);
    };
    let Some(payload) = chosen else {
        return Ok(Handoff::Wait);
    };
    match end_run::<A>(draft, &payload, Finality::Candidate)? {
        Some(merkleized) => Ok(Handoff::Vote(header.finish(payload, merkleized))),
        None => Ok(Handoff::Wait),
    }
}
