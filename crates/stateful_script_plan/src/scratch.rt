//! The states after blocks, as sealed batches over databases that stay where they were opened.

ghost use Rattle.std.specs.Prelude.{◌≡◌, List, ◌∷◌, [], Option, Some, IfOk, option_and_then};
ghost use Rattle.stateful_bank_app.specs.Rules.{stepped};
ghost use Rattle.stateful_script_plan.specs.Plan.{targets_after};
ghost use Rattle.stateful_script_plan.specs.Scratch.{IsScratch, Begins, Keeps};

use stateful_bank::Op;
use stateful_bank_app::{Drafted, Failing, Fresh, Sealed, World, seal_block};
use stateful_base::{Height, Items, OutOfMemory, Target};
use stateful_db::DatabaseSet;
use std::alloc::Global;

/// What there is after a block.
#[derive(Drop)]
pub(crate) enum After<M> {
    /// The states of the databases.
    Initial,
    /// Those to which this sealed batch leads.
    Sealed(M),
    /// There are no states after it.
    Nothing,
}

/// Databases that are open at the initial states. Only want of memory keeps them from it.
pub(crate) fn scratch<W: Fresh>(alloc: Global) -> Result<W::Databases, OutOfMemory>
    ensures { IfOk result (λ databases. (at : W.Databases.Ids × W.Databases.States)
        × IsScratch W.Databases.kind (W.Databases.next databases) (W.Databases.members databases)
        at) }
{
    let mut databases = W::empty(alloc, Failing::none(alloc));
    let initial = W::Databases::initial_sync_targets();
    match databases.init(&W::config(), Some(initial)) {
        Ok(()) => Ok(databases),
        Err(_) => Err(OutOfMemory),
    }
}

/// A batch over what there is after a block, to which nothing was done. None where there is
/// nothing.
fn batch_over<W: World>(
    databases: &mut W::Databases,
    parent: &After<Sealed<W>>,
) -> Result<Option<Drafted<W>>, OutOfMemory>
    ensures members { W.Databases.members databases.new ≡ W.Databases.members databases.old }
    ensures keeps { (c : List (W.Databases.Ids × W.Databases.States)) →
        W.Databases.kind.issued (W.Databases.next databases.old) c →
        W.Databases.kind.issued (W.Databases.next databases.new) c }
    ensures begins { IfOk result (λ batch. (at : W.Databases.Ids × W.Databases.States)
        (states : Option W.Databases.States) →
        W.Databases.kind.point (W.Databases.members databases.old) ≡ Some at →
        W.Databases.kind.issued (W.Databases.next databases.old) (at ∷ []) →
        Keeps W.Databases.kind W.Databases.shows (W.Databases.next databases.old) at parent.now
        states →
        Begins W.Databases.kind W.Databases.opened (W.Databases.next databases.new) at batch
        states) }
{
    match parent {
        After::Initial => match databases.new_batches() {
            Ok(batch) => Ok(Some(batch)),
            Err(_) => Err(OutOfMemory),
        },
        After::Sealed(parent) => match databases.fork_batches(parent) {
            Ok(batch) => Ok(Some(batch)),
            Err(_) => Err(OutOfMemory),
        },
        After::Nothing => Ok(None),
    }
}

/// What there is after a block of these operations at this height, by what there is after its
/// parent. States that would end at the last number are refused as want of memory.
pub(crate) fn step<W: World>(
    databases: &mut W::Databases,
    parent: &After<Sealed<W>>,
    ops: &[Op],
    height: Height,
) -> Result<After<Sealed<W>>, OutOfMemory>
    ensures members { W.Databases.members databases.new ≡ W.Databases.members databases.old }
    ensures keeps { (c : List (W.Databases.Ids × W.Databases.States)) →
        W.Databases.kind.issued (W.Databases.next databases.old) c →
        W.Databases.kind.issued (W.Databases.next databases.new) c }
    ensures after { IfOk result (λ after. (at : W.Databases.Ids × W.Databases.States)
        (states : Option W.Databases.States) →
        W.Databases.kind.point (W.Databases.members databases.old) ≡ Some at →
        W.Databases.kind.issued (W.Databases.next databases.old) (at ∷ []) →
        Keeps W.Databases.kind W.Databases.shows (W.Databases.next databases.old) at parent.now
        states →
        Keeps W.Databases.kind W.Databases.shows (W.Databases.next databases.new) at after
        (option_and_then (λ s. stepped W.rules s ops.now height.0) states)) }
{
    let Some(batch) = batch_over::<W>(databases, parent)? else {
        return Ok(After::Nothing);
    };
    match seal_block::<W>(batch, databases, ops, height)? {
        Some(batch) => Ok(After::Sealed(batch)),
        None => Ok(After::Nothing),
    }
}

/// The targets of what there is after a block, or of the initial states where there is nothing.
pub(crate) fn targets_of<W: World>(
    alloc: Global,
    after: &After<Sealed<W>>,
) -> Result<Items<Target>, OutOfMemory>
    ensures { IfOk result (λ targets. (next : W.Databases.Ids)
        (at : W.Databases.Ids × W.Databases.States) (states : Option W.Databases.States) →
        at.1 ≡ W.Databases.kind.initial →
        Keeps W.Databases.kind W.Databases.shows next at after.now states →
        targets ≡ targets_after W.rules W.Databases.kind.target_of W.Databases.kind.initial
        states) }
{
    match after {
        After::Sealed(batch) => W::listed(alloc, &W::batch_targets(batch)),
        After::Initial => W::listed(alloc, &W::Databases::initial_sync_targets()),
        After::Nothing => W::listed(alloc, &W::Databases::initial_sync_targets()),
    }
}
