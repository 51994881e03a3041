//! The block store of a script.

ghost use Rattle.std.specs.Prelude.{◌≡◌, ◌<◌, ◌++◌, ◌∷◌, [], ℕ, List, IfOk, OnOk, All, length};
ghost use Rattle.stateful_base.specs.Names.{Named};
ghost use Rattle.stateful_bank.specs.declared.block.BankBlock.{BankBlock};
ghost use Rattle.stateful_script.specs.Laws.{IsNamedBelow};
ghost use Rattle.stateful_script_plan.specs.Store.{Keeps, finalized, store_of};

use crate::plan::Planned;
use stateful_bank::BankBlock;
use stateful_base::{BlockStore, Digested, MemoryStore, OutOfMemory, Share};
use stateful_script::PlannedEvent;
use std::alloc::Global;

/// Keeps a block at its height, where none is kept there.
fn store_block(
    store: &mut MemoryStore<BankBlock>,
    block: &Digested<BankBlock>,
) -> Result<(), OutOfMemory>
    ensures { let stored = ⟦<MemoryStore<BankBlock> as BlockStore<BankBlock>>⟧.stored in
        OnOk result ((blocks : List (Named BankBlock))
        → Keeps (stored store.old) blocks
        → Keeps (stored store.new) (blocks ++ block.now ∷ [])) }
{
    if store.at(block.height())?.is_some() {
        return Ok(());
    }
    store.insert(block.share()?)?;
    Ok(())
}

/// Keeps the block that an event finalizes, if it does, at its height, where none is kept there.
fn store_finalized(
    store: &mut MemoryStore<BankBlock>,
    planned: &[Planned],
    event: &PlannedEvent,
) -> Result<(), OutOfMemory>
    requires { IsNamedBelow (length planned.now) event.now }
    ensures { let stored = ⟦<MemoryStore<BankBlock> as BlockStore<BankBlock>>⟧.stored in
        OnOk result ((blocks : List (Named BankBlock))
        → Keeps (stored store.old) blocks
        → Keeps (stored store.new) (blocks ++ finalized planned.now (event.now ∷ []))) }
{
    match event {
        PlannedEvent::Finalize(place) => store_block(store, &planned[*place].block),
        _ => Ok(()),
    }
}

/// A store of genesis, which is the first planned block, and at each other height of the first block
/// there that the script finalizes.
#[tactic(auto, unfolding(crate::specs::Store::store_of))]
pub fn store_of(
    alloc: Global,
    planned: &[Planned],
    script: &[PlannedEvent],
) -> Result<MemoryStore<BankBlock>, OutOfMemory>
    requires genesis { 0 < length planned.now }
    requires named { All (IsNamedBelow (length planned.now)) script.now }
    ensures { IfOk result (λ store. (h : ℕ)
        → ⟦<MemoryStore<BankBlock> as BlockStore<BankBlock>>⟧.stored store h
        ≡ store_of planned.now script.now h) }
{
    let mut store = MemoryStore::new(alloc);
    store_block(&mut store, &planned[0].block)?;
    for event in script {
        store_finalized(&mut store, planned, event)?;
    }
    Ok(store)
}
