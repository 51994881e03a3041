//! The blocks of a script.

ghost use Rattle.std.specs.Prelude.{◌≡◌, ◌≤◌, ◌+◌, IfOk, EachIndex, slice_index_or, length};
ghost use Rattle.stateful_script.specs.declared.script.PlannedBlock.{PlannedBlock};
ghost use Rattle.stateful_script_plan.specs.Plan.{committed, genesis, child, HaveOutline};

use crate::scratch::{After, scratch, step, targets_of};
use stateful_bank::BankBlock;
use stateful_bank_app::Fresh;
use stateful_base::{Digest, Digested, Items, OutOfMemory, Share, Target};
use stateful_script::PlannedBlock;
use std::alloc::Global;

/// A block, and its parent if it has one.
#[derive(Drop)]
pub struct Planned {
    pub block: Digested<BankBlock>,
    pub parent: Option<Digested<BankBlock>>,
}

/// What a block commits to: where it is to be wrong, each root is 32 zero bytes.
fn committed(
    alloc: Global,
    wrong: bool,
    targets: Items<Target>,
) -> Result<Items<Target>, OutOfMemory>
    ensures { IfOk result (λ made. made ≡ committed wrong targets) }
{
    if !wrong {
        return Ok(targets);
    }
    let mut made = Items::new(alloc);
    for target in targets.as_slice() {
        made.push(Target {
            root: Digest([0; 32]),
            ..*target
        })?;
    }
    Ok(made)
}

/// Genesis over these targets.
#[tactic(auto, unfolding(crate::specs::Plan::genesis))]
fn genesis(alloc: Global, targets: Items<Target>) -> Result<Planned, OutOfMemory>
    ensures { IfOk result (λ made. made ≡ genesis targets) }
{
    Ok(Planned {
        block: Digested::compute(alloc, BankBlock::genesis(alloc, targets))?,
        parent: None,
    })
}

/// The block of a line on its parent, over these targets.
#[tactic(auto, unfolding(crate::specs::Plan::child, crate::specs::Plan::block_on))]
fn child(
    alloc: Global,
    parent: &Planned,
    block: &PlannedBlock,
    targets: Items<Target>,
) -> Result<Planned, OutOfMemory>
    ensures { IfOk result (λ made. made ≡ child parent.now block.now targets) }
{
    let made = BankBlock {
        height: block.height,
        round: block.round,
        parent: parent.block.digest(),
        slow: block.slow,
        ops: block.ops.share()?,
        targets: committed(alloc, block.wrong, targets)?,
    };
    Ok(Planned {
        block: Digested::compute(alloc, made)?,
        parent: Some(parent.block.share()?),
    })
}

/// Genesis, and the block of each line. Each block is run once, and sealed over scratch databases of
/// the world, which give the targets that it commits to. States that would end at the last number
/// are refused as want of memory.
pub fn plan_blocks<W: Fresh>(
    alloc: Global,
    blocks: &[PlannedBlock],
) -> Result<Vec<Planned>, OutOfMemory>
    requires { EachIndex blocks.now (λ i. (d : PlannedBlock)
        → (slice_index_or blocks.now i d).parent ≤ i) }
    ensures made { IfOk result (λ made. HaveOutline W.rules W.Databases.kind.target_of
        W.Databases.kind.initial blocks.now made.items) }
    ensures one_each { IfOk result (λ made. length made.items ≡ length blocks.now + 1) }
{
    let mut databases = scratch::<W>(alloc)?;
    let mut made = Vec::new(alloc);
    let mut states = Vec::new(alloc);
    let targets = targets_of::<W>(alloc, &After::Initial)?;
    made.push(genesis(alloc, targets)?)?;
    states.push(After::Initial)?;
    for block in blocks {
        let parent = &states[block.parent];
        let after = step::<W>(&mut databases, parent, block.ops.as_slice(), block.height)?;
        let targets = targets_of::<W>(alloc, &after)?;
        made.push(child(alloc, &made[block.parent], block, targets)?)?;
        states.push(after)?;
    }
    Ok(made)
}
