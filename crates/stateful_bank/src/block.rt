//! Blocks of the bank.

ghost use Rattle.std.specs.Prelude.{◌≡◌, ◌++◌, ◌+◌, ◌^◌, ◌<◌, ◌∷◌, [], OnOk, IfOk, length};
ghost use Rattle.std.specs.Option.{SomeIff};
ghost use Rattle.std.specs.List.{flat_map};
ghost use Rattle.stateful_base.specs.Number.{u32_format};
ghost use Rattle.stateful_bank.specs.Op.{op_bytes};
ghost use Rattle.stateful_bank.specs.BankBlock.{block_header, block_bytes, head_bytes};
ghost use Rattle.stateful_bank.specs.BankBlock.{target_bytes, genesis_block, child_block};

use crate::op::Op;
use stateful_base::{
    Block, Digest, Epoch, Height, Items, OutOfMemory, Round, Target, View, write_u8, write_u32,
};
use std::alloc::Global;

/// The most operations of a block that a script names or a build makes.
pub const MAX_OPS: usize = 16;

/// A block: operations at a height over a parent, and what they lead to. Its hook takes `slow`
/// turns. There is one target for each database.
#[derive(Debug, Drop)]
pub struct BankBlock {
    pub height: Height,
    pub round: Round,
    pub parent: Digest,
    pub slow: u8,
    pub ops: Items<Op>,
    pub targets: Items<Target>,
}

impl BankBlock {
    /// The block at height 0, over databases of these targets.
    pub fn genesis(alloc: Global, targets: Items<Target>) -> BankBlock
        ensures { result ≡ genesis_block targets }
    {
        BankBlock {
            height: Height(0),
            round: Round {
                epoch: Epoch(0),
                view: View(0),
            },
            parent: Digest([0; 32]),
            slow: 0,
            ops: Items::new(alloc),
            targets,
        }
    }

    /// The block one above a parent of this height and digest, whose hook takes no turn. None
    /// exactly where no height is left.
    pub fn child(
        height: Height,
        parent: Digest,
        round: Round,
        ops: Items<Op>,
        targets: Items<Target>,
    ) -> Option<BankBlock>
        ensures { SomeIff result (height.0 + 1 < 2 ^ 64) (child_block height.0 parent round ops
            targets) }
    {
        Some(BankBlock {
            height: height.next()?,
            round,
            parent,
            slow: 0,
            ops,
            targets,
        })
    }

    /// Appends all but the operations and the targets.
    fn write_head(&self, out: &mut Vec<u8>) -> Result<(), OutOfMemory>
        ensures { OnOk result (out.new.items ≡ out.old.items ++ head_bytes self.now) }
    {
        self.height.write(out)?;
        self.round.write(out)?;
        self.parent.write(out)?;
        write_u8(self.slow, out)?;
        Ok(())
    }
}

/// Appends the operations behind their number.
#[tactic(auto, using(std::proofs::Common::append_assoc))]
fn write_ops(ops: &[Op], out: &mut Vec<u8>) -> Result<(), OutOfMemory>
    ensures bytes { OnOk result (out.new.items
        ≡ out.old.items ++ u32_format.spelling (length ops.now) ++ flat_map op_bytes ops.now) }
    ensures counted { OnOk result (length ops.now < 2 ^ 32) }
{
    let Ok(count) = u32::try_from(ops.len()) else {
        return Err(OutOfMemory);
    };
    write_u32(count, out)?;
    for op in ops {
        op.encode(out)?;
    }
    Ok(())
}

/// Appends the targets behind their number.
#[tactic(auto, using(std::proofs::Common::append_assoc))]
fn write_targets(targets: &[Target], out: &mut Vec<u8>) -> Result<(), OutOfMemory>
    ensures bytes { OnOk result (out.new.items
        ≡ out.old.items ++ length targets.now ∷ flat_map target_bytes targets.now) }
    ensures counted { OnOk result (length targets.now < 2 ^ 8) }
{
    let Ok(count) = u8::try_from(targets.len()) else {
        return Err(OutOfMemory);
    };
    write_u8(count, out)?;
    for target in targets {
        write_target(target, out)?;
    }
    Ok(())
}

/// Appends a root with its range.
#[tactic(auto, using(std::proofs::Common::append_assoc), unfolding(crate::specs::BankBlock::target_bytes))]
fn write_target(target: &Target, out: &mut Vec<u8>) -> Result<(), OutOfMemory>
    ensures { OnOk result (out.new.items ≡ out.old.items ++ target_bytes target.now) }
{
    target.root.write(out)?;
    target.start.write(out)?;
    target.end.write(out)
}

impl Block for BankBlock {
    ghost use Rattle.std.specs.Prelude.{◌≡◌, ◌++◌, ◌^◌, ◌<◌, OnOk, length};
    ghost use Rattle.stateful_bank.specs.BankBlock.{block_header, block_bytes};

    type Context = Round;

    ghost header = { block_header };

    ghost context_of = { λ b. b.round };

    fn parent(&self) -> Digest {
        self.parent
    }

    fn height(&self) -> Height {
        self.height
    }

    fn context(&self) -> Round {
        self.round
    }

    /// Appends the block's bytes. More operations or targets than their number can say are refused
    /// as want of memory.
    #[tactic(auto, using(std::proofs::Common::append_assoc), unfolding(crate::specs::BankBlock::block_bytes))]
    fn encode(&self, out: &mut Vec<u8>) -> Result<(), OutOfMemory>
        ensures bytes { OnOk result (out.new.items ≡ out.old.items ++ block_bytes self.now) }
        ensures counted { OnOk result ((length self.now.ops < 2 ^ 32)
            × (length self.now.targets < 2 ^ 8)) }
    {
        self.write_head(out)?;
        write_ops(self.ops.as_slice(), out)?;
        write_targets(self.targets.as_slice(), out)?;
        Ok(())
    }
}
