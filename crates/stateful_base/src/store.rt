//! Finalized blocks by height.

ghost use Rattle.std.specs.Prelude.{◌≡◌, ◌<◌, ℕ, IfOk, OnOk, OnErr, Option, Some, None};
ghost use Rattle.std.specs.Prelude.{if◌then◌else◌, ◌==◌, nat_lt};

use crate::block::{Block, Digested};
use crate::number::Height;
use crate::share::{OutOfMemory, Share};
use std::alloc::Global;
use std::collections::BTreeMap;

/// The finalized block of each height that is still kept. It has no faults.
pub trait BlockStore<B> {
    ghost use Rattle.std.specs.Prelude.{◌≡◌, ℕ, IfOk, Option, None, if◌then◌else◌, nat_lt};
    ghost use Rattle.stateful_base.specs.Names.{Named};

    /// The block of a height, where there is one.
    ghost stored: { Self → ℕ → Option (Named B) };

    /// The block of this height, where there is one.
    fn at(&self, height: Height) -> Result<Option<Digested<B>>, OutOfMemory>
        ensures { IfOk result (λ found. found ≡ stored self.now height.0) };

    /// Drops the blocks below this height.
    fn prune(&mut self, height: Height)
        ensures { (h : ℕ)
            → stored self.new h ≡ (if nat_lt h height.0 then None else stored self.old h) };
}

/// A store in memory.
#[derive(Drop)]
pub struct MemoryStore<B> {
    blocks: BTreeMap<u64, Digested<B>>,
}

impl<B: Block + Drop> MemoryStore<B> {
    /// A store without blocks.
    pub fn new(alloc: Global) -> MemoryStore<B>
        ensures { (h : ℕ) → ⟦<MemoryStore<B> as BlockStore<B>>⟧.stored result h ≡ None }
    {
        MemoryStore {
            blocks: BTreeMap::new(alloc),
        }
    }

    /// Keeps this block at its height, in place of the one that was there.
    pub fn insert(&mut self, block: Digested<B>) -> Result<(), OutOfMemory>
        ensures ok { OnOk result ((h : ℕ)
            → ⟦<MemoryStore<B> as BlockStore<B>>⟧.stored self.new h
            ≡ (if h == B.header.height block.block
            then Some block
            else ⟦<MemoryStore<B> as BlockStore<B>>⟧.stored self.old h)) }
        ensures err { OnErr result ((h : ℕ)
            → ⟦<MemoryStore<B> as BlockStore<B>>⟧.stored self.new h
            ≡ ⟦<MemoryStore<B> as BlockStore<B>>⟧.stored self.old h) }
    {
        self.blocks.insert(block.height().0, block)?;
        Ok(())
    }
}

impl<B: Drop> BlockStore<B> for MemoryStore<B> {
    ghost use Rattle.std.specs.Ordering.{nat_cmp};
    ghost use Rattle.std.specs.BTreeMap.{get};

    ghost stored = { λ store h. get nat_cmp store.blocks h };

    fn at(&self, height: Height) -> Result<Option<Digested<B>>, OutOfMemory> {
        match self.blocks.get(&height.0) {
            Some(block) => Ok(Some(block.share()?)),
            None => Ok(None),
        }
    }

    fn prune(&mut self, height: Height) {
        self.blocks.retain(|at, _| *at >= height.0);
    }
}
