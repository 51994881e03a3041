//! The cut of the cache to a new anchor.

ghost use Rattle.std.specs.Prelude.{◌≡◌, ◌≢◌, All, OnOk, IfOk, IfSome, IfNone};
ghost use Rattle.stateful_base.specs.Anchor.{anchor_by};
ghost use Rattle.stateful_exec_cache.specs.Cut.{IsCutTo, IsRootOf};
ghost use Rattle.stateful_exec_tables.specs.Tables.{Rises};

use crate::state::Tables;
use stateful_base::{Anchor, Block, Digested, OutOfMemory};
use stateful_exec_cache::{Cache, Cut};
use std::mem;

impl<B: Block + Drop, C: Copy, I: Drop, R: Drop, U: Drop> Tables<B, C, I, R, U> {
    /// Makes a block the anchor, and cuts the cache to its descendants of later rounds. The batch
    /// of its entry is handed out, if there was one.
    pub fn cut(&mut self, block: &Digested<B>) -> Result<Option<U>, OutOfMemory>
        ensures kept { OnOk result (IsCutTo (anchor_by B.header block.now) self.old.cache
            self.new.cache) }
        ensures some { IfOk result (λ root. IfSome root
            (IsRootOf (anchor_by B.header block.now) self.old.cache)) }
        ensures none { IfOk result (λ root. IfNone root
            (All (λ e. e.digest ≢ block.now.digest) self.old.cache)) }
        ensures rest { OnOk result (self.new ≡ record self.old {
          anchor = anchor_by B.header block.now;
          cache = self.new.cache;
        }) }
        ensures numbers { Rises self.old self.new }
    {
        let root = Anchor::from_block(block);
        let cache = mem::replace(&mut self.cache, Cache::new(self.alloc));
        let Cut { root: batch, kept } = cache.cut(self.alloc, root)?;
        self.cache = kept;
        self.anchor = root;
        Ok(batch)
    }
}
