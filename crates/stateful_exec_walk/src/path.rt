//! Replay paths: the blocks that have to be run for a request.
//!
//! A path is built from the top. That of a verification begins with its block and the parent, that
//! of a proposal with the parent alone. `step_to` adds an ancestor while the walk goes down to a
//! known block. Then it is used up from the bottom: `next` is the block to run, on `parent`, and
//! `advance` makes it the parent of the one above it.
//!
//! So `blocks` stands newest first, and shrinks from its end. While a request waits for a run its
//! path has the blocks above that run's, and while it is parked all that are left. After the walk a
//! path never grows. `specs/Path.antt` says which ancestors it has.

ghost use Rattle.std.specs.Prelude.{◌≡◌, ◌≢◌, ◌++◌, ◌∷◌, [], OnOk, IfOk, IfSome, IfNone};
ghost use Rattle.std.specs.Option.{option_copied};
ghost use Rattle.stateful_exec_walk.specs.Path.{IsLastOf};

use stateful_base::{Digested, OutOfMemory, Share};
use std::alloc::Global;
use std::marker::Model;
use std::mem;

/// The blocks that have to be run for a request, above one that is known.
#[derive(Drop)]
pub struct ReplayPath<B> {
    /// Newest first: the next one to run is the last.
    blocks: Vec<Digested<B>>,
    /// The parent of the next one to run.
    parent: Digested<B>,
}

impl<B> Model for ReplayPath<B> {
    ghost use Rattle.stateful_exec_walk.specs.Path.{Path};

    ghost Value = { Path B };

    ghost view = { λ p. record { blocks = p.blocks.items; parent = p.parent } };
}

impl<B: Drop> ReplayPath<B> {
    /// Nothing is to be run above this block.
    pub fn new(alloc: Global, parent: Digested<B>) -> ReplayPath<B>
        ensures { result ≡ record { blocks = []; parent = parent } }
    {
        ReplayPath {
            blocks: Vec::new(alloc),
            parent,
        }
    }

    /// One block is to be run above its parent.
    pub fn of(
        alloc: Global,
        block: Digested<B>,
        parent: Digested<B>,
    ) -> Result<ReplayPath<B>, OutOfMemory>
        ensures { IfOk result (λ p. p ≡ record { blocks = block ∷ []; parent = parent }) }
    {
        let mut path = ReplayPath::new(alloc, parent);
        path.blocks.push(block)?;
        Ok(path)
    }

    /// The parent of the next one to run.
    pub fn parent(&self) -> &Digested<B>
        ensures { result.now ≡ self.now.parent }
    {
        &self.parent
    }

    /// The next one to run.
    pub fn next(&self) -> Option<&Digested<B>>
        ensures next { IfSome (option_copied result) (IsLastOf self.now.blocks) }
        ensures none { IfNone result (self.now.blocks ≡ []) }
    {
        self.blocks.last()
    }

    /// The block at the path's end has to be run too, and this one is its parent.
    pub(crate) fn step_to(&mut self, parent: &Digested<B>) -> Result<(), OutOfMemory>
        ensures ok { OnOk result (self.new
            ≡ record { blocks = self.old.blocks ++ self.old.parent ∷ []; parent = parent.now }) }
    {
        let missing = mem::replace(&mut self.parent, parent.share()?);
        self.blocks.push(missing)?;
        Ok(())
    }

    /// The next one to run is done with. Its parent is handed out.
    pub fn advance(&mut self) -> Digested<B>
        requires { self.old.blocks ≢ [] }
        ensures passed { self.old.blocks ≡ self.new.blocks ++ self.new.parent ∷ [] }
        ensures parent { result ≡ self.old.parent }
    {
        let Some(block) = self.blocks.pop() else {
            unreachable!();
        };
        mem::replace(&mut self.parent, block)
    }
}
