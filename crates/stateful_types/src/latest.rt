//! The latest finalization that a node has.

ghost use Rattle.std.specs.Prelude.{◌≡◌, IfOk};

use stateful_base::{Finalization, OutOfMemory, Share};

/// What a node knows of the chain's end.
pub trait Latest<C> {
    ghost use Rattle.std.specs.Prelude.{◌≡◌, IfOk, Option};
    ghost use Rattle.stateful_base.specs.declared.finalization.Finalization.{Finalization};

    /// The latest finalization, if there is one.
    ghost newest: { Self → Option (Finalization C) };

    /// The latest finalization, if there is one.
    fn latest(&self) -> Result<Option<Finalization<C>>, OutOfMemory>
        ensures { IfOk result (λ found. found ≡ newest self.now) };
}

/// A latest finalization that stays what it is.
#[derive(Drop)]
pub struct MemoryLatest<C> {
    pub finalization: Option<Finalization<C>>,
}

impl<C: Share> Latest<C> for MemoryLatest<C> {
    ghost newest = { λ latest. latest.finalization };

    fn latest(&self) -> Result<Option<Finalization<C>>, OutOfMemory> {
        match &self.finalization {
            Some(finalization) => Ok(Some(finalization.share()?)),
            None => Ok(None),
        }
    }
}
