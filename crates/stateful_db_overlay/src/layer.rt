//! A sealed batch as a part of a chain.

ghost use Rattle.std.specs.Prelude.{◌≡◌, IfErr, IfOk};

use stateful_base::OutOfMemory;
use std::alloc::Global;
use std::marker::Model;
use std::sync::Arc;

/// The id of a sealed batch, and its changes, which its copies share. Contracts see the id with the
/// changes.
#[derive(Drop)]
pub struct Layer<C> {
    id: u64,
    changes: Arc<C>,
}

impl<C> Model for Layer<C> {
    ghost use Rattle.std.specs.Prelude.{ℕ};

    ghost Value = { ℕ × C };

    ghost view = { λ a. (a.id, a.changes.value) };
}

impl<C> Layer<C> {
    /// A layer of its own.
    pub fn new(alloc: Global, id: u64, changes: C) -> Result<Layer<C>, OutOfMemory>
    where
        C: Drop,
        ensures { IfOk result (λ layer. layer ≡ (id, changes)) }
    {
        let changes = Arc::new(alloc, changes)?;
        Ok(Layer { id, changes })
    }

    /// The id of the batch.
    pub fn id(&self) -> u64
        ensures { result ≡ self.now.0 }
    {
        self.id
    }

    /// What the batch changes.
    pub fn changes(&self) -> &C
        ensures { result.now ≡ self.now.1 }
    {
        &self.changes
    }

    /// The same layer. It copies no changes.
    pub fn share(&self) -> Result<Layer<C>, OutOfMemory>
        ensures { IfOk result (λ layer. layer ≡ self.now) }
    {
        let changes = Arc::try_clone(&self.changes)?;
        Ok(Layer {
            id: self.id,
            changes,
        })
    }

    /// The changes themselves, where no other chain shares them, and else the layer back.
    pub fn into_changes(self) -> Result<C, Layer<C>>
        ensures ok { IfOk result (λ changes. changes ≡ self.1) }
        ensures err { IfErr result (λ layer. layer ≡ self) }
    {
        let Layer { id, changes } = self;
        match Arc::try_unwrap(changes) {
            Ok(changes) => Ok(changes),
            Err(changes) => Err(Layer { id, changes }),
        }
    }
}
