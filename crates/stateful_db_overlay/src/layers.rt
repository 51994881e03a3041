//! The layers of a chain.

ghost use Rattle.std.specs.Prelude.{◌≡◌, ◌==◌, ◌∷◌, [], ◌++◌, ◌<◌, ◌^◌, ℕ, IfOk, OnOk, length};
ghost use Rattle.std.specs.Prelude.{position};
ghost use Rattle.stateful_db_overlay.specs.Stack.{Stack, above_in, cut_at, has_layer};

use crate::layer::Layer;
use stateful_base::OutOfMemory;
use std::alloc::Global;
use std::marker::Model;

/// The layers of a chain, newest first, over the point of a database. They are shared with other
/// chains.
#[derive(Drop)]
pub struct Layers<C> {
    base: u64,
    layers: Vec<Layer<C>>,
}

impl<C> Model for Layers<C> {
    ghost use Rattle.stateful_db_overlay.specs.Stack.{Stack};

    ghost Value = { Stack C };

    ghost view = { λ a. record { base = a.base; layers = a.layers.items } };
}

impl<C> Layers<C> {
    /// No layers, over a database where the batch of this id was applied last.
    pub fn over(alloc: Global, base: u64) -> Layers<C>
        ensures { result ≡ record { base = base; layers = [] } }
    {
        Layers {
            base,
            layers: Vec::new(alloc),
        }
    }

    /// These layers, and one more on them.
    pub fn with(&self, top: &Layer<C>) -> Result<Layers<C>, OutOfMemory>
    where
        C: Drop,
        ensures { IfOk result (λ more. more ≡ record self.now { layers = top.now ∷ self.now.layers }) }
    {
        let mut layers = Vec::new(*self.layers.allocator());
        layers.push(top.share()?)?;
        share_each(self.layers.as_slice(), &mut layers)?;
        Ok(Layers {
            base: self.base,
            layers,
        })
    }

    /// The same layers. It copies no changes.
    pub fn share(&self) -> Result<Layers<C>, OutOfMemory>
    where
        C: Drop,
        ensures { IfOk result (λ same. same ≡ self.now) }
    {
        let mut layers = Vec::new(*self.layers.allocator());
        share_each(self.layers.as_slice(), &mut layers)?;
        Ok(Layers {
            base: self.base,
            layers,
        })
    }

    /// Its allocator.
    pub fn allocator(&self) -> Global {
        *self.layers.allocator()
    }

    /// How many layers there are.
    pub fn count(&self) -> usize
        ensures count { result ≡ length self.now.layers }
        ensures small { result < 2 ^ 63 }
    {
        self.layers.len()
    }

    /// Whether the base or a layer has this id. The base is tested first.
    pub fn has(&self, id: u64) -> bool
        ensures { result ≡ has_layer self.now id }
    {
        self.base == id || place_of(self.layers.as_slice(), id).is_some()
    }

    /// The layers above the base or the layer of this id, or all where neither has it. The base is
    /// tested first.
    pub fn above(&self, id: u64) -> &[Layer<C>]
        ensures { result.now ≡ above_in id self.now }
    {
        if self.base == id {
            return self.layers.as_slice();
        }
        match place_of(self.layers.as_slice(), id) {
            Some(place) => &self.layers[..place],
            None => self.layers.as_slice(),
        }
    }

    /// Drops the layers from the one of this id down, which is then the base. Nothing changes where
    /// neither the base nor a layer has it.
    pub fn cut(&mut self, id: u64)
    where
        C: Drop,
        ensures { self.new ≡ cut_at id self.old }
    {
        if !self.has(id) {
            return;
        }
        let count = self.above(id).len();
        self.layers.truncate(count);
        self.base = id;
    }
}

/// The place of the first layer of this id.
fn place_of<C>(layers: &[Layer<C>], id: u64) -> Option<usize>
    ensures { result ≡ position (λ (l : ℕ × C). l.0 == id) layers.now }
{
    layers.iter().position(|layer| layer.id() == id)
}

/// Appends the same layers.
fn share_each<C: Drop>(layers: &[Layer<C>], out: &mut Vec<Layer<C>>) -> Result<(), OutOfMemory>
    ensures { OnOk result (out.new.items ≡ out.old.items ++ layers.now) }
{
    for layer in layers {
        out.push(layer.share()?)?;
    }
    Ok(())
}
