//! Blocks, shared with their digests.

ghost use Rattle.std.specs.Prelude.{◌≡◌, ◌++◌, OnOk, IfOk};
ghost use Rattle.sha2.specs.Sha256.{sha256};

use crate::digest::Digest;
use crate::items::Items;
use crate::number::Height;
use crate::round::{Round, Rounded};
use crate::share::{OutOfMemory, Share};
use std::alloc::Global;
use std::marker::Model;
use std::sync::Arc;

/// A block of a chain. It names its parent by digest.
pub trait Block {
    ghost use Rattle.std.specs.Prelude.{◌≡◌, ◌++◌, OnOk};
    ghost use Rattle.stateful_base.specs.Names.{Header};

    /// What consensus knows of the block, at least its round.
    type Context: Rounded + Copy;

    /// What the block says of itself: its parent, height, round and bytes.
    ghost header: { Header Self };

    /// What consensus knows of it.
    ghost context_of: { Self → Self.Context };

    /// The digest of its parent.
    fn parent(&self) -> Digest
        ensures { result ≡ header.parent self.now };

    /// Its height.
    fn height(&self) -> Height
        ensures { result.0 ≡ header.height self.now };

    /// What consensus knows of it, of the round that it says.
    fn context(&self) -> Self::Context
        ensures same { result ≡ context_of self.now }
        ensures round { Self.Context.round_of result ≡ header.round self.now };

    /// Appends the block's bytes.
    fn encode(&self, out: &mut Vec<u8>) -> Result<(), OutOfMemory>
        ensures { OnOk result (out.new.items ≡ out.old.items ++ header.bytes self.now) };
}

/// A shared block with its digest, the SHA-256 of its bytes. To a contract it is the block and the
/// digest.
#[derive(Debug, Drop)]
pub struct Digested<B> {
    digest: Digest,
    block: Arc<B>,
}

impl<B> Model for Digested<B> {
    ghost use Rattle.stateful_base.specs.Names.{Named};

    ghost Value = { Named B };

    ghost view = { λ a. record { digest = a.digest; block = a.block.value } };
}

impl<B: Block> Digested<B> {
    /// The block with the digest of its bytes.
    pub fn compute(alloc: Global, block: B) -> Result<Digested<B>, OutOfMemory>
    where
        B: Drop,
        ensures same { IfOk result (λ shared. shared.block ≡ block) }
        ensures digest { IfOk result (λ shared. shared.digest.0 ≡ sha256 (B.header.bytes block)) }
    {
        let mut bytes = Vec::new(alloc);
        block.encode(&mut bytes)?;
        let digest = Digest::of(bytes.as_slice());
        let block = Arc::new(alloc, block)?;
        Ok(Digested { digest, block })
    }

    /// The digest of its parent.
    pub fn parent(&self) -> Digest
        ensures { result ≡ B.header.parent self.now.block }
    {
        self.block.parent()
    }

    /// Its height.
    pub fn height(&self) -> Height
        ensures { result ≡ record { 0 = B.header.height self.now.block } }
    {
        let height = self.block.height();
        Height(height.0)
    }

    /// The round of its context.
    pub fn round(&self) -> Round
        ensures { result ≡ B.header.round self.now.block }
    {
        self.block.context().round()
    }
}

impl<B> Digested<B> {
    /// Its digest.
    pub fn digest(&self) -> Digest
        ensures { result ≡ self.now.digest }
    {
        self.digest
    }

    /// The block.
    pub fn inner(&self) -> &B
        ensures { result.now ≡ self.now.block }
    {
        &self.block
    }
}

impl<B> Share for Digested<B> {
    fn share(&self) -> Result<Digested<B>, OutOfMemory> {
        let block = Arc::try_clone(&self.block)?;
        Ok(Digested {
            digest: self.digest,
            block,
        })
    }
}

/// A block and its ancestors, as far as they are at hand: its parent first.
#[derive(Debug, Drop)]
pub struct Ancestry<B> {
    pub first: Digested<B>,
    pub rest: Items<Digested<B>>,
}

impl<B: Drop> Share for Ancestry<B> {
    fn share(&self) -> Result<Ancestry<B>, OutOfMemory> {
        Ok(Ancestry {
            first: self.first.share()?,
            rest: self.rest.share_each()?,
        })
    }
}
