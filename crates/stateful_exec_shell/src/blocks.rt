//! Blocks by their names.

use crate::block::FakeBlock;
use crate::words::block_of;
use stateful_shell::{Page, word};
use stateful_types::{Digest, Digested, OutOfMemory, Share};
use std::alloc::Global;

#[derive(Drop)]
struct Named<B> {
    name: String,
    block: Digested<B>,
}

/// Blocks by their names, in the order in which they were named.
#[derive(Drop)]
pub(crate) struct Blocks<B> {
    all: Vec<Named<B>>,
}

impl<B: Drop> Blocks<B> {
    /// None.
    pub(crate) fn new(alloc: Global) -> Blocks<B> {
        Blocks {
            all: Vec::new(alloc),
        }
    }

    /// The block of a name.
    pub(crate) fn find(&self, name: &str) -> Option<&Digested<B>> {
        for named in &self.all {
            if named.name.as_str() == name {
                return Some(&named.block);
            }
        }
        None
    }

    /// The same, shared.
    pub(crate) fn share(&self, name: &str) -> Result<Option<Digested<B>>, OutOfMemory> {
        match self.find(name) {
            Some(block) => Ok(Some(block.share()?)),
            None => Ok(None),
        }
    }

    /// The digest of the block of a name. Zeros where there is none.
    fn digest_of(&self, name: &str) -> Digest {
        match self.find(name) {
            Some(block) => block.digest(),
            None => Digest([0; 32]),
        }
    }

    /// Prints the name of the first block of a digest, behind a space. A question mark where there
    /// is none.
    pub(crate) fn show(&self, digest: Digest, page: &mut Page) {
        for named in &self.all {
            if named.block.digest().is(digest) {
                page.push(" ");
                return page.push(named.name.as_str());
            }
        }
        page.push(" ?")
    }
}

impl Blocks<FakeBlock> {
    /// Names a block.
    fn put(&mut self, alloc: Global, name: &str, block: FakeBlock) -> Result<(), OutOfMemory> {
        let block = Digested::compute(alloc, block)?;
        let name = name.to_string(alloc)?;
        self.all.push(Named { name, block })?;
        Ok(())
    }

    /// `block NAME PARENT BYTE HEIGHT VIEW TARGET TURNS END HOOK`.
    pub(crate) fn name(&mut self, words: &[&str], page: &mut Page) {
        if words.len() != 10 {
            return page.say("no such block");
        }
        let parent = self.digest_of(word(words, 2));
        let block = block_of(page.alloc(), parent, words);
        page.note(self.put(page.alloc(), word(words, 1), block))
    }
}
