//! Blocks of the counter, by name.

use crate::counter::CounterShell;
use stateful_base::{Ancestry, Digested, Epoch, Height, Items, OutOfMemory, Round, Share, View};
use stateful_db_plain::PlainState;
use stateful_script_text::Label;
use stateful_shell::{Page, number, word};
use stateful_simple_counter::{Add, CounterBlock};
use std::alloc::Global;
use std::collections::BTreeMap;

/// A block with its name, its parent at hand, and the count behind it.
#[derive(Drop)]
pub(crate) struct Named {
    name: String,
    pub(crate) ancestry: Ancestry<CounterBlock>,
    count: u64,
}

/// The round of a block of this height.
pub(crate) fn round_of(height: u64) -> Round {
    Round {
        epoch: Epoch(0),
        view: View(height),
    }
}

/// A block with its parent at hand.
fn ancestry_of(
    alloc: Global,
    first: Digested<CounterBlock>,
    parent: &Digested<CounterBlock>,
) -> Result<Ancestry<CounterBlock>, OutOfMemory> {
    let mut rest = Items::new(alloc);
    rest.push(parent.share()?)?;
    Ok(Ancestry { first, rest })
}

/// The block at height 0, which stands as its own parent.
fn genesis(alloc: Global) -> Result<Ancestry<CounterBlock>, OutOfMemory> {
    let block = Digested::compute(alloc, CounterBlock::genesis(Add(0)))?;
    ancestry_of(alloc, block.share()?, &block)
}

/// A block on this parent, which adds a number to a count that is this one then.
fn child(
    alloc: Global,
    parent: &Digested<CounterBlock>,
    added: u64,
    count: u64,
) -> Result<Ancestry<CounterBlock>, OutOfMemory> {
    let height = parent.height().0.saturating_add(1);
    let mut entries = BTreeMap::new(alloc);
    entries.insert(0, count)?;
    let block = CounterBlock {
        parent: parent.digest(),
        height: Height(height),
        round: round_of(height),
        payload: Add(added),
        target: PlainState::new(height.saturating_add(1), entries).target(),
    };
    ancestry_of(alloc, Digested::compute(alloc, block)?, parent)
}

impl CounterShell {
    /// Names a block, and keeps it in the store.
    fn push(
        &mut self,
        alloc: Global,
        name: &str,
        ancestry: Ancestry<CounterBlock>,
        count: u64,
    ) -> Result<(), OutOfMemory> {
        self.store.insert(ancestry.first.share()?)?;
        self.labels.push(Label {
            name: Items::from_vec(name.as_bytes().to_vec(alloc)?),
            digest: ancestry.first.digest(),
        })?;
        self.blocks.push(Named {
            name: String::from_str(alloc, name)?,
            ancestry,
            count,
        })?;
        Ok(())
    }

    /// The block of a name.
    pub(crate) fn find(&self, name: &str) -> Option<&Named> {
        for named in &self.blocks {
            if named.name.as_str() == name {
                return Some(named);
            }
        }
        None
    }

    /// Names the block at height 0.
    pub(crate) fn add_genesis(&mut self, page: &mut Page) {
        let alloc = page.alloc();
        match genesis(alloc) {
            Ok(ancestry) => page.note(self.push(alloc, "genesis", ancestry, 0)),
            Err(OutOfMemory) => page.lack(),
        }
    }

    /// Names a block on another one.
    pub(crate) fn add_block(&mut self, words: &[&str], page: &mut Page) {
        let alloc = page.alloc();
        let Some(parent) = self.find(word(words, 2)) else {
            return page.say("refused");
        };
        let added = number(words, 3);
        let count = parent.count.saturating_add(added);
        match child(alloc, &parent.ancestry.first, added, count) {
            Ok(ancestry) => page.note(self.push(alloc, word(words, 1), ancestry, count)),
            Err(OutOfMemory) => page.lack(),
        }
        page.say("named")
    }
}
