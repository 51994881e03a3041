//! What the commands of no database are played on.

use crate::accounts::{accept, ask, begin, do_ops, go_on};
use crate::blocks::{child, genesis, propose, slow};
use crate::opening::{Chain, keep};
use crate::shown::print_bytes;
use crate::words::{Command, block_of};
use stateful_bank::BankBlock;
use stateful_base::Items;
use stateful_db_plain::PlainState;
use stateful_shell::Page;
use std::alloc::Global;

/// The block and the state of the commands, the store of blocks, and the block that a line on
/// databases brings.
#[derive(Drop)]
pub(crate) struct Book {
    block: BankBlock,
    state: PlainState,
    pub(crate) chain: Chain,
    pub(crate) given: BankBlock,
}

impl Book {
    /// The block of height 0 over no databases, the empty state, and no stored blocks.
    pub(crate) fn new(alloc: Global) -> Book {
        Book {
            block: BankBlock::genesis(alloc, Items::new(alloc)),
            state: PlainState::empty(alloc),
            chain: Chain::new(alloc),
            given: BankBlock::genesis(alloc, Items::new(alloc)),
        }
    }

    /// Does what a line says, or takes the block that it brings. Whether it is on databases.
    pub(crate) fn play(&mut self, command: Command, words: &[&str], page: &mut Page) -> bool {
        match command {
            Command::Do => do_ops(words, page),
            Command::Accept => accept(words, page),
            Command::Ask => ask(words, page),
            Command::State => begin(&mut self.state, words, page),
            Command::Step => go_on(&mut self.state, words, page),
            Command::Genesis => genesis(&mut self.block, words, page),
            Command::Child => child(&mut self.block, words, page),
            Command::Propose => propose(&mut self.block, words, page),
            Command::Slow => slow(&mut self.block, words, page),
            Command::Encode => print_bytes(&self.block, page),
            Command::Keep => keep(&mut self.chain, words, page),
            Command::Unknown => page.say("no command"),
            _ => {
                self.given = block_of(words, page);
                return true;
            }
        }
        false
    }
}
