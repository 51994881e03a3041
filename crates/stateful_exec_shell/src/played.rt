//! What the shell asks of an application, and what the fake one answers.

use crate::block::FakeBlock;
use crate::blocks::Blocks;
use crate::fake::{Fake, Order};
use crate::words::{end, round};
use stateful_db::{Application, DatabaseSet, Held};
use stateful_db_plain::{Plain, PlainMedium};
use stateful_shell::{parsed, word};
use stateful_types::{Handoff, Round};
use std::alloc::Global;

/// An application that the shell plays on.
///
/// The calls of execution stand in functions over it: at a known application each of them takes
/// longer to prove.
pub(crate) trait Played: Application + Drop {
    /// One that has done nothing.
    fn fresh() -> Self;

    /// Its databases without entries, which aren't here.
    fn closed(alloc: Global) -> Self::Databases;

    /// Its databases without entries.
    fn opened(alloc: Global) -> Self::Databases;

    /// What it read of the states before a block.
    fn captured() -> Self::Captured;

    /// What builds are given.
    fn provider() -> Self::Provider;

    /// What consensus knows of a block of the view that stands there.
    fn context(words: &[&str], at: usize) -> Self::Context;

    /// What a build is ordered to do, by the words `HOW [BLOCK [TURNS END]]`.
    fn order(blocks: &Blocks<Self::Block>, words: &[&str]) -> Option<Self::Input>;
}

/// What a build hands over that was given a block.
fn handed(blocks: &Blocks<FakeBlock>, words: &[&str]) -> Option<Handoff<FakeBlock>> {
    let block = *blocks.find(word(words, 5))?.inner();
    match word(words, 4) {
        "vote" => Some(Handoff::Vote(block)),
        "stage" => Some(Handoff::Stage(block)),
        _ => Some(Handoff::Wait),
    }
}

impl Played for Fake {
    fn fresh() -> Fake {
        Fake
    }

    fn closed(alloc: Global) -> Held<Plain> {
        Held::<Plain>::Closed(PlainMedium::empty(alloc, Vec::new(alloc)))
    }

    fn opened(alloc: Global) -> Held<Plain> {
        let mut databases = Fake::closed(alloc);
        let _opened = databases.init(&(), None);
        databases
    }

    fn captured() {}

    fn provider() {}

    fn context(words: &[&str], at: usize) -> Round {
        round(words, at)
    }

    fn order(blocks: &Blocks<FakeBlock>, words: &[&str]) -> Option<Order> {
        let given = match words.len() {
            5 if word(words, 4) == "wait" => Handoff::Wait,
            6 | 8 => handed(blocks, words)?,
            _ => return None,
        };
        Some(Order {
            turns: parsed(word(words, 6), 0),
            end: end(words, 7),
            given,
        })
    }
}
