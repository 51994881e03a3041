//! Events, by their words.

use crate::counter::CounterShell;
use crate::counter::blocks::round_of;
use stateful_base::{Ancestry, Floor, Items, OutOfMemory, Round, Share};
use stateful_db::Flushed;
use stateful_history::Event;
use stateful_shell::{Page, number, word};
use stateful_simple_counter::{Add, CounterBlock};
use std::alloc::Global;

/// An event of a machine of the counter.
pub(crate) type Told = Event<CounterBlock, Round, Add>;

const FLOOR: Floor = Floor {
    processed: None,
    cutoff: None,
    max_pending_acks: 1,
};

/// An event about a block. None where the first word is none.
fn block_event(
    alloc: Global,
    ancestry: &Ancestry<CounterBlock>,
    words: &[&str],
) -> Result<Option<Told>, OutOfMemory> {
    let ticket = number(words, 1);
    match word(words, 0) {
        "verify" => Ok(Some(Event::Verify {
            ticket,
            ancestry: ancestry.share()?,
        })),
        "propose" => Ok(Some(Event::Propose {
            ticket,
            context: round_of(ancestry.first.height().0.saturating_add(1)),
            ancestry: Ancestry {
                first: ancestry.first.share()?,
                rest: Items::new(alloc),
            },
            input: Add(number(words, 3)),
        })),
        "finalized" => Ok(Some(Event::Finalized {
            ticket,
            block: ancestry.first.share()?,
        })),
        _ => Ok(None),
    }
}

impl CounterShell {
    /// The event of these words. None where they are none, or name no block.
    fn event(&self, alloc: Global, words: &[&str]) -> Result<Option<Told>, OutOfMemory> {
        let number = number(words, 1);
        match word(words, 0) {
            "restart" => Ok(Some(Event::Restart {
                floor: FLOOR,
                keep: Items::new(alloc),
            })),
            "turn" => Ok(Some(Event::Turn { job: number })),
            "flushed" => Ok(Some(Event::Flushed {
                barrier: number,
                database: 0,
                answer: Flushed::Good,
            })),
            "stop" => Ok(Some(Event::Stop)),
            _ => match self.find(word(words, 2)) {
                Some(named) => block_event(alloc, &named.ancestry, words),
                None => Ok(None),
            },
        }
    }

    /// Puts an event behind the others.
    pub(crate) fn add_event(&mut self, words: &[&str], page: &mut Page) {
        match self.event(page.alloc(), words) {
            Ok(Some(event)) => {
                if self.events.push(event).is_err() {
                    page.lack();
                }
            }
            Ok(None) => page.say("no such event"),
            Err(OutOfMemory) => page.lack(),
        }
    }
}
