//! The counter in the machine, one command a line.
//!
//!     counter              begins anew: there is the block `genesis`, and no event
//!     block B P N          names a block on the block P, which adds N
//!     restart              the machine is to start; this and the next are the events of a play
//!     verify T B           B is to be judged, with its parent at hand
//!     propose T P N        a block on P is to be built, which adds N
//!     finalized T B        B is final
//!     turn J               job J is turned
//!     flushed A            the database of barrier A is flushed
//!     stop                 the machine is to stop
//!     drive                gives all events to a new machine beside an empty database: what it
//!                          marks for each, how it ended, and the count that the database holds

mod blocks;
mod events;
mod machine;

use crate::counter::blocks::Named;
use crate::counter::events::Told;
use stateful_base::MemoryStore;
use stateful_script_text::Label;
use stateful_shell::{Page, Shell, word};
use stateful_simple_counter::CounterBlock;
use std::alloc::Global;

/// The blocks that have names, their names for a transcript, a store of them, and the events of a
/// play.
#[derive(Drop)]
pub(crate) struct CounterShell {
    blocks: Vec<Named>,
    labels: Vec<Label>,
    store: MemoryStore<CounterBlock>,
    events: Vec<Told>,
}

impl Shell for CounterShell {
    fn new(alloc: Global) -> CounterShell {
        CounterShell {
            blocks: Vec::new(alloc),
            labels: Vec::new(alloc),
            store: MemoryStore::new(alloc),
            events: Vec::new(alloc),
        }
    }

    fn play(&mut self, words: &[&str], page: &mut Page) {
        match word(words, 0) {
            "counter" => {
                *self = CounterShell::new(page.alloc());
                self.add_genesis(page);
                page.say("begun")
            }
            "block" => self.add_block(words, page),
            "drive" => self.drive_all(page),
            _ => self.add_event(words, page),
        }
    }

    fn end(&mut self, _page: &mut Page) {}
}
