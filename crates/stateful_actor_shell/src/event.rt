//! Events, by their words. The tickets T, jobs J, fetches F, barriers B and databases D that they
//! name are numbers, contexts C and inputs I too, and blocks L letters.
//!
//!     verify T L; propose T C L I; prepare T C L I; finalized T L; subscribe T; cancel T
//!     fetched F, without a block; turn J; flushed B D; progress D; stop; restart

use crate::letter::{Letter, ancestry, block};
use crate::words::letter;
use stateful_base::{Floor, Items};
use stateful_db::Flushed;
use stateful_history::Event;
use stateful_shell::{Page, index, number, word};

/// An event over blocks of a letter, whose contexts and inputs are numbers.
pub(crate) type Told = Event<Letter, u64, u64>;

const FLOOR: Floor = Floor {
    processed: None,
    cutoff: None,
    max_pending_acks: 1,
};

/// An event without a block, by the words behind the first. None where they are none, which is
/// printed then.
fn plain_event(words: &[&str], page: &mut Page) -> Option<Told> {
    let named = number(words, 2);
    match word(words, 1) {
        "subscribe" => Some(Event::Subscribe { ticket: named }),
        "cancel" => Some(Event::Cancel { ticket: named }),
        "fetched" => Some(Event::Fetched {
            fetch: named,
            answer: None,
        }),
        "turn" => Some(Event::Turn { job: named }),
        "flushed" => Some(Event::Flushed {
            barrier: named,
            database: index(words, 3),
            answer: Flushed::Good,
        }),
        "progress" => Some(Event::Progress {
            database: index(words, 2),
        }),
        "stop" => Some(Event::Stop),
        "restart" => Some(Event::Restart {
            floor: FLOOR,
            keep: Items::new(page.alloc()),
        }),
        _ => {
            page.say("no such event");
            None
        }
    }
}

/// The event of the words behind the first. None where they are none, which is printed then, or
/// where memory lacks.
pub(crate) fn event_of(words: &[&str], page: &mut Page) -> Option<Told> {
    let ticket = number(words, 2);
    match word(words, 1) {
        "verify" => Some(Event::Verify {
            ticket,
            ancestry: ancestry(letter(words, 3), page)?,
        }),
        "propose" => Some(Event::Propose {
            ticket,
            context: number(words, 3),
            ancestry: ancestry(letter(words, 4), page)?,
            input: number(words, 5),
        }),
        "prepare" => Some(Event::Prepare {
            ticket,
            context: number(words, 3),
            ancestry: ancestry(letter(words, 4), page)?,
            input: number(words, 5),
        }),
        "finalized" => Some(Event::Finalized {
            ticket,
            block: block(letter(words, 3), page)?,
        }),
        _ => plain_event(words, page),
    }
}
