//! From which block a sync starts.

use crate::letter::{block, push_block, store};
use crate::shown::{push_digest, say_error};
use crate::words::{height, letter, round};
use stateful_shell::{Page, rest, word};
use stateful_sync::{Resolved, resolve, resolve_fetched};
use stateful_types::{Digest, Epoch, Finalization, Floor, Round, View};

/// The round of a finalization for which none is given.
const FIRST: Round = Round {
    epoch: Epoch(0),
    view: View(0),
};

/// The start of a sync to a finalized block, or the digest of the one to fetch.
pub(crate) fn say_resolved(words: &[&str], page: &mut Page) {
    let floor = Floor {
        processed: height(word(words, 1)),
        cutoff: round(word(words, 2)),
        max_pending_acks: 0,
    };
    let finalization = Finalization {
        round: round(word(words, 3)).unwrap_or(FIRST),
        parent: View(0),
        payload: Digest::of(&[letter(word(words, 4))]),
        certificate: (),
    };
    let store = store(rest(words, 5), page);
    match resolve(&store, &floor, &finalization) {
        Ok(Resolved::Block(block)) => {
            push_block("start ", &block, page);
            page.end()
        }
        Ok(Resolved::Fetch(digest)) => {
            push_digest("fetch ", digest, page);
            page.end()
        }
        Err(error) => say_error(error, page),
    }
    drop(store)
}

/// The start of a sync whose floor was fetched, or for which there was no block to fetch.
pub(crate) fn say_answered(words: &[&str], page: &mut Page) {
    let floor = Floor {
        processed: height(word(words, 1)),
        cutoff: None,
        max_pending_acks: 0,
    };
    let answer = match word(words, 2) {
        "none" => None,
        name => block(name, page),
    };
    let store = store(rest(words, 3), page);
    match resolve_fetched(&store, &floor, answer) {
        Ok(block) => {
            push_block("start ", &block, page);
            page.end()
        }
        Err(error) => say_error(error, page),
    }
    drop(store)
}
