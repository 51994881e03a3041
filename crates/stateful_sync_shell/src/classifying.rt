//! Blocks that were finalized during a sync.

use crate::letter::{Letter, block, push_block};
use crate::shown::say_error;
use stateful_shell::{Page, rest, word};
use stateful_sync::{Handover, classify};
use stateful_types::{Anchor, Digested, OutOfMemory};

/// Prints how a block is handed over.
fn say_handed(how: &str, block: &Digested<Letter>, ticket: u64, page: &mut Page) {
    push_block(how, block, page);
    page.field(" of ticket ", ticket);
    page.end()
}

/// Prints what becomes of blocks.
fn say_handovers(handovers: &[Handover<Letter>], page: &mut Page) {
    for handover in handovers {
        match handover {
            Handover::Covered { ticket, block } => say_handed("covered ", block, *ticket, page),
            Handover::Reflected { ticket, block } => say_handed("reflected ", block, *ticket, page),
            Handover::Apply { ticket, block } => say_handed("apply ", block, *ticket, page),
        }
    }
    page.say("all")
}

/// The blocks that the words name, under tickets from 0 on.
fn retained(words: &[&str], page: &mut Page) -> Result<Vec<(u64, Digested<Letter>)>, OutOfMemory> {
    let mut retained = Vec::new(page.alloc());
    for (ticket, word) in words.iter().enumerate() {
        if let Some(block) = block(word, page) {
            retained.push((ticket as u64, block))?;
        }
    }
    Ok(retained)
}

/// What becomes of blocks, once the databases have converged to the anchor.
pub(crate) fn say_classified(words: &[&str], page: &mut Page) {
    let Some(first) = block(word(words, 1), page) else {
        return;
    };
    let anchor = Anchor::from_block(&first);
    drop(first);
    let Ok(retained) = retained(rest(words, 2), page) else {
        return page.lack();
    };
    match classify(page.alloc(), anchor, retained) {
        Ok(handovers) => say_handovers(handovers.as_slice(), page),
        Err(error) => say_error(error, page),
    }
}
