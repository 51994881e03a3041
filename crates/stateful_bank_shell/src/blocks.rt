//! Commands on a block, over no database.

use crate::shown::print_block;
use crate::words::{decision, digest, ops, targets};
use stateful_bank::{BankBlock, Proposal, one_is_given};
use stateful_base::{Epoch, Height, Round, View};
use stateful_shell::{Page, number, parsed, word};

/// The block of height 0.
pub(crate) fn genesis(block: &mut BankBlock, words: &[&str], page: &mut Page) {
    *block = BankBlock::genesis(page.alloc(), targets(words, page));
    print_block(block, page)
}

/// A block on a parent.
pub(crate) fn child(block: &mut BankBlock, words: &[&str], page: &mut Page) {
    let height = Height(number(words, 1));
    let parent = digest(words, 2);
    let round = Round {
        epoch: Epoch(number(words, 3)),
        view: View(number(words, 4)),
    };
    let ops = ops(words, page);
    let targets = targets(words, page);
    match BankBlock::child(height, parent, round, ops, targets) {
        Some(child) => {
            *block = child;
            print_block(block, page)
        }
        None => page.say("no height is left"),
    }
}

/// The block of a proposal.
pub(crate) fn propose(block: &mut BankBlock, words: &[&str], page: &mut Page) {
    // The law of builds can be had at a type.
    one_is_given::<u64>();
    let proposal = Proposal {
        decision: decision(word(words, 1)),
        height: Height(number(words, 2)),
        parent: digest(words, 3),
        round: Round {
            epoch: Epoch(number(words, 4)),
            view: View(number(words, 5)),
        },
        ops: ops(words, page),
    };
    if proposal.is_declined() {
        return page.say("declined");
    }
    *block = proposal.into_block(targets(words, page));
    print_block(block, page)
}

/// How many turns the block's hook takes.
pub(crate) fn slow(block: &mut BankBlock, words: &[&str], page: &mut Page) {
    block.slow = parsed(word(words, 1), 0);
    print_block(block, page)
}
