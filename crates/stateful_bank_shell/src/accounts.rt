//! Commands on what accounts have, over no database.

use crate::shown::{print_ops, print_target};
use crate::words::{decision, entries, ops};
use stateful_bank::{Ask, apply_ops, is_acceptable};
use stateful_bank_plain::step;
use stateful_base::{OutOfMemory, Share};
use stateful_db_plain::PlainState;
use stateful_shell::{Page, number, word};

/// What the accounts have after operations on some entries.
pub(crate) fn do_ops(words: &[&str], page: &mut Page) {
    let ops = ops(words, page);
    match apply_ops(&entries(words, page), ops.as_slice()) {
        Ok(Some(after)) => {
            for (account, balance) in &after {
                page.show(account);
                page.field(":", *balance);
                page.end();
            }
        }
        Ok(None) => page.say("not allowed"),
        Err(OutOfMemory) => page.lack(),
    }
}

/// Whether each operation moves something.
pub(crate) fn accept(words: &[&str], page: &mut Page) {
    let ops = ops(words, page);
    page.line(&is_acceptable(ops.as_slice()))
}

/// Shares what a request to build brings.
pub(crate) fn ask(words: &[&str], page: &mut Page) {
    let decision = decision(word(words, 1));
    let ops = ops(words, page);
    match (Ask { decision, ops }).share() {
        Ok(copy) => {
            page.debug(&copy.decision);
            page.end();
            print_ops(copy.ops.as_slice(), page)
        }
        Err(OutOfMemory) => page.lack(),
    }
}

/// Begins at the empty state, where no size is said, or at one of that size.
pub(crate) fn begin(state: &mut PlainState, words: &[&str], page: &mut Page) {
    *state = match words.len() {
        1 => PlainState::empty(page.alloc()),
        _ => PlainState::new(number(words, 1), entries(words, page)),
    };
    print_target("target ", &state.target(), page)
}

/// Goes on to the state after operations.
pub(crate) fn go_on(state: &mut PlainState, words: &[&str], page: &mut Page) {
    let ops = ops(words, page);
    match step(state, ops.as_slice()) {
        Ok(Some(after)) => {
            *state = after;
            print_target("target ", &state.target(), page)
        }
        Ok(None) => page.say("no state"),
        Err(OutOfMemory) => page.say("OutOfMemory"),
    }
}
