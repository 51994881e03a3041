//! Commands that run and build blocks.

use crate::desk::{Desk, ROUND, batch_on, keep};
use crate::shown::{print_block, print_matches};
use crate::words::{Command, block_of, decision, ops};
use stateful_bank::{Ask, BankBlock};
use stateful_bank_app::{Bank, Fresh, seal_block};
use stateful_base::{Ancestry, Digested, Finality, Handoff, Height, Items, Moved};
use stateful_db::{Application, DatabaseSet, Input, ProposedBlock};
use stateful_shell::{Page, number, word};

/// A block with no ancestors at hand. None where memory lacks.
fn alone(block: BankBlock, page: &mut Page) -> Option<Ancestry<BankBlock>> {
    let alloc = page.alloc();
    let Ok(first) = Digested::compute(alloc, block) else {
        page.lack();
        return None;
    };
    Some(Ancestry {
        first,
        rest: Items::new(alloc),
    })
}

/// Why a block is run.
fn finality(word: &str) -> Finality {
    match word {
        "finalized" => Finality::Finalized,
        _ => Finality::Candidate,
    }
}

/// Begins to run a block.
pub(crate) fn run<W: Fresh>(desk: &mut Desk<W>, words: &[&str], page: &mut Page) {
    let Some(ancestry) = alone(block_of(words, page), page) else {
        return;
    };
    let Some(batch) = batch_on(desk, number(words, 3)) else {
        return page.say("refused");
    };
    let why = finality(word(words, 6));
    match desk.bank.process(ROUND, ancestry, batch, why) {
        Ok(run) => {
            desk.number = number(words, 1);
            desk.run = Some(run);
        }
        Err(fault) => page.line(&fault),
    }
}

/// What a request to build brings.
fn input_of(words: &[&str], page: &mut Page) -> Input<Ask, ()> {
    Input {
        upstream: Ask {
            decision: decision(word(words, 7)),
            ops: ops(words, page),
        },
        provider: (),
    }
}

/// Begins to build a block on the world's first one.
pub(crate) fn build<W: Fresh>(desk: &mut Desk<W>, words: &[&str], page: &mut Page) {
    let Ok(mut parent) = desk.bank.genesis() else {
        return page.say("refused");
    };
    parent.height = Height(number(words, 5));
    let Some(ancestry) = alone(parent, page) else {
        return;
    };
    let Some(batch) = batch_on(desk, number(words, 3)) else {
        return page.say("refused");
    };
    let input = input_of(words, page);
    let begun = match word(words, 6) {
        "propose" => desk.bank.propose(ROUND, ancestry, batch, input),
        _ => desk.bank.prepare(ROUND, ancestry, batch, input),
    };
    match begun {
        Ok(build) => {
            desk.number = number(words, 1);
            desk.run = None;
            desk.build = Some(build);
        }
        Err(fault) => page.line(&fault),
    }
}

/// Prints how a block is handed over, the block, and whether its batch leads to what it commits to.
fn print_built(how: &str, block: &BankBlock, matches: bool, page: &mut Page) {
    page.say(how);
    print_block(block, page);
    print_matches(matches, page)
}

/// One turn of the build. Whether it goes on.
fn turn_build<W: Fresh>(desk: &mut Desk<W>, page: &mut Page) -> bool {
    let Some(build) = &mut desk.build else {
        page.say("refused");
        return false;
    };
    let (how, built) = match Bank::<W>::turn_build(build, &desk.databases) {
        Ok(Moved::Pending) => return true,
        Ok(Moved::Done(Handoff::Vote(built))) => ("vote", built),
        Ok(Moved::Done(Handoff::Stage(built))) => ("stage", built),
        Ok(Moved::Done(Handoff::Wait)) => {
            page.say("wait");
            return false;
        }
        Err(fault) => {
            page.line(&fault);
            return false;
        }
    };
    let ProposedBlock { block, merkleized } = built;
    let targets = Bank::<W>::sync_targets(&block);
    let matches = W::Databases::matches_sync_targets(&merkleized, &targets);
    print_built(how, &block, matches, page);
    let number = desk.number;
    keep(desk, number, merkleized, page);
    false
}

/// One turn of what was begun last. Whether it goes on.
pub(crate) fn turn<W: Fresh>(desk: &mut Desk<W>, page: &mut Page) -> bool {
    let Some(run) = &mut desk.run else {
        return turn_build(desk, page);
    };
    match Bank::<W>::turn(run, &desk.databases) {
        Ok(Moved::Pending) => return true,
        Ok(Moved::Done(None)) => page.say("no batch"),
        Ok(Moved::Done(Some(sealed))) => {
            let number = desk.number;
            keep(desk, number, sealed, page)
        }
        Err(fault) => page.line(&fault),
    }
    false
}

/// How many turns a command takes at most.
fn most_turns(command: Command) -> u64 {
    match command {
        Command::Turn => 1,
        _ => 100,
    }
}

/// Prints how many turns were taken, where all were asked for.
fn print_turns(command: Command, turns: u64, page: &mut Page) {
    if let Command::Turns = command {
        page.field("turns ", turns);
        page.end();
    }
}

/// One turn of what was begun last, or all turns of it, 100 at most.
pub(crate) fn turns<W: Fresh>(desk: &mut Desk<W>, command: Command, page: &mut Page) {
    let most = most_turns(command);
    for before in 0..most {
        if !turn(desk, page) {
            return print_turns(command, before.saturating_add(1), page);
        }
    }
    page.say("goes on")
}

/// Runs a block at once.
pub(crate) fn seal<W: Fresh>(
    desk: &mut Desk<W>,
    block: &BankBlock,
    words: &[&str],
    page: &mut Page,
) {
    let Some(batch) = batch_on(desk, number(words, 3)) else {
        return page.say("refused");
    };
    let ops = block.ops.as_slice();
    match seal_block::<W>(batch, &desk.databases, ops, block.height) {
        Ok(Some(sealed)) => keep(desk, number(words, 1), sealed, page),
        Ok(None) => page.say("no batch"),
        Err(_) => page.lack(),
    }
}
