//! Commands on the databases of a world.

use crate::book::Book;
use crate::desk::{Deep, Desk, ROUND, opened};
use crate::opening::open;
use crate::shown::{print_bytes, print_depth, print_matches, print_targets};
use crate::words::{Command, command_of, words_of};
use crate::works::{build, run, seal, turns};
use stateful_bank::BankBlock;
use stateful_bank_app::{Bank, Fresh};
use stateful_base::{Moved, OutOfMemory};
use stateful_db::{Application, DatabaseSet, Hooked};
use stateful_shell::{Page, number, word};

/// The world's first block.
fn first<W: Fresh>(desk: &mut Desk<W>, page: &mut Page) {
    match desk.bank.genesis() {
        Ok(block) => {
            print_targets(block.targets.as_slice(), page);
            print_bytes(&block, page)
        }
        Err(_) => page.say("refused"),
    }
}

/// Prints the targets of the databases, or those that a batch leads to, or those that a block
/// commits to.
fn list<W: Fresh>(
    desk: &Desk<W>,
    command: Command,
    block: &BankBlock,
    batch: u64,
    page: &mut Page,
) {
    let targets = match command {
        Command::Roots => match desk.databases.committed_targets() {
            Ok(targets) => targets,
            Err(lost) => return page.line(&lost),
        },
        Command::Leads => match desk.sealed.get(&batch) {
            Some(sealed) => W::batch_targets(sealed),
            None => return page.say("refused"),
        },
        _ => Bank::<W>::sync_targets(block),
    };
    match W::listed(page.alloc(), &targets) {
        Ok(list) => print_targets(list.as_slice(), page),
        Err(OutOfMemory) => page.lack(),
    }
}

/// Applies a batch.
fn apply<W: Fresh>(desk: &mut Desk<W>, batch: u64, page: &mut Page) {
    let Some(sealed) = desk.sealed.remove(&batch) else {
        return page.say("refused");
    };
    match desk.databases.apply(sealed) {
        Ok(()) => page.say("applied"),
        Err(refusal) => page.line(&refusal),
    }
}

/// Prints how deep a batch is, or whether it leads to what a block commits to.
fn tell<W: Deep>(desk: &Desk<W>, command: Command, block: &BankBlock, batch: u64, page: &mut Page) {
    let Some(sealed) = desk.sealed.get(&batch) else {
        return page.say("refused");
    };
    match command {
        Command::Depth => print_depth(W::depth(sealed), page),
        _ => {
            let targets = Bank::<W>::sync_targets(block);
            print_matches(W::Databases::matches_sync_targets(sealed, &targets), page)
        }
    }
}

/// Finalizes a block with a batch, and prints how many turns its hook takes, 300 at most.
fn finalize<W: Fresh>(desk: &mut Desk<W>, block: &BankBlock, batch: u64, page: &mut Page) {
    let Some(sealed) = desk.sealed.get(&batch) else {
        return page.say("refused");
    };
    if desk
        .bank
        .capture(ROUND, block, sealed, &desk.databases)
        .is_err()
    {
        return page.say("Failed");
    }
    let mut hook = match desk.bank.finalized(ROUND, block, (), &desk.databases) {
        Ok(Hooked::Pending(hook)) => hook,
        Ok(Hooked::Done) => return page.say("no hook"),
        Err(fault) => return page.line(&fault),
    };
    for turns in 1..301u64 {
        match Bank::<W>::turn_hook(&mut hook, &desk.databases) {
            Ok(Moved::Pending) => {}
            _ => {
                page.field("turns ", turns);
                return page.end();
            }
        }
    }
    page.say("turns 0")
}

/// Does what a line says of databases.
fn play<W: Deep>(
    desk: &mut Desk<W>,
    command: Command,
    book: &Book,
    words: &[&str],
    page: &mut Page,
) {
    let batch = number(words, 1);
    match command {
        Command::World => *desk = opened(page.alloc()),
        Command::First => first(desk, page),
        Command::Run => run(desk, words, page),
        Command::Build => build(desk, words, page),
        Command::Turn | Command::Turns => turns(desk, command, page),
        Command::Seal => seal(desk, &book.given, words, page),
        Command::Apply => apply(desk, batch, page),
        Command::Depth | Command::Matches => tell(desk, command, &book.given, batch, page),
        Command::Hook => finalize(desk, &book.given, batch, page),
        Command::Open => open(desk, &book.chain, words, page),
        _ => list(desk, command, &book.given, batch, page),
    }
}

/// Does what lines say.
fn play_lines<W: Deep>(desk: &mut Desk<W>, book: &mut Book, lines: &str, page: &mut Page) {
    for line in lines.lines() {
        let Ok(words) = words_of(line, page.alloc()) else {
            return page.lack();
        };
        let command = command_of(word(words.as_slice(), 0));
        if book.play(command, words.as_slice(), page) {
            play(desk, command, book, words.as_slice(), page);
        }
    }
}

/// Does what lines say, from the first of a file on, and prints what the later ones answer.
pub(crate) fn replay<W: Deep>(printed: &str, lines: &str, page: &mut Page) {
    let alloc = page.alloc();
    let mut desk = opened::<W>(alloc);
    let mut book = Book::new(alloc);
    let mut again = Page::new(alloc);
    play_lines(&mut desk, &mut book, printed, &mut again);
    page.note_page(&again);
    play_lines(&mut desk, &mut book, lines, page)
}
