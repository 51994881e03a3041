//! Lines of transcripts that no script brings about, and laws.

use stateful_bank::BankBlock;
use stateful_base::{Anchor, Digest, Epoch, Height, Items, OutOfMemory, Round, View};
use stateful_history::{Entry, Event, Mark};
use stateful_play::databases_are_shown_once;
use stateful_script::{
    first_is_named, last_is_ended, number_is_decimal, plans_are_kept, whole_is_read,
};
use stateful_script_text::{End, Label, Shown, transcript};
use stateful_shell::{Page, number, rest, word};
use std::alloc::Global;
use std::str;

/// A block of this height whose digest is that of a word.
fn anchor(height: u64, word: &str) -> Anchor {
    Anchor {
        height: Height(height),
        round: Round {
            epoch: Epoch(0),
            view: View(0),
        },
        digest: Digest::of(word.as_bytes()),
    }
}

/// The mark that words name, if there is one.
fn mark_of(words: &[&str]) -> Option<Mark<BankBlock>> {
    let (first, second) = (number(words, 2), number(words, 3));
    let anchor = anchor(first, word(words, 3));
    match word(words, 1) {
        "opened" => Some(Mark::Opened { anchor }),
        "converged" => Some(Mark::Converged { anchor }),
        "recorded" => Some(Mark::Recorded { anchor }),
        "asked" => Some(Mark::Asked {
            fetch: first,
            ticket: None,
            digest: Digest::of(word(words, 4).as_bytes()),
        }),
        "dispatched" => Some(Mark::Dispatched {
            generation: first,
            height: Height(second),
        }),
        "pruned" => Some(Mark::Pruned {
            marshal: Height(first),
            target: Height(second),
        }),
        "completed" => Some(Mark::Completed {
            height: Height(first),
        }),
        _ => None,
    }
}

/// A name of the digest of the word `n`.
fn label(alloc: Global, name: &[u8]) -> Result<Label, OutOfMemory> {
    Ok(Label {
        name: Items::from_vec(name.to_vec(alloc)?),
        digest: Digest::of(b"n"),
    })
}

/// The transcript of entries and of databases.
fn text_of(
    alloc: Global,
    entries: &[Entry<BankBlock, (), ()>],
    databases: &[Shown],
) -> Result<Vec<u8>, OutOfMemory> {
    let labels = [label(alloc, b"n1")?, label(alloc, b"n2")?];
    transcript(alloc, &labels, entries, databases, End::Done)
}

/// Prints the transcript of entries and of databases.
fn show_transcript(entries: &[Entry<BankBlock, (), ()>], databases: &[Shown], page: &mut Page) {
    match text_of(page.alloc(), entries, databases) {
        Ok(text) => page.push(str::from_utf8(text.as_slice()).unwrap_or("no text\n")),
        Err(OutOfMemory) => page.lack(),
    }
}

/// Prints the transcript of one event, which isn't shown, with the mark that words name.
pub(crate) fn mark(words: &[&str], page: &mut Page) {
    let Some(mark) = mark_of(words) else {
        return page.say("refused");
    };
    let mut marks = Items::new(page.alloc());
    if marks.push(mark).is_err() {
        page.lack();
    }
    let entry = Entry {
        event: Event::Stop,
        marks,
    };
    show_transcript(&[entry], &[], page)
}

/// What is shown of a database that a word names, if it names one.
fn shown_of(word: &str) -> Option<Shown> {
    match word {
        "closed" => Some(Shown::Closed),
        "lost" => Some(Shown::Lost),
        "away" => Some(Shown::Away),
        _ => None,
    }
}

/// Prints the transcript of these databases, without an event.
pub(crate) fn shown(words: &[&str], page: &mut Page) {
    let mut databases = Vec::new(page.alloc());
    for word in rest(words, 1) {
        match shown_of(word) {
            Some(shown) => {
                if databases.push(shown).is_err() {
                    page.lack();
                }
            }
            None => page.say("refused"),
        }
    }
    show_transcript(&[], databases.as_slice(), page)
}

/// Calls each law of scripts and of plays: it does nothing.
pub(crate) fn laws(page: &mut Page) {
    number_is_decimal();
    whole_is_read();
    first_is_named();
    last_is_ended();
    plans_are_kept();
    databases_are_shown_once();
    page.say("called")
}
