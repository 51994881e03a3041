//! A sample of replies, from which a floor is selected.

use crate::named::{Word, named};
use crate::words::{Votes, finalization};
use stateful_probe::Sample;
use stateful_shell::{Page, number, parsed, word};
use stateful_types::{Epoch, Finalization, OutOfMemory};
use std::cell::Cell;

/// The replies of peers, which go by numbers.
pub(crate) type Replies = Sample<u64, Votes>;

/// Prints a floor by its view and its peer.
fn tell(floor: Option<&Finalization<Votes>>, page: &mut Page) {
    match floor {
        Some(floor) => {
            page.field("floor ", floor.round.view.0);
            page.field(" of ", floor.parent.0)
        }
        None => page.push("none"),
    }
}

/// `sample select ..`, and `sample look ..`, which tells whether a reply was looked at.
fn select(sample: &mut Replies, words: &[&str], page: &mut Page) {
    let is_any = word(words, 3) != "without";
    let unjudged = number(words, 4);
    let looked = Cell::new(false);
    let floor = sample.select(parsed(word(words, 2), 0), |reply| {
        looked.set(true);
        is_any || unjudged != reply.round.view.0
    });
    if let Word::Look = named(words, 1) {
        page.push(if looked.get() {
            "looked, "
        } else {
            "didn't look, "
        })
    }
    match floor {
        Ok(floor) => tell(floor.as_ref(), page),
        Err(OutOfMemory) => page.lack(),
    }
}

/// `sample ..`. A reply is on the block of the view that its peer's number is.
pub(crate) fn play(sample: &mut Replies, words: &[&str], page: &mut Page) {
    let of = number(words, 2);
    match named(words, 1) {
        Word::New => {
            *sample = Sample::new(page.alloc(), Epoch(of));
            page.push("new")
        }
        Word::Record => {
            let reply = finalization(&["0", word(words, 3), word(words, 2), "7"], page);
            page.note(sample.record(of, reply));
            page.push("recorded")
        }
        Word::Select | Word::Look => select(sample, words, page),
        Word::Floor => tell(sample.floor(), page),
        Word::Awaits => page.push(if sample.awaits(&of) { "yes" } else { "no" }),
        Word::Minimum => page.show(&sample.minimum_epoch().0),
        Word::Reset => {
            sample.reset();
            page.push("reset")
        }
        _ => page.push("no such command"),
    }
}
