//! A probe.

use crate::named::{Word, named};
use crate::words::{Votes, bytes, numbers, put, shared, show_bytes};
use crate::writing::write_message;
use bytes::Bytes;
use stateful_probe::{Config, Event, Out, Probe, ProbeOut};
use stateful_shell::{Page, number, word};
use stateful_types::{Epoch, Items, MemoryLatest, OutOfMemory, VoteScheme, write_u8};

/// A probe of peers that go by numbers.
pub(crate) type Votings = Probe<VoteScheme>;

/// `probe new EPOCH EPOCHS KEYS`. The first 4294967295 of the keys count.
fn new(words: &[&str], page: &mut Page) -> Result<Votings, OutOfMemory> {
    let alloc = page.alloc();
    let mut schemes = Items::new(alloc);
    for epoch in numbers(words, 3, page).as_slice() {
        let mut keys = numbers(words, 4, page);
        keys.truncate(4_294_967_295);
        let participants = Items::from_vec(keys);
        if schemes
            .push((Epoch(*epoch), VoteScheme { participants }))
            .is_err()
        {
            page.lack()
        }
    }
    let minimum_epoch = Epoch(number(words, 2));
    let config = Config {
        schemes,
        minimum_epoch,
    };
    Probe::new(alloc, config)
}

/// Prints what is to be done, in one line.
fn tell(outs: &[ProbeOut<VoteScheme>], page: &mut Page) {
    let mut between = "";
    for out in outs {
        page.push(between);
        match out {
            Out::Floor {
                ticket,
                finalization,
            } => {
                page.field("floor ", *ticket);
                page.field(" at ", finalization.round.epoch.0);
                page.field(" ", finalization.round.view.0);
                page.push(" by ");
                page.debug(&finalization.certificate.as_slice())
            }
            Out::Closed { ticket } => page.field("closed ", *ticket),
            Out::Request { peers } => {
                page.push("request ");
                page.debug(&peers.as_slice())
            }
            Out::Response { peer, value } => {
                page.field("response ", *peer);
                show_bytes(" ", value.as_slice(), page)
            }
            Out::Block { peer } => page.field("block ", *peer),
        }
        between = "; ";
    }
    page.push(if outs.is_empty() { "nothing" } else { "" })
}

/// The bytes of a peer's response: all, all but the last one, or one more. Its payload is byte 7,
/// 32 times, and its parent's view is 8.
fn reply(words: &[&str], page: &mut Page) -> Bytes {
    let mut bytes = Vec::new(page.alloc());
    let found = [word(words, 3), word(words, 4), "8", "7", word(words, 5)];
    let written = write_message(&found, &mut bytes, page);
    page.note(written);
    match named(words, 1) {
        Word::Cut => bytes.truncate(bytes.len().saturating_sub(1)),
        Word::Longer => page.note(write_u8(0, &mut bytes)),
        _ => {}
    }
    shared(bytes, page)
}

/// The event that the words are, if they are one.
fn event(words: &[&str], page: &mut Page) -> Option<Event<u64>> {
    let of = number(words, 2);
    match named(words, 1) {
        Word::Subscribe => Some(Event::Subscribe { ticket: of }),
        Word::Cancel => Some(Event::Cancel { ticket: of }),
        Word::Attach => Some(Event::Attach),
        Word::Retry => Some(Event::Retry),
        Word::Stop => Some(Event::Stop),
        Word::Bytes => Some(Event::Received {
            peer: of,
            value: bytes(words, 3, page),
        }),
        Word::Reply | Word::Cut | Word::Longer => Some(Event::Received {
            peer: of,
            value: reply(words, page),
        }),
        _ => None,
    }
}

/// `probe ..`
pub(crate) fn play(
    probe: &mut Option<Votings>,
    latest: &MemoryLatest<Votes>,
    words: &[&str],
    page: &mut Page,
) {
    if let Word::New = named(words, 1) {
        let made = new(words, page);
        put(probe, made, page);
        return page.push("new");
    }
    let Some(probe) = probe else {
        return page.push("no probe");
    };
    let Some(event) = event(words, page) else {
        return page.push("no such command");
    };
    match probe.step(event, latest) {
        Ok(outs) => tell(outs.as_slice(), page),
        Err(error) => page.show(&error),
    }
}
