//! Two resolvers with their mailboxes.

use crate::named::{Word, named};
use crate::reading::show_response;
use crate::source::Fixed;
use crate::words::{bytes, put, request, show_bytes, show_request, tell_drawn, tell_feedback};
use stateful_db_source::AttachableResolverSet;
use stateful_p2p::{Actor, ActorEvent, ActorOut, Config, Mailbox, ResponseDropped};
use stateful_shell::{Page, index, number, word};
use stateful_types::{Moved, OutOfMemory};
use std::num::NonZeroU64;

/// Two resolvers, and their mailboxes as a set.
pub(crate) type Two = (
    (Actor<Fixed>, Actor<Fixed>),
    (Mailbox<Fixed>, Mailbox<Fixed>),
);

/// What two have first, and what they have second, where both were made.
fn both<A: Drop, B: Drop>(
    one: Result<(A, B), OutOfMemory>,
    other: Result<(A, B), OutOfMemory>,
) -> Result<((A, A), (B, B)), OutOfMemory> {
    let (first, second) = one?;
    let (other_first, other_second) = other?;
    Ok(((first, other_first), (second, other_second)))
}

/// Prints what is to be done, in one line.
fn tell(outs: &[ActorOut], page: &mut Page) {
    let mut between = "";
    for out in outs {
        page.push(between);
        match out {
            ActorOut::Fetch { ticket, key } => {
                page.field("fetch ", *ticket);
                show_request(" ", *key, page)
            }
            ActorOut::Forget { ticket } => page.field("forget ", *ticket),
            ActorOut::Candidate { ticket } => page.field("candidate ", *ticket),
            ActorOut::Feedback { delivery, valid } => {
                page.field("feedback ", *delivery);
                page.push(if *valid { " true" } else { " false" })
            }
            ActorOut::Unjudged { delivery } => page.field("unjudged ", *delivery),
            ActorOut::Served { serve, bytes } => {
                page.field("served ", *serve);
                page.field(" ", bytes.len() as u64);
                show_bytes(" bytes ", bytes.as_slice(), page)
            }
            ActorOut::Unserved { serve } => page.field("unserved ", *serve),
        }
        between = "; ";
    }
    page.push(if outs.is_empty() { "nothing" } else { "" })
}

/// The event that the words are, if they are one.
fn event(words: &[&str], page: &mut Page) -> Option<ActorEvent> {
    let of = number(words, 2);
    match named(words, 1) {
        Word::Message => Some(ActorEvent::Message),
        Word::Deliver => Some(ActorEvent::Deliver {
            delivery: of,
            key: request(words, 3),
            value: bytes(words, 4, page),
        }),
        Word::Judge => Some(ActorEvent::Judge {
            ticket: of,
            valid: word(words, 3) == "good",
        }),
        Word::Leave => Some(ActorEvent::Leave { ticket: of }),
        Word::Produce => Some(ActorEvent::Produce {
            serve: of,
            key: request(words, 3),
        }),
        _ => None,
    }
}

/// A command of one resolver.
fn play_on(
    actor: &mut Actor<Fixed>,
    mailbox: &mut Mailbox<Fixed>,
    words: &[&str],
    page: &mut Page,
) {
    match named(words, 1) {
        Word::Serve => tell_drawn(mailbox.serve(request(words, 2)), page),
        Word::Attach => {
            let database = Fixed::new(page.alloc(), words, 2);
            tell_feedback(mailbox.attach_database(database), page)
        }
        Word::Cancel => {
            mailbox.cancel(number(words, 2));
            page.push("cancelled")
        }
        Word::Poll => match mailbox.poll(number(words, 2)) {
            Ok(Moved::Pending) => page.push("pending"),
            Ok(Moved::Done(response)) => show_response(&response, page),
            Err(ResponseDropped) => page.push("dropped"),
        },
        _ => match event(words, page) {
            Some(event) => match actor.step(mailbox, event) {
                Ok(outs) => tell(outs.as_slice(), page),
                Err(error) => page.show(&error),
            },
            None => page.push("no such command"),
        },
    }
}

/// `resolvers ..`: the commands of both.
pub(crate) fn play_both(two: &mut Option<Two>, words: &[&str], page: &mut Page) {
    let alloc = page.alloc();
    match named(words, 1) {
        Word::New => {
            let mailbox_size = index(words, 3);
            match NonZeroU64::new(number(words, 2)) {
                Some(max_serve_ops) if mailbox_size > 0 => {
                    let config = Config {
                        max_serve_ops,
                        mailbox_size,
                    };
                    let one = Actor::new(alloc, config);
                    let config = Config {
                        max_serve_ops,
                        mailbox_size,
                    };
                    put(two, both(one, Actor::new(alloc, config)), page);
                    page.push("new")
                }
                _ => page.push("refused"),
            }
        }
        Word::Attach => match two {
            Some((_, mailboxes)) => {
                let databases = (Fixed::new(alloc, words, 2), Fixed::new(alloc, words, 3));
                page.note(mailboxes.attach_databases(databases));
                page.push("attached")
            }
            None => page.push("no resolvers"),
        },
        _ => page.push("no such command"),
    }
}

/// `resolver ..`, and `other ..`
pub(crate) fn play_one(two: &mut Option<Two>, words: &[&str], page: &mut Page) {
    let Some((actors, mailboxes)) = two else {
        return page.push("no resolvers");
    };
    match named(words, 0) {
        Word::Other => play_on(&mut actors.1, &mut mailboxes.1, words, page),
        _ => play_on(&mut actors.0, &mut mailboxes.0, words, page),
    }
}
