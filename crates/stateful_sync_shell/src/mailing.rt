//! A mailbox of a sync.

ghost use Rattle.std.specs.Prelude.{◌≤◌, length};

use crate::shown::push_place;
use crate::words::anchor;
use stateful_shell::{Page, number, word};
use stateful_sync::{Mailbox, TipUpdate};
use stateful_types::Moved;
use std::alloc::Global;
use std::mem;

/// A mailbox, and how many tickets were drawn of it.
#[derive(Drop)]
pub(crate) struct Mailing {
    mailbox: Mailbox<u64>,
    drawn: u64,
    ghost counted: { drawn ≤ length mailbox.updates },
}

/// Prints an update, as it is recorded, behind what is given.
fn say_update(name: &str, update: TipUpdate<u64>, page: &mut Page) {
    let (anchor, targets, observed) = update.record();
    push_place(name, anchor, page);
    page.field(", targets ", targets);
    match observed {
        Some(number) => page.field(", observed ", number),
        None => page.push(", not observed"),
    }
    page.end()
}

impl Mailing {
    /// An empty mailbox.
    pub(crate) fn new(alloc: Global) -> Mailing {
        Mailing {
            mailbox: Mailbox::new(alloc),
            drawn: 0,
        }
    }

    /// Does what the words of a line say of an update that was sent.
    fn play_sent(&mut self, words: &[&str], page: &mut Page) {
        let ticket = number(words, 1);
        if ticket >= self.drawn {
            return page.say("refused");
        }
        let said = word(words, 2);
        match word(words, 0) {
            "respond" if said == "none" => self.mailbox.respond(ticket, None),
            "respond" => self.mailbox.respond(ticket, Some(anchor(said))),
            "observed" => self.mailbox.observed(ticket, said == "yes"),
            _ => {}
        }
        page.number(ticket);
        match self.mailbox.poll(ticket) {
            Moved::Pending => page.push(" is pending"),
            Moved::Done(None) => page.push(" is done: none"),
            Moved::Done(Some(anchor)) => push_place(" is done: ", anchor, page),
        }
        page.end()
    }

    /// Does what the words of a line say.
    pub(crate) fn play(&mut self, words: &[&str], page: &mut Page) {
        match word(words, 0) {
            "mailbox" => {
                drop(mem::replace(self, Mailing::new(page.alloc())));
                page.say("empty")
            }
            "retarget" => {
                match self
                    .mailbox
                    .retarget(anchor(word(words, 1)), number(words, 2))
                {
                    Ok(ticket) => {
                        self.drawn = ticket.saturating_add(1);
                        page.field("ticket ", ticket)
                    }
                    Err(error) => page.debug(&error),
                }
                page.end()
            }
            "take" => match self.mailbox.next() {
                Some((ticket, update)) => {
                    page.field("update ", ticket);
                    say_update(": ", update, page)
                }
                None => page.say("none waits"),
            },
            "respond" | "observed" | "poll" => self.play_sent(words, page),
            "update" => {
                let place = anchor(word(words, 1));
                say_update("", TipUpdate::new(place, number(words, 2)), page)
            }
            _ => page.say("no such command"),
        }
    }
}
