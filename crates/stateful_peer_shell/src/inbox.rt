//! The mailbox of a probe.

use crate::named::{Word, named};
use crate::words::put;
use stateful_probe::{Event, Mailbox};
use stateful_shell::{Page, index};
use stateful_types::VoteScheme;

/// Subscriptions and attachments on their way.
pub(crate) type Inbox = Mailbox<VoteScheme>;

/// Prints an event that was taken out.
fn tell_taken(event: Option<&Event<u64>>, page: &mut Page) {
    match event {
        Some(Event::Subscribe { ticket }) => page.field("subscribe ", *ticket),
        Some(Event::Attach) => page.push("attach"),
        Some(_) => page.push("something else"),
        None => page.push("nothing"),
    }
}

/// `inbox ..`
pub(crate) fn play(inbox: &mut Option<Inbox>, words: &[&str], page: &mut Page) {
    let command = named(words, 1);
    if let Word::New = command {
        let capacity = index(words, 2);
        if capacity == 0 {
            return page.push("refused");
        }
        put(inbox, Mailbox::new(page.alloc(), capacity), page);
        return page.push("new");
    }
    let Some(inbox) = inbox else {
        return page.push("no inbox");
    };
    match command {
        Word::Subscribe => match inbox.subscribe() {
            Ok(ticket) => page.show(&ticket),
            Err(error) => page.show(&error),
        },
        Word::Attach => {
            page.note(inbox.attach());
            page.push("attached")
        }
        Word::Take => tell_taken(inbox.take().as_ref(), page),
        _ => page.push("no such command"),
    }
}
