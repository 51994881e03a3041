//! What an engine hands to a resolver, on its way.

use crate::named::{Word, named};
use crate::words::{bytes, put, request, show_bytes, show_request, tell_drawn};
use stateful_p2p::{ActorEvent, Handler};
use stateful_shell::{Page, index, number};

/// Prints an event that was handed out.
fn tell_taken(event: Option<&ActorEvent>, page: &mut Page) {
    match event {
        Some(
            ActorEvent::Deliver {
                delivery,
                key,
                value,
            },
        ) => {
            page.field("delivery ", *delivery);
            show_request(" ", *key, page);
            show_bytes(" ", value.as_slice(), page)
        }
        Some(ActorEvent::Produce { serve, key }) => {
            page.field("production ", *serve);
            show_request(" ", *key, page)
        }
        Some(_) => page.push("something else"),
        None => page.push("nothing"),
    }
}

/// `handler ..`
pub(crate) fn play(handler: &mut Option<Handler>, words: &[&str], page: &mut Page) {
    let command = named(words, 1);
    if let Word::New = command {
        let capacity = index(words, 2);
        if capacity == 0 {
            return page.push("refused");
        }
        put(handler, Handler::new(page.alloc(), capacity), page);
        return page.push("new");
    }
    let Some(handler) = handler else {
        return page.push("no handler");
    };
    match command {
        Word::Deliver => {
            let value = bytes(words, 3, page);
            tell_drawn(handler.deliver(request(words, 2), value), page)
        }
        Word::Produce => tell_drawn(handler.produce(request(words, 2)), page),
        Word::Cancel => {
            handler.cancel(number(words, 2));
            page.push("cancelled")
        }
        Word::Take => tell_taken(handler.take().as_ref(), page),
        _ => page.push("no such command"),
    }
}
