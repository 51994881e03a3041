//! Commands on durability. main.rt has their table.

use crate::words::say_whether;
use stateful_base::Height;
use stateful_durability::Durability;
use stateful_shell::{Page, number, word};
use std::mem;

/// Prints the heights, the oldest barrier, and whether another may and has to begin.
fn show(durability: &Durability, page: &mut Page) {
    page.field("durable ", durability.durable_height().0);
    page.field(" of ", durability.applied_height().0);
    page.push(", next ");
    page.debug(&durability.oldest_barrier());
    page.push(", free ");
    page.show(&durability.is_free());
    page.push(", needs ");
    page.line(&durability.needs_barrier())
}

/// Begins anew, with blocks of heights 1 and 2, each with a barrier of its own and with its
/// receipt, 0 and 1, and then another receipt of height 1, 2.
fn twice(durability: &mut Durability, page: &mut Page) {
    let anew = Durability::new(page.alloc(), Height(0));
    drop(mem::replace(durability, anew));
    durability.applied(Height(1));
    durability.set_barrier(Height(1));
    if durability.record(Height(1), 0).is_err() {
        return page.lack();
    }
    durability.applied(Height(2));
    durability.set_barrier(Height(2));
    if durability.record(Height(2), 1).is_err() {
        return page.lack();
    }
    page.note(durability.record_duplicate(Height(1), 2))
}

/// The oldest barrier is over: prints the receipts that are released.
fn end(durability: &mut Durability, is_good: bool, page: &mut Page) {
    let Some(oldest) = durability.oldest_barrier() else {
        return page.say("refused");
    };
    let count = durability.complete(if is_good { Some(oldest) } else { None });
    page.number(count as u64);
    page.push(" of");
    while let Some((ticket, height)) = durability.released() {
        page.field(" ", height.0);
        page.field(":", ticket);
    }
    page.end();
    show(durability, page)
}

/// Does what a line says to durability. Behind a change it prints how it stands then.
pub(crate) fn play(durability: &mut Durability, words: &[&str], page: &mut Page) {
    let height = Height(number(words, 1));
    match word(words, 0) {
        "apply" => {
            if durability.applied_height() >= height {
                return page.say("refused");
            }
            durability.applied(height);
            if words.len() == 3 {
                page.note(durability.record(height, number(words, 2)));
            }
        }
        "again" => {
            if !durability.covers(height) {
                return page.say("refused");
            }
            page.note(durability.record_duplicate(height, number(words, 2)));
        }
        "twice" => twice(durability, page),
        "show" => {}
        "barrier" => {
            if !durability.needs_barrier() {
                return page.say("refused");
            }
            durability.set_barrier(durability.applied_height());
        }
        "end" => return end(durability, word(words, 1) == "good", page),
        "covers" => return say_whether(durability.covers(height), page),
        _ => return page.say("no such command"),
    }
    show(durability, page)
}
