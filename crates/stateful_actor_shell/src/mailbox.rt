//! Commands on a mailbox. main.rt has their table.

use crate::event::Told;
use crate::letter::{Letter, ancestry, block};
use crate::mark::marks_of;
use crate::words::letter;
use stateful_actor_mailbox::{Mailbox, Reply, Stopped};
use stateful_base::{Ancestry, Digested, Handoff, Moved};
use stateful_history::Event;
use stateful_shell::{Page, number, word};
use stateful_types::{DrawError, Feedback};

/// A mailbox over blocks of a letter, whose contexts and inputs are numbers.
pub(crate) type Letters = Mailbox<Letter, u64, u64>;

/// Prints what became of a message, and its ticket.
fn say_drawn(drawn: Result<(Feedback, u64), DrawError>, page: &mut Page) {
    match drawn {
        Ok((Feedback::Ok, ticket)) => page.field("ok ", ticket),
        Ok((Feedback::Backoff, ticket)) => page.field("backoff ", ticket),
        Ok((Feedback::Closed, ticket)) => page.field("closed ", ticket),
        Err(DrawError::Exhausted) => page.push("Exhausted"),
        Err(DrawError::OutOfMemory) => page.lack(),
    }
    page.end()
}

/// Tells the marks of a line.
fn answer(mailbox: &mut Letters, words: &[&str], page: &mut Page) {
    let Ok(marks) = marks_of(words, page) else {
        return page.lack();
    };
    page.note(mailbox.answer(marks.as_slice()));
    page.field("told ", marks.len() as u64);
    page.end()
}

/// Prints a word and the letter of a block.
fn push_letter(word: &str, block: &Digested<Letter>, page: &mut Page) {
    page.push(word);
    page.show(&char::from(block.inner().letter))
}

/// Prints what is asked to be built: its context, the block that it stands on, and the input.
fn push_build(context: u64, ancestry: &Ancestry<Letter>, input: u64, page: &mut Page) {
    page.field(" ", context);
    push_letter(" ", &ancestry.first, page);
    page.field(" ", input)
}

/// Prints an event.
fn say_event(event: &Told, page: &mut Page) {
    match event {
        Event::Prepare {
            ticket,
            context,
            ancestry,
            input,
        } => {
            page.field("prepare ", *ticket);
            push_build(*context, ancestry, *input, page)
        }
        Event::Propose {
            ticket,
            context,
            ancestry,
            input,
        } => {
            page.field("propose ", *ticket);
            push_build(*context, ancestry, *input, page)
        }
        Event::Verify { ticket, ancestry } => {
            page.field("verify ", *ticket);
            push_letter(" ", &ancestry.first, page)
        }
        Event::Finalized { ticket, block } => {
            page.field("finalized ", *ticket);
            push_letter(" ", block, page)
        }
        Event::Subscribe { ticket } => page.field("subscribe ", *ticket),
        Event::Cancel { ticket } => page.field("cancel ", *ticket),
        _ => page.push("something else"),
    }
    page.end()
}

/// Prints how a ticket has ended.
fn say_reply(reply: &Reply<Letter>, page: &mut Page) {
    match reply {
        Reply::Verdict(true) => page.push("valid"),
        Reply::Verdict(false) => page.push("not valid"),
        Reply::Prepared(Handoff::Wait) => page.push("wait"),
        Reply::Prepared(Handoff::Vote(block)) => push_letter("vote ", block, page),
        Reply::Prepared(Handoff::Stage(block)) => push_letter("stage ", block, page),
        Reply::Proposed(Some(block)) => push_letter("proposed ", block, page),
        Reply::Proposed(None) => page.push("not proposed"),
        Reply::Acknowledged => page.push("acknowledged"),
        Reply::Cancelled => page.push("cancelled"),
        Reply::Databases => page.push("databases"),
    }
    page.end()
}

/// Asks for something.
fn ask(mailbox: &mut Letters, words: &[&str], page: &mut Page) {
    let drawn = match word(words, 0) {
        "prepare" => {
            let Some(parent) = ancestry(letter(words, 2), page) else {
                return;
            };
            mailbox.prepare(number(words, 1), parent, number(words, 3))
        }
        "propose" => {
            let Some(parent) = ancestry(letter(words, 2), page) else {
                return;
            };
            mailbox.propose(number(words, 1), parent, number(words, 3))
        }
        "verify" => {
            let Some(asked) = ancestry(letter(words, 1), page) else {
                return;
            };
            mailbox.verify(asked)
        }
        "report" => {
            let Some(block) = block(letter(words, 1), page) else {
                return;
            };
            mailbox.report(block)
        }
        "subscribe" => mailbox.subscribe_databases(),
        _ => return page.say("no such command"),
    };
    say_drawn(drawn, page)
}

/// Does what a line says to a mailbox.
pub(crate) fn play(mailbox: &mut Letters, words: &[&str], page: &mut Page) {
    match word(words, 0) {
        "take" => match mailbox.take() {
            Some(event) => {
                say_event(&event, page);
                drop(event)
            }
            None => page.say("no event"),
        },
        "poll" => match mailbox.poll(number(words, 1)) {
            Err(Stopped) => page.say("Stopped"),
            Ok(Moved::Pending) => page.say("pending"),
            Ok(Moved::Done(reply)) => {
                say_reply(&reply, page);
                drop(reply)
            }
        },
        "cancel" => {
            mailbox.cancel(number(words, 1));
            page.say("done")
        }
        "answer" => answer(mailbox, words, page),
        _ => ask(mailbox, words, page),
    }
}
