//! A mailbox of a bounded size, with notes.

use crate::named::{Word, named};
use crate::words::{put, tell_feedback};
use stateful_shell::{Page, index, number};
use stateful_types::{Bounded, OutOfMemory, Policy, Predicate};
use std::collections::VecDeque;

/// A message, of which all are kept in order.
#[derive(Clone, Copy)]
pub(crate) struct Note(u64);

impl Policy for Note {
    ghost use Rattle.std.specs.Prelude.{◌++◌, ◌∷◌, []};

    type Overflow = VecDeque<Note>;

    ghost kept = { λ waiting note. waiting ++ note ∷ [] };

    fn handle(overflow: &mut VecDeque<Note>, message: Note) -> Result<(), OutOfMemory> {
        overflow.push_back(message)?;
        Ok(())
    }
}

/// That a note has this number.
#[derive(Drop)]
struct Is(u64);

impl Predicate<Note> for Is {
    ghost use Rattle.std.specs.Prelude.{◌==◌};

    ghost holds = { λ number note. note.0 == number.0 };

    fn holds(&self, note: &Note) -> bool {
        note.0 == self.0
    }
}

/// Notes on their way.
pub(crate) type Notes = Bounded<Note, VecDeque<Note>>;

/// `mailbox ..`
pub(crate) fn play(notes: &mut Option<Notes>, words: &[&str], page: &mut Page) {
    let command = named(words, 1);
    if let Word::New = command {
        let capacity = index(words, 2);
        if capacity == 0 {
            return page.push("refused");
        }
        put(notes, Bounded::new(page.alloc(), capacity), page);
        return page.push("empty");
    }
    let Some(notes) = notes else {
        return page.push("no mailbox");
    };
    match command {
        Word::Enqueue => tell_feedback(notes.enqueue(Note(number(words, 2))), page),
        Word::Receive => match notes.try_recv() {
            Some(Note(number)) => page.show(&number),
            None => page.push("none"),
        },
        Word::Retain => {
            notes.retain_waiting(&Is(number(words, 2)));
            page.push("retained")
        }
        Word::Close => {
            notes.close();
            page.push("closed")
        }
        _ => page.push("no such command"),
    }
}
