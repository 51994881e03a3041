//! A coordinator of several databases.

ghost use Rattle.std.specs.Prelude.{◌≤◌, length};

use crate::shown::push_place;
use crate::words::anchor;
use stateful_shell::{Page, index, number, word};
use stateful_sync::{CoordinatorAction, CoordinatorState};

/// A coordinator, and how many databases it was made for.
#[derive(Drop)]
pub(crate) struct Coordinated {
    state: CoordinatorState<u64>,
    count: usize,
    ghost counted: { count ≤ length state.databases },
}

impl Coordinated {
    /// What is to be done next. With the word `same`, the database of the third word has the same
    /// target in what is dispatched.
    fn next(&mut self, words: &[&str], page: &mut Page) {
        let is_same = word(words, 1) == "same";
        let database = index(words, 2);
        if is_same && database >= self.count {
            return page.say("refused");
        }
        let Ok(action) = self.state.next_action() else {
            return page.say("Exhausted");
        };
        match action {
            CoordinatorAction::Wait => page.push("wait"),
            CoordinatorAction::Dispatch {
                generation,
                anchor,
                targets,
            } => {
                if is_same && database < self.count {
                    self.state.mark_reached_same_target(database, generation);
                }
                page.field("dispatch ", generation);
                push_place(": ", anchor, page);
                page.field(", targets ", targets)
            }
            CoordinatorAction::Converged { anchor, targets } => {
                push_place("converged: ", anchor, page);
                page.field(", targets ", targets)
            }
        }
        self.say_seeking("", page)
    }

    /// Prints a word, and which databases seek, to which a dispatch goes, and which are there.
    fn say_seeking(&self, word: &str, page: &mut Page) {
        page.push(word);
        for database in 0..self.count {
            page.field("; ", database as u64);
            page.push(if self.state.should_dispatch(database) {
                " seeks"
            } else {
                " is there"
            });
        }
        page.end()
    }
}

/// Makes a coordinator.
pub(crate) fn coordinate(made: &mut Option<Coordinated>, words: &[&str], page: &mut Page) {
    let count = index(words, 1);
    if count == 0 {
        return page.say("refused");
    }
    let place = anchor(word(words, 2));
    let Ok(state) = CoordinatorState::new(page.alloc(), count, place, number(words, 3)) else {
        return page.lack();
    };
    let made = made.insert(Coordinated { state, count });
    made.say_seeking("made", page)
}

/// Does what the words of a line say of the coordinator, once one was made.
pub(crate) fn play(made: &mut Option<Coordinated>, words: &[&str], page: &mut Page) {
    let Some(made) = made else {
        return page.say("no coordinator");
    };
    match word(words, 0) {
        "reached" => {
            let database = index(words, 1);
            if database >= made.count {
                return page.say("refused");
            }
            made.state.record_reached(database, number(words, 2));
        }
        "tip" => made
            .state
            .record_tip_update(anchor(word(words, 1)), number(words, 2)),
        _ => return made.next(words, page),
    }
    made.say_seeking("noted", page)
}
