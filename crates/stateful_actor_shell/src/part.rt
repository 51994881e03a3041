//! The part that lines go to.

use crate::edge::Edge;
use crate::mailbox::Letters;
use crate::prunes::config_of;
use crate::register::Registers;
use crate::{durable, edge, mailbox, prunes, register};
use stateful_actor_mailbox::Mailbox;
use stateful_base::Height;
use stateful_durability::Durability;
use stateful_pruning::Pruning;
use stateful_shell::{Page, Shell, index, number, word};
use std::alloc::Global;
use std::mem;

/// A part of the machine.
#[derive(Drop)]
pub(crate) enum Part {
    Nothing,
    Mailbox(Letters),
    Register(Registers),
    Durability(Durability),
    Pruning(Pruning<u8>),
    Edge(Edge),
}

impl Part {
    /// Begins a part in place of the one before.
    fn begin(&mut self, begun: Part, page: &mut Page) {
        drop(mem::replace(self, begun));
        page.say("begun")
    }

    /// Begins a mailbox in which so many messages are ready at most.
    fn begin_mailbox(&mut self, capacity: usize, page: &mut Page) {
        if capacity == 0 {
            return page.say("refused");
        }
        match Mailbox::new(page.alloc(), capacity) {
            Ok(mailbox) => self.begin(Part::Mailbox(mailbox), page),
            Err(_) => page.lack(),
        }
    }

    /// Begins pruning.
    fn begin_pruning(&mut self, words: &[&str], page: &mut Page) {
        let Some(config) = config_of(words) else {
            return page.say("refused");
        };
        match Pruning::new(page.alloc(), config, index(words, 5), number(words, 6)) {
            Ok(pruning) => self.begin(Part::Pruning(pruning), page),
            Err(error) => page.line(&error),
        }
    }
}

impl Shell for Part {
    fn new(_alloc: Global) -> Part {
        Part::Nothing
    }

    fn play(&mut self, words: &[&str], page: &mut Page) {
        match word(words, 0) {
            "mailbox" => self.begin_mailbox(index(words, 1), page),
            "register" => {
                let registers = Registers::new(page.alloc(), index(words, 1));
                self.begin(Part::Register(registers), page)
            }
            "durability" => {
                let durability = Durability::new(page.alloc(), Height(number(words, 1)));
                self.begin(Part::Durability(durability), page)
            }
            "pruning" => self.begin_pruning(words, page),
            "edge" => self.begin(Part::Edge(Edge::new()), page),
            _ => match self {
                Part::Mailbox(mailbox) => mailbox::play(mailbox, words, page),
                Part::Register(registers) => register::play(registers, words, page),
                Part::Durability(durability) => durable::play(durability, words, page),
                Part::Pruning(pruning) => prunes::play(pruning, words, page),
                Part::Edge(edge) => edge::play(edge, words, page),
                Part::Nothing => page.say("no such command"),
            },
        }
    }

    fn end(&mut self, _page: &mut Page) {}
}
