//! The shell.

use crate::block::FakeBlock;
use crate::blocks::Blocks;
use crate::fake::Fake;
use crate::machine::Machine;
use stateful_shell::{Page, Shell, word};
use std::alloc::Global;

/// The blocks that were named, and execution, once it was opened.
#[derive(Drop)]
pub(crate) struct ExecShell {
    blocks: Blocks<FakeBlock>,
    machine: Option<Machine<Fake>>,
}

impl ExecShell {
    /// `open BLOCK`.
    fn open(&mut self, name: &str, page: &mut Page) {
        let Some(block) = self.blocks.find(name) else {
            return page.say("no such block");
        };
        match Machine::open(page.alloc(), block) {
            Ok(machine) => drop(self.machine.replace(machine)),
            Err(_) => page.lack(),
        }
        page.say("opened")
    }
}

impl Shell for ExecShell {
    fn new(alloc: Global) -> ExecShell {
        ExecShell {
            blocks: Blocks::new(alloc),
            machine: None,
        }
    }

    fn play(&mut self, words: &[&str], page: &mut Page) {
        match word(words, 0) {
            "block" => self.blocks.name(words, page),
            "open" => self.open(word(words, 1), page),
            _ => match &mut self.machine {
                Some(machine) => machine.play(&self.blocks, words, page),
                None => page.say("not open"),
            },
        }
    }

    fn end(&mut self, _page: &mut Page) {}
}
