//! Commands on a register of live work. main.rt has their table.

use crate::event::event_of;
use crate::letter::Letter;
use crate::mark::marks_of;
use crate::words::say_whether;
use stateful_actor_register::Register;
use stateful_history::{How, Mark};
use stateful_shell::{Page, index, word};
use std::alloc::Global;
use std::mem;

/// A register, a copy of it, and how many databases there are.
#[derive(Drop)]
pub(crate) struct Registers {
    register: Register,
    copy: Register,
    databases: usize,
}

impl Registers {
    /// The register of a new machine of so many databases.
    pub(crate) fn new(alloc: Global, databases: usize) -> Registers {
        Registers {
            register: Register::new(alloc),
            copy: Register::new(alloc),
            databases,
        }
    }
}

/// Records an event with its marks.
fn record(registers: &mut Registers, words: &[&str], page: &mut Page) {
    let Ok(marks) = marks_of(words, page) else {
        return page.lack();
    };
    let Some(event) = event_of(words, page) else {
        return;
    };
    let count = registers.databases;
    match registers.register.record(count, &event, marks.as_slice()) {
        Ok(()) => page.field("recorded ", marks.len() as u64),
        Err(_) => page.push("OutOfMemory"),
    }
    page.end();
    drop(event)
}

/// Prints the marks by which all live work ends.
fn ends(register: &Register, page: &mut Page) {
    let mut marks: Vec<Mark<Letter>> = Vec::new(page.alloc());
    page.note(register.end_all::<Letter, u64, u64>(&mut marks));
    for mark in &marks {
        match mark {
            Mark::Withdrawn { fetch } => page.field("withdrawn ", *fetch),
            Mark::Ended {
                job,
                how: How::Cancelled,
            } => page.field("cancelled ", *job),
            Mark::Declined { ticket } => page.field("declined ", *ticket),
            Mark::Dropped { ticket } => page.field("dropped ", *ticket),
            _ => page.push("something else"),
        }
        page.end();
    }
    page.field("ends ", marks.len() as u64);
    page.end()
}

/// Does what a line says to a register.
pub(crate) fn play(registers: &mut Registers, words: &[&str], page: &mut Page) {
    match word(words, 0) {
        "record" => record(registers, words, page),
        "allows" => {
            if let Some(event) = event_of(words, page) {
                say_whether(registers.register.allows(&event), page);
                drop(event)
            }
        }
        "ends" => ends(&registers.register, page),
        "copy" => match registers.register.share() {
            Ok(copy) => {
                drop(mem::replace(&mut registers.copy, copy));
                page.say("copied")
            }
            Err(_) => page.lack(),
        },
        "swap" => {
            mem::swap(&mut registers.register, &mut registers.copy);
            page.say("swapped")
        }
        "databases" => {
            registers.databases = index(words, 1);
            page.field("databases ", registers.databases as u64);
            page.end()
        }
        _ => page.say("no such command"),
    }
}
