//! The machine over the counter, and what came of its events.

ghost use Rattle.std.specs.Prelude.{[], IfOk};
ghost use Rattle.stateful_loop_model.specs.Moments.{moment};
ghost use Rattle.stateful_actor_laws.specs.Machine.{IsNew};

use crate::counter::CounterShell;
use stateful_actor::{Application, Config, DatabaseSet, Driven, Halt, Halted, Stateful, drive};
use stateful_base::{Block, BlockStore, OutOfMemory};
use stateful_db::Held;
use stateful_db_plain::{Plain, PlainMedium};
use stateful_exec::Worked;
use stateful_history::{Entry, Event};
use stateful_script_text::{End, Label, transcript};
use stateful_shell::Page;
use stateful_simple_counter::Counter;
use std::alloc::Global;
use std::{mem, str};

/// The transcript of a history, which ended at an event that was refused, if one was.
fn text_of<B: Block, C, I>(
    alloc: Global,
    labels: &[Label],
    history: &[Entry<B, C, I>],
    halted: Option<Halted>,
) -> Result<Vec<u8>, OutOfMemory> {
    let Some(halted) = halted else {
        return transcript(alloc, labels, history, &[], End::Done);
    };
    let name = format!(in alloc; "{}", halted.error)?;
    let end = End::Halted {
        at: halted.at as u64,
        name: name.as_str(),
    };
    transcript(alloc, labels, history, &[], end)
}

/// Prints the transcript of what came of events.
fn show_text<A: Application + Drop>(
    labels: &[Label],
    driven: &Result<Driven<A>, Halt<A>>,
    page: &mut Page,
) {
    let (driven, halted) = match driven {
        Ok(driven) => (driven, None),
        Err(halt) => (&halt.driven, Some(halt.halted)),
    };
    match text_of(page.alloc(), labels, driven.history.as_slice(), halted) {
        Ok(text) => page.push(str::from_utf8(text.as_slice()).unwrap_or("no text\n")),
        Err(OutOfMemory) => page.lack(),
    }
}

/// The databases behind events.
fn databases_of<A: Application + Drop>(driven: Result<Driven<A>, Halt<A>>) -> A::Databases {
    let driven = match driven {
        Ok(driven) => driven,
        Err(halt) => halt.driven,
    };
    driven.databases
}

/// Prints the transcript of what came of events. The databases behind them.
fn told<A: Application + Drop>(
    labels: &[Label],
    driven: Result<Driven<A>, Halt<A>>,
    page: &mut Page,
) -> A::Databases {
    show_text(labels, &driven, page);
    databases_of(driven)
}

/// Gives events to a new machine, and prints the transcript of what came of them. The databases
/// behind them, or none for want of memory.
fn run<A: Application + Drop, S: BlockStore<A::Block>>(
    labels: &[Label],
    config: Config<A>,
    databases: A::Databases,
    store: &mut S,
    events: Vec<Event<A::Block, A::Context, A::Input>>,
    page: &mut Page,
) -> Option<A::Databases>
    requires { A.Databases.kind.NoneAway (A.Databases.members databases) }
{
    let alloc = page.alloc();
    match Stateful::new(alloc, config) {
        Ok(machine) => {
            let driven = drive(alloc, machine, databases, store, events);
            Some(told(labels, driven, page))
        }
        Err(_) => {
            page.lack();
            None
        }
    }
}

/// A closed database, on an empty medium.
fn empty_database(alloc: Global) -> Held<Plain>
    ensures { ⟦<Held<Plain> as DatabaseSet>⟧.kind.NoneAway
        (⟦<Held<Plain> as DatabaseSet>⟧.members result) }
{
    Held::Closed(PlainMedium::empty(alloc, Vec::new(alloc)))
}

/// Prints the count that the database holds.
fn show_count(databases: &Held<Plain>, page: &mut Page) {
    let count = match databases {
        Held::Here(database) => database.entries().get(&0).copied(),
        _ => None,
    };
    page.push("count ");
    page.debug(&count);
    page.end()
}

impl CounterShell {
    /// Gives all events to a new machine beside an empty database, and prints what came of it.
    pub(crate) fn drive_all(&mut self, page: &mut Page) {
        let alloc = page.alloc();
        let config = Config {
            application: Counter::new(alloc),
            db_config: (),
            provider: (),
        };
        let events = mem::replace(&mut self.events, Vec::new(alloc));
        let databases = empty_database(alloc);
        let labels = self.labels.as_slice();
        if let Some(databases) = run(labels, config, databases, &mut self.store, events, page) {
            show_count(&databases, page);
        }
    }
}
