//! The plainest database.

use crate::named::Named;
use crate::sets::{Member, count};
use crate::tables::{self, Table};
use crate::words::{say_read, say_value, write};
use stateful_base::{OutOfMemory, Target};
use stateful_db::{DbCall, Held};
use stateful_db_plain::{Plain, PlainMedium, PlainMerkleized, PlainUnmerkleized};
use stateful_shell::{Page, number, word};
use std::alloc::Global;

/// A set of one of it.
pub(crate) type PlainTable = Table<Held<Plain>, PlainUnmerkleized, PlainMerkleized, Target>;

impl Member for Plain {
    fn empty(alloc: Global, failing: Vec<(DbCall, u64)>) -> PlainMedium {
        PlainMedium::empty(alloc, failing)
    }

    fn config() {}

    fn expected(target: Target) -> Target {
        target
    }

    fn push_open(&self, page: &mut Page) {
        push_kept(self.size(), self.durable(), self.pruned(), page);
        page.field(", out ", count(self.tokens()));
    }

    fn push_medium(medium: &PlainMedium, page: &mut Page) {
        push_kept(medium.end(), medium.durable(), medium.pruned(), page);
    }

    fn has_room(&self) -> bool {
        self.tokens().has_room()
    }
}

/// Which checkpoints are kept.
fn push_kept(end: u64, durable: u64, pruned: u64, page: &mut Page) {
    page.field(", end ", end);
    page.field(", durable ", durable);
    page.field(", pruned ", pruned);
}

/// `write B KEY=VALUE..`: the batch with these values.
fn put(open: &mut Named<PlainUnmerkleized>, words: &[&str], page: &mut Page) {
    let Some(mut batch) = open.take(word(words, 1)) else {
        return page.say("no such batch");
    };
    for at in 2..words.len() {
        let (key, value) = write(word(words, at));
        match batch.write(key, value) {
            Ok(next) => batch = next,
            Err(OutOfMemory) => return page.lack(),
        }
    }
    open.keep(word(words, 1), batch, page);
}

/// `get B KEY`: what an open batch has there.
fn get_in(table: &PlainTable, words: &[&str], page: &mut Page) {
    let Held::Here(database) = &table.set else {
        return page.say("StaleRead");
    };
    match table.open.get(word(words, 1)) {
        Some(batch) => say_read(page, batch.get(database, number(words, 2))),
        None => page.say("no such batch"),
    }
}

/// All that a database has, and its range.
fn say_entries(database: &Plain, page: &mut Page) {
    let range = database.range();
    page.number(range.start);
    page.field("..", range.end);
    page.field(" of ", database.size());
    page.push(":");
    for (key, value) in database.entries() {
        page.field(" ", *key);
        page.field("=", *value);
    }
    page.end();
}

/// `get KEY`, `entries`: what the database has.
fn read(set: &Held<Plain>, words: &[&str], page: &mut Page) {
    let Held::Here(database) = set else {
        return page.say("not here");
    };
    match word(words, 0) {
        "entries" => say_entries(database, page),
        _ => say_value(page, database.entries().get(&number(words, 1)).copied()),
    }
}

/// What a line says of a set of one.
pub(crate) fn play(table: &mut PlainTable, words: &[&str], page: &mut Page) {
    match word(words, 0) {
        "write" => put(&mut table.open, words, page),
        "get" if words.len() > 2 => get_in(table, words, page),
        "get" | "entries" => read(&table.set, words, page),
        _ => tables::play::<Held<Plain>>(table, words, page),
    }
}
