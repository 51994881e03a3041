//! The map that is kept as a log.

use crate::named::Named;
use crate::sets::Member;
use crate::staging::{self, Staging};
use crate::tables::{self, Table};
use crate::words::{numbers, say_read, say_reads, say_value, write};
use stateful_base::{OutOfMemory, Target};
use stateful_db::{DbCall, Held};
use stateful_db_any::{AnyDb, AnyMedium, AnyMerkleized, AnyUnmerkleized};
use stateful_db_log::Field;
use stateful_shell::{Page, number, word};
use std::alloc::Global;

/// The database, from numbers to numbers.
pub(crate) type Map = AnyDb<u64, u64>;

/// An open batch of it.
pub(crate) type Open = AnyUnmerkleized<u64, u64>;

/// A sealed one.
pub(crate) type Sealed = AnyMerkleized<u64, u64>;

/// A set of one of it.
pub(crate) type AnyTable = Table<Held<Map>, Open, Sealed, Target>;

impl<K: Field, V: Field> Member for AnyDb<K, V> {
    fn empty(alloc: Global, failing: Vec<(DbCall, u64)>) -> AnyMedium<K, V> {
        AnyMedium::empty(alloc, failing)
    }

    fn config() {}

    fn expected(target: Target) -> Target {
        target
    }

    fn push_open(&self, page: &mut Page) {
        let range = self.range();
        page.field(", range ", range.start);
        page.field("..", range.end);
    }

    fn push_medium(_medium: &AnyMedium<K, V>, _page: &mut Page) {}

    fn has_room(&self) -> bool {
        false
    }
}

/// `write B KEY=VALUE..`: the batch with these values.
fn put(open: &mut Named<Open>, words: &[&str], page: &mut Page) {
    let Some(mut batch) = open.take(word(words, 1)) else {
        return page.say("no such batch");
    };
    for at in 2..words.len() {
        let (key, value) = write(word(words, at));
        match batch.write(key, value) {
            Ok(next) => batch = next,
            Err(OutOfMemory) => return page.lack(),
        }
    }
    open.keep(word(words, 1), batch, page);
}

/// `metadata B VALUE`: the batch with this metadata.
fn with(open: &mut Named<Open>, words: &[&str], page: &mut Page) {
    match open.take(word(words, 1)) {
        Some(batch) => open.keep(word(words, 1), batch.with_metadata(number(words, 2)), page),
        None => page.say("no such batch"),
    }
}

/// `get B KEY`: what a batch has there.
fn get_in(table: &AnyTable, words: &[&str], page: &mut Page) {
    let Held::Here(database) = &table.set else {
        return page.say("not here");
    };
    let key = number(words, 2);
    if let Some(batch) = table.open.get(word(words, 1)) {
        return say_read(page, batch.get(database, &key));
    }
    match table.sealed.get(word(words, 1)) {
        Some(batch) => say_read(page, batch.get(database, &key)),
        None => page.say("no such batch"),
    }
}

/// `many B KEY..`: what a batch has there.
fn many_in(table: &AnyTable, words: &[&str], page: &mut Page) {
    let Ok(keys) = numbers(page.alloc(), words, 2) else {
        return page.lack();
    };
    let Held::Here(database) = &table.set else {
        return page.say("not here");
    };
    if let Some(batch) = table.open.get(word(words, 1)) {
        return say_reads(page, batch.get_many(database, keys.as_slice()));
    }
    match table.sealed.get(word(words, 1)) {
        Some(batch) => say_reads(page, batch.get_many(database, keys.as_slice())),
        None => page.say("no such batch"),
    }
}

/// `bounds B`: the range and the depth of a sealed batch.
fn bounds(sealed: &Named<Sealed>, name: &str, page: &mut Page) {
    let Some(batch) = sealed.get(name) else {
        return page.say("no such batch");
    };
    let bounds = batch.bounds();
    page.number(bounds.inactivity_floor.0);
    page.field("..", bounds.size.0);
    page.push(", depth ");
    page.line(&batch.depth());
}

/// All that a database has, and its range.
fn say_entries(database: &Map, page: &mut Page) {
    let range = database.range();
    let Ok(entries) = database.entries(page.alloc()) else {
        return page.lack();
    };
    page.number(range.start);
    page.field("..", range.end);
    page.push(":");
    for (key, value) in entries.as_slice() {
        page.field(" ", *key);
        page.field("=", *value);
    }
    page.end();
}

/// `get KEY`, `entries`, `root`, `metadata`: what the database has.
fn read(set: &Held<Map>, words: &[&str], page: &mut Page) {
    let Held::Here(database) = set else {
        return page.say("not here");
    };
    match word(words, 0) {
        "get" => say_read(page, database.get(&number(words, 1))),
        "entries" => say_entries(database, page),
        "root" => {
            page.hex(database.root().0.as_slice());
            page.end();
        }
        _ => say_value(page, database.get_metadata().copied()),
    }
}

/// What a line says that every set knows. The set is met here for fields of any kind: its laws at
/// numbers would be spelled out where it is met at numbers.
fn play_set<K: Field, V: Field>(
    table: &mut Table<Held<AnyDb<K, V>>, AnyUnmerkleized<K, V>, AnyMerkleized<K, V>, Target>,
    words: &[&str],
    page: &mut Page,
) {
    tables::play::<Held<AnyDb<K, V>>>(table, words, page);
}

/// What a line says of a set of one.
pub(crate) fn play(
    table: &mut AnyTable,
    staging: &mut Option<Staging>,
    words: &[&str],
    page: &mut Page,
) {
    match word(words, 0) {
        "write" => put(&mut table.open, words, page),
        "metadata" if words.len() > 1 => with(&mut table.open, words, page),
        "get" if words.len() > 2 => get_in(table, words, page),
        "many" => many_in(table, words, page),
        "bounds" => bounds(&table.sealed, word(words, 1), page),
        "get" | "entries" | "root" | "metadata" => read(&table.set, words, page),
        "stage" | "expand" | "staged" | "finish" => staging::play(table, staging, words, page),
        command => {
            if command == "set" {
                *staging = None;
            }
            play_set(table, words, page);
        }
    }
}
