//! The log of values, kept from its floor on.

use crate::named::Named;
use crate::sets::Member;
use crate::tables::{self, Table};
use crate::words::{say_read, say_reads, say_value};
use stateful_base::{Location, OutOfMemory, Target};
use stateful_db::{DbCall, Held};
use stateful_db_keyless::{KeylessDb, KeylessMedium, KeylessMerkleized, KeylessUnmerkleized};
use stateful_db_log::Field;
use stateful_shell::{Page, number, word};
use std::alloc::Global;

/// The database, of numbers.
type Log = KeylessDb<u64>;

/// An open batch of it.
type Open = KeylessUnmerkleized<u64>;

/// A sealed one.
type Sealed = KeylessMerkleized<u64>;

/// A set of one of it.
pub(crate) type KeylessTable = Table<Held<Log>, Open, Sealed, Target>;

impl<V: Field> Member for KeylessDb<V> {
    fn empty(alloc: Global, failing: Vec<(DbCall, u64)>) -> KeylessMedium<V> {
        KeylessMedium::empty(alloc, failing)
    }

    fn config() {}

    fn expected(target: Target) -> Target {
        target
    }

    fn push_open(&self, page: &mut Page) {
        let range = self.range();
        page.field(", range ", range.start);
        page.field("..", range.end);
    }

    fn push_medium(_medium: &KeylessMedium<V>, _page: &mut Page) {}

    fn has_room(&self) -> bool {
        false
    }
}

/// `append B VALUE..`: the batch with these values behind the others.
fn append(open: &mut Named<Open>, words: &[&str], page: &mut Page) {
    let Some(mut batch) = open.take(word(words, 1)) else {
        return page.say("no such batch");
    };
    for at in 2..words.len() {
        match batch.append(number(words, at)) {
            Ok(next) => batch = next,
            Err(OutOfMemory) => return page.lack(),
        }
    }
    open.keep(word(words, 1), batch, page);
}

/// `metadata B VALUE`, `floor B LOCATION`: the batch with this metadata or inactivity floor.
fn with(open: &mut Named<Open>, words: &[&str], page: &mut Page) {
    let Some(batch) = open.take(word(words, 1)) else {
        return page.say("no such batch");
    };
    let given = number(words, 2);
    let batch = match word(words, 0) {
        "floor" => batch.with_inactivity_floor(Location(given)),
        _ => batch.with_metadata(given),
    };
    open.keep(word(words, 1), batch, page);
}

/// `get B LOCATION`: what a batch has there.
fn get_in(table: &KeylessTable, words: &[&str], page: &mut Page) {
    let Held::Here(database) = &table.set else {
        return page.say("not here");
    };
    let at = Location(number(words, 2));
    if let Some(batch) = table.open.get(word(words, 1)) {
        return say_read(page, batch.get(database, at));
    }
    match table.sealed.get(word(words, 1)) {
        Some(batch) => say_read(page, batch.get(database, at)),
        None => page.say("no such batch"),
    }
}

/// The locations from the third word on.
fn locations(alloc: Global, words: &[&str]) -> Result<Vec<Location>, OutOfMemory> {
    let mut locations = Vec::new(alloc);
    for at in 2..words.len() {
        locations.push(Location(number(words, at)))?;
    }
    Ok(locations)
}

/// `many B LOCATION..`: what a batch has there.
fn many_in(table: &KeylessTable, words: &[&str], page: &mut Page) {
    let Ok(all) = locations(page.alloc(), words) else {
        return page.lack();
    };
    let Held::Here(database) = &table.set else {
        return page.say("not here");
    };
    if let Some(batch) = table.open.get(word(words, 1)) {
        return say_reads(page, batch.get_many(database, all.as_slice()));
    }
    match table.sealed.get(word(words, 1)) {
        Some(batch) => say_reads(page, batch.get_many(database, all.as_slice())),
        None => page.say("no such batch"),
    }
}

/// `bounds B`: the floor of a sealed batch, and its end.
fn bounds(sealed: &Named<Sealed>, name: &str, page: &mut Page) {
    let Some(batch) = sealed.get(name) else {
        return page.say("no such batch");
    };
    let bounds = batch.bounds();
    page.number(bounds.inactivity_floor.0);
    page.field("..", bounds.size.0);
    page.end();
}

/// `get LOCATION`, `root`, `metadata`: what the database has.
fn read(set: &Held<Log>, words: &[&str], page: &mut Page) {
    let Held::Here(database) = set else {
        return page.say("not here");
    };
    match word(words, 0) {
        "get" => say_read(page, database.get(Location(number(words, 1)))),
        "root" => {
            page.hex(database.root().0.as_slice());
            page.end();
        }
        _ => say_value(page, database.get_metadata().copied()),
    }
}

/// What a line says that every set knows. The set is met here for fields of any kind.
fn play_set<V: Field>(
    table: &mut Table<Held<KeylessDb<V>>, KeylessUnmerkleized<V>, KeylessMerkleized<V>, Target>,
    words: &[&str],
    page: &mut Page,
) {
    tables::play::<Held<KeylessDb<V>>>(table, words, page);
}

/// What a line says of a set of one.
pub(crate) fn play(table: &mut KeylessTable, words: &[&str], page: &mut Page) {
    match word(words, 0) {
        "append" => append(&mut table.open, words, page),
        "metadata" | "floor" if words.len() > 1 => with(&mut table.open, words, page),
        "get" if words.len() > 2 => get_in(table, words, page),
        "many" => many_in(table, words, page),
        "bounds" => bounds(&table.sealed, word(words, 1), page),
        "get" | "root" | "metadata" => read(&table.set, words, page),
        _ => play_set(table, words, page),
    }
}
