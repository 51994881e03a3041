//! The log of which the latest commit alone is kept.

use crate::named::Named;
use crate::sets::Member;
use crate::tables::{self, Table};
use crate::words::say_value;
use stateful_base::{CompactTarget, Location, OutOfMemory, Target};
use stateful_db::{DbCall, Held};
use stateful_db_keyless::{
    CompactDb, CompactMedium, KeylessUnjournaledMerkleized, KeylessUnjournaledUnmerkleized,
};
use stateful_db_log::Field;
use stateful_shell::{Page, number, word};
use std::alloc::Global;

/// The database, of numbers.
type Log = CompactDb<u64>;

/// An open batch of it.
type Open = KeylessUnjournaledUnmerkleized<u64>;

/// A sealed one.
type Sealed = KeylessUnjournaledMerkleized<u64>;

/// A set of one of it.
pub(crate) type CompactTable = Table<Held<Log>, Open, Sealed, CompactTarget>;

impl<V: Field> Member for CompactDb<V> {
    fn empty(alloc: Global, failing: Vec<(DbCall, u64)>) -> CompactMedium<V> {
        CompactMedium::empty(alloc, failing)
    }

    fn config() {}

    fn expected(target: Target) -> CompactTarget {
        CompactTarget {
            root: target.root,
            size: target.end,
        }
    }

    fn push_open(&self, page: &mut Page) {
        page.field(", size ", self.size());
    }

    fn push_medium(_medium: &CompactMedium<V>, _page: &mut Page) {}

    fn has_room(&self) -> bool {
        false
    }
}

/// `append B VALUE..`: the batch with these values behind the others.
fn append(open: &mut Named<Open>, words: &[&str], page: &mut Page) {
    let Some(mut batch) = open.take(word(words, 1)) else {
        return page.say("no such batch");
    };
    for at in 2..words.len() {
        match batch.append(number(words, at)) {
            Ok(next) => batch = next,
            Err(OutOfMemory) => return page.lack(),
        }
    }
    open.keep(word(words, 1), batch, page);
}

/// `metadata B VALUE`, `floor B LOCATION`: the batch with this metadata or inactivity floor.
fn with(open: &mut Named<Open>, words: &[&str], page: &mut Page) {
    let Some(batch) = open.take(word(words, 1)) else {
        return page.say("no such batch");
    };
    let given = number(words, 2);
    let batch = match word(words, 0) {
        "floor" => batch.with_inactivity_floor(Location(given)),
        _ => batch.with_metadata(given),
    };
    open.keep(word(words, 1), batch, page);
}

/// `bounds B`: the floor of a sealed batch, and its end.
fn bounds(sealed: &Named<Sealed>, name: &str, page: &mut Page) {
    let Some(batch) = sealed.get(name) else {
        return page.say("no such batch");
    };
    let bounds = batch.bounds();
    page.number(bounds.inactivity_floor.0);
    page.field("..", bounds.size.0);
    page.end();
}

/// `root`, `metadata`: of the latest commit.
fn read(set: &Held<Log>, words: &[&str], page: &mut Page) {
    let Held::Here(database) = set else {
        return page.say("not here");
    };
    match word(words, 0) {
        "root" => {
            page.hex(database.root().0.as_slice());
            page.end();
        }
        _ => say_value(page, database.get_metadata().copied()),
    }
}

/// What a line says that every set knows. The set is met here for fields of any kind.
fn play_set<V: Field>(
    table: &mut Table<
        Held<CompactDb<V>>,
        KeylessUnjournaledUnmerkleized<V>,
        KeylessUnjournaledMerkleized<V>,
        CompactTarget,
    >,
    words: &[&str],
    page: &mut Page,
) {
    tables::play::<Held<CompactDb<V>>>(table, words, page);
}

/// What a line says of a set of one.
pub(crate) fn play(table: &mut CompactTable, words: &[&str], page: &mut Page) {
    match word(words, 0) {
        "append" => append(&mut table.open, words, page),
        "metadata" | "floor" if words.len() > 1 => with(&mut table.open, words, page),
        "bounds" => bounds(&table.sealed, word(words, 1), page),
        "root" | "metadata" => read(&table.set, words, page),
        _ => play_set(table, words, page),
    }
}
