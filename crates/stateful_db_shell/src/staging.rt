//! Batches whose keys are staged.

use crate::on_any::AnyTable;
use crate::words::{numbers, say_refused, say_values, write};
use stateful_base::OutOfMemory;
use stateful_db::Held;
use stateful_db_any::{AnyStaged, Slot};
use stateful_shell::{Page, number, word};
use std::alloc::Global;

/// A batch, and its staged keys.
pub(crate) type Staging = AnyStaged<u64, u64>;

/// `stage B KEY..`: reads keys of an open batch, and stages them.
fn stage(table: &mut AnyTable, kept: &mut Option<Staging>, words: &[&str], page: &mut Page) {
    let Ok(keys) = numbers(page.alloc(), words, 2) else {
        return page.lack();
    };
    let Some(batch) = table.open.take(word(words, 1)) else {
        return page.say("no such batch");
    };
    let Held::Here(database) = &table.set else {
        return page.say("not here");
    };
    match batch.stage(database, keys.as_slice()) {
        Ok((values, staged)) => {
            *kept = Some(staged);
            say_values(page, values.as_slice());
        }
        Err(error) => say_refused(page, error),
    }
}

/// `expand KEY..`: reads more keys, and stages them behind the others.
fn expand(table: &AnyTable, kept: &mut Option<Staging>, words: &[&str], page: &mut Page) {
    let Ok(keys) = numbers(page.alloc(), words, 1) else {
        return page.lack();
    };
    let Some(staged) = kept.take() else {
        return page.say("nothing is staged");
    };
    let Held::Here(database) = &table.set else {
        return page.say("not here");
    };
    match staged.expand(database, keys.as_slice()) {
        Ok((range, values, staged)) => {
            *kept = Some(staged);
            page.show(&range.start);
            page.push("..");
            page.show(&range.end);
            page.push(" ");
            say_values(page, values.as_slice());
        }
        Err(error) => say_refused(page, error),
    }
}

/// `staged`, `staged VALUE`: how many keys are staged; the batch with this metadata.
fn show(kept: &mut Option<Staging>, words: &[&str], page: &mut Page) {
    let Some(staged) = kept.take() else {
        return page.say("nothing is staged");
    };
    if words.len() > 1 {
        *kept = Some(staged.with_metadata(number(words, 1)));
        return;
    }
    if staged.is_empty() {
        page.say("no keys");
    } else {
        page.line(&staged.len());
    }
    *kept = Some(staged);
}

/// What becomes of the staged keys, and the writes beside them.
#[derive(Drop)]
struct Filling {
    slots: Vec<Slot<u64>>,
    unstaged: Vec<(u64, Option<u64>)>,
}

/// A slot: a number, `none` or `keep`.
fn slot(word: &str) -> Slot<u64> {
    match word.parse::<u64>() {
        Ok(value) => Slot::Put(value),
        Err(_) if word == "none" => Slot::Delete,
        Err(_) => Slot::Keep,
    }
}

/// Slots, and writes `KEY=VALUE`.
fn fill(alloc: Global, words: &[&str]) -> Result<Filling, OutOfMemory> {
    let mut slots = Vec::new(alloc);
    let mut unstaged = Vec::new(alloc);
    for at in 2..words.len() {
        let word = word(words, at);
        if word.contains('=') {
            unstaged.push(write(word))?;
        } else {
            slots.push(slot(word))?;
        }
    }
    Ok(Filling { slots, unstaged })
}

/// `finish B SLOT.. KEY=VALUE..`: seals it with slots for the staged keys and with other writes.
fn finish(table: &mut AnyTable, kept: &mut Option<Staging>, words: &[&str], page: &mut Page) {
    let Ok(Filling { slots, unstaged }) = fill(page.alloc(), words) else {
        return page.lack();
    };
    let Some(staged) = kept.take() else {
        return page.say("nothing is staged");
    };
    let Held::Here(database) = &table.set else {
        return page.say("not here");
    };
    match staged.merkleize(database, slots, unstaged) {
        Ok(batch) => table.sealed.put(word(words, 1), batch, page),
        Err(error) => say_refused(page, error),
    }
}

/// What a line says of staged keys.
pub(crate) fn play(
    table: &mut AnyTable,
    kept: &mut Option<Staging>,
    words: &[&str],
    page: &mut Page,
) {
    match word(words, 0) {
        "stage" => stage(table, kept, words, page),
        "expand" => expand(table, kept, words, page),
        "staged" => show(kept, words, page),
        _ => finish(table, kept, words, page),
    }
}
