//! A set with the batches over it, and the commands that every set knows.

ghost use Rattle.std.specs.Prelude.{IsTrue};

use crate::named::Named;
use crate::sets::Playable;
use crate::words::{push_value, say_both, say_done, say_failed, say_opened, say_refused, target};
use stateful_base::{OutOfMemory, Target};
use stateful_db::{Barrier, DatabaseSet, SetError, SetInit};
use stateful_shell::{Page, index, number, rest, word};
use std::alloc::Global;

/// A set, with open batches, sealed ones and targets by name.
#[derive(Drop)]
pub(crate) struct Table<S, U, M, T> {
    pub(crate) set: S,
    pub(crate) open: Named<U>,
    pub(crate) sealed: Named<M>,
    pub(crate) targets: Named<T>,
}

/// A set's own table.
pub(crate) type TableOf<S> = Table<
    S,
    <S as DatabaseSet>::Unmerkleized,
    <S as DatabaseSet>::Merkleized,
    <S as DatabaseSet>::SyncTargets,
>;

impl<S, U, M, T> Table<S, U, M, T> {
    /// A set without batches and targets.
    pub(crate) fn new(alloc: Global, set: S) -> Table<S, U, M, T> {
        Table {
            set,
            open: Named::new(alloc),
            sealed: Named::new(alloc),
            targets: Named::new(alloc),
        }
    }
}

/// `set KIND D:CALL:N..`: closed databases over empty media, at which these calls fail.
fn start<S: Playable>(table: &mut TableOf<S>, words: &[&str], page: &mut Page) {
    let alloc = page.alloc();
    match S::make(alloc, 0, words) {
        Ok(set) => *table = Table::new(alloc, set),
        Err(OutOfMemory) => page.lack(),
    }
}

/// `init`, `init T`: opens the closed and the lost databases, at these targets or at the latest.
fn init<S: Playable>(table: &mut TableOf<S>, words: &[&str], page: &mut Page) {
    let expected = match words.len() {
        1 => None,
        _ => match table.targets.get(word(words, 1)) {
            Some(targets) => Some(*targets),
            None => return page.say("no such targets"),
        },
    };
    say_opened(page, table.set.init(&S::config(), expected));
}

/// `targets T`, `initial T`, `target T B`: keeps what the databases hold, what empty media have, or
/// what a sealed batch leads to.
fn keep<S: Playable>(table: &mut TableOf<S>, words: &[&str], page: &mut Page) {
    let targets = match word(words, 0) {
        "initial" => S::initial_sync_targets(),
        "target" => match table.sealed.get(word(words, 2)) {
            Some(batch) => S::targets_of(batch),
            None => return page.say("no such batch"),
        },
        _ => match table.set.committed_targets() {
            Ok(targets) => targets,
            Err(lost) => return page.line(&lost),
        },
    };
    table.targets.keep(word(words, 1), targets, page);
    S::say_targets(&targets, 0, page);
}

/// `expect T D ROOT START END`: other targets at the database of this number.
fn expect<S: Playable>(table: &mut TableOf<S>, words: &[&str], page: &mut Page) {
    match table.targets.get_mut(word(words, 1)) {
        Some(targets) => S::expect(targets, number(words, 2), target(words, 3)),
        None => page.say("no such targets"),
    }
}

/// `operations T`: the sum of the ends of the ranges.
fn operations<S: Playable>(table: &TableOf<S>, name: &str, page: &mut Page) {
    match table.targets.get(name) {
        Some(targets) => page.line(&S::operations(targets)),
        None => page.say("no such targets"),
    }
}

/// `begin B`: a batch over the states.
fn begin<S: Playable>(table: &mut TableOf<S>, name: &str, page: &mut Page) {
    match table.set.new_batches() {
        Ok(batch) => table.open.put(name, batch, page),
        Err(error) => say_failed(page, error),
    }
}

/// `fork B P`: a batch over a sealed one.
fn fork<S: Playable>(table: &mut TableOf<S>, words: &[&str], page: &mut Page) {
    let Some(parent) = table.sealed.get(word(words, 2)) else {
        return page.say("no such batch");
    };
    match table.set.fork_batches(parent) {
        Ok(batch) => table.open.put(word(words, 1), batch, page),
        Err(error) => say_failed(page, error),
    }
}

/// `seal B`: seals a batch.
fn seal<S: Playable>(table: &mut TableOf<S>, name: &str, page: &mut Page) {
    let Some(batch) = table.open.take(name) else {
        return page.say("no such batch");
    };
    match table.set.seal(batch) {
        Ok(batch) => table.sealed.put(name, batch, page),
        Err(error) => say_refused(page, error),
    }
}

/// `share C B`: a batch that is equal to a sealed one.
fn share<S: Playable>(table: &mut TableOf<S>, words: &[&str], page: &mut Page) {
    let Some(batch) = table.sealed.get(word(words, 2)) else {
        return page.say("no such batch");
    };
    match S::share(batch) {
        Ok(copy) => table.sealed.put(word(words, 1), copy, page),
        Err(OutOfMemory) => page.lack(),
    }
}

/// `match B T`: whether a sealed batch leads to these targets, and else where it doesn't.
fn matches<S: Playable>(table: &TableOf<S>, words: &[&str], page: &mut Page) {
    let Some(batch) = table.sealed.get(word(words, 1)) else {
        return page.say("no such batch");
    };
    let Some(targets) = table.targets.get(word(words, 2)) else {
        return page.say("no such targets");
    };
    page.line(&S::matches_sync_targets(batch, targets));
    if let Some((number, expected, given)) = S::mismatch(batch, targets) {
        say_mismatch(page, number, &expected, &given);
    }
}

/// Prints the first target that differs.
fn say_mismatch(page: &mut Page, number: usize, expected: &Target, given: &Target) {
    page.show(&number);
    page.say(" differs");
    say_both(page, expected, given);
}

/// `apply B`: applies a sealed batch.
fn apply<S: Playable>(table: &mut TableOf<S>, name: &str, page: &mut Page) {
    match table.sealed.take(name) {
        Some(batch) => say_done(page, table.set.apply(batch)),
        None => page.say("no such batch"),
    }
}

/// `step`: applies a batch without changes.
fn step<S: Playable>(set: &mut S, page: &mut Page) {
    let batch = match set.new_batches() {
        Ok(batch) => batch,
        Err(error) => return say_failed(page, error),
    };
    match set.seal(batch) {
        Ok(batch) => say_done(page, set.apply(batch)),
        Err(error) => say_refused(page, error),
    }
}

/// `finalize`: starts persisting all checkpoints. Prints the places of the tokens.
fn finalize<S: Playable>(set: &mut S, page: &mut Page) {
    if !set.has_room() {
        return page.say("refused");
    }
    match set.finalize(page.alloc()) {
        Ok(barrier) => say_barrier(&barrier, S::count(), page),
        Err(error) => say_failed(page, error),
    }
}

/// Prints the places of so many tokens.
fn say_barrier(barrier: &Barrier, count: usize, page: &mut Page) {
    page.push("places");
    for number in 0..count {
        push_value(page, " ", barrier.handle(number).map(|token| token.place));
    }
    page.end();
}

/// `flush D`: starts persisting all checkpoints, and flushes those of the database of this number.
fn flush<S: Playable>(set: &mut S, database: usize, page: &mut Page) {
    match flush_at(set, page.alloc(), database) {
        Ok(true) => page.say("ok"),
        Ok(false) => page.say("refused"),
        Err(error) => say_failed(page, error),
    }
}

/// Starts persisting all checkpoints, and flushes those of the database of this number. Whether
/// that is one, and all are here with room for a token more.
fn flush_at<S: Playable>(set: &mut S, alloc: Global, database: usize) -> Result<bool, SetError> {
    if !set.is_here() {
        return Ok(false);
    }
    if !set.has_room() {
        return Ok(false);
    }
    if database >= S::count() {
        return Ok(false);
    }
    let barrier = set.finalize(alloc)?;
    match barrier.handle(database) {
        Some(token) => {
            set.flush(database, token)?;
            Ok(true)
        }
        None => Ok(false),
    }
}

/// Closes all databases by a crash that keeps so many checkpoints of each, if none is away.
fn close<S: Playable>(set: &mut S, keep: &[usize]) -> bool
    ensures { IsTrue result → S.kind.Openable (S.members set.new) }
{
    if !set.is_home() {
        return false;
    }
    let taken = set.take();
    *set = taken.crash(keep);
    true
}

/// `prune T`: closes all databases, opens them at the targets of this name, and prunes all older
/// checkpoints.
fn prune<S: Playable>(table: &mut TableOf<S>, name: &str, page: &mut Page) {
    let Some(targets) = table.targets.get(name) else {
        return page.say("no such targets");
    };
    if !close(&mut table.set, &[]) {
        return page.say("refused");
    }
    match prune_to(&mut table.set, targets) {
        Ok(outcome) => say_done(page, outcome),
        Err(refused) => say_opened(page, Err(refused)),
    }
}

/// Opens closed databases at these targets, and prunes all older checkpoints.
fn prune_to<S: Playable>(
    set: &mut S,
    targets: &S::SyncTargets,
) -> Result<Result<(), SetError>, SetInit>
    requires { S.kind.Openable (S.members set.old) }
{
    set.init(&S::config(), Some(*targets))?;
    Ok(set.prune(targets))
}

/// The numbers of checkpoints that a crash keeps.
fn kept(alloc: Global, words: &[&str]) -> Result<Vec<usize>, OutOfMemory> {
    let mut kept = Vec::new(alloc);
    for at in 1..words.len() {
        kept.push(index(words, at))?;
    }
    Ok(kept)
}

/// `crash KEEP..`: closes all databases, with so many checkpoints of each at least.
fn crash<S: Playable>(set: &mut S, words: &[&str], page: &mut Page) {
    match kept(page.alloc(), words) {
        Ok(kept) if close(set, kept.as_slice()) => {}
        Ok(_) => page.say("refused"),
        Err(OutOfMemory) => page.lack(),
    }
}

/// `faults`: how often each database has failed.
fn faults<S: Playable>(set: &S, page: &mut Page) {
    if !set.is_home() {
        return page.say("refused");
    }
    page.push("faults");
    for number in 0..S::count() {
        page.field(" ", set.faults(number));
    }
    page.end();
}

/// What a line says of the set.
fn play_set<S: Playable>(table: &mut TableOf<S>, words: &[&str], page: &mut Page) {
    match word(words, 0) {
        "set" => start(table, rest(words, 2), page),
        "init" => init(table, words, page),
        "show" => table.set.say_rows(0, page),
        "faults" => faults(&table.set, page),
        "step" => step(&mut table.set, page),
        "finalize" => finalize(&mut table.set, page),
        "flush" => flush(&mut table.set, index(words, 1), page),
        "prune" => prune(table, word(words, 1), page),
        "crash" => crash(&mut table.set, words, page),
        "take" => table.set.take().say_rows(0, page),
        _ => page.say("no such command"),
    }
}

/// What a line says that every set knows.
pub(crate) fn play<S: Playable>(table: &mut TableOf<S>, words: &[&str], page: &mut Page) {
    match word(words, 0) {
        "begin" => begin(table, word(words, 1), page),
        "fork" => fork(table, words, page),
        "seal" => seal(table, word(words, 1), page),
        "share" => share(table, words, page),
        "apply" => apply(table, word(words, 1), page),
        "targets" | "initial" | "target" => keep(table, words, page),
        "operations" => operations(table, word(words, 1), page),
        "match" => matches(table, words, page),
        "expect" => expect(table, words, page),
        _ => play_set(table, words, page),
    }
}
