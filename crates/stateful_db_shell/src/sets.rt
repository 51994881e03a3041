//! The sets that a shell plays on, and the databases in them.

use crate::words::{call, say_target, value};
use stateful_base::{Faulty, OutOfMemory, Target};
use stateful_db::{DatabaseSet, DbCall, Held, ManagedDb, Merkleized, Targeted, Tokens};
use stateful_shell::Page;
use std::alloc::Global;

/// What a word `DATABASE:CALL:NUMBER` says of the database of this number: the call by kind and by
/// number from 0 on, which fails.
fn failing_call(word: &str, database: u64) -> Option<(DbCall, u64)> {
    let (of, call_and_number) = word.split_once(':')?;
    let (kind, place) = call_and_number.split_once(':')?;
    if value(of)? == database {
        Some((call(kind)?, value(place)?))
    } else {
        None
    }
}

/// The calls of the database of this number that fail, as words say.
fn failing_calls(
    alloc: Global,
    database: u64,
    words: &[&str],
) -> Result<Vec<(DbCall, u64)>, OutOfMemory> {
    let mut calls = Vec::new(alloc);
    for word in words {
        if let Some(call) = failing_call(word, database) {
            calls.push(call)?;
        }
    }
    Ok(calls)
}

/// A database of a set.
pub(crate) trait Member: ManagedDb {
    ghost use Rattle.std.specs.Prelude.{IsTrue, ◌<◌, length};

    /// An empty medium, at which these calls fail.
    fn empty(alloc: Global, failing: Vec<(DbCall, u64)>) -> Self::Medium;

    fn config() -> Self::Config;

    /// What a block commits to, of a root with its range.
    fn expected(target: Target) -> Self::SyncTarget;

    /// Appends what is printed of an open database.
    fn push_open(&self, page: &mut Page);

    /// Appends what is printed of a medium.
    fn push_medium(medium: &Self::Medium, page: &mut Page);

    /// Whether a token more may be out at it, as far as it tells.
    fn has_room(&self) -> bool
        ensures { IsTrue result → length (Self.standing self.now).out < 2 };
}

/// How many tokens are out.
pub(crate) fn count(tokens: Tokens) -> u64 {
    let mut tokens = tokens;
    if !tokens.has_room() {
        return 2;
    }
    tokens.put(0);
    if tokens.has_room() { 0 } else { 1 }
}

/// A set that a shell plays on.
pub(crate) trait Playable: DatabaseSet + Drop {
    ghost use Rattle.std.specs.Prelude.{IsTrue};

    /// Closed databases over empty media, at which the calls of these words fail. The first one
    /// has this number.
    fn make(alloc: Global, first: u64, words: &[&str]) -> Result<Self, OutOfMemory>;

    fn config() -> Self::Config;

    /// Expects this target of the database of this number.
    fn expect(targets: &mut Self::SyncTargets, database: u64, target: Target);

    /// What a sealed batch leads to.
    fn targets_of(batch: &Self::Merkleized) -> Self::SyncTargets;

    /// An equal batch.
    fn share(batch: &Self::Merkleized) -> Result<Self::Merkleized, OutOfMemory>;

    /// Prints a line for each target. The first one has this number.
    fn say_targets(targets: &Self::SyncTargets, first: u64, page: &mut Page);

    /// Prints a line for each database. The first one has this number.
    fn say_rows(&self, first: u64, page: &mut Page);

    /// Whether every database is here and a token more may be out at it.
    fn has_room(&self) -> bool
        ensures { IsTrue result → Self.kind.HasRoom (Self.members self.now) };

    /// Whether no database is away.
    fn is_home(&self) -> bool
        ensures { IsTrue result → Self.kind.NoneAway (Self.members self.now) };
}

/// Prints the line of an open database.
fn say_open<D: Member>(database: &D, number: u64, page: &mut Page) {
    page.number(number);
    page.field(": here, faults ", database.faults());
    database.push_open(page);
    page.end();
}

/// Prints the line of a database that is its medium alone.
fn say_medium<D: Member>(medium: &D::Medium, number: u64, at: &str, page: &mut Page) {
    page.number(number);
    page.push(at);
    page.number(medium.faults());
    D::push_medium(medium, page);
    page.end();
}

/// Prints the line of a target.
fn say_target_at(target: &Target, number: u64, page: &mut Page) {
    page.number(number);
    page.push(": ");
    say_target(page, target);
}

impl<D: Member> Playable for Held<D> {
    fn make(alloc: Global, first: u64, words: &[&str]) -> Result<Self, OutOfMemory> {
        let calls = failing_calls(alloc, first, words)?;
        Ok(Held::Closed(D::empty(alloc, calls)))
    }

    fn config() -> D::Config {
        D::config()
    }

    fn expect(targets: &mut D::SyncTarget, database: u64, target: Target) {
        if database == 0 {
            *targets = D::expected(target);
        }
    }

    fn targets_of(batch: &D::Merkleized) -> D::SyncTarget {
        D::batch_target(batch)
    }

    fn share(batch: &D::Merkleized) -> Result<D::Merkleized, OutOfMemory> {
        batch.share()
    }

    fn say_targets(targets: &D::SyncTarget, first: u64, page: &mut Page) {
        say_target_at(&targets.target(), first, page);
    }

    fn say_rows(&self, first: u64, page: &mut Page) {
        match self {
            Held::Here(database) => say_open(database, first, page),
            Held::Closed(medium) => say_medium::<D>(medium, first, ": closed, faults ", page),
            Held::Lost(medium) => say_medium::<D>(medium, first, ": lost, faults ", page),
            Held::Away => {
                page.number(first);
                page.say(": away");
            }
        }
    }

    fn has_room(&self) -> bool {
        match self {
            Held::Here(database) => database.has_room(),
            _ => false,
        }
    }

    fn is_home(&self) -> bool {
        !matches!(self, Held::Away)
    }
}

impl<D: Member, R: Playable> Playable for (Held<D>, R) {
    fn make(alloc: Global, first: u64, words: &[&str]) -> Result<Self, OutOfMemory> {
        let one = Held::<D>::make(alloc, first, words)?;
        let others = R::make(alloc, first.saturating_add(1), words)?;
        Ok((one, others))
    }

    fn config() -> (D::Config, R::Config) {
        (D::config(), R::config())
    }

    fn expect(targets: &mut (D::SyncTarget, R::SyncTargets), database: u64, target: Target) {
        match database.checked_sub(1) {
            Some(behind) => R::expect(&mut targets.1, behind, target),
            None => targets.0 = D::expected(target),
        }
    }

    fn targets_of(batch: &(D::Merkleized, R::Merkleized)) -> (D::SyncTarget, R::SyncTargets) {
        (D::batch_target(&batch.0), R::targets_of(&batch.1))
    }

    fn share(
        batch: &(D::Merkleized, R::Merkleized),
    ) -> Result<(D::Merkleized, R::Merkleized), OutOfMemory> {
        let one = batch.0.share()?;
        let others = R::share(&batch.1)?;
        Ok((one, others))
    }

    fn say_targets(targets: &(D::SyncTarget, R::SyncTargets), first: u64, page: &mut Page) {
        say_target_at(&targets.0.target(), first, page);
        R::say_targets(&targets.1, first.saturating_add(1), page);
    }

    fn say_rows(&self, first: u64, page: &mut Page) {
        self.0.say_rows(first, page);
        self.1.say_rows(first.saturating_add(1), page);
    }

    fn has_room(&self) -> bool {
        self.0.has_room() && self.1.has_room()
    }

    fn is_home(&self) -> bool {
        self.0.is_home() && self.1.is_home()
    }
}
