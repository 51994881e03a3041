//! The cache: sealed batches of blocks above the anchor that aren't final yet.
//!
//! A block comes in by `insert`, once a run or a build of it ended with states. Execution inserts
//! it only where its parent is the anchor or cached (`Tables::keep` of `stateful_exec_tables`). So
//! each entry stands after its parent, and one pass over `entries` finds all descendants of a
//! block.
//!
//! Where a finalization begins, `descendants` tells which entries go on over its block. Once that
//! block is the anchor, `cut` hands its own batch out to be applied. It keeps the descendants of
//! later rounds, and drops all others.
//!
//! `places` is the index of `entries` by digests. `specs/Cut.antt` says what stays, and
//! `specs/Index.antt` that the index is right.

ghost use Rattle.std.specs.Prelude.{◌≡◌, ◌≢◌, ◌++◌, ◌∷◌, [], IfOk, IfErr, OnOk, OnErr, IsTrue, ◌↔◌};
ghost use Rattle.std.specs.Prelude.{◌⊎◌, Any, All, MatchOption, IfSome, IfNone, Contains};
ghost use Rattle.std.specs.Option.{option_copied};
ghost use Rattle.std.specs.BTreeSet.{keys};
ghost use Rattle.stateful_exec_cache.specs.Cut.{IsCutTo, IsRootOf, GoesOn, DescendsFrom, AreDescendants};

use stateful_base::{Anchor, Digest, OutOfMemory, Round};
use std::alloc::Global;
use std::collections::{BTreeMap, BTreeSet};
use std::marker::Model;

/// A block whose state is at hand, by its names, with the sealed batch that shows it.
#[derive(Drop)]
pub struct Cached<U> {
    pub digest: Digest,
    pub parent: Digest,
    pub round: Round,
    pub batch: U,
}

/// The cached blocks, each behind its parent, with an index by their digests.
#[derive(Drop)]
pub struct Cache<U> {
    entries: Vec<Cached<U>>,
    places: BTreeMap<Digest, usize>,
}

impl<U> Model for Cache<U> {
    ghost use Rattle.std.specs.Prelude.{List};
    ghost use Rattle.stateful_exec_cache.specs.Index.{IsIndex};
    ghost use Rattle.stateful_exec_cache.specs.declared.cache.Cached.{Cached};

    ghost Value = { List (Cached U) };

    ghost view = { λ c. c.entries.items };

    ghost invariant = { λ c. IsIndex c.entries.items c.places };
}

impl<U: Drop> Cache<U> {
    /// No cached blocks.
    pub fn new(alloc: Global) -> Cache<U>
        ensures { result ≡ [] }
    {
        Cache {
            entries: Vec::new(alloc),
            places: BTreeMap::new(alloc),
        }
    }

    /// The entry of this digest.
    pub fn find(&self, digest: Digest) -> Option<&Cached<U>>
        ensures found { IfSome (option_copied result) (λ e. Contains self.now e
            × (e.digest ≡ digest)) }
        ensures absent { IfNone result (All (λ e. e.digest ≢ digest) self.now) }
    {
        match self.places.get(&digest) {
            Some(place) => Some(&self.entries[*place]),
            None => None,
        }
    }

    /// Whether there is an entry of this digest.
    pub fn has(&self, digest: Digest) -> bool
        ensures { IsTrue result ↔ Any (λ e. e.digest ≡ digest) self.now }
    {
        self.find(digest).is_some()
    }

    /// One entry more.
    pub fn insert(&mut self, entry: Cached<U>) -> Result<(), OutOfMemory>
        ensures ok { OnOk result (self.new ≡ self.old ++ entry ∷ []) }
        ensures err { OnErr result (self.new ≡ self.old) }
    {
        self.entries.reserve(1)?;
        self.places.insert(entry.digest, self.entries.len())?;
        self.entries.push(entry)?;
        Ok(())
    }
}

/// Whether the entry is a child of the root, or of one of these.
fn is_behind<U: Drop>(root: Anchor, digests: &BTreeSet<Digest>, entry: &Cached<U>) -> bool
    ensures { IsTrue result ↔ ((entry.now.parent ≡ root.digest)
        ⊎ Contains (keys digests.now) entry.now.parent) }
{
    entry.parent.is(root.digest) || digests.contains(&entry.parent)
}

/// Whether the entry is another than the root, of a later round, and a child of the root or of one
/// of these.
fn descends<U: Drop>(root: Anchor, digests: &BTreeSet<Digest>, entry: &Cached<U>) -> bool
    ensures { IsTrue result ↔ DescendsFrom root (keys digests.now) entry.now }
{
    if entry.digest.is(root.digest) || !entry.round.is_later_than(root.round) {
        return false;
    }
    is_behind(root, digests, entry)
}

impl<U: Drop> Cache<U> {
    /// The digests of the root's descendants of later rounds.
    pub fn descendants(&self, alloc: Global, root: Anchor) -> Result<BTreeSet<Digest>, OutOfMemory>
        ensures { IfOk result (λ digests. AreDescendants root self.now (keys digests)) }
    {
        let mut digests = BTreeSet::new(alloc);
        for entry in &self.entries {
            if descends(root, &digests, entry) {
                digests.insert(entry.digest)?;
            }
        }
        Ok(digests)
    }
}

/// What stays of a cache where a block becomes the anchor, and the block's own batch.
#[derive(Drop)]
pub struct Cut<U> {
    pub root: Option<U>,
    pub kept: Cache<U>,
}

/// Whether the entry is a child of the root, or of one of these.
fn goes_on<U: Drop>(root: Anchor, kept: &Cache<U>, entry: &Cached<U>) -> bool
    ensures { IsTrue result ↔ GoesOn root kept.now entry.now }
{
    entry.parent.is(root.digest) || kept.has(entry.parent)
}

impl<U: Drop> Cache<U> {
    /// Keeps the root's descendants of later rounds, and takes the root's batch out.
    pub fn cut(self, alloc: Global, root: Anchor) -> Result<Cut<U>, OutOfMemory>
        ensures kept { IfOk result (λ cut. IsCutTo root self cut.kept) }
        ensures root { IfOk result (λ cut. MatchOption cut.root
            (All (λ e. e.digest ≢ root.digest) self) (λ batch. IsRootOf root self batch)) }
    {
        let Cache { entries, places: _ } = self;
        let mut cut = Cut {
            root: None,
            kept: Cache::new(alloc),
        };
        for entry in entries {
            if entry.digest.is(root.digest) {
                cut.root = Some(entry.batch);
            } else if entry.round.is_later_than(root.round) && goes_on(root, &cut.kept, &entry) {
                cut.kept.insert(entry)?;
            }
        }
        Ok(cut)
    }
}
