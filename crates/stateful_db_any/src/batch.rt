//! Batches over a database of keys.

ghost use Rattle.std.specs.Prelude.{◌≡◌, ◌≢◌, ◌==◌, Bool, ◌||◌, ◌∷◌, [], ◌-◌, ◌^◌, ◌<◌, ◌≤◌, ◌↔◌};
ghost use Rattle.std.specs.Prelude.{ℕ, List, Option, Some, None, IfOk, IfErr, IsErrOf, false};
ghost use Rattle.std.specs.Prelude.{length, map};
ghost use Rattle.std.specs.BTreeMap.{insert_entry};
ghost use Rattle.stateful_db.specs.Batch.{RefusesSeal};
ghost use Rattle.stateful_db.specs.Chain.{has_id, IsPoint};
ghost use Rattle.stateful_db.specs.Disk.{point};
ghost use Rattle.stateful_db_any.specs.Any.{State, size_of, value_at, ops_for};
ghost use Rattle.stateful_db_any.specs.Shown.{DraftShows, SealShows};
ghost use Rattle.stateful_db_any.specs.Stored.{standing_of};

use crate::changes::AnyChanges;
use crate::database::AnyDb;
use crate::op::duplicate;
use crate::reads::value_in;
use crate::seal::{first_kept, write_all};
use crate::state::AnyState;
use stateful_base::{Digest, Location, OutOfMemory, Target};
use stateful_db::{BatchError, Merkleized, Unmerkleized};
use stateful_db_log::{Field, link_each};
use stateful_db_overlay::{Layer, Layers};
use std::collections::BTreeMap;
use std::marker::Model;

/// A batch that may still change: its id, the layers below it, the root of its parent with its
/// range, its writes by key, and the metadata of its commit.
#[derive(Drop)]
pub struct AnyUnmerkleized<K: Ord, V> {
    pub(crate) id: u64,
    pub(crate) below: Layers<AnyChanges<K, V>>,
    pub(crate) parent: Target,
    pub(crate) writes: BTreeMap<K, Option<V>>,
    pub(crate) metadata: Option<V>,
}

impl<K: Ord, V> Model for AnyUnmerkleized<K, V> {
    ghost use Rattle.std.specs.List.Sorted.{IsStrictlySortedBy};
    ghost use Rattle.std.specs.Map.{keys_of};
    ghost use Rattle.stateful_db_any.specs.Shown.{Draft};

    ghost Value = { Draft K V };

    ghost view = { λ a. record {
      id = a.id;
      below = a.below;
      parent = a.parent;
      changes = record { writes = a.writes.entries; metadata = a.metadata };
    } };

    ghost invariant = { λ a. IsStrictlySortedBy K.cmp (keys_of a.writes.entries) };
}

/// A sealed batch: its own changes with its id, and the layers below it.
#[derive(Drop)]
pub struct AnyMerkleized<K: Ord, V> {
    pub(crate) layer: Layer<AnyChanges<K, V>>,
    pub(crate) below: Layers<AnyChanges<K, V>>,
}

impl<K: Ord, V> Model for AnyMerkleized<K, V> {
    ghost use Rattle.stateful_db_any.specs.Shown.{Seal};

    ghost Value = { Seal K V };

    ghost view = { λ a. record { layer = a.layer; below = a.below } };
}

impl<K: Field, V: Field> AnyUnmerkleized<K, V> {
    /// The batch with this metadata for its commit.
    pub fn with_metadata(self, metadata: V) -> AnyUnmerkleized<K, V>
        ensures { result
            ≡ record self { changes = record self.changes { metadata = Some metadata } } }
    {
        let mut batch = self;
        batch.metadata = Some(metadata);
        batch
    }

    /// The batch with this value at the key, or with none.
    pub fn write(self, key: K, value: Option<V>) -> Result<AnyUnmerkleized<K, V>, OutOfMemory>
        ensures { IfOk result (λ u. u ≡ record self {
          changes = record self.changes {
            writes = insert_entry K.cmp self.changes.writes key value;
          };
        }) }
    {
        let mut batch = self;
        batch.writes.insert(key, value)?;
        Ok(batch)
    }

    /// Whether the database where the batch of this id was applied last is at a state of its chain.
    pub(crate) fn stands_on(&self, at: u64) -> bool
        ensures { (c : List (ℕ × State K V))
            → DraftShows K.cmp K.fields.spelling V.fields.spelling self.now c
            → has_id c at ≡ result }
    {
        let inside = self.below.has(at);
        self.id == at || inside
    }

    /// The value at a key. `StaleRead` exactly where the database is at no state of the batch's
    /// chain.
    pub fn get(&self, db: &AnyDb<K, V>, key: &K) -> Result<Option<V>, BatchError>
        ensures value { IfOk result (λ value. (p : ℕ × State K V) (c : List (ℕ × State K V))
            → DraftShows K.cmp K.fields.spelling V.fields.spelling self.now (p ∷ c)
            → IsPoint (point (standing_of db.now)) (p ∷ c)
            → value ≡ value_at K.cmp p.1 key.now) }
        ensures stale { (c : List (ℕ × State K V))
            → DraftShows K.cmp K.fields.spelling V.fields.spelling self.now c
            → (IsErrOf result BatchError.StaleRead ↔ (has_id c (standing_of db.now).id ≡ false)) }
        ensures within { IsErrOf result BatchError.Exhausted → ⊥ }
    {
        let at = db.log.id();
        if !self.stands_on(at) {
            return Err(BatchError::StaleRead);
        }
        match self.writes.get(key) {
            Some(value) => match duplicate(value) {
                Ok(value) => Ok(value),
                Err(_) => Err(BatchError::OutOfMemory),
            },
            None if self.id == at => match db.get(key) {
                Ok(value) => Ok(value),
                Err(_) => Err(BatchError::OutOfMemory),
            },
            None => match value_in(self.below.above(at), db, key) {
                Ok(value) => Ok(value),
                Err(_) => Err(BatchError::OutOfMemory),
            },
        }
    }

    /// The values at these keys, in their order. `StaleRead` exactly where the database is at no
    /// state of the batch's chain.
    pub fn get_many(&self, db: &AnyDb<K, V>, keys: &[K]) -> Result<Vec<Option<V>>, BatchError>
        ensures value { IfOk result (λ values. (p : ℕ × State K V) (c : List (ℕ × State K V))
            → DraftShows K.cmp K.fields.spelling V.fields.spelling self.now (p ∷ c)
            → IsPoint (point (standing_of db.now)) (p ∷ c)
            → values.items ≡ map (λ key. value_at K.cmp p.1 key) keys.now) }
        ensures stale { (c : List (ℕ × State K V))
            → DraftShows K.cmp K.fields.spelling V.fields.spelling self.now c
            → (IsErrOf result BatchError.StaleRead ↔ (has_id c (standing_of db.now).id ≡ false)) }
        ensures within { IsErrOf result BatchError.Exhausted → ⊥ }
    {
        let at = db.log.id();
        if !self.stands_on(at) {
            return Err(BatchError::StaleRead);
        }
        let mut values = Vec::new(db.log.allocator());
        for key in keys {
            let value = self.get(db, key)?;
            values.push(value)?;
        }
        Ok(values)
    }

    /// The seal, over a database that isn't at the seal's own state yet.
    fn seal(self, db: &AnyDb<K, V>) -> Result<AnyMerkleized<K, V>, BatchError>
        requires { self.id ≢ (standing_of db.now).id }
        ensures ok { IfOk result (λ m. (c : List (ℕ × State K V))
            → DraftShows K.cmp K.fields.spelling V.fields.spelling self c
            → IsPoint (point (standing_of db.now)) c
            → SealShows K.cmp K.fields.spelling V.fields.spelling m c) }
        ensures fresh { IsErrOf result BatchError.StaleRead → ⊥ }
        ensures exhausted { (p : ℕ × State K V) (c : List (ℕ × State K V))
            → DraftShows K.cmp K.fields.spelling V.fields.spelling self (p ∷ c)
            → IsErrOf result BatchError.Exhausted
            → 2 ^ 64 - 1 ≤ size_of p.1 }
        ensures within { IfOk result (λ m. (p : ℕ × State K V) (c : List (ℕ × State K V))
            → DraftShows K.cmp K.fields.spelling V.fields.spelling self (p ∷ c)
            → size_of p.1 < 2 ^ 64 - 1) }
        ensures why { IfErr result RefusesSeal }
    {
        let AnyUnmerkleized {
            id,
            below,
            parent,
            writes,
            metadata,
        } = self;
        let size = parent.end.0;
        if size.saturating_add(puts(&writes) as u64) >= u64::MAX - 1 {
            return Err(BatchError::Exhausted);
        }
        let room = size.saturating_add(writes.len() as u64) < u64::MAX - 1;
        if !room || !db.is_whole() {
            return Err(BatchError::OutOfMemory);
        }
        let layers = below.above(db.log.id());
        let written = write_all(&writes, metadata, layers, db, size)?;
        let start = first_kept(&written, layers, db, parent.start.0);
        let target = Target {
            root: link_each(size, parent.root, written.ops()),
            start: Location(start),
            end: Location(size + written.ops().len() as u64),
        };
        let layer = Layer::new(below.allocator(), id, AnyChanges { written, target })?;
        Ok(AnyMerkleized { layer, below })
    }
}

/// How many keys are written with a value.
fn puts<K: Field, V: Field>(writes: &BTreeMap<K, Option<V>>) -> usize
    ensures { (live : K → Bool) → result ≤ length (ops_for live writes.now.entries) }
{
    let mut count: usize = 0;
    for (_, value) in writes {
        if value.is_some() {
            count = count.saturating_add(1);
        }
    }
    count
}

impl<K: Field, V: Field> AnyMerkleized<K, V> {
    /// Its root, with its range.
    pub(crate) fn target(&self) -> Target
        ensures { result ≡ self.now.layer.1.target }
    {
        self.layer.changes().target
    }
}

impl<K: Field, V: Field> Unmerkleized for AnyUnmerkleized<K, V> {
    ghost use Rattle.stateful_db.specs.Disk.{point};
    ghost use Rattle.stateful_db_any.specs.Any.{size_of};
    ghost use Rattle.stateful_db_any.specs.Shown.{DraftShows, SealShows};
    ghost use Rattle.stateful_db_any.specs.Stored.{standing_of};

    type Db = AnyDb<K, V>;

    type State = AnyState<K, V>;

    type Merkleized = AnyMerkleized<K, V>;

    ghost shows = { DraftShows K.cmp K.fields.spelling V.fields.spelling };

    ghost sealed = { SealShows K.cmp K.fields.spelling V.fields.spelling };

    ghost at = { λ db. point (standing_of db) };

    ghost end_of = { size_of };

    fn merkleize(self, db: &AnyDb<K, V>) -> Result<AnyMerkleized<K, V>, BatchError> {
        let at = db.log.id();
        if !self.stands_on(at) {
            return Err(BatchError::StaleRead);
        }
        if self.id == at {
            return Err(BatchError::OutOfMemory);
        }
        self.seal(db)
    }
}

impl<K: Field, V: Field> Merkleized for AnyMerkleized<K, V> {
    ghost use Rattle.stateful_db_any.specs.Any.{begun};
    ghost use Rattle.stateful_db_any.specs.Shown.{DraftShows, SealShows};

    type State = AnyState<K, V>;

    type Unmerkleized = AnyUnmerkleized<K, V>;

    ghost shows = { SealShows K.cmp K.fields.spelling V.fields.spelling };

    ghost opened = { DraftShows K.cmp K.fields.spelling V.fields.spelling };

    ghost root_of = { λ s. s.target.root };

    ghost begun = { begun K.cmp K.fields.spelling V.fields.spelling };

    fn root(&self) -> Digest {
        self.target().root
    }

    fn new_batch(&self, id: u64) -> Result<AnyUnmerkleized<K, V>, OutOfMemory> {
        Ok(AnyUnmerkleized {
            id,
            below: self.below.with(&self.layer)?,
            parent: self.target(),
            writes: BTreeMap::new(self.below.allocator()),
            metadata: None,
        })
    }

    fn share(&self) -> Result<AnyMerkleized<K, V>, OutOfMemory> {
        Ok(AnyMerkleized {
            layer: self.layer.share()?,
            below: self.below.share()?,
        })
    }
}
