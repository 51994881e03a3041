//! Batches over a keyless database.

ghost use Rattle.std.specs.Prelude.{◌≡◌, ◌==◌, ◌||◌, ◌++◌, ◌∷◌, [], ◌-◌, ◌^◌, ◌<◌, ◌≤◌, ◌↔◌, ℕ};
ghost use Rattle.std.specs.Prelude.{List, Some, IfOk, IfErr, IsErrOf, false};
ghost use Rattle.stateful_db.specs.Batch.{RefusesSeal};
ghost use Rattle.stateful_db.specs.Chain.{has_id};
ghost use Rattle.stateful_db_overlay.specs.Stack.{has_layer};
ghost use Rattle.stateful_db_compact.specs.Ops.{Changes};
ghost use Rattle.stateful_db_keyless.specs.Keyless.{State, size_of};
ghost use Rattle.stateful_db_keyless.specs.KeylessShown.{Holds, DraftShows, SealShows};

use super::database::KeylessDb;
use super::state::KeylessState;
use stateful_base::{Digest, Location, OutOfMemory, Target};
use stateful_db::{BatchError, Merkleized, Unmerkleized};
use stateful_db_compact::{KeylessOp, link_append, link_commit};
use stateful_db_log::Field;
use stateful_db_overlay::{Layer, Layers};

/// What a sealed batch changes: the location of its first operation, its operations, and the root
/// and the range behind them.
#[derive(Drop)]
pub struct KeylessChanges<V> {
    pub(crate) from: u64,
    pub(crate) ops: Vec<KeylessOp<V>>,
    pub(crate) target: Target,
}

/// A batch that may still change: its id, the layers below it, the end and the floor of its
/// parent's range, the appends so far with the digest behind them, the metadata of the commit, and
/// the floor that was asked for.
#[derive(Drop)]
pub struct KeylessUnmerkleized<V> {
    pub(crate) id: u64,
    pub(crate) below: Layers<KeylessChanges<V>>,
    pub(crate) size: u64,
    pub(crate) floor: u64,
    pub(crate) ops: Vec<KeylessOp<V>>,
    pub(crate) before: Digest,
    pub(crate) metadata: Option<V>,
    pub(crate) asked: u64,
}

/// A sealed batch: its own changes with its id, and the layers below it.
#[derive(Drop)]
pub struct KeylessMerkleized<V> {
    pub(crate) layer: Layer<KeylessChanges<V>>,
    pub(crate) below: Layers<KeylessChanges<V>>,
}

impl<V: Field> KeylessUnmerkleized<V> {
    /// The batch with this metadata for its commit.
    pub fn with_metadata(self, metadata: V) -> KeylessUnmerkleized<V>
        ensures changes { (ch : Changes V) (s : State V)
            → Holds V.fields.spelling self ch s
            → Holds V.fields.spelling result (record ch { metadata = Some metadata }) s }
        ensures chain { result.id ≡ self.id }
        ensures below { result.below ≡ self.below }
    {
        KeylessUnmerkleized {
            id: self.id,
            below: self.below,
            size: self.size,
            floor: self.floor,
            ops: self.ops,
            before: self.before,
            metadata: Some(metadata),
            asked: self.asked,
        }
    }

    /// The batch with this inactivity floor for its commit. It is taken as the nearest location
    /// that isn't below the parent's floor and not behind the commit. Where none is asked for,
    /// location 0 is.
    pub fn with_inactivity_floor(self, floor: Location) -> KeylessUnmerkleized<V>
        ensures changes { (ch : Changes V) (s : State V)
            → Holds V.fields.spelling self ch s
            → Holds V.fields.spelling result (record ch { floor = floor.0 }) s }
        ensures chain { result.id ≡ self.id }
        ensures below { result.below ≡ self.below }
    {
        let mut batch = self;
        batch.asked = floor.0;
        batch
    }

    /// The batch with this value appended.
    pub fn append(self, value: V) -> Result<KeylessUnmerkleized<V>, OutOfMemory>
        ensures changes { IfOk result (λ u. (ch : Changes V) (s : State V)
            → Holds V.fields.spelling self ch s
            → Holds V.fields.spelling u (record ch { values = ch.values ++ value ∷ [] }) s) }
        ensures chain { IfOk result (λ u. u.id ≡ self.id) }
        ensures below { IfOk result (λ u. u.below ≡ self.below) }
    {
        let mut batch = self;
        batch.before = link_append(batch.before, &value);
        batch.ops.push(KeylessOp::Append(value))?;
        Ok(batch)
    }

    /// The location of its first operation, which is where its parent's range ends.
    pub fn first_location(&self) -> Location
        ensures { (ch : Changes V) (s : State V)
            → Holds V.fields.spelling self.now ch s
            → result.0 ≡ size_of s }
    {
        Location(self.size)
    }

    /// Whether the database where the batch of this id was applied last is at a state of its chain.
    pub(crate) fn stands_on(&self, at: u64) -> bool
        ensures { (c : List (ℕ × State V))
            → DraftShows V.fields.spelling self.now c
            → has_id c at ≡ result }
    {
        let inside = self.below.has(at);
        self.id == at || inside
    }

    /// The seal.
    fn seal(self) -> Result<KeylessMerkleized<V>, BatchError>
        ensures ok { IfOk result (λ m. (c : List (ℕ × State V))
            → DraftShows V.fields.spelling self c
            → SealShows m c) }
        ensures fresh { IsErrOf result BatchError.StaleRead → ⊥ }
        ensures exhausted { (p : ℕ × State V) (c : List (ℕ × State V))
            → DraftShows V.fields.spelling self (p ∷ c)
            → IsErrOf result BatchError.Exhausted
            → 2 ^ 64 - 1 ≤ size_of p.1 }
        ensures within { IfOk result (λ m. (p : ℕ × State V) (c : List (ℕ × State V))
            → DraftShows V.fields.spelling self (p ∷ c)
            → size_of p.1 < 2 ^ 64 - 1) }
        ensures why { IfErr result RefusesSeal }
    {
        let KeylessUnmerkleized {
            id,
            below,
            size,
            floor,
            mut ops,
            before,
            metadata,
            asked,
        } = self;
        let end = size.saturating_add(ops.len() as u64);
        if end >= u64::MAX - 1 {
            return Err(BatchError::Exhausted);
        }
        let floor = floor.max(asked.min(end));
        let root = link_commit(before, &metadata, floor);
        ops.push(KeylessOp::Commit { metadata, floor })?;
        let target = Target {
            root,
            start: Location(floor),
            end: Location(end + 1),
        };
        let changes = KeylessChanges {
            from: size,
            ops,
            target,
        };
        let layer = Layer::new(below.allocator(), id, changes)?;
        Ok(KeylessMerkleized { layer, below })
    }
}

impl<V: Drop> KeylessMerkleized<V> {
    /// Its root, with its range.
    pub(crate) fn target(&self) -> Target
        ensures { result ≡ self.now.layer.1.target }
    {
        self.layer.changes().target
    }
}

impl<V: Field> Unmerkleized for KeylessUnmerkleized<V> {
    ghost use Rattle.stateful_db.specs.Disk.{point};
    ghost use Rattle.stateful_db_keyless.specs.Keyless.{size_of};
    ghost use Rattle.stateful_db_keyless.specs.KeylessShown.{DraftShows, SealShows};
    ghost use Rattle.stateful_db_keyless.specs.KeylessStored.{standing_of};

    type Db = KeylessDb<V>;

    type State = KeylessState<V>;

    type Merkleized = KeylessMerkleized<V>;

    ghost shows = { DraftShows V.fields.spelling };

    ghost sealed = { SealShows };

    ghost at = { λ db. point (standing_of db) };

    ghost end_of = { size_of };

    fn merkleize(self, db: &KeylessDb<V>) -> Result<KeylessMerkleized<V>, BatchError> {
        let stands = self.stands_on(db.log.id());
        if !stands {
            return Err(BatchError::StaleRead);
        }
        self.seal()
    }
}

impl<V: Field> Merkleized for KeylessMerkleized<V> {
    ghost use Rattle.stateful_db_keyless.specs.Keyless.{begun};
    ghost use Rattle.stateful_db_keyless.specs.KeylessShown.{DraftShows, SealShows};

    type State = KeylessState<V>;

    type Unmerkleized = KeylessUnmerkleized<V>;

    ghost shows = { SealShows };

    ghost opened = { DraftShows V.fields.spelling };

    ghost root_of = { λ s. s.target.root };

    ghost begun = { begun V.fields.spelling };

    fn root(&self) -> Digest {
        self.target().root
    }

    fn new_batch(&self, id: u64) -> Result<KeylessUnmerkleized<V>, OutOfMemory> {
        let target = self.target();
        Ok(KeylessUnmerkleized {
            id,
            below: self.below.with(&self.layer)?,
            size: target.end.0,
            floor: target.start.0,
            ops: Vec::new(self.below.allocator()),
            before: target.root,
            metadata: None,
            asked: 0,
        })
    }

    fn share(&self) -> Result<KeylessMerkleized<V>, OutOfMemory> {
        Ok(KeylessMerkleized {
            layer: self.layer.share()?,
            below: self.below.share()?,
        })
    }
}
