//! Batches over a compact database.

ghost use Rattle.std.specs.Prelude.{◌≡◌, ◌==◌, ◌||◌, ◌++◌, ◌∷◌, [], ◌-◌, ◌^◌, ◌<◌, ◌≤◌, ◌↔◌, ℕ};
ghost use Rattle.std.specs.Prelude.{List, Some, IsOk, IfOk, IfErr, IsErrOf, false};
ghost use Rattle.stateful_db.specs.Batch.{RefusesSeal};
ghost use Rattle.stateful_db.specs.Chain.{has_id};
ghost use Rattle.stateful_db_overlay.specs.Stack.{has_layer};
ghost use Rattle.stateful_db_compact.specs.Ops.{Changes};
ghost use Rattle.stateful_db_compact.specs.Compacted.{State, size_of};
ghost use Rattle.stateful_db_compact.specs.CompactShown.{Holds, DraftShows, SealShows};

use super::database::CompactDb;
use super::state::{Commit, CompactState, committed, share, size};
use crate::op::{link_append, link_commit};
use stateful_base::{Digest, Location, OutOfMemory};
use stateful_db::{BatchError, Merkleized, Unmerkleized};
use stateful_db_log::{Bounds, Field};
use stateful_db_overlay::{Layer, Layers};

/// A batch that may still change: its id, the layers below it, the floor of its parent, the
/// location of its commit, the digest before the commit, the metadata of the commit, and the floor
/// that was asked for.
#[derive(Drop)]
pub struct KeylessUnjournaledUnmerkleized<V> {
    pub id: u64,
    pub below: Layers<()>,
    pub floor: u64,
    pub end: u64,
    pub before: Digest,
    pub metadata: Option<V>,
    pub asked: u64,
}

/// A sealed batch: its id, the layers below it, and its state.
#[derive(Drop)]
pub struct KeylessUnjournaledMerkleized<V> {
    pub layer: Layer<()>,
    pub below: Layers<()>,
    pub state: CompactState<V>,
}

impl<V: Field> KeylessUnjournaledUnmerkleized<V> {
    /// The batch with this metadata for its commit.
    pub fn with_metadata(self, metadata: V) -> KeylessUnjournaledUnmerkleized<V>
        ensures changes { (ch : Changes V) (s : State V)
            → Holds V.fields.spelling self ch s
            → Holds V.fields.spelling result (record ch { metadata = Some metadata }) s }
        ensures chain { result.id ≡ self.id }
        ensures below { result.below ≡ self.below }
    {
        KeylessUnjournaledUnmerkleized {
            id: self.id,
            below: self.below,
            floor: self.floor,
            end: self.end,
            before: self.before,
            metadata: Some(metadata),
            asked: self.asked,
        }
    }

    /// The batch with this inactivity floor for its commit. It is taken as the nearest location
    /// that isn't below the parent's floor and not behind the commit. Where none is asked for,
    /// location 0 is.
    pub fn with_inactivity_floor(self, floor: Location) -> KeylessUnjournaledUnmerkleized<V>
        ensures changes { (ch : Changes V) (s : State V)
            → Holds V.fields.spelling self ch s
            → Holds V.fields.spelling result (record ch { floor = floor.0 }) s }
        ensures chain { result.id ≡ self.id }
        ensures below { result.below ≡ self.below }
    {
        let mut batch = self;
        batch.asked = floor.0;
        batch
    }

    /// The batch with this value appended. It takes no memory.
    pub fn append(self, value: V) -> Result<KeylessUnjournaledUnmerkleized<V>, OutOfMemory>
        ensures changes { IfOk result (λ u. (ch : Changes V) (s : State V)
            → Holds V.fields.spelling self ch s
            → Holds V.fields.spelling u (record ch { values = ch.values ++ value ∷ [] }) s) }
        ensures chain { IfOk result (λ u. u.id ≡ self.id) }
        ensures below { IfOk result (λ u. u.below ≡ self.below) }
        ensures ok { IsOk result }
    {
        let mut batch = self;
        batch.before = link_append(batch.before, &value);
        batch.end = batch.end.saturating_add(1);
        Ok(batch)
    }

    /// Whether the database where the batch of this id was applied last is at a state of its chain.
    fn stands_on(&self, at: u64) -> bool
        ensures { (c : List (ℕ × State V))
            → DraftShows V.fields.spelling self.now c
            → has_id c at ≡ result }
    {
        let inside = self.below.has(at);
        self.id == at || inside
    }

    /// The seal.
    fn seal(self) -> Result<KeylessUnjournaledMerkleized<V>, BatchError>
        ensures ok { IfOk result (λ m. (c : List (ℕ × State V))
            → DraftShows V.fields.spelling self c
            → SealShows m c) }
        ensures fresh { IsErrOf result BatchError.StaleRead → ⊥ }
        ensures exhausted { (p : ℕ × State V) (c : List (ℕ × State V))
            → DraftShows V.fields.spelling self (p ∷ c)
            → IsErrOf result BatchError.Exhausted
            → 2 ^ 64 - 1 ≤ size_of p.1 }
        ensures within { IfOk result (λ m. (p : ℕ × State V) (c : List (ℕ × State V))
            → DraftShows V.fields.spelling self (p ∷ c)
            → size_of p.1 < 2 ^ 64 - 1) }
        ensures why { IfErr result RefusesSeal }
    {
        let KeylessUnjournaledUnmerkleized {
            id,
            below,
            floor,
            end,
            before,
            metadata,
            asked,
        } = self;
        if end >= u64::MAX - 1 {
            return Err(BatchError::Exhausted);
        }
        let floor = floor.max(asked.min(end));
        let root = link_commit(before, &metadata, floor);
        let layer = Layer::new(below.allocator(), id, ())?;
        let commit = Commit {
            before,
            metadata,
            floor,
        };
        Ok(KeylessUnjournaledMerkleized {
            layer,
            below,
            state: committed(root, end + 1, commit),
        })
    }
}

impl<V: Drop> KeylessUnjournaledMerkleized<V> {
    /// Its id, and its state.
    pub fn into_state(self) -> (u64, CompactState<V>)
        ensures id { result.0 ≡ self.layer.0 }
        ensures state { result.1 ≡ self.state }
    {
        let KeylessUnjournaledMerkleized { layer, state, .. } = self;
        (layer.id(), state)
    }

    /// The inactivity floor of its state, and the end behind the last operation.
    pub fn bounds(&self) -> Bounds
        ensures floor { (p : ℕ × State V) (c : List (ℕ × State V))
            → SealShows self.now (p ∷ c)
            → result.inactivity_floor.0 ≡ p.1.kept.floor }
        ensures size { (p : ℕ × State V) (c : List (ℕ × State V))
            → SealShows self.now (p ∷ c)
            → result.size ≡ p.1.target.end }
    {
        Bounds {
            inactivity_floor: Location(self.state.kept.floor),
            size: self.state.target.end,
        }
    }
}

impl<V: Field> Unmerkleized for KeylessUnjournaledUnmerkleized<V> {
    ghost use Rattle.stateful_db.specs.Disk.{point};
    ghost use Rattle.stateful_db_compact.specs.Compacted.{size_of};
    ghost use Rattle.stateful_db_compact.specs.CompactShown.{DraftShows, SealShows};
    ghost use Rattle.stateful_db_compact.specs.CompactStored.{standing_of};

    type Db = CompactDb<V>;

    type State = CompactState<V>;

    type Merkleized = KeylessUnjournaledMerkleized<V>;

    ghost shows = { DraftShows V.fields.spelling };

    ghost sealed = { SealShows };

    ghost at = { λ db. point (standing_of db) };

    ghost end_of = { size_of };

    fn merkleize(self, db: &CompactDb<V>) -> Result<KeylessUnjournaledMerkleized<V>, BatchError> {
        let stands = self.stands_on(db.opened.id());
        if !stands {
            return Err(BatchError::StaleRead);
        }
        self.seal()
    }
}

impl<V: Field> Merkleized for KeylessUnjournaledMerkleized<V> {
    ghost use Rattle.stateful_db_compact.specs.Compacted.{begun};
    ghost use Rattle.stateful_db_compact.specs.CompactShown.{DraftShows, SealShows};

    type State = CompactState<V>;

    type Unmerkleized = KeylessUnjournaledUnmerkleized<V>;

    ghost shows = { SealShows };

    ghost opened = { DraftShows V.fields.spelling };

    ghost root_of = { λ s. s.target.root };

    ghost begun = { begun V.fields.spelling };

    fn root(&self) -> Digest {
        self.state.target.root
    }

    fn new_batch(&self, id: u64) -> Result<KeylessUnjournaledUnmerkleized<V>, OutOfMemory> {
        Ok(KeylessUnjournaledUnmerkleized {
            id,
            below: self.below.with(&self.layer)?,
            floor: self.state.kept.floor,
            end: size(&self.state),
            before: self.state.target.root,
            metadata: None,
            asked: 0,
        })
    }

    fn share(&self) -> Result<KeylessUnjournaledMerkleized<V>, OutOfMemory> {
        Ok(KeylessUnjournaledMerkleized {
            layer: self.layer.share()?,
            below: self.below.share()?,
            state: share(&self.state)?,
        })
    }
}
