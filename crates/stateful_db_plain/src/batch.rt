//! Batches that keep their own changes alone, over shared layers and the state of the database on
//! which these stand.

ghost use Rattle.std.specs.Prelude.{◌≡◌, ℕ, ◌+◌, ◌-◌, ◌^◌, ◌<◌, ◌≤◌, List, [], ◌∷◌, ◌++◌};
ghost use Rattle.std.specs.Prelude.{IfOk, IfErr, OnOk, IsErrOf, ◌↔◌, false};
ghost use Rattle.stateful_db_overlay.specs.Stack.{above_in};
ghost use Rattle.stateful_db.specs.Batch.{RefusesSeal};
ghost use Rattle.stateful_db.specs.Chain.{has_id, IsPoint};
ghost use Rattle.stateful_db.specs.Disk.{point};
ghost use Rattle.stateful_db_plain.specs.Whole.{Whole, value_at, put, target_of};
ghost use Rattle.stateful_db_plain.specs.Writes.{Roots};

use crate::changes::{PlainChanges, Writes, made, value_in};
use crate::database::Plain;
use crate::state::PlainState;
use stateful_base::{Digest, OutOfMemory, Target};
use stateful_db::{BatchError, Merkleized, Unmerkleized};
use stateful_db_medium::Checkpoint;
use stateful_db_overlay::{Layer, Layers};
use std::collections::BTreeMap;

/// A batch that may still change: its id, the layers below it, the state of the database on which
/// these stand, the end of its parent's range, and its own writes. It shares the layers with other
/// batches, and the state with the database.
#[derive(Drop)]
pub struct PlainUnmerkleized {
    pub(crate) id: u64,
    pub(crate) below: Layers<PlainChanges>,
    pub(crate) base: PlainState,
    pub(crate) size: u64,
    pub(crate) writes: Writes,
}

/// A sealed batch: its own changes with its id, the layers below it, and the state of the database
/// on which these stand. Its target is that of the state to which all these lead.
#[derive(Drop)]
pub struct PlainMerkleized {
    pub(crate) layer: Layer<PlainChanges>,
    pub(crate) below: Layers<PlainChanges>,
    pub(crate) base: PlainState,
    ghost roots: { Roots layer.1.target layer.1.writes (above_in layer.0 below) base },
}

impl PlainUnmerkleized {
    ghost use Rattle.stateful_db_plain.specs.Stored.{standing_of};
    ghost use Rattle.stateful_db_plain.specs.Shown.{DraftShows};

    /// The batch's value at a key. `StaleRead` exactly where the database is at no state of the
    /// batch's chain.
    pub fn get(&self, db: &Plain, key: u64) -> Result<Option<u64>, BatchError>
        ensures value { IfOk result (λ value. (p : ℕ × Whole) (c : List (ℕ × Whole))
            → DraftShows self.now (p ∷ c)
            → value ≡ value_at p.1.entries key) }
        ensures stale { (c : List (ℕ × Whole))
            → DraftShows self.now c
            → (IsErrOf result BatchError.StaleRead ↔ (has_id c (standing_of db.now).id ≡ false)) }
        ensures cause { IfErr result (λ e. e ≡ BatchError.StaleRead) }
    {
        if !self.stands_on(db.id()) {
            return Err(BatchError::StaleRead);
        }
        match self.writes.get(&key) {
            Some(value) => Ok(*value),
            None => Ok(value_in(self.layers(), self.base.entries(), key)),
        }
    }

    /// The batch with this value at the key, or with none.
    pub fn write(self, key: u64, value: Option<u64>) -> Result<PlainUnmerkleized, OutOfMemory>
        ensures { IfOk result (λ u. (p : ℕ × Whole) (c : List (ℕ × Whole))
            → DraftShows self (p ∷ c)
            → DraftShows u ((p.0, record p.1 { entries = put p.1.entries key value }) ∷ c)) }
    {
        let mut batch = self;
        batch.writes.insert(key, value)?;
        Ok(batch)
    }

    /// Whether the database where the batch of this id was applied last is at a state of its chain.
    fn stands_on(&self, at: u64) -> bool
        ensures { (c : List (ℕ × Whole)) → DraftShows self.now c → has_id c at ≡ result }
    {
        let inside = self.below.has(at);
        self.id == at || inside
    }

    /// All layers below it: none has its own id.
    fn layers(&self) -> &[Layer<PlainChanges>]
        ensures above { result.now ≡ above_in self.now.id self.now.below }
        ensures all { (c : List (ℕ × Whole))
            → DraftShows self.now c
            → result.now ≡ self.now.below.layers }
    {
        self.below.above(self.id)
    }

    /// The root and the range of its seal.
    fn target(&self) -> Result<Target, OutOfMemory>
        requires { self.now.size + 1 < 2 ^ 64 }
        ensures shown { IfOk result (λ target. (p : ℕ × Whole) (c : List (ℕ × Whole))
            → DraftShows self.now (p ∷ c)
            → target ≡ target_of p.1) }
        ensures roots { IfOk result (λ target. Roots target self.now.writes.entries
            (above_in self.now.id self.now.below) self.now.base) }
    {
        let alloc = self.below.allocator();
        let entries = made(alloc, self.base.entries(), self.layers(), &self.writes)?;
        Ok(PlainState::new(self.size + 1, entries).target())
    }

    /// Drops the layers that the database has taken in. It stands then on the database's state.
    pub(crate) fn rebase(&mut self, db: &Plain) -> Result<(), OutOfMemory>
        ensures chain { let p = point (standing_of db.now) in
            OnOk result ((r q : ℕ × Whole) (above older : List (ℕ × Whole))
            → DraftShows self.old (r ∷ q ∷ above ++ p ∷ older)
            → DraftShows self.new (r ∷ q ∷ above ++ p ∷ [])) }
        ensures apart { let at = (standing_of db.now).id in
            OnOk result ((r q : ℕ × Whole) (c : List (ℕ × Whole))
            → DraftShows self.old (r ∷ q ∷ c)
            → has_id (q ∷ c) at ≡ false
            → DraftShows self.new (r ∷ q ∷ c)) }
    {
        let at = db.id();
        if self.below.has(at) {
            self.base = db.state().share()?;
            self.below.cut(at);
        }
        Ok(())
    }
}

impl Unmerkleized for PlainUnmerkleized {
    ghost use Rattle.stateful_db.specs.Disk.{point};
    ghost use Rattle.stateful_db_plain.specs.Shown.{DraftShows, SealShows};
    ghost use Rattle.stateful_db_plain.specs.Stored.{standing_of};

    type Db = Plain;

    type State = PlainState;

    type Merkleized = PlainMerkleized;

    ghost shows = { DraftShows };

    ghost sealed = { SealShows };

    ghost at = { λ db. point (standing_of db) };

    ghost end_of = { λ w. w.size };

    fn merkleize(self, db: &Plain) -> Result<PlainMerkleized, BatchError>
        ensures ok { IfOk result (λ m. (c : List (ℕ × Whole))
            → DraftShows self c
            → IsPoint (point (standing_of db.now)) c
            → SealShows m c) }
        ensures stale { (c : List (ℕ × Whole))
            → DraftShows self c
            → (IsErrOf result BatchError.StaleRead ↔ (has_id c (standing_of db.now).id ≡ false)) }
        ensures exhausted { (p : ℕ × Whole) (c : List (ℕ × Whole))
            → DraftShows self (p ∷ c)
            → IsErrOf result BatchError.Exhausted
            → 2 ^ 64 - 1 ≤ p.1.size }
        ensures within { IfOk result (λ m. (p : ℕ × Whole) (c : List (ℕ × Whole))
            → DraftShows self (p ∷ c)
            → p.1.size < 2 ^ 64 - 1) }
        ensures whole { IfOk result (λ m. (c : List (ℕ × Whole))
            → DraftShows self c
            → SealShows m c) }
        ensures why { IfErr result RefusesSeal }
    {
        if !self.stands_on(db.id()) {
            return Err(BatchError::StaleRead);
        }
        if self.size >= u64::MAX - 1 {
            return Err(BatchError::Exhausted);
        }
        let target = self.target()?;
        let PlainUnmerkleized {
            id,
            below,
            base,
            size: _,
            writes,
        } = self;
        let layer = Layer::new(below.allocator(), id, PlainChanges::new(writes, target))?;
        Ok(PlainMerkleized { layer, below, base })
    }
}

impl PlainMerkleized {
    ghost use Rattle.stateful_db_plain.specs.Shown.{SealShows};

    /// Its id.
    pub(crate) fn id(&self) -> u64
        ensures { result ≡ self.now.layer.0 }
    {
        self.layer.id()
    }

    /// Its root, with its range.
    pub(crate) fn target(&self) -> Target
        ensures { result ≡ self.now.layer.1.target }
    {
        self.layer.changes().target()
    }

    /// The checkpoint behind it. Copies of its state share the entries.
    pub(crate) fn checkpoint(&self) -> Result<Checkpoint<PlainState>, OutOfMemory>
        ensures rooted { IfOk result (λ k. k.target ≡ target_of k.kept) }
        ensures state { IfOk result (λ k. (p : ℕ × Whole) (c : List (ℕ × Whole))
            → SealShows self.now (p ∷ c)
            → k.kept ≡ p.1) }
    {
        let alloc = self.below.allocator();
        let layers = self.below.above(self.id());
        let own = self.layer.changes().writes();
        let entries = made(alloc, self.base.entries(), layers, own)?;
        let target = self.target();
        let kept = PlainState::shared(alloc, target.end.0, entries)?;
        Ok(Checkpoint { target, kept })
    }
}

impl Merkleized for PlainMerkleized {
    ghost use Rattle.stateful_db_plain.specs.Whole.{root_of, begun};
    ghost use Rattle.stateful_db_plain.specs.Shown.{DraftShows, SealShows};

    type State = PlainState;

    type Unmerkleized = PlainUnmerkleized;

    ghost shows = { SealShows };

    ghost opened = { DraftShows };

    ghost root_of = { root_of };

    ghost begun = { begun };

    fn root(&self) -> Digest {
        self.target().root
    }

    fn new_batch(&self, id: u64) -> Result<PlainUnmerkleized, OutOfMemory> {
        Ok(PlainUnmerkleized {
            id,
            below: self.below.with(&self.layer)?,
            base: self.base.share()?,
            size: self.target().end.0,
            writes: BTreeMap::new(self.below.allocator()),
        })
    }

    fn share(&self) -> Result<PlainMerkleized, OutOfMemory> {
        Ok(PlainMerkleized {
            layer: self.layer.share()?,
            below: self.below.share()?,
            base: self.base.share()?,
        })
    }
}
