//! Reads of sealed batches.

ghost use Rattle.std.specs.Prelude.{◌≡◌, ◌+◌, ◌++◌, ◌∷◌, ◌↔◌, ℕ, List, None, IfOk, IsErrOf, false};
ghost use Rattle.std.specs.Prelude.{length, map, option_map};
ghost use Rattle.stateful_db.specs.Chain.{has_id, IsPoint};
ghost use Rattle.stateful_db.specs.Disk.{point};
ghost use Rattle.stateful_db_overlay.specs.Chains.{Leads};
ghost use Rattle.stateful_db_any.specs.Live.{last_write};
ghost use Rattle.stateful_db_any.specs.Any.{State, size_of, value_at};
ghost use Rattle.stateful_db_any.specs.Shown.{After, SealShows};
ghost use Rattle.stateful_db_any.specs.Stored.{standing_of};
ghost use Rattle.stateful_db_any.specs.Through.{IsIndexed};

use crate::batch::AnyMerkleized;
use crate::changes::{AnyChanges, AnyWritten};
use crate::database::AnyDb;
use crate::op::AnyOp;
use crate::seal::{op_of, place_of};
use stateful_base::OutOfMemory;
use stateful_db::BatchError;
use stateful_db_log::{Bounds, Field};
use stateful_db_overlay::Layer;

/// The value at a key, behind operations over sealed batches and a database.
fn value_over<K: Field, V: Field>(
    own: &AnyWritten<K, V>,
    layers: &[Layer<AnyChanges<K, V>>],
    db: &AnyDb<K, V>,
    key: &K,
) -> Result<Option<V>, OutOfMemory>
    ensures { IfOk result (λ value. (t : State K V)
        → Leads (After K.cmp K.fields.spelling V.fields.spelling) layers.now
        (standing_of db.now).disk.newest t
        → own.now.from ≡ size_of t
        → IsIndexed K.cmp own.now
        → value ≡ option_map (λ w. w.1)
        (last_write K.cmp key.now t.target.start.0 (t.kept ++ own.now.ops) None)) }
{
    if !db.is_whole() {
        return Err(OutOfMemory);
    }
    let Some(place) = place_of(own, layers, db, key) else {
        return Ok(None);
    };
    match op_of(own, layers, db, place) {
        Some(AnyOp::Update(_, value)) => Ok(Some(value.duplicate()?)),
        Some(AnyOp::Commit(_)) => Ok(None),
        Some(AnyOp::Delete(_)) => Ok(None),
        None => Ok(None),
    }
}

impl<K: Field, V: Field> AnyMerkleized<K, V> {
    /// Whether the database where the batch of this id was applied last is at a state of its chain.
    fn stands_on(&self, at: u64) -> bool
        ensures { (c : List (ℕ × State K V))
            → SealShows K.cmp K.fields.spelling V.fields.spelling self.now c
            → has_id c at ≡ result }
    {
        let inside = self.below.has(at);
        self.layer.id() == at || inside
    }

    /// The value at a key. `StaleRead` exactly where the database is at no state of the batch's
    /// chain.
    pub fn get(&self, db: &AnyDb<K, V>, key: &K) -> Result<Option<V>, BatchError>
        ensures value { IfOk result (λ value. (p : ℕ × State K V) (c : List (ℕ × State K V))
            → SealShows K.cmp K.fields.spelling V.fields.spelling self.now (p ∷ c)
            → IsPoint (point (standing_of db.now)) (p ∷ c)
            → value ≡ value_at K.cmp p.1 key.now) }
        ensures stale { (c : List (ℕ × State K V))
            → SealShows K.cmp K.fields.spelling V.fields.spelling self.now c
            → (IsErrOf result BatchError.StaleRead ↔ (has_id c (standing_of db.now).id ≡ false)) }
        ensures within { IsErrOf result BatchError.Exhausted → ⊥ }
    {
        let at = db.log.id();
        if !self.stands_on(at) {
            return Err(BatchError::StaleRead);
        }
        if self.layer.id() == at {
            return match db.get(key) {
                Ok(value) => Ok(value),
                Err(_) => Err(BatchError::OutOfMemory),
            };
        }
        match value_over(&self.layer.changes().written, self.below.above(at), db, key) {
            Ok(value) => Ok(value),
            Err(_) => Err(BatchError::OutOfMemory),
        }
    }

    /// The values at these keys, in their order. `StaleRead` exactly where the database is at no
    /// state of the batch's chain.
    pub fn get_many(&self, db: &AnyDb<K, V>, keys: &[K]) -> Result<Vec<Option<V>>, BatchError>
        ensures value { IfOk result (λ values. (p : ℕ × State K V) (c : List (ℕ × State K V))
            → SealShows K.cmp K.fields.spelling V.fields.spelling self.now (p ∷ c)
            → IsPoint (point (standing_of db.now)) (p ∷ c)
            → values.items ≡ map (λ key. value_at K.cmp p.1 key) keys.now) }
        ensures stale { (c : List (ℕ × State K V))
            → SealShows K.cmp K.fields.spelling V.fields.spelling self.now c
            → (IsErrOf result BatchError.StaleRead ↔ (has_id c (standing_of db.now).id ≡ false)) }
        ensures within { IsErrOf result BatchError.Exhausted → ⊥ }
    {
        let at = db.log.id();
        if !self.stands_on(at) {
            return Err(BatchError::StaleRead);
        }
        let mut values = Vec::new(db.log.allocator());
        for key in keys {
            let value = self.get(db, key)?;
            values.push(value)?;
        }
        Ok(values)
    }

    /// Where the range of its state begins and ends.
    pub fn bounds(&self) -> Bounds
        ensures floor { (p : ℕ × State K V) (c : List (ℕ × State K V))
            → SealShows K.cmp K.fields.spelling V.fields.spelling self.now (p ∷ c)
            → result.inactivity_floor ≡ p.1.target.start }
        ensures size { (p : ℕ × State K V) (c : List (ℕ × State K V))
            → SealShows K.cmp K.fields.spelling V.fields.spelling self.now (p ∷ c)
            → result.size ≡ p.1.target.end }
    {
        let target = self.target();
        Bounds {
            inactivity_floor: target.start,
            size: target.end,
        }
    }

    /// How many batches its chain has above the point of a database.
    pub fn depth(&self) -> usize
        ensures { (c : List (ℕ × State K V))
            → SealShows K.cmp K.fields.spelling V.fields.spelling self.now c
            → length c ≡ result + 1 }
    {
        self.below.count() + 1
    }
}
