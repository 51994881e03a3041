//! Reads of sealed batches.

ghost use Rattle.std.specs.Prelude.{◌≡◌, ◌≤◌, ◌∷◌, [], ◌⊎◌, ◌↔◌, ℕ, List, Some, None, IfOk, IfErr};
ghost use Rattle.std.specs.Prelude.{IsErrOf, OnOk, true, false, map};
ghost use Rattle.stateful_db.specs.Chain.{has_id, IsPoint};
ghost use Rattle.stateful_db.specs.Disk.{point};
ghost use Rattle.stateful_db_keyless.specs.Keyless.{State};
ghost use Rattle.stateful_db_keyless.specs.KeylessShown.{SealShows};
ghost use Rattle.stateful_db_keyless.specs.KeylessStored.{standing_of};
ghost use Rattle.stateful_db_keyless.specs.Reads.{log_of, unread, value_at};

use super::batch::KeylessMerkleized;
use super::database::KeylessDb;
use super::range::check;
use super::reads::value_over;
use stateful_base::{Location, OutOfMemory};
use stateful_db::BatchError;
use stateful_db_log::{Bounds, Field};

impl<V: Field> KeylessMerkleized<V> {
    /// Whether the database where the batch of this id was applied last is at a state of its chain.
    fn stands_on(&self, at: u64) -> bool
        ensures { (c : List (ℕ × State V)) → SealShows self.now c → has_id c at ≡ result }
    {
        let inside = self.below.has(at);
        self.layer.id() == at || inside
    }

    /// Why these locations can't be read over a database.
    fn check(&self, db: &KeylessDb<V>, locations: &[Location]) -> Result<(), BatchError>
        ensures stale { (c : List (ℕ × State V))
            → SealShows self.now c
            → (IsErrOf result BatchError.StaleRead ↔ (has_id c (standing_of db.now).id ≡ false)) }
        ensures refused { (p : ℕ × State V) (c : List (ℕ × State V))
            (why : BatchError)
            → SealShows self.now (p ∷ c)
            → has_id (p ∷ c) (standing_of db.now).id ≡ true
            → unread (log_of p.1) locations.now ≡ Some why
            → IsErrOf result why }
        ensures cause { IfErr result (λ why. (p : ℕ × State V) (c : List (ℕ × State V))
            → SealShows self.now (p ∷ c)
            → (why ≡ BatchError.StaleRead)
            ⊎ ((unread (log_of p.1) locations.now ≡ Some why) ⊎ (why ≡ BatchError.OutOfMemory))) }
        ensures ok { OnOk result ((p : ℕ × State V) (c : List (ℕ × State V))
            → SealShows self.now (p ∷ c)
            → unread (log_of p.1) locations.now ≡ None) }
    {
        let stands = self.stands_on(db.log.id());
        if !stands {
            return Err(BatchError::StaleRead);
        }
        let range = self.target();
        check(range.start.0, range.end.0, 0, locations)?;
        Ok(())
    }

    /// The value at a location that isn't below the floor.
    fn value(&self, db: &KeylessDb<V>, location: Location) -> Result<Option<V>, OutOfMemory>
        ensures { IfOk result (λ value. (p : ℕ × State V) (c : List (ℕ × State V))
            → SealShows self.now (p ∷ c)
            → IsPoint (point (standing_of db.now)) (p ∷ c)
            → p.1.target.start.0 ≤ location.0
            → value ≡ value_at (log_of p.1) location) }
    {
        let at = db.log.id();
        if self.layer.id() == at {
            let value = db.value(location)?;
            return Ok(value);
        }
        let own = self.layer.changes();
        let layers = self.below.above(at);
        let value = value_over(own.from, own.ops.as_slice(), layers, db, location)?;
        Ok(value)
    }

    /// The value at a location, or the metadata of a commit there. `StaleRead` exactly where the
    /// database is at no state of the batch's chain; else `LocationOutOfBounds` exactly at or past
    /// the end, and `BelowInactivityFloor` exactly below its own floor.
    pub fn get(&self, db: &KeylessDb<V>, location: Location) -> Result<Option<V>, BatchError>
        ensures value { IfOk result (λ value. (p : ℕ × State V) (c : List (ℕ × State V))
            → SealShows self.now (p ∷ c)
            → IsPoint (point (standing_of db.now)) (p ∷ c)
            → value ≡ value_at (log_of p.1) location) }
        ensures stale { (c : List (ℕ × State V))
            → SealShows self.now c
            → (IsErrOf result BatchError.StaleRead ↔ (has_id c (standing_of db.now).id ≡ false)) }
        ensures refused { (p : ℕ × State V) (c : List (ℕ × State V))
            (why : BatchError)
            → SealShows self.now (p ∷ c)
            → has_id (p ∷ c) (standing_of db.now).id ≡ true
            → unread (log_of p.1) (location ∷ []) ≡ Some why
            → IsErrOf result why }
        ensures cause { IfErr result (λ why. (p : ℕ × State V) (c : List (ℕ × State V))
            → SealShows self.now (p ∷ c)
            → (why ≡ BatchError.StaleRead)
            ⊎ ((unread (log_of p.1) (location ∷ []) ≡ Some why) ⊎ (why ≡ BatchError.OutOfMemory))) }
    {
        self.check(db, &[location])?;
        let value = self.value(db, location)?;
        Ok(value)
    }

    /// The values at these locations, in their order. `StaleRead` exactly where the database is at
    /// no state of the batch's chain; else `LocationOutOfOrder` exactly where a location isn't
    /// greater than the one before; else as `get` of the first location that is refused.
    pub fn get_many(
        &self,
        db: &KeylessDb<V>,
        locations: &[Location],
    ) -> Result<Vec<Option<V>>, BatchError>
        ensures value { IfOk result (λ values. (p : ℕ × State V) (c : List (ℕ × State V))
            → SealShows self.now (p ∷ c)
            → IsPoint (point (standing_of db.now)) (p ∷ c)
            → values.items ≡ map (λ at. value_at (log_of p.1) at) locations.now) }
        ensures stale { (c : List (ℕ × State V))
            → SealShows self.now c
            → (IsErrOf result BatchError.StaleRead ↔ (has_id c (standing_of db.now).id ≡ false)) }
        ensures refused { (p : ℕ × State V) (c : List (ℕ × State V))
            (why : BatchError)
            → SealShows self.now (p ∷ c)
            → has_id (p ∷ c) (standing_of db.now).id ≡ true
            → unread (log_of p.1) locations.now ≡ Some why
            → IsErrOf result why }
        ensures cause { IfErr result (λ why. (p : ℕ × State V) (c : List (ℕ × State V))
            → SealShows self.now (p ∷ c)
            → (why ≡ BatchError.StaleRead)
            ⊎ ((unread (log_of p.1) locations.now ≡ Some why) ⊎ (why ≡ BatchError.OutOfMemory))) }
    {
        self.check(db, locations)?;
        let mut values = Vec::new(db.log.allocator());
        for location in locations {
            let value = self.value(db, *location)?;
            values.push(value)?;
        }
        Ok(values)
    }

    /// Where the range of its state begins and ends.
    pub fn bounds(&self) -> Bounds
        ensures floor { (p : ℕ × State V) (c : List (ℕ × State V))
            → SealShows self.now (p ∷ c)
            → result.inactivity_floor ≡ p.1.target.start }
        ensures size { (p : ℕ × State V) (c : List (ℕ × State V))
            → SealShows self.now (p ∷ c)
            → result.size ≡ p.1.target.end }
    {
        let target = self.target();
        Bounds {
            inactivity_floor: target.start,
            size: target.end,
        }
    }
}
