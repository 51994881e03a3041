//! Reads of batches that may still change.

ghost use Rattle.std.specs.Prelude.{◌≡◌, ◌≤◌, ◌∷◌, [], ◌⊎◌, ◌↔◌, ℕ, List, Some, None, IfOk, IfErr};
ghost use Rattle.std.specs.Prelude.{IsErrOf, OnOk, true, false, map};
ghost use Rattle.stateful_db.specs.Chain.{has_id, IsPoint};
ghost use Rattle.stateful_db.specs.Disk.{point};
ghost use Rattle.stateful_db_compact.specs.Ops.{Changes};
ghost use Rattle.stateful_db_keyless.specs.Keyless.{State};
ghost use Rattle.stateful_db_keyless.specs.KeylessShown.{Holds, DraftShows};
ghost use Rattle.stateful_db_keyless.specs.KeylessStored.{standing_of};
ghost use Rattle.stateful_db_keyless.specs.Reads.{log_over, unread, value_at};

use super::batch::KeylessUnmerkleized;
use super::database::KeylessDb;
use super::range::check;
use super::reads::value_over;
use stateful_base::{Location, OutOfMemory};
use stateful_db::BatchError;
use stateful_db_log::Field;

impl<V: Field> KeylessUnmerkleized<V> {
    /// Why these locations can't be read over a database.
    fn check(&self, db: &KeylessDb<V>, locations: &[Location]) -> Result<(), BatchError>
        ensures stale { (c : List (ℕ × State V))
            → DraftShows V.fields.spelling self.now c
            → (IsErrOf result BatchError.StaleRead ↔ (has_id c (standing_of db.now).id ≡ false)) }
        ensures refused { (p q : ℕ × State V) (c : List (ℕ × State V)) (ch : Changes V)
            (why : BatchError)
            → DraftShows V.fields.spelling self.now (p ∷ q ∷ c)
            → Holds V.fields.spelling self.now ch q.1
            → has_id (p ∷ q ∷ c) (standing_of db.now).id ≡ true
            → unread (log_over ch q.1) locations.now ≡ Some why
            → IsErrOf result why }
        ensures cause { IfErr result (λ why. (p q : ℕ × State V) (c : List (ℕ × State V)) (ch : Changes V)
            → DraftShows V.fields.spelling self.now (p ∷ q ∷ c)
            → Holds V.fields.spelling self.now ch q.1
            → (why ≡ BatchError.StaleRead)
            ⊎
            ((unread (log_over ch q.1) locations.now ≡ Some why)
            ⊎ (why ≡ BatchError.OutOfMemory))) }
        ensures ok { OnOk result ((p q : ℕ × State V) (c : List (ℕ × State V)) (ch : Changes V)
            → DraftShows V.fields.spelling self.now (p ∷ q ∷ c)
            → Holds V.fields.spelling self.now ch q.1
            → unread (log_over ch q.1) locations.now ≡ None) }
    {
        let stands = self.stands_on(db.log.id());
        if !stands {
            return Err(BatchError::StaleRead);
        }
        check(self.floor, self.size, self.ops.len(), locations)?;
        Ok(())
    }

    /// The value at a location that isn't below the floor. A database that is at the state of its
    /// seal is refused.
    fn value(&self, db: &KeylessDb<V>, location: Location) -> Result<Option<V>, OutOfMemory>
        ensures { IfOk result (λ value. (p q : ℕ × State V) (c : List (ℕ × State V)) (ch : Changes V)
            → DraftShows V.fields.spelling self.now (p ∷ q ∷ c)
            → Holds V.fields.spelling self.now ch q.1
            → IsPoint (point (standing_of db.now)) (p ∷ q ∷ c)
            → q.1.target.start.0 ≤ location.0
            → value ≡ value_at (log_over ch q.1) location) }
    {
        let at = db.log.id();
        if self.id == at {
            return Err(OutOfMemory);
        }
        let own = self.ops.as_slice();
        let value = value_over(self.size, own, self.below.above(at), db, location)?;
        Ok(value)
    }

    /// The value at a location, or the metadata of a commit there. Behind what its parent has stand
    /// the values that the batch appended. `StaleRead` exactly where the database is at no state of
    /// the batch's chain; else `LocationOutOfBounds` exactly at or past the end, and
    /// `BelowInactivityFloor` exactly below its parent's floor.
    pub fn get(&self, db: &KeylessDb<V>, location: Location) -> Result<Option<V>, BatchError>
        ensures value { IfOk result (λ value. (p q : ℕ × State V) (c : List (ℕ × State V)) (ch : Changes V)
            → DraftShows V.fields.spelling self.now (p ∷ q ∷ c)
            → Holds V.fields.spelling self.now ch q.1
            → IsPoint (point (standing_of db.now)) (p ∷ q ∷ c)
            → value ≡ value_at (log_over ch q.1) location) }
        ensures stale { (c : List (ℕ × State V))
            → DraftShows V.fields.spelling self.now c
            → (IsErrOf result BatchError.StaleRead ↔ (has_id c (standing_of db.now).id ≡ false)) }
        ensures refused { (p q : ℕ × State V) (c : List (ℕ × State V)) (ch : Changes V)
            (why : BatchError)
            → DraftShows V.fields.spelling self.now (p ∷ q ∷ c)
            → Holds V.fields.spelling self.now ch q.1
            → has_id (p ∷ q ∷ c) (standing_of db.now).id ≡ true
            → unread (log_over ch q.1) (location ∷ []) ≡ Some why
            → IsErrOf result why }
        ensures cause { IfErr result (λ why. (p q : ℕ × State V) (c : List (ℕ × State V)) (ch : Changes V)
            → DraftShows V.fields.spelling self.now (p ∷ q ∷ c)
            → Holds V.fields.spelling self.now ch q.1
            → (why ≡ BatchError.StaleRead)
            ⊎
            ((unread (log_over ch q.1) (location ∷ []) ≡ Some why)
            ⊎ (why ≡ BatchError.OutOfMemory))) }
    {
        self.check(db, &[location])?;
        let value = self.value(db, location)?;
        Ok(value)
    }

    /// The values at these locations, in their order. `StaleRead` exactly where the database is at
    /// no state of the batch's chain; else `LocationOutOfOrder` exactly where a location isn't
    /// greater than the one before; else as `get` of the first location that is refused.
    pub fn get_many(
        &self,
        db: &KeylessDb<V>,
        locations: &[Location],
    ) -> Result<Vec<Option<V>>, BatchError>
        ensures value { IfOk result (λ values. (p q : ℕ × State V) (c : List (ℕ × State V)) (ch : Changes V)
            → DraftShows V.fields.spelling self.now (p ∷ q ∷ c)
            → Holds V.fields.spelling self.now ch q.1
            → IsPoint (point (standing_of db.now)) (p ∷ q ∷ c)
            → values.items ≡ map (λ at. value_at (log_over ch q.1) at) locations.now) }
        ensures stale { (c : List (ℕ × State V))
            → DraftShows V.fields.spelling self.now c
            → (IsErrOf result BatchError.StaleRead ↔ (has_id c (standing_of db.now).id ≡ false)) }
        ensures refused { (p q : ℕ × State V) (c : List (ℕ × State V)) (ch : Changes V)
            (why : BatchError)
            → DraftShows V.fields.spelling self.now (p ∷ q ∷ c)
            → Holds V.fields.spelling self.now ch q.1
            → has_id (p ∷ q ∷ c) (standing_of db.now).id ≡ true
            → unread (log_over ch q.1) locations.now ≡ Some why
            → IsErrOf result why }
        ensures cause { IfErr result (λ why. (p q : ℕ × State V) (c : List (ℕ × State V)) (ch : Changes V)
            → DraftShows V.fields.spelling self.now (p ∷ q ∷ c)
            → Holds V.fields.spelling self.now ch q.1
            → (why ≡ BatchError.StaleRead)
            ⊎
            ((unread (log_over ch q.1) locations.now ≡ Some why)
            ⊎ (why ≡ BatchError.OutOfMemory))) }
    {
        self.check(db, locations)?;
        let mut values = Vec::new(db.log.allocator());
        for location in locations {
            let value = self.value(db, *location)?;
            values.push(value)?;
        }
        Ok(values)
    }
}
