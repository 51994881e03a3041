//! Batches whose keys are read before they are written.

ghost use Rattle.std.specs.Prelude.{◌≡◌, ◌≢◌, ◌+◌, ◌-◌, ◌^◌, ◌++◌, ◌∷◌, [], ◌≤◌, ◌<◌, ◌↔◌, ◌⊎◌, ℕ};
ghost use Rattle.std.specs.Prelude.{List, Option, Some, IfOk, IfErr, IsErrOf, IsTrue, OnOk, false};
ghost use Rattle.std.specs.Prelude.{length, map};
ghost use Rattle.stateful_db.specs.Batch.{RefusesSeal};
ghost use Rattle.stateful_db.specs.Chain.{has_id, IsPoint};
ghost use Rattle.stateful_db.specs.Disk.{point};
ghost use Rattle.stateful_db_any.specs.Any.{State, size_of, value_at};
ghost use Rattle.stateful_db_any.specs.Shown.{DraftShows, SealShows};
ghost use Rattle.stateful_db_any.specs.Staged.{slot_writes, with_writes, filled};
ghost use Rattle.stateful_db_any.specs.Stored.{standing_of};

use crate::batch::{AnyMerkleized, AnyUnmerkleized};
use crate::database::AnyDb;
use crate::op::duplicate;
use crate::slot::Slot;
use stateful_base::OutOfMemory;
use stateful_db::{BatchError, Unmerkleized};
use stateful_db_log::Field;
use std::marker::Model;
use std::ops::Range;

/// A batch, and the keys that were read for it, in order.
#[derive(Drop)]
pub struct AnyStaged<K: Ord, V> {
    batch: AnyUnmerkleized<K, V>,
    keys: Vec<K>,
}

impl<K: Ord, V> Model for AnyStaged<K, V> {
    ghost use Rattle.stateful_db_any.specs.Staged.{Staging};

    ghost Value = { Staging K V };

    ghost view = { λ a. record { batch = a.batch; keys = a.keys.items } };
}

impl<K: Field, V: Field> AnyUnmerkleized<K, V> {
    /// Reads these keys, and stages them for writes. `StaleRead` exactly where the database is at
    /// no state of the batch's chain.
    pub fn stage(
        self,
        db: &AnyDb<K, V>,
        keys: &[K],
    ) -> Result<(Vec<Option<V>>, AnyStaged<K, V>), BatchError>
        ensures value { IfOk result (λ r. (p : ℕ × State K V) (c : List (ℕ × State K V))
            → DraftShows K.cmp K.fields.spelling V.fields.spelling self (p ∷ c)
            → IsPoint (point (standing_of db.now)) (p ∷ c)
            → r.0.items ≡ map (λ key. value_at K.cmp p.1 key) keys.now) }
        ensures staged { IfOk result (λ r. r.1 ≡ record { batch = self; keys = keys.now }) }
        ensures stale { (c : List (ℕ × State K V))
            → DraftShows K.cmp K.fields.spelling V.fields.spelling self c
            → (IsErrOf result BatchError.StaleRead ↔ (has_id c (standing_of db.now).id ≡ false)) }
        ensures within { IsErrOf result BatchError.Exhausted → ⊥ }
    {
        let values = self.get_many(db, keys)?;
        let mut staged = Vec::new(db.allocator());
        append_each(&mut staged, keys)?;
        let staged = AnyStaged {
            batch: self,
            keys: staged,
        };
        Ok((values, staged))
    }
}

impl<K: Field, V: Field> AnyStaged<K, V> {
    /// The batch with this metadata for its commit.
    pub fn with_metadata(self, metadata: V) -> AnyStaged<K, V>
        ensures keys { result.keys ≡ self.keys }
        ensures batch { result.batch ≡ record self.batch {
          changes = record self.batch.changes { metadata = Some metadata };
        } }
    {
        let AnyStaged { batch, keys } = self;
        AnyStaged {
            batch: batch.with_metadata(metadata),
            keys,
        }
    }

    /// How many keys are staged.
    pub fn len(&self) -> usize
        ensures { result ≡ length self.now.keys }
    {
        self.keys.len()
    }

    /// Whether no key is staged.
    pub fn is_empty(&self) -> bool
        ensures { IsTrue result ↔ (length self.now.keys ≡ 0) }
    {
        self.len() == 0
    }

    /// Reads more keys, and stages them behind the others. `StaleRead` exactly where the database
    /// is at no state of the batch's chain.
    pub fn expand(
        self,
        db: &AnyDb<K, V>,
        keys: &[K],
    ) -> Result<(Range<usize>, Vec<Option<V>>, AnyStaged<K, V>), BatchError>
        ensures start { IfOk result (λ r. r.0.start ≡ length self.keys) }
        ensures end { IfOk result (λ r. r.0.end ≡ length self.keys + length keys.now) }
        ensures value { IfOk result (λ r. (p : ℕ × State K V) (c : List (ℕ × State K V))
            → DraftShows K.cmp K.fields.spelling V.fields.spelling self.batch (p ∷ c)
            → IsPoint (point (standing_of db.now)) (p ∷ c)
            → r.1.items ≡ map (λ key. value_at K.cmp p.1 key) keys.now) }
        ensures staged { IfOk result (λ r. r.2 ≡ record self { keys = self.keys ++ keys.now }) }
        ensures stale { (c : List (ℕ × State K V))
            → DraftShows K.cmp K.fields.spelling V.fields.spelling self.batch c
            → (IsErrOf result BatchError.StaleRead ↔ (has_id c (standing_of db.now).id ≡ false)) }
        ensures within { IsErrOf result BatchError.Exhausted → ⊥ }
    {
        let AnyStaged {
            batch,
            keys: mut staged,
        } = self;
        let values = batch.get_many(db, keys)?;
        let start = staged.len();
        append_each(&mut staged, keys)?;
        let range = start..staged.len();
        let staged = AnyStaged {
            batch,
            keys: staged,
        };
        Ok((range, values, staged))
    }

    /// The seal of the batch with the writes of these slots, a slot for each staged key, and then
    /// with the other ones. `SlotCount` exactly where the numbers of slots and of staged keys
    /// differ; else `StaleRead` exactly where the database is at no state of the batch's chain;
    /// else as `AnyUnmerkleized::merkleize`.
    pub fn merkleize(
        self,
        db: &AnyDb<K, V>,
        slots: Vec<Slot<V>>,
        unstaged: Vec<(K, Option<V>)>,
    ) -> Result<AnyMerkleized<K, V>, BatchError>
        ensures ok { let u = filled K.cmp self slots.items unstaged.items in
            IfOk result (λ m. (c : List (ℕ × State K V))
            → DraftShows K.cmp K.fields.spelling V.fields.spelling u c
            → IsPoint (point (standing_of db.now)) c
            → SealShows K.cmp K.fields.spelling V.fields.spelling m c) }
        ensures count { IfOk result (λ _. length slots.items ≡ length self.keys) }
        ensures counted { length slots.items ≢ length self.keys
            → IsErrOf result (BatchError.SlotCount (length self.keys) (length slots.items)) }
        ensures stale { let u = filled K.cmp self slots.items unstaged.items in
            (c : List (ℕ × State K V))
            → DraftShows K.cmp K.fields.spelling V.fields.spelling u c
            → length slots.items ≡ length self.keys
            → (IsErrOf result BatchError.StaleRead ↔ (has_id c (standing_of db.now).id ≡ false)) }
        ensures exhausted { let u = filled K.cmp self slots.items unstaged.items in
            (p : ℕ × State K V) (c : List (ℕ × State K V))
            → DraftShows K.cmp K.fields.spelling V.fields.spelling u (p ∷ c)
            → IsErrOf result BatchError.Exhausted
            → 2 ^ 64 - 1 ≤ size_of p.1 }
        ensures within { let u = filled K.cmp self slots.items unstaged.items in
            IfOk result (λ m. (p : ℕ × State K V) (c : List (ℕ × State K V))
            → DraftShows K.cmp K.fields.spelling V.fields.spelling u (p ∷ c)
            → size_of p.1 < 2 ^ 64 - 1) }
        ensures why { IfErr result (λ why. (length slots.items ≢ length self.keys) ⊎ RefusesSeal why) }
    {
        let expected = self.len();
        let given = slots.len();
        if given != expected {
            return Err(BatchError::SlotCount { expected, given });
        }
        let stands = self.batch.stands_on(db.log.id());
        if !stands {
            return Err(BatchError::StaleRead);
        }
        match self.into_batch(slots, unstaged) {
            Ok(batch) => batch.merkleize(db),
            Err(_) => Err(BatchError::OutOfMemory),
        }
    }

    /// The batch with the writes of these slots, and then with the other ones.
    fn into_batch(
        self,
        slots: Vec<Slot<V>>,
        unstaged: Vec<(K, Option<V>)>,
    ) -> Result<AnyUnmerkleized<K, V>, OutOfMemory>
        requires { length slots.items ≡ length self.keys }
        ensures { IfOk result (λ u. u ≡ filled K.cmp self slots.items unstaged.items) }
    {
        let AnyStaged { batch, keys } = self;
        let batch = put_slots(batch, keys.as_slice(), slots.as_slice())?;
        let batch = put_each(batch, unstaged.as_slice())?;
        Ok(batch)
    }
}

/// Appends copies of these keys. A refusal may leave some of them.
fn append_each<K: Field>(out: &mut Vec<K>, keys: &[K]) -> Result<(), OutOfMemory>
    ensures { OnOk result (out.new.items ≡ out.old.items ++ keys.now) }
{
    for key in keys {
        out.push(key.duplicate()?)?;
    }
    Ok(())
}

/// The batch with the writes of staged keys.
fn put_slots<K: Field, V: Field>(
    batch: AnyUnmerkleized<K, V>,
    keys: &[K],
    slots: &[Slot<V>],
) -> Result<AnyUnmerkleized<K, V>, OutOfMemory>
    requires { length slots.now ≤ length keys.now }
    ensures { IfOk result (λ u. u ≡ with_writes K.cmp batch (slot_writes keys.now slots.now)) }
{
    let mut batch = batch;
    for (i, slot) in slots.iter().enumerate() {
        batch = put_slot(batch, &keys[i], slot)?;
    }
    Ok(batch)
}

/// The batch with the write of one staged key.
fn put_slot<K: Field, V: Field>(
    batch: AnyUnmerkleized<K, V>,
    key: &K,
    slot: &Slot<V>,
) -> Result<AnyUnmerkleized<K, V>, OutOfMemory>
    ensures { IfOk result (λ u.
        u ≡ with_writes K.cmp batch (slot_writes (key.now ∷ []) (slot.now ∷ []))) }
{
    match slot {
        Slot::Put(value) => {
            let value = value.duplicate()?;
            batch.write(key.duplicate()?, Some(value))
        }
        Slot::Delete => batch.write(key.duplicate()?, None),
        Slot::Keep => Ok(batch),
    }
}

/// The batch with these writes.
fn put_each<K: Field, V: Field>(
    batch: AnyUnmerkleized<K, V>,
    writes: &[(K, Option<V>)],
) -> Result<AnyUnmerkleized<K, V>, OutOfMemory>
    ensures { IfOk result (λ u. u ≡ with_writes K.cmp batch writes.now) }
{
    let mut batch = batch;
    for (key, value) in writes {
        batch = batch.write(key.duplicate()?, duplicate(value)?)?;
    }
    Ok(batch)
}
