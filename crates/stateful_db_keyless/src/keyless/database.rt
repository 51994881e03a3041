//! The keyless database.

ghost use Rattle.std.specs.Prelude.{◌≡◌};

use super::applied::apply_to;
use super::batch::{KeylessMerkleized, KeylessUnmerkleized};
use super::medium::KeylessMedium;
use super::pass::KeylessPass;
use super::range::check;
use super::reads::read;
use super::state::KeylessState;
use stateful_base::{Digest, Faulty, Location, OutOfMemory, Target};
use stateful_db::{
    BatchContext, BatchError, Broken, DbCall, Exhausted, FlushToken, InitError, ManagedDb,
    Merkleized, Why,
};
use stateful_db_compact::KeylessOp;
use stateful_db_log::{Field, LogMedium, OpenLog};
use stateful_db_overlay::Layers;
use std::ops::Range;

/// A log of values, which keeps each operation from its floor on once.
#[derive(Drop)]
pub struct KeylessDb<V> {
    pub(crate) log: OpenLog<KeylessOp<V>>,
}

impl<V: Drop> KeylessDb<V> {
    ghost use Rattle.std.specs.Prelude.{◌≡◌, IsTrue};
    ghost use Rattle.std.specs.Option.{option_copied};
    ghost use Rattle.stateful_db_log.specs.Logs as logs;
    ghost use Rattle.stateful_db_keyless.specs.KeylessStored.{standing_of, next_here, calls_here};
    ghost use Rattle.stateful_db_keyless.specs.KeylessStored.{held_here};
    ghost use Rattle.stateful_db_keyless.specs.Reads.{metadata_of};
    ghost use Rattle.stateful_db_keyless.specs.Through.{IsWhole};

    /// The digest behind all operations.
    pub fn root(&self) -> Digest
        ensures { result ≡ (standing_of self.now).disk.newest.target.root }
    {
        self.log.target().root
    }

    /// Where the range of the newest state begins and ends.
    pub fn range(&self) -> Range<u64>
        ensures { let target = (standing_of self.now).disk.newest.target in
            result ≡ record { start = target.start.0; end = target.end.0 } }
    {
        let target = self.log.target();
        target.start.0..target.end.0
    }

    /// The log of its operations.
    pub fn log(&self) -> &OpenLog<KeylessOp<V>>
        ensures standing { logs.standing_of result.now ≡ standing_of self.now }
        ensures next { logs.next_here result.now ≡ next_here self.now }
        ensures calls { logs.calls_here result.now ≡ calls_here self.now }
        ensures held { logs.held_here result.now ≡ held_here self.now }
    {
        &self.log
    }

    /// The metadata of the last commit.
    pub fn get_metadata(&self) -> Option<&V>
        ensures { option_copied result ≡ metadata_of (standing_of self.now).disk.newest }
    {
        let last = self.log.target().end.0.saturating_sub(1);
        match self.log.get(last) {
            Some(KeylessOp::Commit { metadata, .. }) => metadata.as_ref(),
            Some(KeylessOp::Append(_)) => None,
            None => None,
        }
    }

    /// Whether the range of its newest checkpoint isn't turned round, as none is.
    pub(crate) fn is_whole(&self) -> bool
        ensures { IsTrue result → IsWhole (standing_of self.now).disk.newest }
    {
        let range = self.log.target();
        range.start.0 <= range.end.0
    }
}

impl<V: Field> KeylessDb<V> {
    ghost use Rattle.std.specs.Prelude.{◌≡◌, ◌≤◌, ◌∷◌, [], ◌⊎◌, IfOk, IfErr, IsErrOf, Some};
    ghost use Rattle.stateful_db_keyless.specs.KeylessStored.{standing_of};
    ghost use Rattle.stateful_db_keyless.specs.Reads.{log_of, unread, value_at};

    /// The value at a location, or the metadata of a commit there. `LocationOutOfBounds` exactly at
    /// or past the end, and `BelowInactivityFloor` exactly below the floor.
    pub fn get(&self, location: Location) -> Result<Option<V>, BatchError>
        ensures value { IfOk result (λ value.
            value ≡ value_at (log_of (standing_of self.now).disk.newest) location) }
        ensures refused { (why : BatchError)
            → unread (log_of (standing_of self.now).disk.newest) (location ∷ []) ≡ Some why
            → IsErrOf result why }
        ensures cause { IfErr result (λ why.
            (unread (log_of (standing_of self.now).disk.newest) (location ∷ []) ≡ Some why)
            ⊎ (why ≡ BatchError.OutOfMemory)) }
    {
        let range = self.log.target();
        check(range.start.0, range.end.0, 0, &[location])?;
        Ok(self.value(location)?)
    }

    /// The value at a location that isn't below the floor.
    pub(crate) fn value(&self, location: Location) -> Result<Option<V>, OutOfMemory>
        ensures { IfOk result (λ value. let s = (standing_of self.now).disk.newest in
            s.target.start.0 ≤ location.0
            → value ≡ value_at (log_of s) location) }
    {
        read(self.log.get(location.0))
    }
}

impl<V: Drop> Faulty for KeylessDb<V> {
    ghost use Rattle.stateful_db_keyless.specs.KeylessStored.{calls_here};

    ghost count = { λ d. (calls_here d).faults };

    fn faults(&self) -> u64 {
        self.log.faults()
    }
}

impl<V: Field> ManagedDb for KeylessDb<V> {
    ghost use Rattle.std.specs.Prelude.{◌≡◌, ◌≢◌, ℕ, ◌+◌, ◌-◌, ◌^◌, ◌≤◌, ◌<◌, List, ◌∷◌, ◌++◌, []};
    ghost use Rattle.std.specs.Prelude.{IfOk, IfErr, IsErrAnd, Option, ◌↔◌, ◌⊎◌, Contains, length};
    ghost use Rattle.std.specs.Prelude.{Some, refl};
    ghost use Rattle.stateful_base.specs.Causes.{Rose};
    ghost use Rattle.stateful_db.specs.Disk.{IsEither, IsCrash, place, applied, flushed, point};
    ghost use Rattle.stateful_db.specs.Reopening.{Reopens, FailsToReopen, HasNone, KeepsDurable};
    ghost use Rattle.stateful_db.specs.Reopening.{pruned_to};
    ghost use Rattle.stateful_db.specs.Tokens.{without};
    ghost use Rattle.stateful_db.specs.Calls.{IsListed, Called};
    ghost use Rattle.stateful_db_log.specs.Held.{until, further, from};
    ghost use Rattle.stateful_db_log.specs.Linking.{log_link};
    ghost use Rattle.stateful_db_log.specs.Logs.{begin_of};
    ghost use Rattle.stateful_db_compact.specs.Ops.{op_bytes};
    ghost use Rattle.stateful_db_keyless.specs.KeylessSound.{sound_medium, sound_database, numbered};
    ghost use Rattle.stateful_db_keyless.specs.Keyless.{State, begun, initial, target_of};
    ghost use Rattle.stateful_db_keyless.specs.KeylessShown.{DraftShows, SealShows};
    ghost use Rattle.stateful_db_keyless.specs.KeylessStored.{disk_of, next_of, calls_of, standing_of};
    ghost use Rattle.stateful_db_keyless.specs.KeylessStored.{next_here, calls_here, held_of};
    ghost use Rattle.stateful_db_keyless.specs.KeylessStored.{held_here, sealed_ops};

    type State = KeylessState<V>;

    type Unmerkleized = KeylessUnmerkleized<V>;

    type Merkleized = KeylessMerkleized<V>;

    type Config = ();

    type SyncTarget = Target;

    type Medium = KeylessMedium<V>;

    type Pass = KeylessPass<V>;

    ghost standing = { standing_of };

    ghost begun = { begun V.fields.spelling };

    ghost target_of = { target_of };

    ghost initial = { initial V.fields.spelling };

    ghost next = { next_here };

    ghost disk = { disk_of };

    ghost next_of = { next_of };

    ghost calls = { λ d. Some (calls_here d) };

    ghost calls_of = { λ m. Some (calls_of m) };

    /// Takes no memory. `Database` exactly where the call is listed as a failing one or no kept
    /// checkpoint has the expected end.
    fn init(
        medium: KeylessMedium<V>,
        _config: &(),
        expected: Option<Target>,
    ) -> Result<KeylessDb<V>, (KeylessMedium<V>, InitError)>
        ensures ok { IfOk result (λ db.
            Reopens target_of (λ t. t) expected (disk_of medium) (standing_of db)) }
        ensures ok_next { IfOk result (λ db. next_here db ≡ next_of medium) }
        ensures ok_count { IfOk result (λ db. (calls_of medium).faults ≤ (calls_here db).faults) }
        ensures ok_called { IfOk result (λ db.
            Called DbCall.Init (calls_of medium) (calls_here db)) }
        ensures ok_held { IfOk result (λ db. held_here db
            ≡ until (held_of medium) (standing_of db).disk.newest.target.end.0) }
        ensures err { IfErr result (λ e. disk_of e.0 ≡ disk_of medium) }
        ensures err_next { IfErr result (λ e. next_of e.0 ≡ next_of medium) }
        ensures err_count { IfErr result (λ e. (calls_of medium).faults ≤ (calls_of e.0).faults) }
        ensures err_called { IfErr result (λ e. Called DbCall.Init (calls_of medium) (calls_of e.0)) }
        ensures err_held { IfErr result (λ e. held_of e.0 ≡ held_of medium) }
        ensures cause { IfErr result (λ e.
            FailsToReopen target_of (λ t. t) expected (disk_of medium)
            (Rose (calls_of medium).faults (calls_of e.0).faults) e.1) }
        ensures listed { IsListed (calls_of medium) DbCall.Init
            → IsErrAnd result (λ e. e.1 ≡ InitError.Database) }
        ensures unlisted { IfErr result (λ e.
            e.1 ≡ InitError.Database
            → IsListed (calls_of medium) DbCall.Init
            ⊎ HasNone target_of (λ t. t) expected (disk_of medium)) }
        ensures memory { IfErr result (λ e. e.1 ≢ InitError.OutOfMemory) }
    {
        let KeylessMedium { mut medium } = medium;
        let number = match medium.number_to_open(expected) {
            Ok(number) => number,
            Err(why) => return Err((KeylessMedium { medium }, why)),
        };
        Ok(KeylessDb {
            log: medium.open(number),
        })
    }

    fn initial_sync_target() -> Target {
        Target {
            root: Digest::of(&[0; 42]),
            start: Location(0),
            end: Location(1),
        }
    }

    fn draw(&mut self) -> Result<u64, Exhausted>
        ensures id { IfOk result (λ n.
            (n ≡ next_here self.old) × (next_here self.new ≡ next_here self.old + 1)) }
        ensures exhausted { IfErr result (λ _.
            (2 ^ 64 - 1 ≤ next_here self.old) × (next_here self.new ≡ next_here self.old)) }
        ensures within { IfOk result (λ n. n < 2 ^ 64 - 1) }
        ensures standing { standing_of self.new ≡ standing_of self.old }
        ensures count { (calls_here self.new).faults ≡ (calls_here self.old).faults }
        ensures calls { calls_here self.new ≡ calls_here self.old }
        ensures held { held_here self.new ≡ held_here self.old }
    {
        self.log.draw()
    }

    fn new_batch(
        database: BatchContext<'_, KeylessDb<V>>,
    ) -> Result<KeylessUnmerkleized<V>, OutOfMemory>
        ensures { let s = standing_of database.entry.database.now in
            IfOk result (λ u. s.id < database.entry.id
            → DraftShows V.fields.spelling u
            ((database.entry.id, begun V.fields.spelling s.disk.newest) ∷ point s ∷ [])) }
    {
        let (db, id) = database.into_parts();
        let target = db.log.target();
        Ok(KeylessUnmerkleized {
            id,
            below: Layers::over(db.log.allocator(), db.log.id()),
            size: target.end.0,
            floor: target.start.0,
            ops: Vec::new(db.log.allocator()),
            before: target.root,
            metadata: None,
            asked: 0,
        })
    }

    fn fork(
        database: BatchContext<'_, KeylessDb<V>>,
        parent: &KeylessMerkleized<V>,
    ) -> Result<KeylessUnmerkleized<V>, OutOfMemory>
        ensures { let p = point (standing_of database.entry.database.now) in
            IfOk result (λ u. (q : ℕ × State V) (above older : List (ℕ × State V))
            → SealShows parent.now (q ∷ above ++ p ∷ older)
            → q.0 < database.entry.id
            → DraftShows V.fields.spelling u
            ((database.entry.id, begun V.fields.spelling q.1) ∷ q ∷ above ++ p ∷ [])) }
    {
        let (db, id) = database.into_parts();
        let mut batch = parent.new_batch(id)?;
        batch.below.cut(db.log.id());
        Ok(batch)
    }

    fn batch_target(batch: &KeylessMerkleized<V>) -> Target {
        batch.target()
    }

    fn matches_sync_target(batch: &KeylessMerkleized<V>, target: &Target) -> bool {
        batch.target() == *target
    }

    /// `Failed` exactly where the call is listed as a failing one. A failed apply leaves the
    /// checkpoints. A state that isn't greater in size than the newest one, which is of no batch on
    /// it, is refused as if memory were wanting. Operations are copied only where other batches
    /// share them.
    fn apply(self, batch: KeylessMerkleized<V>) -> Result<KeylessDb<V>, Broken<KeylessMedium<V>>>
        ensures ok { IfOk result (λ db. (p : ℕ × State V) (c : List (ℕ × State V))
            → SealShows batch (p ∷ point (standing_of self) ∷ c)
            → standing_of db
            ≡ record (standing_of self) { id = p.0; disk = applied (standing_of self).disk p.1 }) }
        ensures ok_out { IfOk result (λ db. (standing_of db).out ≡ (standing_of self).out) }
        ensures ok_next { IfOk result (λ db. next_here db ≡ next_here self) }
        ensures ok_count { IfOk result (λ db. (calls_here self).faults ≤ (calls_here db).faults) }
        ensures ok_called { IfOk result (λ db.
            Called DbCall.Apply (calls_here self) (calls_here db)) }
        ensures ok_held { IfOk result (λ db.
            held_here db ≡ further (held_here self) (sealed_ops batch)) }
        ensures err { IfErr result (λ b. (p : ℕ × State V) (c : List (ℕ × State V))
            → SealShows batch (p ∷ point (standing_of self) ∷ c)
            → IsEither (standing_of self).disk (applied (standing_of self).disk p.1)
            (disk_of b.medium)) }
        ensures err_next { IfErr result (λ b. next_of b.medium ≡ next_here self) }
        ensures err_count { IfErr result (λ b. (calls_here self).faults ≤ (calls_of b.medium).faults) }
        ensures err_called { IfErr result (λ b.
            Called DbCall.Apply (calls_here self) (calls_of b.medium)) }
        ensures err_held { IfErr result (λ b. held_of b.medium ≡ held_here self) }
        ensures failed { IfErr result (λ b.
            b.why ≡ Why.Failed → Rose (calls_here self).faults (calls_of b.medium).faults) }
        ensures listed { IsErrAnd result (λ b. b.why ≡ Why.Failed)
            ↔ IsListed (calls_here self) DbCall.Apply }
        ensures kept { IfErr result (λ b. disk_of b.medium ≡ (standing_of self).disk) }
    {
        match apply_to(self.log, batch) {
            Ok(log) => Ok(KeylessDb { log }),
            Err(change) => Err(broken(change)),
        }
    }

    /// Takes no memory. It fails exactly where the call is listed as a failing one.
    fn finalize(self) -> Result<(KeylessDb<V>, FlushToken), Broken<KeylessMedium<V>>>
        requires { length (standing_of self).out < 2 }
        ensures ok { IfOk result (λ r. standing_of r.0
            ≡ record (standing_of self) { out = (standing_of self).out ++ r.1.place ∷ [] }) }
        ensures ok_place { IfOk result (λ r. r.1.place ≡ place (standing_of self).disk) }
        ensures ok_next { IfOk result (λ r. next_here r.0 ≡ next_here self) }
        ensures ok_count { IfOk result (λ r. (calls_here self).faults ≤ (calls_here r.0).faults) }
        ensures ok_called { IfOk result (λ r.
            Called DbCall.Finalize (calls_here self) (calls_here r.0)) }
        ensures ok_held { IfOk result (λ r. held_here r.0 ≡ held_here self) }
        ensures err { IfErr result (λ b. disk_of b.medium ≡ (standing_of self).disk) }
        ensures err_next { IfErr result (λ b. next_of b.medium ≡ next_here self) }
        ensures err_count { IfErr result (λ b. (calls_here self).faults ≤ (calls_of b.medium).faults) }
        ensures err_called { IfErr result (λ b.
            Called DbCall.Finalize (calls_here self) (calls_of b.medium)) }
        ensures err_held { IfErr result (λ b. held_of b.medium ≡ held_here self) }
        ensures failed { IfErr result (λ b.
            b.why ≡ Why.Failed → Rose (calls_here self).faults (calls_of b.medium).faults) }
        ensures listed { IsErrAnd result (λ b. b.why ≡ Why.Failed)
            ↔ IsListed (calls_here self) DbCall.Finalize }
        ensures memory { IfErr result (λ b. b.why ≢ Why.OutOfMemory) }
    {
        match self.log.finalize() {
            Ok((log, token)) => Ok((KeylessDb { log }, token)),
            Err(change) => Err(broken(change)),
        }
    }

    /// Takes no memory. It fails exactly where the call is listed as a failing one, and leaves the
    /// durable place.
    fn flush(self, token: FlushToken) -> Result<KeylessDb<V>, Broken<KeylessMedium<V>>>
        requires { Contains (standing_of self).out token.place }
        ensures ok { IfOk result (λ db. standing_of db ≡ record (standing_of self) {
          disk = flushed (standing_of self).disk token.place;
          out = without token.place (standing_of self).out;
        }) }
        ensures ok_next { IfOk result (λ db. next_here db ≡ next_here self) }
        ensures ok_count { IfOk result (λ db. (calls_here self).faults ≤ (calls_here db).faults) }
        ensures ok_called { IfOk result (λ db.
            Called DbCall.Flush (calls_here self) (calls_here db)) }
        ensures ok_held { IfOk result (λ db. held_here db ≡ held_here self) }
        ensures err { IfErr result (λ b. IsEither (standing_of self).disk
            (flushed (standing_of self).disk token.place) (disk_of b.medium)) }
        ensures err_next { IfErr result (λ b. next_of b.medium ≡ next_here self) }
        ensures err_count { IfErr result (λ b. (calls_here self).faults ≤ (calls_of b.medium).faults) }
        ensures err_called { IfErr result (λ b.
            Called DbCall.Flush (calls_here self) (calls_of b.medium)) }
        ensures err_held { IfErr result (λ b. held_of b.medium ≡ held_here self) }
        ensures failed { IfErr result (λ b.
            b.why ≡ Why.Failed → Rose (calls_here self).faults (calls_of b.medium).faults) }
        ensures listed { IsErrAnd result (λ b. b.why ≡ Why.Failed)
            ↔ IsListed (calls_here self) DbCall.Flush }
        ensures kept { IfErr result (λ b. disk_of b.medium ≡ (standing_of self).disk) }
        ensures memory { IfErr result (λ b. b.why ≢ Why.OutOfMemory) }
    {
        match self.log.flush(token) {
            Ok(log) => Ok(KeylessDb { log }),
            Err(change) => Err(broken(change)),
        }
    }

    /// Takes no memory. It fails exactly where the call is listed as a failing one, and leaves the
    /// checkpoints.
    fn prune(self, target: &Target) -> Result<KeylessDb<V>, Broken<KeylessMedium<V>>>
        requires idle { (standing_of self).out ≡ [] }
        requires kept { KeepsDurable target_of (λ t. t) target.now (standing_of self).disk }
        ensures ok { IfOk result (λ db. standing_of db ≡ record (standing_of self) {
          disk = pruned_to target_of (λ t. t) target.now (standing_of self).disk;
        }) }
        ensures ok_next { IfOk result (λ db. next_here db ≡ next_here self) }
        ensures ok_count { IfOk result (λ db. (calls_here self).faults ≤ (calls_here db).faults) }
        ensures ok_called { IfOk result (λ db.
            Called DbCall.Prune (calls_here self) (calls_here db)) }
        ensures ok_held { IfOk result (λ db. held_here db
            ≡ from (log_link (op_bytes V.fields.spelling)) (held_here self)
            (begin_of (standing_of db).disk)) }
        ensures err { IfErr result (λ b. IsEither (standing_of self).disk
            (pruned_to target_of (λ t. t) target.now (standing_of self).disk)
            (disk_of b.medium)) }
        ensures err_next { IfErr result (λ b. next_of b.medium ≡ next_here self) }
        ensures err_count { IfErr result (λ b. (calls_here self).faults ≤ (calls_of b.medium).faults) }
        ensures err_called { IfErr result (λ b.
            Called DbCall.Prune (calls_here self) (calls_of b.medium)) }
        ensures err_held { IfErr result (λ b. held_of b.medium ≡ held_here self) }
        ensures failed { IfErr result (λ b.
            b.why ≡ Why.Failed → Rose (calls_here self).faults (calls_of b.medium).faults) }
        ensures listed { IsErrAnd result (λ b. b.why ≡ Why.Failed)
            ↔ IsListed (calls_here self) DbCall.Prune }
        ensures kept { IfErr result (λ b. disk_of b.medium ≡ (standing_of self).disk) }
        ensures memory { IfErr result (λ b. b.why ≢ Why.OutOfMemory) }
    {
        let count = self.log.number_with_end(target.end).unwrap_or(0);
        match self.log.prune_first(count) {
            Ok(log) => Ok(KeylessDb { log }),
            Err(change) => Err(broken(change)),
        }
    }

    fn sync_target(&self) -> Target {
        self.log.target()
    }

    fn close(self) -> KeylessMedium<V>
        ensures disk { disk_of result ≡ (standing_of self).disk }
        ensures next { next_of result ≡ next_here self }
        ensures count { (calls_of result).faults ≡ (calls_here self).faults }
        ensures calls { calls_of result ≡ calls_here self }
        ensures held { held_of result ≡ held_here self }
    {
        KeylessMedium {
            medium: self.log.close(),
        }
    }

    fn crash(medium: KeylessMedium<V>, keep: usize) -> KeylessMedium<V>
        ensures disk { IsCrash keep (disk_of medium) (disk_of result) }
        ensures next { next_of result ≡ next_of medium }
        ensures count { (calls_of result).faults ≡ (calls_of medium).faults }
        ensures calls { calls_of result ≡ calls_of medium }
        ensures held { held_of result
            ≡ until (held_of medium) (disk_of result).newest.target.end.0 }
    {
        KeylessMedium {
            medium: medium.medium.cut(keep),
        }
    }

    ghost sound = { sound_medium };

    ghost sound_here = { sound_database };

    ghost numbered = { numbered };

    ghost counts = { λ d. refl };

    ghost counts_of = { λ m. refl };

    ghost same_point = { λ d. refl };

    ghost same_begun = { λ s. refl };

    ghost same_end = { λ s. refl };

    ghost same_root = { λ s. refl };

    ghost same_sealed = { λ m c shown. shown };

    ghost same_opened = { λ u c shown. shown };
}

/// The failed change of a keyless database.
fn broken<V: Drop>(change: Broken<LogMedium<KeylessOp<V>>>) -> Broken<KeylessMedium<V>>
    ensures medium { result.medium.medium ≡ change.medium }
    ensures why { result.why ≡ change.why }
{
    let Broken { medium, why } = change;
    Broken {
        medium: KeylessMedium { medium },
        why,
    }
}
