//! The database of keys.

ghost use Rattle.std.specs.Prelude.{◌≡◌};
ghost use Rattle.stateful_db_any.specs.Keyed.{HasLive};

use crate::applied::longer;
use crate::batch::{AnyMerkleized, AnyUnmerkleized};
use crate::index::index_of;
use crate::medium::AnyMedium;
use crate::op::AnyOp;
use crate::pass::AnyPass;
use crate::reads::value_in;
use crate::state::AnyState;
use stateful_base::{Digest, Faulty, Items, Location, OutOfMemory, Target};
use stateful_db::{
    BatchContext, BatchError, Broken, DbCall, Exhausted, FlushToken, InitError, ManagedDb,
    Merkleized, Why,
};
use stateful_db_log::{Field, LogMedium, OpenLog};
use stateful_db_overlay::Layers;
use std::alloc::Global;
use std::collections::BTreeMap;
use std::ops::Range;

/// A map that is kept as a log of operations, each from its floor on once. The index has the
/// location of each live key's last write.
#[derive(Drop)]
pub struct AnyDb<K: Ord, V> {
    pub(crate) log: OpenLog<AnyOp<K, V>>,
    pub(crate) index: BTreeMap<K, u64>,
    ghost indexed: { HasLive K.cmp log index.entries },
}

impl<K: Ord, V> Faulty for AnyDb<K, V> {
    ghost use Rattle.stateful_db_any.specs.Stored.{calls_here};

    ghost count = { λ d. (calls_here d).faults };

    fn faults(&self) -> u64 {
        self.log.faults()
    }
}

impl<K: Field, V: Field> AnyDb<K, V> {
    ghost use Rattle.std.specs.Prelude.{◌≡◌, IfOk, IsErrOf, IfErr, IsTrue};
    ghost use Rattle.std.specs.Option.{option_copied};
    ghost use Rattle.stateful_db_log.specs.Logs as logs;
    ghost use Rattle.stateful_db_any.specs.Any.{metadata_of, value_at, IsWhole};
    ghost use Rattle.stateful_db_any.specs.Entries.{AreLive};
    ghost use Rattle.stateful_db_any.specs.Stored.{standing_of, held_here};

    /// The digest behind all operations.
    pub fn root(&self) -> Digest
        ensures { result ≡ (standing_of self.now).disk.newest.target.root }
    {
        self.log.target().root
    }

    /// The value at a key.
    pub fn get(&self, key: &K) -> Result<Option<V>, BatchError>
        ensures value { IfOk result (λ value.
            value ≡ value_at K.cmp (standing_of self.now).disk.newest key.now) }
        ensures cause { IfErr result (λ e. e ≡ BatchError.OutOfMemory) }
    {
        let none = Vec::new(self.log.allocator());
        match value_in(none.as_slice(), self, key) {
            Ok(value) => Ok(value),
            Err(_) => Err(BatchError::OutOfMemory),
        }
    }

    /// The live keys in ascending order, each with its value.
    pub fn entries(&self, alloc: Global) -> Result<Items<(K, V)>, OutOfMemory>
        ensures { IfOk result (λ entries.
            AreLive K.cmp (standing_of self.now).disk.newest entries) }
    {
        let mut entries = Items::new(alloc);
        for key in self.index.keys() {
            match self.get(key) {
                Ok(Some(value)) => entries.push((key.duplicate()?, value))?,
                Ok(None) => {}
                Err(_) => return Err(OutOfMemory),
            }
        }
        Ok(entries)
    }

    /// Where the range of the newest state begins and ends.
    pub fn range(&self) -> Range<u64>
        ensures { let target = (standing_of self.now).disk.newest.target in
            result ≡ record { start = target.start.0; end = target.end.0 } }
    {
        let target = self.log.target();
        target.start.0..target.end.0
    }

    /// Its log, which tells the operations that are held.
    pub fn log(&self) -> &OpenLog<AnyOp<K, V>>
        ensures standing { logs.standing_of result.now ≡ standing_of self.now }
        ensures held { logs.held_here result.now ≡ held_here self.now }
    {
        &self.log
    }

    /// Its allocator.
    pub(crate) fn allocator(&self) -> Global {
        self.log.allocator()
    }

    /// Whether the range of its newest checkpoint isn't turned round, as none is.
    #[tactic(auto, using(stateful_db_log::specs::LogSound::length_newest))]
    pub(crate) fn is_whole(&self) -> bool
        ensures { IsTrue result → IsWhole (standing_of self.now).disk.newest }
    {
        let range = self.log.target();
        range.start.0 <= range.end.0
    }

    /// The metadata of the last commit.
    pub fn get_metadata(&self) -> Option<&V>
        ensures { option_copied result ≡ metadata_of (standing_of self.now).disk.newest.kept }
    {
        let last = self.log.target().end.0.saturating_sub(1);
        match self.log.get(last) {
            Some(AnyOp::Commit(metadata)) => metadata.as_ref(),
            Some(AnyOp::Update(_, _)) => None,
            Some(AnyOp::Delete(_)) => None,
            None => None,
        }
    }
}

impl<K: Field, V: Field> ManagedDb for AnyDb<K, V> {
    ghost use Rattle.std.specs.Prelude.{◌≡◌, ◌≢◌, ℕ, ◌+◌, ◌-◌, ◌^◌, ◌≤◌, ◌<◌, List, ◌∷◌, ◌++◌, []};
    ghost use Rattle.std.specs.Prelude.{IfOk, IfErr, IsErrAnd, Option, ◌↔◌, ◌⊎◌, Contains, length};
    ghost use Rattle.std.specs.Prelude.{Some, refl};
    ghost use Rattle.stateful_base.specs.Causes.{Rose};
    ghost use Rattle.stateful_db.specs.Disk.{IsEither, IsCrash, place, applied, flushed, point};
    ghost use Rattle.stateful_db.specs.Reopening.{Reopens, FailsToReopen, HasNone, KeepsDurable};
    ghost use Rattle.stateful_db.specs.Reopening.{pruned_to};
    ghost use Rattle.stateful_db.specs.Tokens.{without};
    ghost use Rattle.stateful_db.specs.Calls.{IsListed, Called};
    ghost use Rattle.stateful_db_log.specs.Linking.{log_link};
    ghost use Rattle.stateful_db_log.specs.Held.{until, further, from};
    ghost use Rattle.stateful_db_log.specs.Logs.{begin_of};
    ghost use Rattle.stateful_db_any.specs.AnySound.{sound_medium, sound_database, numbered};
    ghost use Rattle.stateful_db_any.specs.Any.{State, begun, initial, target_of};
    ghost use Rattle.stateful_db_any.specs.Ops.{op_bytes};
    ghost use Rattle.stateful_db_any.specs.Shown.{DraftShows, SealShows, ops_in};
    ghost use Rattle.stateful_db_any.specs.Stored.{disk_of, next_of, calls_of, standing_of, next_here};
    ghost use Rattle.stateful_db_any.specs.Stored.{calls_here, held_of, held_here};

    type State = AnyState<K, V>;

    type Unmerkleized = AnyUnmerkleized<K, V>;

    type Merkleized = AnyMerkleized<K, V>;

    type Config = ();

    type SyncTarget = Target;

    type Medium = AnyMedium<K, V>;

    type Pass = AnyPass<K, V>;

    ghost standing = { standing_of };

    ghost begun = { begun K.cmp K.fields.spelling V.fields.spelling };

    ghost target_of = { target_of };

    ghost initial = { initial K.fields.spelling V.fields.spelling };

    ghost next = { next_here };

    ghost disk = { disk_of };

    ghost next_of = { next_of };

    ghost calls = { λ d. Some (calls_here d) };

    ghost calls_of = { λ m. Some (calls_of m) };

    /// `Database` exactly where the call is listed as a failing one or no kept checkpoint has the
    /// expected end. The index takes memory.
    fn init(
        medium: AnyMedium<K, V>,
        _config: &(),
        expected: Option<Target>,
    ) -> Result<AnyDb<K, V>, (AnyMedium<K, V>, InitError)>
        ensures ok { IfOk result (λ db.
            Reopens target_of (λ t. t) expected (disk_of medium) (standing_of db)) }
        ensures ok_next { IfOk result (λ db. next_here db ≡ next_of medium) }
        ensures ok_count { IfOk result (λ db. (calls_of medium).faults ≤ (calls_here db).faults) }
        ensures ok_called { IfOk result (λ db.
            Called DbCall.Init (calls_of medium) (calls_here db)) }
        ensures ok_held { IfOk result (λ db.
            held_here db ≡ until (held_of medium) (standing_of db).disk.newest.target.end.0) }
        ensures err { IfErr result (λ e. disk_of e.0 ≡ disk_of medium) }
        ensures err_next { IfErr result (λ e. next_of e.0 ≡ next_of medium) }
        ensures err_count { IfErr result (λ e. (calls_of medium).faults ≤ (calls_of e.0).faults) }
        ensures err_called { IfErr result (λ e. Called DbCall.Init (calls_of medium) (calls_of e.0)) }
        ensures err_held { IfErr result (λ e. held_of e.0 ≡ held_of medium) }
        ensures cause { IfErr result (λ e.
            FailsToReopen target_of (λ t. t) expected (disk_of medium)
            (Rose (calls_of medium).faults (calls_of e.0).faults) e.1) }
        ensures listed { IsListed (calls_of medium) DbCall.Init
            → IsErrAnd result (λ e. e.1 ≡ InitError.Database) }
        ensures unlisted { IfErr result (λ e.
            e.1 ≡ InitError.Database
            → IsListed (calls_of medium) DbCall.Init
            ⊎ HasNone target_of (λ t. t) expected (disk_of medium)) }
    {
        let AnyMedium { mut medium } = medium;
        let number = match medium.number_to_open(expected) {
            Ok(number) => number,
            Err(why) => return Err((AnyMedium { medium }, why)),
        };
        match index_of(medium.allocator(), &medium, number) {
            Ok(index) => Ok(AnyDb {
                log: medium.open(number),
                index,
            }),
            Err(_) => Err((AnyMedium { medium }, InitError::OutOfMemory)),
        }
    }

    fn initial_sync_target() -> Target {
        Target {
            root: Digest::of(&[0; 34]),
            start: Location(0),
            end: Location(1),
        }
    }

    fn draw(&mut self) -> Result<u64, Exhausted>
        ensures id { IfOk result (λ n.
            (n ≡ next_here self.old) × (next_here self.new ≡ next_here self.old + 1)) }
        ensures exhausted { IfErr result (λ _.
            (2 ^ 64 - 1 ≤ next_here self.old) × (next_here self.new ≡ next_here self.old)) }
        ensures within { IfOk result (λ n. n < 2 ^ 64 - 1) }
        ensures standing { standing_of self.new ≡ standing_of self.old }
        ensures count { (calls_here self.new).faults ≡ (calls_here self.old).faults }
        ensures calls { calls_here self.new ≡ calls_here self.old }
        ensures held { held_here self.new ≡ held_here self.old }
    {
        self.log.draw()
    }

    fn new_batch(
        database: BatchContext<'_, AnyDb<K, V>>,
    ) -> Result<AnyUnmerkleized<K, V>, OutOfMemory>
        ensures { let s = standing_of database.entry.database.now in
            IfOk result (λ u. s.id < database.entry.id
            → DraftShows K.cmp K.fields.spelling V.fields.spelling u
            ((database.entry.id, begun K.cmp K.fields.spelling V.fields.spelling s.disk.newest)
            ∷ point s ∷ [])) }
    {
        let (db, id) = database.into_parts();
        Ok(AnyUnmerkleized {
            id,
            below: Layers::over(db.log.allocator(), db.log.id()),
            parent: db.log.target(),
            writes: BTreeMap::new(db.log.allocator()),
            metadata: None,
        })
    }

    fn fork(
        database: BatchContext<'_, AnyDb<K, V>>,
        parent: &AnyMerkleized<K, V>,
    ) -> Result<AnyUnmerkleized<K, V>, OutOfMemory>
        ensures { let p = point (standing_of database.entry.database.now) in
            IfOk result (λ u. (q : ℕ × State K V) (above older : List (ℕ × State K V))
            → SealShows K.cmp K.fields.spelling V.fields.spelling parent.now
            (q ∷ above ++ p ∷ older)
            → q.0 < database.entry.id
            → DraftShows K.cmp K.fields.spelling V.fields.spelling u
            ((database.entry.id, begun K.cmp K.fields.spelling V.fields.spelling q.1)
            ∷ q ∷ above ++ p ∷ [])) }
    {
        let (db, id) = database.into_parts();
        let mut batch = parent.new_batch(id)?;
        batch.below.cut(db.log.id());
        Ok(batch)
    }

    fn batch_target(batch: &AnyMerkleized<K, V>) -> Target {
        batch.target()
    }

    fn matches_sync_target(batch: &AnyMerkleized<K, V>, target: &Target) -> bool {
        batch.target() == *target
    }

    /// `Failed` exactly where the call is listed as a failing one. A failed apply leaves the
    /// checkpoints. A state that isn't greater in size than the newest one, which is of no batch on
    /// it, is refused as if memory were wanting.
    fn apply(self, batch: AnyMerkleized<K, V>) -> Result<AnyDb<K, V>, Broken<AnyMedium<K, V>>>
        ensures ok { IfOk result (λ db. (p : ℕ × State K V) (c : List (ℕ × State K V))
            → SealShows K.cmp K.fields.spelling V.fields.spelling batch
            (p ∷ point (standing_of self) ∷ c)
            → standing_of db
            ≡ record (standing_of self) { id = p.0; disk = applied (standing_of self).disk p.1 }) }
        ensures ok_out { IfOk result (λ db. (standing_of db).out ≡ (standing_of self).out) }
        ensures ok_next { IfOk result (λ db. next_here db ≡ next_here self) }
        ensures ok_count { IfOk result (λ db. (calls_here self).faults ≤ (calls_here db).faults) }
        ensures ok_called { IfOk result (λ db.
            Called DbCall.Apply (calls_here self) (calls_here db)) }
        ensures ok_held { IfOk result (λ db.
            held_here db ≡ further (held_here self) (ops_in batch)) }
        ensures err { IfErr result (λ b. (p : ℕ × State K V) (c : List (ℕ × State K V))
            → SealShows K.cmp K.fields.spelling V.fields.spelling batch
            (p ∷ point (standing_of self) ∷ c)
            → IsEither (standing_of self).disk (applied (standing_of self).disk p.1)
            (disk_of b.medium)) }
        ensures err_next { IfErr result (λ b. next_of b.medium ≡ next_here self) }
        ensures err_count { IfErr result (λ b. (calls_here self).faults ≤ (calls_of b.medium).faults) }
        ensures err_called { IfErr result (λ b.
            Called DbCall.Apply (calls_here self) (calls_of b.medium)) }
        ensures err_held { IfErr result (λ b. held_of b.medium ≡ held_here self) }
        ensures failed { IfErr result (λ b.
            b.why ≡ Why.Failed → Rose (calls_here self).faults (calls_of b.medium).faults) }
        ensures listed { IsErrAnd result (λ b. b.why ≡ Why.Failed)
            ↔ IsListed (calls_here self) DbCall.Apply }
        ensures kept { IfErr result (λ b. disk_of b.medium ≡ (standing_of self).disk) }
    {
        let AnyDb { log, index } = self;
        let log = match log.begin(DbCall::Apply) {
            Ok(log) => log,
            Err(change) => return Err(broken(change)),
        };
        let db = AnyDb { log, index };
        match longer(db, batch.layer) {
            Ok(db) => Ok(db),
            Err(medium) => Err(Broken {
                medium,
                why: Why::OutOfMemory,
            }),
        }
    }

    /// Takes no memory. It fails exactly where the call is listed as a failing one.
    fn finalize(self) -> Result<(AnyDb<K, V>, FlushToken), Broken<AnyMedium<K, V>>>
        requires { length (standing_of self).out < 2 }
        ensures ok { IfOk result (λ r. standing_of r.0
            ≡ record (standing_of self) { out = (standing_of self).out ++ r.1.place ∷ [] }) }
        ensures ok_place { IfOk result (λ r. r.1.place ≡ place (standing_of self).disk) }
        ensures ok_next { IfOk result (λ r. next_here r.0 ≡ next_here self) }
        ensures ok_count { IfOk result (λ r. (calls_here self).faults ≤ (calls_here r.0).faults) }
        ensures ok_called { IfOk result (λ r.
            Called DbCall.Finalize (calls_here self) (calls_here r.0)) }
        ensures ok_held { IfOk result (λ r. held_here r.0 ≡ held_here self) }
        ensures err { IfErr result (λ b. disk_of b.medium ≡ (standing_of self).disk) }
        ensures err_next { IfErr result (λ b. next_of b.medium ≡ next_here self) }
        ensures err_count { IfErr result (λ b. (calls_here self).faults ≤ (calls_of b.medium).faults) }
        ensures err_called { IfErr result (λ b.
            Called DbCall.Finalize (calls_here self) (calls_of b.medium)) }
        ensures err_held { IfErr result (λ b. held_of b.medium ≡ held_here self) }
        ensures failed { IfErr result (λ b.
            b.why ≡ Why.Failed → Rose (calls_here self).faults (calls_of b.medium).faults) }
        ensures listed { IsErrAnd result (λ b. b.why ≡ Why.Failed)
            ↔ IsListed (calls_here self) DbCall.Finalize }
        ensures memory { IfErr result (λ b. b.why ≢ Why.OutOfMemory) }
    {
        let AnyDb { log, index } = self;
        match log.finalize() {
            Ok((log, token)) => Ok((AnyDb { log, index }, token)),
            Err(change) => Err(broken(change)),
        }
    }

    /// Takes no memory. It fails exactly where the call is listed as a failing one, and leaves the
    /// durable place.
    fn flush(self, token: FlushToken) -> Result<AnyDb<K, V>, Broken<AnyMedium<K, V>>>
        requires { Contains (standing_of self).out token.place }
        ensures ok { IfOk result (λ db. standing_of db ≡ record (standing_of self) {
          disk = flushed (standing_of self).disk token.place;
          out = without token.place (standing_of self).out;
        }) }
        ensures ok_next { IfOk result (λ db. next_here db ≡ next_here self) }
        ensures ok_count { IfOk result (λ db. (calls_here self).faults ≤ (calls_here db).faults) }
        ensures ok_called { IfOk result (λ db.
            Called DbCall.Flush (calls_here self) (calls_here db)) }
        ensures ok_held { IfOk result (λ db. held_here db ≡ held_here self) }
        ensures err { IfErr result (λ b. IsEither (standing_of self).disk
            (flushed (standing_of self).disk token.place) (disk_of b.medium)) }
        ensures err_next { IfErr result (λ b. next_of b.medium ≡ next_here self) }
        ensures err_count { IfErr result (λ b. (calls_here self).faults ≤ (calls_of b.medium).faults) }
        ensures err_called { IfErr result (λ b.
            Called DbCall.Flush (calls_here self) (calls_of b.medium)) }
        ensures err_held { IfErr result (λ b. held_of b.medium ≡ held_here self) }
        ensures failed { IfErr result (λ b.
            b.why ≡ Why.Failed → Rose (calls_here self).faults (calls_of b.medium).faults) }
        ensures listed { IsErrAnd result (λ b. b.why ≡ Why.Failed)
            ↔ IsListed (calls_here self) DbCall.Flush }
        ensures kept { IfErr result (λ b. disk_of b.medium ≡ (standing_of self).disk) }
        ensures memory { IfErr result (λ b. b.why ≢ Why.OutOfMemory) }
    {
        let AnyDb { log, index } = self;
        match log.flush(token) {
            Ok(log) => Ok(AnyDb { log, index }),
            Err(change) => Err(broken(change)),
        }
    }

    /// Takes no memory. It fails exactly where the call is listed as a failing one, and leaves the
    /// checkpoints.
    fn prune(self, target: &Target) -> Result<AnyDb<K, V>, Broken<AnyMedium<K, V>>>
        requires idle { (standing_of self).out ≡ [] }
        requires kept { KeepsDurable target_of (λ t. t) target.now (standing_of self).disk }
        ensures ok { IfOk result (λ db. standing_of db ≡ record (standing_of self) {
          disk = pruned_to target_of (λ t. t) target.now (standing_of self).disk;
        }) }
        ensures ok_next { IfOk result (λ db. next_here db ≡ next_here self) }
        ensures ok_count { IfOk result (λ db. (calls_here self).faults ≤ (calls_here db).faults) }
        ensures ok_called { IfOk result (λ db.
            Called DbCall.Prune (calls_here self) (calls_here db)) }
        ensures ok_first { IfOk result (λ db. (held_here self).first ≤ (held_here db).first) }
        ensures ok_held { IfOk result (λ db. held_here db
            ≡ from (log_link (op_bytes K.fields.spelling V.fields.spelling)) (held_here self)
            (begin_of (standing_of db).disk)) }
        ensures err { IfErr result (λ b. IsEither (standing_of self).disk
            (pruned_to target_of (λ t. t) target.now (standing_of self).disk)
            (disk_of b.medium)) }
        ensures err_next { IfErr result (λ b. next_of b.medium ≡ next_here self) }
        ensures err_count { IfErr result (λ b. (calls_here self).faults ≤ (calls_of b.medium).faults) }
        ensures err_called { IfErr result (λ b.
            Called DbCall.Prune (calls_here self) (calls_of b.medium)) }
        ensures err_held { IfErr result (λ b. held_of b.medium ≡ held_here self) }
        ensures failed { IfErr result (λ b.
            b.why ≡ Why.Failed → Rose (calls_here self).faults (calls_of b.medium).faults) }
        ensures listed { IsErrAnd result (λ b. b.why ≡ Why.Failed)
            ↔ IsListed (calls_here self) DbCall.Prune }
        ensures kept { IfErr result (λ b. disk_of b.medium ≡ (standing_of self).disk) }
        ensures memory { IfErr result (λ b. b.why ≢ Why.OutOfMemory) }
    {
        let AnyDb { log, index } = self;
        let count = log.number_with_end(target.end).unwrap_or(0);
        match log.prune_first(count) {
            Ok(log) => Ok(AnyDb { log, index }),
            Err(change) => Err(broken(change)),
        }
    }

    fn sync_target(&self) -> Target {
        self.log.target()
    }

    fn close(self) -> AnyMedium<K, V>
        ensures disk { disk_of result ≡ (standing_of self).disk }
        ensures next { next_of result ≡ next_here self }
        ensures count { (calls_of result).faults ≡ (calls_here self).faults }
        ensures calls { calls_of result ≡ calls_here self }
        ensures held { held_of result ≡ held_here self }
    {
        AnyMedium {
            medium: self.log.close(),
        }
    }

    fn crash(medium: AnyMedium<K, V>, keep: usize) -> AnyMedium<K, V>
        ensures disk { IsCrash keep (disk_of medium) (disk_of result) }
        ensures next { next_of result ≡ next_of medium }
        ensures count { (calls_of result).faults ≡ (calls_of medium).faults }
        ensures calls { calls_of result ≡ calls_of medium }
        ensures held { held_of result
            ≡ until (held_of medium) (disk_of result).newest.target.end.0 }
    {
        AnyMedium {
            medium: medium.medium.cut(keep),
        }
    }

    ghost sound = { sound_medium };

    ghost sound_here = { sound_database };

    ghost numbered = { numbered };

    ghost counts = { λ d. refl };

    ghost counts_of = { λ m. refl };

    ghost same_point = { λ d. refl };

    ghost same_begun = { λ s. refl };

    ghost same_end = { λ s. refl };

    ghost same_root = { λ s. refl };

    ghost same_sealed = { λ m c shown. shown };

    ghost same_opened = { λ u c shown. shown };
}

/// The failed change of a database of keys.
fn broken<K: Drop, V: Drop>(change: Broken<LogMedium<AnyOp<K, V>>>) -> Broken<AnyMedium<K, V>>
    ensures medium { result.medium.medium ≡ change.medium }
    ensures why { result.why ≡ change.why }
{
    let Broken { medium, why } = change;
    Broken {
        medium: AnyMedium { medium },
        why,
    }
}
