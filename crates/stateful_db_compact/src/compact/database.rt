//! The compact database.

use super::batch::{KeylessUnjournaledMerkleized, KeylessUnjournaledUnmerkleized};
use super::broken::broken;
use super::medium::CompactMedium;
use super::opening::number_to_open;
use super::pass::CompactPass;
use super::state::{Commit, CompactState, compact_target, size};
use stateful_base::{CompactTarget, Digest, Faulty, Location, OutOfMemory};
use stateful_db::{
    BatchContext, Broken, DbCall, Exhausted, FlushToken, InitError, ManagedDb, Merkleized,
    Targeted, Why,
};
use stateful_db_log::Field;
use stateful_db_medium::Opened;
use stateful_db_overlay::Layers;

/// A keyless log of which the digest, the number of operations and the latest commit are kept.
#[derive(Drop)]
pub struct CompactDb<V> {
    pub opened: Opened<Commit<V>>,
}

impl<V: Drop> CompactDb<V> {
    ghost use Rattle.std.specs.Prelude.{◌≡◌};
    ghost use Rattle.std.specs.Option.{option_copied};
    ghost use Rattle.stateful_db_compact.specs.Compacted.{target_of};
    ghost use Rattle.stateful_db_compact.specs.CompactStored.{standing_of};

    /// The digest behind all operations.
    pub fn root(&self) -> Digest
        ensures { result ≡ (standing_of self.now).disk.newest.target.root }
    {
        self.opened.newest().target.root
    }

    /// How many operations there are.
    pub fn size(&self) -> u64
        ensures { result ≡ (target_of (standing_of self.now).disk.newest).size.0 }
    {
        self.opened.newest().target.end.0
    }

    /// The metadata of the latest commit.
    pub fn get_metadata(&self) -> Option<&V>
        ensures { option_copied result ≡ (standing_of self.now).disk.newest.kept.metadata }
    {
        self.opened.newest().kept.metadata.as_ref()
    }
}

impl<V: Drop> Faulty for CompactDb<V> {
    ghost use Rattle.stateful_db_compact.specs.CompactStored.{calls_here};

    ghost count = { λ d. (calls_here d).faults };

    fn faults(&self) -> u64 {
        self.opened.faults()
    }
}

impl<V: Field> ManagedDb for CompactDb<V> {
    ghost use Rattle.std.specs.Prelude.{◌≡◌, ◌≢◌, ℕ, ◌+◌, ◌-◌, ◌^◌, ◌≤◌, ◌<◌, List, ◌∷◌, ◌++◌, []};
    ghost use Rattle.std.specs.Prelude.{IfOk, IfErr, IsErrAnd, Option, ◌↔◌, ◌⊎◌, Contains, length};
    ghost use Rattle.std.specs.Prelude.{Some, refl};
    ghost use Rattle.stateful_base.specs.Causes.{Rose};
    ghost use Rattle.stateful_db.specs.Targeted.{compact_target};
    ghost use Rattle.stateful_db.specs.Disk.{IsEither, IsCrash, place, applied, flushed, point};
    ghost use Rattle.stateful_db.specs.Reopening.{Reopens, FailsToReopen, HasNone, KeepsDurable};
    ghost use Rattle.stateful_db.specs.Reopening.{pruned_to};
    ghost use Rattle.stateful_db.specs.Tokens.{without};
    ghost use Rattle.stateful_db.specs.Calls.{IsListed, Called};
    ghost use Rattle.stateful_db_compact.specs.CompactSound.{sound_medium, sound_database};
    ghost use Rattle.stateful_db_compact.specs.Compacted.{State, begun, initial, target_of};
    ghost use Rattle.stateful_db_compact.specs.CompactShown.{DraftShows, SealShows};
    ghost use Rattle.stateful_db_compact.specs.CompactStored.{disk_of, next_of, calls_of, standing_of};
    ghost use Rattle.stateful_db_compact.specs.CompactStored.{next_here, calls_here};

    type State = CompactState<V>;

    type Unmerkleized = KeylessUnjournaledUnmerkleized<V>;

    type Merkleized = KeylessUnjournaledMerkleized<V>;

    type Config = ();

    type SyncTarget = CompactTarget;

    type Medium = CompactMedium<V>;

    type Pass = CompactPass<V>;

    ghost standing = { standing_of };

    ghost begun = { begun V.fields.spelling };

    ghost target_of = { target_of };

    ghost initial = { initial V.fields.spelling };

    ghost next = { next_here };

    ghost disk = { disk_of };

    ghost next_of = { next_of };

    ghost calls = { λ d. Some (calls_here d) };

    ghost calls_of = { λ m. Some (calls_of m) };

    /// Takes no memory. `Database` exactly where the call is listed as a failing one or no kept
    /// checkpoint has the expected end.
    fn init(
        medium: CompactMedium<V>,
        _config: &(),
        expected: Option<CompactTarget>,
    ) -> Result<CompactDb<V>, (CompactMedium<V>, InitError)>
        ensures ok { IfOk result (λ db.
            Reopens target_of compact_target expected (disk_of medium) (standing_of db)) }
        ensures ok_next { IfOk result (λ db. next_here db ≡ next_of medium) }
        ensures ok_count { IfOk result (λ db. (calls_of medium).faults ≤ (calls_here db).faults) }
        ensures ok_called { IfOk result (λ db.
            Called DbCall.Init (calls_of medium) (calls_here db)) }
        ensures err { IfErr result (λ e. disk_of e.0 ≡ disk_of medium) }
        ensures err_next { IfErr result (λ e. next_of e.0 ≡ next_of medium) }
        ensures err_count { IfErr result (λ e. (calls_of medium).faults ≤ (calls_of e.0).faults) }
        ensures err_called { IfErr result (λ e. Called DbCall.Init (calls_of medium) (calls_of e.0)) }
        ensures cause { IfErr result (λ e.
            FailsToReopen target_of compact_target expected (disk_of medium)
            (Rose (calls_of medium).faults (calls_of e.0).faults) e.1) }
        ensures listed { IsListed (calls_of medium) DbCall.Init
            → IsErrAnd result (λ e. e.1 ≡ InitError.Database) }
        ensures unlisted { IfErr result (λ e.
            e.1 ≡ InitError.Database
            → IsListed (calls_of medium) DbCall.Init
            ⊎ HasNone target_of compact_target expected (disk_of medium)) }
        ensures memory { IfErr result (λ e. e.1 ≢ InitError.OutOfMemory) }
    {
        let CompactMedium { mut medium } = medium;
        let number = match number_to_open(&mut medium, expected) {
            Ok(number) => number,
            Err(why) => return Err((CompactMedium { medium }, why)),
        };
        Ok(CompactDb {
            opened: medium.open(number),
        })
    }

    fn initial_sync_target() -> CompactTarget {
        CompactTarget {
            root: Digest::of(&[0; 42]),
            size: Location(1),
        }
    }

    fn draw(&mut self) -> Result<u64, Exhausted>
        ensures id { IfOk result (λ n.
            (n ≡ next_here self.old) × (next_here self.new ≡ next_here self.old + 1)) }
        ensures exhausted { IfErr result (λ _.
            (2 ^ 64 - 1 ≤ next_here self.old) × (next_here self.new ≡ next_here self.old)) }
        ensures within { IfOk result (λ n. n < 2 ^ 64 - 1) }
        ensures standing { standing_of self.new ≡ standing_of self.old }
        ensures count { (calls_here self.new).faults ≡ (calls_here self.old).faults }
        ensures calls { calls_here self.new ≡ calls_here self.old }
    {
        self.opened.draw()
    }

    fn new_batch(
        database: BatchContext<'_, CompactDb<V>>,
    ) -> Result<KeylessUnjournaledUnmerkleized<V>, OutOfMemory>
        ensures { let s = standing_of database.entry.database.now in
            IfOk result (λ u. s.id < database.entry.id
            → DraftShows V.fields.spelling u
            ((database.entry.id, begun V.fields.spelling s.disk.newest) ∷ point s ∷ [])) }
    {
        let (db, id) = database.into_parts();
        let state = db.opened.newest();
        Ok(KeylessUnjournaledUnmerkleized {
            id,
            below: Layers::over(db.opened.allocator(), db.opened.id()),
            floor: state.kept.floor,
            end: size(state),
            before: state.target.root,
            metadata: None,
            asked: 0,
        })
    }

    fn fork(
        database: BatchContext<'_, CompactDb<V>>,
        parent: &KeylessUnjournaledMerkleized<V>,
    ) -> Result<KeylessUnjournaledUnmerkleized<V>, OutOfMemory>
        ensures { let p = point (standing_of database.entry.database.now) in
            IfOk result (λ u. (q : ℕ × State V) (above older : List (ℕ × State V))
            → SealShows parent.now (q ∷ above ++ p ∷ older)
            → q.0 < database.entry.id
            → DraftShows V.fields.spelling u
            ((database.entry.id, begun V.fields.spelling q.1) ∷ q ∷ above ++ p ∷ [])) }
    {
        let (db, id) = database.into_parts();
        let mut batch = parent.new_batch(id)?;
        batch.below.cut(db.opened.id());
        Ok(batch)
    }

    fn batch_target(batch: &KeylessUnjournaledMerkleized<V>) -> CompactTarget {
        compact_target(&batch.state)
    }

    fn matches_sync_target(
        batch: &KeylessUnjournaledMerkleized<V>,
        target: &CompactTarget,
    ) -> bool {
        compact_target(&batch.state) == *target
    }

    /// `Failed` exactly where the call is listed as a failing one. A failed apply leaves the
    /// checkpoints. A state that isn't greater in size than the newest one, which is of no batch on
    /// it, is refused as if memory were wanting.
    fn apply(
        self,
        batch: KeylessUnjournaledMerkleized<V>,
    ) -> Result<CompactDb<V>, Broken<CompactMedium<V>>>
        ensures ok { IfOk result (λ db. (p : ℕ × State V) (c : List (ℕ × State V))
            → SealShows batch (p ∷ point (standing_of self) ∷ c)
            → standing_of db
            ≡ record (standing_of self) { id = p.0; disk = applied (standing_of self).disk p.1 }) }
        ensures ok_out { IfOk result (λ db. (standing_of db).out ≡ (standing_of self).out) }
        ensures ok_next { IfOk result (λ db. next_here db ≡ next_here self) }
        ensures ok_count { IfOk result (λ db. (calls_here self).faults ≤ (calls_here db).faults) }
        ensures ok_called { IfOk result (λ db.
            Called DbCall.Apply (calls_here self) (calls_here db)) }
        ensures err { IfErr result (λ b. (p : ℕ × State V) (c : List (ℕ × State V))
            → SealShows batch (p ∷ point (standing_of self) ∷ c)
            → IsEither (standing_of self).disk (applied (standing_of self).disk p.1)
            (disk_of b.medium)) }
        ensures err_next { IfErr result (λ b. next_of b.medium ≡ next_here self) }
        ensures err_count { IfErr result (λ b. (calls_here self).faults ≤ (calls_of b.medium).faults) }
        ensures err_called { IfErr result (λ b.
            Called DbCall.Apply (calls_here self) (calls_of b.medium)) }
        ensures failed { IfErr result (λ b.
            b.why ≡ Why.Failed → Rose (calls_here self).faults (calls_of b.medium).faults) }
        ensures listed { IsErrAnd result (λ b. b.why ≡ Why.Failed)
            ↔ IsListed (calls_here self) DbCall.Apply }
        ensures kept { IfErr result (λ b. disk_of b.medium ≡ (standing_of self).disk) }
    {
        let (id, state) = batch.into_state();
        match self.opened.apply(id, state) {
            Ok(opened) => Ok(CompactDb { opened }),
            Err(change) => Err(broken(change)),
        }
    }

    /// Takes no memory. It fails exactly where the call is listed as a failing one.
    fn finalize(self) -> Result<(CompactDb<V>, FlushToken), Broken<CompactMedium<V>>>
        requires { length (standing_of self).out < 2 }
        ensures ok { IfOk result (λ r. standing_of r.0
            ≡ record (standing_of self) { out = (standing_of self).out ++ r.1.place ∷ [] }) }
        ensures ok_place { IfOk result (λ r. r.1.place ≡ place (standing_of self).disk) }
        ensures ok_next { IfOk result (λ r. next_here r.0 ≡ next_here self) }
        ensures ok_count { IfOk result (λ r. (calls_here self).faults ≤ (calls_here r.0).faults) }
        ensures ok_called { IfOk result (λ r.
            Called DbCall.Finalize (calls_here self) (calls_here r.0)) }
        ensures err { IfErr result (λ b. disk_of b.medium ≡ (standing_of self).disk) }
        ensures err_next { IfErr result (λ b. next_of b.medium ≡ next_here self) }
        ensures err_count { IfErr result (λ b. (calls_here self).faults ≤ (calls_of b.medium).faults) }
        ensures err_called { IfErr result (λ b.
            Called DbCall.Finalize (calls_here self) (calls_of b.medium)) }
        ensures failed { IfErr result (λ b.
            b.why ≡ Why.Failed → Rose (calls_here self).faults (calls_of b.medium).faults) }
        ensures listed { IsErrAnd result (λ b. b.why ≡ Why.Failed)
            ↔ IsListed (calls_here self) DbCall.Finalize }
        ensures memory { IfErr result (λ b. b.why ≢ Why.OutOfMemory) }
    {
        match self.opened.finalize() {
            Ok((opened, token)) => Ok((CompactDb { opened }, token)),
            Err(change) => Err(broken(change)),
        }
    }

    /// Takes no memory. It fails exactly where the call is listed as a failing one, and leaves the
    /// durable place.
    fn flush(self, token: FlushToken) -> Result<CompactDb<V>, Broken<CompactMedium<V>>>
        requires { Contains (standing_of self).out token.place }
        ensures ok { IfOk result (λ db. standing_of db ≡ record (standing_of self) {
          disk = flushed (standing_of self).disk token.place;
          out = without token.place (standing_of self).out;
        }) }
        ensures ok_next { IfOk result (λ db. next_here db ≡ next_here self) }
        ensures ok_count { IfOk result (λ db. (calls_here self).faults ≤ (calls_here db).faults) }
        ensures ok_called { IfOk result (λ db.
            Called DbCall.Flush (calls_here self) (calls_here db)) }
        ensures err { IfErr result (λ b. IsEither (standing_of self).disk
            (flushed (standing_of self).disk token.place) (disk_of b.medium)) }
        ensures err_next { IfErr result (λ b. next_of b.medium ≡ next_here self) }
        ensures err_count { IfErr result (λ b. (calls_here self).faults ≤ (calls_of b.medium).faults) }
        ensures err_called { IfErr result (λ b.
            Called DbCall.Flush (calls_here self) (calls_of b.medium)) }
        ensures failed { IfErr result (λ b.
            b.why ≡ Why.Failed → Rose (calls_here self).faults (calls_of b.medium).faults) }
        ensures listed { IsErrAnd result (λ b. b.why ≡ Why.Failed)
            ↔ IsListed (calls_here self) DbCall.Flush }
        ensures kept { IfErr result (λ b. disk_of b.medium ≡ (standing_of self).disk) }
        ensures memory { IfErr result (λ b. b.why ≢ Why.OutOfMemory) }
    {
        match self.opened.flush(token) {
            Ok(opened) => Ok(CompactDb { opened }),
            Err(change) => Err(broken(change)),
        }
    }

    /// Takes no memory. It fails exactly where the call is listed as a failing one, and leaves the
    /// checkpoints.
    fn prune(self, target: &CompactTarget) -> Result<CompactDb<V>, Broken<CompactMedium<V>>>
        requires idle { (standing_of self).out ≡ [] }
        requires kept { KeepsDurable target_of compact_target target.now (standing_of self).disk }
        ensures ok { IfOk result (λ db. standing_of db ≡ record (standing_of self) {
          disk = pruned_to target_of compact_target target.now (standing_of self).disk;
        }) }
        ensures ok_next { IfOk result (λ db. next_here db ≡ next_here self) }
        ensures ok_count { IfOk result (λ db. (calls_here self).faults ≤ (calls_here db).faults) }
        ensures ok_called { IfOk result (λ db.
            Called DbCall.Prune (calls_here self) (calls_here db)) }
        ensures err { IfErr result (λ b. IsEither (standing_of self).disk
            (pruned_to target_of compact_target target.now (standing_of self).disk)
            (disk_of b.medium)) }
        ensures err_next { IfErr result (λ b. next_of b.medium ≡ next_here self) }
        ensures err_count { IfErr result (λ b. (calls_here self).faults ≤ (calls_of b.medium).faults) }
        ensures err_called { IfErr result (λ b.
            Called DbCall.Prune (calls_here self) (calls_of b.medium)) }
        ensures failed { IfErr result (λ b.
            b.why ≡ Why.Failed → Rose (calls_here self).faults (calls_of b.medium).faults) }
        ensures listed { IsErrAnd result (λ b. b.why ≡ Why.Failed)
            ↔ IsListed (calls_here self) DbCall.Prune }
        ensures kept { IfErr result (λ b. disk_of b.medium ≡ (standing_of self).disk) }
        ensures memory { IfErr result (λ b. b.why ≢ Why.OutOfMemory) }
    {
        let count = self.opened.number_with_end(target.size).unwrap_or(0);
        match self.opened.prune_first(count) {
            Ok(opened) => Ok(CompactDb { opened }),
            Err(change) => Err(broken(change)),
        }
    }

    fn sync_target(&self) -> CompactTarget {
        compact_target(self.opened.newest())
    }

    fn close(self) -> CompactMedium<V>
        ensures disk { disk_of result ≡ (standing_of self).disk }
        ensures next { next_of result ≡ next_here self }
        ensures count { (calls_of result).faults ≡ (calls_here self).faults }
        ensures calls { calls_of result ≡ calls_here self }
    {
        CompactMedium {
            medium: self.opened.close(),
        }
    }

    fn crash(medium: CompactMedium<V>, keep: usize) -> CompactMedium<V>
        ensures disk { IsCrash keep (disk_of medium) (disk_of result) }
        ensures next { next_of result ≡ next_of medium }
        ensures count { (calls_of result).faults ≡ (calls_of medium).faults }
        ensures calls { calls_of result ≡ calls_of medium }
    {
        let mut medium = medium;
        medium.medium.cut(keep);
        medium
    }

    ghost sound = { sound_medium };

    ghost sound_here = { sound_database };

    ghost numbered = { λ m. m.medium.numbered };

    ghost counts = { λ d. refl };

    ghost counts_of = { λ m. refl };

    ghost same_point = { λ d. refl };

    ghost same_begun = { λ s. refl };

    ghost same_end = { λ s. refl };

    ghost same_root = { λ s. refl };

    ghost same_sealed = { λ m c shown. shown };

    ghost same_opened = { λ u c shown. shown };
}
