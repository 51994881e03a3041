//! The database.

ghost use Rattle.stateful_db.specs.Disk.{all};
ghost use Rattle.stateful_db_medium.specs.Kept as kept;
ghost use Rattle.stateful_db_plain.specs.Rooted.{AreRooted};

use crate::batch::{PlainMerkleized, PlainUnmerkleized};
use crate::broken::broken;
use crate::medium::PlainMedium;
use crate::pass::PlainPass;
use crate::state::PlainState;
use stateful_base::{Digest, Faulty, Location, OutOfMemory, Target};
use stateful_db::{
    BatchContext, Broken, DbCall, Exhausted, FlushToken, InitError, ManagedDb, Merkleized, Tokens,
    Why,
};
use stateful_db_medium::Opened;
use stateful_db_overlay::Layers;
use std::collections::BTreeMap;
use std::ops::Range;

/// A database from numbers to numbers, each of 64 bits: the id of the last applied batch, the
/// tokens that are out, and the kept checkpoints, each a whole state with its target.
#[derive(Drop)]
pub struct Plain {
    pub(crate) opened: Opened<PlainState>,
    ghost rooted: { AreRooted (all (kept.standing_of opened).disk) },
}

impl Plain {
    ghost use Rattle.std.specs.Prelude.{◌≡◌, ◌==◌, ◌-◌, ℕ, List, ◌∷◌, OnOk, OnErr, position};
    ghost use Rattle.stateful_db.specs.Disk.{applied};
    ghost use Rattle.stateful_db_plain.specs.Whole.{Whole};
    ghost use Rattle.stateful_db_plain.specs.Stored.{standing_of, next_here, calls_here};
    ghost use Rattle.stateful_db_plain.specs.Shown.{SealShows};

    /// The end of the range of the newest state.
    pub fn size(&self) -> u64
        ensures { result ≡ (standing_of self.now).disk.newest.size }
    {
        self.state().size()
    }

    /// The range of the newest state: its last location alone.
    pub fn range(&self) -> Range<u64>
        ensures { let size = (standing_of self.now).disk.newest.size in
            result ≡ record { start = size - 1; end = size } }
    {
        let size = self.size();
        size.saturating_sub(1)..size
    }

    /// The entries of the newest state, by ascending key.
    pub fn entries(&self) -> &BTreeMap<u64, u64>
        ensures { result.now.entries ≡ (standing_of self.now).disk.newest.entries }
    {
        self.state().entries()
    }

    /// How many of the oldest checkpoints were pruned.
    pub fn pruned(&self) -> u64
        ensures { result ≡ (standing_of self.now).disk.pruned }
    {
        self.opened.medium().pruned()
    }

    /// The place of the last durable checkpoint, the pruned ones counted.
    pub fn durable(&self) -> u64
        ensures { result ≡ (standing_of self.now).disk.durable }
    {
        self.opened.medium().durable()
    }

    /// The tokens that are out.
    pub fn tokens(&self) -> Tokens
        ensures { result ≡ (standing_of self.now).out }
    {
        self.opened.tokens()
    }

    /// The id of the last applied batch.
    pub(crate) fn id(&self) -> u64
        ensures { result ≡ (standing_of self.now).id }
    {
        self.opened.id()
    }

    /// The newest state.
    pub(crate) fn state(&self) -> &PlainState
        ensures { result.now ≡ (standing_of self.now).disk.newest }
    {
        &self.opened.newest().kept
    }

    /// The number of the first kept checkpoint whose range has this end.
    pub(crate) fn number_with_end(&self, end: Location) -> Option<usize>
        ensures { result ≡ position (λ w. w.size == end.0) (all (standing_of self.now).disk) }
    {
        self.opened.number_with_end(end)
    }

    /// Adds the checkpoint of a sealed batch. Where its range doesn't end behind that of the
    /// newest, it is refused as if memory were wanting.
    fn grow(&mut self, batch: &PlainMerkleized) -> Result<(), OutOfMemory>
        ensures ok { OnOk result ((p : ℕ × Whole) (c : List (ℕ × Whole))
            → SealShows batch.now (p ∷ c)
            → standing_of self.new
            ≡ record (standing_of self.old)
            { id = p.0; disk = applied (standing_of self.old).disk p.1 }) }
        ensures out { (standing_of self.new).out ≡ (standing_of self.old).out }
        ensures err { OnErr result (standing_of self.new ≡ standing_of self.old) }
        ensures next { next_here self.new ≡ next_here self.old }
        ensures calls { calls_here self.new ≡ calls_here self.old }
    {
        let state = batch.checkpoint()?;
        self.opened.push(batch.id(), state)?;
        Ok(())
    }
}

impl Faulty for Plain {
    ghost use Rattle.stateful_db_plain.specs.Stored.{calls_here};

    ghost count = { λ d. (calls_here d).faults };

    fn faults(&self) -> u64 {
        self.opened.faults()
    }
}

impl ManagedDb for Plain {
    ghost use Rattle.std.specs.Prelude.{◌≡◌, ◌≢◌, ℕ, ◌+◌, ◌-◌, ◌^◌, ◌≤◌, ◌<◌, List, ◌∷◌, ◌++◌, []};
    ghost use Rattle.std.specs.Prelude.{IfOk, IfErr, IsErrAnd, Option, ◌↔◌, ◌⊎◌, Contains, length};
    ghost use Rattle.std.specs.Prelude.{Some, refl, false};
    ghost use Rattle.stateful_db.specs.Chain.{has_id};
    ghost use Rattle.stateful_base.specs.Causes.{Rose};
    ghost use Rattle.stateful_db.specs.Disk.{IsEither, IsCrash, place, applied, flushed, point};
    ghost use Rattle.stateful_db.specs.Reopening.{Reopens, FailsToReopen, HasNone, KeepsDurable};
    ghost use Rattle.stateful_db.specs.Reopening.{pruned_to};
    ghost use Rattle.stateful_db.specs.Tokens.{without};
    ghost use Rattle.stateful_db_plain.specs.Whole.{Whole, begun, initial, target_of};
    ghost use Rattle.stateful_db.specs.Calls.{IsListed, Called};
    ghost use Rattle.stateful_db_plain.specs.Stored.{disk_of, next_of, calls_of, standing_of};
    ghost use Rattle.stateful_db_plain.specs.Stored.{next_here, calls_here};
    ghost use Rattle.stateful_db_plain.specs.Shown.{DraftShows, SealShows};
    ghost use Rattle.stateful_db_plain.specs.Soundness.{sound_medium, sound_database};

    type State = PlainState;

    type Unmerkleized = PlainUnmerkleized;

    type Merkleized = PlainMerkleized;

    type Config = ();

    type SyncTarget = Target;

    type Medium = PlainMedium;

    type Pass = PlainPass;

    ghost standing = { standing_of };

    ghost begun = { begun };

    ghost target_of = { target_of };

    ghost initial = { initial };

    ghost next = { next_here };

    ghost disk = { disk_of };

    ghost next_of = { next_of };

    ghost calls = { λ d. Some (calls_here d) };

    ghost calls_of = { λ m. Some (calls_of m) };

    /// Takes no memory. `Database` exactly where the call is listed as a failing one or no kept
    /// checkpoint has the expected end.
    fn init(
        medium: PlainMedium,
        _config: &(),
        expected: Option<Target>,
    ) -> Result<Plain, (PlainMedium, InitError)>
        ensures ok { IfOk result (λ db.
            Reopens target_of (λ t. t) expected (disk_of medium) (standing_of db)) }
        ensures ok_next { IfOk result (λ db. next_here db ≡ next_of medium) }
        ensures ok_count { IfOk result (λ db. (calls_of medium).faults ≤ (calls_here db).faults) }
        ensures ok_called { IfOk result (λ db.
            Called DbCall.Init (calls_of medium) (calls_here db)) }
        ensures err { IfErr result (λ e. disk_of e.0 ≡ disk_of medium) }
        ensures err_next { IfErr result (λ e. next_of e.0 ≡ next_of medium) }
        ensures err_count { IfErr result (λ e. (calls_of medium).faults ≤ (calls_of e.0).faults) }
        ensures err_called { IfErr result (λ e.
            Called DbCall.Init (calls_of medium) (calls_of e.0)) }
        ensures cause { IfErr result (λ e.
            FailsToReopen target_of (λ t. t) expected (disk_of medium)
            (Rose (calls_of medium).faults (calls_of e.0).faults) e.1) }
        ensures listed { IsListed (calls_of medium) DbCall.Init
            → IsErrAnd result (λ e. e.1 ≡ InitError.Database) }
        ensures unlisted { IfErr result (λ e.
            e.1 ≡ InitError.Database
            → IsListed (calls_of medium) DbCall.Init
            ⊎ HasNone target_of (λ t. t) expected (disk_of medium)) }
        ensures memory { IfErr result (λ e. e.1 ≢ InitError.OutOfMemory) }
    {
        let PlainMedium { mut medium } = medium;
        let number = match medium.number_to_open(expected) {
            Ok(number) => number,
            Err(why) => return Err((PlainMedium { medium }, why)),
        };
        Ok(Plain {
            opened: medium.open(number),
        })
    }

    fn initial_sync_target() -> Target {
        Target {
            root: Digest::of(&1u64.to_be_bytes()),
            start: Location(0),
            end: Location(1),
        }
    }

    fn draw(&mut self) -> Result<u64, Exhausted>
        ensures id { IfOk result (λ n.
            (n ≡ next_here self.old) × (next_here self.new ≡ next_here self.old + 1)) }
        ensures exhausted { IfErr result (λ _.
            (2 ^ 64 - 1 ≤ next_here self.old) × (next_here self.new ≡ next_here self.old)) }
        ensures within { IfOk result (λ n. n < 2 ^ 64 - 1) }
        ensures standing { standing_of self.new ≡ standing_of self.old }
        ensures count { (calls_here self.new).faults ≡ (calls_here self.old).faults }
        ensures calls { calls_here self.new ≡ calls_here self.old }
    {
        self.opened.draw()
    }

    fn new_batch(database: BatchContext<'_, Plain>) -> Result<PlainUnmerkleized, OutOfMemory>
        ensures { let s = standing_of database.entry.database.now in
            IfOk result (λ u. s.id < database.entry.id
            → DraftShows u ((database.entry.id, begun s.disk.newest) ∷ point s ∷ [])) }
    {
        let (db, id) = database.into_parts();
        let alloc = db.opened.allocator();
        // The length comes with the order of the keys.
        let _count = db.entries().len();
        Ok(PlainUnmerkleized {
            id,
            below: Layers::over(alloc, db.id()),
            base: db.state().share()?,
            size: db.size(),
            writes: BTreeMap::new(alloc),
        })
    }

    fn fork(
        database: BatchContext<'_, Plain>,
        parent: &PlainMerkleized,
    ) -> Result<PlainUnmerkleized, OutOfMemory>
        ensures chain { let p = point (standing_of database.entry.database.now) in
            IfOk result (λ u. (q : ℕ × Whole) (above older : List (ℕ × Whole))
            → SealShows parent.now (q ∷ above ++ p ∷ older)
            → q.0 < database.entry.id
            → DraftShows u ((database.entry.id, begun q.1) ∷ q ∷ above ++ p ∷ [])) }
        ensures apart { let at = (standing_of database.entry.database.now).id in
            IfOk result (λ u. (q : ℕ × Whole) (c : List (ℕ × Whole))
            → SealShows parent.now (q ∷ c)
            → q.0 < database.entry.id
            → has_id (q ∷ c) at ≡ false
            → DraftShows u ((database.entry.id, begun q.1) ∷ q ∷ c)) }
    {
        let (db, id) = database.into_parts();
        let mut batch = parent.new_batch(id)?;
        batch.rebase(db)?;
        Ok(batch)
    }

    fn batch_target(batch: &PlainMerkleized) -> Target {
        batch.target()
    }

    fn matches_sync_target(batch: &PlainMerkleized, target: &Target) -> bool {
        batch.target() == *target
    }

    /// `Failed` exactly where the call is listed as a failing one. A failed apply leaves the
    /// checkpoints. A state that isn't greater in size than the newest one, which is of no batch on
    /// it, is refused as if memory were wanting.
    fn apply(self, batch: PlainMerkleized) -> Result<Plain, Broken<PlainMedium>>
        ensures ok { IfOk result (λ db. (p : ℕ × Whole) (c : List (ℕ × Whole))
            → SealShows batch (p ∷ point (standing_of self) ∷ c)
            → standing_of db
            ≡ record (standing_of self) { id = p.0; disk = applied (standing_of self).disk p.1 }) }
        ensures ok_out { IfOk result (λ db. (standing_of db).out ≡ (standing_of self).out) }
        ensures ok_next { IfOk result (λ db. next_here db ≡ next_here self) }
        ensures ok_count { IfOk result (λ db. (calls_here self).faults ≤ (calls_here db).faults) }
        ensures ok_called { IfOk result (λ db.
            Called DbCall.Apply (calls_here self) (calls_here db)) }
        ensures err { IfErr result (λ b. (p : ℕ × Whole) (c : List (ℕ × Whole))
            → SealShows batch (p ∷ point (standing_of self) ∷ c)
            → IsEither (standing_of self).disk (applied (standing_of self).disk p.1)
            (disk_of b.medium)) }
        ensures err_next { IfErr result (λ b. next_of b.medium ≡ next_here self) }
        ensures err_count { IfErr result (λ b.
            (calls_here self).faults ≤ (calls_of b.medium).faults) }
        ensures err_called { IfErr result (λ b.
            Called DbCall.Apply (calls_here self) (calls_of b.medium)) }
        ensures failed { IfErr result (λ b.
            b.why ≡ Why.Failed → Rose (calls_here self).faults (calls_of b.medium).faults) }
        ensures listed { IsErrAnd result (λ b. b.why ≡ Why.Failed)
            ↔ IsListed (calls_here self) DbCall.Apply }
        ensures kept { IfErr result (λ b. disk_of b.medium ≡ (standing_of self).disk) }
    {
        let Plain { opened } = self;
        let mut db = match opened.begin(DbCall::Apply) {
            Ok(opened) => Plain { opened },
            Err(change) => return Err(broken(change)),
        };
        match db.grow(&batch) {
            Ok(()) => Ok(db),
            Err(_) => Err(Broken {
                medium: db.close(),
                why: Why::OutOfMemory,
            }),
        }
    }

    /// Takes no memory. It fails exactly where the call is listed as a failing one.
    fn finalize(self) -> Result<(Plain, FlushToken), Broken<PlainMedium>>
        requires { length (standing_of self).out < 2 }
        ensures ok { IfOk result (λ r. standing_of r.0
            ≡ record (standing_of self) { out = (standing_of self).out ++ r.1.place ∷ [] }) }
        ensures ok_place { IfOk result (λ r. r.1.place ≡ place (standing_of self).disk) }
        ensures ok_next { IfOk result (λ r. next_here r.0 ≡ next_here self) }
        ensures ok_count { IfOk result (λ r. (calls_here self).faults ≤ (calls_here r.0).faults) }
        ensures ok_called { IfOk result (λ r.
            Called DbCall.Finalize (calls_here self) (calls_here r.0)) }
        ensures err { IfErr result (λ b. disk_of b.medium ≡ (standing_of self).disk) }
        ensures err_next { IfErr result (λ b. next_of b.medium ≡ next_here self) }
        ensures err_count { IfErr result (λ b.
            (calls_here self).faults ≤ (calls_of b.medium).faults) }
        ensures err_called { IfErr result (λ b.
            Called DbCall.Finalize (calls_here self) (calls_of b.medium)) }
        ensures failed { IfErr result (λ b.
            b.why ≡ Why.Failed → Rose (calls_here self).faults (calls_of b.medium).faults) }
        ensures listed { IsErrAnd result (λ b. b.why ≡ Why.Failed)
            ↔ IsListed (calls_here self) DbCall.Finalize }
        ensures memory { IfErr result (λ b. b.why ≢ Why.OutOfMemory) }
    {
        let Plain { opened } = self;
        match opened.finalize() {
            Ok((opened, token)) => Ok((Plain { opened }, token)),
            Err(change) => Err(broken(change)),
        }
    }

    /// Takes no memory. It fails exactly where the call is listed as a failing one, and leaves the
    /// durable place.
    fn flush(self, token: FlushToken) -> Result<Plain, Broken<PlainMedium>>
        requires { Contains (standing_of self).out token.place }
        ensures ok { IfOk result (λ db. standing_of db ≡ record (standing_of self) {
          disk = flushed (standing_of self).disk token.place;
          out = without token.place (standing_of self).out;
        }) }
        ensures ok_next { IfOk result (λ db. next_here db ≡ next_here self) }
        ensures ok_count { IfOk result (λ db. (calls_here self).faults ≤ (calls_here db).faults) }
        ensures ok_called { IfOk result (λ db.
            Called DbCall.Flush (calls_here self) (calls_here db)) }
        ensures err { IfErr result (λ b. IsEither (standing_of self).disk
            (flushed (standing_of self).disk token.place) (disk_of b.medium)) }
        ensures err_next { IfErr result (λ b. next_of b.medium ≡ next_here self) }
        ensures err_count { IfErr result (λ b.
            (calls_here self).faults ≤ (calls_of b.medium).faults) }
        ensures err_called { IfErr result (λ b.
            Called DbCall.Flush (calls_here self) (calls_of b.medium)) }
        ensures failed { IfErr result (λ b.
            b.why ≡ Why.Failed → Rose (calls_here self).faults (calls_of b.medium).faults) }
        ensures listed { IsErrAnd result (λ b. b.why ≡ Why.Failed)
            ↔ IsListed (calls_here self) DbCall.Flush }
        ensures kept { IfErr result (λ b. disk_of b.medium ≡ (standing_of self).disk) }
        ensures memory { IfErr result (λ b. b.why ≢ Why.OutOfMemory) }
    {
        let Plain { opened } = self;
        match opened.flush(token) {
            Ok(opened) => Ok(Plain { opened }),
            Err(change) => Err(broken(change)),
        }
    }

    /// Takes no memory. It fails exactly where the call is listed as a failing one, and leaves the
    /// checkpoints.
    fn prune(self, target: &Target) -> Result<Plain, Broken<PlainMedium>>
        requires idle { (standing_of self).out ≡ [] }
        requires kept { KeepsDurable target_of (λ t. t) target.now (standing_of self).disk }
        ensures ok { IfOk result (λ db. standing_of db ≡ record (standing_of self) {
          disk = pruned_to target_of (λ t. t) target.now (standing_of self).disk;
        }) }
        ensures ok_next { IfOk result (λ db. next_here db ≡ next_here self) }
        ensures ok_count { IfOk result (λ db. (calls_here self).faults ≤ (calls_here db).faults) }
        ensures ok_called { IfOk result (λ db.
            Called DbCall.Prune (calls_here self) (calls_here db)) }
        ensures err { IfErr result (λ b. IsEither (standing_of self).disk
            (pruned_to target_of (λ t. t) target.now (standing_of self).disk) (disk_of b.medium)) }
        ensures err_next { IfErr result (λ b. next_of b.medium ≡ next_here self) }
        ensures err_count { IfErr result (λ b.
            (calls_here self).faults ≤ (calls_of b.medium).faults) }
        ensures err_called { IfErr result (λ b.
            Called DbCall.Prune (calls_here self) (calls_of b.medium)) }
        ensures failed { IfErr result (λ b.
            b.why ≡ Why.Failed → Rose (calls_here self).faults (calls_of b.medium).faults) }
        ensures listed { IsErrAnd result (λ b. b.why ≡ Why.Failed)
            ↔ IsListed (calls_here self) DbCall.Prune }
        ensures kept { IfErr result (λ b. disk_of b.medium ≡ (standing_of self).disk) }
        ensures memory { IfErr result (λ b. b.why ≢ Why.OutOfMemory) }
    {
        let count = self.number_with_end(target.end).unwrap_or(0);
        let Plain { opened } = self;
        match opened.prune_first(count) {
            Ok(opened) => Ok(Plain { opened }),
            Err(change) => Err(broken(change)),
        }
    }

    fn sync_target(&self) -> Target {
        self.opened.newest().target
    }

    fn close(self) -> PlainMedium
        ensures disk { disk_of result ≡ (standing_of self).disk }
        ensures next { next_of result ≡ next_here self }
        ensures count { (calls_of result).faults ≡ (calls_here self).faults }
        ensures calls { calls_of result ≡ calls_here self }
    {
        let Plain { opened } = self;
        PlainMedium {
            medium: opened.close(),
        }
    }

    fn crash(medium: PlainMedium, keep: usize) -> PlainMedium
        ensures disk { IsCrash keep (disk_of medium) (disk_of result) }
        ensures next { next_of result ≡ next_of medium }
        ensures count { (calls_of result).faults ≡ (calls_of medium).faults }
        ensures calls { calls_of result ≡ calls_of medium }
    {
        let PlainMedium { mut medium } = medium;
        medium.cut(keep);
        PlainMedium { medium }
    }

    ghost sound = { sound_medium };

    ghost sound_here = { sound_database };

    ghost numbered = { λ m. m.medium.numbered };

    ghost counts = { λ d. refl };

    ghost counts_of = { λ m. refl };

    ghost same_point = { λ d. refl };

    ghost same_begun = { λ w. refl };

    ghost same_end = { λ w. refl };

    ghost same_root = { λ w. refl };

    ghost same_sealed = { λ m c shown. shown };

    ghost same_opened = { λ u c shown. shown };
}
