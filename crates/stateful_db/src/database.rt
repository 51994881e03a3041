//! A database, by value.

ghost use Rattle.std.specs.Prelude.{◌≡◌};

use crate::batch::{BatchContext, Merkleized, Unmerkleized};
use stateful_base::{CompactTarget, Faulty, Location, OutOfMemory, Target};
use thiserror::Error;

/// A kind of call on a database, as failing lists name it.
#[derive(Clone, Copy, Debug, PartialEq, Eq)]
pub enum DbCall {
    Init,
    Apply,
    Finalize,
    Flush,
    Prune,
    Sync,
}

/// Why a change failed.
#[derive(Clone, Copy, Debug, PartialEq, Eq)]
pub enum Why {
    Failed,
    OutOfMemory,
}

/// A failed change, with the medium.
#[derive(Drop)]
pub struct Broken<M> {
    pub medium: M,
    pub why: Why,
}

/// Why a database did not open.
#[derive(Clone, Copy, Debug, PartialEq, Eq, Error)]
pub enum InitError {
    /// It failed, or no kept checkpoint has the expected end.
    #[error("Database")]
    Database,
    /// The checkpoint of the expected end has another target.
    #[error("TargetMismatch")]
    TargetMismatch { expected: Target, recovered: Target },
    #[error("OutOfMemory")]
    OutOfMemory,
}

/// The checkpoints up to this place are being persisted.
#[derive(Clone, Copy, Debug, PartialEq, Eq)]
pub struct FlushToken {
    pub place: u64,
}

/// No number is left.
#[derive(Clone, Copy, Debug, PartialEq, Eq, Error)]
#[error("Exhausted")]
pub struct Exhausted;

/// What can be told as a root with a range.
pub trait Targeted {
    ghost use Rattle.stateful_base.specs.declared.target.Target.{Target};

    ghost targeted: { Self → Target };

    /// The root with its range.
    fn target(&self) -> Target
        ensures { result ≡ targeted self.now };
}

impl Targeted for Target {
    ghost targeted = { λ target. target };

    fn target(&self) -> Target {
        *self
    }
}

impl Targeted for CompactTarget {
    ghost use Rattle.stateful_db.specs.Targeted.{compact_target};

    ghost targeted = { compact_target };

    fn target(&self) -> Target {
        Target {
            root: self.root,
            start: Location(self.size.0.saturating_sub(1)),
            end: self.size,
        }
    }
}

/// A database. Its medium is a list of checkpoints, of which those up to a place are durable.
/// A failed change hands back the medium.
pub trait ManagedDb: Faulty + Sized + Drop {
    ghost use Rattle.std.specs.Prelude.{◌≡◌, ℕ, ◌+◌, ◌-◌, ◌^◌, ◌≤◌, ◌<◌, List, ◌∷◌, ◌++◌, [], IfOk};
    ghost use Rattle.std.specs.Prelude.{IfErr, IfSome, IsErrAnd, ◌↔◌, ◌⊎◌, IsTrue, Contains, length};
    ghost use Rattle.std.specs.Prelude.{Option};
    ghost use Rattle.stateful_base.specs.Causes.{Rose};
    ghost use Rattle.stateful_db.specs.Disk.{Disk, Standing, IsSound, IsCrash, IsEither, place};
    ghost use Rattle.stateful_db.specs.Disk.{applied, flushed, point};
    ghost use Rattle.stateful_db.specs.Calls.{Calls, IsListed, Tells, Counts};
    ghost use Rattle.stateful_db.specs.Tokens.{without};
    ghost use Rattle.stateful_db.specs.Reopening.{Reopens, FailsToReopen, HasNone, KeepsDurable};
    ghost use Rattle.stateful_db.specs.Reopening.{pruned_to};

    /// What a checkpoint is to contracts.
    type State;

    type Unmerkleized: Unmerkleized<Db = Self, State = Self::State, Merkleized = Self::Merkleized>
        + Drop;

    type Merkleized: Merkleized<State = Self::State, Unmerkleized = Self::Unmerkleized> + Drop;

    type Config: Drop;

    /// What a block commits to of this database.
    type SyncTarget: Copy + Eq + Targeted;

    type Medium: Faulty + Drop;

    /// A sync of the database that isn't finished. It has the medium meanwhile.
    type Pass: Faulty + Drop;

    /// The database: the id of the last applied batch, its disk, and the tokens that are out.
    ghost standing: { Self → Standing Self.State };

    /// The state that the seal of a batch without changes gives.
    ghost begun: { Self.State → Self.State };

    /// What a block commits to that leads to this state.
    ghost target_of: { Self.State → Self.SyncTarget };

    /// The state of an empty medium.
    ghost initial: { Self.State };

    /// The next batch id.
    ghost next: { Self → ℕ };

    ghost disk: { Self.Medium → Disk Self.State };

    ghost next_of: { Self.Medium → ℕ };

    /// The calls on its medium, where these are listed.
    ghost calls: { Self → Option Calls };

    ghost calls_of: { Self.Medium → Option Calls };

    /// Opens at the checkpoint of `expected`, or at the latest, and durably drops what lies beyond.
    fn init(
        medium: Self::Medium,
        config: &Self::Config,
        expected: Option<Self::SyncTarget>,
    ) -> Result<Self, (Self::Medium, InitError)>
        ensures ok { IfOk result (λ db.
            Reopens target_of Self.SyncTarget.targeted expected (disk medium) (standing db)) }
        ensures ok_next { IfOk result (λ db. next db ≡ next_of medium) }
        ensures ok_count { IfOk result (λ db. Self.Medium.count medium ≤ Self.count db) }
        ensures ok_called { IfOk result (λ db. Tells DbCall.Init (calls_of medium) (calls db)) }
        ensures err { IfErr result (λ e. disk e.0 ≡ disk medium) }
        ensures err_next { IfErr result (λ e. next_of e.0 ≡ next_of medium) }
        ensures err_count { IfErr result (λ e. Self.Medium.count medium ≤ Self.Medium.count e.0) }
        ensures err_called { IfErr result (λ e.
            Tells DbCall.Init (calls_of medium) (calls_of e.0)) }
        ensures cause { IfErr result (λ e.
            FailsToReopen target_of Self.SyncTarget.targeted expected (disk medium)
            (Rose (Self.Medium.count medium) (Self.Medium.count e.0)) e.1) }
        ensures listed { IfSome (calls_of medium) (λ c.
            IsListed c DbCall.Init → IsErrAnd result (λ e. e.1 ≡ InitError.Database)) }
        ensures unlisted { IfErr result (λ e. e.1 ≡ InitError.Database
            → IfSome (calls_of medium) (λ c. IsListed c DbCall.Init
            ⊎ HasNone target_of Self.SyncTarget.targeted expected (disk medium))) };

    /// The target of an empty medium.
    fn initial_sync_target() -> Self::SyncTarget
        ensures { result ≡ target_of initial };

    /// Draws a batch id.
    fn draw(&mut self) -> Result<u64, Exhausted>
        ensures id { IfOk result (λ n. (n ≡ next self.old) × (next self.new ≡ next self.old + 1)) }
        ensures exhausted { IfErr result (λ _.
            (2 ^ 64 - 1 ≤ next self.old) × (next self.new ≡ next self.old)) }
        ensures within { IfOk result (λ n. n < 2 ^ 64 - 1) }
        ensures standing { standing self.new ≡ standing self.old }
        ensures count { Self.count self.new ≡ Self.count self.old }
        ensures calls { calls self.new ≡ calls self.old };

    /// A batch over the applied state.
    fn new_batch(database: BatchContext<'_, Self>) -> Result<Self::Unmerkleized, OutOfMemory>
        ensures { let s = standing database.entry.database.now in
            IfOk result (λ u. s.id < database.entry.id
            → Self.Unmerkleized.shows u ((database.entry.id, begun s.disk.newest) ∷ point s ∷
            [])) };

    /// A batch over a sealed one. Its chain is that one's, down to where the database is.
    fn fork(
        database: BatchContext<'_, Self>,
        parent: &Self::Merkleized,
    ) -> Result<Self::Unmerkleized, OutOfMemory>
        ensures { let p = point (standing database.entry.database.now) in
            IfOk result (λ u. (q : ℕ × Self.State) (above older : List (ℕ × Self.State))
            → Self.Merkleized.shows parent.now (q ∷ above ++ p ∷ older)
            → q.0 < database.entry.id
            → Self.Unmerkleized.shows u ((database.entry.id, begun q.1) ∷ q ∷ above ++ p ∷ [])) };

    /// The target that applying the batch gives.
    fn batch_target(batch: &Self::Merkleized) -> Self::SyncTarget
        ensures { (p : ℕ × Self.State) (c : List (ℕ × Self.State))
            → Self.Merkleized.shows batch.now (p ∷ c)
            → result ≡ target_of p.1 };

    /// Whether applying the batch gives this target.
    fn matches_sync_target(batch: &Self::Merkleized, target: &Self::SyncTarget) -> bool
        ensures { (p : ℕ × Self.State) (c : List (ℕ × Self.State))
            → Self.Merkleized.shows batch.now (p ∷ c)
            → (IsTrue result ↔ (target_of p.1 ≡ target.now)) };

    /// Adds the state of a batch whose parent is the database's state.
    fn apply(self, batch: Self::Merkleized) -> Result<Self, Broken<Self::Medium>>
        ensures ok { IfOk result (λ db. (p : ℕ × Self.State) (c : List (ℕ × Self.State))
            → Self.Merkleized.shows batch (p ∷ point (standing self) ∷ c)
            → standing db
            ≡ record (standing self) { id = p.0; disk = applied (standing self).disk p.1 }) }
        ensures ok_out { IfOk result (λ db. (standing db).out ≡ (standing self).out) }
        ensures ok_next { IfOk result (λ db. next db ≡ next self) }
        ensures ok_count { IfOk result (λ db. Self.count self ≤ Self.count db) }
        ensures ok_called { IfOk result (λ db. Tells DbCall.Apply (calls self) (calls db)) }
        ensures err { IfErr result (λ b. (p : ℕ × Self.State) (c : List (ℕ × Self.State))
            → Self.Merkleized.shows batch (p ∷ point (standing self) ∷ c)
            → IsEither (standing self).disk (applied (standing self).disk p.1) (disk b.medium)) }
        ensures err_next { IfErr result (λ b. next_of b.medium ≡ next self) }
        ensures err_count { IfErr result (λ b. Self.count self ≤ Self.Medium.count b.medium) }
        ensures err_called { IfErr result (λ b.
            Tells DbCall.Apply (calls self) (calls_of b.medium)) }
        ensures failed { IfErr result (λ b.
            b.why ≡ Why.Failed → Rose (Self.count self) (Self.Medium.count b.medium)) }
        ensures listed { IfSome (calls self) (λ c.
            IsErrAnd result (λ b. b.why ≡ Why.Failed) ↔ IsListed c DbCall.Apply) };

    /// Starts persisting all checkpoints applied so far. At most one token may be out.
    fn finalize(self) -> Result<(Self, FlushToken), Broken<Self::Medium>>
        requires { length (standing self).out < 2 }
        ensures ok { IfOk result (λ r. standing r.0
            ≡ record (standing self) { out = (standing self).out ++ r.1.place ∷ [] }) }
        ensures ok_place { IfOk result (λ r. r.1.place ≡ place (standing self).disk) }
        ensures ok_next { IfOk result (λ r. next r.0 ≡ next self) }
        ensures ok_count { IfOk result (λ r. Self.count self ≤ Self.count r.0) }
        ensures ok_called { IfOk result (λ r. Tells DbCall.Finalize (calls self) (calls r.0)) }
        ensures err { IfErr result (λ b. disk b.medium ≡ (standing self).disk) }
        ensures err_next { IfErr result (λ b. next_of b.medium ≡ next self) }
        ensures err_count { IfErr result (λ b. Self.count self ≤ Self.Medium.count b.medium) }
        ensures err_called { IfErr result (λ b.
            Tells DbCall.Finalize (calls self) (calls_of b.medium)) }
        ensures failed { IfErr result (λ b.
            b.why ≡ Why.Failed → Rose (Self.count self) (Self.Medium.count b.medium)) }
        ensures listed { IfSome (calls self) (λ c.
            IsErrAnd result (λ b. b.why ≡ Why.Failed) ↔ IsListed c DbCall.Finalize) };

    /// The checkpoints that the token covers are durable. This token has to be out.
    fn flush(self, token: FlushToken) -> Result<Self, Broken<Self::Medium>>
        requires { Contains (standing self).out token.place }
        ensures ok { IfOk result (λ db. standing db ≡ record (standing self) {
          disk = flushed (standing self).disk token.place;
          out = without token.place (standing self).out;
        }) }
        ensures ok_next { IfOk result (λ db. next db ≡ next self) }
        ensures ok_count { IfOk result (λ db. Self.count self ≤ Self.count db) }
        ensures ok_called { IfOk result (λ db. Tells DbCall.Flush (calls self) (calls db)) }
        ensures err { IfErr result (λ b. IsEither (standing self).disk
            (flushed (standing self).disk token.place) (disk b.medium)) }
        ensures err_next { IfErr result (λ b. next_of b.medium ≡ next self) }
        ensures err_count { IfErr result (λ b. Self.count self ≤ Self.Medium.count b.medium) }
        ensures err_called { IfErr result (λ b.
            Tells DbCall.Flush (calls self) (calls_of b.medium)) }
        ensures failed { IfErr result (λ b.
            b.why ≡ Why.Failed → Rose (Self.count self) (Self.Medium.count b.medium)) }
        ensures listed { IfSome (calls self) (λ c.
            IsErrAnd result (λ b. b.why ≡ Why.Failed) ↔ IsListed c DbCall.Flush) };

    /// Drops the checkpoints that are older than the target's, and what they alone need. The
    /// target's has to be kept and durable, and no token may be out.
    fn prune(self, target: &Self::SyncTarget) -> Result<Self, Broken<Self::Medium>>
        requires idle { (standing self).out ≡ [] }
        requires kept { KeepsDurable target_of Self.SyncTarget.targeted target.now
            (standing self).disk }
        ensures ok { IfOk result (λ db. standing db ≡ record (standing self) {
          disk = pruned_to target_of Self.SyncTarget.targeted target.now (standing self).disk;
        }) }
        ensures ok_next { IfOk result (λ db. next db ≡ next self) }
        ensures ok_count { IfOk result (λ db. Self.count self ≤ Self.count db) }
        ensures ok_called { IfOk result (λ db. Tells DbCall.Prune (calls self) (calls db)) }
        ensures err { IfErr result (λ b. IsEither (standing self).disk
            (pruned_to target_of Self.SyncTarget.targeted target.now (standing self).disk)
            (disk b.medium)) }
        ensures err_next { IfErr result (λ b. next_of b.medium ≡ next self) }
        ensures err_count { IfErr result (λ b. Self.count self ≤ Self.Medium.count b.medium) }
        ensures err_called { IfErr result (λ b.
            Tells DbCall.Prune (calls self) (calls_of b.medium)) }
        ensures failed { IfErr result (λ b.
            b.why ≡ Why.Failed → Rose (Self.count self) (Self.Medium.count b.medium)) }
        ensures listed { IfSome (calls self) (λ c.
            IsErrAnd result (λ b. b.why ≡ Why.Failed) ↔ IsListed c DbCall.Prune) };

    /// The target of the latest checkpoint.
    fn sync_target(&self) -> Self::SyncTarget
        ensures { result ≡ target_of (standing self.now).disk.newest };

    /// The medium as it is.
    fn close(self) -> Self::Medium
        ensures disk { disk result ≡ (standing self).disk }
        ensures next { next_of result ≡ next self }
        ensures count { Self.Medium.count result ≡ Self.count self }
        ensures calls { calls_of result ≡ calls self };

    /// What a crash leaves: the durable checkpoints, and of the others as many as `keep` allows.
    fn crash(medium: Self::Medium, keep: usize) -> Self::Medium
        ensures disk { IsCrash keep (disk medium) (disk result) }
        ensures next { next_of result ≡ next_of medium }
        ensures count { Self.Medium.count result ≡ Self.Medium.count medium }
        ensures calls { calls_of result ≡ calls_of medium };

    /// The checkpoints of a medium are in order, and those of a database.
    ghost sound: { (m : Self.Medium) → IsSound (λ s. Self.SyncTarget.targeted (target_of s)) (disk m) };

    ghost sound_here: { (d : Self) → IsSound (λ s. Self.SyncTarget.targeted (target_of s)) (standing d).disk };

    ghost numbered: { (m : Self.Medium) → 0 < next_of m };

    /// Its count is that of its failed calls.
    ghost counts: { (d : Self) → Counts (calls d) (Self.count d) };

    ghost counts_of: { (m : Self.Medium) → Counts (calls_of m) (Self.Medium.count m) };

    ghost same_point: { (d : Self) → Self.Unmerkleized.at d ≡ point (standing d) };

    ghost same_begun: { (s : Self.State) → Self.Merkleized.begun s ≡ begun s };

    ghost same_end: { (s : Self.State)
        → Self.Unmerkleized.end_of s ≡ (Self.SyncTarget.targeted (target_of s)).end.0 };

    ghost same_root: { (s : Self.State)
        → Self.Merkleized.root_of s ≡ (Self.SyncTarget.targeted (target_of s)).root };

    ghost same_sealed: { (m : Self.Merkleized) (c : List (ℕ × Self.State))
        → Self.Unmerkleized.sealed m c
        → Self.Merkleized.shows m c };

    ghost same_opened: { (u : Self.Unmerkleized) (c : List (ℕ × Self.State))
        → Self.Merkleized.opened u c
        → Self.Unmerkleized.shows u c };
}
