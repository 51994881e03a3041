//! The two logs of amounts, as a set that has a name.
//!
//! They are a pair, and each call is the pair's. The name is for proofs: a call of a function that is
//! generic in its databases has to show what each of them is, part by part. Of a set with a name it
//! cites that alone.

ghost use Rattle.std.specs.Prelude.{◌≡◌, ◌⊎◌, ℕ, ◌^◌, ◌<◌, ◌≤◌, OnOk, OnErr, IfErr, Some};
ghost use Rattle.stateful_db.specs.Databases.{IsOpening};
ghost use Rattle.stateful_db.specs.declared.database.DbCall.{DbCall};
ghost use Rattle.stateful_db.specs.declared.database.InitError.{InitError};
ghost use Rattle.stateful_base.specs.declared.target.Target.{Target};
ghost use Rattle.stateful_base.specs.declared.target.CompactTarget.{CompactTarget};

use stateful_base::{CompactTarget, Items, Target};
use stateful_db::{BatchError, DatabaseSet, FlushToken, Held, SetError, SetInit, SetLost};
use stateful_db_keyless::{
    CompactDb, KeylessDb, KeylessMerkleized, KeylessUnjournaledMerkleized,
    KeylessUnjournaledUnmerkleized, KeylessUnmerkleized,
};

/// The logs: of all amounts, and of the latest commit of the same amounts.
type Both = (Held<KeylessDb<u64>>, Held<CompactDb<u64>>);

/// A batch over them that may still change.
type Drafted = (
    KeylessUnmerkleized<u64>,
    KeylessUnjournaledUnmerkleized<u64>,
);

/// A sealed batch over them.
type Sealed = (KeylessMerkleized<u64>, KeylessUnjournaledMerkleized<u64>);

/// What a block commits to of them.
type Targets = (Target, CompactTarget);

/// The amounts in a keyless database, and the same amounts in a compact one.
#[derive(Drop)]
pub struct AmountLogs {
    pub both: (Held<KeylessDb<u64>>, Held<CompactDb<u64>>),
}

impl DatabaseSet for AmountLogs {
    ghost use Rattle.std.specs.Prelude.{refl};
    ghost use Rattle.stateful_db.specs.Calls.{Counts, Goes, Passes, Fails};
    ghost use Rattle.stateful_db.specs.Member.{MemberIsSound};
    ghost use Rattle.stateful_db.specs.Pair.{each_counts};
    ghost use Rattle.stateful_db.specs.Targeted.{compact_target};
    ghost use Rattle.stateful_db.specs.declared.held.Held.TheVariants.{Here, Closed, Lost, Away};
    ghost use Rattle.stateful_db_keyless.specs.Keyless as keyless_state;
    ghost use Rattle.stateful_db_compact.specs.Compacted as compact_state;
    ghost use Rattle.stateful_db_keyless.specs.KeylessSound as keyless;
    ghost use Rattle.stateful_db_compact.specs.CompactSound as compact;
    ghost use Rattle.stateful_bank_triple.specs.Logs.{logs_laws};

    type States = <Both as DatabaseSet>::States;

    type Ids = (u64, u64);

    type Unmerkleized = Drafted;

    type Merkleized = Sealed;

    type Config = ((), ());

    type SyncTargets = Targets;

    type Passes = <Both as DatabaseSet>::Passes;

    ghost kind = { ⟦<Both as DatabaseSet>⟧.kind };

    ghost members = { λ s. ⟦<Both as DatabaseSet>⟧.members s.both };

    ghost next = { λ s. ⟦<Both as DatabaseSet>⟧.next s.both };

    ghost counted = { λ s. ⟦<Both as DatabaseSet>⟧.counted s.both };

    ghost calls = { λ s. ⟦<Both as DatabaseSet>⟧.calls s.both };

    ghost opened = { ⟦<Both as DatabaseSet>⟧.opened };

    ghost shows = { ⟦<Both as DatabaseSet>⟧.shows };

    ghost laws = { logs_laws };

    ghost sound = { λ s. (
      elim s.both.0 as
          (λ h. MemberIsSound keyless_state.target_of (λ target. target)
          (⟦<Held<KeylessDb<u64>> as DatabaseSet>⟧.members h)) [
            | Here d ↦ keyless.sound_database d
            | Closed m ↦ keyless.sound_medium m
            | Lost m ↦ keyless.sound_medium m
            | Away ↦ tt
          ],
      elim s.both.1 as
          (λ h. MemberIsSound compact_state.target_of compact_target
          (⟦<Held<CompactDb<u64>> as DatabaseSet>⟧.members h)) [
            | Here d ↦ compact.sound_database d
            | Closed m ↦ compact.sound_medium m
            | Lost m ↦ compact.sound_medium m
            | Away ↦ tt
          ],
    ) };

    ghost counts = { λ s.
        let first = ⟦<Held<KeylessDb<u64>> as DatabaseSet>⟧ in
        let second = ⟦<Held<CompactDb<u64>> as DatabaseSet>⟧ in
        each_counts (first.calls s.both.0 0) (first.counted s.both.0 0) (second.calls s.both.1)
        (second.counted s.both.1)
        (elim s.both.0 as (λ h. Counts (first.calls h 0) (first.counted h 0))
        [ Here d ↦ refl | Closed m ↦ refl | Lost m ↦ refl | Away ↦ tt ])
        (λ n. elim s.both.1 as (λ h. Counts (second.calls h n) (second.counted h n))
        [ Here d ↦ refl | Closed m ↦ refl | Lost m ↦ refl | Away ↦ tt ]) };

    fn count() -> usize {
        Both::count()
    }

    fn faults(&self, index: usize) -> u64 {
        self.both.faults(index)
    }

    fn is_here(&self) -> bool {
        self.both.is_here()
    }

    // The clauses of the trait, which the check can't give this call by itself.
    fn init(&mut self, config: &((), ()), expected: Option<Targets>) -> Result<(), SetInit>
        ensures ok { let set = ⟦<AmountLogs as DatabaseSet>⟧ in OnOk result (
            set.kind.Reopened (set.members self.old) expected (set.members self.new)) }
        ensures opening { let set = ⟦<AmountLogs as DatabaseSet>⟧ in OnOk result (
            set.kind.Openable (set.members self.old)
            → (t : Target × CompactTarget) → expected ≡ Some t
            → IsOpening set.kind (set.next self.new) (set.members self.new) t) }
        ensures cause { let set = ⟦<AmountLogs as DatabaseSet>⟧ in
            IfErr result (λ e. set.kind.count < 2 ^ 64
            → set.kind.NotOpened (set.members self.old) expected e.index
            (set.counted self.old e.index) (set.counted self.new e.index) e.why
            (set.members self.new)) }
        ensures closed { let set = ⟦<AmountLogs as DatabaseSet>⟧ in OnErr result (
            set.kind.Openable (set.members self.old) → set.kind.Openable (set.members self.new)) }
        ensures index { let set = ⟦<AmountLogs as DatabaseSet>⟧ in
            IfErr result (λ e. e.index < set.kind.count) }
        ensures none_away { let set = ⟦<AmountLogs as DatabaseSet>⟧ in
            set.kind.NoneAway (set.members self.old) → set.kind.NoneAway (set.members self.new) }
        ensures next { let set = ⟦<AmountLogs as DatabaseSet>⟧ in
            set.next self.new ≡ set.next self.old }
        ensures later { let set = ⟦<AmountLogs as DatabaseSet>⟧ in
            (n : ℕ) → set.counted self.old n ≤ set.counted self.new n }
        ensures called { let set = ⟦<AmountLogs as DatabaseSet>⟧ in
            (n : ℕ) → Goes DbCall.Init (set.calls self.old n) (set.calls self.new n) }
        ensures passes { let set = ⟦<AmountLogs as DatabaseSet>⟧ in OnOk result (
            set.kind.Openable (set.members self.old)
            → (n : ℕ) → n < set.kind.count
            → Passes DbCall.Init (set.calls self.old n) (set.calls self.new n)) }
        ensures fails { let set = ⟦<AmountLogs as DatabaseSet>⟧ in IfErr result (λ e.
            e.why ≡ InitError.Database
            → set.kind.count < 2 ^ 64
            → set.kind.Refuses (set.members self.old) expected e.index e.why
            ⊎ Fails DbCall.Init (set.calls self.old e.index)) }
    {
        self.both.init(config, expected)
    }

    fn initial_sync_targets() -> Targets {
        Both::initial_sync_targets()
    }

    fn operations(targets: &Targets) -> u64 {
        Both::operations(targets)
    }

    fn new_batches(&mut self) -> Result<Drafted, SetError> {
        self.both.new_batches()
    }

    fn fork_batches(&mut self, parent: &Sealed) -> Result<Drafted, SetError> {
        self.both.fork_batches(parent)
    }

    fn seal(&self, batches: Drafted) -> Result<Sealed, BatchError> {
        self.both.seal(batches)
    }

    fn matches_sync_targets(batches: &Sealed, targets: &Targets) -> bool {
        Both::matches_sync_targets(batches, targets)
    }

    fn mismatch(batches: &Sealed, targets: &Targets) -> Option<(usize, Target, Target)> {
        Both::mismatch(batches, targets)
    }

    fn apply(&mut self, batches: Sealed) -> Result<(), SetError> {
        self.both.apply(batches)
    }

    fn persist(&mut self, tokens: &mut Items<FlushToken>) -> Result<(), SetError> {
        self.both.persist(tokens)
    }

    fn flush(&mut self, index: usize, token: FlushToken) -> Result<(), SetError> {
        self.both.flush(index, token)
    }

    fn prune(&mut self, targets: &Targets) -> Result<(), SetError> {
        self.both.prune(targets)
    }

    fn committed_targets(&self) -> Result<Targets, SetLost> {
        self.both.committed_targets()
    }

    fn crash(self, keep: &[usize]) -> Self {
        AmountLogs {
            both: self.both.crash(keep),
        }
    }

    fn take(&mut self) -> Self {
        AmountLogs {
            both: self.both.take(),
        }
    }
}
