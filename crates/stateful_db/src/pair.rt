//! One database before a set of others.
//!
//! A change is made on the first database and then on the others, and stops at the first failure.
//! New batches, forks and `apply` look before whether all are here. So none of them changes the
//! first database only to find that another is lost.
//!
//! Where an opening fails at a later database, the first is closed again if this call has opened
//! it. Other failures aren't taken back: the machine has failed then, and takes a restart alone.
//!
//! Databases are numbered from 0. The first has the number 0, and a number of the others is one
//! higher here than in their own set (`behind`). `specs/Pair.antt` says what such a set means, by
//! what its parts mean.

ghost use Rattle.std.specs.Prelude.{◌≡◌, ◌⊎◌, ℕ, ◌^◌, ◌<◌, ◌≤◌, OnOk, OnErr, IfErr, Some};
ghost use Rattle.stateful_db.specs.declared.database.DbCall.{DbCall};
ghost use Rattle.stateful_db.specs.declared.database.InitError.{InitError};
ghost use Rattle.stateful_db.specs.Databases.{IsOpening};
ghost use Rattle.stateful_db.specs.Pair.{behind_first, first_of, others_of};

use crate::batch::BatchError;
use crate::database::{FlushToken, ManagedDb};
use crate::held::Held;
use crate::set::{DatabaseSet, SetError, SetInit, SetLost};
use stateful_base::{Items, Target};

impl<A: ManagedDb, R: DatabaseSet> DatabaseSet for (Held<A>, R) {
    ghost use Rattle.std.specs.Prelude.{ℕ, map, refl};
    ghost use Rattle.stateful_db.specs.Calls.{Counts, Goes, Passes, Fails};
    ghost use Rattle.stateful_db.specs.Pair.{left, right, pair, by_number, each_counts};
    ghost use Rattle.stateful_db.specs.PairLaws.{pair_laws};
    ghost use Rattle.stateful_db.specs.Member.{MemberIsSound};
    ghost use Rattle.stateful_db.specs.Single.{single};
    ghost use Rattle.stateful_db.specs.SingleLaws.{single_laws};
    ghost use Rattle.stateful_db.specs.declared.held.Held.TheVariants.{Here, Closed, Lost, Away};

    type States = (A::State, R::States);

    type Ids = (u64, R::Ids);

    type Unmerkleized = (A::Unmerkleized, R::Unmerkleized);

    type Merkleized = (A::Merkleized, R::Merkleized);

    type Config = (A::Config, R::Config);

    type SyncTargets = (A::SyncTarget, R::SyncTargets);

    type Passes = (A::Pass, R::Passes);

    ghost kind = { pair (single A.target_of A.SyncTarget.targeted A.begun A.initial) R.kind };

    ghost members = { λ s. (⟦<Held<A> as DatabaseSet>⟧.members s.0, R.members s.1) };

    ghost next = { λ s. (⟦<Held<A> as DatabaseSet>⟧.next s.0, R.next s.1) };

    ghost counted = { λ s. by_number (⟦<Held<A> as DatabaseSet>⟧.counted s.0 0) (R.counted s.1) };

    ghost calls = { λ s. by_number (⟦<Held<A> as DatabaseSet>⟧.calls s.0 0) (R.calls s.1) };

    ghost opened = { λ u c. A.Unmerkleized.shows u.0 (map left c) × R.opened u.1 (map right c) };

    ghost shows = { λ m c. A.Merkleized.shows m.0 (map left c) × R.shows m.1 (map right c) };

    ghost laws = { let first = single A.target_of A.SyncTarget.targeted A.begun A.initial in
        pair_laws first R.kind
        (single_laws A.target_of A.SyncTarget.targeted A.begun A.initial) R.laws refl };

    ghost sound = { λ s. (
      elim s.0 as
          (λ h. MemberIsSound A.target_of A.SyncTarget.targeted
          (⟦<Held<A> as DatabaseSet>⟧.members h))
          [ Here d ↦ A.sound_here d | Closed m ↦ A.sound m | Lost m ↦ A.sound m | Away ↦ tt ],
      R.sound s.1,
    ) };

    ghost counts = { λ s. each_counts (⟦<Held<A> as DatabaseSet>⟧.calls s.0 0)
        (⟦<Held<A> as DatabaseSet>⟧.counted s.0 0) (R.calls s.1) (R.counted s.1)
        (elim s.0 as
        (λ h. Counts (⟦<Held<A> as DatabaseSet>⟧.calls h 0)
        (⟦<Held<A> as DatabaseSet>⟧.counted h 0))
        [ Here d ↦ A.counts d | Closed m ↦ A.counts_of m | Lost m ↦ A.counts_of m | Away ↦ tt ])
        (R.counts s.1) };

    fn count() -> usize {
        R::count().saturating_add(1)
    }

    fn faults(&self, index: usize) -> u64 {
        if index == 0 {
            self.0.faults(0)
        } else {
            self.1.faults(index - 1)
        }
    }

    fn is_here(&self) -> bool {
        self.0.is_here() && self.1.is_here()
    }

    // The clauses of the trait, which the check can't give this call by itself.
    fn init(
        &mut self,
        config: &(A::Config, R::Config),
        expected: Option<(A::SyncTarget, R::SyncTargets)>,
    ) -> Result<(), SetInit>
        ensures ok { let set = ⟦<(Held<A>, R) as DatabaseSet>⟧ in OnOk result (
            set.kind.Reopened (set.members self.old) expected (set.members self.new)) }
        ensures opening { let set = ⟦<(Held<A>, R) as DatabaseSet>⟧ in OnOk result (
            set.kind.Openable (set.members self.old)
            → (t : A.SyncTarget × R.SyncTargets) → expected ≡ Some t
            → IsOpening set.kind (set.next self.new) (set.members self.new) t) }
        ensures cause { let set = ⟦<(Held<A>, R) as DatabaseSet>⟧ in
            IfErr result (λ e. set.kind.count < 2 ^ 64
            → set.kind.NotOpened (set.members self.old) expected e.index
            (set.counted self.old e.index) (set.counted self.new e.index) e.why
            (set.members self.new)) }
        ensures closed { let set = ⟦<(Held<A>, R) as DatabaseSet>⟧ in OnErr result (
            set.kind.Openable (set.members self.old) → set.kind.Openable (set.members self.new)) }
        ensures index { let set = ⟦<(Held<A>, R) as DatabaseSet>⟧ in
            IfErr result (λ e. e.index < set.kind.count) }
        ensures none_away { let set = ⟦<(Held<A>, R) as DatabaseSet>⟧ in
            set.kind.NoneAway (set.members self.old) → set.kind.NoneAway (set.members self.new) }
        ensures next { let set = ⟦<(Held<A>, R) as DatabaseSet>⟧ in
            set.next self.new ≡ set.next self.old }
        ensures later { let set = ⟦<(Held<A>, R) as DatabaseSet>⟧ in
            (n : ℕ) → set.counted self.old n ≤ set.counted self.new n }
        ensures called { let set = ⟦<(Held<A>, R) as DatabaseSet>⟧ in
            (n : ℕ) → Goes DbCall.Init (set.calls self.old n) (set.calls self.new n) }
        ensures passes { let set = ⟦<(Held<A>, R) as DatabaseSet>⟧ in OnOk result (
            set.kind.Openable (set.members self.old)
            → (n : ℕ) → n < set.kind.count
            → Passes DbCall.Init (set.calls self.old n) (set.calls self.new n)) }
        ensures fails { let set = ⟦<(Held<A>, R) as DatabaseSet>⟧ in IfErr result (λ e.
            e.why ≡ InitError.Database
            → set.kind.count < 2 ^ 64
            → set.kind.Refuses (set.members self.old) expected e.index e.why
            ⊎ Fails DbCall.Init (set.calls self.old e.index)) }
    {
        let (first, others) = parts(expected);
        let opens = self.0.is_openable();
        self.0.init(&config.0, first)?;
        match self.1.init(&config.1, others) {
            Ok(()) => Ok(()),
            Err(refused) => {
                self.0.close_if(opens);
                Err(SetInit {
                    index: refused.index.saturating_add(1),
                    why: refused.why,
                })
            }
        }
    }

    fn initial_sync_targets() -> (A::SyncTarget, R::SyncTargets) {
        (A::initial_sync_target(), R::initial_sync_targets())
    }

    fn operations(targets: &(A::SyncTarget, R::SyncTargets)) -> u64 {
        Held::<A>::operations(&targets.0).saturating_add(R::operations(&targets.1))
    }

    fn new_batches(&mut self) -> Result<(A::Unmerkleized, R::Unmerkleized), SetError> {
        if !self.is_here() {
            return Err(SetError::Lost);
        }
        let first = self.0.new_batches()?;
        let others = self.1.new_batches()?;
        Ok((first, others))
    }

    fn fork_batches(
        &mut self,
        parent: &(A::Merkleized, R::Merkleized),
    ) -> Result<(A::Unmerkleized, R::Unmerkleized), SetError> {
        if !self.is_here() {
            return Err(SetError::Lost);
        }
        let first = self.0.fork_batches(&parent.0)?;
        let others = self.1.fork_batches(&parent.1)?;
        Ok((first, others))
    }

    fn seal(
        &self,
        batches: (A::Unmerkleized, R::Unmerkleized),
    ) -> Result<(A::Merkleized, R::Merkleized), BatchError> {
        let (first, others) = batches;
        let first = self.0.seal(first)?;
        let others = self.1.seal(others)?;
        Ok((first, others))
    }

    fn matches_sync_targets(
        batches: &(A::Merkleized, R::Merkleized),
        targets: &(A::SyncTarget, R::SyncTargets),
    ) -> bool {
        let first = Held::<A>::matches_sync_targets(&batches.0, &targets.0);
        let others = R::matches_sync_targets(&batches.1, &targets.1);
        first && others
    }

    fn mismatch(
        batches: &(A::Merkleized, R::Merkleized),
        targets: &(A::SyncTarget, R::SyncTargets),
    ) -> Option<(usize, Target, Target)> {
        match Held::<A>::mismatch(&batches.0, &targets.0) {
            Some((_, expected, given)) => Some((0, expected, given)),
            None => match R::mismatch(&batches.1, &targets.1) {
                Some((index, expected, given)) => Some((index.saturating_add(1), expected, given)),
                None => None,
            },
        }
    }

    fn apply(&mut self, batches: (A::Merkleized, R::Merkleized)) -> Result<(), SetError> {
        if !self.is_here() {
            return Err(SetError::Lost);
        }
        let (first, others) = batches;
        self.0.apply(first)?;
        match self.1.apply(others) {
            Ok(()) => Ok(()),
            Err(error) => Err(behind(error)),
        }
    }

    fn persist(&mut self, tokens: &mut Items<FlushToken>) -> Result<(), SetError> {
        self.0.persist(tokens)?;
        match self.1.persist(tokens) {
            Ok(()) => Ok(()),
            Err(error) => Err(behind(error)),
        }
    }

    fn flush(&mut self, index: usize, token: FlushToken) -> Result<(), SetError> {
        if index == 0 {
            return self.0.flush(0, token);
        }
        match self.1.flush(index - 1, token) {
            Ok(()) => Ok(()),
            Err(error) => Err(behind(error)),
        }
    }

    fn prune(&mut self, targets: &(A::SyncTarget, R::SyncTargets)) -> Result<(), SetError> {
        self.0.prune(&targets.0)?;
        match self.1.prune(&targets.1) {
            Ok(()) => Ok(()),
            Err(error) => Err(behind(error)),
        }
    }

    fn committed_targets(&self) -> Result<(A::SyncTarget, R::SyncTargets), SetLost> {
        let first = self.0.committed_targets()?;
        let others = self.1.committed_targets()?;
        Ok((first, others))
    }

    fn crash(self, keep: &[usize]) -> Self {
        let (first, others) = self;
        let behind = match keep {
            [] => keep,
            [_, behind @ ..] => behind,
        };
        (first.crash(keep), others.crash(behind))
    }

    fn take(&mut self) -> Self {
        (self.0.take(), self.1.take())
    }
}

/// What is expected of the first database, and of the others.
fn parts<T, U>(expected: Option<(T, U)>) -> (Option<T>, Option<U>)
    ensures first { result.0 ≡ first_of expected }
    ensures others { result.1 ≡ others_of expected }
{
    match expected {
        Some((first, others)) => (Some(first), Some(others)),
        None => (None, None),
    }
}

/// The error of a set that stands behind one database.
fn behind(error: SetError) -> SetError
    ensures { result ≡ behind_first error }
{
    match error {
        SetError::DatabaseFault { index, call } => SetError::DatabaseFault {
            index: index.saturating_add(1),
            call,
        },
        other => other,
    }
}
