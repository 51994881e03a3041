//! One database, wherever it is.
//!
//! A database that isn't open is its medium alone: `Closed`. `init` opens it, and it is `Here`. A
//! change that fails hands back the medium, and the database is `Lost` with it. `crash` closes it
//! again, with what a crash leaves of the checkpoints. Opening takes a closed or a lost one, and
//! every other change needs one that is here.
//!
//! A change takes the database by value. So it is `Away` inside a call, and no call returns with it
//! away but `take`, whose caller puts a set back.
//!
//! An opening that fails leaves it lost where its count of faults rose or memory ran out, and else
//! closed. `specs/Member.antt` says how a database stands, `specs/Single.antt` what each call makes
//! of it, and `specs/Reopening.antt` how it opens.

ghost use Rattle.std.specs.Prelude.{◌≡◌, ℕ, List, ◌∷◌, [], IfOk, IfErr, OnOk, OnErr, IsErrOf};
ghost use Rattle.std.specs.Prelude.{IsTrue, ◌↔◌, Some, ◌<◌, ◌≤◌, ◌+◌, ◌-◌, ◌^◌, ◌++◌, min};
ghost use Rattle.stateful_db.specs.Chain.{AllBelow, ids};
ghost use Rattle.stateful_db.specs.Disk.{point};
ghost use Rattle.stateful_db.specs.Reopening.{Loses};
ghost use Rattle.stateful_db.specs.Member.{IsOpenable, member_closed_if};
ghost use Rattle.stateful_base.specs.Causes.{Rose};
ghost use Rattle.stateful_db.specs.declared.database.DbCall.{DbCall};

use crate::batch::{BatchContext, BatchError, Unmerkleized};
use crate::database::{Broken, DbCall, FlushToken, InitError, ManagedDb, Targeted, Why};
use crate::set::{DatabaseSet, SetError, SetInit, SetLost};
use stateful_base::{Faulty, Items, Target};
use std::mem;

/// A database that is here, or its medium. It is away only inside a call.
#[derive(Drop)]
pub enum Held<D: ManagedDb> {
    Here(D),
    Closed(D::Medium),
    Lost(D::Medium),
    Away,
}

impl<D: ManagedDb> Held<D> {
    /// Whether it is closed, or lost with its medium: what opening takes.
    pub(crate) fn is_openable(&self) -> bool
        ensures { IsTrue result ↔ IsOpenable (⟦<Held<D> as DatabaseSet>⟧.members self.now) }
    {
        matches!(self, Held::Closed(_) | Held::Lost(_))
    }

    /// Closes it, where it was opened and is here.
    pub(crate) fn close_if(&mut self, opened: bool)
        ensures closed { let set = ⟦<Held<D> as DatabaseSet>⟧ in
            set.members self.new ≡ member_closed_if opened (set.members self.old) }
        ensures next { let set = ⟦<Held<D> as DatabaseSet>⟧ in
            set.next self.new ≡ set.next self.old }
        ensures counts { let set = ⟦<Held<D> as DatabaseSet>⟧ in
            (n : ℕ) → set.counted self.new n ≡ set.counted self.old n }
        ensures calls { let set = ⟦<Held<D> as DatabaseSet>⟧ in
            (n : ℕ) → set.calls self.new n ≡ set.calls self.old n }
    {
        match mem::replace(self, Held::Away) {
            Held::Here(database) => {
                *self = if opened {
                    Held::Closed(database.close())
                } else {
                    Held::Here(database)
                };
            }
            other => *self = other,
        }
    }
}

impl<D: ManagedDb> DatabaseSet for Held<D> {
    ghost use Rattle.stateful_db.specs.declared.held.Held.TheVariants.{Here, Closed, Lost, Away};
    ghost use Rattle.std.specs.Prelude.{None, ◌⊎◌};
    ghost use Rattle.stateful_db.specs.Calls.{Goes, Passes, Fails};
    ghost use Rattle.stateful_db.specs.Databases.{IsOpening};
    ghost use Rattle.stateful_db.specs.Member.{here, closed, lost, away, IsOpenable};
    ghost use Rattle.stateful_db.specs.Single.{single};
    ghost use Rattle.stateful_db.specs.SingleLaws.{single_laws};

    type States = D::State;

    type Ids = u64;

    type Unmerkleized = D::Unmerkleized;

    type Merkleized = D::Merkleized;

    type Config = D::Config;

    type SyncTargets = D::SyncTarget;

    type Passes = D::Pass;

    ghost kind = { single D.target_of D.SyncTarget.targeted D.begun D.initial };

    ghost members = { elim [
      | Here d ↦ here (D.standing d)
      | Closed m ↦ closed (D.disk m)
      | Lost m ↦ lost (D.disk m)
      | Away ↦ away
    ] };

    ghost next = { elim [ Here d ↦ D.next d | Closed m ↦ D.next_of m | Lost m ↦ D.next_of m | Away ↦ 0 ] };

    ghost counted = { λ s n. elim s [
      | Here d ↦ D.count d
      | Closed m ↦ D.Medium.count m
      | Lost m ↦ D.Medium.count m
      | Away ↦ 0
    ] };

    ghost calls = { λ s n. elim s [
      | Here d ↦ D.calls d
      | Closed m ↦ D.calls_of m
      | Lost m ↦ D.calls_of m
      | Away ↦ None
    ] };

    ghost opened = { D.Unmerkleized.shows };

    ghost shows = { D.Merkleized.shows };

    ghost laws = { single_laws D.target_of D.SyncTarget.targeted D.begun D.initial };

    ghost sound = { elim [ Here d ↦ D.sound_here d | Closed m ↦ D.sound m | Lost m ↦ D.sound m | Away ↦ tt ] };

    ghost counts = { elim [
      | Here d ↦ λ n. D.counts d
      | Closed m ↦ λ n. D.counts_of m
      | Lost m ↦ λ n. D.counts_of m
      | Away ↦ λ n. tt
    ] };

    fn count() -> usize {
        1
    }

    fn faults(&self, _index: usize) -> u64 {
        match self {
            Held::Here(database) => database.faults(),
            Held::Closed(medium) | Held::Lost(medium) => medium.faults(),
            Held::Away => 0,
        }
    }

    fn is_here(&self) -> bool {
        matches!(self, Held::Here(_))
    }

    // The clauses of the trait, which the check can't give this call by itself.
    fn init(&mut self, config: &D::Config, expected: Option<D::SyncTarget>) -> Result<(), SetInit>
        ensures ok { let set = ⟦<Held<D> as DatabaseSet>⟧ in OnOk result (
            set.kind.Reopened (set.members self.old) expected (set.members self.new)) }
        ensures opening { let set = ⟦<Held<D> as DatabaseSet>⟧ in OnOk result (
            IsOpenable (set.members self.old)
            → (t : D.SyncTarget) → expected ≡ Some t
            → IsOpening set.kind (set.next self.new) (set.members self.new) t) }
        ensures cause { let set = ⟦<Held<D> as DatabaseSet>⟧ in
            IfErr result (λ e. 1 < 2 ^ 64
            → set.kind.NotOpened (set.members self.old) expected e.index
            (set.counted self.old e.index) (set.counted self.new e.index) e.why
            (set.members self.new)) }
        ensures closed { let set = ⟦<Held<D> as DatabaseSet>⟧ in OnErr result (
            IsOpenable (set.members self.old) → IsOpenable (set.members self.new)) }
        ensures index { IfErr result (λ e. e.index < 1) }
        ensures none_away { let set = ⟦<Held<D> as DatabaseSet>⟧ in
            set.kind.NoneAway (set.members self.old) → set.kind.NoneAway (set.members self.new) }
        ensures next { let set = ⟦<Held<D> as DatabaseSet>⟧ in
            set.next self.new ≡ set.next self.old }
        ensures later { let set = ⟦<Held<D> as DatabaseSet>⟧ in
            (n : ℕ) → set.counted self.old n ≤ set.counted self.new n }
        ensures called { let set = ⟦<Held<D> as DatabaseSet>⟧ in
            (n : ℕ) → Goes DbCall.Init (set.calls self.old n) (set.calls self.new n) }
        ensures passes { let set = ⟦<Held<D> as DatabaseSet>⟧ in OnOk result (
            IsOpenable (set.members self.old)
            → (n : ℕ) → n < 1
            → Passes DbCall.Init (set.calls self.old n) (set.calls self.new n)) }
        ensures fails { let set = ⟦<Held<D> as DatabaseSet>⟧ in IfErr result (λ e.
            e.why ≡ InitError.Database
            → 1 < 2 ^ 64
            → set.kind.Refuses (set.members self.old) expected e.index e.why
            ⊎ Fails DbCall.Init (set.calls self.old e.index)) }
    {
        let medium = match mem::replace(self, Held::Away) {
            Held::Closed(medium) | Held::Lost(medium) => medium,
            other => {
                *self = other;
                return Ok(());
            }
        };
        let faults = medium.faults();
        match D::init(medium, config, expected) {
            Ok(database) => {
                *self = Held::Here(database);
                Ok(())
            }
            Err((medium, why)) => {
                *self = if is_broken(why, faults, medium.faults()) {
                    Held::Lost(medium)
                } else {
                    Held::Closed(medium)
                };
                Err(SetInit { index: 0, why })
            }
        }
    }

    fn initial_sync_targets() -> D::SyncTarget {
        D::initial_sync_target()
    }

    fn operations(targets: &D::SyncTarget) -> u64 {
        targets.target().end.0
    }

    #[tactic(auto, using(crate::proofs::Chains::below))]
    fn new_batches(&mut self) -> Result<D::Unmerkleized, SetError> {
        match self {
            Held::Here(database) => begin(database),
            _ => Err(SetError::Lost),
        }
    }

    #[tactic(auto, using(crate::proofs::Chains::below))]
    fn fork_batches(&mut self, parent: &D::Merkleized) -> Result<D::Unmerkleized, SetError> {
        match self {
            Held::Here(database) => fork(database, parent),
            _ => Err(SetError::Lost),
        }
    }

    fn seal(&self, batches: D::Unmerkleized) -> Result<D::Merkleized, BatchError> {
        match self {
            Held::Here(database) => batches.merkleize(database),
            _ => Err(BatchError::StaleRead),
        }
    }

    fn matches_sync_targets(batches: &D::Merkleized, targets: &D::SyncTarget) -> bool {
        D::matches_sync_target(batches, targets)
    }

    fn mismatch(
        batches: &D::Merkleized,
        targets: &D::SyncTarget,
    ) -> Option<(usize, Target, Target)> {
        if D::matches_sync_target(batches, targets) {
            None
        } else {
            Some((0, targets.target(), D::batch_target(batches).target()))
        }
    }

    fn apply(&mut self, batches: D::Merkleized) -> Result<(), SetError> {
        match mem::replace(self, Held::Away) {
            Held::Here(database) => match database.apply(batches) {
                Ok(database) => {
                    *self = Held::Here(database);
                    Ok(())
                }
                Err(broken) => Err(lose(self, broken, DbCall::Apply)),
            },
            other => {
                *self = other;
                Err(SetError::Lost)
            }
        }
    }

    fn persist(&mut self, tokens: &mut Items<FlushToken>) -> Result<(), SetError> {
        match mem::replace(self, Held::Away) {
            Held::Here(database) => match database.finalize() {
                Ok((database, token)) => match tokens.push(token) {
                    Ok(()) => {
                        *self = Held::Here(database);
                        Ok(())
                    }
                    Err(_) => {
                        *self = Held::Lost(database.close());
                        Err(SetError::OutOfMemory)
                    }
                },
                Err(broken) => Err(lose(self, broken, DbCall::Finalize)),
            },
            other => {
                *self = other;
                Err(SetError::Lost)
            }
        }
    }

    fn flush(&mut self, _index: usize, token: FlushToken) -> Result<(), SetError> {
        match mem::replace(self, Held::Away) {
            Held::Here(database) => match database.flush(token) {
                Ok(database) => {
                    *self = Held::Here(database);
                    Ok(())
                }
                Err(broken) => Err(lose(self, broken, DbCall::Flush)),
            },
            other => {
                *self = other;
                Err(SetError::Lost)
            }
        }
    }

    fn prune(&mut self, targets: &D::SyncTarget) -> Result<(), SetError> {
        match mem::replace(self, Held::Away) {
            Held::Here(database) => match database.prune(targets) {
                Ok(database) => {
                    *self = Held::Here(database);
                    Ok(())
                }
                Err(broken) => Err(lose(self, broken, DbCall::Prune)),
            },
            other => {
                *self = other;
                Err(SetError::Lost)
            }
        }
    }

    fn committed_targets(&self) -> Result<D::SyncTarget, SetLost> {
        match self {
            Held::Here(database) => Ok(database.sync_target()),
            _ => Err(SetLost),
        }
    }

    fn crash(self, keep: &[usize]) -> Self {
        let medium = match self {
            Held::Here(database) => database.close(),
            Held::Closed(medium) | Held::Lost(medium) => medium,
            Held::Away => return Held::Away,
        };
        match keep.first() {
            Some(keep) => Held::Closed(D::crash(medium, *keep)),
            None => Held::Closed(medium),
        }
    }

    fn take(&mut self) -> Self {
        mem::replace(self, Held::Away)
    }
}

/// Draws an id and begins a batch over the database's state.
fn begin<D: ManagedDb>(database: &mut D) -> Result<D::Unmerkleized, SetError>
    ensures ok { IfOk result
        (λ u. (D.standing database.old).id < D.next database.old
        → D.Unmerkleized.shows u
        ((D.next database.old, D.begun (D.standing database.old).disk.newest)
        ∷ point (D.standing database.old) ∷ [])) }
    ensures drawn { OnOk result (D.next database.new ≡ D.next database.old + 1) }
    ensures next { D.next database.old ≤ D.next database.new }
    ensures standing { D.standing database.new ≡ D.standing database.old }
    ensures count { D.count database.new ≡ D.count database.old }
    ensures calls { D.calls database.new ≡ D.calls database.old }
    ensures exhausted { IsErrOf result SetError.Exhausted → 2 ^ 64 - 1 ≤ D.next database.old }
    ensures within { OnOk result (2 ^ 64 - 1 ≤ D.next database.old → ⊥) }
    ensures lost { IsErrOf result SetError.Lost → ⊥ }
    ensures fault { (n : ℕ) (k : DbCall) → IsErrOf result (SetError.DatabaseFault n k) → ⊥ }
{
    let id = match database.draw() {
        Ok(id) => id,
        Err(_) => return Err(SetError::Exhausted),
    };
    let database: &D = database;
    match D::new_batch(BatchContext::new(database, id)) {
        Ok(batch) => Ok(batch),
        Err(_) => Err(SetError::OutOfMemory),
    }
}

/// Draws an id and begins a batch over a sealed one, whose chain is cut behind where the database
/// is.
#[tactic(auto, using(crate::proofs::Chains::below))]
fn fork<D: ManagedDb>(database: &mut D, parent: &D::Merkleized) -> Result<D::Unmerkleized, SetError>
    ensures drawn { OnOk result (D.next database.new ≡ D.next database.old + 1) }
    ensures ok { IfOk result (λ u. (q : ℕ × D.State) (above older : List (ℕ × D.State))
        → D.Merkleized.shows parent.now (q ∷ above ++ point (D.standing database.old) ∷ older)
        → AllBelow (D.next database.old) (ids (q ∷ above ++ point (D.standing database.old) ∷
        older))
        → D.Unmerkleized.shows u ((D.next database.old, D.begun q.1) ∷ q ∷ above ++ point
        (D.standing database.old) ∷ [])
        × AllBelow (D.next database.new) (ids ((D.next database.old, D.begun q.1) ∷ q ∷ above ++
        point (D.standing database.old) ∷ []))) }
    ensures next { D.next database.old ≤ D.next database.new }
    ensures standing { D.standing database.new ≡ D.standing database.old }
    ensures count { D.count database.new ≡ D.count database.old }
    ensures calls { D.calls database.new ≡ D.calls database.old }
    ensures exhausted { IsErrOf result SetError.Exhausted → 2 ^ 64 - 1 ≤ D.next database.old }
    ensures within { OnOk result (2 ^ 64 - 1 ≤ D.next database.old → ⊥) }
    ensures lost { IsErrOf result SetError.Lost → ⊥ }
    ensures fault { (n : ℕ) (k : DbCall) → IsErrOf result (SetError.DatabaseFault n k) → ⊥ }
{
    let id = match database.draw() {
        Ok(id) => id,
        Err(_) => return Err(SetError::Exhausted),
    };
    let database: &D = database;
    match D::fork(BatchContext::new(database, id), parent) {
        Ok(batch) => Ok(batch),
        Err(_) => Err(SetError::OutOfMemory),
    }
}

/// The database is lost with its medium. What the set answers that failed so at this call.
fn lose<D: ManagedDb>(held: &mut Held<D>, broken: Broken<D::Medium>, call: DbCall) -> SetError
    ensures lost { held.new ≡ Held.Lost broken.medium }
    ensures fault { (n : ℕ) (k : DbCall)
        → result ≡ SetError.DatabaseFault n k
        → (n ≡ 0) × (k ≡ call) × (broken.why ≡ Why.Failed) }
    ensures failed { broken.why ≡ Why.Failed → result ≡ SetError.DatabaseFault 0 call }
    ensures memory { broken.why ≡ Why.OutOfMemory → result ≡ SetError.OutOfMemory }
{
    let Broken { medium, why } = broken;
    *held = Held::Lost(medium);
    match why {
        Why::Failed => SetError::DatabaseFault { index: 0, call },
        Why::OutOfMemory => SetError::OutOfMemory,
    }
}

/// Whether a database that didn't open is lost: it failed, or wanted memory.
fn is_broken(why: InitError, before: u64, now: u64) -> bool
    ensures { IsTrue result ↔ Loses why (Rose before now) }
{
    match why {
        InitError::Database => before.saturating_add(1) <= now,
        InitError::TargetMismatch { .. } => false,
        InitError::OutOfMemory => true,
    }
}
