//! Sets of databases, which a block changes together.

use crate::barrier::Barrier;
use crate::batch::BatchError;
use crate::database::{DbCall, FlushToken, InitError};
use stateful_base::{Items, OutOfMemory, Target};
use std::alloc::{AllocError, AllocFailed, Global};
use thiserror::Error;

/// Why a call of a set failed.
#[derive(Clone, Copy, Debug, PartialEq, Eq, Error)]
pub enum SetError {
    /// A database isn't here.
    #[error("Lost")]
    Lost,
    /// A database has no batch id left.
    #[error("Exhausted")]
    Exhausted,
    /// The database of this number failed at this call, and is lost with its medium.
    #[error("DatabaseFault")]
    DatabaseFault { index: usize, call: DbCall },
    #[error("OutOfMemory")]
    OutOfMemory,
}

/// Why the database of this number did not open.
#[derive(Clone, Copy, Debug, PartialEq, Eq, Error)]
#[error("{why}")]
pub struct SetInit {
    pub index: usize,
    pub why: InitError,
}

/// A database isn't here.
#[derive(Clone, Copy, Debug, PartialEq, Eq, Error)]
#[error("Lost")]
pub struct SetLost;

/// Databases that a block changes together, numbered from 0, left to right.
///
/// What a call says of a database's number holds of sets of fewer than 2^64 databases: there each
/// has one.
pub trait DatabaseSet: Sized {
    ghost use Rattle.std.specs.Prelude.{◌≡◌, ℕ, ◌+◌, List, ◌∷◌, [], IfOk, IfErr, IfSome, OnOk};
    ghost use Rattle.std.specs.Prelude.{OnErr, IsErrOf, IsNone, Option, Some, None, ◌↔◌, is_some};
    ghost use Rattle.std.specs.Prelude.{◌<◌, ◌≤◌, ◌-◌, ◌^◌, map, ◌++◌, ◌⊎◌, IsTrue, Contains};
    ghost use Rattle.std.specs.Prelude.{length, min};
    ghost use Rattle.stateful_base.specs.Causes.{Rose};
    ghost use Rattle.stateful_db.specs.Calls.{Calls, Goes, Passes, Fails, Counts};
    ghost use Rattle.stateful_db.specs.Chain.{IsPoint};
    ghost use Rattle.stateful_db.specs.Databases.{Databases, IsOpening};
    ghost use Rattle.stateful_db.specs.Laws.{Laws};
    ghost use Rattle.stateful_db.specs.Tokens.{each_below};
    ghost use Rattle.stateful_db.specs.Barrier.{unanswered, open_at};
    ghost use Rattle.stateful_db.specs.Batch.{RefusesSeal};
    ghost use Rattle.stateful_db.specs.declared.database.DbCall.{DbCall};
    ghost use Rattle.stateful_db.specs.declared.database.InitError.{InitError};

    /// The states of the databases, left to right.
    type States;

    /// Batch ids, one for each database.
    type Ids;

    type Unmerkleized: Drop;

    type Merkleized: Drop;

    type Config: Drop;

    /// What a block commits to.
    type SyncTargets: Copy + Eq;

    /// A sync of each database. It has the media meanwhile.
    type Passes: Drop;

    /// What the set means.
    ghost kind: { Databases Self.Ids Self.States Self.SyncTargets };

    /// All that is known of the databases, but for the next ids.
    ghost members: { Self → kind.Members };

    /// The ids that are drawn next.
    ghost next: { Self → Self.Ids };

    /// How often the database of this number has failed.
    ghost counted: { Self → ℕ → ℕ };

    /// The calls on the database of this number, where these are listed.
    ghost calls: { Self → ℕ → Option Calls };

    /// The chain on which batches stand. Their own point is first.
    ghost opened: { Self.Unmerkleized → List (Self.Ids × Self.States) → Type 0 };

    /// The same of sealed batches.
    ghost shows: { Self.Merkleized → List (Self.Ids × Self.States) → Type 0 };

    /// How many databases there are, up to the last number.
    fn count() -> usize
        ensures { result ≡ min kind.count (2 ^ 64 - 1) };

    /// How often the database of this number has failed.
    fn faults(&self, index: usize) -> u64
        requires within { index < kind.count }
        requires none_away { kind.NoneAway (members self.now) }
        ensures { result ≡ counted self.now index };

    /// Whether every database is here.
    fn is_here(&self) -> bool
        ensures { result ≡ is_some (kind.point (members self.now)) };

    /// Opens every closed or lost database, in order, at the expected targets or at the latest
    /// ones. Where one doesn't open, those that were opened are closed again. The others stay as
    /// they are.
    fn init(
        &mut self,
        config: &Self::Config,
        expected: Option<Self::SyncTargets>,
    ) -> Result<(), SetInit>
        ensures ok { OnOk result (kind.Reopened (members self.old) expected (members self.new)) }
        ensures opening { OnOk result (
            kind.Openable (members self.old)
            → (t : Self.SyncTargets) → expected ≡ Some t
            → IsOpening kind (next self.new) (members self.new) t) }
        ensures cause { IfErr result (λ e.
            kind.count < 2 ^ 64
            → kind.NotOpened (members self.old) expected e.index
            (counted self.old e.index) (counted self.new e.index) e.why (members self.new)) }
        ensures closed { OnErr result (kind.Openable (members self.old)
            → kind.Openable (members self.new)) }
        ensures index { IfErr result (λ e. e.index < kind.count) }
        ensures none_away { kind.NoneAway (members self.old) → kind.NoneAway (members self.new) }
        ensures next { next self.new ≡ next self.old }
        ensures later { (n : ℕ) → counted self.old n ≤ counted self.new n }
        ensures called { (n : ℕ) → Goes DbCall.Init (calls self.old n) (calls self.new n) }
        ensures passes { OnOk result (
            kind.Openable (members self.old)
            → (n : ℕ) → n < kind.count
            → Passes DbCall.Init (calls self.old n) (calls self.new n)) }
        ensures fails { IfErr result (λ e.
            e.why ≡ InitError.Database
            → kind.count < 2 ^ 64
            → kind.Refuses (members self.old) expected e.index e.why
            ⊎ Fails DbCall.Init (calls self.old e.index)) };

    /// The targets of empty media.
    fn initial_sync_targets() -> Self::SyncTargets
        ensures { result ≡ kind.target_of kind.initial };

    /// The sum of the ends of the targets' ranges, up to the last number. It takes no memory.
    fn operations(targets: &Self::SyncTargets) -> u64
        ensures { result ≡ min (kind.operations targets.now) (2 ^ 64 - 1) };

    /// Batches over the states as they are, for which one id of each database is drawn. Without an
    /// `Ok` ids may have been drawn. `Lost` exactly where a database isn't here; behind that
    /// `Exhausted` where one has no id left.
    fn new_batches(&mut self) -> Result<Self::Unmerkleized, SetError>
        ensures ok { IfOk result (λ u. (p : Self.Ids × Self.States)
            → kind.point (members self.old) ≡ Some p
            → kind.issued (next self.old) (p ∷ [])
            → opened u ((next self.old, kind.begun p.1) ∷ p ∷ [])
            × kind.issued (next self.new) ((next self.old, kind.begun p.1) ∷ p ∷ [])) }
        ensures drawn { OnOk result (next self.new ≡ kind.following (next self.old)) }
        ensures members { members self.new ≡ members self.old }
        ensures keeps { (c : List (Self.Ids × Self.States))
            → kind.issued (next self.old) c
            → kind.issued (next self.new) c }
        ensures lost { IsErrOf result SetError.Lost ↔ (kind.point (members self.old) ≡ None) }
        ensures exhausted { IsErrOf result SetError.Exhausted → kind.Spent (next self.old) }
        ensures within { OnOk result (kind.Spent (next self.old) → ⊥) }
        ensures fault { (n : ℕ) (k : DbCall) → IsErrOf result (SetError.DatabaseFault n k) → ⊥ }
        ensures counts { (n : ℕ) → counted self.new n ≡ counted self.old n }
        ensures calls { (n : ℕ) → calls self.new n ≡ calls self.old n };

    /// Children of sealed batches, whose reads see these first, and for which one id of each
    /// database is drawn. Their chain is cut behind where the databases are. Refused as
    /// `new_batches` is.
    fn fork_batches(&mut self, parent: &Self::Merkleized) -> Result<Self::Unmerkleized, SetError>
        ensures ok { IfOk result (λ u. (p q : Self.Ids × Self.States) (above older : List
            (Self.Ids × Self.States))
            → kind.point (members self.old) ≡ Some p
            → shows parent.now (q ∷ above ++ p ∷ older)
            → kind.issued (next self.old) (q ∷ above ++ p ∷ older)
            → opened u ((next self.old, kind.begun q.1) ∷ q ∷ above ++ p ∷ [])
            × kind.issued (next self.new) ((next self.old, kind.begun q.1) ∷ q ∷ above ++ p ∷
            [])) }
        ensures drawn { OnOk result (next self.new ≡ kind.following (next self.old)) }
        ensures members { members self.new ≡ members self.old }
        ensures keeps { (c : List (Self.Ids × Self.States))
            → kind.issued (next self.old) c
            → kind.issued (next self.new) c }
        ensures lost { IsErrOf result SetError.Lost ↔ (kind.point (members self.old) ≡ None) }
        ensures exhausted { IsErrOf result SetError.Exhausted → kind.Spent (next self.old) }
        ensures within { OnOk result (kind.Spent (next self.old) → ⊥) }
        ensures fault { (n : ℕ) (k : DbCall) → IsErrOf result (SetError.DatabaseFault n k) → ⊥ }
        ensures counts { (n : ℕ) → counted self.new n ≡ counted self.old n }
        ensures calls { (n : ℕ) → calls self.new n ≡ calls self.old n };

    /// Seals each member against its own database. `StaleRead` also where a database isn't here.
    fn seal(&self, batches: Self::Unmerkleized) -> Result<Self::Merkleized, BatchError>
        ensures ok { IfOk result (λ m. (p : Self.Ids × Self.States) (c : List
            (Self.Ids × Self.States))
            → kind.point (members self.now) ≡ Some p
            → opened batches c
            → IsPoint p c
            → shows m c) }
        ensures stale { IsErrOf result BatchError.StaleRead
            → (p : Self.Ids × Self.States) (c : List (Self.Ids × Self.States))
            → kind.point (members self.now) ≡ Some p
            → opened batches c
            → IsPoint p c
            → ⊥ }
        ensures exhausted { (p : Self.Ids × Self.States) (c : List (Self.Ids × Self.States))
            → opened batches (p ∷ c)
            → IsErrOf result BatchError.Exhausted
            → kind.Full p.1 }
        ensures within { IfOk result (λ _. (p : Self.Ids × Self.States)
            (c : List (Self.Ids × Self.States))
            → opened batches (p ∷ c)
            → kind.Full p.1
            → ⊥) }
        ensures why { IfErr result RefusesSeal };

    /// Whether all members match.
    fn matches_sync_targets(batches: &Self::Merkleized, targets: &Self::SyncTargets) -> bool
        ensures { (p : Self.Ids × Self.States) (c : List (Self.Ids × Self.States))
            → shows batches.now (p ∷ c)
            → (IsTrue result ↔ (kind.target_of p.1 ≡ targets.now)) };

    /// The first member that doesn't match, with its number and the expected and the given target.
    fn mismatch(
        batches: &Self::Merkleized,
        targets: &Self::SyncTargets,
    ) -> Option<(usize, Target, Target)>
        ensures none { (p : Self.Ids × Self.States) (c : List (Self.Ids × Self.States))
            → shows batches.now (p ∷ c)
            → (IsNone result ↔ (kind.target_of p.1 ≡ targets.now)) }
        ensures first { IfSome result (λ m. (p : Self.Ids × Self.States)
            (c : List (Self.Ids × Self.States))
            → kind.count < 2 ^ 64
            → shows batches.now (p ∷ c)
            → (kind.Agrees (kind.target_of p.1) targets.now m.0 → ⊥)
            × ((i : ℕ) → i < m.0 → kind.Agrees (kind.target_of p.1) targets.now i)) }
        ensures targets { IfSome result (λ m. (p : Self.Ids × Self.States)
            (c : List (Self.Ids × Self.States))
            → kind.count < 2 ^ 64
            → shows batches.now (p ∷ c)
            → (m.1 ≡ kind.target_at targets.now m.0)
            × (m.2 ≡ kind.target_at (kind.target_of p.1) m.0)) }
        ensures index { IfSome result (λ m. m.0 < kind.count) };

    /// Applies batches whose parents are the databases' states, in order.
    fn apply(&mut self, batches: Self::Merkleized) -> Result<(), SetError>
        ensures ok { OnOk result ((p q : Self.Ids × Self.States) (c : List (Self.Ids × Self.States))
            → kind.point (members self.old) ≡ Some p
            → shows batches (q ∷ p ∷ c)
            → members self.new ≡ kind.applied (members self.old) q) }
        ensures lost { IsErrOf result SetError.Lost ↔ (kind.point (members self.old) ≡ None) }
        ensures unchanged { IsErrOf result SetError.Lost → members self.new ≡ members self.old }
        ensures exhausted { IsErrOf result SetError.Exhausted → ⊥ }
        ensures here { OnOk result (kind.point (members self.new) ≡ None → ⊥) }
        ensures tokens { OnOk result ((i : ℕ)
            → kind.tokens (members self.new) i ≡ kind.tokens (members self.old) i) }
        ensures none_away { kind.NoneAway (members self.old) → kind.NoneAway (members self.new) }
        ensures next { next self.new ≡ next self.old }
        ensures fault { (n : ℕ) (k : DbCall) → IsErrOf result (SetError.DatabaseFault n k)
            → kind.count < 2 ^ 64
            → (k ≡ DbCall.Apply) × (n < kind.count) × Rose (counted self.old n) (counted self.new n)
            × kind.Lost (members self.new) n
            × ((p q : Self.Ids × Self.States) (c : List (Self.Ids × Self.States))
            → kind.point (members self.old) ≡ Some p
            → shows batches (q ∷ p ∷ c)
            → kind.LostApplying (members self.old) q n (members self.new)) }
        ensures memory { IsErrOf result SetError.OutOfMemory
            → (p q : Self.Ids × Self.States) (c : List (Self.Ids × Self.States))
            → kind.point (members self.old) ≡ Some p
            → shows batches (q ∷ p ∷ c)
            → (n : ℕ)
            × (n < kind.count)
            × kind.LostApplying (members self.old) q n (members self.new) }
        ensures err { OnErr result ((p q : Self.Ids × Self.States) (c : List
            (Self.Ids × Self.States))
            → kind.point (members self.old) ≡ Some p
            → shows batches (q ∷ p ∷ c)
            → (i : ℕ)
            → kind.HasState (members self.new) i p.1 ⊎ kind.HasState (members self.new) i q.1) }
        ensures later { (n : ℕ) → counted self.old n ≤ counted self.new n }
        ensures called { (n : ℕ) → Goes DbCall.Apply (calls self.old n) (calls self.new n) }
        ensures passes { OnOk result ((n : ℕ) → n < kind.count
            → Passes DbCall.Apply (calls self.old n) (calls self.new n)) }
        ensures fails { (n : ℕ) (k : DbCall)
            → IsErrOf result (SetError.DatabaseFault n k)
            → kind.count < 2 ^ 64
            → Fails k (calls self.old n) };

    /// Starts persisting all checkpoints, in order. One token for each database is added to those
    /// that are given.
    fn persist(&mut self, tokens: &mut Items<FlushToken>) -> Result<(), SetError>
        requires { kind.HasRoom (members self.old) }
        ensures ok { OnOk result (members self.new ≡ kind.finalized (members self.old)) }
        ensures tokens { OnOk result (map (λ t. t.place) tokens.new
            ≡ map (λ t. t.place) tokens.old ++ each_below (kind.place (members self.old))
            kind.count) }
        ensures lost { IsErrOf result SetError.Lost → ⊥ }
        ensures exhausted { IsErrOf result SetError.Exhausted → ⊥ }
        ensures none_away { kind.NoneAway (members self.old) → kind.NoneAway (members self.new) }
        ensures next { next self.new ≡ next self.old }
        ensures fault { (n : ℕ) (k : DbCall)
            → IsErrOf result (SetError.DatabaseFault n k)
            → kind.count < 2 ^ 64
            → (k ≡ DbCall.Finalize)
            × (n < kind.count)
            × Rose (counted self.old n) (counted self.new n)
            × kind.Lost (members self.new) n
            × kind.LostFinalizing (members self.old) n (members self.new) }
        ensures memory { IsErrOf result SetError.OutOfMemory
            → (n : ℕ)
            × (n < kind.count)
            × kind.LostFinalizing (members self.old) n (members self.new) }
        ensures err { OnErr result ((i : ℕ) (s : Self.States)
            → kind.HasState (members self.old) i s
            → kind.HasState (members self.new) i s) }
        ensures later { (n : ℕ) → counted self.old n ≤ counted self.new n }
        ensures called { (n : ℕ) → Goes DbCall.Finalize (calls self.old n) (calls self.new n) }
        ensures passes { OnOk result ((n : ℕ) → n < kind.count
            → Passes DbCall.Finalize (calls self.old n) (calls self.new n)) }
        ensures fails { (n : ℕ) (k : DbCall)
            → IsErrOf result (SetError.DatabaseFault n k)
            → kind.count < 2 ^ 64
            → Fails k (calls self.old n) };

    /// Starts persisting all checkpoints, and makes a barrier of the tokens, which are all open.
    final fn finalize(&mut self, alloc: Global) -> Result<Barrier, SetError>
        requires { kind.HasRoom (members self.old) }
        ensures ok { OnOk result (members self.new ≡ kind.finalized (members self.old)) }
        ensures tokens { IfOk result (λ barrier. barrier
            ≡ map (λ place. unanswered (record { place = place })) (each_below
            (kind.place (members self.old)) kind.count)) }
        ensures count { IfOk result (λ barrier. length barrier ≡ kind.count) }
        ensures handles { IfOk result (λ barrier. (i : ℕ) → i < kind.count
            → open_at barrier i ≡ Some (record { place = kind.place (members self.old) i })) }
        ensures lost { IsErrOf result SetError.Lost → ⊥ }
        ensures exhausted { IsErrOf result SetError.Exhausted → ⊥ }
        ensures none_away { kind.NoneAway (members self.old) → kind.NoneAway (members self.new) }
        ensures next { next self.new ≡ next self.old }
        ensures fault { (n : ℕ) (k : DbCall)
            → IsErrOf result (SetError.DatabaseFault n k)
            → kind.count < 2 ^ 64
            → (k ≡ DbCall.Finalize)
            × (n < kind.count)
            × Rose (counted self.old n) (counted self.new n)
            × kind.Lost (members self.new) n
            × kind.LostFinalizing (members self.old) n (members self.new) }
        ensures memory { IsErrOf result SetError.OutOfMemory
            → (members self.new ≡ kind.finalized (members self.old))
            ⊎ ((n : ℕ)
            × (n < kind.count)
            × kind.LostFinalizing (members self.old) n (members self.new)) }
        ensures err { OnErr result ((i : ℕ) (s : Self.States)
            → kind.HasState (members self.old) i s
            → kind.HasState (members self.new) i s) }
        ensures later { (n : ℕ) → counted self.old n ≤ counted self.new n }
        ensures called { (n : ℕ) → Goes DbCall.Finalize (calls self.old n) (calls self.new n) }
        ensures passes { OnOk result ((n : ℕ) → n < kind.count
            → Passes DbCall.Finalize (calls self.old n) (calls self.new n)) }
        ensures fails { (n : ℕ) (k : DbCall)
            → IsErrOf result (SetError.DatabaseFault n k)
            → kind.count < 2 ^ 64
            → Fails k (calls self.old n) }
    {
        let mut tokens = Items::new(alloc);
        self.persist(&mut tokens)?;
        match Barrier::from_handles(tokens.into_vec()) {
            Ok(barrier) => Ok(barrier),
            Err(OutOfMemory) => Err(SetError::OutOfMemory),
        }
    }

    /// The checkpoints that the token covers are durable at the database of this number, at which
    /// it has to be out.
    fn flush(&mut self, index: usize, token: FlushToken) -> Result<(), SetError>
        requires within { index < kind.count }
        requires out { Contains (kind.tokens (members self.old) index) token.place }
        ensures ok { OnOk result (members self.new
            ≡ kind.flushed (members self.old) index token.place) }
        ensures lost { IsErrOf result SetError.Lost → ⊥ }
        ensures exhausted { IsErrOf result SetError.Exhausted → ⊥ }
        ensures none_away { kind.NoneAway (members self.old) → kind.NoneAway (members self.new) }
        ensures next { next self.new ≡ next self.old }
        ensures fault { (n : ℕ) (k : DbCall) → IsErrOf result (SetError.DatabaseFault n k)
            → (k ≡ DbCall.Flush) × (n ≡ index) × Rose (counted self.old n) (counted self.new n)
            × kind.Lost (members self.new) n
            × kind.LostFlushing (members self.old) n token.place (members self.new) }
        ensures memory { IsErrOf result SetError.OutOfMemory
            → kind.LostFlushing (members self.old) index token.place (members self.new) }
        ensures err { OnErr result ((i : ℕ) (s : Self.States)
            → kind.HasState (members self.old) i s
            → kind.HasState (members self.new) i s) }
        ensures later { (n : ℕ) → counted self.old n ≤ counted self.new n }
        ensures called { (n : ℕ) → Goes DbCall.Flush (calls self.old n) (calls self.new n) }
        ensures passes { OnOk result (
            Passes DbCall.Flush (calls self.old index) (calls self.new index)) }
        ensures fails { (n : ℕ) (k : DbCall)
            → IsErrOf result (SetError.DatabaseFault n k)
            → Fails k (calls self.old n) };

    /// Drops the checkpoints that are older than those of the targets, which every database has to
    /// keep durably. No token may be out.
    fn prune(&mut self, targets: &Self::SyncTargets) -> Result<(), SetError>
        requires { kind.Prunable (members self.old) targets.now }
        ensures ok { OnOk result (members self.new ≡ kind.pruned (members self.old) targets.now) }
        ensures lost { IsErrOf result SetError.Lost → ⊥ }
        ensures exhausted { IsErrOf result SetError.Exhausted → ⊥ }
        ensures none_away { kind.NoneAway (members self.old) → kind.NoneAway (members self.new) }
        ensures next { next self.new ≡ next self.old }
        ensures fault { (n : ℕ) (k : DbCall) → IsErrOf result (SetError.DatabaseFault n k)
            → kind.count < 2 ^ 64
            → (k ≡ DbCall.Prune) × (n < kind.count) × Rose (counted self.old n) (counted self.new n)
            × kind.Lost (members self.new) n
            × kind.LostPruning (members self.old) targets.now n (members self.new) }
        ensures memory { IsErrOf result SetError.OutOfMemory
            → (n : ℕ)
            × (n < kind.count)
            × kind.LostPruning (members self.old) targets.now n (members self.new) }
        ensures err { OnErr result ((i : ℕ) (s : Self.States)
            → kind.HasState (members self.old) i s
            → kind.HasState (members self.new) i s) }
        ensures later { (n : ℕ) → counted self.old n ≤ counted self.new n }
        ensures called { (n : ℕ) → Goes DbCall.Prune (calls self.old n) (calls self.new n) }
        ensures passes { OnOk result ((n : ℕ) → n < kind.count
            → Passes DbCall.Prune (calls self.old n) (calls self.new n)) }
        ensures fails { (n : ℕ) (k : DbCall)
            → IsErrOf result (SetError.DatabaseFault n k)
            → kind.count < 2 ^ 64
            → Fails k (calls self.old n) };

    /// The targets of the latest checkpoints. Refused exactly where a database isn't here.
    fn committed_targets(&self) -> Result<Self::SyncTargets, SetLost>
        ensures ok { IfOk result (λ t. (p : Self.Ids × Self.States)
            → kind.point (members self.now) ≡ Some p
            → t ≡ kind.target_of p.1) }
        ensures lost { OnErr result (kind.point (members self.now) ≡ None) }
        ensures here { OnOk result (IsNone (kind.point (members self.now)) → ⊥) };

    /// What a crash leaves: all closed. `keep` has a number for each database, and where it has
    /// none that database keeps all its checkpoints. No database may be away.
    fn crash(self, keep: &[usize]) -> Self
        requires { kind.NoneAway (members self) }
        ensures openable { kind.Openable (members result) }
        ensures crashed { kind.Crashed (members self) keep.now (members result) }
        ensures next { next result ≡ next self }
        ensures counts { (n : ℕ) → counted result n ≡ counted self n }
        ensures calls { (n : ℕ) → calls result n ≡ calls self n };

    /// The set. Each member is left away.
    fn take(&mut self) -> Self
        ensures taken { members result ≡ members self.old }
        ensures left { kind.AllAway (members self.new) }
        ensures next { next result ≡ next self.old }
        ensures counts { (n : ℕ) → counted result n ≡ counted self.old n }
        ensures calls { (n : ℕ) → calls result n ≡ calls self.old n };

    ghost laws: { Laws kind };

    /// Each database's checkpoints are in order.
    ghost sound: { (s : Self) → kind.Sound (members s) };

    /// How often a database has failed is the count of its failed calls.
    ghost counts: { (s : Self) (n : ℕ) → Counts (calls s n) (counted s n) };
}
