//! The databases of a bank.

use stateful_bank::Op;
use stateful_db::DatabaseSet;
use stateful_types::{Height, Items, OutOfMemory, Target};
use std::alloc::Global;

/// A batch over a world's databases that may still change.
pub type Drafted<W> = <<W as World>::Databases as DatabaseSet>::Unmerkleized;

/// A sealed batch over a world's databases.
pub type Sealed<W> = <<W as World>::Databases as DatabaseSet>::Merkleized;

/// What a block commits to in a world.
pub type Targets<W> = <<W as World>::Databases as DatabaseSet>::SyncTargets;

/// The databases that a bank has, and how their batches keep accounts.
pub trait World: Sized {
    ghost use Rattle.std.specs.Prelude.{◌≡◌, ℕ, List, ◌∷◌, IfOk, IsSomeAnd, Some};
    ghost use Rattle.stateful_bank_app.specs.Rules.{Rules};
    ghost use Rattle.stateful_bank_app.specs.Draft.{IsAmong};

    type Databases: DatabaseSet + Drop;

    /// What blocks do to the states.
    ghost rules: { Rules Self.Databases.States Self.Databases.SyncTargets };

    /// A batch of these ids changes this, over a chain whose first point is its parent.
    ghost holds: { Self.Databases.Unmerkleized → rules.Changes → Self.Databases.Ids
        → Self.Databases.Ids × Self.Databases.States
        → List (Self.Databases.Ids × Self.Databases.States) → Type 0 };

    /// A batch to which no operation was done.
    fn begin(batch: Drafted<Self>) -> Drafted<Self>
        ensures { (i : Self.Databases.Ids) (p : Self.Databases.Ids × Self.Databases.States)
            (c : List (Self.Databases.Ids × Self.Databases.States))
            → Self.Databases.opened batch ((i, Self.Databases.kind.begun p.1) ∷ p ∷ c)
            → holds result (rules.none p.1) i p c };

    /// What the account has. None where it can't be read, as where the batch is stale.
    fn balance(
        batch: &Drafted<Self>,
        databases: &Self::Databases,
        account: u16,
    ) -> Result<Option<u64>, OutOfMemory>
        ensures { IfOk result (λ had. (changes : rules.Changes) (i : Self.Databases.Ids)
            (p : Self.Databases.Ids × Self.Databases.States)
            (c : List (Self.Databases.Ids × Self.Databases.States))
            → holds batch.now changes i p c
            → IsAmong (Self.Databases.kind.point (Self.Databases.members databases.now)) (p ∷ c)
            → had ≡ Some (rules.balance p.1 changes account)) };

    /// The batch with this balance of the account.
    fn set_balance(
        batch: Drafted<Self>,
        account: u16,
        balance: u64,
    ) -> Result<Drafted<Self>, OutOfMemory>
        ensures { IfOk result (λ after. (changes : rules.Changes) (i : Self.Databases.Ids)
            (p : Self.Databases.Ids × Self.Databases.States)
            (c : List (Self.Databases.Ids × Self.Databases.States))
            → holds batch changes i p c
            → holds after (rules.with_balance changes account balance) i p c) };

    /// The batch of a block of these operations at this height, once all are done. None where it
    /// is stale.
    fn complete(
        batch: Drafted<Self>,
        databases: &Self::Databases,
        ops: &[Op],
        height: Height,
    ) -> Result<Option<Drafted<Self>>, OutOfMemory>
        ensures { IfOk result (λ after. (changes : rules.Changes) (i : Self.Databases.Ids)
            (p : Self.Databases.Ids × Self.Databases.States)
            (c : List (Self.Databases.Ids × Self.Databases.States))
            → holds batch changes i p c
            → IsAmong (Self.Databases.kind.point (Self.Databases.members databases.now)) (p ∷ c)
            → IsSomeAnd after (λ u. Self.Databases.opened u
            ((i, rules.sealed p.1 changes ops.now height.0) ∷ p ∷ c))) };

    /// The targets that applying the batch gives.
    fn batch_targets(batch: &Sealed<Self>) -> Targets<Self>
        ensures { (p : Self.Databases.Ids × Self.Databases.States)
            (c : List (Self.Databases.Ids × Self.Databases.States))
            → Self.Databases.shows batch.now (p ∷ c)
            → result ≡ Self.Databases.kind.target_of p.1 };

    /// The targets one behind the other, as a block has them.
    fn listed(alloc: Global, targets: &Targets<Self>) -> Result<Items<Target>, OutOfMemory>
        ensures { IfOk result (λ list. list ≡ rules.listed targets.now) };

    /// What a block commits to that has these targets.
    fn committed(targets: &[Target]) -> Targets<Self>
        ensures { result ≡ rules.committed targets.now };
}
