//! The plan: what a node remembers of its sync, over a store of one value.
//!
//! A node loads its plan at each start. The first one has no state. A floor may be set, and later
//! ones in its place, as long as no sync is done. A completion ends that: from then on floors are
//! ignored, and only a completion that isn't lower may follow. So the node never syncs again.
//!
//! Each change is written to `store` first, and `state` takes it only after that. Where the store
//! fails or memory runs out, both are as before, and the call may be made again. What a later
//! `init` loads is what was accepted last.
//!
//! `specs/Plan.antt` says what each call does, and `NeverFallsBack` of `specs/Laws.antt` what holds
//! over all of them. The rules stand in docs/RULES.md, "The plan of a sync".

ghost use Rattle.std.specs.Prelude.{◌≡◌, ◌↔◌, ◌≤◌, ◌⊎◌, ℕ, Option, None, IsErrOf, IsSome, IsTrue};
ghost use Rattle.std.specs.Prelude.{IsFalse, IfOk, IfErr, IfSome, OnOk, OnErr};
ghost use Rattle.std.specs.Option.{option_copied};
ghost use Rattle.stateful_base.specs.Causes.{Rose};
ghost use Rattle.stateful_base.specs.declared.digest.Digest.{Digest};
ghost use Rattle.stateful_base.specs.declared.number.Height.{Height};
ghost use Rattle.stateful_base.specs.Format.{UnlessMemory};
ghost use Rattle.stateful_sync_plan.specs.State.{state_format};
ghost use Rattle.stateful_sync_plan.specs.Worth.{IsWhole};
ghost use Rattle.stateful_sync_plan.specs.Plan.{floor_of, completion_of, digest_of, IsNew, IsIgnored};
ghost use Rattle.stateful_sync_plan.specs.Plan.{TakesFloor, MayComplete, Completes, IsBackward};
ghost use Rattle.stateful_sync_plan.specs.Plan.{IsConflict, IsKept, IsLoaded, IsOfBytes, IsOfCompletion};
ghost use Rattle.stateful_sync_plan.specs.Laws.{Call, NeverFallsBack};
ghost use Rattle.stateful_sync_plan.specs.Start.{Starts};
ghost use Rattle.stateful_sync_plan.specs.declared.state.SyncState.{SyncState};

use crate::error::PlanError;
use crate::state::SyncState;
use crate::store::PlanStore;
use bytes::Bytes;
use stateful_types::{CodecError, Digest, Finalization, Height, Scheme, end_of};
use std::alloc::Global;
use std::marker::Model;

/// Where marshal starts: at the floor of a sync, or at genesis.
#[derive(Drop)]
pub enum Start<'a, S: Scheme, B> {
    Floor(&'a Finalization<S::Certificate>),
    Genesis(B),
}

/// What a node remembers of its sync. To a contract it is a store, and what was accepted last.
#[derive(Drop)]
pub struct SyncPlan<P: PlanStore, S: Scheme> {
    alloc: Global,
    store: P,
    state: Option<SyncState<S>>,
}

impl<P: PlanStore, S: Scheme> Model for SyncPlan<P, S> {
    ghost use Rattle.stateful_sync_plan.specs.Plan.{Planned, IsKept};

    ghost Value = { Planned P S S.Key S.Certificate };

    ghost view = { λ a. record { store = a.store; state = a.state } };

    ghost invariant = { λ a. IsKept S.certificates (P.stored a.store) a.state };
}

impl<P: PlanStore + Drop, S: Scheme> SyncPlan<P, S> {
    /// Loads the plan. The store holds the value of one partition, so the prefix of its name tells
    /// it nothing more.
    pub fn init(
        alloc: Global,
        mut store: P,
        _partition_prefix: &str,
    ) -> Result<SyncPlan<P, S>, PlanError>
        // The answer is what the stored bytes are worth, unless the store failed or memory ran out.
        ensures loaded { IfSome (P.stored store) (λ value. IsLoaded S.certificates value result) }
        ensures cause { IsErrOf result PlanError.PlanStore
            → (failed : P)
            × (P.stored failed ≡ P.stored store)
            × Rose (P.count store) (P.count failed) }
        ensures kept { IfOk result (λ plan. IsKept S.certificates (P.stored plan.store) plan.state) }
        ensures same { IfOk result (λ plan. P.stored plan.store ≡ P.stored store) }
        ensures later { IfOk result (λ plan. P.count store ≤ P.count plan.store) }

        // Where the store was that of a plan, this one has what that plan accepted last.
        ensures again { IfOk result (λ plan. IfSome (P.stored store) (λ _.
            (earlier : Option (SyncState S S.Key S.Certificate))
            → IsKept S.certificates (P.stored store) earlier
            → plan.state ≡ earlier)) }

        // Whatever calls follow.
        ensures law { IfOk result (λ plan. NeverFallsBack plan.state) }
    {
        let loaded = store.load()?;
        let state = match loaded {
            Some(bytes) => Some(read_whole::<S>(alloc, bytes)?),
            None => None,
        };
        Ok(SyncPlan {
            alloc,
            store,
            state,
        })
    }

    /// Whether the node may sync: exactly where no completion is recorded.
    pub fn may_sync(&self) -> bool
        ensures { IsTrue result ↔ (completion_of self.now.state ≡ None) }
    {
        self.completed().is_none()
    }

    /// The height of the recorded completion, if there is one.
    pub fn completed(&self) -> Option<Height>
        ensures { result ≡ completion_of self.now.state }
    {
        match &self.state {
            Some(SyncState::Complete { height, digest: _ }) => Some(*height),
            _ => None,
        }
    }

    /// The digest that was recorded with it, if one was.
    pub fn completed_digest(&self) -> Option<Digest>
        ensures { result ≡ digest_of self.now.state }
    {
        match &self.state {
            Some(SyncState::Complete { height: _, digest }) => *digest,
            _ => None,
        }
    }

    /// The floor of a sync that isn't done, if there is one.
    pub fn floor(&self) -> Option<&Finalization<S::Certificate>>
        ensures { option_copied result ≡ floor_of self.now.state }
    {
        match &self.state {
            Some(SyncState::InProgress(floor)) => Some(floor),
            _ => None,
        }
    }

    /// Whether this start of the node syncs: it may, and it is asked to or has a floor.
    pub fn should_sync(&self, requested: bool) -> bool
        ensures { IsTrue result
            ↔ ((completion_of self.now.state ≡ None)
            × (IsTrue requested ⊎ IsSome (floor_of self.now.state))) }
    {
        self.may_sync() && (requested || self.floor().is_some())
    }

    /// Where marshal starts: at the floor, if there is one, and else at genesis.
    pub fn marshal_start<B: Drop>(&self, genesis: B) -> Start<'_, S, B>
        ensures { Starts (floor_of self.now.state) genesis result }
    {
        match self.floor() {
            Some(floor) => Start::Floor(floor),
            None => Start::Genesis(genesis),
        }
    }

    /// Takes a floor, which makes every start of the node a sync until one is done. It is ignored
    /// where a completion is recorded, or where its round isn't later than that of the floor that
    /// is there.
    pub fn set_floor(&mut self, finalization: Finalization<S::Certificate>) -> Result<(), PlanError>
        ensures ok { OnOk result (TakesFloor self.old.state finalization self.new.state) }
        ensures ignored { IsIgnored self.old.state finalization
            → (result ≡ Ok tt) × (self.new ≡ self.old) }

        // It is refused where the store fails or memory runs out, and then nothing has changed.
        ensures cause { IsErrOf result PlanError.PlanStore
            → Rose (P.count self.old.store) (P.count self.new.store) }
        ensures only { IfErr result (λ e. (IsOfBytes e → ⊥) × (IsOfCompletion e → ⊥)) }
        ensures err { OnErr result ((self.new.state ≡ self.old.state)
            × (P.stored self.new.store ≡ P.stored self.old.store)) }

        ensures kept { IsKept S.certificates (P.stored self.new.store) self.new.state }
        ensures call { Call self.old.state self.new.state }
        ensures later { P.count self.old.store ≤ P.count self.new.store }
    {
        if self.ignores(&finalization) {
            return Ok(());
        }
        self.accept(SyncState::InProgress(finalization))
    }

    /// Records a completion with the block at which it was done. Its height isn't below the
    /// recorded one, and at that height the block is the recorded one.
    pub fn set_completed(&mut self, height: Height, digest: Digest) -> Result<(), PlanError>
        ensures ok { OnOk result (Completes self.old.state height digest self.new.state) }

        // Each refusal has its cause; want of memory has none.
        ensures backward { (recorded given : Height)
            → IsErrOf result (PlanError.CompletedBackward recorded given)
            ↔ (IsBackward self.old.state recorded height × (given ≡ height)) }
        ensures conflict { (at : Height) (recorded given : Digest)
            → IsErrOf result (PlanError.CompletedConflict at recorded given)
            ↔ (IsConflict self.old.state height recorded digest
            × (at ≡ height)
            × (given ≡ digest)) }
        ensures cause { IsErrOf result PlanError.PlanStore
            → Rose (P.count self.old.store) (P.count self.new.store) }
        ensures only { IfErr result (λ e. IsOfBytes e → ⊥) }

        ensures err { OnErr result ((self.new.state ≡ self.old.state)
            × (P.stored self.new.store ≡ P.stored self.old.store)) }
        ensures kept { IsKept S.certificates (P.stored self.new.store) self.new.state }
        ensures call { Call self.old.state self.new.state }
        ensures later { P.count self.old.store ≤ P.count self.new.store }
    {
        self.check_completion(height, digest)?;
        self.accept(SyncState::Complete {
            height,
            digest: Some(digest),
        })
    }

    /// The store, which holds what was accepted last.
    pub fn into_store(self) -> P
        ensures store { result ≡ self.store }
        ensures kept { IsKept S.certificates (P.stored result) self.state }
    {
        let SyncPlan {
            alloc: _,
            store,
            state: _state,
        } = self;
        store
    }

    /// Whether a floor changes nothing.
    fn ignores(&self, finalization: &Finalization<S::Certificate>) -> bool
        ensures ignored { IsTrue result ↔ IsIgnored self.now.state finalization.now }
        ensures new { IsFalse result → IsNew self.now.state finalization.now }
        ensures kept { IsKept S.certificates (P.stored self.now.store) self.now.state }
    {
        let Some(state) = &self.state else {
            return false;
        };
        match state {
            SyncState::InProgress(floor) => !finalization.round.is_later_than(floor.round),
            SyncState::Complete {
                height: _,
                digest: _,
            } => true,
        }
    }

    /// Whether a completion may be recorded.
    fn check_completion(&self, height: Height, digest: Digest) -> Result<(), PlanError>
        ensures backward { (recorded given : Height)
            → IsErrOf result (PlanError.CompletedBackward recorded given)
            ↔ (IsBackward self.now.state recorded height × (given ≡ height)) }
        ensures conflict { (at : Height) (recorded given : Digest)
            → IsErrOf result (PlanError.CompletedConflict at recorded given)
            ↔ (IsConflict self.now.state height recorded digest
            × (at ≡ height)
            × (given ≡ digest)) }
        ensures ok { OnOk result (MayComplete self.now.state height digest) }
        ensures only { IfErr result IsOfCompletion }
        ensures kept { IsKept S.certificates (P.stored self.now.store) self.now.state }
    {
        let Some(
            SyncState::Complete {
                height: recorded,
                digest: known,
            },
        ) = &self.state
        else {
            return Ok(());
        };
        if height.0 < recorded.0 {
            return Err(PlanError::CompletedBackward {
                recorded: *recorded,
                given: height,
            });
        }
        if let Some(known) = known
            && height.0 == recorded.0
            && *known != digest
        {
            return Err(PlanError::CompletedConflict {
                height,
                recorded: *known,
                given: digest,
            });
        }
        Ok(())
    }

    /// Keeps a state in the store, and takes it then.
    fn accept(&mut self, state: SyncState<S>) -> Result<(), PlanError>
        ensures ok { OnOk result (self.new.state ≡ Some state) }
        ensures err { OnErr result ((self.new.state ≡ self.old.state)
            × (P.stored self.new.store ≡ P.stored self.old.store)) }
        ensures kept { IsKept S.certificates (P.stored self.new.store) self.new.state }
        ensures cause { IsErrOf result PlanError.PlanStore
            → Rose (P.count self.old.store) (P.count self.new.store) }
        ensures only { IfErr result (λ e. (IsOfBytes e → ⊥) × (IsOfCompletion e → ⊥)) }
        ensures later { P.count self.old.store ≤ P.count self.new.store }
    {
        let mut bytes = Vec::new(self.alloc);
        state.write(&mut bytes)?;
        let value = Bytes::from_vec(bytes)?;
        self.store.put(value)?;
        self.state = Some(state);
        Ok(())
    }
}

/// Reads bytes that are one state and nothing more.
fn read_whole<S: Scheme>(alloc: Global, bytes: Bytes) -> Result<SyncState<S>, CodecError>
    ensures { UnlessMemory result (IsWhole (state_format S.certificates) bytes result) }
{
    let mut input = bytes;
    let state = SyncState::read(alloc, &mut input)?;
    end_of(&input)?;
    Ok(state)
}
