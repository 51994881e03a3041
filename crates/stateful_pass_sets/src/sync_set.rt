//! Sets of databases that can be synced, each from its own source.

use stateful_base::Target;
use stateful_db::DatabaseSet;
use stateful_passes::{SyncEngineConfig, SyncSetFault};

/// A set of databases that can be synced, each from its own source: one of `R` for each.
///
/// What a call says of a database's number holds of sets of fewer than 2^64 databases: there each
/// has one.
pub trait StateSyncSet<R>: DatabaseSet {
    ghost use Rattle.std.specs.Prelude.{◌≡◌, ℕ, ◌<◌, ◌^◌, ◌↔◌, true, false, IfOk, IfErr, OnOk};
    ghost use Rattle.std.specs.Prelude.{MatchResult, IsTrue, if◌then◌else◌, Option, Result};
    ghost use Rattle.stateful_base.specs.declared.target.Target.{Target};
    ghost use Rattle.stateful_db_pass.specs.declared.fault.SyncFault.{SyncFault};
    ghost use Rattle.stateful_db_pass.specs.declared.pass.Fetches.{Fetches};
    ghost use Rattle.stateful_db_pass.specs.Progress.{IsAhead};
    ghost use Rattle.stateful_passes.specs.declared.config.SyncEngineConfig.{SyncEngineConfig};
    ghost use Rattle.stateful_passes.specs.Asks.{told};
    ghost use Rattle.stateful_pass_sets.specs.Seeking.{Seeking, seek, is_reached};
    ghost use Rattle.stateful_pass_sets.specs.Counts.{CountsStay, StaysAtRest};
    ghost use Rattle.stateful_pass_sets.specs.Made.{IsMade, IsGivenBack};
    ghost use Rattle.stateful_pass_sets.specs.Steps.{Moves, CallsSync, IsFault, IsAsBefore};
    ghost use Rattle.stateful_pass_sets.specs.Steps.{unnumbered};

    /// The set as `abandon` gives it: closed, on the media that the passes have.
    ghost at_rest: { Self.Passes → Self };

    /// The sync of the database of this number.
    ghost syncs: { Self.Passes → ℕ → Seeking };

    /// What is fetched toward each target of the database of this number.
    ghost fetches: { SyncEngineConfig → ℕ → Fetches };

    /// A state of the database of this number may have its part of these targets.
    ghost IsValid: { Self.SyncTargets → ℕ → Type 0 };

    /// The states that what was fetched makes.
    ghost made: { Self.Passes → Self.States };

    /// What was fetched for the database of this number leads to its target's root.
    ghost leads: { Self.Passes → ℕ → Type 0 };

    /// What a call for the database of this number answers, and what it makes of the passes and the
    /// sources: the other databases and sources are as before.
    ghost asks: { ℕ → Self.Passes → R → Result (Option Target) SyncFault → Self.Passes → R → Type 0 };

    /// How often the source of the database of this number has failed.
    ghost sourced: { R → ℕ → ℕ };

    /// What is handed back where the database of this number isn't made: those before are closed,
    /// each at its target alone, and it and those behind are as before.
    ghost given_back: { Self.Passes → ℕ → Self → Type 0 };

    /// Starts a sync of each database, of which nothing is fetched. It is refused where no state of
    /// a database has its target, and the set is handed back as it was.
    fn start(
        self,
        config: &Self::Config,
        targets: Self::SyncTargets,
        sync: SyncEngineConfig,
    ) -> Result<Self::Passes, (Self, SyncSetFault)>
        requires { Self.kind.Closed (Self.members self) }
        ensures at_rest { IfOk result (λ p. at_rest p ≡ self) }
        ensures syncs { IfOk result (λ p. (i : ℕ) → i < Self.kind.count
            → syncs p i ≡ seek (Self.kind.target_at targets i) (fetches sync i)) }
        ensures valid { OnOk result ((i : ℕ) → i < Self.kind.count → IsValid targets i) }
        ensures err { IfErr result (λ e. e.0 ≡ self) }
        ensures index { IfErr result (λ e. e.1.index < Self.kind.count) }
        ensures invalid { IfErr result (λ e. (e.1.why ≡ SyncFault.InvalidTarget)
            × (Self.kind.count < 2 ^ 64 → IsValid targets e.1.index → ⊥)) };

    /// Adopts for the database of this number a target that a state may have and that lies ahead of
    /// the current one, and begins its sync anew. Any other is ignored.
    fn tip(passes: &mut Self::Passes, index: usize, targets: &Self::SyncTargets) -> bool
        requires { index < Self.kind.count }
        ensures adopted { IsTrue result
            ↔ (IsValid targets.now index
            × IsAhead (syncs passes.old index).target (Self.kind.target_at targets.now index)) }
        ensures syncs { syncs passes.new index
            ≡ (if result
            then seek (Self.kind.target_at targets.now index) (syncs passes.old index).fetches
            else syncs passes.old index) }
        ensures others { (i : ℕ) → i < Self.kind.count → (i ≡ index → ⊥)
            → syncs passes.new i ≡ syncs passes.old i }
        ensures at_rest { at_rest passes.new ≡ at_rest passes.old };

    /// Makes one call on the database of this number, which fails where it is listed. Else makes
    /// one request for it, and takes what its source answers. The target is answered where it is
    /// reached.
    fn progress(
        passes: &mut Self::Passes,
        index: usize,
        sources: &mut R,
    ) -> Result<Option<Target>, SyncSetFault>
        requires within { index < Self.kind.count }
        requires lacks { is_reached (syncs passes.old index) ≡ false }
        ensures asks { asks index passes.old sources.old
            (told (syncs passes.old index).target (unnumbered result)) passes.new sources.new }
        ensures moves { Moves (λ targets. Self.kind.target_at targets index)
            (syncs passes.old index) result (syncs passes.new index) }
        ensures calls { CallsSync (Self.calls (at_rest passes.old) index)
            (Self.calls (at_rest passes.new) index) result }
        ensures err { IfErr result (λ e.
            IsFault index (sourced sources.old index) (sourced sources.new index)
            (Self.counted (at_rest passes.old) index) (Self.counted (at_rest passes.new) index) e) }
        ensures others { let before = at_rest passes.old in let after = at_rest passes.new in
            (i : ℕ) → i < Self.kind.count → (i ≡ index → ⊥)
            → IsAsBefore i (syncs passes.old) (syncs passes.new)
            (Self.counted before) (Self.counted after) (Self.calls before) (Self.calls after)
            (sourced sources.old) (sourced sources.new) }
        ensures at_rest { let before = at_rest passes.old in let after = at_rest passes.new in
            StaysAtRest (Self.members before) (Self.next before) (Self.counted before)
            (sourced sources.old) (Self.members after) (Self.next after) (Self.counted after)
            (sourced sources.new) };

    /// The set of what was fetched. Each database has that alone, and durably.
    fn finish(passes: Self::Passes) -> Result<Self, (Self, SyncSetFault)>
        requires { (i : ℕ) → i < Self.kind.count → is_reached (syncs passes i) ≡ true }
        ensures ok { IfOk result (λ set.
            IsMade Self.kind (made passes) (syncs passes) (Self.next set) (Self.members set)) }
        ensures leads { OnOk result ((i : ℕ) → i < Self.kind.count → leads passes i) }
        ensures counts { let before = at_rest passes in let Stay = (λ (after : Self).
            CountsStay (Self.next before) (Self.counted before) (Self.calls before)
            (Self.next after) (Self.counted after) (Self.calls after)) in
            MatchResult result Stay (λ e. Stay e.0) }
        ensures err { IfErr result (λ e.
            IsGivenBack Self.kind (Self.members e.0) (λ i. given_back passes i e.0) e.1) };

    /// The set as it was, closed.
    fn abandon(passes: Self::Passes) -> Self
        ensures at_rest { result ≡ at_rest passes }
        ensures closed { Self.kind.Closed (Self.members result) };
}
