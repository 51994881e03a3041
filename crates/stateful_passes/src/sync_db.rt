//! Databases that can be synced from a source.

use crate::config::SyncEngineConfig;
use stateful_db::ManagedDb;
use stateful_db_pass::SyncFault;
use stateful_db_source::SyncSource;

/// A database that can be synced from a source.
///
/// A pass is started on the database's medium, and leads to a target. Each call of `progress` makes
/// one request, until the target is reached. `finish` makes the database of what was fetched, and
/// `abandon` hands back the medium. Until then the medium's checkpoints stay as they are.
pub trait StateSyncDb<R: SyncSource>: ManagedDb {
    ghost use Rattle.std.specs.Prelude.{◌≡◌, ℕ, ◌↔◌, Bool, true, false, IfOk, IfErr, IfSome, OnOk};
    ghost use Rattle.std.specs.Prelude.{IsTrue, if◌then◌else◌};
    ghost use Rattle.stateful_base.specs.declared.digest.Digest.{Digest};
    ghost use Rattle.stateful_db_pass.specs.declared.fault.SyncFault.{SyncFault};
    ghost use Rattle.stateful_db_pass.specs.declared.pass.Fetches.{Fetches};
    ghost use Rattle.stateful_db_pass.specs.Fetched.{Fetched, toward, is_reached, Leads};
    ghost use Rattle.stateful_db_pass.specs.Progress.{IsAhead};
    ghost use Rattle.stateful_passes.specs.declared.config.SyncEngineConfig.{SyncEngineConfig};
    ghost use Rattle.stateful_passes.specs.Asks.{Asks, MediumFails, SyncCall, told, Reaches, Keeps};
    ghost use Rattle.stateful_passes.specs.Asks.{HasCauses};
    ghost use Rattle.stateful_passes.specs.Synced.{Makes};

    /// The digest behind an operation, by its location and the digest before it.
    ghost linked: { ℕ → Digest → R.Op → Digest };

    /// The database can be made from this operation alone.
    ghost alone: { R.Op → Bool };

    /// The medium that a pass has.
    ghost medium_of: { Self.Pass → Self.Medium };

    /// What a pass has fetched, and toward which target.
    ghost fetched: { Self.Pass → Fetched R.Op };

    /// What is fetched toward each target.
    ghost fetches: { SyncEngineConfig → Fetches };

    /// A state may have this target.
    ghost IsValid: { Self.SyncTarget → Type 0 };

    /// The state that fetched operations make.
    ghost made: { Fetched R.Op → Self.State };

    /// Starts a sync that has fetched nothing. It is refused exactly where no state has the target.
    fn start(
        medium: Self::Medium,
        config: &Self::Config,
        target: Self::SyncTarget,
        sync: SyncEngineConfig,
    ) -> Result<Self::Pass, (Self::Medium, SyncFault)>
        ensures medium { IfOk result (λ pass. medium_of pass ≡ medium) }
        ensures fetched { IfOk result (λ pass.
            fetched pass ≡ toward (Self.SyncTarget.targeted target) (fetches sync)) }
        ensures valid { OnOk result (IsValid target) }
        ensures err { IfErr result (λ e. e.0 ≡ medium) }
        ensures invalid { IfErr result (λ e.
            (e.1 ≡ SyncFault.InvalidTarget) × (IsValid target → ⊥)) };

    /// Adopts a target that a state may have and that lies ahead of the current one, and begins
    /// anew. Any other is ignored.
    fn tip(pass: &mut Self::Pass, target: Self::SyncTarget) -> bool
        ensures adopted { IsTrue result
            ↔ (IsValid target
            × IsAhead (fetched pass.old).target (Self.SyncTarget.targeted target)) }
        ensures fetched { fetched pass.new
            ≡ (if result
            then toward (Self.SyncTarget.targeted target) (fetched pass.old).fetches
            else fetched pass.old) }
        ensures medium { medium_of pass.new ≡ medium_of pass.old };

    /// Makes one call on the medium, which fails where it is listed. Else makes one request, and
    /// takes what the source answers. The target is answered where it is reached.
    fn progress(
        pass: &mut Self::Pass,
        source: &mut R,
    ) -> Result<Option<Self::SyncTarget>, SyncFault>
        requires { is_reached (fetched pass.old) ≡ false }
        ensures asks { let m = medium_of pass.old in let n = medium_of pass.new in
            let p = fetched pass.old in let q = fetched pass.new in
            let answer = told p.target result in
            SyncCall (Self.calls_of m) (Self.calls_of n)
            (MediumFails (Self.Medium.count m) (Self.Medium.count n) p source.old answer q
            source.new)
            (Asks R.serves linked alone p source.old answer q source.new) }
        ensures reaches { IfOk result (λ reached. IfSome reached (λ t.
            Reaches linked Self.SyncTarget.targeted (fetched pass.old) (fetched pass.new) t)) }
        ensures keeps { Keeps Self.disk Self.next_of Self.Medium.count (fetched pass.old)
            (fetched pass.new) (medium_of pass.old) (medium_of pass.new) }
        ensures causes { HasCauses (R.count source.old) (R.count source.new)
            (Self.Medium.count (medium_of pass.old)) (Self.Medium.count (medium_of pass.new))
            result };

    /// The database of what was fetched, which is then its only checkpoint, and durable.
    fn finish(pass: Self::Pass) -> Result<Self, (Self::Medium, SyncFault)>
        requires { is_reached (fetched pass) ≡ true }
        ensures ok { IfOk result (λ db.
            let m = medium_of pass in let s = made (fetched pass) in
            Makes s (Self.SyncTarget.targeted (Self.target_of s)) (fetched pass).target
            (Self.standing db) (Self.next_of m) (Self.next db) (Self.Medium.count m) (Self.count db)
            (Self.calls_of m) (Self.calls db)) }
        ensures leads { Leads linked (fetched pass) }
        ensures err { IfErr result (λ e.
            (e.0 ≡ medium_of pass) × (e.1 ≡ SyncFault.OutOfMemory)) };

    /// The medium as it was.
    fn abandon(pass: Self::Pass) -> Self::Medium
        ensures { result ≡ medium_of pass };

    /// A pass counts the faults of its medium.
    ghost same_count: { (p : Self.Pass) → Self.Pass.count p ≡ Self.Medium.count (medium_of p) };
}
