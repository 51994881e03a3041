//! Syncs of one database before a set of others.
//!
//! Where a later database isn't started, the first is closed again as it was; where a later one
//! isn't made, the first is closed with what its sync has made.

ghost use Rattle.std.specs.Prelude.{◌≡◌, ◌+◌, ◌-◌, ◌^◌, min};

use crate::held::medium_of;
use crate::sync_set::StateSyncSet;
use stateful_base::Target;
use stateful_db::{DatabaseSet, Held, ManagedDb};
use stateful_db_source::SyncSource;
use stateful_passes::{StateSyncDb, SyncEngineConfig, SyncFault, SyncSetFault};

impl<A, RA, S, RS> StateSyncSet<(RA, RS)> for (Held<A>, S)
where
    A: StateSyncDb<RA>,
    RA: SyncSource,
    S: StateSyncSet<RS>,
{
    ghost use Rattle.std.specs.Prelude.{◌≡◌};
    ghost use Rattle.stateful_db.specs.declared.held.Held.TheVariants.{Closed};
    ghost use Rattle.stateful_db.specs.Member.{closed};
    ghost use Rattle.stateful_db.specs.Pair.{by_number};
    ghost use Rattle.stateful_db_pass.specs.Fetched.{Leads};
    ghost use Rattle.stateful_passes.specs.Synced.{only};
    ghost use Rattle.stateful_pass_sets.specs.Seeking.{seeking};

    ghost at_rest = { λ p. (Closed (A.medium_of p.0), S.at_rest p.1) };

    ghost syncs = { λ p. by_number (seeking (A.fetched p.0)) (S.syncs p.1) };

    ghost fetches = { λ sync. by_number (A.fetches sync) (S.fetches sync) };

    ghost IsValid = { λ targets. by_number (A.IsValid targets.0) (S.IsValid targets.1) };

    ghost made = { λ p. (A.made (A.fetched p.0), S.made p.1) };

    ghost leads = { λ p. by_number (Leads A.linked (A.fetched p.0)) (S.leads p.1) };

    ghost asks = { λ i p sources result q next. by_number
        (⟦<Held<A> as StateSyncSet<RA>>⟧.asks 0 p.0 sources.0 result q.0 next.0
        × (q.1 ≡ p.1) × (next.1 ≡ sources.1))
        (λ j. S.asks j p.1 sources.1 result q.1 next.1 × (q.0 ≡ p.0) × (next.0 ≡ sources.0)) i };

    ghost sourced = { λ sources. by_number (RA.count sources.0) (S.sourced sources.1) };

    ghost given_back = { λ p i set. by_number
        (set ≡ (Closed (A.medium_of p.0), S.at_rest p.1))
        (λ j. (⟦<Held<A> as DatabaseSet>⟧.members set.0 ≡ closed (only (A.made (A.fetched p.0))))
        × (A.SyncTarget.targeted (A.target_of (A.made (A.fetched p.0))) ≡ (A.fetched p.0).target)
        × S.given_back p.1 j set.1) i };

    fn start(
        self,
        config: &(A::Config, S::Config),
        targets: (A::SyncTarget, S::SyncTargets),
        sync: SyncEngineConfig,
    ) -> Result<(A::Pass, S::Passes), ((Held<A>, S), SyncSetFault)> {
        let (first, others) = self;
        let medium = match medium_of(first) {
            Ok(medium) => medium,
            Err(first) => {
                return Err((
                    (first, others),
                    SyncSetFault {
                        index: 0,
                        why: SyncFault::InvalidTarget,
                    },
                ));
            }
        };
        let pass = match A::start(medium, &config.0, targets.0, sync) {
            Ok(pass) => pass,
            Err((medium, why)) => {
                return Err((
                    (Held::Closed(medium), others),
                    SyncSetFault { index: 0, why },
                ));
            }
        };
        match S::start(others, &config.1, targets.1, sync) {
            Ok(passes) => Ok((pass, passes)),
            Err((others, refused)) => {
                Err(((Held::Closed(A::abandon(pass)), others), behind(refused)))
            }
        }
    }

    fn tip(
        passes: &mut (A::Pass, S::Passes),
        index: usize,
        targets: &(A::SyncTarget, S::SyncTargets),
    ) -> bool {
        if index == 0 {
            return A::tip(&mut passes.0, targets.0);
        }
        S::tip(&mut passes.1, index - 1, &targets.1)
    }

    fn progress(
        passes: &mut (A::Pass, S::Passes),
        index: usize,
        sources: &mut (RA, RS),
    ) -> Result<Option<Target>, SyncSetFault> {
        if index == 0 {
            return <Held<A> as StateSyncSet<RA>>::progress(&mut passes.0, 0, &mut sources.0);
        }
        match S::progress(&mut passes.1, index - 1, &mut sources.1) {
            Ok(reached) => Ok(reached),
            Err(refused) => Err(behind(refused)),
        }
    }

    fn finish(passes: (A::Pass, S::Passes)) -> Result<(Held<A>, S), ((Held<A>, S), SyncSetFault)> {
        let (pass, others) = passes;
        let first = match A::finish(pass) {
            Ok(database) => database,
            Err((medium, why)) => {
                return Err((
                    (Held::Closed(medium), S::abandon(others)),
                    SyncSetFault { index: 0, why },
                ));
            }
        };
        match S::finish(others) {
            Ok(others) => Ok((Held::Here(first), others)),
            Err((others, refused)) => {
                Err(((Held::Closed(first.close()), others), behind(refused)))
            }
        }
    }

    fn abandon(passes: (A::Pass, S::Passes)) -> (Held<A>, S) {
        let (pass, others) = passes;
        (Held::Closed(A::abandon(pass)), S::abandon(others))
    }
}

/// The fault of a set that stands behind one database.
fn behind(fault: SyncSetFault) -> SyncSetFault
    ensures index { result.index ≡ min (fault.index + 1) (2 ^ 64 - 1) }
    ensures why { result.why ≡ fault.why }
{
    SyncSetFault {
        index: fault.index.saturating_add(1),
        why: fault.why,
    }
}
