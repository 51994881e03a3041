//! Syncs of one database.

ghost use Rattle.std.specs.Prelude.{◌≡◌, IfOk, IfErr};
ghost use Rattle.stateful_db.specs.Member.{IsClosed};
ghost use Rattle.stateful_pass_sets.specs.Steps.{numbered};

use crate::sync_set::StateSyncSet;
use stateful_base::Target;
use stateful_db::{DatabaseSet, Held, ManagedDb, Targeted};
use stateful_db_source::SyncSource;
use stateful_passes::{StateSyncDb, SyncEngineConfig, SyncFault, SyncSetFault};

impl<D: StateSyncDb<R>, R: SyncSource> StateSyncSet<R> for Held<D> {
    ghost use Rattle.std.specs.Prelude.{◌≡◌};
    ghost use Rattle.stateful_db.specs.declared.held.Held.TheVariants.{Closed};
    ghost use Rattle.stateful_db_pass.specs.Fetched.{Leads};
    ghost use Rattle.stateful_passes.specs.Asks.{Asks, MediumFails, SyncCall};
    ghost use Rattle.stateful_pass_sets.specs.Seeking.{seeking};

    ghost at_rest = { λ p. Closed (D.medium_of p) };

    ghost syncs = { λ p i. seeking (D.fetched p) };

    ghost fetches = { λ sync i. D.fetches sync };

    ghost IsValid = { λ targets i. D.IsValid targets };

    ghost made = { λ p. D.made (D.fetched p) };

    ghost leads = { λ p i. Leads D.linked (D.fetched p) };

    ghost asks = { λ i p source result q next.
        SyncCall (D.calls_of (D.medium_of p)) (D.calls_of (D.medium_of q))
        (MediumFails (D.Medium.count (D.medium_of p)) (D.Medium.count (D.medium_of q))
        (D.fetched p) source result (D.fetched q) next)
        (Asks R.serves D.linked D.alone (D.fetched p) source result (D.fetched q) next) };

    ghost sourced = { λ source i. R.count source };

    ghost given_back = { λ p i set. set ≡ Closed (D.medium_of p) };

    fn start(
        self,
        config: &D::Config,
        targets: D::SyncTarget,
        sync: SyncEngineConfig,
    ) -> Result<D::Pass, (Held<D>, SyncSetFault)> {
        let medium = match medium_of(self) {
            Ok(medium) => medium,
            Err(set) => {
                return Err((
                    set,
                    SyncSetFault {
                        index: 0,
                        why: SyncFault::InvalidTarget,
                    },
                ));
            }
        };
        match D::start(medium, config, targets, sync) {
            Ok(pass) => Ok(pass),
            Err((medium, why)) => Err((Held::Closed(medium), SyncSetFault { index: 0, why })),
        }
    }

    fn tip(passes: &mut D::Pass, _index: usize, targets: &D::SyncTarget) -> bool {
        D::tip(passes, *targets)
    }

    fn progress(
        passes: &mut D::Pass,
        _index: usize,
        sources: &mut R,
    ) -> Result<Option<Target>, SyncSetFault> {
        numbered(D::progress(passes, sources))
    }

    fn finish(passes: D::Pass) -> Result<Held<D>, (Held<D>, SyncSetFault)> {
        match D::finish(passes) {
            Ok(database) => Ok(Held::Here(database)),
            Err((medium, why)) => Err((Held::Closed(medium), SyncSetFault { index: 0, why })),
        }
    }

    fn abandon(passes: D::Pass) -> Held<D> {
        Held::Closed(D::abandon(passes))
    }
}

/// The medium of a database that is closed. Any other is handed back.
pub(crate) fn medium_of<D: ManagedDb>(held: Held<D>) -> Result<D::Medium, Held<D>>
    ensures ok { IfOk result (λ medium. held ≡ Held.Closed medium) }
    ensures err { IfErr result (λ other. (other ≡ held)
        × (IsClosed (⟦<Held<D> as DatabaseSet>⟧.members held) → ⊥)) }
{
    match held {
        Held::Closed(medium) => Ok(medium),
        other => Err(other),
    }
}

/// What a set of one database answers where the database answers this.
fn numbered<T: Copy + Targeted>(
    answer: Result<Option<T>, SyncFault>,
) -> Result<Option<Target>, SyncSetFault>
    ensures { result ≡ numbered T.targeted answer }
{
    match answer {
        Ok(Some(target)) => Ok(Some(target.target())),
        Ok(None) => Ok(None),
        Err(why) => Err(SyncSetFault { index: 0, why }),
    }
}
