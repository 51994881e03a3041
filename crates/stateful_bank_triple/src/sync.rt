//! Syncs of the two logs of amounts, which are those of their pair.

use crate::logs::AmountLogs;
use stateful_base::{CompactTarget, Target};
use stateful_db::{DatabaseSet, Held};
use stateful_db_keyless::{CompactDb, KeylessDb, KeylessOp};
use stateful_db_source::SyncSource;
use stateful_pass_sets::StateSyncSet;
use stateful_passes::{SyncEngineConfig, SyncSetFault};

/// The logs: of all amounts, and of the latest commit of the same amounts.
type Both = (Held<KeylessDb<u64>>, Held<CompactDb<u64>>);

/// What a block commits to of them.
type Targets = (Target, CompactTarget);

/// A sync of each.
type Passes = <AmountLogs as DatabaseSet>::Passes;

impl<R, S> StateSyncSet<(R, S)> for AmountLogs
where
    R: SyncSource<Op = KeylessOp<u64>>,
    S: SyncSource<Op = KeylessOp<u64>>,
{
    ghost at_rest = { λ p. record { both = ⟦<Both as StateSyncSet<(R, S)>>⟧.at_rest p } };

    ghost syncs = { ⟦<Both as StateSyncSet<(R, S)>>⟧.syncs };

    ghost fetches = { ⟦<Both as StateSyncSet<(R, S)>>⟧.fetches };

    ghost IsValid = { ⟦<Both as StateSyncSet<(R, S)>>⟧.IsValid };

    ghost made = { ⟦<Both as StateSyncSet<(R, S)>>⟧.made };

    ghost leads = { ⟦<Both as StateSyncSet<(R, S)>>⟧.leads };

    ghost asks = { ⟦<Both as StateSyncSet<(R, S)>>⟧.asks };

    ghost sourced = { ⟦<Both as StateSyncSet<(R, S)>>⟧.sourced };

    ghost given_back = { λ p i set. ⟦<Both as StateSyncSet<(R, S)>>⟧.given_back p i set.both };

    fn start(
        self,
        config: &((), ()),
        targets: Targets,
        sync: SyncEngineConfig,
    ) -> Result<Passes, (AmountLogs, SyncSetFault)> {
        let AmountLogs { both } = self;
        match <Both as StateSyncSet<(R, S)>>::start(both, config, targets, sync) {
            Ok(passes) => Ok(passes),
            Err((both, refused)) => Err((AmountLogs { both }, refused)),
        }
    }

    fn tip(passes: &mut Passes, index: usize, targets: &Targets) -> bool {
        <Both as StateSyncSet<(R, S)>>::tip(passes, index, targets)
    }

    fn progress(
        passes: &mut Passes,
        index: usize,
        sources: &mut (R, S),
    ) -> Result<Option<Target>, SyncSetFault> {
        <Both as StateSyncSet<(R, S)>>::progress(passes, index, sources)
    }

    fn finish(passes: Passes) -> Result<AmountLogs, (AmountLogs, SyncSetFault)> {
        match <Both as StateSyncSet<(R, S)>>::finish(passes) {
            Ok(both) => Ok(AmountLogs { both }),
            Err((both, refused)) => Err((AmountLogs { both }, refused)),
        }
    }

    fn abandon(passes: Passes) -> AmountLogs {
        AmountLogs {
            both: <Both as StateSyncSet<(R, S)>>::abandon(passes),
        }
    }
}
