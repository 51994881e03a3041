//! Syncs of databases of keys, and what these answer to others that sync.

use crate::asking::ask;
use crate::config::SyncEngineConfig;
use crate::served::Served;
use crate::sync_db::StateSyncDb;
use stateful_base::Target;
use stateful_db::DbCall;
use stateful_db_any::{AnyDb, AnyMedium, AnyOp, AnyPass};
use stateful_db_log::Field;
use stateful_db_pass::{Fetches, LogPass, SyncFault, answer_from};
use stateful_db_source::{ServeFault, SyncSource};
use stateful_types::{Request, Response};

impl<K: Field, V: Field> Served for AnyDb<K, V> {
    ghost use Rattle.stateful_db_log.specs.Linking.{log_link};
    ghost use Rattle.stateful_db_pass.specs.Serving.{IsHeld, Answers};
    ghost use Rattle.stateful_db_any.specs.Ops.{op_bytes};
    ghost use Rattle.stateful_db_any.specs.Stored.{held_here};

    type Op = AnyOp<K, V>;

    ghost answers = { λ d request response.
        Answers (log_link (op_bytes K.fields.spelling V.fields.spelling)) (held_here d) request
        response };

    ghost holds = { λ d request. IsHeld (held_here d) request };

    fn answer(&self, request: &Request) -> Result<Response<AnyOp<K, V>>, ServeFault> {
        answer_from(self.log(), request)
    }
}

impl<K: Field, V: Field, R: SyncSource<Op = AnyOp<K, V>>> StateSyncDb<R> for AnyDb<K, V> {
    ghost use Rattle.std.specs.Prelude.{false, refl};
    ghost use Rattle.stateful_db_log.specs.Linking.{log_link};
    ghost use Rattle.stateful_db_pass.specs.declared.pass.Fetches.TheVariants.{Range};
    ghost use Rattle.stateful_db_any.specs.Ops.{op_bytes};
    ghost use Rattle.stateful_passes.specs.LogMade.{made};

    ghost linked = { log_link (op_bytes K.fields.spelling V.fields.spelling) };

    ghost alone = { λ _. false };

    ghost medium_of = { λ p. p.medium };

    ghost fetched = { λ p. p.pass };

    ghost fetches = { λ sync. Range sync.fetch_batch_size };

    ghost IsValid = { λ _. Unit {0} };

    ghost made = { made };

    /// Is never refused.
    fn start(
        medium: AnyMedium<K, V>,
        _config: &(),
        target: Target,
        sync: SyncEngineConfig,
    ) -> Result<AnyPass<K, V>, (AnyMedium<K, V>, SyncFault)> {
        let alloc = medium.medium.allocator();
        Ok(AnyPass {
            medium,
            pass: LogPass::new(alloc, target, Fetches::Range(sync.fetch_batch_size)),
        })
    }

    fn tip(pass: &mut AnyPass<K, V>, target: Target) -> bool {
        pass.pass.tip(target)
    }

    fn progress(pass: &mut AnyPass<K, V>, source: &mut R) -> Result<Option<Target>, SyncFault> {
        if pass.medium.medium.fails(DbCall::Sync) {
            return Err(SyncFault::Failed);
        }
        ask(&mut pass.pass, source)
    }

    /// The index takes memory. Where that is wanting the medium is given back as it was.
    fn finish(pass: AnyPass<K, V>) -> Result<AnyDb<K, V>, (AnyMedium<K, V>, SyncFault)> {
        prove!(pass.pass.is_reached());
        let AnyPass { medium, pass } = pass;
        let Ok(segment) = pass.finish() else {
            return Err((medium, SyncFault::OutOfMemory));
        };
        match AnyDb::synced(medium, segment) {
            Ok(db) => Ok(db),
            Err(medium) => Err((medium, SyncFault::OutOfMemory)),
        }
    }

    fn abandon(pass: AnyPass<K, V>) -> AnyMedium<K, V> {
        pass.medium
    }

    ghost same_count = { λ p. refl };
}
