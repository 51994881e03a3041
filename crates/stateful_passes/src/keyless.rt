//! Syncs of keyless databases, and what these answer to others that sync.

use crate::asking::ask;
use crate::config::SyncEngineConfig;
use crate::served::Served;
use crate::sync_db::StateSyncDb;
use stateful_base::Target;
use stateful_db::DbCall;
use stateful_db_keyless::{KeylessDb, KeylessMedium, KeylessOp, KeylessPass};
use stateful_db_log::Field;
use stateful_db_pass::{Fetches, LogPass, SyncFault, answer_from};
use stateful_db_source::{ServeFault, SyncSource};
use stateful_types::{Request, Response};

impl<V: Field> Served for KeylessDb<V> {
    ghost use Rattle.stateful_db_log.specs.Linking.{log_link};
    ghost use Rattle.stateful_db_pass.specs.Serving.{IsHeld, Answers};
    ghost use Rattle.stateful_db_compact.specs.Ops.{op_bytes};
    ghost use Rattle.stateful_db_keyless.specs.KeylessStored.{held_here};

    type Op = KeylessOp<V>;

    ghost answers = { λ d request response.
        Answers (log_link (op_bytes V.fields.spelling)) (held_here d) request response };

    ghost holds = { λ d request. IsHeld (held_here d) request };

    fn answer(&self, request: &Request) -> Result<Response<KeylessOp<V>>, ServeFault> {
        answer_from(self.log(), request)
    }
}

impl<V: Field, R: SyncSource<Op = KeylessOp<V>>> StateSyncDb<R> for KeylessDb<V> {
    ghost use Rattle.std.specs.Prelude.{◌≡◌, true, Some, IfOk, IfErr, OnErr, refl};
    ghost use Rattle.stateful_db_log.specs.Linking.{log_link};
    ghost use Rattle.stateful_db_pass.specs.declared.fault.SyncFault.{SyncFault};
    ghost use Rattle.stateful_db_pass.specs.declared.pass.Fetches.TheVariants.{Range};
    ghost use Rattle.stateful_db_pass.specs.Fetched.{is_reached, Leads};
    ghost use Rattle.stateful_db_compact.specs.Ops.{op_bytes, is_commit};
    ghost use Rattle.stateful_db_keyless.specs.Keyless.{target_of};
    ghost use Rattle.stateful_db_keyless.specs.KeylessStored.{next_of, calls_of};
    ghost use Rattle.stateful_db_keyless.specs.KeylessStored.{standing_of, next_here, calls_here};
    ghost use Rattle.stateful_passes.specs.Synced.{Makes};
    ghost use Rattle.stateful_passes.specs.LogMade.{made};

    ghost linked = { log_link (op_bytes V.fields.spelling) };

    ghost alone = { is_commit };

    ghost medium_of = { λ p. p.medium };

    ghost fetched = { λ p. p.pass };

    ghost fetches = { λ sync. Range sync.fetch_batch_size };

    ghost IsValid = { λ _. Unit {0} };

    ghost made = { made };

    /// Is never refused.
    fn start(
        medium: KeylessMedium<V>,
        _config: &(),
        target: Target,
        sync: SyncEngineConfig,
    ) -> Result<KeylessPass<V>, (KeylessMedium<V>, SyncFault)> {
        let alloc = medium.medium.allocator();
        Ok(KeylessPass {
            medium,
            pass: LogPass::new(alloc, target, Fetches::Range(sync.fetch_batch_size)),
        })
    }

    fn tip(pass: &mut KeylessPass<V>, target: Target) -> bool {
        pass.pass.tip(target)
    }

    fn progress(pass: &mut KeylessPass<V>, source: &mut R) -> Result<Option<Target>, SyncFault> {
        if pass.medium.medium.fails(DbCall::Sync) {
            return Err(SyncFault::Failed);
        }
        ask(&mut pass.pass, source)
    }

    /// Takes no memory, and is never refused.
    fn finish(pass: KeylessPass<V>) -> Result<KeylessDb<V>, (KeylessMedium<V>, SyncFault)>
        requires { is_reached pass.pass ≡ true }
        ensures ok { IfOk result (λ db. let m = pass.medium in let s = made pass.pass in
            Makes s (target_of s) pass.pass.target (standing_of db) (next_of m) (next_here db)
            (calls_of m).faults (calls_here db).faults (Some (calls_of m))
            (Some (calls_here db))) }
        ensures leads { Leads (log_link (op_bytes V.fields.spelling)) pass.pass }
        ensures err { IfErr result (λ e.
            (e.0 ≡ pass.medium) × (e.1 ≡ SyncFault.OutOfMemory)) }
        ensures refused { OnErr result ⊥ }
    {
        prove!(pass.pass.is_reached());
        let KeylessPass { medium, pass } = pass;
        match pass.finish() {
            Ok(segment) => Ok(KeylessDb::synced(medium, segment)),
            Err(_) => Err((medium, SyncFault::OutOfMemory)),
        }
    }

    fn abandon(pass: KeylessPass<V>) -> KeylessMedium<V> {
        pass.medium
    }

    ghost same_count = { λ p. refl };
}
