//! Syncs of plain databases, and what they answer to others that sync.

use crate::asking::ask;
use crate::config::SyncEngineConfig;
use crate::served::Served;
use crate::sync_db::StateSyncDb;
use stateful_base::Target;
use stateful_db::DbCall;
use stateful_db_pass::{Fetches, LogPass, SyncFault};
use stateful_db_plain::{Plain, PlainMedium, PlainOp, PlainPass};
use stateful_db_source::{ServeFault, SyncSource};
use stateful_types::{Request, Response};

impl Served for Plain {
    ghost use Rattle.stateful_db_plain.specs.Stored.{standing_of};
    ghost use Rattle.stateful_passes.specs.PlainServed.{Holds, Answers};

    type Op = PlainOp;

    ghost answers = { λ d request response. Answers (standing_of d).disk request response };

    ghost holds = { λ d request. Holds (standing_of d).disk request };

    fn answer(&self, request: &Request) -> Result<Response<PlainOp>, ServeFault> {
        Plain::answer(self, request)
    }
}

impl<R: SyncSource<Op = PlainOp>> StateSyncDb<R> for Plain {
    ghost use Rattle.std.specs.Prelude.{◌≡◌, true, Some, IfOk, IfErr, OnErr, refl};
    ghost use Rattle.stateful_db_pass.specs.declared.fault.SyncFault.{SyncFault};
    ghost use Rattle.stateful_db_pass.specs.declared.pass.Fetches.TheVariants.{Latest};
    ghost use Rattle.stateful_db_pass.specs.Fetched.{is_reached, Leads};
    ghost use Rattle.stateful_db_plain.specs.Ops.{op_linked};
    ghost use Rattle.stateful_db_plain.specs.Whole.{target_of};
    ghost use Rattle.stateful_db_plain.specs.Stored.{next_of, calls_of};
    ghost use Rattle.stateful_db_plain.specs.Stored.{standing_of, next_here, calls_here};
    ghost use Rattle.stateful_passes.specs.Synced.{Makes};
    ghost use Rattle.stateful_passes.specs.PlainMade.{made};

    ghost linked = { op_linked };

    ghost alone = { λ _. true };

    ghost medium_of = { λ p. p.medium };

    ghost fetched = { λ p. p.pass };

    ghost fetches = { λ _. Latest };

    ghost IsValid = { λ _. Unit {0} };

    ghost made = { made };

    /// Each target is taken. One whose range hasn't exactly one location is never reached.
    fn start(
        medium: PlainMedium,
        _config: &(),
        target: Target,
        _sync: SyncEngineConfig,
    ) -> Result<PlainPass, (PlainMedium, SyncFault)> {
        let alloc = medium.allocator();
        Ok(PlainPass {
            medium,
            pass: LogPass::new(alloc, target, Fetches::Latest),
        })
    }

    fn tip(pass: &mut PlainPass, target: Target) -> bool {
        pass.pass.tip(target)
    }

    fn progress(pass: &mut PlainPass, source: &mut R) -> Result<Option<Target>, SyncFault> {
        if pass.medium.fails(DbCall::Sync) {
            return Err(SyncFault::Failed);
        }
        ask(&mut pass.pass, source)
    }

    /// Takes no memory, and is never refused.
    fn finish(pass: PlainPass) -> Result<Plain, (PlainMedium, SyncFault)>
        requires { is_reached pass.pass ≡ true }
        ensures ok { IfOk result (λ db. let m = pass.medium in let s = made pass.pass in
            Makes s (target_of s) pass.pass.target (standing_of db) (next_of m) (next_here db)
            (calls_of m).faults (calls_here db).faults (Some (calls_of m))
            (Some (calls_here db))) }
        ensures leads { Leads op_linked pass.pass }
        ensures err { IfErr result (λ e.
            (e.0 ≡ pass.medium) × (e.1 ≡ SyncFault.OutOfMemory)) }
        ensures refused { OnErr result ⊥ }
    {
        prove!(pass.pass.is_reached());
        let PlainPass { medium, pass } = pass;
        let Ok(segment) = pass.finish() else {
            unreachable!();
        };
        Ok(Plain::synced(medium, segment))
    }

    fn abandon(pass: PlainPass) -> PlainMedium {
        pass.medium
    }

    ghost same_count = { λ p. refl };
}
