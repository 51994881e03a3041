//! Productions: what peers ask, answered from the database that is attached.
//!
//! A production is asked and answered in one event. The database is taken out of `state.database`
//! for its call and put back, whatever it answers; a key that asks for too much isn't handed to it.
//! Nothing is kept of a production but `next_serve`, below which no number may come again.
//!
//! The database is the one of the last `AttachDatabase` that was taken in. `Produces` and `Answers`
//! of `specs/Resolving.antt` have the rules, and docs/RULES.md says them in words, "The resolver".

ghost use Rattle.std.specs.Prelude.{◌≡◌, ◌^◌, ◌-◌, ◌<◌, ◌++◌, ◌⊎◌, List, IfOk, OnOk};
ghost use Rattle.stateful_p2p.specs.Resolving.{setup, asks_too_many, Produces, Answers};
ghost use Rattle.stateful_p2p_tables.specs.declared.out.ActorOut.{ActorOut};

use bytes::Bytes;
use stateful_db_source::{ServeFault, SyncSource};
use stateful_p2p_tables::{ActorOut, State};
use stateful_types::{OutOfMemory, Request};
use std::alloc::Global;

/// A peer asks for what this key names.
pub(crate) fn produce<D: SyncSource>(
    alloc: Global,
    max_serve_ops: u64,
    state: &mut State<D>,
    serve: u64,
    key: Request,
    outs: &mut Vec<ActorOut>,
) -> Result<(), OutOfMemory>
    requires { serve < 2 ^ 64 - 1 }
    ensures { OnOk result ((done : List ActorOut)
        × Produces (setup D.Op.operations D.serves max_serve_ops) state.old serve key done
        state.new
        × (outs.new.items ≡ outs.old.items ++ done)) }
{
    state.next_serve = serve + 1;
    match answer::<D>(alloc, &mut state.database, max_serve_ops, key)? {
        Some(bytes) => outs.push(ActorOut::Served { serve, bytes })?,
        None => outs.push(ActorOut::Unserved { serve })?,
    }
    Ok(())
}

/// The bytes of the database's answer, if it gives one.
fn answer<D: SyncSource>(
    alloc: Global,
    attached: &mut Option<D>,
    max_serve_ops: u64,
    key: Request,
) -> Result<Option<Bytes>, OutOfMemory>
    ensures { IfOk result (λ bytes. Answers (setup D.Op.operations D.serves max_serve_ops)
        attached.old key bytes attached.new) }
{
    let Some(mut database) = attached.take() else {
        return Ok(None);
    };
    if asks_too_many(&key, max_serve_ops) {
        *attached = Some(database);
        return Ok(None);
    }
    let answer = database.serve(key);
    *attached = Some(database);
    match answer {
        Ok(response) => {
            let mut bytes = Vec::new(alloc);
            response.write(&mut bytes)?;
            Ok(Some(Bytes::from_vec(bytes)?))
        }
        Err(fault) => {
            admits_no_answer(fault)?;
            Ok(None)
        }
    }
}

/// That the database gave no answer, and not for want of memory.
fn admits_no_answer(fault: ServeFault) -> Result<(), OutOfMemory>
    ensures { OnOk result ((fault ≡ ServeFault.NotServed) ⊎ (fault ≡ ServeFault.Failed)) }
{
    match fault {
        ServeFault::OutOfMemory => Err(OutOfMemory),
        ServeFault::NotServed | ServeFault::Failed => Ok(()),
    }
}

/// Whether the key asks for more operations than are served.
fn asks_too_many(key: &Request, max_serve_ops: u64) -> bool
    ensures { result ≡ asks_too_many max_serve_ops key.now }
{
    match key {
        Request::Operations { max_ops, .. } => max_serve_ops < max_ops.get(),
        Request::Boundary { .. } => false,
    }
}
