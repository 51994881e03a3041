//! What a database that is kept as a log answers to a syncing one.

ghost use Rattle.std.specs.Prelude.{◌≡◌, ◌↔◌, ◌≤◌, ◌<◌, ◌-◌, IsTrue, IfOk, IfErr, IsErrOf, Some};
ghost use Rattle.std.specs.Prelude.{slice_get};
ghost use Rattle.stateful_types.specs.declared.response.Response.TheVariants.{Boundary, Operations};
ghost use Rattle.stateful_db_source.specs.declared.source.ServeFault.{ServeFault};
ghost use Rattle.stateful_db_log.specs.Between.{between};
ghost use Rattle.stateful_db_log.specs.Held.{end_of, digest_at};
ghost use Rattle.stateful_db_log.specs.Logs.{held_here};
ghost use Rattle.stateful_db_pass.specs.Serving.{HoldsFrom, IsHeld, Answers};

use stateful_base::{Items, Location, Share};
use stateful_db_log::{Linked, OpenLog};
use stateful_db_source::ServeFault;
use stateful_types::{Request, Response};

/// What is answered to a request from the operations that a log holds, whether or not the newest
/// checkpoint's range has them. `NotServed` exactly where it doesn't hold what is asked for, and
/// never `Failed`.
pub fn answer_from<Op: Linked + Share>(
    log: &OpenLog<Op>,
    request: &Request,
) -> Result<Response<Op>, ServeFault>
    ensures ok { IfOk result (λ response.
        IsHeld (held_here log.now) request.now
        × Answers Op.linked (held_here log.now) request.now response) }
    ensures not_served { IsErrOf result ServeFault.NotServed
        → IsHeld (held_here log.now) request.now
        → ⊥ }
    ensures failed { IsErrOf result ServeFault.Failed → ⊥ }
{
    match request {
        Request::Operations {
            size,
            start,
            max_ops,
        } if holds_from(log, *size, *start) => {
            let count = max_ops.get().min(size.0 - start.0);
            operations(log, start.0, start.0 + count)
        }
        Request::Boundary { size, start } if holds_from(log, *size, *start) => {
            boundary(log, start.0)
        }
        _ => Err(ServeFault::NotServed),
    }
}

/// Whether the operation at a start is held, and each behind it up to a size.
fn holds_from<Op: Drop>(log: &OpenLog<Op>, size: Location, start: Location) -> bool
    ensures { IsTrue result ↔ HoldsFrom (held_here log.now) size.0 start.0 }
{
    log.first() <= start.0 && start.0 < size.0 && size.0 <= log.target().end.0
}

/// The operations from a start on, up to an end.
fn operations<Op: Linked + Share>(
    log: &OpenLog<Op>,
    start: u64,
    end: u64,
) -> Result<Response<Op>, ServeFault>
    requires low { (held_here log.now).first ≤ start }
    requires high { end ≤ end_of (held_here log.now) }
    ensures ok { let h = held_here log.now in
        IfOk result (λ response. response ≡ Operations (between h.first h.ops start end)) }
    ensures err { IfErr result (λ e. e ≡ ServeFault.OutOfMemory) }
{
    match log.share_between(start, end) {
        Ok(copies) => Ok(Response::Operations {
            operations: Items::from_vec(copies),
        }),
        Err(_) => Err(ServeFault::OutOfMemory),
    }
}

/// The operation at a location, and the digest before it.
fn boundary<Op: Linked + Share>(log: &OpenLog<Op>, at: u64) -> Result<Response<Op>, ServeFault>
    requires low { (held_here log.now).first ≤ at }
    requires high { at < end_of (held_here log.now) }
    ensures ok { let h = held_here log.now in
        IfOk result (λ response. (op : Op)
        × (slice_get h.ops (at - h.first) ≡ Some op)
        × (response ≡ Boundary (digest_at Op.linked h at) op)) }
    ensures err { IfErr result (λ e. e ≡ ServeFault.OutOfMemory) }
{
    let (Some(before), Some(op)) = (log.digest_at(at), log.held(at)) else {
        return Err(ServeFault::NotServed);
    };
    match op.share() {
        Ok(op) => Ok(Response::Boundary { before, op }),
        Err(_) => Err(ServeFault::OutOfMemory),
    }
}
