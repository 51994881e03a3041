//! What a database serves.

ghost use Rattle.std.specs.Prelude.{◌≡◌, ◌↔◌, ◌+◌, IsTrue};

use crate::database::Plain;
use crate::op::PlainOp;
use crate::state::PlainState;
use stateful_base::{Digest, Location};
use stateful_db_source::ServeFault;
use stateful_types::{Request, Response};

impl Plain {
    ghost use Rattle.std.specs.Prelude.{◌≡◌, ◌↔◌, IfOk, IsErrOf, MatchOption};
    ghost use Rattle.std.specs.Option.{option_copied};
    ghost use Rattle.stateful_db_source.specs.declared.source.ServeFault.{ServeFault};
    ghost use Rattle.stateful_db_plain.specs.Whole.{Whole};
    ghost use Rattle.stateful_db_plain.specs.Stored.{standing_of};
    ghost use Rattle.stateful_db_plain.specs.Serving.{IsKept, AsksFor, response_of};

    /// The state of the kept checkpoint whose range has this end.
    pub fn state_with_end(&self, end: Location) -> Option<&PlainState>
        ensures { let d = (standing_of self.now).disk in
            MatchOption (option_copied result)
            ((w : Whole) → IsKept d end.0 w → ⊥)
            (λ w. IsKept d end.0 w) }
    {
        match self.number_with_end(end) {
            Some(number) => Some(&self.opened.medium().get(number).kept),
            None => None,
        }
    }

    /// The state that is asked for.
    fn asked(&self, request: &Request) -> Option<&PlainState>
        ensures { let d = (standing_of self.now).disk in
            MatchOption (option_copied result)
            ((w : Whole) → AsksFor d request.now w → ⊥)
            (λ w. AsksFor d request.now w) }
    {
        match *request {
            Request::Boundary { size, start } if is_last(start, size) => self.state_with_end(size),
            _ => None,
        }
    }

    /// What is answered to a request: the whole state of the kept checkpoint of the asked size,
    /// with 32 bytes that are 0 before it. `NotServed` exactly where no checkpoint of that size is
    /// kept, or something else than its last location is asked for.
    pub fn answer(&self, request: &Request) -> Result<Response<PlainOp>, ServeFault>
        ensures ok { IfOk result (λ response.
            (w : Whole)
            × AsksFor (standing_of self.now).disk request.now w
            × (response ≡ response_of w)) }
        ensures not_served { IsErrOf result ServeFault.NotServed
            ↔ ((w : Whole) → AsksFor (standing_of self.now).disk request.now w → ⊥) }
        ensures failed { IsErrOf result ServeFault.Failed → ⊥ }
    {
        let Some(state) = self.asked(request) else {
            return Err(ServeFault::NotServed);
        };
        match PlainOp::of(state) {
            Ok(op) => Ok(Response::Boundary {
                before: Digest([0; 32]),
                op,
            }),
            Err(_) => Err(ServeFault::OutOfMemory),
        }
    }
}

/// Whether a location is the last one of a range with this end.
fn is_last(at: Location, end: Location) -> bool
    ensures { IsTrue result ↔ (at.0 + 1 ≡ end.0) }
{
    at.0 < end.0 && end.0 - at.0 == 1
}
