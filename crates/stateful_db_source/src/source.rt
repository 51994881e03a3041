//! What answers the requests of a syncing database.

use stateful_types::{Faulty, Operation, Request, Response, Share};
use thiserror::Error;

/// Why a request wasn't answered.
#[derive(Clone, Copy, Debug, PartialEq, Eq, Error)]
pub enum ServeFault {
    /// The source failed, and has counted it.
    #[error("Failed")]
    Failed,
    /// It doesn't hold what is asked for.
    #[error("NotServed")]
    NotServed,
    #[error("OutOfMemory")]
    OutOfMemory,
}

/// What answers the requests of a syncing database.
pub trait SyncSource: Faulty + Sized + Drop {
    ghost use Rattle.std.specs.Prelude.{Result, IsErrOf, ◌≤◌};
    ghost use Rattle.stateful_base.specs.Causes.{Rose};
    ghost use Rattle.stateful_types.specs.declared.request.Request.{Request};
    ghost use Rattle.stateful_types.specs.declared.response.Response.{Response};
    ghost use Rattle.stateful_db_source.specs.declared.source.ServeFault.{ServeFault};

    /// An operation, as responses have it.
    type Op: Operation + Share + Drop;

    /// What it may answer to a request, and what it is behind that.
    ghost serves: { Self → Request → Result (Response Self.Op) ServeFault → Self → Type 0 };

    /// Answers a request.
    fn serve(&mut self, request: Request) -> Result<Response<Self::Op>, ServeFault>
        ensures serves { serves self.old request result self.new }
        ensures later { Self.count self.old ≤ Self.count self.new }
        ensures failed { IsErrOf result ServeFault.Failed
            → Rose (Self.count self.old) (Self.count self.new) };
}
