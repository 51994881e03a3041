//! Databases that answer the requests of others that sync.

use stateful_db::ManagedDb;
use stateful_db_source::ServeFault;
use stateful_types::{Operation, Request, Response, Share};

/// A database that answers the requests of others that sync.
pub trait Served: ManagedDb {
    ghost use Rattle.std.specs.Prelude.{IfOk, IsErrOf};
    ghost use Rattle.stateful_types.specs.declared.request.Request.{Request};
    ghost use Rattle.stateful_types.specs.declared.response.Response.{Response};
    ghost use Rattle.stateful_db_source.specs.declared.source.ServeFault.{ServeFault};

    /// An operation, as responses have it.
    type Op: Operation + Share + Drop;

    /// What is answered to a request, where it is held.
    ghost answers: { Self → Request → Response Self.Op → Type 0 };

    /// What a request asks for is held.
    ghost holds: { Self → Request → Type 0 };

    /// Answers a request. It is refused exactly where what it asks for isn't held, unless memory is
    /// wanting.
    fn answer(&self, request: &Request) -> Result<Response<Self::Op>, ServeFault>
        ensures ok { IfOk result (λ response.
            holds self.now request.now × answers self.now request.now response) }
        ensures not_served { IsErrOf result ServeFault.NotServed → holds self.now request.now → ⊥ }
        ensures failed { IsErrOf result ServeFault.Failed → ⊥ };
}
