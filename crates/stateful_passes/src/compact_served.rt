//! What compact databases answer to others that sync.

ghost use Rattle.std.specs.Prelude.{IfSome, IsNone};
ghost use Rattle.stateful_db_medium.specs.Kept.{disk_of};
ghost use Rattle.stateful_passes.specs.CompactServed.{AsksFor, Holds};

use crate::served::Served;
use stateful_db_compact::{Commit, CompactDb, CompactState, KeylessOp, duplicate};
use stateful_db_log::Field;
use stateful_db_medium::Medium;
use stateful_db_source::ServeFault;
use stateful_types::{Request, Response};

impl<V: Field> Served for CompactDb<V> {
    ghost use Rattle.stateful_db_compact.specs.CompactStored.{standing_of};
    ghost use Rattle.stateful_passes.specs.CompactServed.{Holds, Answers};

    type Op = KeylessOp<V>;

    ghost answers = { λ d request response. Answers (standing_of d).disk request response };

    ghost holds = { λ d request. Holds (standing_of d).disk request };

    fn answer(&self, request: &Request) -> Result<Response<KeylessOp<V>>, ServeFault> {
        let Some(state) = asked_for(self.opened.medium(), request) else {
            return Err(ServeFault::NotServed);
        };
        let Ok(metadata) = duplicate(&state.kept.metadata) else {
            return Err(ServeFault::OutOfMemory);
        };
        Ok(Response::Boundary {
            before: state.kept.before,
            op: KeylessOp::Commit {
                metadata,
                floor: state.kept.floor,
            },
        })
    }
}

/// The kept checkpoint of which the latest operation is asked for.
fn asked_for<'a, V: Drop>(
    medium: &'a Medium<Commit<V>>,
    request: &Request,
) -> Option<&'a CompactState<V>>
    ensures some { IfSome result (λ s. AsksFor (disk_of medium.now) request.now s.now) }
    ensures none { IsNone result → Holds (disk_of medium.now) request.now → ⊥ }
{
    match *request {
        Request::Boundary { size, start } if size.0.saturating_sub(start.0) == 1 => {
            let number = medium.number_with_end(size)?;
            Some(medium.get(number))
        }
        _ => None,
    }
}
