//! How all that goes on is dropped.

ghost use Rattle.std.specs.Prelude.{◌≡◌, List};
ghost use Rattle.stateful_history.specs.declared.mark.Mark.{Mark as Marked};
ghost use Rattle.stateful_loop_model.specs.Clearing.{IsCleared};
ghost use Rattle.stateful_loop_model.specs.Moments.{executing, moment};

use stateful_db::{Application, DatabaseSet};
use stateful_exec::{Handler, Worked};
use stateful_loop_model::{Processing, ProcessingOf};

/// The machine is down, and nothing goes on. The numbers that are drawn next stay.
pub fn clear<A: Application + Drop>(handler: &mut Handler<A>, processing: &mut ProcessingOf<A>)
    ensures cleared { let w = ⟦<A as Worked>⟧.workings in
        (m : A.Databases.kind.Members) (n : A.Databases.Ids) (k : List (Marked A.Block))
        → IsCleared w (moment w (executing handler.old) processing.old m n k)
        (moment w (executing handler.new) processing.new m n k) }
    ensures application { handler.new.application ≡ handler.old.application }
{
    let (job, fetch) = handler.numbers();
    handler.reopen(handler.branch_anchor(), job, fetch);
    *processing = Processing::new(processing.alloc, processing.next_barrier);
}
