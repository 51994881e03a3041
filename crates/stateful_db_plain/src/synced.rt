//! The database that a sync has fetched.

use crate::database::Plain;
use crate::medium::PlainMedium;
use crate::op::PlainOp;
use stateful_db_medium::Checkpoint;
use stateful_db_pass::Segment;

impl Plain {
    ghost use Rattle.std.specs.Prelude.{◌≡◌, ◌+◌, ℕ, List, [], ◌∷◌, length};
    ghost use Rattle.stateful_db_log.specs.Linking.{behind};
    ghost use Rattle.stateful_db_plain.specs.Ops.{op_linked};
    ghost use Rattle.stateful_db_plain.specs.Whole.{target_of};
    ghost use Rattle.stateful_db_plain.specs.Stored.{next_of, calls_of};
    ghost use Rattle.stateful_db_plain.specs.Stored.{standing_of, next_here, calls_here};

    /// The database that a sync has fetched: one durable checkpoint, with the state that the
    /// segment's operation has, in place of all that the medium keeps. It takes no memory. The next
    /// batch id and the calls stay.
    pub fn synced(medium: PlainMedium, segment: Segment<PlainOp>) -> Plain
        requires last { segment.target.start.0 + 1 ≡ segment.target.end.0 }
        requires one { length segment.ops.items ≡ 1 }
        requires leads { behind op_linked segment.target.start.0 segment.before segment.ops.items
            ≡ segment.target.root }
        ensures standing { (entries : List (ℕ × ℕ))
            → segment.ops.items ≡ entries ∷ []
            → standing_of result ≡ record {
              id = 0;
              disk = record {
                older = [];
                newest = record { size = segment.target.end.0; entries = entries };
                pruned = 0;
                durable = 0;
              };
              out = [];
            } }
        ensures target { target_of (standing_of result).disk.newest ≡ segment.target }
        ensures next { next_here result ≡ next_of medium }
        ensures calls { calls_here result ≡ calls_of medium }
    {
        let Segment {
            target,
            mut ops,
            ..
        } = segment;
        let state = ops.remove(0).into_state(target.end.0);
        let fetched = Checkpoint {
            target,
            kept: state,
        };
        let PlainMedium { medium } = medium;
        Plain {
            opened: medium.replaced(fetched).open(0),
        }
    }
}
