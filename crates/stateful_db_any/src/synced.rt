//! A database of keys that a sync has fetched.

ghost use Rattle.std.specs.Prelude.{◌≡◌, ◌-◌, ◌<◌, [], IfOk, IfErr, length};
ghost use Rattle.stateful_db_any.specs.Stored.{next_of, calls_of, standing_of, next_here};
ghost use Rattle.stateful_db_any.specs.Stored.{calls_here, held_here};

use crate::database::AnyDb;
use crate::index::index_over;
use crate::medium::AnyMedium;
use crate::op::AnyOp;
use stateful_db_log::Field;
use stateful_db_pass::Segment;

impl<K: Field, V: Field> AnyDb<K, V> {
    /// The database that a sync has fetched: one durable checkpoint, the segment's, in place of all
    /// that the medium keeps. The next batch id and the calls stay. The index takes memory; where
    /// that is wanting the medium is given back as it was.
    pub fn synced(
        medium: AnyMedium<K, V>,
        segment: Segment<AnyOp<K, V>>,
    ) -> Result<AnyDb<K, V>, AnyMedium<K, V>>
        requires ranged { segment.target.start.0 < segment.target.end.0 }
        requires whole { length segment.ops.items
            ≡ segment.target.end.0 - segment.target.start.0 }
        ensures ok { IfOk result (λ db. standing_of db ≡ record {
          id = 0;
          disk = record {
            older = [];
            newest = record { target = segment.target; kept = segment.ops.items };
            pruned = 0;
            durable = 0;
          };
          out = [];
        }) }
        ensures ok_next { IfOk result (λ db. next_here db ≡ next_of medium) }
        ensures ok_calls { IfOk result (λ db. calls_here db ≡ calls_of medium) }
        ensures ok_held { IfOk result (λ db. held_here db ≡ record {
          first = segment.target.start.0;
          before = segment.before;
          ops = segment.ops.items;
        }) }
        ensures err { IfErr result (λ m. m ≡ medium) }
    {
        let from = segment.target.start.0;
        match index_over(medium.medium.allocator(), segment.ops.as_slice(), from) {
            Ok(index) => {
                let log = medium
                    .medium
                    .replaced(segment.target, segment.before, segment.ops)
                    .open(0);
                Ok(AnyDb { log, index })
            }
            Err(_) => Err(medium),
        }
    }
}
