//! What a sync leaves.

use super::database::KeylessDb;
use super::medium::KeylessMedium;
use stateful_db_compact::KeylessOp;
use stateful_db_log::Field;
use stateful_db_pass::Segment;

impl<V: Field> KeylessDb<V> {
    ghost use Rattle.std.specs.Prelude.{◌≡◌, ◌<◌, ◌-◌, [], length};
    ghost use Rattle.stateful_db_keyless.specs.KeylessStored.{next_of, calls_of, standing_of};
    ghost use Rattle.stateful_db_keyless.specs.KeylessStored.{next_here, calls_here, held_here};

    /// The database that a sync has fetched: one durable checkpoint, the segment's, in place of all
    /// that the medium keeps. It takes no memory. The next batch id and the calls stay.
    pub fn synced(medium: KeylessMedium<V>, segment: Segment<KeylessOp<V>>) -> KeylessDb<V>
        requires ranged { segment.target.start.0 < segment.target.end.0 }
        requires whole { length segment.ops.items
            ≡ segment.target.end.0 - segment.target.start.0 }
        ensures standing { standing_of result ≡ record {
          id = 0;
          disk = record {
            older = [];
            newest = record { target = segment.target; kept = segment.ops.items };
            pruned = 0;
            durable = 0;
          };
          out = [];
        } }
        ensures held { held_here result ≡ record {
          first = segment.target.start.0;
          before = segment.before;
          ops = segment.ops.items;
        } }
        ensures next { next_here result ≡ next_of medium }
        ensures calls { calls_here result ≡ calls_of medium }
    {
        let Segment {
            target,
            before,
            ops,
        } = segment;
        let KeylessMedium { medium } = medium;
        let replaced = medium.replaced(target, before, ops);
        KeylessDb {
            log: replaced.open(0),
        }
    }
}
