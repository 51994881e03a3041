//! What a sync has fetched.

use stateful_base::{Digest, Target};

/// A segment of a log: a root with a range, the digest before the range, and the operations that
/// lead from that digest to the root. Of a database that keeps its latest operation alone it is
/// that one.
#[derive(Drop)]
pub struct Segment<Op> {
    pub target: Target,
    pub before: Digest,
    pub ops: Vec<Op>,
}
