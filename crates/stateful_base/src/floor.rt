//! What a block store reports at a start.

use crate::number::Height;
use crate::round::Round;

/// What a block store reports at a start: the last height that it saw processed, the round up to
/// which it hands out nothing again, and how many finalizations it leaves unacknowledged at most.
#[derive(Clone, Copy, Debug, PartialEq, Eq)]
pub struct Floor {
    pub processed: Option<Height>,
    pub cutoff: Option<Round>,
    pub max_pending_acks: usize,
}
