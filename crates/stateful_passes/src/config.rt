//! How a sync asks for operations.

use std::num::{NonZeroU64, NonZeroUsize};

/// How a sync asks for operations. One request is made a call, and its response is taken whole
/// before the next, so `apply_batch_size` and `max_outstanding_requests` have no effect.
#[derive(Clone, Copy, Debug)]
pub struct SyncEngineConfig {
    /// How many operations are asked for at once.
    pub fetch_batch_size: NonZeroU64,
    pub apply_batch_size: NonZeroU64,
    pub max_outstanding_requests: NonZeroUsize,
}
