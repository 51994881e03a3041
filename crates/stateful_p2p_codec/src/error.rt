//! Why the limits refuse.

use thiserror::Error;

/// More than 4294967295 operations a request.
#[derive(Clone, Copy, Debug, PartialEq, Eq, Error)]
#[error("operations per request must fit in u32")]
pub struct TooManyOps;
