//! What a block commits to of a database.

use crate::digest::Digest;
use crate::number::Location;

/// A root, and the range `start..end` of operations that a database at this root serves.
#[derive(Clone, Copy, Debug, PartialEq, Eq)]
pub struct Target {
    pub root: Digest,
    pub start: Location,
    pub end: Location,
}

/// A root, and the number of operations behind it.
#[derive(Clone, Copy, Debug, PartialEq, Eq)]
pub struct CompactTarget {
    pub root: Digest,
    pub size: Location,
}
