//! The range of a sealed batch.

use stateful_base::Location;

/// Where the range of a sealed batch begins and ends.
#[derive(Clone, Copy, Debug, PartialEq, Eq)]
pub struct Bounds {
    pub inactivity_floor: Location,
    pub size: Location,
}
