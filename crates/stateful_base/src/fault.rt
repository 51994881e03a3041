//! Faults of objects of the outside, which each object counts.

ghost use Rattle.std.specs.Prelude.{◌≡◌, ℕ};

use thiserror::Error;

/// The object failed, and has counted it.
#[derive(Clone, Copy, Debug, PartialEq, Eq, Error)]
#[error("Failed")]
pub struct Failed;

/// What counts its faults. The count never falls, and stays at `u64::MAX`.
pub trait Faulty {
    /// How often it has failed.
    ghost count: { Self → ℕ };

    /// How often it has failed.
    fn faults(&self) -> u64
        ensures { result ≡ count self.now };
}
