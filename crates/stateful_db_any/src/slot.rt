//! What becomes of a staged key.

/// What becomes of a staged key.
#[derive(Drop)]
pub enum Slot<V> {
    /// It gets this value.
    Put(V),
    /// It is deleted.
    Delete,
    /// It stays as it is.
    Keep,
}
