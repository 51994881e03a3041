//! Who waits for a delivery.

/// Who waits for a delivery, by the ticket of the request. Subscribers are ordered by it.
#[derive(Clone, Copy, Debug, PartialEq, Eq, PartialOrd, Ord)]
pub struct Subscriber {
    pub id: u64,
}
