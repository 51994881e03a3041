//! What a probe takes in, and what it puts out.

use bytes::Bytes;
use stateful_types::{Finalization, Items, Scheme};

/// What happened, for a probe whose peers have keys `K`.
#[derive(Drop)]
pub enum Event<K> {
    /// Someone asks for the floor, under a ticket above every earlier one.
    Subscribe { ticket: u64 },
    /// Who waits under this ticket no longer does. Behind its floor, or a stop, nobody waits under
    /// it.
    Cancel { ticket: u64 },
    /// The node's own finalizations can be served. From then on, while nobody waits and there is no
    /// floor, subscriptions are closed.
    Attach,
    /// A peer sent these bytes. The caller bounds them (`Message::max_encode_size`).
    Received { peer: K, value: Bytes },
    /// Too few replies came in time.
    Retry,
    /// The node stops.
    Stop,
}

/// What is to be done for a probe.
#[derive(Drop)]
pub enum Out<K, C> {
    /// The subscription is answered with the floor.
    Floor {
        ticket: u64,
        finalization: Finalization<C>,
    },
    /// The subscription is closed without a floor.
    Closed {
        ticket: u64,
    },
    /// A request is sent to each of these peers.
    Request {
        peers: Items<K>,
    },
    /// These bytes are sent to the peer.
    Response {
        peer: K,
        value: Bytes,
    },
    /// The peer is blocked.
    Block {
        peer: K,
    },
}

/// What happened, for a probe of a scheme.
pub type ProbeEvent<S> = Event<<S as Scheme>::Key>;

/// What is to be done for a probe of a scheme.
pub type ProbeOut<S> = Out<<S as Scheme>::Key, <S as Scheme>::Certificate>;
