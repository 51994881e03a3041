//! What a probe keeps.

ghost use Rattle.std.specs.Prelude.{◌≡◌};
ghost use Rattle.stateful_probe_sample.specs.Sample.{still_counts};
ghost use Rattle.stateful_probe.specs.Probe.{is_serving, names_live, may_come};

use crate::event::Event;
use crate::subscribers::Subscribers;
use stateful_probe_sample::Sample;
use stateful_types::Share;

/// The replies and the floor, who waits for one, whether the node's finalizations are attached, the
/// least ticket that is new, and whether the probe was stopped.
#[derive(Drop)]
pub(crate) struct State<K: Ord, C> {
    pub(crate) sample: Sample<K, C>,
    pub(crate) subscribers: Subscribers,
    pub(crate) attached: bool,
    pub(crate) next_ticket: u64,
    pub(crate) stopped: bool,
}

impl<K: Ord + Drop, C: Share + Drop> State<K, C> {
    /// Whether the probe serves: it is attached, and nobody waits.
    pub(crate) fn is_serving(&self) -> bool
        ensures { result ≡ is_serving self.now }
    {
        self.attached && self.subscribers.is_empty()
    }

    /// Whether a reply of this peer still counts: no floor is selected, and none of its replies is
    /// recorded.
    pub(crate) fn still_counts(&self, peer: &K) -> bool
        ensures { result ≡ still_counts K.cmp self.now.sample peer.now }
    {
        self.sample.floor().is_none() && self.sample.awaits(peer)
    }

    /// Whether the event may come.
    pub(crate) fn allows(&self, event: &Event<K>) -> bool
        ensures { result ≡ may_come self.now event.now }
    {
        !self.stopped && self.names_live(event)
    }

    /// Whether the ticket of a subscription is new, and that of a cancel waits.
    fn names_live(&self, event: &Event<K>) -> bool
        ensures { result ≡ names_live self.now event.now }
    {
        match event {
            Event::Subscribe { ticket } => self.next_ticket <= *ticket,
            Event::Cancel { ticket } => self.subscribers.contains(*ticket),
            _ => true,
        }
    }
}
