//! Samples of a committee's replies.
//!
//! For each reply the caller asks `awaits`, verifies the reply, and calls `record`; a second one of
//! the same peer changes nothing. Then it calls `select`, which selects the floor as soon as enough
//! replies can be judged. It answers the floor in that call alone, and `floor` tells it from then
//! on. `reset` drops all replies and the floor.
//!
//! `replies` goes by ascending keys. So of equal rounds the reply of the least key is selected, in
//! whatever order they came. The closure of `select` says which replies can be judged. It is called
//! only where more replies are recorded than participants may be faulty.
//!
//! `Selects` of `specs/Sample.antt` says which reply is selected, and when.

ghost use Rattle.std.specs.Prelude.{◌≡◌, ◌+◌, ◌≤◌, ◌⊎◌, ◌∷◌, [], None, Some, Bool, IfOk, OnOk};
ghost use Rattle.std.specs.Prelude.{OnErr, IsSome, IfSome, ◌↔◌, length, filter};
ghost use Rattle.std.specs.BTreeMap.{values};
ghost use Rattle.std.specs.Option.{option_copied};
ghost use Rattle.std.specs.Fn.{FnReturnsAt};
ghost use Rattle.std.specs.List.Sorted.{IsStrictlySortedBy};
ghost use Rattle.std.specs.Map.{keys_of};
ghost use Rattle.stateful_base.specs.declared.finalization.Finalization.{Finalization};
ghost use Rattle.stateful_base.specs.Round.{IsLater};
ghost use Rattle.stateful_base.specs.Scheme.{max_faults};
ghost use Rattle.stateful_probe_sample.specs.Sample.{awaits, with_reply, with_floor, cleared, IsHighest};
ghost use Rattle.stateful_probe_sample.specs.Sample.{IsHighestRound, Selects};

use stateful_types::{Epoch, Finalization, OutOfMemory, Round, Share, max_faults};
use std::alloc::Global;
use std::collections::BTreeMap;
use std::marker::Model;

/// The first replies of a committee's participants, from which the floor is selected.
///
/// It resolves to the highest reply once there is one more than may be faulty: if no more than
/// these lie, one reply at least is an honest participant's. Who records a reply has verified it
/// before, and that the peer takes part.
#[derive(Drop)]
pub struct Sample<K: Ord, C> {
    minimum_epoch: Epoch,
    replies: BTreeMap<K, Finalization<C>>,
    floor: Option<Finalization<C>>,
}

impl<K: Ord, C> Model for Sample<K, C> {
    ghost use Rattle.stateful_probe_sample.specs.Sample.{Sampled};
    ghost use Rattle.std.specs.List.Sorted.{IsStrictlySortedBy};
    ghost use Rattle.std.specs.Map.{keys_of};

    ghost Value = { Sampled K C };

    ghost view = { λ a. record {
      minimum_epoch = a.minimum_epoch;
      replies = a.replies.entries;
      floor = a.floor;
    } };

    ghost invariant = { λ a. IsStrictlySortedBy K.cmp (keys_of a.replies.entries) };
}

impl<K: Ord + Drop, C: Share + Drop> Sample<K, C> {
    /// An empty sample, whose replies are not to be below this epoch.
    pub fn new(alloc: Global, minimum_epoch: Epoch) -> Sample<K, C>
        ensures { result ≡ record { minimum_epoch = minimum_epoch; replies = []; floor = None } }
    {
        Sample {
            minimum_epoch,
            replies: BTreeMap::new(alloc),
            floor: None,
        }
    }

    /// The lowest epoch that counts.
    pub fn minimum_epoch(&self) -> Epoch
        ensures { result ≡ self.now.minimum_epoch }
    {
        self.minimum_epoch
    }

    /// The floor, once it is selected.
    pub fn floor(&self) -> Option<&Finalization<C>>
        ensures { option_copied result ≡ self.now.floor }
    {
        self.floor.as_ref()
    }

    /// Whether a reply of this peer is awaited: exactly where none is recorded.
    pub fn awaits(&self, peer: &K) -> bool
        ensures { result ≡ awaits K.cmp self.now peer.now }
    {
        !self.replies.contains_key(peer)
    }

    /// Records a reply, where it is the peer's first since the last reset.
    pub fn record(&mut self, peer: K, finalization: Finalization<C>) -> Result<(), OutOfMemory>
        ensures ok { OnOk result (self.new ≡ with_reply K.cmp self.old peer finalization) }
        ensures err { OnErr result (self.new ≡ self.old) }

        // The replies stand by ascending keys, and there is one of a peer at most.
        ensures ordered { IsStrictlySortedBy K.cmp (keys_of self.new.replies) }
    {
        if self.replies.contains_key(&peer) {
            return Ok(());
        }
        self.replies.insert(peer, finalization)?;
        Ok(())
    }

    /// Drops all replies and the floor.
    pub fn reset(&mut self)
        ensures { self.new ≡ cleared self.old }
    {
        self.replies.clear();
        self.floor = None;
    }

    /// Selects the floor once more replies can be judged than participants of a committee of this
    /// size may be faulty: the highest of these. It answers the floor when it is selected, and none
    /// at any other time. Replies are looked at only where so many are recorded, so the closure has
    /// to be callable only there.
    pub fn select<F: Fn(&Finalization<C>) -> bool>(
        &mut self,
        committee: u32,
        judgeable: F,
    ) -> Result<Option<Finalization<C>>, OutOfMemory>
        requires { max_faults committee + 1 ≤ length self.old.replies
            → F.IsAlwaysCallable judgeable }

        // Where the closure always gives the answers of some test, as one does that only looks at
        // the reply.
        ensures selects { IfOk result (λ chosen. (judges : Finalization C → Bool)
            → ((f : Finalization C) (b : Bool) → FnReturnsAt F.Fn judgeable f b → b ≡ judges f)
            → Selects committee judges self.old chosen) }
        ensures ok { IfOk result (λ chosen. self.new ≡ with_floor self.old chosen) }
        ensures err { OnErr result (self.new ≡ self.old) }
    {
        if self.floor.is_some() {
            return Ok(None);
        }
        let Some(highest) = highest_reply(&self.replies, committee, &judgeable) else {
            return Ok(None);
        };
        let selected = highest.share()?;
        self.floor = Some(highest.share()?);
        Ok(Some(selected))
    }
}

/// The highest reply that can be judged, and of equal rounds the first, where there are more of
/// these than participants of a committee of this size may be faulty.
fn highest_reply<'a, K: Ord, C, F: Fn(&Finalization<C>) -> bool>(
    replies: &'a BTreeMap<K, Finalization<C>>,
    committee: u32,
    judgeable: &F,
) -> Option<&'a Finalization<C>>
    requires { max_faults committee + 1 ≤ length (values replies.now)
        → F.IsAlwaysCallable judgeable.now }

    // Where the closure always gives the answers of some test.
    ensures exactly { (judges : Finalization C → Bool)
        → ((f : Finalization C) (b : Bool) → FnReturnsAt F.Fn judgeable.now f b → b ≡ judges f)
        → IsSome result ↔ (max_faults committee + 1 ≤ length (filter judges (values replies.now))) }
    ensures highest { (judges : Finalization C → Bool)
        → ((f : Finalization C) (b : Bool) → FnReturnsAt F.Fn judgeable.now f b → b ≡ judges f)
        → IfSome result (λ f. IsHighest (filter judges (values replies.now)) f.now) }
{
    let Some(highest) = highest_round(replies, committee, judgeable) else {
        return None;
    };
    for reply in replies.values() {
        if judgeable(reply) && !highest.is_later_than(reply.round) {
            return Some(reply);
        }
    }
    None
}

/// The highest round of the replies that can be judged, where there are more of these than
/// participants of a committee of this size may be faulty.
fn highest_round<K: Ord, C, F: Fn(&Finalization<C>) -> bool>(
    replies: &BTreeMap<K, Finalization<C>>,
    committee: u32,
    judgeable: &F,
) -> Option<Round>
    requires { max_faults committee + 1 ≤ length (values replies.now)
        → F.IsAlwaysCallable judgeable.now }

    ensures enough { IsSome result → max_faults committee + 1 ≤ length (values replies.now) }

    // Where the closure always gives the answers of some test.
    ensures exactly { (judges : Finalization C → Bool)
        → ((f : Finalization C) (b : Bool) → FnReturnsAt F.Fn judgeable.now f b → b ≡ judges f)
        → IsSome result ↔ (max_faults committee + 1 ≤ length (filter judges (values replies.now))) }
    ensures highest { (judges : Finalization C → Bool)
        → ((f : Finalization C) (b : Bool) → FnReturnsAt F.Fn judgeable.now f b → b ≡ judges f)
        → IfSome result (IsHighestRound (filter judges (values replies.now))) }
{
    let faulty = max_faults(committee) as usize;
    if replies.len() <= faulty {
        return None;
    }
    let mut count = 0usize;
    let mut highest: Option<Round> = None;
    for reply in replies.values() {
        if judgeable(reply) {
            count += 1;
            highest = Some(later_round(highest, reply.round));
        }
    }
    if count <= faulty {
        return None;
    }
    highest
}

/// The later of two rounds, or the second where there is no first.
fn later_round(before: Option<Round>, round: Round) -> Round
    ensures one { (result ≡ round) ⊎ (before ≡ Some result) }
    ensures first { IfSome before (λ b. IsLater result b → ⊥) }
    ensures second { IsLater result round → ⊥ }
{
    match before {
        Some(before) if before.is_later_than(round) => before,
        _ => round,
    }
}
