//! Deliveries that tickets have to judge, and what becomes of them.
//!
//! A ticket that takes a delivery is noted in `unjudged` with it, and the delivery in `deliveries`
//! with how many verdicts it awaits (`await_verdicts`). Only tickets that have nothing to judge take
//! one (`takers`), so a ticket judges one delivery at a time.
//!
//! Where a ticket gives its verdict, or leaves or is cancelled without one (`forget`, `retire`), it
//! is free again, and its delivery awaits one verdict less (`release`). At the last one the delivery
//! is settled and let go. The verdict of the lowest ticket that gave one tells of it, and where none
//! did it is unjudged.
//!
//! Where memory is refused, nothing is told of what is kept. `specs/Deliveries.antt` has the rules
//! (`Releases`, `Forgets`, `Retires`, `Takes`).

ghost use Rattle.std.specs.Prelude.{◌≡◌, ◌++◌, ◌∷◌, [], List, filter, IfOk, OnOk};
ghost use Rattle.std.specs.Option.{MatchOption};
ghost use Rattle.stateful_p2p_tables.specs.Subscribing.{AreSubscribers};
ghost use Rattle.stateful_p2p_tables.specs.Deliveries.{IsSound, Releases, Forgets, Retires, Takes};
ghost use Rattle.stateful_p2p_tables.specs.Deliveries.{awaiting, is_free};
ghost use Rattle.stateful_p2p_tables.specs.declared.out.ActorOut.{ActorOut};

use crate::out::{ActorOut, push_some};
use crate::state::{State, Verdicts};
use stateful_table::Table;
use stateful_types::{OutOfMemory, Request};
use std::alloc::Global;
use std::collections::BTreeSet;

impl<D> State<D> {
    /// A ticket gives its verdict on the candidate that it hasn't judged, or none as it leaves.
    /// Answers what becomes of the delivery, where no further verdict is awaited.
    pub fn release(
        &mut self,
        ticket: u64,
        verdict: Option<bool>,
    ) -> Result<Option<ActorOut>, OutOfMemory>
        requires { IsSound self.old }
        ensures releases { IfOk result (λ settled.
            Releases self.old ticket verdict settled self.new) }
        ensures sound { OnOk result (IsSound self.new) }
    {
        let Some(delivery) = self.unjudged.remove(ticket) else {
            return Ok(None);
        };
        let Some(mut verdicts) = self.deliveries.remove(delivery) else {
            return Ok(None);
        };
        verdicts.hear(ticket, verdict)?;
        if verdicts.awaited == 0 {
            return Ok(Some(verdicts.outcome(delivery)));
        }
        self.deliveries.put(delivery, verdicts)?;
        Ok(None)
    }

    /// Nothing is fetched for a ticket any more, and it judges nothing. Answers none where nothing
    /// was fetched for it, and else what becomes of the delivery that it hasn't judged.
    pub fn forget(&mut self, ticket: u64) -> Result<Option<Option<ActorOut>>, OutOfMemory>
        requires { IsSound self.old }
        ensures forgets { IfOk result (λ settled. Forgets self.old ticket settled self.new) }
        ensures sound { OnOk result (IsSound self.new) }
    {
        if self.subscriptions.remove(ticket).is_none() {
            return Ok(None);
        }
        let settled = self.release(ticket, None)?;
        Ok(Some(settled))
    }

    /// The tickets are forgotten, one behind the other. What that settles stands behind.
    pub fn retire(
        &mut self,
        alloc: Global,
        gone: &[u64],
        outs: &mut Vec<ActorOut>,
    ) -> Result<(), OutOfMemory>
        requires { IsSound self.old }
        ensures retires { OnOk result ((forgotten : List ActorOut) × (settled : List ActorOut)
            × Retires self.old gone.now forgotten settled self.new
            × (outs.new.items ≡ outs.old.items ++ forgotten ++ settled)) }
        ensures sound { OnOk result (IsSound self.new) }
    {
        let mut settled = Vec::new(alloc);
        for ticket in gone {
            self.retire_one(*ticket, outs, &mut settled)?;
        }
        outs.append(&mut settled)?;
        Ok(())
    }

    /// A ticket is forgotten. What that settles is kept apart.
    fn retire_one(
        &mut self,
        ticket: u64,
        outs: &mut Vec<ActorOut>,
        settled: &mut Vec<ActorOut>,
    ) -> Result<(), OutOfMemory>
        requires { IsSound self.old }
        ensures retires { OnOk result ((forgotten : List ActorOut) × (more : List ActorOut)
            × Retires self.old (ticket ∷ []) forgotten more self.new
            × (outs.new.items ≡ outs.old.items ++ forgotten)
            × (settled.new.items ≡ settled.old.items ++ more)) }
        ensures sound { OnOk result (IsSound self.new) }
    {
        let Some(outcome) = self.forget(ticket)? else {
            return Ok(());
        };
        outs.push(ActorOut::Forget { ticket })?;
        push_some(settled, outcome)
    }

    /// The subscribers of a key that have no candidate to judge, in ascending order. None where it
    /// has no subscribers.
    pub fn takers(&self, alloc: Global, key: &Request) -> Result<Option<Vec<u64>>, OutOfMemory>
        ensures { IfOk result (λ found. MatchOption found
            (AreSubscribers self.now.subscriptions key.now [])
            (λ takers. Takes self.now key.now takers.items)) }
    {
        let Some(subscribers) = self.subscriptions.of(key) else {
            return Ok(None);
        };
        if subscribers.is_empty() {
            return Ok(None);
        }
        Ok(Some(free(alloc, subscribers, &self.unjudged)?))
    }

    /// The verdicts of these tickets on a delivery are awaited.
    pub fn await_verdicts(
        &mut self,
        alloc: Global,
        delivery: u64,
        takers: &[u64],
    ) -> Result<(), OutOfMemory>
        ensures { OnOk result (self.new ≡ awaiting self.old delivery takers.now) }
    {
        let verdicts = Verdicts {
            awaited: takers.len(),
            given: Table::new(alloc),
        };
        self.deliveries.put(delivery, verdicts)?;
        for ticket in takers {
            self.unjudged.put(*ticket, delivery)?;
        }
        Ok(())
    }
}

/// Those of the tickets that have no candidate to judge.
fn free(
    alloc: Global,
    tickets: &BTreeSet<u64>,
    unjudged: &Table<u64>,
) -> Result<Vec<u64>, OutOfMemory>
    ensures { IfOk result (λ takers.
        takers.items ≡ filter (is_free unjudged.now) tickets.now.keys) }
{
    let mut takers = Vec::new(alloc);
    for ticket in tickets {
        if !unjudged.contains(*ticket) {
            takers.push(*ticket)?;
        }
    }
    Ok(takers)
}
