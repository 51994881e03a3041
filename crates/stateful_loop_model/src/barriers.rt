//! The open barriers.
//!
//! A barrier is open from its begin (`push`) until it is over (`pop`). Each database answers to it
//! once: `token` finds what it is to flush, and `answer` takes in how that went. The databases of
//! two barriers may answer in any order.
//!
//! A barrier that was flushed is over only as the oldest, so heights become durable in their order.
//! One with an interrupted flush is told wherever it stands (`broken`). It isn't taken out: the
//! machine stops then, and a stop drops both.
//!
//! `oldest` and `newer` hold at most two, and the loop begins no third (`Needed`).
//! `specs/Barriers.antt` says what each call makes of the list.

ghost use Rattle.std.specs.Prelude.{◌≡◌, ◌<◌, ◌∷◌, ◌++◌, [], drop, option_map, option_and_then};
ghost use Rattle.std.specs.Prelude.{length, IsSome};
ghost use Rattle.stateful_db.specs.Barrier.{open_at};
ghost use Rattle.stateful_loop_model.specs.Barriers.{is_broken, is_flushed, awaits, numbered};
ghost use Rattle.stateful_loop_model.specs.Barriers.{broken, flushed, awaiting, answered_by};
ghost use Rattle.stateful_loop_model.specs.Barriers.{with_answer};

use stateful_base::Height;
use stateful_db::{Barrier, BarrierPoll, FlushToken, Flushed};
use std::marker::Model;

/// An open barrier: its number, its height, and the tokens of the databases with their answers.
#[derive(Drop)]
pub struct Active {
    pub number: u64,
    pub height: Height,
    pub barrier: Barrier,
}

impl Active {
    /// Whether an answer was that the flush was interrupted.
    fn is_broken(&self) -> bool
        ensures { result ≡ is_broken self.now }
    {
        self.barrier.poll() == BarrierPoll::Interrupted
    }

    /// Whether every database was flushed.
    fn is_flushed(&self) -> bool
        ensures { result ≡ is_flushed self.now }
    {
        self.barrier.poll() == BarrierPoll::Durable
    }

    /// Whether it has this number, and awaits the answer of this database.
    fn awaits(&self, number: u64, index: usize) -> bool
        ensures { result ≡ awaits number index self.now }
    {
        self.number == number && self.barrier.handle(index).is_some()
    }

    /// Takes in the answer of a database, which is awaited.
    fn answer(&mut self, index: usize, answer: Flushed)
        requires { IsSome (open_at self.old.barrier index) }
        ensures { self.new ≡ answered_by index answer self.old }
    {
        self.barrier.durable(index, answer);
    }
}

/// The open barriers, the oldest first. They are two at most.
#[derive(Drop)]
pub struct Barriers {
    oldest: Option<Active>,

    // There only beside the oldest.
    newer: Option<Active>,
}

impl Model for Barriers {
    ghost use Rattle.std.specs.Prelude.{◌≡◌, List, None};
    ghost use Rattle.stateful_loop_model.specs.declared.barriers.Active.{Active};
    ghost use Rattle.stateful_loop_model.specs.Barriers.{both};

    ghost Value = { List Active };

    ghost view = { λ a. both a.oldest a.newer };

    ghost invariant = { λ a. a.oldest ≡ None → a.newer ≡ None };
}

impl Barriers {
    /// None is open.
    pub fn new() -> Barriers
        ensures { result ≡ [] }
    {
        Barriers {
            oldest: None,
            newer: None,
        }
    }

    /// The number and the height of the oldest barrier of which a flush was interrupted.
    pub fn broken(&self) -> Option<(u64, Height)>
        ensures { result ≡ option_map numbered (broken self.now) }
    {
        match (&self.oldest, &self.newer) {
            (Some(active), _) if active.is_broken() => Some((active.number, active.height)),
            (_, Some(active)) if active.is_broken() => Some((active.number, active.height)),
            _ => None,
        }
    }

    /// The number and the height of the oldest barrier, where every database was flushed.
    pub fn flushed(&self) -> Option<(u64, Height)>
        ensures { result ≡ option_map numbered (flushed self.now) }
    {
        match &self.oldest {
            Some(active) if active.is_flushed() => Some((active.number, active.height)),
            _ => None,
        }
    }

    /// One more is open.
    pub fn push(&mut self, active: Active)
        requires { length self.old < 2 }
        ensures { self.new ≡ self.old ++ active ∷ [] }
    {
        if self.oldest.is_none() {
            self.oldest = Some(active);
        } else {
            self.newer = Some(active);
        }
    }

    /// The oldest is over.
    pub fn pop(&mut self)
        ensures { self.new ≡ drop 1 self.old }
    {
        self.oldest = self.newer.take();
    }

    /// The token with which this database is to answer to the barrier of this number.
    pub fn token(&self, number: u64, index: usize) -> Option<FlushToken>
        ensures { result
            ≡ option_and_then (λ active. open_at active.barrier index)
            (awaiting number index self.now) }
    {
        match (&self.oldest, &self.newer) {
            (Some(active), _) if active.awaits(number, index) => active.barrier.handle(index),
            (_, Some(active)) if active.awaits(number, index) => active.barrier.handle(index),
            _ => None,
        }
    }

    /// The answer of a database is taken in by the barrier of this number, where it is awaited.
    pub fn answer(&mut self, number: u64, index: usize, answer: Flushed)
        ensures { self.new ≡ with_answer number index answer self.old }
    {
        if let Some(active) = &mut self.oldest {
            if active.awaits(number, index) {
                active.answer(index, answer);
                return;
            }
        }
        if let Some(active) = &mut self.newer {
            if active.awaits(number, index) {
                active.answer(index, answer);
            }
        }
    }
}
