//! Barriers: what has to be flushed before a height is durable, and how that went.
//!
//! A set makes a barrier when it starts persisting, with one token for each database. Each database
//! then answers once, in any order, and `durable` takes the answer in. `poll` says `Durable` once
//! all answers are there and good, and `Interrupted` as soon as one isn't. Until then it is
//! pending, however long that is.
//!
//! The barrier keeps the tokens with their answers and does nothing else. Whoever holds it flushes
//! the databases and decides what an end means. `specs/Barrier.antt` says what each call does.

ghost use Rattle.std.specs.Prelude.{◌≡◌, ℕ, List, IfOk, Some, map};
ghost use Rattle.stateful_db.specs.Barrier.{unanswered, open_at, answered, Polled};
ghost use Rattle.stateful_db.specs.declared.barrier.Handle.{Handle};

use crate::database::FlushToken;
use stateful_base::OutOfMemory;
use std::marker::Model;

/// How a flush went.
#[derive(Clone, Copy, Debug, PartialEq, Eq)]
pub enum Flushed {
    Good,
    Interrupted,
}

/// How a barrier stands.
#[derive(Clone, Copy, Debug, PartialEq, Eq)]
pub enum BarrierPoll {
    Durable,
    Interrupted,
    Pending,
}

/// A database's token, and how its flush went, where that is known.
#[derive(Clone, Copy, Debug, PartialEq, Eq)]
pub struct Handle {
    pub token: FlushToken,
    pub answer: Option<Flushed>,
}

/// The tokens of a set's databases, in their order, with the answers that came so far.
#[derive(Drop)]
pub struct Barrier {
    handles: Vec<Handle>,
}

impl Model for Barrier {
    ghost use Rattle.std.specs.Prelude.{List};
    ghost use Rattle.stateful_db.specs.declared.barrier.Handle.{Handle};

    ghost Value = { List Handle };

    ghost view = { λ b. b.handles.items };
}

impl Barrier {
    /// A barrier of these tokens, without answers.
    pub fn from_handles(handles: Vec<FlushToken>) -> Result<Barrier, OutOfMemory>
        ensures { IfOk result (λ barrier. barrier ≡ map unanswered handles.items) }
    {
        let mut waiting = Vec::new(*handles.allocator());
        for token in &handles {
            waiting.push(Handle {
                token: *token,
                answer: None,
            })?;
        }
        Ok(Barrier { handles: waiting })
    }

    /// The token of this number. None exactly where there is none, or where it has an answer.
    pub fn handle(&self, index: usize) -> Option<FlushToken>
        ensures { result ≡ open_at self.now index }
    {
        let handle = self.handles.get(index)?;
        match handle.answer {
            None => Some(handle.token),
            Some(_) => None,
        }
    }

    /// Takes in the answer of the token of this number, which has none yet.
    pub fn durable(&mut self, index: usize, answer: Flushed) -> BarrierPoll
        requires { (token : FlushToken) × (open_at self.old index ≡ Some token) }
        ensures answered { self.new ≡ answered self.old index answer }
        ensures polled { Polled self.new result }
    {
        let handle = &mut self.handles[index];
        handle.answer = Some(answer);
        self.poll()
    }

    /// How the barrier stands. An empty one is durable.
    pub fn poll(&self) -> BarrierPoll
        ensures { Polled self.now result }
    {
        let mut poll = BarrierPoll::Durable;
        for handle in &self.handles {
            match handle.answer {
                Some(Flushed::Good) => {}
                Some(Flushed::Interrupted) => return BarrierPoll::Interrupted,
                None => poll = BarrierPoll::Pending,
            }
        }
        poll
    }
}
