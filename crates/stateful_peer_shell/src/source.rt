//! A database that always answers the same.

use crate::named::{Word, named};
use crate::update::Update;
use stateful_db_source::{ServeFault, SyncSource};
use stateful_shell::number;
use stateful_types::{Digest, Faulty, Items, Request, Response};
use std::alloc::Global;

/// What a database answers to each request.
#[derive(Clone, Copy)]
enum Answer {
    /// This value at key 1, as an operation or a boundary.
    Value(u64),
    NotServed,
    Failed,
}

/// A database that always answers the same.
#[derive(Drop)]
pub struct Fixed {
    alloc: Global,
    answer: Answer,
    faults: u64,
}

impl Fixed {
    /// A database that answers what the word there names, `not-served`, `failed` or a value, and
    /// hasn't failed.
    pub(crate) fn new(alloc: Global, words: &[&str], at: usize) -> Fixed {
        let answer = match named(words, at) {
            Word::NotServed => Answer::NotServed,
            Word::Failed => Answer::Failed,
            _ => Answer::Value(number(words, at)),
        };
        Fixed {
            alloc,
            answer,
            faults: 0,
        }
    }
}

impl Faulty for Fixed {
    ghost count = { λ fixed. fixed.faults };

    fn faults(&self) -> u64 {
        self.faults
    }
}

impl SyncSource for Fixed {
    type Op = Update;

    ghost serves = { λ before request answer after. Unit {0} };

    fn serve(&mut self, request: Request) -> Result<Response<Update>, ServeFault> {
        match self.answer {
            Answer::Value(value) => {
                let op = Update { key: 1, value };
                if let Request::Boundary { .. } = request {
                    let before = Digest([7; 32]);
                    return Ok(Response::Boundary { before, op });
                }
                let mut operations = Items::new(self.alloc);
                match operations.push(op) {
                    Ok(()) => Ok(Response::Operations { operations }),
                    Err(_) => Err(ServeFault::OutOfMemory),
                }
            }
            Answer::NotServed => Err(ServeFault::NotServed),
            Answer::Failed => {
                self.faults = self.faults.saturating_add(1);
                Err(ServeFault::Failed)
            }
        }
    }
}
