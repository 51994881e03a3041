//! The counter's rules.

use stateful_base::{OutOfMemory, Share};
use stateful_simple_app::{
    Draft, OneTurn, OneTurnApplication, Payload, PayloadBlock, write_number,
};
use std::alloc::Global;

/// The key of the count.
const COUNT: u64 = 0;

/// A number to add: what a block carries, and what a request asks for.
#[derive(Clone, Copy, Debug, PartialEq, Eq)]
pub struct Add(pub u64);

impl Share for Add {
    fn share(&self) -> Result<Add, OutOfMemory> {
        Ok(*self)
    }
}

impl Payload for Add {
    ghost use Rattle.stateful_simple_counter.specs.Counting.{add_bytes};

    ghost bytes = { add_bytes };

    fn write(&self, out: &mut Vec<u8>) -> Result<(), OutOfMemory> {
        write_number(self.0, out)
    }
}

/// The rules of the counter. There is no value of them.
#[derive(Drop)]
pub enum Counting {}

/// The counter.
pub type Counter = OneTurnApplication<Counting>;

/// A block of the counter.
pub type CounterBlock = PayloadBlock<Add>;

impl OneTurn for Counting {
    ghost use Rattle.stateful_simple_counter.specs.Counting.{counting};

    type Payload = Add;

    type Input = Add;

    ghost rules = { counting };

    fn genesis(_alloc: Global) -> Add {
        Add(0)
    }

    /// The count stays at the last number.
    fn run<'a>(draft: Draft<'a>, added: &Add) -> Result<Option<Draft<'a>>, OutOfMemory> {
        let count = draft.get(COUNT).unwrap_or(0);
        let draft = draft.put(COUNT, Some(count.saturating_add(added.0)))?;
        Ok(Some(draft))
    }

    fn accept(_draft: &Draft<'_>, added: &Add) -> bool {
        added.0 != 0
    }

    fn choose(_draft: &Draft<'_>, asked: Add) -> Result<Option<Add>, OutOfMemory> {
        Ok(Some(asked))
    }
}
