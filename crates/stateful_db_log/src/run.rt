//! Operations that stand one behind another, and are kept once.

ghost use Rattle.std.specs.Prelude.{◌≡◌, ◌++◌, ◌∷◌, ◌+◌, ◌-◌, ◌^◌, ◌≤◌, List, [], min, length};
ghost use Rattle.std.specs.Prelude.{take, drop, slice_get, OnOk, OnErr};
ghost use Rattle.std.specs.Option.{option_copied};
ghost use Rattle.stateful_db_log.specs.Linking.{behind};

use crate::linked::{Linked, link_each};
use stateful_base::Digest;
use std::alloc::{AllocError, Global};
use std::marker::Model;

/// Operations in order. The first of all may stand apart, so that a run of one operation takes no
/// memory.
#[derive(Drop)]
pub struct Run<Op> {
    apart: Option<Op>,
    rest: Vec<Op>,
}

impl<Op> Model for Run<Op> {
    ghost use Rattle.std.specs.Prelude.{List};
    ghost use Rattle.stateful_db_log.specs.Runs.{run_of};

    ghost Value = { List Op };

    ghost view = { λ a. run_of a.apart a.rest.items };
}

impl<Op: Drop> Run<Op> {
    /// One operation alone. It takes no memory.
    pub fn one(alloc: Global, op: Op) -> Run<Op>
        ensures { result ≡ op ∷ [] }
    {
        Run {
            apart: Some(op),
            rest: Vec::new(alloc),
        }
    }

    /// The operations of a vector, with no copy.
    pub fn of(ops: Vec<Op>) -> Run<Op>
        ensures { result ≡ ops.items }
    {
        Run {
            apart: None,
            rest: ops,
        }
    }

    /// How many there are.
    pub fn len(&self) -> u64
        ensures { result ≡ min (length self.now) (2 ^ 64 - 1) }
    {
        let rest = self.rest.len() as u64;
        match self.apart {
            Some(_) => rest.saturating_add(1),
            None => rest,
        }
    }

    /// The one of this number.
    pub fn get(&self, number: u64) -> Option<&Op>
        ensures { option_copied result ≡ slice_get self.now number }
    {
        match &self.apart {
            Some(op) if number == 0 => Some(op),
            Some(_) => self.rest.get((number - 1) as usize),
            None => self.rest.get(number as usize),
        }
    }

    /// Drops all but so many of the first.
    pub fn truncate(&mut self, count: u64)
        ensures { self.new ≡ take count self.old }
    {
        let mut count = count as usize;
        if self.apart.is_some() {
            if count == 0 {
                self.apart = None;
            } else {
                count -= 1;
            }
        }
        self.rest.truncate(count);
    }

    /// Drops so many of the first.
    pub fn drop_first(&mut self, count: u64)
        ensures { self.new ≡ drop count self.old }
    {
        let mut count = count as usize;
        if count > 0 && self.apart.is_some() {
            self.apart = None;
            count -= 1;
        }
        drop_front(&mut self.rest, count);
    }

    /// Appends these operations with no copy, or none of them.
    pub fn append(&mut self, more: Vec<Op>) -> Result<(), AllocError>
        ensures ok { OnOk result (self.new ≡ self.old ++ more.items) }
        ensures err { OnErr result (self.new ≡ self.old) }
    {
        append_all(&mut self.rest, more)
    }
}

impl<Op: Linked> Run<Op> {
    /// The digest behind so many of the first, or behind all where there are fewer. The first one
    /// stands at this location and behind this digest. It takes no memory.
    pub fn link_first(&self, count: u64, at: u64, before: Digest) -> Digest
        requires { at + count ≤ 2 ^ 64 - 1 }
        ensures { result ≡ behind Op.linked at before (take count self.now) }
    {
        match &self.apart {
            None => link_front(self.rest.as_slice(), count, at, before),
            Some(_) if count == 0 => before,
            Some(op) => {
                let digest = op.link(at, before);
                link_front(self.rest.as_slice(), count - 1, at + 1, digest)
            }
        }
    }
}

/// The digest behind so many of the first, or behind all where there are fewer.
fn link_front<Op: Linked>(ops: &[Op], count: u64, at: u64, before: Digest) -> Digest
    requires { at + count ≤ 2 ^ 64 - 1 }
    ensures { result ≡ behind Op.linked at before (take count ops.now) }
{
    let front = (count as usize).min(ops.len());
    link_each(at, before, &ops[..front])
}

/// Drops so many of the first.
fn drop_front<Op: Drop>(ops: &mut Vec<Op>, count: usize)
    ensures { ops.new.items ≡ drop count ops.old.items }
{
    let count = count.min(ops.len());
    ops.drain(..count);
}

/// Appends these operations with no copy, or none of them.
fn append_all<Op: Drop>(ops: &mut Vec<Op>, more: Vec<Op>) -> Result<(), AllocError>
    ensures ok { OnOk result (ops.new.items ≡ ops.old.items ++ more.items) }
    ensures err { OnErr result (ops.new.items ≡ ops.old.items) }
{
    let mut more = more;
    ops.append(&mut more)
}
