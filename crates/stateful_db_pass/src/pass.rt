//! A sync of one database that isn't finished.

ghost use Rattle.std.specs.Prelude.{◌≡◌, ◌↔◌, ◌+◌, ◌-◌, ◌<◌, ◌≤◌, IsTrue, IfOk, IfErr, IfSome, Ok};
ghost use Rattle.std.specs.Prelude.{MatchResult, Result, Option, Some, None, true, false, length};
ghost use Rattle.std.specs.Prelude.{if◌then◌else◌, List, ◌++◌, OnOk};
ghost use Rattle.stateful_base.specs.Causes.{Rose};
ghost use Rattle.stateful_base.specs.declared.digest.Digest.{Digest};
ghost use Rattle.stateful_types.specs.declared.response.Response.{Response};
ghost use Rattle.stateful_types.specs.declared.response.Response.TheVariants.{Boundary, Operations};
ghost use Rattle.stateful_db_source.specs.declared.source.ServeFault.{ServeFault};
ghost use Rattle.stateful_db_pass.specs.Fetched.{toward, request, is_reached, first_ops, added, Leads};
ghost use Rattle.stateful_db_pass.specs.Fetched.{FitsBoundary, FitsOperations};
ghost use Rattle.stateful_db_pass.specs.declared.pass.Fetches.TheVariants.{Latest};
ghost use Rattle.stateful_db_pass.specs.Counted.{IsWithin};
ghost use Rattle.stateful_db_pass.specs.Kept.{IsKept, IsNext, IsSingle};
ghost use Rattle.stateful_db_pass.specs.Progress.{IsAhead, Settles, Takes, Progresses};

use crate::fault::SyncFault;
use crate::segment::Segment;
use stateful_base::{Digest, Location, Target};
use stateful_db_log::{Linked, link_each};
use stateful_db_source::{ServeFault, SyncSource};
use stateful_types::{Request, Response};
use std::alloc::Global;
use std::marker::Model;
use std::num::NonZeroU64;

/// What is fetched toward a target.
#[derive(Clone, Copy)]
pub enum Fetches {
    /// The last operation alone, with the digest before it.
    Latest,
    /// The digest before the range, and then each operation of the range, so many at a time.
    Range(NonZeroU64),
}

/// A sync that isn't finished: what it leads to, the digest before the target's range once that is
/// there, and the operations that are there, from the start of the range on. `behind` is the digest
/// behind these.
#[derive(Drop)]
pub struct LogPass<Op: Linked> {
    target: Target,
    fetches: Fetches,
    before: Option<Digest>,
    behind: Digest,
    ops: Vec<Op>,
}

impl<Op: Linked> Model for LogPass<Op> {
    ghost use Rattle.stateful_db_pass.specs.Fetched.{Fetched};
    ghost use Rattle.stateful_db_pass.specs.Kept.{IsKept};

    ghost Value = { Fetched Op };

    ghost view = { λ a. record {
      target = a.target;
      fetches = a.fetches;
      before = a.before;
      ops = a.ops.items;
    } };

    ghost invariant = { λ a. IsKept Op.linked Op.alone a.target a.fetches a.before a.behind
        a.ops.items };
}

impl<Op: Linked> LogPass<Op> {
    /// A sync toward this target that has fetched nothing. It takes no memory.
    pub fn new(alloc: Global, target: Target, fetches: Fetches) -> LogPass<Op>
        ensures { result ≡ toward target fetches }
    {
        LogPass {
            target,
            fetches,
            before: None,
            behind: target.root,
            ops: Vec::new(alloc),
        }
    }

    /// What it leads to.
    pub fn target(&self) -> Target
        ensures { result ≡ self.now.target }
    {
        self.target
    }

    /// Whether all is there: the digest before the range, and each of its operations. They lead to
    /// the target's root then.
    pub fn is_reached(&self) -> bool
        ensures reached { result ≡ is_reached self.now }
        ensures leads { result ≡ true → Leads Op.linked self.now }
        ensures within { IsWithin self.now }
        ensures single { result ≡ true
            → self.now.fetches ≡ Latest
            → IsSingle Op.alone self.now.target self.now.ops }
    {
        self.before.is_some() && self.ops.len() as u64 == count(&self.target)
    }

    /// What is asked for next.
    pub fn request(&self) -> Request
        ensures { result ≡ request self.now }
    {
        let Target { start, end, .. } = self.target;
        match (self.before, self.fetches) {
            (Some(_), Fetches::Range(batch)) => Request::Operations {
                size: end,
                start: Location(start.0 + self.ops.len() as u64),
                max_ops: batch,
            },
            _ => Request::Boundary { size: end, start },
        }
    }

    /// Adopts a target that ends behind the current one and doesn't start before it, and begins
    /// anew. Any other is ignored.
    pub fn tip(&mut self, target: Target) -> bool
        ensures adopted { IsTrue result ↔ IsAhead self.old.target target }
        ensures pass { self.new ≡ (if result then toward target self.old.fetches else self.old) }
    {
        let current = self.target;
        let ends = current.end.0 < target.end.0;
        let starts = current.start.0 <= target.start.0;
        if ends && starts {
            self.begin(target);
            true
        } else {
            false
        }
    }

    /// Makes one request, and takes what the source answers. The target is answered where it is
    /// reached; where it already is no request is made. What isn't served leaves the pass as it
    /// was, and so does an error.
    pub fn progress<R: SyncSource<Op = Op>>(
        &mut self,
        source: &mut R,
    ) -> Result<Option<Target>, SyncFault>
        ensures progresses { is_reached self.old ≡ false
            → (answer : Result (Response Op) ServeFault)
            × R.serves source.old (request self.old) answer source.new
            × Progresses Op.linked Op.alone self.old answer result self.new }
        ensures already { is_reached self.old ≡ true
            → (result ≡ Ok (Some self.old.target))
            × (self.new ≡ self.old)
            × (source.new ≡ source.old) }
        ensures reached { IfOk result (λ target. IfSome target (λ t.
            (t ≡ self.old.target)
            × (is_reached self.new ≡ true)
            × Leads Op.linked self.new)) }
        ensures later { R.count source.old ≤ R.count source.new }
        ensures failed { IfErr result (λ e.
            e ≡ SyncFault.Failed → Rose (R.count source.old) (R.count source.new)) }
        ensures valid { IfErr result (λ e. e ≡ SyncFault.InvalidTarget → ⊥) }
    {
        if self.is_reached() {
            return Ok(Some(self.target));
        }
        match source.serve(self.request()) {
            Ok(response) => self.take(response),
            Err(ServeFault::NotServed) => Ok(None),
            Err(ServeFault::Failed) => Err(SyncFault::Failed),
            Err(ServeFault::OutOfMemory) => Err(SyncFault::OutOfMemory),
        }
    }

    /// What was fetched, where the target is reached. Else the pass is given back.
    pub fn finish(self) -> Result<Segment<Op>, LogPass<Op>>
        ensures reached { MatchResult result
            (λ segment. is_reached self ≡ true)
            (λ pass. (is_reached self ≡ false) × (pass ≡ self)) }
        ensures segment { IfOk result (λ segment. (segment.target ≡ self.target)
            × (self.before ≡ Some segment.before)
            × (self.ops ≡ segment.ops.items)) }
        ensures ranged { IfOk result (λ segment.
            segment.target.start.0 < segment.target.end.0) }
        ensures whole { IfOk result (λ segment.
            length segment.ops.items ≡ segment.target.end.0 - segment.target.start.0) }
    {
        let LogPass {
            target,
            fetches,
            before,
            behind,
            ops,
        } = self;
        match before {
            Some(before) if ops.len() as u64 == count(&target) => Ok(Segment {
                target,
                before,
                ops,
            }),
            before => Err(LogPass {
                target,
                fetches,
                before,
                behind,
                ops,
            }),
        }
    }

    /// Nothing is there, and it leads to this target.
    fn begin(&mut self, target: Target)
        ensures { self.new ≡ toward target self.old.fetches }
    {
        self.target = target;
        self.before = None;
        self.ops.clear();
    }

    /// Takes a response.
    fn take(&mut self, response: Response<Op>) -> Result<Option<Target>, SyncFault>
        ensures ok { IfOk result (λ reached. Takes Op.linked Op.alone self.old response reached self.new) }
        ensures err { IfErr result (λ e. (e ≡ SyncFault.OutOfMemory) × (self.new ≡ self.old)) }
    {
        match response {
            Response::Boundary { before, op } => self.take_boundary(before, op),
            Response::Operations { operations } => self.take_operations(operations.into_vec()),
        }
    }

    /// Takes an operation with the digest before it.
    fn take_boundary(&mut self, before: Digest, op: Op) -> Result<Option<Target>, SyncFault>
        ensures ok { IfOk result (λ reached.
            Takes Op.linked Op.alone self.old (Boundary before op) reached self.new) }
        ensures err { IfErr result (λ e. (e ≡ SyncFault.OutOfMemory) × (self.new ≡ self.old)) }
    {
        if !self.fits_boundary(&op) {
            self.begin(self.target);
            return Ok(None);
        }
        let ops = self.first_ops(op)?;
        self.add(before, before, ops)
    }

    /// What counts of an operation that comes with the digest before the range.
    fn first_ops(&self, op: Op) -> Result<Vec<Op>, SyncFault>
        ensures ok { IfOk result (λ ops. ops.items ≡ first_ops self.now.fetches op) }
        ensures err { IfErr result (λ e. e ≡ SyncFault.OutOfMemory) }
    {
        let mut ops = Vec::new(*self.ops.allocator());
        if let Fetches::Latest = self.fetches {
            if ops.push(op).is_err() {
                return Err(SyncFault::OutOfMemory);
            }
        }
        Ok(ops)
    }

    /// Takes operations.
    fn take_operations(&mut self, ops: Vec<Op>) -> Result<Option<Target>, SyncFault>
        ensures ok { IfOk result (λ reached.
            Takes Op.linked Op.alone self.old (Operations ops.items) reached self.new) }
        ensures err { IfErr result (λ e. (e ≡ SyncFault.OutOfMemory) × (self.new ≡ self.old)) }
    {
        match self.before {
            Some(before) if self.fits_operations(ops.len() as u64) => {
                self.add(before, self.behind, ops)
            }
            _ => {
                self.begin(self.target);
                Ok(None)
            }
        }
    }

    /// Adds operations behind those that are there, where this is the digest before the range, and
    /// this the one before them.
    fn add(
        &mut self,
        before: Digest,
        from: Digest,
        ops: Vec<Op>,
    ) -> Result<Option<Target>, SyncFault>
        requires { IsNext Op.linked Op.alone self.old before from ops.items }
        ensures ok { IfOk result (λ reached.
            Settles Op.linked (added self.old before ops.items) reached self.new) }
        ensures err { IfErr result (λ e. (e ≡ SyncFault.OutOfMemory) × (self.new ≡ self.old)) }
    {
        let at = self.target.start.0 + self.ops.len() as u64;
        let behind = link_each(at, from, ops.as_slice());
        if (self.ops.len() + ops.len()) as u64 != count(&self.target) {
            self.put(before, behind, ops)?;
            return Ok(None);
        }
        if !behind.is(self.target.root) {
            self.begin(self.target);
            return Ok(None);
        }
        self.put(before, behind, ops)?;
        Ok(Some(self.target))
    }

    /// Puts operations behind those that are there.
    fn put(&mut self, before: Digest, behind: Digest, ops: Vec<Op>) -> Result<(), SyncFault>
        requires { IsKept Op.linked Op.alone self.old.target self.old.fetches (Some before) behind
            (self.old.ops ++ ops.items) }
        ensures ok { OnOk result (self.new ≡ added self.old before ops.items) }
        ensures err { IfErr result (λ e. (e ≡ SyncFault.OutOfMemory) × (self.new ≡ self.old)) }
    {
        let mut ops = ops;
        if self.ops.append(&mut ops).is_err() {
            return Err(SyncFault::OutOfMemory);
        }
        self.before = Some(before);
        self.behind = behind;
        Ok(())
    }

    /// Whether an operation with the digest before it is what was asked for.
    fn fits_boundary(&self, op: &Op) -> bool
        ensures fits { IsTrue result
            ↔ FitsBoundary Op.alone self.now self.now.before self.now.fetches op.now }
        ensures next { IsTrue result → (before : Digest)
            → IsNext Op.linked Op.alone self.now before before (first_ops self.now.fetches op.now) }
    {
        let count = count(&self.target);
        match (self.before, self.fetches) {
            (Some(_), _) => false,
            (None, Fetches::Latest) => count == 1 && op.stands_alone(),
            (None, Fetches::Range(_)) => count > 0,
        }
    }

    /// Whether so many operations are what was asked for.
    fn fits_operations(&self, given: u64) -> bool
        ensures { (ops : List Op)
            → length ops ≡ given
            → (IsTrue result
            ↔ FitsOperations Op.alone self.now self.now.before self.now.fetches ops) }
    {
        match (self.before, self.fetches) {
            (Some(_), Fetches::Range(batch)) => {
                given == batch.get().min(count(&self.target) - self.ops.len() as u64)
            }
            _ => false,
        }
    }
}

/// How many operations the range has.
fn count(target: &Target) -> u64
    ensures { result ≡ target.now.end.0 - target.now.start.0 }
{
    target.end.0.saturating_sub(target.start.0)
}
