//! The operations of a log, by location.

ghost use Rattle.std.specs.Prelude.{◌≡◌, ◌-◌, ◌≤◌, ◌<◌, List, Some, None, length, slice_get, IfOk};
ghost use Rattle.std.specs.Option.{option_copied, SomeIff};
ghost use Rattle.stateful_db.specs.Disk.{all};
ghost use Rattle.stateful_db_medium.specs.declared.checkpoints.Checkpoint.{Checkpoint};
ghost use Rattle.stateful_db_log.specs.Between.{between};
ghost use Rattle.stateful_db_log.specs.Held.{digest_at, end_of};
ghost use Rattle.stateful_db_log.specs.Logs.{disk_of, standing_of, held_here};

use crate::linked::Linked;
use crate::log_medium::LogMedium;
use crate::open_log::OpenLog;
use stateful_base::{Digest, OutOfMemory, Share, Target};

impl<Op: Drop> OpenLog<Op> {
    /// The operation at a location of the newest checkpoint's range. None outside of the range.
    pub fn get(&self, at: u64) -> Option<&Op>
        ensures inside { let s = (standing_of self.now).disk.newest in
            s.target.start.0 ≤ at
            → option_copied result ≡ slice_get s.kept (at - s.target.start.0) }
        ensures below { at < (standing_of self.now).disk.newest.target.start.0 → result ≡ None }
    {
        let range = self.opened.newest().target;
        if at < range.start.0 || at >= range.end.0 {
            return None;
        }
        self.ops.get(at - self.first)
    }

    /// The location of the first operation that is held.
    pub fn first(&self) -> u64
        ensures { result ≡ (held_here self.now).first }
    {
        self.first
    }

    /// The operation that is held at a location, whether or not the newest checkpoint's range has
    /// it. None before the first one and behind the last.
    pub fn held(&self, at: u64) -> Option<&Op>
        ensures inside { let h = held_here self.now in
            h.first ≤ at
            → option_copied result ≡ slice_get h.ops (at - h.first) }
        ensures below { at < (held_here self.now).first → result ≡ None }
    {
        if at < self.first {
            return None;
        }
        self.ops.get(at - self.first)
    }
}

impl<Op: Share + Drop> OpenLog<Op> {
    /// Copies of the operations that are held from a location on, up to an end.
    pub fn share_between(&self, start: u64, end: u64) -> Result<Vec<Op>, OutOfMemory>
        requires low { (held_here self.now).first ≤ start }
        requires high { end ≤ end_of (held_here self.now) }
        ensures { let h = held_here self.now in
            IfOk result (λ copies. copies.items ≡ between h.first h.ops start end) }
    {
        let mut copies = Vec::new(self.allocator());
        for at in start..end {
            if let Some(op) = self.held(at) {
                copies.push(op.share()?)?;
            }
        }
        Ok(copies)
    }
}

impl<Op: Linked> OpenLog<Op> {
    /// The digest before the operation at a location. None before the first operation that is held,
    /// and behind the end of the newest checkpoint. It takes no memory.
    pub fn digest_at(&self, at: u64) -> Option<Digest>
        ensures { let h = held_here self.now in
            let end = (standing_of self.now).disk.newest.target.end.0 in
            SomeIff result ((h.first ≤ at) × (at ≤ end)) (digest_at Op.linked h at) }
    {
        let end = self.opened.newest().target.end;
        if at < self.first || at > end.0 {
            return None;
        }
        let digest = self
            .ops
            .link_first(at - self.first, self.first, self.before);
        Some(digest)
    }
}

impl<Op: Drop> LogMedium<Op> {
    /// The root of the kept checkpoint of this number, with its range.
    pub fn target(&self, number: usize) -> Target
        requires { number < length (all (disk_of self.now)) }
        ensures { (s : Checkpoint (List Op))
            → slice_get (all (disk_of self.now)) number ≡ Some s
            → result ≡ s.target }
    {
        self.medium.get(number).target
    }

    /// The operation at a location of the range of the kept checkpoint of this number. None outside
    /// of the range.
    pub fn get(&self, number: usize, at: u64) -> Option<&Op>
        requires { number < length (all (disk_of self.now)) }
        ensures { (s : Checkpoint (List Op))
            → slice_get (all (disk_of self.now)) number ≡ Some s
            → s.target.start.0 ≤ at
            → option_copied result ≡ slice_get s.kept (at - s.target.start.0) }
    {
        let range = self.medium.get(number).target;
        if at < range.start.0 || at >= range.end.0 {
            return None;
        }
        self.ops.get(at - self.first)
    }
}
