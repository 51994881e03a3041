//! Operations that stand in a chain of digests.

ghost use Rattle.std.specs.Prelude.{◌≡◌, ◌+◌, ◌-◌, ◌^◌, ◌≤◌, length};
ghost use Rattle.stateful_db_log.specs.Linking.{behind};

use stateful_base::Digest;

/// An operation that stands in a chain of digests: with the digest before a list of operations
/// there is one behind them.
pub trait Linked: Sized + Drop {
    ghost use Rattle.std.specs.Prelude.{◌≡◌, ℕ, Bool};
    ghost use Rattle.stateful_base.specs.declared.digest.Digest.{Digest};

    /// The digest behind an operation, by its location and the digest before it.
    ghost linked: { ℕ → Digest → Self → Digest };

    /// A database can be made from this operation alone.
    ghost alone: { Self → Bool };

    /// The digest behind the operation, which stands at this location and behind this digest. It
    /// takes no memory.
    fn link(&self, at: u64, before: Digest) -> Digest
        ensures { result ≡ linked at before self.now };

    /// Whether a database can be made from this operation alone.
    fn stands_alone(&self) -> bool
        ensures { result ≡ alone self.now };
}

/// The digest behind operations, of which the first stands at this location and behind this
/// digest.
pub fn link_each<Op: Linked>(at: u64, before: Digest, ops: &[Op]) -> Digest
    requires { at + length ops.now ≤ 2 ^ 64 - 1 }
    ensures { result ≡ behind Op.linked at before ops.now }
{
    let mut digest = before;
    for (i, op) in ops.iter().enumerate() {
        digest = op.link(at + i as u64, digest);
    }
    digest
}
