//! The chain of digests over the operations of a log.

ghost use Rattle.std.specs.Prelude.{◌≡◌};
ghost use Rattle.stateful_db_log.specs.Chained.{linked};

use sha2::{Digest as Hasher, Sha256};
use stateful_base::Digest;

/// The digest behind one operation more: the SHA-256 of the digest before it, and its bytes.
pub fn link(before: Digest, operation: &[u8]) -> Digest
    ensures { result ≡ linked before operation.now }
{
    let mut hasher = Sha256::new();
    hasher.update(&before.0);
    hasher.update(operation);
    Digest(hasher.finalize())
}
