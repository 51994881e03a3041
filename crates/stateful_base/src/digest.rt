//! SHA-256 digests.

ghost use Rattle.std.specs.Prelude.{◌≡◌, ◌↔◌, IsTrue, IsErrOf};
ghost use Rattle.sha2.specs.Sha256.{sha256};
ghost use Rattle.stateful_base.specs.Format.{Reads, Writes};
ghost use Rattle.stateful_base.specs.Digest.{digest_format};

use crate::codec::{CodecError, read_array};
use crate::share::OutOfMemory;
use bytes::Bytes;
use sha2::Sha256;

/// The SHA-256 of some bytes: 32 bytes.
#[derive(Clone, Copy, Debug, PartialEq, Eq, PartialOrd, Ord, Hash)]
pub struct Digest(pub [u8; 32]);

impl Digest {
    /// The digest of these bytes.
    pub fn of(bytes: &[u8]) -> Digest
        ensures { result.0 ≡ sha256 bytes.now }
    {
        use sha2::Digest as Hasher;
        let mut hasher = Sha256::new();
        hasher.update(bytes);
        Digest(hasher.finalize())
    }

    /// Whether both are the same 32 bytes.
    pub fn is(self, other: Digest) -> bool
        ensures { IsTrue result ↔ (self ≡ other) }
    {
        self == other
    }

    /// Appends its 32 bytes.
    pub fn write(&self, out: &mut Vec<u8>) -> Result<(), OutOfMemory>
        ensures { Writes digest_format self.now result out.old.items out.new.items }
    {
        out.extend_from_slice(&self.0)?;
        Ok(())
    }

    /// Takes 32 bytes. It takes no memory.
    pub fn read(input: &mut Bytes) -> Result<Digest, CodecError>
        ensures reads { Reads digest_format result input.old input.new }
        ensures memory { IsErrOf result CodecError.OutOfMemory → ⊥ }
    {
        Ok(Digest(read_array(input)?))
    }
}
