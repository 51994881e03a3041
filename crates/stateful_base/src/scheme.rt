//! Schemes of certificates: who takes part, and which certificates of a finalization hold.

ghost use Rattle.std.specs.Prelude.{◌≡◌};
ghost use Rattle.stateful_base.specs.Scheme.{max_faults};

use crate::codec::CodecError;
use crate::finalization::Finalization;
use crate::share::{OutOfMemory, Share};
use bytes::Bytes;
use std::alloc::Global;

/// How many of `n` participants may be faulty: fewer than a third of them, and none of none.
pub fn max_faults(n: u32) -> u32
    ensures { result ≡ max_faults n }
{
    n.saturating_sub(1) / 3
}

/// A scheme of certificates with its participants.
pub trait Scheme {
    ghost use Rattle.std.specs.Prelude.{◌≡◌, ◌↔◌, ◌-◌, ◌^◌, ◌<◌, ◌≤◌, ℕ, List, length, IsTrue};
    ghost use Rattle.stateful_base.specs.Format.{Format, Reads, Writes, IsFormat};
    ghost use Rattle.stateful_base.specs.declared.finalization.Finalization.{Finalization};

    /// What a participant is known by.
    type Key: Ord + Copy;

    /// What shows that a block is final.
    type Certificate: Share + Drop;

    /// How certificates are spelled.
    ghost certificates: { Format Self.Certificate };

    /// The participants' keys.
    ghost keys: { Self → List Self.Key };

    /// The finalization's certificate holds.
    ghost certifies: { Self → Finalization Self.Certificate → Type 0 };

    /// The greatest size of a certificate that holds, of at most so many participants.
    ghost max_size: { ℕ → ℕ };

    /// The participants, in the order of their numbers.
    fn participants(&self) -> &[Self::Key]
        ensures { result.now ≡ keys self.now };

    /// Whether the finalization's certificate holds.
    fn verify(&self, finalization: &Finalization<Self::Certificate>) -> bool
        ensures { IsTrue result ↔ certifies self.now finalization.now };

    /// Appends a certificate.
    fn write_certificate(
        certificate: &Self::Certificate,
        out: &mut Vec<u8>,
    ) -> Result<(), OutOfMemory>
        ensures { Writes certificates certificate.now result out.old.items out.new.items };

    /// Takes a certificate.
    fn read_certificate(alloc: Global, input: &mut Bytes) -> Result<Self::Certificate, CodecError>
        ensures { Reads certificates result input.old input.new };

    /// How many bytes a certificate has.
    fn certificate_size(certificate: &Self::Certificate) -> usize
        ensures size { result ≡ length (certificates.spelling certificate.now) }
        ensures limit { result < 2 ^ 64 - 64 };

    /// How many bytes a certificate that holds has at most, of at most so many participants.
    fn max_certificate_size(participants: u32) -> usize
        ensures size { result ≡ max_size participants }
        ensures limit { result < 2 ^ 64 - 64 };

    /// No certificate's bytes begin another's.
    ghost lawful: { IsFormat certificates };

    /// No certificate that holds is longer.
    ghost bounded: { (scheme : Self) (finalization : Finalization Self.Certificate) (participants : ℕ)
        → certifies scheme finalization
        → length (keys scheme) ≤ participants
        → participants < 2 ^ 32
        → length (certificates.spelling finalization.certificate) ≤ max_size participants };
}
