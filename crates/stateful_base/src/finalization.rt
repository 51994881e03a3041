//! Finalizations: which block is final, and what shows it.

ghost use Rattle.std.specs.Prelude.{◌≡◌, ◌+◌, ◌-◌, ◌^◌, ◌<◌, length};
ghost use Rattle.stateful_base.specs.Format.{Reads, Writes};
ghost use Rattle.stateful_base.specs.Finalization.{finalization_format};

use crate::codec::{CodecError, read_u64, write_u64};
use crate::digest::Digest;
use crate::number::View;
use crate::round::Round;
use crate::scheme::Scheme;
use crate::share::{OutOfMemory, Share};
use bytes::Bytes;
use std::alloc::Global;

/// The block of a round is final: the view of its parent, its digest, and the certificate of it.
#[derive(Drop)]
pub struct Finalization<C> {
    pub round: Round,
    pub parent: View,
    pub payload: Digest,
    pub certificate: C,
}

impl<C> Finalization<C> {
    /// Appends the round, the parent's view, the payload, and the certificate.
    pub fn write<S: Scheme<Certificate = C>>(&self, out: &mut Vec<u8>) -> Result<(), OutOfMemory>
        ensures { Writes (finalization_format S.certificates) self.now result
            out.old.items out.new.items }
    {
        self.round.write(out)?;
        write_u64(self.parent.0, out)?;
        self.payload.write(out)?;
        S::write_certificate(&self.certificate, out)
    }

    /// Takes a finalization. Bytes after it are left unread.
    pub fn read<S: Scheme<Certificate = C>>(
        alloc: Global,
        input: &mut Bytes,
    ) -> Result<Finalization<C>, CodecError>
        ensures { Reads (finalization_format S.certificates) result input.old input.new }
    {
        let round = Round::read(input)?;
        let parent = View(read_u64(input)?);
        let payload = Digest::read(input)?;
        let certificate = S::read_certificate(alloc, input)?;
        Ok(Finalization {
            round,
            parent,
            payload,
            certificate,
        })
    }

    /// How many bytes it has: 56 and the certificate's.
    pub fn encode_size<S: Scheme<Certificate = C>>(&self) -> usize
        ensures formula { result ≡ 56 + length (S.certificates.spelling self.now.certificate) }
        ensures size { result ≡ length ((finalization_format S.certificates).spelling self.now) }
        ensures limit { result < 2 ^ 64 - 8 }
    {
        56 + S::certificate_size(&self.certificate)
    }
}

impl<C: Share> Share for Finalization<C> {
    fn share(&self) -> Result<Finalization<C>, OutOfMemory> {
        Ok(Finalization {
            round: self.round,
            parent: self.parent,
            payload: self.payload,
            certificate: self.certificate.share()?,
        })
    }
}
