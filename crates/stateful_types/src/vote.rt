//! Certificates of votes: the numbers of those who signed, with no signatures.

ghost use Rattle.std.specs.Prelude.{◌<◌, ◌↔◌, IsTrue, All};
ghost use Rattle.std.specs.List.Sorted.{IsStrictlyIncreasing};
ghost use Rattle.stateful_base.specs.Format.{Reads, Writes};
ghost use Rattle.stateful_base.specs.Number.{u32_format};
ghost use Rattle.stateful_types.specs.Items.{exactly_format};
ghost use Rattle.stateful_types.specs.Vote.{votes_format, IsQuorum};

use bytes::Bytes;
use stateful_base::{
    CodecError, Finalization, Items, OutOfMemory, Scheme, max_faults, read_u32, write_u32,
};
use std::alloc::Global;

/// A scheme in memory. Its certificates are lists of signers, by their numbers among the
/// participants.
#[derive(Debug, Drop)]
pub struct VoteScheme {
    pub participants: Items<u64>,
}

impl Scheme for VoteScheme {
    ghost use Rattle.std.specs.Prelude.{◌+◌, ◌*◌, length};
    ghost use Rattle.stateful_base.specs.FixedLaws.{u32_alone};
    ghost use Rattle.stateful_types.specs.ItemsLaws.{items_alone};
    ghost use Rattle.stateful_types.specs.VoteLaws.{votes_bounded};

    type Key = u64;

    type Certificate = Items<u32>;

    ghost certificates = { votes_format };

    ghost keys = { λ scheme. scheme.participants };

    ghost certifies = { λ scheme finalization.
        IsQuorum (length scheme.participants) finalization.certificate };

    ghost max_size = { λ participants. 4 + 4 * participants };

    fn participants(&self) -> &[u64] {
        self.participants.as_slice()
    }

    fn verify(&self, finalization: &Finalization<Items<u32>>) -> bool {
        let Ok(n) = u32::try_from(self.participants.len()) else {
            return false;
        };
        let signers = finalization.certificate.as_slice();
        signers.len() >= (n - max_faults(n)) as usize
            && are_ascending(signers)
            && are_below(signers, n)
    }

    fn write_certificate(certificate: &Items<u32>, out: &mut Vec<u8>) -> Result<(), OutOfMemory> {
        write_signers(certificate, out)
    }

    fn read_certificate(alloc: Global, input: &mut Bytes) -> Result<Items<u32>, CodecError> {
        let count = read_u32(input)?;
        read_signers(alloc, count, input)
    }

    fn certificate_size(certificate: &Items<u32>) -> usize {
        let signers = certificate.as_slice();
        4 + 4 * signers.len()
    }

    fn max_certificate_size(participants: u32) -> usize {
        4 + 4 * participants as usize
    }

    ghost lawful = { items_alone u32_format u32_alone };

    ghost bounded = { λ scheme finalization participants certified few small.
        votes_bounded certified few };
}

/// Appends the number of signers, and the number of each.
fn write_signers(signers: &Items<u32>, out: &mut Vec<u8>) -> Result<(), OutOfMemory>
    ensures { Writes votes_format signers.now result out.old.items out.new.items }
{
    let Ok(count) = u32::try_from(signers.len()) else {
        return Err(OutOfMemory);
    };
    write_u32(count, out)?;
    for signer in signers.as_slice() {
        write_u32(*signer, out)?;
    }
    Ok(())
}

/// Takes so many signers.
fn read_signers(alloc: Global, count: u32, input: &mut Bytes) -> Result<Items<u32>, CodecError>
    ensures { Reads (exactly_format count u32_format) result input.old input.new }
{
    let mut signers = Items::new(alloc);
    for _ in 0..count {
        signers.push(read_u32(input)?)?;
    }
    Ok(signers)
}

/// Whether each number is below the next.
fn are_ascending(numbers: &[u32]) -> bool
    ensures { IsTrue result ↔ IsStrictlyIncreasing numbers.now }
{
    numbers.windows(2).all(|pair| pair[0] < pair[1])
}

/// Whether each number is below `n`.
fn are_below(numbers: &[u32], n: u32) -> bool
    ensures { IsTrue result ↔ All (λ number. number < n) numbers.now }
{
    numbers.iter().all(|number| *number < n)
}
