//! Keys and values of operations.

ghost use Rattle.std.specs.Prelude.{◌≡◌, IfOk};

use bytes::Bytes;
use sha2::{Digest as Hasher, Sha256};
use stateful_base::{CodecError, Digest, OutOfMemory, read_u64, write_u64};
use std::alloc::Global;

/// A key or a value of an operation, with its bytes.
pub trait Field: Ord + Sized + Drop {
    ghost use Rattle.std.specs.Prelude.{◌≡◌, ◌++◌, ℕ, List, IfOk};
    ghost use Rattle.sha2.specs.Hashers.{Holds256};
    ghost use Rattle.std.specs.declared.cmp.Ordering.TheVariants.{Equal};
    ghost use Rattle.stateful_base.specs.Format.{Format, Reads, Writes, IsFormat};

    /// How fields are spelled.
    ghost fields: { Format Self };

    /// Appends the field.
    fn write(&self, out: &mut Vec<u8>) -> Result<(), OutOfMemory>
        ensures { Writes fields self.now result out.old.items out.new.items };

    /// Adds the field's bytes to a message.
    fn add_to(&self, hasher: &mut Sha256)
        ensures { (m : List ℕ)
            → Holds256 hasher.old m
            → Holds256 hasher.new (m ++ fields.spelling self.now) };

    /// Takes a field.
    fn read(alloc: Global, input: &mut Bytes) -> Result<Self, CodecError>
        ensures { Reads fields result input.old input.new };

    /// An equal field.
    fn duplicate(&self) -> Result<Self, OutOfMemory>
        ensures { IfOk result (λ copy. copy ≡ self.now) };

    /// No field's bytes begin another's.
    ghost lawful: { IsFormat fields };

    /// Fields that compare alike are one.
    ghost exact: { (a b : Self) → Self.Ord.cmp a b ≡ Equal → a ≡ b };
}

impl Field for u64 {
    ghost use Rattle.stateful_base.specs.Number.{u64_format};
    ghost use Rattle.stateful_base.specs.FixedLaws.{u64_alone};
    ghost use Rattle.std.proofs.lemmas.Map.Lookups.{exact_unsigned};

    ghost fields = { u64_format };

    fn write(&self, out: &mut Vec<u8>) -> Result<(), OutOfMemory> {
        write_u64(*self, out)
    }

    fn add_to(&self, hasher: &mut Sha256) {
        hasher.update(&self.to_be_bytes());
    }

    fn read(_alloc: Global, input: &mut Bytes) -> Result<u64, CodecError> {
        read_u64(input)
    }

    fn duplicate(&self) -> Result<u64, OutOfMemory> {
        Ok(*self)
    }

    ghost lawful = { u64_alone };

    ghost exact = { exact_unsigned };
}

impl Field for Digest {
    ghost use Rattle.stateful_base.specs.Digest.{digest_format};
    ghost use Rattle.stateful_db_log.specs.Digests.{digest_alone, digest_exact};

    ghost fields = { digest_format };

    fn write(&self, out: &mut Vec<u8>) -> Result<(), OutOfMemory> {
        Digest::write(self, out)
    }

    fn add_to(&self, hasher: &mut Sha256) {
        hasher.update(&self.0);
    }

    fn read(_alloc: Global, input: &mut Bytes) -> Result<Digest, CodecError> {
        Digest::read(input)
    }

    fn duplicate(&self) -> Result<Digest, OutOfMemory> {
        Ok(*self)
    }

    ghost lawful = { digest_alone };

    ghost exact = { digest_exact };
}
