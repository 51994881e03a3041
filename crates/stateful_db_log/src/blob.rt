//! Byte strings as fields.

ghost use Rattle.std.specs.Prelude.{◌≡◌, ◌+◌, ◌<◌, ◌≤◌, ◌^◌, IfOk, IfErr, length, take, drop, Ok, Err};
ghost use Rattle.std.specs.Option.{SomeIff};
ghost use Rattle.stateful_base.specs.Format.{Stands};
ghost use Rattle.stateful_db_log.specs.Blobs.{blob_format};

use crate::field::Field;
use bytes::Bytes;
use sha2::{Digest as Hasher, Sha256};
use stateful_base::{CodecError, OutOfMemory, write_u32};
use std::alloc::Global;
use std::cmp::Ordering;
use std::marker::Model;

/// At most 65,535 bytes, which contracts see as a list. They are spelled behind their number in
/// four bytes, and ordered by their bytes from the first on.
#[derive(Debug, Drop)]
pub struct Blob {
    bytes: Vec<u8>,
}

impl Model for Blob {
    ghost use Rattle.std.specs.Prelude.{ℕ, List, length, ◌<◌, ◌^◌};

    ghost Value = { List ℕ };

    ghost view = { λ a. a.bytes.items };

    ghost invariant = { λ a. length a.bytes.items < 2 ^ 16 };
}

impl Blob {
    /// These bytes. None exactly where there are more than 65,535.
    pub fn new(bytes: Vec<u8>) -> Option<Blob>
        ensures { SomeIff result (length bytes.items < 2 ^ 16) bytes.items }
    {
        if bytes.len() < 65_536 {
            Some(Blob { bytes })
        } else {
            None
        }
    }

    /// Its bytes.
    pub fn as_slice(&self) -> &[u8]
        ensures { result.now ≡ self.now }
    {
        self.bytes.as_slice()
    }
}

impl PartialEq for Blob {
    ghost use Rattle.std.specs.Prelude.{nat_eq};
    ghost use Rattle.std.specs.Cmp.{partial_equiv_from_equiv};
    ghost use Rattle.std.specs.Cmp.Lexicographic.{pointwise, nat_list_eq_equiv};

    ghost eq = { pointwise nat_eq };

    ghost laws = { partial_equiv_from_equiv nat_list_eq_equiv };

    fn eq(&self, other: &Blob) -> bool {
        self.as_slice() == other.as_slice()
    }
}

impl Eq for Blob {
    ghost use Rattle.std.specs.Cmp.Lexicographic.{nat_list_eq_equiv};

    ghost laws = { nat_list_eq_equiv };
}

impl PartialOrd for Blob {
    ghost use Rattle.std.specs.Prelude.{Some};
    ghost use Rattle.std.specs.Ordering.{nat_cmp};
    ghost use Rattle.std.specs.Cmp.Lexicographic.{slice_cmp, texts_po};

    ghost partial_cmp = { λ x y. Some (slice_cmp nat_cmp x y) };

    ghost laws = { texts_po };

    fn partial_cmp(&self, other: &Blob) -> Option<Ordering> {
        Some(self.cmp(other))
    }
}

impl Ord for Blob {
    ghost use Rattle.std.specs.Prelude.{refl};
    ghost use Rattle.std.specs.Ordering.{nat_cmp};
    ghost use Rattle.std.specs.Cmp.Lexicographic.{slice_cmp, nat_list_cmp_total, texts_ties};

    ghost cmp = { slice_cmp nat_cmp };

    ghost total = { nat_list_cmp_total };

    ghost matches_partial_cmp = { λ x y. refl };

    ghost matches_eq = { texts_ties };

    fn cmp(&self, other: &Blob) -> Ordering {
        self.as_slice().cmp(other.as_slice())
    }
}

impl Field for Blob {
    ghost use Rattle.stateful_db_log.specs.Blobs.{blob_format, blob_alone};
    ghost use Rattle.std.proofs.lemmas.Map.Lookups.{exact_bytes};

    ghost fields = { blob_format };

    fn write(&self, out: &mut Vec<u8>) -> Result<(), OutOfMemory> {
        write_u32(self.bytes.len() as u32, out)?;
        out.extend_from_slice(self.bytes.as_slice())?;
        Ok(())
    }

    fn add_to(&self, hasher: &mut Sha256) {
        hasher.update(&(self.bytes.len() as u32).to_be_bytes());
        hasher.update(self.bytes.as_slice());
    }

    /// Takes a byte string. A length above 65,535 is refused at its first byte that isn't 0. A
    /// refusal takes nothing.
    fn read(alloc: Global, input: &mut Bytes) -> Result<Blob, CodecError> {
        let count = count_in(input.as_slice())?;
        let bytes = Vec::from_slice(alloc, &input.as_slice()[4..4 + count])?;
        input.advance(4 + count);
        Ok(Blob { bytes })
    }

    fn duplicate(&self) -> Result<Blob, OutOfMemory> {
        let bytes = Vec::from_slice(*self.bytes.allocator(), self.bytes.as_slice())?;
        Ok(Blob { bytes })
    }

    ghost lawful = { blob_alone };

    ghost exact = { exact_bytes };
}

/// How many bytes the byte string has that stands first. This number is in the first four bytes, of
/// which the first two are 0.
fn count_in(bytes: &[u8]) -> Result<usize, CodecError>
    ensures ok { IfOk result (λ n.
        Stands blob_format bytes.now (Ok (take n (drop 4 bytes.now), drop (4 + n) bytes.now))) }
    ensures within { IfOk result (λ n. 4 + n ≤ length bytes.now) }
    ensures short { IfOk result (λ n. n < 2 ^ 16) }
    ensures err { IfErr result (λ e. Stands blob_format bytes.now (Err e)) }
{
    if bytes.is_empty() {
        return Err(CodecError::EndOfBuffer);
    }
    if bytes[0] != 0 {
        return Err(CodecError::InvalidEnum(bytes[0]));
    }
    if bytes.len() == 1 {
        return Err(CodecError::EndOfBuffer);
    }
    if bytes[1] != 0 {
        return Err(CodecError::InvalidEnum(bytes[1]));
    }
    if bytes.len() < 4 {
        return Err(CodecError::EndOfBuffer);
    }
    let count = bytes[2] as usize * 256 + bytes[3] as usize;
    if bytes.len() - 4 < count {
        return Err(CodecError::EndOfBuffer);
    }
    Ok(count)
}
