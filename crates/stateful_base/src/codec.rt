//! Reading values from the front of some bytes, and writing them behind others. All numbers have a
//! fixed width, the highest byte first.

ghost use Rattle.std.specs.Prelude.{◌≡◌, drop, IsErrOf};
ghost use Rattle.stateful_base.specs.Format.{Reads, Writes, end_of};
ghost use Rattle.stateful_base.specs.Number.{u8_format, u32_format, u64_format, bytes_format};
ghost use Rattle.stateful_base.specs.declared.codec.CodecError.TheVariants as errors;

use crate::share::OutOfMemory;
use bytes::Bytes;
use std::alloc::{AllocError, AllocFailed};
use thiserror::Error;

/// Why no value was read. It is the first fault of the bytes, from the left.
#[derive(Clone, Copy, Debug, PartialEq, Eq, Error)]
pub enum CodecError {
    /// A byte stands there that no case has.
    #[error("InvalidEnum")]
    InvalidEnum(u8),
    /// The bytes end inside a value.
    #[error("EndOfBuffer")]
    EndOfBuffer,
    #[error("OutOfMemory")]
    OutOfMemory,
}

impl From<OutOfMemory> for CodecError {
    ghost from_gives = { λ _ e. e ≡ errors.OutOfMemory };

    fn from(_refused: OutOfMemory) -> CodecError {
        CodecError::OutOfMemory
    }
}

impl From<AllocError> for CodecError {
    ghost from_gives = { λ _ e. e ≡ errors.OutOfMemory };

    fn from(_refused: AllocError) -> CodecError {
        CodecError::OutOfMemory
    }
}

impl<T: Drop> From<AllocFailed<T>> for CodecError {
    ghost from_gives = { λ _ e. e ≡ errors.OutOfMemory };

    fn from(_refused: AllocFailed<T>) -> CodecError {
        CodecError::OutOfMemory
    }
}

/// Appends a byte.
pub fn write_u8(n: u8, out: &mut Vec<u8>) -> Result<(), OutOfMemory>
    ensures { Writes u8_format n result out.old.items out.new.items }
{
    out.push(n)?;
    Ok(())
}

/// Appends a number in four bytes.
pub fn write_u32(n: u32, out: &mut Vec<u8>) -> Result<(), OutOfMemory>
    ensures { Writes u32_format n result out.old.items out.new.items }
{
    out.extend_from_slice(&n.to_be_bytes())?;
    Ok(())
}

/// Appends a number in eight bytes.
pub fn write_u64(n: u64, out: &mut Vec<u8>) -> Result<(), OutOfMemory>
    ensures { Writes u64_format n result out.old.items out.new.items }
{
    out.extend_from_slice(&n.to_be_bytes())?;
    Ok(())
}

/// Takes a byte. It takes no memory.
pub fn read_u8(input: &mut Bytes) -> Result<u8, CodecError>
    ensures reads { Reads u8_format result input.old input.new }
    ensures memory { IsErrOf result CodecError.OutOfMemory → ⊥ }
{
    Ok(u8::from_be_bytes(read_array(input)?))
}

/// Takes a number of four bytes. It takes no memory.
pub fn read_u32(input: &mut Bytes) -> Result<u32, CodecError>
    ensures reads { Reads u32_format result input.old input.new }
    ensures memory { IsErrOf result CodecError.OutOfMemory → ⊥ }
{
    Ok(u32::from_be_bytes(read_array(input)?))
}

/// Takes a number of eight bytes. It takes no memory.
pub fn read_u64(input: &mut Bytes) -> Result<u64, CodecError>
    ensures reads { Reads u64_format result input.old input.new }
    ensures memory { IsErrOf result CodecError.OutOfMemory → ⊥ }
{
    Ok(u64::from_be_bytes(read_array(input)?))
}

/// Whether nothing is left behind a whole value. Bytes that are left over are refused at the first
/// of them.
pub fn end_of(input: &Bytes) -> Result<(), CodecError>
    ensures { result ≡ end_of input.now }
{
    match input.as_slice().first() {
        Some(byte) => Err(CodecError::InvalidEnum(*byte)),
        None => Ok(()),
    }
}

/// Takes `N` bytes, as they are. It takes no memory.
pub(crate) fn read_array<const N: usize>(input: &mut Bytes) -> Result<[u8; N], CodecError>
    ensures reads { Reads (bytes_format N) result input.old input.new }
    ensures memory { IsErrOf result CodecError.OutOfMemory → ⊥ }
{
    let front = first_bytes(input.as_slice())?;
    input.advance(N);
    Ok(front)
}

/// The first `N` bytes.
fn first_bytes<const N: usize>(bytes: &[u8]) -> Result<[u8; N], CodecError>
    ensures reads { Reads (bytes_format N) result bytes.now (drop N bytes.now) }
    ensures memory { IsErrOf result CodecError.OutOfMemory → ⊥ }
{
    let Some(front) = bytes.first_chunk::<N>() else {
        return Err(CodecError::EndOfBuffer);
    };
    let front = *front;
    Ok(front)
}
