//! What a syncing database asks of a server.

ghost use Rattle.std.specs.Prelude.{IsErrOf};
ghost use Rattle.stateful_base.specs.Format.{Reads, Writes};
ghost use Rattle.stateful_base.specs.Number.{nonzero_format};
ghost use Rattle.stateful_types.specs.Request.{request_format};

use bytes::Bytes;
use stateful_base::{CodecError, Location, OutOfMemory, read_u8, read_u64, write_u8, write_u64};
use std::num::NonZeroU64;

/// What is asked of a database that has `size` operations. Requests are ordered by their kind, and
/// then by their numbers.
#[derive(Clone, Copy, Debug, PartialEq, Eq, PartialOrd, Ord)]
pub enum Request {
    /// At most `max_ops` operations, from `start` on.
    Operations {
        size: Location,
        start: Location,
        max_ops: NonZeroU64,
    },
    /// The operation at `start`, and the digest of those before it.
    Boundary {
        size: Location,
        start: Location,
    },
}

impl Request {
    /// Appends byte 0 and three numbers, or byte 1 and two.
    pub fn write(&self, out: &mut Vec<u8>) -> Result<(), OutOfMemory>
        ensures { Writes request_format self.now result out.old.items out.new.items }
    {
        match self {
            Request::Operations {
                size,
                start,
                max_ops,
            } => {
                write_u8(0, out)?;
                size.write(out)?;
                start.write(out)?;
                write_u64(max_ops.get(), out)
            }
            Request::Boundary { size, start } => {
                write_u8(1, out)?;
                size.write(out)?;
                start.write(out)
            }
        }
    }

    /// Takes a request. A request for no operations is refused at the last byte of that 0. It takes
    /// no memory.
    pub fn read(input: &mut Bytes) -> Result<Request, CodecError>
        ensures reads { Reads request_format result input.old input.new }
        ensures memory { IsErrOf result CodecError.OutOfMemory → ⊥ }
    {
        match read_u8(input)? {
            0 => {
                let size = Location::read(input)?;
                let start = Location::read(input)?;
                let max_ops = read_nonzero(input)?;
                Ok(Request::Operations {
                    size,
                    start,
                    max_ops,
                })
            }
            1 => {
                let size = Location::read(input)?;
                let start = Location::read(input)?;
                Ok(Request::Boundary { size, start })
            }
            tag => Err(CodecError::InvalidEnum(tag)),
        }
    }
}

/// Takes a number of eight bytes that is not 0. A 0 is refused at its last byte.
fn read_nonzero(input: &mut Bytes) -> Result<NonZeroU64, CodecError>
    ensures reads { Reads nonzero_format result input.old input.new }
    ensures memory { IsErrOf result CodecError.OutOfMemory → ⊥ }
{
    match NonZeroU64::new(read_u64(input)?) {
        Some(n) => Ok(n),
        None => Err(CodecError::InvalidEnum(0)),
    }
}
