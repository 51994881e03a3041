//! Where bytes come from.

ghost use Rattle.std.specs.Prelude.{ℕ, ◌<◌, ◌≤◌, Option, List, length, IfOk, IsErrOf, IfSome};
ghost use Rattle.std.specs.Io.{ReadsAtMost};
ghost use Rattle.std.specs.Io.KnownBytes.{ReadConsumes, Consumes, IsAtEnd};
ghost use Rattle.stateful_base.specs.Causes.{Rose, HasCause};

use stateful_base::{Failed, Faulty};
use std::alloc::Global;
use thiserror::Error;

/// Where bytes come from.
pub trait Source: Faulty {
    ghost use Rattle.std.specs.Prelude.{ℕ, Option, List};
    ghost use Rattle.std.specs.Io.{ReadsAtMost};
    ghost use Rattle.std.specs.Io.KnownBytes.{ReadConsumes};
    ghost use Rattle.stateful_base.specs.Causes.{HasCause};

    /// The bytes that are left, where that is told.
    ghost left: { Self → Option (List ℕ) };

    /// Reads some bytes. `Ok(0)` on a nonempty buffer means the end.
    fn read(&mut self, buf: &mut [u8]) -> Result<usize, Failed>
        ensures bound { ReadsAtMost result buf.new }
        ensures bytes { ReadConsumes (left self.old) (left self.new) result buf.new }
        ensures cause { HasCause (Self.count self.old) (Self.count self.new) result };
}

/// Why not all was read.
#[derive(Clone, Copy, Debug, PartialEq, Eq, Error)]
pub enum ReadError {
    #[error("Failed")]
    Failed,
    #[error("TooLong")]
    TooLong,
    #[error("OutOfMemory")]
    OutOfMemory,
}

const PIECE: usize = 4096;

/// Reads to the end, at most `limit` bytes.
pub fn read_all<S: Source>(
    alloc: Global,
    limit: usize,
    source: &mut S,
) -> Result<Vec<u8>, ReadError>
    ensures all { IfOk result (λ read.
        Consumes (S.left source.old) (S.left source.new) read.items
        × IsAtEnd (S.left source.new)) }
    ensures within { IfOk result (λ read. length read.items ≤ limit) }
    ensures long { IsErrOf result ReadError.TooLong
        → IfSome (S.left source.old) (λ bytes. limit < length bytes) }
    ensures cause { IsErrOf result ReadError.Failed
        → Rose (S.count source.old) (S.count source.new) }
    ensures later { S.count source.old ≤ S.count source.new }
{
    let mut bytes = Vec::new(alloc);
    let mut piece = [0u8; PIECE];
    'reading: loop {
        let count = match source.read(&mut piece) {
            Ok(count) => count,
            Err(Failed) => return Err(ReadError::Failed),
        };
        if count == 0 {
            return Ok(bytes);
        }
        if count > limit - bytes.len() {
            return Err(ReadError::TooLong);
        }
        if bytes.extend_from_slice(&piece[..count]).is_err() {
            return Err(ReadError::OutOfMemory);
        }
    }
}
