//! Operations of a database, as a server sends them.

use bytes::Bytes;
use stateful_base::{CodecError, OutOfMemory};
use std::alloc::Global;

/// An operation of a database, with its bytes.
pub trait Operation: Sized {
    ghost use Rattle.stateful_base.specs.Format.{Format, Reads, Writes, IsFormat};

    /// How operations are spelled.
    ghost operations: { Format Self };

    /// Appends the operation.
    fn write(&self, out: &mut Vec<u8>) -> Result<(), OutOfMemory>
        ensures { Writes operations self.now result out.old.items out.new.items };

    /// Takes an operation.
    fn read(alloc: Global, input: &mut Bytes) -> Result<Self, CodecError>
        ensures { Reads operations result input.old input.new };

    /// No operation's bytes begin another's.
    ghost lawful: { IsFormat operations };
}
