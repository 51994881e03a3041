//! Numbers with names.

ghost use Rattle.std.specs.Prelude.{◌+◌, ◌-◌, ◌^◌, ◌<◌, IsErrOf};
ghost use Rattle.std.specs.Option.{SomeIff};
ghost use Rattle.stateful_base.specs.Format.{Reads, Writes};
ghost use Rattle.stateful_base.specs.Number.{height_format, location_format};

use crate::codec::{CodecError, read_u64, write_u64};
use crate::share::OutOfMemory;
use bytes::Bytes;

/// A block's place in the chain, from 0 for genesis on.
#[derive(Clone, Copy, Debug, PartialEq, Eq, PartialOrd, Ord)]
pub struct Height(pub u64);

/// A period with one committee.
#[derive(Clone, Copy, Debug, PartialEq, Eq, PartialOrd, Ord)]
pub struct Epoch(pub u64);

/// A turn of a leader within an epoch.
#[derive(Clone, Copy, Debug, PartialEq, Eq, PartialOrd, Ord)]
pub struct View(pub u64);

/// A place in a log of operations, from 0 on.
#[derive(Clone, Copy, Debug, PartialEq, Eq, PartialOrd, Ord)]
pub struct Location(pub u64);

impl Height {
    /// One more. None exactly at the last value.
    pub fn next(self) -> Option<Height>
        ensures { SomeIff result (self.0 + 1 < 2 ^ 64) (record { 0 = self.0 + 1 }) }
    {
        match self.0.checked_add(1) {
            Some(next) => Some(Height(next)),
            None => None,
        }
    }

    /// One less. None exactly at 0.
    pub fn previous(self) -> Option<Height>
        ensures { SomeIff result (0 < self.0) (record { 0 = self.0 - 1 }) }
    {
        match self.0.checked_sub(1) {
            Some(previous) => Some(Height(previous)),
            None => None,
        }
    }

    /// Appends it in eight bytes.
    pub fn write(&self, out: &mut Vec<u8>) -> Result<(), OutOfMemory>
        ensures { Writes height_format self.now result out.old.items out.new.items }
    {
        write_u64(self.0, out)
    }

    /// Takes eight bytes. It takes no memory.
    pub fn read(input: &mut Bytes) -> Result<Height, CodecError>
        ensures reads { Reads height_format result input.old input.new }
        ensures memory { IsErrOf result CodecError.OutOfMemory → ⊥ }
    {
        Ok(Height(read_u64(input)?))
    }
}

impl Location {
    /// Appends it in eight bytes.
    pub fn write(&self, out: &mut Vec<u8>) -> Result<(), OutOfMemory>
        ensures { Writes location_format self.now result out.old.items out.new.items }
    {
        write_u64(self.0, out)
    }

    /// Takes eight bytes. It takes no memory.
    pub fn read(input: &mut Bytes) -> Result<Location, CodecError>
        ensures reads { Reads location_format result input.old input.new }
        ensures memory { IsErrOf result CodecError.OutOfMemory → ⊥ }
    {
        Ok(Location(read_u64(input)?))
    }
}
