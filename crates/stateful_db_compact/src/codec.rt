//! Operations in bytes.

ghost use Rattle.stateful_base.specs.Format.{Reads, Writes};
ghost use Rattle.stateful_db_compact.specs.OpFormat.{metadata_format};

use crate::op::KeylessOp;
use bytes::Bytes;
use stateful_base::{CodecError, OutOfMemory, read_u8, read_u64, write_u8, write_u64};
use stateful_db_log::Field;
use stateful_types::Operation;
use std::alloc::Global;

impl<V: Field> Operation for KeylessOp<V> {
    ghost use Rattle.stateful_db_compact.specs.OpFormat.{keyless_format};
    ghost use Rattle.stateful_db_compact.specs.OpFormatLaws.{keyless_alone};

    ghost operations = { keyless_format V.fields };

    /// Appends byte 0, the metadata and the floor, or byte 1 and the value.
    fn write(&self, out: &mut Vec<u8>) -> Result<(), OutOfMemory> {
        match self {
            KeylessOp::Commit { metadata, floor } => {
                write_u8(0, out)?;
                write_metadata(metadata, out)?;
                write_u64(*floor, out)
            }
            KeylessOp::Append(value) => {
                write_u8(1, out)?;
                value.write(out)
            }
        }
    }

    fn read(alloc: Global, input: &mut Bytes) -> Result<KeylessOp<V>, CodecError> {
        match read_u8(input)? {
            0 => {
                let metadata = read_metadata(alloc, input)?;
                let floor = read_u64(input)?;
                Ok(KeylessOp::Commit { metadata, floor })
            }
            1 => {
                let value = V::read(alloc, input)?;
                Ok(KeylessOp::Append(value))
            }
            tag => Err(CodecError::InvalidEnum(tag)),
        }
    }

    ghost lawful = { keyless_alone V.fields V.lawful };
}

/// Appends byte 0, or byte 1 and the metadata.
fn write_metadata<V: Field>(metadata: &Option<V>, out: &mut Vec<u8>) -> Result<(), OutOfMemory>
    ensures { Writes (metadata_format V.fields) metadata.now result out.old.items out.new.items }
{
    match metadata {
        None => write_u8(0, out),
        Some(metadata) => {
            write_u8(1, out)?;
            metadata.write(out)
        }
    }
}

/// Takes metadata.
fn read_metadata<V: Field>(alloc: Global, input: &mut Bytes) -> Result<Option<V>, CodecError>
    ensures { Reads (metadata_format V.fields) result input.old input.new }
{
    match read_u8(input)? {
        0 => Ok(None),
        1 => {
            let metadata = V::read(alloc, input)?;
            Ok(Some(metadata))
        }
        tag => Err(CodecError::InvalidEnum(tag)),
    }
}
