//! The bytes of operations.

ghost use Rattle.stateful_base.specs.Format.{Reads, Writes};
ghost use Rattle.stateful_db_any.specs.OpFormat.{metadata_format};

use crate::op::AnyOp;
use bytes::Bytes;
use stateful_base::{CodecError, OutOfMemory, read_u8, write_u8};
use stateful_db_log::Field;
use stateful_types::Operation;
use std::alloc::Global;

impl<K: Field, V: Field> Operation for AnyOp<K, V> {
    ghost use Rattle.stateful_db_any.specs.OpFormat.{any_format};
    ghost use Rattle.stateful_db_any.specs.OpLaws.{any_alone};

    ghost operations = { any_format K.fields V.fields };

    fn write(&self, out: &mut Vec<u8>) -> Result<(), OutOfMemory> {
        match self {
            AnyOp::Commit(metadata) => {
                write_u8(0, out)?;
                write_metadata(metadata, out)
            }
            AnyOp::Update(key, value) => {
                write_u8(1, out)?;
                key.write(out)?;
                value.write(out)
            }
            AnyOp::Delete(key) => {
                write_u8(2, out)?;
                key.write(out)
            }
        }
    }

    fn read(alloc: Global, input: &mut Bytes) -> Result<AnyOp<K, V>, CodecError> {
        match read_u8(input)? {
            0 => {
                let metadata = read_metadata(alloc, input)?;
                Ok(AnyOp::Commit(metadata))
            }
            1 => {
                let key = K::read(alloc, input)?;
                let value = V::read(alloc, input)?;
                Ok(AnyOp::Update(key, value))
            }
            2 => {
                let key = K::read(alloc, input)?;
                Ok(AnyOp::Delete(key))
            }
            tag => Err(CodecError::InvalidEnum(tag)),
        }
    }

    ghost lawful = { any_alone K.fields V.fields K.lawful V.lawful };
}

/// Appends byte 0, or byte 1 and the metadata.
fn write_metadata<V: Field>(metadata: &Option<V>, out: &mut Vec<u8>) -> Result<(), OutOfMemory>
    ensures { Writes (metadata_format V.fields) metadata.now result out.old.items out.new.items }
{
    match metadata {
        None => write_u8(0, out),
        Some(metadata) => {
            write_u8(1, out)?;
            metadata.write(out)
        }
    }
}

/// Takes the metadata of a commit.
fn read_metadata<V: Field>(alloc: Global, input: &mut Bytes) -> Result<Option<V>, CodecError>
    ensures { Reads (metadata_format V.fields) result input.old input.new }
{
    match read_u8(input)? {
        0 => Ok(None),
        1 => {
            let metadata = V::read(alloc, input)?;
            Ok(Some(metadata))
        }
        tag => Err(CodecError::InvalidEnum(tag)),
    }
}
