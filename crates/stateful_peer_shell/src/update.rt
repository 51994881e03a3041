//! An operation for a shell over the formats.

use bytes::Bytes;
use stateful_types::{
    CodecError, Operation, OutOfMemory, Share, read_u8, read_u64, write_u8, write_u64,
};
use std::alloc::Global;

/// An operation as a database sends it: byte 1, a key and a value.
#[derive(Clone, Copy)]
pub struct Update {
    pub key: u64,
    pub value: u64,
}

impl Operation for Update {
    ghost use Rattle.std.specs.Prelude.{◌∷◌, [], ◌++◌, refl};
    ghost use Rattle.stateful_peer_shell.specs.declared.update.Update.{Update};
    ghost use Rattle.stateful_base.specs.Number.{u64_format};
    ghost use Rattle.stateful_base.specs.FixedLaws.{u64_alone};
    ghost use Rattle.stateful_base.specs.FormatLaws.{both, IsFormat-both, Rest-whole};

    ghost operations = { record {
      fits = λ update. u64_format.fits update.key × u64_format.fits update.value;
      spelling =
          λ update. 1 ∷ [] ++ (u64_format.spelling update.key ++ u64_format.spelling update.value);
    } };

    fn write(&self, out: &mut Vec<u8>) -> Result<(), OutOfMemory> {
        write_u8(1, out)?;
        write_u64(self.key, out)?;
        write_u64(self.value, out)
    }

    fn read(_alloc: Global, input: &mut Bytes) -> Result<Update, CodecError> {
        match read_u8(input)? {
            1 => {
                let key = read_u64(input)?;
                let value = read_u64(input)?;
                Ok(Update { key, value })
            }
            tag => Err(CodecError::InvalidEnum(tag)),
        }
    }

    ghost lawful = { Rest-whole _ (1 ∷ []) (both u64_format u64_format) (λ p. record { key = p.0; value = p.1 })
        (record {
          fits =
              λ p fits. fits;
          spelled =
              λ p fits. refl;
          back =
              λ update bytes fits e. ((update.key, update.value), fits, refl);
        })
        (λ update fits. (u64_format.spelling update.key ++ u64_format.spelling update.value, refl))
        (IsFormat-both u64_format u64_format u64_alone u64_alone) };
}

impl Share for Update {
    fn share(&self) -> Result<Update, OutOfMemory> {
        Ok(*self)
    }
}
