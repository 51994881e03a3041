//! A database that serves nothing, and its operations.

use bytes::Bytes;
use stateful_db_source::{ServeFault, SyncSource};
use stateful_types::{
    CodecError, Faulty, Operation, OutOfMemory, Request, Response, Share, read_u64, write_u64,
};
use std::alloc::Global;

/// An operation of eight bytes.
#[derive(Clone, Copy)]
pub(crate) struct Number {
    value: u64,
}

impl Operation for Number {
    ghost use Rattle.std.specs.Prelude.{refl};
    ghost use Rattle.stateful_base.specs.Number.{u64_format};
    ghost use Rattle.stateful_base.specs.FixedLaws.{u64_alone};
    ghost use Rattle.stateful_base.specs.FormatLaws.{Rest-format};
    ghost use Rattle.stateful_p2p_bench.specs.declared.source.Number.{Number};

    ghost operations = { record {
      fits = λ number. u64_format.fits number.value;
      spelling = λ number. u64_format.spelling number.value;
    } };

    fn write(&self, out: &mut Vec<u8>) -> Result<(), OutOfMemory> {
        write_u64(self.value, out)
    }

    fn read(_alloc: Global, input: &mut Bytes) -> Result<Number, CodecError> {
        let value = read_u64(input)?;
        Ok(Number { value })
    }

    ghost lawful = { Rest-format _ u64_format (λ value. record { value = value })
        (record {
          fits =
              λ value fits. fits;
          spelled =
              λ value fits. refl;
          back = λ number bytes fits e. (number.value, fits, refl);
        })
        u64_alone };
}

impl Share for Number {
    fn share(&self) -> Result<Number, OutOfMemory> {
        Ok(*self)
    }
}

/// A database that serves nothing.
#[derive(Drop)]
pub(crate) struct Silent;

impl Faulty for Silent {
    ghost count = { λ silent. 0 };

    fn faults(&self) -> u64 {
        0
    }
}

impl SyncSource for Silent {
    type Op = Number;

    ghost serves = { λ before request answer after. Unit {0} };

    fn serve(&mut self, _request: Request) -> Result<Response<Number>, ServeFault> {
        Err(ServeFault::NotServed)
    }
}
