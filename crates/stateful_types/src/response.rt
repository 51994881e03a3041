//! What a server answers to a syncing database.

ghost use Rattle.std.specs.Prelude.{◌≡◌, ◌↔◌, ◌%◌, ◌++◌, ◌^◌, ℕ, List, IsTrue, IfOk, IsErrOf};
ghost use Rattle.stateful_base.specs.Format.{Reads, Writes, UnlessMemory};
ghost use Rattle.stateful_types.specs.Items.{items_format, exactly_format};
ghost use Rattle.stateful_types.specs.Response.{response_format, Allows, IsAllowed, HasTooMany};

use crate::operation::Operation;
use crate::request::Request;
use bytes::Bytes;
use stateful_base::{
    CodecError, Digest, Items, OutOfMemory, Share, read_u8, read_u32, write_u8, write_u32,
};
use std::alloc::Global;

/// What a server answers to a request.
#[derive(Debug, Drop)]
pub enum Response<Op> {
    /// Operations, one behind the other.
    Operations { operations: Items<Op> },
    /// An operation, and the digest of those before it.
    Boundary { before: Digest, op: Op },
}

impl<Op: Operation> Response<Op> {
    /// Appends byte 0, the number of operations and each of them, or byte 1, the digest and the
    /// operation.
    pub fn write(&self, out: &mut Vec<u8>) -> Result<(), OutOfMemory>
        ensures { Writes (response_format Op.operations) self.now result
            out.old.items out.new.items }
    {
        match self {
            Response::Operations { operations } => {
                write_u8(0, out)?;
                write_operations(operations, out)
            }
            Response::Boundary { before, op } => {
                write_u8(1, out)?;
                before.write(out)?;
                op.write(out)
            }
        }
    }

    /// Takes a response to this request. More operations than were asked for are refused at the
    /// last byte of their number; a request for a boundary allows any number.
    pub fn read(
        alloc: Global,
        input: &mut Bytes,
        request: &Request,
    ) -> Result<Response<Op>, CodecError>
    where
        Op: Drop,
        ensures found { IfOk result (λ response. IsAllowed request.now response) }
        ensures too_many { (count : ℕ)
            → HasTooMany request.now input.old count
            → UnlessMemory result (IsErrOf result (CodecError.InvalidEnum (count % 2 ^ 8))) }
        ensures otherwise { ((count : ℕ) → HasTooMany request.now input.old count → ⊥)
            → Reads (response_format Op.operations) result input.old input.new }
        ensures taken { (front : List ℕ) × (input.old ≡ front ++ input.new) }
    {
        match read_u8(input)? {
            0 => {
                let count = read_u32(input)?;
                if !allows(request, count) {
                    return Err(CodecError::InvalidEnum((count % 256) as u8));
                }
                let operations = read_operations(alloc, count, input)?;
                Ok(Response::Operations { operations })
            }
            1 => {
                let before = Digest::read(input)?;
                let op = Op::read(alloc, input)?;
                Ok(Response::Boundary { before, op })
            }
            tag => Err(CodecError::InvalidEnum(tag)),
        }
    }
}

impl<Op: Share + Drop> Share for Response<Op> {
    fn share(&self) -> Result<Response<Op>, OutOfMemory> {
        match self {
            Response::Operations { operations } => Ok(Response::Operations {
                operations: operations.share_each()?,
            }),
            Response::Boundary { before, op } => Ok(Response::Boundary {
                before: *before,
                op: op.share()?,
            }),
        }
    }
}

/// Appends the number of operations, and each of them.
fn write_operations<Op: Operation>(
    operations: &Items<Op>,
    out: &mut Vec<u8>,
) -> Result<(), OutOfMemory>
    ensures { Writes (items_format Op.operations) operations.now result
        out.old.items out.new.items }
{
    let Ok(count) = u32::try_from(operations.len()) else {
        return Err(OutOfMemory);
    };
    write_u32(count, out)?;
    for op in operations.as_slice() {
        op.write(out)?;
    }
    Ok(())
}

/// Takes so many operations.
fn read_operations<Op: Operation + Drop>(
    alloc: Global,
    count: u32,
    input: &mut Bytes,
) -> Result<Items<Op>, CodecError>
    ensures { Reads (exactly_format count Op.operations) result input.old input.new }
{
    let mut operations = Items::new(alloc);
    for _ in 0..count {
        operations.push(Op::read(alloc, input)?)?;
    }
    Ok(operations)
}

/// Whether the request allows so many operations.
fn allows(request: &Request, count: u32) -> bool
    ensures { IsTrue result ↔ Allows request.now count }
{
    match request {
        Request::Operations { max_ops, .. } => count as u64 <= max_ops.get(),
        Request::Boundary { .. } => true,
    }
}
