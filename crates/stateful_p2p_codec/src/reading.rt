//! What the bytes of a delivery hold.

ghost use Rattle.std.specs.Prelude.{◌↔◌, IsTrue, IfOk};
ghost use Rattle.stateful_p2p_codec.specs.Reading.{IsOfKind, IsReadAs, IsWholeAs};

use bytes::Bytes;
use stateful_types::{CodecError, Operation, OutOfMemory, Request, Response, end_of};
use std::alloc::Global;

/// Whether the response is of the key's kind.
fn is_of_kind<Op>(key: &Request, response: &Response<Op>) -> bool
    ensures { IsTrue result ↔ IsOfKind key.now response.now }
{
    match (key, response) {
        (Request::Operations { .. }, Response::Operations { .. }) => true,
        (Request::Boundary { .. }, Response::Boundary { .. }) => true,
        _ => false,
    }
}

/// Reads a response to the key, with nothing behind it.
fn read_whole<Op: Operation + Drop>(
    alloc: Global,
    key: &Request,
    value: Bytes,
) -> Result<Response<Op>, CodecError>
    ensures { IsWholeAs Op.operations key.now value result }
{
    let mut input = value;
    let response = match Response::read(alloc, &mut input, key) {
        Ok(response) => response,
        Err(error) => return Err(error),
    };
    match end_of(&input) {
        Ok(()) => Ok(response),
        Err(error) => Err(error),
    }
}

/// The response to the key that these bytes are, if they are one.
pub fn read_response<Op: Operation + Drop>(
    alloc: Global,
    key: &Request,
    value: Bytes,
) -> Result<Option<Response<Op>>, OutOfMemory>
    ensures { IfOk result (IsReadAs Op.operations key.now value) }
{
    match read_whole(alloc, key, value) {
        Ok(response) if is_of_kind(key, &response) => Ok(Some(response)),
        Ok(_) => Ok(None),
        Err(CodecError::OutOfMemory) => Err(OutOfMemory),
        Err(CodecError::EndOfBuffer | CodecError::InvalidEnum(_)) => Ok(None),
    }
}
