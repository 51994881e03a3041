//! Numbers in bounds.

ghost use Rattle.std.specs.Prelude.{◌≤◌, ◌<◌, ◌↔◌, IsTrue};
ghost use Rattle.stateful_base.specs.Format.{Reads};
ghost use Rattle.stateful_db_plain.specs.Bounded.{bounded_format, GoesOn};

use bytes::Bytes;
use stateful_base::{CodecError, read_u8};

/// Takes a number of eight bytes, from the least up to the most. It is refused at the first byte
/// with which no such number goes on. It takes no memory.
pub(crate) fn read_bounded(input: &mut Bytes, least: u64, most: u64) -> Result<u64, CodecError>
    requires { least ≤ most }
    ensures { Reads (bounded_format least most) result input.old input.new }
{
    let mut top = 0u64;
    let mut places = 8;
    while places > 0 {
        let byte = read_u8(input)?;
        places -= 1;
        top = top * 256 + u64::from(byte);
        if !goes_on(top, places, least, most) {
            return Err(CodecError::InvalidEnum(byte));
        }
    }
    Ok(top)
}

/// Whether some number in the bounds has these bytes above so many low ones.
fn goes_on(top: u64, places: u32, least: u64, most: u64) -> bool
    requires { places < 8 }
    ensures { IsTrue result ↔ GoesOn least most places top }
{
    let unit = 256u64.pow(places);
    least / unit <= top && top <= most / unit
}
