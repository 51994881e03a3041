//! How large the payloads of a resolver are.

ghost use Rattle.std.specs.Prelude.{◌≡◌, ◌^◌, ◌≤◌, ◌↔◌, ℕ, IsErr, IfOk};
ghost use Rattle.std.specs.Int.NonZero.{non_zero_u64_get};
ghost use Rattle.stateful_p2p_codec.specs.Limits.{payload_size, IsBounded};

use crate::error::TooManyOps;
use stateful_types::Operation;
use std::num::NonZeroU64;

/// How many bytes a message between resolvers has at most, where no more than so many operations
/// are served at a time and each has at most `op` bytes. Refused where these are more than
/// 4294967295 operations. It takes no memory.
pub fn max_payload_size(max_serve_ops: NonZeroU64, op: usize) -> Result<usize, TooManyOps>
    requires { op ≤ 16777216 }
    ensures size { IfOk result (λ size.
        size ≡ payload_size (non_zero_u64_get max_serve_ops) op) }
    ensures refused { IsErr result ↔ (2 ^ 32 ≤ non_zero_u64_get max_serve_ops) }
{
    let Ok(ops) = u32::try_from(max_serve_ops.get()) else {
        return Err(TooManyOps);
    };
    let operations = 5 + ops as usize * op;
    let boundary = 33 + op;
    Ok(9 + operations.max(boundary))
}

/// No message is longer.
pub fn no_payload_is_longer<Op: Operation>()
    ensures { (most op : ℕ) → IsBounded Op.operations most op }
{}
