//! What holds of the formats for all values and all bytes, and of the order of requests.

ghost use Rattle.std.specs.Prelude.{◌≡◌};
ghost use Rattle.stateful_base.specs.Format.{IsFormat};
ghost use Rattle.stateful_base.specs.Number.{u8_format, u32_format, u64_format, height_format};
ghost use Rattle.stateful_base.specs.Number.{location_format};
ghost use Rattle.stateful_base.specs.Digest.{digest_format};
ghost use Rattle.stateful_base.specs.Round.{round_format};
ghost use Rattle.stateful_types.specs.Vote.{votes_format};
ghost use Rattle.stateful_base.specs.Finalization.{finalization_format};
ghost use Rattle.stateful_types.specs.Request.{request_format, request_cmp};
ghost use Rattle.stateful_types.specs.Response.{response_format};

use crate::operation::Operation;
use crate::request::Request;
use stateful_base::Scheme;

/// In each format no spelling begins another, and so no value has the spelling of another.
pub fn no_spelling_begins_another<S: Scheme, Op: Operation>()
    ensures numbers { IsFormat u8_format × IsFormat u32_format × IsFormat u64_format }
    ensures places { IsFormat height_format × IsFormat location_format × IsFormat round_format }
    ensures digests { IsFormat digest_format }
    ensures votes { IsFormat votes_format }
    ensures finalizations { IsFormat (finalization_format S.certificates) }
    ensures requests { IsFormat request_format }
    ensures responses { IsFormat (response_format Op.operations) }
{}

/// Requests are ordered by their kind, those for operations first, and then by their numbers.
pub fn requests_are_ordered()
    ensures { (a b : Request) → ⟦<Request as Ord>⟧.cmp a b ≡ request_cmp a b }
{}
