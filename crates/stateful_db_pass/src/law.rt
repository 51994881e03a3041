//! How many requests a sync makes, and that a log answers them as they are asked.

ghost use Rattle.std.specs.Prelude.{◌≡◌, ℕ, false};
ghost use Rattle.std.specs.declared.num.NonZeroU64.{NonZeroU64};
ghost use Rattle.stateful_types.specs.declared.response.Response.{Response};
ghost use Rattle.stateful_db_log.specs.Held.{Held};
ghost use Rattle.stateful_db_pass.specs.declared.pass.Fetches.TheVariants.{Range};
ghost use Rattle.stateful_db_pass.specs.Fetched.{Fetched, Fits, request, is_reached, with_response};
ghost use Rattle.stateful_db_pass.specs.Counted.{IsWithin, Needs, Falls};
ghost use Rattle.stateful_db_pass.specs.Serving.{IsHeld, Answers};

use stateful_db_log::Linked;

/// A response that fits leaves one request less, and behind the last one all is there.
pub fn requests_fall<Op: Linked>()
    ensures { (p : Fetched Op) (response : Response Op) (n : ℕ)
        → IsWithin p
        → is_reached p ≡ false
        → Fits Op.alone p response
        → Needs p n
        → Falls (with_response p response) n }
{}

/// What a log answers to the sync of a range fits, where it holds what is asked for.
pub fn answers_fit<Op: Linked>()
    ensures { (p : Fetched Op) (batch : NonZeroU64) (h : Held Op) (response : Response Op)
        → p.fetches ≡ Range batch
        → IsHeld h (request p)
        → Answers Op.linked h (request p) response
        → Fits Op.alone p response }
{}
