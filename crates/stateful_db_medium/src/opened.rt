//! What an open database adds to its medium.

ghost use Rattle.std.specs.Prelude.{◌≤◌, ◌+◌, ℕ, length, Contains};

use crate::checkpoints::Checkpoint;
use crate::medium::Medium;
use stateful_base::{Faulty, Location};
use stateful_db::{Broken, DbCall, Exhausted, FlushToken, Tokens, Why};
use std::alloc::{AllocError, Global};

/// The id of the last applied batch, the tokens that are out, which name places of kept
/// checkpoints, and the medium.
#[derive(Drop)]
pub struct Opened<X> {
    pub(crate) id: u64,
    pub(crate) out: Tokens,
    pub(crate) medium: Medium<X>,
    ghost no_later: { (at : ℕ) → Contains out at
        → at ≤ medium.checkpoints.pruned + length medium.checkpoints.older.items },
}

impl<X: Drop> Faulty for Opened<X> {
    ghost count = { λ o. o.medium.calls.faults };

    fn faults(&self) -> u64 {
        self.medium.faults()
    }
}

impl<X: Drop> Opened<X> {
    ghost use Rattle.std.specs.Prelude.{◌≡◌, ◌-◌, ◌^◌, ◌<◌, ◌↔◌, ◌∷◌, ◌++◌, [], ◌==◌, position};
    ghost use Rattle.std.specs.Prelude.{slice_get, Some, IfOk, IfErr, OnOk, OnErr};
    ghost use Rattle.stateful_db.specs.Disk.{all, place, applied, flushed, cut};
    ghost use Rattle.stateful_db.specs.Tokens.{without};
    ghost use Rattle.stateful_base.specs.Causes.{Rose};
    ghost use Rattle.stateful_db.specs.declared.database.DbCall.{DbCall};
    ghost use Rattle.stateful_db.specs.Calls.{IsListed, Called};
    ghost use Rattle.stateful_db_medium.specs.Kept.{disk_of, next_of, calls_of, medium_of};
    ghost use Rattle.stateful_db_medium.specs.Kept.{standing_of};

    /// The id of the last applied batch.
    pub fn id(&self) -> u64
        ensures { result ≡ (standing_of self.now).id }
    {
        self.id
    }

    /// The medium.
    pub fn medium(&self) -> &Medium<X>
        ensures { result.now ≡ medium_of self.now }
    {
        &self.medium
    }

    /// The tokens that are out.
    pub fn tokens(&self) -> Tokens
        ensures { result ≡ (standing_of self.now).out }
    {
        self.out
    }

    /// The newest checkpoint.
    pub fn newest(&self) -> &Checkpoint<X>
        ensures { result.now ≡ (standing_of self.now).disk.newest }
    {
        self.medium.newest()
    }

    /// The oldest kept checkpoint.
    pub fn oldest(&self) -> &Checkpoint<X>
        ensures { slice_get (all (standing_of self.now).disk) 0 ≡ Some result.now }
    {
        self.medium.get(0)
    }

    /// Its allocator.
    pub fn allocator(&self) -> Global {
        self.medium.allocator()
    }

    /// The medium as it is.
    pub fn close(self) -> Medium<X>
        ensures { result ≡ medium_of self }
    {
        self.medium
    }

    /// Makes a call of this kind. It fails exactly where it is listed as a failing one.
    pub fn begin(self, call: DbCall) -> Result<Opened<X>, Broken<Medium<X>>>
        ensures ok { IfOk result (λ o. standing_of o ≡ standing_of self) }
        ensures ok_next { IfOk result (λ o. next_of (medium_of o) ≡ next_of (medium_of self)) }
        ensures ok_count { IfOk result (λ o.
            (calls_of (medium_of self)).faults ≤ (calls_of (medium_of o)).faults) }
        ensures ok_called { IfOk result (λ o.
            Called call (calls_of (medium_of self)) (calls_of (medium_of o))) }
        ensures err { IfErr result (λ b. disk_of b.medium ≡ (standing_of self).disk) }
        ensures err_next { IfErr result (λ b. next_of b.medium ≡ next_of (medium_of self)) }
        ensures err_count { IfErr result (λ b.
            (calls_of (medium_of self)).faults ≤ (calls_of b.medium).faults) }
        ensures err_called { IfErr result (λ b.
            Called call (calls_of (medium_of self)) (calls_of b.medium)) }
        ensures failed { IfErr result (λ b.
            Rose (calls_of (medium_of self)).faults (calls_of b.medium).faults) }
        ensures why { IfErr result (λ b. b.why ≡ Why.Failed) }
        ensures err_listed { IfErr result (λ _. IsListed (calls_of (medium_of self)) call) }
        ensures ok_listed { IfOk result (λ _. IsListed (calls_of (medium_of self)) call → ⊥) }
    {
        let Opened {
            id,
            out,
            mut medium,
        } = self;
        if medium.fails(call) {
            Err(Broken {
                medium,
                why: Why::Failed,
            })
        } else {
            Ok(Opened { id, out, medium })
        }
    }

    /// Draws a batch id.
    pub fn draw(&mut self) -> Result<u64, Exhausted>
        ensures id { IfOk result (λ n. (n ≡ next_of (medium_of self.old))
            × (next_of (medium_of self.new) ≡ next_of (medium_of self.old) + 1)) }
        ensures exhausted { IfErr result (λ _. (2 ^ 64 - 1 ≤ next_of (medium_of self.old))
            × (next_of (medium_of self.new) ≡ next_of (medium_of self.old))) }
        ensures within { IfOk result (λ n. n < 2 ^ 64 - 1) }
        ensures standing { standing_of self.new ≡ standing_of self.old }
        ensures calls { calls_of (medium_of self.new) ≡ calls_of (medium_of self.old) }
    {
        let id = self.medium.next;
        if id == u64::MAX {
            return Err(Exhausted);
        }
        self.medium.next = id + 1;
        Ok(id)
    }

    /// Adds the checkpoint of a batch that is applied. Where its range doesn't end behind that of
    /// the newest, or starts before it, it is refused as if memory were wanting.
    pub fn push(&mut self, id: u64, state: Checkpoint<X>) -> Result<(), AllocError>
        ensures ok { OnOk result (standing_of self.new
            ≡ record (standing_of self.old)
            { id = id; disk = applied (standing_of self.old).disk state }) }
        ensures err { OnErr result (standing_of self.new ≡ standing_of self.old) }
        ensures next { next_of (medium_of self.new) ≡ next_of (medium_of self.old) }
        ensures calls { calls_of (medium_of self.new) ≡ calls_of (medium_of self.old) }
    {
        self.medium.checkpoints.push(state)?;
        self.id = id;
        Ok(())
    }

    /// One token more is out, for all checkpoints.
    pub fn put_token(&mut self) -> FlushToken
        requires { length (standing_of self.old).out < 2 }
        ensures standing { standing_of self.new
            ≡ record (standing_of self.old)
            { out = (standing_of self.old).out ++ result.place ∷ [] } }
        ensures place { result.place ≡ place (standing_of self.old).disk }
        ensures next { next_of (medium_of self.new) ≡ next_of (medium_of self.old) }
        ensures calls { calls_of (medium_of self.new) ≡ calls_of (medium_of self.old) }
    {
        let place = self.medium.checkpoints.place();
        self.out.put(place);
        FlushToken { place }
    }

    /// The checkpoints that the token covers are durable, and the token is in.
    pub fn take_token(&mut self, token: FlushToken)
        requires { Contains (standing_of self.old).out token.place }
        ensures standing { standing_of self.new ≡ record (standing_of self.old) {
          disk = flushed (standing_of self.old).disk token.place;
          out = without token.place (standing_of self.old).out;
        } }
        ensures next { next_of (medium_of self.new) ≡ next_of (medium_of self.old) }
        ensures calls { calls_of (medium_of self.new) ≡ calls_of (medium_of self.old) }
    {
        self.medium.checkpoints.flush(token.place);
        self.out.take(token.place);
    }

    /// The number of the first kept checkpoint whose range has this end.
    pub fn number_with_end(&self, end: Location) -> Option<usize>
        ensures { result ≡ position (λ s. s.target.end.0 == end.0) (all (standing_of self.now).disk) }
    {
        self.medium.number_with_end(end)
    }

    /// Drops so many of the oldest checkpoints. The durable one stays, and no token may be out.
    pub fn drop_first(&mut self, count: usize)
        requires idle { (standing_of self.old).out ≡ [] }
        requires within { count ≤ length (standing_of self.old).disk.older }
        requires kept { (standing_of self.old).disk.pruned + count ≤ (standing_of self.old).disk.durable }
        ensures standing { standing_of self.new
            ≡ record (standing_of self.old) { disk = cut (standing_of self.old).disk count } }
        ensures next { next_of (medium_of self.new) ≡ next_of (medium_of self.old) }
        ensures calls { calls_of (medium_of self.new) ≡ calls_of (medium_of self.old) }
    {
        self.medium.checkpoints.drop_first(count);
    }
}
