//! Rounds of consensus, ordered by epoch and then view.

ghost use Rattle.std.specs.Prelude.{◌≡◌, ◌↔◌, IsTrue, IsErrOf};
ghost use Rattle.stateful_base.specs.Format.{Reads, Writes};
ghost use Rattle.stateful_base.specs.Round.{IsLater, round_format};

use crate::codec::{CodecError, read_u64, write_u64};
use crate::number::{Epoch, View};
use crate::share::OutOfMemory;
use bytes::Bytes;

/// A view of an epoch.
#[derive(Clone, Copy, Debug, PartialEq, Eq, PartialOrd, Ord)]
pub struct Round {
    pub epoch: Epoch,
    pub view: View,
}

impl Round {
    /// Whether this round comes after the other.
    pub fn is_later_than(self, other: Round) -> bool
        ensures { IsTrue result ↔ IsLater other self }
    {
        if self.epoch.0 == other.epoch.0 {
            self.view.0 > other.view.0
        } else {
            self.epoch.0 > other.epoch.0
        }
    }

    /// Appends the epoch and the view.
    pub fn write(&self, out: &mut Vec<u8>) -> Result<(), OutOfMemory>
        ensures { Writes round_format self.now result out.old.items out.new.items }
    {
        write_u64(self.epoch.0, out)?;
        write_u64(self.view.0, out)
    }

    /// Takes a round. It takes no memory.
    pub fn read(input: &mut Bytes) -> Result<Round, CodecError>
        ensures reads { Reads round_format result input.old input.new }
        ensures memory { IsErrOf result CodecError.OutOfMemory → ⊥ }
    {
        let epoch = Epoch(read_u64(input)?);
        let view = View(read_u64(input)?);
        Ok(Round { epoch, view })
    }
}

/// What belongs to a round, as the context of a block does.
pub trait Rounded {
    ghost use Rattle.stateful_base.specs.declared.round.Round.{Round};

    /// The round that it belongs to.
    ghost round_of: { Self → Round };

    /// The round that it belongs to.
    fn round(&self) -> Round
        ensures { result ≡ round_of self.now };
}

impl Rounded for Round {
    ghost round_of = { λ round. round };

    fn round(&self) -> Round {
        *self
    }
}
