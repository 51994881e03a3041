//! Blocks that carry a payload.
//!
//! A block names its parent by digest, and commits to the state that it leads to. Its bytes are its
//! fields, one behind the other. All but the payload have a fixed width, so where no two payloads
//! have the same bytes no two blocks do.

ghost use Rattle.std.specs.Prelude.{◌≡◌, ◌++◌, OnOk};
ghost use Rattle.stateful_simple_app.specs.Blocks.{number_bytes, target_bytes, genesis_block};

use stateful_db::ManagedDb;
use stateful_db_plain::Plain;
use stateful_types::{Block, Digest, Epoch, Height, OutOfMemory, Round, Target, View, write_u64};

/// What a block carries beside its place in the chain.
///
/// The bytes of several parts, one behind the other, are an `unfoldable` definition, and `write` has
/// the tactics of `encode` below.
pub trait Payload {
    ghost use Rattle.std.specs.Prelude.{◌≡◌, ◌++◌, List, ℕ, OnOk};

    /// Its bytes. Payloads that differ are to have different ones.
    ghost bytes: { Self → List ℕ };

    /// Appends its bytes.
    fn write(&self, out: &mut Vec<u8>) -> Result<(), OutOfMemory>
        ensures { OnOk result (out.new.items ≡ out.old.items ++ bytes self.now) };
}

/// A block: a payload at a height over a parent, and what that leads to.
#[derive(Debug, Drop)]
pub struct PayloadBlock<P> {
    pub parent: Digest,
    pub height: Height,
    pub round: Round,
    pub payload: P,
    pub target: Target,
}

impl<P> PayloadBlock<P> {
    /// The block at height 0: it commits to the empty state.
    pub fn genesis(payload: P) -> PayloadBlock<P>
        ensures { result ≡ genesis_block payload }
    {
        PayloadBlock {
            parent: Digest([0; 32]),
            height: Height(0),
            round: Round {
                epoch: Epoch(0),
                view: View(0),
            },
            payload,
            target: Plain::initial_sync_target(),
        }
    }
}

/// Appends a number in eight bytes, the highest first.
#[tactic(auto, unfolding(crate::specs::Blocks::number_bytes))]
pub fn write_number(number: u64, out: &mut Vec<u8>) -> Result<(), OutOfMemory>
    ensures { OnOk result (out.new.items ≡ out.old.items ++ number_bytes number) }
{
    write_u64(number, out)
}

/// Appends a root with its range.
#[tactic(auto, using(std::proofs::Common::append_assoc), unfolding(crate::specs::Blocks::target_bytes))]
fn write_target(target: &Target, out: &mut Vec<u8>) -> Result<(), OutOfMemory>
    ensures { OnOk result (out.new.items ≡ out.old.items ++ target_bytes target.now) }
{
    target.root.write(out)?;
    target.start.write(out)?;
    target.end.write(out)
}

impl<P: Payload> Block for PayloadBlock<P> {
    ghost use Rattle.stateful_simple_app.specs.Blocks.{block_header};

    type Context = Round;

    ghost header = { block_header P.bytes };

    ghost context_of = { λ b. b.round };

    fn parent(&self) -> Digest {
        self.parent
    }

    fn height(&self) -> Height {
        self.height
    }

    fn context(&self) -> Round {
        self.round
    }

    #[tactic(auto, using(std::proofs::Common::append_assoc), unfolding(crate::specs::Blocks::block_bytes))]
    fn encode(&self, out: &mut Vec<u8>) -> Result<(), OutOfMemory> {
        self.parent.write(out)?;
        self.height.write(out)?;
        self.round.write(out)?;
        self.payload.write(out)?;
        write_target(&self.target, out)
    }
}
