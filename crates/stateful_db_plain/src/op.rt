//! Whole states as operations.

ghost use Rattle.std.specs.Prelude.{◌≡◌, ◌<◌, ◌^◌, IfOk};
ghost use Rattle.stateful_base.specs.Format.{Reads};
ghost use Rattle.stateful_db_plain.specs.Ops.{entries_format};

use crate::bounded::read_bounded;
use crate::state::{PlainState, root_of};
use bytes::Bytes;
use stateful_base::{
    CodecError, Digest, OutOfMemory, Share, read_u32, read_u64, write_u32, write_u64,
};
use stateful_db_log::Linked;
use stateful_types::Operation;
use std::alloc::Global;
use std::collections::BTreeMap;
use std::marker::Model;

/// The one operation that a checkpoint serves: the entries of its state. Contracts see the list of
/// them, by ascending key.
#[derive(Drop)]
pub struct PlainOp {
    state: PlainState,
}

impl Model for PlainOp {
    ghost use Rattle.std.specs.Prelude.{ℕ, List};

    ghost Value = { List (ℕ × ℕ) };

    ghost view = { λ a. a.state.entries };
}

impl PlainOp {
    /// The entries of a state. It copies none that are shared.
    pub fn of(state: &PlainState) -> Result<PlainOp, OutOfMemory>
        ensures { IfOk result (λ op. op ≡ state.now.entries) }
    {
        let state = state.share()?;
        Ok(PlainOp { state })
    }

    /// The entries, by ascending key.
    pub fn entries(&self) -> &BTreeMap<u64, u64>
        ensures { result.now.entries ≡ self.now }
    {
        self.state.entries()
    }

    /// The state of these entries, whose range has this end.
    pub fn into_state(self, size: u64) -> PlainState
        ensures { result ≡ record { size = size; entries = self } }
    {
        self.state.with_size(size)
    }
}

impl Share for PlainOp {
    fn share(&self) -> Result<PlainOp, OutOfMemory> {
        PlainOp::of(&self.state)
    }
}

impl Operation for PlainOp {
    ghost use Rattle.stateful_db_plain.specs.Ops.{op_format};
    ghost use Rattle.stateful_db_plain.specs.OpsLaws.{op_alone};

    ghost operations = { op_format };

    ghost lawful = { op_alone };

    /// Appends the number of entries, and then key and value of each, by ascending key. More than
    /// four bytes can count are refused as if memory were wanting.
    fn write(&self, out: &mut Vec<u8>) -> Result<(), OutOfMemory> {
        let entries = self.entries();
        let Ok(count) = u32::try_from(entries.len()) else {
            return Err(OutOfMemory);
        };
        write_u32(count, out)?;
        for (key, value) in entries {
            write_u64(*key, out)?;
            write_u64(*value, out)?;
        }
        Ok(())
    }

    /// Takes the entries. Where a key isn't above the one before, or leaves no room for the keys
    /// that are still to come, it is refused at the first byte with which no such key goes on.
    fn read(alloc: Global, input: &mut Bytes) -> Result<PlainOp, CodecError> {
        let count = read_u32(input)?;
        read_entries(alloc, count, input)
    }
}

/// The chain of digests has one link: a database is made from the operation alone.
impl Linked for PlainOp {
    ghost use Rattle.std.specs.Prelude.{true};
    ghost use Rattle.stateful_db_plain.specs.Ops.{op_linked};

    ghost linked = { op_linked };

    ghost alone = { λ op. true };

    fn link(&self, at: u64, _before: Digest) -> Digest {
        // Behind the last location the end is 0 in eight bytes.
        root_of(at.wrapping_add(1), self.entries())
    }

    fn stands_alone(&self) -> bool {
        true
    }
}

/// Takes so many entries, by ascending key.
fn read_entries(alloc: Global, count: u32, input: &mut Bytes) -> Result<PlainOp, CodecError>
    ensures { Reads (entries_format count 0) result input.old input.new }
{
    let mut entries = BTreeMap::new(alloc);
    let mut least = 0;
    let mut left = count;
    while left > 0 {
        left -= 1;
        let key = read_bounded(input, least, u64::MAX - u64::from(left))?;
        let value = read_u64(input)?;
        entries.insert(key, value)?;
        least = key.saturating_add(1);
    }
    let state = PlainState::shared(alloc, 0, entries)?;
    Ok(PlainOp { state })
}
