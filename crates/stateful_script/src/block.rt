//! The blocks that lines of a script name.

ghost use Rattle.std.specs.Prelude.{◌≡◌, ◌+◌, ◌^◌, ◌<◌, Some, None, MatchOption};
ghost use Rattle.stateful_script.specs.BlockLines.{new_name, head_at, next_height, height_on};
ghost use Rattle.stateful_script.specs.BlockLines.{planned_by, decision};
ghost use Rattle.stateful_script.specs.Cursor.{fields_left};
ghost use Rattle.stateful_script.specs.Fields.{field_as};
ghost use Rattle.stateful_script.specs.Named.{height_in};
ghost use Rattle.stateful_script.specs.Refusal.{Gives, Leaves};

use crate::cursor::Cursor;
use crate::error::LineError;
use crate::field::{after_word, name, next_number};
use crate::item::BlockItems;
use crate::name::Name;
use crate::script::{PlannedBlock, Script};
use stateful_base::{Epoch, Handoff, Height, Round, View};
use std::alloc::Global;

/// What a line says of a block first: `NAME on PARENT view V`.
#[derive(Debug, Drop)]
pub struct Head {
    pub name: Name,
    /// The place of the parent's name.
    pub parent: usize,
    pub view: View,
}

/// How a prepared block is to be handed over.
#[tactic(auto, unfolding(crate::specs::BlockLines::decision))]
pub fn decision(field: &[u8]) -> Option<Handoff<()>>
    ensures { result ≡ decision field.now }
{
    if field == b"wait".as_slice() {
        Some(Handoff::Wait)
    } else if field == b"vote".as_slice() {
        Some(Handoff::Vote(()))
    } else if field == b"stage".as_slice() {
        Some(Handoff::Stage(()))
    } else {
        None
    }
}

/// The height of the block that has the name at a place.
fn height_at(blocks: &[PlannedBlock], place: usize) -> Height
    ensures { result.0 ≡ height_in blocks.now place }
{
    if place == 0 {
        return Height(0);
    }
    match blocks.get(place - 1) {
        Some(block) => block.height,
        None => Height(0),
    }
}

/// The height of a block on this parent, as an item says it, or one above the parent's. None where
/// no height is left.
#[tactic(auto, unfolding(crate::specs::BlockLines::height_on, crate::specs::BlockLines::next_height))]
fn height_on(blocks: &[PlannedBlock], parent: usize, said: Option<u64>) -> Option<Height>
    ensures { result ≡ height_on blocks.now parent said }
{
    match said {
        Some(height) => Some(Height(height)),
        None => height_at(blocks, parent).next(),
    }
}

impl Script {
    /// The name that a field spells, where a line may give it.
    #[tactic(auto, unfolding(crate::specs::BlockLines::new_name, crate::specs::Named::is_free))]
    fn new_name(&self, alloc: Global, field: &[u8]) -> Result<Name, LineError>
        ensures { Gives result (new_name self.now field.now) }
    {
        if !self.is_free(field) {
            return Err(LineError::Refused);
        }
        let text = name(field).ok_or(LineError::Refused)?;
        Ok(Name::new(alloc, text)?)
    }

    /// Reads `NAME on PARENT view V`.
    #[tactic(auto, unfolding(crate::specs::BlockLines::head_at))]
    pub fn next_head(&self, alloc: Global, fields: &mut Cursor<'_>) -> Result<Head, LineError>
        ensures { Leaves result (head_at self.now (fields_left fields.old)) (fields_left fields.new) }
    {
        let field = fields.next_field().ok_or(LineError::Refused)?;
        let name = self.new_name(alloc, field)?;
        after_word(b"on", fields).ok_or(LineError::Refused)?;
        let parent = self.next_block(fields).ok_or(LineError::Refused)?;
        after_word(b"view", fields).ok_or(LineError::Refused)?;
        let view = next_number(fields).ok_or(LineError::Refused)?;
        Ok(Head {
            name,
            parent,
            view: View(view),
        })
    }

    /// The block of a line, by its head and by what its items say. None where no height is left.
    #[tactic(auto, unfolding(crate::specs::BlockLines::planned_by))]
    pub fn planned(&self, head: &Head, said: BlockItems) -> Option<PlannedBlock>
        ensures { result ≡ planned_by self.now.blocks head.now said }
    {
        let height = height_on(self.blocks.as_slice(), head.parent, said.height)?;
        Some(PlannedBlock {
            parent: head.parent,
            height,
            round: Round {
                epoch: Epoch(said.epoch),
                view: head.view,
            },
            slow: said.slow,
            ops: said.ops,
            wrong: said.wrong,
        })
    }
}
