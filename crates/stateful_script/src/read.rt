//! Reading a script line by line.

ghost use Rattle.std.specs.Prelude.{◌≡◌, ◌==◌, ℕ, List, Some, None, IfOk};
ghost use Rattle.std.specs.List.{list_all};
ghost use Rattle.std.specs.Char.{is_ascii};
ghost use Rattle.stateful_script.specs.Cursor.{fields_left};
ghost use Rattle.stateful_script.specs.Named.{at_start, place, is_free, databases_in};
ghost use Rattle.stateful_script.specs.Lines.{with_world, with_block, with_event, with_items};
ghost use Rattle.stateful_script.specs.Lines.{world_by, world_line, block_line, build_line};
ghost use Rattle.stateful_script.specs.Lines.{prepare_line, propose_line, event_line, line_by};
ghost use Rattle.stateful_script.specs.Lines.{read_line};
ghost use Rattle.stateful_script.specs.Refusal.{Becomes};
ghost use Rattle.stateful_script.specs.Script.{script_or_line, Reads};
ghost use Rattle.stateful_script.specs.Laws.{IsPlan};

use crate::block::{Head, decision};
use crate::cursor::{Cursor, cut};
use crate::error::LineError;
use crate::field::{is_at_end, is_name};
use crate::item::{Item, parse_build_items, parse_items, said};
use crate::name::Name;
use crate::script::{PlannedBlock, PlannedEvent, Script, ScriptError, World};
use stateful_base::Items;
use std::alloc::{AllocError, Global};

/// The most blocks that lines name.
const MAX_BLOCKS: usize = 1024;

/// The most event lines.
const MAX_EVENTS: usize = 65_536;

fn all_ascii(line: &[u8]) -> bool
    ensures { result ≡ list_all is_ascii line.now }
{
    line.iter().all(|b| b.is_ascii())
}

/// The world that a word names.
#[tactic(auto, unfolding(crate::specs::Lines::world_by))]
fn world_by(word: &[u8]) -> Option<World>
    ensures { result ≡ world_by word.now }
{
    if word == b"plain".as_slice() {
        Some(World::Plain)
    } else if word == b"pair".as_slice() {
        Some(World::Pair)
    } else if word == b"triple".as_slice() {
        Some(World::Triple)
    } else {
        None
    }
}

// Behind a `LineError` the script is given up: it may be in mid-change.
impl Script {
    /// What is said before the first line: genesis is named.
    #[tactic(auto, unfolding(crate::specs::Named::at_start))]
    fn start(alloc: Global) -> Result<Script, AllocError>
        ensures { IfOk result (λ script. script ≡ at_start) }
    {
        let mut names = Items::new(alloc);
        names.push(Name::new(alloc, "genesis")?)?;
        Ok(Script {
            world: None,
            names,
            blocks: Items::new(alloc),
            events: Items::new(alloc),
        })
    }

    /// The place of a name, by a look at each: there are at most 1,025.
    #[tactic(auto, unfolding(crate::specs::Named::place))]
    pub fn place(&self, name: &[u8]) -> Option<usize>
        ensures { result ≡ place self.now name.now }
    {
        self.names
            .as_slice()
            .iter()
            .position(|n| n.as_str().as_bytes() == name)
    }

    /// Whether a line may give this name.
    #[tactic(auto, unfolding(crate::specs::Named::is_free))]
    pub fn is_free(&self, name: &[u8]) -> bool
        ensures { result ≡ is_free self.now name.now }
    {
        is_name(name)
            && self.place(name).is_none()
            && name != b"none".as_slice()
            && name != b"alone".as_slice()
    }

    /// How many databases there are.
    pub fn databases(&self) -> usize
        ensures { result ≡ databases_in self.now.world }
    {
        self.world.unwrap_or(World::Plain).databases()
    }

    #[tactic(auto, unfolding(crate::specs::Lines::with_world))]
    fn name_world(&mut self, world: World) -> Result<(), LineError>
        ensures { Becomes result (with_world self.old world) self.new }
    {
        if self.world.is_some() || !self.events.is_empty() {
            return Err(LineError::Refused);
        }
        self.world = Some(world);
        Ok(())
    }

    #[tactic(auto, unfolding(crate::specs::Lines::with_block))]
    fn name_block(&mut self, name: Name, block: PlannedBlock) -> Result<(), LineError>
        ensures { Becomes result (with_block self.old name block) self.new }
    {
        if self.blocks.len() >= MAX_BLOCKS {
            return Err(LineError::Refused);
        }
        self.names.push(name)?;
        self.blocks.push(block)?;
        Ok(())
    }

    #[tactic(auto, unfolding(crate::specs::Lines::with_event))]
    fn push_event(&mut self, event: PlannedEvent) -> Result<(), LineError>
        ensures { Becomes result (with_event self.old event) self.new }
    {
        if self.events.len() >= MAX_EVENTS {
            return Err(LineError::Refused);
        }
        self.events.push(event)?;
        Ok(())
    }

    /// Names the block of this head with these items.
    #[tactic(auto, unfolding(crate::specs::Lines::with_items))]
    fn name_items(&mut self, alloc: Global, head: Head, items: &[Item]) -> Result<(), LineError>
        ensures { Becomes result (with_items self.old head items.now) self.new }
    {
        let said = said(alloc, items)?;
        let block = self.planned(&head, said).ok_or(LineError::Refused)?;
        self.name_block(head.name, block)
    }

    #[tactic(auto, unfolding(crate::specs::Lines::world_line))]
    fn read_world(&mut self, fields: &mut Cursor<'_>) -> Result<(), LineError>
        ensures { Becomes result (world_line self.old (fields_left fields.old)) self.new }
    {
        let word = fields.next_field().ok_or(LineError::Refused)?;
        let world = world_by(word).ok_or(LineError::Refused)?;
        if !is_at_end(fields) {
            return Err(LineError::Refused);
        }
        self.name_world(world)
    }

    #[tactic(auto, unfolding(crate::specs::Lines::block_line))]
    fn read_block(&mut self, alloc: Global, fields: &mut Cursor<'_>) -> Result<(), LineError>
        ensures { Becomes result (block_line self.old (fields_left fields.old)) self.new }
    {
        let head = self.next_head(alloc, fields)?;
        let items = parse_items(alloc, fields)?;
        self.name_items(alloc, head, items.as_slice())
    }

    /// Names the block that a build would give, and adds the event that asks for it.
    #[tactic(auto, unfolding(crate::specs::Lines::build_line))]
    fn read_build(
        &mut self,
        alloc: Global,
        head: Head,
        fields: &mut Cursor<'_>,
        event: PlannedEvent,
    ) -> Result<(), LineError>
        ensures { Becomes result (build_line self.old head (fields_left fields.old) event)
            self.new }
    {
        let items = parse_build_items(alloc, fields)?;
        self.name_items(alloc, head, items.as_slice())?;
        self.push_event(event)
    }

    #[tactic(auto, unfolding(crate::specs::Lines::prepare_line))]
    fn read_prepare(&mut self, alloc: Global, fields: &mut Cursor<'_>) -> Result<(), LineError>
        ensures { Becomes result (prepare_line self.old (fields_left fields.old)) self.new }
    {
        let head = self.next_head(alloc, fields)?;
        let field = fields.next_field().ok_or(LineError::Refused)?;
        let event = PlannedEvent::Prepare {
            parent: head.parent,
            block: self.names.len(),
            decision: decision(field).ok_or(LineError::Refused)?,
        };
        self.read_build(alloc, head, fields, event)
    }

    #[tactic(auto, unfolding(crate::specs::Lines::propose_line))]
    fn read_propose(&mut self, alloc: Global, fields: &mut Cursor<'_>) -> Result<(), LineError>
        ensures { Becomes result (propose_line self.old (fields_left fields.old)) self.new }
    {
        let head = self.next_head(alloc, fields)?;
        let event = PlannedEvent::Propose {
            parent: head.parent,
            block: self.names.len(),
        };
        self.read_build(alloc, head, fields, event)
    }

    #[tactic(auto, unfolding(crate::specs::Lines::event_line))]
    fn read_event(
        &mut self,
        alloc: Global,
        word: &[u8],
        fields: &mut Cursor<'_>,
    ) -> Result<(), LineError>
        ensures { Becomes result (event_line self.old word.now (fields_left fields.old)) self.new }
    {
        let event = self.parse_event(alloc, word, fields)?;
        if !is_at_end(fields) {
            return Err(LineError::Refused);
        }
        self.push_event(event)
    }

    /// Reads a line behind its first word.
    #[tactic(auto, unfolding(crate::specs::Lines::line_by))]
    fn read_fields(
        &mut self,
        alloc: Global,
        word: &[u8],
        fields: &mut Cursor<'_>,
    ) -> Result<(), LineError>
        ensures { Becomes result (line_by self.old word.now (fields_left fields.old)) self.new }
    {
        if word == b"world".as_slice() {
            self.read_world(fields)
        } else if word == b"block".as_slice() {
            self.read_block(alloc, fields)
        } else if word == b"prepare".as_slice() {
            self.read_prepare(alloc, fields)
        } else if word == b"propose".as_slice() {
            self.read_propose(alloc, fields)
        } else {
            self.read_event(alloc, word, fields)
        }
    }

    /// Reads one line more, without its LF.
    #[tactic(auto, unfolding(crate::specs::Lines::read_line, crate::specs::Lines::line_of))]
    fn read_line(&mut self, alloc: Global, text: &[u8]) -> Result<(), LineError>
        ensures { Becomes result (read_line self.old text.now) self.new }
    {
        if !all_ascii(text) {
            return Err(LineError::Refused);
        }
        if text.is_empty() || text[0] == b'#' {
            return Ok(());
        }
        let mut fields = Cursor::new(text);
        match fields.next_field() {
            Some(word) => self.read_fields(alloc, word, &mut fields),
            None => Err(LineError::Refused),
        }
    }
}

/// The script that bytes spell, of whatever length.
///
/// `Line` names the first line that no rule reads, from 1, and comes exactly where there is one.
/// The time grows with the bytes, and for each line that names a block with the number of names
/// before it: a name is looked up by a look at each.
#[tactic(auto, unfolding(crate::specs::Script::script_or_line))]
pub fn read_script(alloc: Global, bytes: &[u8]) -> Result<Script, ScriptError>
    ensures exact { Reads result (script_or_line bytes.now) }
    ensures plan { IfOk result (λ script. IsPlan script) }
{
    let mut script = Script::start(alloc)?;
    let mut rest = bytes;
    let mut number = 1u64;
    'lines: while let Some((text, after)) = cut(rest, b'\n') {
        match script.read_line(alloc, text) {
            Ok(()) => {}
            Err(LineError::Refused) => return Err(ScriptError::Line(number)),
            Err(LineError::OutOfMemory) => return Err(ScriptError::OutOfMemory),
        }
        rest = after;
        number += 1;
    }
    if rest.is_empty() {
        Ok(script)
    } else {
        Err(ScriptError::Line(number))
    }
}
