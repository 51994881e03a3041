//! The items of a line that names a block.

ghost use Rattle.std.specs.Prelude.{◌≡◌, ◌==◌, ◌≤◌, ℕ, List, Some, None, MatchOption, IfOk};
ghost use Rattle.std.specs.Prelude.{option_map, count_by, length};
ghost use Rattle.std.specs.List.{list_all, filter_map};
ghost use Rattle.stateful_script.specs.BlockItems.{mint_at, move_at, height_at, epoch_at, slow_at};
ghost use Rattle.stateful_script.specs.BlockItems.{item_by, items_of, build_items_of, op_of};
ghost use Rattle.stateful_script.specs.BlockItems.{height_of, epoch_of, turns_of, is_wrong};
ghost use Rattle.stateful_script.specs.BlockItems.{is_for_builds, at_most_one, said_of};
ghost use Rattle.stateful_script.specs.Cursor.{fields_left};
ghost use Rattle.stateful_script.specs.Refusal.{Gives};

use crate::cursor::Cursor;
use crate::error::LineError;
use crate::field::{next_account, next_number, next_turns};
use stateful_bank::{MAX_OPS, Op};
use stateful_base::Items;
use std::alloc::{AllocError, Global};

/// What a line lists of a block.
#[derive(Clone, Copy, Debug, PartialEq, Eq)]
pub enum Item {
    Op(Op),
    Height(u64),
    Epoch(u64),
    Slow(u8),
    Wrong,
}

impl Item {
    fn op(&self) -> Option<Op>
        ensures { result ≡ op_of self.now }
    {
        match self {
            Item::Op(op) => Some(*op),
            _ => None,
        }
    }

    fn height(&self) -> Option<u64>
        ensures { result ≡ height_of self.now }
    {
        match self {
            Item::Height(height) => Some(*height),
            _ => None,
        }
    }

    fn epoch(&self) -> Option<u64>
        ensures { result ≡ epoch_of self.now }
    {
        match self {
            Item::Epoch(epoch) => Some(*epoch),
            _ => None,
        }
    }

    fn turns(&self) -> Option<u8>
        ensures { result ≡ turns_of self.now }
    {
        match self {
            Item::Slow(turns) => Some(*turns),
            _ => None,
        }
    }

    fn is_wrong(&self) -> bool
        ensures { result ≡ is_wrong self.now }
    {
        matches!(self, Item::Wrong)
    }

    /// Whether it may stand where a build is asked for.
    fn is_for_builds(&self) -> bool
        ensures { result ≡ is_for_builds self.now }
    {
        matches!(self, Item::Op(_) | Item::Epoch(_))
    }
}

#[tactic(auto, unfolding(crate::specs::BlockItems::mint_at))]
fn parse_mint(fields: &mut Cursor<'_>) -> Option<Item>
    ensures item { MatchOption result (mint_at (fields_left fields.old) ≡ None)
        (λ item. mint_at (fields_left fields.old) ≡ Some (item, fields_left fields.new)) }
    ensures shorter { length (fields_left fields.new) ≤ length (fields_left fields.old) }
{
    let account = next_account(fields)?;
    let amount = next_number(fields)?;
    Some(Item::Op(Op::Mint { account, amount }))
}

#[tactic(auto, unfolding(crate::specs::BlockItems::move_at))]
fn parse_move(fields: &mut Cursor<'_>) -> Option<Item>
    ensures item { MatchOption result (move_at (fields_left fields.old) ≡ None)
        (λ item. move_at (fields_left fields.old) ≡ Some (item, fields_left fields.new)) }
    ensures shorter { length (fields_left fields.new) ≤ length (fields_left fields.old) }
{
    let from = next_account(fields)?;
    let to = next_account(fields)?;
    let amount = next_number(fields)?;
    Some(Item::Op(Op::Move { from, to, amount }))
}

#[tactic(auto, unfolding(crate::specs::BlockItems::height_at))]
fn parse_height(fields: &mut Cursor<'_>) -> Option<Item>
    ensures item { MatchOption result (height_at (fields_left fields.old) ≡ None)
        (λ item. height_at (fields_left fields.old) ≡ Some (item, fields_left fields.new)) }
    ensures shorter { length (fields_left fields.new) ≤ length (fields_left fields.old) }
{
    Some(Item::Height(next_number(fields)?))
}

#[tactic(auto, unfolding(crate::specs::BlockItems::epoch_at))]
fn parse_epoch(fields: &mut Cursor<'_>) -> Option<Item>
    ensures item { MatchOption result (epoch_at (fields_left fields.old) ≡ None)
        (λ item. epoch_at (fields_left fields.old) ≡ Some (item, fields_left fields.new)) }
    ensures shorter { length (fields_left fields.new) ≤ length (fields_left fields.old) }
{
    Some(Item::Epoch(next_number(fields)?))
}

#[tactic(auto, unfolding(crate::specs::BlockItems::slow_at))]
fn parse_slow(fields: &mut Cursor<'_>) -> Option<Item>
    ensures item { MatchOption result (slow_at (fields_left fields.old) ≡ None)
        (λ item. slow_at (fields_left fields.old) ≡ Some (item, fields_left fields.new)) }
    ensures shorter { length (fields_left fields.new) ≤ length (fields_left fields.old) }
{
    Some(Item::Slow(next_turns(fields)?))
}

/// Reads an item behind its first word.
#[tactic(auto, unfolding(crate::specs::BlockItems::item_by))]
fn parse_item(word: &[u8], fields: &mut Cursor<'_>) -> Option<Item>
    ensures item { MatchOption result (item_by word.now (fields_left fields.old) ≡ None)
        (λ item. item_by word.now (fields_left fields.old) ≡ Some (item, fields_left fields.new)) }
    ensures shorter { length (fields_left fields.new) ≤ length (fields_left fields.old) }
{
    if word == b"mint".as_slice() {
        parse_mint(fields)
    } else if word == b"move".as_slice() {
        parse_move(fields)
    } else if word == b"height".as_slice() {
        parse_height(fields)
    } else if word == b"epoch".as_slice() {
        parse_epoch(fields)
    } else if word == b"slow".as_slice() {
        parse_slow(fields)
    } else if word == b"wrong".as_slice() {
        Some(Item::Wrong)
    } else {
        None
    }
}

/// Reads items up to the end of the line.
pub fn parse_items(alloc: Global, fields: &mut Cursor<'_>) -> Result<Items<Item>, LineError>
    ensures { Gives result (items_of (fields_left fields.old)) }
{
    let mut items = Items::new(alloc);
    'items: while let Some(word) = fields.next_field() {
        match parse_item(word, fields) {
            Some(item) => items.push(item)?,
            None => return Err(LineError::Refused),
        }
    }
    Ok(items)
}

fn are_for_builds(items: &[Item]) -> bool
    ensures { result ≡ list_all is_for_builds items.now }
{
    items.iter().all(|item| item.is_for_builds())
}

/// Reads items up to the end of the line, where a build is asked for.
#[tactic(auto, unfolding(crate::specs::BlockItems::build_items_of))]
pub fn parse_build_items(alloc: Global, fields: &mut Cursor<'_>) -> Result<Items<Item>, LineError>
    ensures { Gives result (build_items_of (fields_left fields.old)) }
{
    let items = parse_items(alloc, fields)?;
    if !are_for_builds(items.as_slice()) {
        return Err(LineError::Refused);
    }
    Ok(items)
}

/// What the items of a line say together.
#[derive(Debug, Drop)]
pub struct BlockItems {
    pub ops: Items<Op>,
    pub height: Option<u64>,
    pub epoch: u64,
    pub slow: u8,
    pub wrong: bool,
}

/// The one of these, if there is one. None where there are more.
#[tactic(auto, unfolding(crate::specs::BlockItems::at_most_one))]
fn at_most_one<T: Copy>(found: &[T]) -> Option<Option<T>>
    ensures { result ≡ at_most_one found.now }
{
    if found.len() > 1 {
        return None;
    }
    Some(found.first().copied())
}

fn ops_among(alloc: Global, items: &[Item]) -> Result<Vec<Op>, AllocError>
    ensures { IfOk result (λ ops. ops.items ≡ filter_map op_of items.now) }
{
    items.iter().filter_map(|item| item.op()).collect(alloc)
}

fn heights_among(alloc: Global, items: &[Item]) -> Result<Vec<u64>, AllocError>
    ensures { IfOk result (λ heights. heights.items ≡ filter_map height_of items.now) }
{
    items.iter().filter_map(|item| item.height()).collect(alloc)
}

fn epochs_among(alloc: Global, items: &[Item]) -> Result<Vec<u64>, AllocError>
    ensures { IfOk result (λ epochs. epochs.items ≡ filter_map epoch_of items.now) }
{
    items.iter().filter_map(|item| item.epoch()).collect(alloc)
}

fn turns_among(alloc: Global, items: &[Item]) -> Result<Vec<u8>, AllocError>
    ensures { IfOk result (λ turns. turns.items ≡ filter_map turns_of items.now) }
{
    items.iter().filter_map(|item| item.turns()).collect(alloc)
}

fn count_wrong(items: &[Item]) -> usize
    ensures { result ≡ count_by is_wrong items.now }
{
    items.iter().filter(|item| item.is_wrong()).count()
}

/// What items say together. Refused are more than 16 operations, and another one that stands twice.
#[tactic(auto, unfolding(crate::specs::BlockItems::said_of))]
pub fn said(alloc: Global, items: &[Item]) -> Result<BlockItems, LineError>
    ensures { Gives result (said_of items.now) }
{
    let heights = heights_among(alloc, items)?;
    let height = at_most_one(heights.as_slice()).ok_or(LineError::Refused)?;
    let epochs = epochs_among(alloc, items)?;
    let epoch = at_most_one(epochs.as_slice()).ok_or(LineError::Refused)?;
    let turns = turns_among(alloc, items)?;
    let slow = at_most_one(turns.as_slice()).ok_or(LineError::Refused)?;
    let wrong = count_wrong(items);
    let ops = ops_among(alloc, items)?;
    if wrong > 1 || ops.len() > MAX_OPS {
        return Err(LineError::Refused);
    }
    Ok(BlockItems {
        ops: Items::from_vec(ops),
        height,
        epoch: epoch.unwrap_or(0),
        slow: slow.unwrap_or(0),
        wrong: wrong == 1,
    })
}
