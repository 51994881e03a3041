//! The lines of a script that stand for events.

ghost use Rattle.std.specs.Prelude.{◌≡◌, ℕ, Some, None, MatchOption};
ghost use Rattle.stateful_script.specs.Cursor.{fields_left};
ghost use Rattle.stateful_script.specs.EventLines.{verify_of, finalize_of, cancel_of, answer};
ghost use Rattle.stateful_script.specs.EventLines.{fetched_of, turn_of, flushed_of, processed};
ghost use Rattle.stateful_script.specs.EventLines.{numbers_at, restart_of, event_by};
ghost use Rattle.stateful_script.specs.Fields.{field_as};
ghost use Rattle.stateful_script.specs.Named.{block_at};
ghost use Rattle.stateful_script.specs.Refusal.{Leaves};

use crate::cursor::Cursor;
use crate::error::LineError;
use crate::field::{last_word, next_number, number};
use crate::script::{PlannedEvent, Script};
use stateful_base::{Height, Items};
use std::alloc::Global;

/// The height that a field spells, or none where it spells `none`.
#[tactic(auto, unfolding(crate::specs::EventLines::processed))]
fn processed(field: &[u8]) -> Option<Option<Height>>
    ensures { result ≡ processed field.now }
{
    if field == b"none".as_slice() {
        return Some(None);
    }
    Some(Some(Height(number(field)?)))
}

#[tactic(auto, unfolding(crate::specs::EventLines::cancel_of))]
fn parse_cancel(fields: &mut Cursor<'_>) -> Option<PlannedEvent>
    ensures { MatchOption result (cancel_of (fields_left fields.old) ≡ None)
        (λ event. cancel_of (fields_left fields.old) ≡ Some (event, fields_left fields.new)) }
{
    Some(PlannedEvent::Cancel(next_number(fields)?))
}

#[tactic(auto, unfolding(crate::specs::EventLines::turn_of))]
fn parse_turn(fields: &mut Cursor<'_>) -> Option<PlannedEvent>
    ensures { MatchOption result (turn_of (fields_left fields.old) ≡ None)
        (λ event. turn_of (fields_left fields.old) ≡ Some (event, fields_left fields.new)) }
{
    Some(PlannedEvent::Turn(next_number(fields)?))
}

#[tactic(auto, unfolding(crate::specs::EventLines::flushed_of))]
fn parse_flushed(fields: &mut Cursor<'_>) -> Option<PlannedEvent>
    ensures { MatchOption result (flushed_of (fields_left fields.old) ≡ None)
        (λ event. flushed_of (fields_left fields.old) ≡ Some (event, fields_left fields.new)) }
{
    let barrier = next_number(fields)?;
    let database = next_number(fields)?;
    let stopped = last_word(b"stopped", fields)?;
    Some(PlannedEvent::Flushed {
        barrier,
        database,
        stopped,
    })
}

/// Reads so many numbers.
fn next_numbers(
    alloc: Global,
    count: usize,
    fields: &mut Cursor<'_>,
) -> Result<Items<usize>, LineError>
    ensures { Leaves result (numbers_at count (fields_left fields.old)) (fields_left fields.new) }
{
    let mut numbers = Items::new(alloc);
    'numbers: while numbers.len() < count {
        match next_number(fields) {
            Some(number) => numbers.push(number as usize)?,
            None => return Err(LineError::Refused),
        }
    }
    Ok(numbers)
}

impl Script {
    /// Reads a name that was given. It goes by its place.
    #[tactic(auto, unfolding(crate::specs::Named::block_at))]
    pub fn next_block(&self, fields: &mut Cursor<'_>) -> Option<usize>
        ensures { MatchOption result (block_at self.now (fields_left fields.old) ≡ None)
            (λ p. block_at self.now (fields_left fields.old) ≡ Some (p, fields_left fields.new)) }
    {
        self.place(fields.next_field()?)
    }

    #[tactic(auto, unfolding(crate::specs::EventLines::verify_of))]
    fn parse_verify(&self, fields: &mut Cursor<'_>) -> Option<PlannedEvent>
        ensures { MatchOption result (verify_of self.now (fields_left fields.old) ≡ None)
            (λ event. verify_of self.now (fields_left fields.old)
            ≡ Some (event, fields_left fields.new)) }
    {
        let block = self.next_block(fields)?;
        let alone = last_word(b"alone", fields)?;
        Some(PlannedEvent::Verify { block, alone })
    }

    #[tactic(auto, unfolding(crate::specs::EventLines::finalize_of))]
    fn parse_finalize(&self, fields: &mut Cursor<'_>) -> Option<PlannedEvent>
        ensures { MatchOption result (finalize_of self.now (fields_left fields.old) ≡ None)
            (λ event. finalize_of self.now (fields_left fields.old)
            ≡ Some (event, fields_left fields.new)) }
    {
        Some(PlannedEvent::Finalize(self.next_block(fields)?))
    }

    /// The place of the name that a field spells, or none where it spells `none`.
    #[tactic(auto, unfolding(crate::specs::EventLines::answer))]
    fn answer(&self, field: &[u8]) -> Option<Option<usize>>
        ensures { result ≡ answer self.now field.now }
    {
        if field == b"none".as_slice() {
            return Some(None);
        }
        Some(Some(self.place(field)?))
    }

    #[tactic(auto, unfolding(crate::specs::EventLines::fetched_of))]
    fn parse_fetched(&self, fields: &mut Cursor<'_>) -> Option<PlannedEvent>
        ensures { MatchOption result (fetched_of self.now (fields_left fields.old) ≡ None)
            (λ event. fetched_of self.now (fields_left fields.old)
            ≡ Some (event, fields_left fields.new)) }
    {
        let fetch = next_number(fields)?;
        let answer = self.answer(fields.next_field()?)?;
        Some(PlannedEvent::Fetched { fetch, answer })
    }

    #[tactic(auto, unfolding(crate::specs::EventLines::restart_of))]
    fn parse_restart(
        &self,
        alloc: Global,
        fields: &mut Cursor<'_>,
    ) -> Result<PlannedEvent, LineError>
        ensures { Leaves result (restart_of self.now (fields_left fields.old))
            (fields_left fields.new) }
    {
        let field = fields.next_field().ok_or(LineError::Refused)?;
        let processed = processed(field).ok_or(LineError::Refused)?;
        let keep = next_numbers(alloc, self.databases(), fields)?;
        Ok(PlannedEvent::Restart { processed, keep })
    }

    /// Reads an event line behind its first word, but for its end.
    #[tactic(auto, unfolding(crate::specs::EventLines::event_by))]
    pub fn parse_event(
        &self,
        alloc: Global,
        word: &[u8],
        fields: &mut Cursor<'_>,
    ) -> Result<PlannedEvent, LineError>
        ensures { Leaves result (event_by self.now word.now (fields_left fields.old))
            (fields_left fields.new) }
    {
        if word == b"verify".as_slice() {
            self.parse_verify(fields).ok_or(LineError::Refused)
        } else if word == b"finalize".as_slice() {
            self.parse_finalize(fields).ok_or(LineError::Refused)
        } else if word == b"subscribe".as_slice() {
            Ok(PlannedEvent::Subscribe)
        } else if word == b"cancel".as_slice() {
            parse_cancel(fields).ok_or(LineError::Refused)
        } else if word == b"fetched".as_slice() {
            self.parse_fetched(fields).ok_or(LineError::Refused)
        } else if word == b"turn".as_slice() {
            parse_turn(fields).ok_or(LineError::Refused)
        } else if word == b"flushed".as_slice() {
            parse_flushed(fields).ok_or(LineError::Refused)
        } else if word == b"stop".as_slice() {
            Ok(PlannedEvent::Stop)
        } else if word == b"restart".as_slice() {
            self.parse_restart(alloc, fields)
        } else {
            Err(LineError::Refused)
        }
    }
}
