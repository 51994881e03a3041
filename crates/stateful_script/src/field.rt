//! What a field may spell: a number, an account, a name.

ghost use Rattle.std.specs.Prelude.{◌≡◌, ◌^◌, ◌-◌, ◌<◌, ◌≤◌, ◌==◌, ◌||◌, length, true, false, Some};
ghost use Rattle.std.specs.Prelude.{None, MatchOption};
ghost use Rattle.std.specs.List.{list_all};
ghost use Rattle.std.specs.Char.{is_ascii_digit, is_ascii_lowercase};
ghost use Rattle.stateful_script.specs.Fields.{is_numeral, number_to, is_name_byte, is_name};
ghost use Rattle.stateful_script.specs.Fields.{number_at, account_at, turns_at, after_word};
ghost use Rattle.stateful_script.specs.Fields.{last_word};
ghost use Rattle.stateful_script.specs.Cursor.{fields_left};

use crate::cursor::Cursor;
use std::str;

fn all_digits(field: &[u8]) -> bool
    ensures { result ≡ list_all is_ascii_digit field.now }
{
    field.iter().all(|b| b.is_ascii_digit())
}

#[tactic(auto, unfolding(crate::specs::Fields::is_numeral))]
fn is_numeral(field: &[u8]) -> bool
    ensures { result ≡ is_numeral field.now }
{
    if field.is_empty() {
        return false;
    }
    if field[0] == b'0' && field.len() > 1 {
        return false;
    }
    all_digits(field)
}

/// The number that a field spells: decimal digits without a leading zero, up to `u64::MAX`.
#[tactic(auto, unfolding(crate::specs::Fields::number_to))]
pub fn number(field: &[u8]) -> Option<u64>
    ensures { result ≡ number_to (2 ^ 64 - 1) field.now }
{
    if !is_numeral(field) {
        return None;
    }
    match str::from_utf8(field) {
        Ok(text) => text.parse().ok(),
        Err(_) => None,
    }
}

/// The account that a field spells: a number up to 65535.
#[tactic(auto, unfolding(crate::specs::Fields::number_to))]
pub fn account(field: &[u8]) -> Option<u16>
    ensures { result ≡ number_to 65535 field.now }
{
    u16::try_from(number(field)?).ok()
}

/// The number of turns that a field spells: a number up to 9.
#[tactic(auto, unfolding(crate::specs::Fields::number_to))]
fn turns(field: &[u8]) -> Option<u8>
    ensures { result ≡ number_to 9 field.now }
{
    let turns = number(field)?;
    if turns > 9 {
        return None;
    }
    Some(turns as u8)
}

fn is_name_byte(byte: u8) -> bool
    ensures { result ≡ is_name_byte byte }
{
    byte.is_ascii_lowercase() || byte.is_ascii_digit()
}

fn all_name_bytes(field: &[u8]) -> bool
    ensures { result ≡ list_all is_name_byte field.now }
{
    field.iter().all(|b| is_name_byte(*b))
}

#[tactic(auto, unfolding(crate::specs::Fields::is_name))]
pub fn is_name(field: &[u8]) -> bool
    ensures { result ≡ is_name field.now }
{
    if field.is_empty() || field.len() > 16 {
        return false;
    }
    if !field[0].is_ascii_lowercase() {
        return false;
    }
    all_name_bytes(field)
}

/// The field as text, where it is a name: a letter a to z, and up to 15 letters a to z or digits.
pub fn name(field: &[u8]) -> Option<&str>
    ensures { MatchOption result (is_name field.now ≡ false) (λ name. (is_name field.now ≡ true)
        × (name.now ≡ field.now)) }
{
    if !is_name(field) {
        return None;
    }
    match str::from_utf8(field) {
        Ok(text) => Some(text),
        Err(_) => None,
    }
}

/// Reads a number.
#[tactic(auto, unfolding(crate::specs::Fields::number_at))]
pub fn next_number(fields: &mut Cursor<'_>) -> Option<u64>
    ensures read { MatchOption result (number_at (fields_left fields.old) ≡ None)
        (λ n. number_at (fields_left fields.old) ≡ Some (n, fields_left fields.new)) }
    ensures shorter { length (fields_left fields.new) ≤ length (fields_left fields.old) }
{
    number(fields.next_field()?)
}

/// Reads an account.
#[tactic(auto, unfolding(crate::specs::Fields::account_at))]
pub fn next_account(fields: &mut Cursor<'_>) -> Option<u16>
    ensures read { MatchOption result (account_at (fields_left fields.old) ≡ None)
        (λ n. account_at (fields_left fields.old) ≡ Some (n, fields_left fields.new)) }
    ensures shorter { length (fields_left fields.new) ≤ length (fields_left fields.old) }
{
    account(fields.next_field()?)
}

/// Reads a number of turns, up to 9.
#[tactic(auto, unfolding(crate::specs::Fields::turns_at))]
pub fn next_turns(fields: &mut Cursor<'_>) -> Option<u8>
    ensures read { MatchOption result (turns_at (fields_left fields.old) ≡ None)
        (λ n. turns_at (fields_left fields.old) ≡ Some (n, fields_left fields.new)) }
    ensures shorter { length (fields_left fields.new) ≤ length (fields_left fields.old) }
{
    turns(fields.next_field()?)
}

/// Reads this word.
#[tactic(auto, unfolding(crate::specs::Fields::after_word))]
pub fn after_word(word: &[u8], fields: &mut Cursor<'_>) -> Option<()>
    ensures { MatchOption result (after_word word.now (fields_left fields.old) ≡ None)
        (λ _. after_word word.now (fields_left fields.old) ≡ Some (fields_left fields.new)) }
{
    (fields.next_field()? == word).then_some(())
}

/// Whether this word stands at the end of the line. None where the line goes on in another way.
#[tactic(auto, unfolding(crate::specs::Fields::last_word))]
pub fn last_word(word: &[u8], fields: &mut Cursor<'_>) -> Option<bool>
    ensures { MatchOption result (last_word word.now (fields_left fields.old) ≡ None)
        (λ there. last_word word.now (fields_left fields.old)
        ≡ Some (there, fields_left fields.new)) }
{
    match fields.next_field() {
        Some(field) => (field == word).then_some(true),
        None => Some(false),
    }
}

/// Whether no field is left.
pub fn is_at_end(fields: &mut Cursor<'_>) -> bool
    ensures { result ≡ (length (fields_left fields.old) == 0) }
{
    fields.next_field().is_none()
}
