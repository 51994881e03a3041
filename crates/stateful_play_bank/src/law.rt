//! A law of what is shown of databases.

ghost use Rattle.stateful_play_bank.specs.Shown.{AreShownOnce};

use stateful_db_any::entries_are_one;

/// What is shown of the databases of a play is pinned: no other list is shown of them.
pub fn databases_are_shown_once()
    ensures { AreShownOnce }
{
    entries_are_one::<u64, u64>();
}
