//! Hooks behind finalized blocks.

ghost use Rattle.std.specs.Prelude.{◌≡◌, ◌-◌, ◌+◌, ℕ, Some};
ghost use Rattle.stateful_db.specs.Hooks.{left};
ghost use Rattle.stateful_db.specs.Works.{Costs, CostsHook};
ghost use Rattle.stateful_bank_app.specs.Hooks.{IsLeft, GoesOn};

use stateful_db::Hooked;
use stateful_types::{Faulty, Moved};

/// A hook, by the turns that are left of it. It never fails.
#[derive(Clone, Copy, Debug, PartialEq, Eq)]
pub struct BankHook {
    left: u8,
}

impl Faulty for BankHook {
    ghost count = { λ _. 0 };

    fn faults(&self) -> u64 {
        0
    }
}

/// A hook of so many turns.
pub(crate) fn hook_of(turns: u8) -> Hooked<BankHook>
    ensures hook { IsLeft result turns 0 }
    ensures cost { CostsHook (Some turns) result }
{
    if turns == 0 {
        Hooked::Done
    } else {
        Hooked::Pending(BankHook { left: turns })
    }
}

/// One turn of a hook.
pub(crate) fn turn_hook(hook: &mut BankHook) -> Moved<()>
    ensures left { hook.new.left ≡ hook.old.left - 1 }
    ensures goes_on { GoesOn result hook.new.left }
    ensures taken { (turns taken : ℕ) →
        IsLeft (Hooked.Pending hook.old) turns taken →
        IsLeft (left result hook.new) turns (taken + 1) }
    ensures cost { (turns taken : ℕ) →
        IsLeft (Hooked.Pending hook.old) turns taken →
        Costs (Some turns) result taken }
{
    hook.left = hook.left.saturating_sub(1);
    if hook.left == 0 {
        Moved::Done(())
    } else {
        Moved::Pending
    }
}
