//! A script's play.

ghost use Rattle.std.specs.Prelude.{◌≡◌, ℕ, [], Option, IfOk};
ghost use Rattle.stateful_base.specs.Names.{Named};
ghost use Rattle.stateful_bank.specs.declared.block.BankBlock.{BankBlock as Block};
ghost use Rattle.stateful_script.specs.Laws.{IsPlan};
ghost use Rattle.stateful_loop_model.specs.Moments.{moment};
ghost use Rattle.stateful_actor_laws.specs.Machine.{IsNew};
ghost use Rattle.stateful_actor_laws.specs.Media.{IsAsAtStart, MediaStand};
ghost use Rattle.stateful_play_world.specs.Grounds.{bank};
ghost use Rattle.stateful_play_world.specs.Play.{IsPlayOn};

use crate::driving::drive_all;
use crate::grounds::Grounded;
use stateful_actor::{Config, DatabaseSet, Halted, NewError, Stateful};
use stateful_bank::{Ask, BankBlock};
use stateful_bank_app::{Bank, Failing, Fresh};
use stateful_base::{OutOfMemory, Round};
use stateful_history::Entry;
use stateful_script::Script;
use stateful_script_plan::{events, label_blocks, plan_blocks, store_of};
use stateful_script_text::Label;
use std::alloc::Global;

/// What was played over the databases of a world: the names of the blocks, the entries, the
/// databases as they are after them, and the refused event if one was.
#[derive(Drop)]
pub struct PlayedIn<W: Fresh> {
    pub labels: Vec<Label>,
    pub history: Vec<Entry<BankBlock, Round, Ask>>,
    pub databases: W::Databases,
    pub end: Option<Halted>,
}

/// A machine that is down.
fn new_machine<W: Fresh>(alloc: Global) -> Result<Stateful<Bank<W>>, OutOfMemory>
    ensures new { IfOk result (λ stateful. let w = bank ⟦<W as Grounded>⟧.grounds in
        (m : W.Databases.kind.Members) (n : W.Databases.Ids)
        → IsNew w stateful.failed stateful.register
        (moment w stateful.execution stateful.loop m n [])) }
    ensures media { IfOk result (λ stateful. let w = bank ⟦<W as Grounded>⟧.grounds in
        (stored : ℕ → Option (Named Block)) (m : W.Databases.kind.Members) (n : W.Databases.Ids)
        → IsAsAtStart w stored m
        → MediaStand w stored [] stateful.failed
        (moment w stateful.execution stateful.loop m n [])) }
{
    let config = Config {
        application: Bank::new(alloc),
        db_config: W::config(),
        provider: (),
    };
    match Stateful::new(alloc, config) {
        Ok(stateful) => Ok(stateful),
        Err(NewError::OutOfMemory) => Err(OutOfMemory),
    }
}

/// Plays a script over empty databases of this world. Where the machine wants memory there is no
/// play.
pub fn play_in<W: Fresh>(alloc: Global, script: &Script) -> Result<PlayedIn<W>, OutOfMemory>
    requires { IsPlan script.now }
    ensures { IfOk result (λ played. IsPlayOn played.databases ⟦<W as Grounded>⟧.grounds script.now
        played.labels.items played.history.items played.end) }
{
    let planned = plan_blocks::<W>(alloc, script.blocks.as_slice())?;
    let labels = label_blocks(alloc, script.names.as_slice(), planned.as_slice())?;
    let mut store = store_of(alloc, planned.as_slice(), script.events.as_slice())?;
    let events = events(alloc, planned.as_slice(), script.events.as_slice())?;
    let stateful = new_machine::<W>(alloc)?;
    let (driven, end) = drive_all(
        alloc,
        stateful,
        W::empty(alloc, Failing::none(alloc)),
        &mut store,
        events,
    )?;
    Ok(PlayedIn {
        labels,
        history: driven.history,
        databases: driven.databases,
        end,
    })
}
