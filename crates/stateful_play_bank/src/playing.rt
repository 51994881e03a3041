//! A script's play, in its world.

ghost use Rattle.std.specs.Prelude.{◌≡◌, IfOk};
ghost use Rattle.stateful_script.specs.Laws.{IsPlan};
ghost use Rattle.stateful_play_bank.specs.Play.{IsPlayIn, IsPlayOf};
ghost use Rattle.stateful_play_bank.specs.Shown.{AreShown};

use crate::shown::shown;
use stateful_actor::Halted;
use stateful_bank::{Ask, BankBlock};
use stateful_bank_pair::Pair;
use stateful_bank_plain::Single;
use stateful_bank_triple::{AmountLogs, Triple};
use stateful_db::Held;
use stateful_db_any::AnyDb;
use stateful_db_keyless::KeylessDb;
use stateful_db_plain::Plain;
use stateful_history::Entry;
use stateful_play_world::play_in;
use stateful_script::{Script, World};
use stateful_script_text::{Label, Shown};
use stateful_types::{OutOfMemory, Round};
use std::alloc::Global;

/// The entries of a play, by its world.
#[derive(Drop)]
pub enum History {
    Plain(Vec<Entry<BankBlock, Round, Ask>>),
    Pair(Vec<Entry<BankBlock, Round, Ask>>),
    Triple(Vec<Entry<BankBlock, Round, Ask>>),
}

/// The databases of a play, by its world.
#[derive(Drop)]
pub enum Databases {
    Plain(Held<Plain>),
    Pair((Held<AnyDb<u64, u64>>, Held<KeylessDb<u64>>)),
    Triple((Held<AnyDb<u64, u64>>, AmountLogs)),
}

/// What was played: the entries, the databases as they are after them, and the refused event if one
/// was.
#[derive(Drop)]
pub struct Played {
    pub world: World,
    pub history: History,
    pub databases: Databases,
    pub end: Option<Halted>,
}

/// A play, the names of its blocks, and what is shown of its databases.
#[derive(Drop)]
pub struct Told {
    pub labels: Vec<Label>,
    pub shown: Vec<Shown>,
    pub played: Played,
}

/// Plays a script over one database.
fn in_plain(alloc: Global, script: &Script) -> Result<Told, OutOfMemory>
    requires { IsPlan script.now }
    ensures world { IfOk result (λ told. told.played.world ≡ World.Plain) }
    ensures play { IfOk result (λ told. IsPlayIn script.now told.labels.items told.played.«end»
        told.played.history told.played.databases) }
    ensures shown { IfOk result (λ told. AreShown told.played.databases told.shown.items) }
{
    let played = play_in::<Single>(alloc, script)?;
    let databases = Databases::Plain(played.databases);
    Ok(Told {
        labels: played.labels,
        shown: shown(alloc, &databases)?,
        played: Played {
            world: World::Plain,
            history: History::Plain(played.history),
            databases,
            end: played.end,
        },
    })
}

/// Plays a script over two databases.
fn in_pair(alloc: Global, script: &Script) -> Result<Told, OutOfMemory>
    requires { IsPlan script.now }
    ensures world { IfOk result (λ told. told.played.world ≡ World.Pair) }
    ensures play { IfOk result (λ told. IsPlayIn script.now told.labels.items told.played.«end»
        told.played.history told.played.databases) }
    ensures shown { IfOk result (λ told. AreShown told.played.databases told.shown.items) }
{
    let played = play_in::<Pair>(alloc, script)?;
    let databases = Databases::Pair(played.databases);
    Ok(Told {
        labels: played.labels,
        shown: shown(alloc, &databases)?,
        played: Played {
            world: World::Pair,
            history: History::Pair(played.history),
            databases,
            end: played.end,
        },
    })
}

/// Plays a script over three databases.
fn in_triple(alloc: Global, script: &Script) -> Result<Told, OutOfMemory>
    requires { IsPlan script.now }
    ensures world { IfOk result (λ told. told.played.world ≡ World.Triple) }
    ensures play { IfOk result (λ told. IsPlayIn script.now told.labels.items told.played.«end»
        told.played.history told.played.databases) }
    ensures shown { IfOk result (λ told. AreShown told.played.databases told.shown.items) }
{
    let played = play_in::<Triple>(alloc, script)?;
    let databases = Databases::Triple(played.databases);
    Ok(Told {
        labels: played.labels,
        shown: shown(alloc, &databases)?,
        played: Played {
            world: World::Triple,
            history: History::Triple(played.history),
            databases,
            end: played.end,
        },
    })
}

/// Plays a script in its world. Where the machine wants memory there is no play.
pub fn play(alloc: Global, script: &Script) -> Result<Told, OutOfMemory>
    requires { IsPlan script.now }
    ensures play { IfOk result (λ told. IsPlayOf script.now told.labels.items told.played) }
    ensures shown { IfOk result (λ told. AreShown told.played.databases told.shown.items) }
{
    match script.world.unwrap_or(World::Plain) {
        World::Plain => in_plain(alloc, script),
        World::Pair => in_pair(alloc, script),
        World::Triple => in_triple(alloc, script),
    }
}
