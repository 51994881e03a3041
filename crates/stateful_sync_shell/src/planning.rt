//! What a node remembers of its sync.

use crate::shown::push_digest;
use crate::words::{bytes, digest, round};
use stateful_shell::{Page, number, parsed, rest, word};
use stateful_sync::{MemoryPlanStore, PlanCall, PlanError, Start, SyncPlan, SyncState};
use stateful_types::{Digest, Faulty, Finalization, Height, Items, View, VoteScheme};

/// What a node remembers, over a store in memory.
pub(crate) type Plan = SyncPlan<MemoryPlanStore, VoteScheme>;

/// Prints a floor.
fn push_floor(floor: &Finalization<Items<u32>>, page: &mut Page) {
    page.field("floor ", floor.round.epoch.0);
    page.field(".", floor.round.view.0);
    page.field(" on view ", floor.parent.0);
    push_digest(", ", floor.payload, page);
    page.push(", signers ");
    page.debug(&floor.certificate.as_slice())
}

/// Prints a completion.
fn push_completion(height: Height, digest: Option<Digest>, page: &mut Page) {
    page.field("completed ", height.0);
    match digest {
        Some(digest) => push_digest(", ", digest, page),
        None => page.push(", no digest"),
    }
}

/// Prints what came of a call, what the plan remembers then, and whether a start of the node syncs,
/// where it isn't asked to and where it is.
fn say_plan(came: &str, plan: &Plan, page: &mut Page) {
    page.push(came);
    if let Some(floor) = plan.floor() {
        push_floor(floor, page);
    } else if let Some(height) = plan.completed() {
        push_completion(height, plan.completed_digest(), page);
    } else {
        page.push("nothing");
    }
    page.say(match (plan.should_sync(false), plan.should_sync(true)) {
        (true, true) => "; syncs",
        (false, true) => "; syncs if asked",
        (false, false) => "; never syncs",
        (true, false) => "; syncs unless asked",
    })
}

/// Prints why a call was refused.
fn push_error(error: PlanError, page: &mut Page) {
    match error {
        PlanError::CompletedConflict {
            height,
            recorded,
            given,
        } => {
            page.field("CompletedConflict at ", height.0);
            push_digest(", recorded ", recorded, page);
            push_digest(", given ", given, page)
        }
        _ => page.debug(&error),
    }
}

/// A certificate of the signers that the words name.
fn signers(words: &[&str], page: &mut Page) -> Items<u32> {
    let mut signers = Items::new(page.alloc());
    for word in words.iter() {
        if signers.push(parsed(word, 0)).is_err() {
            page.lack();
        }
    }
    signers
}

/// Where marshal starts, and whether the node may sync.
fn say_start(plan: &Plan, genesis: u64, page: &mut Page) {
    match plan.marshal_start(genesis) {
        Start::Floor(floor) => push_floor(floor, page),
        Start::Genesis(genesis) => page.field("genesis ", genesis),
    }
    page.say(if plan.may_sync() {
        "; may sync"
    } else {
        "; may not sync"
    })
}

/// The calls of a store that fail.
fn failing(words: &[&str], page: &mut Page) -> Vec<(PlanCall, u64)> {
    let mut calls = Vec::new(page.alloc());
    for text in words.iter() {
        let (call, count) = text.split_once(':').unwrap_or((*text, ""));
        let call = if call == "load" {
            PlanCall::Load
        } else {
            PlanCall::Put
        };
        if calls.push((call, parsed(count, 0))).is_err() {
            page.lack();
        }
    }
    calls
}

/// Reads a state, and writes it again.
pub(crate) fn say_state(words: &[&str], page: &mut Page) {
    let mut input = bytes(word(words, 1), page);
    match SyncState::<VoteScheme>::read(page.alloc(), &mut input) {
        Ok(state) => {
            say_spelling(&state, input.as_slice(), page);
            drop(state)
        }
        Err(error) => {
            page.debug(&error);
            page.end()
        }
    }
    drop(input)
}

/// Prints a state, how many bytes it has, what is left unread behind them, and its bytes.
fn say_spelling(state: &SyncState<VoteScheme>, left: &[u8], page: &mut Page) {
    match state {
        SyncState::InProgress(floor) => push_floor(floor, page),
        SyncState::Complete { height, digest } => push_completion(*height, *digest, page),
    }
    page.field("\nsize ", state.encode_size() as u64);
    page.push(", left ");
    page.debug(&left);
    page.end();
    let mut written = Vec::new(page.alloc());
    page.note(state.write(&mut written));
    page.hex(written.as_slice());
    page.end()
}

/// Loads a plan from a store.
fn load(plan: &mut Option<Plan>, store: MemoryPlanStore, page: &mut Page) {
    match Plan::init(page.alloc(), store, "node") {
        Ok(loaded) => say_plan("loaded: ", plan.insert(loaded), page),
        Err(error) => {
            push_error(error, page);
            page.end()
        }
    }
}

/// A plan is loaded from a store of these bytes.
pub(crate) fn store(plan: &mut Option<Plan>, words: &[&str], page: &mut Page) {
    drop(plan.take());
    let calls = failing(rest(words, 2), page);
    let value = match word(words, 1) {
        "none" => None,
        name => Some(bytes(name, page)),
    };
    load(plan, MemoryPlanStore::new(value, calls), page)
}

/// The plan is loaded anew from its store, which tells its faults.
pub(crate) fn reload(plan: &mut Option<Plan>, page: &mut Page) {
    let Some(loaded) = plan.take() else {
        return page.say("no plan");
    };
    let store = loaded.into_store();
    page.field("faults ", store.faults());
    page.push(", ");
    load(plan, store, page)
}

/// Does what the words of a line say of the plan, once one was loaded. Behind a change it prints
/// what came of it, and what the plan remembers then.
pub(crate) fn play(plan: &mut Option<Plan>, words: &[&str], page: &mut Page) {
    let Some(plan) = plan else {
        return page.say("no plan");
    };
    let done = match word(words, 0) {
        "floor" => {
            let Some(round) = round(word(words, 1)) else {
                return page.say("refused");
            };
            plan.set_floor(Finalization {
                round,
                parent: View(0),
                payload: digest(word(words, 2)),
                certificate: signers(rest(words, 3), page),
            })
        }
        "complete" => plan.set_completed(Height(number(words, 1)), digest(word(words, 2))),
        _ => return say_start(plan, number(words, 1), page),
    };
    match done {
        Ok(()) => page.push("ok"),
        Err(error) => push_error(error, page),
    }
    say_plan(": ", plan, page)
}
