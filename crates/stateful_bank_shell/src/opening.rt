//! Commands on a store of blocks, and on databases that are opened at one of them.

use crate::desk::{Desk, ROUND};
use crate::shown::{print_digest, print_target};
use crate::words::targets;
use hex::FromHex;
use stateful_bank::BankBlock;
use stateful_bank_app::{Bank, Failing, Fresh};
use stateful_base::{Anchor, Digest, Digested, Height, Items, MemoryStore};
use stateful_db::DatabaseSet;
use stateful_shell::{Page, word};
use stateful_sync_plan::{Missing, SyncError, open_set};
use std::alloc::Global;

/// The blocks that are kept, from height 0 on, and the anchor of the last one.
#[derive(Drop)]
pub(crate) struct Chain {
    store: MemoryStore<BankBlock>,
    last: Option<Anchor>,
}

impl Chain {
    /// No blocks.
    pub(crate) fn new(alloc: Global) -> Chain {
        Chain {
            store: MemoryStore::new(alloc),
            last: None,
        }
    }
}

/// Prints an anchor.
fn print_anchor(name: &str, anchor: Anchor, page: &mut Page) {
    page.push(name);
    page.field(" height ", anchor.height.0);
    page.field(" epoch ", anchor.round.epoch.0);
    page.field(" view ", anchor.round.view.0);
    page.end();
    print_digest("digest ", anchor.digest, page)
}

/// Keeps one block more.
pub(crate) fn keep(chain: &mut Chain, words: &[&str], page: &mut Page) {
    let alloc = page.alloc();
    let targets = targets(words, page);
    let ops = Items::new(alloc);
    let block = match chain.last {
        None => Some(BankBlock::genesis(alloc, targets)),
        Some(parent) => BankBlock::child(parent.height, parent.digest, ROUND, ops, targets),
    };
    let Some(block) = block else {
        return page.say("no height is left");
    };
    let Ok(block) = Digested::compute(alloc, block) else {
        return page.lack();
    };
    let anchor = Anchor::from_block(&block);
    if chain.store.insert(block).is_err() {
        return page.lack();
    }
    chain.last = Some(anchor);
    print_anchor("kept", anchor, page)
}

/// Prints why databases didn't open.
fn print_refusal(refusal: SyncError, page: &mut Page) {
    page.line(&refusal);
    match refusal {
        SyncError::Database { index } => {
            page.push("index ");
            page.line(&index)
        }
        SyncError::TargetMismatch {
            index,
            expected,
            recovered,
        } => {
            page.push("index ");
            page.line(&index);
            print_target("expected ", &expected, page);
            print_target("recovered ", &recovered, page)
        }
        SyncError::MissingBlock(Missing::AtHeight(Height(height))) => {
            page.field("height ", height);
            page.end()
        }
        SyncError::CompletedConflict {
            height: Height(height),
            recorded,
            given,
        } => {
            page.field("height ", height);
            page.end();
            print_digest("recorded ", recorded, page);
            print_digest("given ", given, page)
        }
        _ => {}
    }
}

/// Prints how databases opened, and whether they are here.
fn print_opened(opened: Result<Anchor, SyncError>, is_here: bool, page: &mut Page) {
    match opened {
        Ok(anchor) => print_anchor("opened", anchor, page),
        Err(refusal) => print_refusal(refusal, page),
    }
    page.push("here ");
    page.line(&is_here)
}

/// The height of a word, if it stands for one.
fn height(word: &str) -> Option<Height> {
    word.parse::<u64>().ok().map(Height)
}

/// The digest of a word, if it stands for one.
fn digest(word: &str) -> Option<Digest> {
    <[u8; 32] as FromHex>::from_hex(word).ok().map(Digest)
}

/// Opens empty databases where the node has come to these heights.
pub(crate) fn open<W: Fresh>(desk: &mut Desk<W>, chain: &Chain, words: &[&str], page: &mut Page) {
    let processed = height(word(words, 1));
    let digest = digest(word(words, 3));
    let completed = height(word(words, 2)).map(|height| (height, digest));
    desk.databases = W::empty(page.alloc(), Failing::none(page.alloc()));
    let opened = open_set::<Bank<W>, _>(
        &mut desk.databases,
        &W::config(),
        &chain.store,
        processed,
        completed,
    );
    print_opened(opened, desk.databases.is_here(), page)
}
