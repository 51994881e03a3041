//! What the commands on databases are played on.

use stateful_bank_app::{Bank, BankBuild, BankRun, Drafted, Failing, Fresh, Sealed};
use stateful_bank_pair::Pair;
use stateful_bank_plain::Single;
use stateful_bank_triple::Triple;
use stateful_base::{Epoch, Round, View};
use stateful_db::DatabaseSet;
use stateful_shell::Page;
use std::alloc::Global;
use std::collections::BTreeMap;

/// The round of blocks that are run, built and kept.
pub(crate) const ROUND: Round = Round {
    epoch: Epoch(0),
    view: View(1),
};

/// A world whose batches may tell how deep they are.
pub(crate) trait Deep: Fresh {
    /// How many batches are above the databases in the chain of this one. None where none tells.
    fn depth(batch: &Sealed<Self>) -> Option<usize>;
}

impl Deep for Single {
    fn depth(_batch: &Sealed<Single>) -> Option<usize> {
        None
    }
}

impl Deep for Pair {
    fn depth(batch: &Sealed<Pair>) -> Option<usize> {
        Some(batch.0.depth())
    }
}

impl Deep for Triple {
    fn depth(batch: &Sealed<Triple>) -> Option<usize> {
        Some(batch.0.depth())
    }
}

/// The bank with its databases, the sealed batches by number, and the run or the build that was
/// begun last, with the number of its batch.
#[derive(Drop)]
pub(crate) struct Desk<W: Fresh> {
    pub(crate) bank: Bank<W>,
    pub(crate) databases: W::Databases,
    pub(crate) sealed: BTreeMap<u64, Sealed<W>>,
    pub(crate) number: u64,
    pub(crate) run: Option<BankRun<Drafted<W>>>,
    pub(crate) build: Option<BankBuild<Drafted<W>>>,
}

/// Empty databases, which are opened.
pub(crate) fn opened<W: Fresh>(alloc: Global) -> Desk<W> {
    let mut databases = W::empty(alloc, Failing::none(alloc));
    let _ = databases.init(&W::config(), None);
    Desk {
        bank: Bank::new(alloc),
        databases,
        sealed: BTreeMap::new(alloc),
        number: 0,
        run: None,
        build: None,
    }
}

/// A batch on the one of this number, or on the databases. None where it isn't kept, or where the
/// databases give none.
pub(crate) fn batch_on<W: Fresh>(desk: &mut Desk<W>, parent: u64) -> Option<Drafted<W>> {
    if parent == 0 {
        return desk.databases.new_batches().ok();
    }
    let parent = desk.sealed.get(&parent)?;
    desk.databases.fork_batches(parent).ok()
}

/// Keeps a sealed batch.
pub(crate) fn keep<W: Fresh>(desk: &mut Desk<W>, number: u64, sealed: Sealed<W>, page: &mut Page) {
    if desk.sealed.insert(number, sealed).is_err() {
        return page.lack();
    }
    page.say("batch")
}
