//! The rules of an application that takes one turn.

use crate::block::Payload;
use crate::draft::Draft;
use stateful_types::{OutOfMemory, Share};
use std::alloc::Global;

/// Rules by which blocks change the entries of one `Plain`, each in one turn.
///
/// Whoever writes an application of this kind implements this trait, and has by it the application
/// `OneTurnApplication<Self>`. A type without values is enough, as `enum Counting {}`, since no call
/// takes one.
///
/// What has to be said comes first, in one record, `rules`: what genesis carries, to which entries
/// a block leads by what it carries, when a candidate is acceptable, and what a request puts into a
/// block. It is a definition in `specs/`, over lists of entries by ascending key; `value_at` and
/// `put` (`stateful_db_plain/specs/Whole.antt`) read and write them. Then the four functions do what
/// `rules` says. They are given a `Draft`, which has the entries of the state on which the block
/// stands. Each clause is about all entries that the draft may hold (`Holds`), and follows from the
/// clauses of `get` and `put`: with the values that were read, the entries that are left are those
/// of `rules`. What the check doesn't find by itself is an answer of a few lines that puts these
/// clauses together.
///
/// A candidate that isn't acceptable is rejected; a finalized block is run all the same. A build
/// gives a block only where it is acceptable and leads to entries.
pub trait OneTurn: Sized {
    ghost use Rattle.std.specs.Prelude.{◌≡◌, IfOk};
    ghost use Rattle.stateful_simple_app.specs.Rules.{Rules, Entries};
    ghost use Rattle.stateful_simple_app.specs.Drafts.{Place, Holds, Becomes};

    /// What a block carries.
    type Payload: Payload + Drop;

    /// What a request to build a block brings.
    type Input: Share + Drop;

    /// What blocks do to entries, and what requests put into blocks.
    ghost rules: { Rules Self.Payload Self.Input };

    /// What the block at height 0 carries. It is never run.
    fn genesis(alloc: Global) -> Self::Payload
        ensures { result ≡ rules.genesis };

    /// The draft after a block that carries this. None where the block leads to no entries.
    fn run<'a>(draft: Draft<'a>, payload: &Self::Payload) -> Result<Option<Draft<'a>>, OutOfMemory>
        ensures { IfOk result (λ after. (place : Place) (entries : Entries) →
            Holds draft.entry place entries →
            Becomes (λ left now. Holds left place now) after (rules.step entries payload.now)) };

    /// Whether a candidate that carries this is acceptable.
    fn accept(draft: &Draft<'_>, payload: &Self::Payload) -> bool
        ensures { (place : Place) (entries : Entries) →
            Holds draft.now place entries →
            result ≡ rules.accept entries payload.now };

    /// What a request puts into a block. None where it asks for no block.
    fn choose(draft: &Draft<'_>, input: Self::Input) -> Result<Option<Self::Payload>, OutOfMemory>
        ensures { IfOk result (λ chosen. (place : Place) (entries : Entries) →
            Holds draft.now place entries →
            chosen ≡ rules.choose entries input) };
}
