//! Requests, as lines say them.

use crate::blocks::Blocks;
use crate::played::Played;
use stateful_db::{Application, ProposalKind};
use stateful_exec::Request;
use stateful_shell::{number, word};
use stateful_types::{Ancestry, Items, OutOfMemory};
use std::alloc::Global;

/// A request of an application.
type RequestOf<A> = Request<
    <A as Application>::Block,
    <A as Application>::Context,
    <A as Application>::Input,
>;

/// The same, where a line says one.
pub(crate) type Requested<A> = Result<Option<RequestOf<A>>, OutOfMemory>;

/// The block of a name, with its parent behind it where that is one too.
fn ancestry<B: Drop>(
    alloc: Global,
    blocks: &Blocks<B>,
    first: &str,
    parent: &str,
) -> Result<Option<Ancestry<B>>, OutOfMemory> {
    let Some(first) = blocks.share(first)? else {
        return Ok(None);
    };
    let mut rest = Items::new(alloc);
    if let Some(parent) = blocks.share(parent)? {
        rest.push(parent)?;
    }
    Ok(Some(Ancestry { first, rest }))
}

/// `verify TICKET BLOCK [PARENT]`.
pub(crate) fn to_verify<A: Played>(
    alloc: Global,
    blocks: &Blocks<A::Block>,
    words: &[&str],
) -> Requested<A> {
    match ancestry(alloc, blocks, word(words, 2), word(words, 3))? {
        Some(ancestry) => Ok(Some(Request::Verify {
            ticket: number(words, 1),
            ancestry,
        })),
        None => Ok(None),
    }
}

/// `propose TICKET PARENT VIEW HOW [BLOCK [TURNS END]]`, and `prepare`.
pub(crate) fn to_build<A: Played>(
    alloc: Global,
    blocks: &Blocks<A::Block>,
    kind: ProposalKind,
    words: &[&str],
) -> Requested<A> {
    let Some(input) = A::order(blocks, words) else {
        return Ok(None);
    };
    match ancestry(alloc, blocks, word(words, 2), "")? {
        Some(ancestry) => Ok(Some(Request::Recover {
            ticket: number(words, 1),
            context: A::context(words, 3),
            ancestry,
            input,
            kind,
        })),
        None => Ok(None),
    }
}
