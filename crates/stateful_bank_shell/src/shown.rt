//! How values are printed.

use stateful_bank::{BankBlock, Op};
use stateful_base::{Block, Digest, Target};
use stateful_shell::Page;

/// Prints a digest behind a word.
pub(crate) fn print_digest(name: &str, digest: Digest, page: &mut Page) {
    page.push(name);
    page.hex(digest.0.as_slice());
    page.end()
}

/// Prints a target behind a word.
pub(crate) fn print_target(name: &str, target: &Target, page: &mut Page) {
    page.push(name);
    page.hex(target.root.0.as_slice());
    page.field(":", target.start.0);
    page.field(":", target.end.0);
    page.end()
}

/// Prints targets.
pub(crate) fn print_targets(targets: &[Target], page: &mut Page) {
    for target in targets {
        print_target("target ", target, page);
    }
}

/// Prints operations.
pub(crate) fn print_ops(ops: &[Op], page: &mut Page) {
    for op in ops {
        match op {
            Op::Mint { account, amount } => {
                page.field("mint:", u64::from(*account));
                page.field(":", *amount);
            }
            Op::Move { from, to, amount } => {
                page.field("move:", u64::from(*from));
                page.field(":", u64::from(*to));
                page.field(":", *amount);
            }
        }
        page.end();
    }
}

/// Prints a block.
pub(crate) fn print_block(block: &BankBlock, page: &mut Page) {
    page.field("height ", block.height.0);
    page.field(" epoch ", block.round.epoch.0);
    page.field(" view ", block.round.view.0);
    page.field(" slow ", u64::from(block.slow));
    page.end();
    print_digest("parent ", block.parent, page);
    print_ops(block.ops.as_slice(), page);
    print_targets(block.targets.as_slice(), page)
}

/// Prints a block's bytes and its digest.
pub(crate) fn print_bytes(block: &BankBlock, page: &mut Page) {
    let mut bytes = Vec::new(page.alloc());
    page.note(block.encode(&mut bytes));
    page.push("bytes ");
    page.hex(bytes.as_slice());
    page.end();
    print_digest("digest ", Digest::of(bytes.as_slice()), page)
}

/// Prints whether a batch leads to what a block commits to.
pub(crate) fn print_matches(matches: bool, page: &mut Page) {
    page.push("matches ");
    page.line(&matches)
}

/// Prints how deep a batch is.
pub(crate) fn print_depth(depth: Option<usize>, page: &mut Page) {
    match depth {
        Some(depth) => {
            page.push("depth ");
            page.line(&depth)
        }
        None => page.say("refused"),
    }
}
