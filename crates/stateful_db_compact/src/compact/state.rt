//! What a compact database keeps of a checkpoint.

ghost use Rattle.std.specs.Prelude.{◌≡◌, IfOk};
ghost use Rattle.stateful_db_compact.specs.Compacted.{state_of, size_of, target_of, initial};

use crate::op::duplicate;
use stateful_base::{CompactTarget, Digest, Location, OutOfMemory, Target};
use stateful_db_log::Field;
use stateful_db_medium::Checkpoint;

/// The latest operation, which is a commit: the digest before it, its metadata, and its floor.
#[derive(Drop)]
pub struct Commit<V> {
    pub before: Digest,
    pub metadata: Option<V>,
    pub floor: u64,
}

/// A checkpoint of a compact database: the digest behind all operations, with the range that ends
/// behind them, and the latest operation.
pub type CompactState<V> = Checkpoint<Commit<V>>;

/// The checkpoint behind this commit, of so many operations.
pub fn committed<V>(root: Digest, size: u64, commit: Commit<V>) -> Checkpoint<Commit<V>>
    ensures { result ≡ state_of root size commit }
{
    Checkpoint {
        target: Target {
            root,
            start: Location(size.saturating_sub(1)),
            end: Location(size),
        },
        kept: commit,
    }
}

/// One commit alone.
pub fn initial<V: Field>() -> Checkpoint<Commit<V>>
    ensures { result ≡ initial V.fields.spelling }
{
    let commit = Commit {
        before: Digest([0; 32]),
        metadata: None,
        floor: 0,
    };
    committed(Digest::of(&[0; 42]), 1, commit)
}

/// The number of operations.
pub fn size<V>(state: &Checkpoint<Commit<V>>) -> u64
    ensures { result ≡ size_of state.now }
{
    state.target.end.0
}

/// The root, with the number of operations.
pub fn compact_target<V>(state: &Checkpoint<Commit<V>>) -> CompactTarget
    ensures { result ≡ target_of state.now }
{
    CompactTarget {
        root: state.target.root,
        size: state.target.end,
    }
}

/// An equal checkpoint.
pub fn share<V: Field>(state: &Checkpoint<Commit<V>>) -> Result<Checkpoint<Commit<V>>, OutOfMemory>
    ensures { IfOk result (λ same. same ≡ state.now) }
{
    let metadata = duplicate(&state.kept.metadata)?;
    Ok(Checkpoint {
        target: state.target,
        kept: Commit {
            before: state.kept.before,
            metadata,
            floor: state.kept.floor,
        },
    })
}
