//! Operations, and the digests behind them.

ghost use Rattle.std.specs.Prelude.{◌≡◌, ◌++◌, ℕ, List, IfOk};
ghost use Rattle.sha2.specs.Hashers.{Holds256};
ghost use Rattle.stateful_db_log.specs.Chained.{linked};
ghost use Rattle.stateful_db_compact.specs.Ops.{metadata_bytes, commit_bytes, append_bytes};

use sha2::{Digest as Hasher, Sha256};
use stateful_base::{Digest, OutOfMemory, Share};
use stateful_db_log::{Field, Linked};

/// An operation of a keyless log.
#[derive(Drop)]
pub enum KeylessOp<V> {
    /// The end of a batch: its metadata, and its inactivity floor.
    Commit { metadata: Option<V>, floor: u64 },
    /// An appended value.
    Append(V),
}

impl<V: Field> Share for KeylessOp<V> {
    fn share(&self) -> Result<KeylessOp<V>, OutOfMemory> {
        match self {
            KeylessOp::Append(value) => Ok(KeylessOp::Append(value.duplicate()?)),
            KeylessOp::Commit { metadata, floor } => {
                let metadata = duplicate(metadata)?;
                Ok(KeylessOp::Commit {
                    metadata,
                    floor: *floor,
                })
            }
        }
    }
}

impl<V: Field> Linked for KeylessOp<V> {
    ghost use Rattle.stateful_db_log.specs.Linking.{log_link};
    ghost use Rattle.stateful_db_compact.specs.Ops.{op_bytes, is_commit};

    ghost linked = { log_link (op_bytes V.fields.spelling) };

    ghost alone = { is_commit };

    fn link(&self, _at: u64, before: Digest) -> Digest {
        match self {
            KeylessOp::Commit { metadata, floor } => link_commit(before, metadata, *floor),
            KeylessOp::Append(value) => link_append(before, value),
        }
    }

    fn stands_alone(&self) -> bool {
        match self {
            KeylessOp::Commit { .. } => true,
            KeylessOp::Append(_) => false,
        }
    }
}

/// Equal metadata.
pub fn duplicate<V: Field>(metadata: &Option<V>) -> Result<Option<V>, OutOfMemory>
    ensures { IfOk result (λ same. same ≡ metadata.now) }
{
    match metadata {
        None => Ok(None),
        Some(metadata) => Ok(Some(metadata.duplicate()?)),
    }
}

/// The digest behind an appended value.
pub fn link_append<V: Field>(before: Digest, value: &V) -> Digest
    ensures { result ≡ linked before (append_bytes V.fields.spelling value.now) }
{
    let mut hasher = Sha256::new();
    hasher.update(&before.0);
    hasher.update(&[1]);
    value.add_to(&mut hasher);
    Digest(hasher.finalize())
}

/// The digest behind a commit.
pub fn link_commit<V: Field>(before: Digest, metadata: &Option<V>, floor: u64) -> Digest
    ensures { result ≡ linked before (commit_bytes V.fields.spelling metadata.now floor) }
{
    let mut hasher = Sha256::new();
    hasher.update(&before.0);
    hasher.update(&[0]);
    add_metadata(metadata, &mut hasher);
    hasher.update(&floor.to_be_bytes());
    Digest(hasher.finalize())
}

/// Adds metadata to a message.
fn add_metadata<V: Field>(metadata: &Option<V>, hasher: &mut Sha256)
    ensures { (m : List ℕ)
        → Holds256 hasher.old m
        → Holds256 hasher.new (m ++ metadata_bytes V.fields.spelling metadata.now) }
{
    match metadata {
        None => hasher.update(&[0]),
        Some(metadata) => {
            hasher.update(&[1]);
            metadata.add_to(hasher);
        }
    }
}
