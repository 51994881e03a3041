//! What a node remembers of its sync, in bytes.

ghost use Rattle.std.specs.Prelude.{◌≡◌, ℕ, List, Option, Result, length};
ghost use Rattle.stateful_base.specs.Format.{Reads, Writes, IsFormat};
ghost use Rattle.stateful_base.specs.declared.codec.CodecError.{CodecError};
ghost use Rattle.stateful_sync_plan.specs.State.{state_format};
ghost use Rattle.stateful_sync_plan.specs.Worth.{IsWorth};
ghost use Rattle.stateful_sync_plan.specs.declared.state.SyncState.{SyncState};

use bytes::Bytes;
use stateful_types::{
    CodecError, Digest, Finalization, Height, OutOfMemory, Scheme, read_u8, write_u8,
};
use std::alloc::Global;

/// How far a node has come with its sync.
#[derive(Drop)]
pub enum SyncState<S: Scheme> {
    /// It syncs to this floor.
    InProgress(Finalization<S::Certificate>),
    /// It has its databases, and never syncs again. When this was recorded they held the block of
    /// this height, and of this digest where that was recorded too.
    Complete {
        height: Height,
        digest: Option<Digest>,
    },
}

impl<S: Scheme> SyncState<S> {
    /// Appends byte 0 and the floor; or byte 1 and the height where no digest was recorded; or byte
    /// 2, the height and the digest.
    pub fn write(&self, out: &mut Vec<u8>) -> Result<(), OutOfMemory>
        ensures { Writes (state_format S.certificates) self.now result out.old.items
            out.new.items }
    {
        match self {
            SyncState::InProgress(finalization) => {
                write_u8(0, out)?;
                finalization.write::<S>(out)
            }
            SyncState::Complete { height, digest } => match digest {
                None => {
                    write_u8(1, out)?;
                    height.write(out)
                }
                Some(digest) => {
                    write_u8(2, out)?;
                    height.write(out)?;
                    digest.write(out)
                }
            },
        }
    }

    /// Takes a state. Bytes after it are left unread.
    pub fn read(alloc: Global, input: &mut Bytes) -> Result<SyncState<S>, CodecError>
        ensures { Reads (state_format S.certificates) result input.old input.new }
    {
        match read_u8(input)? {
            0 => Ok(SyncState::InProgress(Finalization::read::<S>(alloc, input)?)),
            1 => {
                let height = Height::read(input)?;
                Ok(SyncState::Complete {
                    height,
                    digest: None,
                })
            }
            2 => {
                let height = Height::read(input)?;
                let digest = Digest::read(input)?;
                Ok(SyncState::Complete {
                    height,
                    digest: Some(digest),
                })
            }
            other => Err(CodecError::InvalidEnum(other)),
        }
    }

    /// How many bytes it has: 57 and those of the certificate, or 9, or 41.
    pub fn encode_size(&self) -> usize
        ensures { result ≡ length ((state_format S.certificates).spelling self.now) }
    {
        match self {
            SyncState::InProgress(finalization) => 1 + finalization.encode_size::<S>(),
            SyncState::Complete { height: _, digest } => match digest {
                None => 9,
                Some(digest) => 9 + digest.0.as_slice().len(),
            },
        }
    }
}

/// No spelling of a state begins another, and so no state has the spelling of another. And what a
/// store holds is worth one state, or has one fault, and nothing else.
pub fn no_state_begins_another<S: Scheme>()
    ensures states { IsFormat (state_format {S = S} {K = S.Key} S.certificates) }
    ensures worth { (value : Option (List ℕ))
        (one other : Result (Option (SyncState S S.Key S.Certificate)) CodecError)
        → IsWorth (state_format S.certificates) value one
        → IsWorth (state_format S.certificates) value other
        → one ≡ other }
{}
