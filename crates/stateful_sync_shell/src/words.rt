//! What words of a line stand for.

use bytes::Bytes;
use hex::FromHexError;
use stateful_shell::{Page, parsed};
use stateful_types::{Anchor, Digest, Epoch, Height, Round, View};

/// A height, or none.
pub(crate) fn height(word: &str) -> Option<Height> {
    match word.parse::<u64>() {
        Ok(height) => Some(Height(height)),
        Err(_) => None,
    }
}

/// A round, or none.
pub(crate) fn round(word: &str) -> Option<Round> {
    let (epoch, view) = word.split_once('.')?;
    Some(Round {
        epoch: Epoch(parsed(epoch, 0)),
        view: View(parsed(view, 0)),
    })
}

/// 32 times a byte.
pub(crate) fn digest(word: &str) -> Digest {
    Digest([parsed(word, 0); 32])
}

/// The byte of a letter.
pub(crate) fn letter(word: &str) -> u8 {
    word.as_bytes().first().copied().unwrap_or(0)
}

/// The block of this height, which is finalized in a view of the same number of epoch 0. Its digest
/// is 32 times the height, if that is a byte.
pub(crate) fn anchor(word: &str) -> Anchor {
    let height = parsed(word, 0);
    Anchor {
        height: Height(height),
        round: Round {
            epoch: Epoch(0),
            view: View(height),
        },
        digest: digest(word),
    }
}

/// The bytes of a word in hex: none of them where it isn't hex, or where memory lacks, which the
/// page notes.
pub(crate) fn bytes(word: &str, page: &mut Page) -> Bytes {
    match hex::decode(page.alloc(), word) {
        Ok(bytes) => match Bytes::from_vec(bytes) {
            Ok(bytes) => return bytes,
            Err(_) => page.lack(),
        },
        Err(FromHexError::OutOfMemory) => page.lack(),
        Err(_) => {}
    }
    Bytes::new()
}
