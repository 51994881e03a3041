//! Blocks that letters tell apart.

use crate::words::letter;
use stateful_shell::{Page, parsed};
use stateful_types::{
    Block, Digest, Digested, Epoch, Height, MemoryStore, OutOfMemory, Round, View, write_u8,
};

/// A block of a height, which is finalized in a view of the same number of epoch 0. It is told from
/// others of that height by its letter.
#[derive(Drop)]
pub(crate) struct Letter {
    pub(crate) height: u64,
    pub(crate) letter: u8,
}

impl Block for Letter {
    ghost use Rattle.std.specs.Prelude.{◌∷◌, [], replicate};

    type Context = Round;

    ghost header = { record {
      parent = λ b. record { 0 = replicate 32 0 };
      height = λ b. b.height;
      round = λ b. record { epoch = record { 0 = 0 }; view = record { 0 = b.height } };
      bytes = λ b. b.letter ∷ [];
    } };

    ghost context_of = { λ b. record {
      epoch = record { 0 = 0 };
      view = record { 0 = b.height };
    } };

    fn parent(&self) -> Digest {
        Digest([0; 32])
    }

    fn height(&self) -> Height {
        Height(self.height)
    }

    fn context(&self) -> Round {
        Round {
            epoch: Epoch(0),
            view: View(self.height),
        }
    }

    fn encode(&self, out: &mut Vec<u8>) -> Result<(), OutOfMemory> {
        write_u8(self.letter, out)
    }
}

/// The block of a word HEIGHT:LETTER. None where memory lacks, which the page notes.
pub(crate) fn block(word: &str, page: &mut Page) -> Option<Digested<Letter>> {
    let (height, name) = word.split_once(':').unwrap_or((word, ""));
    let block = Letter {
        height: parsed(height, 0),
        letter: letter(name),
    };
    match Digested::compute(page.alloc(), block) {
        Ok(block) => Some(block),
        Err(_) => {
            page.lack();
            None
        }
    }
}

/// A block store of the blocks that the words name, but for those for which memory lacks.
pub(crate) fn store(words: &[&str], page: &mut Page) -> MemoryStore<Letter> {
    let mut store = MemoryStore::new(page.alloc());
    for word in words.iter() {
        if let Some(block) = block(word, page) {
            page.note(store.insert(block));
        }
    }
    store
}

/// Prints a block as it is named, HEIGHT:LETTER, behind a word.
pub(crate) fn push_block(word: &str, block: &Digested<Letter>, page: &mut Page) {
    page.field(word, block.height().0);
    page.push(":");
    page.show(&char::from(block.inner().letter))
}
