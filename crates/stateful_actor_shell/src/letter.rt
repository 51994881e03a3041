//! The blocks that events and marks carry.

use stateful_base::{
    Ancestry, Block, Digest, Digested, Epoch, Height, Items, OutOfMemory, Round, View, write_u8,
};
use stateful_shell::Page;

/// A block of height 1 whose one byte is a letter.
#[derive(Drop)]
pub(crate) struct Letter {
    pub(crate) letter: u8,
}

impl Block for Letter {
    ghost use Rattle.std.specs.Prelude.{◌∷◌, [], replicate};

    type Context = Round;

    ghost header = { record {
      parent = λ b. record { 0 = replicate 32 0 };
      height = λ b. 1;
      round = λ b. record { epoch = record { 0 = 0 }; view = record { 0 = 0 } };
      bytes = λ b. b.letter ∷ [];
    } };

    ghost context_of = { λ b. record { epoch = record { 0 = 0 }; view = record { 0 = 0 } } };

    fn parent(&self) -> Digest {
        Digest([0; 32])
    }

    fn height(&self) -> Height {
        Height(1)
    }

    fn context(&self) -> Round {
        Round {
            epoch: Epoch(0),
            view: View(0),
        }
    }

    fn encode(&self, out: &mut Vec<u8>) -> Result<(), OutOfMemory> {
        write_u8(self.letter, out)
    }
}

/// The block of a letter. None where memory lacks, which the page notes.
pub(crate) fn block(letter: u8, page: &mut Page) -> Option<Digested<Letter>> {
    match Digested::compute(page.alloc(), Letter { letter }) {
        Ok(block) => Some(block),
        Err(_) => {
            page.lack();
            None
        }
    }
}

/// The block of a letter, with no ancestors at hand. None where memory lacks.
pub(crate) fn ancestry(letter: u8, page: &mut Page) -> Option<Ancestry<Letter>> {
    let first = block(letter, page)?;
    Some(Ancestry {
        first,
        rest: Items::new(page.alloc()),
    })
}
