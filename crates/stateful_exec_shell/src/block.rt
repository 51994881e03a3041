//! Blocks that say what becomes of them.

ghost use Rattle.std.specs.Prelude.{◌≡◌, ◌∷◌, [], List};

use stateful_types::{Block, Digest, Height, OutOfMemory, Round, Target};

/// What a run, a build or a hook ends with, once its turns are taken.
#[derive(Clone, Copy, PartialEq, Eq)]
pub enum End {
    /// With states.
    States,
    /// Without any.
    Nothing,
    /// It fails.
    Fails,
}

/// A block that changes no entry. Its bytes are its name alone, so that blocks of one name have one
/// digest.
#[derive(Clone, Copy)]
pub struct FakeBlock {
    pub name: u8,
    pub parent: Digest,
    pub height: Height,
    pub round: Round,
    /// What it commits to.
    pub target: Target,
    /// The turns of its run before the last one.
    pub turns: u8,
    pub end: End,
    /// The turns of its hook, which fails at the last one where the block says `Fails`.
    pub hook: u8,
}

impl Block for FakeBlock {
    ghost use Rattle.stateful_exec_shell.specs.Fake.{fake_header};

    type Context = Round;

    ghost header = { fake_header };

    ghost context_of = { λ b. b.round };

    fn parent(&self) -> Digest {
        self.parent
    }

    fn height(&self) -> Height {
        self.height
    }

    fn context(&self) -> Round {
        self.round
    }

    fn encode(&self, out: &mut Vec<u8>) -> Result<(), OutOfMemory> {
        out.push(self.name)?;
        Ok(())
    }
}
