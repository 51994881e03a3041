//! Where bytes go.

ghost use Rattle.std.specs.Prelude.{ℕ, ◌<◌, ◌≤◌, Option, List, length, take, IfOk, OnOk, OnErr};
ghost use Rattle.std.specs.Prelude.{IsErrOf};
ghost use Rattle.std.specs.Io.KnownBytes.{WriteAppends, Appends};
ghost use Rattle.stateful_base.specs.Causes.{Rose};

use stateful_base::Faulty;
use thiserror::Error;

/// Why a piece was not taken.
#[derive(Clone, Copy, Debug, PartialEq, Eq, Error)]
pub enum SinkFault {
    #[error("Failed")]
    Failed,
    #[error("OutOfMemory")]
    OutOfMemory,
}

/// Where bytes go.
pub trait Sink: Faulty {
    ghost use Rattle.std.specs.Prelude.{ℕ, ◌<◌, ◌≤◌, Option, List, length, IfOk, IsErrOf};
    ghost use Rattle.std.specs.Io.KnownBytes.{WriteAppends};
    ghost use Rattle.stateful_base.specs.Causes.{Rose};

    /// The bytes that it holds, where that is told.
    ghost written: { Self → Option (List ℕ) };

    /// Takes some bytes from the front of a piece, and at least one of a nonempty piece.
    fn write(&mut self, piece: &[u8]) -> Result<usize, SinkFault>
        ensures bound { IfOk result (λ n. n ≤ length piece.now) }
        ensures some { IfOk result (λ n. 0 < length piece.now → 0 < n) }
        ensures bytes { WriteAppends (written self.old) (written self.new) result piece.now }
        ensures later { Self.count self.old ≤ Self.count self.new }
        ensures cause { IsErrOf result SinkFault.Failed
            → Rose (Self.count self.old) (Self.count self.new) };
}

/// Writes all of a text, or a prefix of it.
pub fn write_all<K: Sink>(sink: &mut K, text: &[u8]) -> Result<(), SinkFault>
    ensures all { OnOk result (Appends (K.written sink.old) (K.written sink.new) text.now) }
    ensures prefix { OnErr result ((n : ℕ)
        × (n ≤ length text.now)
        × Appends (K.written sink.old) (K.written sink.new) (take n text.now)) }
    ensures later { K.count sink.old ≤ K.count sink.new }
    ensures cause { IsErrOf result SinkFault.Failed → Rose (K.count sink.old) (K.count sink.new) }
{
    let mut at = 0;
    'writing: while at < text.len() {
        at += sink.write(&text[at..])?;
    }
    Ok(())
}
