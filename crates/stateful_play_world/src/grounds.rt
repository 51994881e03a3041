//! What a play takes of a world.

use stateful_bank_app::{Fresh, World};
use stateful_db::DatabaseSet;

/// What a play takes of a world, in one record.
pub trait Grounded: Fresh {
    ghost use Rattle.stateful_play_world.specs.Grounds.{Grounds};

    ghost grounds: { Grounds Self.Databases.Unmerkleized Self.Databases.Merkleized Self.Databases };
}

impl<W: Fresh> Grounded for W {
    ghost use Rattle.std.specs.Prelude.{[]};
    ghost use Rattle.stateful_bank_app.specs.Fresh.{AreUncalled};

    ghost grounds = { record {
      Ids = W.Databases.Ids;
      States = W.Databases.States;
      Targets = W.Databases.SyncTargets;
      rules = W.rules;
      holds = W.holds;
      kind = W.Databases.kind;
      shows = W.Databases.shows;
      members = W.Databases.members;
      next = W.Databases.next;
      counted = W.Databases.counted;
      Blank = λ d. W.blank d × AreUncalled W.Databases.kind.count (W.Databases.calls d) [];
    } };
}
