//! The tokens of a database that are out.
//!
//! A token is out from where the database starts to persist its checkpoints until its flush was
//! good. It is known by its place, which is that of the newest checkpoint at the time. There is
//! room for two, since two barriers may be open.
//!
//! Usually the older comes in first. Where the newer does, the older stays out. Without a good
//! flush a token stays out until the database is opened anew. `specs/Tokens.antt` says what is out,
//! and `specs/TokensShown.antt` how the fields show it.

ghost use Rattle.std.specs.Prelude.{◌≡◌, ℕ, ◌<◌, ◌≤◌, ◌↔◌, ◌++◌, ◌∷◌, [], length, IsTrue};
ghost use Rattle.stateful_db.specs.Tokens.{without};

use std::marker::Model;

/// The places of the tokens of a database that are out, at most two, the oldest first. It takes no
/// memory.
#[derive(Clone, Copy)]
pub struct Tokens {
    older: Option<u64>,
    newer: Option<u64>,
}

impl Model for Tokens {
    ghost use Rattle.std.specs.Prelude.{ℕ, List};
    ghost use Rattle.stateful_db.specs.TokensShown.{places_of, IsInOrder, older_of, newer_of};

    ghost Value = { List ℕ };

    ghost view = { λ t. places_of t.older t.newer };

    ghost invariant = { λ t. IsInOrder t.older t.newer };

    ghost inverse = { λ places. record { older = older_of places; newer = newer_of places } };
}

impl Tokens {
    /// No token is out.
    pub fn new() -> Tokens
        ensures { result ≡ [] }
    {
        Tokens {
            older: None,
            newer: None,
        }
    }

    /// Whether one more may be out.
    pub fn has_room(&self) -> bool
        ensures { IsTrue result ↔ (length self.now < 2) }
    {
        self.newer.is_none()
    }

    /// One more is out, of this place.
    pub fn put(&mut self, place: u64)
        requires { length self.old < 2 }
        ensures { self.new ≡ self.old ++ place ∷ [] }
    {
        match self.older {
            None => self.older = Some(place),
            Some(_) => self.newer = Some(place),
        }
    }

    /// The oldest of this place is in. Nothing changes where there is none.
    pub fn take(&mut self, place: u64)
        ensures { self.new ≡ without place self.old }
    {
        if self.older == Some(place) {
            self.older = self.newer;
            self.newer = None;
        } else if self.newer == Some(place) {
            self.newer = None;
        }
    }
}
