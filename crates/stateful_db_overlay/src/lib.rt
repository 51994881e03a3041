//! Chains of sealed batches. Each keeps its own changes alone, and shares them with the batches
//! above it.
//!
//! A batch that is begun on a database stands on no layers. When it is sealed its changes become a
//! [`Layer`], and a batch on top of it stands on the same layers with this one more
//! (`Layers::with`). So many batches may stand on one, and its changes are kept once.
//!
//! A batch that is applied changes the database, and the batches above it stay as they are. Each
//! layer has the id of its batch, and the database that of the last one that was applied. By that
//! id a reader tells which layers the database hasn't taken in yet (`above`), and a fork drops the
//! others (`cut`).
//!
//! `specs/Stack.antt` says what the calls make of a chain, and `specs/Chains.antt` how layers and
//! chains belong together.
#![tactic(auto)]

mod layer;
mod layers;

pub use layer::Layer;
pub use layers::Layers;
