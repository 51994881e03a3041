//! Commands on pruning. main.rt has their table.

use crate::words::letter;
use stateful_base::Height;
use stateful_pruning::{PruneConfig, Pruning, PruningError};
use stateful_shell::{Page, index, number, word};
use std::num::NonZeroUsize;

/// What prunes retain, by the words behind the first: the interval, the blocks of marshal, those
/// of the databases, and the operations of the databases. None where the interval is 0.
pub(crate) fn config_of(words: &[&str]) -> Option<PruneConfig> {
    Some(PruneConfig {
        maintenance_interval: NonZeroUsize::new(index(words, 1))?,
        retained_marshal_blocks: index(words, 2),
        retained_qmdb_blocks: index(words, 3),
        retained_qmdb_operations: number(words, 4),
    })
}

/// Does what a line says to pruning.
pub(crate) fn play(pruning: &mut Pruning<u8>, words: &[&str], page: &mut Page) {
    match word(words, 0) {
        "observe" => {
            match pruning.observe(Height(number(words, 1)), letter(words, 2), number(words, 3)) {
                Ok(Some(prune)) => {
                    page.field("prune marshal to ", prune.marshal_height.0);
                    page.field(", databases at ", prune.barrier_height.0);
                    page.push(" to ");
                    page.line(&char::from(prune.qmdb_target))
                }
                Ok(None) => page.say("no prune"),
                Err(_) => page.lack(),
            }
        }
        "valid" => match config_of(words) {
            None => page.say("refused"),
            Some(config) => match config.assert_valid() {
                Ok(()) => page.say("valid"),
                Err(error) => page.line(&error),
            },
        },
        "no-memory" => page.line(&PruningError::OutOfMemory),
        _ => page.say("no such command"),
    }
}
