//! The names of blocks, found by digests.

ghost use Rattle.std.specs.Prelude.{◌≡◌, find, IfOk};
ghost use Rattle.std.specs.Str.{bytes_eq};
ghost use Rattle.std.specs.Option.{option_copied};

use crate::shown::Label;
use stateful_base::{Digest, OutOfMemory};
use std::alloc::Global;
use std::collections::BTreeMap;
use std::marker::Model;

/// Labels, with an index by their digests.
#[derive(Drop)]
pub struct Labels<'a> {
    labels: &'a [Label],
    places: BTreeMap<Digest, usize>,
}

impl<'a> Model for Labels<'a> {
    ghost use Rattle.std.specs.Prelude.{List};
    ghost use Rattle.stateful_script_text.specs.LabelIndex.{IsIndex};
    ghost use Rattle.stateful_script_text.specs.declared.shown.Label.{Label};

    ghost Value = { List Label };

    ghost view = { λ a. a.labels.now };

    ghost invariant = { λ a. IsIndex a.labels.now a.places };
}

impl<'a> Labels<'a> {
    /// These labels. Of several labels of one digest the first is found.
    pub fn new(alloc: Global, labels: &'a [Label]) -> Result<Labels<'a>, OutOfMemory>
        ensures { IfOk result (λ all. all ≡ labels.now) }
    {
        let mut places = BTreeMap::new(alloc);
        for place in (0..labels.len()).rev() {
            places.insert(labels[place].digest, place)?;
        }
        Ok(Labels { labels, places })
    }

    /// The first label of a digest.
    pub fn first(&self, digest: Digest) -> Option<&Label>
        ensures { option_copied result ≡ find (λ label. bytes_eq label.digest.0 digest.0) self.now }
    {
        let place = self.places.get(&digest)?;
        self.labels.get(*place)
    }
}
