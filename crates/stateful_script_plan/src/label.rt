//! The names of blocks.

ghost use Rattle.std.specs.Prelude.{◌≡◌, ◌+◌, IfOk, length};
ghost use Rattle.stateful_script_plan.specs.Plan.{labels_of};

use crate::plan::Planned;
use stateful_base::{Items, OutOfMemory};
use stateful_script::Name;
use stateful_script_text::Label;
use std::alloc::Global;

/// A name with the digest of its block.
fn label(alloc: Global, name: &Name, made: &Planned) -> Result<Label, OutOfMemory>
    ensures { IfOk result (λ label. label
        ≡ record { name = name.now; digest = made.now.block.digest }) }
{
    Ok(Label {
        name: Items::from_vec(name.as_str().as_bytes().to_vec(alloc)?),
        digest: made.block.digest(),
    })
}

/// The names of the planned blocks, with their digests.
pub fn label_blocks(
    alloc: Global,
    names: &[Name],
    planned: &[Planned],
) -> Result<Vec<Label>, OutOfMemory>
    requires { length planned.now ≡ length names.now }
    ensures { IfOk result (λ labels. labels.items ≡ labels_of names.now planned.now) }
{
    let mut labels = Vec::new(alloc);
    for (place, name) in names.iter().enumerate() {
        labels.push(label(alloc, name, &planned[place])?)?;
    }
    Ok(labels)
}
