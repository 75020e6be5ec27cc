ghost use Rattle.std.specs.Prelude.{◌≡◌, IfOk};
ghost use Rattle.raid_workload.specs.Parts as parts;

use crate::workload::Workload;
use raid_base::{Listed, NoMemory, Placement};
use std::alloc::Global;

/// The holders of each item, in the order of the items. Want of memory is the only error.
pub fn placement(alloc: Global, workload: &Workload) -> Result<Placement, NoMemory>
    ensures { IfOk result (λ p. p ≡ parts.placement workload.now) }
{
    let mut placed = Listed::new(alloc);
    for line in workload.items.as_slice() {
        placed.push(line.holders)?;
    }
    Ok(placed)
}
