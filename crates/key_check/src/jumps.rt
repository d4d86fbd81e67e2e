//! The corners by which a value rises from one step to the next.
ghost use Rattle.std.specs.Prelude.{◌≡◌, ◌+◌, ◌%◌, ◌^◌, ◌<◌, IfOk};
ghost use Rattle.bw_types.specs.Residues.{opposite_residue};
ghost use Rattle.key_check.specs.Steps.{AreResidues, jump, jumps};

use crate::corner::Corner;
use crate::step::Step;
use std::alloc::{AllocError, Global};

/// The jumps of the steps, from 0 on.
pub(crate) fn jumps_of(alloc: Global, steps: &[Step]) -> Result<Vec<Corner>, AllocError>
    ensures jumps { IfOk result (λ corners. corners.items ≡ jumps 0 steps.now) }
    ensures typed { IfOk result (λ corners. AreResidues steps.now) }
{
    let mut corners = Vec::new(alloc);
    let mut before = 0;
    for step in steps {
        corners.push(jump_to(before, *step))?;
        before = step.value;
    }
    Ok(corners)
}

// The jump from a value to a step.
fn jump_to(before: u128, step: Step) -> Corner
    ensures value { result ≡ jump before step }
    ensures typed { step.value < 2 ^ 128 }
{
    Corner {
        version: step.version,
        key: 0,
        weight: step.value.wrapping_add(before.wrapping_neg()),
    }
}
