//! What is so of every space.
ghost use Rattle.page_space.specs.Laws.{ChainIsFree, CreatedHolds, HeldOpens, HoldsOne, HoldsOrder};

use page_layout::{Meta, Spelled, Super};
use redo_journal::settling_laws;

/// Proves that a new warehouse is a space; it does nothing when it runs.
pub fn created_holds()
    ensures { CreatedHolds }
{}

/// Proves that a disk holds one space, and that its free pages are in order or not with it; it does
/// nothing when it runs.
pub fn holds_one()
    ensures one { HoldsOne }
    ensures order { HoldsOrder }
{
    settling_laws();
    Super::one_spelling();
    Meta::one_spelling();
}

/// Proves that an opening of a disk which holds a space is refused only where the device fails or there
/// is no memory; it does nothing when it runs.
pub fn held_opens()
    ensures { HeldOpens }
{
    settling_laws();
    Super::one_spelling();
}

/// Proves what the chain of free pages is where they are in order; it does nothing when it runs.
pub fn chain_is_free()
    ensures { ChainIsFree }
{}
