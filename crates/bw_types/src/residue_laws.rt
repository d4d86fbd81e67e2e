//! The laws of residues: a function here does nothing, and its contract is the law.
ghost use Rattle.bw_types.specs.Residues.{ResidueOfSum, ResidueOfProduct, ResidueOfOpposite, ResidueOfNatural, ResidueOfSmall, ResidueIsBelow, SignedOfResidue, ResidueOfSigned, ResiduesCommute, ResiduesAssociate, ZeroAddsNothing, OppositesCancel};

/// Residues add, multiply and have opposites as their numbers do.
pub fn residues_follow()
    ensures sum { ResidueOfSum }
    ensures product { ResidueOfProduct }
    ensures opposite { ResidueOfOpposite }
{}

/// A residue is below `2^128`, and is the number itself where that is so.
pub fn residues_are_below()
    ensures below { ResidueIsBelow }
    ensures small { ResidueOfSmall }
    ensures natural { ResidueOfNatural }
{}

/// Signed numbers of 128 bits and residues stand for one another.
pub fn residues_are_signed()
    ensures of_residue { SignedOfResidue }
    ensures of_signed { ResidueOfSigned }
{}

/// Sums of residues have any order and grouping, 0 adds nothing, and opposites cancel.
pub fn residues_add_up()
    ensures commute { ResiduesCommute }
    ensures associate { ResiduesAssociate }
    ensures zero { ZeroAddsNothing }
    ensures cancel { OppositesCancel }
{}
