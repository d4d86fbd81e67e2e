//! Residues modulo `2^128`: what the weights of points are, and how their sums stand for signed numbers.
ghost use Rattle.std.specs.Prelude.{◌≡◌, ◌+◌, ◌*◌, ◌%◌, ◌^◌};
ghost use Rattle.bw_types.specs.Residues.{residue, signed_of, opposite_residue};

/// The sum of two residues modulo `2^128`.
pub fn res_add(a: u128, b: u128) -> u128
    ensures { result ≡ (a + b) % 2 ^ 128 }
{
    a.wrapping_add(b)
}

/// The opposite of a residue: the two make 0 modulo `2^128`.
pub fn res_neg(a: u128) -> u128
    ensures { result ≡ opposite_residue a }
{
    a.wrapping_neg()
}

/// The product of two residues modulo `2^128`.
pub fn res_mul(a: u128, b: u128) -> u128
    ensures { result ≡ (a * b) % 2 ^ 128 }
{
    a.wrapping_mul(b)
}

/// The residue of a signed number.
#[tactic(auto, using(crate::specs::ResidueLaws::residue_of_bits))]
pub fn res_of(a: i128) -> u128
    ensures { result ≡ residue a }
{
    a.cast_unsigned()
}

/// The signed number that a residue stands for: the residue itself below `2^127`, else `2^128` less.
#[tactic(auto, using(crate::specs::ResidueLaws::signed_of_cast))]
pub fn res_signed(a: u128) -> i128
    ensures { result ≡ signed_of a }
{
    a.cast_signed()
}
