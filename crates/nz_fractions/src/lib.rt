//! Fractions and the numbers among them: their definitions, and the laws that the crates above rest on.
#![tactic(auto)]

ghost use Rattle.std.specs.Prelude.{◌≡◌, ◌^◌, suc};
ghost use Rattle.nz_fractions.specs.Fraction.{Rounds, ZerosAreNeverWide, largest};

/// The floor is the greatest integer that is at most the fraction, and the ceiling the least that is at least it.
pub fn rounds()
    ensures rounds { Rounds }
{}

/// The largest numerator is the largest integer of 128 bits.
pub fn numbers_have_128_bits()
    ensures largest { suc largest ≡ 2 ^ 127 }
{}

/// Beside 0 no operation leaves the numbers.
pub fn zeros_are_never_wide()
    ensures zeros { ZerosAreNeverWide }
{}
