//! Laws of infinitesimal numbers.
ghost use Rattle.std.specs.Prelude.{List, pos};
ghost use Rattle.nz_fractions.specs.Fraction.{Fraction, whole, ◌<ℚ◌, ◌≤ℚ◌};
ghost use Rattle.nz_spec.specs.numbers.Infinitesimal.{AreOrdered, AreOrderedAt, InfinitesimalsAreOrdered, IsLeastLimit, Pair, chosen_delta};

/// The fraction that is chosen for δ is the least of 1 and the limits of the pairs; it is above 0, and it and each smaller one
/// above 0 keep the pairs in order.
pub fn chosen_deltas_serve()
    ensures least { (ps : List Pair) → IsLeastLimit ps (chosen_delta ps) }
    ensures above_zero { (ps : List Pair) → AreOrdered ps → whole (pos 0) <ℚ chosen_delta ps }
    ensures keeps_order { (ps : List Pair) (d : Fraction) → AreOrdered ps → whole (pos 0) <ℚ d → d ≤ℚ chosen_delta ps → AreOrderedAt ps d }
{}

/// The order of infinitesimals, and what it says of their parts.
pub fn infinitesimals_are_ordered()
    ensures ordered { InfinitesimalsAreOrdered }
{}
