//! Laws of the values that computations come to.
ghost use Rattle.nz_spec.specs.laws.InfinitesimalMoves.{InfinitesimalsMove};

/// What infinitesimal numbers that are equal as values have in common, and how one moves by a multiple of another.
pub fn infinitesimals_move()
    ensures moves { InfinitesimalsMove }
{}
