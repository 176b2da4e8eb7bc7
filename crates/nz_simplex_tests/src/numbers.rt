//! Numbers told by tables, for each coordinate.
use nz_delta::Delta;
use nz_frac::Frac;
use nz_simplex::Coordinate;

/// A number of a table.
pub(crate) enum Number {
    /// A whole number.
    Whole(i128),
    /// So many halves.
    Halves(i128),
    /// A whole number less δ.
    Below(i128),
}

/// A coordinate that tables tell.
pub(crate) trait FromNumber: Coordinate {
    /// The coordinate that a number is, where there is one.
    fn told(number: &Number) -> Option<Self>;
}

impl FromNumber for Frac {
    fn told(number: &Number) -> Option<Frac> {
        match number {
            Number::Whole(whole) => Frac::of(*whole, 1),
            Number::Halves(halves) => Frac::of(*halves, 2),
            Number::Below(_) => None,
        }
    }
}

impl FromNumber for Delta {
    fn told(number: &Number) -> Option<Delta> {
        match number {
            Number::Whole(whole) => delta(*whole, 0),
            Number::Halves(_) => None,
            Number::Below(whole) => delta(*whole, -1),
        }
    }
}

/// c + k*δ, where both are numbers.
pub(crate) fn delta(c: i128, k: i128) -> Option<Delta> {
    let c = Frac::of(c, 1)?;
    let k = Frac::of(k, 1)?;
    Some(Delta { c, k })
}
