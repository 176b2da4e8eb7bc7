//! Which bounds a form breaks, and which forms can help.
ghost use Rattle.std.specs.Prelude.{◌≡◌, IfSome, IfNone, Some, true};
ghost use Rattle.nz_simplex.specs.Choices.{has_room, is_kept, is_past, on, size_of, way_of};
ghost use Rattle.nz_trail.specs.Bounds.{other_side};
ghost use Rattle.nz_trail.specs.declared.limits.Side.TheVariants.{Lower, Upper};

use crate::coordinate::Coordinate;
use nz_frac::Frac;
use nz_trail::{Limit, Side, Var};
use std::cmp::Ordering;

/// A form whose value is outside of its bound.
#[derive(Clone, Copy, Debug)]
pub(crate) struct Broken<S> {
    pub var: Var,
    pub side: Side,
    pub limit: Limit<S>,
}

/// The other side.
pub(crate) fn opposite(side: Side) -> Side
    ensures other { result ≡ other_side side }
{
    match side {
        Side::Lower => Side::Upper,
        Side::Upper => Side::Lower,
    }
}

/// Whether a value is outside of a bound of this side.
pub(crate) fn is_outside<S: Coordinate>(side: Side, bound: S, value: S) -> bool
    ensures outside { result ≡ is_past S.stands_for side bound value }
{
    match side {
        Side::Lower => value.cmp(&bound) == Ordering::Less,
        Side::Upper => bound.cmp(&value) == Ordering::Less,
    }
}

/// Whether a value may still move towards this side.
pub(crate) fn has_room<S: Coordinate>(side: Side, limit: Option<Limit<S>>, value: S) -> bool
    ensures room { result ≡ has_room S.stands_for side limit value }
{
    match limit {
        Some(limit) => is_outside(opposite(side), limit.value, value),
        None => true,
    }
}

/// The bound that a value breaks. It breaks one at most.
pub(crate) fn broken_bound<S: Coordinate>(
    value: S,
    lower: Option<Limit<S>>,
    upper: Option<Limit<S>>,
) -> Option<(Side, Limit<S>)>
    ensures broken { IfSome result (λ b. (on b.0 lower upper ≡ Some b.1) × (is_past S.stands_for b.0 b.1.value value ≡ true)) }
    ensures kept { IfNone result (is_kept S.stands_for Lower lower value × is_kept S.stands_for Upper upper value) }
{
    match (lower, upper) {
        (Some(limit), _) if is_outside(Side::Lower, limit.value, value) => {
            Some((Side::Lower, limit))
        }
        (_, Some(limit)) if is_outside(Side::Upper, limit.value, value) => {
            Some((Side::Upper, limit))
        }
        _ => None,
    }
}

/// To which side a nonbasic form with this coefficient moves so that the form of the row moves to a side: None at 0.
pub(crate) fn way(side: Side, coefficient: Frac) -> Option<Side>
    ensures way { result ≡ way_of side coefficient }
{
    if coefficient.is_zero() {
        None
    } else if coefficient.num() < 0 {
        Some(opposite(side))
    } else {
        Some(side)
    }
}

/// The coefficient without its sign.
pub(crate) fn size(coefficient: Frac) -> Frac
    ensures size { result ≡ size_of coefficient }
{
    if coefficient.num() < 0 {
        coefficient.neg()
    } else {
        coefficient
    }
}
