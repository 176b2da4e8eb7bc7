//! The bounds of one variable, and what comes of one more.
ghost use Rattle.std.specs.Prelude.{◌≡◌, ◌↔◌, IsTrue, IsSomeAnd, IfSome, IfNone, false};
ghost use Rattle.nz_trail.specs.Bounds.{AreApart, IsTighter};
ghost use Rattle.nz_trail.specs.Pairs.{limit_on, with_limit};

use nz_delta::Scalar;
use std::cmp::Ordering;

/// The number of a variable, which stands for a linear form.
pub type Var = usize;

/// A number by which the caller knows what it asserted. Nothing else is known of it.
pub type Reason = usize;

/// From which side a bound holds a variable.
#[derive(Clone, Copy, Debug, PartialEq, Eq)]
pub enum Side {
    /// The variable is at least the value.
    Lower,
    /// The variable is at most the value.
    Upper,
}

impl Side {
    ghost use Rattle.nz_trail.specs.Bounds.{other_side};

    pub(crate) fn other(self) -> Side
        ensures other { result ≡ other_side self }
    {
        match self {
            Side::Lower => Side::Upper,
            Side::Upper => Side::Lower,
        }
    }
}

/// What comes of an asserted bound.
#[derive(Clone, Copy, Debug, PartialEq, Eq)]
pub enum AssertOutcome {
    /// One at least as tight stands.
    Kept,
    /// It stands from now on.
    Tighter,
    /// It and one that stands on the other side leave no value: its reason, and that of the other.
    Clash(Reason, Reason),
}

/// A bound that stands.
#[derive(Clone, Copy, Debug)]
pub struct Limit<S> {
    pub value: S,
    pub reason: Reason,
}

/// The bounds of one variable that stand.
#[derive(Clone, Copy, Debug)]
pub(crate) struct Limits<S> {
    pub lower: Option<Limit<S>>,
    pub upper: Option<Limit<S>>,
}

impl<S: Copy> Limits<S> {
    /// No bound.
    pub(crate) fn none() -> Self
        ensures none { result ≡ record { lower = None; upper = None } }
    {
        Limits {
            lower: None,
            upper: None,
        }
    }

    /// The bound of a side.
    pub(crate) fn on(self, side: Side) -> Option<Limit<S>>
        ensures limit { result ≡ limit_on side self }
    {
        match side {
            Side::Lower => self.lower,
            Side::Upper => self.upper,
        }
    }

    /// The bounds with another one on a side.
    pub(crate) fn with(self, side: Side, limit: Option<Limit<S>>) -> Self
        ensures limits { result ≡ with_limit side limit self }
    {
        match side {
            Side::Lower => Limits {
                lower: limit,
                upper: self.upper,
            },
            Side::Upper => Limits {
                lower: self.lower,
                upper: limit,
            },
        }
    }
}

/// Whether the first is tighter than the second, both as bounds of this side.
pub(crate) fn is_tighter<S: Scalar>(side: Side, x: S, y: S) -> bool
    ensures tighter { IsTrue result ↔ IsTighter S.order side x y }
{
    match side {
        Side::Lower => x.cmp(&y) == Ordering::Greater,
        Side::Upper => x.cmp(&y) == Ordering::Less,
    }
}

/// Whether the first, as a bound of this side, and the second, as one of the other, leave no value.
pub(crate) fn are_apart<S: Scalar>(side: Side, x: S, y: S) -> bool
    ensures apart { IsTrue result ↔ AreApart S.order side x y }
{
    match side {
        Side::Lower => x.cmp(&y) == Ordering::Greater,
        Side::Upper => y.cmp(&x) == Ordering::Greater,
    }
}

/// Whether the bound that stands on this side is at least as tight as the value.
pub(crate) fn is_implied<S: Scalar>(side: Side, value: S, standing: Option<Limit<S>>) -> bool
    ensures implied { IsTrue result → IsSomeAnd standing (λ l. ¬ IsTighter S.order side value l.value) }
    ensures tighter { (result ≡ false) → IfSome standing (λ l. IsTighter S.order side value l.value) }
{
    match standing {
        Some(limit) => !is_tighter(side, value, limit.value),
        None => false,
    }
}

/// The bound that stands on the other side, where it excludes the value as a bound of this side.
pub(crate) fn excluding<S: Scalar>(
    side: Side,
    value: S,
    standing: Option<Limit<S>>,
) -> Option<Limit<S>>
    ensures apart { IfSome result (λ l. (standing ≡ Some l) × AreApart S.order side value l.value) }
    ensures none { IfNone result (IfSome standing (λ l. ¬ AreApart S.order side value l.value)) }
{
    match standing {
        Some(limit) if are_apart(side, value, limit.value) => Some(limit),
        _ => None,
    }
}
