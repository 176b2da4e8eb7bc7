//! What atoms say of the forms of a simplex.
ghost use Rattle.std.specs.Prelude.{◌≡◌, Bool, IfOk, IfSome, List, None, true, false};
ghost use Rattle.nz_fractions.specs.Fraction.{whole};
ghost use Rattle.nz_spec.specs.terms.Table.{IsTable, Node};
ghost use Rattle.nz_lin.specs.Bounds.{HasUnits};
ghost use Rattle.nz_tab.specs.Units.{is_one, is_unit_form};
ghost use Rattle.nz_trail.specs.declared.limits.Side.TheVariants.{Lower};
ghost use Rattle.nz_reals.specs.Exclusions.{IsAbove};
ghost use Rattle.nz_reals.specs.Known.{IsSaidOf, known_of, said_by, said_of};
ghost use Rattle.nz_reals.specs.Sums.{is_turned, turned_sum, zero_bound};

use nz_base::Memory;
use nz_delta::{Delta, Scalar, stands_for_infinitesimal};
use nz_frac::Frac;
use nz_lin::{Bound, Part};
use nz_spec::table::one_number;
use nz_trail::{Side, Var};
use std::alloc::Global;
use std::cmp::Ordering;

/// A bound on a side.
#[derive(Clone, Copy, Debug)]
pub(crate) struct SideBound {
    pub side: Side,
    pub value: Delta,
}

impl SideBound {
    /// Whether a value is on its side.
    pub(crate) fn is_met_by(&self, value: &Delta) -> bool {
        let order = Scalar::cmp(value, &self.value);
        match self.side {
            Side::Lower => !matches!(order, Ordering::Less),
            Side::Upper => !matches!(order, Ordering::Greater),
        }
    }

    /// Whether it is a lower bound, and the other one an upper bound below it.
    pub(crate) fn is_above(&self, other: &SideBound) -> bool
        ensures above { result ≡ true → IsAbove (said_of self.now) (said_of other.now) }
        ensures meet { result ≡ false → IsAbove (said_of self.now) (said_of other.now) → ⊥ }
    {
        stands_for_infinitesimal();
        match self.side {
            Side::Upper => false,
            Side::Lower => match other.side {
                Side::Lower => false,
                Side::Upper => matches!(Scalar::cmp(&self.value, &other.value), Ordering::Greater),
            },
        }
    }
}

/// What an atom says of a form, and what its negation says.
#[derive(Clone, Copy, Debug)]
pub(crate) struct Bounded {
    pub var: Var,
    pub yes: SideBound,
    pub no: SideBound,
}

impl Bounded {
    /// What a bound says of its form: of the sum, or of the sum with the other signs. A sum without units is one with the other signs.
    pub(crate) fn new(var: Var, bound: &Bound) -> Bounded
        ensures form { result.var ≡ var }
        ensures says { IsSaidOf bound.now.sides.parts bound.now.sides.offset (known_of result) }
    {
        let limit = bound.limit();
        let opposite = limit.neg();
        if is_turned(bound.parts()) {
            return Bounded {
                var,
                yes: on_side(Side::Lower, opposite, 0),
                no: on_side(Side::Upper, opposite, -1),
            };
        }
        if bound.parts().is_empty() {
            return Bounded {
                var,
                yes: on_side(Side::Upper, limit, 0),
                no: on_side(Side::Upper, opposite, -1),
            };
        }
        Bounded {
            var,
            yes: on_side(Side::Upper, limit, 0),
            no: on_side(Side::Lower, limit, 1),
        }
    }

    /// The sign of the literal that says a lower bound. A sum without units has none.
    pub(crate) fn lower_sign(&self) -> Option<bool>
        ensures lower { IfSome result (λ sign. (said_by (known_of self.now) sign).side ≡ Lower) }
        ensures none { result ≡ None → (sign : Bool) → (said_by (known_of self.now) sign).side ≡ Lower → ⊥ }
    {
        match self.yes.side {
            Side::Lower => return Some(true),
            Side::Upper => {}
        }
        match self.no.side {
            Side::Lower => Some(false),
            Side::Upper => None,
        }
    }

    /// What the atom says, or its negation.
    pub(crate) fn said(&self, sign: bool) -> SideBound
        ensures said { said_of result ≡ said_by (known_of self.now) sign }
    {
        if sign { self.yes } else { self.no }
    }
}

/// A number, and so many infinitesimals, on a side.
fn on_side(side: Side, number: Frac, infinitesimals: i64) -> SideBound
    ensures said { result ≡ record { side = side; value = record { c = number; k = whole infinitesimals } } }
{
    SideBound {
        side,
        value: Delta {
            c: number,
            k: Frac::whole(infinitesimals),
        },
    }
}

/// Whether the first coefficient is below 0.
pub(crate) fn is_turned(parts: &[Part]) -> bool
    ensures turned { result ≡ is_turned parts.now }
{
    match parts {
        [] => false,
        [first, ..] => first.coefficient < Frac::whole(0),
    }
}

/// That the sum of a bound is at most 0, or the sum with the other signs: that whose first coefficient isn't below 0.
pub(crate) fn zeroed(alloc: Global, bound: &Bound) -> Result<Bound, Memory>
    ensures zeroed { IfOk result (λ b. (ns : List Node) → IsTable ns → HasUnits ns bound.now → b ≡ zero_bound (turned_sum bound.now.sides.parts)) }
{
    one_number();
    if is_turned(bound.parts()) {
        return Ok(bound.not(alloc)?.with_limit(Frac::whole(0)));
    }
    Ok(bound.copied(alloc)?.with_limit(Frac::whole(0)))
}

/// Whether a number is 1.
pub(crate) fn is_one(number: Frac) -> bool
    ensures one { result ≡ is_one number }
{
    let one = Frac::whole(1);
    number.num();
    one.num();
    number == one
}

/// Whether a sum is a unit alone.
pub(crate) fn is_unit(parts: &[Part]) -> bool
    ensures unit { result ≡ is_unit_form parts.now }
{
    match parts {
        [part] => is_one(part.coefficient),
        _ => false,
    }
}
