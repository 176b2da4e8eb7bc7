//! Tight bounds: those over integers, with coefficients that have no common divisor and an integer as limit.
ghost use Rattle.std.specs.Prelude.{◌≡◌, ◌≤◌, ◌&&◌, IfOk, List, not, unsigned_abs};
ghost use Rattle.std.specs.List.{list_all};
ghost use Rattle.nz_spec.specs.clauses.Cuts as cuts;
ghost use Rattle.nz_fractions.specs.Fraction.{floor, gcd, largest};
ghost use Rattle.nz_spec.specs.clauses.LinearLiteral as linear;
ghost use Rattle.nz_spec.specs.clauses.LinearLiteral.{tight_form};
ghost use Rattle.nz_spec.specs.terms.Table.{Node};
ghost use Rattle.nz_lin.specs.Bounds.{HasUnits, IsLiteral, bound_over, is_integral, literal_over, rounded_bound};
ghost use Rattle.nz_lin.specs.Comes.{IsOperated};
ghost use Rattle.nz_lin.specs.Forms.{AreUnits, parts_over};

use crate::bound::Bound;
use crate::form::Part;
use nz_frac::{Frac, Wide, greatest_divisor};
use nz_term::{ArithmeticStop, Sort};
use std::alloc::Global;

impl Bound {
    /// A bound that says as much. Where its units are integers and their coefficients too, these get no common divisor above
    /// 1, and the limit is the greatest integer within it; another bound stays as it is.
    ///
    /// # Errors
    ///
    /// `Wide` with the first operation that leaves the numbers; `Memory`.
    pub fn tight(&self, alloc: Global) -> Result<Bound, ArithmeticStop>
        ensures tight { (ns : List Node) → HasUnits ns self.now → IsLiteral ns (tight_form (literal_over ns self.now)) result }
    {
        let parts = self.sides.parts();
        if is_over_integers(parts) {
            self.rounded(alloc, tight_multiplier(parts))
        } else {
            Ok(self.copied(alloc)?)
        }
    }

    /// The bound times a number, with the greatest integer within its limit then.
    fn rounded(&self, alloc: Global, multiplier: Frac) -> Result<Bound, ArithmeticStop>
        ensures rounded { (ns : List Node) → HasUnits ns self.now → IsLiteral ns (rounded_bound multiplier (bound_over ns self.now)) result }
    {
        let scaled = self.scaled(alloc, multiplier)?;
        let limit = scaled.rounded_limit()?;
        Ok(Bound {
            sides: scaled.sides.with_offset(limit),
            strict: false,
        })
    }

    /// The greatest integer within the limit.
    #[tactic(auto, unfolding(nz_fractions::specs::Fraction::first_wide))]
    pub fn rounded_limit(&self) -> Result<Frac, Wide>
        ensures rounded { (ns : List Node) → IsOperated (cuts.rounded_limit (bound_over ns self.now)) result }
    {
        let limit = self.sides.offset();
        if self.strict {
            limit.ceil().sub(Frac::whole(1))
        } else {
            Ok(limit.floor())
        }
    }
}

/// Whether each coefficient is an integer and each unit of sort Int, and there are units.
fn is_over_integers(parts: &[Part]) -> bool
    ensures integers { (ns : List Node) → AreUnits ns parts.now → result ≡ (linear.are_integral (parts_over ns parts.now) && not (linear.is_without_units (parts_over ns parts.now))) }
{
    are_integral(parts) && !parts.is_empty()
}

/// Whether each coefficient is an integer, and each unit of sort Int.
fn are_integral(parts: &[Part]) -> bool
    ensures integral { result ≡ list_all is_integral parts.now }
{
    parts.iter().all(|part| is_integral(part))
}

/// Whether the coefficient is an integer, and the unit of sort Int.
fn is_integral(part: &Part) -> bool
    ensures integral { result ≡ is_integral part.now }
{
    match part.sort {
        Sort::Int => part.coefficient == part.coefficient.floor(),
        Sort::Bool => false,
        Sort::Real => false,
    }
}

/// What makes the coefficients, which are integers, integers without a common divisor above 1.
fn tight_multiplier(parts: &[Part]) -> Frac
    ensures multiplier { (ns : List Node) → result ≡ linear.tight_multiplier (parts_over ns parts.now) }
{
    // Where all of them are 0, there is no such divisor.
    match Frac::one_over(common_divisor(parts)) {
        Some(multiplier) => multiplier,
        None => Frac::whole(1),
    }
}

/// The greatest common divisor of the coefficients, rounded down.
fn common_divisor(parts: &[Part]) -> u128
    ensures divisor { (ns : List Node) → result ≡ linear.common_divisor (parts_over ns parts.now) }
    ensures fits { result ≤ largest }
{
    let mut divisor = 0;
    for part in parts {
        divisor = greatest_divisor(divisor, size(part));
    }
    divisor
}

/// The coefficient, rounded down and without its sign.
fn size(part: &Part) -> u128
    ensures size { result ≡ unsigned_abs (floor part.now.coefficient) }
    ensures fits { result ≤ largest }
{
    part.coefficient.floor().num().unsigned_abs()
}
