//! Bounds on sums of units: the literals of linear arithmetic, and sums of their multiples.
ghost use Rattle.std.specs.Prelude.{◌≡◌, ◌&&◌, ◌||◌, IfOk, List, OnOk, pos};
ghost use Rattle.std.specs.List.{AllByRecursion};
ghost use Rattle.nz_spec.specs.numbers.Computation.{and_then};
ghost use Rattle.nz_spec.specs.clauses.Farkas as farkas;
ghost use Rattle.nz_spec.specs.clauses.Farkas.{bound_scaled, bounds_joined, empty_bound};
ghost use Rattle.nz_spec.specs.terms.FormOf.{number_in};
ghost use Rattle.nz_fractions.specs.Fraction.{fraction_lt, whole};
ghost use Rattle.nz_spec.specs.clauses.LinearLiteral.{is_at_most_zero, is_below_zero};
ghost use Rattle.nz_spec.specs.clauses.Literal.{negation_of};
ghost use Rattle.nz_spec.specs.terms.Table.{IsTable, Node};
ghost use Rattle.nz_spec.specs.terms.Term.{is_zero};
ghost use Rattle.nz_lin.specs.Bounds.{HasUnits, IsBounded, bound_over, literal_over, multiples_over};
ghost use Rattle.nz_lin.specs.Comes.{Comes};
ghost use Rattle.nz_lin.specs.Forms.{form_over};

use crate::form::{Form, Part, Side, Sign};
use nz_base::Memory;
use nz_frac::Frac;
use nz_term::ArithmeticStop;
use std::alloc::Global;

/// A linear literal: a sum of units is at most a number, or below it.
#[derive(Debug, Drop)]
pub struct Bound {
    // The units, and as what is added the number on the other side: both sides are negated, multiplied and added alike.
    pub(crate) sides: Form,
    pub(crate) strict: bool,
}

/// A linear literal, and a number above 0 by which it is multiplied.
#[derive(Debug, Drop)]
pub struct BoundMultiple {
    pub bound: Bound,
    pub multiplier: Frac,
}

impl Bound {
    /// 0 is at most 0. Takes no memory.
    pub fn empty(alloc: Global) -> Bound
        ensures bound { (ns : List Node) → bound_over ns result ≡ empty_bound }
        ensures units { (ns : List Node) → HasUnits ns result }
    {
        Bound {
            sides: Form::number(alloc, Frac::whole(0)),
            strict: false,
        }
    }

    /// A form is at most 0: what it adds goes to the other side.
    pub fn at_most_zero(form: Form) -> Bound
        ensures literal { (ns : List Node) → literal_over ns result ≡ is_at_most_zero (form_over ns form) }
        ensures units { result.sides.parts ≡ form.parts }
    {
        let limit = form.offset().neg();
        Bound {
            sides: form.with_offset(limit),
            strict: false,
        }
    }

    /// A form is below 0.
    pub fn below_zero(form: Form) -> Bound
        ensures literal { (ns : List Node) → literal_over ns result ≡ is_below_zero (form_over ns form) }
        ensures units { result.sides.parts ≡ form.parts }
    {
        let limit = form.offset().neg();
        Bound {
            sides: form.with_offset(limit),
            strict: true,
        }
    }

    /// The units with their coefficients, by rising numbers.
    pub fn parts(&self) -> &[Part]
        ensures parts { result.now ≡ self.now.sides.parts }
    {
        self.sides.parts()
    }

    /// The sum, with the limit as what is added in it.
    pub fn form(&self) -> &Form
        ensures form { result.now ≡ self.now.sides }
    {
        &self.sides
    }

    /// The number that the sum is at most, or below.
    pub fn limit(&self) -> Frac
        ensures limit { result ≡ self.now.sides.offset }
    {
        self.sides.offset()
    }

    /// Whether the sum is below the number, and not just at most it.
    pub fn is_strict(&self) -> bool
        ensures strict { result ≡ self.now.strict }
    {
        self.strict
    }

    /// The same bound once more.
    pub fn copied(&self, alloc: Global) -> Result<Bound, Memory>
        ensures same { IfOk result (λ b. b ≡ self.now) }
    {
        Ok(Bound {
            sides: self.sides.copied(alloc)?,
            strict: self.strict,
        })
    }

    /// The negation: a sum is above a number where the sum with the other signs is below the other number.
    pub fn not(&self, alloc: Global) -> Result<Bound, Memory>
        ensures literal { IfOk result (λ b. (ns : List Node) → literal_over ns b ≡ negation_of (literal_over ns self.now)) }
        ensures units { IfOk result (λ b. (ns : List Node) → HasUnits ns self.now → HasUnits ns b) }
    {
        Ok(Bound {
            sides: self.sides.negated(alloc)?,
            strict: !self.strict,
        })
    }

    /// A multiple: each coefficient, and then the limit, as a product with the number, which stands on the left.
    pub fn scaled(&self, alloc: Global, multiplier: Frac) -> Result<Bound, ArithmeticStop>
        ensures bounded { (ns : List Node) → HasUnits ns self.now → IsBounded ns (bound_scaled multiplier (bound_over ns self.now)) result }
    {
        let sides = self.sides.multiplied(alloc, Side::Left, multiplier)?;
        Ok(Bound {
            sides,
            strict: self.strict,
        })
    }

    /// Adds a bound: unit by unit, and the limit last. The sum is strict where one of them is.
    pub fn join(&mut self, other: &Bound) -> Result<(), ArithmeticStop>
        ensures comes { (ns : List Node) → IsTable ns → HasUnits ns self.old → HasUnits ns other.now → Comes (bounds_joined (number_in ns) (bound_over ns self.old) (bound_over ns other.now)) (bound_over ns self.new) result }
        ensures units { OnOk result ((ns : List Node) → HasUnits ns self.old → HasUnits ns other.now → HasUnits ns self.new) }
    {
        self.sides.join(Sign::Plus, &other.sides)?;
        self.strict = self.strict || other.strict;
        Ok(())
    }

    /// Adds a multiple of a bound.
    pub fn join_multiple(
        &mut self,
        alloc: Global,
        multiplier: Frac,
        other: &Bound,
    ) -> Result<(), ArithmeticStop>
        ensures comes { (ns : List Node) → IsTable ns → HasUnits ns self.old → HasUnits ns other.now → Comes (and_then (bound_scaled multiplier (bound_over ns other.now)) (λ y. bounds_joined (number_in ns) (bound_over ns self.old) y)) (bound_over ns self.new) result }
        ensures units { OnOk result ((ns : List Node) → HasUnits ns self.old → HasUnits ns other.now → HasUnits ns self.new) }
    {
        let scaled = other.scaled(alloc, multiplier)?;
        self.join(&scaled)
    }

    /// Whether no unit is left, and 0 isn't within the limit.
    pub fn is_contradiction(&self) -> bool
        ensures contradiction { (ns : List Node) → result ≡ farkas.is_contradiction (bound_over ns self.now) }
    {
        self.sides.parts().is_empty() && self.excludes_zero()
    }

    /// Whether 0 isn't within the limit.
    fn excludes_zero(&self) -> bool
        ensures excludes { result ≡ (fraction_lt self.now.sides.offset (whole (pos 0)) || is_zero self.now.sides.offset && self.now.strict) }
    {
        let limit = self.sides.offset();
        limit < Frac::whole(0) || limit.is_zero() && self.strict
    }
}

/// The sum of multiples of linear literals, one after another.
///
/// # Errors
///
/// `Wide` with the first operation that leaves the numbers; `Memory`.
pub fn sum_of_multiples(alloc: Global, multiples: &[BoundMultiple]) -> Result<Bound, ArithmeticStop>
    ensures bounded { (ns : List Node) → IsTable ns → AllByRecursion (λ m. HasUnits ns m.bound) multiples.now → IsBounded ns (farkas.sum_of_multiples (number_in ns) (multiples_over ns multiples.now)) result }
{
    let mut sum = Bound::empty(alloc);
    for multiple in multiples {
        sum.join_multiple(alloc, multiple.multiplier, &multiple.bound)?;
    }
    Ok(sum)
}
