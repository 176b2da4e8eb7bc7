//! The trait of an ordered vector space over the fractions, and the fractions as one.
use nz_frac::{Frac, Wide};
use std::cmp::Ordering;

/// A number that can be added, compared and scaled by a fraction.
///
/// The laws are those of an ordered vector space, up to what `order` doesn't tell apart. They hold of the exact results;
/// a call gives the exact result or the first operation on fractions that is [`Wide`].
pub trait Scalar: Copy {
    ghost use Rattle.std.specs.Prelude.{◌≡◌, List, IfOk};
    ghost use Rattle.std.specs.declared.cmp.Ordering.{Ordering};
    ghost use Rattle.nz_fractions.specs.Fraction.{Fraction, Operation, first_wide};
    ghost use Rattle.nz_delta.specs.Space.{IsOrderedSpace};
    ghost use Rattle.nz_delta.specs.Refused.{refused};

    ghost origin: { Self };

    ghost plus: { Self → Self → Self };

    ghost minus: { Self → Self → Self };

    ghost scaled: { Self → Fraction → Self };

    ghost order: { Self → Self → Ordering };

    ghost plus_operations: { Self → Self → List Operation };

    ghost minus_operations: { Self → Self → List Operation };

    ghost scaled_operations: { Self → Fraction → List Operation };

    /// Zero.
    fn zero() -> Self
        ensures { result ≡ origin };

    /// The sum, or its first operation that is Wide.
    fn add(self, other: Self) -> Result<Self, Wide>
        ensures sum { IfOk result (λ x. x ≡ plus self other) }
        ensures wide { refused result ≡ first_wide (plus_operations self other) };

    /// The difference, or its first operation that is Wide.
    fn sub(self, other: Self) -> Result<Self, Wide>
        ensures difference { IfOk result (λ x. x ≡ minus self other) }
        ensures wide { refused result ≡ first_wide (minus_operations self other) };

    /// The product with a fraction, or its first operation that is Wide.
    fn scale(self, by: Frac) -> Result<Self, Wide>
        ensures product { IfOk result (λ x. x ≡ scaled self by) }
        ensures wide { refused result ≡ first_wide (scaled_operations self by) };

    /// How the two compare.
    fn cmp(&self, other: &Self) -> Ordering
        ensures { result ≡ order self.now other.now };

    ghost laws: { IsOrderedSpace origin plus minus scaled order };
}

impl Scalar for Frac {
    ghost use Rattle.std.specs.Prelude.{pos};
    ghost use Rattle.nz_fractions.specs.Fraction.{whole, outcome, Sum, Difference, Product, fraction_cmp};
    ghost use Rattle.nz_delta.specs.Operations.{alone};
    ghost use Rattle.nz_delta.specs.FractionSpace.{fraction_space};

    ghost origin = { whole (pos 0) };

    ghost plus = { outcome Sum };

    ghost minus = { outcome Difference };

    ghost scaled = { outcome Product };

    ghost order = { fraction_cmp };

    ghost plus_operations = { alone Sum };

    ghost minus_operations = { alone Difference };

    ghost scaled_operations = { alone Product };

    ghost laws = { fraction_space };

    fn zero() -> Frac {
        Frac::whole(0)
    }

    fn add(self, other: Frac) -> Result<Frac, Wide> {
        Frac::add(self, other)
    }

    fn sub(self, other: Frac) -> Result<Frac, Wide> {
        Frac::sub(self, other)
    }

    fn scale(self, by: Frac) -> Result<Frac, Wide> {
        self.mul(by)
    }

    fn cmp(&self, other: &Frac) -> Ordering {
        Ord::cmp(self, other)
    }
}
