//! The numbers that values of forms are.
use nz_delta::{Delta, Scalar};
use nz_frac::Frac;

/// A scalar that stands for an infinitesimal number, with the same operations.
pub trait Coordinate: Scalar {
    ghost use Rattle.nz_spec.specs.numbers.Infinitesimal.{Infinitesimal};
    ghost use Rattle.nz_simplex.specs.Faithful.{IsFaithful};

    ghost stands_for: { Self → Infinitesimal };

    ghost faithful: { IsFaithful stands_for Self.origin Self.plus Self.minus Self.scaled Self.order Self.plus_operations Self.minus_operations Self.scaled_operations };
}

impl Coordinate for Frac {
    ghost use Rattle.nz_spec.specs.simplex.Bland.{standing};
    ghost use Rattle.nz_simplex.specs.FaithfulScalars.{faithful_fraction};

    ghost stands_for = { standing };

    ghost faithful = { faithful_fraction };
}

impl Coordinate for Delta {
    ghost use Rattle.nz_delta.specs.DeltaSpace.{infinitesimal_of};
    ghost use Rattle.nz_simplex.specs.FaithfulScalars.{faithful_delta};

    ghost stands_for = { infinitesimal_of };

    ghost faithful = { faithful_delta };
}
