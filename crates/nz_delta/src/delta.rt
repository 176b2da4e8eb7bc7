//! Infinitesimal numbers.
ghost use Rattle.std.specs.Prelude.{◌≡◌};
ghost use Rattle.nz_fractions.specs.Fraction.{Fraction};
ghost use Rattle.nz_spec.specs.numbers.Infinitesimal.{◌=δ◌, ◌+δ◌, ◌-δ◌, scaled, infinitesimal_cmp};
ghost use Rattle.nz_delta.specs.DeltaSpace.{infinitesimal_of, delta_plus, delta_minus, delta_scaled, delta_cmp};

use crate::scalar::Scalar;
use nz_frac::{Frac, Wide};
use std::cmp::Ordering;

/// c + k*δ, where δ is above 0 and below each fraction above 0.
#[derive(Clone, Copy, Debug)]
pub struct Delta {
    pub c: Frac,
    pub k: Frac,
}

impl Scalar for Delta {
    ghost use Rattle.nz_delta.specs.DeltaSpace.{delta_zero, delta_plus, delta_minus, delta_scaled, delta_cmp, delta_plus_operations, delta_minus_operations, delta_scaled_operations, delta_space};

    ghost origin = { delta_zero };

    ghost plus = { delta_plus };

    ghost minus = { delta_minus };

    ghost scaled = { delta_scaled };

    ghost order = { delta_cmp };

    ghost plus_operations = { delta_plus_operations };

    ghost minus_operations = { delta_minus_operations };

    ghost scaled_operations = { delta_scaled_operations };

    ghost laws = { delta_space };

    fn zero() -> Delta {
        Delta {
            c: Frac::whole(0),
            k: Frac::whole(0),
        }
    }

    fn add(self, other: Delta) -> Result<Delta, Wide> {
        let c = self.c.add(other.c)?;
        let k = self.k.add(other.k)?;
        Ok(Delta { c, k })
    }

    fn sub(self, other: Delta) -> Result<Delta, Wide> {
        let c = self.c.sub(other.c)?;
        let k = self.k.sub(other.k)?;
        Ok(Delta { c, k })
    }

    fn scale(self, by: Frac) -> Result<Delta, Wide> {
        let c = self.c.mul(by)?;
        let k = self.k.mul(by)?;
        Ok(Delta { c, k })
    }

    fn cmp(&self, other: &Delta) -> Ordering {
        match Ord::cmp(&self.c, &other.c) {
            Ordering::Equal => Ord::cmp(&self.k, &other.k),
            unequal => unequal,
        }
    }
}

/// What `Delta`'s operations answer has the value of the infinitesimal number, and `cmp` is its order.
pub fn stands_for_infinitesimal()
    ensures sum { (x : Delta) → (y : Delta) → infinitesimal_of (delta_plus x y) =δ (infinitesimal_of x +δ infinitesimal_of y) }
    ensures difference { (x : Delta) → (y : Delta) → infinitesimal_of (delta_minus x y) =δ (infinitesimal_of x -δ infinitesimal_of y) }
    ensures product { (x : Delta) → (q : Fraction) → infinitesimal_of (delta_scaled x q) =δ scaled (infinitesimal_of x) q }
    ensures order { (x : Delta) → (y : Delta) → delta_cmp x y ≡ infinitesimal_cmp (infinitesimal_of x) (infinitesimal_of y) }
{}
