//! Clashes and points judged by plain sums.
use crate::system::{Given, UNITS, bounds, value};
use nz_delta::Scalar;
use nz_frac::{Frac, Wide};
use nz_lin::Part;
use nz_simplex::{Coordinate, Simplex};
use nz_term::TermId;
use nz_trail::{Reason, Side, Var};
use std::cmp::Ordering;

/// The coefficient of a unit in a form.
fn coefficient_of(parts: &[Part], unit: TermId) -> Frac {
    for part in parts {
        if part.unit == unit {
            return part.coefficient;
        }
    }
    Frac::whole(0)
}

/// The coefficient of a unit in the form of a number, where it is known.
fn coefficient<S: Coordinate>(simplex: &Simplex<S>, var: Var, unit: TermId) -> Frac {
    if var < simplex.len() {
        coefficient_of(simplex.form(var), unit)
    } else {
        Frac::whole(0)
    }
}

/// 1 for an upper bound, and -1 for a lower one, so that each says that a form is at most a number.
fn sign(side: Side) -> Frac {
    match side {
        Side::Upper => Frac::whole(1),
        Side::Lower => Frac::whole(-1),
    }
}

/// A sum with so many times the coefficient of a unit in a bound's form.
fn with_coefficient<S: Coordinate>(
    simplex: &Simplex<S>,
    sum: Frac,
    bound: &Given<S>,
    multiplier: Frac,
    unit: TermId,
) -> Result<Frac, Wide> {
    let factor = sign(bound.1).mul(multiplier)?;
    let product = coefficient(simplex, bound.0, unit).mul(factor)?;
    sum.add(product)
}

/// The coefficient of a unit in the sum of the multiples of the bounds' forms.
fn unit_sum<S: Coordinate>(
    simplex: &Simplex<S>,
    given: &[Given<S>],
    why: &[(Reason, Frac)],
    unit: TermId,
) -> Result<Frac, Wide> {
    let mut sum = Frac::whole(0);
    for (reason, multiplier) in why {
        if let Some(bound) = given.get(*reason) {
            sum = with_coefficient(simplex, sum, bound, *multiplier, unit)?;
        }
    }
    Ok(sum)
}

/// Whether no unit is left in the sum of the multiples of the bounds' forms.
fn has_no_unit<S: Coordinate>(
    simplex: &Simplex<S>,
    given: &[Given<S>],
    why: &[(Reason, Frac)],
) -> bool {
    for unit in UNITS {
        match unit_sum(simplex, given, why, unit) {
            Ok(sum) if sum.is_zero() => {}
            _ => return false,
        }
    }
    true
}

/// A sum with so many times a bound.
fn with_bound<S: Coordinate>(sum: S, bound: &Given<S>, multiplier: Frac) -> Result<S, Wide> {
    let factor = sign(bound.1).mul(multiplier)?;
    let product = bound.2.scale(factor)?;
    sum.add(product)
}

/// The sum of the multiples of the bounds.
fn bound_sum<S: Coordinate>(given: &[Given<S>], why: &[(Reason, Frac)]) -> Result<S, Wide> {
    let mut sum = S::zero();
    for (reason, multiplier) in why {
        if let Some(bound) = given.get(*reason) {
            sum = with_bound(sum, bound, *multiplier)?;
        }
    }
    Ok(sum)
}

/// Whether the sum of the multiples of the bounds is below 0.
fn is_below_zero<S: Coordinate>(given: &[Given<S>], why: &[(Reason, Frac)]) -> bool {
    match bound_sum(given, why) {
        Ok(sum) => sum.cmp(&S::zero()) == Ordering::Less,
        Err(_) => false,
    }
}

/// Whether the bound of a reason stands.
fn stands<S: Coordinate>(simplex: &Simplex<S>, given: &[Given<S>], reason: Reason) -> bool {
    let Some((var, side, _)) = given.get(reason) else {
        return false;
    };
    let (lower, upper) = bounds(simplex, *var);
    let limit = match side {
        Side::Lower => lower,
        Side::Upper => upper,
    };
    match limit {
        Some(limit) => limit.reason == reason,
        None => false,
    }
}

/// Whether each multiplier is above 0 and belongs to a bound that stands.
fn all_stand<S: Coordinate>(
    simplex: &Simplex<S>,
    given: &[Given<S>],
    why: &[(Reason, Frac)],
) -> bool {
    for (reason, multiplier) in why {
        if multiplier.num() <= 0 || !stands(simplex, given, *reason) {
            return false;
        }
    }
    true
}

/// Whether the last clash is one: multiples of bounds that stand sum to 0 at most a number below 0.
pub(crate) fn contradicts<S: Coordinate>(simplex: &Simplex<S>, given: &[Given<S>]) -> bool {
    let why = simplex.why();
    all_stand(simplex, given, why) && has_no_unit(simplex, given, why) && is_below_zero(given, why)
}

/// The number of a unit's own form.
fn number_of<S: Coordinate>(simplex: &Simplex<S>, unit: TermId) -> Option<Var> {
    for var in 0..simplex.len() {
        match simplex.form(var) {
            [part] if part.unit == unit => return Some(var),
            _ => {}
        }
    }
    None
}

/// The value of a unit.
fn unit_value<S: Coordinate>(simplex: &Simplex<S>, unit: TermId) -> Option<S> {
    let var = number_of(simplex, unit)?;
    value(simplex, var)
}

/// A sum with the multiple of a unit's value.
fn with_part<S: Coordinate>(simplex: &Simplex<S>, sum: S, part: &Part) -> Option<S> {
    let value = unit_value(simplex, part.unit)?;
    let product = value.scale(part.coefficient).ok()?;
    sum.add(product).ok()
}

/// The value that a form has where the units have theirs.
fn summed<S: Coordinate>(simplex: &Simplex<S>, parts: &[Part]) -> Option<S> {
    let mut sum = S::zero();
    for part in parts {
        sum = with_part(simplex, sum, part)?;
    }
    Some(sum)
}

/// Whether a value is within the bounds of a form.
fn is_within<S: Coordinate>(simplex: &Simplex<S>, var: Var, value: S) -> bool {
    let (lower, upper) = bounds(simplex, var);
    let above = match lower {
        Some(limit) => value.cmp(&limit.value) != Ordering::Less,
        None => true,
    };
    let below = match upper {
        Some(limit) => value.cmp(&limit.value) != Ordering::Greater,
        None => true,
    };
    above && below
}

/// Whether a value is the sum of these parts.
fn is_sum<S: Coordinate>(simplex: &Simplex<S>, value: S, parts: &[Part]) -> bool {
    match summed(simplex, parts) {
        Some(sum) => value.cmp(&sum) == Ordering::Equal,
        None => false,
    }
}

/// Whether a form has the value that its units give it, and that is within its bounds.
fn fits<S: Coordinate>(simplex: &Simplex<S>, var: Var) -> bool {
    if simplex.len() <= var {
        return false;
    }
    match value(simplex, var) {
        Some(value) => {
            is_sum(simplex, value, simplex.form(var)) && is_within(simplex, var, value)
        }
        None => false,
    }
}

/// Whether each form has the value that its units give it, and that is within its bounds.
pub(crate) fn is_point<S: Coordinate>(simplex: &Simplex<S>) -> bool {
    for var in 0..simplex.len() {
        if !fits(simplex, var) {
            return false;
        }
    }
    true
}
