//! Whether constraints on numbers can be met together, by eliminating one number after another.
// Source: Fourier 1826, Motzkin 1936.
use crate::problem::NUMBERS;
use std::alloc::Global;
use std::test::Fail;

/// That a sum of multiples of the numbers is at most a limit, or below it.
#[derive(Clone, Copy, Debug)]
pub struct Constraint {
    pub factors: [i128; NUMBERS],
    pub limit: i128,
    pub strict: bool,
}

/// The sum of two multiples, where it fits.
fn combined(a: i128, by: i128, b: i128, and: i128) -> Option<i128> {
    a.checked_mul(by)?.checked_add(b.checked_mul(and)?)
}

impl Constraint {
    /// The sum of a multiple of this one and one of another, where it fits.
    fn with(&self, by: i128, other: &Constraint, and: i128) -> Option<Constraint> {
        let mut factors = [0; NUMBERS];
        for number in 0..NUMBERS {
            factors[number] = combined(self.factors[number], by, other.factors[number], and)?;
        }
        Some(Constraint {
            factors,
            limit: combined(self.limit, by, other.limit, and)?,
            strict: self.strict || other.strict,
        })
    }

    /// One that no number of a constraint is in holds.
    fn is_met_by_zero(&self) -> bool {
        0 < self.limit || (self.limit == 0 && !self.strict)
    }
}

/// What is left for the other numbers: of an upper and a lower bound of the number, that the lower one is within the upper one.
fn without(
    alloc: Global,
    constraints: &[Constraint],
    number: usize,
) -> Result<Vec<Constraint>, Fail> {
    let mut rest = Vec::new(alloc);
    for first in constraints {
        let upper = first.factors.get(number).copied().unwrap_or(0);
        if upper == 0 {
            rest.push(*first)?;
        }
        for second in constraints {
            let lower = second.factors.get(number).copied().unwrap_or(0);
            if upper > 0 && lower < 0 {
                let Some(sum) = first.with(lower.wrapping_neg(), second, upper) else {
                    return Err(Fail::new("a constraint too large"));
                };
                rest.push(sum)?;
            }
        }
    }
    Ok(rest)
}

/// Whether some numbers meet these constraints.
pub fn can_be_met(alloc: Global, constraints: &[Constraint]) -> Result<bool, Fail> {
    let mut rest = Vec::from_slice(alloc, constraints)?;
    for number in 0..NUMBERS {
        rest = without(alloc, rest.as_slice(), number)?;
    }
    Ok(rest.iter().all(|constraint| constraint.is_met_by_zero()))
}
