//! The plain decision: each pattern of truths and comparisons is tried.
use crate::elimination::{Constraint, can_be_met};
use crate::problem::{COMPARISONS, Comparison, NUMBERS, Pattern, Problem, TRUTHS};
use std::alloc::Global;
use std::cmp::Ordering;
use std::test::Fail;

/// 2 truths with 2 values each, and 4 comparisons with 3.
const PATTERNS: usize = 324;

/// The pattern of a number.
fn pattern(number: usize) -> Pattern {
    let mut rest = number;
    let mut truths = [false; TRUTHS];
    for place in 0..TRUTHS {
        truths[place] = rest % 2 == 1;
        rest = rest / 2;
    }
    let mut outcomes = [Ordering::Equal; COMPARISONS];
    for place in 0..COMPARISONS {
        outcomes[place] = match rest % 3 {
            0 => Ordering::Less,
            1 => Ordering::Greater,
            _ => Ordering::Equal,
        };
        rest = rest / 3;
    }
    Pattern { truths, outcomes }
}

/// Twice the factors of the numbers, where the choice is made.
fn factors(comparison: &Comparison, pattern: &Pattern) -> [i128; NUMBERS] {
    let mut factors = [0; NUMBERS];
    for number in 0..NUMBERS {
        factors[number] = (comparison.factors[number] as i128).wrapping_mul(2);
    }
    if let Some(choice) = comparison.choice {
        let chosen = match pattern.truths.get(choice.truth) {
            Some(true) => choice.yes,
            _ => choice.no,
        };
        if let Some(factor) = factors.get_mut(chosen) {
            *factor = factor.wrapping_add(2);
        }
    }
    factors
}

/// The factors with the other signs.
fn opposite(factors: [i128; NUMBERS]) -> [i128; NUMBERS] {
    let mut opposite = factors;
    for number in 0..NUMBERS {
        opposite[number] = factors[number].wrapping_neg();
    }
    opposite
}

/// Puts what a pattern says of a comparison behind others.
fn put(
    constraints: &mut Vec<Constraint>,
    comparison: &Comparison,
    pattern: &Pattern,
    outcome: Ordering,
) -> Result<(), Fail> {
    let strict = outcome != Ordering::Equal;
    let factors = factors(comparison, pattern);
    let limit = comparison.halves as i128;
    if outcome != Ordering::Greater {
        constraints.push(Constraint {
            factors,
            limit,
            strict,
        })?;
    }
    if outcome != Ordering::Less {
        constraints.push(Constraint {
            factors: opposite(factors),
            limit: limit.wrapping_neg(),
            strict,
        })?;
    }
    Ok(())
}

/// Whether some numbers have a pattern.
fn is_possible(alloc: Global, problem: &Problem, pattern: &Pattern) -> Result<bool, Fail> {
    let mut constraints = Vec::new(alloc);
    for (comparison, outcome) in problem.comparisons.iter().zip(pattern.outcomes.iter()) {
        put(&mut constraints, comparison, pattern, *outcome)?;
    }
    can_be_met(alloc, constraints.as_slice())
}

/// Whether all assertions of a problem can be true together.
pub fn is_satisfiable(alloc: Global, problem: &Problem) -> Result<bool, Fail> {
    for number in 0..PATTERNS {
        let pattern = pattern(number);
        if problem.holds(&pattern) && is_possible(alloc, problem, &pattern)? {
            return Ok(true);
        }
    }
    Ok(false)
}
