//! Operations on two integers, each in a table of its own.

use crate::acts::Wrong;
use crate::calls::{comes_to, have_values};
use nz_base::Memory;
use nz_term::{Operator, TermId, Terms};
use nz_term_samples::{integer, operation};
use std::alloc::Global;
use std::test::Fail;

/// What is made of two integers, and what it comes to.
enum Wanted {
    /// The operator over them comes to this integer.
    Of(Operator, i128),
    /// Their quotient, rounded down, comes to this integer.
    Rounded(i128),
    /// Whether their quotient is an integer.
    Whole(bool),
}

/// Two integers, and what is wanted of them.
struct Case(i64, i64, Wanted);

/// The term of an operator over two integers.
fn of_integers(terms: &mut Terms, operator: Operator, m: i64, n: i64) -> Result<TermId, Memory> {
    let left = integer(terms, m)?;
    let right = integer(terms, n)?;
    operation(terms, operator, &[left, right])
}

/// The term of an operator over the quotient of two integers.
fn of_quotient(terms: &mut Terms, operator: Operator, m: i64, n: i64) -> Result<TermId, Memory> {
    let quotient = of_integers(terms, Operator::Quotient, m, n)?;
    operation(terms, operator, &[quotient])
}

/// Whether what is made of two integers comes to what is wanted.
fn is_met(alloc: Global, terms: &mut Terms, case: &Case) -> Result<bool, Memory> {
    let Case(m, n, wanted) = case;
    match wanted {
        Wanted::Of(operator, number) => {
            let id = of_integers(terms, *operator, *m, *n)?;
            comes_to(alloc, terms, id, *number)
        }
        Wanted::Rounded(number) => {
            let id = of_quotient(terms, Operator::ToInt, *m, *n)?;
            comes_to(alloc, terms, id, *number)
        }
        Wanted::Whole(truth) => {
            let id = of_quotient(terms, Operator::IsInt, *m, *n)?;
            have_values(alloc, terms, &[id], &[], &[*truth])
        }
    }
}

/// The same in a new table.
fn is_met_alone(alloc: Global, case: &Case) -> Result<bool, Memory> {
    let mut terms = Terms::new(alloc)?;
    is_met(alloc, &mut terms, case)
}

/// Fails at the first of these that comes to something else than is wanted.
fn run(alloc: Global, cases: &[Case]) -> Result<(), Fail> {
    for (place, case) in cases.iter().enumerate() {
        if !is_met_alone(alloc, case)? {
            return Err(Fail::from(Wrong { place }));
        }
    }
    Ok(())
}

#[test]
fn test_div_leaves_no_remainder_below_zero(rt: HostRuntime) -> Result<(), Fail> {
    const CASES: &[Case] = &[
        Case(7, 2, Wanted::Of(Operator::Div, 3)),
        Case(-7, 2, Wanted::Of(Operator::Div, -4)),
        Case(7, -2, Wanted::Of(Operator::Div, -3)),
        Case(-7, -2, Wanted::Of(Operator::Div, 4)),
    ];
    run(rt.alloc(), CASES)
}

#[test]
fn test_mod_is_never_below_zero(rt: HostRuntime) -> Result<(), Fail> {
    const CASES: &[Case] = &[
        Case(-7, 3, Wanted::Of(Operator::Mod, 2)),
        Case(7, -3, Wanted::Of(Operator::Mod, 1)),
        Case(-7, -3, Wanted::Of(Operator::Mod, 2)),
    ];
    run(rt.alloc(), CASES)
}

#[test]
fn test_by_zero_the_definition_is_computed(rt: HostRuntime) -> Result<(), Fail> {
    const CASES: &[Case] = &[
        Case(-7, 0, Wanted::Of(Operator::Div, -1)),
        Case(-7, 0, Wanted::Of(Operator::Mod, -7)),
        Case(-7, 0, Wanted::Of(Operator::Quotient, 0)),
    ];
    run(rt.alloc(), CASES)
}

#[test]
fn test_to_int_rounds_down(rt: HostRuntime) -> Result<(), Fail> {
    const CASES: &[Case] = &[
        Case(-1, 2, Wanted::Rounded(-1)),
        Case(5, 3, Wanted::Rounded(1)),
    ];
    run(rt.alloc(), CASES)
}

#[test]
fn test_integers_are_told_from_fractions(rt: HostRuntime) -> Result<(), Fail> {
    const CASES: &[Case] = &[
        Case(6, 3, Wanted::Whole(true)),
        Case(-1, 2, Wanted::Whole(false)),
    ];
    run(rt.alloc(), CASES)
}
