//! The clauses of the link table, against all small assignments.
use crate::tables::{Table, clauses_of, stops_at};
use crate::terms::expect;
use crate::values::{Values, are_true, halves};
use nz_frac::{Frac, Op, Wide};
use nz_log::{Lit, Log};
use nz_term::{ArithmeticStop, NumberSort, Operator, Sort, TermId};
use nz_term_samples::MOST;
use nz_term_samples::Term::{self, Constant, Number, Over};
use std::alloc::Global;
use std::test::Fail;

/// Two integers (0, 1), and comparisons of the two.
const COMPARED: &[Term] = &[
    Constant(b'x', Sort::Int),
    Constant(b'y', Sort::Int),
    Over(Operator::Less, &[0, 1]),
    Over(Operator::AtMost, &[0, 1]),
    Over(Operator::Equal, &[0, 1]),
];

/// Whether a comparison is true of these numbers, by its truths for a smaller number and a greater one, for two that are the same, and for a
/// greater one and a smaller.
fn holds(truths: [bool; 3], a: i64, b: i64) -> bool {
    if a < b {
        truths[0]
    } else if a == b {
        truths[1]
    } else {
        truths[2]
    }
}

/// Whether the clauses are true where terms have these numbers and one has its truth, and else are false.
fn tell(
    log: &Log,
    clauses: &[Vec<Lit>],
    numbers: &[(TermId, Frac)],
    term: TermId,
    holds: bool,
) -> Result<bool, Wide> {
    let right = Values {
        numbers,
        truths: &[(term, holds)],
    };
    let wrong = Values {
        numbers,
        truths: &[(term, !holds)],
    };
    Ok(are_true(&right, log, clauses)? && !are_true(&wrong, log, clauses)?)
}

/// Whether the clauses are true just where the comparison has its truth, for each two numbers from -1 to 1.
fn tell_all(
    log: &Log,
    clauses: &[Vec<Lit>],
    comparison: TermId,
    truths: [bool; 3],
) -> Result<bool, Wide> {
    let mut agree = clauses.len() >= 2;
    for a in -1..2 {
        for b in -1..2 {
            let numbers = [(0, Frac::whole(a)), (1, Frac::whole(b))];
            let told = tell(log, clauses, &numbers, comparison, holds(truths, a, b))?;
            agree = agree && told;
        }
    }
    Ok(agree)
}

/// Whether the clauses of a comparison are so.
fn agree(
    alloc: Global,
    log: &mut Log,
    comparison: TermId,
    truths: [bool; 3],
) -> Result<bool, ArithmeticStop> {
    let clauses = clauses_of(alloc, log, Table::Links, COMPARED, comparison)?;
    Ok(tell_all(log, &clauses, comparison, truths)?)
}

/// The same of a log of its own.
fn agrees(alloc: Global, comparison: TermId, truths: [bool; 3]) -> Result<bool, ArithmeticStop> {
    let mut log = Log::new(alloc)?;
    agree(alloc, &mut log, comparison, truths)
}

#[test]
fn test_comparisons_are_tied_to_bounds(rt: HostRuntime) -> Result<(), Fail> {
    expect(agrees(rt.alloc(), 2, [true, false, false])?, "less")?;
    expect(agrees(rt.alloc(), 3, [true, true, false])?, "at most")?;
    expect(agrees(rt.alloc(), 4, [false, true, false])?, "equal")
}

/// The test (1) whether rounding changes `r` (0), and the rounded number (2).
const ROUNDED: &[Term] = &[
    Constant(b'r', Sort::Real),
    Over(Operator::IsInt, &[0]),
    Over(Operator::ToInt, &[0]),
];

/// Whether the clauses are true where `r` is this number and the test has its truth, and else are false.
fn tell_rounded(log: &Log, clauses: &[Vec<Lit>], number: Frac) -> Result<bool, Wide> {
    let numbers = [(0, number), (2, number.floor())];
    tell(log, clauses, &numbers, 1, number == number.floor())
}

/// Whether they are so for each half from -2 to 2.
fn rounds(log: &Log, clauses: &[Vec<Lit>]) -> Result<bool, Wide> {
    let mut rounds = clauses.len() == 2;
    for count in -4..5 {
        rounds = rounds && tell_rounded(log, clauses, halves(count))?;
    }
    Ok(rounds)
}

/// Fails unless the clauses of the test are so.
fn is_tied(alloc: Global, log: &mut Log) -> Result<(), Fail> {
    let clauses = clauses_of(alloc, log, Table::Links, ROUNDED, 1)?;
    expect(rounds(log, &clauses)?, "the test of rounding")
}

#[test]
fn test_a_test_of_rounding_is_tied_to_bounds(rt: HostRuntime) -> Result<(), Fail> {
    let mut log = Log::new(rt.alloc())?;
    is_tied(rt.alloc(), &mut log)
}

/// `(< (* M x) (* -1 x))`, whose difference has a coefficient that leaves the numbers.
const WIDE: &[Term] = &[
    Constant(b'x', Sort::Int),
    Number(MOST),
    Number(1),
    Over(Operator::Difference(NumberSort::Int), &[2]),
    Over(Operator::Product(NumberSort::Int), &[1, 0]),
    Over(Operator::Product(NumberSort::Int), &[3, 0]),
    Over(Operator::Less, &[4, 5]),
];

#[test]
fn test_a_wide_link_is_named(rt: HostRuntime) -> Result<(), Fail> {
    let named = stops_at(rt.alloc(), Table::Links, WIDE, 6, Op::Sub, -1)?;
    expect(named, "the operation")
}
