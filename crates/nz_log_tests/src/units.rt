//! The clauses of the unit table, against all small assignments.
use crate::tables::{Table, clauses_of, stops_at};
use crate::terms::expect;
use crate::values::{Values, are_true, halves};
use nz_frac::{Frac, Op, Wide};
use nz_log::{Lit, Log};
use nz_term::{ArithmeticStop, NumberSort, Operator, Sort, TermId};
use nz_term_samples::MOST;
use nz_term_samples::Term::{self, Constant, Number, Over};
use std::alloc::Global;
use std::test::Fail;

/// An integer `x` (0), and what operators make of it and 3 (1) or -3 (2).
const DIVIDED: &[Term] = &[
    Constant(b'x', Sort::Int),
    Number(3),
    Over(Operator::Difference(NumberSort::Int), &[1]),
    Over(Operator::Div, &[0, 1]),
    Over(Operator::Div, &[0, 2]),
    Over(Operator::Mod, &[0, 1]),
    Over(Operator::Mod, &[0, 2]),
];

const QUOTIENT: TermId = 3;

const NEGATIVE_QUOTIENT: TermId = 4;

const REMAINDER: TermId = 5;

const NEGATIVE_REMAINDER: TermId = 6;

/// Integers with their quotients by 3 and their remainders.
const CASES: &[(i64, i64, i64)] = &[
    (-7, -3, 2),
    (-6, -2, 0),
    (-5, -2, 1),
    (-4, -2, 2),
    (-3, -1, 0),
    (-2, -1, 1),
    (-1, -1, 2),
    (0, 0, 0),
    (1, 0, 1),
    (2, 0, 2),
    (3, 1, 0),
    (4, 1, 1),
    (5, 1, 2),
    (6, 2, 0),
    (7, 2, 1),
];

/// Whether the clauses are true just where this unit has this value, of the numbers from -4 to 4, beside what is told of two terms and of the
/// truth of the first term.
fn are_just(
    log: &Log,
    clauses: &[Vec<Lit>],
    unit: TermId,
    value: Frac,
    others: [(TermId, Frac); 2],
    truth: bool,
) -> Result<bool, Wide> {
    let mut just = true;
    for b in -4..5 {
        let number = Frac::whole(b);
        // The first number that is told of a term stands, also where another one is told of the unit.
        let values = Values {
            numbers: &[(unit, number), others[0], others[1]],
            truths: &[(0, truth)],
        };
        let holds = are_true(&values, log, clauses)?;
        just = just && holds == (number == value);
    }
    Ok(just)
}

/// Whether they are so of an integer, its quotient by 3 and its remainder, where this is the unit, and that the quotient by the same divisor.
fn tell_case(
    log: &Log,
    clauses: &[Vec<Lit>],
    unit: TermId,
    quotient: TermId,
    case: (i64, i64, i64),
) -> Result<bool, Wide> {
    let (a, by_three, remainder) = case;
    let whole = signed(Frac::whole(by_three), quotient == NEGATIVE_QUOTIENT);
    let value = if unit == quotient {
        whole
    } else {
        Frac::whole(remainder)
    };
    let others = [(0, Frac::whole(a)), (quotient, whole)];
    are_just(log, clauses, unit, value, others, false)
}

/// Whether they are so of each integer.
fn tell_all(log: &Log, clauses: &[Vec<Lit>], unit: TermId, quotient: TermId) -> Result<bool, Wide> {
    let mut tell = clauses.len() >= 2;
    for case in CASES {
        tell = tell && tell_case(log, clauses, unit, quotient, *case)?;
    }
    Ok(tell)
}

/// Whether the clauses of an operator over an integer and a divisor are true just where the unit has its value.
fn divide(
    alloc: Global,
    log: &mut Log,
    unit: TermId,
    quotient: TermId,
) -> Result<bool, ArithmeticStop> {
    let clauses = clauses_of(alloc, log, Table::Units, DIVIDED, unit)?;
    Ok(tell_all(log, &clauses, unit, quotient)?)
}

/// The same of a log of its own.
fn divides(alloc: Global, unit: TermId, quotient: TermId) -> Result<bool, ArithmeticStop> {
    let mut log = Log::new(alloc)?;
    divide(alloc, &mut log, unit, quotient)
}

/// The number, or its negative.
fn signed(number: Frac, negative: bool) -> Frac {
    if negative { number.neg() } else { number }
}

#[test]
fn test_quotients_and_remainders_are_bounded(rt: HostRuntime) -> Result<(), Fail> {
    expect(divides(rt.alloc(), QUOTIENT, QUOTIENT)?, "by 3")?;
    let by_less = divides(rt.alloc(), NEGATIVE_QUOTIENT, NEGATIVE_QUOTIENT)?;
    expect(by_less, "by -3")?;
    expect(divides(rt.alloc(), REMAINDER, QUOTIENT)?, "modulo 3")?;
    let modulo_less = divides(rt.alloc(), NEGATIVE_REMAINDER, NEGATIVE_QUOTIENT)?;
    expect(modulo_less, "modulo -3")
}

/// The size (1) of an integer (0).
const SIZE: &[Term] = &[Constant(b'x', Sort::Int), Over(Operator::Abs, &[0])];

/// Whether they are true just where the integer has its size.
fn are_sizes(log: &Log, clauses: &[Vec<Lit>]) -> Result<bool, Wide> {
    let cases = [(-2, 2), (-1, 1), (0, 0), (1, 1), (2, 2)];
    let mut sizes = clauses.len() == 3;
    for i in 0..cases.len() {
        let (a, size) = cases[i];
        let others = [(0, Frac::whole(a)), (0, Frac::whole(a))];
        let just = are_just(log, clauses, 1, Frac::whole(size), others, false)?;
        sizes = sizes && just;
    }
    Ok(sizes)
}

/// Fails unless the clauses of a size are so.
fn bounds_a_size(alloc: Global, log: &mut Log) -> Result<(), Fail> {
    let clauses = clauses_of(alloc, log, Table::Units, SIZE, 1)?;
    expect(are_sizes(log, &clauses)?, "the size")
}

#[test]
fn test_a_size_is_bounded(rt: HostRuntime) -> Result<(), Fail> {
    let mut log = Log::new(rt.alloc())?;
    bounds_a_size(rt.alloc(), &mut log)
}

/// The choice (3) between two integers (1, 2) by a Boolean constant (0).
const CHOICE: &[Term] = &[
    Constant(b'c', Sort::Bool),
    Constant(b'x', Sort::Int),
    Constant(b'y', Sort::Int),
    Over(Operator::Ite(Sort::Int), &[0, 1, 2]),
];

/// The integers: 0 and 1.
fn branches() -> [(TermId, Frac); 2] {
    [(1, Frac::whole(0)), (2, Frac::whole(1))]
}

/// Whether they are true just where the choice is of the first integer where the constant is true, and else of the second.
fn are_choices(log: &Log, clauses: &[Vec<Lit>]) -> Result<bool, Wide> {
    let first = are_just(log, clauses, 3, Frac::whole(0), branches(), true)?;
    let second = are_just(log, clauses, 3, Frac::whole(1), branches(), false)?;
    Ok(clauses.len() == 4 && first && second)
}

/// Fails unless the clauses of a choice are so.
fn ties_a_choice(alloc: Global, log: &mut Log) -> Result<(), Fail> {
    let clauses = clauses_of(alloc, log, Table::Units, CHOICE, 3)?;
    expect(are_choices(log, &clauses)?, "the choice")
}

#[test]
fn test_a_choice_is_one_of_its_branches(rt: HostRuntime) -> Result<(), Fail> {
    let mut log = Log::new(rt.alloc())?;
    ties_a_choice(rt.alloc(), &mut log)
}

/// A rounded number (1) of a real one (0).
const ROUNDED: &[Term] = &[Constant(b'r', Sort::Real), Over(Operator::ToInt, &[0])];

/// Whether they are true just where the number is rounded, for each half from -2 to 2.
fn are_roundings(log: &Log, clauses: &[Vec<Lit>]) -> Result<bool, Wide> {
    let mut rounded = clauses.len() == 2;
    for count in -4..5 {
        let others = [(0, halves(count)), (0, halves(count))];
        let just = are_just(log, clauses, 1, halves(count).floor(), others, false)?;
        rounded = rounded && just;
    }
    Ok(rounded)
}

/// Fails unless the clauses of a rounded number are so.
fn bounds_a_rounded_number(alloc: Global, log: &mut Log) -> Result<(), Fail> {
    let clauses = clauses_of(alloc, log, Table::Units, ROUNDED, 1)?;
    expect(are_roundings(log, &clauses)?, "the rounded number")
}

#[test]
fn test_a_rounded_number_is_bounded(rt: HostRuntime) -> Result<(), Fail> {
    let mut log = Log::new(rt.alloc())?;
    bounds_a_rounded_number(rt.alloc(), &mut log)
}

/// `(abs (+ (* M x) x))`, in whose argument a coefficient leaves the numbers.
const WIDE: &[Term] = &[
    Constant(b'x', Sort::Int),
    Number(MOST),
    Over(Operator::Product(NumberSort::Int), &[1, 0]),
    Over(Operator::Sum(NumberSort::Int), &[2, 0]),
    Over(Operator::Abs, &[3]),
];

#[test]
fn test_a_wide_unit_is_named(rt: HostRuntime) -> Result<(), Fail> {
    let named = stops_at(rt.alloc(), Table::Units, WIDE, 4, Op::Add, 1)?;
    expect(named, "the operation")
}
