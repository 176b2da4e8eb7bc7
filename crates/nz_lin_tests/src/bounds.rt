//! Bounds: tight ones by a table, and each call that takes memory once.
use crate::terms::{Wrong, form};
use Relation::{AtMost, Below};
use nz_base::Memory;
use nz_frac::Frac;
use nz_lin::{Bound, BoundMultiple, Form, sum_of_multiples};
use nz_term::{ArithmeticStop, NumberSort, Operator, Sort, TermId, Terms};
use nz_term_samples::{constant, integer, operation};
use std::alloc::Global;
use std::test::Fail;

/// How a sum is bounded.
#[derive(Clone, Copy)]
enum Relation {
    AtMost,
    Below,
}

/// That `first * x + second * y` is at most a limit, or below it: the coefficients, which of both, and the limit.
#[derive(Clone, Copy)]
struct Row(i64, i64, Relation, i64);

impl Row {
    fn is_strict(&self) -> bool {
        matches!(self.2, Below)
    }
}

/// An integer times a term.
fn times(terms: &mut Terms, n: i64, id: TermId) -> Result<TermId, Memory> {
    let n = integer(terms, n)?;
    operation(terms, Operator::Product(NumberSort::Int), &[n, id])
}

/// What is at most 0, or below it, where the row's bound holds.
fn difference(terms: &mut Terms, row: &Row, x: TermId, y: TermId) -> Result<TermId, Memory> {
    let first = times(terms, row.0, x)?;
    let second = times(terms, row.1, y)?;
    let sum = operation(terms, Operator::Sum(NumberSort::Int), &[first, second])?;
    let limit = integer(terms, row.3)?;
    operation(terms, Operator::Difference(NumberSort::Int), &[sum, limit])
}

/// The row's difference over two constants of a sort.
fn row_term(alloc: Global, terms: &mut Terms, sort: Sort, row: &Row) -> Result<TermId, Memory> {
    let x = constant(alloc, terms, b"x", sort)?;
    let y = constant(alloc, terms, b"y", sort)?;
    difference(terms, row, x, y)
}

/// The row's bound over two constants of a sort.
fn bound_in(
    alloc: Global,
    terms: &mut Terms,
    sort: Sort,
    row: &Row,
) -> Result<Bound, ArithmeticStop> {
    let difference = row_term(alloc, terms, sort, row)?;
    let form = form(alloc, terms, difference)?;
    Ok(bound_on(form, row.is_strict()))
}

/// The same over terms of its own.
fn bound_of(alloc: Global, sort: Sort, row: &Row) -> Result<Bound, ArithmeticStop> {
    let mut terms = Terms::new(alloc)?;
    bound_in(alloc, &mut terms, sort, row)
}

/// The bound that the form is at most 0, or below it.
fn bound_on(form: Form, strict: bool) -> Bound {
    if strict {
        Bound::below_zero(form)
    } else {
        Bound::at_most_zero(form)
    }
}

/// Whether the bound is that of the row.
fn is_row(bound: &Bound, row: &Row) -> bool {
    match bound.parts() {
        [x, y] => {
            x.coefficient == Frac::whole(row.0)
                && y.coefficient == Frac::whole(row.1)
                && bound.limit() == Frac::whole(row.3)
                && bound.is_strict() == row.is_strict()
        }
        _ => false,
    }
}

/// Fails at this place of a table, where it isn't so.
fn expect(holds: bool, place: usize) -> Result<(), Fail> {
    if holds {
        Ok(())
    } else {
        Err(Fail::from(Wrong { place }))
    }
}

/// Whether a bound's tight one is that of the row.
fn has_tight(alloc: Global, bound: &Bound, tight: &Row) -> Result<bool, ArithmeticStop> {
    let made = bound.tight(alloc)?;
    Ok(is_row(&made, tight))
}

/// Whether the tight bound of one row is that of the other.
fn is_tight(alloc: Global, sort: Sort, row: &Row, tight: &Row) -> Result<bool, ArithmeticStop> {
    let bound = bound_of(alloc, sort, row)?;
    has_tight(alloc, &bound, tight)
}

/// Whether the tight bounds of these rows, over a sort, are those of the others.
fn are_tight(alloc: Global, sort: Sort, rows: &[(Row, Row)]) -> Result<(), Fail> {
    for (place, (row, tight)) in rows.iter().enumerate() {
        expect(is_tight(alloc, sort, row, tight)?, place)?;
    }
    Ok(())
}

const OF_INTEGERS: &[(Row, Row)] = &[
    // A common divisor goes; the limit is rounded down, also below 0.
    (Row(2, -4, AtMost, 7), Row(1, -2, AtMost, 3)),
    (Row(2, -4, AtMost, -7), Row(1, -2, AtMost, -4)),
    (Row(-6, -4, AtMost, -7), Row(-3, -2, AtMost, -4)),
    (Row(3, 6, AtMost, -9), Row(1, 2, AtMost, -3)),
    // What is below an integer is at most the one before.
    (Row(2, 4, Below, 8), Row(1, 2, AtMost, 3)),
    (Row(2, 4, Below, -8), Row(1, 2, AtMost, -5)),
    (Row(3, 6, Below, 7), Row(1, 2, AtMost, 2)),
    (Row(3, 6, Below, -7), Row(1, 2, AtMost, -3)),
    (Row(2, 3, Below, 7), Row(2, 3, AtMost, 6)),
];

#[test]
fn test_a_bound_over_integers_is_rounded(rt: HostRuntime) -> Result<(), Fail> {
    are_tight(rt.alloc(), Sort::Int, OF_INTEGERS)
}

const OF_REALS: &[(Row, Row)] = &[
    (Row(2, -4, AtMost, -7), Row(2, -4, AtMost, -7)),
    (Row(2, -4, Below, 8), Row(2, -4, Below, 8)),
];

#[test]
fn test_a_bound_over_reals_stays(rt: HostRuntime) -> Result<(), Fail> {
    are_tight(rt.alloc(), Sort::Real, OF_REALS)
}

/// Whether a bound's negation is that of the row.
fn has_negation(alloc: Global, bound: &Bound, negation: &Row) -> Result<bool, ArithmeticStop> {
    let made = bound.not(alloc)?;
    Ok(is_row(&made, negation))
}

/// Whether the negation of one row's bound is that of the other.
fn is_not(alloc: Global, row: &Row, negation: &Row) -> Result<bool, ArithmeticStop> {
    let bound = bound_of(alloc, Sort::Int, row)?;
    has_negation(alloc, &bound, negation)
}

const NEGATIONS: &[(Row, Row)] = &[
    (Row(2, -4, AtMost, 7), Row(-2, 4, Below, -7)),
    (Row(2, -4, Below, 7), Row(-2, 4, AtMost, -7)),
];

#[test]
fn test_a_negation_is_strict_where_the_bound_is_not(rt: HostRuntime) -> Result<(), Fail> {
    for (place, (row, negation)) in NEGATIONS.iter().enumerate() {
        expect(is_not(rt.alloc(), row, negation)?, place)?;
    }
    Ok(())
}

/// Two bounds, and that of twice the first and then the second.
struct Sum {
    left: Row,
    right: Row,
    sum: Row,
}

/// Whether twice a bound and then another is that of the row, where they are joined one after the other.
fn joins(alloc: Global, left: &Bound, right: &Bound, sum: &Row) -> Result<bool, ArithmeticStop> {
    let mut twice = left.scaled(alloc, Frac::whole(2))?;
    twice.join(right)?;
    Ok(is_row(&twice, sum))
}

/// Whether the sum of multiples is the bound of the row.
fn sums(alloc: Global, multiples: &[BoundMultiple], sum: &Row) -> Result<bool, ArithmeticStop> {
    let made = sum_of_multiples(alloc, multiples)?;
    Ok(is_row(&made, sum))
}

/// So many times a bound.
fn multiple(bound: Bound, number: i64) -> BoundMultiple {
    BoundMultiple {
        bound,
        multiplier: Frac::whole(number),
    }
}

/// Whether twice a bound and then another is that of the row, also as a sum of multiples.
fn are_summed(alloc: Global, left: Bound, right: Bound, sum: &Row) -> Result<bool, ArithmeticStop> {
    let are_joined = joins(alloc, &left, &right, sum)?;
    let multiples = [multiple(left, 2), multiple(right, 1)];
    Ok(are_joined && sums(alloc, &multiples, sum)?)
}

/// Whether it is so of a row's bounds.
fn is_sum(alloc: Global, row: &Sum) -> Result<bool, ArithmeticStop> {
    let left = bound_of(alloc, Sort::Int, &row.left)?;
    let right = bound_of(alloc, Sort::Int, &row.right)?;
    are_summed(alloc, left, right, &row.sum)
}

const SUMS: &[Sum] = &[
    Sum {
        left: Row(2, -4, AtMost, 7),
        right: Row(1, 1, AtMost, -3),
        sum: Row(5, -7, AtMost, 11),
    },
    Sum {
        left: Row(2, -4, AtMost, 7),
        right: Row(1, 1, Below, -3),
        sum: Row(5, -7, Below, 11),
    },
];

#[test]
fn test_a_sum_of_multiples_is_strict_where_one_of_them_is(rt: HostRuntime) -> Result<(), Fail> {
    for (place, row) in SUMS.iter().enumerate() {
        expect(is_sum(rt.alloc(), row)?, place)?;
    }
    Ok(())
}

/// Whether twice a bound and then another is a false bound on 0.
fn clash(alloc: Global, left: &Bound, mut right: Bound) -> Result<bool, ArithmeticStop> {
    right.join_multiple(alloc, Frac::whole(2), left)?;
    Ok(right.is_contradiction())
}

/// Whether it is so of two rows' bounds.
fn is_clash(alloc: Global, left: &Row, right: &Row) -> Result<bool, ArithmeticStop> {
    let left = bound_of(alloc, Sort::Real, left)?;
    let right = bound_of(alloc, Sort::Real, right)?;
    clash(alloc, &left, right)
}

/// Two bounds, and whether they clash.
const CLASHES: &[(Row, Row, bool)] = &[
    (Row(1, -2, AtMost, 3), Row(-2, 4, AtMost, -7), true),
    (Row(1, -2, AtMost, 3), Row(-2, 4, Below, -6), true),
    (Row(1, -2, AtMost, 3), Row(-2, 4, AtMost, -6), false),
    (Row(1, -2, AtMost, 3), Row(-2, 5, AtMost, -7), false),
];

#[test]
fn test_a_false_bound_on_nothing_is_a_contradiction(rt: HostRuntime) -> Result<(), Fail> {
    for (place, (left, right, wanted)) in CLASHES.iter().enumerate() {
        expect(is_clash(rt.alloc(), left, right)? == *wanted, place)?;
    }
    Ok(())
}
