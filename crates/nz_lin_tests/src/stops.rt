//! The first operation that leaves the numbers.
use crate::terms::form_among;
use nz_frac::{Op, Wide};
use nz_lin::Form;
use nz_term::{ArithmeticStop, NumberSort, Operator, Sort, TermId, Terms};
use nz_term_samples::MOST;
use nz_term_samples::Term::{self, Constant, Number, Over};
use std::alloc::Global;
use std::test::Fail;

/// Terms, and the operation at which the form of one of them stops: on the largest number and this one.
struct Row {
    terms: &'static [Term],
    of: TermId,
    op: Op,
    right: i128,
}

/// Whether making a form stopped at the operation of the row.
fn is_wide(made: &Result<Form, ArithmeticStop>, row: &Row) -> bool {
    match made {
        Err(ArithmeticStop::Wide(wide)) => is_at(*wide, row),
        _ => false,
    }
}

/// Whether it is the operation of the row.
fn is_at(wide: Wide, row: &Row) -> bool {
    wide.op == row.op && wide.a.num() == MOST as i128 && wide.b.num() == row.right
}

/// Whether the form of the row's term stops at the operation of the row.
fn stops(alloc: Global, terms: &mut Terms, row: &Row) -> bool {
    let made = form_among(alloc, terms, row.terms, row.of);
    is_wide(&made, row)
}

/// Fails where it doesn't.
fn stop(alloc: Global, row: &Row) -> Result<(), Fail> {
    let mut terms = Terms::new(alloc)?;
    if stops(alloc, &mut terms, row) {
        Ok(())
    } else {
        Err(Fail::new("another operation, or none"))
    }
}

const REAL_SUM: Operator = Operator::Sum(NumberSort::Real);

const REAL_PRODUCT: Operator = Operator::Product(NumberSort::Real);

/// `(+ (* M u) (* 2 u))` (5), and that less `(* M M)` (7), where both stop.
const SUMS: &[Term] = &[
    Constant(b'x', Sort::Real),
    Number(MOST),
    Over(REAL_PRODUCT, &[1, 0]),
    Number(2),
    Over(REAL_PRODUCT, &[3, 0]),
    Over(REAL_SUM, &[2, 4]),
    Over(REAL_PRODUCT, &[1, 1]),
    Over(Operator::Difference(NumberSort::Real), &[5, 6]),
];

const SUM: Row = Row {
    terms: SUMS,
    of: 5,
    op: Op::Add,
    right: 2,
};

#[test]
fn test_a_wide_sum_is_told_with_its_operands(rt: HostRuntime) -> Result<(), Fail> {
    stop(rt.alloc(), &SUM)
}

const BOTH: Row = Row {
    terms: SUMS,
    of: 7,
    op: Op::Add,
    right: 2,
};

#[test]
fn test_the_first_of_two_is_told(rt: HostRuntime) -> Result<(), Fail> {
    stop(rt.alloc(), &BOTH)
}

const SQUARED: &[Term] = &[
    Number(MOST),
    Over(Operator::Product(NumberSort::Int), &[0, 0]),
];

const SQUARE: Row = Row {
    terms: SQUARED,
    of: 1,
    op: Op::Mul,
    right: MOST as i128,
};

#[test]
fn test_a_product_of_constants_may_stop(rt: HostRuntime) -> Result<(), Fail> {
    stop(rt.alloc(), &SQUARE)
}
