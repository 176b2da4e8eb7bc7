//! Small formulas, each with what is known of it.

use crate::formula::Part::{
    self, And, AtMost, Atom, Choose, Equal, False, Ite, Less, Not, Or, Real, Sum, Tenths, True, Xor,
};
use crate::trial::{Trial, Tried};
use std::alloc::Global;
use std::test::Fail;

/// A formula over three constants, formulas that are assumed, and whether all can be true.
struct Row {
    formula: &'static [Part],
    assumed: &'static [&'static [Part]],
    wanted: Tried,
}

const P: &[Part] = &[Atom(0)];

const Q: &[Part] = &[Atom(1)];

const R: &[Part] = &[Atom(2)];

const NOT_P: &[Part] = &[Atom(0), Not];

const NOT_Q: &[Part] = &[Atom(1), Not];

const NOT_R: &[Part] = &[Atom(2), Not];

const ROWS: &[Row] = &[
    Row {
        formula: &[True],
        assumed: &[],
        wanted: Tried::Sat,
    },
    Row {
        formula: &[False],
        assumed: &[],
        wanted: Tried::Unsat,
    },
    Row {
        formula: &[Atom(0), Atom(0), Not, And(2)],
        assumed: &[],
        wanted: Tried::Unsat,
    },
    Row {
        formula: &[Atom(0), Atom(0), Not, Or(2), Not],
        assumed: &[],
        wanted: Tried::Unsat,
    },
    Row {
        formula: &[Atom(0), Atom(0), Xor],
        assumed: &[],
        wanted: Tried::Unsat,
    },
    Row {
        formula: &[Atom(0), Atom(0), Equal, Not],
        assumed: &[],
        wanted: Tried::Unsat,
    },
    Row {
        formula: &[Atom(0), Atom(1), Or(2)],
        assumed: &[NOT_P],
        wanted: Tried::Sat,
    },
    Row {
        formula: &[Atom(0), Atom(1), Or(2)],
        assumed: &[NOT_P, NOT_Q],
        wanted: Tried::Unsat,
    },
    Row {
        formula: &[Atom(0), Atom(1), Xor, Atom(2), Equal],
        assumed: &[P, Q, NOT_R],
        wanted: Tried::Sat,
    },
    Row {
        formula: &[Atom(0), Atom(1), Xor, Atom(2), Equal],
        assumed: &[R, Q, P],
        wanted: Tried::Unsat,
    },
    Row {
        formula: &[Atom(0), Atom(1), Atom(2), Ite],
        assumed: &[NOT_P, NOT_Q, R],
        wanted: Tried::Sat,
    },
    Row {
        formula: &[Atom(0), Atom(1), Atom(2), Ite],
        assumed: &[NOT_P, Q, NOT_R],
        wanted: Tried::Unsat,
    },
    // Assumed terms that are no constants, and that stand in what is asserted or not.
    Row {
        formula: &[Atom(0), Atom(1), And(2)],
        assumed: &[&[Atom(0), Atom(1), Or(2), Not]],
        wanted: Tried::Unsat,
    },
    Row {
        formula: &[Atom(0), Atom(1), And(2), Atom(2), Or(2)],
        assumed: &[&[Atom(0), Atom(1), And(2), Not]],
        wanted: Tried::Sat,
    },
];

// Over reals: orders, sums, and choices of numbers.
const NUMBERS: &[Row] = &[
    Row {
        formula: &[Real(0), Real(1), Less, Real(1), Real(0), Less, And(2)],
        assumed: &[],
        wanted: Tried::Unsat,
    },
    Row {
        formula: &[Real(0), Real(1), AtMost, Real(1), Real(0), AtMost, And(2)],
        assumed: &[],
        wanted: Tried::Sat,
    },
    Row {
        formula: &[Real(0), Real(1), AtMost, Real(1), Real(0), AtMost, And(2)],
        assumed: &[&[Real(0), Real(1), Equal, Not]],
        wanted: Tried::Unsat,
    },
    // Between two neighbours is a number, and none below 0.1 and above 0.2.
    Row {
        formula: &[Tenths(1), Real(0), Less, Real(0), Tenths(2), Less, And(2)],
        assumed: &[],
        wanted: Tried::Sat,
    },
    Row {
        formula: &[Real(0), Tenths(1), Less, Tenths(2), Real(0), Less, And(2)],
        assumed: &[],
        wanted: Tried::Unsat,
    },
    Row {
        formula: &[
            Real(0),
            Real(1),
            Sum(2),
            Tenths(10),
            AtMost,
            Tenths(5),
            Real(0),
            Less,
            And(2),
        ],
        assumed: &[&[Tenths(5), Real(1), AtMost]],
        wanted: Tried::Unsat,
    },
    Row {
        formula: &[
            Real(0),
            Real(1),
            Sum(2),
            Tenths(10),
            AtMost,
            Tenths(5),
            Real(0),
            AtMost,
            And(2),
        ],
        assumed: &[&[Tenths(5), Real(1), AtMost]],
        wanted: Tried::Sat,
    },
    // One of two is chosen, and either is too large.
    Row {
        formula: &[Atom(0), Real(0), Real(1), Choose, Tenths(10), Less],
        assumed: &[
            &[Tenths(10), Real(0), AtMost],
            &[Tenths(10), Real(1), AtMost],
        ],
        wanted: Tried::Unsat,
    },
    Row {
        formula: &[Atom(0), Real(0), Real(1), Choose, Tenths(10), Less],
        assumed: &[&[Tenths(10), Real(0), AtMost], NOT_P],
        wanted: Tried::Sat,
    },
    Row {
        formula: &[Atom(0), Real(0), Real(1), Choose, Tenths(10), Less],
        assumed: &[&[Tenths(10), Real(0), AtMost], P],
        wanted: Tried::Unsat,
    },
];

/// Asserts the formula of a row, and asks.
fn judge(trial: &mut Trial, number: usize, row: &Row) -> Result<(), Fail> {
    trial.add(row.formula)?;
    trial.expect(number, row.assumed, 100, row.wanted)
}

/// Asks an engine of its own about a row. It is lent, since each way out of where it is owned lets it go.
fn judge_alone(alloc: Global, number: usize, row: &Row) -> Result<(), Fail> {
    let mut trial = Trial::new(alloc, 3)?;
    judge(&mut trial, number, row)
}

/// Asks about each of these.
fn run(alloc: Global, rows: &'static [Row]) -> Result<(), Fail> {
    for (number, row) in rows.iter().enumerate() {
        judge_alone(alloc, number, row)?;
    }
    Ok(())
}

#[test]
fn test_each_row_is_answered(rt: HostRuntime) -> Result<(), Fail> {
    run(rt.alloc(), ROWS)
}

#[test]
fn test_each_row_over_reals_is_answered(rt: HostRuntime) -> Result<(), Fail> {
    run(rt.alloc(), NUMBERS)
}
