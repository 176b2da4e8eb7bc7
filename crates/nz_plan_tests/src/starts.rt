//! Starts of small systems, worked out by hand.
use nz_plan::{Cell, Exchange, Form, Stand, Start, System};
use nz_trail::Side;
use std::alloc::Global;
use std::test::Fail;

/// A bound of a unit or of a sum.
#[derive(Clone, Copy, Debug)]
enum Limit {
    AtLeast(Form, f64),
    AtMost(Form, f64),
}

/// A system of three units, and how it starts.
#[derive(Clone, Copy, Debug)]
struct Case<'a> {
    name: &'a str,
    // Of each sum the coefficients of the units.
    sums: &'a [[f64; 3]],
    limits: &'a [Limit],
    // Each sum with the unit that is basic in its stead.
    exchanges: &'a [(usize, usize)],
    // Each form that stands at a bound, with the side of that.
    stands: &'a [(Form, Side)],
}

const CASES: &[Case<'static>] = &[
    Case {
        name: "what no bound breaks stays",
        sums: &[[1.0, 1.0, 0.0]],
        limits: &[Limit::AtMost(Form::Sum(0), 5.0)],
        exchanges: &[],
        stands: &[],
    },
    Case {
        name: "a sum that is broken stands at its bound",
        sums: &[[1.0, 2.0, 0.0]],
        limits: &[Limit::AtLeast(Form::Sum(0), 3.0)],
        exchanges: &[(0, 0)],
        stands: &[(Form::Sum(0), Side::Lower)],
    },
    Case {
        name: "an equation stands beside a sum that is broken more",
        sums: &[[1.0, 1.0, 0.0], [1.0, -1.0, 0.0]],
        limits: &[
            Limit::AtLeast(Form::Sum(0), 9.0),
            Limit::AtLeast(Form::Sum(1), 1.0),
            Limit::AtMost(Form::Sum(1), 1.0),
        ],
        exchanges: &[(0, 0), (1, 1)],
        stands: &[(Form::Sum(0), Side::Lower), (Form::Sum(1), Side::Lower)],
    },
    Case {
        name: "a unit at its bound can't help",
        sums: &[[1.0, 1.0, 0.0]],
        limits: &[
            Limit::AtMost(Form::Unit(0), 0.0),
            Limit::AtLeast(Form::Sum(0), 2.0),
        ],
        exchanges: &[(0, 1)],
        stands: &[(Form::Unit(0), Side::Upper), (Form::Sum(0), Side::Lower)],
    },
    Case {
        name: "a unit begins at the bound that 0 breaks",
        sums: &[[1.0, 1.0, 0.0]],
        limits: &[
            Limit::AtLeast(Form::Unit(0), 3.0),
            Limit::AtMost(Form::Sum(0), 2.0),
        ],
        exchanges: &[(0, 1)],
        stands: &[(Form::Unit(0), Side::Lower), (Form::Sum(0), Side::Upper)],
    },
    Case {
        name: "a unit enters that breaks no other sum",
        sums: &[[1.0, 1.0, 0.0], [1.0, 0.0, 1.0]],
        limits: &[
            Limit::AtLeast(Form::Sum(0), 2.0),
            Limit::AtMost(Form::Sum(1), 0.0),
        ],
        exchanges: &[(0, 1)],
        stands: &[(Form::Sum(0), Side::Lower)],
    },
    Case {
        name: "nothing is exchanged where nothing can help",
        sums: &[[1.0, 1.0, 0.0]],
        limits: &[
            Limit::AtMost(Form::Unit(0), 0.0),
            Limit::AtMost(Form::Unit(1), 0.0),
            Limit::AtLeast(Form::Sum(0), 2.0),
        ],
        exchanges: &[],
        stands: &[(Form::Unit(0), Side::Upper), (Form::Unit(1), Side::Upper)],
    },
];

/// The coefficients that aren't 0.
fn cells(alloc: Global, coefficients: &[f64; 3]) -> Result<Vec<Cell>, Fail> {
    let mut cells = Vec::new(alloc);
    for (column, coefficient) in coefficients.iter().enumerate() {
        if *coefficient != 0.0 {
            cells.push(Cell {
                column,
                coefficient: *coefficient,
            })?;
        }
    }
    Ok(cells)
}

fn system_of(alloc: Global, case: &Case<'_>) -> Result<System, Fail> {
    let mut system = System::new(alloc);
    for _ in 0..3 {
        system.add_unit()?;
    }
    for coefficients in case.sums {
        system.add_sum(cells(alloc, coefficients)?)?;
    }
    for limit in case.limits {
        match limit {
            Limit::AtLeast(form, bound) => system.limit(*form, Side::Lower, *bound),
            Limit::AtMost(form, bound) => system.limit(*form, Side::Upper, *bound),
        };
    }
    Ok(system)
}

fn are_exchanges(exchanges: &[Exchange], expected: &[(usize, usize)]) -> bool {
    let mut same = exchanges.len() == expected.len();
    for (one, other) in exchanges.iter().zip(expected) {
        same = same && (one.sum, one.unit) == *other;
    }
    same
}

fn are_stands(stands: &[Stand], expected: &[(Form, Side)]) -> bool {
    let mut same = stands.len() == expected.len();
    for (one, other) in stands.iter().zip(expected) {
        same = same && (one.form, one.side) == *other;
    }
    same
}

#[test]
fn test_small_systems_start(rt: HostRuntime) -> Result<(), Fail> {
    for case in CASES {
        let start = Start::new(&system_of(rt.alloc(), case)?)?;
        if !are_exchanges(start.exchanges(), case.exchanges)
            || !are_stands(start.stands(), case.stands)
        {
            return Err(Fail::from(case.name));
        }
    }
    Ok(())
}

/// Each unit is at least 1 above the one before it; the sums are differences of neighbours.
#[test]
fn test_each_sum_of_a_chain_stands_at_its_bound(rt: HostRuntime) -> Result<(), Fail> {
    let mut system = System::new(rt.alloc());
    let count = 30;
    for _ in 0..count {
        system.add_unit()?;
    }
    for unit in 1..count {
        let below = Cell {
            column: unit - 1,
            coefficient: -1.0,
        };
        let above = Cell {
            column: unit,
            coefficient: 1.0,
        };
        let sum = system.add_sum(vec![in rt.alloc(); below, above]?)?;
        system.limit(Form::Sum(sum), Side::Lower, 1.0);
    }
    let start = Start::new(&system)?;
    if start.exchanges().len() == count - 1 && start.stands().len() == count - 1 {
        Ok(())
    } else {
        Err(Fail::from("other exchanges than one for each sum"))
    }
}
