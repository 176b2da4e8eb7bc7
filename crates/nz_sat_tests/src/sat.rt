//! What the search answers.

use crate::acts::{Act, Case, Number, assert_one, follow, holds, over, run};
use crate::problem::Problem;
use nz_base::Memory;
use nz_search::Stop;
use nz_term::Operator;
use std::alloc::Global;
use std::test::Fail;

// An atom, and another one that follows from it: no unit is used.
const UNITS: &Case = &Case {
    atoms: 2,
    limit: 10,
    acts: &[
        Act::Clause(&[-1, 2]),
        Act::Assert(1),
        Act::Holds(&[]),
        Act::Truth(1, Some(true)),
        Act::Truth(-2, Some(false)),
        Act::Truth(100, None),
        Act::Left(10),
    ],
};

#[test]
fn test_units_follow(rt: HostRuntime) -> Result<(), Fail> {
    run(rt.alloc(), UNITS)
}

// An atom that follows from either sign of another. The first decision is that it is false, and both clauses are falsified then.
const EITHER_WAY: &Case = &Case {
    atoms: 2,
    limit: 10,
    acts: &[
        Act::Clause(&[1, 2]),
        Act::Clause(&[1, -2]),
        Act::Holds(&[]),
        Act::Truth(1, Some(true)),
    ],
};

#[test]
fn test_a_conflict_teaches(rt: HostRuntime) -> Result<(), Fail> {
    run(rt.alloc(), EITHER_WAY)
}

// An atom and its negation.
const OPPOSITES: &Case = &Case {
    atoms: 1,
    limit: 10,
    acts: &[Act::Assert(1), Act::Clause(&[-1]), Act::Refuted(&[], &[])],
};

#[test]
fn test_opposites_are_refuted(rt: HostRuntime) -> Result<(), Fail> {
    run(rt.alloc(), OPPOSITES)
}

// Three atoms, each of which follows from the one before it.
const IN_TURN: &Case = &Case {
    atoms: 3,
    limit: 100,
    acts: &[
        Act::Clause(&[-1, 2]),
        Act::Clause(&[-2, 3]),
        Act::Refuted(&[1, -3], &[-1, 3]),
        Act::Holds(&[1, 3]),
        Act::Truth(2, Some(true)),
    ],
};

#[test]
fn test_assumed_literals_are_refuted(rt: HostRuntime) -> Result<(), Fail> {
    run(rt.alloc(), IN_TURN)
}

// A clause of six literals, one of them twice: whichever others are assumed false, the last one follows, without a unit.
const SIX: &Case = &Case {
    atoms: 6,
    limit: 0,
    acts: &[
        Act::Clause(&[1, 2, 3, 1, 4, 5, 6]),
        Act::Holds(&[-1, -2, -3, -4, -5]),
        Act::Truth(6, Some(true)),
        Act::Holds(&[-6, -5, -4, -3, -2]),
        Act::Truth(1, Some(true)),
        Act::Holds(&[-3, -6, -1, -5, -4]),
        Act::Truth(2, Some(true)),
        Act::Refuted(&[-1, -2, -3, -4, -5, -6], &[1, 2, 3, 4, 5, 6]),
    ],
};

#[test]
fn test_the_last_literal_of_a_clause_follows(rt: HostRuntime) -> Result<(), Fail> {
    run(rt.alloc(), SIX)
}

// Clauses that have but one literal, told twice or more, and what follows from them.
const ALONE: &Case = &Case {
    atoms: 3,
    limit: 0,
    acts: &[
        Act::Clause(&[1, 1]),
        Act::Clause(&[-2, -2, -2]),
        Act::Clause(&[-1, 2, 3]),
        Act::Holds(&[]),
        Act::Truth(3, Some(true)),
        Act::Clause(&[-3, -1]),
        Act::Refuted(&[], &[]),
    ],
};

#[test]
fn test_clauses_of_one_literal(rt: HostRuntime) -> Result<(), Fail> {
    run(rt.alloc(), ALONE)
}

// That just one of the first two atoms is true where the third is.
const ODD: &Case = &Case {
    atoms: 3,
    limit: 1000,
    acts: &[
        Act::Make(Operator::Xor, &[0, 1]),
        Act::Make(Operator::Equal, &[3, 2]),
        Act::Assert(5),
        Act::Holds(&[3, 2]),
        Act::Truth(1, Some(false)),
        Act::Refuted(&[3, 2, 1], &[-1, -2, -3]),
    ],
};

#[test]
fn test_equations_and_exclusions(rt: HostRuntime) -> Result<(), Fail> {
    run(rt.alloc(), ODD)
}

// That each of three birds sits in one of two holes: atoms 1 and 2 say where the first one sits. Then that no two sit in the same.
const THREE_IN_TWO: &Case = &Case {
    atoms: 6,
    limit: 1000,
    acts: &[
        Act::Clause(&[1, 2]),
        Act::Clause(&[3, 4]),
        Act::Clause(&[5, 6]),
        Act::Clause(&[-1, -3]),
        Act::Clause(&[-1, -5]),
        Act::Clause(&[-3, -5]),
        Act::Clause(&[-2, -4]),
        Act::Clause(&[-2, -6]),
        Act::Clause(&[-4, -6]),
        Act::Refuted(&[], &[]),
    ],
};

#[test]
fn test_three_birds_have_no_two_holes(rt: HostRuntime) -> Result<(), Fail> {
    run(rt.alloc(), THREE_IN_TWO)
}

// The same of four birds and three holes.
const FOUR_IN_THREE: &Case = &Case {
    atoms: 12,
    limit: 10000,
    acts: &[
        Act::Clause(&[1, 2, 3]),
        Act::Clause(&[4, 5, 6]),
        Act::Clause(&[7, 8, 9]),
        Act::Clause(&[10, 11, 12]),
        Act::Clause(&[-1, -4]),
        Act::Clause(&[-1, -7]),
        Act::Clause(&[-1, -10]),
        Act::Clause(&[-4, -7]),
        Act::Clause(&[-4, -10]),
        Act::Clause(&[-7, -10]),
        Act::Clause(&[-2, -5]),
        Act::Clause(&[-2, -8]),
        Act::Clause(&[-2, -11]),
        Act::Clause(&[-5, -8]),
        Act::Clause(&[-5, -11]),
        Act::Clause(&[-8, -11]),
        Act::Clause(&[-3, -6]),
        Act::Clause(&[-3, -9]),
        Act::Clause(&[-3, -12]),
        Act::Clause(&[-6, -9]),
        Act::Clause(&[-6, -12]),
        Act::Clause(&[-9, -12]),
        Act::Refuted(&[], &[]),
    ],
};

#[test]
fn test_four_birds_have_no_three_holes(rt: HostRuntime) -> Result<(), Fail> {
    run(rt.alloc(), FOUR_IN_THREE)
}

// The same of three birds and three holes.
const THREE_IN_THREE: &Case = &Case {
    atoms: 9,
    limit: 1000,
    acts: &[
        Act::Clause(&[1, 2, 3]),
        Act::Clause(&[4, 5, 6]),
        Act::Clause(&[7, 8, 9]),
        Act::Clause(&[-1, -4]),
        Act::Clause(&[-1, -7]),
        Act::Clause(&[-4, -7]),
        Act::Clause(&[-2, -5]),
        Act::Clause(&[-2, -8]),
        Act::Clause(&[-5, -8]),
        Act::Clause(&[-3, -6]),
        Act::Clause(&[-3, -9]),
        Act::Clause(&[-6, -9]),
        Act::Holds(&[]),
    ],
};

#[test]
fn test_three_birds_have_three_holes(rt: HostRuntime) -> Result<(), Fail> {
    run(rt.alloc(), THREE_IN_THREE)
}

// The clauses over all of three atoms, each of which is a bit of a set of clauses.
const ROWS: &[&[Number]] = &[
    &[-1, -2, -3],
    &[1, -2, -3],
    &[-1, 2, -3],
    &[1, 2, -3],
    &[-1, -2, 3],
    &[1, -2, 3],
    &[-1, 2, 3],
    &[1, 2, 3],
];

/// Asserts the clauses of a set.
fn assert_rows(alloc: Global, problem: &mut Problem, set: u8) -> Result<(), Memory> {
    let mut rest = set;
    for row in ROWS {
        if rest % 2 == 1 {
            assert_one(alloc, problem, row)?;
        }
        rest /= 2;
    }
    Ok(())
}

/// Whether the clauses of a set can all be true.
fn rows_hold(alloc: Global, set: u8) -> Result<bool, Stop> {
    let mut problem = over(alloc, 3, 1000)?;
    assert_rows(alloc, &mut problem, set)?;
    holds(alloc, &mut problem, &[])
}

#[test]
fn test_each_set_of_rows_is_answered(rt: HostRuntime) -> Result<(), Fail> {
    for set in 0..=255 {
        // Each assignment makes exactly one row false.
        assert_eq!(rt; rows_hold(rt.alloc(), set)?, set != 255);
    }
    Ok(())
}

// So many negations: of an atom, and each next one of the one before it.
fn negations(problem: &mut Problem, count: usize) -> Result<(), Memory> {
    for term in 0..count {
        problem.gates(Operator::Not, &[term])?;
    }
    Ok(())
}

const CHAIN: &[Act] = &[
    Act::Refuted(&[1, -1001], &[-1, 1001]),
    Act::Holds(&[1]),
    Act::Truth(1001, Some(true)),
];

#[test]
fn test_a_long_chain(rt: HostRuntime) -> Result<(), Fail> {
    let mut problem = over(rt.alloc(), 1, 10)?;
    negations(&mut problem, 1000)?;
    follow(rt.alloc(), &mut problem, CHAIN)
}
