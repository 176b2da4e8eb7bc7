//! Values of terms: of each kind of operator, of roots that share terms, where pairs are missing or too many, of constants of
//! one name, and at the edges of the numbers.

use crate::acts::{Act, run};
use nz_frac::Op;
use nz_term::{NumberSort, Operator, Sort};
use nz_term_samples::MOST;
use std::test::Fail;

// p, `(not p)`, `(or p (not p))`, `(and p (not p))`, `(ite p (not p) p)` and `(= p (not p))`, in this order.
const OPERATIONS: &[Act] = &[
    Act::Constant(Sort::Bool),
    Act::Operation(Operator::Not, &[0]),
    Act::Operation(Operator::Or, &[0, 1]),
    Act::Operation(Operator::And, &[0, 1]),
    Act::Operation(Operator::Ite(Sort::Bool), &[0, 1, 0]),
    Act::Operation(Operator::Equal, &[0, 1]),
    Act::Count(6),
];

// M, 1, `(+ M 1)`, `(* M M)`, `(= 1 1)`, and `(ite (= 1 1) 1 (+ M 1))`, in this order.
const WIDE_OPERATIONS: &[Act] = &[
    Act::Integer(MOST),
    Act::Integer(1),
    Act::Operation(Operator::Sum(NumberSort::Int), &[0, 1]),
    Act::Operation(Operator::Product(NumberSort::Int), &[0, 0]),
    Act::Operation(Operator::Equal, &[1, 1]),
    Act::Operation(Operator::Ite(Sort::Int), &[4, 1, 2]),
    Act::Count(6),
];

#[test]
fn test_operators_have_their_values(rt: HostRuntime) -> Result<(), Fail> {
    const VALUES: &[Act] = &[
        Act::Truths(
            &[0, 1, 2, 3, 4, 5],
            &[(0, true)],
            &[true, false, true, false, false, false],
        ),
        Act::Truths(
            &[0, 1, 2, 3, 4, 5],
            &[(0, false)],
            &[false, true, true, false, false, false],
        ),
    ];
    run(rt.alloc(), OPERATIONS, VALUES)
}

#[test]
fn test_roots_have_their_values_in_order(rt: HostRuntime) -> Result<(), Fail> {
    const VALUES: &[Act] = &[
        Act::Truths(&[2, 1, 2], &[(0, true)], &[true, false, true]),
        Act::Truths(&[], &[(0, true)], &[]),
    ];
    run(rt.alloc(), OPERATIONS, VALUES)
}

#[test]
fn test_the_first_pair_of_a_constant_counts(rt: HostRuntime) -> Result<(), Fail> {
    const VALUES: &[Act] = &[
        // Past the table, of an operation, and then the constant twice.
        Act::Truths(
            &[0, 1],
            &[(70, false), (1, true), (0, true), (0, false)],
            &[true, false],
        ),
        Act::Truths(&[0, 1], &[], &[false, true]),
    ];
    run(rt.alloc(), OPERATIONS, VALUES)
}

#[test]
fn test_constants_of_one_name_differ_by_sort(rt: HostRuntime) -> Result<(), Fail> {
    const TWO_SORTS: &[Act] = &[
        Act::Constant(Sort::Bool),
        Act::Constant(Sort::Int),
        Act::Count(2),
    ];
    const VALUES: &[Act] = &[
        Act::Truths(&[0], &[(0, true)], &[true]),
        // No value is given for the second, which has the default of its sort.
        Act::ComesTo(1, 0),
    ];
    run(rt.alloc(), TWO_SORTS, VALUES)
}

// The last of a chain has the number of its length.
#[test]
fn test_a_long_chain_is_evaluated(rt: HostRuntime) -> Result<(), Fail> {
    const VALUES: &[Act] = &[Act::Truths(&[100_000], &[(0, true)], &[true])];
    run(
        rt.alloc(),
        &[Act::Negations(100_000), Act::Count(100_001)],
        VALUES,
    )
}

#[test]
fn test_shared_sums_are_evaluated_once(rt: HostRuntime) -> Result<(), Fail> {
    const POWER: i128 = 1_267_650_600_228_229_401_496_703_205_376;
    run(
        rt.alloc(),
        &[Act::Doublings(100), Act::Count(101)],
        &[Act::ComesTo(100, POWER)],
    )
}

#[test]
fn test_a_wide_sum_names_its_operands(rt: HostRuntime) -> Result<(), Fail> {
    run(rt.alloc(), WIDE_OPERATIONS, &[Act::Wide(&[2], Op::Add, 1)])
}

#[test]
fn test_a_branch_that_is_not_taken_counts(rt: HostRuntime) -> Result<(), Fail> {
    run(rt.alloc(), WIDE_OPERATIONS, &[Act::Wide(&[5], Op::Add, 1)])
}

#[test]
fn test_the_first_wide_operation_is_named(rt: HostRuntime) -> Result<(), Fail> {
    const PRODUCT: &[Act] = &[Act::Wide(&[1, 3, 2], Op::Mul, MOST as i128)];
    run(rt.alloc(), WIDE_OPERATIONS, PRODUCT)
}
