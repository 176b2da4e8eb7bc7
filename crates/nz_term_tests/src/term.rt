//! Each public call on terms once on its happy path.

use crate::acts::{Act, run};
use nz_term::{NumberSort, Operator, Sort};
use std::test::Fail;

// The term `(or p (not q))`, made from its leaves.
const CLAUSE: &[Act] = &[
    Act::Constant(b"p", 0),
    Act::Constant(b"q", 1),
    Act::Operation(Operator::Not, &[1], 2),
    Act::Operation(Operator::Or, &[0, 2], 3),
];

// The term `(mod x0 2)`, of a parameter.
const REMAINDER: &[Act] = &[
    Act::Parameter(Sort::Int, 0),
    Act::Integer(2, 1),
    Act::Operation(Operator::Mod, &[0, 1], 2),
];

// The terms `(is_int x0)` and `(to_int x0)`, of a parameter.
const ROUNDED: &[Act] = &[
    Act::Parameter(Sort::Real, 0),
    Act::Operation(Operator::IsInt, &[0], 1),
    Act::Operation(Operator::ToInt, &[0], 2),
];

// The term `(+ x0 (* 2 x0))`, of a parameter.
const TRIPLED: &[Act] = &[
    Act::Parameter(Sort::Int, 0),
    Act::Integer(2, 1),
    Act::Operation(Operator::Product(NumberSort::Int), &[1, 0], 2),
    Act::Operation(Operator::Sum(NumberSort::Int), &[0, 2], 3),
];

// The term `(+ 1.50 2)`.
const THREE_AND_A_HALF: &[Act] = &[
    Act::Decimal(150, 2, 0),
    Act::Integer(2, 1),
    Act::Operation(Operator::ToReal, &[1], 2),
    Act::Operation(Operator::Sum(NumberSort::Real), &[0, 2], 3),
];

#[test]
fn test_equal_terms_have_one_number(rt: HostRuntime) -> Result<(), Fail> {
    const AGAIN: &[Act] = &[
        Act::Constant(b"p", 0),
        Act::Count(4),
        Act::Operation(Operator::Or, &[0, 2], 3),
    ];
    run(rt.alloc(), CLAUSE, AGAIN)
}

#[test]
fn test_the_order_of_arguments_matters(rt: HostRuntime) -> Result<(), Fail> {
    const SWAPPED: &[Act] = &[
        Act::Count(4),
        Act::Operation(Operator::Or, &[2, 0], 4),
        Act::Count(5),
    ];
    run(rt.alloc(), CLAUSE, SWAPPED)
}

#[test]
fn test_terms_of_different_operators_are_different(rt: HostRuntime) -> Result<(), Fail> {
    const OTHERS: &[Act] = &[
        Act::Count(4),
        Act::Operation(Operator::Xor, &[0, 1], 4),
        Act::Operation(Operator::Equal, &[0, 1], 5),
        Act::Operation(Operator::Ite(Sort::Bool), &[0, 1, 2], 6),
        Act::Differ(Operator::Xor, Operator::Equal),
    ];
    run(rt.alloc(), CLAUSE, OTHERS)
}

#[test]
fn test_nodes_are_lent(rt: HostRuntime) -> Result<(), Fail> {
    const NODES: &[Act] = &[
        Act::HasHead(3, Operator::Or),
        Act::HasKids(3, &[0, 2]),
        Act::IsConstant(0, b"p", true),
        Act::IsConstant(0, b"q", false),
    ];
    run(rt.alloc(), CLAUSE, NODES)
}

#[test]
fn test_cut_goes_back_to_the_mark(rt: HostRuntime) -> Result<(), Fail> {
    const CUT: &[Act] = &[
        Act::Count(4),
        Act::Undone(Operator::True, &[], 4),
        Act::Count(4),
        Act::HasHead(3, Operator::Or),
        Act::Operation(Operator::False, &[], 4),
    ];
    run(rt.alloc(), CLAUSE, CUT)
}

#[test]
fn test_arguments_come_before_from_the_left(rt: HostRuntime) -> Result<(), Fail> {
    const ORDER: &[Act] = &[
        Act::Count(4),
        Act::Operation(Operator::And, &[3, 1, 2, 1], 4),
        Act::Count(5),
        Act::Ordered(&[4], &[0, 1, 2, 3, 4]),
    ];
    run(rt.alloc(), CLAUSE, ORDER)
}

#[test]
fn test_each_root_comes_once(rt: HostRuntime) -> Result<(), Fail> {
    const ORDER: &[Act] = &[Act::Count(4), Act::Ordered(&[2, 3, 2], &[1, 2, 0, 3])];
    run(rt.alloc(), CLAUSE, ORDER)
}

#[test]
fn test_no_root_leads_nowhere(rt: HostRuntime) -> Result<(), Fail> {
    run(rt.alloc(), CLAUSE, &[Act::Ordered(&[], &[])])
}

#[test]
fn test_a_long_chain_needs_no_deep_stack(rt: HostRuntime) -> Result<(), Fail> {
    run(rt.alloc(), &[], &[Act::Chain(100_000)])
}

#[test]
fn test_a_quotient_comes_just_before_its_remainder(rt: HostRuntime) -> Result<(), Fail> {
    const LISTING: &[Act] = &[Act::Listed(&[2], &[0, 1, 3, 2]), Act::Count(4)];
    run(rt.alloc(), REMAINDER, LISTING)
}

#[test]
fn test_a_term_is_found_by_its_head_and_arguments(rt: HostRuntime) -> Result<(), Fail> {
    const FOUND: &[Act] = &[
        Act::Companions,
        Act::Count(4),
        Act::FindOperation(Operator::Div, &[0, 1], Some(3)),
        Act::FindOperation(Operator::Div, &[1, 0], None),
        Act::FindInteger(3, None),
    ];
    run(rt.alloc(), REMAINDER, FOUND)
}

#[test]
fn test_a_rounded_number_is_listed_once(rt: HostRuntime) -> Result<(), Fail> {
    const LISTING: &[Act] = &[Act::Listed(&[1, 2], &[0, 2, 1]), Act::Count(3)];
    run(rt.alloc(), ROUNDED, LISTING)
}

// The argument holds the parameter too, which stays in it.
#[test]
fn test_an_argument_is_put_for_a_parameter(rt: HostRuntime) -> Result<(), Fail> {
    const MADE: &[Act] = &[
        Act::Instance(3, &[3], 5),
        Act::Count(6),
        Act::HasKids(5, &[3, 4]),
    ];
    run(rt.alloc(), TRIPLED, MADE)
}

#[test]
fn test_a_body_without_its_parameters_stays(rt: HostRuntime) -> Result<(), Fail> {
    run(
        rt.alloc(),
        TRIPLED,
        &[Act::Instance(3, &[], 3), Act::Count(4)],
    )
}

#[test]
fn test_constants_have_their_values(rt: HostRuntime) -> Result<(), Fail> {
    const VALUES: &[Act] = &[Act::Value(3, Some((7, 2))), Act::LinearReal(3)];
    run(rt.alloc(), THREE_AND_A_HALF, VALUES)
}

#[test]
fn test_a_parameter_is_no_constant(rt: HostRuntime) -> Result<(), Fail> {
    run(
        rt.alloc(),
        TRIPLED,
        &[Act::Value(3, None), Act::LinearReal(3)],
    )
}

// The terms `(* x0 x0)` and `(/ x0 0)`.
#[test]
fn test_products_of_variables_and_quotients_by_zero_are_not_linear(
    rt: HostRuntime,
) -> Result<(), Fail> {
    const MADE: &[Act] = &[
        Act::Parameter(Sort::Real, 0),
        Act::Decimal(0, 1, 1),
        Act::Operation(Operator::Product(NumberSort::Real), &[0, 0], 2),
        Act::NotLinear(2),
        Act::Operation(Operator::Quotient, &[0, 1], 3),
        Act::NotLinear(3),
    ];
    run(rt.alloc(), &[], MADE)
}
