//! What is covered with a term: its arguments, and its companion. Checks take no integers yet, so it is told what waits to be covered, and no remainder is covered.
use crate::acts::Act::{self, Parts};
use crate::acts::run;
use nz_term::{Operator, Sort};
use nz_term_samples::Term::{self, Constant, Number, Over};
use std::test::Fail;

// A remainder (3) and its quotient (2), and a test of an integer (5), whose rounded number comes behind it (6).
const BESIDE: &[Term] = &[
    Constant(b'x', Sort::Int),
    Number(3),
    Over(Operator::Div, &[0, 1]),
    Over(Operator::Mod, &[0, 1]),
    Constant(b'u', Sort::Real),
    Over(Operator::IsInt, &[4]),
    Over(Operator::ToInt, &[4]),
];

#[test]
fn test_a_companion_waits_behind_the_arguments(rt: HostRuntime) -> Result<(), Fail> {
    const ACTS: &[Act] = &[
        Parts(3, &[0, 1, 2]),
        Parts(5, &[4, 6]),
        Parts(2, &[0, 1]),
        Parts(6, &[4]),
        Parts(0, &[]),
    ];
    run(rt.alloc(), BESIDE, ACTS)
}
