//! The rows of comparisons and of a choice of numbers, each once, and their bounds.
use crate::acts::Act::{self, Add, Bounds, Covered, Listed};
use crate::acts::run;
use crate::bounds::Row;
use nz_term::{NumberSort, Operator, Sort};
use nz_term_samples::Term::{self, Constant, Over, Tenths};
use std::test::Fail;

// Comparisons with a number: of a sum of the reals `x` and `y`, which two of them share (4 and 5), and of the one of the two that `p` chooses (8).
const COMPARISONS: &[Term] = &[
    Constant(b'x', Sort::Real),
    Constant(b'y', Sort::Real),
    Over(Operator::Sum(NumberSort::Real), &[0, 1]),
    Tenths(10),
    Over(Operator::AtMost, &[2, 3]),
    Over(Operator::Equal, &[2, 3]),
    Constant(b'p', Sort::Bool),
    Over(Operator::Ite(Sort::Real), &[6, 0, 1]),
    Over(Operator::AtMost, &[7, 3]),
];

#[test]
fn test_shared_sums_have_their_rows_and_bounds_once(rt: HostRuntime) -> Result<(), Fail> {
    const ACTS: &[Act] = &[
        // Two of a comparison.
        Add(4, 1, 2),
        Covered(5),
        Listed(1),
        // Three of an equation.
        Add(5, 1, 3),
        Covered(6),
        Listed(2),
        // Two of the last comparison, and four of the choice.
        Add(8, 1, 6),
        Covered(9),
        Listed(7),
        Add(8, 1, 0),
        Covered(9),
        Listed(7),
        Bounds(&[
            Row(&[(1, 0), (1, 1)], 1),
            Row(&[(-1, 0), (-1, 1)], -1),
            Row(&[(1, 7)], 1),
            Row(&[(-1, 0), (1, 7)], 0),
            Row(&[(1, 0), (-1, 7)], 0),
            Row(&[(-1, 1), (1, 7)], 0),
            Row(&[(1, 1), (-1, 7)], 0),
        ]),
    ];
    run(rt.alloc(), COMPARISONS, ACTS)
}
