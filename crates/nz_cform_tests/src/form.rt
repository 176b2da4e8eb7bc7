//! The gates of terms that share arguments, each once.
use crate::acts::Act::{self, Add, Covered, Cut, Listed};
use crate::acts::run;
use nz_term::{Operator, Sort};
use nz_term_samples::Term::{self, Constant, Over};
use std::test::Fail;

// `xor` and `=` over the same arguments, and the conjunction of the two (4).
const SHARED: &[Term] = &[
    Constant(b'p', Sort::Bool),
    Constant(b'q', Sort::Bool),
    Over(Operator::Xor, &[0, 1]),
    Over(Operator::Equal, &[0, 1]),
    Over(Operator::And, &[2, 3]),
];

#[test]
fn test_shared_terms_have_their_gates_once(rt: HostRuntime) -> Result<(), Fail> {
    const ACTS: &[Act] = &[
        // Four of each of the two, and three of the conjunction.
        Add(4, 1, 11),
        Covered(5),
        Listed(0),
        Add(4, 1, 0),
        Covered(5),
        Listed(0),
    ];
    run(rt.alloc(), SHARED, ACTS)
}

#[test]
fn test_what_is_cut_is_covered_anew(rt: HostRuntime) -> Result<(), Fail> {
    const ACTS: &[Act] = &[
        Add(4, 1, 11),
        Cut(0),
        Covered(0),
        Add(4, 2, 11),
        Covered(5),
        Listed(0),
    ];
    run(rt.alloc(), SHARED, ACTS)
}
