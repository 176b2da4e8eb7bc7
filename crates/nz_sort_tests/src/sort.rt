//! Of `nz_sort`: which commands are accepted, what they ask, and the items that they leave.

use crate::steps::{Step, run};
use nz_sort::Accepted;
use nz_term::TermId;
use std::test::Fail;

#[test]
fn test_items_of_all_kinds_share_one_order(rt: HostRuntime) -> Result<(), Fail> {
    const CONSTANTS: &[Accepted] = &[
        Accepted { number: 0, term: 0 },
        Accepted { number: 2, term: 1 },
    ];
    const ASSERTIONS: &[Accepted] = &[
        Accepted { number: 1, term: 0 },
        Accepted { number: 3, term: 3 },
    ];
    const STEPS: &[Step] = &[
        Step::Command("(declare-const p Bool)", b"changed"),
        Step::Command("(assert p)", b"changed"),
        Step::Command("(declare-const q Bool)", b"changed"),
        Step::Command("(assert (or p (not q)))", b"changed"),
        Step::Command("(check-sat)", b"check"),
        Step::Constants(CONSTANTS),
        Step::Assertions(ASSERTIONS),
    ];
    run(rt.alloc(), STEPS)
}

#[test]
fn test_a_term_list_has_companions(rt: HostRuntime) -> Result<(), Fail> {
    // The quotient, which was made last, comes just before the remainder.
    const COMPANIONS: &[TermId] = &[0, 1, 2, 5, 3, 4];
    const STEPS: &[Step] = &[
        Step::Command("(declare-const x Int)", b"changed"),
        Step::Command("(assert (= 1 (mod x 3)))", b"changed"),
        Step::Listed(COMPANIONS),
        Step::Terms(6),
    ];
    run(rt.alloc(), STEPS)
}

#[test]
fn test_nothing_is_sought_or_wished_yet(rt: HostRuntime) -> Result<(), Fail> {
    const STEPS: &[Step] = &[
        Step::Command("(declare-const p Bool)", b"changed"),
        Step::Command("(assert p)", b"changed"),
        Step::Counts(0, 0, 0),
    ];
    run(rt.alloc(), STEPS)
}

#[test]
fn test_declares_constants(rt: HostRuntime) -> Result<(), Fail> {
    const STEPS: &[Step] = &[
        Step::Command("(declare-const x Int)", b"changed"),
        Step::Command("(declare-fun y () Real)", b"changed"),
        Step::Command("(declare-const x Bool)", b"already declared"),
        Step::Command("(declare-const z Word)", b"unknown symbol"),
        Step::Command("(declare-fun f (Int) Real)", b"sort"),
        Step::Command("(declare-const z (Array Int))", b"sort"),
    ];
    run(rt.alloc(), STEPS)
}

#[test]
fn test_defines_terms(rt: HostRuntime) -> Result<(), Fail> {
    const STEPS: &[Step] = &[
        Step::Command("(declare-const x Int)", b"changed"),
        Step::Command("(declare-const y Real)", b"changed"),
        Step::Command("(define-fun d ((a Int)) Real (+ a y))", b"changed"),
        Step::Command("(define-fun d () Int 1)", b"already declared"),
        Step::Command(
            "(define-fun e ((a Int) (a Int)) Int a)",
            b"already declared",
        ),
        Step::Command(
            "(define-fun e ((a Int) (b Int)) Int (* a b))",
            b"not linear",
        ),
        Step::Command("(define-fun e ((a Int)) Int (+ a c))", b"unknown symbol"),
        Step::Command("(define-fun e ((a Int)) Bool a)", b"sort"),
        Step::Command(
            "(define-fun e ((a Int) (b Real)) Real (ite (< a b) a b))",
            b"changed",
        ),
        Step::Command("(assert (< (d x) (e x y)))", b"changed"),
        Step::Command("(assert (d y))", b"sort"),
        Step::Command("(check-sat)", b"unsupported"),
    ];
    run(rt.alloc(), STEPS)
}

#[test]
fn test_asserts_linear_terms(rt: HostRuntime) -> Result<(), Fail> {
    const STEPS: &[Step] = &[
        Step::Command("(declare-const x Int)", b"changed"),
        Step::Command(
            "(assert (let ((y (+ x 1)) (z 2)) (< (* y z) x)))",
            b"changed",
        ),
        Step::Command("(assert (let ((y x)) (< (* y x) 1)))", b"not linear"),
        Step::Command("(assert (let ((y x) (y 1)) (< y 1)))", b"already declared"),
        Step::Command("(assert (let ((y z) (y 1)) (< y 1)))", b"unknown symbol"),
        Step::Command("(assert (= 1 (div x 0)))", b"not linear"),
        Step::Command("(assert (+ x 1))", b"sort"),
        Step::Command(
            "(assert (< x 170141183460469231731687303715884105728))",
            b"number too wide",
        ),
        Step::Command(
            "(assert (< x 0.000000000000000000000000000000000000001))",
            b"limit",
        ),
    ];
    run(rt.alloc(), STEPS)
}

#[test]
fn test_checks_what_holds_no_integers(rt: HostRuntime) -> Result<(), Fail> {
    const STEPS: &[Step] = &[
        Step::Command("(declare-const x Real)", b"changed"),
        Step::Command("(assert (< (ite (< x 1.0) x 2.0) 3.0))", b"changed"),
        Step::Command("(assert (< 1 2))", b"changed"),
        Step::Command("(define-fun half ((a Int)) Real (/ a 2))", b"changed"),
        Step::Command("(get-value ((div 7 2)))", b"values"),
        Step::Command("(check-sat)", b"check"),
        Step::Command("(assert (is_int x))", b"changed"),
        Step::Command("(check-sat)", b"unsupported"),
    ];
    run(rt.alloc(), STEPS)
}

#[test]
fn test_sets_options_and_infos(rt: HostRuntime) -> Result<(), Fail> {
    const STEPS: &[Step] = &[
        Step::Command("(set-logic QF_LRA)", b"nothing"),
        Step::Command("(set-option :print-success true)", b"talk"),
        Step::Command("(set-option :print-success false)", b"hush"),
        Step::Command("(set-option :produce-models true)", b"nothing"),
        Step::Command("(set-option :opt.priority pareto)", b"unsupported"),
        Step::Command("(set-info :status sat)", b"nothing"),
    ];
    run(rt.alloc(), STEPS)
}

#[test]
fn test_asks_of_the_session(rt: HostRuntime) -> Result<(), Fail> {
    const STEPS: &[Step] = &[
        Step::Command("(get-info :name)", b"info"),
        Step::Command("(get-info :assertion-stack-levels)", b"levels"),
        Step::Command("(get-info :reason-unknown)", b"reason"),
        Step::Command("(get-info :all-statistics)", b"unsupported"),
        Step::Command("(get-value (true (and true false)))", b"values"),
        Step::Command("(get-value (x))", b"unknown symbol"),
        Step::Command("(get-model)", b"model"),
        Step::Command("(echo \"a\")", b"echo"),
        Step::Command("(minimize x)", b"unsupported"),
        Step::Command("(check-sat)", b"check"),
        Step::Command("(exit)", b"leave"),
        Step::Command("(exit now)", b"syntax"),
    ];
    run(rt.alloc(), STEPS)
}
