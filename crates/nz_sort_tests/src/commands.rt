//! Of `nz_command`: the form of commands, and their numbers, on trees of the standard's and of this program's own. A command that isn't of its form is
//! what the live state answers with `syntax`, and nothing else is.

use crate::steps::{Step, run};
use std::test::Fail;

#[test]
fn test_takes_what_is_of_its_form(rt: HostRuntime) -> Result<(), Fail> {
    const STEPS: &[Step] = &[
        Step::Command("(set-logic QF_LRA)", b"nothing"),
        Step::Command("(set-option :print-success false)", b"hush"),
        Step::Command("(set-option :opt.priority pareto)", b"unsupported"),
        Step::Command("(set-option :random-seed 7)", b"unsupported"),
        Step::Command("(set-info :status sat)", b"nothing"),
        Step::Command("(set-info :notes)", b"nothing"),
        Step::Command("(declare-const x Int)", b"changed"),
        Step::Command("(declare-fun f (Int Bool) Real)", b"sort"),
        Step::Command(
            "(define-fun f ((x Int) (y (Array Int))) Int (+ x y))",
            b"sort",
        ),
        Step::Command("(assert (let ((x 1) (y 2.5)) (< x y)))", b"changed"),
        Step::Command("(assert-soft a :id goal :weight 0.5)", b"unsupported"),
        Step::Command("(check-sat-assuming (a (not b)))", b"unsupported"),
        Step::Command("(check-sat-assuming ())", b"unsupported"),
        Step::Command("(get-value (x (+ x 1)))", b"values"),
        Step::Command("(push)", b"changed"),
        Step::Command("(pop 2)", b"pop below zero"),
        Step::Command("(echo \"a\")", b"echo"),
        Step::Command("(get-info :name)", b"info"),
        Step::Command("(frob 1 ())", b"unsupported"),
    ];
    run(rt.alloc(), STEPS)
}

#[test]
fn test_refuses_what_is_not(rt: HostRuntime) -> Result<(), Fail> {
    const STEPS: &[Step] = &[
        Step::Command("(1 2)", b"syntax"),
        Step::Command("((f) x)", b"syntax"),
        Step::Command("(let x)", b"syntax"),
        Step::Command("(set-logic let)", b"syntax"),
        Step::Command("(set-option :print-success maybe)", b"syntax"),
        Step::Command("(set-option :random-seed)", b"syntax"),
        Step::Command("(set-info :status :sat)", b"syntax"),
        Step::Command("(declare-const 1 Int)", b"syntax"),
        Step::Command("(declare-fun f Int)", b"syntax"),
        Step::Command("(define-fun f (x) Int x)", b"syntax"),
        Step::Command("(assert ())", b"syntax"),
        Step::Command("(assert (f))", b"syntax"),
        Step::Command("(assert (let () x))", b"syntax"),
        Step::Command("(assert (! x :named y))", b"syntax"),
        Step::Command("(assert \"a\")", b"syntax"),
        Step::Command("(assert-soft a :weight 1 :weight 2)", b"syntax"),
        Step::Command("(assert-soft a :weight)", b"syntax"),
        Step::Command("(check-sat-assuming ((not a b)))", b"syntax"),
        Step::Command("(get-value ())", b"syntax"),
        Step::Command("(push 1 2)", b"syntax"),
        Step::Command("(push 1.0)", b"syntax"),
        Step::Command("(echo a)", b"syntax"),
        Step::Command("(get-info :name 1)", b"syntax"),
        Step::Command("(check-sat 1)", b"syntax"),
    ];
    run(rt.alloc(), STEPS)
}

#[test]
fn test_tells_wide_numbers(rt: HostRuntime) -> Result<(), Fail> {
    const STEPS: &[Step] = &[
        Step::Numbers("(f 170141183460469231731687303715884105727)", false, false),
        Step::Numbers("(f 170141183460469231731687303715884105728)", true, false),
        Step::Numbers(
            "(f (1.70141183460469231731687303715884105727))",
            false,
            false,
        ),
        Step::Numbers(
            "(f (1.70141183460469231731687303715884105728))",
            true,
            false,
        ),
        Step::Numbers(
            "(f 0.0000000000000000000000000000000000000000000000001)",
            false,
            true,
        ),
    ];
    run(rt.alloc(), STEPS)
}

#[test]
fn test_tells_long_decimals(rt: HostRuntime) -> Result<(), Fail> {
    const STEPS: &[Step] = &[
        Step::Numbers("(f 0.00000000000000000000000000000000000001)", false, false),
        Step::Numbers("(f 0.000000000000000000000000000000000000001)", false, true),
    ];
    run(rt.alloc(), STEPS)
}
