//! Of `nz_sort`: levels, assumptions and resets.

use crate::steps::{Step, run};
use nz_sort::Accepted;
use std::test::Fail;

#[test]
fn test_levels_are_counted(rt: HostRuntime) -> Result<(), Fail> {
    const STEPS: &[Step] = &[
        Step::Command("(push 0)", b"changed"),
        Step::Command("(push 1000)", b"changed"),
        Step::Command("(push)", b"limit"),
        Step::Command("(pop 1001)", b"pop below zero"),
        Step::Command("(pop 999)", b"popped"),
        Step::Command("(pop)", b"popped"),
        Step::Command("(pop)", b"pop below zero"),
        Step::Command(
            "(pop 170141183460469231731687303715884105728)",
            b"number too wide",
        ),
        Step::Command("(push 170141183460469231731687303715884105728)", b"limit"),
        Step::Command("(reset-assertions)", b"cleared"),
        Step::Command("(reset)", b"reset"),
    ];
    run(rt.alloc(), STEPS)
}

#[test]
fn test_a_name_lives_in_its_level(rt: HostRuntime) -> Result<(), Fail> {
    const STEPS: &[Step] = &[
        Step::Command("(push)", b"changed"),
        Step::Command("(declare-const x Bool)", b"changed"),
        Step::Command("(define-fun y () Bool x)", b"changed"),
        Step::Command("(declare-const x Int)", b"already declared"),
        Step::Command("(pop)", b"popped"),
        Step::Command("(assert x)", b"unknown symbol"),
        Step::Command("(assert y)", b"unknown symbol"),
        Step::Command("(declare-const y Bool)", b"changed"),
        Step::Command("(declare-const x Int)", b"changed"),
        Step::Command("(assert (< x 1))", b"changed"),
        Step::Command("(reset-assertions)", b"cleared"),
        Step::Command("(assert y)", b"unknown symbol"),
        Step::Command("(declare-const x Real)", b"changed"),
    ];
    run(rt.alloc(), STEPS)
}

#[test]
fn test_names_of_sort_bool_are_assumed(rt: HostRuntime) -> Result<(), Fail> {
    const STEPS: &[Step] = &[
        Step::Command("(declare-const p Bool)", b"changed"),
        Step::Command("(declare-const u Real)", b"changed"),
        Step::Command("(define-fun q () Bool (and p (< u 1.0)))", b"changed"),
        Step::Command("(define-fun f ((x Bool)) Bool x)", b"changed"),
        Step::Command(
            "(check-sat-assuming (p (not q) true (not false)))",
            b"check",
        ),
        Step::Command("(check-sat-assuming ())", b"check"),
        Step::Command("(check-sat-assuming (p z))", b"unknown symbol"),
        Step::Command("(check-sat-assuming (f))", b"sort"),
        Step::Command("(check-sat-assuming (and))", b"sort"),
        Step::Command("(check-sat-assuming (u))", b"sort"),
    ];
    run(rt.alloc(), STEPS)
}

#[test]
fn test_no_check_is_of_integers(rt: HostRuntime) -> Result<(), Fail> {
    const STEPS: &[Step] = &[
        Step::Command("(declare-const p Bool)", b"changed"),
        Step::Command("(define-fun n () Bool (< 1 (abs 2)))", b"changed"),
        Step::Command("(check-sat-assuming (z n))", b"unsupported"),
        Step::Command("(check-sat-assuming (z))", b"unknown symbol"),
        Step::Command("(push)", b"changed"),
        Step::Command("(declare-const x Int)", b"changed"),
        Step::Command("(check-sat-assuming (z))", b"unsupported"),
        Step::Command("(check-sat)", b"unsupported"),
        Step::Command("(pop)", b"popped"),
        Step::Command("(check-sat-assuming (p))", b"check"),
    ];
    run(rt.alloc(), STEPS)
}

#[test]
fn test_numbers_go_on_after_a_pop(rt: HostRuntime) -> Result<(), Fail> {
    const STEPS: &[Step] = &[
        Step::Command("(declare-const p Bool)", b"changed"),
        Step::Command("(push)", b"changed"),
        Step::Command("(declare-const q Bool)", b"changed"),
        Step::Command("(assert q)", b"changed"),
        Step::Command("(pop)", b"popped"),
        Step::Command("(assert p)", b"changed"),
        Step::Assertions(&[Accepted { number: 3, term: 0 }]),
    ];
    run(rt.alloc(), STEPS)
}

#[test]
fn test_numbers_start_anew_after_a_reset(rt: HostRuntime) -> Result<(), Fail> {
    const STEPS: &[Step] = &[
        Step::Command("(push)", b"changed"),
        Step::Command("(declare-const p Bool)", b"changed"),
        Step::Command("(reset-assertions)", b"cleared"),
        Step::Command("(declare-const q Bool)", b"changed"),
        Step::Constants(&[Accepted { number: 0, term: 1 }]),
        Step::Counts(0, 0, 0),
    ];
    run(rt.alloc(), STEPS)
}

#[test]
fn test_a_term_list_is_of_all_levels(rt: HostRuntime) -> Result<(), Fail> {
    const STEPS: &[Step] = &[
        Step::Command("(declare-const p Bool)", b"changed"),
        Step::Command("(push 2)", b"changed"),
        Step::Command("(declare-const q Bool)", b"changed"),
        Step::Command("(assert (and p q))", b"changed"),
        Step::Command("(push)", b"changed"),
        Step::Command("(assert (not p))", b"changed"),
        Step::Listed(&[0, 1, 2, 3]),
        Step::Terms(4),
    ];
    run(rt.alloc(), STEPS)
}
