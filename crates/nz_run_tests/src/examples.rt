//! The scripts of `examples/` through the top call, and what each is answered. The gate runs the program over the files.
use crate::checks::holds;
use crate::run::{run_pieces, sink_is, sink_with};
use nz_base::Memory;
use nz_run::DONE;
use std::alloc::Global;
use std::process::Abort;
use std::test::Fail;

/// How many bytes the replies to an example may have.
const ROOM: usize = 1000;

/// A script of `examples/`, by its name there.
struct Example {
    name: &'static str,
    script: &'static [u8],
    replies: &'static [u8],
}

const EXAMPLES: &[Example] = &[
    Example {
        name: "chain",
        script: b"(declare-const a Real)\n\
            (declare-const b Real)\n\
            (declare-const c Real)\n\
            (assert (< a b))\n\
            (assert (< b c))\n\
            (check-sat)\n\
            (get-model)\n\
            (assert (< c a))\n\
            (check-sat)\n",
        replies: b"sat\n\
            (\n\
            (define-fun a () Real (- 1.0))\n\
            (define-fun b () Real 0.0)\n\
            (define-fun c () Real 1.0)\n\
            )\n\
            unsat\n",
    },
    Example {
        name: "core",
        script: b"(declare-const p Bool)\n\
            (declare-const q Bool)\n\
            (declare-const r Bool)\n\
            (assert (= (=> p q r) (or (not p) (not q) r)))\n\
            (assert (xor p q r))\n\
            (assert (= p q))\n\
            (assert (distinct q r))\n\
            (assert (not (distinct r p r)))\n\
            (assert (not (= p r p)))\n\
            (check-sat)\n\
            (get-model)\n\
            (assert (ite p r (=> r q)))\n\
            (check-sat)\n",
        replies: b"sat\n\
            (\n\
            (define-fun p () Bool false)\n\
            (define-fun q () Bool false)\n\
            (define-fun r () Bool true)\n\
            )\n\
            unsat\n",
    },
    Example {
        name: "first",
        script: b"(declare-const p Bool)\n\
            (assert p)\n\
            (check-sat)\n\
            (get-model)\n\
            (exit)\n",
        replies: b"sat\n\
            (\n\
            (define-fun p () Bool true)\n\
            )\n",
    },
    Example {
        name: "levels",
        script: b"(declare-const open Bool)\n\
            (declare-const fee Real)\n\
            (assert (=> open (>= fee 10.0)))\n\
            (assert (<= fee 12.0))\n\
            (push 1)\n\
            (declare-const late Bool)\n\
            (assert (= late (> fee 11.0)))\n\
            (check-sat-assuming (open (not late)))\n\
            (get-value (open late (<= 10.0 fee 11.0)))\n\
            (push 1)\n\
            (assert (< fee 10.0))\n\
            (check-sat-assuming (open))\n\
            (check-sat)\n\
            (get-info :assertion-stack-levels)\n\
            (pop 2)\n\
            (declare-const late Real)\n\
            (check-sat-assuming (open))\n\
            (get-value (open (and (>= fee 10.0) (<= fee 12.0))))\n\
            (assert (> fee late 12.0))\n\
            (check-sat)\n\
            (reset-assertions)\n\
            (get-info :assertion-stack-levels)\n\
            (declare-const bill Real)\n\
            (assert (< bill 0.0))\n\
            (check-sat)\n",
        replies: b"sat\n\
            ((open true) (late false) ((<= 10.0 fee 11.0) true))\n\
            unsat\n\
            sat\n\
            (:assertion-stack-levels 2)\n\
            sat\n\
            ((open true) ((and (>= fee 10.0) (<= fee 12.0)) true))\n\
            unsat\n\
            (:assertion-stack-levels 0)\n\
            sat\n",
    },
    Example {
        name: "sums",
        script: b"(declare-const income Real)\n\
            (declare-const rent Real)\n\
            (declare-const food Real)\n\
            (assert (<= (+ rent food) income))\n\
            (assert (>= rent (* 0.5 income)))\n\
            (assert (> food 400.0))\n\
            (check-sat)\n\
            (get-model)\n\
            (assert (< income 800.0))\n\
            (check-sat)\n",
        replies: b"sat\n\
            (\n\
            (define-fun income () Real 802.0)\n\
            (define-fun rent () Real 401.0)\n\
            (define-fun food () Real 401.0)\n\
            )\n\
            unsat\n",
    },
    Example {
        name: "tariff",
        script: b"(declare-const express Bool)\n\
            (declare-const weight Real)\n\
            (declare-const price Real)\n\
            (assert (= price (ite express (+ 5.0 (* 3.0 weight)) (+ 2.0 weight))))\n\
            (assert (and (<= 1.0 weight) (<= weight 4.0)))\n\
            (assert (< 10.0 price))\n\
            (check-sat)\n\
            (get-model)\n\
            (get-value ((- price weight) (< weight price)))\n\
            (assert (not express))\n\
            (check-sat)\n",
        replies: b"sat\n\
            (\n\
            (define-fun express () Bool true)\n\
            (define-fun weight () Real 4.0)\n\
            (define-fun price () Real 17.0)\n\
            )\n\
            (((- price weight) 13.0) ((< weight price) true))\n\
            unsat\n",
    },
    Example {
        name: "terms",
        script: b"(declare-const express Bool)\n\
            (define-fun price ((weight Int)) Int (ite express (+ 5 (* 3 weight)) (+ 2 weight)))\n\
            (assert express)\n\
            (check-sat)\n\
            (get-value ((price 4) (/ (price 4) 3) (div (- 7) 2)))\n\
            (assert (not express))\n\
            (check-sat)\n",
        replies: b"sat\n\
            (((price 4) 17) ((/ (price 4) 3) (/ 17.0 3.0)) ((div (- 7) 2) (- 4)))\n\
            unsat\n",
    },
    Example {
        name: "unsat",
        script: b"(declare-const rain Bool)\n\
            (declare-const sun Bool)\n\
            (assert (or rain sun))\n\
            (assert (not rain))\n\
            (check-sat)\n\
            (get-model)\n\
            (assert (not (and sun true)))\n\
            (check-sat)\n",
        replies: b"sat\n\
            (\n\
            (define-fun rain () Bool false)\n\
            (define-fun sun () Bool true)\n\
            )\n\
            unsat\n",
    },
    Example {
        name: "wide",
        script: b"(declare-const x Real)\n\
            (assert (< x (+ 170141183460469231731687303715884105727 1.0)))\n\
            (check-sat)\n\
            (get-info :reason-unknown)\n",
        replies: b"unknown\n\
            (:reason-unknown (wide add 170141183460469231731687303715884105727 1))\n",
    },
];

/// The example is answered by its replies.
fn is_answered(rt: &impl Abort, alloc: Global, example: &Example) -> Result<(), Memory> {
    let mut out = sink_with(alloc, ROOM)?;
    let ended = run_pieces(alloc, example.script, 43, &mut out)?;
    holds(rt, ended.status == DONE, example.name);
    sink_is(rt, &out, example.replies);
    Ok(())
}

#[test]
fn test_each_example_is_answered(rt: HostRuntime) -> Result<(), Fail> {
    for example in EXAMPLES {
        is_answered(&rt, rt.alloc(), example)?;
    }
    Ok(())
}
