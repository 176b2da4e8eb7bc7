//! Small systems that are known beforehand.
use crate::acts::Act::{self, Back, Basis, Check, Form, Mark, Settle, Tighten, Took, Value};
use crate::acts::Answer::{Clash, Feasible};
use crate::acts::run;
use crate::numbers::Number::{Below, Halves, Whole};
use nz_delta::Delta;
use nz_frac::Frac;
use nz_trail::Side::{Lower, Upper};
use std::test::Fail;

/// x + y >= 2, -x + 2*y <= 1, x <= 4.
#[test]
fn test_fractions_find_a_point(rt: HostRuntime) -> Result<(), Fail> {
    const ACTS: &[Act] = &[
        Form(&[(1, 0), (1, 1)], 2),
        Form(&[(-1, 0), (2, 1)], 3),
        Tighten(2, Lower, Whole(2)),
        Tighten(3, Upper, Whole(1)),
        Tighten(0, Upper, Whole(4)),
        Check(10, Feasible),
        Took(&[(2, 0)]),
        Basis(&[0, 3]),
    ];
    run::<Frac>(rt.alloc(), ACTS)
}

/// x < y and y < z have a point, and none with z <= x; without that bound they have one again.
#[test]
fn test_a_cycle_of_strict_bounds_clashes(rt: HostRuntime) -> Result<(), Fail> {
    const ACTS: &[Act] = &[
        Form(&[(1, 0), (-1, 1)], 2),
        Form(&[(1, 1), (-1, 2)], 4),
        Form(&[(1, 2), (-1, 0)], 5),
        Tighten(2, Upper, Below(0)),
        Tighten(4, Upper, Below(0)),
        Check(20, Feasible),
        Mark,
        Tighten(5, Upper, Whole(0)),
        Check(20, Clash(3)),
        Back,
        Check(20, Feasible),
    ];
    run::<Delta>(rt.alloc(), ACTS)
}

/// 2*x + 3*y >= 12, x <= 3, y <= 2, of which only the point (3, 2) is left; below it no point is.
#[test]
fn test_bounds_on_one_side_meet_in_the_middle(rt: HostRuntime) -> Result<(), Fail> {
    const ACTS: &[Act] = &[
        Form(&[(2, 0), (3, 1)], 2),
        Tighten(2, Lower, Whole(12)),
        Tighten(0, Upper, Whole(3)),
        Tighten(1, Upper, Whole(2)),
        Check(20, Feasible),
        Value(0, Whole(3)),
        Value(1, Whole(2)),
        Tighten(1, Upper, Below(2)),
        Check(20, Clash(3)),
    ];
    run::<Delta>(rt.alloc(), ACTS)
}

/// Two units at bounds that are taken back, of which one is settled.
#[test]
fn test_settled_forms_stand_at_zero(rt: HostRuntime) -> Result<(), Fail> {
    const ACTS: &[Act] = &[
        Form(&[(1, 0), (1, 1)], 2),
        Mark,
        Tighten(0, Lower, Whole(5)),
        Tighten(1, Lower, Halves(7)),
        Check(0, Feasible),
        Value(2, Halves(17)),
        Back,
        Settle(0),
        Value(0, Whole(0)),
        Value(2, Halves(7)),
        // A unit alone is its own form.
        Form(&[(1, 1)], 1),
    ];
    run::<Frac>(rt.alloc(), ACTS)
}
