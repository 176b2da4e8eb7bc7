//! Checks that stop: at the last unit of work, and at numbers that don't fit.
use crate::acts::Act::{self, Back, Basis, Check, Form, Mark, Tighten, Took, Value};
use crate::acts::Answer::{Feasible, Spent, Wide};
use crate::acts::{At, run};
use crate::numbers::Number::Whole;
use nz_frac::{Frac, Op};
use nz_trail::Side::{Lower, Upper};
use std::test::Fail;

/// 2^127 - 1.
const MOST: i128 = 170141183460469231731687303715884105727;

/// A check without a unit of work, with one, and with enough of them.
#[test]
fn test_a_check_spends_its_units(rt: HostRuntime) -> Result<(), Fail> {
    const ACTS: &[Act] = &[
        Form(&[(1, 0), (1, 1)], 2),
        Form(&[(1, 0), (-1, 1)], 3),
        Tighten(2, Lower, Whole(3)),
        Tighten(3, Lower, Whole(4)),
        Check(0, Spent),
        Took(&[]),
        Basis(&[2, 3]),
        Check(1, Spent),
        Took(&[(2, 0)]),
        Basis(&[0, 3]),
        Check(5, Feasible),
        Took(&[(3, 1)]),
    ];
    run::<Frac>(rt.alloc(), ACTS)
}

/// Two rows whose exchange has a product that is too large.
#[test]
fn test_an_exchange_leaves_the_numbers(rt: HostRuntime) -> Result<(), Fail> {
    const EXCHANGE: At = At::Exchange {
        leaves: 2,
        enters: 0,
    };
    const ACTS: &[Act] = &[
        Form(&[(1, 0), (MOST, 1)], 2),
        Form(&[(2, 0), (1, 1)], 3),
        Tighten(2, Lower, Whole(1)),
        Check(5, Wide(EXCHANGE, Op::Mul, 2, -MOST)),
        Basis(&[2, 3]),
    ];
    run::<Frac>(rt.alloc(), ACTS)
}

/// A sum of two units that are as large as numbers can be.
#[test]
fn test_a_value_leaves_the_numbers(rt: HostRuntime) -> Result<(), Fail> {
    const SUM: At = At::Value(2);
    const ACTS: &[Act] = &[
        Form(&[(1, 0), (1, 1)], 2),
        Mark,
        Tighten(0, Lower, Whole(MOST)),
        Tighten(1, Lower, Whole(MOST)),
        Check(5, Wide(SUM, Op::Add, MOST, MOST)),
        // Back from there the value is known again.
        Back,
        Tighten(0, Upper, Whole(1)),
        Tighten(1, Upper, Whole(0)),
        Check(5, Feasible),
        Value(2, Whole(1)),
        Form(&[(1, 0)], 0),
    ];
    run::<Frac>(rt.alloc(), ACTS)
}
