//! Bounds asserted, told and undone.
use crate::plain::{Plain, expected, next, plainly, random_bound, tightest};
use nz_delta::{Delta, Scalar};
use nz_frac::Frac;
use nz_trail::{AssertOutcome, Limit, Reason, Side, Trail, Var};
use std::test::Fail;

fn frac(num: i128, den: i128) -> Result<Frac, Fail> {
    Ok(Frac::of(num, den).ok_or("no number")?)
}

fn delta(c: i128, k: i128) -> Result<Delta, Fail> {
    Ok(Delta {
        c: frac(c, 1)?,
        k: frac(k, 1)?,
    })
}

/// Asserts a bound of a variable that is known.
fn put<S: Scalar>(
    trail: &mut Trail<S>,
    var: Var,
    side: Side,
    value: S,
    reason: Reason,
) -> Result<AssertOutcome, Fail> {
    if var >= trail.len() {
        return Err(Fail::from("no variable"));
    }
    Ok(trail.assert_bound(var, side, value, reason)?)
}

/// The bounds of a variable, where it is known.
fn bounds<S: Scalar>(trail: &Trail<S>, var: Var) -> (Option<Limit<S>>, Option<Limit<S>>) {
    if var < trail.len() {
        trail.bounds(var)
    } else {
        (None, None)
    }
}

/// Takes the bounds back to a mark that was reached.
fn undo<S: Scalar>(trail: &mut Trail<S>, mark: usize) {
    if mark <= trail.mark() {
        trail.undo(mark);
    }
}

/// The reasons of the bounds of a variable.
fn reasons<S: Scalar>(trail: &Trail<S>, var: Var) -> (Option<Reason>, Option<Reason>) {
    let (lower, upper) = bounds(trail, var);
    (lower.map(|l| l.reason), upper.map(|l| l.reason))
}

/// Whether bounds of the first variable, asserted one after another, come to what is expected.
fn all_come_to<S: Scalar>(
    trail: &mut Trail<S>,
    steps: &[(Side, S, Reason, AssertOutcome)],
) -> Result<bool, Fail> {
    for (side, value, reason, wanted) in steps {
        if put(trail, 0, *side, *value, *reason)? != *wanted {
            return Ok(false);
        }
    }
    Ok(true)
}

#[test]
fn test_variables_have_no_bounds_at_first(rt: HostRuntime) -> Result<(), Fail> {
    let mut trail: Trail<Frac> = Trail::new(rt.alloc());
    assert_eq!(rt; trail.add_var()?, 0);
    assert_eq!(rt; trail.add_var()?, 1);
    assert_eq!(rt; reasons(&trail, 1), (None, None));
    Ok(())
}

#[test]
fn test_fractions_tighten_and_clash(rt: HostRuntime) -> Result<(), Fail> {
    let mut trail = Trail::new(rt.alloc());
    trail.add_var()?;
    let below = [
        (Side::Lower, frac(1, 2)?, 10, AssertOutcome::Tighter),
        (Side::Lower, frac(1, 3)?, 11, AssertOutcome::Kept),
        (Side::Lower, frac(2, 4)?, 12, AssertOutcome::Kept),
    ];
    assert!(rt; all_come_to(&mut trail, &below)?);
    let above = [
        (Side::Upper, frac(2, 3)?, 13, AssertOutcome::Tighter),
        (Side::Lower, frac(3, 4)?, 14, AssertOutcome::Clash(14, 13)),
        (Side::Upper, frac(1, 4)?, 15, AssertOutcome::Clash(15, 10)),
        (Side::Upper, frac(1, 2)?, 16, AssertOutcome::Tighter),
    ];
    assert!(rt; all_come_to(&mut trail, &above)?);
    assert_eq!(rt; reasons(&trail, 0), (Some(10), Some(16)));
    undo(&mut trail, 1);
    assert_eq!(rt; reasons(&trail, 0), (Some(10), None));
    Ok(())
}

#[test]
fn test_strict_bounds_clash(rt: HostRuntime) -> Result<(), Fail> {
    let mut trail = Trail::new(rt.alloc());
    trail.add_var()?;
    let steps = [
        (Side::Upper, delta(1, 0)?, 1, AssertOutcome::Tighter),
        (Side::Lower, delta(1, 1)?, 2, AssertOutcome::Clash(2, 1)),
        (Side::Lower, delta(1, -1)?, 3, AssertOutcome::Tighter),
    ];
    assert!(rt; all_come_to(&mut trail, &steps)?);
    let (lower, upper) = bounds(&trail, 0);
    assert_eq!(rt; plainly(lower), Some(((1, -1), 3)));
    assert_eq!(rt; plainly(upper), Some(((1, 0), 1)));
    Ok(())
}

/// Whether the bounds of each variable are the tightest of the list.
fn agrees(trail: &Trail<Delta>, list: &[Plain]) -> bool {
    for var in 0..trail.len() {
        let (lower, upper) = bounds(trail, var);
        if plainly(lower) != tightest(list, var, Side::Lower) {
            return false;
        }
        if plainly(upper) != tightest(list, var, Side::Upper) {
            return false;
        }
    }
    true
}

/// Asserts a bound on the trail and puts it on the list, if it doesn't clash.
fn put_both(
    trail: &mut Trail<Delta>,
    list: &mut Vec<Plain>,
    b: Plain,
) -> Result<AssertOutcome, Fail> {
    let told = put(trail, b.var, b.side, delta(b.value.0, b.value.1)?, b.reason)?;
    if told != expected(list.as_slice(), b) {
        return Err(Fail::from("another outcome"));
    }
    match told {
        AssertOutcome::Clash(_, _) => {}
        _ => list.push(b)?,
    }
    Ok(told)
}

/// A place of the trail, and how long the list was there.
type Mark = (usize, usize);

/// Takes the trail and the list back to a mark.
fn undo_both(trail: &mut Trail<Delta>, list: &mut Vec<Plain>, mark: Mark) {
    undo(trail, mark.0);
    list.truncate(mark.1);
}

/// One step that looks random: a mark, an undo or a bound. Its kind is told by a number.
fn step(
    trail: &mut Trail<Delta>,
    list: &mut Vec<Plain>,
    marks: &mut Vec<Mark>,
    seed: &mut u64,
    reason: usize,
) -> Result<usize, Fail> {
    match next(seed) % 7 {
        0 => {
            marks.push((trail.mark(), list.len()))?;
            Ok(0)
        }
        1 => match marks.pop() {
            Some(mark) => {
                undo_both(trail, list, mark);
                Ok(1)
            }
            None => Ok(0),
        },
        _ => match put_both(trail, list, random_bound(seed, reason))? {
            AssertOutcome::Kept => Ok(2),
            AssertOutcome::Tighter => Ok(3),
            AssertOutcome::Clash(_, _) => Ok(4),
        },
    }
}

#[test]
fn test_undo_gives_back_what_stood(rt: HostRuntime) -> Result<(), Fail> {
    let mut trail = Trail::new(rt.alloc());
    for _ in 0..3 {
        trail.add_var()?;
    }
    let mut list = Vec::new(rt.alloc());
    let mut marks = Vec::new(rt.alloc());
    let mut kinds = Vec::new(rt.alloc());
    let mut seed = 20061;
    for number in 0..100 {
        kinds.push(step(&mut trail, &mut list, &mut marks, &mut seed, number)?)?;
        assert!(rt; agrees(&trail, list.as_slice()), "at step {number}");
    }
    for kind in 0..5 {
        assert!(rt; kinds.as_slice().contains(&kind), "no step of kind {kind}");
    }
    Ok(())
}
