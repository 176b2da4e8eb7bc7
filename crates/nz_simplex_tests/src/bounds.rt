//! Bounds asserted and undone against a plain list.
use crate::acts::Wrong;
use crate::random::{give, next};
use crate::sums::is_point;
use crate::system::{Given, System, bounds};
use nz_base::Memory;
use nz_delta::Delta;
use nz_simplex::Check;
use nz_trail::{Limit, Side, Var};
use std::test::Fail;

/// A bound with whole parts, c + k*δ, and its reason.
#[derive(Clone, Copy, PartialEq)]
struct Plain {
    c: i128,
    k: i128,
    reason: usize,
}

/// The same bound.
fn plainly(value: &Delta, reason: usize) -> Plain {
    Plain {
        c: value.c.num(),
        k: value.k.num(),
        reason,
    }
}

/// The bound that stands, if there is one.
fn standing(limit: Option<Limit<Delta>>) -> Option<Plain> {
    match limit {
        Some(limit) => Some(plainly(&limit.value, limit.reason)),
        None => None,
    }
}

/// Whether a bound on a side is tighter than the one before it.
fn is_tighter(side: Side, one: &Plain, before: Option<Plain>) -> bool {
    let Some(other) = before else {
        return true;
    };
    match side {
        Side::Lower => one.c > other.c || one.c == other.c && one.k > other.k,
        Side::Upper => one.c < other.c || one.c == other.c && one.k < other.k,
    }
}

/// The tightest bound of a form on a side, the first one of its value.
fn tightest(given: &[Given<Delta>], var: Var, side: Side) -> Option<Plain> {
    let mut found = None;
    for (reason, (form, on, value)) in given.iter().enumerate() {
        if *form == var && *on == side {
            let one = plainly(value, reason);
            if is_tighter(side, &one, found) {
                found = Some(one);
            }
        }
    }
    found
}

/// Whether the bounds of a form are the tightest of the list.
fn has_tightest(system: &System<Delta>, var: Var) -> bool {
    let (lower, upper) = bounds(system.simplex(), var);
    standing(lower) == tightest(system.given(), var, Side::Lower)
        && standing(upper) == tightest(system.given(), var, Side::Upper)
}

/// Whether the bounds of each form are the tightest of the list.
fn agrees(system: &System<Delta>) -> bool {
    for var in 0..system.simplex().len() {
        if !has_tightest(system, var) {
            return false;
        }
    }
    true
}

/// Whether a check answers, and a point that it finds is within the bounds.
fn answers(system: &mut System<Delta>) -> Result<bool, Memory> {
    match system.check(100)? {
        Ok(Check::Feasible) => Ok(is_point(system.simplex())),
        Ok(Check::Clash) => Ok(true),
        Err(_) => Ok(false),
    }
}

/// Gives a form that looks random a bound that does too.
fn give_any(system: &mut System<Delta>, seed: &mut u64) -> Result<bool, Memory> {
    let count = (system.simplex().len() as u64).max(1);
    let var = (next(seed) % count) as usize;
    give(system, seed, var, -4, 9)?;
    Ok(true)
}

/// One step that looks random: a mark, an undo, a check or a bound. Answers whether a check answered right.
fn step(system: &mut System<Delta>, seed: &mut u64) -> Result<bool, Memory> {
    match next(seed) % 8 {
        0 => {
            system.mark()?;
            Ok(true)
        }
        1 => {
            system.back();
            Ok(true)
        }
        2 => answers(system),
        _ => give_any(system, seed),
    }
}

/// Two forms of two units join.
fn add_two(system: &mut System<Delta>) -> Result<(), Memory> {
    system.add(&[(1, 0), (2, 1)])?;
    system.add(&[(3, 0), (-1, 1)])?;
    Ok(())
}

/// After each of many steps over two forms the bounds are those of the list.
fn gives_back(system: &mut System<Delta>) -> Result<(), Fail> {
    add_two(system)?;
    let mut seed = 19;
    for place in 0..200 {
        if !step(system, &mut seed)? || !agrees(system) {
            return Err(Fail::from(Wrong { place }));
        }
    }
    Ok(())
}

#[test]
fn test_undo_gives_back_the_bounds(rt: HostRuntime) -> Result<(), Fail> {
    let mut system = System::new(rt.alloc())?;
    gives_back(&mut system)
}
