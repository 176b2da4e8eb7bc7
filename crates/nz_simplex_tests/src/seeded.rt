//! Seeded systems over two units, against a search of all vertices.
use crate::acts::Wrong;
use crate::numbers::delta;
use crate::random::{give, integer};
use crate::sums::{contradicts, is_point};
use crate::system::{Given, System};
use nz_base::Memory;
use nz_delta::{Delta, Scalar};
use nz_frac::Frac;
use nz_simplex::Check;
use nz_trail::{Side, Var};
use std::alloc::Global;
use std::cmp::Ordering;
use std::test::Fail;

/// A form a*x + b*y, and its number in the simplex.
#[derive(Clone, Copy)]
struct Plane {
    a: Frac,
    b: Frac,
    var: Var,
}

/// Values of the two units.
type Point = (Delta, Delta);

/// The form a*x + b*y of a number.
fn numbered(a: i128, b: i128, var: Var) -> Option<Plane> {
    let a = Frac::of(a, 1)?;
    let b = Frac::of(b, 1)?;
    Some(Plane { a, b, var })
}

/// The plane of a form.
fn plane_of(planes: &[Plane], var: Var) -> Option<Plane> {
    for plane in planes {
        if plane.var == var {
            return Some(*plane);
        }
    }
    None
}

/// What a form is worth at a point.
fn worth(plane: &Plane, point: &Point) -> Option<Delta> {
    let left = point.0.scale(plane.a).ok()?;
    let right = point.1.scale(plane.b).ok()?;
    left.add(right).ok()
}

/// Whether a value is within a bound.
fn is_within(value: &Delta, side: Side, bound: &Delta) -> bool {
    match side {
        Side::Lower => value.cmp(bound) != Ordering::Less,
        Side::Upper => value.cmp(bound) != Ordering::Greater,
    }
}

/// How a point meets a bound, where the worth of its form is a number.
fn meets(planes: &[Plane], (var, side, bound): &Given<Delta>, point: &Point) -> Option<bool> {
    let plane = plane_of(planes, *var)?;
    let value = worth(&plane, point)?;
    Some(is_within(&value, *side, bound))
}

/// Whether a point is within all bounds.
fn meets_all(planes: &[Plane], given: &[Given<Delta>], point: &Point) -> bool {
    for bound in given {
        if meets(planes, bound, point) != Some(true) {
            return false;
        }
    }
    true
}

/// first * u - second * v.
fn difference(first: Frac, u: Delta, second: Frac, v: Delta) -> Option<Delta> {
    let left = u.scale(first).ok()?;
    let right = v.scale(second).ok()?;
    left.sub(right).ok()
}

/// 1 over the determinant of two planes, where it isn't 0.
fn inverse(p: &Plane, q: &Plane) -> Option<Frac> {
    let left = p.a.mul(q.b).ok()?;
    let right = q.a.mul(p.b).ok()?;
    let determinant = left.sub(right).ok()?;
    if determinant.is_zero() {
        return None;
    }
    Frac::whole(1).div(determinant).ok()
}

/// Where two bounds are met exactly.
fn vertex(planes: &[Plane], first: &Given<Delta>, second: &Given<Delta>) -> Option<Point> {
    let p = plane_of(planes, first.0)?;
    let q = plane_of(planes, second.0)?;
    let inverse = inverse(&p, &q)?;
    let x = difference(q.b, first.2, p.b, second.2)?;
    let y = difference(p.a, second.2, q.a, first.2)?;
    Some((x.scale(inverse).ok()?, y.scale(inverse).ok()?))
}

/// Whether a bound is met exactly, with another one, at a vertex within all bounds.
fn is_at_vertex(planes: &[Plane], given: &[Given<Delta>], first: &Given<Delta>) -> bool {
    for second in given {
        if let Some(point) = vertex(planes, first, second) {
            if meets_all(planes, given, &point) {
                return true;
            }
        }
    }
    false
}

/// Whether some vertex is within all bounds. Where x and y have bounds on both sides, there is one just where any point is.
fn has_vertex(planes: &[Plane], given: &[Given<Delta>]) -> bool {
    for first in given {
        if is_at_vertex(planes, given, first) {
            return true;
        }
    }
    false
}

/// Adds a form that looks random, unless it lacks a unit.
fn add_any(
    system: &mut System<Delta>,
    planes: &mut Vec<Plane>,
    seed: &mut u64,
) -> Result<(), Memory> {
    let a = integer(seed, -3, 7);
    let b = integer(seed, -3, 7);
    if a != 0 && b != 0 {
        let var = system.add(&[(a, 0), (b, 1)])?;
        planes.push(numbered(a, b, var).ok_or(Memory)?)?;
    }
    Ok(())
}

/// Adds at most four forms that look random, and those of the units.
fn add_planes(
    system: &mut System<Delta>,
    planes: &mut Vec<Plane>,
    seed: &mut u64,
) -> Result<(), Memory> {
    for _ in 0..4 {
        add_any(system, planes, seed)?;
    }
    if !planes.is_empty() {
        planes.push(numbered(1, 0, 0).ok_or(Memory)?)?;
        planes.push(numbered(0, 1, 1).ok_or(Memory)?)?;
    }
    Ok(())
}

/// Gives a unit a whole number as its bound.
fn give_whole(
    system: &mut System<Delta>,
    unit: Var,
    side: Side,
    number: i128,
) -> Result<(), Memory> {
    let value = delta(number, 0).ok_or(Memory)?;
    system.give(unit, side, value)?;
    Ok(())
}

/// Gives a unit a bound on both sides.
fn enclose(system: &mut System<Delta>, unit: Var) -> Result<(), Memory> {
    give_whole(system, unit, Side::Lower, -3)?;
    give_whole(system, unit, Side::Upper, 4)
}

/// Bounds of the units on both sides, and others that look random.
fn give_all(system: &mut System<Delta>, planes: &[Plane], seed: &mut u64) -> Result<(), Memory> {
    enclose(system, 0)?;
    enclose(system, 1)?;
    for plane in planes {
        give(system, seed, plane.var, -6, 13)?;
    }
    Ok(())
}

/// Whether an answer is what the search of vertices says, with a point or a clash that is one.
fn is_right(system: &System<Delta>, planes: &[Plane], check: Check) -> bool {
    let has_vertex = has_vertex(planes, system.given());
    match check {
        Check::Feasible => has_vertex && is_point(system.simplex()),
        Check::Clash => !has_vertex && contradicts(system.simplex(), system.given()),
    }
}

/// What a check answers where that is right; else, or where a number didn't fit, None.
fn answer(system: &mut System<Delta>, planes: &[Plane]) -> Result<Option<Check>, Memory> {
    match system.check(200)? {
        Ok(check) if is_right(system, planes, check) => Ok(Some(check)),
        _ => Ok(None),
    }
}

/// The same where the forms and the bounds look random.
fn answer_to_any(
    system: &mut System<Delta>,
    planes: &mut Vec<Plane>,
    seed: &mut u64,
) -> Result<Option<Check>, Memory> {
    add_planes(system, planes, seed)?;
    if planes.is_empty() {
        return Ok(Some(Check::Feasible));
    }
    give_all(system, planes, seed)?;
    answer(system, planes)
}

/// The same of a new system.
fn answer_anew(alloc: Global, seed: &mut u64) -> Result<Option<Check>, Memory> {
    let mut system = System::new(alloc)?;
    let mut planes = Vec::new(alloc);
    answer_to_any(&mut system, &mut planes, seed)
}

/// How many of so many systems clash, where each check is right.
fn clashes(alloc: Global) -> Result<usize, Fail> {
    let mut seed = 2006;
    let mut clashes: usize = 0;
    for place in 0..100 {
        match answer_anew(alloc, &mut seed)? {
            Some(Check::Feasible) => {}
            Some(Check::Clash) => clashes = clashes.saturating_add(1),
            None => return Err(Fail::from(Wrong { place })),
        }
    }
    Ok(clashes)
}

#[test]
fn test_checks_agree_with_vertices(rt: HostRuntime) -> Result<(), Fail> {
    let clashes = clashes(rt.alloc())?;
    assert!(rt; clashes > 10 && clashes < 90, "{clashes} clashes");
    Ok(())
}
