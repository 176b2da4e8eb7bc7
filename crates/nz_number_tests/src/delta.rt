//! Infinitesimal numbers worked out by hand, and the laws of scalars used without knowing the type.
ghost use Rattle.std.specs.Prelude.{◌≡◌, IfOk, IfSome, pos};
ghost use Rattle.std.specs.declared.cmp.Ordering.TheVariants.{Equal};
ghost use Rattle.nz_fractions.specs.Fraction.{whole, ◌<ℚ◌};
ghost use Rattle.nz_spec.specs.numbers.Infinitesimal.{◌≤δ◌};
ghost use Rattle.nz_delta.specs.DeltaSpace.{infinitesimal_of};

use nz_delta::{Delta, Scalar, choose_delta};
use nz_frac::{Frac, Op, Wide};
use std::cmp::Ordering;
use std::test::Fail;

const M: i128 = i128::MAX;

/// How two numbers compare after the same number was added to both: as before, by the laws alone.
fn compared_after_adding<S: Scalar>(x: S, y: S, z: S) -> Option<Ordering>
    ensures { IfSome result (λ o. o ≡ S.order x y) }
{
    match x.add(z) {
        Ok(left) => match y.add(z) {
            Ok(right) => Some(left.cmp(&right)),
            Err(_) => None,
        },
        Err(_) => None,
    }
}

/// How two numbers compare after both were scaled: as before by a fraction above 0, turned by one below, by the laws alone.
fn compared_after_scaling<S: Scalar>(x: S, y: S, by: Frac) -> Option<Ordering>
    ensures kept { IfSome result (λ o. whole (pos 0) <ℚ by → o ≡ S.order x y) }
    ensures turned { IfSome result (λ o. by <ℚ whole (pos 0) → o ≡ S.order y x) }
{
    match x.scale(by) {
        Ok(left) => match y.scale(by) {
            Ok(right) => Some(left.cmp(&right)),
            Err(_) => None,
        },
        Err(_) => None,
    }
}

/// How x and the whole way from x to y compares with y: equal, by the laws alone.
fn compared_after_the_way<S: Scalar>(x: S, y: S) -> Option<Ordering>
    ensures { IfSome result (λ o. o ≡ Equal) }
{
    match y.sub(x) {
        Ok(way) => match way.scale(Frac::whole(1)) {
            Ok(walked) => match x.add(walked) {
                Ok(end) => Some(end.cmp(&y)),
                Err(_) => None,
            },
            Err(_) => None,
        },
        Err(_) => None,
    }
}

fn frac(num: i128, den: i128) -> Result<Frac, Fail> {
    Ok(Frac::of(num, den).ok_or("no number")?)
}

fn delta(c: i128, k: i128) -> Result<Delta, Fail> {
    Ok(Delta {
        c: frac(c, 1)?,
        k: frac(k, 1)?,
    })
}

fn parts(x: Delta) -> ((i128, i128), (i128, i128)) {
    ((x.c.num(), x.c.den()), (x.k.num(), x.k.den()))
}

#[test]
fn test_adds_and_scales_part_by_part(rt: HostRuntime) -> Result<(), Fail> {
    let (x, y) = (delta(1, -2)?, delta(3, 5)?);
    assert_eq!(rt; x.add(y).ok().map(parts), Some(((4, 1), (3, 1))));
    assert_eq!(rt; x.sub(y).ok().map(parts), Some(((-2, 1), (-7, 1))));
    assert_eq!(rt;
        y.scale(frac(-1, 2)?).ok().map(parts),
        Some(((-3, 2), (-5, 2)))
    );
    let (one, two) = (frac(1, 1)?, frac(2, 1)?);
    assert_eq!(rt; Scalar::scale(two, one).ok().map(|q| q.num()), Some(2));
    Ok(())
}

#[test]
fn test_orders_by_the_first_part_first(rt: HostRuntime) -> Result<(), Fail> {
    assert_eq!(rt; Scalar::cmp(&delta(1, 9)?, &delta(2, -9)?), Ordering::Less);
    assert_eq!(rt; Scalar::cmp(&delta(1, 0)?, &delta(1, 1)?), Ordering::Less);
    assert_eq!(rt; Scalar::cmp(&delta(1, 1)?, &delta(1, 1)?), Ordering::Equal);
    assert_eq!(rt;
        compared_after_adding(delta(1, 0)?, delta(1, 1)?, delta(7, 7)?),
        Some(Ordering::Less)
    );
    Ok(())
}

#[test]
fn test_meets_the_laws_as_fractions(rt: HostRuntime) -> Result<(), Fail> {
    assert_eq!(rt;
        compared_after_adding(frac(1, 3)?, frac(1, 2)?, frac(-5, 7)?),
        Some(Ordering::Less)
    );
    assert_eq!(rt;
        compared_after_scaling(frac(1, 3)?, frac(1, 2)?, frac(2, 3)?),
        Some(Ordering::Less)
    );
    assert_eq!(rt;
        compared_after_scaling(frac(1, 3)?, frac(1, 2)?, frac(-2, 3)?),
        Some(Ordering::Greater)
    );
    assert_eq!(rt;
        compared_after_the_way(frac(1, 3)?, frac(-1, 2)?),
        Some(Ordering::Equal)
    );
    assert_eq!(rt;
        compared_after_adding(frac(M, 1)?, frac(0, 1)?, frac(1, 1)?),
        None
    );
    Ok(())
}

#[test]
fn test_meets_the_laws_as_infinitesimals(rt: HostRuntime) -> Result<(), Fail> {
    assert_eq!(rt;
        compared_after_scaling(delta(1, 0)?, delta(1, 1)?, frac(2, 3)?),
        Some(Ordering::Less)
    );
    assert_eq!(rt;
        compared_after_scaling(delta(1, 0)?, delta(1, 1)?, frac(-2, 3)?),
        Some(Ordering::Greater)
    );
    assert_eq!(rt;
        compared_after_the_way(delta(1, 2)?, delta(3, -4)?),
        Some(Ordering::Equal)
    );
    Ok(())
}

#[test]
fn test_names_the_part_that_is_wide(rt: HostRuntime) -> Result<(), Fail> {
    match delta(1, M)?.add(delta(1, 2)?) {
        Err(Wide { op, a, b }) => {
            assert!(rt; op == Op::Add);
            assert_eq!(rt; (a.num(), b.num()), (M, 2));
        }
        Ok(_) => assert!(rt; false),
    }
    Ok(())
}

/// The two as a pair, where their first parts are in order.
fn pair(low: Delta, high: Delta) -> Result<(Delta, Delta), Fail>
    ensures { IfOk result (λ p. infinitesimal_of p.0 ≤δ infinitesimal_of p.1) }
{
    if low.c < high.c {
        Ok((low, high))
    } else {
        Err("not in order")?
    }
}

#[test]
fn test_chooses_the_least_limit(rt: HostRuntime) -> Result<(), Fail> {
    // 0 + 2δ <= 1 holds up to 1/2, 1 + 3δ <= 2 - δ up to 1/4, and 0 - δ <= 1 sets no limit.
    let half = pair(delta(0, 2)?, delta(1, 0)?)?;
    let quarter = pair(delta(1, 3)?, delta(2, -1)?)?;
    let free = pair(delta(0, -1)?, delta(1, 0)?)?;
    let chosen = choose_delta(&[half, quarter, free]);
    assert_eq!(rt; chosen.ok().map(|q| (q.num(), q.den())), Some((1, 4)));
    Ok(())
}

#[test]
fn test_chooses_at_most_one(rt: HostRuntime) -> Result<(), Fail> {
    // 0 + δ <= 5 holds up to 5.
    let pair = pair(delta(0, 1)?, delta(5, 0)?)?;
    let chosen = choose_delta(&[pair]);
    assert_eq!(rt; chosen.ok().map(|q| (q.num(), q.den())), Some((1, 1)));
    Ok(())
}

#[test]
fn test_names_what_is_wide_in_a_limit(rt: HostRuntime) -> Result<(), Fail> {
    // -1 + δ <= M would hold up to M + 1.
    match choose_delta(&[pair(delta(-1, 1)?, delta(M, 0)?)?]) {
        Err(Wide { op, a, b }) => {
            assert!(rt; op == Op::Sub);
            assert_eq!(rt; (a.num(), b.num()), (M, -1));
        }
        Ok(_) => assert!(rt; false),
    }
    // -1 <= M sets no limit, so nothing is computed.
    assert!(rt; choose_delta(&[pair(delta(-1, 0)?, delta(M, 0)?)?]).is_ok());
    Ok(())
}
