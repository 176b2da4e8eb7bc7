//! Fractions at the edge, worked out by hand.
use nz_frac::{Frac, Op, Wide};
use std::cmp::Ordering;
use std::test::Fail;

const M: i128 = i128::MAX;

fn frac(num: i128, den: i128) -> Result<Frac, Fail> {
    Ok(Frac::of(num, den).ok_or("no number")?)
}

fn parts(q: Frac) -> (i128, i128) {
    (q.num(), q.den())
}

fn sum(a: (i128, i128), b: (i128, i128)) -> Result<Option<(i128, i128)>, Fail> {
    Ok(frac(a.0, a.1)?.add(frac(b.0, b.1)?).ok().map(parts))
}

fn quotient(a: (i128, i128), b: (i128, i128)) -> Result<Option<(i128, i128)>, Fail> {
    let divisor = frac(b.0, b.1)?;
    if divisor.num() == 0 {
        return Err("the divisor is 0")?;
    }
    Ok(frac(a.0, a.1)?.div(divisor).ok().map(parts))
}

fn product(a: (i128, i128), b: (i128, i128)) -> Result<Option<(i128, i128)>, Fail> {
    Ok(frac(a.0, a.1)?.mul(frac(b.0, b.1)?).ok().map(parts))
}

#[test]
fn test_makes_numbers_alone(rt: HostRuntime) -> Result<(), Fail> {
    assert_eq!(rt; Frac::of(6, -4).map(parts), Some((-3, 2)));
    assert_eq!(rt; Frac::of(0, -5).map(parts), Some((0, 1)));
    assert_eq!(rt; Frac::of(1, 0).map(parts), None);
    assert_eq!(rt; Frac::of(-M, M).map(parts), Some((-1, 1)));
    assert_eq!(rt; Frac::of(1, M).map(parts), Some((1, M)));
    assert_eq!(rt; Frac::of(i128::MIN, 1).map(parts), None);
    assert_eq!(rt; Frac::of(1, i128::MIN).map(parts), None);
    assert_eq!(rt; Frac::of(i128::MIN, 2).map(parts), Some((-(1 << 126), 1)));
    assert_eq!(rt; Frac::of(i128::MIN, i128::MIN).map(parts), Some((1, 1)));
    Ok(())
}

#[test]
fn test_makes_integers(rt: HostRuntime) -> Result<(), Fail> {
    assert_eq!(rt; parts(Frac::integer(M)), (M, 1));
    assert_eq!(rt; parts(Frac::integer(-M)), (-M, 1));
    assert_eq!(rt; parts(Frac::whole(i64::MIN)), (i64::MIN as i128, 1));
    Ok(())
}

#[test]
fn test_adds_up_to_the_edge(rt: HostRuntime) -> Result<(), Fail> {
    assert_eq!(rt; sum((1, 2), (1, 3))?, Some((5, 6)));
    assert_eq!(rt; sum((1, 6), (1, 3))?, Some((1, 2)));
    assert_eq!(rt; sum((M - 1, 1), (1, 1))?, Some((M, 1)));
    assert_eq!(rt; sum((M, 1), (1, 1))?, None);
    assert_eq!(rt; sum((-M, 1), (-1, 1))?, None);
    assert_eq!(rt; sum((M, 1), (-M, 1))?, Some((0, 1)));
    // One denominator divides the other, so the multiple fits where the product of the two doesn't.
    assert_eq!(rt; sum((1, M), (1, M))?, Some((2, M)));
    assert_eq!(rt; sum((1, M), (-1, M))?, Some((0, 1)));
    // The multiple of two coprime denominators is beyond M.
    assert_eq!(rt; sum((1, M), (1, M - 1))?, None);
    // A part over the multiple is beyond M, though the sum in lowest terms would fit: M/1 - M/2 = M/2.
    assert_eq!(rt; sum((M, 1), (-M, 2))?, None);
    // 2^63 * (2^64 - 1) = 2^127 - 2^63 is at most M, and 2^63 * (2^64 + 1) isn't.
    assert_eq!(rt;
        sum((1, 1 << 63), (1, (1 << 64) - 1))?,
        Some(((1 << 64) - 1 + (1 << 63), M - (1 << 63) + 1))
    );
    assert_eq!(rt; sum((1, 1 << 63), (1, (1 << 64) + 1))?, None);
    // Over 2, 2^126 - 1 is M - 1: one half more just fits, three halves don't.
    assert_eq!(rt; sum(((1 << 126) - 1, 1), (1, 2))?, Some((M, 2)));
    assert_eq!(rt; sum((1 - (1 << 126), 1), (-1, 2))?, Some((-M, 2)));
    assert_eq!(rt; sum(((1 << 126) - 1, 1), (3, 2))?, None);
    // Over 2, 2^126 is M + 1, though the sum M/2 would fit.
    assert_eq!(rt; sum((1 << 126, 1), (-1, 2))?, None);
    // 1/2 + 1/2 is in lowest terms only once the shared 2 is taken out.
    assert_eq!(rt; sum((1, 2), (1, 2))?, Some((1, 1)));
    Ok(())
}

#[test]
fn test_multiplies_in_lowest_terms(rt: HostRuntime) -> Result<(), Fail> {
    assert_eq!(rt; product((2, 3), (-3, 4))?, Some((-1, 2)));
    // The common divisors save both products.
    assert_eq!(rt; product((M, 2), (4, M))?, Some((2, 1)));
    assert_eq!(rt; product((M, 1), (1, M))?, Some((1, 1)));
    assert_eq!(rt; product((M, 1), (2, 1))?, None);
    assert_eq!(rt; product((1, M), (1, 2))?, None);
    assert_eq!(rt; product((M, 1), (0, 1))?, Some((0, 1)));
    assert_eq!(rt; product((1 << 63, 1), (1 << 63, 1))?, Some((1 << 126, 1)));
    assert_eq!(rt; product((1 << 64, 1), (1 << 63, 1))?, None);
    assert_eq!(rt; product((1 << 64, 1), (-(1 << 63), 1))?, None);
    Ok(())
}

#[test]
fn test_names_what_is_wide(rt: HostRuntime) -> Result<(), Fail> {
    let (a, b) = (frac(M, 1)?, frac(-2, 1)?);
    match a.sub(b) {
        Err(Wide { op, a, b }) => {
            assert!(rt; op == Op::Sub);
            assert_eq!(rt; parts(a), (M, 1));
            assert_eq!(rt; parts(b), (-2, 1));
        }
        Ok(_) => assert!(rt; false),
    }
    Ok(())
}

#[test]
fn test_divides_with_the_sign_above(rt: HostRuntime) -> Result<(), Fail> {
    assert_eq!(rt; quotient((3, 4), (-9, 8))?, Some((-2, 3)));
    assert_eq!(rt; quotient((-3, 4), (-9, 8))?, Some((2, 3)));
    assert_eq!(rt; quotient((0, 1), (-3, 1))?, Some((0, 1)));
    Ok(())
}

#[test]
fn test_divides_up_to_the_edge(rt: HostRuntime) -> Result<(), Fail> {
    assert_eq!(rt; quotient((M, 1), (-M, 1))?, Some((-1, 1)));
    assert_eq!(rt; quotient((1, M), (1, M))?, Some((1, 1)));
    assert_eq!(rt; quotient((1, 1), (1, M))?, Some((M, 1)));
    // M and 2 are shared crosswise.
    assert_eq!(rt; quotient((M, 2), (M, 4))?, Some((2, 1)));
    assert_eq!(rt; quotient((M, 1), (1, 2))?, None);
    assert_eq!(rt; quotient((1, M), (2, 1))?, None);
    Ok(())
}

#[test]
fn test_rounds_down_and_up(rt: HostRuntime) -> Result<(), Fail> {
    assert_eq!(rt; parts(frac(-7, 2)?.floor()), (-4, 1));
    assert_eq!(rt; parts(frac(-7, 2)?.ceil()), (-3, 1));
    assert_eq!(rt; parts(frac(7, 2)?.floor()), (3, 1));
    assert_eq!(rt; parts(frac(7, 2)?.ceil()), (4, 1));
    assert_eq!(rt; parts(frac(-1, M)?.floor()), (-1, 1));
    assert_eq!(rt; parts(frac(1, M)?.ceil()), (1, 1));
    assert_eq!(rt; parts(frac(-M, 1)?.ceil()), (-M, 1));
    // M is 2 * (2^126 - 1) + 1.
    assert_eq!(rt; parts(frac(-M, 2)?.floor()), (-(1 << 126), 1));
    assert_eq!(rt; parts(frac(M, 2)?.ceil()), (1 << 126, 1));
    Ok(())
}

#[test]
fn test_compares_where_products_take_two_words(rt: HostRuntime) -> Result<(), Fail> {
    assert_eq!(rt; frac(M, M - 1)?.cmp(&frac(M - 1, M - 2)?), Ordering::Less);
    assert_eq!(rt;
        frac(-M, M - 1)?.cmp(&frac(1 - M, M - 2)?),
        Ordering::Greater
    );
    assert_eq!(rt; frac(1, 3)?.cmp(&frac(2, 5)?), Ordering::Less);
    assert_eq!(rt; frac(-1, 2)?.cmp(&frac(1, 3)?), Ordering::Less);
    Ok(())
}

#[test]
fn test_compares_equal_values_alike(rt: HostRuntime) -> Result<(), Fail> {
    assert!(rt; frac(2, -4)? == frac(-1, 2)?);
    assert!(rt; frac(1, 2)? != frac(1, 3)?);
    assert_eq!(rt; frac(M, 1)?.neg().cmp(&frac(-M, 1)?), Ordering::Equal);
    assert_eq!(rt; frac(1, M)?.cmp(&frac(1, M - 1)?), Ordering::Less);
    Ok(())
}
