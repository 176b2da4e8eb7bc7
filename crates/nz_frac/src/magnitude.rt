//! Numbers without their signs: products that stay within M, greatest common divisors and comparisons of products.
//! Whatever fits in 64 bits is divided in 64 bits.
ghost use Rattle.std.specs.Prelude.{◌≡◌, ◌+◌, ◌*◌, ◌/◌, ◌^◌, ◌<◌, ◌≤◌, IsTrue, IsFalse};
ghost use Rattle.std.specs.Option.{SomeIff};
ghost use Rattle.std.specs.Ordering.{nat_cmp};
ghost use Rattle.nz_fractions.specs.Fraction.{gcd, largest};

use std::cmp::Ordering;

/// M = 2^127 - 1, the largest numerator and denominator.
pub const LARGEST: u128 = 0x7fff_ffff_ffff_ffff_ffff_ffff_ffff_ffff;

/// The largest number of 64 bits.
const SMALL: u128 = 0xffff_ffff_ffff_ffff;

fn small_gcd(first: u64, second: u64) -> u64
    ensures { result ≡ gcd first second }
{
    let mut a = first;
    let mut b = second;
    while b != 0 {
        let rest = a % b;
        a = b;
        b = rest;
    }
    a
}

/// The greatest common divisor.
pub fn greatest_divisor(first: u128, second: u128) -> u128
    ensures { result ≡ gcd first second }
{
    let mut a = first;
    let mut b = second;
    while b != 0 {
        if a <= SMALL && b <= SMALL {
            return small_gcd(a as u64, b as u64) as u128;
        }
        let rest = a % b;
        a = b;
        b = rest;
    }
    a
}

/// `n / d`, in 64 bits where both fit.
pub fn quotient(n: u128, d: u128) -> u128
    requires { 0 < d }
    ensures { result ≡ n / d }
{
    if d == 1 {
        n
    } else if n <= SMALL && d <= SMALL {
        (n as u64 / d as u64) as u128
    } else {
        n / d
    }
}

/// Whether the leading zeros alone show that a product has at most 128 bits; where they don't, it has at least 128.
fn has_room(m: u128, n: u128) -> bool
    ensures yes { IsTrue result → m * n < 2 ^ 128 }
    ensures no { IsFalse result → 2 ^ 127 ≤ m * n }
{
    m.leading_zeros() + n.leading_zeros() >= 128
}

/// The product, where it is at most M.
pub fn product_within(m: u128, n: u128) -> Option<u128>
    ensures { SomeIff result (m * n ≤ largest) (m * n) }
{
    if !has_room(m, n) {
        return None;
    }
    let product = m * n;
    if product <= LARGEST {
        Some(product)
    } else {
        None
    }
}

/// How `a * d` and `c * b` compare. Products of two words are built only where the leading zeros leave no other way.
pub fn cmp_products(a: u128, d: u128, c: u128, b: u128) -> Ordering
    ensures { result ≡ nat_cmp (a * d) (c * b) }
{
    if has_room(a, d) && has_room(c, b) {
        return (a * d).cmp(&(c * b));
    }
    let (left_low, left_high) = a.carrying_mul(d, 0);
    let (right_low, right_high) = c.carrying_mul(b, 0);
    left_high.cmp(&right_high).then(left_low.cmp(&right_low))
}
