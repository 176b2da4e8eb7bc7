//! The fraction itself: its constructor, its operations and its order.
ghost use Rattle.std.specs.Prelude.{◌≡◌, ◌≢◌, ◌*◌, ◌<◌, ◌≤◌, ◌↔◌, IsTrue, IsFalse, IsSome, IfSome, IfOk, false, IsErr, IfErr, pos, ◌+ℤ◌, ◌*ℤ◌, unsigned_abs, int_div};
ghost use Rattle.std.specs.Option.{SomeIff};
ghost use Rattle.nz_fractions.specs.Fraction.{floor_div, largest, denominator, over, whole, neg_ℚ, floor, ceiling, ratio, reciprocal, IsNumber, fraction_cmp, Sum, Difference, Product, Quotient, outcome, is_wide, is_wide_sum, is_wide_product};
ghost use Rattle.nz_spec.specs.terms.Term.{is_zero};
ghost use Rattle.nz_frac.specs.Parts.{with_sign, differ};

use crate::magnitude::{LARGEST, cmp_products, greatest_divisor, product_within, quotient};
use std::cmp::Ordering;
use std::hash::{Hash, Hasher};
use std::marker::Model;

/// An operation that can be [`Wide`].
#[derive(Clone, Copy, PartialEq, Eq, Debug)]
pub enum Op {
    Add,
    Sub,
    Mul,
    Div,
}

/// An operation whose result leaves the numbers, with its operands in the order in which they were handed in.
#[derive(Clone, Copy, Debug)]
pub struct Wide {
    pub op: Op,
    pub a: Frac,
    pub b: Frac,
}

impl Wide {
    fn new(op: Op, a: Frac, b: Frac) -> Wide
        ensures { result ≡ record { op = op; a = a; b = b } }
    {
        Wide { op, a, b }
    }
}

/// A number: a fraction in lowest terms with a numerator from -M to M and a denominator from 1 to M, where M is 2^127 - 1.
#[derive(Clone, Copy, Debug)]
pub struct Frac {
    num: i128,
    den: u128,
}

impl Model for Frac {
    ghost use Rattle.std.specs.Prelude.{suc, pred};
    ghost use Rattle.nz_fractions.specs.Fraction.{Fraction};
    ghost use Rattle.nz_frac.specs.Parts.{AreParts, parts_back};

    ghost Value = { Fraction };

    ghost view = { λ f. record { numerator = f.num; below = pred f.den } };

    ghost invariant = { λ f. AreParts f.num f.den };

    ghost inverse = { λ q. record { num = q.numerator; den = suc q.below } };

    ghost inverse_ok = { λ f parts. parts_back f.num f.den parts };
}

/// The number with this sign and this size, which is at most M.
fn signed(negative: bool, size: u128) -> i128
    requires { size ≤ largest }
    ensures { result ≡ with_sign negative size }
{
    if negative {
        -(size as i128)
    } else {
        size as i128
    }
}

/// The sum, where it is from -M to M.
fn sum_within(a: i128, c: i128) -> Option<i128>
    ensures { SomeIff result (unsigned_abs (a +ℤ c) ≤ largest) (a +ℤ c) }
{
    match a.checked_add(c) {
        Some(sum) if sum != i128::MIN => Some(sum),
        _ => None,
    }
}

/// The product with a number that isn't negative, where it is from -M to M.
fn scaled_within(a: i128, by: u128) -> Option<i128>
    ensures { SomeIff result (unsigned_abs (a *ℤ pos by) ≤ largest) (a *ℤ pos by) }
{
    let size = product_within(a.unsigned_abs(), by)?;
    Some(signed(a < 0, size))
}

/// The exact quotient by a divisor of `n`.
fn divided(n: i128, by: u128) -> i128
    requires number { unsigned_abs n ≤ largest }
    requires divisor { 0 < by }
    ensures value { result ≡ int_div n (pos by) }
    ensures fits { unsigned_abs result ≤ largest }
{
    signed(n < 0, quotient(n.unsigned_abs(), by))
}

/// Whether exactly one of the two holds: the sign of a product.
fn differ(a: bool, b: bool) -> bool
    ensures { result ≡ differ a b }
{
    a != b
}

/// The greatest integer that is at most `num / den`.
fn rounded_down(num: i128, den: u128) -> i128
    requires numerator { unsigned_abs num ≤ largest }
    requires denominator { 0 < den }
    ensures value { result ≡ floor_div num den }
    ensures fits { unsigned_abs result ≤ largest }
{
    if num < 0 {
        -(quotient(num.unsigned_abs() - 1, den) as i128) - 1
    } else {
        quotient(num.unsigned_abs(), den) as i128
    }
}

impl Frac {
    /// `num / den` in lowest terms; None where `den` is 0 or the value isn't a number.
    pub fn of(num: i128, den: i128) -> Option<Frac>
        ensures number { IsSome result ↔ ((den ≢ pos 0) × IsNumber (ratio num den)) }
        ensures value { IfSome result (λ q. q ≡ ratio num den) }
    {
        if den == 0 {
            return None;
        }
        let n = num.unsigned_abs();
        let d = den.unsigned_abs();
        let common = greatest_divisor(n, d);
        let size = quotient(n, common);
        let below = quotient(d, common);
        if size > LARGEST {
            return None;
        }
        if below > LARGEST {
            return None;
        }
        Some(Frac {
            num: signed(differ(num < 0, den < 0), size),
            den: below,
        })
    }

    /// `1 / den`; None where `den` is 0 or above M.
    pub fn one_over(den: u128) -> Option<Frac>
        ensures { SomeIff result ((0 < den) × (den ≤ largest)) (over (pos 1) den) }
    {
        if den == 0 || den > LARGEST {
            return None;
        }
        Some(Frac { num: 1, den })
    }

    /// An integer of at most 64 bits.
    pub fn whole(n: i64) -> Frac
        ensures { result ≡ whole n }
    {
        Frac::integer(n as i128)
    }

    /// An integer from -M to M.
    pub fn integer(n: i128) -> Frac
        requires fits { unsigned_abs n ≤ largest }
        ensures value { result ≡ whole n }
    {
        Frac { num: n, den: 1 }
    }

    /// The numerator in lowest terms, from -M to M.
    pub fn num(self) -> i128
        ensures numerator { result ≡ self.numerator }
        ensures number { IsNumber self }
    {
        self.num
    }

    /// The denominator in lowest terms, from 1 to M.
    pub fn den(self) -> i128
        ensures denominator { result ≡ pos (denominator self) }
        ensures number { IsNumber self }
    {
        self.den as i128
    }

    /// The sum, or Wide where the least common multiple of the denominators, a numerator over it or their sum passes M.
    pub fn add(self, other: Frac) -> Result<Frac, Wide>
        ensures sum { IfOk result (λ q. q ≡ outcome Sum self other) }
        ensures wide { IsErr result ↔ IsTrue (is_wide Sum self other) }
        ensures named { IfErr result (λ w. w ≡ record { op = Op.Add; a = self; b = other }) }
    {
        match self.sum(other) {
            Some(sum) => Ok(sum),
            None => Err(Wide::new(Op::Add, self, other)),
        }
    }

    /// The sum with the negated operand, or Wide where that sum is; the operands are named as they were handed in.
    pub fn sub(self, other: Frac) -> Result<Frac, Wide>
        ensures difference { IfOk result (λ q. q ≡ outcome Difference self other) }
        ensures wide { IsErr result ↔ IsTrue (is_wide Difference self other) }
        ensures named { IfErr result (λ w. w ≡ record { op = Op.Sub; a = self; b = other }) }
    {
        match self.sum(other.neg()) {
            Some(difference) => Ok(difference),
            None => Err(Wide::new(Op::Sub, self, other)),
        }
    }

    /// The product, or Wide where its numerator or denominator in lowest terms passes M.
    pub fn mul(self, other: Frac) -> Result<Frac, Wide>
        ensures product { IfOk result (λ q. q ≡ outcome Product self other) }
        ensures wide { IsErr result ↔ IsTrue (is_wide Product self other) }
        ensures named { IfErr result (λ w. w ≡ record { op = Op.Mul; a = self; b = other }) }
    {
        match self.product(other) {
            Some(product) => Ok(product),
            None => Err(Wide::new(Op::Mul, self, other)),
        }
    }

    /// The product with the reciprocal, or Wide where that product is. The divisor isn't 0.
    pub fn div(self, other: Frac) -> Result<Frac, Wide>
        requires nonzero { other.numerator ≢ pos 0 }
        ensures quotient { IfOk result (λ q. q ≡ outcome Quotient self other) }
        ensures wide { IsErr result ↔ IsTrue (is_wide Quotient self other) }
        ensures named { IfErr result (λ w. w ≡ record { op = Op.Div; a = self; b = other }) }
    {
        match self.product(other.turned()) {
            Some(quotient) => Ok(quotient),
            None => Err(Wide::new(Op::Div, self, other)),
        }
    }

    /// Whether it is 0.
    #[tactic(auto, using(crate::proofs::Zero::is_not_zero))]
    pub fn is_zero(self) -> bool
        ensures zero { result ≡ is_zero self }
        ensures nonzero { result ≡ false → self.numerator ≢ pos 0 }
    {
        self == Frac::whole(0)
    }

    /// The number with the other sign.
    pub fn neg(self) -> Frac
        ensures { result ≡ neg_ℚ self }
    {
        Frac {
            num: -self.num,
            den: self.den,
        }
    }

    /// The greatest integer that is at most this number.
    pub fn floor(self) -> Frac
        ensures { result ≡ whole (floor self) }
    {
        if self.den == 1 {
            return self;
        }
        Frac {
            num: rounded_down(self.num, self.den),
            den: 1,
        }
    }

    /// The least integer that is at least this number.
    pub fn ceil(self) -> Frac
        ensures { result ≡ whole (ceiling self) }
    {
        self.neg().floor().neg()
    }

    /// d/n of n/d.
    fn turned(self) -> Frac
        requires { self.numerator ≢ pos 0 }
        ensures { result ≡ reciprocal self }
    {
        Frac {
            num: signed(self.num < 0, self.den),
            den: self.num.unsigned_abs(),
        }
    }

    fn sum(self, other: Frac) -> Option<Frac>
        ensures { SomeIff result (IsFalse (is_wide_sum self other)) (outcome Sum self other) }
    {
        if self.den == 1 && other.den == 1 {
            let num = sum_within(self.num, other.num)?;
            Some(Frac { num, den: 1 })
        } else {
            self.sum_over_multiple(other)
        }
    }

    /// The sum over the least common multiple of the denominators. What the sum and that multiple share divides the
    /// greatest common divisor of the denominators, so that is all that has to be taken out. It stays out of line: the sum
    /// of whole numbers is short then.
    #[inline(never)]
    fn sum_over_multiple(self, other: Frac) -> Option<Frac>
        ensures { SomeIff result (IsFalse (is_wide_sum self other)) (outcome Sum self other) }
    {
        let common = greatest_divisor(self.den, other.den);
        let own = quotient(self.den, common);
        let others = quotient(other.den, common);
        let multiple = product_within(own, other.den)?;
        let left = scaled_within(self.num, others)?;
        let right = scaled_within(other.num, own)?;
        let num = sum_within(left, right)?;
        if common == 1 {
            return Some(Frac { num, den: multiple });
        }
        let shared = greatest_divisor(num.unsigned_abs(), common);
        Some(Frac {
            num: divided(num, shared),
            den: quotient(multiple, shared),
        })
    }

    fn product(self, other: Frac) -> Option<Frac>
        ensures { SomeIff result (IsFalse (is_wide_product self other)) (outcome Product self other) }
    {
        if self.den == 1 && other.den == 1 {
            let negative = differ(self.num < 0, other.num < 0);
            let size = product_within(self.num.unsigned_abs(), other.num.unsigned_abs())?;
            Some(Frac {
                num: signed(negative, size),
                den: 1,
            })
        } else {
            self.reduced_product(other)
        }
    }

    /// The product with what each numerator shares with the other's denominator taken out before: nothing else is shared.
    /// It stays out of line: the product of whole numbers is short then.
    #[inline(never)]
    fn reduced_product(self, other: Frac) -> Option<Frac>
        ensures { SomeIff result (IsFalse (is_wide_product self other)) (outcome Product self other) }
    {
        let negative = differ(self.num < 0, other.num < 0);
        let a = self.num.unsigned_abs();
        let c = other.num.unsigned_abs();
        let left = greatest_divisor(a, other.den);
        let right = greatest_divisor(c, self.den);
        let own = quotient(a, left);
        let others = quotient(c, right);
        let own_den = quotient(self.den, right);
        let others_den = quotient(other.den, left);
        let size = product_within(own, others)?;
        let den = product_within(own_den, others_den)?;
        Some(Frac {
            num: signed(negative, size),
            den,
        })
    }

    /// How the two compare; by cross products where the denominators differ.
    fn order(self, other: Frac) -> Ordering
        ensures { result ≡ fraction_cmp self other }
    {
        if self.den == other.den {
            return self.num.cmp(&other.num);
        }
        let a = self.num.unsigned_abs();
        let c = other.num.unsigned_abs();
        if self.num < 0 {
            if other.num < 0 {
                cmp_products(c, self.den, a, other.den)
            } else {
                Ordering::Less
            }
        } else if other.num < 0 {
            Ordering::Greater
        } else {
            cmp_products(a, other.den, c, self.den)
        }
    }
}

impl PartialEq for Frac {
    ghost use Rattle.nz_fractions.specs.Fraction.{fraction_eq};
    ghost use Rattle.nz_fractions.proofs.Order.{fraction_eq_partial};

    ghost eq = { fraction_eq };

    ghost laws = { fraction_eq_partial };

    fn eq(&self, other: &Frac) -> bool {
        self.num == other.num && self.den == other.den
    }
}

impl Eq for Frac {
    ghost use Rattle.nz_fractions.proofs.Order.{fraction_eq_equiv};

    ghost laws = { fraction_eq_equiv };
}

impl PartialOrd for Frac {
    ghost use Rattle.std.specs.Ordering.{as_partial_cmp};
    ghost use Rattle.nz_fractions.specs.Fraction.{fraction_cmp};
    ghost use Rattle.nz_fractions.proofs.Order.{fraction_cmp_partial};

    ghost partial_cmp = { as_partial_cmp fraction_cmp };

    ghost laws = { fraction_cmp_partial };

    fn partial_cmp(&self, other: &Frac) -> Option<Ordering> {
        Some(self.cmp(other))
    }
}

impl Ord for Frac {
    ghost use Rattle.std.specs.Prelude.{refl};
    ghost use Rattle.nz_fractions.specs.Fraction.{fraction_cmp};
    ghost use Rattle.nz_fractions.proofs.Order.{fraction_cmp_total, fraction_eq-cmp};

    ghost cmp = { fraction_cmp };

    ghost total = { fraction_cmp_total };

    ghost matches_partial_cmp = { λ x y. refl };

    ghost matches_eq = { fraction_eq-cmp };

    fn cmp(&self, other: &Frac) -> Ordering {
        self.order(*other)
    }
}

impl Hash for Frac {
    ghost use Rattle.nz_frac.specs.Hashed.{hashed, hashed-alike};

    ghost hash_input = { hashed };

    ghost respects_eq = { hashed-alike };

    fn hash<H: Hasher>(&self, state: &mut H) {
        self.num.hash(state);
        self.den.hash(state);
    }
}
