//! What is known of a term, by its head and by what is known of its arguments.
ghost use Rattle.std.specs.Prelude.{◌≡◌, ◌≢◌, ◌^◌, ◌<◌, ◌≤◌, ◌&&◌, ◌||◌, List, length, map, All, IsTrue, Some, false, not, pos};
ghost use Rattle.nz_spec.specs.terms.Term.{place_limit};
ghost use Rattle.nz_fractions.specs.Fraction.{exceeds, whole};
ghost use Rattle.nz_spec.specs.terms.Linear.{are_divisors, divides_by_constants, folded, folded_step, head_constant, is_linear_node, variable_count};
ghost use Rattle.nz_spec.specs.terms.Table.{listed_term, terms_at};
ghost use Rattle.nz_spec.specs.terms.Term.{Term, apply, decimal_number, difference, head_fits, is_integral, over_int, decimal_value};
ghost use Rattle.nz_term.specs.Facts.{are_linear_at, constants_at, fact_of, folded_all, hold_integer_at, is_divisor};
ghost use Rattle.nz_frac.specs.Operations.{operator_of as arithmetic_of};
ghost use Rattle.nz_term.specs.Heads.{head_of, operator_of};

use crate::fact_table::Facts;
use crate::heads::{Head, Operator};
use crate::nodes::TermId;
use nz_frac::{Frac, Op};
use nz_spec::term::{decimals_are_numbers, numerals_are_whole};

/// What is known of a term.
#[derive(Clone, Copy, Debug)]
pub(crate) struct Fact {
    /// The value of a constant term; none of another.
    pub(crate) constant: Option<Frac>,
    pub(crate) is_linear: bool,
    /// Whether the term, or one that it is made of, is a unit of sort `Int`.
    pub(crate) holds_integer: bool,
}

/// What is known of the term of this head over the terms of these numbers, where this is known of all terms.
pub(crate) fn fact_over(facts: &Facts, head: Head<'_>, kids: &[TermId]) -> Fact
    requires within { All (λ k. k < length facts.now) kids.now }
    requires fits { IsTrue (head_fits (head_of head)) }
    ensures fact { (ts : List Term) → facts.now ≡ map fact_of ts → result ≡ fact_of (apply (head_of head.entry) (terms_at (listed_term ts) kids.now)) }
{
    Fact {
        constant: constant_over(facts, head, kids),
        is_linear: is_linear_over(facts, head, kids),
        holds_integer: holds_integer_over(facts, head, kids),
    }
}

/// The value of a head over these terms, where it is a constant term.
fn constant_over(facts: &Facts, head: Head<'_>, kids: &[TermId]) -> Option<Frac>
    requires within { All (λ k. k < length facts.now) kids.now }
    requires fits { IsTrue (head_fits (head_of head)) }
    ensures constant { result ≡ head_constant (head_of head.entry) (constants_at facts.now kids.now) }
{
    match head {
        Head::Integer(n) => integer(n),
        Head::Decimal(digits, places) => decimal(digits, places),
        Head::Constant(_) | Head::Parameter(_, _) => None,
        Head::Operator(operator) => operated(facts, operator, kids),
    }
}

/// The value of an operator over these terms, where it is a constant term.
fn operated(facts: &Facts, operator: Operator, kids: &[TermId]) -> Option<Frac>
    requires within { All (λ k. k < length facts.now) kids.now }
    ensures constant { result ≡ head_constant (operator_of operator) (constants_at facts.now kids.now) }
{
    match operator {
        Operator::ToReal => match kids {
            [kid] => facts.constant(*kid),
            _ => None,
        },
        Operator::Sum(_) => folded(Op::Add, facts, kids),
        Operator::Difference(_) => difference(facts, kids),
        Operator::Product(_) => folded(Op::Mul, facts, kids),
        Operator::Quotient => folded(Op::Div, facts, kids),
        _ => None,
    }
}

/// The number of a numeral.
fn integer(n: u128) -> Option<Frac>
    requires fits { IsTrue (not (exceeds n)) }
    ensures number { result ≡ Some (whole (pos n)) }
{
    numerals_are_whole();
    decimal(n, 0)
}

/// The number of a decimal: its digits, and how many of them stand after the point.
fn decimal(digits: u128, places: usize) -> Option<Frac>
    requires fits { IsTrue (head_fits (decimal_number digits places)) }
    ensures number { result ≡ Some (decimal_value digits places) }
{
    decimals_are_numbers();
    Frac::of(signed(digits), power_of_ten(places))
}

/// The same number.
fn signed(number: u128) -> i128
    requires fits { number < 2 ^ 127 }
    ensures same { result ≡ pos number }
{
    number as i128
}

/// A power of ten, up to that of the most places that a decimal has.
#[tactic(auto, using(crate::proofs::Numbers::power_below))]
fn power_of_ten(places: usize) -> i128
    requires fits { places ≤ place_limit }
    ensures power { result ≡ pos (10 ^ places) }
{
    10_u128.pow(places as u32) as i128
}

/// The negation of one constant, or the difference of several, from the left.
fn difference(facts: &Facts, kids: &[TermId]) -> Option<Frac>
    requires within { All (λ k. k < length facts.now) kids.now }
    ensures difference { result ≡ head_constant (difference over_int) (constants_at facts.now kids.now) }
{
    match kids {
        [kid] => Some(facts.constant(*kid)?.neg()),
        _ => folded(Op::Sub, facts, kids),
    }
}

/// An operation over the constants of these terms, from the left; none where there are no terms, or one is no constant.
fn folded(op: Op, facts: &Facts, kids: &[TermId]) -> Option<Frac>
    requires within { All (λ k. k < length facts.now) kids.now }
    ensures folded { result ≡ folded_all (arithmetic_of op) (constants_at facts.now kids.now) }
{
    match kids.split_first() {
        Some((first, others)) => folded_on(op, facts.constant(*first), facts, others),
        None => None,
    }
}

/// An operation over a constant and those of these terms, from the left; none where one is no constant.
fn folded_on(op: Op, first: Option<Frac>, facts: &Facts, kids: &[TermId]) -> Option<Frac>
    requires within { All (λ k. k < length facts.now) kids.now }
    ensures folded { result ≡ folded (arithmetic_of op) first (constants_at facts.now kids.now) }
{
    let mut value = first;
    for kid in kids {
        value = step(op, value, facts.constant(*kid));
    }
    value
}

/// An operation on two terms that are constants where they have a value.
fn step(op: Op, left: Option<Frac>, right: Option<Frac>) -> Option<Frac>
    ensures step { result ≡ folded_step (arithmetic_of op) left right }
{
    match left {
        Some(left) => match right {
            Some(right) => operation(op, left, right),
            None => None,
        },
        None => None,
    }
}

/// An operation on two constants, where its value is a number; none where it would divide by zero.
fn operation(op: Op, left: Frac, right: Frac) -> Option<Frac>
    ensures operation { result ≡ folded_step (arithmetic_of op) (Some left) (Some right) }
{
    if op.is_undefined(right) {
        return None;
    }
    op.carry_out(left, right).ok()
}

/// Whether the term of this head over these terms is linear.
fn is_linear_over(facts: &Facts, head: Head<'_>, kids: &[TermId]) -> bool
    requires within { All (λ k. k < length facts.now) kids.now }
    ensures linear { result ≡ (is_linear_node (head_of head.entry) (constants_at facts.now kids.now) && are_linear_at facts.now kids.now) }
{
    is_linear_head(facts, head, kids) && are_linear(facts, kids)
}

/// Whether a head is linear over these terms, apart from what they are made of.
fn is_linear_head(facts: &Facts, head: Head<'_>, kids: &[TermId]) -> bool
    requires within { All (λ k. k < length facts.now) kids.now }
    ensures linear { result ≡ is_linear_node (head_of head.entry) (constants_at facts.now kids.now) }
{
    match head {
        Head::Operator(operator) => is_linear_operator(facts, operator, kids),
        _ => true,
    }
}

/// Whether an operator is linear over these terms, apart from what they are made of.
fn is_linear_operator(facts: &Facts, operator: Operator, kids: &[TermId]) -> bool
    requires within { All (λ k. k < length facts.now) kids.now }
    ensures linear { result ≡ is_linear_node (operator_of operator) (constants_at facts.now kids.now) }
{
    match operator {
        Operator::Product(_) => variables(facts, kids) < 2,
        Operator::Quotient | Operator::Div | Operator::Mod => divides_by_constants(facts, kids),
        _ => true,
    }
}

/// How many of these terms are no constants.
fn variables(facts: &Facts, kids: &[TermId]) -> usize
    requires within { All (λ k. k < length facts.now) kids.now }
    ensures count { result ≡ variable_count (constants_at facts.now kids.now) }
{
    let mut count: usize = 0;
    for kid in kids {
        if facts.constant(*kid).is_none() {
            count += 1;
        }
    }
    count
}

/// Whether each of these terms but the first is a constant other than zero.
fn divides_by_constants(facts: &Facts, kids: &[TermId]) -> bool
    requires within { All (λ k. k < length facts.now) kids.now }
    ensures divisors { result ≡ divides_by_constants (constants_at facts.now kids.now) }
{
    match kids.split_first() {
        Some((_, divisors)) => are_divisors(facts, divisors),
        None => true,
    }
}

/// Whether each of these terms is a constant other than zero.
fn are_divisors(facts: &Facts, kids: &[TermId]) -> bool
    requires within { All (λ k. k < length facts.now) kids.now }
    ensures divisors { result ≡ are_divisors (constants_at facts.now kids.now) }
{
    for kid in kids {
        if !is_divisor(facts.constant(*kid)) {
            return false;
        }
    }
    true
}

/// Whether a constant is one other than zero.
fn is_divisor(constant: Option<Frac>) -> bool
    ensures divisor { result ≡ is_divisor constant }
{
    match constant {
        Some(value) => !value.is_zero(),
        None => false,
    }
}

/// Whether each of these terms is linear.
fn are_linear(facts: &Facts, kids: &[TermId]) -> bool
    requires within { All (λ k. k < length facts.now) kids.now }
    ensures linear { result ≡ are_linear_at facts.now kids.now }
{
    for kid in kids {
        if !facts.is_linear(*kid) {
            return false;
        }
    }
    true
}

/// Whether the term of this head over these terms, or one that it is made of, is such a unit.
fn holds_integer_over(facts: &Facts, head: Head<'_>, kids: &[TermId]) -> bool
    requires within { All (λ k. k < length facts.now) kids.now }
    ensures holds { result ≡ (is_integral (head_of head.entry) || hold_integer_at facts.now kids.now) }
{
    head.is_integral() || hold_integer(facts, kids)
}

/// Whether one of these terms is a unit of sort `Int`, or made of one.
fn hold_integer(facts: &Facts, kids: &[TermId]) -> bool
    requires within { All (λ k. k < length facts.now) kids.now }
    ensures hold { result ≡ hold_integer_at facts.now kids.now }
{
    for kid in kids {
        if facts.holds_integer(*kid) {
            return true;
        }
    }
    false
}
