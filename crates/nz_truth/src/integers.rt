//! The operators on integers, which never leave the numbers: `div`, `mod`, `abs`, and those that round.
ghost use Rattle.std.specs.Prelude.{◌≡◌, ◌≤◌, map, unsigned_abs};
ghost use Rattle.nz_fractions.specs.Fraction.{largest, whole};
ghost use Rattle.nz_spec.specs.terms.Term.{Assignment, integer_quotient as div_head, modulus as mod_head, magnitude as abs_head, to_real as to_real_head, to_int as to_int_head, is_int as is_int_head, combined, divided, div_of, head_value, integer_of, mod_of, whole_number};
ghost use Rattle.nz_term.specs.Values.{value_of};

use crate::arithmetic::{number_of, whole_value};
use nz_frac::Frac;
use nz_term::Value;

/// The quotient of the first argument by each next one, from the left, rounded so that no remainder is below 0.
pub(crate) fn quotient(args: &[Value]) -> Value
    ensures value { (a : Assignment) → value_of result ≡ head_value a div_head (map value_of args.now) }
{
    match args.split_first() {
        Some((first, others)) => quotient_by(first, others),
        None => whole_value(1),
    }
}

/// The quotient of a value by each of the others, from the left.
fn quotient_by(first: &Value, others: &[Value]) -> Value
    ensures value { value_of result ≡ combined divided (value_of first.now) (map value_of others.now) }
{
    let mut value = *first;
    for other in others {
        value = whole(divided(integer_of(&value), integer_of(other)));
    }
    value
}

/// The remainder of two arguments, from 0 up to the size of the divisor.
pub(crate) fn remainder(args: &[Value]) -> Value
    ensures value { (a : Assignment) → value_of result ≡ head_value a mod_head (map value_of args.now) }
{
    match args {
        [left, right] => whole(remaining(integer_of(left), integer_of(right))),
        _ => whole_value(0),
    }
}

/// The size of an integer.
pub(crate) fn magnitude(args: &[Value]) -> Value
    ensures value { (a : Assignment) → value_of result ≡ head_value a abs_head (map value_of args.now) }
{
    match args {
        [arg] => whole(integer_of(arg).abs()),
        _ => whole_value(0),
    }
}

/// The same number, of sort Real.
pub(crate) fn to_real(args: &[Value]) -> Value
    ensures value { (a : Assignment) → value_of result ≡ head_value a to_real_head (map value_of args.now) }
{
    match args {
        [arg] => *arg,
        _ => whole_value(0),
    }
}

/// The greatest integer that is at most the number.
pub(crate) fn to_int(args: &[Value]) -> Value
    ensures value { (a : Assignment) → value_of result ≡ head_value a to_int_head (map value_of args.now) }
{
    match args {
        [arg] => Value::Number(number_of(arg).floor()),
        _ => whole_value(0),
    }
}

/// Whether the number is an integer.
pub(crate) fn is_int(args: &[Value]) -> Value
    ensures value { (a : Assignment) → value_of result ≡ head_value a is_int_head (map value_of args.now) }
{
    match args {
        [arg] => Value::Truth(number_of(arg) == number_of(arg).floor()),
        _ => Value::Truth(false),
    }
}

/// The integer that a value of sort Int is.
fn integer_of(value: &Value) -> i128
    ensures integer { result ≡ integer_of (value_of value.now) }
    ensures fits { unsigned_abs result ≤ largest }
{
    number_of(value).floor().num()
}

/// An integer as a value.
fn whole(n: i128) -> Value
    requires fits { unsigned_abs n ≤ largest }
    ensures whole { value_of result ≡ whole_number n }
{
    Value::Number(Frac::integer(n))
}

/// The quotient of two integers. By 0 it is that of the definition: 0, or -1 of a number below 0.
fn divided(m: i128, n: i128) -> i128
    requires fits { unsigned_abs m ≤ largest }
    ensures quotient { result ≡ div_of m n }
    ensures fits { unsigned_abs result ≤ largest }
{
    if n == 0 {
        return if m < 0 { -1 } else { 0 };
    }
    m.div_euclid(n)
}

/// The remainder of two integers; by 0 it is the number itself.
fn remaining(m: i128, n: i128) -> i128
    requires left { unsigned_abs m ≤ largest }
    requires right { unsigned_abs n ≤ largest }
    ensures remainder { result ≡ mod_of m n }
    ensures fits { unsigned_abs result ≤ largest }
{
    if n == 0 {
        return m;
    }
    m.rem_euclid(n)
}
