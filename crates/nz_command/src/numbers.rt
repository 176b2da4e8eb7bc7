//! Numerals and decimals: their numbers, and the bounds on numbers, which hold anywhere in a command.
ghost use Rattle.std.specs.Prelude.{◌≡◌, ◌<◌, ◌≤◌, ◌||◌, ◌++◌, IfSome, IfNone, nat_lt, length, option_map, is_none};
ghost use Rattle.nz_sexpr.specs.View.{token_view, view, seen};
ghost use Rattle.nz_script.specs.text.Tree.{before_point as front_of, after_point as places_of};
ghost use Rattle.nz_script.specs.text.Bounds as bounds;
ghost use Rattle.nz_spec.specs.terms.Term.{place_limit};
ghost use Rattle.nz_fractions.specs.Fraction as fractions;
ghost use Rattle.nz_script.specs.commands.Expression.{written_integer, written_decimal};
ghost use Rattle.nz_script.specs.commands.Parse.{fitting, token_number};
ghost use Rattle.nz_command.specs.View.{number_view};

use crate::expression::Number;
use nz_sexpr::{Token, Tree};

/// The greatest numerator and the greatest denominator.
const GREATEST_NUMBER: u128 = 0x7fff_ffff_ffff_ffff_ffff_ffff_ffff_ffff;

/// Up to this number, one more byte leaves 64 bits enough.
const NARROW_LIMIT: u64 = (u64::MAX - 255) / 10;

/// How many digits a decimal may have after its point.
const PLACE_LIMIT: usize = 38;

// ---- Bounds

/// What is wrong with the numerals and decimals of a command, wherever they stand in it.
#[derive(Clone, Copy, Debug, PartialEq, Eq)]
pub struct NumberFaults {
    /// The digits of one of them, the point left out, spell a number above the greatest.
    pub wide: bool,
    /// A decimal has too many places.
    pub long: bool,
}

impl NumberFaults {
    const NONE: NumberFaults = NumberFaults {
        wide: false,
        long: false,
    };

    fn and(self, other: NumberFaults) -> NumberFaults
        ensures wide { result.wide ≡ (self.wide || other.wide) }
        ensures long { result.long ≡ (self.long || other.long) }
    {
        NumberFaults {
            wide: self.wide || other.wide,
            long: self.long || other.long,
        }
    }
}

/// What is wrong with the numerals and decimals of a tree, at any depth.
#[cycle(faults)]
pub fn number_faults(tree: &Tree) -> NumberFaults
    ensures wide { result.wide ≡ bounds.has_token bounds.is_wide_token (view tree.now) }
    ensures long { result.long ≡ bounds.has_token bounds.is_long_decimal (view tree.now) }
{
    match tree {
        Tree::Word(token) => token_faults(token),
        Tree::List(list) => list_faults(list.as_slice()),
    }
}

#[cycle(faults)]
fn list_faults(list: &[Tree]) -> NumberFaults
    ensures wide { result.wide ≡ bounds.have_token bounds.is_wide_token (seen list.now) }
    ensures long { result.long ≡ bounds.have_token bounds.is_long_decimal (seen list.now) }
{
    let mut found = NumberFaults::NONE;
    for tree in list {
        found = found.and(number_faults(tree));
    }
    found
}

fn token_faults(token: &Token) -> NumberFaults
    ensures wide { result.wide ≡ bounds.is_wide_token (token_view token.now) }
    ensures long { result.long ≡ bounds.is_long_decimal (token_view token.now) }
{
    match token {
        Token::Numeral(digits) => NumberFaults {
            wide: numeral_value(digits.as_bytes()).is_none(),
            long: false,
        },
        Token::Decimal(bytes) => decimal_faults(bytes.as_bytes()),
        _ => NumberFaults::NONE,
    }
}

fn decimal_faults(bytes: &[u8]) -> NumberFaults
    ensures wide { result.wide ≡ bounds.are_wide (bounds.decimal_digits bytes.now) }
    ensures long { result.long ≡ nat_lt place_limit (length (places_of bytes.now)) }
{
    let (front, places) = around_point(bytes);
    NumberFaults {
        wide: decimal_value(front, places).is_none(),
        long: places.len() > PLACE_LIMIT,
    }
}

// ---- Numbers

/// The number of a numeral or a decimal.
pub(crate) fn token_number(token: &Token) -> Option<Number>
    ensures number { option_map number_view result ≡ token_number (token_view token.now) }
{
    match token {
        Token::Numeral(digits) => Some(numeral(digits.as_bytes())),
        Token::Decimal(bytes) => Some(decimal(bytes.as_bytes())),
        _ => None,
    }
}

/// The number of a numeral.
fn numeral(digits: &[u8]) -> Number
    ensures number { number_view result ≡ fitting (written_integer (bounds.digits_value digits.now)) }
{
    match numeral_value(digits) {
        Some(value) => Number::Integer(value),
        None => Number::OutOfBounds,
    }
}

/// The number that the digits of a numeral spell, or none where it is above the greatest.
pub(crate) fn numeral_value(digits: &[u8]) -> Option<u128>
    ensures value { IfSome result (λ value. value ≡ bounds.digits_value digits.now) }
    ensures bounded { IfSome result (λ value. value ≤ fractions.largest) }
    ensures wide { IfNone result (fractions.largest < bounds.digits_value digits.now) }
{
    value_onto(0, digits)
}

fn decimal(bytes: &[u8]) -> Number
    ensures number { number_view result ≡ fitting (written_decimal (bounds.digits_value (bounds.decimal_digits bytes.now)) (length (places_of bytes.now))) }
{
    let (front, places) = around_point(bytes);
    if places.len() > PLACE_LIMIT {
        return Number::OutOfBounds;
    }
    match decimal_value(front, places) {
        Some(digits) => Number::Decimal(digits, places.len()),
        None => Number::OutOfBounds,
    }
}

/// The number that the digits before and after a point spell, or none where it is above the greatest.
fn decimal_value(front: &[u8], places: &[u8]) -> Option<u128>
    ensures value { IfSome result (λ value. value ≡ bounds.digits_value (front.now ++ places.now)) }
    ensures bounded { IfSome result (λ value. value ≤ fractions.largest) }
    ensures wide { IfNone result (fractions.largest < bounds.digits_value (front.now ++ places.now)) }
{
    let start = value_onto(0, front)?;
    value_onto(start, places)
}

/// The bytes before the first point, and those after it.
fn around_point(bytes: &[u8]) -> (&[u8], &[u8])
    ensures front { result.0.now ≡ front_of bytes.now }
    ensures places { result.1.now ≡ places_of bytes.now }
{
    for (index, byte) in bytes.iter().enumerate() {
        if *byte == b'.' {
            return (&bytes[..index], &bytes[index + 1..]);
        }
    }
    (bytes, &[])
}

/// The number that the digits spell after those that spell `start`, or none where it is above the greatest.
fn value_onto(start: u128, digits: &[u8]) -> Option<u128>
    requires { start ≤ fractions.largest }
    ensures value { IfSome result (λ value. value ≡ bounds.value_onto start digits.now) }
    ensures bounded { IfSome result (λ value. value ≤ fractions.largest) }
    ensures wide { IfNone result (fractions.largest < bounds.value_onto start digits.now) }
{
    match u64::try_from(start) {
        Ok(start) => {
            let (value, rest) = narrow_value_onto(start, digits);
            wide_value_onto(u128::from(value), rest)
        }
        Err(_) => wide_value_onto(start, digits),
    }
}

/// The number that the digits spell after those that spell `start`, as far as 64 bits are sure to hold it, and the digits that are
/// left. At most nineteen digits leave none.
fn narrow_value_onto(start: u64, digits: &[u8]) -> (u64, &[u8])
    ensures value { bounds.value_onto start digits.now ≡ bounds.value_onto result.0 result.1.now }
{
    let mut value = start;
    for (index, byte) in digits.iter().enumerate() {
        if value > NARROW_LIMIT {
            return (value, &digits[index..]);
        }
        value = 10 * value + u64::from(byte.saturating_sub(b'0'));
    }
    (value, &[])
}

/// The same as `value_onto`, in 128 bits.
fn wide_value_onto(start: u128, digits: &[u8]) -> Option<u128>
    requires { start ≤ fractions.largest }
    ensures value { IfSome result (λ value. value ≡ bounds.value_onto start digits.now) }
    ensures bounded { IfSome result (λ value. value ≤ fractions.largest) }
    ensures wide { IfNone result (fractions.largest < bounds.value_onto start digits.now) }
{
    let mut value = start;
    for byte in digits {
        if value > GREATEST_NUMBER / 10 {
            return None;
        }
        value = 10 * value + u128::from(byte.saturating_sub(b'0'));
        if value > GREATEST_NUMBER {
            return None;
        }
    }
    Some(value)
}
