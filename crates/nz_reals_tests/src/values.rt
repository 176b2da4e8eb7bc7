//! Literals judged at values.
use nz_frac::Frac;
use nz_lin::Bound;
use nz_log::Literal;
use nz_term::{Assign, Value};

/// Whether a literal is true at these values.
pub fn holds(literal: Literal<'_>, values: &Assign) -> bool {
    match literal {
        Literal::Term(_) => false,
        Literal::AtMost(bound, sign) => is_within(bound, values).is_some_and(|within| within
            == sign),
    }
}

/// Whether a sum is within its bound at these values, where each unit has a number.
fn is_within(bound: &Bound, values: &Assign) -> Option<bool> {
    let sum = sum_at(bound, values)?;
    Some(if bound.is_strict() {
        sum < bound.limit()
    } else {
        sum <= bound.limit()
    })
}

/// The value of a sum, where each unit has a number.
fn sum_at(bound: &Bound, values: &Assign) -> Option<Frac> {
    let mut sum = Frac::whole(0);
    for part in bound.parts() {
        let value = values.value(part.unit)?;
        sum = with_product(sum, part.coefficient, number_of(&value)?)?;
    }
    Some(sum)
}

/// The number that a value is.
fn number_of(value: &Value) -> Option<Frac> {
    match value {
        Value::Number(number) => Some(*number),
        Value::Truth(_) => None,
    }
}

/// A number, and a product more.
fn with_product(sum: Frac, left: Frac, right: Frac) -> Option<Frac> {
    let product = left.mul(right).ok()?;
    sum.add(product).ok()
}
