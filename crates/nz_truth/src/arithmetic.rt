//! The operations that can leave the numbers, on values. A truth counts as 0 where a number is meant.
ghost use Rattle.std.specs.Prelude.{◌≡◌, map};
ghost use Rattle.nz_fractions.specs.Fraction.{whole};
ghost use Rattle.nz_spec.specs.terms.Operations.{head_operations, operations_by};
ghost use Rattle.nz_spec.specs.terms.Term.{Assignment, NumberSort, difference as minus_head, carried_out, combined, head_value, number, number_of};
ghost use Rattle.nz_frac.specs.Operations.{operator_of};
ghost use Rattle.nz_term.specs.Values.{value_of};
ghost use Rattle.nz_truth.specs.Outcomes.{IsOperated, IsOutcomeOf};

use crate::walk::Outcome;
use nz_frac::{Frac, Op};
use nz_term::Value;

/// The number that a value is.
pub(crate) fn number_of(value: &Value) -> Frac
    ensures number { result ≡ number_of (value_of value.now) }
{
    match value {
        Value::Truth(_) => Frac::whole(0),
        Value::Number(number) => *number,
    }
}

/// An integer of at most 64 bits as a value.
pub(crate) fn whole_value(n: i64) -> Value
    ensures whole { value_of result ≡ number (whole n) }
{
    Value::Number(Frac::whole(n))
}

/// An operation over all arguments, from the left; of none this value.
#[tactic(auto, unfolding(nz_fractions::specs::Fraction::first_wide))]
pub(crate) fn operated(op: Op, of_none: Value, args: &[Value]) -> Outcome
    ensures outcome { IsOperated (operator_of op) (value_of of_none) (map value_of args.now) result }
{
    match args.split_first() {
        Some((first, others)) => operated_on(op, first, others),
        None => Outcome::Value(of_none),
    }
}

/// The negation of one argument, or the difference of several, from the left.
#[tactic(auto, unfolding(nz_fractions::specs::Fraction::first_wide))]
pub(crate) fn difference(args: &[Value]) -> Outcome
    ensures outcome { (a : Assignment) → (s : NumberSort) → IsOutcomeOf (head_operations (minus_head s) (map value_of args.now)) (head_value a (minus_head s) (map value_of args.now)) result }
{
    match args {
        [only] => Outcome::Value(Value::Number(number_of(only).neg())),
        _ => operated(Op::Sub, whole_value(0), args),
    }
}

/// An operation of a value with each of the others, from the left, up to the first that leaves the numbers.
#[tactic(auto, unfolding(nz_fractions::specs::Fraction::first_wide))]
fn operated_on(op: Op, first: &Value, others: &[Value]) -> Outcome
    ensures outcome { IsOutcomeOf (operations_by (operator_of op) (value_of first.now) (map value_of others.now)) (combined (carried_out (operator_of op)) (value_of first.now) (map value_of others.now)) result }
{
    let mut value = *first;
    for other in others {
        match op.carry_out(number_of(&value), number_of(other)) {
            Ok(number) => value = Value::Number(number),
            Err(wide) => return Outcome::Wide(wide),
        }
    }
    Outcome::Value(value)
}
