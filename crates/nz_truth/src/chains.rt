//! Relations of values, and chains of them: each argument stands in the relation to the next.
ghost use Rattle.std.specs.Prelude.{◌≡◌, map};
ghost use Rattle.nz_spec.specs.terms.Term.{are_chained, are_equal, is_at_most, is_less};
ghost use Rattle.nz_term.specs.Values.{value_of};
ghost use Rattle.nz_truth.specs.Relations.{relation_of};

use crate::arithmetic::number_of;
use crate::bools::is_true;
use nz_term::Value;

/// A chainable relation.
#[derive(Clone, Copy, Debug)]
pub(crate) enum Relation {
    Equal,
    Less,
    AtMost,
}

/// Whether each value stands in the relation to the next.
pub(crate) fn are_chained(relation: Relation, args: &[Value]) -> bool
    ensures chained { result ≡ are_chained (relation_of relation) (map value_of args.now) }
{
    for i in 0..args.len().saturating_sub(1) {
        if !are_related(relation, &args[i], &args[i + 1]) {
            return false;
        }
    }
    true
}

/// Whether one value stands in the relation to another.
fn are_related(relation: Relation, left: &Value, right: &Value) -> bool
    ensures related { result ≡ relation_of relation (value_of left.now) (value_of right.now) }
{
    match relation {
        Relation::Equal => are_equal(left, right),
        Relation::Less => is_less(left, right),
        Relation::AtMost => is_at_most(left, right),
    }
}

/// Whether two values are equal, as the sort of the left one has it.
pub(crate) fn are_equal(left: &Value, right: &Value) -> bool
    ensures equal { result ≡ are_equal (value_of left.now) (value_of right.now) }
{
    match left {
        Value::Truth(true) => is_true(right),
        Value::Truth(false) => !is_true(right),
        Value::Number(number) => *number == number_of(right),
    }
}

/// Whether one number is below another.
fn is_less(left: &Value, right: &Value) -> bool
    ensures less { result ≡ is_less (value_of left.now) (value_of right.now) }
{
    number_of(left) < number_of(right)
}

/// Whether one number is at most another.
fn is_at_most(left: &Value, right: &Value) -> bool
    ensures at_most { result ≡ is_at_most (value_of left.now) (value_of right.now) }
{
    number_of(left) <= number_of(right)
}
