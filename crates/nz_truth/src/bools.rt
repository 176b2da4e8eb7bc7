//! The operators of Core on values. A number counts as `false` where a truth is meant.
ghost use Rattle.std.specs.Prelude.{◌≡◌, map};
ghost use Rattle.std.specs.List.{list_all, list_any};
ghost use Rattle.nz_spec.specs.terms.Term.{Assignment, negation as not_head, conjunction as and_head, disjunction as or_head, exclusion as xor_head, choice as ite_head, Sort, combined, excluded, is_true, head_value};
ghost use Rattle.nz_term.specs.Values.{value_of};

use crate::chains::are_equal;
use nz_term::Value;

/// Whether the value is `true`.
pub(crate) fn is_true(value: &Value) -> bool
    ensures truth { result ≡ is_true (value_of value.now) }
{
    match value {
        Value::Truth(truth) => *truth,
        Value::Number(_) => false,
    }
}

/// Whether the first argument isn't true.
pub(crate) fn negation(args: &[Value]) -> Value
    ensures value { (a : Assignment) → value_of result ≡ head_value a not_head (map value_of args.now) }
{
    match args.first() {
        Some(arg) => Value::Truth(!is_true(arg)),
        None => Value::Truth(false),
    }
}

/// Whether each argument is true; of one argument its value.
pub(crate) fn conjunction(args: &[Value]) -> Value
    ensures value { (a : Assignment) → value_of result ≡ head_value a and_head (map value_of args.now) }
{
    match args {
        [_, _, ..] => Value::Truth(are_true(args)),
        [only] => *only,
        [] => Value::Truth(true),
    }
}

/// Whether one argument is true; of one argument its value.
pub(crate) fn disjunction(args: &[Value]) -> Value
    ensures value { (a : Assignment) → value_of result ≡ head_value a or_head (map value_of args.now) }
{
    match args {
        [_, _, ..] => Value::Truth(is_one_true(args)),
        [only] => *only,
        [] => Value::Truth(false),
    }
}

/// Whether each argument is true.
fn are_true(args: &[Value]) -> bool
    ensures all { result ≡ list_all (λ v. is_true (value_of v)) args.now }
{
    args.iter().all(is_true)
}

/// Whether one argument is true.
fn is_one_true(args: &[Value]) -> bool
    ensures any { result ≡ list_any (λ v. is_true (value_of v)) args.now }
{
    args.iter().any(is_true)
}

/// Whether the first argument, and then the answer, differs from each next argument.
pub(crate) fn exclusion(args: &[Value]) -> Value
    ensures value { (a : Assignment) → value_of result ≡ head_value a xor_head (map value_of args.now) }
{
    match args.split_first() {
        Some((first, others)) => excluded(first, others),
        None => Value::Truth(false),
    }
}

/// Whether a value, and then the answer, differs from each of the others.
fn excluded(first: &Value, others: &[Value]) -> Value
    ensures value { value_of result ≡ combined excluded (value_of first.now) (map value_of others.now) }
{
    let mut value = *first;
    for other in others {
        value = Value::Truth(!are_equal(&value, other));
    }
    value
}

/// The second argument where the first is true, else the third.
pub(crate) fn choice(args: &[Value]) -> Value
    ensures value { (a : Assignment) → (s : Sort) → value_of result ≡ head_value a (ite_head s) (map value_of args.now) }
{
    match args {
        [condition, then, otherwise] => {
            if is_true(condition) {
                *then
            } else {
                *otherwise
            }
        }
        _ => Value::Truth(false),
    }
}
