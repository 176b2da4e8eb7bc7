//! What a head comes to over the values of its arguments.
ghost use Rattle.std.specs.Prelude.{◌≡◌, [], map};
ghost use Rattle.nz_spec.specs.terms.Operations.{head_operations};
ghost use Rattle.nz_spec.specs.terms.Term.{Assignment, are_chained, default_value, head_value, truth};
ghost use Rattle.nz_term.specs.Constants.{sort_of};
ghost use Rattle.nz_term.specs.Heads.{head_of, operator_of};
ghost use Rattle.nz_term.specs.Values.{value_of};
ghost use Rattle.nz_truth.specs.Outcomes.{IsGiven, IsOutcomeOf};
ghost use Rattle.nz_truth.specs.Relations.{relation_of};

use crate::arithmetic::{difference, operated, whole_value};
use crate::bools::{choice, conjunction, disjunction, exclusion, negation};
use crate::chains::{Relation, are_chained};
use crate::integers::{is_int, magnitude, quotient, remainder, to_int, to_real};
use crate::walk::Outcome;
use nz_frac::Op;
use nz_term::{Head, Operator, Sort, Value};

/// What a head comes to; a constant and a number have the value that is given.
#[tactic(auto, unfolding(nz_fractions::specs::Fraction::first_wide))]
pub(crate) fn outcome_over(head: Head<'_>, given: Value, args: &[Value]) -> Outcome
    ensures outcome { (a : Assignment) → IsGiven a (head_of head.entry) (value_of given) → IsOutcomeOf (head_operations (head_of head.entry) (map value_of args.now)) (head_value a (head_of head.entry) (map value_of args.now)) result }
{
    match head {
        Head::Constant(_) => Outcome::Value(given),
        Head::Parameter(_, sort) => Outcome::Value(default_value(sort)),
        Head::Integer(_) => Outcome::Value(given),
        Head::Decimal(_, _) => Outcome::Value(given),
        Head::Operator(operator) => outcome_of(operator, args),
    }
}

/// What an operator comes to.
#[tactic(auto, unfolding(nz_fractions::specs::Fraction::first_wide))]
fn outcome_of(operator: Operator, args: &[Value]) -> Outcome
    ensures outcome { (a : Assignment) → IsOutcomeOf (head_operations (operator_of operator) (map value_of args.now)) (head_value a (operator_of operator) (map value_of args.now)) result }
{
    match operator {
        Operator::Sum(_) => operated(Op::Add, whole_value(0), args),
        Operator::Difference(_) => difference(args),
        Operator::Product(_) => operated(Op::Mul, whole_value(1), args),
        Operator::Quotient => operated(Op::Div, whole_value(1), args),
        Operator::True => Outcome::Value(Value::Truth(true)),
        Operator::False => Outcome::Value(Value::Truth(false)),
        Operator::Not => Outcome::Value(negation(args)),
        Operator::And => Outcome::Value(conjunction(args)),
        Operator::Or => Outcome::Value(disjunction(args)),
        Operator::Xor => Outcome::Value(exclusion(args)),
        Operator::Equal => chain(Relation::Equal, args),
        Operator::Ite(_) => Outcome::Value(choice(args)),
        Operator::Less => chain(Relation::Less, args),
        Operator::AtMost => chain(Relation::AtMost, args),
        Operator::Div => Outcome::Value(quotient(args)),
        Operator::Mod => Outcome::Value(remainder(args)),
        Operator::Abs => Outcome::Value(magnitude(args)),
        Operator::ToReal => Outcome::Value(to_real(args)),
        Operator::ToInt => Outcome::Value(to_int(args)),
        Operator::IsInt => Outcome::Value(is_int(args)),
    }
}

/// Whether each argument stands in the relation to the next.
#[tactic(auto, unfolding(nz_fractions::specs::Fraction::first_wide))]
fn chain(relation: Relation, args: &[Value]) -> Outcome
    ensures outcome { IsOutcomeOf [] (truth (are_chained (relation_of relation) (map value_of args.now))) result }
{
    Outcome::Value(Value::Truth(are_chained(relation, args)))
}

/// What a parameter of this sort stands for, and a constant that nothing is given for.
pub fn default_value(sort: Sort) -> Value
    ensures default { value_of result ≡ default_value (sort_of sort) }
{
    match sort {
        Sort::Bool => Value::Truth(false),
        Sort::Int => whole_value(0),
        Sort::Real => whole_value(0),
    }
}
