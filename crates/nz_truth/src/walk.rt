//! What terms come to, one after another, each behind its arguments.
ghost use Rattle.std.specs.Prelude.{◌≡◌, ◌<◌, length, map, All, IfOk, OnOk, slice_get};
ghost use Rattle.nz_spec.specs.terms.Term as spec;
ghost use Rattle.nz_spec.specs.terms.Term.{Assignment, apply};
ghost use Rattle.nz_spec.specs.terms.Table.{Node, term_in, assignment_by};
ghost use Rattle.nz_term.specs.Values.{value_of};
ghost use Rattle.nz_truth.specs.Outcomes.{AreEvaluated, AreGiven, AreOutcomes, HasEvaluatedKids, IsGiven, IsOutcome, first_stop, outcome_in, values_in};

use crate::heads::{default_value, outcome_over};
use nz_base::Memory;
use nz_frac::Wide;
use nz_spec::table::{assigns_by_number, term_of_node};
use nz_term::{Assign, TermId, Terms, Value, known_table, post_order};
use std::alloc::{AllocError, Global};
use std::collections::HashMap;

/// What a term comes to.
#[derive(Clone, Copy, Debug)]
pub enum Outcome {
    /// Its value.
    Value(Value),
    /// The first operation, in post-order, that leaves the numbers.
    Wide(Wide),
}

/// What these roots come to, where the constants have the values that `assign` gives their numbers, and the defaults of their
/// sorts where it gives none. Each shared term is evaluated once. Takes time and memory in proportion to the roots and what
/// they are made of, whatever else the table has and however many constants are given.
pub fn outcomes(
    alloc: Global,
    terms: &Terms,
    roots: &[TermId],
    assign: &Assign,
) -> Result<Vec<Outcome>, Memory>
    requires within { All (λ r. r < length terms.now) roots.now }
    ensures outcomes { IfOk result (λ os. AreOutcomes terms.now (assignment_by terms.now assign.now) roots.now os.items) }
{
    let evaluated = evaluated(alloc, terms, roots, assign)?;
    Ok(outcomes_at(alloc, roots, &evaluated)?)
}

/// What is known of these terms.
fn outcomes_at(
    alloc: Global,
    ids: &[TermId],
    outcomes: &HashMap<TermId, Outcome>,
) -> Result<Vec<Outcome>, AllocError>
    ensures outcomes { IfOk result (λ os. os.items ≡ map (outcome_in outcomes.now) ids.now) }
{
    ids.iter()
        .map(|id| outcome_in(outcomes, *id))
        .collect(alloc)
}

/// What is known of a term; where nothing is, the answer is of no meaning.
fn outcome_in(outcomes: &HashMap<TermId, Outcome>, id: TermId) -> Outcome
    ensures outcome { result ≡ outcome_in outcomes.now id }
{
    outcomes
        .get(&id)
        .copied()
        .unwrap_or(Outcome::Value(Value::Truth(false)))
}

/// What the terms that these roots are made of come to, by their numbers.
pub(crate) fn evaluated(
    alloc: Global,
    terms: &Terms,
    roots: &[TermId],
    assign: &Assign,
) -> Result<HashMap<TermId, Outcome>, Memory>
    requires within { All (λ r. r < length terms.now) roots.now }
    ensures roots { IfOk result (λ os. AreEvaluated terms.now (assignment_by terms.now assign.now) roots.now (outcome_in os)) }
{
    term_of_node();
    assigns_by_number();
    known_table(terms);
    let mut outcomes = HashMap::new(alloc);
    let mut args = Vec::new(alloc);
    let order = post_order(alloc, terms, roots)?;
    for id in &order {
        let outcome = node_outcome(terms, *id, assign, &outcomes, &mut args)?;
        outcomes.insert(*id, outcome)?;
    }
    Ok(outcomes)
}

/// What a term comes to over what its arguments came to. Writes the values of these, as far as they are needed.
fn node_outcome(
    terms: &Terms,
    id: TermId,
    assign: &Assign,
    outcomes: &HashMap<TermId, Outcome>,
    args: &mut Vec<Value>,
) -> Result<Outcome, AllocError>
    requires within { id < length terms.now }
    ensures outcome { IfOk result (λ o. (a : Assignment) → AreGiven terms.now a assign.now → HasEvaluatedKids terms.now a id (outcome_in outcomes.now) → IsOutcome a (term_in terms.now id) o) }
{
    let node = terms.node(id);
    match gather(node.kids, outcomes, args)? {
        Some(wide) => Ok(Outcome::Wide(wide)),
        None => Ok(outcome_over(node.head, leaf(terms, id, assign), args)),
    }
}

/// The value of a numeral or a decimal, or of a constant: what is given, or the default of its sort.
fn leaf(terms: &Terms, id: TermId, assign: &Assign) -> Value
    requires within { id < length terms.now }
    ensures given { (a : Assignment) → AreGiven terms.now a assign.now → (n : Node) → slice_get terms.now id ≡ Some n → (ts : spec.Terms) → term_in terms.now id ≡ apply n.head ts → IsGiven a n.head (value_of result) }
{
    match terms.constant(id) {
        Some(number) => Value::Number(number),
        None => assign
            .value(id)
            .unwrap_or(default_value(terms.head(id).sort())),
    }
}

/// Writes the values of these terms, up to the first of them that has none; answers what that one came to.
pub(crate) fn gather(
    ids: &[TermId],
    outcomes: &HashMap<TermId, Outcome>,
    values: &mut Vec<Value>,
) -> Result<Option<Wide>, AllocError>
    ensures stop { IfOk result (λ o. o ≡ first_stop (map (outcome_in outcomes.now) ids.now)) }
    ensures values { OnOk result (first_stop (map (outcome_in outcomes.now) ids.now) ≡ None → values.new.items ≡ values_in (map (outcome_in outcomes.now) ids.now)) }
{
    values.clear();
    for id in ids {
        match outcome_in(outcomes, *id) {
            Outcome::Value(value) => values.push(value)?,
            Outcome::Wide(wide) => return Ok(Some(wide)),
        }
    }
    Ok(None)
}
