//! The values of terms in a model, as they are told.
ghost use Rattle.std.specs.Prelude.{◌≡◌, IfOk};
ghost use Rattle.nz_spec.specs.terms.Term as term;
ghost use Rattle.nz_reply.specs.Values.{shown_of};
ghost use Rattle.nz_elaborate.specs.Typed.{AreTyped};
ghost use Rattle.nz_session.specs.Valued.{AreShown, numbers_typed, outcome_shown, outcomes_shown};

use nz_base::Memory;
use nz_elaborate::Typed;
use nz_reply::{Shown, Shows};
use nz_spec::term::normal_keeps_value;
use nz_term::{Assign, Sort, TermId, Terms};
use nz_truth::{Outcome, outcomes};
use std::alloc::Global;

/// What is told of these terms, where the constants have the values that are listed with their numbers.
pub(crate) fn values_shown(
    alloc: Global,
    terms: &Terms,
    values: &Assign,
    asked: &[Typed],
) -> Result<Shows, Memory>
    requires typed { (ts : term.Terms) × AreTyped terms.now asked.now ts }
    ensures shown { IfOk result (λ shows. AreShown terms.now values.now asked.now shows) }
{
    normal_keeps_value();
    let roots = numbers_of(alloc, asked)?;
    let found = outcomes(alloc, terms, &roots, values)?;
    shows_of(alloc, asked, &found)
}

/// The numbers of terms.
fn numbers_of(alloc: Global, asked: &[Typed]) -> Result<Vec<TermId>, Memory>
    ensures numbers { IfOk result (λ ids. ids.items ≡ numbers_typed asked.now) }
{
    Ok(asked.iter().map(|typed| typed.id).collect(alloc)?)
}

/// What is told of the outcomes of terms.
fn shows_of(alloc: Global, asked: &[Typed], found: &[Outcome]) -> Result<Shows, Memory>
    ensures shows { IfOk result (λ shows. shows ≡ outcomes_shown asked.now found.now) }
{
    let mut shows = Shows::new(alloc);
    for (typed, outcome) in asked.iter().zip(found) {
        shows.push(shown(typed.sort, *outcome))?;
    }
    Ok(shows)
}

/// What is told of the outcome of a term of this sort.
fn shown(sort: Sort, outcome: Outcome) -> Shown
    ensures shown { shown_of result ≡ outcome_shown sort outcome }
{
    match outcome {
        Outcome::Value(value) => Shown::Value(sort, value),
        Outcome::Wide(wide) => Shown::Wide(wide),
    }
}
