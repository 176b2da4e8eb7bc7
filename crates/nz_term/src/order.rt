//! The order of shared terms in which what a term is made of comes before it.
ghost use Rattle.std.specs.Prelude.{◌≡◌, ◌<◌, ◌++◌, [], length, map, flat_map, All, Contains, IfOk, OnOk};
ghost use Rattle.nz_spec.specs.terms.Table.{term_in};
ghost use Rattle.nz_spec.specs.terms.Order.{post_order, AreFirst, ComeBehindArguments};
ghost use Rattle.nz_term.specs.Steps.{entries, EntersArguments};

use crate::nodes::TermId;
use crate::terms::{Terms, known_table};
use nz_base::Memory;
use nz_spec::table::{one_number, term_of_node};
use std::alloc::Global;
use std::collections::HashSet;

// What is left to do of a term.
#[derive(Clone, Copy, Debug)]
enum Step {
    // The term and all that it is made of.
    Enter(TermId),
    // The term alone, since what it is made of is done.
    Leave(TermId),
}

// Puts the entries of these terms on the stack, that of the first one on top.
fn enter_each(steps: &mut Vec<Step>, ids: &[TermId]) -> Result<(), Memory>
    ensures entered { OnOk result (steps.new.items ≡ steps.old.items ++ entries ids.now) }
{
    for id in ids.iter().rev().copied() {
        steps.push(Step::Enter(id))?;
    }
    Ok(())
}

// Puts the entries of what comes before a term on the stack: its arguments, from the left.
fn enter_arguments(steps: &mut Vec<Step>, terms: &Terms, id: TermId) -> Result<(), Memory>
    requires within { id < length terms.now }
    ensures entered { OnOk result (EntersArguments terms.now id steps.old.items steps.new.items) }
{
    enter_each(steps, terms.node(id).kids)
}

/// The terms of these roots with all that they are made of, each once, in post-order: arguments come before, from the left.
/// Takes time and memory in proportion to these terms and their arguments, however deeply they nest and whatever else the
/// table has.
pub fn post_order(alloc: Global, terms: &Terms, roots: &[TermId]) -> Result<Vec<TermId>, Memory>
    requires within { All (λ r. r < length terms.now) roots.now }
    ensures order { IfOk result (λ ids. AreFirst [] (flat_map post_order (map (term_in terms.now) roots.now)) (map (term_in terms.now) ids.items)) }
    ensures within { IfOk result (λ ids. All (λ i. i < length terms.now) ids.items) }

    // So each of them can be taken when its arguments are done, and none of the roots is missed.
    ensures behind { IfOk result (λ ids. ComeBehindArguments terms.now ids.items) }
    ensures roots { IfOk result (λ ids. All (Contains ids.items) roots.now) }
{
    one_number();
    term_of_node();
    known_table(terms);
    let mut steps = Vec::new(alloc);
    enter_each(&mut steps, roots)?;
    let mut done = HashSet::new(alloc);
    let mut order = Vec::new(alloc);
    while let Some(step) = steps.pop() {
        match step {
            Step::Enter(id) => {
                if !done.contains(&id) {
                    steps.push(Step::Leave(id))?;
                    enter_arguments(&mut steps, terms, id)?;
                }
            }
            Step::Leave(id) => {
                done.insert(id)?;
                order.push(id)?;
            }
        }
    }
    Ok(order)
}
