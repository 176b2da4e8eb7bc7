//! The rows of the link table: what ties a comparison of numbers to bounds on a sum.
ghost use Rattle.std.specs.Prelude.{◌<◌, ◌∷◌, [], All, IsTrue, length};
ghost use Rattle.nz_spec.specs.terms.FormOf.{number_in};
ghost use Rattle.nz_spec.specs.terms.Linear.{is_linear};
ghost use Rattle.nz_spec.specs.clauses.Links.{links_over};
ghost use Rattle.nz_spec.specs.terms.Order.{HasCompanions, IsInTable};
ghost use Rattle.nz_spec.specs.terms.Table.{term_in, terms_at};
ghost use Rattle.nz_spec.specs.terms.Term.{apply, is_int, to_int};
ghost use Rattle.nz_term.specs.Heads.{head_of};
ghost use Rattle.nz_rows.specs.Comparisons.{IsComparison, number_rows, order_rows};
ghost use Rattle.nz_rows.specs.Rows.{ComeOfRows, IsLinearIn, link_rows};

use crate::bounds::{Opposites, at_most_zero, below_zero, copied, limited, term_differences};
use crate::rows::{RowLiteral, Rows, no_rows, pair, then_row, triple, two_rows};
use crate::terms::{is_boolean, listed};
use nz_term::{ArithmeticStop, Head, Operator, TermId, TermLit, Terms};
use std::alloc::Global;

/// A comparison of numbers, by the numbers of their terms.
#[derive(Clone, Copy, Debug)]
pub(crate) enum Comparison {
    Less(TermId, TermId),
    AtMost(TermId, TermId),
    Equal(TermId, TermId),
    /// Whether rounding doesn't change it.
    IsInt(TermId),
}

/// The rows of the link table of a term, in their order.
///
/// # Errors
///
/// `Wide` with the first operation of the rows' forms that leaves the numbers; `Memory`.
pub fn link_rows(
    alloc: Global,
    terms: &Terms,
    term: TermId,
) -> Result<Vec<Vec<RowLiteral>>, ArithmeticStop>
    requires within { term < length terms.now }
    requires linear { IsTrue (is_linear (term_in terms.now term)) }
    requires companions { HasCompanions terms.now }
    ensures rows { ComeOfRows terms.now (link_rows terms.now (term_in terms.now term)) result }
{
    match compared(terms, term) {
        Some(Comparison::Less(left, right)) => order_rows(alloc, terms, term, left, right, true),
        Some(Comparison::AtMost(left, right)) => order_rows(alloc, terms, term, left, right, false),
        Some(Comparison::Equal(left, right)) => number_rows(alloc, terms, term, left, right),
        Some(Comparison::IsInt(argument)) => is_int_rows(alloc, terms, term, argument),
        None => no_rows(alloc),
    }
}

/// The comparison of numbers that a term is, if it is one.
fn compared(terms: &Terms, term: TermId) -> Option<Comparison>
    requires within { term < length terms.now }
    ensures compares { IsComparison terms.now (term_in terms.now term) result }
{
    let node = terms.node(term);
    comparison_over(terms, node.head, node.kids)
}

/// The same of the term of this head over these arguments.
fn comparison_over(terms: &Terms, head: Head<'_>, kids: &[TermId]) -> Option<Comparison>
    requires within { All (λ k. k < length terms.now) kids.now }
    ensures compares { IsComparison terms.now (apply (head_of head.entry) (terms_at (term_in terms.now) kids.now)) result }
{
    let Head::Operator(operator) = head else {
        return None;
    };
    match operator {
        Operator::Less => match kids {
            [left, right] => Some(Comparison::Less(*left, *right)),
            _ => None,
        },
        Operator::AtMost => match kids {
            [left, right] => Some(Comparison::AtMost(*left, *right)),
            _ => None,
        },
        Operator::Equal => match kids {
            [left, right] => {
                if is_boolean(terms, *left) {
                    None
                } else {
                    Some(Comparison::Equal(*left, *right))
                }
            }
            _ => None,
        },
        Operator::IsInt => match kids {
            [argument] => Some(Comparison::IsInt(*argument)),
            _ => None,
        },
        _ => None,
    }
}

/// The rows of `left < right` where it is strict, and else of `left <= right`.
#[tactic(auto, using(crate::proofs::Operations::stop_before))]
fn order_rows(
    alloc: Global,
    terms: &Terms,
    term: TermId,
    left: TermId,
    right: TermId,
    strict: bool,
) -> Rows
    requires term { term < length terms.now }
    requires left { IsLinearIn terms.now left }
    requires right { IsLinearIn terms.now right }
    ensures rows { ComeOfRows terms.now (order_rows (number_in terms.now) strict (term_in terms.now term) (term_in terms.now left) (term_in terms.now right)) result }
{
    let Opposites { forward, backward } = term_differences(alloc, terms, left, right)?;
    let below = pair(alloc, TermLit::fails(term), limited(Ok(forward), strict));
    let above = pair(alloc, TermLit::holds(term), limited(Ok(backward), !strict));
    two_rows(alloc, below, above)
}

/// The rows of an equation of numbers.
#[tactic(auto, using(crate::proofs::Operations::stop_before))]
fn number_rows(alloc: Global, terms: &Terms, term: TermId, left: TermId, right: TermId) -> Rows
    requires term { term < length terms.now }
    requires left { IsLinearIn terms.now left }
    requires right { IsLinearIn terms.now right }
    ensures rows { ComeOfRows terms.now (number_rows (number_in terms.now) (term_in terms.now term) (term_in terms.now left) (term_in terms.now right)) result }
{
    let Opposites { forward, backward } = term_differences(alloc, terms, left, right)?;
    let forward = Ok(forward);
    let backward = Ok(backward);
    let fails = TermLit::fails(term);
    let first = pair(alloc, fails, at_most_zero(copied(alloc, &forward)));
    let second = pair(alloc, fails, at_most_zero(copied(alloc, &backward)));
    let third = triple(
        alloc,
        TermLit::holds(term),
        below_zero(forward),
        below_zero(backward),
    );
    then_row(two_rows(alloc, first, second), third)
}

/// The rows of the test whether rounding changes a number: whether it is at most the rounded one, which stands beside it.
fn is_int_rows(alloc: Global, terms: &Terms, term: TermId, argument: TermId) -> Rows
    requires term { term < length terms.now }
    requires argument { IsLinearIn terms.now argument }
    requires rounded { IsInTable terms.now (apply to_int (terms_at (term_in terms.now) (argument ∷ []))) }
    ensures rows { ComeOfRows terms.now (links_over (number_in terms.now) (term_in terms.now term) is_int (term_in terms.now argument ∷ [])) result }
{
    let rounded = listed(terms, Operator::ToInt, &[argument])?;
    order_rows(alloc, terms, term, argument, rounded, false)
}
