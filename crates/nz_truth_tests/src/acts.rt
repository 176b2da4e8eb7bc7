//! Cases told by tables: what is made in a table of terms, and what values are asked of it. One loop walks them, so that a test is one call, and cheap to
//! prove.

use crate::calls::{comes_to, have_values, leaves_numbers};
use nz_base::Memory;
use nz_frac::Op;
use nz_term::{NumberSort, Operator, Sort, TermId, Terms};
use nz_term_samples::{constant, negations, numeral, operation};
use std::alloc::Global;
use std::test::Fail;

/// What is made or asked, and what is to come of it.
pub enum Act {
    /// The constant p of this sort.
    Constant(Sort),
    /// A numeral.
    Integer(u128),
    /// The term of an operator over these.
    Operation(Operator, &'static [TermId]),
    /// The negation of the negation .. of p.
    Negations(usize),
    /// The sum of a sum .. of 1 with itself.
    Doublings(usize),
    /// The table has so many terms.
    Count(usize),
    /// These roots, where these pairs are assigned, have these truth values.
    Truths(&'static [TermId], &'static [(TermId, bool)], &'static [bool]),
    /// The term, where nothing is assigned, comes to this integer.
    ComesTo(TermId, i128),
    /// The first operation of these roots to leave the numbers is this one, on M and this number.
    Wide(&'static [TermId], Op, i128),
}

/// Something else than was wanted, and of which case.
#[derive(Clone, Copy, Debug)]
pub struct Wrong {
    pub place: usize,
}

/// The sum of a sum .. of 1 with itself.
fn doublings(terms: &mut Terms, count: usize) -> Result<TermId, Memory> {
    let mut last = numeral(terms, 1)?;
    for _ in 0..count {
        last = operation(terms, Operator::Sum(NumberSort::Int), &[last, last])?;
    }
    Ok(last)
}

/// Makes the term that an act tells, if it tells one.
fn make(alloc: Global, terms: &mut Terms, act: &Act) -> Result<(), Memory> {
    match act {
        Act::Constant(sort) => constant(alloc, terms, b"p", *sort)?,
        Act::Integer(number) => numeral(terms, *number)?,
        Act::Operation(operator, kids) => operation(terms, *operator, kids)?,
        Act::Negations(count) => negations(alloc, terms, *count)?,
        Act::Doublings(count) => doublings(terms, *count)?,
        _ => return Ok(()),
    };
    Ok(())
}

/// Whether what an act asks comes to what is wanted.
fn is_so(alloc: Global, terms: &Terms, act: &Act) -> Result<bool, Memory> {
    match act {
        Act::Count(count) => Ok(terms.len() == *count),
        Act::Truths(roots, pairs, wanted) => have_values(alloc, terms, roots, pairs, wanted),
        Act::ComesTo(root, wanted) => comes_to(alloc, terms, *root, *wanted),
        Act::Wide(roots, op, right) => leaves_numbers(alloc, terms, roots, *op, *right),
        _ => Ok(true),
    }
}

/// Does these acts, the first of which has this place. Fails at one that comes to something else than is wanted.
fn follow(alloc: Global, terms: &mut Terms, first: usize, acts: &[Act]) -> Result<(), Fail> {
    for (index, act) in acts.iter().enumerate() {
        make(alloc, terms, act)?;
        if !is_so(alloc, terms, act)? {
            let place = first.saturating_add(index);
            return Err(Fail::from(Wrong { place }));
        }
    }
    Ok(())
}

/// Does the acts that make terms, and those of a case after them.
fn follow_both(
    alloc: Global,
    terms: &mut Terms,
    terms_made: &[Act],
    acts: &[Act],
) -> Result<(), Fail> {
    follow(alloc, terms, 0, terms_made)?;
    follow(alloc, terms, terms_made.len(), acts)
}

/// Does these acts over a new table, first those that make its terms. Their places are counted through both lists.
pub fn run(alloc: Global, terms_made: &[Act], acts: &[Act]) -> Result<(), Fail> {
    let mut terms = Terms::new(alloc)?;
    follow_both(alloc, &mut terms, terms_made, acts)
}
