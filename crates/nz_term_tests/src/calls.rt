//! Calls that ask something of numbers: it is tested here, and where it doesn't hold the answer fails the test.
use nz_base::Memory;
use nz_frac::Frac;
use nz_term::{
    Assign, Constant, Head, TermId, Terms, Value, add_companions, instance, listing_order,
    post_order,
};
use nz_term_samples::are_below;
use std::alloc::Global;

/// Whether the term of this number has this head.
pub(crate) fn has_head(terms: &Terms, id: TermId, head: Head<'_>) -> bool {
    id < terms.len() && terms.head(id).is(head)
}

/// Whether the term of this number has these arguments.
pub(crate) fn has_kids(terms: &Terms, id: TermId, kids: &[TermId]) -> bool {
    id < terms.len() && terms.kids(id) == kids
}

/// Whether the node of this number is that of this constant.
pub(crate) fn is_constant(terms: &Terms, id: TermId, constant: &Constant) -> bool {
    if terms.len() <= id {
        return false;
    }
    let node = terms.node(id);
    node.head.is(Head::Constant(constant)) && node.kids.is_empty()
}

/// The number of the term of this head over these arguments, where the table has it.
pub(crate) fn found(
    terms: &Terms,
    head: Head<'_>,
    arguments: &[TermId],
) -> Result<Option<TermId>, Memory> {
    if !are_below(arguments, terms.len()) {
        return Err(Memory);
    }
    terms.find(head, arguments)
}

/// The pair at this place.
pub(crate) fn pair(model: &Assign, index: usize) -> Option<(TermId, Value)> {
    if index < model.len() {
        Some(model.get(index))
    } else {
        None
    }
}

/// The terms below these roots, arguments first.
pub(crate) fn ordered(
    alloc: Global,
    terms: &Terms,
    roots: &[TermId],
) -> Result<Vec<TermId>, Memory> {
    if !are_below(roots, terms.len()) {
        return Err(Memory);
    }
    post_order(alloc, terms, roots)
}

/// The terms below these roots as they are listed, with the companions, which are made first.
pub(crate) fn listed(
    alloc: Global,
    terms: &mut Terms,
    roots: &[TermId],
) -> Result<Vec<TermId>, Memory> {
    add_companions(alloc, terms, 0)?;
    if !are_below(roots, terms.len()) {
        return Err(Memory);
    }
    listing_order(alloc, terms, roots)
}

/// The body with these arguments for its parameters.
pub(crate) fn instantiated(
    alloc: Global,
    terms: &mut Terms,
    body: TermId,
    arguments: &[TermId],
) -> Result<TermId, Memory> {
    if terms.len() <= body || !are_below(arguments, terms.len()) {
        return Err(Memory);
    }
    instance(alloc, terms, body, arguments)
}

/// Whether the term has this constant value, or none where none is given.
pub(crate) fn has_constant(terms: &Terms, id: TermId, value: Option<Frac>) -> bool {
    id < terms.len() && terms.constant(id) == value
}

/// Whether the term is linear, and made of none of sort Int but numbers.
pub(crate) fn is_linear_real(terms: &Terms, id: TermId) -> bool {
    id < terms.len() && terms.is_linear(id) && !terms.holds_integer(id)
}

/// Whether the term isn't linear.
pub(crate) fn is_not_linear(terms: &Terms, id: TermId) -> bool {
    id < terms.len() && !terms.is_linear(id)
}
