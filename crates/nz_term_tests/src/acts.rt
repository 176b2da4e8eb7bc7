//! Cases told by tables: what is made in a table of terms, and what is asked of it. One loop walks them, so that a test is one call, and cheap to prove.

use crate::calls::{
    found, has_constant, has_head, has_kids, instantiated, is_constant, is_linear_real,
    is_not_linear, listed, ordered,
};
use nz_base::{Memory, Text};
use nz_frac::Frac;
use nz_term::{Constant, Head, Operator, Sort, TermId, Terms, add_companions};
use nz_term_samples::{constant, leaf, negations, operation};
use std::alloc::Global;
use std::test::Fail;

/// What is made or asked, and what is to come of it: a term that is made has the number that is given last.
pub enum Act {
    /// The constant of this name, of sort Bool.
    Constant(&'static [u8], TermId),
    /// The first parameter, of this sort.
    Parameter(Sort, TermId),
    /// A numeral.
    Integer(u128, TermId),
    /// A decimal.
    Decimal(u128, usize, TermId),
    /// The term of an operator over these.
    Operation(Operator, &'static [TermId], TermId),
    /// The same, and then the table is cut back to what it was.
    Undone(Operator, &'static [TermId], TermId),
    /// The body of this number with these arguments for its parameters.
    Instance(TermId, &'static [TermId], TermId),
    /// The companions of all terms.
    Companions,
    /// The table has so many terms.
    Count(usize),
    /// These are two operators.
    Differ(Operator, Operator),
    /// The term of this number has this operator.
    HasHead(TermId, Operator),
    /// The term of this number has these arguments.
    HasKids(TermId, &'static [TermId]),
    /// The term of this number is the constant of this name, or it isn't.
    IsConstant(TermId, &'static [u8], bool),
    /// The terms below these roots come in this order.
    Ordered(&'static [TermId], &'static [TermId]),
    /// The terms below these roots are listed in this order, with the companions.
    Listed(&'static [TermId], &'static [TermId]),
    /// The negations of a constant, so many, come in the order of their numbers.
    Chain(usize),
    /// The table has the term of this operator over these by this number, or none.
    FindOperation(Operator, &'static [TermId], Option<TermId>),
    /// The table has this numeral by this number, or none.
    FindInteger(u128, Option<TermId>),
    /// The term of this number has this fraction for its value, or none.
    Value(TermId, Option<(i128, i128)>),
    /// The term of this number is linear, and made of none of sort Int but numbers.
    LinearReal(TermId),
    /// The term of this number isn't linear.
    NotLinear(TermId),
}

/// Something else than was wanted, and of which act or case.
#[derive(Clone, Copy, Debug)]
pub struct Wrong {
    pub place: usize,
}

/// The constant of this name, of sort Bool.
fn bool_constant(alloc: Global, name: &[u8]) -> Result<Constant, Memory> {
    Ok(Constant {
        name: Text::from_slice(alloc, name)?,
        sort: Sort::Bool,
    })
}

/// Whether the term of this number is the constant of this name.
fn has_name(alloc: Global, terms: &Terms, id: TermId, name: &[u8]) -> Result<bool, Memory> {
    let constant = bool_constant(alloc, name)?;
    Ok(is_constant(terms, id, &constant))
}

/// Makes a term, and cuts the table back to what it was. Answers the term's number.
fn undone(terms: &mut Terms, operator: Operator, kids: &[TermId]) -> Result<TermId, Memory> {
    let mark = terms.mark();
    let made = operation(terms, operator, kids);
    terms.cut(mark);
    made
}

/// Whether the negations of a constant come in the order of their numbers.
fn is_chain(alloc: Global, terms: &mut Terms, count: usize) -> Result<bool, Memory> {
    let last = negations(alloc, terms, count)?;
    let order = ordered(alloc, terms, &[last])?;
    Ok(
        order.len() == count.saturating_add(1)
            && order.first() == Some(&0)
            && order.last() == Some(&count),
    )
}

/// Whether the terms below these roots come in this order.
fn is_ordered(
    alloc: Global,
    terms: &Terms,
    roots: &[TermId],
    wanted: &[TermId],
) -> Result<bool, Memory> {
    let order = ordered(alloc, terms, roots)?;
    Ok(order.as_slice() == wanted)
}

/// Whether the terms below these roots are listed in this order.
fn is_listed(
    alloc: Global,
    terms: &mut Terms,
    roots: &[TermId],
    wanted: &[TermId],
) -> Result<bool, Memory> {
    let order = listed(alloc, terms, roots)?;
    Ok(order.as_slice() == wanted)
}

/// Whether the term of this number has this fraction for its value, or none.
fn has_value(terms: &Terms, id: TermId, value: Option<(i128, i128)>) -> bool {
    match value {
        Some((num, den)) => has_constant(terms, id, Frac::of(num, den)),
        None => has_constant(terms, id, None),
    }
}

/// The number of the term that an act makes, and the one that is wanted; none for an act that makes none.
fn made(alloc: Global, terms: &mut Terms, act: &Act) -> Result<Option<(TermId, TermId)>, Memory> {
    let (id, wanted) = match act {
        Act::Constant(name, id) => (constant(alloc, terms, name, Sort::Bool)?, *id),
        Act::Parameter(sort, id) => (leaf(terms, Head::Parameter(0, *sort))?, *id),
        Act::Integer(number, id) => (leaf(terms, Head::Integer(*number))?, *id),
        Act::Decimal(digits, places, id) => (leaf(terms, Head::Decimal(*digits, *places))?, *id),
        Act::Operation(operator, kids, id) => (operation(terms, *operator, kids)?, *id),
        Act::Undone(operator, kids, id) => (undone(terms, *operator, kids)?, *id),
        Act::Instance(body, kids, id) => (instantiated(alloc, terms, *body, kids)?, *id),
        _ => return Ok(None),
    };
    Ok(Some((id, wanted)))
}

/// Whether what an act asks of a table is so.
fn is_so(terms: &Terms, act: &Act) -> Result<bool, Memory> {
    Ok(match act {
        Act::Count(count) => terms.len() == *count && terms.is_empty() == (*count == 0),
        Act::Differ(one, other) => !Head::Operator(*one).is(Head::Operator(*other)),
        Act::HasHead(id, operator) => has_head(terms, *id, Head::Operator(*operator)),
        Act::HasKids(id, kids) => has_kids(terms, *id, kids),
        Act::FindOperation(operator, kids, id) => {
            found(terms, Head::Operator(*operator), kids)? == *id
        }
        Act::FindInteger(number, id) => found(terms, Head::Integer(*number), &[])? == *id,
        Act::Value(id, value) => has_value(terms, *id, *value),
        Act::LinearReal(id) => is_linear_real(terms, *id),
        Act::NotLinear(id) => is_not_linear(terms, *id),
        _ => false,
    })
}

/// Does what an act says. Answers whether that comes to what is wanted.
fn is_done(alloc: Global, terms: &mut Terms, act: &Act) -> Result<bool, Memory> {
    if let Some((id, wanted)) = made(alloc, terms, act)? {
        return Ok(id == wanted);
    }
    match act {
        Act::Companions => {
            add_companions(alloc, terms, 0)?;
            Ok(true)
        }
        Act::IsConstant(id, name, wanted) => Ok(has_name(alloc, terms, *id, name)? == *wanted),
        Act::Ordered(roots, wanted) => is_ordered(alloc, terms, roots, wanted),
        Act::Listed(roots, wanted) => is_listed(alloc, terms, roots, wanted),
        Act::Chain(count) => is_chain(alloc, terms, *count),
        _ => is_so(terms, act),
    }
}

/// Does these acts, the first of which has this place. Fails at one that comes to something else than is wanted.
fn follow(alloc: Global, terms: &mut Terms, first: usize, acts: &[Act]) -> Result<(), Fail> {
    for (index, act) in acts.iter().enumerate() {
        if !is_done(alloc, terms, act)? {
            let place = first.saturating_add(index);
            return Err(Fail::from(Wrong { place }));
        }
    }
    Ok(())
}

/// Does the acts that make terms, and those of a case after them.
fn follow_both(
    alloc: Global,
    terms: &mut Terms,
    terms_made: &[Act],
    acts: &[Act],
) -> Result<(), Fail> {
    follow(alloc, terms, 0, terms_made)?;
    follow(alloc, terms, terms_made.len(), acts)
}

/// Does these acts over a new table, first those that make its terms. Their places are counted through both lists.
pub fn run(alloc: Global, terms_made: &[Act], acts: &[Act]) -> Result<(), Fail> {
    let mut terms = Terms::new(alloc)?;
    follow_both(alloc, &mut terms, terms_made, acts)
}
